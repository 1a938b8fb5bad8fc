// Lines, of which equal ones in a row are written once.
use iam_outer::OutOfMemory;
use std::alloc::{AllocError, Global};
use std::fmt::Write;

/// What is written, and the line behind it, which came so many times by now.
#[derive(Drop)]
pub struct Lines {
    written: String,
    line: String,
    count: u64,
}

impl Lines {
    pub fn new(alloc: Global) -> Lines {
        Lines {
            written: String::new(alloc),
            line: String::new(alloc),
            count: 0,
        }
    }

    fn write_line(&mut self) -> Result<(), AllocError> {
        let (line, count) = (self.line.as_str(), self.count);
        match count {
            0 => Ok(()),
            1 => write!(self.written, "{line}\n"),
            _ => write!(self.written, "{count} times: {line}\n"),
        }
    }

    pub fn push(&mut self, line: &str) -> Result<(), OutOfMemory> {
        if self.count > 0 && self.line.as_str() == line {
            self.count = self.count.saturating_add(1);
            return Ok(());
        }
        self.write_line()?;
        self.line.clear();
        self.line.push_str(line)?;
        self.count = 1;
        Ok(())
    }

    pub fn into_text(mut self) -> Result<String, OutOfMemory> {
        self.write_line()?;
        Ok(self.written)
    }
}
