// Why a body gives nothing.
ghost use Rattle.std.specs.Prelude.{◌≡◌, [], IfOk, string_bytes};
ghost use Rattle.iam_json_data.specs.Path.{separator_before, under, item_name};
ghost use Rattle.iam_json_data.specs.Stop.{MovesOut};

use iam_text::Text;
use std::alloc::{AllocError, Global};

#[derive(Drop)]
pub enum BodyStop {
    /// It is no JSON.
    BadJson,
    /// The first member that is missing, of another JSON type or unreadable: names joined by `.`, `[i]` for an
    /// item, and empty for the body itself.
    BadField { path: Text },
    OutOfMemory,
}

impl From<AllocError> for BodyStop {
    ghost use Rattle.iam_json_data.specs.declared.stop.BodyStop.TheVariants.{OutOfMemory};

    ghost from_gives = { λ e stop. stop ≡ OutOfMemory };

    fn from(_: AllocError) -> BodyStop {
        BodyStop::OutOfMemory
    }
}

impl From<iam_text::OutOfMemory> for BodyStop {
    ghost use Rattle.iam_json_data.specs.declared.stop.BodyStop.TheVariants.{OutOfMemory};

    ghost from_gives = { λ e stop. stop ≡ OutOfMemory };

    fn from(_: iam_text::OutOfMemory) -> BodyStop {
        BodyStop::OutOfMemory
    }
}

/// The value itself is bad.
pub fn bad_here(alloc: Global) -> BodyStop
    ensures { result ≡ BodyStop.BadField [] }
{
    BodyStop::BadField {
        path: Text::from(String::new(alloc)),
    }
}

fn separator(path: &str) -> &'static str
    ensures { result.now ≡ separator_before path.now }
{
    match path.as_bytes() {
        [] => "",
        [first, ..] => { if *first == b'[' { "" } else { "." } }
    }
}

fn joined(alloc: Global, name: &str, path: &str) -> Result<Text, AllocError>
    ensures { IfOk result (λ text. text ≡ under name.now path.now) }
{
    let mut text = String::from_str(alloc, name)?;
    text.push_str(separator(path))?;
    text.push_str(path)?;
    Ok(Text::from(text))
}

impl BodyStop {
    /// The same stop, its path seen from outside of what has this name.
    pub fn under(self, alloc: Global, name: &str) -> BodyStop
        ensures { MovesOut name.now self result }
    {
        match self {
            BodyStop::BadField { path } => match joined(alloc, name, path.as_str()) {
                Ok(path) => BodyStop::BadField { path },
                Err(_) => BodyStop::OutOfMemory,
            },
            BodyStop::BadJson => BodyStop::BadJson,
            BodyStop::OutOfMemory => BodyStop::OutOfMemory,
        }
    }

    /// The same stop, seen from outside of an item.
    pub fn at_item(self, alloc: Global, place: usize) -> BodyStop
        ensures { MovesOut (item_name place) self result }
    {
        match item_text(alloc, place) {
            Ok(name) => self.under(alloc, name.as_str()),
            Err(_) => {
                drop(self);
                BodyStop::OutOfMemory
            }
        }
    }
}

fn item_text(alloc: Global, place: usize) -> Result<String, AllocError>
    ensures { IfOk result (λ text. string_bytes text ≡ item_name place) }
{
    format!(in alloc; "[{place}]")
}
