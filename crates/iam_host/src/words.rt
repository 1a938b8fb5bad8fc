// The words of the command line.
use iam_outer::{List, OutOfMemory, Text};
use iam_server::Status;
use std::alloc::Global;
use std::env;
use std::io::ErrorKind;
use std::rt::Env;

fn push_word(alloc: Global, words: &mut List<Text>, word: &str) -> Result<(), OutOfMemory> {
    words.push(Text::of(alloc, word)?)
}

pub fn words_of<R: Env + AllocGlobal>(rt: &R) -> Result<List<Text>, Status> {
    let args = match env::args(rt) {
        Ok(args) => args,
        Err(e) if e.kind() == ErrorKind::OutOfMemory => return Err(Status::OutOfMemory),
        Err(_) => return Err(Status::Words),
    };
    let alloc: Global = rt.alloc();
    let mut words = List::new(alloc);
    for arg in args.skip(1) {
        if push_word(alloc, &mut words, arg.as_str()).is_err() {
            return Err(Status::OutOfMemory);
        }
    }
    Ok(words)
}
