// The words of a call.
use std::rt::Env;
use std::{env, io};

/// The words after the program's name. The error is that memory is out, or that a word is not text: those are the words
/// of no command.
pub fn words_of<R: Env + AllocGlobal>(rt: &R) -> io::Result<Vec<String>> {
    let mut words = Vec::new(rt.alloc());
    for word in env::args(rt)?.skip(1) {
        words.push(word)?;
    }
    Ok(words)
}
