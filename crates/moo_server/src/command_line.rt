//! The words of a command line, and what is told of those that say nothing.
ghost use Rattle.std.specs.Prelude.{◌≡◌};

use crate::play::{DONE, FAULT, stopped};
use clap::Error;
use clap::error::ErrorKind;
use std::alloc::{AllocError, Global};
use std::env::FillError;
use std::io::Write;
use std::rt::Env;
use std::{env, io, str};

// The longest word that the system hands to a program.
const LONGEST_WORD: usize = 131_072;

/// The words, the first of which is the program's name.
pub fn read_words<R: Env + AllocGlobal>(rt: &R) -> io::Result<Vec<String>> {
    let words = env::args(rt)?.collect(rt.alloc())?;
    Ok(words)
}

/// The words as texts.
pub fn as_texts<'a>(alloc: Global, words: &'a [String]) -> Result<Vec<&'a str>, AllocError> {
    let mut texts = Vec::with_capacity(alloc, words.len())?;
    for word in words {
        texts.push(word.as_str())?;
    }
    Ok(texts)
}

/// Says what is wrong, in a line that begins with the program's name.
pub fn refuse<E: Write>(errors: &mut E, program: &str, fault: &str) -> u8
    ensures { result ≡ 2 }
{
    let _ = writeln!(errors, "{program}: {fault}");
    FAULT
}

/// The words could not be read: memory ran out, or one of them is not UTF-8. It is told as it was given.
pub fn refuse_words<R: Env + AllocGlobal, E: Write>(
    rt: &R,
    errors: &mut E,
    program: &str,
    error: &io::Error,
) -> u8 {
    if error.kind() == io::ErrorKind::OutOfMemory {
        return stopped(errors, 0);
    }
    let mut word = Vec::new(rt.alloc());
    if word.resize(LONGEST_WORD, 0).is_err() {
        return stopped(errors, 0);
    }
    for i in 0..usize::MAX {
        match rt.arg(i, &mut word) {
            Ok(length) if str::from_utf8(&word[..length]).is_err() => {
                let _ = tell_unreadable(errors, program, &word[..length]);
                break;
            }
            Err(FillError::NotPresent) => break,
            _ => {}
        }
    }
    FAULT
}

fn tell_unreadable<E: Write>(errors: &mut E, program: &str, word: &[u8]) -> io::Result<()> {
    errors.write_all(program.as_bytes())?;
    errors.write_all(b": cannot read ")?;
    errors.write_all(word)?;
    errors.write_all(b"\n")
}

/// The words say nothing that can be run: tells why, or shows the help that they ask for.
pub fn refuse_options<R: Print + Eprint, E: Write>(rt: &R, errors: &mut E, error: &Error) -> u8 {
    if error.kind() == ErrorKind::OutOfMemory {
        return stopped(errors, 0);
    }
    match error.print(rt) {
        Ok(()) if !error.use_stderr() => DONE,
        _ => FAULT,
    }
}

/// The line of a file that cannot be read.
pub fn cannot_read(alloc: Global, name: &str) -> Result<String, AllocError> {
    format!(in alloc; "cannot read {name}")
}
