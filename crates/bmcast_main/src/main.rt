//! The program: `bmcast` over real files and standard output.
//!
//! It reads the words of the command line, lets `bmcast` do what they say, and ends with the status's number.
//! `docs/formats.md` has the words and the statuses.
//!
//! Its test is the run without words, whose end the files `stdout` and `status` of this crate hold.

#![tactic(auto)]

use bm_host::FileHost;
use bmcast::bmcast;
use std::process::ExitCode;
use std::rt::Env;
use std::{env, io};

/// The status where the words of the command line can't be had.
const NO_WORDS: u8 = 8;

fn main(rt: HostRuntime) -> ExitCode {
    let Ok(words) = read_words(&rt) else {
        return ExitCode::from(NO_WORDS);
    };
    let mut host = FileHost::new(&rt);
    let status = bmcast(rt.alloc(), words.as_slice(), &mut host);
    ExitCode::from(status.exit_code())
}

// The words after the program's name.
fn read_words(rt: &(impl Env + AllocGlobal)) -> io::Result<Vec<String>> {
    let mut words = Vec::new(rt.alloc());
    for word in env::args(rt)?.skip(1) {
        words.push(word)?;
    }
    Ok(words)
}
