//! The program: words of the command line, the system's files and standard streams, and the status as exit code.
#![tactic(auto)]

use se_options::{Words, words_of_bytes};
use se_outside::{RealFiles, RealSink, RegexPatterns};
use se_tools::{Status, run};
use std::alloc::{AllocError, Global};
use std::env::{self, Args};
use std::fs;
use std::io::ErrorKind;
use std::process::ExitCode;

// The bytes that Linux tells of the words, where the standard library does not give them as texts.
const COMMAND_LINE: &str = "/proc/self/cmdline";

// The words after the program's name.
fn words_of(rt: &HostRuntime) -> Result<Words, AllocError> {
    match env::args(rt) {
        Ok(args) => words_of_texts(rt.alloc(), args),
        Err(error) if error.kind() == ErrorKind::OutOfMemory => Err(AllocError),
        Err(_) => words_as_told(rt),
    }
}

// The words where all are texts.
fn words_of_texts(alloc: Global, args: Args) -> Result<Words, AllocError> {
    let mut words = Words::new(alloc);
    for word in args.skip(1) {
        words.push(word.as_str())?;
    }
    Ok(words)
}

// The words where some are no texts. Where the system does not tell them, one that is no text stands for all.
fn words_as_told(rt: &HostRuntime) -> Result<Words, AllocError> {
    match fs::read(rt, COMMAND_LINE) {
        Ok(bytes) => words_of_bytes(rt.alloc(), &bytes),
        Err(error) if error.kind() == ErrorKind::OutOfMemory => Err(AllocError),
        Err(_) => {
            let mut words = Words::new(rt.alloc());
            words.push_not_text()?;
            Ok(words)
        }
    }
}

fn main(rt: HostRuntime) -> ExitCode {
    let Ok(words) = words_of(&rt) else {
        return ExitCode::from(Status::Memory.code());
    };
    let mut files = RealFiles::new(&rt);
    let mut out = RealSink::new(rt.stdout());
    let mut err = RealSink::new(rt.stderr());
    let mut patterns = RegexPatterns::new();
    let status = run(
        rt.alloc(),
        &words,
        &mut files,
        &mut patterns,
        &mut out,
        &mut err,
    );
    ExitCode::from(status.code())
}
