//! The bench as a program: the words of its command line, standard input and standard output.
#![tactic(auto)]

ghost use Rattle.std.specs.Prelude.{◌≡◌, ◌<◌};

use osektime_core::{Status, Words, serve};
use std::env::Env;
use std::io::ErrorKind;
use std::marker::Brand;
use std::process::ExitCode;
use std::{env, io};
use tt_base::{Blank, Ledger, Steps};
use tt_io::{StdSink, StdSource};

/// The exit status where the words cannot be read as text. No command answers it.
const NOT_TEXT: u8 = 13;

fn main(rt: HostRuntime) -> ExitCode {
    run::<Brand>(&rt, Blank::new(1))
}

/// Collects the words, answers the command, and gives its exit status.
fn run<L: Ledger>(rt: &HostRuntime, blank: Blank) -> ExitCode
    requires name { blank.name ≡ L.name }
    requires parts { blank.parts ≡ L.parts }
    requires whole { 0 < blank.parts }
{
    let mut steps = Steps::<L>::new(blank);
    let words = match words_of(rt) {
        Ok(words) => words,
        Err(code) => return ExitCode::from(code),
    };
    let mut input = StdSource::new(rt.stdin());
    let mut output = StdSink::new(rt.stdout());
    let status = serve(rt.alloc(), &words, &mut input, &mut output, &mut steps);
    ExitCode::from(status.code())
}

/// The words after the program's name, or the exit status that says why there are none.
fn words_of<R: Env + AllocGlobal>(rt: &R) -> Result<Words, u8> {
    let args = match env::args(rt) {
        Ok(args) => args,
        Err(e) if is_memory(&e) => return Err(Status::Memory.code()),
        Err(_) => return Err(NOT_TEXT),
    };
    let mut words = Words::new(rt.alloc());
    for arg in args.skip(1) {
        if words.push(arg.as_bytes()).is_err() {
            return Err(Status::Memory.code());
        }
    }
    Ok(words)
}

fn is_memory(e: &io::Error) -> bool {
    matches!(e.kind(), ErrorKind::OutOfMemory)
}
