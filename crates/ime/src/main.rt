//! `ime`, a table engine in two formats: plays a script on standard input, and writes the replies to standard output.
#![tactic(auto)]

ghost use Rattle.std.specs.Prelude.{◌≡◌, ◌<◌};

use im_edge::{OpenGate, StdSink, StdSource};
use im_shell::{Status, Word, run};
use im_values::Steps;
use std::alloc::Global;
use std::io::ErrorKind;
use std::marker::Brand;
use std::process::ExitCode;
use std::sync::Wait;
use std::sync::ledger::{Blank, Ledger};
use std::thread::Threads;
use std::{env, io};

/// How the program ends where its words cannot be had: memory ran out, or one of them is no text.
fn status_without_words(error: &io::Error) -> Status {
    match error.kind() {
        ErrorKind::OutOfMemory => Status::NoMemory,
        _ => Status::Usage,
    }
}

/// The words of the command line, or how the program ends without them.
fn words(alloc: Global, rt: &HostRuntime) -> Result<Vec<Word>, Status> {
    let arguments = match env::args(rt) {
        Ok(arguments) => arguments,
        Err(error) => return Err(status_without_words(&error)),
    };
    let mut words = Vec::new(alloc);
    for argument in arguments {
        if words.push(Word::of(argument)).is_err() {
            return Err(Status::NoMemory);
        }
    }
    Ok(words)
}

/// Runs the program over the standard streams, with a count of steps that nobody reads.
fn play<R: Input + Print + Threads + Wait + Sync, L: Ledger>(
    rt: &R,
    alloc: Global,
    words: &[Word],
    blank: Blank,
) -> Status
    requires name { blank.name ≡ L.name }
    requires parts { blank.parts ≡ L.parts }
    requires some { 0 < blank.parts }
{
    let mut source = StdSource::new(rt.reader());
    let mut sink = StdSink::new(io::writer(rt));
    let mut steps = Steps::<L>::new(rt, blank);
    run(
        rt,
        alloc,
        words,
        &mut source,
        &mut sink,
        &OpenGate,
        &mut steps,
    )
}

fn main(rt: HostRuntime) -> ExitCode {
    let alloc = rt.alloc();
    let status = match words(alloc, &rt) {
        Ok(words) => play::<HostRuntime, Brand>(&rt, alloc, words.as_slice(), Blank::new(1)),
        Err(status) => status,
    };
    if let Some(line) = status.line() {
        // A line that cannot be written changes nothing: the exit status says the same.
        let _ = rt.eprintln(line);
    }
    ExitCode::from(status.code())
}
