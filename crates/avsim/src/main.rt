//! Replays a trace, does a load or judges a transcript, over the swap files that the words name, if
//! any.
//!
//! Proved: which text the words ask for, by the status of a run the number with which the program
//! ends and the failure that it prints, and at which lines of a load how many hundredths are due;
//! and that of standard output no call is made after one that failed. The texts themselves are only
//! tested, and that they reach standard output and standard error, and what real swap files hold.
//!
//! Texts are kept in a buffer that is handed on before each read of standard input and at the end.
//! So whoever drives the program line by line sees each reply at once, and a long trace doesn't
//! pay a system call a line.
#![tactic(auto)]

ghost use Rattle.std.specs.Prelude.{IfOk};
ghost use Rattle.av_replay.specs.Attach.{HasNone};

mod failure;
mod help;
mod meter;
mod output;

use crate::failure::{Failure, exit_number};
use crate::help::text_for;
use crate::meter::Meter;
use crate::output::UntilFailed;
use av_io::{ReadSource, WriteSink};
use av_replay::{Status, run};
use av_swapdev::{FileDev, HostFiles, SwapDev};
use std::alloc::AllocError;
use std::env;
use std::io::{self, ErrorKind};
use std::process::ExitCode;

/// The words of the command line, without the program's name. A word that is no text is a usage
/// error.
fn collect_words(rt: &HostRuntime) -> Result<Vec<String>, Status> {
    let args = match env::args(rt) {
        Ok(args) => args,
        Err(error) if error.kind() == ErrorKind::OutOfMemory => return Err(Status::Memory),
        Err(_) => return Err(Status::Usage),
    };
    let mut words = Vec::new(rt.alloc());
    for word in args.skip(1) {
        if words.push(word).is_err() {
            return Err(Status::Memory);
        }
    }
    Ok(words)
}

/// Prints a text. It fails as a run does whose output fails.
fn print_text(rt: &HostRuntime, text: &str) -> Status {
    match print!(rt; "{text}") {
        Ok(()) => Status::Done,
        Err(_) => Status::WriteFault,
    }
}

/// A device over the files of the host, of which none is attached yet.
fn host_dev(rt: &HostRuntime) -> Result<FileDev<HostFiles<HostRuntime>>, AllocError>
    ensures { IfOk result (λ dev.
        HasNone (⟦<FileDev<HostFiles<HostRuntime>> as SwapDev>⟧.sizes dev)) }
{
    FileDev::new(rt.alloc(), HostFiles::new(rt.clone()?))
}

/// Runs the program on its words, over standard input and output.
fn run_program(rt: &HostRuntime) -> Status {
    let words = match collect_words(rt) {
        Ok(words) => words,
        Err(status) => return status,
    };
    if let Some(text) = text_for(&words) {
        return print_text(rt, text);
    }
    let mut source = ReadSource::new(rt.reader());
    let Ok(mut sink) = WriteSink::new(rt.alloc(), UntilFailed::new(io::writer(rt))) else {
        return Status::Memory;
    };
    let Ok(mut dev) = host_dev(rt) else {
        return Status::Memory;
    };
    let mut meter = Meter::new(rt);
    let outcome = run(
        rt.alloc(),
        &words,
        &mut source,
        &mut sink,
        &mut dev,
        &mut meter,
    );
    // Where memory was wanting the load wasn't made to its end.
    meter.clear();
    outcome.leave_kernel()
}

fn main(rt: HostRuntime) -> ExitCode {
    let status = run_program(&rt);
    if let Some(failure) = Failure::of(status) {
        // Nothing is left to be done where standard error takes nothing.
        let _ = eprintln!(rt; "avsim: {failure}");
    }
    ExitCode::from(exit_number(status))
}
