//! Reading a trace, up to its mark.

ghost use Rattle.std.specs.Prelude.{◌≡◌, ◌≢◌, ◌<◌, ◌≤◌, List, [], IfOk, IfErr, OnOk, OnErr, length};
ghost use Rattle.std.specs.Prelude.{true, false};
ghost use Rattle.av_ports.specs.Line.{HasNoNewline};
ghost use Rattle.av_ports.specs.Ports.{room, undone};
ghost use Rattle.av_trace.specs.declared.command.Command.{Command};
ghost use Rattle.av_audit_input.specs.Input.{FailsOnly, OnlyReads};
ghost use Rattle.av_audit_input.specs.Script.{Becomes, IsScript};
ghost use Rattle.av_audit_input.specs.Trace.{mark, IsKept, IsNotKept, StopsLine, StopsMark};
ghost use Rattle.av_audit_input.specs.Trace.{StopsWithin, TakesMark, TakesNext, TakesTrace};
ghost use Rattle.av_audit_input.specs.Trace.{last_error};
ghost use Rattle.av_audit_input.specs.Trace.{next_of};

use crate::input_err::{InputErr, error_at};
use crate::script::Script;
use av_line::{LineErr, parse_line};
use av_ports::{Pending, Ports, RunErr, read_line};
use std::alloc::Global;

/// The lines of a trace, at most.
const MOST_LINES: u32 = 1 << 24;

/// The line behind which the transcript stands.
const MARK: &[u8] = b"%%";

/// What may come behind a line: another one, the transcript, or nothing.
#[derive(Clone, Copy, Drop, Debug, PartialEq, Eq)]
enum Next {
    Line,
    Transcript,
    End,
}

/// Whether a line is the mark.
fn is_mark(line: &[u8]) -> bool
    ensures yes { result ≡ true → line.now ≡ mark }
    ensures no { result ≡ false → line.now ≢ mark }
{
    line == MARK
}

/// Keeps a line, if it says a command and isn't the mark; and says whether it is.
fn keep(alloc: Global, line: &[u8], number: u32, script: &mut Script) -> Result<bool, InputErr>
    requires few { script.old.count < number }
    requires one { HasNoNewline line.now }
    ensures kept { IfOk result
        (λ marked. Becomes script.old script.new (IsKept marked line.now)) }
    ensures err { IfErr result (λ e. IsNotKept e number line.now) }
{
    if is_mark(line) {
        return Ok(true);
    }
    match parse_line(alloc, line) {
        Ok(None) => Ok(false),
        Ok(Some(_)) => {
            script.push(line)?;
            Ok(false)
        }
        Err(LineErr::Bad) => Err(InputErr::BadLine(number)),
        Err(LineErr::Memory) => Err(InputErr::Memory),
    }
}

/// What may come behind a line, by whether it is the mark, and whether it has its newline.
fn next_of(marked: bool, ended: bool) -> Next
    ensures { result ≡ next_of marked ended }
{
    match (marked, ended) {
        (_, true) => Next::End,
        (true, false) => Next::Transcript,
        (false, false) => Next::Line,
    }
}

/// Reads a line of the trace, and says what may come behind it.
fn next_line<P: Ports>(
    alloc: Global,
    ports: &mut P,
    pending: &mut Pending,
    number: u32,
    script: &mut Script,
) -> Result<Next, InputErr>
    requires few { script.old.count < number }
    ensures taken { IfOk result (λ next. Becomes script.old script.new (TakesNext next pending.old
        pending.new (P.view ports.old) (P.view ports.new))) }
    ensures stops { IfErr result (λ e. StopsLine e number pending.new (P.view ports.new)) }
    ensures near { length pending.new ≤ room }
    ensures same { OnErr result
        (undone pending.new (P.view ports.new) ≡ undone pending.old (P.view ports.old)) }
    ensures only { OnlyReads (P.view ports.old) (P.view ports.new) }
    ensures fails { FailsOnly result (P.view ports.old) (P.view ports.new) }
    ensures kept { P.kept ports.new ≡ P.kept ports.old }
{
    let line = match read_line(ports, pending) {
        Ok(Some(line)) => line,
        Ok(None) => return Ok(Next::End),
        Err(error) => return Err(error_at(error, number)),
    };
    let marked = keep(alloc, &pending.as_slice()[..line.size], number, script)?;
    pending.skip(line.whole);
    Ok(next_of(marked, line.whole == line.size))
}

/// Why the mark could not be had, behind as many lines as may be.
fn last_error(error: RunErr) -> InputErr
    ensures { result ≡ last_error error }
{
    match error {
        RunErr::BadLine => InputErr::TooMany,
        RunErr::Read => InputErr::Read,
        RunErr::Write => InputErr::Write,
        RunErr::Memory => InputErr::Memory,
    }
}

/// After as many lines as may be only the mark may come. Says whether the input has ended.
fn take_mark<P: Ports>(ports: &mut P, pending: &mut Pending) -> Result<bool, InputErr>
    ensures taken { IfOk result (λ ended. TakesMark ended pending.old pending.new (P.view ports.old)
        (P.view ports.new)) }
    ensures stops { IfErr result (λ e. StopsMark e pending.new (P.view ports.new)) }
    ensures near { length pending.new ≤ room }
    ensures same { OnErr result
        (undone pending.new (P.view ports.new) ≡ undone pending.old (P.view ports.old)) }
    ensures only { OnlyReads (P.view ports.old) (P.view ports.new) }
    ensures fails { FailsOnly result (P.view ports.old) (P.view ports.new) }
    ensures kept { P.kept ports.new ≡ P.kept ports.old }
{
    let line = match read_line(ports, pending) {
        Ok(Some(line)) => line,
        Ok(None) => return Ok(true),
        Err(error) => return Err(last_error(error)),
    };
    if !is_mark(&pending.as_slice()[..line.size]) {
        return Err(InputErr::TooMany);
    }
    pending.skip(line.whole);
    Ok(line.whole == line.size)
}

/// Reads a trace up to the line `%%`, which is taken, or to the end of the input, and keeps the
/// lines that say commands; none are kept before. Says whether the input has ended.
pub fn read_trace<P: Ports>(
    alloc: Global,
    ports: &mut P,
    pending: &mut Pending,
    script: &mut Script,
) -> Result<bool, InputErr>
    requires { IsScript script.old [] }
    ensures taken { IfOk result (λ ended. (commands : List Command) × IsScript script.new commands
        × TakesTrace ended commands pending.old pending.new (P.view ports.old)
        (P.view ports.new)) }
    ensures stops { IfErr result
        (λ e. StopsWithin e pending.old pending.new (P.view ports.old) (P.view ports.new)) }
    ensures only { OnlyReads (P.view ports.old) (P.view ports.new) }
    ensures fails { FailsOnly result (P.view ports.old) (P.view ports.new) }
    ensures kept { P.kept ports.new ≡ P.kept ports.old }
{
    for number in 0..MOST_LINES {
        match next_line(alloc, ports, pending, number + 1, script)? {
            Next::Line => {}
            Next::Transcript => return Ok(false),
            Next::End => return Ok(true),
        }
    }
    take_mark(ports, pending)
}
