//! Reading a line.

ghost use Rattle.std.specs.Prelude.{◌≡◌, ◌+◌, ◌<◌, [], false, length, IfOk, IfErr, IfSome};
ghost use Rattle.std.specs.Prelude.{IfNone};
ghost use Rattle.av_io.specs.Count.{one_more};
ghost use Rattle.av_ports.specs.Ports.{ReadsOn, IsAtEnd, AreFlushed, room};
ghost use Rattle.av_ports.specs.Line.{FailsOnly, Finds, LineRead, IsUnread};

use crate::pending::Pending;
use crate::ports::Ports;
use crate::run_err::RunErr;
use memchr::memchr;

/// So many bytes without a newline are no line.
const TOO_LONG: usize = 8449;

/// What stands in front of some bytes: a line of so many bytes with its newline, more than a line
/// may have, or a part of a line.
#[derive(Clone, Copy, Drop, Debug, PartialEq, Eq)]
enum FoundLine {
    Line(usize),
    TooLong,
    Part,
}

/// Looks for the first newline.
fn find_line(bytes: &[u8]) -> FoundLine
    ensures { Finds result bytes.now }
{
    let most = bytes.len().min(TOO_LONG);
    match memchr(b'\n', &bytes[..most]) {
        Some(size) => FoundLine::Line(size),
        None if most == TOO_LONG => FoundLine::TooLong,
        None => FoundLine::Part,
    }
}

/// A line in front of some bytes: how many it has, and how many with its newline. The last one may
/// have none.
#[derive(Clone, Copy, Drop, Debug, PartialEq, Eq)]
pub struct Line {
    pub size: usize,
    pub whole: usize,
}

/// Reads on, and says how many bytes came. 0 is the end of the input.
///
/// The sink is flushed first: who waits for the replies so far, before going on, sees them.
pub fn read_on<P: Ports>(ports: &mut P, pending: &mut Pending) -> Result<usize, RunErr>
    requires { length pending.old < room }
    ensures reads { ReadsOn pending.old pending.new (P.view ports.old) (P.view ports.new) }
    ensures more { IfOk result (λ n. length pending.new ≡ length pending.old + n) }
    ensures ended { IfOk result
        (λ n. n ≡ 0 → (pending.new ≡ pending.old) × IsAtEnd (P.view ports.new).source) }
    ensures stays_open { IfOk result
        (λ n. 0 < n → (P.view ports.new).source.has_told_end ≡ false) }
    ensures once { IfOk result
        (λ n. (P.view ports.new).source.reads ≡ one_more (P.view ports.old).source.reads) }
    ensures unfailed { FailsOnly result (P.view ports.old) (P.view ports.new) }
    ensures flushed { AreFlushed 0 (P.view ports.old) (P.view ports.new) }
    ensures none_kept { IfErr result
        (λ e. e ≡ RunErr.Read → (P.view ports.new).sink.kept_back ≡ []) }
    ensures err { IfErr result (λ e. (pending.new ≡ pending.old)
        × IsUnread e (P.view ports.old) (P.view ports.new)) }
    ensures kept { P.kept ports.new ≡ P.kept ports.old }
{
    if ports.flush().is_err() {
        return Err(RunErr::Write);
    }
    match pending.fill(ports) {
        Ok(count) => Ok(count),
        Err(_) => Err(RunErr::Read),
    }
}

/// Reads on until a line has come, and says where it ends; or None, where the input has ended
/// before another. A line has at most 8,448 bytes: where more come without a newline it is
/// `BadLine`. `Read` and `Write` tell which call failed.
pub fn read_line<P: Ports>(ports: &mut P, pending: &mut Pending) -> Result<Option<Line>, RunErr>
    ensures reads { ReadsOn pending.old pending.new (P.view ports.old) (P.view ports.new) }
    ensures line { LineRead result pending.new (P.view ports.old) (P.view ports.new) }
    ensures unfailed { FailsOnly result (P.view ports.old) (P.view ports.new) }
    ensures flushed { AreFlushed 0 (P.view ports.old) (P.view ports.new) }
    ensures none_kept { IfErr result
        (λ e. e ≡ RunErr.Read → (P.view ports.new).sink.kept_back ≡ []) }
    ensures kept { P.kept ports.new ≡ P.kept ports.old }
{
    loop {
        match find_line(pending.as_slice()) {
            FoundLine::Line(size) => {
                return Ok(Some(Line {
                    size,
                    whole: size + 1,
                }));
            }
            FoundLine::TooLong => return Err(RunErr::BadLine),
            FoundLine::Part => {}
        }
        if read_on(ports, pending)? == 0 {
            return Ok(last_line(pending.as_slice().len()));
        }
    }
}

/// What is left at the end of the input, so many bytes: a last line without newline, or none.
fn last_line(size: usize) -> Option<Line>
    ensures none { IfNone result (size ≡ 0) }
    ensures some { IfSome result
        (λ line. (0 < size) × (line ≡ record { size = size; whole = size })) }
{
    if size == 0 {
        return None;
    }
    Some(Line { size, whole: size })
}
