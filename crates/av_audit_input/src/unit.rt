//! Reading a transcript, unit by unit.

ghost use Rattle.std.specs.Prelude.{◌≡◌, ◌<◌, ◌≤◌, [], IfOk, IfErr, OnOk, OnErr, is_ok, length};
ghost use Rattle.std.specs.Prelude.{true, false};
ghost use Rattle.av_ports.specs.Ports.{room, undone};
ghost use Rattle.av_audit_input.specs.Input.{FailsOnly, HasMore, IsEnded, IsNoPortErr, IsOpen};
ghost use Rattle.av_audit_input.specs.Input.{IsPortErr};
ghost use Rattle.av_audit_input.specs.Input.{OnlyReads};
ghost use Rattle.av_audit_input.specs.Unit.{LeavesPiece, StopsUnit, TakesPiece, TakesUnit};
ghost use Rattle.av_audit_input.specs.Unit.{most_bytes};

use crate::input_err::{InputErr, error_at};
use crate::piece::{is_whole, piece_size};
use av_ports::{Pending, Ports, read_on};

/// What may still come of a transcript: so many bytes at most, and none where the input has ended.
#[derive(Clone, Copy, Drop, Debug, PartialEq, Eq)]
pub struct Extent {
    pub left: u64,
    pub ended: bool,
}

impl Extent {
    /// A transcript of at most 2^32 bytes, of which nothing was read; none where the input ended.
    pub fn new(ended: bool) -> Extent
        ensures { result ≡ record { left = most_bytes; ended = ended } }
    {
        Extent {
            left: 1 << 32,
            ended,
        }
    }
}

/// Takes the next piece of what was read onto the unit.
fn take_piece(
    pending: &mut Pending,
    extent: &mut Extent,
    unit: &mut Vec<u8>,
) -> Result<(), InputErr>
    requires { 0 < length pending.old }
    ensures ok { OnOk result (TakesPiece extent.old.left extent.new.left pending.old pending.new
        unit.old.items unit.new.items) }
    ensures ended { extent.new.ended ≡ extent.old.ended }
    ensures err { IfErr result (λ e. LeavesPiece e extent.old.left pending.old) }
    ensures same { OnErr result (pending.new ≡ pending.old) }
    ensures same_unit { OnErr result (unit.new.items ≡ unit.old.items) }
{
    let ahead = pending.as_slice();
    let size = piece_size(ahead);
    if size as u64 > extent.left {
        return Err(InputErr::TooLong);
    }
    unit.extend_from_slice(&ahead[..size])?;
    pending.skip(size);
    extent.left -= size as u64;
    Ok(())
}

/// Reads on where nothing is left of what was read, and says whether there is something then.
fn has_more<P: Ports>(
    ports: &mut P,
    pending: &mut Pending,
    extent: &mut Extent,
) -> Result<bool, InputErr>
    requires ended { extent.old.ended ≡ true → IsEnded pending.old (P.view ports.old) }
    ensures more { IfOk result (λ more. HasMore more pending.new (P.view ports.new)) }
    ensures none { IfOk result (λ more. more ≡ false → extent.new.ended ≡ true) }
    ensures stays { IfOk result (λ more. IsOpen extent.old.ended extent.new.ended pending.new
        (P.view ports.old) (P.view ports.new)) }
    ensures left { extent.new.left ≡ extent.old.left }
    ensures same { undone pending.new (P.view ports.new) ≡ undone pending.old (P.view ports.old) }
    ensures only { OnlyReads (P.view ports.old) (P.view ports.new) }
    ensures fails { FailsOnly result (P.view ports.old) (P.view ports.new) }
    ensures near { length pending.new ≤ room }
    ensures err { IfErr result IsPortErr }
    ensures none_left { OnErr result (pending.new ≡ []) }
    // Behind its end nothing is read.
    ensures over { extent.old.ended ≡ true → is_ok result ≡ true }
    ensures kept { P.kept ports.new ≡ P.kept ports.old }
{
    if !pending.as_slice().is_empty() {
        return Ok(true);
    }
    if extent.ended {
        return Ok(false);
    }
    match read_on(ports, pending) {
        Ok(count) => {
            extent.ended = count == 0;
            Ok(count > 0)
        }
        Err(error) => Err(error_at(error, 0)),
    }
}

/// Reads the next unit, which is put in place of what `unit` holds, and says whether there is one.
pub fn read_unit<P: Ports>(
    ports: &mut P,
    pending: &mut Pending,
    extent: &mut Extent,
    unit: &mut Vec<u8>,
) -> Result<bool, InputErr>
    requires ended { extent.old.ended ≡ true → IsEnded pending.old (P.view ports.old) }
    ensures taken { IfOk result (λ some. TakesUnit some unit.new.items extent.old.left
        extent.new.left pending.old pending.new (P.view ports.old) (P.view ports.new)) }
    ensures none { IfOk result (λ some. some ≡ false → extent.new.ended ≡ true) }
    ensures stops { IfErr result (λ e. StopsUnit e extent.old.left unit.new.items
        (undone pending.old (P.view ports.old)) pending.new (P.view ports.new)) }
    ensures near { length pending.new ≤ room }
    ensures stays { IfOk result (λ some. IsOpen extent.old.ended extent.new.ended pending.new
        (P.view ports.old) (P.view ports.new)) }
    ensures only { OnlyReads (P.view ports.old) (P.view ports.new) }
    ensures fails { FailsOnly result (P.view ports.old) (P.view ports.new) }
    // Behind the end of the input nothing is read.
    ensures over { extent.old.ended ≡ true → IfErr result IsNoPortErr }
    ensures kept { P.kept ports.new ≡ P.kept ports.old }
{
    unit.clear();
    while has_more(ports, pending, extent)? {
        if is_whole(unit, pending.as_slice()) {
            return Ok(true);
        }
        take_piece(pending, extent, unit)?;
    }
    let size = unit.len();
    Ok(size > 0)
}
