//! Swap areas that go on and off.

ghost use Rattle.std.specs.Prelude.{◌≡◌, OnErr, OnOk};
ghost use Rattle.av_plain.specs.Event.{TurnedOff, TurnedOn, after};
ghost use Rattle.av_audit_book.specs.Book.{area_of, ledger_of};

use av_audit_book::{Area, Book};
use std::alloc::AllocError;

/// A swap area is on. Without memory all stays.
pub fn turn_on(book: &mut Book, number: u8, area: Area) -> Result<(), AllocError>
    ensures ok { OnOk result (ledger_of book.new
        ≡ after (ledger_of book.old) (TurnedOn number (area_of area))) }
    ensures err { OnErr result (ledger_of book.new ≡ ledger_of book.old) }
{
    book.on.insert(number, area)?;
    Ok(())
}

/// A swap area is on no longer.
pub fn turn_off(book: &mut Book, number: u8)
    ensures { ledger_of book.new ≡ after (ledger_of book.old) (TurnedOff number) }
{
    book.on.remove(&number);
}
