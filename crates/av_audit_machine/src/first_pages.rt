//! The machine of an audit, where page 0 of each swap area is there as bytes.

ghost use Rattle.std.specs.Prelude.{◌≡◌, ◌≤◌, ◌^◌, length, IfOk};
ghost use Rattle.av_audit_book.specs.Machine.{AreNamed, setting_of};
ghost use Rattle.av_audit_machine.specs.FirstPages.{IsReadFrom, setting_by};
ghost use Rattle.av_audit_machine.specs.Heads.{AreCounted};

use crate::heads::layout_in;
use av_audit_book::{Head as ReadHead, Machine};
use av_swapdev::PAGE_LEN;
use std::alloc::{AllocError, Global};

/// A swap area: how many pages it has, and the bytes of page 0. Of an area without pages they say
/// nothing.
#[derive(Clone, Copy, Drop)]
pub struct Head<'a> {
    pub pages: u32,
    pub first: &'a [u8; PAGE_LEN],
}

/// What page 0 of an area with so many pages says, as bytes.
fn head_read(alloc: Global, pages: u32, first: &[u8; PAGE_LEN]) -> Result<ReadHead, AllocError>
    ensures { IfOk result (IsReadFrom pages first.now) }
{
    Ok(ReadHead {
        pages,
        layout: layout_in(alloc, first, pages)?,
    })
}

/// A machine of so many frames with these swap areas, by number.
pub fn machine_of_heads(
    alloc: Global,
    frames: u32,
    heads: &[Head<'_>],
) -> Result<Machine, AllocError>
    requires { length heads.now ≤ 2 ^ 8 }
    ensures setting { IfOk result
        (λ machine. setting_of machine ≡ setting_by frames heads.now) }
    ensures named { IfOk result (λ machine. AreNamed (setting_of machine)) }
    ensures counted { IfOk result AreCounted }
    ensures frames { IfOk result (λ machine. machine.frames ≡ frames) }
{
    let mut read = Vec::new(alloc);
    for head in heads {
        let first = head.first;
        read.push(head_read(alloc, head.pages, first)?)?;
    }
    Ok(Machine {
        frames,
        heads: read,
    })
}
