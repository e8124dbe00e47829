//! The bytes of pages are read and written, page by page.

ghost use Rattle.std.specs.Prelude.{◌≡◌, ◌+◌, ◌<◌, ◌≤◌, ◌^◌, ◌++◌, ℕ, IfOk, OnOk, length};
ghost use Rattle.std.specs.Prelude.{map, slice_index, true};
ghost use Rattle.std.specs.BTreeMap.{get};
ghost use Rattle.std.specs.List.{AllByRecursion, range_with_len};
ghost use Rattle.std.specs.Ordering.{nat_cmp};
ghost use Rattle.av_base.specs.Page.{address_of, page_size};
ghost use Rattle.av_plain.specs.Access.{Reads, after_write};
ghost use Rattle.av_plain.specs.World.{Process, World, lives, pages, with_bytes};
ghost use Rattle.av_audit_world.specs.Bytes.{overlaid};
ghost use Rattle.av_audit_world.specs.Memories.{IsWorld};
ghost use Rattle.av_audit_world.specs.Space.{IsSpace, byte_in};

use crate::memories::Memories;
use crate::space::Space;
use av_base::PAGE_SIZE;
use std::alloc::AllocError;
use std::rc::Rc;

const SIZE: usize = PAGE_SIZE as usize;

/// Adds zeros until there are so many bytes.
fn reach(kept: &mut Vec<u8>, len: usize) -> Result<(), AllocError>
    ensures same { OnOk result ((i : ℕ)
        → slice_index kept.new.items i ≡ slice_index kept.old.items i) }
    ensures long { OnOk result (len ≤ length kept.new.items) }
{
    kept.resize(kept.len().max(len), 0)?;
    Ok(())
}

/// A piece is laid over bytes from a place on. Those before it that aren't there yet are 0.
fn lay(kept: &mut Vec<u8>, at: usize, piece: &[u8]) -> Result<(), AllocError>
    requires { at + length piece.now ≤ page_size }
    ensures { OnOk result ((i : ℕ) → slice_index kept.new.items i
        ≡ overlaid at piece.now (slice_index kept.old.items) i) }
{
    let end = at + piece.len();
    reach(kept, end)?;
    kept[at..end].copy_from_slice(piece);
    Ok(())
}

/// The same of bytes that others may share: these get a copy of their own first.
fn lay_apart(kept: &mut Rc<Vec<u8>>, at: usize, piece: &[u8]) -> Result<(), AllocError>
    requires { at + length piece.now ≤ page_size }
    ensures { OnOk result ((i : ℕ) → slice_index kept.new.value.items i
        ≡ overlaid at piece.now (slice_index kept.old.value.items) i) }
{
    let own = Rc::make_mut(kept)?;
    lay(own, at, piece)
}

/// Adds so many bytes from a place on. Those past the end are 0.
fn show(kept: &[u8], at: usize, len: usize, shown: &mut Vec<u8>) -> Result<(), AllocError>
    requires { at + len ≤ page_size }
    ensures { OnOk result (shown.new.items
        ≡ shown.old.items ++ map (slice_index kept.now) (range_with_len at len)) }
{
    let end = shown.len() + len;
    let there = &kept[at.min(kept.len())..(at + len).min(kept.len())];
    shown.extend_from_slice(there)?;
    shown.resize(end, 0)?;
    Ok(())
}

/// Each is a byte.
fn fit(bytes: &[u8])
    ensures { AllByRecursion (λ b. b < 2 ^ 8) bytes.now }
{
    let _ = bytes;
}

impl Space {
    /// A piece is laid over the bytes of a page from a place on. Without memory a part may be done.
    fn lay(&mut self, page: u64, at: usize, piece: &[u8]) -> Result<(), AllocError>
        requires { at + length piece.now ≤ page_size }
        ensures { OnOk result ((q : Process) → IsSpace self.old q
            → IsSpace self.new (with_bytes q (address_of page + at) piece.now)) }
    {
        if let Some(kept) = self.bytes.get_mut(&page) {
            return lay_apart(kept, at, piece);
        }
        let mut kept = Vec::new(self.alloc);
        lay(&mut kept, at, piece)?;
        let kept = Rc::new(self.alloc, kept)?;
        self.bytes.insert(page, kept)?;
        Ok(())
    }

    /// Adds so many bytes of a page from a place on.
    fn show(&self, page: u64, at: usize, len: usize, shown: &mut Vec<u8>) -> Result<(), AllocError>
        requires { at + len ≤ page_size }
        ensures { OnOk result (shown.new.items ≡ shown.old.items
            ++ map (byte_in (get nat_cmp self.now.bytes page)) (range_with_len at len)) }
    {
        match self.bytes.get(&page) {
            None => show(&[], at, len, shown),
            Some(kept) => show(kept.as_ref().as_slice(), at, len, shown),
        }
    }

    /// Stores bytes from an address on. Without memory a part may be done.
    pub fn write(&mut self, address: u64, bytes: &[u8]) -> Result<(), AllocError>
        ensures { OnOk result ((q : Process) → IsSpace self.old q
            → IsSpace self.new (with_bytes q address bytes.now)) }
    {
        let mut page = address / PAGE_SIZE;
        let mut at = (address % PAGE_SIZE) as usize;
        let mut rest = bytes;
        while !rest.is_empty() {
            let (piece, others) = rest.split_at(rest.len().min(SIZE - at));
            self.lay(page, at, piece)?;
            page += 1;
            at = 0;
            rest = others;
        }
        Ok(())
    }

    /// The n bytes from an address on, where its pages are mapped.
    pub fn read(&self, address: u64, n: usize) -> Result<Vec<u8>, AllocError>
        ensures { IfOk result (λ shown. (q : Process) → IsSpace self.now q
            → Reads q address n shown.items) }
    {
        let mut shown = Vec::new(self.alloc);
        let mut page = address / PAGE_SIZE;
        let mut at = (address % PAGE_SIZE) as usize;
        let mut rest = n;
        while rest > 0 {
            let len = rest.min(SIZE - at);
            self.show(page, at, len, &mut shown)?;
            page += 1;
            at = 0;
            rest -= len;
        }
        fit(shown.as_slice());
        Ok(shown)
    }
}

impl Memories {
    /// Stores bytes of a process from an address on. Without memory a part may be done.
    pub fn write(&mut self, number: u16, address: u64, bytes: &[u8]) -> Result<(), AllocError>
        ensures { OnOk result ((w : World) → IsWorld self.old w → lives w number ≡ true
            → IsWorld self.new (after_write w number address bytes.now)) }
    {
        if bytes.is_empty() {
            return Ok(());
        }
        match self.spaces.get_mut(&number) {
            None => Ok(()),
            Some(space) => space.write(address, bytes),
        }
    }

    /// The n bytes of a process from an address on, where its pages are mapped.
    pub fn read(&self, number: u16, address: u64, n: usize) -> Result<Vec<u8>, AllocError>
        ensures { IfOk result (λ shown. (w : World) → IsWorld self.now w
            → Reads (pages w number) address n shown.items) }
    {
        match self.spaces.get(&number) {
            None => Space::new(self.alloc).read(address, n),
            Some(space) => space.read(address, n),
        }
    }
}
