//! The bytes of the frames, which take memory when they are first written.

ghost use Rattle.std.specs.Prelude.{◌≡◌, ℕ, ◌+◌, ◌-◌, ◌<◌, ◌≤◌, ◌++◌, [], length, replicate};
ghost use Rattle.std.specs.Prelude.{slice_index, slice_index_or, slice_set, IfOk, vec_len};
ghost use Rattle.std.specs.Prelude.{vec_capacity};
ghost use Rattle.av_base.specs.Page.{page_size};
ghost use Rattle.av_frames.specs.Pages.{zeros, WritesOver};
ghost use Rattle.av_frames.specs.Store.{overlaid};

use av_base::PAGE_SIZE;
use std::alloc::{AllocError, Global};
use std::marker::Model;

/// How many bytes a page has.
const SIZE: usize = PAGE_SIZE as usize;

static ZEROS: [u8; SIZE] = [0; SIZE];

/// The bytes of a fixed number of frames, zeros at first. Only `new` asks for memory, and a page's
/// is touched when it is first written.
#[derive(Drop)]
pub struct Pages {
    // The pages of the first frames, with room for those of all. What is not there is zeros.
    filled: Vec<[u8; SIZE]>,
    count: usize,
}

impl Model for Pages {
    ghost use Rattle.std.specs.Prelude.{ℕ, List, ◌≤◌, vec_len, vec_capacity};
    ghost use Rattle.av_frames.specs.Pages.{all_pages};

    ghost Value = { List (List ℕ) };

    ghost view = { λ p. all_pages p.filled.items p.count };

    ghost invariant = { λ p. (vec_len p.filled ≤ p.count) × (p.count ≤ vec_capacity p.filled) };
}

impl Pages {
    /// So many pages of zeros.
    pub fn new(alloc: Global, count: usize) -> Result<Pages, AllocError>
        ensures { IfOk result (λ pages. pages ≡ replicate count zeros) }
    {
        Ok(Pages {
            filled: Vec::with_capacity(alloc, count)?,
            count,
        })
    }

    /// How many pages there are.
    pub fn count(&self) -> usize
        ensures { result ≡ length self.now }
    {
        self.count
    }

    /// The bytes of a page.
    pub fn get(&self, frame: usize) -> &[u8; SIZE]
        requires { frame < length self.now }
        ensures { result.now ≡ slice_index_or self.now frame [] }
    {
        match self.filled.get(frame) {
            Some(page) => page,
            None => &ZEROS,
        }
    }

    /// Puts a page in the place of one that is there.
    pub fn put(&mut self, frame: usize, page: &[u8])
        requires in_range { frame < length self.old }
        requires long { length page.now ≡ page_size }
        ensures { self.new ≡ slice_set self.old frame page.now }
    {
        fill(&mut self.filled, frame + 1);
        overwrite(&mut self.filled[frame], page);
    }

    /// Makes each byte of a page zero. One that was never written is so already.
    pub fn clear(&mut self, frame: usize)
        requires { frame < length self.old }
        ensures { self.new ≡ slice_set self.old frame zeros }
    {
        if frame < self.filled.len() {
            self.filled[frame] = ZEROS;
        }
    }

    /// Puts the bytes of one page in the place of another's.
    pub fn copy(&mut self, from: usize, to: usize)
        requires { (from < length self.old) × (to < length self.old) }
        ensures { self.new ≡ slice_set self.old to (slice_index_or self.old from []) }
    {
        if to < self.filled.len() {
            self.filled[to] = *self.get(from);
        } else {
            // A page that was never written is not cleared first.
            let page = *self.get(from);
            fill(&mut self.filled, to);
            self.filled.push_reserved(page);
        }
    }

    /// Writes a piece over a page's bytes from `at` on.
    pub fn write_at(&mut self, frame: usize, at: usize, piece: &[u8])
        requires in_range { frame < length self.old }
        requires fits { at + length piece.now ≤ page_size }
        ensures { WritesOver frame
            (overlaid at piece.now (slice_index (slice_index_or self.old frame [])))
            self.old self.new }
    {
        fill(&mut self.filled, frame + 1);
        overlay(&mut self.filled[frame], at, piece);
    }
}

// Adds pages of zeros until there are so many.
fn fill(pages: &mut Vec<[u8; SIZE]>, count: usize)
    requires { count ≤ vec_capacity pages.old }
    ensures items { pages.new.items
        ≡ pages.old.items ++ replicate (count - length pages.old.items) zeros }
    ensures capacity { vec_capacity pages.new ≡ vec_capacity pages.old }
{
    for _ in pages.len()..count {
        pages.push_reserved(ZEROS);
    }
}

// Writes a page over another one.
fn overwrite(page: &mut [u8; SIZE], other: &[u8])
    requires { length other.now ≡ page_size }
    ensures { page.new ≡ other.now }
{
    page.copy_from_slice(other);
}

// Writes a piece over a page from `at` on.
fn overlay(page: &mut [u8; SIZE], at: usize, piece: &[u8])
    requires { at + length piece.now ≤ page_size }
    ensures over { (i : ℕ) →
        slice_index page.new i ≡ overlaid at piece.now (slice_index page.old) i }
    ensures long { length page.new ≡ page_size }
{
    page[at..at + piece.len()].copy_from_slice(piece);
}
