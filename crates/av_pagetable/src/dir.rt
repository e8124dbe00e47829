//! An upper table of a page table, over any table below it.

ghost use Rattle.std.specs.Prelude.{◌≡◌, ℕ, ◌+◌, ◌-◌, ◌<◌, ◌≤◌, length, slice_index_or, IfOk};
ghost use Rattle.std.specs.Prelude.{MatchOption};
ghost use Rattle.std.specs.List.{AllPairs, HoldsAt};
ghost use Rattle.av_base.specs.Words.{with_at};
ghost use Rattle.av_pagetable.specs.Table.{IsRun, ReachesLast, page_bound, run_size};
ghost use Rattle.av_pagetable.specs.Table.{without_range};
ghost use Rattle.av_pagetable.specs.Dir.{alone, count_from, entries, no_entry, AreParts};
ghost use Rattle.av_pagetable.specs.Dir.{AreSideBySide};
ghost use Rattle.av_pagetable.specs.declared.pte.Pte.{Pte};

use crate::level::Level;
use crate::parts::Parts;
use crate::pte::Pte;
use crate::table::RUN;
use std::alloc::{AllocError, Global};
use std::marker::Model;

/// A table of 512 parts: of a page table's tables below, or of its entries. It keeps the parts that
/// have an entry, by rising number, and gives back the others. The first lies in the table itself,
/// and an array begins with the second (`Parts`), so that a table with one part asks for no memory
/// of its own, and a new one for none.
///
/// It is seen as the list of these parts with their numbers.
#[derive(Drop)]
pub struct Dir<C: Level> {
    alloc: Global,
    parts: Parts<C>,
}

impl<C: Level> Model for Dir<C> {
    ghost use Rattle.std.specs.Prelude.{ℕ, List};

    ghost Value = { List (ℕ × C) };

    ghost use Rattle.av_pagetable.specs.Dir.{AreParts};
    ghost use Rattle.av_pagetable.specs.Parts.{parts_in};

    ghost view = { λ d. parts_in d.parts };

    ghost invariant = { λ d. AreParts C.at C.span (parts_in d.parts) };
}

impl<C: Level> Level for Dir<C> {
    ghost use Rattle.std.specs.Prelude.{ℕ, ◌*◌, ◌∷◌};
    ghost use Rattle.av_pagetable.specs.Dir.{entries};

    ghost at = { entries C.at C.span };

    ghost span = { C.span * 512 };

    ghost own = { (C.span * 512) ∷ C.own };

    #[inline]
    fn span() -> u64 {
        C::span() * 512
    }

    fn new(alloc: Global) -> Result<Self, AllocError> {
        Ok(Dir {
            alloc,
            parts: Parts::new(alloc),
        })
    }

    #[inline]
    fn is_empty(&self) -> bool {
        self.parts.is_empty()
    }

    #[inline(always)]
    fn get(&self, page: u64) -> Pte {
        let span = C::span();
        match self.part(page / span) {
            Some(part) => part.get(page % span),
            None => Pte::Empty,
        }
    }

    #[inline(always)]
    fn get_near(&self, page: u64) -> Option<Pte> {
        let span = C::span();
        self.near_part(page / span)?.get_near(page % span)
    }

    #[inline]
    fn set(&mut self, page: u64, entry: Pte) -> Result<(), AllocError> {
        let span = C::span();
        let number = page / span;
        let there = page % span;
        match self.place(number) {
            Ok(place) => {
                let part = self.parts.at_mut(place);
                part.1.set(there, entry)
            }
            Err(place) => {
                let part = with_one(self.alloc, there, entry)?;
                self.parts.insert(self.alloc, place, (number as u16, part))?;
                Ok(())
            }
        }
    }

    fn set_run(&mut self, page: u64, run: &[Pte]) -> Result<(), AllocError> {
        let span = C::span();
        let mut done = 0;
        while done < run.len() {
            let from = page + done as u64;
            let there = from % span;
            let len = (span - there).min((run.len() - done) as u64) as usize;
            self.set_in(from / span, there, &run[done..done + len])?;
            done += len;
        }
        Ok(())
    }

    #[inline]
    fn change(&mut self, page: u64, entry: Pte) {
        let span = C::span();
        match self.place(page / span) {
            Ok(place) => {
                let part = self.parts.at_mut(place);
                part.1.change(page % span, entry);
            }
            Err(_) => {}
        }
    }

    #[inline(always)]
    fn change_near(&mut self, page: u64, entry: Pte) -> bool {
        let span = C::span();
        let Some(place) = self.near_place(page / span) else {
            return false;
        };
        let part = self.parts.at_mut(place);
        part.1.change_near(page % span, entry)
    }

    fn clear_range(&mut self, from: u64, past: u64) {
        let span = C::span();
        let (first, last) = (from / span, past / span);
        if first == last {
            self.clear_in(first, from % span, past % span);
        } else if first < last {
            self.clear_up_to(from, last);
            self.clear_in(last, 0, past % span);
        }
    }

    #[inline]
    fn next_from(&self, page: u64) -> Option<u64> {
        if self.parts.is_empty() {
            return None;
        }
        let span = C::span();
        match self.place(page / span) {
            Ok(place) => match self.next_in(place, page % span) {
                Some(found) => Some(found),
                None => self.first_in(place + 1),
            },
            Err(place) => self.first_in(place),
        }
    }

    #[inline]
    fn first(&self) -> Option<u64> {
        let _span = C::span();
        if self.parts.is_empty() {
            return None;
        }
        self.first_in(0)
    }

    fn for_child(&self) -> Result<Self, AllocError> {
        let parts = self.parts.for_child(self.alloc)?;
        Ok(Dir {
            alloc: self.alloc,
            parts,
        })
    }

    fn write_protect(&mut self) {
        self.parts.write_protect();
    }

    fn held(&self) -> u64 {
        self.below() + 1
    }
}

impl<C: Level> Dir<C> {
    ghost use Rattle.std.specs.Prelude.{◌≡◌, ℕ, ◌+◌, ◌*◌, ◌/◌, ◌<◌, ◌≤◌, [], MatchOption, length};
    ghost use Rattle.std.specs.Prelude.{option_map, IfSome, Some};
    ghost use Rattle.std.specs.List.{AllWithin};
    ghost use Rattle.av_pagetable.specs.Table.{GivesRun, page_bound, with_run, without_range};
    ghost use Rattle.av_pagetable.specs.Dir.{part_of, entries, entries_at, IsPlace, IsFirstIn};
    ghost use Rattle.av_pagetable.specs.Held.{AreHeld};
    ghost use Rattle.av_pagetable.specs.declared.pte.Pte.{Pte};

    /// Takes out all parts.
    pub fn clear(&mut self)
        ensures { self.new ≡ [] }
    {
        self.parts.clear(self.alloc);
    }

    /// The part of this number, if there is one.
    #[inline(always)]
    pub fn part(&self, number: u64) -> Option<&C>
        ensures { option_map (λ part. part.now) result ≡ part_of self.now number }
    {
        if let Some(part) = self.near_part(number) {
            return Some(part);
        }
        let parts = &self.parts;
        if parts.is_empty() {
            return None;
        }
        match self.place_past(number) {
            Ok(place) => Some(&parts.at(place).1),
            Err(_) => None,
        }
    }

    // The part of this number, where it is found at once: it stands first, as where pages are far
    // apart and each level has one part, or no number from the first one up to it is missing.
    #[inline(always)]
    fn near_part(&self, number: u64) -> Option<&C>
        ensures { IfSome result (λ part. part_of self.now number ≡ Some part.now) }
    {
        let parts = &self.parts;
        if parts.is_empty() {
            return None;
        }
        let first = parts.at(0);
        if u64::from(first.0) == number {
            return Some(&first.1);
        }
        let reach = number.wrapping_sub(u64::from(first.0));
        if reach < parts.len() as u64 {
            let part = parts.at(reach as usize);
            if u64::from(part.0) == number {
                return Some(&part.1);
            }
        }
        None
    }

    // The place of that part, where it is found at once.
    #[inline(always)]
    fn near_place(&self, number: u64) -> Option<usize>
        ensures { IfSome result (λ k. (k < length self.now)
            × HoldsAt (λ part. part.0 ≡ number) self.now k) }
    {
        let parts = &self.parts;
        if parts.is_empty() {
            return None;
        }
        let first = u64::from(parts.at(0).0);
        if first == number {
            return Some(0);
        }
        let reach = number.wrapping_sub(first);
        if reach < parts.len() as u64 && u64::from(parts.at(reach as usize).0) == number {
            return Some(reach as usize);
        }
        None
    }

    // The place of the part of this number, or where it would stand.
    #[inline(always)]
    fn place(&self, number: u64) -> Result<usize, usize>
        ensures { IsPlace number self.now result }
    {
        if let Some(place) = self.near_place(number) {
            return Ok(place);
        }
        if self.parts.is_empty() {
            return Err(0);
        }
        self.place_past(number)
    }

    // The same, where there is a part: at an end, or by a guess, else by a search.
    #[inline(never)]
    fn place_past(&self, number: u64) -> Result<usize, usize>
        requires some { 0 < length self.now }
        ensures { IsPlace number self.now result }
    {
        let parts = &self.parts;
        let first = u64::from(parts.at(0).0);
        if number < first {
            return Err(0);
        }
        let len = parts.len();
        if u64::from(parts.at(len - 1).0) < number {
            return Err(len);
        }
        // Where the numbers stand evenly.
        let reach = number.wrapping_sub(first);
        let width = u64::from(parts.at(len - 1).0).wrapping_sub(first);
        let steps = reach.wrapping_mul(len as u64 - 1).wrapping_add(width / 2);
        if let Some(guess) = steps.checked_div(width) {
            if guess < len as u64 && u64::from(parts.at(guess as usize).0) == number {
                return Ok(guess as usize);
            }
        }
        parts.search(number as u16)
    }

    // How many parts have lower numbers.
    #[inline]
    fn place_from(&self, number: u64) -> usize
        ensures within { result ≤ length self.now }
        ensures lower { AllWithin (λ part. part.0 < number) self.now 0 result }
        ensures rest { AllWithin (λ part. number ≤ part.0) self.now result (length self.now) }
    {
        // That the numbers rise is known once a field was looked at.
        let _ = &self.parts;
        match self.place(number) {
            Ok(place) => place,
            Err(place) => place,
        }
    }

    // Gives pages in a row of the part of a number the entries of a run.
    #[inline]
    fn set_in(&mut self, number: u64, page: u64, run: &[Pte]) -> Result<(), AllocError>
        requires fits { C.span * 512 ≤ page_bound }
        requires below { number < 512 }
        requires within { page + length run.now ≤ C.span }
        ensures { GivesRun result run.now (entries C.at C.span self.new)
            (λ n. with_run (number * C.span + page) n run.now (entries C.at C.span self.old)) }
    {
        let _span = C::span();
        match self.place(number) {
            Ok(place) => {
                let part = self.parts.at_mut(place);
                part.1.set_run(page, run)
            }
            Err(place) => {
                let mut part = C::new(self.alloc)?;
                part.set_run(page, run)?;
                if !part.is_empty() {
                    self.parts.insert(self.alloc, place, (number as u16, part))?;
                }
                Ok(())
            }
        }
    }

    // Takes out the entries of the pages from `from` on and below `past` in the part of a number,
    // and the part where none is left.
    fn clear_in(&mut self, number: u64, from: u64, past: u64)
        requires fits { C.span * 512 ≤ page_bound }
        requires within { past ≤ C.span }
        ensures { entries C.at C.span self.new
            ≡ without_range (number * C.span + from) (number * C.span + past)
            (entries C.at C.span self.old) }
    {
        if past <= from {
            return;
        }
        match self.place(number) {
            Ok(place) => {
                let part = self.parts.at_mut(place);
                part.1.clear_range(from, past);
                if part.1.is_empty() {
                    self.parts.remove(self.alloc, place);
                }
            }
            Err(_) => {}
        }
    }

    // Takes out the parts from one number on and below another.
    fn clear_between(&mut self, from: u64, past: u64)
        requires fits { C.span * 512 ≤ page_bound }
        ensures { entries C.at C.span self.new
            ≡ without_range (from * C.span) (past * C.span) (entries C.at C.span self.old) }
    {
        let _span = C::span();
        if from < past {
            let (start, end) = (self.place_from(from), self.place_from(past));
            self.parts.remove_range(self.alloc, start, end);
        }
    }

    // Takes out the entries from a page on and before the part of a number.
    fn clear_up_to(&mut self, from: u64, last: u64)
        requires fits { C.span * 512 ≤ page_bound }
        requires earlier { from / C.span < last }
        ensures { entries C.at C.span self.new
            ≡ without_range from (last * C.span) (entries C.at C.span self.old) }
    {
        let span = C::span();
        let first = from / span;
        if from % span == 0 {
            self.clear_between(first, last);
        } else {
            self.clear_in(first, from % span, span);
            self.clear_between(first + 1, last);
        }
    }

    // The least page with an entry in the part at a place, from this one of the part on.
    #[inline]
    fn next_in(&self, place: usize, from: u64) -> Option<u64>
        requires fits { C.span * 512 ≤ page_bound }
        ensures { MatchOption result
            ((q : ℕ) → from ≤ q → entries_at C.at self.now place q ≡ Pte.Empty)
            (λ page. IsFirstIn C.at C.span self.now place from page) }
    {
        if place >= self.parts.len() {
            return None;
        }
        let part = self.parts.at(place);
        let found = part.1.next_from(from)?;
        Some(u64::from(part.0) * C::span() + found)
    }

    // The least page with an entry in the part at a place.
    #[inline]
    fn first_in(&self, place: usize) -> Option<u64>
        requires fits { C.span * 512 ≤ page_bound }
        ensures { MatchOption result
            ((q : ℕ) → 0 ≤ q → entries_at C.at self.now place q ≡ Pte.Empty)
            (λ page. IsFirstIn C.at C.span self.now place 0 page) }
    {
        if place >= self.parts.len() {
            return None;
        }
        let part = self.parts.at(place);
        let found = part.1.first()?;
        Some(u64::from(part.0) * C::span() + found)
    }

    /// How many tables its parts are made of.
    pub fn below(&self) -> u64
        requires fits { C.span * 512 ≤ page_bound }
        ensures few { result + 1 < 2 * (C.span * 512) }
        ensures counts { AreHeld (entries C.at C.span self.now) (C.span * 512) C.own result }
    {
        let _span = C::span();
        let mut total = 0;
        for place in 0..self.parts.len() {
            total += self.parts.at(place).1.held();
        }
        total
    }
}

impl Dir<Pte> {
    ghost use Rattle.std.specs.Prelude.{◌+◌, ◌<◌, ◌≤◌};
    ghost use Rattle.av_pagetable.specs.Table.{IsRun, ReachesLast, run_size};
    ghost use Rattle.av_pagetable.specs.Dir.{alone, entries};

    /// Reads the entries of pages in a row, from this one on: as many as it answers. A hole among
    /// them is read as `Pte::Empty`.
    ///
    /// It reads on over holes, up to the last entry among `RUN` pages, and not past the end of this
    /// table. Where the page itself has no entry, it reads that page alone.
    pub fn read_run(&self, page: u64, run: &mut [Pte; RUN]) -> usize
        requires { page < 512 }
        ensures some { 0 < result }
        ensures few { result ≤ run_size }
        ensures below { page + result ≤ 512 }
        ensures entries { IsRun (entries alone 1 self.now) page result run.new }
        ensures reaches { ReachesLast (entries alone 1 self.now) page result }
    {
        let Ok(start) = self.place(page) else {
            run[0] = Pte::Empty;
            return 1;
        };
        let parts = self.parts.as_slice();
        if let Some(len) = side_by_side(parts, start, page) {
            copy_entries(parts, start, len, run);
            return len;
        }
        gather_run(parts, start, page, run)
    }
}

// A part with one entry.
#[inline]
fn with_one<C: Level>(alloc: Global, page: u64, entry: Pte) -> Result<C, AllocError>
    requires fits { C.span ≤ page_bound }
    requires some { entry ≡ Pte.Empty → ⊥ }
    requires below { page < C.span }
    ensures { IfOk result (λ part. C.at part ≡ with_at page entry no_entry) }
{
    let mut part = C::new(alloc)?;
    part.set(page, entry)?;
    Ok(part)
}

// How many parts there are from that of a page on, up to `RUN`; None where a number among theirs is
// missing.
#[inline]
fn side_by_side(parts: &[(u16, Pte)], start: usize, page: u64) -> Option<usize>
    requires rising { AllPairs (λ part later. part.0 < later.0) parts.now }
    requires within { start < length parts.now }
    requires first { HoldsAt (λ part. part.0 ≡ page) parts.now start }
    requires below { page < 512 }
    ensures { MatchOption result
        (HoldsAt (λ part. part.0 ≡ page + (count_from parts.now start - 1) → ⊥)
        parts.now (start + (count_from parts.now start - 1)))
        (λ len. (len ≡ count_from parts.now start) × AreSideBySide page parts.now start len) }
{
    let most = (parts.len() - start).min(RUN);
    // They rise: no number among theirs is missing where the last is that of the page so far on.
    if u64::from(parts[start + (most - 1)].0) == page + (most as u64 - 1) {
        return Some(most);
    }
    None
}

// Copies the entries of so many parts, from a place on.
#[inline]
fn copy_entries(parts: &[(u16, Pte)], start: usize, len: usize, run: &mut [Pte; RUN])
    requires few { len ≤ run_size }
    requires within { start + len ≤ length parts.now }
    ensures { (i : ℕ) → i < len
        → HoldsAt (λ part. slice_index_or run.new i Pte.Empty ≡ part.1) parts.now (start + i) }
{
    for i in 0..len {
        run[i] = parts[start + i].1;
    }
}

// Reads the entries from that of a page on, over holes, up to the last one among `RUN` pages.
fn gather_run(parts: &[(u16, Pte)], start: usize, page: u64, run: &mut [Pte; RUN]) -> usize
    requires good { AreParts alone 1 parts.now }
    requires within { start < length parts.now }
    requires first { HoldsAt (λ part. part.0 ≡ page) parts.now start }
    ensures some { 0 < result }
    ensures few { result ≤ run_size }
    ensures below { page + result ≤ 512 }
    ensures entries { IsRun (entries alone 1 parts.now) page result run.new }
    ensures reaches { ReachesLast (entries alone 1 parts.now) page result }
{
    *run = [Pte::Empty; RUN];
    let mut len = 0;
    for part in &parts[start..] {
        let i = u64::from(part.0) - page;
        if i >= RUN as u64 {
            return len;
        }
        run[i as usize] = part.1;
        len = i as usize + 1;
    }
    len
}
