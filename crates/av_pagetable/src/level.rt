//! What a level of a page table is to the one above it.

use crate::pte::Pte;
use std::alloc::{AllocError, Global};

/// A part of a page table: a function from page to entry, its pages counted from 0.
pub trait Level: Drop {
    ghost use Rattle.std.specs.Prelude.{◌≡◌, ℕ, ◌<◌, ◌≤◌, ◌*◌, List, MatchBool, MatchOption};
    ghost use Rattle.std.specs.Prelude.{MatchResult, IfOk, IfSome, ◌+◌, length};
    ghost use Rattle.av_base.specs.Words.{with_at};
    ghost use Rattle.av_pagetable.specs.Table.{IsFirst, HasSome, child_entry, page_bound};
    ghost use Rattle.av_pagetable.specs.Table.{GivesRun, read_only, with_run, without_range};
    ghost use Rattle.av_pagetable.specs.Held.{AreHeld, AllDivide};
    ghost use Rattle.av_pagetable.specs.declared.pte.Pte.{Pte};

    ghost at: { Self → ℕ → Pte };

    ghost span: { ℕ };

    // How many pages each kind of table spans that the part is made of, itself first.
    ghost own: { List ℕ };

    /// How many pages the part spans.
    fn span() -> u64
        requires fits { span ≤ page_bound }
        ensures is { result ≡ span }
        ensures some { 0 < span }
        ensures whole { AllDivide span own };

    /// The part without entries.
    fn new(alloc: Global) -> Result<Self, AllocError>
        ensures { IfOk result (λ t. (page : ℕ) → at t page ≡ Pte.Empty) };

    /// Whether no page has an entry.
    fn is_empty(&self) -> bool
        ensures { MatchBool result
            ((q : ℕ) → at self.now q ≡ Pte.Empty)
            (HasSome span (at self.now)) };

    /// The entry of a page.
    fn get(&self, page: u64) -> Pte
        requires fits { span ≤ page_bound }
        ensures { result ≡ at self.now page };

    /// The entry of a page, where each part on the way to it is found at once. None says nothing:
    /// how often it answers is not proved.
    fn get_near(&self, page: u64) -> Option<Pte>
        requires fits { span ≤ page_bound }
        ensures { IfSome result (λ entry. entry ≡ at self.now page) };

    /// Gives a page an entry, in place of the one that it has. Without memory all stays.
    fn set(&mut self, page: u64, entry: Pte) -> Result<(), AllocError>
        requires fits { span ≤ page_bound }
        requires some { entry ≡ Pte.Empty → ⊥ }
        requires below { page < span }
        ensures { MatchResult result
            (λ _. at self.new ≡ with_at page entry (at self.old))
            (λ _. at self.new ≡ at self.old) };

    /// Gives pages in a row the entries of a run; where the run has none, a page keeps its own.
    /// Without memory only the first pages may have theirs.
    fn set_run(&mut self, page: u64, run: &[Pte]) -> Result<(), AllocError>
        requires fits { span ≤ page_bound }
        requires within { page + length run.now ≤ span }
        ensures { GivesRun result run.now (at self.new)
            (λ n. with_run page n run.now (at self.old)) };

    /// Changes an entry that is there, and takes no memory.
    fn change(&mut self, page: u64, entry: Pte)
        requires fits { span ≤ page_bound }
        requires some { entry ≡ Pte.Empty → ⊥ }
        requires there { at self.old page ≡ Pte.Empty → ⊥ }
        ensures { at self.new ≡ with_at page entry (at self.old) };

    /// The same, where each part on the way to the entry is found at once. False says that all
    /// stays: how often it is true is not proved.
    fn change_near(&mut self, page: u64, entry: Pte) -> bool
        requires fits { span ≤ page_bound }
        requires some { entry ≡ Pte.Empty → ⊥ }
        requires there { at self.old page ≡ Pte.Empty → ⊥ }
        ensures { MatchBool result
            (at self.new ≡ with_at page entry (at self.old))
            (at self.new ≡ at self.old) };

    /// Takes out the entries of the pages from `from` on and below `past`, and gives back what no
    /// longer holds any.
    fn clear_range(&mut self, from: u64, past: u64)
        requires fits { span ≤ page_bound }
        ensures { at self.new ≡ without_range from past (at self.old) };

    /// The least page from this one on that has an entry.
    fn next_from(&self, page: u64) -> Option<u64>
        requires fits { span ≤ page_bound }
        ensures { MatchOption result
            ((q : ℕ) → page ≤ q → at self.now q ≡ Pte.Empty)
            (λ q. IsFirst (at self.now) page span q) };

    /// The least page that has an entry.
    fn first(&self) -> Option<u64>
        requires fits { span ≤ page_bound }
        ensures { MatchOption result
            ((q : ℕ) → 0 ≤ q → at self.now q ≡ Pte.Empty)
            (λ q. IsFirst (at self.now) 0 span q) };

    /// The same part for a child: each entry as `Pte::for_child` makes it.
    fn for_child(&self) -> Result<Self, AllocError>
        ensures { IfOk result (λ t. (page : ℕ) → at t page ≡ child_entry (at self.now page)) };

    /// Lets no entry be written in place.
    fn write_protect(&mut self)
        ensures { (page : ℕ) → at self.new page ≡ read_only (at self.old page) };

    /// How many tables the part is made of.
    fn held(&self) -> u64
        requires fits { span ≤ page_bound }
        ensures few { result < 2 * span }
        ensures counts { HasSome span (at self.now) → AreHeld (at self.now) span own result };
}
