//! The areas of every process that lives.

ghost use Rattle.std.specs.Prelude.{◌≡◌, ℕ, ◌+◌, ◌-◌, ◌^◌, ◌<◌, ◌≤◌, [], Some, None, true, false};
ghost use Rattle.std.specs.Prelude.{is_some, option_map, slice_set, length, IsSome, IsSomeAnd};
ghost use Rattle.std.specs.Prelude.{OnOk, OnErr, IfOk, IfSome};
ghost use Rattle.std.specs.Borrow.{sem};
ghost use Rattle.av_vma.specs.Areas.{area_of};
ghost use Rattle.av_base.specs.Flags.{no_flags};
ghost use Rattle.av_base.specs.Limits.{low_page, top_page};
ghost use Rattle.av_vma.specs.Fork.{areas_to_fork};
ghost use Rattle.av_vma.specs.Gap.{IsGap};
ghost use Rattle.av_vmatree.specs.Spans.{IsFree, IsMet};
ghost use Rattle.av_merge.specs.Changing.{effect_of};
ghost use Rattle.av_merge.specs.Mapping.{IsRemapped};
ghost use Rattle.av_merge.specs.Pages.{GoesTo};
ghost use Rattle.av_merge.specs.Process.{AreAreasOf};
ghost use Rattle.av_anon.specs.declared.anons.Anons.{Anons};
ghost use Rattle.av_merge.specs.Kin.{lengths};
ghost use Rattle.av_spaces.specs.Fork.{AreKept, GoInTurn, IsForked};
ghost use Rattle.av_spaces.specs.Kin.{AnonsPrepare, AnonsStay, InOrder, chain_at};
ghost use Rattle.av_spaces.specs.Lending.{LendsTree};
ghost use Rattle.av_spaces.specs.Spaces.{areas_of, pages_of, is_taken, AllRising, AreNumbered};
ghost use Rattle.av_spaces.specs.Spaces.{AreThese, AreRising, IsSpawned, IsChanged, IsEnded};
ghost use Rattle.av_vma.specs.Mremap.{IsGrowth, IsMove, after_grow, after_move, pages_from};
ghost use Rattle.av_vma.specs.Mremap.{pages_left};
ghost use Rattle.av_vma.specs.Pages.{AreLaid, IsWhole, after_map, after_prepare, after_unmap};
ghost use Rattle.av_vma.specs.Pages.{home_of, pages_changed};
ghost use Rattle.av_spaces.specs.Trees.{areas_by, tree_at, IsGrown};

use crate::fork::fork_each;
use av_anon::Anons;
use av_base::{Flags, Prot};
use av_merge::Change;
use av_vma::{Area, Areas};
use av_vmatree::{Span, Tree};
use std::alloc::{AllocError, Global};
use std::marker::Model;
use std::mem::replace;

/// The areas of every process that lives, seen as the list of the processes, rising, each with its
/// areas in the order of their pages, and the areas by number.
#[derive(Drop)]
pub struct Spaces {
    alloc: Global,
    areas: Areas,
    // The tree of each process, by its number.
    trees: Vec<Option<Tree>>,
    alive: usize,
    // The list for the spans that a fork goes by. It is kept, as each fork would ask the host for
    // memory and give it back. What stands in it is no part of the state.
    spans: Vec<Span>,
}

impl Model for Spaces {
    ghost use Rattle.av_vma.specs.Areas.{area_of};
    ghost use Rattle.av_spaces.specs.Spaces.{AllSpaces};
    ghost use Rattle.av_spaces.specs.Trees.{all_spaces, HasTrees};

    ghost Value = { AllSpaces };

    ghost view = { λ s. all_spaces s.areas s.trees.items };

    ghost invariant = { λ s. HasTrees (area_of s.areas) s.trees.items s.alive };
}

impl Spaces {
    /// No process.
    pub fn new(alloc: Global) -> Self
        ensures processes { result.processes ≡ [] }
        ensures areas { (number : ℕ) → area_of result.areas number ≡ None }
    {
        Spaces {
            alloc,
            areas: Areas::new(alloc),
            trees: Vec::new(alloc),
            alive: 0,
            spans: Vec::new(alloc),
        }
    }

    /// How many processes live.
    pub fn count(&self) -> usize
        ensures { result ≡ length self.now.processes }
    {
        self.alive
    }

    /// What holds of the processes at any time: the numbers of those that live are below 2^16.
    pub fn keeps(&self)
        ensures { (p : ℕ) → is_some (areas_of self.now.processes p) ≡ true → p < 2 ^ 16 }
    {
        // The invariant is known once a field was read.
        let _ = &self.trees;
    }

    /// What holds of the areas at any time: those of each process are laid, so they are below the
    /// top.
    pub fn keeps_laid(&self)
        ensures { (p : ℕ) → AreLaid (pages_of self.now.processes p) }
    {
        // The invariant is known once a field was read.
        let _ = &self.trees;
    }

    /// Whether a process lives.
    pub fn lives(&self, process: u16) -> bool
        ensures { result ≡ is_some (areas_of self.now.processes process) }
    {
        tree_of(&self.trees, process).is_some()
    }

    /// The area that holds a page, if it is mapped.
    pub fn area(&self, process: u16, page: u64) -> Option<Area>
        ensures area { result ≡ pages_of self.now.processes process page }
        ensures whole { IfSome result IsWhole }
        ensures below { IsSome result → page < top_page }
        ensures laid { AreLaid (pages_of self.now.processes process) }
    {
        let tree = tree_of(&self.trees, process)?;
        let number = tree.find(page)?;
        Some(self.areas.get(number))
    }

    /// The areas of all processes by number, as anon_vmas are linked to them.
    pub fn by_number(&self) -> &Areas
        ensures areas { result.now ≡ self.now.areas }
        ensures numbered { AreNumbered self.now }
        ensures rising { AllRising self.now.processes }
    {
        &self.areas
    }

    /// The greatest page from which on this many are free in a process that lives.
    pub fn gap(&self, process: u16, pages: u64) -> Option<u64>
        requires lives { is_some (areas_of self.now.processes process) ≡ true }
        requires some { 1 ≤ pages }
        ensures { IsGap (is_taken self.now.processes process) pages result }
    {
        let tree = tree_of(&self.trees, process)?;
        tree.gap(pages)
    }

    /// Gives a process that does not live no areas, so that it lives. Without memory all stays.
    pub fn spawn(&mut self, process: u16) -> Result<(), AllocError>
        requires { areas_of self.old.processes process ≡ None }
        ensures ok { OnOk result (IsSpawned self.old.processes self.new.processes process []) }
        ensures anons { (anons : Anons) → InOrder self.old anons
            → OnOk result (AnonsStay self.old anons self.new anons) }
        ensures err { OnErr result (self.new ≡ self.old) }
    {
        make_place(&mut self.trees, process)?;
        put_tree(&mut self.trees, process, Tree::new(self.alloc));
        self.alive += 1;
        Ok(())
    }

    /// Gives a process that does not live the areas of one that does, by rising address, but for
    /// those that say `dont_fork`: each is linked to the parent's whole chain, and has the lowest
    /// idle member of it as its own anon_vma, else a new one below the parent's; none where the
    /// parent's area has none or says `wipe_on_fork`. None is locked. Without memory as for `map`.
    pub fn fork(&mut self, anons: &mut Anons, parent: u16, child: u16) -> Result<(), AllocError>
        requires order { InOrder self.old anons.old }
        requires lives { is_some (areas_of self.old.processes parent) ≡ true }
        requires dead { areas_of self.old.processes child ≡ None }
        ensures forked { OnOk result (IsSomeAnd (areas_of self.old.processes parent)
            (λ areas. IsForked self.old anons.old self.new anons.new child
            (areas_to_fork areas))) }
        ensures in_turn { OnOk result (IsSomeAnd (areas_of self.old.processes parent)
            (λ areas. GoInTurn self.old anons.old child (areas_to_fork areas))) }
        ensures kept { OnOk result (AreKept self.old anons.old self.new anons.new) }
    {
        make_place(&mut self.trees, child)?;
        let Some(tree) = tree_of(&self.trees, parent) else {
            unreachable!()
        };
        let spans = take_spans(&mut self.spans, self.alloc, tree)?;
        let mut tree = Tree::with_room(self.alloc, spans.len())?;
        let result = fork_each(&mut self.areas, &mut tree, anons, &spans, child);
        self.spans = spans;
        put_tree(&mut self.trees, child, tree);
        self.alive += 1;
        result
    }

    /// Whether none of these pages of a process that lives is mapped.
    pub fn is_free(&self, process: u16, from: u64, pages: u64) -> bool
        requires lives { is_some (areas_of self.now.processes process) ≡ true }
        requires past { from + pages < 2 ^ 64 }
        ensures free { result ≡ true
            → IsFree (is_taken self.now.processes process) from (from + pages) }
        ensures met { result ≡ false
            → IsMet (is_taken self.now.processes process) from (from + pages) }
    {
        let Some(tree) = tree_of(&self.trees, process) else {
            unreachable!()
        };
        tree.is_free(from, from + pages)
    }

    /// The first page from one on that is mapped in a process that lives, else `past`.
    pub fn next_mapped(&self, process: u16, from: u64, past: u64) -> u64
        requires lives { is_some (areas_of self.now.processes process) ≡ true }
        requires forward { from ≤ past }
        ensures least { from ≤ result }
        ensures most { result ≤ past }
        ensures free { IsFree (is_taken self.now.processes process) from result }
        ensures mapped { result < past → is_taken self.now.processes process result ≡ true }
    {
        let Some(tree) = tree_of(&self.trees, process) else {
            unreachable!()
        };
        av_merge::next_mapped(tree, from, past)
    }

    /// Maps free pages of a process that lives, as one area without flags and without an anon_vma.
    /// Once memory is wanting, nothing is promised of any process's pages, nor of anon_vmas.
    pub fn map(
        &mut self,
        anons: &mut Anons,
        process: u16,
        from: u64,
        pages: u64,
        prot: Prot,
    ) -> Result<(), AllocError>
        requires order { InOrder self.old anons.old }
        requires lives { is_some (areas_of self.old.processes process) ≡ true }
        requires some { 1 ≤ pages }
        requires low { low_page ≤ from }
        requires high { from + pages ≤ top_page }
        requires free { IsFree (is_taken self.old.processes process) from (from + pages) }
        ensures areas { OnOk result (IsChanged self.old.processes self.new.processes process
            (AreThese (after_map (lengths self.old.areas anons.old) process from (from + pages)
            prot no_flags (pages_of self.old.processes process)))) }
        ensures anons { OnOk result (AnonsStay self.old anons.old self.new anons.new) }
    {
        let tree = tree_mut(&mut self.trees, process);
        av_merge::map(
            &mut self.areas,
            tree,
            anons,
            process,
            from,
            from + pages,
            prot,
            Flags::NONE,
        )
    }

    /// Maps free pages of a process that lives, each like the page that is as far from `like` on:
    /// with its protection and its flags, but not locked, and without an anon_vma. Without memory
    /// as for `map`.
    pub fn map_like(
        &mut self,
        anons: &mut Anons,
        process: u16,
        from: u64,
        pages: u64,
        like: u64,
    ) -> Result<(), AllocError>
        requires order { InOrder self.old anons.old }
        requires lives { is_some (areas_of self.old.processes process) ≡ true }
        requires low { low_page ≤ from }
        requires high { from + pages ≤ top_page }
        requires small { like + pages < 2 ^ 64 }
        requires free { IsFree (is_taken self.old.processes process) from (from + pages) }
        requires mapped { (page : ℕ) → like ≤ page → page < like + pages
            → is_taken self.old.processes process page ≡ true }
        ensures areas { OnOk result (IsChanged self.old.processes self.new.processes process
            (AreThese (pages_left (lengths self.old.areas anons.old) process
            (pages_from like from (pages_of self.old.processes process)) from pages
            (pages_of self.old.processes process)))) }
        ensures anons { OnOk result (AnonsStay self.old anons.old self.new anons.new) }
    {
        let tree = tree_mut(&mut self.trees, process);
        av_merge::map_like(
            &mut self.areas,
            tree,
            anons,
            process,
            from,
            from + pages,
            like,
        )
    }

    /// Takes these pages away from a process that lives, those of them that are mapped. Without
    /// memory as for `map`.
    pub fn unmap(
        &mut self,
        anons: &mut Anons,
        process: u16,
        from: u64,
        pages: u64,
    ) -> Result<(), AllocError>
        requires order { InOrder self.old anons.old }
        requires lives { is_some (areas_of self.old.processes process) ≡ true }
        requires past { from + pages < 2 ^ 64 }
        ensures areas { OnOk result (IsChanged self.old.processes self.new.processes process
            (AreThese (after_unmap from (from + pages) (pages_of self.old.processes process)))) }
        ensures anons { OnOk result (AnonsStay self.old anons.old self.new anons.new) }
    {
        let tree = tree_mut(&mut self.trees, process);
        av_merge::unmap(&mut self.areas, tree, anons, from, from + pages)
    }

    /// Changes these pages of a process that lives, up to the first one that is not mapped, and
    /// tells that one, else the page past them. Without memory as for `map`.
    pub fn modify(
        &mut self,
        anons: &mut Anons,
        process: u16,
        from: u64,
        pages: u64,
        change: Change,
    ) -> Result<u64, AllocError>
        requires order { InOrder self.old anons.old }
        requires lives { is_some (areas_of self.old.processes process) ≡ true }
        requires past { from + pages < 2 ^ 64 }
        ensures reached { IfOk result (λ reached.
            GoesTo (is_taken self.old.processes process) from (from + pages) reached) }
        ensures ok { IfOk result (λ reached. IsChanged self.old.processes self.new.processes process
            (AreThese (pages_changed (lengths self.old.areas anons.old) (effect_of change) from
            (reached - from) (pages_of self.old.processes process)))) }
        ensures anons { OnOk result (AnonsStay self.old anons.old self.new anons.new) }
        ensures mapping { IfOk result (λ reached. IsRemapped from reached (effect_of change)
            (pages_of self.old.processes process) (pages_of self.new.processes process)) }
    {
        let tree = tree_mut(&mut self.trees, process);
        av_merge::modify(&mut self.areas, tree, anons, from, from + pages, change)
    }

    /// Changes those of these pages of a process that lives that are mapped, and tells the first
    /// one that is not, else the page past them. Without memory as for `map`.
    pub fn modify_all(
        &mut self,
        anons: &mut Anons,
        process: u16,
        from: u64,
        pages: u64,
        change: Change,
    ) -> Result<u64, AllocError>
        requires order { InOrder self.old anons.old }
        requires lives { is_some (areas_of self.old.processes process) ≡ true }
        requires past { from + pages < 2 ^ 64 }
        ensures reached { IfOk result (λ reached.
            GoesTo (is_taken self.old.processes process) from (from + pages) reached) }
        ensures ok { OnOk result (IsChanged self.old.processes self.new.processes process
            (AreThese (pages_changed (lengths self.old.areas anons.old) (effect_of change) from
            pages (pages_of self.old.processes process)))) }
        ensures anons { OnOk result (AnonsStay self.old anons.old self.new anons.new) }
        ensures mapping { OnOk result (IsRemapped from (from + pages) (effect_of change)
            (pages_of self.old.processes process) (pages_of self.new.processes process)) }
    {
        let tree = tree_mut(&mut self.trees, process);
        av_merge::modify_all(&mut self.areas, tree, anons, from, from + pages, change)
    }

    /// Moves `pages` pages of a process that lives, all of them mapped, from the page `from` to the
    /// page `to`, where they become `new_pages`. What stands there goes, and nothing is left where
    /// they were. Without memory as for `map`.
    pub fn move_range(
        &mut self,
        anons: &mut Anons,
        process: u16,
        from: u64,
        pages: u64,
        to: u64,
        new_pages: u64,
    ) -> Result<(), AllocError>
        requires order { InOrder self.old anons.old }
        requires lives { is_some (areas_of self.old.processes process) ≡ true }
        requires range { IsMove from pages to new_pages (pages_of self.old.processes process) }
        ensures areas { OnOk result (IsChanged self.old.processes self.new.processes process
            (AreThese (after_move (lengths self.old.areas anons.old) from pages to new_pages
            (pages_of self.old.processes process)))) }
        ensures anons { OnOk result (AnonsStay self.old anons.old self.new anons.new) }
    {
        let tree = tree_mut(&mut self.trees, process);
        av_merge::move_range(&mut self.areas, tree, anons, from, pages, to, new_pages)
    }

    /// Makes the area of a page of a process that lives longer, from that page on, which is its
    /// last one: it ends before the page `past` then. Without memory as for `map`.
    pub fn grow(
        &mut self,
        anons: &mut Anons,
        process: u16,
        last: u64,
        past: u64,
    ) -> Result<(), AllocError>
        requires order { InOrder self.old anons.old }
        requires lives { is_some (areas_of self.old.processes process) ≡ true }
        requires growth { IsGrowth last past (pages_of self.old.processes process) }
        ensures areas { OnOk result (IsChanged self.old.processes self.new.processes process
            (AreThese (after_grow (lengths self.old.areas anons.old) past
            (pages_of self.old.processes process last) (pages_of self.old.processes process)))) }
        ensures anons { OnOk result (AnonsStay self.old anons.old self.new anons.new) }
    {
        let tree = tree_mut(&mut self.trees, process);
        av_merge::grow(&mut self.areas, tree, anons, last, past)
    }

    /// Gives the area of a page an anon_vma, where the page is mapped and its area has none: that
    /// of the area after it, else of the one before, where it may take it; else a new root. Answers
    /// the home that a frame has from the page then. Without memory as for `map`.
    pub fn prepare(
        &mut self,
        anons: &mut Anons,
        process: u16,
        page: u64,
    ) -> Result<Option<(u64, u64)>, AllocError>
        requires order { InOrder self.old anons.old }
        requires lives { is_some (areas_of self.old.processes process) ≡ true }
        ensures areas { OnOk result (IsChanged self.old.processes self.new.processes process
            (AreThese (after_prepare (lengths self.old.areas anons.old) anons.old.next page
            (pages_of self.old.processes process)))) }
        ensures anons { OnOk result
            (AnonsPrepare self.old anons.old self.new anons.new process page) }
        ensures home { IfOk result (λ home.
            home ≡ home_of page (pages_of self.new.processes process page)) }
    {
        let Some(tree) = tree_of(&self.trees, process) else {
            unreachable!()
        };
        av_merge::prepare(&mut self.areas, tree, anons, page)
    }

    /// Takes away a process that lives, with its areas.
    pub fn exit(&mut self, anons: &mut Anons, process: u16)
        requires order { InOrder self.old anons.old }
        requires lives { is_some (areas_of self.old.processes process) ≡ true }
        ensures areas { IsEnded self.old.processes self.new.processes process }
        ensures anons { AnonsStay self.old anons.old self.new anons.new }
    {
        let mut tree = take_tree(&mut self.trees, process);
        av_merge::unmap_all(&mut self.areas, &mut tree, anons);
        self.alive -= 1;
    }

    /// The areas of a process that lives, in the order of their pages, in time linear in their
    /// number.
    pub fn areas(&self, process: u16) -> Result<Vec<Area>, AllocError>
        requires { is_some (areas_of self.now.processes process) ≡ true }
        ensures areas { IfOk result (λ areas. areas_of self.now.processes process ≡ Some
            areas.items) }
        ensures rising { IfOk result (λ areas. AreRising process areas.items) }
    {
        let Some(tree) = tree_of(&self.trees, process) else {
            unreachable!()
        };
        let mut spans = Vec::new(self.alloc);
        tree.append_to(&mut spans)?;
        areas_at(self.alloc, &self.areas, &spans)
    }

    /// The chain of the area that holds a page: the numbers of the anon_vmas that it is linked to,
    /// rising. It is empty where the page isn't mapped. Once the area is found, it takes time
    /// linear in the length of the chain.
    pub fn chain(&self, anons: &Anons, process: u16, page: u64) -> Result<Vec<u64>, AllocError>
        requires order { InOrder self.now anons.now }
        ensures { IfOk result (λ chain. chain.items ≡ chain_at self.now anons.now process page) }
    {
        let Some(tree) = tree_of(&self.trees, process) else {
            return Ok(Vec::new(self.alloc));
        };
        match tree.find(page) {
            Some(number) => anons.links().chain(self.alloc, number),
            None => Ok(Vec::new(self.alloc)),
        }
    }
}

/// The tree of a process, if it lives.
fn tree_of(trees: &[Option<Tree>], process: u16) -> Option<&Tree>
    ensures { option_map (λ tree. tree.now) result ≡ tree_at trees.now process }
{
    trees.get(process as usize)?.as_ref()
}

/// Makes a place for the tree of a process, if there is none.
fn make_place(trees: &mut Vec<Option<Tree>>, process: u16) -> Result<(), AllocError>
    ensures grown { IsGrown trees.old.items trees.new.items }
    ensures place { OnOk result (process < length trees.new.items) }
{
    while trees.len() <= process as usize {
        trees.push(None)?;
    }
    Ok(())
}

/// The tree of a process that lives, to change it where it lies.
#[inline(always)]
fn tree_mut(trees: &mut Vec<Option<Tree>>, process: u16) -> &mut Tree
    requires { is_some (tree_at trees.old.items process) ≡ true }
    // The tree that is lent comes back to its place, and no other changes.
    ensures* writes_back { sem 𝓛 (LendsTree trees.entry process result) }
    ensures tree { tree_at trees.old.items process ≡ Some result.now }
{
    let Some(tree) = &mut trees[process as usize] else {
        unreachable!()
    };
    tree
}

/// Takes the tree of a process that lives out of its place.
fn take_tree(trees: &mut Vec<Option<Tree>>, process: u16) -> Tree
    requires { is_some (tree_at trees.old.items process) ≡ true }
    ensures tree { tree_at trees.old.items process ≡ Some result }
    ensures trees { trees.new.items ≡ slice_set trees.old.items process None }
{
    let Some(tree) = trees[process as usize].take() else {
        unreachable!()
    };
    tree
}

/// Puts a tree into the place of a process.
fn put_tree(trees: &mut Vec<Option<Tree>>, process: u16, tree: Tree)
    requires { process < length trees.old.items }
    ensures { trees.new.items ≡ slice_set trees.old.items process (Some tree) }
{
    trees[process as usize] = Some(tree);
}

/// The spans of a tree, in the list that is kept for them: an empty one stands in its place until
/// it is put back. Without memory the kept list goes back to the host.
fn take_spans(kept: &mut Vec<Span>, alloc: Global, tree: &Tree) -> Result<Vec<Span>, AllocError>
    ensures { IfOk result (λ spans. spans.items ≡ tree.now) }
{
    let mut spans = replace(kept, Vec::new(alloc));
    spans.clear();
    tree.append_to(&mut spans)?;
    Ok(spans)
}

/// The areas of these spans of one process, in their order.
fn areas_at(alloc: Global, areas: &Areas, spans: &[Span]) -> Result<Vec<Area>, AllocError>
    requires { (process : ℕ) × AreAreasOf process (area_of areas.now) spans.now }
    ensures { IfOk result (λ list. list.items ≡ areas_by (area_of areas.now) spans.now) }
{
    let mut list = Vec::new(alloc);
    for span in spans {
        list.push(areas.get(span.area))?;
    }
    Ok(list)
}
