//! The entries of a frame or of a slot, found through a home.

ghost use Rattle.std.specs.Prelude.{◌≡◌, ℕ, ◌+◌, ◌≤◌, ◌++◌, Bool, true, List, length, vec_len};
ghost use Rattle.std.specs.Prelude.{vec_capacity, IsSomeAnd, Some};
ghost use Rattle.av_base.specs.Keys.{Key};
ghost use Rattle.av_base.specs.Words.{how_many};
ghost use Rattle.av_interval.specs.Search.{overlaps};
ghost use Rattle.av_pagetable.specs.declared.pte.Pte.{Pte as Entry};
ghost use Rattle.av_rmap.specs.View.{AreApart, AreSpanned, View};
ghost use Rattle.av_rmap.specs.Covered.{IsCovered};
ghost use Rattle.av_rmap.specs.Walk.{AreItsEntries, found_from, found_in, holds, list_of};
ghost use Rattle.av_rmap.specs.Walk.{looks_from, names};

use crate::look::Look;
use crate::looks::Looks;
use crate::target::Target;
use av_base::Steps;
use std::sync::ledger::Ledger;

/// Appends the process and page of each entry that names the target, once. `home` is the frame's,
/// or that of the frame which caches the slot: an anon_vma and a linear index. It takes no memory.
///
/// It takes as many steps as spans of the anon_vma hold the index, and each look is one.
pub fn walk<K: Look<L>, L: Ledger>(
    look: &K,
    target: Target,
    home: (u64, u64),
    into: &mut Vec<(u16, u64)>,
    steps: &mut Steps<L>,
)
    requires spanned { AreSpanned (K.view look.now) }
    requires apart { AreApart (K.view look.now) }
    requires covered { IsCovered (K.view look.now) (names target) home }
    requires room { (keys : List Key) → AreItsEntries (K.view look.now) (names target) keys
        → vec_len into.old + length keys ≤ vec_capacity into.old }
    ensures entries { (keys : List Key) × (into.new.items ≡ into.old.items ++ keys)
        × AreItsEntries (K.view look.now) (names target) keys }
    ensures counted { steps.new ≡ steps.old
        + how_many (overlaps home.1) ((K.view look.now).spans home.0) }
{
    find_from(look, target, home, into, steps);
}

/// Appends what the looks from a home find, be that all of the target's entries or some. It takes
/// no memory.
pub(crate) fn find_from<K: Look<L>, L: Ledger>(
    look: &K,
    target: Target,
    home: (u64, u64),
    into: &mut Vec<(u16, u64)>,
    steps: &mut Steps<L>,
)
    requires spanned { AreSpanned (K.view look.now) }
    requires room { vec_len into.old + length (found_from (K.view look.now) (names target) home)
        ≤ vec_capacity into.old }
    ensures entries { into.new.items
        ≡ into.old.items ++ found_from (K.view look.now) (names target) home }
    ensures capacity { vec_capacity into.new ≡ vec_capacity into.old }
    ensures counted { steps.new ≡ steps.old + looks_from (K.view look.now) (Some home) }
{
    let mut looks = Looks::new(home);
    while let Some(area) = looks.next(look) {
        if let Some(key) = look_at(look, target, home.1, area, steps) {
            into.push_reserved(key);
        }
    }
}

/// Who has the entries, each once, knows how many a walk finds.
pub fn walks_are_equally_long()
    ensures { (view : View) (passes : Entry → Bool) (keys others : List Key)
        → AreItsEntries view passes keys → AreItsEntries view passes others
        → length keys ≡ length others }
{}

/// One look: the page of the area with this index, where its entry names the target.
#[inline(always)]
fn look_at<K: Look<L>, L: Ledger>(
    look: &K,
    target: Target,
    index: u64,
    area: u64,
    steps: &mut Steps<L>,
) -> Option<(u16, u64)>
    requires { IsSomeAnd ((K.view look.now).areas area) (λ a. holds index a ≡ true) }
    ensures found { list_of result
        ≡ found_in (K.view look.now) (names target) index ((K.view look.now).areas area) }
    ensures counted { steps.new ≡ steps.old + 1 }
{
    let (process, page) = look.place(area, index);
    if target.is_in(look.look(process, page, steps)) {
        Some((process, page))
    } else {
        None
    }
}
