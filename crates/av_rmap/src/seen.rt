//! Whether a frame was accessed, found through its home or its items; it is taken as not accessed
//! then.

ghost use Rattle.std.specs.Prelude.{◌≡◌, ℕ, ◌+◌, true, false, is_some, unwrap_or, IsSomeAnd};
ghost use Rattle.std.specs.Prelude.{MatchBool, Some};
ghost use Rattle.av_rmap.specs.Covered.{IsCovered};
ghost use Rattle.av_rmap.specs.Items.{AreCovered, looks_from_all};
ghost use Rattle.av_rmap.specs.Changed.{changed_in, changed_over};
ghost use Rattle.av_rmap.specs.Seen.{unseen, with_unseen};
ghost use Rattle.av_rmap.specs.View.{AreApart, AreSpanned};
ghost use Rattle.av_base.specs.Keys.{Key};
ghost use Rattle.av_rmap.specs.Walk.{HasSoMany, areas_from, holds, looks_from};
ghost use Rattle.av_rmap.specs.Walk.{looks_to_last, names_frame, names_seen, passes_in};

use crate::look::{Look, LookMut};
use crate::looks::Looks;
use av_base::Steps;
use av_pagetable::Pte;
use std::sync::ledger::Ledger;

/// Takes the frame as not accessed: no entry that names it says any more that its page was, and
/// nothing else changes. Answers whether one of them said so. `home` is the frame's, and `maps` its
/// number of entries: it ends once as many were found. It takes as many steps as a walk does up to
/// the last of them.
pub fn clear_seen<K: LookMut<L>, L: Ledger>(
    look: &mut K,
    frame: u32,
    home: (u64, u64),
    maps: u64,
    steps: &mut Steps<L>,
) -> bool
    requires spanned { AreSpanned (K.view look.old) }
    requires apart { AreApart (K.view look.old) }
    requires covered { IsCovered (K.view look.old) (names_frame frame) home }
    requires maps { HasSoMany (K.view look.old) (names_frame frame) maps }
    ensures seen { MatchBool result
        ((k : Key) × (names_seen frame ((K.view look.old).entry k.0 k.1) ≡ true))
        ((process page : ℕ) → names_seen frame ((K.view look.old).entry process page) ≡ false) }
    ensures cleared { K.view look.new ≡ with_unseen frame (K.view look.old) }
    ensures kept { K.kept look.new ≡ K.kept look.old }
    ensures counted { steps.new ≡ steps.old + looks_to_last (K.view look.old) (names_frame frame)
        home.1 (areas_from (K.view look.old) home) }
{
    if maps == 0 {
        return false;
    }
    let mut looks = Looks::new(home);
    let mut left = maps;
    let mut any_seen = false;
    'areas: while left > 0 {
        let Some(area) = looks.next(look) else {
            unreachable!();
        };
        if let Some(seen) = clear_in(look, frame, home.1, area, steps) {
            any_seen |= seen;
            left -= 1;
        }
    }
    any_seen
}

/// The same of a merged frame, through its items. It takes as many steps as areas that are linked
/// to an item's anon_vma hold its index, item by item.
pub fn clear_seen_items<K: LookMut<L>, L: Ledger>(
    look: &mut K,
    frame: u32,
    items: &[(u64, u64)],
    steps: &mut Steps<L>,
) -> bool
    requires spanned { AreSpanned (K.view look.old) }
    requires covered { AreCovered (K.view look.old) (names_frame frame) items.now }
    ensures seen { MatchBool result
        ((k : Key) × (names_seen frame ((K.view look.old).entry k.0 k.1) ≡ true))
        ((process page : ℕ) → names_seen frame ((K.view look.old).entry process page) ≡ false) }
    ensures cleared { K.view look.new ≡ with_unseen frame (K.view look.old) }
    ensures kept { K.kept look.new ≡ K.kept look.old }
    ensures counted { steps.new ≡ steps.old + looks_from_all (K.view look.old) items.now }
{
    let mut any_seen = false;
    for item in items {
        any_seen |= clear_seen_from(look, frame, *item, steps);
    }
    any_seen
}

/// No entry that the looks from a home find is seen any more. Answers whether one was: where none
/// was, nothing changes.
fn clear_seen_from<K: LookMut<L>, L: Ledger>(
    look: &mut K,
    frame: u32,
    home: (u64, u64),
    steps: &mut Steps<L>,
) -> bool
    requires spanned { AreSpanned (K.view look.old) }
    ensures seen { MatchBool result
        ((k : Key) × (names_seen frame ((K.view look.old).entry k.0 k.1) ≡ true))
        (K.view look.new ≡ K.view look.old) }
    ensures cleared { K.view look.new ≡ changed_over (unseen frame) home.1
        (areas_from (K.view look.old) home) (K.view look.old) }
    ensures kept { K.kept look.new ≡ K.kept look.old }
    ensures counted { steps.new ≡ steps.old + looks_from (K.view look.old) (Some home) }
{
    let mut looks = Looks::new(home);
    let mut any_seen = false;
    while let Some(area) = looks.next(look) {
        any_seen |= clear_in(look, frame, home.1, area, steps).unwrap_or(false);
    }
    any_seen
}

/// One look: the entry of the area's page with this index loses its seen bit where it names the
/// frame. Answers what the bit was, where it does.
#[inline(always)]
fn clear_in<K: LookMut<L>, L: Ledger>(
    look: &mut K,
    frame: u32,
    index: u64,
    area: u64,
    steps: &mut Steps<L>,
) -> Option<bool>
    requires { IsSomeAnd ((K.view look.old).areas area) (λ a. holds index a ≡ true) }
    ensures named { is_some result
        ≡ passes_in (K.view look.old) (names_frame frame) index ((K.view look.old).areas area) }
    ensures seen { unwrap_or result false
        ≡ passes_in (K.view look.old) (names_seen frame) index ((K.view look.old).areas area) }
    ensures cleared { K.view look.new
        ≡ changed_in (unseen frame) index ((K.view look.old).areas area) (K.view look.old) }
    ensures kept { K.kept look.new ≡ K.kept look.old }
    ensures counted { steps.new ≡ steps.old + 1 }
{
    let (process, page) = look.place(area, index);
    let Pte::Here {
        frame: other,
        write,
        seen,
    } = look.look(process, page, steps)
    else {
        return None;
    };
    if frame != other {
        return None;
    }
    if seen {
        let entry = Pte::Here {
            frame,
            write,
            seen: false,
        };
        look.change(process, page, entry);
    }
    Some(seen)
}
