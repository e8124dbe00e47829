//! The entries of a frame that goes to its slot: each names the slot in the place of the frame.

ghost use Rattle.std.specs.Prelude.{◌≡◌, ◌+◌, true, IsSomeAnd};
ghost use Rattle.av_rmap.specs.Changed.{changed_in};
ghost use Rattle.av_rmap.specs.Covered.{IsCovered};
ghost use Rattle.av_rmap.specs.Unmap.{away, with_away};
ghost use Rattle.av_rmap.specs.View.{AreApart, AreSpanned};
ghost use Rattle.av_rmap.specs.Walk.{HasSoMany, areas_from, holds, looks_to_last, names_frame};
ghost use Rattle.av_rmap.specs.Walk.{passes_in};

use crate::look::{Look, LookMut};
use crate::looks::Looks;
use av_base::{Slot, Steps};
use av_pagetable::Pte;
use std::sync::ledger::Ledger;

/// Each entry that names the frame becomes the slot, and nothing else changes. `home` is the
/// frame's, and `maps` its number of entries: it ends once as many were found. It takes no memory,
/// and as many steps as a walk does up to the last of them.
pub fn unmap<K: LookMut<L>, L: Ledger>(
    look: &mut K,
    frame: u32,
    slot: Slot,
    home: (u64, u64),
    maps: u64,
    steps: &mut Steps<L>,
)
    requires spanned { AreSpanned (K.view look.old) }
    requires apart { AreApart (K.view look.old) }
    requires covered { IsCovered (K.view look.old) (names_frame frame) home }
    requires maps { HasSoMany (K.view look.old) (names_frame frame) maps }
    ensures unmapped { K.view look.new ≡ with_away frame slot (K.view look.old) }
    ensures kept { K.kept look.new ≡ K.kept look.old }
    ensures counted { steps.new ≡ steps.old + looks_to_last (K.view look.old) (names_frame frame)
        home.1 (areas_from (K.view look.old) home) }
{
    if maps == 0 {
        return;
    }
    let mut looks = Looks::new(home);
    let mut left = maps;
    'areas: while left > 0 {
        let Some(area) = looks.next(look) else {
            unreachable!();
        };
        if unmap_in(look, frame, slot, home.1, area, steps) {
            left -= 1;
        }
    }
}

/// One look: the entry of the area's page with this index becomes the slot where it names the
/// frame. Answers whether it named it.
#[inline(always)]
fn unmap_in<K: LookMut<L>, L: Ledger>(
    look: &mut K,
    frame: u32,
    slot: Slot,
    index: u64,
    area: u64,
    steps: &mut Steps<L>,
) -> bool
    requires { IsSomeAnd ((K.view look.old).areas area) (λ a. holds index a ≡ true) }
    ensures named { result
        ≡ passes_in (K.view look.old) (names_frame frame) index ((K.view look.old).areas area) }
    ensures unmapped { K.view look.new
        ≡ changed_in (away frame slot) index ((K.view look.old).areas area) (K.view look.old) }
    ensures kept { K.kept look.new ≡ K.kept look.old }
    ensures counted { steps.new ≡ steps.old + 1 }
{
    let (process, page) = look.place(area, index);
    match look.look(process, page, steps) {
        Pte::Here { frame: other, .. } => {
            if frame == other {
                look.change(process, page, Pte::Away { slot });
            }
            frame == other
        }
        Pte::Empty | Pte::Zero | Pte::Away { .. } => false,
    }
}
