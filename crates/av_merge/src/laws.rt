//! What the definitions say of how pages are mapped. No function does anything: each one's contract
//! is a law.

ghost use Rattle.std.specs.Prelude.{◌≡◌, ℕ, suc, ◌+◌, ◌-◌, ◌≤◌, true, List, Option, Some, None};
ghost use Rattle.std.specs.Prelude.{if◌then◌else◌};
ghost use Rattle.av_vma.specs.Index.{past_of};
ghost use Rattle.av_vma.specs.declared.area.Area.{Area};
ghost use Rattle.av_base.specs.Words.{within};
ghost use Rattle.av_vmatree.specs.declared.span.Span.{Span};
ghost use Rattle.av_vma.specs.Pages.{AreLaid, Lengths, Pages, Effect, alters, split_at};
ghost use Rattle.av_vma.specs.Pages.{without_range, joined_around, part_changed, pages_changed};
ghost use Rattle.av_vma.specs.Pages.{after_unmap};
ghost use Rattle.av_merge.specs.Mapping.{mapping};
ghost use Rattle.av_merge.specs.Pages.{pages_by};
ghost use Rattle.av_merge.specs.Process.{AreAreasOf};

/// Each area of a process is whole, and is on all of its pages and on no other.
pub fn areas_are_laid()
    ensures { (p : ℕ) (areas : ℕ → Option Area) (spans : List Span) → AreAreasOf p areas spans
        → AreLaid (pages_by areas spans) }
{}

/// Taking away a range leaves no page of it mapped, and each other page as it was.
pub fn unmappings_keep_mappings()
    ensures { (on : Pages) (from to page : ℕ) → AreLaid on → mapping (after_unmap from to on) page
        ≡ (if within from (to - from) page then None else mapping on page) }
{}

/// Joining leaves each page mapped as it was. (An own anon_vma, which it may get, is no part of
/// how it is mapped.)
pub fn joins_keep_mappings()
    ensures { (len : Lengths) (on : Pages) (from past page : ℕ) → AreLaid on
        → mapping (joined_around len from past on) page ≡ mapping on page }
{}

/// A part of an area that is changed at once is changed as if its pages were, one by one.
pub fn parts_are_changed_page_by_page()
    ensures { (len : Lengths) (on : Pages) (effect : Effect) (from n : ℕ) (area : Area) → AreLaid on
        → on from ≡ Some area → alters effect area ≡ true → from + suc n ≤ past_of area
        → pages_changed len effect from (suc n) on
        ≡ part_changed len from (from + suc n) effect on }
{}
