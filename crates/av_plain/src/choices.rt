//! Which swap area is chosen.

ghost use Rattle.std.specs.Prelude.{◌≡◌, ℕ, T, Option, MatchOption, true};
ghost use Rattle.std.specs.FinMap.Entries.{is_sorted};
ghost use Rattle.std.specs.Ordering.{nat_cmp};
ghost use Rattle.av_plain.specs.Ledger.{Ledger, Setting, no_slot};
ghost use Rattle.av_plain.specs.Choice.{GivesFirst, giving_swap_area};

/// The swap area that gives a slot is the first with the greatest priority, of those that can give
/// one. Where none gives, none can.
pub fn the_greatest_priority_gives()
    ensures { (m : Setting) (closing : Option ℕ) (l : Ledger) → T (is_sorted nat_cmp l.on)
        → MatchOption (giving_swap_area m closing l) (no_slot m closing l ≡ true)
        (GivesFirst m closing l) }
{}
