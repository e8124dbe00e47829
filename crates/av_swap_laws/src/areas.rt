//! How swap areas are turned on and off.

ghost use Rattle.std.specs.Prelude.{ℕ, Option, IfSome, IsSomeAnd};
ghost use Rattle.av_clusters.specs.Clusters.{Slots};
ghost use Rattle.av_plain.specs.Choice.{AreFresh};
ghost use Rattle.av_plain.specs.Event.{TurnedOff, TurnedOn, after};
ghost use Rattle.av_plain.specs.Ledger.{HasNumbers, Setting, SwapArea};
ghost use Rattle.av_swap_laws.specs.Held.{Held, IsHeld, Steps};
ghost use Rattle.av_swap_laws.specs.Steps.{view_off, view_on};

/// A swap area is turned on, with fresh clusters and the numbers of its header.
pub fn areas_are_turned_on()
    ensures { (m : Setting) (closing : Option ℕ) (old : Held) → IsHeld m old → (k : ℕ)
        (area : SwapArea) (made : Slots) → AreFresh m k area made
        → IfSome m.headers (λ headers. IsSomeAnd (headers k) (HasNumbers area))
        → Steps m closing (TurnedOn k area) old (record old {
          view = view_on k area made old.view;
          ledger = after old.ledger (TurnedOn k area);
        }) }
{}

/// A swap area is turned off, and has no clusters then.
pub fn areas_are_turned_off()
    ensures { (m : Setting) (closing : Option ℕ) (old : Held) → IsHeld m old → (k : ℕ)
        → Steps m closing (TurnedOff k) old (record old {
          view = view_off k old.view;
          ledger = after old.ledger (TurnedOff k);
        }) }
{}
