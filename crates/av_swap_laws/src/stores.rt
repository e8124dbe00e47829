//! What the stores of the kernel do, in the words of the definitions: lists, walks, and writes to a
//! device.

ghost use Rattle.std.specs.Prelude.{◌≡◌, filter, not, if◌then◌else◌, option_map, ◌++◌, ◌==◌, ◌≤◌};
ghost use Rattle.std.specs.Prelude.{◌<◌, ℕ, false, true, List, [], ◌∷◌, Option, T};
ghost use Rattle.std.specs.FinMap.Entries.{is_sorted};
ghost use Rattle.std.specs.List.{list_any};
ghost use Rattle.std.specs.Ordering.{eq_by_cmp};
ghost use Rattle.av_base.specs.Keys.{Key, key_cmp};
ghost use Rattle.av_base.specs.Words.{how_many, without};
ghost use Rattle.av_base.specs.declared.slot.Slot.{Slot};
ghost use Rattle.av_swapdev.specs.Device.{IsWritten, after_write};
ghost use Rattle.av_plain.specs.Device.{Device, IsSameDevice};
ghost use Rattle.av_plain.specs.Ledger.{Ledger, Setting, names_frame, same_slot};
ghost use Rattle.av_plain.specs.Ledger.{walk};
ghost use Rattle.av_plain.specs.Stands.{IsOver, LedgerStands, Pte, View};
ghost use Rattle.av_swap_laws.specs.Steps.{without_slot};

/// Lists as the code keeps them: without a frame, by a test that is turned round; and flight
/// without a slot, the first or the one that has just begun.
pub fn lists_are_as_kept()
    ensures { ((f : ℕ) (frames : List ℕ) → filter (λ g. not (g == f)) frames ≡ without f frames)
        × ((s : Slot) (rest : List Slot) → how_many (same_slot s) (s ∷ rest) ≤ 1
        → without_slot s (s ∷ rest) ≡ rest)
        × ((s : Slot) (slots : List Slot) → how_many (same_slot s) slots ≡ 0
        → without_slot s (slots ++ s ∷ []) ≡ slots) }
{}

/// Whoever changes the entries of a walk, and no others, has changed all that name the frame.
pub fn walks_change_all()
    ensures { (m : Setting) (v : View) (l : Ledger) (f : ℕ) (change : Pte → Pte)
        (table : ℕ → ℕ → Option Pte) → LedgerStands m v l → T (is_sorted key_cmp l.entries)
        → ((k : Key) → list_any (eq_by_cmp key_cmp k) (walk l f) ≡ true
        → table k.0 k.1 ≡ option_map change (v.table k.0 k.1))
        → ((k : Key) → list_any (eq_by_cmp key_cmp k) (walk l f) ≡ false
        → table k.0 k.1 ≡ v.table k.0 k.1)
        → (p page : ℕ) → table p page
        ≡ option_map (λ t. if names_frame f t.entry then change t else t) (v.table p page) }
{}

/// A write of a slot's page leaves the device the one that the run is over, since page 0 stays.
pub fn writes_leave_headers()
    ensures { (old new : Device) (s : Slot) (bytes : List ℕ) → 0 < s.page
        → IsWritten s.area s.page bytes old.pages new.pages → new.sizes ≡ old.sizes
        → (old.failures ≤ new.failures
        → new.history ≡ after_write s.area s.page old.history → IsSameDevice old new)
        × ((m : Setting) → IsOver m old → IsOver m new) }
{}
