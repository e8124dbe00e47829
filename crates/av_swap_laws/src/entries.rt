//! How entries go, go over to a child, and move; and how pages go from the memories.

ghost use Rattle.std.specs.Prelude.{◌≡◌, ◌⊎◌, ◌<◌, ℕ, true, Option, Some, None, T};
ghost use Rattle.std.specs.FinMap.Entries.{is_sorted};
ghost use Rattle.av_base.specs.Keys.{key_cmp};
ghost use Rattle.av_base.specs.declared.slot.Slot.{Slot};
ghost use Rattle.av_plain.specs.Choice.{Chooses};
ghost use Rattle.av_plain.specs.Device.{Device};
ghost use Rattle.av_plain.specs.Event.{Forked, EntriesMoved, Zapped, after, set_entry};
ghost use Rattle.av_plain.specs.Event.{without_seen};
ghost use Rattle.av_plain.specs.Fork.{inheritance};
ghost use Rattle.av_plain.specs.Ledger.{Entry, Ledger, Setting, entry, names_frame};
ghost use Rattle.av_plain.specs.Ledger.{names_slot};
ghost use Rattle.av_plain.specs.Sound.{is_there};
ghost use Rattle.av_plain.specs.Stands.{BytesStand, LedgerStands, Pte, View, entry_of};
ghost use Rattle.av_plain.specs.World.{Holds};
ghost use Rattle.av_plain.specs.Stands.{free_of};
ghost use Rattle.av_plain.specs.World.{World, child_of, pages, set_process};
ghost use Rattle.av_swap_laws.specs.Held.{Held, IsHeld, Steps};
ghost use Rattle.av_swap_laws.specs.May.{IsAlike};
ghost use Rattle.av_swap_laws.specs.Steps.{view_fork_entry, view_zap};

/// An entry goes, of a page that the memories have no more.
pub fn entries_go()
    ensures { (m : Setting) (closing : Option ℕ) (old : Held) → IsHeld m old → (p page : ℕ)
        (e : Entry)
        → T (is_sorted key_cmp old.ledger.entries) → entry old.ledger (p, page) ≡ Some e
        → pages old.world p page ≡ None → ((f : ℕ) → names_frame f e ≡ true → f < m.frames)
        → ((s : Slot) → names_slot s e ≡ true → is_there m old.ledger s ≡ true)
        → Steps m closing (Zapped (p, page)) old (record old {
          view = view_zap p page e old.view;
          ledger = after old.ledger (Zapped (p, page));
        }) }
{}

/// An entry goes over to a child, whatever it names: the parent's loses its write bit.
pub fn entries_go_over()
    ensures { (m : Setting) (v : View) (l : Ledger) (p q page : ℕ) (t : Pte)
        → T (is_sorted key_cmp l.entries) → LedgerStands m v l → v.table p page ≡ Some t
        → entry l (q, page) ≡ None
        → LedgerStands m (view_fork_entry p q page t v)
        (set_entry (q, page) (without_seen t.entry) l) }
{}

/// After a fork the pages of the child are where those of the parent are, or are zeros and nowhere;
/// nothing is taken, and nothing comes free.
pub fn forks_hold_bytes()
    ensures { (m : Setting) (closing : Option ℕ) (v new : View) (d : Device) (w : World)
        (l : Ledger) (p q : ℕ) → T (is_sorted key_cmp l.entries)
        → ((page : ℕ) → entry l (q, page) ≡ None)
        → new.bytes ≡ v.bytes → free_of new ≡ free_of v → BytesStand v d w l
        → BytesStand new d (set_process w q (child_of (pages w p)))
        (after l (Forked p q (inheritance (pages w p) l p)))
        × Chooses m closing l (Forked p q (inheritance (pages w p) l p)) (free_of v)
        (free_of new) }
{}

/// Entries go to other pages, with what they name: a view whose tables have them there, each as it
/// was, stands for it. Nothing is taken, and nothing comes free.
pub fn entries_move()
    ensures { (m : Setting) (closing : Option ℕ) (v : View) (d : Device) (w later : World)
        (l : Ledger) (p n from to : ℕ) (table : ℕ → ℕ → Option Pte)
        → IsAlike l (after l (EntriesMoved p n from to)) → LedgerStands m v l → BytesStand v d w l
        → ((q page : ℕ) → entry_of (table q page)
        ≡ entry (after l (EntriesMoved p n from to)) (q, page))
        → ((q page : ℕ) (t : Pte) → table q page ≡ Some t
        → (r : ℕ) × (other : ℕ) × (v.table r other ≡ Some t))
        → ((q page : ℕ) → ((r : ℕ) × (other : ℕ)
        × (entry (after l (EntriesMoved p n from to)) (q, page) ≡ entry l (r, other))
        × (pages later q page ≡ pages w r other))
        ⊎ ((entry (after l (EntriesMoved p n from to)) (q, page) ≡ None)
        × Holds (pages later q page) (λ _. 0)))
        → LedgerStands m (record v { table = table }) (after l (EntriesMoved p n from to))
        × BytesStand (record v { table = table }) d later (after l (EntriesMoved p n from to))
        × Chooses m closing l (EntriesMoved p n from to) (free_of v) (free_of v) }
{}

/// What stands for some memories stands for those with fewer pages, as before entries go.
pub fn memories_may_lose_pages()
    ensures { (v : View) (d : Device) (w fewer : World) (l : Ledger) → BytesStand v d w l
        → ((p page : ℕ) → (pages fewer p page ≡ pages w p page) ⊎ (pages fewer p page ≡ None))
        → BytesStand v d fewer l }
{}

/// It stands for those whose pages claim no more, as where flags or protections change.
pub fn memories_may_claim_less()
    ensures { (v : View) (d : Device) (w other : World) (l : Ledger) → BytesStand v d w l
        → ((p page : ℕ) (at : ℕ → ℕ) → Holds (pages w p page) at
        → Holds (pages other p page) at)
        → BytesStand v d other l }
{}

/// And for those that have zeros on pages without an entry, as once entries have gone.
pub fn pages_without_entry_may_be_zeros()
    ensures { (v : View) (d : Device) (w other : World) (l : Ledger) → BytesStand v d w l
        → ((p page : ℕ) → (pages other p page ≡ pages w p page)
        ⊎ ((entry l (p, page) ≡ None) × Holds (pages other p page) (λ _. 0)))
        → BytesStand v d other l }
{}
