//! Worked examples for views of a kernel, part by part: what doesn't stand for a ledger.

ghost use Rattle.std.specs.Prelude.{◌≡◌};
ghost use Rattle.av_plain.specs.Ledger.{first_ledger};
ghost use Rattle.av_plain.specs.Stands.{ListsStand, SwapStands, TablesStand, kin_of};
ghost use Rattle.av_examples.specs.Views.{
  active_otherwise,
  all_unseen,
  both_active,
  flying,
  flying_otherwise,
  named_at_slot,
  of_a_child,
  one_seen,
  one_zero_page,
  two_of_each,
  two_shown,
  writable,
};

/// Each list of frames is compared with its own, and it and the slots in flight have their order.
/// Of an anon_vma its root and its parent are compared.
pub fn views_are_compared_in_order()
    ensures each_its_own { ListsStand two_shown two_of_each }
    ensures active { ListsStand both_active active_otherwise → ⊥ }
    ensures flight { SwapStands flying flying_otherwise → ⊥ }
    ensures kin { kin_of of_a_child ≡ (0, 1) }
{}

/// A table has the entries of the ledger, no other, and each as seen as it is there. No entry has a
/// write bit whose frame is cached at a slot that another entry names.
pub fn tables_have_all_entries_alone()
    ensures too_many { TablesStand one_zero_page first_ledger → ⊥ }
    ensures other_seen { TablesStand all_unseen one_seen → ⊥ }
    ensures at_a_slot { TablesStand writable named_at_slot → ⊥ }
{}
