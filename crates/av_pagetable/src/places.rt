//! The tables of the processes, each in the place that has its process's number.

ghost use Rattle.std.specs.Prelude.{◌≡◌, OnSome, Some, option_map};
ghost use Rattle.std.specs.Borrow.{LendsSo, sem};
ghost use Rattle.av_base.specs.Words.{with_at};
ghost use Rattle.av_pagetable.specs.Places.{table_in};
ghost use Rattle.av_pagetable.specs.contracts.places.Places.{the_row};

use crate::table::Table;

/// A place for each process, up to the last that has a table.
#[derive(Drop)]
pub(crate) struct Places<T> {
    pub(crate) items: Vec<Option<T>>,
}

impl<T: Table> Places<T> {
    /// The table in the place of a process.
    #[inline]
    pub(crate) fn of(&self, process: u16) -> Option<&T>
        ensures { option_map (λ t. T.at t.now) result ≡ table_in T.at self.now.items.items process }
    {
        self.items.get(process as usize)?.as_ref()
    }

    /// The same, to change it.
    #[inline]
    pub(crate) fn of_mut(&mut self, process: u16) -> Option<&mut T>
        // The table that is lent comes back to its place, and no other changes.
        ensures* writes_back { sem 𝓛 (LendsSo (the_row T.row) T.row self.entry result
            (λ n w. OnSome result (table_in T.at n.items.items
            ≡ with_at process (Some (T.at w)) (table_in T.at self.old.items.items)))
            (λ n. table_in T.at n.items.items ≡ table_in T.at self.old.items.items)) }
        ensures value { option_map (λ t. T.at t.now) result
            ≡ table_in T.at self.old.items.items process }
    {
        self.items.get_mut(process as usize)?.as_mut()
    }
}
