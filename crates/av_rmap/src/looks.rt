//! The areas that a walk looks in, one at a time, found a batch at a time.

ghost use Rattle.std.specs.Prelude.{◌≡◌, ◌==◌, true, [], ◌∷◌, IfSome, IfNone, drop};
ghost use Rattle.std.specs.Prelude.{length};
ghost use Rattle.av_interval.specs.declared.batch.TheConstants.{BATCH};
ghost use Rattle.av_rmap.specs.Looks.{ahead};
ghost use Rattle.av_rmap.specs.View.{View};
ghost use Rattle.av_rmap.specs.Walk.{areas_from, areas_of};

use crate::look::Look;
use av_interval::Batch;
use std::sync::ledger::Ledger;

/// The home that the looks are from, a batch of overlaps, and how many of them were given.
#[derive(Drop)]
pub(crate) struct Looks {
    home: (u64, u64),
    given: usize,
    /// Past which place the next batch begins.
    last: Option<(u64, u64)>,
    /// Whether there may be an overlap past it.
    more: bool,
    places: Batch,
}

impl Looks {
    /// Those from a home. None of them is looked for yet.
    pub(crate) fn new(home: (u64, u64)) -> Looks
        ensures { (view : View) → ahead result view ≡ areas_from view home }
    {
        Looks {
            home,
            given: 0,
            last: None,
            more: true,
            places: Batch::new(),
        }
    }

    /// The next area.
    // Each look begins with this, so it and `give` stand in the walk's loop, and `refill` doesn't.
    #[inline(always)]
    pub(crate) fn next<K: Look<L>, L: Ledger>(&mut self, look: &K) -> Option<u64>
        ensures some { IfSome result (λ area. ahead self.old (K.view look.now)
            ≡ area ∷ ahead self.new (K.view look.now)) }
        ensures none { IfNone result (ahead self.old (K.view look.now) ≡ []) }
    {
        if let Some(area) = self.give() {
            return Some(area);
        }
        if !self.more {
            return None;
        }
        self.refill(look);
        self.give()
    }

    /// The batch behind this one. A batch that isn't full is the last.
    #[inline(never)]
    fn refill<K: Look<L>, L: Ledger>(&mut self, look: &K)
        requires given { drop self.old.given self.old.places.items ≡ [] }
        requires more { self.old.more ≡ true }
        ensures same { ahead self.new (K.view look.now) ≡ ahead self.old (K.view look.now) }
        ensures none_given { self.new.given ≡ 0 }
        ensures more { self.new.more ≡ (length self.new.places.items == BATCH) }
    {
        look.next(self.home.0, self.home.1, self.last, &mut self.places);
        self.given = 0;
        self.last = self.places.as_slice().last().copied();
        self.more = self.places.is_full();
    }

    /// The next area of the batch.
    #[inline(always)]
    fn give(&mut self) -> Option<u64>
        ensures some { IfSome result (λ area. areas_of (drop self.old.given self.old.places.items)
            ≡ area ∷ areas_of (drop self.new.given self.new.places.items)) }
        ensures none { IfNone result (drop self.old.given self.old.places.items ≡ []) }
        ensures stays { IfNone result (self.new ≡ self.old) }
        ensures kept { self.new ≡ record self.old { given = self.new.given } }
    {
        match self.places.as_slice().get(self.given) {
            Some(&(_, area)) => {
                self.given += 1;
                Some(area)
            }
            None => None,
        }
    }
}
