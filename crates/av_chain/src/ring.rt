//! Taking an area out of all its lists, one node after another.
ghost use Rattle.av_base.specs.Words.{with_at};
ghost use Rattle.std.specs.Prelude.{◌≡◌, ℕ, ◌+◌, List, [], length, is_some};
ghost use Rattle.av_chain.specs.Links.{first_in, rest_in, left_by, left_by_all, one_if};

use av_base::Steps;
use std::sync::ledger::Ledger;

/// Links between areas and anon_vmas, seen as two maps: of each area its anon_vmas, of each
/// anon_vma its areas.
pub trait Ring<L: Ledger> {
    ghost chain_of: { Self → ℕ → List ℕ };

    ghost users_of: { Self → ℕ → List ℕ };

    /// Takes out the first link of an area, and tells its anon_vma. It is one step. None exactly
    /// where the area has no link, which is no step.
    fn pop(&mut self, area: u64, steps: &mut Steps<L>) -> Option<u64>
        ensures first { result ≡ first_in (chain_of self.old area) }
        ensures chain { chain_of self.new
            ≡ with_at area (rest_in (chain_of self.old area)) (chain_of self.old) }
        ensures users { users_of self.new
            ≡ left_by area (first_in (chain_of self.old area)) (users_of self.old) }
        ensures steps { steps.new ≡ steps.old + one_if (is_some result) };
}

/// Takes an area out of all its lists, in as many steps as it has links.
pub fn unlink_from<R: Ring<L>, L: Ledger>(ring: &mut R, area: u64, steps: &mut Steps<L>)
    ensures chain { R.chain_of ring.new ≡ with_at area [] (R.chain_of ring.old) }
    ensures users { R.users_of ring.new
        ≡ left_by_all area (R.chain_of ring.old area) (R.users_of ring.old) }
    ensures steps { steps.new ≡ steps.old + length (R.chain_of ring.old area) }
{
    while let Some(_anon) = ring.pop(area, steps) {}
}
