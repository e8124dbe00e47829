//! Links of one area to several anon_vmas.
ghost use Rattle.std.specs.Prelude.{◌≡◌, ℕ, [], OnOk};
ghost use Rattle.av_base.specs.Words.{with_at};
ghost use Rattle.av_chain.specs.Links.{chain_of, users_of, users_with};
ghost use Rattle.av_anon.specs.Anons.{IsRising, is_empty};

use av_chain::Links;
use av_chain::ring::Ring;
use std::alloc::AllocError;
use std::sync::ledger::Ledger;

/// Links an area that has no link to each of these anon_vmas, in their order.
pub(crate) fn link_each(links: &mut Links, area: u64, anons: &[u64]) -> Result<(), AllocError>
    requires empty { chain_of links.old area ≡ [] }
    requires rising { IsRising anons.now }
    ensures chain { OnOk result (chain_of links.new
        ≡ with_at area anons.now (chain_of links.old)) }
    ensures users { OnOk result (users_of links.new
        ≡ users_with area anons.now (users_of links.old)) }
{
    links.link_all(area, anons)
}

/// A ring that tells, too, whether an anon_vma has a user.
pub(crate) trait UserRing<L: Ledger>: Ring<L> {
    /// Whether no area is linked to an anon_vma. It is no step.
    fn is_unused(&self, anon: u64) -> bool
        ensures { result ≡ is_empty (Self.users_of self.now anon) };
}

impl<L: Ledger> UserRing<L> for Links {
    fn is_unused(&self, anon: u64) -> bool {
        self.users(anon).next().is_none()
    }
}
