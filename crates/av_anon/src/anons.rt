//! The anon_vmas, as one value.
ghost use Rattle.std.specs.Prelude.{◌≡◌, ℕ, [], Some, IsSome};
ghost use Rattle.av_anon.specs.Anons.{family, nobody};
ghost use Rattle.av_anon.specs.Infos.{info_in};
ghost use Rattle.av_anon.specs.Spans.{spans_of};

use crate::infos::{Info, Infos};
use av_chain::Links;
use av_interval::Spans;
use std::alloc::Global;

/// The anon_vmas with the links of areas to them, and the areas' spans.
///
/// They are numbered 0, 1, .. in the order of making; no number is used again.
#[derive(Drop)]
pub struct Anons {
    pub(crate) links: Links,
    pub(crate) spans: Spans,
    pub(crate) infos: Infos,
    pub(crate) next: u64,
    pub(crate) alloc: Global,
    // The list for the chain that a fork or a copy goes by. It is kept, as each of them would ask
    // the host for memory and give it back. What stands in it is no part of the state.
    pub(crate) chain: Vec<u64>,
}

impl Anons {
    /// No anon_vma.
    pub fn new(alloc: Global) -> Anons
        ensures family { family result ≡ nobody }
        ensures spans { (v : ℕ) → spans_of result v ≡ [] }
    {
        Anons {
            links: Links::new(alloc),
            spans: Spans::new(alloc),
            infos: Infos::new(alloc),
            next: 0,
            alloc,
            chain: Vec::new(alloc),
        }
    }

    /// What is kept of an anon_vma that isn't destroyed.
    pub fn info(&self, anon: u64) -> Info
        requires { IsSome (info_in self.now.infos anon) }
        ensures { info_in self.now.infos anon ≡ Some result }
    {
        match self.infos.get(anon) {
            Some(info) => info,
            None => unreachable!(),
        }
    }

    /// The links of areas to anon_vmas.
    pub fn links(&self) -> &Links
        ensures { result.now ≡ self.now.links }
    {
        &self.links
    }

    /// The spans of each anon_vma.
    pub fn spans(&self) -> &Spans
        ensures { result.now ≡ self.now.spans }
    {
        &self.spans
    }
}
