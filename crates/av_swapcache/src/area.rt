//! One swap area that is on.

ghost use Rattle.std.specs.Prelude.{◌≡◌, ℕ, count_by, ◌+◌, ◌-◌, ◌<◌, ◌≤◌, ◌^◌, replicate, IfOk};
ghost use Rattle.std.specs.Prelude.{IfSome, IsSomeAnd, MatchResult, Some, None, is_some, nat_lt};
ghost use Rattle.std.specs.Prelude.{slice_set, if◌then◌else◌, true, false};
ghost use Rattle.av_clusters.specs.Clusters.{is_free, is_taken, page_at, pages_of, take_slot};
ghost use Rattle.av_clusters.specs.declared.clusters.Page.TheVariants.{Free};
ghost use Rattle.av_swapmap.specs.Counts.{shown as shown_counts};
ghost use Rattle.av_swapcache.specs.Area.{area_shown, fresh_area, with_frame, with_entries};
ghost use Rattle.av_swapcache.specs.Area.{given_back, count_in, free_in, after_count, uses_in};
ghost use Rattle.av_swapcache.specs.Area.{IsKept, IsSlot};

use av_clusters::Clusters;
use av_swapdev::Header;
use av_swapmap::Counts;
use std::alloc::{AllocError, Global};
use std::marker::Model;

/// A swap area that is on, and what is kept of each of its slots. Only `new` and `entry_up` take
/// memory.
#[derive(Drop)]
pub(crate) struct Area {
    header: Header,
    priority: i32,
    counts: Counts,
    clusters: Clusters,
    // The frame that caches each slot, by page.
    cache: Vec<Option<u32>>,
}

impl Model for Area {
    ghost use Rattle.av_swapmap.specs.Counts.{shown};
    ghost use Rattle.av_swapcache.specs.Area.{AreaStore, IsArea};

    ghost Value = { AreaStore };

    ghost view = { λ a. record {
      header = a.header;
      priority = a.priority;
      counts = a.counts;
      slots = a.clusters;
      cache = a.cache.items;
    } };

    ghost invariant = { λ a. IsArea a.header (shown a.counts) a.clusters.pages
        a.cache.items };
}

impl Area {
    /// An area with this header and these bad pages, of which no slot is given yet.
    pub(crate) fn new(
        alloc: Global,
        header: Header,
        priority: i32,
        bad: &[u32],
    ) -> Result<Area, AllocError>
        requires { count_by is_free (pages_of header.pages bad.now) ≡ header.slots }
        ensures { IfOk result (λ area. area_shown area ≡ fresh_area header priority bad.now) }
    {
        Ok(Area {
            header,
            priority,
            counts: Counts::new(alloc, header.pages, bad)?,
            clusters: Clusters::new(alloc, header.pages, bad)?,
            cache: nothing_cached(alloc, header.pages)?,
        })
    }

    /// What the header says.
    pub(crate) fn header(&self) -> Header
        ensures { result ≡ (area_shown self.now).header }
    {
        self.header
    }

    /// Of two areas the one with the greater priority gives its slots first.
    pub(crate) fn priority(&self) -> i32
        ensures { result ≡ (area_shown self.now).priority }
    {
        self.priority
    }

    /// How many slots are free.
    pub(crate) fn free(&self) -> u32
        ensures { result ≡ free_in (area_shown self.now).slots }
    {
        self.clusters.free()
    }

    /// The frame that caches the slot of a page.
    pub(crate) fn find(&self, page: u32) -> Option<u32>
        ensures frame { result ≡ (area_shown self.now).find page }
        ensures slot { IfSome result (λ _. IsSlot (area_shown self.now) page) }
    {
        *self.cache.get(page as usize)?
    }

    /// What holds of the slots at any time: those in use are slots of the area.
    pub(crate) fn keeps(&self)
        ensures kept { IsKept (area_shown self.now) }
        ensures slots { (p : ℕ) → 0 < count_in (area_shown self.now) p
            → IsSlot (area_shown self.now) p }
    {
        // The invariant is known once a field was read.
        let _ = &self.cache;
    }

    /// How many entries name the slot of a page; 0 of a page past the last.
    pub(crate) fn entries(&self, page: u32) -> u32
        ensures { result ≡ (area_shown self.now).entries page }
    {
        if page < self.header.pages {
            self.counts.get(page)
        } else {
            0
        }
    }

    /// Whether the page is bad.
    pub(crate) fn bad(&self, page: u32) -> bool
        requires { page < (area_shown self.now).header.pages }
        ensures { result ≡ (area_shown self.now).bad page }
    {
        self.counts.bad(page)
    }

    /// Takes the next slot, and caches it at a frame.
    pub(crate) fn put(&mut self, frame: u32) -> u32
        requires { 0 < free_in (area_shown self.old).slots }
        ensures gives { IsSomeAnd (take_slot (area_shown self.old).slots) (λ t. (t.0 ≡ result)
            × (area_shown self.new
            ≡ record (with_frame result (Some frame) (area_shown self.old)) { slots = t.1 })) }
        ensures unused { count_in (area_shown self.old) result ≡ 0 }
    {
        let Some(page) = self.clusters.take() else {
            unreachable!();
        };
        self.counts.set_cached(page, true);
        self.cache[page as usize] = Some(frame);
        page
    }

    /// Caches a slot that is in use at a frame.
    pub(crate) fn cache(&mut self, page: u32, frame: u32)
        requires { 0 < count_in (area_shown self.old) page }
        ensures { area_shown self.new ≡ with_frame page (Some frame) (area_shown self.old) }
    {
        self.counts.set_cached(page, true);
        self.cache[page as usize] = Some(frame);
    }

    /// A cached slot is so no longer, and is given back where no entry names it.
    pub(crate) fn uncache(&mut self, page: u32)
        requires { is_some ((area_shown self.old).find page) ≡ true }
        ensures { area_shown self.new
            ≡ given_back page (with_frame page None (area_shown self.old)) }
    {
        self.counts.set_cached(page, false);
        self.cache[page as usize] = None;
        give_unused(&self.counts, &mut self.clusters, page);
    }

    /// So many more entries name a slot that is in use. Without memory all stays.
    pub(crate) fn entry_up(&mut self, page: u32, n: u32) -> Result<(), AllocError>
        requires used { 0 < count_in (area_shown self.old) page }
        requires room { (area_shown self.old).entries page + n < 2 ^ 32 }
        ensures { MatchResult result
            (λ _. area_shown self.new
            ≡ with_entries page ((area_shown self.old).entries page + n) (area_shown self.old))
            (λ _. area_shown self.new ≡ area_shown self.old) }
    {
        self.counts.add(page, n)
    }

    /// So many fewer entries name the slot, which is given back where its count becomes 0.
    pub(crate) fn entry_down(&mut self, page: u32, n: u32)
        requires used { 0 < count_in (area_shown self.old) page }
        requires some { n ≤ (area_shown self.old).entries page }
        ensures { area_shown self.new
            ≡ given_back page (with_entries page ((area_shown self.old).entries page - n)
            (area_shown self.old)) }
    {
        self.counts.sub(page, n);
        give_unused(&self.counts, &mut self.clusters, page);
    }
}

/// Gives a taken slot back where nothing names it.
fn give_unused(counts: &Counts, clusters: &mut Clusters, page: u32)
    requires in_range { page < (shown_counts counts.now).pages }
    requires taken { is_taken (page_at clusters.old.pages page) ≡ true }
    ensures slots { clusters.new
        ≡ after_count page (uses_in (shown_counts counts.now) page) clusters.old }
    ensures pages { clusters.new.pages
        ≡ (if nat_lt 0 (uses_in (shown_counts counts.now) page) then clusters.old.pages
        else slice_set clusters.old.pages page Free) }
{
    if counts.get(page) == 0 && !counts.cached(page) {
        clusters.give(page);
    }
}

/// No frame for each page.
fn nothing_cached(alloc: Global, pages: u32) -> Result<Vec<Option<u32>>, AllocError>
    ensures { IfOk result (λ v. v.items ≡ replicate pages None) }
{
    let mut cache = Vec::new(alloc);
    cache.resize(pages as usize, None)?;
    Ok(cache)
}
