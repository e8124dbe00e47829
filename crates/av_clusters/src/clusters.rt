//! The pages of a swap area in clusters, and which of them is given next.

ghost use Rattle.std.specs.Prelude.{◌≡◌, ℕ, ◌+◌, ◌*◌, ◌/◌, ◌^◌, ◌<◌, ◌≤◌, [], length, map, IfOk};
ghost use Rattle.std.specs.Prelude.{IfNone, IfSome, MatchOption, position, count_by, slice_set};
ghost use Rattle.std.specs.Prelude.{replicate, ◌==◌, if◌then◌else◌, true, false, not};
ghost use Rattle.std.specs.List.{range_with_len};
ghost use Rattle.av_base.specs.Words.{is_in};
ghost use Rattle.std.specs.VecDeque.{deque_len, deque_capacity};
ghost use Rattle.av_clusters.specs.Clusters.{AreFull, unless, fresh, take_slot, give_slot, Gave};
ghost use Rattle.av_clusters.specs.Clusters.{Takes, Returns, in_current, in_next, anywhere};
ghost use Rattle.av_clusters.specs.Clusters.{is_free, is_taken, page_at, pages_between, lowest};
ghost use Rattle.av_clusters.specs.Clusters.{has_free, start_of, end_of, pages_of};
ghost use Rattle.av_clusters.specs.Clusters.{cluster_size, clusters_of, cluster_count};
ghost use Rattle.av_clusters.specs.Clusters.{group_size, group_count, lowest_in};
ghost use Rattle.av_clusters.specs.declared.clusters.Page.TheVariants.{Unusable, Free, Taken};

use std::alloc::{AllocError, Global};
use std::collections::VecDeque;
use std::marker::Model;

/// How many pages a cluster has. The last one of an area may be cut short.
const CLUSTER: usize = 256;

/// How many clusters a group has. The last one of an area may be cut short, too.
const GROUP: u32 = 64;

/// What a page of a swap area is.
#[derive(Clone, Copy, Drop)]
pub enum Page {
    /// The header, or a bad page: never given.
    Unusable,
    /// A slot that can be given.
    Free,
    /// A slot that is given.
    Taken,
}

impl Page {
    fn is_free(self) -> bool
        ensures { result ≡ is_free self }
    {
        match self {
            Page::Free => true,
            Page::Unusable | Page::Taken => false,
        }
    }

    fn is_taken(self) -> bool
        ensures { result ≡ is_taken self }
    {
        match self {
            Page::Taken => true,
            Page::Unusable | Page::Free => false,
        }
    }
}

/// The slots of one swap area, in clusters. Only `new` takes memory.
#[derive(Drop)]
pub struct Clusters {
    pages: Vec<Page>,
    /// How many pages are free.
    left: u32,
    /// How many pages of each cluster are taken, so that giving back need not look at them.
    taken: Vec<u16>,
    /// The free clusters. There is room for every cluster, so that giving back takes no memory.
    free: VecDeque<u32>,
    /// Whether each cluster is out of `free`, so that no one has to search it.
    busy: Vec<bool>,
    /// Clusters seen to have no free page, so that a search of the whole area passes them over: at
    /// the start, when a full one is left, and when such a search took the last page of one.
    full: Vec<bool>,
    /// Groups of clusters seen to have none, so that it passes over the marks of their clusters.
    full_groups: Vec<bool>,
    current: Option<u32>,
    cursor: u32,
}

impl Model for Clusters {
    ghost use Rattle.std.specs.VecDeque.{deque_len, deque_capacity};
    ghost use Rattle.av_clusters.specs.Clusters.{Slots, IsWhole};

    ghost Value = { Slots };

    ghost view = { λ a. record {
      pages = a.pages.items;
      free = a.free.items;
      current = a.current;
      cursor = a.cursor;
    } };

    ghost invariant = { λ a. IsWhole a.pages.items a.left a.taken.items a.free.items
        (deque_len a.free) (deque_capacity a.free) a.busy.items a.full.items a.full_groups.items
        a.current a.cursor };
}

impl Clusters {
    /// The slots of an area of this many pages: all but page 0, the header, and the bad pages. A
    /// bad page past the area's end is passed over.
    pub fn new(alloc: Global, pages: u32, bad: &[u32]) -> Result<Clusters, AllocError>
        ensures { IfOk result (λ clusters. clusters ≡ fresh pages bad.now) }
    {
        let pages = all_pages(alloc, pages, bad)?;
        let left = count_free(&pages);
        let free = free_clusters(alloc, &pages)?;
        let busy = full_clusters(alloc, &pages)?;
        let full = full_clusters(alloc, &pages)?;
        let full_groups = none_full(alloc, group_count(&pages))?;
        let taken = none_taken(alloc, cluster_count(&pages))?;
        Ok(Clusters {
            pages,
            left,
            taken,
            free,
            busy,
            full,
            full_groups,
            current: None,
            cursor: 0,
        })
    }

    /// Takes the next slot, and answers its page: from the current cluster, else from the first
    /// free one, else the lowest of the area. None exactly where no slot is free.
    pub fn take(&mut self) -> Option<u32>
        ensures gave { Gave (take_slot self.old) self.old result self.new }
        ensures slot { MatchOption result
            (count_by is_free self.old.pages ≡ 0)
            (λ p. Takes self.old.pages p self.new.pages) }
    {
        if let Some(page) = self.take_in_current() {
            return Some(page);
        }
        if let Some(page) = self.take_in_next() {
            return Some(page);
        }
        self.take_anywhere()
    }

    /// Gives a slot back, which has to be taken. A cluster whose last taken slot it was goes to the
    /// end of the free ones.
    pub fn give(&mut self, page: u32)
        requires { is_taken (page_at self.old.pages page) ≡ true }
        ensures gave { self.new ≡ give_slot self.old page }
        ensures slot { Returns self.old.pages page self.new.pages }
    {
        let cluster = page / CLUSTER as u32;
        self.pages[page as usize] = Page::Free;
        self.left += 1;
        self.full[cluster as usize] = false;
        self.full_groups[(cluster / GROUP) as usize] = false;
        self.taken[cluster as usize] -= 1;
        if self.taken[cluster as usize] == 0 {
            self.busy[cluster as usize] = false;
            self.free.push_back_reserved(cluster);
            self.current = unless(cluster, self.current);
        }
    }

    /// Whether a page is a slot that is taken.
    pub fn is_taken(&self, page: u32) -> bool
        ensures { result ≡ is_taken (page_at self.now.pages page) }
    {
        match self.pages.get(page as usize) {
            Some(page) => page.is_taken(),
            None => false,
        }
    }

    /// How many slots are free.
    pub fn free(&self) -> u32
        ensures { result ≡ count_by is_free self.now.pages }
    {
        self.left
    }

    /// Takes the lowest slot of the current cluster from the cursor on.
    fn take_in_current(&mut self) -> Option<u32>
        ensures gave { Gave (in_current self.old self.old.current) self.old result self.new }
        ensures slot { IfSome result (λ p. Takes self.old.pages p self.new.pages) }
    {
        let cluster = self.current?;
        let page = lowest(&self.pages, self.cursor as usize, end_of(cluster))?;
        self.pages[page as usize] = Page::Taken;
        self.left -= 1;
        self.taken[cluster as usize] += 1;
        self.cursor = page + 1;
        Some(page)
    }

    /// Leaves the current cluster, opens the first free one, and takes its lowest slot.
    fn take_in_next(&mut self) -> Option<u32>
        ensures gave { Gave (in_next self.old self.old.free) self.old result self.new }
        ensures slot { IfSome result (λ p. Takes self.old.pages p self.new.pages) }
        ensures none { IfNone result (self.old.free ≡ []) }
    {
        let cluster = *self.free.front()?;
        self.mark_current();
        let page = lowest(&self.pages, start_of(cluster), end_of(cluster))?;
        self.free.pop_front();
        self.busy[cluster as usize] = true;
        self.pages[page as usize] = Page::Taken;
        self.left -= 1;
        self.taken[cluster as usize] += 1;
        self.current = Some(cluster);
        self.cursor = page + 1;
        Some(page)
    }

    /// Takes the lowest slot of the area, once each cluster is in use.
    fn take_anywhere(&mut self) -> Option<u32>
        requires { self.old.free ≡ [] }
        ensures gave { Gave (anywhere self.old) self.old result self.new }
        ensures slot { MatchOption result
            (count_by is_free self.old.pages ≡ 0)
            (λ p. Takes self.old.pages p self.new.pages) }
    {
        let page = lowest_of_area(&self.pages, &mut self.full, &mut self.full_groups)?;
        self.pages[page as usize] = Page::Taken;
        self.left -= 1;
        let cluster = page / CLUSTER as u32;
        self.taken[cluster as usize] += 1;
        self.mark(cluster);
        Some(page)
    }

    /// Marks the current cluster, which is left, where it is full.
    fn mark_current(&mut self)
        ensures { self.new ≡ self.old }
    {
        if let Some(cluster) = self.current {
            self.mark(cluster);
        }
    }

    /// Marks a cluster where it is full, and its group where that is full, too.
    fn mark(&mut self, cluster: u32)
        requires { start_of cluster ≤ length self.old.pages }
        ensures { self.new ≡ self.old }
    {
        mark_if_full(&self.pages, &mut self.full, &mut self.full_groups, cluster);
    }
}

/// A cluster's first page.
fn start_of(cluster: u32) -> usize
    ensures { result ≡ start_of cluster }
{
    cluster as usize * CLUSTER
}

/// The page after its last, which the area may not reach.
fn end_of(cluster: u32) -> usize
    ensures { result ≡ end_of cluster }
{
    start_of(cluster) + CLUSTER
}

/// The lowest free page from one on, below another.
fn lowest(pages: &[Page], from: usize, to: usize) -> Option<u32>
    requires few { length pages.now < 2 ^ 32 }
    requires within { from ≤ length pages.now }
    requires rising { from ≤ to }
    ensures { result ≡ lowest pages.now from to }
{
    let at = first_free(between(pages, from, to))?;
    Some((from + at) as u32)
}

/// The lowest free page of the area. It passes over the groups that are marked as full.
fn lowest_of_area(pages: &[Page], full: &mut [bool], full_groups: &mut [bool]) -> Option<u32>
    requires few { length pages.now < 2 ^ 32 }
    requires full { AreFull cluster_size pages.now full.old }
    requires groups { AreFull group_size pages.now full_groups.old }
    ensures lowest { result ≡ lowest pages.now 0 (length pages.now) }
    ensures full { AreFull cluster_size pages.now full.new }
    ensures groups { AreFull group_size pages.now full_groups.new }
{
    for group in 0..group_count(pages) {
        let page = lowest_of_group(pages, full, full_groups, group);
        if page.is_some() {
            return page;
        }
    }
    None
}

/// The lowest free page of the group, which is marked as full where it has none.
fn lowest_of_group(
    pages: &[Page],
    full: &mut [bool],
    full_groups: &mut [bool],
    group: u32,
) -> Option<u32>
    requires few { length pages.now < 2 ^ 32 }
    requires within { group_size * group ≤ length pages.now }
    requires full { AreFull cluster_size pages.now full.old }
    requires groups { AreFull group_size pages.now full_groups.old }
    ensures lowest { result ≡ lowest_in group_size pages.now group }
    ensures full { AreFull cluster_size pages.now full.new }
    ensures groups { AreFull group_size pages.now full_groups.new }
{
    if full_groups[group as usize] {
        return None;
    }
    let page = lowest_of_clusters(pages, full, group);
    if page.is_none() {
        full_groups[group as usize] = true;
    }
    page
}

/// The lowest free page of the group. It passes over the clusters that are marked as full.
fn lowest_of_clusters(pages: &[Page], full: &mut [bool], group: u32) -> Option<u32>
    requires few { length pages.now < 2 ^ 32 }
    requires within { group_size * group ≤ length pages.now }
    requires full { AreFull cluster_size pages.now full.old }
    ensures lowest { result ≡ lowest_in group_size pages.now group }
    ensures full { AreFull cluster_size pages.now full.new }
{
    let first = group * GROUP;
    for cluster in first..(first + GROUP).min(cluster_count(pages)) {
        let page = lowest_of_cluster(pages, full, cluster);
        if page.is_some() {
            return page;
        }
    }
    None
}

/// The lowest free page of the cluster, which is marked as full where it has none.
fn lowest_of_cluster(pages: &[Page], full: &mut [bool], cluster: u32) -> Option<u32>
    requires few { length pages.now < 2 ^ 32 }
    requires within { start_of cluster ≤ length pages.now }
    requires full { AreFull cluster_size pages.now full.old }
    ensures lowest { result ≡ lowest_in cluster_size pages.now cluster }
    ensures full { AreFull cluster_size pages.now full.new }
{
    if full[cluster as usize] {
        return None;
    }
    let page = lowest(pages, start_of(cluster), end_of(cluster));
    if page.is_none() {
        full[cluster as usize] = true;
    }
    page
}

/// Marks the cluster as full where it has no free page, and its group where that has none.
fn mark_if_full(pages: &[Page], full: &mut [bool], full_groups: &mut [bool], cluster: u32)
    requires few { length pages.now < 2 ^ 32 }
    requires within { start_of cluster ≤ length pages.now }
    requires full { AreFull cluster_size pages.now full.old }
    requires groups { AreFull group_size pages.now full_groups.old }
    ensures full { AreFull cluster_size pages.now full.new }
    ensures groups { AreFull group_size pages.now full_groups.new }
{
    // A search marks what it finds to be full, and here that is all that it is for.
    if lowest_of_cluster(pages, full, cluster).is_none() {
        lowest_of_group(pages, full, full_groups, cluster / GROUP);
    }
}

fn first_free(pages: &[Page]) -> Option<usize>
    ensures value { result ≡ position is_free pages.now }
    ensures within { IfSome result (λ at. at < length pages.now) }
{
    pages.iter().position(|page| page.is_free())
}

/// The pages from one on, below another. The area may end before that.
fn between(pages: &[Page], from: usize, to: usize) -> &[Page]
    requires within { from ≤ length pages.now }
    requires rising { from ≤ to }
    ensures { result.now ≡ pages_between from to pages.now }
{
    &pages[from..to.min(pages.len())]
}

/// The current cluster, unless it is this one.
fn unless(cluster: u32, current: Option<u32>) -> Option<u32>
    ensures { result ≡ unless cluster current }
{
    match current {
        Some(filled) if filled != cluster => Some(filled),
        _ => None,
    }
}

fn count_free(pages: &[Page]) -> u32
    requires { length pages.now < 2 ^ 32 }
    ensures { result ≡ count_by is_free pages.now }
{
    pages.iter().filter(|page| page.is_free()).count() as u32
}

/// What each page is before a slot is given.
fn all_pages(alloc: Global, count: u32, bad: &[u32]) -> Result<Vec<Page>, AllocError>
    ensures { IfOk result (λ v. v.items ≡ pages_of count bad.now) }
{
    let mut pages = all_free(alloc, count)?;
    set_aside(&mut pages, bad);
    Ok(pages)
}

fn all_free(alloc: Global, count: u32) -> Result<Vec<Page>, AllocError>
    ensures { IfOk result (λ v. v.items ≡ replicate count Free) }
{
    let mut pages = Vec::new(alloc);
    pages.resize(count as usize, Page::Free)?;
    Ok(pages)
}

/// The header and the bad pages are never given.
fn set_aside(pages: &mut [Page], bad: &[u32])
    ensures page { (p : ℕ) → page_at pages.new p
        ≡ (if is_in p bad.now then Unusable else page_at (slice_set pages.old 0 Unusable) p) }
    ensures len { length pages.new ≡ length pages.old }
{
    set_unusable(pages, 0);
    for page in bad {
        set_unusable(pages, *page);
    }
}

/// A page past the end is passed over.
fn set_unusable(pages: &mut [Page], page: u32)
    ensures { pages.new ≡ slice_set pages.old page Unusable }
{
    if (page as usize) < pages.len() {
        pages[page as usize] = Page::Unusable;
    }
}

fn cluster_count(pages: &[Page]) -> u32
    requires { length pages.now < 2 ^ 32 }
    ensures { result ≡ cluster_count (length pages.now) }
{
    (pages.len() / CLUSTER + 1) as u32
}

fn group_count(pages: &[Page]) -> u32
    requires { length pages.now < 2 ^ 32 }
    ensures { result ≡ group_count (length pages.now) }
{
    (pages.len() / (GROUP as usize * CLUSTER) + 1) as u32
}

fn has_free(pages: &[Page], cluster: u32) -> bool
    requires few { length pages.now < 2 ^ 32 }
    requires within { start_of cluster ≤ length pages.now }
    ensures { result ≡ has_free pages.now cluster }
{
    lowest(pages, start_of(cluster), end_of(cluster)).is_some()
}

/// The clusters with a free page, with the room that all would take.
fn free_clusters(alloc: Global, pages: &[Page]) -> Result<VecDeque<u32>, AllocError>
    requires { length pages.now < 2 ^ 32 }
    ensures { IfOk result (λ q. (q.items ≡ clusters_of pages.now)
        × (deque_len q ≡ length q.items)
        × (cluster_count (length pages.now) ≤ deque_capacity q)) }
{
    let count = cluster_count(pages);
    let mut clusters = VecDeque::with_capacity(alloc, count as usize)?;
    for cluster in 0..count {
        if has_free(pages, cluster) {
            clusters.push_back(cluster)?;
        }
    }
    Ok(clusters)
}

/// Whether each cluster has no free page.
fn full_clusters(alloc: Global, pages: &[Page]) -> Result<Vec<bool>, AllocError>
    requires { length pages.now < 2 ^ 32 }
    ensures { IfOk result (λ v. v.items
        ≡ map (λ c. not (has_free pages.now c))
        (range_with_len 0 (cluster_count (length pages.now)))) }
{
    let mut full = Vec::new(alloc);
    for cluster in 0..cluster_count(pages) {
        full.push(!has_free(pages, cluster))?;
    }
    Ok(full)
}

fn none_taken(alloc: Global, count: u32) -> Result<Vec<u16>, AllocError>
    ensures { IfOk result (λ v. v.items ≡ replicate count 0) }
{
    let mut taken = Vec::new(alloc);
    taken.resize(count as usize, 0)?;
    Ok(taken)
}

fn none_full(alloc: Global, count: u32) -> Result<Vec<bool>, AllocError>
    ensures { IfOk result (λ v. v.items ≡ replicate count false) }
{
    let mut full = Vec::new(alloc);
    full.resize(count as usize, false)?;
    Ok(full)
}
