//! One area.

ghost use Rattle.std.specs.Prelude.{◌≡◌, ◌*◌, ◌<◌, ◌≤◌, ◌^◌, ◌||◌, IsSome, Some};
ghost use Rattle.av_vma.specs.Index.{first_of, index_of, past_of};
ghost use Rattle.av_vma.specs.Join.{are_joinable, do_run_on, can_lend, share_anon};
ghost use Rattle.av_vma.specs.Pages.{home_of};

use av_base::{Flags, PAGE_SIZE, Prot};

/// A run of pages that one process mapped alike (Linux's `vm_area_struct`).
///
/// `start` and `end` are addresses on pages, `end` the first one past the area. The page at address
/// `a` has the linear index `(a - start) / 4096 + pgoff`. `anon` is the number of the area's own
/// anon_vma, if it has one. `flags` has what Linux's `vm_flags` has beside access.
#[derive(Clone, Copy, Drop, Debug, PartialEq, Eq)]
pub struct Area {
    pub pid: u16,
    pub start: u64,
    pub end: u64,
    pub prot: Prot,
    pub flags: Flags,
    pub pgoff: u64,
    pub anon: Option<u64>,
}

/// The linear index of a page of the area: it goes with the page through each split, join and move.
///
/// `page` is a page number, its address over 4096.
pub fn index(area: &Area, page: u64) -> u64
    requires first { first_of area.now ≤ page }
    requires small { index_of area.now page < 2 ^ 64 }
    ensures { result ≡ index_of area.now page }
{
    page - area.start / PAGE_SIZE + area.pgoff
}

/// The home that a frame has from a page of the area: the area's own anon_vma, and the page's
/// linear index. None exactly where the area has no anon_vma.
///
/// `page` is a page number, its address over 4096.
pub fn home(area: &Area, page: u64) -> Option<(u64, u64)>
    requires first { first_of area.now ≤ page }
    requires small { index_of area.now page < 2 ^ 64 }
    ensures { result ≡ home_of page (Some area.now) }
{
    let own = area.anon?;
    Some((own, index(area, page)))
}

/// Whether an area goes on in another so that the two may be one.
///
/// They adjoin, have the same protection and flags, the offsets run on, and they share an anon_vma:
/// both have the same or none, or one has none and the other's chain has one node. Each length is
/// that of the area's chain.
pub fn joinable(left: &Area, left_len: u64, right: &Area, right_len: u64) -> bool
    requires forward { first_of left.now ≤ past_of left.now }
    requires small { index_of left.now (past_of left.now) < 2 ^ 64 }
    ensures { result ≡ are_joinable left.now left_len right.now right_len }
{
    left.end == right.start
        && left.prot == right.prot
        && left.flags == right.flags
        && index(left, left.end / PAGE_SIZE) == right.pgoff
        && may_share(left.anon, left_len, right.anon, right_len)
}

/// Whether an area without anon_vma may take that of its neighbour `near`.
///
/// They adjoin, the offsets run on, the flags are equal, and the neighbour's chain has one node:
/// its length is `near_len`.
pub fn can_lend(area: &Area, near: &Area, near_len: u64) -> bool
    requires forward { first_of area.now ≤ past_of area.now }
    requires small { index_of area.now (past_of area.now) < 2 ^ 64 }
    requires near_forward { first_of near.now ≤ past_of near.now }
    requires near_small { index_of near.now (past_of near.now) < 2 ^ 64 }
    ensures { result ≡ can_lend area.now near.now near_len }
{
    near_len == 1 && area.flags == near.flags && (runs_on(area, near) || runs_on(near, area))
}

/// Whether an area ends where another begins, and the offsets run on.
fn runs_on(left: &Area, right: &Area) -> bool
    requires forward { first_of left.now ≤ past_of left.now }
    requires small { index_of left.now (past_of left.now) < 2 ^ 64 }
    ensures { result ≡ do_run_on left.now right.now }
{
    right.start == left.end && right.pgoff == index(left, left.end / PAGE_SIZE)
}

/// Whether two areas, each with its own anon_vma and the length of its chain, may have one
/// anon_vma.
fn may_share(left: Option<u64>, left_len: u64, right: Option<u64>, right_len: u64) -> bool
    ensures { result ≡ share_anon left left_len right right_len }
{
    match (left, right) {
        (None, None) => true,
        (None, Some(_)) => right_len == 1,
        (Some(_), None) => left_len == 1,
        (Some(anon), Some(other)) => anon == other,
    }
}
