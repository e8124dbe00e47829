//! Changes of the tree below a node.
//!
//! They go by the numbers of nodes, and answer whether the node is stored otherwise afterwards:
//! where it is not, nothing above is looked at.
//!
//! A step to either side is one function, in line and called with a constant, so that no side is
//! kept over the call below.

ghost use Rattle.std.specs.Prelude.{◌≡◌, ◌<◌, true, false, IsSome, MatchOption, None, Some};
ghost use Rattle.av_arena.specs.Arena.{KeepsEntries, PutsEntry, store_of};
ghost use Rattle.av_arena.specs.Below.{HasKeyBelow, IsAt, IsBeside, IsBetween, IsHung};
ghost use Rattle.av_arena.specs.Below.{IsJoinBelowFor, IsJoinedBelow, IsLevelAt, IsPlaceBelow};
ghost use Rattle.av_arena.specs.Below.{IsPlacedBelow, IsRemovedBelow, IsReplacedBelow, IsSettled};
ghost use Rattle.av_arena.specs.Below.{IsSideFor, IsSideSettled, IsSideTaken, IsSplitBelow};
ghost use Rattle.av_arena.specs.Below.{IsSplitBelowFor, IsTaken, IsTold, IsUnsettled, HasSide};
ghost use Rattle.av_arena.specs.Below.{IsClosed, IsLeaning, IsLow, child_number};
ghost use Rattle.av_arena.specs.Tree.{height_of};

use crate::arena::Arena;
use crate::entry::Entry;
use crate::link::{Link, Side, Stored};
use crate::tree::{close, height, is_same_link, pop_first, sum_at};

/// The link that tells a node, whose sides differ by two levels at most: none where they are not
/// level.
#[inline(always)]
fn level_link<T: Entry>(arena: &Arena<T, T::Sum>, number: u32) -> Option<Link<T::Sum>>
    requires { IsUnsettled T.key T.unit T.op T.of 2 (store_of arena.now) number }
    ensures { MatchOption result
        (IsLevelAt T.key T.unit T.op T.of (store_of arena.now) number false)
        (λ link. IsLevelAt T.key T.unit T.op T.of (store_of arena.now) number true
        × IsTold T.key T.unit T.op T.of (store_of arena.now) number link) }
{
    let cell = arena.cell(number);
    let (left, right) = (cell.left.height(), cell.right.height());
    if left > right + 1 || right > left + 1 {
        return None;
    }
    Some(Link {
        number,
        height: left.max(right) + 1,
        sum: sum_at::<T>(cell),
    })
}

/// What becomes of a node whose sides differ by two levels at most. Where they are level it stays
/// as it is.
#[inline(always)]
pub fn settle<T: Entry>(arena: &mut Arena<T, T::Sum>, number: u32) -> Link<T::Sum>
    requires { IsUnsettled T.key T.unit T.op T.of 2 (store_of arena.old) number }
    ensures settled { IsSettled T.key T.unit T.op T.of (store_of arena.old) (store_of arena.new)
        number result }
    ensures kept { KeepsEntries (store_of arena.old) (store_of arena.new) }
{
    match level_link(arena, number) {
        Some(link) => link,
        None => rotate(arena, number),
    }
}

/// What becomes of such a node by a rotation: another node is the root.
#[inline(always)]
fn rotate<T: Entry>(arena: &mut Arena<T, T::Sum>, number: u32) -> Link<T::Sum>
    requires node { IsUnsettled T.key T.unit T.op T.of 2 (store_of arena.old) number }
    requires uneven { IsLevelAt T.key T.unit T.op T.of (store_of arena.old) number false }
    ensures settled { IsSettled T.key T.unit T.op T.of (store_of arena.old) (store_of arena.new)
        number result }
    ensures other { result.number ≡ number → ⊥ }
    ensures kept { KeepsEntries (store_of arena.old) (store_of arena.new) }
{
    let cell = arena.cell(number);
    if cell.left.height() > cell.right.height() {
        let Some(high) = cell.left.number() else {
            unreachable!()
        };
        return lift(arena, number, high, Side::Left);
    }
    let Some(high) = cell.right.number() else {
        unreachable!()
    };
    lift(arena, number, high, Side::Right)
}

/// Puts another tree on a side of a node, and tells the node anew.
#[inline(always)]
fn close_side<T: Entry>(
    arena: &mut Arena<T, T::Sum>,
    number: u32,
    side: Side,
    tree: Option<Link<T::Sum>>,
) -> Link<T::Sum>
    requires used { IsSome (store_of arena.old number) }
    requires low { IsLow (store_of arena.old) number }
    requires low_tree { height_of tree < 220 }
    ensures closed { IsClosed T.key T.unit T.op T.of side (store_of arena.old) (store_of arena.new)
        number tree result }
    ensures kept { KeepsEntries (store_of arena.old) (store_of arena.new) }
{
    arena.set_side(number, side, tree);
    let cell = arena.cell(number);
    Link {
        number,
        height: cell.left.height().max(cell.right.height()) + 1,
        sum: sum_at::<T>(cell),
    }
}

/// What becomes of a node with a side that is two levels too high. The root there, `high`, goes
/// above the node, which takes what lies between them. Where that is the higher part of the side,
/// its own root goes above both, and they take its sides.
///
/// Only the sides that change are written, each where it lies, and no entry moves.
#[inline(always)]
fn lift<T: Entry>(arena: &mut Arena<T, T::Sum>, number: u32, high: u32, side: Side) -> Link<T::Sum>
    requires { IsLeaning T.key T.unit T.op T.of side (store_of arena.old) number high }
    ensures settled { IsSettled T.key T.unit T.op T.of (store_of arena.old) (store_of arena.new)
        number result }
    ensures other { result.number ≡ number → ⊥ }
    ensures kept { KeepsEntries (store_of arena.old) (store_of arena.new) }
{
    let other = side.other();
    let cell = arena.cell(high);
    let between = cell.twig(other).link();
    if height(between) <= cell.twig(side).height() {
        let low = close_side(arena, number, side, between);
        return close_side(arena, high, other, Some(low));
    }
    let Some(middle) = between else {
        unreachable!()
    };
    let inner = arena.cell(middle.number);
    let (near, far) = (inner.twig(side).link(), inner.twig(other).link());
    let outer = close_side(arena, high, other, near);
    let low = close_side(arena, number, side, far);
    arena.set_side(middle.number, side, Some(outer));
    close_side(arena, middle.number, other, Some(low))
}

/// Settles a side of a node, whose root is `child`, by a rotation.
#[inline(never)]
fn turn_side<T: Entry>(arena: &mut Arena<T, T::Sum>, number: u32, child: u32, side: Side) -> bool
    requires child { IsUnsettled T.key T.unit T.op T.of 2 (store_of arena.old) child }
    requires uneven { IsLevelAt T.key T.unit T.op T.of (store_of arena.old) child false }
    requires used { IsSome (store_of arena.old number) }
    ensures settled { IsSideSettled T.key T.unit T.op T.of side (store_of arena.old)
        (store_of arena.new) number child result }
    ensures kept { KeepsEntries (store_of arena.old) (store_of arena.new) }
{
    let link = rotate(arena, child);
    arena.set_side(number, side, Some(link));
    true
}

/// Whether a node has this link on a side.
#[inline(always)]
fn has_side<T: Entry>(arena: &Arena<T, T::Sum>, number: u32, link: Link<T::Sum>, side: Side) -> bool
    requires { IsSome (store_of arena.now number) }
    ensures { HasSide (store_of arena.now) number side link result }
{
    is_same_link::<T>(arena.cell(number).twig(side), Some(link))
}

/// Settles a side of a node, whose root is `child`, and puts its link there, where the node has
/// another one.
#[inline(always)]
fn settle_side<T: Entry>(arena: &mut Arena<T, T::Sum>, number: u32, child: u32, side: Side) -> bool
    requires child { IsUnsettled T.key T.unit T.op T.of 2 (store_of arena.old) child }
    requires used { IsSome (store_of arena.old number) }
    ensures settled { IsSideSettled T.key T.unit T.op T.of side (store_of arena.old)
        (store_of arena.new) number child result }
    ensures kept { KeepsEntries (store_of arena.old) (store_of arena.new) }
{
    let Some(link) = level_link(arena, child) else {
        return turn_side(arena, number, child, side);
    };
    if has_side(arena, number, link, side) {
        return false;
    }
    arena.set_side(number, side, Some(link));
    true
}

/// Puts a node without sides on a side of another, where there is none.
#[inline(always)]
fn hang<T: Entry>(arena: &mut Arena<T, T::Sum>, number: u32, new: u32, entry: &T, side: Side)
    requires used { IsSome (store_of arena.old number) }
    requires empty { child_number side (store_of arena.old number) ≡ None }
    requires new { IsSome (store_of arena.old new) }
    ensures hung { IsHung T.key T.unit T.op T.of side (store_of arena.old) (store_of arena.new)
        number new entry.now }
    ensures put { PutsEntry (store_of arena.old) (store_of arena.new) new entry.now }
{
    let link = close(arena, new, None, *entry, None);
    arena.set_side(number, side, Some(link));
}

/// The number of the node at the root of a side.
#[inline(always)]
fn child_of<T: Entry>(arena: &Arena<T, T::Sum>, number: u32, side: Side) -> Option<u32>
    requires { IsSome (store_of arena.now number) }
    ensures { result ≡ child_number side (store_of arena.now number) }
{
    arena.cell(number).twig(side).number()
}

/// The side of a node where the key of `like` belongs: the left one where it is below the node's.
#[inline(always)]
fn side_for<T: Entry>(arena: &Arena<T, T::Sum>, number: u32, like: &T) -> Side
    requires { IsSome (store_of arena.now number) }
    ensures { IsSideFor T.key T.unit T.op T.of (store_of arena.now) number like.now result }
{
    if like.is_before(&arena.cell(number).entry) {
        return Side::Left;
    }
    Side::Right
}

/// The side of a node where the keys from that of `first` to that of `last` belong, if the node's
/// own is none of them.
#[inline(always)]
fn side_beside<T: Entry>(arena: &Arena<T, T::Sum>, number: u32, first: &T, last: &T) -> Option<Side>
    requires { IsSome (store_of arena.now number) }
    ensures { IsBeside T.key T.unit T.op T.of (store_of arena.now) number first.now last.now
        result }
{
    let own = &arena.cell(number).entry;
    if last.is_before(own) {
        return Some(Side::Left);
    }
    if own.is_before(first) {
        return Some(Side::Right);
    }
    None
}

/// Puts the node `new`, which is in use and not in the tree, into the tree with the root `number`:
/// whether the root is stored otherwise.
#[cycle(place)]
pub fn placed_below<T: Entry>(
    arena: &mut Arena<T, T::Sum>,
    number: u32,
    new: u32,
    entry: &T,
) -> bool
    requires { IsPlaceBelow T.key T.unit T.op T.of (store_of arena.old) number new entry.now }
    ensures placed { IsPlacedBelow T.key T.unit T.op T.of (store_of arena.old) (store_of arena.new)
        number new entry.now result }
    ensures put { PutsEntry (store_of arena.old) (store_of arena.new) new entry.now }
{
    match side_for(arena, number, entry) {
        Side::Left => placed_on(arena, number, new, entry, Side::Left),
        Side::Right => placed_on(arena, number, new, entry, Side::Right),
    }
}

/// The step of `placed_below` to the side where the key of `entry` belongs.
#[cycle(place)]
#[inline(always)]
fn placed_on<T: Entry>(
    arena: &mut Arena<T, T::Sum>,
    number: u32,
    new: u32,
    entry: &T,
    side: Side,
) -> bool
    requires place { IsPlaceBelow T.key T.unit T.op T.of (store_of arena.old) number new entry.now }
    requires side { IsSideFor T.key T.unit T.op T.of (store_of arena.old) number entry.now side }
    ensures placed { IsPlacedBelow T.key T.unit T.op T.of (store_of arena.old) (store_of arena.new)
        number new entry.now result }
    ensures put { PutsEntry (store_of arena.old) (store_of arena.new) new entry.now }
{
    let Some(child) = child_of(arena, number, side) else {
        hang(arena, number, new, entry, side);
        return true;
    };
    if !placed_below(arena, child, new, entry) {
        return false;
    }
    settle_side(arena, number, child, side)
}

/// Puts `entry` in the place of the one with its key in the tree with the root `number`: whether
/// the root is stored otherwise, or got the entry.
#[cycle(replace)]
pub fn replaced_below<T: Entry>(arena: &mut Arena<T, T::Sum>, number: u32, entry: &T) -> bool
    requires { HasKeyBelow T.key T.unit T.op T.of (store_of arena.old) number entry.now }
    ensures { IsReplacedBelow T.key T.unit T.op T.of (store_of arena.old) (store_of arena.new)
        number entry.now result }
{
    match side_beside(arena, number, entry, entry) {
        Some(Side::Left) => replaced_on(arena, number, entry, Side::Left),
        Some(Side::Right) => replaced_on(arena, number, entry, Side::Right),
        None => {
            arena.set_entry(number, *entry);
            true
        }
    }
}

/// The step of `replaced_below` to the side where the key of `entry` belongs.
#[cycle(replace)]
#[inline(always)]
fn replaced_on<T: Entry>(arena: &mut Arena<T, T::Sum>, number: u32, entry: &T, side: Side) -> bool
    requires key { HasKeyBelow T.key T.unit T.op T.of (store_of arena.old) number entry.now }
    requires side { IsBeside T.key T.unit T.op T.of (store_of arena.old) number entry.now entry.now
        (Some side) }
    ensures { IsReplacedBelow T.key T.unit T.op T.of (store_of arena.old) (store_of arena.new)
        number entry.now result }
{
    let Some(child) = child_of(arena, number, side) else {
        unreachable!()
    };
    if !replaced_below(arena, child, entry) {
        return false;
    }
    settle_side(arena, number, child, side)
}

/// Whether a node has the key of `like`.
#[inline(always)]
pub fn is_at<T: Entry>(arena: &Arena<T, T::Sum>, number: u32, like: &T) -> bool
    requires { IsSome (store_of arena.now number) }
    ensures { IsAt T.key T.unit T.op T.of (store_of arena.now) number like.now result }
{
    let own = &arena.cell(number).entry;
    !like.is_before(own) && !own.is_before(like)
}

/// What is left of a tree without its root, which has the key of `like`.
#[inline(never)]
pub fn take<T: Entry>(arena: &mut Arena<T, T::Sum>, number: u32, like: &T) -> Option<Link<T::Sum>>
    requires there { HasKeyBelow T.key T.unit T.op T.of (store_of arena.old) number like.now }
    requires same { IsAt T.key T.unit T.op T.of (store_of arena.old) number like.now true }
    ensures taken { IsTaken T.key T.unit T.op T.of (store_of arena.old) (store_of arena.new) number
        like.now result }
    ensures kept { KeepsEntries (store_of arena.old) (store_of arena.new) }
{
    let cell = arena.cell(number);
    let before = cell.left.link();
    let Some(right) = cell.right.link() else {
        return before;
    };
    let (first, entry, rest) = pop_first(arena, right);
    arena.set(
        first,
        Stored {
            left: before,
            entry,
            right: rest,
        },
    );
    let whole = settle(arena, first);
    Some(whole)
}

/// Takes out the root of a side, `child`, which has the key of `like`.
#[inline(never)]
fn take_child<T: Entry>(arena: &mut Arena<T, T::Sum>, number: u32, child: u32, like: &T, side: Side)
    requires used { IsSome (store_of arena.old number) }
    requires there { HasKeyBelow T.key T.unit T.op T.of (store_of arena.old) child like.now }
    requires same { IsAt T.key T.unit T.op T.of (store_of arena.old) child like.now true }
    ensures taken { IsSideTaken T.key T.unit T.op T.of side (store_of arena.old)
        (store_of arena.new) number child like.now }
    ensures kept { KeepsEntries (store_of arena.old) (store_of arena.new) }
{
    let rest = take(arena, child, like);
    arena.set_side(number, side, rest);
}

/// Takes the node with the key of `like` out of the tree with the root `number`, which is another
/// one: the number of that node, and whether the root is stored otherwise.
#[cycle(remove)]
pub fn removed_below<T: Entry>(arena: &mut Arena<T, T::Sum>, number: u32, like: &T) -> (u32, bool)
    requires there { HasKeyBelow T.key T.unit T.op T.of (store_of arena.old) number like.now }
    requires other { IsAt T.key T.unit T.op T.of (store_of arena.old) number like.now false }
    ensures removed { IsRemovedBelow T.key T.unit T.op T.of (store_of arena.old)
        (store_of arena.new) number like.now result.0 result.1 }
    ensures node { IsAt T.key T.unit T.op T.of (store_of arena.old) result.0 like.now true }
    ensures kept { KeepsEntries (store_of arena.old) (store_of arena.new) }
{
    match side_for(arena, number, like) {
        Side::Left => removed_on(arena, number, like, Side::Left),
        Side::Right => removed_on(arena, number, like, Side::Right),
    }
}

/// The step of `removed_below` to the side where the key of `like` belongs.
#[cycle(remove)]
#[inline(always)]
fn removed_on<T: Entry>(
    arena: &mut Arena<T, T::Sum>,
    number: u32,
    like: &T,
    side: Side,
) -> (u32, bool)
    requires there { HasKeyBelow T.key T.unit T.op T.of (store_of arena.old) number like.now }
    requires other { IsAt T.key T.unit T.op T.of (store_of arena.old) number like.now false }
    requires side { IsSideFor T.key T.unit T.op T.of (store_of arena.old) number like.now side }
    ensures removed { IsRemovedBelow T.key T.unit T.op T.of (store_of arena.old)
        (store_of arena.new) number like.now result.0 result.1 }
    ensures node { IsAt T.key T.unit T.op T.of (store_of arena.old) result.0 like.now true }
    ensures kept { KeepsEntries (store_of arena.old) (store_of arena.new) }
{
    let Some(child) = child_of(arena, number, side) else {
        unreachable!()
    };
    if is_at(arena, child, like) {
        take_child(arena, number, child, like, side);
        return (child, true);
    }
    let (out, changed) = removed_below(arena, child, like);
    if !changed {
        return (out, false);
    }
    (out, settle_side(arena, number, child, side))
}

/// Puts `lower` in the place of the entry with its key, and the node `new` for `upper` right after
/// it, and answers whether the root is stored otherwise, or got `lower`. Where both are in sum what
/// that entry was, nothing above is written but where a height changes.
#[cycle(split)]
pub fn split_below<T: Entry>(
    arena: &mut Arena<T, T::Sum>,
    number: u32,
    new: u32,
    lower: &T,
    upper: &T,
) -> bool
    requires { IsSplitBelowFor T.key T.unit T.op T.of (store_of arena.old) number new lower.now
        upper.now }
    ensures { IsSplitBelow T.key T.unit T.op T.of (store_of arena.old) (store_of arena.new) number
        new lower.now upper.now result }
{
    match side_beside(arena, number, lower, lower) {
        Some(Side::Left) => split_on(arena, number, new, lower, upper, Side::Left),
        Some(Side::Right) => split_on(arena, number, new, lower, upper, Side::Right),
        None => {
            arena.set_entry(number, *lower);
            let _ = placed_below(arena, number, new, upper);
            true
        }
    }
}

/// The step of `split_below` to the side where the key of `lower` belongs.
#[cycle(split)]
#[inline(always)]
fn split_on<T: Entry>(
    arena: &mut Arena<T, T::Sum>,
    number: u32,
    new: u32,
    lower: &T,
    upper: &T,
    side: Side,
) -> bool
    requires split { IsSplitBelowFor T.key T.unit T.op T.of (store_of arena.old) number new
        lower.now upper.now }
    requires side { IsBeside T.key T.unit T.op T.of (store_of arena.old) number lower.now lower.now
        (Some side) }
    ensures { IsSplitBelow T.key T.unit T.op T.of (store_of arena.old) (store_of arena.new) number
        new lower.now upper.now result }
{
    let Some(child) = child_of(arena, number, side) else {
        unreachable!()
    };
    if !split_below(arena, child, new, lower, upper) {
        return false;
    }
    settle_side(arena, number, child, side)
}

/// Takes the node of one of two neighbours, `lower` and `upper`, out of the tree with the root
/// `number`, which is the other one and gets `joined`: the number of the node that goes.
#[inline(never)]
fn joined_at<T: Entry>(
    arena: &mut Arena<T, T::Sum>,
    number: u32,
    lower: &T,
    upper: &T,
    joined: &T,
) -> u32
    requires join { IsJoinBelowFor T.key T.unit T.op T.of (store_of arena.old) number lower.now
        upper.now joined.now }
    requires meets { IsBetween T.key T.unit T.op T.of (store_of arena.old) number lower.now
        upper.now }
    ensures { IsJoinedBelow T.key T.unit T.op T.of (store_of arena.old) (store_of arena.new) number
        lower.now upper.now joined.now result true }
{
    if lower.is_before(&arena.cell(number).entry) {
        let (out, _) = removed_below(arena, number, lower);
        arena.set_entry(number, *joined);
        return out;
    }
    let (out, _) = removed_below(arena, number, upper);
    arena.set_entry(number, *joined);
    out
}

/// Takes the node of `lower` or of `upper`, which comes right after it, out of the tree with the
/// root `number`, and puts `joined`, which has the key of `lower`, into the other: the number of
/// the node that goes, and whether the root is stored otherwise, or got `joined`. Where that is in
/// sum what the two were, nothing above is written but where a height changes.
#[cycle(join)]
pub fn joined_below<T: Entry>(
    arena: &mut Arena<T, T::Sum>,
    number: u32,
    lower: &T,
    upper: &T,
    joined: &T,
) -> (u32, bool)
    requires { IsJoinBelowFor T.key T.unit T.op T.of (store_of arena.old) number lower.now upper.now
        joined.now }
    ensures { IsJoinedBelow T.key T.unit T.op T.of (store_of arena.old) (store_of arena.new) number
        lower.now upper.now joined.now result.0 result.1 }
{
    match side_beside(arena, number, lower, upper) {
        Some(Side::Left) => joined_on(arena, number, lower, upper, joined, Side::Left),
        Some(Side::Right) => joined_on(arena, number, lower, upper, joined, Side::Right),
        None => (joined_at(arena, number, lower, upper, joined), true),
    }
}

/// The step of `joined_below` to the side where both keys belong.
#[cycle(join)]
#[inline(always)]
fn joined_on<T: Entry>(
    arena: &mut Arena<T, T::Sum>,
    number: u32,
    lower: &T,
    upper: &T,
    joined: &T,
    side: Side,
) -> (u32, bool)
    requires join { IsJoinBelowFor T.key T.unit T.op T.of (store_of arena.old) number lower.now
        upper.now joined.now }
    requires side { IsBeside T.key T.unit T.op T.of (store_of arena.old) number lower.now upper.now
        (Some side) }
    ensures { IsJoinedBelow T.key T.unit T.op T.of (store_of arena.old) (store_of arena.new) number
        lower.now upper.now joined.now result.0 result.1 }
{
    let Some(child) = child_of(arena, number, side) else {
        unreachable!()
    };
    let (out, changed) = joined_below(arena, child, lower, upper, joined);
    if !changed {
        return (out, false);
    }
    (out, settle_side(arena, number, child, side))
}
