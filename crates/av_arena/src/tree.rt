//! The root of a tree: read, put above its sides, and told anew where the tree below it changes.

ghost use Rattle.std.specs.Prelude.{◌≡◌, ◌+◌, ◌<◌, ◌≤◌, max, true, Some, IsSome};
ghost use Rattle.av_arena.specs.Order.{without_key};
ghost use Rattle.av_arena.specs.Tree.{DifferByAtMost, IsHeightAfter, HasKey, IsHeld, IsJoined};
ghost use Rattle.av_arena.specs.Tree.{IsOpened, IsPlaceFor, IsPlaced, IsPopped, IsReplaced, IsRoot};
ghost use Rattle.av_arena.specs.Tree.{IsSet, IsSpot, IsWithout, sum_of, height_of};
ghost use Rattle.av_arena.specs.Tree.{tree_at, entries};
ghost use Rattle.av_arena.specs.Cell.{link_in, node_in};
ghost use Rattle.av_arena.specs.Arena.{KeepsEntries, PutsEntry, entry_of, store_of};
ghost use Rattle.av_arena.specs.Below.{IsAt, IsJoinFor, IsJoinedAt, IsSplit, IsSplitFor};

use crate::arena::Arena;
use crate::below::{
    is_at, joined_below, placed_below, removed_below, replaced_below, settle, split_below, take,
};
use crate::cell::{Cell, Twig};
use crate::entry::Entry;
use crate::link::{Link, Side, Stored};

#[inline]
pub fn height<S: Copy + Drop>(tree: Option<Link<S>>) -> u8
    ensures { result ≡ height_of tree }
{
    match tree {
        None => 0,
        Some(link) => link.height,
    }
}

#[inline]
pub fn sum<T: Entry>(tree: Option<Link<T::Sum>>) -> T::Sum
    ensures { result ≡ sum_of T.unit tree }
{
    match tree {
        None => T::empty(),
        Some(link) => link.sum,
    }
}

/// The summary of the tree on a side.
#[inline(always)]
pub fn sum_in<T: Entry>(twig: &Twig<T::Sum>) -> T::Sum
    ensures { result ≡ sum_of T.unit (link_in twig.now) }
{
    match twig {
        Twig::Tree { sum, .. } => *sum,
        _ => T::empty(),
    }
}

/// The summary of a node's entry and of those on both its sides.
#[inline(always)]
pub fn sum_at<T: Entry>(cell: &Cell<T, T::Sum>) -> T::Sum
    ensures { result ≡ T.op (sum_of T.unit (link_in cell.now.left))
        (T.op (T.of cell.now.entry) (sum_of T.unit (link_in cell.now.right))) }
{
    T::join_sums(
        sum_in::<T>(&cell.left),
        &cell.entry,
        sum_in::<T>(&cell.right),
    )
}

/// The node at the root of a tree, as it lies in its arena.
#[inline(always)]
pub fn open_cell<T: Entry>(arena: &Arena<T, T::Sum>, tree: Link<T::Sum>) -> &Cell<T, T::Sum>
    requires { IsHeld T.key T.unit T.op T.of (store_of arena.now) (Some tree) }
    ensures { IsOpened T.key T.unit T.op T.of (store_of arena.now) tree (node_in result.now) }
{
    arena.cell(tree.number)
}

/// Puts a node above its sides.
#[inline(always)]
pub fn close<T: Entry>(
    arena: &mut Arena<T, T::Sum>,
    number: u32,
    left: Option<Link<T::Sum>>,
    entry: T,
    right: Option<Link<T::Sum>>,
) -> Link<T::Sum>
    requires used { IsSome (store_of arena.old number) }
    requires low { max (height_of left) (height_of right) < 220 }
    ensures set { IsSet T.key T.unit T.op T.of (store_of arena.old) (store_of arena.new) number left
        entry right result }
    ensures height { result.height ≡ max (height_of left) (height_of right) + 1 }
    ensures put { PutsEntry (store_of arena.old) (store_of arena.new) number entry }
{
    let level = height(left).max(height(right)) + 1;
    let total = T::join_sums(sum::<T>(left), &entry, sum::<T>(right));
    arena.set(
        number,
        Stored {
            left,
            entry: entry,
            right,
        },
    );
    Link {
        number,
        height: level,
        sum: total,
    }
}

/// Whether the tree on a side of a node is the one that a link tells.
#[inline(always)]
pub fn is_same_link<T: Entry>(twig: &Twig<T::Sum>, link: Option<Link<T::Sum>>) -> bool
    ensures same { result ≡ true → link_in twig.now ≡ link }
    ensures always { link_in twig.now ≡ link → result ≡ true }
{
    let Twig::Tree {
        height,
        number,
        sum,
    } = twig
    else {
        return link.is_none();
    };
    match link {
        Some(link) => {
            *number == link.number && *height == link.height && T::is_same(*sum, link.sum)
        }
        None => false,
    }
}

/// The node of `tree` above another left side than its own. Where that is the same nothing is
/// written, and where it is as high only that side and the summary are.
///
/// The node is read again, since to keep its parts over a call below costs more than that: what it
/// has is told here for the contract alone.
#[inline(always)]
fn with_left<T: Entry>(
    arena: &mut Arena<T, T::Sum>,
    tree: Link<T::Sum>,
    own: Option<Link<T::Sum>>,
    left: Option<Link<T::Sum>>,
    entry: T,
    right: Option<Link<T::Sum>>,
) -> Link<T::Sum>
    requires root { IsRoot T.key T.unit T.op T.of (store_of arena.old) tree own entry right }
    requires spot { IsSpot T.key T.unit T.op T.of (store_of arena.old) tree.number left right }
    requires level { DifferByAtMost 2 (height_of left) (height_of right) }
    requires low { max (height_of left) (height_of right) < 210 }
    ensures joined { IsJoined T.key T.unit T.op T.of (store_of arena.old) (store_of arena.new)
        tree.number left entry right result }
    ensures height { IsHeightAfter (height_of left) (height_of right) result.height }
    ensures kept { KeepsEntries (store_of arena.old) (store_of arena.new) }
{
    let cell = arena.cell(tree.number);
    if is_same_link::<T>(&cell.left, left) {
        return tree;
    }
    if cell.left.height() != height(left) {
        arena.set_side(tree.number, Side::Left, left);
        return settle(arena, tree.number);
    }
    let total = T::join_sums(sum::<T>(left), &cell.entry, sum_in::<T>(&cell.right));
    arena.set_side(tree.number, Side::Left, left);
    Link {
        number: tree.number,
        height: tree.height,
        sum: total,
    }
}

/// The tree with the node `number`, which is in use and not in it, for the entry. Each other entry
/// keeps its number.
#[inline(always)]
pub fn place<T: Entry>(
    arena: &mut Arena<T, T::Sum>,
    tree: Option<Link<T::Sum>>,
    number: u32,
    entry: T,
) -> Link<T::Sum>
    requires place { IsPlaceFor T.key T.unit T.op T.of (store_of arena.old) tree number entry }
    requires low { height_of tree < 200 }
    ensures placed { IsPlaced T.key T.unit T.op T.of (store_of arena.old) (store_of arena.new) tree
        number entry result }
    ensures not_lower { height_of tree ≤ result.height }
    ensures at_most_one_higher { result.height ≤ height_of tree + 1 }
    ensures put { PutsEntry (store_of arena.old) (store_of arena.new) number entry }
{
    let Some(tree) = tree else {
        return close(arena, number, None, entry, None);
    };
    if !placed_below(arena, tree.number, number, &entry) {
        return tree;
    }
    settle(arena, tree.number)
}

/// The number and the entry of the first node, and a tree of the others.
pub fn pop_first<T: Entry>(
    arena: &mut Arena<T, T::Sum>,
    tree: Link<T::Sum>,
) -> (u32, T, Option<Link<T::Sum>>)
    requires held { IsHeld T.key T.unit T.op T.of (store_of arena.old) (Some tree) }
    requires low { tree.height < 200 }
    ensures popped { IsPopped T.key T.unit T.op T.of (store_of arena.old) (store_of arena.new) tree
        result.0 result.1 result.2 }
    ensures not_higher { height_of result.2 ≤ tree.height }
    ensures at_most_one_lower { tree.height ≤ height_of result.2 + 1 }
    ensures node { entry_of (store_of arena.old result.0) ≡ Some result.1 }
    ensures kept { KeepsEntries (store_of arena.old) (store_of arena.new) }
{
    let cell = open_cell(arena, tree);
    let (middle, after) = (cell.entry, cell.right.link());
    let Some(left) = cell.left.link() else {
        return (tree.number, middle, after);
    };
    let (number, entry, rest) = pop_first(arena, left);
    let whole = with_left(arena, tree, Some(left), rest, middle, after);
    (number, entry, Some(whole))
}

/// The number of the node with the key of `like`, and a tree of the others, which keep theirs.
pub fn remove<T: Entry>(
    arena: &mut Arena<T, T::Sum>,
    tree: Option<Link<T::Sum>>,
    like: T,
) -> (u32, Option<Link<T::Sum>>)
    requires there { HasKey T.key T.unit T.op T.of (store_of arena.old) tree like }
    requires low { height_of tree < 200 }
    ensures removed { IsWithout T.key T.unit T.op T.of (store_of arena.old) (store_of arena.new)
        tree (without_key T.key (T.key like) (entries (tree_at (store_of arena.old) tree))) result.0
        result.1 }
    ensures not_higher { height_of result.1 ≤ height_of tree }
    ensures at_most_one_lower { height_of tree ≤ height_of result.1 + 1 }
    ensures node { IsAt T.key T.unit T.op T.of (store_of arena.old) result.0 like true }
    ensures kept { KeepsEntries (store_of arena.old) (store_of arena.new) }
{
    let Some(tree) = tree else { unreachable!() };
    if is_at(arena, tree.number, &like) {
        let rest = take(arena, tree.number, &like);
        return (tree.number, rest);
    }
    let (number, changed) = removed_below(arena, tree.number, &like);
    if !changed {
        return (number, Some(tree));
    }
    let whole = settle(arena, tree.number);
    (number, Some(whole))
}

/// The tree with `entry` in the node of the one with its key.
pub fn replace<T: Entry>(
    arena: &mut Arena<T, T::Sum>,
    tree: Option<Link<T::Sum>>,
    entry: T,
) -> Link<T::Sum>
    requires there { HasKey T.key T.unit T.op T.of (store_of arena.old) tree entry }
    requires low { height_of tree < 200 }
    ensures replaced { IsReplaced T.key T.unit T.op T.of (store_of arena.old) (store_of arena.new)
        tree entry result }
    ensures height { result.height ≡ height_of tree }
{
    let Some(tree) = tree else { unreachable!() };
    if !replaced_below(arena, tree.number, &entry) {
        return tree;
    }
    settle(arena, tree.number)
}

/// The tree with `lower` in the node of the one with its key, and with the node `new`, which is in
/// use and not in it, for `upper`, which comes right after `lower`.
pub fn split<T: Entry>(
    arena: &mut Arena<T, T::Sum>,
    tree: Option<Link<T::Sum>>,
    new: u32,
    lower: T,
    upper: T,
) -> Link<T::Sum>
    requires split { IsSplitFor T.key T.unit T.op T.of (store_of arena.old) tree new lower upper }
    requires low { height_of tree < 200 }
    ensures { IsSplit T.key T.unit T.op T.of (store_of arena.old) (store_of arena.new) tree new
        lower upper result }
{
    let Some(tree) = tree else { unreachable!() };
    if !split_below(arena, tree.number, new, &lower, &upper) {
        return tree;
    }
    settle(arena, tree.number)
}

/// The tree with `joined` in the place of `lower` and of `upper`, which comes right after it, and
/// the number of the node that goes.
pub fn join<T: Entry>(
    arena: &mut Arena<T, T::Sum>,
    tree: Option<Link<T::Sum>>,
    lower: T,
    upper: T,
    joined: T,
) -> (u32, Link<T::Sum>)
    requires join { IsJoinFor T.key T.unit T.op T.of (store_of arena.old) tree lower upper joined }
    requires low { height_of tree < 200 }
    ensures { IsJoinedAt T.key T.unit T.op T.of (store_of arena.old) (store_of arena.new) tree lower
        upper joined result.0 result.1 }
{
    let Some(tree) = tree else { unreachable!() };
    let (number, changed) = joined_below(arena, tree.number, &lower, &upper, &joined);
    if !changed {
        return (number, tree);
    }
    let whole = settle(arena, tree.number);
    (number, whole)
}
