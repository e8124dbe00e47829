//! A tree of entries that sums up whether one is marked: their order, and the sum as they change.

ghost use Rattle.std.specs.Prelude.{◌≡◌, [], ◌∷◌, false, true, ◌||◌, OnOk};
ghost use Rattle.av_arena.specs.Any.{any_laws};

use av_arena::*;
use std::alloc::{AllocError, Global};

/// An entry whose summary is whether any of a row is marked.
#[derive(Clone, Copy, Drop, PartialEq, Eq)]
struct Note {
    key: u64,
    marked: bool,
}

impl Entry for Note {
    type Sum = bool;

    ghost key = { λ n. n.key };

    ghost unit = { false };

    ghost of = { λ n. n.marked };

    ghost op = { λ x y. x || y };

    ghost laws = { any_laws };

    fn is_before(&self, other: &Note) -> bool {
        self.key < other.key
    }

    fn empty() -> bool {
        false
    }

    fn is_same(left: bool, right: bool) -> bool {
        left == right
    }

    fn join_sums(left: bool, middle: &Note, right: bool) -> bool {
        left || middle.marked || right
    }
}

fn entry(key: u64, marked: bool) -> Note
    ensures { result ≡ record { key = key; marked = marked } }
{
    Note { key, marked }
}

/// Puts three entries in, against their order.
fn put_three(tree: &mut Avl<Note>) -> Result<(), AllocError>
    requires { tree.old ≡ [] }
    ensures { OnOk result (tree.new ≡ record { key = 1; marked = false }
        ∷ record { key = 2; marked = true } ∷ record { key = 3; marked = false } ∷ []) }
{
    tree.insert(entry(3, false))?;
    tree.insert(entry(2, true))?;
    tree.insert(entry(1, false))
}

/// Takes the mark off and the last entry out, and says whether it shows so.
fn is_unmarked(alloc: Global, tree: &mut Avl<Note>) -> Result<bool, AllocError>
    requires { tree.old ≡ record { key = 1; marked = false }
        ∷ record { key = 2; marked = true } ∷ record { key = 3; marked = false } ∷ [] }
{
    let was_marked = tree.part().sum();
    tree.replace(entry(2, false));
    tree.remove(entry(3, false));
    let mut left = Vec::new(alloc);
    tree.part().append_to(&mut left)?;
    let wanted = [entry(1, false), entry(2, false)];
    Ok(was_marked && !tree.part().sum() && left.as_slice() == wanted.as_slice())
}

#[test]
fn entries_come_in_order_with_their_summary(rt: HostRuntime) -> Result<(), AllocError> {
    let mut tree = Avl::new(rt.alloc());
    put_three(&mut tree)?;
    assert!(rt; is_unmarked(rt.alloc(), &mut tree)?);
    Ok(())
}
