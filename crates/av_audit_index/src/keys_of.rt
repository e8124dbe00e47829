//! The keys that name one number, one after another.

ghost use Rattle.std.specs.Prelude.{◌≡◌, ◌∷◌, [], length};
ghost use Rattle.std.specs.Iterator.{at_most};
ghost use Rattle.std.specs.Map.Iter.{TakesFirst};
ghost use Rattle.av_base.specs.Keys.{Key};

use std::collections::btree_map;
use std::marker::Model;

/// The keys that are left: up to two that stood in place, or those of a tree.
#[derive(Drop)]
enum Left<'a> {
    Empty,
    One((u16, u64)),
    Two((u16, u64), (u16, u64)),
    More(btree_map::Keys<'a, (u16, u64), bool>),
}

/// An iterator over the keys that name a number, rising. It takes no memory.
#[derive(Drop)]
pub struct KeysOf<'a> {
    left: Left<'a>,
}

impl<'a> Model for KeysOf<'a> {
    ghost use Rattle.std.specs.Prelude.{List};
    ghost use Rattle.av_base.specs.Keys.{Key};
    ghost use Rattle.av_audit_index.specs.KeysOf.{left_of};

    ghost Value = { List Key };

    ghost view = { λ a. left_of a.left };
}

impl<'a> KeysOf<'a> {
    /// No key.
    pub(crate) fn none() -> KeysOf<'a>
        ensures { result ≡ [] }
    {
        KeysOf { left: Left::Empty }
    }

    /// One key.
    pub(crate) fn one(key: (u16, u64)) -> KeysOf<'a>
        ensures { result ≡ key ∷ [] }
    {
        KeysOf {
            left: Left::One(key),
        }
    }

    /// Two keys, in this order.
    pub(crate) fn two(first: (u16, u64), second: (u16, u64)) -> KeysOf<'a>
        ensures { result ≡ first ∷ second ∷ [] }
    {
        KeysOf {
            left: Left::Two(first, second),
        }
    }

    /// The keys of a tree.
    pub(crate) fn all(keys: btree_map::Keys<'a, (u16, u64), bool>) -> KeysOf<'a>
        ensures { result ≡ keys.entry }
    {
        KeysOf {
            left: Left::More(keys),
        }
    }
}

impl<'a> Iterator for KeysOf<'a> {
    type Item = (u16, u64);

    ghost next_gives = { TakesFirst (λ (key : Key). key) };

    ghost remaining = { λ s. at_most (length s) };

    fn next(&mut self) -> Option<(u16, u64)> {
        match &mut self.left {
            Left::Empty => None,
            Left::One(key) => {
                let key = *key;
                self.left = Left::Empty;
                Some(key)
            }
            Left::Two(first, second) => {
                let first = *first;
                self.left = Left::One(*second);
                Some(first)
            }
            Left::More(keys) => keys.next().copied(),
        }
    }
}
