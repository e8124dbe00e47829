//! The keys that name one number.

ghost use Rattle.std.specs.Prelude.{◌≡◌, ◌∷◌, ◌++◌, ◌^◌, ◌<◌, ◌==◌, [], IfOk, OnErr, OnOk, length};
ghost use Rattle.std.specs.BTreeMap.{insert_entry, is_at};
ghost use Rattle.std.specs.Map.{keys_of, lookup, remove_entry};
ghost use Rattle.std.specs.declared.cmp.Ordering.TheVariants.{Less};
ghost use Rattle.av_base.specs.Keys.{key_cmp};
ghost use Rattle.av_audit_index.specs.Keys.{AreRising, list_of};

use crate::keys_of::KeysOf;
use std::alloc::{AllocError, Global};
use std::cmp::Ordering;
use std::collections::BTreeMap;
use std::marker::Model;

/// A key, and whether it is seen.
type Name = ((u16, u64), bool);

/// Up to two keys stand in place, the lesser first: most numbers have one, and two after a fork.
/// Once there were more they stand in a tree, however few are left of them.
#[derive(Drop)]
enum Kept {
    Empty,
    One(Name),
    Two(Name, Name),
    More(BTreeMap<(u16, u64), bool>),
}

/// The keys that name a number, each with whether it is seen.
#[derive(Drop)]
pub(crate) struct Keys {
    kept: Kept,
}

impl Model for Keys {
    ghost use Rattle.std.specs.Prelude.{Bool, List};
    ghost use Rattle.av_base.specs.Keys.{Key};
    ghost use Rattle.av_audit_index.specs.Keys.{list_of, AreRising};

    ghost Value = { List (Key × Bool) };

    ghost view = { λ a. list_of a.kept };

    ghost invariant = { λ a. AreRising (list_of a.kept) };
}

/// A key beside another, and what it was before, if it is that one.
fn beside_one(first: Name, name: Name) -> (Kept, Option<bool>)
    ensures kept { list_of result.0 ≡ insert_entry key_cmp (first ∷ []) name.0 name.1 }
    ensures before { result.1 ≡ lookup (is_at (key_cmp name.0)) (first ∷ []) }
{
    match name.0.cmp(&first.0) {
        Ordering::Less => (Kept::Two(name, first), None),
        Ordering::Equal => (Kept::One((first.0, name.1)), Some(first.1)),
        Ordering::Greater => (Kept::Two(first, name), None),
    }
}

/// A key beside two that rise, in a tree, and what it was before, if it is one of them.
fn in_tree(
    alloc: Global,
    first: Name,
    second: Name,
    name: Name,
) -> Result<(Kept, Option<bool>), AllocError>
    requires { key_cmp first.0 second.0 ≡ Less }
    ensures { IfOk result (λ r.
        (list_of r.0 ≡ insert_entry key_cmp (first ∷ second ∷ []) name.0 name.1)
        × (r.1 ≡ lookup (is_at (key_cmp name.0)) (first ∷ second ∷ []))) }
{
    let mut map = BTreeMap::new(alloc);
    map.insert(first.0, first.1)?;
    map.insert(second.0, second.1)?;
    let before = map.insert(name.0, name.1)?;
    Ok((Kept::More(map), before))
}

/// A key beside two that rise, and what it was before, if it is one of them.
fn beside_two(
    alloc: Global,
    first: Name,
    second: Name,
    name: Name,
) -> Result<(Kept, Option<bool>), AllocError>
    requires { key_cmp first.0 second.0 ≡ Less }
    ensures { IfOk result (λ r.
        (list_of r.0 ≡ insert_entry key_cmp (first ∷ second ∷ []) name.0 name.1)
        × (r.1 ≡ lookup (is_at (key_cmp name.0)) (first ∷ second ∷ []))) }
{
    if name.0 == first.0 {
        Ok((Kept::Two((first.0, name.1), second), Some(first.1)))
    } else if name.0 == second.0 {
        Ok((Kept::Two(first, (second.0, name.1)), Some(second.1)))
    } else {
        in_tree(alloc, first, second, name)
    }
}

/// What is left of one key without another, and what it was, if it is that one.
fn without_one(first: Name, key: (u16, u64)) -> (Kept, Option<bool>)
    ensures kept { list_of result.0 ≡ remove_entry (is_at (key_cmp key)) (first ∷ []) }
    ensures before { result.1 ≡ lookup (is_at (key_cmp key)) (first ∷ []) }
{
    if key == first.0 {
        (Kept::Empty, Some(first.1))
    } else {
        (Kept::One(first), None)
    }
}

/// What is left of two keys without another, and what it was, if it is one of them.
fn without_two(first: Name, second: Name, key: (u16, u64)) -> (Kept, Option<bool>)
    ensures kept { list_of result.0
        ≡ remove_entry (is_at (key_cmp key)) (first ∷ second ∷ []) }
    ensures before { result.1 ≡ lookup (is_at (key_cmp key)) (first ∷ second ∷ []) }
{
    if key == first.0 {
        (Kept::One(second), Some(first.1))
    } else if key == second.0 {
        (Kept::One(first), Some(second.1))
    } else {
        (Kept::Two(first, second), None)
    }
}

/// The keys of a tree, rising, behind those of a list.
fn add_all(
    mut list: Vec<(u16, u64)>,
    keys: &BTreeMap<(u16, u64), bool>,
) -> Result<Vec<(u16, u64)>, AllocError>
    ensures { IfOk result (λ made. made.items ≡ list.items ++ keys_of keys.now.entries) }
{
    for key in keys.keys() {
        list.push(*key)?;
    }
    Ok(list)
}

impl Keys {
    /// No key.
    pub(crate) fn new() -> Keys
        ensures { result ≡ [] }
    {
        Keys { kept: Kept::Empty }
    }

    /// The key is there now, seen or not. Answers what it was before. Without memory all stays.
    pub(crate) fn insert(
        &mut self,
        alloc: Global,
        key: (u16, u64),
        seen: bool,
    ) -> Result<Option<bool>, AllocError>
        ensures old { IfOk result (λ old. old ≡ lookup (is_at (key_cmp key)) self.old) }
        ensures entries { OnOk result (self.new ≡ insert_entry key_cmp self.old key seen) }
        ensures rising { AreRising self.old × AreRising self.new }
        ensures err { OnErr result (self.new ≡ self.old) }
    {
        let name = (key, seen);
        match &mut self.kept {
            Kept::Empty => {
                self.kept = Kept::One(name);
                Ok(None)
            }
            Kept::One(first) => {
                let (kept, before) = beside_one(*first, name);
                self.kept = kept;
                Ok(before)
            }
            Kept::Two(first, second) => {
                let (kept, before) = beside_two(alloc, *first, *second, name)?;
                self.kept = kept;
                Ok(before)
            }
            Kept::More(map) => Ok(map.insert(key, seen)?),
        }
    }

    /// The key goes, if it is there. Answers what it was.
    pub(crate) fn remove(&mut self, key: (u16, u64)) -> Option<bool>
        ensures value { result ≡ lookup (is_at (key_cmp key)) self.old }
        ensures entries { self.new ≡ remove_entry (is_at (key_cmp key)) self.old }
        ensures rising { AreRising self.old × AreRising self.new }
    {
        match &mut self.kept {
            Kept::Empty => None,
            Kept::One(first) => {
                let (kept, before) = without_one(*first, key);
                self.kept = kept;
                before
            }
            Kept::Two(first, second) => {
                let (kept, before) = without_two(*first, *second, key);
                self.kept = kept;
                before
            }
            Kept::More(map) => map.remove(&key),
        }
    }

    /// How many there are.
    pub(crate) fn len(&self) -> u64
        ensures len { result ≡ length self.now }
        ensures fits { result < 2 ^ 63 }
    {
        match &self.kept {
            Kept::Empty => 0,
            Kept::One(_) => 1,
            Kept::Two(_, _) => 2,
            Kept::More(map) => map.len() as u64,
        }
    }

    /// Whether there is none.
    pub(crate) fn is_empty(&self) -> bool
        ensures { result ≡ (length self.now == 0) }
    {
        self.len() == 0
    }

    /// All of them, rising, one after another.
    pub(crate) fn iter(&self) -> KeysOf<'_>
        ensures { result ≡ keys_of self.now }
    {
        match &self.kept {
            Kept::Empty => KeysOf::none(),
            Kept::One(first) => KeysOf::one(first.0),
            Kept::Two(first, second) => KeysOf::two(first.0, second.0),
            Kept::More(map) => KeysOf::all(map.keys()),
        }
    }

    /// All of them, rising.
    pub(crate) fn list(&self, alloc: Global) -> Result<Vec<(u16, u64)>, AllocError>
        ensures { IfOk result (λ list. list.items ≡ keys_of self.now) }
    {
        let mut list = Vec::new(alloc);
        match &self.kept {
            Kept::Empty => {}
            Kept::One(first) => list.push(first.0)?,
            Kept::Two(first, second) => {
                list.push(first.0)?;
                list.push(second.0)?;
            }
            Kept::More(map) => return add_all(list, map),
        }
        Ok(list)
    }
}
