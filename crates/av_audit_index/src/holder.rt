//! What holds one number.

ghost use Rattle.std.specs.Prelude.{◌≡◌, ◌+◌, ◌-◌, ◌<◌, ◌^◌, ◌==◌, if◌then◌else◌, None, Some};
ghost use Rattle.std.specs.Prelude.{IfOk, OnErr, OnOk, [], length};
ghost use Rattle.std.specs.BTreeMap.{is_at};
ghost use Rattle.std.specs.List.Sorted.{IsStrictlySortedBy};
ghost use Rattle.std.specs.Map.{keys_of, lookup};
ghost use Rattle.av_base.specs.Keys.{Key, key_cmp, same_key};
ghost use Rattle.av_base.specs.Words.{how_many};
ghost use Rattle.av_audit_index.specs.Holding.{is_seen, uses_of};

use crate::keys::Keys;
use crate::keys_of::KeysOf;
use std::alloc::{AllocError, Global};
use std::marker::Model;

/// What holds a number: the keys of the entries that name it, each with whether it is seen, and
/// how many cached pairs have it.
#[derive(Drop)]
pub(crate) struct Holder {
    keys: Keys,
    // How many of the keys are seen.
    seen: u64,
    pairs: u64,
}

impl Model for Holder {
    ghost use Rattle.av_audit_index.specs.Holding.{Holding, IsCounted};

    ghost Value = { Holding };

    ghost view = { λ a. record { keys = a.keys; pairs = a.pairs } };

    ghost invariant = { λ a. IsCounted a.keys a.seen };
}

impl Holder {
    /// Nothing.
    pub(crate) fn new() -> Holder
        ensures keys { result.keys ≡ [] }
        ensures pairs { result.pairs ≡ 0 }
    {
        Holder {
            keys: Keys::new(),
            seen: 0,
            pairs: 0,
        }
    }

    /// The key names the number now, seen or not. Without memory all stays.
    pub(crate) fn add(
        &mut self,
        alloc: Global,
        key: (u16, u64),
        seen: bool,
    ) -> Result<(), AllocError>
        ensures keys { OnOk result ((k : Key) → lookup (is_at (key_cmp k)) self.new.keys
            ≡ if same_key key k then Some seen else lookup (is_at (key_cmp k)) self.old.keys) }
        ensures rising { IsStrictlySortedBy key_cmp (keys_of self.new.keys) }
        ensures pairs { self.new.pairs ≡ self.old.pairs }
        ensures used { OnOk result (0 < uses_of self.new) }
        ensures err { OnErr result (self.new ≡ self.old) }
    {
        let before = self.keys.insert(alloc, key, seen)?;
        // There is memory for fewer than 2^63 keys.
        let _ = self.keys.len();
        self.seen = self.seen - u64::from(before.unwrap_or(false)) + u64::from(seen);
        Ok(())
    }

    /// The key names the number no longer, if it did.
    pub(crate) fn take(&mut self, key: (u16, u64))
        ensures keys { (k : Key) → lookup (is_at (key_cmp k)) self.new.keys
            ≡ if same_key key k then None else lookup (is_at (key_cmp k)) self.old.keys }
        ensures rising { IsStrictlySortedBy key_cmp (keys_of self.new.keys) }
        ensures pairs { self.new.pairs ≡ self.old.pairs }
    {
        let before = self.keys.remove(key);
        self.seen -= u64::from(before.unwrap_or(false));
    }

    /// One cached pair more.
    pub(crate) fn hold(&mut self)
        requires { self.old.pairs < 2 ^ 64 - 1 }
        ensures keys { self.new.keys ≡ self.old.keys }
        ensures pairs { self.new.pairs ≡ self.old.pairs + 1 }
    {
        self.pairs += 1;
    }

    /// One cached pair less; none stays none.
    pub(crate) fn drop_pair(&mut self)
        ensures keys { self.new.keys ≡ self.old.keys }
        ensures pairs { self.new.pairs ≡ self.old.pairs - 1 }
    {
        self.pairs = self.pairs.saturating_sub(1);
    }

    /// Whether it has no key and no pair.
    pub(crate) fn is_vacant(&self) -> bool
        ensures { result ≡ (uses_of self.now == 0) }
    {
        self.pairs == 0 && self.keys.is_empty()
    }

    /// How many keys there are.
    pub(crate) fn names(&self) -> u64
        ensures names { result ≡ length self.now.keys }
        ensures fits { result < 2 ^ 63 }
    {
        self.keys.len()
    }

    /// How many of the keys are seen.
    pub(crate) fn seen(&self) -> u64
        ensures { result ≡ how_many is_seen self.now.keys }
    {
        self.seen
    }

    /// How many cached pairs there are.
    pub(crate) fn pairs(&self) -> u64
        ensures { result ≡ self.now.pairs }
    {
        self.pairs
    }

    /// The keys, rising, one after another.
    pub(crate) fn iter(&self) -> KeysOf<'_>
        ensures { result ≡ keys_of self.now.keys }
    {
        self.keys.iter()
    }

    /// The keys, rising.
    pub(crate) fn keys(&self, alloc: Global) -> Result<Vec<(u16, u64)>, AllocError>
        ensures { IfOk result (λ keys. keys.items ≡ keys_of self.now.keys) }
    {
        self.keys.list(alloc)
    }
}
