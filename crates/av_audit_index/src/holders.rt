//! What holds each number.

ghost use Rattle.std.specs.Prelude.{◌≡◌, ℕ, ◌+◌, ◌-◌, ◌<◌, ◌^◌, ◌&&◌, ◌==◌, if◌then◌else◌};
ghost use Rattle.std.specs.Prelude.{IfOk, None, OnErr, OnOk, Some, length, nat_le, nat_lt};
ghost use Rattle.std.specs.Prelude.{slice_get};
ghost use Rattle.std.specs.List.{list_all};
ghost use Rattle.std.specs.Map.{keys_of};
ghost use Rattle.av_base.specs.Keys.{Key, same_key};
ghost use Rattle.av_base.specs.Words.{how_many, with_at};
ghost use Rattle.av_audit_index.specs.Holders.{KeysRise, keys_at, pairs_at, seen_at, used_within};
ghost use Rattle.av_audit_index.specs.Holders.{uses_at};
ghost use Rattle.av_audit_index.specs.Holding.{is_seen};

use crate::holder::Holder;
use crate::keys_of::KeysOf;
use std::alloc::{AllocError, Global};
use std::collections::BTreeMap;
use std::marker::Model;

/// What holds each number: the keys of the entries that name it, each with whether it is seen, and
/// how many cached pairs have it. A number that nothing holds takes no memory.
#[derive(Drop)]
pub struct Holders {
    alloc: Global,
    // None of the holders is vacant.
    numbers: BTreeMap<u32, Holder>,
}

impl Model for Holders {
    ghost use Rattle.std.specs.Prelude.{ℕ, List};
    ghost use Rattle.av_audit_index.specs.Holding.{Holding};
    ghost use Rattle.av_audit_index.specs.Holders.{AreHolders};

    ghost Value = { List (ℕ × Holding) };

    ghost view = { λ a. a.numbers.entries };

    ghost invariant = { λ a. AreHolders a.numbers.entries };
}

impl Holders {
    /// Nothing holds a number.
    pub fn new(alloc: Global) -> Holders
        ensures keys { (n : ℕ) (k : Key) → seen_at result n k ≡ None }
        ensures pairs { (n : ℕ) → pairs_at result n ≡ 0 }
    {
        Holders {
            alloc,
            numbers: BTreeMap::new(alloc),
        }
    }

    /// The key names the number now, seen or not. Without memory all stays.
    pub fn add(&mut self, n: u32, key: (u16, u64), seen: bool) -> Result<(), AllocError>
        ensures ok { OnOk result ((m : ℕ) (k : Key) → seen_at self.new m k
            ≡ if m == n && same_key key k then Some seen else seen_at self.old m k) }
        ensures pairs { (m : ℕ) → pairs_at self.new m ≡ pairs_at self.old m }
        ensures err { OnErr result ((m : ℕ) (k : Key) → seen_at self.new m k
            ≡ seen_at self.old m k) }
    {
        if let Some(holder) = self.numbers.get_mut(&n) {
            return holder.add(self.alloc, key, seen);
        }
        let mut holder = Holder::new();
        holder.add(self.alloc, key, seen)?;
        self.numbers.insert(n, holder)?;
        Ok(())
    }

    /// The key names the number no longer, if it did.
    pub fn take(&mut self, n: u32, key: (u16, u64))
        ensures keys { (m : ℕ) (k : Key) → seen_at self.new m k
            ≡ if m == n && same_key key k then None else seen_at self.old m k }
        ensures pairs { (m : ℕ) → pairs_at self.new m ≡ pairs_at self.old m }
    {
        let Some(holder) = self.numbers.get_mut(&n) else {
            return;
        };
        holder.take(key);
        if holder.is_vacant() {
            let _ = self.numbers.remove(&n);
        }
    }

    /// One cached pair more has the number. Without memory all stays.
    pub fn hold(&mut self, n: u32) -> Result<(), AllocError>
        requires room { pairs_at self.old n < 2 ^ 64 - 1 }
        ensures ok { OnOk result ((m : ℕ) → pairs_at self.new m
            ≡ with_at n (pairs_at self.old n + 1) (pairs_at self.old) m) }
        ensures keys { (m : ℕ) (k : Key) → seen_at self.new m k ≡ seen_at self.old m k }
        ensures err { OnErr result ((m : ℕ) → pairs_at self.new m ≡ pairs_at self.old m) }
    {
        if let Some(holder) = self.numbers.get_mut(&n) {
            holder.hold();
            return Ok(());
        }
        let mut holder = Holder::new();
        holder.hold();
        self.numbers.insert(n, holder)?;
        Ok(())
    }

    /// One cached pair less has the number; none stays none.
    pub fn drop_pair(&mut self, n: u32)
        ensures pairs { (m : ℕ) → pairs_at self.new m
            ≡ with_at n (pairs_at self.old n - 1) (pairs_at self.old) m }
        ensures keys { (m : ℕ) (k : Key) → seen_at self.new m k ≡ seen_at self.old m k }
    {
        let Some(holder) = self.numbers.get_mut(&n) else {
            return;
        };
        holder.drop_pair();
        if holder.is_vacant() {
            let _ = self.numbers.remove(&n);
        }
    }

    /// How many keys name the number.
    pub fn names(&self, n: u32) -> u64
        ensures names { result ≡ length (keys_at self.now n) }
        ensures rising { KeysRise self.now }
        ensures fits { result < 2 ^ 63 }
    {
        match self.numbers.get(&n) {
            None => 0,
            Some(holder) => holder.names(),
        }
    }

    /// How many keys that name the number are seen.
    pub fn seen(&self, n: u32) -> u64
        ensures seen { result ≡ how_many is_seen (keys_at self.now n) }
        ensures rising { KeysRise self.now }
    {
        match self.numbers.get(&n) {
            None => 0,
            Some(holder) => holder.seen(),
        }
    }

    /// How many cached pairs have the number.
    pub fn pairs(&self, n: u32) -> u64
        ensures { result ≡ pairs_at self.now n }
    {
        match self.numbers.get(&n) {
            None => 0,
            Some(holder) => holder.pairs(),
        }
    }

    /// Whether a key names the number, or a cached pair has it.
    pub fn is_used(&self, n: u32) -> bool
        ensures used { result ≡ nat_lt 0 (uses_at self.now n) }
        ensures rising { KeysRise self.now }
    {
        self.numbers.contains_key(&n)
    }

    /// The keys that name the number, rising, one after another.
    pub fn keys_of(&self, n: u32) -> KeysOf<'_>
        ensures keys { result ≡ keys_of (keys_at self.now n) }
        ensures rising { KeysRise self.now }
    {
        match self.numbers.get(&n) {
            None => KeysOf::none(),
            Some(holder) => holder.iter(),
        }
    }

    /// The keys that name the number, rising.
    pub fn keys(&self, alloc: Global, n: u32) -> Result<Vec<(u16, u64)>, AllocError>
        ensures keys { IfOk result (λ keys. keys.items ≡ keys_of (keys_at self.now n)) }
        ensures rising { KeysRise self.now }
    {
        match self.numbers.get(&n) {
            None => Ok(Vec::new(alloc)),
            Some(holder) => holder.keys(alloc),
        }
    }

    /// Whether each number that is used lies from `from` on and below `end`.
    fn are_within(&self, from: u32, end: u32) -> bool
        ensures { result
            ≡ list_all (λ n. nat_le from n && nat_lt n end) (keys_of self.now) }
    {
        match (
            self.numbers.first_key_value(),
            self.numbers.last_key_value(),
        ) {
            (Some((first, _)), Some((last, _))) => from <= *first && *last < end,
            _ => true,
        }
    }

    /// How many numbers from `from` on and below `end` are used. Where all that are used lie there,
    /// none is visited.
    pub fn len_within(&self, from: u32, end: u32) -> u32
        ensures len { result ≡ length (used_within self.now from end) }
        ensures rising { KeysRise self.now }
    {
        let numbers = &self.numbers;
        if from >= end {
            return 0;
        }
        if self.are_within(from, end) {
            return numbers.len() as u32;
        }
        numbers.range(from..end).count() as u32
    }

    /// The least number from `from` on and below `end` that is used.
    pub fn least(&self, from: u32, end: u32) -> Option<u32>
        ensures least { result ≡ slice_get (used_within self.now from end) 0 }
        ensures rising { KeysRise self.now }
    {
        let numbers = &self.numbers;
        if from >= end {
            return None;
        }
        let (n, _) = numbers.range(from..end).next()?;
        Some(*n)
    }
}
