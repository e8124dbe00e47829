//! What was read of the source and is not yet done.

ghost use Rattle.std.specs.Prelude.{◌≡◌, ◌+◌, ◌-◌, ◌<◌, ◌≤◌, [], false, length, take, drop, IfOk};
ghost use Rattle.std.specs.Prelude.{OnOk, OnErr};
ghost use Rattle.av_io.specs.Count.{one_more};
ghost use Rattle.av_io.specs.Source.{Took, GivesNothing};
ghost use Rattle.av_ports.specs.Ports.{room, IsAtEnd, OnlySource, undone};

use crate::ports::Ports;
use av_io::Failed;
use std::alloc::{AllocError, Global};
use std::marker::Model;

/// How many bytes are read at once, at most. It is more than a line may have.
const ROOM: usize = 1 << 16;

/// Bytes of the source whose lines are not yet done.
#[derive(Drop)]
pub struct Pending {
    bytes: Vec<u8>,
    start: usize,
    end: usize,
}

impl Model for Pending {
    ghost use Rattle.std.specs.Prelude.{List, ℕ, ◌≡◌, ◌≤◌, ◌-◌, length, take, drop};
    ghost use Rattle.std.specs.Coded.{coded_ℕ, coded_list};

    ghost Value = { List ℕ };

    ghost coded = { coded_list coded_ℕ };

    ghost view = { λ p. take (p.end - p.start) (drop p.start p.bytes.items) };

    ghost invariant = { λ p. (p.start ≤ p.end) × (p.end ≤ length p.bytes.items)
        × (length p.bytes.items ≡ 65536) };
}

/// Moves these bytes to the front, so that there is room after them.
fn move_to_front(bytes: &mut Vec<u8>, start: usize, end: usize)
    requires start { start ≤ end }
    requires end { end ≤ length bytes.old.items }
    ensures moved { take (end - start) bytes.new.items
        ≡ take (end - start) (drop start bytes.old.items) }
    ensures len { length bytes.new.items ≡ length bytes.old.items }
{
    bytes.copy_within(start..end, 0);
}

/// Reads into the room after the bytes that are kept.
fn read_behind<P: Ports>(ports: &mut P, bytes: &mut [u8], kept: usize) -> Result<usize, Failed>
    requires { kept < length bytes.old }
    ensures front { take kept bytes.new ≡ take kept bytes.old }
    ensures within { IfOk result (λ n. kept + n ≤ length bytes.new) }
    ensures taken { IfOk result (λ n. Took (P.view ports.old).source.left
        (P.view ports.new).source.left (take n (drop kept bytes.new))) }
    ensures ended { IfOk result (λ n. n ≡ 0 → IsAtEnd (P.view ports.new).source) }
    ensures reads { (P.view ports.new).source.reads ≡ one_more (P.view ports.old).source.reads }
    ensures stays_open { IfOk result
        (λ n. 0 < n → (P.view ports.new).source.has_told_end ≡ false) }
    ensures unfailed { OnOk result
        ((P.view ports.new).source.failures ≡ (P.view ports.old).source.failures) }
    ensures err { OnErr result (GivesNothing (P.view ports.old).source (P.view ports.new).source) }
    ensures only { OnlySource (P.view ports.old) (P.view ports.new) }
    ensures kept { P.kept ports.new ≡ P.kept ports.old }
{
    match ports.read(&mut bytes[kept..]) {
        Ok(count) => Ok(count),
        Err(error) => Err(error),
    }
}

impl Pending {
    /// Nothing, with room for what is read. `AllocError` where memory is wanting.
    pub fn new(alloc: Global) -> Result<Pending, AllocError>
        ensures { IfOk result (λ p. p ≡ []) }
    {
        Ok(Pending {
            bytes: vec![in alloc; 0; ROOM]?,
            start: 0,
            end: 0,
        })
    }

    /// The bytes, which are never more than the room for them.
    pub fn as_slice(&self) -> &[u8]
        ensures is { result.now ≡ self.now }
        ensures few { length self.now ≤ room }
    {
        &self.bytes[self.start..self.end]
    }

    /// Takes so many bytes away in front.
    pub fn skip(&mut self, count: usize)
        requires { count ≤ length self.old }
        ensures { self.new ≡ drop count self.old }
    {
        self.start += count;
    }

    /// Reads more, and says how many bytes came. 0 is the end of the input.
    pub(crate) fn fill<P: Ports>(&mut self, ports: &mut P) -> Result<usize, Failed>
        requires { length self.old < room }
        ensures undone { undone self.new (P.view ports.new) ≡ undone self.old (P.view ports.old) }
        ensures few { length self.new ≤ room }
        ensures more { IfOk result (λ n. length self.new ≡ length self.old + n) }
        ensures ended { IfOk result
            (λ n. n ≡ 0 → (self.new ≡ self.old) × IsAtEnd (P.view ports.new).source) }
        ensures reads { (P.view ports.new).source.reads ≡ one_more (P.view ports.old).source.reads }
        ensures stays_open { IfOk result
            (λ n. 0 < n → (P.view ports.new).source.has_told_end ≡ false) }
        ensures unfailed { OnOk result
            ((P.view ports.new).source.failures ≡ (P.view ports.old).source.failures) }
        ensures same { OnErr result (self.new ≡ self.old) }
        ensures err { OnErr result
            (GivesNothing (P.view ports.old).source (P.view ports.new).source) }
        ensures only { OnlySource (P.view ports.old) (P.view ports.new) }
        ensures kept { P.kept ports.new ≡ P.kept ports.old }
    {
        move_to_front(&mut self.bytes, self.start, self.end);
        self.end -= self.start;
        self.start = 0;
        let count = read_behind(ports, &mut self.bytes, self.end)?;
        self.end += count;
        Ok(count)
    }
}
