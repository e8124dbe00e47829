//! The parts of a directory.

ghost use Rattle.std.specs.Prelude.{◌≡◌, ◌<◌, ◌≤◌, ◌==◌, [], ◌∷◌, length, slice_index_or};
ghost use Rattle.std.specs.Prelude.{MatchResult};
ghost use Rattle.std.specs.Prelude.{AllPairs, IfOk, insert, remove};
ghost use Rattle.std.specs.List.{remove_range};
ghost use Rattle.std.specs.Borrow.{sem};
ghost use Rattle.av_pagetable.specs.Dir.{IsPlace};
ghost use Rattle.av_pagetable.specs.Images.{AreAllImages};
ghost use Rattle.av_pagetable.specs.Parts.{parts_in};
ghost use Rattle.av_pagetable.specs.PartsLent.{LendsPart};
ghost use Rattle.av_pagetable.specs.Table.{child_entry, read_only};

use crate::level::Level;
use crate::pte::Pte;
use std::alloc::{AllocError, Global};
use std::cmp::Ordering;
use std::mem::replace;
use std::slice::from_ref;

/// For how many parts an array has room at first.
const FEW: usize = 4;

/// The parts of a directory, each with its number. A clause sees them as their list, `parts_in`.
///
/// The first part lies in the directory itself, and an array begins with the second. So a process
/// that never had two parts in a directory takes no memory for any of its four. An array of which
/// one part is left stays an array, but a child has that part alone. Where none is left, it stays
/// until the next part comes, or until `clear`.
#[derive(Drop)]
pub(crate) enum Parts<C> {
    Alone((u16, C)),
    // An array and not a queue: a look asks each level for its first part, and little else. A new
    // one is empty and takes no memory.
    Many(Vec<(u16, C)>),
}

impl<C: Level> Parts<C> {
    /// No part.
    #[inline(always)]
    pub(crate) fn new(alloc: Global) -> Parts<C>
        ensures { parts_in result ≡ [] }
    {
        Parts::Many(Vec::new(alloc))
    }

    /// How many there are.
    #[inline(always)]
    pub(crate) fn len(&self) -> usize
        ensures { result ≡ length (parts_in self.now) }
    {
        match self {
            Parts::Alone(_) => 1,
            Parts::Many(parts) => parts.len(),
        }
    }

    /// Whether there is none.
    #[inline(always)]
    pub(crate) fn is_empty(&self) -> bool
        ensures { result ≡ (length (parts_in self.now) == 0) }
    {
        self.len() == 0
    }

    /// The part at a place.
    // Not by a slice of all parts: `from_ref` wants to be shown that a part's size is below 2^63
    // bytes, and of a type parameter that isn't known.
    #[inline(always)]
    pub(crate) fn at(&self, place: usize) -> &(u16, C)
        requires { place < length (parts_in self.now) }
        ensures { result.now ≡ slice_index_or (parts_in self.now) place result.now }
    {
        match self {
            Parts::Alone(part) => part,
            Parts::Many(parts) => &parts[place],
        }
    }

    /// The same, to change it.
    #[inline(always)]
    pub(crate) fn at_mut(&mut self, place: usize) -> &mut (u16, C)
        requires { place < length (parts_in self.old) }
        ensures* writes_back { sem 𝓛 (LendsPart C.row self.entry place result) }
        ensures value { result.now ≡ slice_index_or (parts_in self.old) place result.now }
    {
        match self {
            Parts::Alone(part) => part,
            Parts::Many(parts) => &mut parts[place],
        }
    }

    /// The place of the part of this number, or where it would stand, by a search.
    pub(crate) fn search(&self, number: u16) -> Result<usize, usize>
        requires { AllPairs (λ part later. part.0 < later.0) (parts_in self.now) }
        ensures { IsPlace number (parts_in self.now) result }
    {
        match self {
            Parts::Alone(part) => match part.0.cmp(&number) {
                Ordering::Less => Err(1),
                Ordering::Equal => Ok(0),
                Ordering::Greater => Err(0),
            },
            Parts::Many(parts) => parts.binary_search_by_key(&number, |part| part.0),
        }
    }

    /// Puts in a part at a place. Without memory all stays.
    pub(crate) fn insert(
        &mut self,
        alloc: Global,
        place: usize,
        part: (u16, C),
    ) -> Result<(), AllocError>
        requires { place ≤ length (parts_in self.old) }
        ensures { MatchResult result
            (λ _. parts_in self.new ≡ insert (parts_in self.old) place part)
            (λ _. parts_in self.new ≡ parts_in self.old) }
    {
        match self {
            Parts::Alone(_) => {
                let mut both = Vec::with_capacity(alloc, FEW)?;
                let Parts::Alone(other) = replace(self, Parts::new(alloc)) else {
                    unreachable!();
                };
                let (first, second) = if place == 0 {
                    (part, other)
                } else {
                    (other, part)
                };
                both.push_reserved(first);
                both.push_reserved(second);
                *self = Parts::Many(both);
            }
            Parts::Many(parts) => {
                if parts.is_empty() {
                    *self = Parts::Alone(part);
                } else {
                    parts.insert(place, part)?;
                }
            }
        }
        Ok(())
    }

    /// Takes out the part at a place.
    pub(crate) fn remove(&mut self, alloc: Global, place: usize)
        requires { place < length (parts_in self.old) }
        ensures { parts_in self.new ≡ remove (parts_in self.old) place }
    {
        match self {
            Parts::Alone(_) => *self = Parts::new(alloc),
            Parts::Many(parts) => {
                parts.remove(place);
            }
        }
    }

    /// Takes out the parts from a place on and before another.
    pub(crate) fn remove_range(&mut self, alloc: Global, from: usize, past: usize)
        requires order { from ≤ past }
        requires within { past ≤ length (parts_in self.old) }
        ensures { parts_in self.new ≡ remove_range (parts_in self.old) from past }
    {
        match self {
            Parts::Alone(_) => {
                if from < past {
                    *self = Parts::new(alloc);
                }
            }
            Parts::Many(parts) => {
                parts.drain(from..past);
            }
        }
    }

    /// Takes out all.
    pub(crate) fn clear(&mut self, alloc: Global)
        ensures { parts_in self.new ≡ [] }
    {
        *self = Parts::new(alloc);
    }

    /// The same parts for a child.
    pub(crate) fn for_child(&self, alloc: Global) -> Result<Parts<C>, AllocError>
        ensures { IfOk result
            (λ parts. AreAllImages C.at child_entry (parts_in self.now) (parts_in parts)) }
    {
        match self {
            Parts::Alone(part) => alone_for_child(part),
            Parts::Many(parts) => {
                if parts.len() == 1 {
                    return alone_for_child(&parts[0]);
                }
                Ok(Parts::Many(many_for_child(alloc, parts)?))
            }
        }
    }

    /// Lets no entry of them be written in place.
    pub(crate) fn write_protect(&mut self)
        ensures { AreAllImages C.at read_only (parts_in self.old) (parts_in self.new) }
    {
        match self {
            Parts::Alone(part) => part.1.write_protect(),
            Parts::Many(parts) => protect_many(parts),
        }
    }
}

impl Parts<Pte> {
    ghost use Rattle.std.specs.Prelude.{◌≡◌};
    ghost use Rattle.av_pagetable.specs.Parts.{parts_in};

    /// The parts as a slice.
    pub(crate) fn as_slice(&self) -> &[(u16, Pte)]
        ensures { result.now ≡ parts_in self.now }
    {
        match self {
            Parts::Alone(part) => from_ref(part),
            Parts::Many(parts) => parts.as_slice(),
        }
    }
}

// The same part for a child, with no array.
fn alone_for_child<C: Level>(part: &(u16, C)) -> Result<Parts<C>, AllocError>
    ensures { IfOk result
        (λ parts. AreAllImages C.at child_entry (part.now ∷ []) (parts_in parts)) }
{
    Ok(Parts::Alone((part.0, part.1.for_child()?)))
}

// The same parts for a child, in an array with no room to spare.
fn many_for_child<C: Level>(alloc: Global, parts: &[(u16, C)]) -> Result<Vec<(u16, C)>, AllocError>
    ensures { IfOk result (λ children. AreAllImages C.at child_entry parts.now children.items) }
{
    let mut children = Vec::with_capacity(alloc, parts.len())?;
    for part in parts {
        children.push_reserved((part.0, part.1.for_child()?));
    }
    Ok(children)
}

// Lets no entry of these parts be written in place.
fn protect_many<C: Level>(parts: &mut [(u16, C)])
    ensures { AreAllImages C.at read_only parts.old parts.new }
{
    for place in 0..parts.len() {
        let part = &mut parts[place];
        part.1.write_protect();
    }
}
