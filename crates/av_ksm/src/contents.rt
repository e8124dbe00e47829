//! What frames hold, in the order of their bytes.

ghost use Rattle.std.specs.Prelude.{◌≡◌, ◌<◌, ◌++◌, ◌∷◌, [], ℕ, false, List, IfOk, IfSome, IsSome};
ghost use Rattle.std.specs.Prelude.{OnOk, EachIndex, slice_index};
ghost use Rattle.std.specs.Cmp.Lexicographic.{slice_cmp};
ghost use Rattle.std.specs.Ordering.{nat_cmp};
ghost use Rattle.av_frames.specs.Store.{shown};
ghost use Rattle.av_plain.specs.Merge.{FrameBytes};
ghost use Rattle.av_ksm.specs.Contents.{cmp_frames, AreKept, AreRising, HasKept, IsPlace};
ghost use Rattle.av_ksm.specs.Known.{Known, first_like};

use av_frames::Frames;
use std::alloc::{AllocError, Global};
use std::cmp::Ordering;

// How many bytes are compared at once.
const PIECE: usize = 256;

/// Known frames by what they hold, so that one that holds the same as another is found without a
/// look at most of the rest. Each stands with the page that has it, or with none.
#[derive(Drop)]
pub struct Contents {
    /// For each frame the first known one that holds the same, where that was asked for.
    like: Vec<Option<(u32, Option<(u16, u64)>)>>,
    /// The first known one of each content, in the order of their bytes. There are at most 16,384:
    /// an insert moves 64 KiB at most.
    row: Vec<u32>,
}

impl Contents {
    /// Of so many frames none is known.
    pub fn new(alloc: Global, count: u32) -> Result<Contents, AllocError>
        ensures { IfOk result (λ c. (held : FrameBytes) → AreKept count held [] c) }
    {
        Ok(Contents {
            like: vec![in alloc; None; count as usize]?,
            row: Vec::new(alloc),
        })
    }

    /// The first known frame that holds the same as this one. Where there is none, this one is
    /// known from now on. It costs a comparison of bytes for each doubling of what is known, once
    /// for each frame.
    pub fn find_or_add(
        &mut self,
        frames: &Frames,
        frame: u32,
        page: Option<(u16, u64)>,
    ) -> Result<Option<(u32, Option<(u16, u64)>)>, AllocError>
        requires in_range { frame < (shown frames.now).count }
        requires kept { HasKept (shown frames.now).count (shown frames.now).bytes self.old }
        ensures first { IfOk result (λ o. (known : List Known)
            → AreKept (shown frames.now).count (shown frames.now).bytes known self.old
            → o ≡ first_like (shown frames.now).bytes known frame) }
        ensures in_range { IfOk result (λ o. IfSome o (λ x. x.0 < (shown frames.now).count)) }
        ensures kept { OnOk result ((known : List Known)
            → AreKept (shown frames.now).count (shown frames.now).bytes known self.old
            → AreKept (shown frames.now).count (shown frames.now).bytes
            (known ++ (frame, page) ∷ []) self.new) }
        ensures found { IfOk result (λ o. IsSome o → (known : List Known)
            → AreKept (shown frames.now).count (shown frames.now).bytes known self.old
            → AreKept (shown frames.now).count (shown frames.now).bytes known self.new) }
    {
        let noted = self.like[frame as usize];
        if noted.is_some() {
            return Ok(noted);
        }
        match place(&self.row, frames, frame) {
            Ok(at) => {
                let known = self.like[self.row[at] as usize];
                self.like[frame as usize] = known;
                Ok(known)
            }
            Err(at) => {
                self.row.insert(at, frame)?;
                self.like[frame as usize] = Some((frame, page));
                Ok(None)
            }
        }
    }
}

/// Where in a row that rises by bytes one stands that holds the same as this frame; or else where
/// this would stand.
fn place(row: &[u32], frames: &Frames, frame: u32) -> Result<usize, usize>
    requires in_range { frame < (shown frames.now).count }
    requires below { EachIndex row.now (λ i. slice_index row.now i < (shown frames.now).count) }
    requires rising { AreRising (shown frames.now).bytes row.now }
    ensures { IsPlace (shown frames.now).bytes row.now frame result }
{
    let (mut from, mut past) = (0, row.len());
    while from < past {
        let middle = from + (past - from) / 2;
        match cmp_frames(frames, row[middle], frame) {
            Ordering::Less => from = middle + 1,
            Ordering::Equal => return Ok(middle),
            Ordering::Greater => past = middle,
        }
    }
    Err(from)
}

/// The order of two frames by their bytes.
fn cmp_frames(frames: &Frames, frame: u32, other: u32) -> Ordering
    requires { (frame < (shown frames.now).count) × (other < (shown frames.now).count) }
    ensures { result ≡ cmp_frames (shown frames.now).bytes frame other }
{
    compare(frames.bytes(frame), frames.bytes(other))
}

/// The order of two lists of bytes, by the first that differ. Those in front that are the same are
/// passed in pieces.
fn compare(a: &[u8], b: &[u8]) -> Ordering
    ensures { result ≡ slice_cmp nat_cmp a.now b.now }
{
    let (mut left, mut right) = (a, b);
    while let (Some((x, xs)), Some((y, ys))) = (
        left.split_first_chunk::<PIECE>(),
        right.split_first_chunk::<PIECE>(),
    ) {
        if differ(x, y) {
            break;
        }
        left = xs;
        right = ys;
    }
    left.cmp(&right)
}

/// Whether two pieces may differ: if not, they are the same. No branch lies between the bytes, so
/// that many are compared at once.
fn differ(x: &[u8; PIECE], y: &[u8; PIECE]) -> bool
    ensures { result ≡ false → x.now ≡ y.now }
{
    let mut differences = 0;
    for i in 0..PIECE {
        differences |= x[i] ^ y[i];
    }
    differences != 0
}
