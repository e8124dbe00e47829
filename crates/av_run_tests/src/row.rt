//! Runs given as rows: each line of a trace with the reply to it.

use av_text::Bytes;
use av_text::number::add_decimal;
use std::alloc::{AllocError, Global};

/// A run: its words, how many pages its swap areas have, and each line of its trace behind `> `,
/// with the reply below it.
///
/// Where it has an area, its device is called so many times, and these replies change where one
/// call fails: each stands below the number of that call and of the line, from 0. Over a device
/// that lies the replies below `lies` change, in the place of a call's number.
#[derive(Clone, Copy)]
pub struct Row {
    pub words: &'static [&'static str],
    pub areas: &'static [u32],
    pub turns: &'static str,
    pub calls: u64,
    pub changes: &'static str,
}

/// Texts one behind the other, and where each of them ends.
#[derive(Drop)]
pub struct Texts {
    pub bytes: Vec<u8>,
    ends: Vec<usize>,
}

impl Texts {
    /// No text.
    fn new(alloc: Global) -> Texts {
        Texts {
            bytes: Vec::new(alloc),
            ends: Vec::new(alloc),
        }
    }

    /// How many texts there are.
    pub fn len(&self) -> usize {
        self.ends.len()
    }

    /// One text more.
    fn add(&mut self, text: &[u8]) -> Result<(), AllocError> {
        self.bytes.extend_from_slice(text)?;
        self.ends.push(self.bytes.len())?;
        Ok(())
    }

    /// The last text goes on with a line.
    fn add_line(&mut self, line: &str) -> Result<(), AllocError> {
        self.bytes.extend_from_slice(line.as_bytes())?;
        self.bytes.push(b'\n')?;
        if let Some(end) = self.ends.last_mut() {
            *end = self.bytes.len();
        }
        Ok(())
    }

    /// The text of this number.
    pub fn get(&self, number: usize) -> &[u8] {
        let start = self.first(number).len();
        self.first(number.saturating_add(1))
            .get(start..)
            .unwrap_or(&[])
    }

    /// The first so many bytes.
    pub fn front(&self, count: usize) -> &[u8] {
        &self.bytes[..count.min(self.bytes.len())]
    }

    /// The first so many texts.
    pub fn first(&self, count: usize) -> &[u8] {
        if count == 0 {
            return &[];
        }
        match self.ends.get(count - 1) {
            Some(end) => self.front(*end),
            None => &self.bytes,
        }
    }

    /// How many of the texts are whole within the first so many bytes.
    pub fn whole_within(&self, count: usize) -> usize {
        for (number, end) in self.ends.iter().enumerate() {
            if *end > count {
                return number;
            }
        }
        self.ends.len()
    }
}

/// What stands behind each `> ` of a text, and below it.
#[derive(Drop)]
pub struct Turns {
    pub heads: Texts,
    pub replies: Texts,
}

impl Turns {
    /// Those of a text.
    pub fn of(alloc: Global, text: &str) -> Result<Turns, AllocError> {
        let mut heads = Texts::new(alloc);
        let mut replies = Texts::new(alloc);
        for line in text.lines() {
            match line.strip_prefix("> ") {
                Some(head) => {
                    heads.add(b"")?;
                    heads.add_line(head)?;
                    replies.add(b"")?;
                }
                None => replies.add_line(line)?,
            }
        }
        Ok(Turns { heads, replies })
    }

    /// The reply below this head, if it is one.
    fn reply_to(&self, head: &[u8]) -> Option<&[u8]> {
        for number in 0..self.heads.len() {
            if self.heads.get(number) == head {
                return Some(self.replies.get(number));
            }
        }
        None
    }
}

/// Adds what stands above a reply that changes.
fn add_head(head: &mut Bytes, call: u64, line: usize) -> Result<(), AllocError> {
    if call == 0 {
        head.append(b"lies")?;
    } else {
        add_decimal(head, call)?;
    }
    head.append(b" ")?;
    add_decimal(head, line as u64)?;
    head.append(b"\n")
}

/// What stands above it.
fn head_of(alloc: Global, call: u64, line: usize) -> Result<Bytes, AllocError> {
    let mut head = Bytes::new(alloc);
    add_head(&mut head, call, line)?;
    Ok(head)
}

/// These replies, but for those of the changes that stand below this call, or, where it is 0, below
/// `lies`.
pub fn replies_of(
    alloc: Global,
    own: &Texts,
    changes: &str,
    call: u64,
) -> Result<Texts, AllocError> {
    let changed = Turns::of(alloc, changes)?;
    let mut replies = Texts::new(alloc);
    for line in 0..own.len() {
        let head = head_of(alloc, call, line)?;
        replies.add(changed.reply_to(head.as_slice()).unwrap_or(own.get(line)))?;
    }
    Ok(replies)
}
