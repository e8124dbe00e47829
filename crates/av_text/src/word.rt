//! Words of a line. Without memory a part of what is to be added may be there.

ghost use Rattle.std.specs.Prelude.{◌≡◌, option_map};
ghost use Rattle.av_text.specs.Word.{Adds, field, after as after_front};

use crate::bytes::Bytes;
use std::alloc::AllocError;

/// What follows this front, where the bytes begin with it.
#[inline(always)]
pub fn after<'a>(bytes: &'a [u8], front: &[u8]) -> Option<&'a [u8]>
    ensures { option_map (λ rest. rest.now) result ≡ after_front front.now bytes.now }
{
    bytes.strip_prefix(front)
}

/// Adds a space and a word.
pub fn add_word(text: &mut Bytes, word: &[u8]) -> Result<(), AllocError>
    ensures { Adds result text.old text.new (field word.now) }
{
    text.append(b" ")?;
    text.append(word)
}
