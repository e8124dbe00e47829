//! Protections as words.

ghost use Rattle.std.specs.Prelude.{◌≡◌, if◌then◌else◌, option_map};
ghost use Rattle.av_text.specs.Prot.{prot_text, letter_of, prot_of, prot_at};
ghost use Rattle.av_text.specs.Word.{Adds, field};

use crate::bytes::Bytes;
use crate::word::add_word;
use av_base::Prot;
use std::alloc::AllocError;

#[tactic(auto, unfolding(crate::specs::Prot::letter_of))]
fn is_allowed(letter: u8, byte: u8) -> Option<bool>
    ensures { result ≡ letter_of letter byte }
{
    if byte == letter {
        Some(true)
    } else if byte == b'-' {
        Some(false)
    } else {
        None
    }
}

#[tactic(auto, unfolding(crate::specs::Prot::prot_of))]
fn prot_of(r: u8, w: u8, x: u8) -> Option<Prot>
    ensures { result ≡ prot_of r w x }
{
    let read = is_allowed(b'r', r)?;
    let write = is_allowed(b'w', w)?;
    let execute = is_allowed(b'x', x)?;
    Some(Prot {
        read,
        write,
        execute,
    })
}

/// A protection after a space, and the rest.
#[tactic(auto, unfolding(crate::specs::Prot::prot_at))]
pub fn prot(bytes: &[u8]) -> Option<(Prot, &[u8])>
    ensures { option_map (λ x. (x.0, x.1.now)) result ≡ prot_at bytes.now }
{
    match bytes {
        [b' ', r, w, x, rest @ ..] => Some((prot_of(*r, *w, *x)?, rest)),
        _ => None,
    }
}

fn letter(allowed: bool, letter: u8) -> u8
    ensures { result ≡ (if allowed then letter else 45) }
{
    if allowed { letter } else { b'-' }
}

/// Adds a space and a protection.
pub fn add_prot(text: &mut Bytes, prot: Prot) -> Result<(), AllocError>
    ensures { Adds result text.old text.new (field (prot_text prot)) }
{
    let word = [
        letter(prot.read, b'r'),
        letter(prot.write, b'w'),
        letter(prot.execute, b'x'),
    ];
    add_word(text, &word)
}
