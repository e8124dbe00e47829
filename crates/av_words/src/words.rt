//! The command line's words.

ghost use Rattle.std.specs.Prelude.{◌≡◌, ◌≢◌, ℕ, List, [], true, map, codes, string_bytes};
ghost use Rattle.std.specs.Prelude.{unwrap_or};
ghost use Rattle.std.specs.Prelude.{Some, IfSome, IfNone, IfOk, IsErrOf};
ghost use Rattle.std.specs.Fmt.{decimal};
ghost use Rattle.std.specs.List.{list_all};
ghost use Rattle.av_base.specs.Limits.{most_frames};
ghost use Rattle.av_text.specs.Number.{IsNumberIn};
ghost use Rattle.clap.specs.Words.{all_of, found_of, kind_of, rows_of, subcommand_rows_of};
ghost use Rattle.clap.specs.declared.error.kind.ErrorKind.TheVariants as kinds;
ghost use Rattle.av_words.specs.declared.words.WordsErr.TheVariants as errors;
ghost use Rattle.av_words.specs.Words.{HasNoForm, IsForm, is_name};
ghost use Rattle.av_words.specs.Places.{HasNoSplit, IsAskedBy, IsParsed, IsValue};

use crate::command::program_command;
use av_base::MOST_FRAMES;
use av_text::number::number_in;
use clap::ArgMatches;
use clap::error::ErrorKind;
use std::alloc::{AllocError, Global};

/// So many lines may be asked for.
const MOST_LOAD: u64 = 1_000_000;

/// What the words ask for: a trace on a machine of so many frames, a load of so many lines from a
/// seed on, or that a transcript be judged, of a trace on a machine of so many frames.
#[derive(Clone, Copy, Drop, Debug, PartialEq, Eq)]
pub enum Asked {
    Run { frames: u32 },
    Work { seed: u64, lines: u32, frames: u32 },
    Audit { frames: u32 },
}

/// Why the words were not read.
#[derive(Clone, Copy, Drop, Debug, PartialEq, Eq)]
pub enum WordsErr {
    /// They are no command line of this program.
    Usage,
    /// Memory ran out.
    Memory,
}

impl From<AllocError> for WordsErr {
    ghost from_gives = { λ _ e. e ≡ errors.Memory };

    fn from(_error: AllocError) -> WordsErr {
        WordsErr::Memory
    }
}

impl From<clap::Error> for WordsErr {
    ghost from_gives = { λ error e. (kind_of error ≡ kinds.OutOfMemory → e ≡ errors.Memory)
        × (kind_of error ≢ kinds.OutOfMemory → e ≡ errors.Usage) };

    fn from(error: clap::Error) -> WordsErr {
        match error.kind() {
            ErrorKind::OutOfMemory => WordsErr::Memory,
            _ => WordsErr::Usage,
        }
    }
}

/// What the words ask for, and the names of swap areas.
pub fn read_words<'a>(alloc: Global, words: &'a [String]) -> Result<(Asked, Vec<&'a str>), WordsErr>
    ensures found { IfOk result (λ x. IsForm (map string_bytes words.now) x.0
        (map (λ name. name.now) x.1.items)) }
    ensures usage { IsErrOf result WordsErr.Usage → HasNoForm (map string_bytes words.now) }
{
    if !are_plain(words) {
        return Err(WordsErr::Usage);
    }
    let matches = parse(alloc, words)?;
    let (verb, values) = matches.subcommand().ok_or(WordsErr::Usage)?;
    let asked = asked_by(verb, values).ok_or(WordsErr::Usage)?;
    Ok((asked, names_of(alloc, values)?))
}

/// Whether no word is empty or begins with a minus sign. Those that do are of no form, and the
/// parser would take some for flags.
fn are_plain(words: &[String]) -> bool
    ensures { result ≡ list_all (λ word. is_name (string_bytes word)) words.now }
{
    words.iter().all(|word| is_name(word.as_bytes()))
}

/// Whether a word is neither empty nor begins with a minus sign.
fn is_name(word: &[u8]) -> bool
    ensures { result ≡ is_name word.now }
{
    match word {
        [first, ..] => *first != b'-',
        [] => false,
    }
}

/// What the parser makes of the words.
fn parse<'a>(alloc: Global, words: &'a [String]) -> Result<ArgMatches<'a>, WordsErr>
    requires plain { list_all (λ word. is_name (string_bytes word)) words.now ≡ true }
    ensures found { IfOk result (λ m. IsParsed (map string_bytes words.entry.now)
        (subcommand_rows_of m)) }
    ensures usage { IsErrOf result WordsErr.Usage → HasNoSplit (map string_bytes words.entry.now) }
{
    let matches = program_command(alloc)?.try_get_matches_from(words)?;
    Ok(matches)
}

/// What a verb and its values ask for.
fn asked_by(verb: &str, values: &ArgMatches<'_>) -> Option<Asked>
    ensures found { IfSome result (IsAskedBy verb.now (rows_of (found_of values.now))) }
    ensures none { IfNone result ((asked : Asked)
        → IsAskedBy verb.now (rows_of (found_of values.now)) asked → ⊥) }
{
    match verb {
        "run" => {
            let frames = frames_of(values)?;
            Some(Asked::Run { frames })
        }
        "work" => {
            let seed = number_of(values, "SEED", 0, u64::MAX)?;
            let lines = number_of(values, "LINES", 1, MOST_LOAD)? as u32;
            let frames = frames_of(values)?;
            Some(Asked::Work {
                seed,
                lines,
                frames,
            })
        }
        "audit" => {
            let frames = frames_of(values)?;
            Some(Asked::Audit { frames })
        }
        _ => None,
    }
}

/// How many frames there are.
fn frames_of(values: &ArgMatches<'_>) -> Option<u32>
    ensures found { IfSome result (λ n. IsValue (codes "FRAMES") (rows_of (found_of values.now)) n
        × IsNumberIn 1 most_frames n) }
    ensures none { IfNone result ((n : ℕ) → IsNumberIn 1 most_frames n
        → IsValue (codes "FRAMES") (rows_of (found_of values.now)) n → ⊥) }
{
    let frames = number_of(values, "FRAMES", 1, MOST_FRAMES)?;
    Some(frames as u32)
}

/// The number under this name, from `low` to `high`.
fn number_of(values: &ArgMatches<'_>, id: &str, low: u64, high: u64) -> Option<u64>
    ensures found { IfSome result (λ n. IsValue id.now (rows_of (found_of values.now)) n
        × IsNumberIn low high n) }
    ensures none { IfNone result ((n : ℕ) → IsNumberIn low high n
        → IsValue id.now (rows_of (found_of values.now)) n → ⊥) }
{
    number_in(values.get_str(id)?.as_bytes(), low, high)
}

/// The names of swap areas.
fn names_of<'a>(alloc: Global, values: &ArgMatches<'a>) -> Result<Vec<&'a str>, AllocError>
    ensures { IfOk result (λ names. map (λ name. name.now) names.items
        ≡ unwrap_or (all_of (codes "SWAP") (rows_of (found_of values.now))) []) }
{
    match values.get_strs("SWAP") {
        Some(names) => names.to_vec(alloc),
        None => Ok(Vec::new(alloc)),
    }
}
