//! The command that the parser reads the words by.

ghost use Rattle.std.specs.Prelude.{◌≡◌, IfOk, false};
ghost use Rattle.clap.specs.Words.{app_of, rule_of};
ghost use Rattle.av_words.specs.Command.{number_rule, names_rule, frames_app, work_app};
ghost use Rattle.av_words.specs.Command.{program_app};

use clap::{Arg, Command};
use std::alloc::{AllocError, Global};

/// So many swap areas may be named.
const MOST_NAMES: usize = 8;

/// A number, which has to be there.
fn number_arg<'a>(alloc: Global, id: &'a str) -> Arg<'a>
    ensures rule { rule_of result ≡ number_rule id.entry.now }
    ensures local { result.global ≡ false }
{
    Arg::new(alloc, id).required(true)
}

/// The names of swap areas.
fn names_arg<'a>(alloc: Global) -> Arg<'a>
    ensures rule { rule_of result ≡ names_rule }
    ensures local { result.global ≡ false }
{
    Arg::new(alloc, "SWAP").num_args(0..=MOST_NAMES)
}

/// A verb, the number of frames, and names: `run FRAMES [SWAP..]`, `audit FRAMES [SWAP..]`
fn frames_command<'a>(alloc: Global, verb: &'a str) -> Result<Command<'a>, AllocError>
    ensures { IfOk result (λ c. app_of c ≡ frames_app verb.entry.now) }
{
    Command::new(alloc, verb)
        .arg(number_arg(alloc, "FRAMES"))?
        .arg(names_arg(alloc))
}

/// `work SEED LINES FRAMES [SWAP..]`
fn work_command<'a>(alloc: Global) -> Result<Command<'a>, AllocError>
    ensures { IfOk result (λ c. app_of c ≡ work_app) }
{
    Command::new(alloc, "work")
        .arg(number_arg(alloc, "SEED"))?
        .arg(number_arg(alloc, "LINES"))?
        .arg(number_arg(alloc, "FRAMES"))?
        .arg(names_arg(alloc))
}

/// The command of the whole program, whose words don't begin with its name. Help is not asked of
/// the parser.
pub fn program_command<'a>(alloc: Global) -> Result<Command<'a>, AllocError>
    ensures { IfOk result (λ c. app_of c ≡ program_app) }
{
    Command::new(alloc, "avsim")
        .no_binary_name(true)
        .disable_help_flag(true)
        .disable_help_subcommand(true)
        .subcommand_required(true)
        .subcommand(frames_command(alloc, "run")?)?
        .subcommand(work_command(alloc)?)?
        .subcommand(frames_command(alloc, "audit")?)
}
