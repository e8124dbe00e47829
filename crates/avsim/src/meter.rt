//! How far a load is, on standard error, where that is a terminal.

ghost use Rattle.std.specs.Prelude.{◌≡◌, ◌<◌, IfNone, IfSome};
ghost use Rattle.avsim.specs.Meter.{IsShown, hundredths};

use av_replay::Progress;
use std::io::{IsTerminal, Stderr};

/// How many lines a load has at least that is shown.
const LEAST_LINES: u32 = 100_000;

/// How many hundredths of a load of `all` lines are made, where `left` are still to be made.
fn hundredths_made(all: u32, left: u32) -> u32
    requires { 0 < all }
    ensures { result ≡ hundredths all left }
{
    (u64::from(all.saturating_sub(left)) * 100 / u64::from(all)) as u32
}

/// How many hundredths are to be shown of a load of `all` lines when the next line is made and
/// `left` are still to be: those that are made, where it has many lines and they just became more.
fn shown_hundredths(all: u32, left: u32) -> Option<u32>
    ensures some { IfSome result (λ made. IsShown all left × (made ≡ hundredths all left)) }
    ensures none { IfNone result (IsShown all left → ⊥) }
{
    if all < LEAST_LINES {
        return None;
    }
    let made = hundredths_made(all, left);
    if hundredths_made(all, left.saturating_add(1)) < made {
        Some(made)
    } else {
        None
    }
}

/// Shows on standard error how many hundredths of a load are made: in one line, which is written
/// over and cleared in the end, and only where that is a terminal and the load has many lines.
#[derive(Drop)]
pub struct Meter {
    stderr: Stderr,
    is_terminal: bool,
    /// How many lines the load has, once one is made.
    lines: u32,
    is_shown: bool,
}

impl Meter {
    /// A meter that has shown nothing.
    pub fn new(rt: &HostRuntime) -> Meter {
        let stderr = rt.stderr();
        Meter {
            stderr,
            is_terminal: stderr.is_terminal(),
            lines: 0,
            is_shown: false,
        }
    }

    /// Clears the line, if there is one.
    pub fn clear(&mut self) {
        if self.is_shown {
            self.is_shown = false;
            let _ = eprint!(self.stderr; "\r{:16}\r", "");
        }
    }
}

impl Progress for Meter {
    fn made(&mut self, left: u32) {
        if !self.is_terminal {
            return;
        }
        if self.lines == 0 {
            self.lines = left.saturating_add(1);
        }
        if left == 0 {
            self.clear();
        } else if let Some(made) = shown_hundredths(self.lines, left) {
            // The load goes on where standard error takes nothing.
            let _ = eprint!(self.stderr; "\ravsim: {made} of 100");
            self.is_shown = true;
        }
    }
}
