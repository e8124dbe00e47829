//! Units for `maps`.

ghost use Rattle.std.specs.Prelude.{◌≡◌, ℕ, List, [], IfOk, None, false, map, true};
ghost use Rattle.av_trace.specs.Row.{IsRun};
ghost use Rattle.av_trace.specs.declared.command.Command.TheVariants as commands;
ghost use Rattle.av_trace.specs.declared.row.Row.{Row as AnyRow};
ghost use Rattle.av_plain.specs.Ledger.{Ledger, Setting};
ghost use Rattle.av_plain.specs.Refusal.{refusal, tests};
ghost use Rattle.av_plain.specs.Report.{AreApart, AreMaps, row_of};
ghost use Rattle.av_plain.specs.Report.{Range as PlainRange};
ghost use Rattle.av_plain.specs.World.{World, pages};
ghost use Rattle.av_audit_judge.specs.Verdict.{IsVerdict};
ghost use Rattle.av_audit_report.specs.Made.{IsMade};
ghost use Rattle.av_audit_report.specs.Report.{shown_runs};
ghost use Rattle.av_audit_report.specs.Rows.{AreFilled, IsAdded};
ghost use Rattle.av_audit_report.specs.Runs.{AreRunsOf, plain_range, plain_ranges};
ghost use Rattle.av_audit_world.specs.Space.{IsSpace};

use crate::entry::fits;
use crate::made::is_made;
use crate::runs::pieces;
use av_audit_ranges::Range;
use av_audit_world::Space;
use av_base::PAGE_SIZE;
use av_trace::{Answer, Reply, Row, Rows};
use std::alloc::{AllocError, Global};

/// Whether a unit is legal for `maps` of a process that has this mapped.
pub fn judges_maps(
    space: &Space,
    alloc: Global,
    process: u16,
    text: &[u8],
) -> Result<bool, AllocError>
    ensures { IfOk result (λ legal. (m : Setting) (w : World) (l : Ledger)
        → IsSpace space.now (pages w process)
        → refusal (tests m w l (commands.Maps process)) ≡ None
        → IsVerdict m w l (commands.Maps process) text.now legal l) }
{
    let made = runs_reply(space, alloc)?;
    is_made(alloc, &made, text)
}

/// The longest runs of what is mapped; none where an address is of more than 64 bits.
fn runs_reply(space: &Space, alloc: Global) -> Result<Option<Reply>, AllocError>
    ensures { IfOk result (λ made. (w : World) (p : ℕ) → IsSpace space.now (pages w p)
        → (rows : List AnyRow) × AreMaps (pages w p) rows × IsMade (shown_runs rows) made) }
{
    let cut = pieces(alloc, space.ranges())?;
    let mut reply = Reply::new(alloc);
    if !add_runs(cut.as_slice(), &mut reply.rows)? {
        return Ok(None);
    }
    let runs = reply.rows.as_slice().len() as u64;
    fits(runs);
    reply.answer = Answer::Runs(runs);
    Ok(Some(reply))
}

/// Adds the rows of the longest runs with one protection, if each address is of 64 bits.
fn add_runs(cut: &[Range], rows: &mut Rows) -> Result<bool, AllocError>
    requires apart { AreApart (plain_ranges cut.now) }
    requires none { rows.old ≡ [] }
    ensures { IfOk result (λ fit. (runs : List PlainRange) × AreRunsOf (plain_ranges cut.now) runs
        × AreFilled IsRun (map row_of runs) fit rows.new) }
{
    let [first, others @ ..] = cut else {
        return Ok(true);
    };
    let mut run = *first;
    let mut rest = others;
    while let [next, later @ ..] = rest {
        if goes_on(run, *next) {
            run.end = next.end;
        } else {
            if !add_run(run, rows)? {
                return Ok(false);
            }
            run = *next;
        }
        rest = later;
    }
    add_run(run, rows)
}

/// Whether a range begins where a run ends, with its protection.
fn goes_on(run: Range, next: Range) -> bool
    ensures yes { result ≡ true → (run.end ≡ next.start) × (run.marks.prot ≡ next.marks.prot) }
    ensures no { result ≡ false → run.end ≡ next.start → run.marks.prot ≡ next.marks.prot → ⊥ }
{
    run.end == next.start && run.marks.prot == next.marks.prot
}

/// Adds the row of a run, if its addresses are of 64 bits.
fn add_run(run: Range, rows: &mut Rows) -> Result<bool, AllocError>
    ensures { IfOk result
        (λ fits. IsAdded IsRun (row_of (plain_range run)) fits rows.old rows.new) }
{
    let bounds = (
        PAGE_SIZE.checked_mul(run.start),
        PAGE_SIZE.checked_mul(run.end),
    );
    match bounds {
        (Some(start), Some(end)) => {
            rows.push(Row::Run {
                start,
                end,
                prot: run.marks.prot,
            })?;
            Ok(true)
        }
        _ => Ok(false),
    }
}
