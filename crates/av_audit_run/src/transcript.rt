//! A trace is read, and then its transcript judged, unit by unit.

ghost use Rattle.std.specs.Prelude.{◌≡◌, ◌≤◌, List, [], IfOk, IfErr, drop, length, true};
ghost use Rattle.av_ports.specs.Ports.{undone};
ghost use Rattle.av_trace.specs.declared.command.Command.{Command};
ghost use Rattle.av_plain.specs.Ledger.{first_ledger};
ghost use Rattle.av_audit_book.specs.Machine.{setting_of};
ghost use Rattle.av_audit.specs.Judge.{IsAt, machine_of, phase_of};
ghost use Rattle.av_audit.specs.Swap.{FitsWords};
ghost use Rattle.av_audit.specs.declared.auditor.Phase.TheVariants.{Going};
ghost use Rattle.av_audit_input.specs.Input.{FailsOnly, IsEnded, IsNoPortErr, OnlyReads};
ghost use Rattle.av_audit_input.specs.Script.{IsScript};
ghost use Rattle.av_audit_input.specs.Trace.{most_lines};
ghost use Rattle.av_audit_input.specs.Unit.{most_bytes};
ghost use Rattle.av_audit_run.specs.Transcript.{AuditStops, Audits, BreaksOff, Judges, finding_of};

use av_audit::{Auditor, Verdict};
use av_audit_book::Machine;
use av_audit_input::{Extent, InputErr, Script, first_command, read_trace, read_unit};
use av_ports::{Pending, Ports};
use av_text::Bytes;
use std::alloc::Global;

/// What an audit finds: the transcript is legal, or the reply of this number, from 1, isn't.
#[derive(Clone, Copy, Drop, Debug, PartialEq, Eq)]
pub enum Finding {
    Legal,
    Illegal(u32),
}

/// What is found at the unit of this number, if the audit ends there.
fn finding_at(verdict: Verdict, number: u32) -> Option<Finding>
    ensures { result ≡ finding_of verdict number }
{
    match verdict {
        Verdict::Legal => None,
        Verdict::Illegal => Some(Finding::Illegal(number)),
    }
}

/// What comes behind so many bytes.
fn behind(text: &[u8], size: usize) -> &[u8]
    requires { size ≤ length text.now }
    ensures { result.now ≡ drop size text.now }
{
    &text[size..]
}

/// Reads a unit for each command, and judges it, up to the first that isn't legal.
fn judge_all<P: Ports>(
    alloc: Global,
    auditor: &mut Auditor,
    script: &Script,
    ports: &mut P,
    pending: &mut Pending,
    extent: &mut Extent,
    unit: &mut Vec<u8>,
) -> Result<Finding, InputErr>
    requires first { IsAt auditor.old [] first_ledger }
    requires going { phase_of auditor.old ≡ Going }
    requires words { FitsWords (machine_of auditor.old) }
    requires few { script.now.count ≤ most_lines }
    requires all { extent.old.left ≡ most_bytes }
    requires ended { extent.old.ended ≡ true → IsEnded pending.old (P.view ports.old) }
    ensures judges { IfOk result (λ finding. (commands : List Command)
        → IsScript script.now commands
        → Judges finding (setting_of (machine_of auditor.old)) commands
        (undone pending.old (P.view ports.old)) pending.new (P.view ports.new)) }
    ensures stops { IfErr result (λ e. (commands : List Command) → IsScript script.now commands
        → BreaksOff e (setting_of (machine_of auditor.old)) commands
        (undone pending.old (P.view ports.old)) pending.new (P.view ports.new)) }
    ensures only { OnlyReads (P.view ports.old) (P.view ports.new) }
    ensures fails { FailsOnly result (P.view ports.old) (P.view ports.new) }
    ensures over { extent.old.ended ≡ true → IfErr result IsNoPortErr }
    ensures kept { P.kept ports.new ≡ P.kept ports.old }
{
    let mut spare = Bytes::new(alloc);
    let mut command = None;
    let mut rest = script.text.as_slice();
    for index in 0..script.count {
        let number = index + 1;
        if !read_unit(ports, pending, extent, unit)? {
            return Ok(Finding::Illegal(number));
        }
        let size = first_command(alloc, rest, &mut spare, &mut command)?;
        rest = behind(rest, size);
        let Some(next) = &command else {
            // The unit comes behind the last command.
            return Ok(Finding::Illegal(number));
        };
        let verdict = auditor.judge(next, unit.as_slice())?;
        match finding_at(verdict, number) {
            Some(finding) => return Ok(finding),
            None => {}
        }
    }
    if read_unit(ports, pending, extent, unit)? {
        return Ok(Finding::Illegal(script.count + 1));
    }
    Ok(Finding::Legal)
}

/// Reads a trace, and judges its transcript on this machine.
pub fn audit<P: Ports>(alloc: Global, machine: Machine, ports: &mut P) -> Result<Finding, InputErr>
    requires { FitsWords machine }
    ensures audits { IfOk result
        (λ finding. Audits finding (setting_of machine) (P.view ports.old) (P.view ports.new)) }
    ensures stops { IfErr result
        (λ e. AuditStops e (setting_of machine) (P.view ports.old) (P.view ports.new)) }
    ensures only { OnlyReads (P.view ports.old) (P.view ports.new) }
    ensures fails { FailsOnly result (P.view ports.old) (P.view ports.new) }
    ensures kept { P.kept ports.new ≡ P.kept ports.old }
{
    let mut pending = Pending::new(alloc)?;
    let mut script = Script::new(alloc);
    let ended = read_trace(alloc, ports, &mut pending, &mut script)?;
    let mut auditor = Auditor::of_machine(alloc, machine);
    let mut unit = Vec::new(alloc);
    judge_all(
        alloc,
        &mut auditor,
        &script,
        ports,
        &mut pending,
        &mut Extent::new(ended),
        &mut unit,
    )
}
