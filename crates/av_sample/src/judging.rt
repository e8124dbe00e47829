//! Whether what another program replied is legal.

ghost use Rattle.std.specs.Prelude.{◌≡◌, IfOk};
ghost use Rattle.av_plain.specs.Ledger.{Ledger};
ghost use Rattle.av_plain.specs.World.{World};
ghost use Rattle.av_audit_book.specs.Machine.{setting_of};
ghost use Rattle.av_audit.specs.Judge.{IsAt, machine_of, phase_of};
ghost use Rattle.av_audit.specs.Swap.{FitsWords};
ghost use Rattle.av_audit.specs.declared.auditor.Phase.TheVariants.{Going};
ghost use Rattle.av_sample.specs.Judging.{Judged};

use crate::ask::{Unanswered, said_command};
use av_audit::{Auditor, Verdict};
use std::alloc::Global;

/// Whether the text of a reply to a line is legal.
pub fn judge_line(
    alloc: Global,
    auditor: &mut Auditor,
    line: &[u8],
    text: &[u8],
) -> Result<Verdict, Unanswered>
    requires { FitsWords (machine_of auditor.old) }
    ensures right { phase_of auditor.old ≡ Going → IfOk result (λ verdict. (w : World)
        (l : Ledger) → IsAt auditor.old w l
        → Judged line.now (setting_of (machine_of auditor.old)) w l text.now verdict
        auditor.new) }
    ensures machine { machine_of auditor.new ≡ machine_of auditor.old }
{
    let command = said_command(alloc, line)?;
    match auditor.judge(&command, text) {
        Ok(verdict) => Ok(verdict),
        Err(_) => Err(Unanswered::Memory),
    }
}
