//! What an auditor keeps, and what it answers.

ghost use Rattle.std.specs.Prelude.{◌≡◌, ◌<◌, ◌≤◌, ◌^◌, [], length, IfOk, IsErr, OnErr};
ghost use Rattle.av_plain.specs.Ledger.{Ledger, first_ledger};
ghost use Rattle.av_plain.specs.World.{World};
ghost use Rattle.av_audit_book.specs.Machine.{setting_of};
ghost use Rattle.av_audit_machine.specs.FirstPages.{setting_by};
ghost use Rattle.av_audit.specs.Judge.{IsAt, IsRight, machine_of, phase_of, verdict_of};
ghost use Rattle.av_audit.specs.Swap.{FitsWords};

use crate::units::is_legal;
use av_audit_book::{Book, Machine};
use av_audit_machine::{Head, machine_of_heads};
use av_audit_world::Memories;
use av_trace::Command;
use std::alloc::{AllocError, Global};

/// What is said of a unit: it is legal, or it isn't.
#[derive(Clone, Copy, Drop)]
pub enum Verdict {
    Legal,
    Illegal,
}

/// Whether the auditor goes on. Else a unit wasn't legal, or memory was wanting.
#[derive(Clone, Copy, Drop)]
pub enum Phase {
    Going,
    Over,
    Spent,
}

/// The frames and swap areas of a machine, what is kept of frames and slots, what processes see,
/// and whether it goes on.
#[derive(Drop)]
pub struct Auditor {
    pub(crate) alloc: Global,
    pub(crate) machine: Machine,
    pub(crate) book: Book,
    pub(crate) memories: Memories,
    pub(crate) phase: Phase,
}

/// What is said of a unit.
fn to_verdict(legal: bool) -> Verdict
    ensures { result ≡ verdict_of legal }
{
    if legal {
        Verdict::Legal
    } else {
        Verdict::Illegal
    }
}

impl Auditor {
    /// At the first state of a machine of so many frames with these swap areas: no process lives,
    /// and no frame or slot is used.
    pub fn new(alloc: Global, frames: u32, heads: &[Head<'_>]) -> Result<Auditor, AllocError>
        requires some { 0 < frames }
        requires few { length heads.now ≤ 2 ^ 8 }
        ensures setting { IfOk result (λ auditor.
            setting_of (machine_of auditor) ≡ setting_by frames heads.now) }
        ensures words { IfOk result (λ auditor. FitsWords (machine_of auditor)) }
        ensures going { IfOk result (λ auditor. phase_of auditor ≡ Phase.Going) }
        ensures first { IfOk result (λ auditor. IsAt auditor [] first_ledger) }
    {
        let machine = machine_of_heads(alloc, frames, heads)?;
        Ok(Auditor::of_machine(alloc, machine))
    }

    /// At the first state of this machine.
    pub fn of_machine(alloc: Global, machine: Machine) -> Auditor
        ensures going { phase_of result ≡ Phase.Going }
        ensures first { IsAt result [] first_ledger }
        ensures machine { machine_of result ≡ machine }
    {
        Auditor {
            alloc,
            machine,
            book: Book::new(alloc),
            memories: Memories::new(alloc),
            phase: Phase::Going,
        }
    }

    /// What is said of a unit for a command, while the auditor goes on.
    fn judge_next(&mut self, command: &Command, unit: &[u8]) -> Result<Verdict, AllocError>
        requires { FitsWords (machine_of self.old) }
        ensures machine { machine_of self.new ≡ machine_of self.old }
        ensures phase { phase_of self.new ≡ phase_of self.old }
        ensures right { IfOk result (λ verdict. (w : World) (l : Ledger) → IsAt self.old w l
            → IsRight (setting_of (machine_of self.old)) w l command.now unit.now verdict
            self.new) }
    {
        let (memories, book) = (&mut self.memories, &mut self.book);
        let legal = is_legal(self.alloc, &self.machine, memories, book, command, unit)?;
        Ok(to_verdict(legal))
    }

    /// What is said of a unit for a command.
    pub fn judge(&mut self, command: &Command, unit: &[u8]) -> Result<Verdict, AllocError>
        requires { FitsWords (machine_of self.old) }
        ensures going { phase_of self.old ≡ Phase.Going → IfOk result (λ verdict. (w : World)
            (l : Ledger) → IsAt self.old w l
            → IsRight (setting_of (machine_of self.old)) w l command.now unit.now verdict
            self.new) }
        ensures machine { machine_of self.new ≡ machine_of self.old }
        ensures goes_on { IfOk result (λ verdict. verdict ≡ Verdict.Legal
            → phase_of self.new ≡ Phase.Going) }
        ensures over { phase_of self.old ≡ Phase.Over
            → (result ≡ Ok Verdict.Illegal) × (phase_of self.new ≡ Phase.Over) }
        ensures spent { phase_of self.old ≡ Phase.Spent
            → IsErr result × (phase_of self.new ≡ Phase.Spent) }
        ensures ends { IfOk result (λ verdict. verdict ≡ Verdict.Illegal
            → phase_of self.new ≡ Phase.Over) }
        ensures wants { OnErr result (phase_of self.new ≡ Phase.Spent) }
    {
        match self.phase {
            Phase::Going => {}
            Phase::Over => return Ok(Verdict::Illegal),
            Phase::Spent => return Err(AllocError),
        }
        match self.judge_next(command, unit) {
            Ok(Verdict::Legal) => Ok(Verdict::Legal),
            Ok(Verdict::Illegal) => {
                self.phase = Phase::Over;
                Ok(Verdict::Illegal)
            }
            Err(error) => {
                self.phase = Phase::Spent;
                Err(error)
            }
        }
    }
}
