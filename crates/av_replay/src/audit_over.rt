//! An audit over the swap areas that the words name.

ghost use Rattle.std.specs.Prelude.{◌≡◌, ◌≢◌, ◌<◌, ◌≤◌, ◌⊎◌, None, length, map};
ghost use Rattle.std.specs.List.{AllByRecursion};
ghost use Rattle.av_io.specs.Count.{Rose};
ghost use Rattle.av_plain.specs.Device.{seen_by};
ghost use Rattle.av_ports.specs.Ports.{OnlySink};
ghost use Rattle.av_swapdev.specs.Device.{most_areas, most_pages};
ghost use Rattle.av_step.specs.Step.{sizes_of};
ghost use Rattle.av_audit.specs.Swap.{FitsWords};
ghost use Rattle.av_audit_book.specs.Machine.{setting_of};
ghost use Rattle.av_audit_machine.specs.Heads.{OnlyFails};
ghost use Rattle.av_replay.specs.Attach.{AttachesFewer, HasNone};
ghost use Rattle.av_replay.specs.Audit.{DoesAudit, EndsAudit, LosesHeader, legal_text, status_by};
ghost use Rattle.av_replay.specs.KernelPorts.{ports_by};
ghost use Rattle.av_replay.specs.Over.{AuditsOver};
ghost use Rattle.av_replay.specs.Summary.{EndsText};

use crate::attach::attach_all;
use crate::kernel_ports::LentPorts;
use crate::outcome::Outcome;
use crate::status::Status;
use crate::summary::write_last;
use av_audit_book::Machine;
use av_audit_input::InputErr;
use av_audit_machine::{MachineErr, read_machine};
use av_audit_run::{Finding, audit};
use av_io::{Sink, Source};
use av_ports::Ports;
use av_swapdev::{AttachErr, SwapDev};
use std::alloc::Global;

/// What is written of a transcript that is legal.
const LEGAL: &[u8] = b"legal\n";

/// The status of an audit that could not go on.
fn status_of(error: InputErr) -> Status
    ensures { result ≡ status_by error }
{
    match error {
        InputErr::BadLine(number) => Status::BadLine(number),
        InputErr::TooMany => Status::TooMany,
        InputErr::TooLong => Status::TooLong,
        InputErr::Read => Status::ReadFault,
        InputErr::Write => Status::WriteFault,
        InputErr::Memory => Status::Memory,
    }
}

/// Judges a transcript on this machine, and writes what was found, if it is legal.
fn audit_ports<P: Ports>(alloc: Global, machine: Machine, ports: &mut P) -> Status
    requires { FitsWords machine }
    ensures ends { EndsAudit result (setting_of machine) (P.view ports.old) (P.view ports.new) }
    ensures kept { P.kept ports.new ≡ P.kept ports.old }
{
    match audit(alloc, machine, ports) {
        Ok(Finding::Legal) => write_last(ports, LEGAL),
        Ok(Finding::Illegal(number)) => Status::Illegal(number),
        Err(error) => status_of(error),
    }
}

/// Judges a transcript on this machine, with these as one value.
fn audit_lent<S: Source, K: Sink, D: SwapDev>(
    alloc: Global,
    machine: Machine,
    source: &mut S,
    sink: &mut K,
    dev: &mut D,
) -> Status
    requires { FitsWords machine }
    ensures { let at = ports_by S.view K.view D.sizes D.pages D.failures D.history in
        EndsAudit result (setting_of machine) (at source.old sink.old dev.old)
        (at source.new sink.new dev.new) }
{
    let mut ports = LentPorts { source, sink, dev };
    audit_ports(alloc, machine, &mut ports)
}

/// Judges a transcript over a device whose swap areas have so many pages each.
fn audit_areas<S: Source, K: Sink, D: SwapDev>(
    alloc: Global,
    frames: u32,
    pages: &[u32],
    source: &mut S,
    sink: &mut K,
    dev: &mut D,
) -> Status
    requires some { 0 < frames }
    requires few { length pages.now ≤ most_areas }
    requires small { AllByRecursion (λ n. n ≤ most_pages) pages.now }
    requires attached { D.sizes dev.old ≡ sizes_of pages.now }
    ensures does { let at = ports_by S.view K.view D.sizes D.pages D.failures D.history in
        result ≢ Status.AttachFault → DoesAudit frames result (at source.old sink.old dev.old)
        (at source.new sink.new dev.new) }
    ensures begun { result ≢ Status.Usage }
    ensures fault { result ≡ Status.AttachFault → Rose (D.failures dev.old) (D.failures dev.new)
        × (source.new ≡ source.old) × (sink.new ≡ sink.old)
        × OnlyFails (seen_by D.sizes D.pages D.failures D.history dev.old)
        (seen_by D.sizes D.pages D.failures D.history dev.new) }
{
    match read_machine(alloc, frames, pages, dev) {
        Ok(machine) => audit_lent(alloc, machine, source, sink, dev),
        Err(MachineErr::Failed) => Status::AttachFault,
        Err(MachineErr::Memory) => Status::Memory,
    }
}

/// Attaches the swap areas of these names, reads page 0 of each, and judges a transcript over them.
pub fn audit_over<S: Source, K: Sink, D: SwapDev>(
    alloc: Global,
    frames: u32,
    names: &[&str],
    source: &mut S,
    sink: &mut K,
    dev: &mut D,
) -> Outcome
    requires some { 0 < frames }
    requires few { length names.now ≤ most_areas }
    requires none { HasNone (D.sizes dev.old) }
    ensures audited { let at = ports_by S.view K.view D.sizes D.pages D.failures D.history in
        result.status ≢ Status.AttachFault
        → AuditsOver frames (map (λ name. name.now) names.now) result.status
        (at source.old sink.old dev.old) (at source.new sink.new dev.new) }
    ensures begun { result.status ≢ Status.Usage }
    ensures fault { result.status ≡ Status.AttachFault →
        Rose (D.failures dev.old) (D.failures dev.new)
        × (source.new ≡ source.old) × (sink.new ≡ sink.old) }
    ensures fewer { result.status ≡ Status.AttachFault →
        AttachesFewer (map (λ name. name.now) names.now)
        (seen_by D.sizes D.pages D.failures D.history dev.old)
        (seen_by D.sizes D.pages D.failures D.history dev.new)
        ⊎ LosesHeader (map (λ name. name.now) names.now)
        (seen_by D.sizes D.pages D.failures D.history dev.old)
        (seen_by D.sizes D.pages D.failures D.history dev.new) }
    ensures kernel { result.kernel ≡ None }
{
    match attach_all(alloc, names, dev) {
        Ok(pages) => Outcome {
            status: audit_areas(alloc, frames, &pages, source, sink, dev),
            kernel: None,
        },
        Err(AttachErr::Failed) => Outcome {
            status: Status::AttachFault,
            kernel: None,
        },
        Err(AttachErr::Memory) => Outcome {
            status: Status::Memory,
            kernel: None,
        },
    }
}
