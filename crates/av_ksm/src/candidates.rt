//! Which pages may join others.

ghost use Rattle.std.specs.Prelude.{◌≡◌, ◌<◌, ◌&&◌, not, is_none};
ghost use Rattle.av_spaces.specs.Spaces.{pages_of};
ghost use Rattle.av_plain.specs.Areas.{Rmap};
ghost use Rattle.av_plain.specs.Device.{Device};
ghost use Rattle.av_plain.specs.Fault.{is_locked};
ghost use Rattle.av_plain.specs.Ledger.{Ledger, is_merged, slot_of};
ghost use Rattle.av_plain.specs.Merge.{candidate as candidate_of};
ghost use Rattle.av_plain.specs.World.{World};
ghost use Rattle.av_mem.specs.Between.{HasBetween, KeepsBetween};
ghost use Rattle.av_mem.specs.Mem.{frame_count};
ghost use Rattle.av_ksm.specs.Candidate.{is_mergeable};

use av_mem::Mem;
use av_pagetable::Pte;

/// The frame of a page that may join another: its area is mergeable, and the frame is neither
/// merged nor cached nor one of a locked page.
pub fn candidate(mem: &Mem, key: (u16, u64)) -> Option<u32>
    requires { HasBetween mem.now }
    ensures { (d : Device) (w : World) (r : Rmap) (l : Ledger) → KeepsBetween d mem.now w r l
        → result ≡ candidate_of w l key }
{
    let Pte::Here { frame, .. } = mem.tables.get(key.0, key.1) else {
        return None;
    };
    if !is_mergeable(mem, key) {
        return None;
    }
    if !may_join(mem, frame) {
        return None;
    }
    Some(frame)
}

/// Whether a page may be merged, by its area.
fn is_mergeable(mem: &Mem, key: (u16, u64)) -> bool
    ensures { result ≡ is_mergeable (pages_of mem.now.spaces.processes key.0 key.1) }
{
    match mem.spaces.area(key.0, key.1) {
        Some(area) => area.flags.mergeable,
        None => false,
    }
}

/// Whether a frame is neither merged nor cached nor one of a locked page.
fn may_join(mem: &Mem, frame: u32) -> bool
    requires between { HasBetween mem.now }
    requires in_range { frame < frame_count mem.now }
    ensures { (d : Device) (w : World) (r : Rmap) (l : Ledger) → KeepsBetween d mem.now w r l
        → result ≡ (not (is_merged l frame) && is_none (slot_of l frame)
        && not (is_locked w l frame)) }
{
    if mem.is_merged(frame) {
        return false;
    }
    if mem.frames.slot(frame).is_some() {
        return false;
    }
    !mem.is_locked(frame)
}
