//! The memory system with its device, in single steps.

ghost use Rattle.std.specs.Prelude.{◌≡◌, ◌&&◌, ◌<◌, ◌∷◌, [], nat_lt};
ghost use Rattle.std.specs.List.{range_with_len};
ghost use Rattle.av_base.specs.Words.{how_many};
ghost use Rattle.av_rmap.specs.Items.{is_merged};
ghost use Rattle.av_plain.specs.Device.{as_told, seen_by};
ghost use Rattle.av_mem.specs.Mem.{HasItems, frame_count, locks_of, view};
ghost use Rattle.av_mem.proofs.LockedLaws.{locked-told as locked_so};
ghost use Rattle.av_reclaim.specs.Driver.{end_of, view_of};

use av_base::Slot;
use av_evict::{System, WriteEnd};
use av_lru::Which;
use av_mem::Mem;
use av_mem::entries::is_orphan;
use av_swapcache::Finished;
use av_swapdev::SwapDev;
use av_trace::Cause;
use std::alloc::AllocError;

/// The memory system with its device, both lent.
#[derive(Drop)]
pub struct Driver<'a, D: SwapDev> {
    pub mem: &'a mut Mem,
    pub dev: &'a mut D,
}

impl<'a, D: SwapDev> System for Driver<'a, D> {
    ghost view = { λ s told. view_of (s.mem.ghost_name ∷ s.dev.ghost_name ∷ []) (as_told told
        (seen_by D.sizes D.pages D.failures D.history s.dev.now)) s.mem.now };

    ghost locks = { λ s told l sound stood w r claims i f.
        locked_so (locks_of s.mem.now) w l f claims.locks i };

    fn frames(&self) -> u32 {
        self.mem.frames.count()
    }

    fn free_frame(&self) -> Option<u32> {
        self.mem.frames.first()
    }

    fn slot(&self, frame: u32) -> Option<Slot> {
        self.mem.frames.slot(frame)
    }

    fn cached_len(&self) -> u32 {
        self.mem.frames.cached_len()
    }

    fn has_slot(&self) -> bool {
        self.mem.swap.has_slot()
    }

    fn is_locked(&self, frame: u32) -> bool {
        self.mem.is_locked(frame)
    }

    fn locked_len(&self) -> u32 {
        self.mem.frames.locked_len()
    }

    fn locked_cached_len(&self) -> u32 {
        self.mem.frames.locked_cached_len()
    }

    fn locked_merged_len(&self) -> u32 {
        locked_merged_len(&*self.mem)
    }

    fn is_merged(&self, frame: u32) -> bool {
        self.mem.is_merged(frame)
    }

    fn merged_len(&self) -> u32 {
        self.mem.items.merged_len()
    }

    fn is_mapped(&self, frame: u32) -> bool {
        self.mem.frames.maps(frame) > 0
    }

    fn is_dirty(&self, frame: u32) -> bool {
        self.mem.frames.dirty(frame)
    }

    fn is_in_flight(&self, slot: Slot) -> bool {
        self.mem.swap.in_flight(slot)
    }

    fn is_orphan(&self, frame: u32, slot: Slot) -> bool {
        is_orphan(&*self.mem, frame, slot)
    }

    fn inactive_len(&self) -> u32 {
        self.mem.lists.len(Which::Inactive)
    }

    fn last_inactive(&self) -> Option<u32> {
        self.mem.lists.tail(Which::Inactive)
    }

    fn active_len(&self) -> u32 {
        self.mem.lists.len(Which::Active)
    }

    fn last_active(&self) -> Option<u32> {
        self.mem.lists.tail(Which::Active)
    }

    fn is_inactive(&self, frame: u32) -> bool {
        match self.mem.lists.place(frame) {
            Some(Which::Inactive) => true,
            Some(Which::Active) | None => false,
        }
    }

    fn before(&self, frame: u32) -> Option<u32> {
        self.mem.lists.before(frame)
    }

    fn flight_len(&self) -> u32 {
        self.mem.swap.flight()
    }

    fn put(&mut self, frame: u32) -> Option<Slot> {
        self.mem.put(frame)
    }

    fn unmap(&mut self, frame: u32, slot: Slot) -> Result<(), AllocError> {
        self.mem.unmap(frame, slot)
    }

    fn start(&mut self, frame: u32, slot: Slot) {
        self.mem.start(frame, slot);
    }

    fn finish(&mut self) -> Option<WriteEnd> {
        let finished = self.mem.finish(&mut *self.dev)?;
        Some(end_of(finished))
    }

    fn drop_slot(&mut self, frame: u32, slot: Slot) {
        self.mem.drop_slot(frame, slot);
    }

    fn keep_referenced(&mut self, frame: u32) -> bool {
        let seen = self.mem.unsee(frame);
        if seen {
            self.mem.to_active(frame);
        }
        seen
    }

    fn keep(&mut self, frame: u32, cause: Cause) {
        match cause {
            Cause::Writeback | Cause::WriteStarted => self.mem.to_head(frame),
            Cause::NoSlot | Cause::Locked | Cause::Ksm => self.mem.to_active(frame),
            Cause::Referenced => unreachable!(),
        }
    }

    fn age(&mut self, frame: u32) {
        self.mem.unsee(frame);
        self.mem.to_head(frame);
    }
}

/// How many frames with a locked page are merged. Where no frame has one, or none is merged, it
/// looks at none.
fn locked_merged_len(mem: &Mem) -> u32
    requires { HasItems mem.now }
    ensures { result ≡ how_many
        (λ f. nat_lt 0 (locks_of mem.now f) && is_merged ((view mem.now).items f))
        (range_with_len 0 (frame_count mem.now)) }
{
    if mem.frames.locked_len() == 0 || mem.items.merged_len() == 0 {
        return 0;
    }
    let mut len = 0;
    for frame in 0..mem.frames.count() {
        len += u32::from(is_locked_merged(mem, frame));
    }
    len
}

/// Whether a frame has a locked page and is merged.
fn is_locked_merged(mem: &Mem, frame: u32) -> bool
    requires itemed { HasItems mem.now }
    requires in_range { frame < frame_count mem.now }
    ensures { result ≡ nat_lt 0 (locks_of mem.now frame)
        && is_merged ((view mem.now).items frame) }
{
    mem.is_locked(frame) && mem.is_merged(frame)
}

/// How the write of a slot ended.
fn end_of(finished: Finished) -> WriteEnd
    ensures { result ≡ end_of finished }
{
    match finished {
        Finished::Done { slot, frame } => WriteEnd {
            frame,
            slot,
            failed: false,
        },
        Finished::Failed { slot, frame } => WriteEnd {
            frame,
            slot,
            failed: true,
        },
    }
}
