//! A merge: the pages in turn, each by what those before it left.

ghost use Rattle.std.specs.Prelude.{◌≡◌, ◌<◌, ℕ, [], ◌∷◌, IfOk, List, OnOk, map, true};
ghost use Rattle.av_base.specs.Page.{address_of, page_size};
ghost use Rattle.av_spaces.specs.Spaces.{pages_of};
ghost use Rattle.av_trace.specs.declared.note.Note.TheVariants.{Joined};
ghost use Rattle.av_vma.specs.Pages.{home_of};
ghost use Rattle.av_plain.specs.Areas.{Rmap};
ghost use Rattle.av_plain.specs.Device.{Device};
ghost use Rattle.av_plain.specs.Ledger.{Ledger, is_merged};
ghost use Rattle.av_plain.specs.Merge.{merges};
ghost use Rattle.av_plain.specs.World.{World};
ghost use Rattle.av_mem.specs.Between.{HasBetween, KeepsBetween};
ghost use Rattle.av_mem.specs.Mem.{frame_count, locks_of, setting_by, view};
ghost use Rattle.av_mem.specs.Steps.{KeepsParts};
ghost use Rattle.av_ksm.specs.Known.{turn_notes};
ghost use Rattle.av_ksm.specs.Merging.{HasNoted, HasOther, HasTurned, IsAware, IsReady, MayTurn};
ghost use Rattle.av_ksm.specs.Merging.{StandsSo, share_notes};

use crate::candidates::candidate;
use crate::contents::Contents;
use crate::joining::{join, share};
use crate::pages::next_page;
use av_base::PAGE_SIZE;
use av_mem::Mem;
use av_spaces::Spaces;
use av_trace::{Note, Notes};
use av_vma::home;
use std::alloc::{AllocError, Global};

/// Lets pages with equal bytes share one frame, in the order of process and page. A note of each
/// frame that is merged and of each page that joins one is added.
///
/// Where no area is mergeable it costs nothing. Else it costs a step for each frame and each page
/// with an entry, and the reading of the bytes of each candidate's frame once. Without memory part
/// of the pages may have had their turn.
pub fn merge_pages(mem: &mut Mem, alloc: Global, notes: &mut Notes) -> Result<(), AllocError>
    requires { HasBetween mem.old }
    ensures merges { OnOk result ((d : Device) (w : World) (r : Rmap) (l : Ledger)
        → KeepsBetween d mem.old w r l → HasNoted d mem.old mem.new w r l
        (merges (setting_by d mem.old) (view mem.old).bytes w l [] (map (λ e. e.0) l.entries))
        notes.old notes.new) }
    ensures count { frame_count mem.new ≡ frame_count mem.old }
{
    if !mem.spaces.by_number().any_mergeable() {
        return Ok(());
    }
    let mut contents = contents_at_first(mem, alloc)?;
    let mut from = (0, 0);
    while let Some(key) = next_page(mem, from) {
        merge_page(mem, &mut contents, key, notes)?;
        from = (key.0, key.1 + 1);
    }
    Ok(())
}

/// The frames that are merged, the least first.
fn contents_at_first(mem: &Mem, alloc: Global) -> Result<Contents, AllocError>
    requires { HasBetween mem.now }
    ensures { IfOk result (λ c. (d : Device) (w : World) (r : Rmap) (l : Ledger)
        → KeepsBetween d mem.now w r l → IsAware d mem.now l [] c) }
{
    let mut contents = Contents::new(alloc, mem.frames.count())?;
    for frame in 0..mem.frames.count() {
        if mem.is_merged(frame) {
            contents.find_or_add(&mem.frames, frame, None)?;
        }
    }
    Ok(contents)
}

/// A page in its turn: if it is a candidate, it joins a frame that holds the same, or its own is
/// known from now on.
fn merge_page(
    mem: &mut Mem,
    contents: &mut Contents,
    key: (u16, u64),
    notes: &mut Notes,
) -> Result<(), AllocError>
    requires { MayTurn mem.old contents.old }
    ensures turn { OnOk result ((d : Device) (w : World) (r : Rmap) (l : Ledger) (earlier : List ℕ)
        → KeepsBetween d mem.old w r l → IsAware d mem.old l earlier contents.old
        → HasTurned d mem.old mem.new w r l earlier key contents.new notes.old notes.new) }
    ensures bytes { OnOk result ((view mem.new).bytes ≡ (view mem.old).bytes) }
    ensures parts { KeepsParts mem.old mem.new }
{
    let Some(own) = candidate(mem, key) else {
        return Ok(());
    };
    let like = contents.find_or_add(&mem.frames, own, Some(key))?;
    let Some((frame, page)) = like else {
        return Ok(());
    };
    if frame == own {
        return Ok(());
    }
    join_like(mem, key, own, frame, page, notes)
}

/// A page joins a frame that holds the same as its own. That is merged, or the page that has it is
/// given, and it is merged now.
fn join_like(
    mem: &mut Mem,
    key: (u16, u64),
    own: u32,
    frame: u32,
    page: Option<(u16, u64)>,
    notes: &mut Notes,
) -> Result<(), AllocError>
    requires stands { StandsSo mem.old (λ _ l. HasOther l key own frame × IsReady l frame page) }
    requires unlocked { locks_of mem.old own ≡ 0 }
    ensures joins { OnOk result ((d : Device) (w : World) (r : Rmap) (l : Ledger)
        → KeepsBetween d mem.old w r l → HasOther l key own frame → IsReady l frame page
        → ((i : ℕ) → i < page_size → (view mem.old).bytes frame i ≡ (view mem.old).bytes own i)
        → HasNoted d mem.old mem.new w r l (turn_notes l key own frame) notes.old notes.new) }
    ensures bytes { OnOk result ((view mem.new).bytes ≡ (view mem.old).bytes) }
    ensures parts { KeepsParts mem.old mem.new }
{
    make_merged(mem, frame, page, notes)?;
    join_merged(mem, key, own, frame, notes)
}

/// A frame is merged, if it isn't yet: then the page that has it is given.
fn make_merged(
    mem: &mut Mem,
    frame: u32,
    page: Option<(u16, u64)>,
    notes: &mut Notes,
) -> Result<(), AllocError>
    requires { StandsSo mem.old (λ _ l. IsReady l frame page) }
    ensures merged { OnOk result ((d : Device) (w : World) (r : Rmap) (l : Ledger)
        → KeepsBetween d mem.old w r l → IsReady l frame page
        → HasNoted d mem.old mem.new w r l (share_notes l frame) notes.old notes.new) }
    ensures bytes { OnOk result ((view mem.new).bytes ≡ (view mem.old).bytes) }
    ensures parts { KeepsParts mem.old mem.new }
{
    if mem.is_merged(frame) {
        return Ok(());
    }
    let Some(key) = page else {
        unreachable!();
    };
    share(mem, key, frame)?;
    notes.push(Note::Shared(frame))?;
    Ok(())
}

/// A page joins a merged frame that holds the same as its own.
fn join_merged(
    mem: &mut Mem,
    key: (u16, u64),
    own: u32,
    frame: u32,
    notes: &mut Notes,
) -> Result<(), AllocError>
    requires stands { StandsSo mem.old (λ _ l. HasOther l key own frame
        × (is_merged l frame ≡ true)) }
    requires unlocked { locks_of mem.old own ≡ 0 }
    ensures joins { OnOk result ((d : Device) (w : World) (r : Rmap) (l : Ledger)
        → KeepsBetween d mem.old w r l → HasOther l key own frame → is_merged l frame ≡ true
        → ((i : ℕ) → i < page_size → (view mem.old).bytes frame i ≡ (view mem.old).bytes own i)
        → HasNoted d mem.old mem.new w r l (Joined key.0 (address_of key.1) frame ∷ [])
        notes.old notes.new) }
    ensures bytes { OnOk result ((view mem.new).bytes ≡ (view mem.old).bytes) }
    ensures parts { KeepsParts mem.old mem.new }
{
    mem.spaces.keeps_laid();
    let home = home_at(&mem.spaces, key);
    join(mem, key, own, frame, home)?;
    notes.push(Note::Joined {
        process: key.0,
        address: PAGE_SIZE * key.1,
        frame,
    })?;
    Ok(())
}

/// The home that a frame would have from a page.
fn home_at(spaces: &Spaces, key: (u16, u64)) -> Option<(u64, u64)>
    ensures { result ≡ home_of key.1 (pages_of spaces.now.processes key.0 key.1) }
{
    let area = spaces.area(key.0, key.1)?;
    home(&area, key.1)
}
