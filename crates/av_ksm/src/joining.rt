//! The steps of a merge: a frame is merged, and a page joins it.

ghost use Rattle.std.specs.Prelude.{◌≡◌, ◌-◌, ◌^◌, ◌<◌, ℕ, Bool, None, false, true, [], ◌∷◌};
ghost use Rattle.std.specs.Option.{ForSome};
ghost use Rattle.std.specs.Prelude.{IsSome, OnErr, OnOk};
ghost use Rattle.av_base.specs.Page.{address_of, page_size};
ghost use Rattle.av_base.specs.Words.{is_in};
ghost use Rattle.av_pagetable.specs.Entries.{entry_at, with_entry};
ghost use Rattle.av_pagetable.specs.declared.pte.Pte.TheVariants as Pte;
ghost use Rattle.av_spaces.specs.Kin.{info_of};
ghost use Rattle.av_spaces.specs.Spaces.{pages_of};
ghost use Rattle.av_trace.specs.declared.note.Note.TheVariants.{Joined, Shared};
ghost use Rattle.av_vma.specs.Pages.{home_of};
ghost use Rattle.av_plain.specs.Areas.{Rmap};
ghost use Rattle.av_plain.specs.Device.{Device};
ghost use Rattle.av_plain.specs.Event.{Noted};
ghost use Rattle.av_plain.specs.Ledger.{Ledger, is_merged};
ghost use Rattle.av_plain.specs.World.{World};
ghost use Rattle.av_mem.specs.Between.{HasDone, KeepsBetween};
ghost use Rattle.av_mem.specs.Entries.{NamesFrame};
ghost use Rattle.av_mem.specs.Mem.{frame_count, locks_of, view, HasItems, HasLists};
ghost use Rattle.av_mem.specs.Steps.{KeepsParts};
ghost use Rattle.av_ksm.specs.Join.{HasOwn, view_joined, view_with_item};
ghost use Rattle.av_ksm.specs.Joining.{item_by, HasShared};

use av_mem::Mem;
use av_mem::entries::settle;
use av_pagetable::Pte;
use std::alloc::AllocError;

/// A frame is merged: its home becomes its first item, at the root of that anon_vma, and the entry
/// of the page loses its write bit. Without memory all stays.
pub fn share(mem: &mut Mem, key: (u16, u64), frame: u32) -> Result<(), AllocError>
    requires there { NamesFrame mem.old key frame }
    requires itemed { HasItems mem.old }
    requires in_range { frame < frame_count mem.old }
    requires rooted { ForSome ((view mem.old).homes frame)
        (λ home. IsSome (info_of mem.old.anons home.0)) }
    ensures shared { OnOk result (HasShared mem.old mem.new key frame) }
    ensures none { OnErr result (view mem.new ≡ view mem.old) }
    ensures done { OnOk result ((d : Device) (w : World) (r : Rmap) (l : Ledger) (seen : Bool)
        → KeepsBetween d mem.old w r l → HasOwn l key frame seen
        → HasDone d d mem.old mem.new w r l (Noted (Shared frame) ∷ [])) }
    ensures parts { KeepsParts mem.old mem.new }
{
    let first = mem.frames.home(frame);
    add_item(mem, frame, first)?;
    mem.frames.set_home(frame, None);
    protect(mem, key, frame);
    Ok(())
}

/// A page's entry names a merged frame, unseen, in place of its own, which is free then where that
/// was its last entry; and the merged frame has the page's item. `home` is that of a frame which
/// the page would get. Without memory all stays.
pub fn join(
    mem: &mut Mem,
    key: (u16, u64),
    own: u32,
    frame: u32,
    home: Option<(u64, u64)>,
) -> Result<(), AllocError>
    requires there { NamesFrame mem.old key own }
    requires other { own ≡ frame → ⊥ }
    requires uncached { (view mem.old).slot own ≡ None }
    requires mapped { 0 < (view mem.old).maps own }
    requires in_use { is_in own (view mem.old).free ≡ false }
    requires room { (view mem.old).maps frame < 2 ^ 64 - 1 }
    requires listed { HasLists mem.old }
    requires itemed { HasItems mem.old }
    requires in_range { (own < frame_count mem.old) × (frame < frame_count mem.old) }
    requires rooted { ForSome home (λ home. IsSome (info_of mem.old.anons home.0)) }
    requires unlocked { locks_of mem.old own ≡ 0 }
    ensures joined { OnOk result (view mem.new
        ≡ view_joined key.0 key.1 frame own (item_by mem.old home) (view mem.old)) }
    ensures none { OnErr result (view mem.new ≡ view mem.old) }
    ensures done { OnOk result ((d : Device) (w : World) (r : Rmap) (l : Ledger) (seen : Bool)
        → KeepsBetween d mem.old w r l → HasOwn l key own seen → is_merged l frame ≡ true
        → ((i : ℕ) → i < page_size → (view mem.old).bytes frame i ≡ (view mem.old).bytes own i)
        → home ≡ home_of key.1 (pages_of mem.old.spaces.processes key.0 key.1)
        → HasDone d d mem.old mem.new w r l (Noted (Joined key.0 (address_of key.1) frame) ∷ [])) }
    ensures parts { KeepsParts mem.old mem.new }
{
    add_item(mem, frame, home)?;
    mem.tables.change(key.0, key.1, read_only(frame, false));
    mem.frames.map_down(own);
    mem.frames.map_up(frame);
    settle(mem, own);
    Ok(())
}

/// A frame has one item more: that of a home, if it is one. Without memory all stays.
fn add_item(mem: &mut Mem, frame: u32, home: Option<(u64, u64)>) -> Result<(), AllocError>
    requires itemed { HasItems mem.old }
    requires in_range { frame < frame_count mem.old }
    requires rooted { ForSome home (λ home. IsSome (info_of mem.old.anons home.0)) }
    ensures added { OnOk result (view mem.new
        ≡ view_with_item frame (item_by mem.old home) (view mem.old)) }
    ensures none { OnErr result (view mem.new ≡ view mem.old) }
    ensures rest { mem.new ≡ record mem.old { items = mem.new.items } }
    ensures parts { KeepsParts mem.old mem.new }
{
    if let Some(at) = home {
        let root = mem.anons.info(at.0).root;
        mem.items.add(frame, root, at.1)?;
    }
    Ok(())
}

/// The entry of a page, which names the frame, has no write bit any more.
fn protect(mem: &mut Mem, key: (u16, u64), frame: u32)
    requires there { NamesFrame mem.old key frame }
    ensures entries { (write seen : Bool)
        → entry_at mem.old.tables key.0 key.1 ≡ Pte.Here frame write seen
        → entry_at mem.new.tables
        ≡ with_entry key.0 key.1 (Pte.Here frame false seen) (entry_at mem.old.tables) }
    ensures rest { mem.new ≡ record mem.old { tables = mem.new.tables } }
    ensures parts { KeepsParts mem.old mem.new }
{
    let Pte::Here { seen, .. } = mem.tables.get(key.0, key.1) else {
        unreachable!();
    };
    mem.tables.change(key.0, key.1, read_only(frame, seen));
}

/// The entry of a frame, which asks for a copy at a write.
fn read_only(frame: u32, seen: bool) -> Pte
    ensures { result ≡ Pte.Here frame false seen }
{
    Pte::Here {
        frame,
        write: false,
        seen,
    }
}
