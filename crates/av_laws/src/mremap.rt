//! Worked examples for `mremap`: the areas, the entries and the memory that it leaves, where the
//! pages go, and when it is refused.

ghost use Rattle.std.specs.Prelude.{[], ◌∷◌, map, None, Some};
ghost use Rattle.av_trace.specs.declared.command.Command.TheVariants.{Mremap};
ghost use Rattle.av_trace.specs.declared.mode.Mode.TheVariants.{
  DontUnmap,
  Fixed as FixedAt,
  MayMove,
  Plain,
};
ghost use Rattle.av_trace.specs.declared.reply.Answer.TheVariants.{MapAt, Refused};
ghost use Rattle.av_trace.specs.declared.reply.Errno.TheVariants.{Enomem};
ghost use Rattle.av_vma.specs.Gap.{IsGap};
ghost use Rattle.av_plain.specs.Areas.{no_anons};
ghost use Rattle.av_plain.specs.Event.{EntriesMoved, Zapped};
ghost use Rattle.av_plain.specs.Ledger.{first_ledger};
ghost use Rattle.av_plain.specs.World.{is_mapped};
ghost use Rattle.av_laws.specs.Areas.{
  Becomes,
  area,
  area_of,
  family,
  four,
  moved_of,
  one_root,
  process_with,
  two_roots,
  world_of,
};
ghost use Rattle.av_laws.specs.Examples.{
  AreRefused,
  ComesBy,
  LeavesBytes,
  LeavesProts,
  machine,
  read_only,
  read_write,
  reply_with,
};
ghost use Rattle.av_laws.specs.Flags.{flagged, left_out, locked};
ghost use Rattle.av_laws.specs.Mremap.{
  all_move,
  all_pages,
  all_sevens,
  grows_by_two,
  last,
  last_but_one,
  out_of_place,
  remap,
  remap_refusals,
  root_four,
  side_by_side,
  three_kinds,
  three_pages,
  two_move,
  two_flags,
  two_of_each,
  fresh_state,
  with_frames,
  with_hole,
  zeros_stay,
};

/// Pages that move take their areas, split to them. An area with an anon_vma keeps its offset,
/// another has that of its new place. What stands at the target goes, and so do the pages past the
/// new length. Each boundary is tried, by rising address, and a joined area with what is behind it,
/// too. Pages that are left as zeros get one area of their own, with their protection, which is
/// joined once those that moved are; or one for each longest run with the same flags, not locked.
pub fn areas_move()
    ensures to_another_place { Becomes root_four one_root all_move (MapAt 0x18000) 0xf
        (moved_of 0 0x18 0x1c 0x10 ∷ []) }
    ensures bare_moves { Becomes four no_anons all_move (MapAt 0x18000) 0xf
        (area 0x18 0x1c read_write ∷ []) }
    ensures two_areas { Becomes two_of_each two_roots all_move (MapAt 0x18000) 0xf
        (moved_of 0 0x18 0x1a 0x10 ∷ moved_of 1 0x1a 0x1c 0x12 ∷ []) }
    ensures tail_goes { Becomes root_four one_root two_move (MapAt 0x18000) 0xf
        (moved_of 0 0x18 0x1a 0x10 ∷ []) }
    ensures part_moves { Becomes root_four one_root (Mremap 1 0x11000 8192 12288 (FixedAt 0x18000))
        (MapAt 0x18000) 0xf
        (area_of 0 0x10 0x11 ∷ area_of 0 0x13 0x14 ∷ moved_of 0 0x18 0x1b 0x11 ∷ []) }
    ensures over_another { Becomes (area_of 0 0x10 0x14 ∷ area 0x18 0x1a read_only ∷ []) one_root
        all_move (MapAt 0x18000) 0xf
        (moved_of 0 0x18 0x1c 0x10 ∷ []) }
    ensures behind_itself { Becomes four no_anons (Mremap 1 0x12000 8192 8192 (FixedAt 0x14000))
        (MapAt 0x14000) 0xf
        (area 0x10 0x12 read_write ∷ area 0x14 0x16 read_write ∷ []) }
    ensures joins_inside { Becomes out_of_place two_roots
        (Mremap 1 0x10000 8192 8192 (FixedAt 0x18000)) (MapAt 0x18000) 0xf
        (area_of 0 0x18 0x1a ∷ area_of 1 0x1a 0x1b ∷ []) }
    ensures joins_behind { Becomes (area 0x10 0x14 read_write ∷ area 0x1c 0x1d read_write ∷ [])
        no_anons all_move (MapAt 0x18000) 0xf
        (area 0x18 0x1d read_write ∷ []) }
    ensures old_range_stays { Becomes root_four one_root zeros_stay (MapAt 0x18000) 0xf
        (area 0x10 0x14 read_write ∷ moved_of 0 0x18 0x1c 0x10 ∷ []) }
    ensures two_leave_one { Becomes two_of_each two_roots zeros_stay (MapAt 0x18000) 0xf
        (area 0x10 0x14 read_write ∷ moved_of 0 0x18 0x1a 0x10 ∷ moved_of 1 0x1a 0x1c 0x12 ∷ []) }
    ensures two_leave_two { Becomes two_flags one_root zeros_stay (MapAt 0x18000) 0xf
        (flagged 0x10 0x12 left_out ∷ area 0x12 0x14 read_write
        ∷ record (moved_of 0 0x18 0x1a 0x10) { flags = left_out }
        ∷ record (moved_of 0 0x1a 0x1c 0x12) { flags = locked } ∷ []) }
    ensures joined_after { Becomes three_kinds two_roots
        (Mremap 1 0x11000 4096 4096 (DontUnmap (Some 0x13000))) (MapAt 0x13000) 0xf
        (area_of 0 0x10 0x12 ∷ area_of 1 0x12 0x14 ∷ []) }
{}

/// In place a grown area is joined with the one before and the one behind, unless a chain is too
/// long; an area that shrinks or stays isn't.
pub fn areas_grow()
    ensures grows_and_joins { Becomes (with_hole (area_of 0 0x10 0x12)) one_root grows_by_two
        (MapAt 0x10000) 0xf
        (area_of 0 0x10 0x16 ∷ []) }
    ensures long_chain { Becomes (with_hole (area_of 1 0x10 0x12)) family grows_by_two
        (MapAt 0x10000) 0xf
        (area_of 1 0x10 0x14 ∷ area 0x14 0x16 read_write ∷ []) }
    ensures joins_before { Becomes side_by_side one_root (Mremap 1 0x11000 8192 12288 Plain)
        (MapAt 0x11000) 0xf
        (area_of 0 0x10 0x14 ∷ []) }
    ensures shrinks_apart { Becomes side_by_side one_root (Mremap 1 0x11000 8192 4096 Plain)
        (MapAt 0x11000) 0xf
        (area_of 0 0x10 0x11 ∷ area_of 0 0x11 0x12 ∷ []) }
    ensures stays_apart { Becomes side_by_side one_root (Mremap 1 0x11000 8192 8192 Plain)
        (MapAt 0x11000) 0xf side_by_side }
{}

/// The bytes move with their pages. Pages that are new are zeros, and so are those that are left,
/// with their protection. The entries of the target go first, then those past the new length.
pub fn memories_move()
    ensures bytes_move { LeavesBytes all_sevens all_move (MapAt 0x18000) 1 0x18000 (Some 7 ∷ []) }
    ensures none_stays { LeavesBytes all_sevens all_move (MapAt 0x18000) 1 0x10000 (None ∷ []) }
    ensures zeros_stay { LeavesBytes all_sevens zeros_stay (MapAt 0x18000) 1 0x10000
        (Some 0 ∷ []) }
    ensures denied_still { LeavesProts (world_of (area 0x10 0x14 read_only ∷ [])) zeros_stay
        (MapAt 0x18000) 1 0x10
        (Some read_only ∷ []) }
    ensures grown_by_zeros { LeavesBytes all_sevens (Mremap 1 0x10000 4096 8192 (FixedAt 0x18000))
        (MapAt 0x18000) 1 0x18fff
        (Some 7 ∷ Some 0 ∷ []) }
    ensures target_before_tail { ComesBy (machine 4) with_frames two_move
        (reply_with (MapAt 0x18000) [])
        (Zapped (1, 0x18) ∷ Zapped (1, 0x13) ∷ EntriesMoved 1 2 0x10 0x18 ∷ []) }
    ensures tail_goes_here { ComesBy (machine 4) with_frames (Mremap 1 0x10000 16384 8192 Plain)
        (reply_with (MapAt 0x10000) [])
        (Zapped (1, 0x13) ∷ []) }
{}

/// Where pages go that no address is named for: they stay where they don't grow, or grow over free
/// pages; else they go to the greatest free place, if they may, which is sought while they are
/// still where they were.
pub fn pages_stay_or_find_a_place()
    ensures grows_here { ComesBy (machine 4) (fresh_state root_four)
        (Mremap 1 0x10000 16384 24576 Plain)
        (reply_with (MapAt 0x10000) []) [] }
    ensures up_to_top { ComesBy (machine 4) (fresh_state last_but_one)
        (Mremap 1 0x7fffffffd000 4096 8192 Plain)
        (reply_with (MapAt 0x7fffffffd000) []) [] }
    ensures no_room { ComesBy (machine 4) (fresh_state three_pages)
        (Mremap 1 0x10000 4096 12288 Plain)
        (reply_with (Refused Enomem) []) [] }
    ensures past_the_top { ComesBy (machine 4) (fresh_state last_but_one)
        (Mremap 1 0x7fffffffd000 4096 8193 Plain)
        (reply_with (Refused Enomem) []) [] }
    ensures stays_here { ComesBy (machine 4) (fresh_state root_four)
        (Mremap 1 0x10000 16384 20480 MayMove)
        (reply_with (MapAt 0x10000) []) [] }
    ensures next_to_top { ComesBy (machine 4) (fresh_state last)
        (Mremap 1 0x7fffffffe000 4096 4096 (DontUnmap None))
        (reply_with (MapAt 0x7fffffffd000) [])
        (EntriesMoved 1 1 0x7fffffffe 0x7fffffffd ∷ []) }
    ensures below_itself { ComesBy (machine 4) (fresh_state last)
        (Mremap 1 0x7fffffffe000 4096 8192 MayMove)
        (reply_with (MapAt 0x7fffffffc000) [])
        (EntriesMoved 1 1 0x7fffffffe 0x7fffffffc ∷ []) }
    ensures no_gap { IsGap (is_mapped (process_with all_pages)) 1 None }
{}

/// An mremap is refused by seven tests in one order: the process, the address and the lengths, the
/// address that is named, the pages that have to be mapped, a tail past the top, an address that is
/// too low, and room. What is just on the other side of a test may be.
pub fn mremaps_are_refused()
    ensures { AreRefused (machine 4) (world_of three_pages) first_ledger
        (map remap remap_refusals) }
{}
