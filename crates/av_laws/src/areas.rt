//! Worked examples for areas and anon_vmas: what mapping, unmapping and protecting leaves on the
//! pages of a process, which anon_vmas are left, and which one an area gets.

ghost use Rattle.std.specs.Prelude.{[], ◌∷◌, Some, None};
ghost use Rattle.av_trace.specs.declared.command.Command.TheVariants.{
  Exit,
  Mmap,
  Mprotect,
  Munmap,
};
ghost use Rattle.av_trace.specs.declared.note.Note.TheVariants.{Zeroed};
ghost use Rattle.av_trace.specs.declared.place.Place.TheVariants.{Fixed};
ghost use Rattle.av_trace.specs.declared.reply.Answer.TheVariants.{Done, MapAt, Refused};
ghost use Rattle.av_trace.specs.declared.reply.Errno.TheVariants.{Enomem};
ghost use Rattle.av_plain.specs.Areas.{AreLeft, no_anons, root_anon};
ghost use Rattle.av_plain.specs.Report.{AreRowsOf};
ghost use Rattle.av_laws.specs.Areas.{
  Becomes,
  NotePrepares,
  Prepares,
  PreparesSecond,
  alike,
  and_at,
  anons_of,
  area,
  area_of,
  areas_of,
  behind_child,
  behind_root,
  between_roots,
  family,
  first_gone,
  four,
  four_areas,
  four_rows,
  around_hole,
  middle_protected,
  moved_of,
  of_both,
  of_second,
  one_root,
  root,
  two_roots,
  unlike,
  with_own,
};
ghost use Rattle.av_laws.specs.Examples.{read_only, read_write};
ghost use Rattle.av_laws.specs.Flags.{left_out, locked};

/// A change inside an area splits it, and its parts join where it is undone; a hole leaves two
/// parts, whose offsets run on. A mapping joins its neighbours, and one at a fixed place takes away
/// what stands there; a change that meets a hole changes what is before it. Each part of an area
/// has its anon_vma still. Two areas join whose chain has one node, and not where it has two, or
/// where they have two anon_vmas.
pub fn areas_follow()
    ensures protected_inside { Becomes four no_anons (Mprotect 1 0x11000 8192 read_only) Done 0xf
        middle_protected }
    ensures joined_again { Becomes middle_protected no_anons (Mprotect 1 0x11000 8192 read_write)
        Done 0xf four }
    ensures hole { Becomes four no_anons (Munmap 1 0x11000 4096) Done 0xf around_hole }
    ensures between { Becomes around_hole no_anons (Mmap 1 4096 read_write (Fixed 0x11000))
        (MapAt 0x11000) 0xf four }
    ensures joined_above { Becomes four no_anons (Mmap 1 8192 read_write (Fixed 0x14000))
        (MapAt 0x14000) 0xf
        (area 0x10 0x16 read_write ∷ []) }
    ensures kept_apart { Becomes four no_anons (Mmap 1 8192 read_only (Fixed 0x14000))
        (MapAt 0x14000) 0xf
        (area 0x10 0x14 read_write ∷ area 0x14 0x16 read_only ∷ []) }
    ensures joined_below { Becomes (area 0x12 0x14 read_write ∷ []) no_anons
        (Mmap 1 8192 read_write (Fixed 0x10000)) (MapAt 0x10000) 0xf four }
    ensures fixed_over { Becomes four no_anons (Mmap 1 4096 read_only (Fixed 0x11000))
        (MapAt 0x11000) 0xf
        (area 0x10 0x11 read_write ∷ area 0x11 0x12 read_only ∷ area 0x12 0x14 read_write ∷ []) }
    ensures up_to_hole { Becomes around_hole no_anons (Mprotect 1 0x10000 16384 read_only)
        (Refused Enomem) 0xf
        (area 0x10 0x11 read_only ∷ area 0x12 0x14 read_write ∷ []) }
    ensures wrapped { Becomes around_hole no_anons
        (Mprotect 1 0x10000 18446744073709547520 read_only) (Refused Enomem) 0xf around_hole }
    ensures after_exit { Becomes four no_anons (Exit 1) Done 0xf [] }
    ensures unmapped_inside { Becomes (moved_of 1 0x10 0x14 0x20 ∷ []) family
        (Munmap 1 0x11000 4096) Done 0xf
        (moved_of 1 0x10 0x11 0x20 ∷ moved_of 1 0x12 0x14 0x22 ∷ []) }
    ensures changed_inside { Becomes (moved_of 1 0x10 0x14 0x20 ∷ []) family
        (Mprotect 1 0x11000 4096 read_only) Done 0xf
        (moved_of 1 0x10 0x11 0x20 ∷ record (moved_of 1 0x11 0x12 0x21) { prot = read_only }
        ∷ moved_of 1 0x12 0x14 0x22 ∷ []) }
    ensures joined_to_root { Becomes of_both family (Mmap 1 4096 read_write (Fixed 0x12000))
        (MapAt 0x12000) 0xf
        (area_of 0 0x10 0x13 ∷ area_of 1 0x14 0x16 ∷ []) }
    ensures apart_from_child { Becomes of_both family (Mmap 1 4096 read_write (Fixed 0x16000))
        (MapAt 0x16000) 0xf
        (area_of 0 0x10 0x12 ∷ area_of 1 0x14 0x16 ∷ area 0x16 0x17 read_write ∷ []) }
    ensures joined_with_one { Becomes (behind_root (with_own 0 unlike)) one_root
        (Mprotect 1 0x12000 8192 read_write) Done 0xf
        (area_of 0 0x10 0x14 ∷ []) }
    ensures apart_with_two { Becomes (behind_root (with_own 1 unlike)) two_roots
        (Mprotect 1 0x12000 8192 read_write) Done 0xf
        (behind_root (area_of 1 0x12 0x14)) }
{}

/// An anon_vma goes with the last area that is linked to it, and one that an area's chain still has
/// stays.
pub fn anon_vmas_are_left()
    ensures child_goes { AreLeft family (areas_of (area_of 0 0x10 0x12 ∷ []))
        (anons_of (Some root) None 2) }
    ensures both_stay { AreLeft family (areas_of (area_of 1 0x14 0x16 ∷ [])) family }
{}

/// An area gets an anon_vma where one of its pages gets its first frame: number 0, a root that is
/// alone in its chain, for the whole area and once; the next number, though an earlier one is gone.
/// It takes one that a neighbour has whose chain has one node, where flags are equal and offsets
/// run on: of the area after it before the one before it, and never of another process's. A page
/// that is only read gets none. An area that gets one isn't joined then.
pub fn first_frames_prepare()
    ensures first_write { Prepares four no_anons (area_of 0 0x10 0x14 ∷ []) one_root }
    ensures second_write { Prepares (area_of 0 0x10 0x14 ∷ []) one_root
        (area_of 0 0x10 0x14 ∷ []) one_root }
    ensures next_number { Prepares four first_gone
        (area_of 1 0x10 0x14 ∷ []) (and_at 1 (root_anon 1) 2 first_gone) }
    ensures taken_behind { Prepares (behind_root unlike) one_root
        (behind_root (with_own 0 unlike)) one_root }
    ensures after_first { Prepares (between_roots unlike) two_roots
        (between_roots (with_own 1 unlike)) two_roots }
    ensures not_from_child { Prepares (behind_child unlike) family
        (behind_child (with_own 2 unlike)) (and_at 2 (root_anon 2) 3 family) }
    ensures other_offset { Prepares (behind_root (record unlike { pgoff = 0x20 })) one_root
        (behind_root (with_own 1 (record unlike { pgoff = 0x20 }))) two_roots }
    ensures other_flags { Prepares (behind_root (record unlike { flags = left_out })) one_root
        (behind_root (with_own 1 (record unlike { flags = left_out }))) two_roots }
    ensures other_lock { Prepares (behind_root (record unlike { flags = locked })) one_root
        (behind_root (with_own 1 (record unlike { flags = locked }))) two_roots }
    ensures not_joined { Prepares (behind_root alike) one_root
        (behind_root (with_own 0 alike)) one_root }
    ensures by_a_read { NotePrepares (Zeroed 1 0x12000) four no_anons four no_anons }
    ensures in_one_process { PreparesSecond unlike (with_own 1 of_second) two_roots }
{}

/// `areas` shows each area once, rising, with its pages and protection, its offset, its own
/// anon_vma and the chain of that.
pub fn areas_are_shown()
    ensures { AreRowsOf family (areas_of four_areas 1) four_rows }
{}
