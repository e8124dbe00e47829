//! Worked examples for the words of laws: which commands each is about.

ghost use Rattle.std.specs.Prelude.{◌≡◌, [], ◌∷◌, filter};
ghost use Rattle.av_trace.specs.declared.advice.Advice.TheVariants.{DontNeed};
ghost use Rattle.av_trace.specs.declared.command.Command.TheVariants.{
  Age,
  Areas as AsksAreas,
  Compact,
  Complete,
  Entry as AsksEntry,
  Exit,
  Madvise,
  Maps,
  Merge,
  Mlock,
  Mmap,
  Mprotect,
  Mremap,
  Munlock,
  Munmap,
  Reclaim,
  Rmap as AsksRmap,
  Slot as AsksSlot,
  Spawn,
  Stat,
  Swapoff,
};
ghost use Rattle.av_trace.specs.declared.mode.Mode.TheVariants.{MayMove};
ghost use Rattle.av_trace.specs.declared.place.Place.TheVariants.{Auto};
ghost use Rattle.av_plain.specs.Refusal.{may_end_midway};
ghost use Rattle.av_laws.specs.Events.{is_told, is_without_events};
ghost use Rattle.av_laws.specs.Examples.{read_only, read_write};
ghost use Rattle.av_laws.specs.Locked.{moves_frames, takes_pages_of};
ghost use Rattle.av_examples.specs.Words.{all_commands};

/// Of all commands few may have changed something where they are refused, some have no events or
/// notes alone, some take pages of their process, and one moves frames.
pub fn laws_are_about_some_commands()
    ensures end_midway { filter may_end_midway all_commands
        ≡ Mprotect 1 0x10000 4096 read_only ∷ Madvise 1 0x10000 4096 DontNeed
        ∷ Munlock 1 0x10000 1 ∷ Mlock 1 0x10000 1 ∷ Swapoff 0 ∷ [] }
    ensures have_no_events { filter is_without_events all_commands
        ≡ Spawn 1 ∷ Mprotect 1 0x10000 4096 read_only ∷ Maps 1 ∷ AsksAreas 1 ∷ AsksRmap 1 0x10000
        ∷ AsksEntry 1 0x10000 ∷ AsksSlot 0 1 ∷ Stat ∷ [] }
    ensures have_notes_alone { filter is_told all_commands
        ≡ Reclaim 1 ∷ Age 1 ∷ Merge ∷ Complete 1 ∷ [] }
    ensures take_pages { filter (takes_pages_of 1) all_commands
        ≡ Exit 1 ∷ Mmap 1 4096 read_write Auto ∷ Munmap 1 0x10000 4096
        ∷ Mremap 1 0x10000 4096 8192 MayMove ∷ [] }
    ensures take_none_of_another { filter (takes_pages_of 2) all_commands ≡ [] }
    ensures move_frames { filter moves_frames all_commands ≡ Compact ∷ [] }
{}
