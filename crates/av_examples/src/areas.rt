//! Worked examples for areas: what does not join, in which order pages change, and which area lends
//! its anon_vma.

ghost use Rattle.std.specs.Prelude.{[], ◌∷◌};
ghost use Rattle.av_trace.specs.declared.command.Command.TheVariants.{Mprotect, Munmap};
ghost use Rattle.av_trace.specs.declared.reply.Answer.TheVariants.{Done, MapAt};
ghost use Rattle.av_plain.specs.Areas.{no_anons};
ghost use Rattle.av_laws.specs.Areas.{
  Becomes,
  Prepares,
  area_of,
  behind_root,
  one_root,
  two_roots,
  with_own,
};
ghost use Rattle.av_laws.specs.Examples.{execute_only};
ghost use Rattle.av_laws.specs.Mremap.{side_by_side, zeros_stay};
ghost use Rattle.av_examples.specs.Areas.{
  GoTo,
  bare_between,
  both_in_child,
  first_took_it,
  left_as_one,
  one_locked,
  unlike_mergeable,
  unlike_wiped,
};

/// Areas that adjoin stay apart where a munmap cuts one of them, and in a child.
pub fn areas_stay_apart()
    ensures at_munmap { Becomes side_by_side one_root (Munmap 1 0x12000 4096) Done 0xf
        (area_of 0 0x10 0x11 ∷ area_of 0 0x11 0x12 ∷ []) }
    ensures in_child { GoTo one_locked both_in_child }
{}

/// A protection goes over its pages from the first to the last, and each page joins the area before
/// it. Pages that move and leave zeros leave them unlocked: so those that differed in a lock alone
/// leave one area.
pub fn pages_change_in_turn()
    ensures from_the_first { Becomes bare_between two_roots
        (Mprotect 1 0x10000 12288 execute_only) Done 0xf first_took_it }
    ensures one_area { Becomes one_locked no_anons zeros_stay (MapAt 0x18000) 0xf left_as_one }
{}

/// No area takes the anon_vma of one that differs in a flag.
pub fn areas_with_other_flags_lend_nothing()
    ensures mergeable { Prepares (behind_root unlike_mergeable) one_root
        (behind_root (with_own 1 unlike_mergeable)) two_roots }
    ensures wiped { Prepares (behind_root unlike_wiped) one_root
        (behind_root (with_own 1 unlike_wiped)) two_roots }
{}
