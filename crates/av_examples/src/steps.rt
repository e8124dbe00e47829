//! Worked examples for steps: what a command leaves, what a fork gives, and which anon_vmas a child
//! may have again.

ghost use Rattle.std.specs.Prelude.{[], ◌∷◌};
ghost use Rattle.av_trace.specs.declared.command.Command.TheVariants.{Fork};
ghost use Rattle.av_trace.specs.declared.reply.Answer.TheVariants.{Refused};
ghost use Rattle.av_trace.specs.declared.reply.Errno.TheVariants.{Eagain, Eexist};
ghost use Rattle.av_plain.specs.Areas.{no_anons};
ghost use Rattle.av_plain.specs.Fork.{IsIdle, IsRmapDone};
ghost use Rattle.av_plain.specs.Ledger.{first_ledger};
ghost use Rattle.av_plain.specs.World.{no_pages};
ghost use Rattle.av_laws.specs.Areas.{area_of, areas_of, family, one_root, rmap_with};
ghost use Rattle.av_laws.specs.Examples.{only_frames};
ghost use Rattle.av_laws.specs.Forks.{siblings};
ghost use Rattle.av_laws.specs.Views.{homes_with, items_with};
ghost use Rattle.av_examples.specs.Steps.{
  IsAnswered,
  LeavesNot,
  ShowsNone,
  left_by_another,
  one_area_there,
  one_lives,
  with_area_alone,
};

/// A process that lives isn't made once more: that is refused with one error, and changes nothing.
/// An answer to `areas` shows the areas that there are, also where their pages aren't seen.
pub fn steps_leave_one_state()
    ensures refused { IsAnswered (Refused Eexist) one_lives }
    ensures other_error { IsAnswered (Refused Eagain) one_lives → ⊥ }
    ensures second_process { LeavesNot
        (record one_lives { world = (1, no_pages) ∷ (2, no_pages) ∷ [] }) }
    ensures frame_listed { LeavesNot
        (record one_lives { ledger = record first_ledger { inactive = 0 ∷ [] } }) }
    ensures frame_taken { LeavesNot (record one_lives { free = only_frames [] }) }
    ensures area_there { LeavesNot (record one_lives { areas = areas_of one_area_there }) }
    ensures number_gone { LeavesNot (record one_lives { anons = record no_anons { next = 1 } }) }
    ensures home_there { LeavesNot (record one_lives { homes = homes_with 0 0x10 }) }
    ensures item_there { LeavesNot (record one_lives { items = items_with 0 0x10 }) }
    ensures area_not_shown { ShowsNone with_area_alone → ⊥ }
{}

/// A process that is forked has the areas of its parent alone, and none that were there before. An
/// anon_vma isn't idle that has two children, is an area's own, or is a root.
pub fn forks_go_by_parents()
    ensures left_area { IsRmapDone left_by_another [] (Fork 1 2) left_by_another → ⊥ }
    ensures two_children { IsIdle (rmap_with [] siblings) 1 → ⊥ }
    ensures own_one { IsIdle (rmap_with (area_of 1 0x10 0x11 ∷ []) family) 1 → ⊥ }
    ensures root { IsIdle (rmap_with [] one_root) 0 → ⊥ }
{}
