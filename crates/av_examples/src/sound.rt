//! Worked examples for what is true at all times, of ledgers and of anon_vmas.

ghost use Rattle.std.specs.Prelude.{[]};
ghost use Rattle.av_plain.specs.Covered.{IsKin};
ghost use Rattle.av_plain.specs.Sound.{AllSound};
ghost use Rattle.av_laws.specs.Examples.{machine};
ghost use Rattle.av_examples.specs.Sound.{below_its_root, merged_alone, of_one_root};

/// An entry names each merged frame. A chain holds the root of its anon_vma: the parent isn't
/// enough.
pub fn merged_frames_and_chains_are_sound()
    ensures merged_unmapped { AllSound (machine 4) [] merged_alone → ⊥ }
    ensures parent_alone { IsKin of_one_root below_its_root → ⊥ }
{}
