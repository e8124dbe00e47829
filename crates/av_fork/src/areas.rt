//! How the areas of a process go over to a child.

ghost use Rattle.std.specs.Prelude.{◌≡◌, None, OnOk, is_some, true};
ghost use Rattle.av_fork.specs.Areas.{HasFork};
ghost use Rattle.av_plain.specs.Device.{Device};
ghost use Rattle.av_plain.specs.Transcript.{State};
ghost use Rattle.av_mem.specs.Mem.{IsSteady, Keeps};
ghost use Rattle.av_spaces.specs.Spaces.{areas_of};

use av_mem::Mem;
use std::alloc::AllocError;

/// Lets a child live, with each area of its parent that isn't left out. None of the child's is
/// locked. Where the parent's has an anon_vma and isn't wiped, the child's has the chain of it with
/// one of its own: a member that no area has as its own any more, else a new one. Without memory
/// nothing is promised of areas and anon_vmas.
pub fn fork_areas(mem: &mut Mem, parent: u16, child: u16) -> Result<(), AllocError>
    requires steady { IsSteady mem.old }
    requires lives { is_some (areas_of mem.old.spaces.processes parent) ≡ true }
    requires dead { areas_of mem.old.spaces.processes child ≡ None }
    ensures forks { (d : Device) (s : State) → Keeps d mem.old s →
        OnOk result (HasFork mem.old mem.new parent child s) }
    ensures rest { mem.new
        ≡ record mem.old { spaces = mem.new.spaces; anons = mem.new.anons } }
{
    mem.spaces.fork(&mut mem.anons, parent, child)
}
