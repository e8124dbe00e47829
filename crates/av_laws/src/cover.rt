//! In a run each entry is reached from its frame's home, and areas cover exactly the mapped pages.

ghost use Rattle.std.specs.Prelude.{◌≡◌, ℕ, ◌+◌, ◌<◌, ◌≤◌, length, List, Some};
ghost use Rattle.av_base.specs.Limits.{top_page, most_commands, most_indices};
ghost use Rattle.av_trace.specs.declared.command.Command.{Command};
ghost use Rattle.av_trace.specs.declared.reply.Reply.{Reply};
ghost use Rattle.av_plain.specs.Ledger.{Setting};
ghost use Rattle.av_vma.specs.Index.{index_of, past_of};
ghost use Rattle.av_vma.specs.declared.area.Area.{Area};
ghost use Rattle.av_plain.specs.Transcript.{Exchange, State, IsStep, IsRun, at_first, rmap_of};
ghost use Rattle.av_plain.specs.Sound.{AllSound};
ghost use Rattle.av_plain.specs.Covered.{AreMergedCovered, AreSlotsCovered, IsRmapSound};
ghost use Rattle.av_laws.specs.Covered.{CoverBelow, CoverPages};

/// In a run of at most 2^24 commands each entry that names a frame is reached from the frame's
/// home, through a chain alone. The pages whose entries name one slot have one root and one linear
/// index, and where the slot is cached they are reached, too: so the frame that takes its page has
/// a home that reaches them all. Each page of a merged frame has one of the frame's items. So it is
/// after each command that finds it so in a sound state whose areas cover its pages.
pub fn runs_cover_entries()
    ensures from_nothing { (m : Setting) (exchanges : List Exchange) (new : State)
        → length exchanges ≤ most_commands → IsRun m (at_first m) exchanges new
        → IsRmapSound new.ledger (rmap_of new) × AreSlotsCovered new.ledger (rmap_of new)
        × AreMergedCovered new.ledger (rmap_of new) }
    ensures each_step { (m : Setting) (most : ℕ) (old new : State) (command : Command)
        (reply : Reply) → top_page ≤ most → most + top_page ≤ most_indices
        → CoverBelow most old.world old.areas → AllSound m old.world old.ledger
        → IsRmapSound old.ledger (rmap_of old) → AreSlotsCovered old.ledger (rmap_of old)
        → AreMergedCovered old.ledger (rmap_of old) → IsStep m old command reply new
        → IsRmapSound new.ledger (rmap_of new) × AreSlotsCovered new.ledger (rmap_of new)
        × AreMergedCovered new.ledger (rmap_of new) }
{}

/// In a run of at most 2^24 commands the areas of each process cover exactly its pages, with their
/// protection, and each area is whole and on all of its pages. So it is after each command that
/// finds it so, however long the chains of anon_vmas are, while linear indices stay small: a
/// command raises them by no more than the pages that a process may have. So after such a run an
/// area may grow by as many pages, and its indices are still below 2^60.
pub fn runs_lay_areas()
    ensures from_nothing { (m : Setting) (exchanges : List Exchange) (new : State)
        → length exchanges ≤ most_commands → IsRun m (at_first m) exchanges new
        → CoverPages new.world new.areas }
    ensures each_step { (m : Setting) (most : ℕ) (old new : State) (command : Command)
        (reply : Reply) → top_page ≤ most → most + top_page ≤ most_indices
        → CoverBelow most old.world old.areas → IsStep m old command reply new
        → CoverBelow (most + top_page) new.world new.areas }
    ensures growth_fits { (m : Setting) (exchanges : List Exchange) (new : State) (p page n : ℕ)
        (area : Area) → length exchanges ≤ most_commands → IsRun m (at_first m) exchanges new
        → new.areas p page ≡ Some area → n ≤ top_page
        → index_of area (past_of area) + n < most_indices }
{}
