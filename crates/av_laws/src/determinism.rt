//! What leaves no choice: the reply to a command, a run, and the answers of reports; and which
//! transcripts tell of no failure.

ghost use Rattle.std.specs.Prelude.{◌≡◌, ℕ, List};
ghost use Rattle.std.specs.List.{AllByRecursion};
ghost use Rattle.av_trace.specs.declared.command.Command.{Command};
ghost use Rattle.av_trace.specs.declared.reply.Reply.{Reply};
ghost use Rattle.av_trace.specs.declared.row.Row.{Row};
ghost use Rattle.av_plain.specs.World.{Process};
ghost use Rattle.av_plain.specs.Ledger.{Setting};
ghost use Rattle.av_plain.specs.Areas.{Anons};
ghost use Rattle.av_plain.specs.Report.{AreMaps, AreRowsOf};
ghost use Rattle.av_vma.specs.Pages.{Pages};
ghost use Rattle.av_plain.specs.Sound.{AllSound};
ghost use Rattle.av_plain.specs.Step.{causes};
ghost use Rattle.av_plain.specs.Transcript.{Exchange, State, IsStep, IsRun, at_first, causes_of};
ghost use Rattle.av_io.specs.Count.{Rose, RoseBy};
ghost use Rattle.av_command_laws.specs.Claimed.{IsClaimed};
ghost use Rattle.av_laws.specs.Determined.{Tells, ShowsNoFailure, ShowNoFailures};
ghost use Rattle.av_laws.specs.Determined.{SameCommands};

/// Where memories and ledger are sound, the devices tell their pages, each byte of the memories is
/// claimed and no failure of a device shows, a command has one reply, and leaves one state, with
/// its areas, anon_vmas, free frames and slots: nothing is left to the kernel's choice.
pub fn replies_are_determined()
    ensures { (m : Setting) (old new other : State) (command : Command) (reply reply' : Reply)
        → Tells m → IsClaimed old.world → AllSound m old.world old.ledger
        → ShowsNoFailure reply → ShowsNoFailure reply'
        → IsStep m old command reply new → IsStep m old command reply' other
        → (reply ≡ reply') × (new ≡ other) }
{}

/// So there is one run of some commands, from nothing on.
pub fn runs_are_determined()
    ensures { (m : Setting) (exchanges exchanges' : List Exchange) (new other : State)
        → Tells m → SameCommands exchanges exchanges'
        → ShowNoFailures exchanges → ShowNoFailures exchanges'
        → IsRun m (at_first m) exchanges new → IsRun m (at_first m) exchanges' other
        → (exchanges ≡ exchanges') × (new ≡ other) }
{}

/// Where what only failures explain in a transcript is within what a count rose by, and the count
/// did not rise, no failure shows in any reply: so the transcript is determined by its commands.
pub fn failures_are_within()
    ensures none { (exchanges : List Exchange) (before now : ℕ)
        → RoseBy (causes_of exchanges) before now → (Rose before now → ⊥)
        → AllByRecursion (λ (e : Exchange). causes e.reply ≡ 0) exchanges }
    ensures faultless { (exchanges : List Exchange) (before now : ℕ)
        → RoseBy (causes_of exchanges) before now → (Rose before now → ⊥)
        → ShowNoFailures exchanges }
{}

/// The longest runs of a process's pages are one list: `maps` has one answer.
pub fn maps_has_one_answer()
    ensures { (q : Process) (rows others : List Row) → AreMaps q rows → AreMaps q others → rows
        ≡ others }
{}

/// The areas that the pages of a process have are one list: `areas` has one answer.
pub fn areas_has_one_answer()
    ensures { (anons : Anons) (on : Pages) (rows others : List Row)
        → AreRowsOf anons on rows → AreRowsOf anons on others → rows ≡ others }
{}
