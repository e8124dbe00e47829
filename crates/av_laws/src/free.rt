//! What a run lists as free: frames, and the slots of each swap area.

ghost use Rattle.std.specs.Prelude.{ℕ, List};
ghost use Rattle.av_trace.specs.declared.command.Command.{Command};
ghost use Rattle.av_trace.specs.declared.reply.Reply.{Reply};
ghost use Rattle.av_plain.specs.Ledger.{Setting};
ghost use Rattle.av_plain.specs.Transcript.{Exchange, State, IsStep, IsRun, at_first};
ghost use Rattle.av_plain.specs.Sound.{AllSound};
ghost use Rattle.av_plain.specs.Choice.{ListsFree, ListsSlots};
ghost use Rattle.av_plain.specs.Device.{AreLayouts, Device, setting_of};

/// In a run the list of free frames has each free frame of the machine once, and no other number.
pub fn runs_list_free_frames()
    ensures { (m : Setting) (exchanges : List Exchange) (new : State)
        → IsRun m (at_first m) exchanges new
        → ListsFree m new.ledger new.free.frames }
{}

/// In a run the pages of each swap area are as the ledger has its slots: taken exactly where the
/// slot is in use, free only where it is free, and as many as are free. So it is after each command
/// that finds it so in a sound state. Headers that are told have to be such, as those of a device
/// are.
pub fn runs_list_free_slots()
    ensures from_nothing { (m : Setting) (exchanges : List Exchange) (new : State)
        → AreLayouts m → IsRun m (at_first m) exchanges new
        → ListsSlots m new.ledger new.free.slots }
    ensures each_step { (m : Setting) (old new : State) (command : Command) (reply : Reply)
        → AreLayouts m → AllSound m old.world old.ledger → ListsSlots m old.ledger old.free.slots
        → IsStep m old command reply new
        → ListsSlots m new.ledger new.free.slots }
    ensures of_devices { (n : ℕ) (device : Device) → AreLayouts (setting_of n device) }
{}
