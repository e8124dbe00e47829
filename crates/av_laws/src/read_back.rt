//! A reply is read back from its text.

ghost use Rattle.std.specs.Prelude.{◌≡◌, ◌≤◌, ℕ, length, map, IfSome, List};
ghost use Rattle.av_base.specs.Limits.{most_commands};
ghost use Rattle.std.specs.List.{AllByRecursion};
ghost use Rattle.av_trace.specs.declared.command.Command.{Command};
ghost use Rattle.av_trace.specs.declared.reply.Reply.{Reply};
ghost use Rattle.av_plain.specs.World.{World};
ghost use Rattle.av_plain.specs.Ledger.{Ledger, Setting};
ghost use Rattle.av_plain.specs.Event.{Event};
ghost use Rattle.av_plain.specs.Step.{IsLegal};
ghost use Rattle.av_plain.specs.Transcript.{Exchange, State, IsRun, at_first};
ghost use Rattle.av_plain.specs.Transcript.{text_of_run};
ghost use Rattle.av_plain.specs.Sound.{AllSound};
ghost use Rattle.av_trace.specs.Command.{IsInRange};
ghost use Rattle.av_text.specs.Number.{IsWide};
ghost use Rattle.av_plain.specs.Device.{Device, HasNoDevice, setting_of};
ghost use Rattle.av_trace.specs.Reply.{IsReply};
ghost use Rattle.av_laws.specs.ReadBack.{IsSmall, IsSmallSetting, IsWideOnAnswer, IsWideRow};

/// A legal reply from a sound state to a command with values in range is read back from its text:
/// its numbers are of 64 bits, its bytes below 256, and its rows as many as it says. This is so
/// where the numbers of setting, memories and ledger are of 64 bits, and those that legality leaves
/// open: what the rows of `areas` say beside pages (offsets, own anon_vmas and chains), and what
/// `swapon` answers over a device that tells no header. In a run all these are so, as the next law
/// says.
pub fn replies_are_read_back()
    ensures { (m : Setting) (w : World) (l : Ledger) (command : Command) (reply : Reply)
        (events : List Event) → IsSmallSetting m → AllSound m w l → IsSmall w l
        → IsInRange command → AllByRecursion IsWideRow reply.rows → IsWideOnAnswer m reply.answer
        → IsLegal m w l command reply events → IsReply reply }
{}

/// So is each reply of a run from nothing on, over any device, whether it tells its pages or not,
/// where the numbers of its setting are of 64 bits, and the commands are at most 2^24, each with
/// values in range. A command makes fewer than 2^36 anon_vmas, so those of a run have numbers of 64
/// bits; and an area that is turned on has at most 1,048,576 pages. The setting is such where the
/// frames of the machine and the pages of each of its device's areas have numbers of 64 bits, and
/// over each machine with such frames and no device.
pub fn replies_of_runs_are_read_back()
    ensures in_runs { (m : Setting) (exchanges : List Exchange) (new : State) → IsSmallSetting m
        → length exchanges ≤ most_commands
        → AllByRecursion (λ (e : Exchange). IsInRange e.command) exchanges
        → IsRun m (at_first m) exchanges new
        → AllByRecursion (λ (e : Exchange). IsReply e.reply) exchanges }
    ensures of_devices { (n : ℕ) (device : Device) → IsWide n
        → ((k : ℕ) → IfSome (device.sizes k) IsWide) → IsSmallSetting (setting_of n device) }
    ensures without_device { (m : Setting) → IsWide m.frames → HasNoDevice m → IsSmallSetting m }
{}

/// So a transcript's text says its replies: two such runs with one text have the same replies,
/// whatever their commands and devices.
pub fn texts_of_runs_say_replies()
    ensures { (m n : Setting) (these those : List Exchange) (new other : State)
        → IsSmallSetting m → IsSmallSetting n
        → length these ≤ most_commands → length those ≤ most_commands
        → AllByRecursion (λ (e : Exchange). IsInRange e.command) these
        → AllByRecursion (λ (e : Exchange). IsInRange e.command) those
        → IsRun m (at_first m) these new → IsRun n (at_first n) those other
        → text_of_run these ≡ text_of_run those
        → map (λ (e : Exchange). e.reply) these ≡ map (λ (e : Exchange). e.reply) those }
{}
