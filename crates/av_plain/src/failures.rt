//! Which replies have nothing that only the failure of a device explains.

ghost use Rattle.std.specs.Prelude.{◌≡◌, List, [], false};
ghost use Rattle.av_trace.specs.declared.command.Command.{Command};
ghost use Rattle.av_trace.specs.declared.reply.Reply.{Reply};
ghost use Rattle.av_plain.specs.World.{World};
ghost use Rattle.av_plain.specs.Device.{HasNoDevice};
ghost use Rattle.av_plain.specs.Ledger.{Ledger, Setting};
ghost use Rattle.av_plain.specs.Event.{Event};
ghost use Rattle.av_plain.specs.Step.{IsLegal, causes, uses_device};
ghost use Rattle.av_plain.specs.Sound.{AllSound};
ghost use Rattle.av_plain.specs.Swapon.{is_swapon};

/// Where no swap area is attached, a reply has nothing that only a failure of a device explains:
/// no `bus`, no EIO and no `fail`.
pub fn no_device_has_no_failures()
    ensures { (m : Setting) (w : World) (l : Ledger) (command : Command) (reply : Reply)
        (events : List Event) → HasNoDevice m → AllSound m w l
        → IsLegal m w l command reply events → causes reply ≡ 0 }
{}

/// So it is where no swap area is on, but for a command that turns one on.
pub fn no_area_on_has_no_failures()
    ensures { (m : Setting) (w : World) (l : Ledger) (command : Command) (reply : Reply)
        (events : List Event) → l.on ≡ [] → is_swapon command ≡ false → AllSound m w l
        → IsLegal m w l command reply events → causes reply ≡ 0 }
{}

/// And so it is with each command that doesn't use the device, whatever is on.
pub fn a_device_that_is_not_used_has_no_failures()
    ensures { (m : Setting) (w : World) (l : Ledger) (command : Command) (reply : Reply)
        (events : List Event) → uses_device command ≡ false → IsLegal m w l command reply events
        → causes reply ≡ 0 }
{}
