//! The outside of a run as one value: its source, its sink and its device.

ghost use Rattle.std.specs.Prelude.{◌≡◌, IfOk, IfErr, OnOk, OnErr};
ghost use Rattle.av_io.specs.Source.{Gives, GivesNothing};
ghost use Rattle.av_io.specs.Sink.{Takes, TakesNothing, HandsOn, KeepsBack};
ghost use Rattle.av_ports.specs.Ports.{OnlySink, OnlySource, PortsView};

use av_io::{Failed, SinkErr};

/// A source, a sink and a device. Nothing here uses the device.
pub trait Ports {
    /// What is told of source, sink and device.
    ghost view: { Self → PortsView };

    // What no call changes: whose they are.
    ghost Kept: { Type 0 };

    ghost kept: { Self → Self.Kept };

    /// Reads into the front of `into`, and says how many bytes came. Where there is room, 0 is the
    /// end of the input.
    fn read(&mut self, into: &mut [u8]) -> Result<usize, Failed>
        ensures ok { IfOk result (λ n.
            Gives (view self.old).source (view self.new).source n into.new) }
        ensures err { OnErr result
            (GivesNothing (view self.old).source (view self.new).source) }
        ensures only { OnlySource (view self.old) (view self.new) }
        ensures kept { kept self.new ≡ kept self.old };

    /// Writes a front of `piece`, at least a byte where there is one, and says how many bytes.
    fn write(&mut self, piece: &[u8]) -> Result<usize, SinkErr>
        ensures ok { IfOk result (λ n.
            Takes (view self.old).sink (view self.new).sink n piece.now) }
        ensures err { IfErr result (λ e.
            TakesNothing (view self.old).sink (view self.new).sink e) }
        ensures only { OnlySink (view self.old) (view self.new) }
        ensures kept { kept self.new ≡ kept self.old };

    /// Hands on what the sink keeps back.
    fn flush(&mut self) -> Result<(), Failed>
        ensures ok { OnOk result (HandsOn (view self.old).sink (view self.new).sink) }
        ensures err { OnErr result (KeepsBack (view self.old).sink (view self.new).sink) }
        ensures only { OnlySink (view self.old) (view self.new) }
        ensures kept { kept self.new ≡ kept self.old };
}
