//! Writing a whole text.

ghost use Rattle.std.specs.Prelude.{◌≡◌, ℕ, ◌<◌, length, take, OnOk, IfErr};
ghost use Rattle.av_io.specs.Sink.{HasFailed};
ghost use Rattle.av_ports.specs.Ports.{OnlySink, Writes};

use crate::ports::Ports;
use av_io::SinkErr;

/// Writes the whole piece. After an error the sink has gained a part of it.
pub fn write_all<P: Ports>(ports: &mut P, piece: &[u8]) -> Result<(), SinkErr>
    ensures ok { OnOk result (Writes (P.view ports.old).sink (P.view ports.new).sink piece.now) }
    ensures unfailed { OnOk result
        ((P.view ports.new).sink.failures ≡ (P.view ports.old).sink.failures) }
    ensures err { IfErr result (λ e. (n : ℕ) × (n < length piece.now)
        × Writes (P.view ports.old).sink (P.view ports.new).sink (take n piece.now)) }
    ensures cause { IfErr result (λ e. e ≡ SinkErr.Failed
        → HasFailed (P.view ports.old).sink (P.view ports.new).sink) }
    ensures memory { IfErr result (λ e. e ≡ SinkErr.Memory
        → (P.view ports.new).sink.failures ≡ (P.view ports.old).sink.failures) }
    ensures only { OnlySink (P.view ports.old) (P.view ports.new) }
    ensures kept { P.kept ports.new ≡ P.kept ports.old }
{
    let mut start = 0;
    while start < piece.len() {
        match ports.write(&piece[start..]) {
            Ok(count) => start += count,
            Err(error) => return Err(error),
        }
    }
    Ok(())
}
