//! Writes in flight end.

ghost use Rattle.std.specs.Prelude.{OnOk, take, Bool, false};
ghost use Rattle.av_plain.specs.Pass.{Completes};
ghost use Rattle.av_evict.specs.System.{Always, Gives, IsAt, Leaves};

use crate::steps::finish_first;
use crate::system::System;
use av_trace::Notes;
use std::alloc::AllocError;

/// Completes the first `count` writes in flight, or all where there are fewer: each ends, well or
/// not, and a slot that it leaves as an orphan is dropped.
pub fn complete<S: System>(system: &mut S, count: u32, notes: &mut Notes) -> Result<(), AllocError>
    requires { IsAt (S.view system.old false) Always }
    ensures gives { OnOk result ((told : Bool) → Gives (S.view system.old told)
        (S.view system.new told) notes.old notes.new Always
        (λ l added. Completes l (take count l.flight) added)) }
    ensures stays { (told : Bool) → Leaves (S.view system.old told) (S.view system.new told) }
{
    let turns = count.min(system.flight_len());
    for _turn in 0..turns {
        let _end = finish_first(system, notes)?;
    }
    Ok(())
}
