//! Attaching the swap areas that the words name.

ghost use Rattle.std.specs.Prelude.{◌≡◌, ℕ, ◌≤◌, List, Option, None, length, map, IfOk, IsErrOf};
ghost use Rattle.av_io.specs.Count.{Rose};
ghost use Rattle.av_plain.specs.Device.{seen_by};
ghost use Rattle.av_swapdev.specs.Device.{most_areas};
ghost use Rattle.av_replay.specs.Attach.{Attaches, AttachesFewer, HasNone, Tries};

use av_swapdev::{AttachErr, SwapDev};
use std::alloc::Global;

/// Attaches these names, once each and in their order, as the areas 0, 1, .. of a device that has
/// none, and says how many pages each has. After the first that can't be attached none is.
pub fn attach_all<D: SwapDev>(
    alloc: Global,
    names: &[&str],
    dev: &mut D,
) -> Result<Vec<u32>, AttachErr>
    requires few { length names.now ≤ most_areas }
    requires none { HasNone (D.sizes dev.old) }
    ensures all { IfOk result (λ pages. (length pages.items ≡ length names.now)
        × Attaches pages.items (seen_by D.sizes D.pages D.failures D.history dev.old)
        (seen_by D.sizes D.pages D.failures D.history dev.new)
        × Tries (map (λ name. name.now) names.now) (length pages.items) None
        (D.history dev.old) (D.history dev.new)) }
    ensures cause { IsErrOf result AttachErr.Failed →
        Rose (D.failures dev.old) (D.failures dev.new) }
    ensures fewer { IsErrOf result AttachErr.Failed →
        AttachesFewer (map (λ name. name.now) names.now)
        (seen_by D.sizes D.pages D.failures D.history dev.old)
        (seen_by D.sizes D.pages D.failures D.history dev.new) }
    ensures wanting { IsErrOf result AttachErr.Memory → (pages : List ℕ)
        × (length pages ≤ length names.now)
        × Attaches pages (seen_by D.sizes D.pages D.failures D.history dev.old)
        (seen_by D.sizes D.pages D.failures D.history dev.new)
        × (failed : Option (List ℕ)) × Tries (map (λ name. name.now) names.now) (length pages)
        failed (D.history dev.old) (D.history dev.new) }
{
    let mut pages = Vec::new(alloc);
    for (area, name) in names.iter().enumerate() {
        let size = dev.attach(area as u8, name)?;
        if pages.push(size).is_err() {
            return Err(AttachErr::Memory);
        }
    }
    Ok(pages)
}
