//! A device with swap areas.

ghost use Rattle.std.specs.Prelude.{◌≡◌, ℕ, ◌<◌, ◌≤◌, List, Option, Some, length, IfOk, OnOk};
ghost use Rattle.std.specs.Prelude.{OnErr, IsErrOf, is_ok};
ghost use Rattle.av_base.specs.Page.{page_size};
ghost use Rattle.av_base.specs.Words.{with_at};
ghost use Rattle.av_io.specs.Count.{Rose};
ghost use Rattle.av_swapdev.specs.Device.{HasPage, Holds, IsWritten, IsSpoiled, IsRenewed};
ghost use Rattle.av_swapdev.specs.Device.{History, after_attach, after_write, most_areas};
ghost use Rattle.av_swapdev.specs.Device.{most_pages};

use av_base::PAGE_SIZE;
use av_io::Failed;

/// The bytes of one page.
pub const PAGE_LEN: usize = PAGE_SIZE as usize;

/// How many pages of an area are used at most.
pub const MOST_PAGES: u32 = 1 << 20;

/// Why an area was not attached.
#[derive(Clone, Copy, Drop, Debug, PartialEq, Eq)]
pub enum AttachErr {
    Failed,
    Memory,
}

/// A device with up to eight swap areas, numbered from 0 to 7, whose pages have `PAGE_LEN` bytes
/// each.
pub trait SwapDev {
    /// How many pages each attached area has.
    ghost sizes: { Self → ℕ → Option ℕ };

    /// What each page of each area holds, where it is told.
    ghost pages: { Self → Option (ℕ → ℕ → List ℕ) };

    /// How often a call failed.
    ghost failures: { Self → ℕ };

    /// What it was asked to attach and to write, in the order of the calls.
    ghost history: { Self → History };

    /// Attaches what has this name as an area, and says how many of its pages are used: 1,048,576
    /// at most.
    fn attach(&mut self, area: u8, name: &str) -> Result<u32, AttachErr>
        requires { area < most_areas }
        ensures size { IfOk result (λ n. sizes self.new ≡ with_at area (Some n) (sizes self.old)) }
        ensures most { IfOk result (λ n. n ≤ most_pages) }
        ensures renewed { OnOk result (IsRenewed area (pages self.old) (pages self.new)) }
        ensures same_sizes { OnErr result (sizes self.new ≡ sizes self.old) }
        ensures same_pages { OnErr result (pages self.new ≡ pages self.old) }
        ensures never_falls { failures self.old ≤ failures self.new }
        ensures cause { IsErrOf result AttachErr.Failed →
            Rose (failures self.old) (failures self.new) }
        ensures unfailed { OnOk result (failures self.new ≡ failures self.old) }
        ensures unfailed_memory { IsErrOf result AttachErr.Memory
            → failures self.new ≡ failures self.old }
        ensures asked { history self.new
            ≡ after_attach area name.now (is_ok result) (history self.old) };

    /// Reads a page. After an error `into` has any bytes.
    fn read(&mut self, area: u8, page: u32, into: &mut [u8]) -> Result<(), Failed>
        requires there { HasPage (sizes self.old) area page }
        requires long { length into.old ≡ page_size }
        ensures bytes { OnOk result (Holds (pages self.old) area page into.new) }
        ensures same_pages { pages self.new ≡ pages self.old }
        ensures same_sizes { sizes self.new ≡ sizes self.old }
        ensures never_falls { failures self.old ≤ failures self.new }
        ensures cause { OnErr result (Rose (failures self.old) (failures self.new)) }
        ensures unfailed { OnOk result (failures self.new ≡ failures self.old) }
        ensures asked { history self.new ≡ history self.old };

    /// Writes a page. After an error it holds any bytes.
    fn write(&mut self, area: u8, page: u32, from: &[u8]) -> Result<(), Failed>
        requires there { HasPage (sizes self.old) area page }
        requires long { length from.now ≡ page_size }
        ensures written { OnOk result (IsWritten area page from.now (pages self.old)
            (pages self.new)) }
        ensures spoiled { OnErr result (IsSpoiled area page (pages self.old) (pages self.new)) }
        ensures same_sizes { sizes self.new ≡ sizes self.old }
        ensures never_falls { failures self.old ≤ failures self.new }
        ensures cause { OnErr result (Rose (failures self.old) (failures self.new)) }
        ensures unfailed { OnOk result (failures self.new ≡ failures self.old) }
        ensures asked { history self.new ≡ after_write area page (history self.old) };
}
