//! A device in memory, which fails at the calls that a list names.

ghost use Rattle.std.specs.Prelude.{◌≡◌, ℕ, ◌-◌, ◌<◌, ◌≤◌, false, map, min, length, slice_index};
ghost use Rattle.std.specs.Prelude.{slice_index_or, if◌then◌else◌, Some, None, MatchOption, IfOk};
ghost use Rattle.std.specs.Prelude.{OnOk, OnErr, IsErrOf, is_err, is_ok};
ghost use Rattle.av_base.specs.Page.{page_size};
ghost use Rattle.av_base.specs.Words.{with_at};
ghost use Rattle.av_io.specs.Count.{Rose};
ghost use Rattle.av_io.specs.Failures.{IsFresh, IsNextCall};
ghost use Rattle.av_swapdev.specs.Device.{with_page, most_areas, most_pages, HasPage, Holds};
ghost use Rattle.av_swapdev.specs.Device.{IsInverted, IsRenewed, IsSpoiled, IsWritten, area_in};
ghost use Rattle.av_swapdev.specs.Device.{size_in, sizes_in, pages_in};
ghost use Rattle.av_swapdev.specs.Device.{after_attach, after_write, no_history};

use crate::device::{AttachErr, MOST_PAGES, PAGE_LEN, SwapDev};
use crate::log::{Call, Log};
use av_io::{Failed, Failures};

/// A device in memory, which tells what its pages hold.
#[derive(Drop)]
pub struct MemDev {
    areas: Vec<Vec<[u8; PAGE_LEN]>>,
    attached: [bool; 8],
    failures: Failures,
    log: Log,
}

impl MemDev {
    /// A device with these pages in each area, by its number, of which none is attached yet. The
    /// calls of these numbers fail: all calls of the device are numbered together, from 1.
    pub fn new(areas: Vec<Vec<[u8; PAGE_LEN]>>, failing: Vec<u64>) -> MemDev
        ensures pages { ⟦<MemDev as SwapDev>⟧.pages result ≡ Some (pages_in areas.items) }
        ensures sizes { (area : ℕ) → ⟦<MemDev as SwapDev>⟧.sizes result area ≡ None }
        ensures failures { ⟦<MemDev as SwapDev>⟧.failures result ≡ 0 }
        ensures history { ⟦<MemDev as SwapDev>⟧.history result ≡ no_history }
        ensures calls { IsFresh result.failures failing }
    {
        MemDev {
            areas,
            attached: [false; 8],
            failures: Failures::new(failing),
            log: Log::new(),
        }
    }

    /// The bytes of a page, attached or not, where the area has it.
    pub fn page(&self, area: u8, page: u32) -> Option<&[u8; PAGE_LEN]>
        ensures { MatchOption result (length (area_in self.now.areas.items area) ≤ page) (λ bytes.
            Holds (⟦<MemDev as SwapDev>⟧.pages self.now) area page bytes.now) }
    {
        self.areas.get(area as usize)?.get(page as usize)
    }
}

/// How many pages of an area are used.
fn size(areas: &[Vec<[u8; PAGE_LEN]>], area: usize) -> u32
    ensures { result ≡ size_in areas.now area }
{
    match areas.get(area) {
        Some(pages) => pages.len().min(MOST_PAGES as usize) as u32,
        None => 0,
    }
}

/// Makes a page these bytes.
fn replace(page: &mut [u8; PAGE_LEN], bytes: &[u8])
    requires { length bytes.now ≡ page_size }
    ensures { page.new ≡ bytes.now }
{
    page.copy_from_slice(bytes);
}

/// Inverts each bit of a page.
fn invert(page: &mut [u8; PAGE_LEN])
    ensures inverted { IsInverted page.old page.new }
    ensures long { length page.new ≡ page_size }
{
    for byte in page.iter_mut() {
        *byte = !*byte;
    }
}

impl SwapDev for MemDev {
    ghost sizes = { λ d. sizes_in d.attached d.areas.items };

    ghost pages = { λ d. Some (pages_in d.areas.items) };

    ghost failures = { λ d. d.failures.count };

    ghost history = { λ d. d.log.history };

    /// The name is not looked at. An area that is not in the list has no page.
    fn attach(&mut self, area: u8, name: &str) -> Result<u32, AttachErr>
        requires { area < most_areas }
        ensures size { IfOk result (λ n. ⟦<MemDev as SwapDev>⟧.sizes self.new ≡ with_at area
            (Some n) (⟦<MemDev as SwapDev>⟧.sizes self.old)) }
        ensures most { IfOk result (λ n. n ≤ most_pages) }
        ensures renewed { OnOk result (IsRenewed area (⟦<MemDev as SwapDev>⟧.pages self.old)
            (⟦<MemDev as SwapDev>⟧.pages self.new)) }
        ensures same_sizes { OnErr result (⟦<MemDev as SwapDev>⟧.sizes self.new ≡
            ⟦<MemDev as SwapDev>⟧.sizes self.old) }
        ensures same_pages { OnErr result (⟦<MemDev as SwapDev>⟧.pages self.new ≡
            ⟦<MemDev as SwapDev>⟧.pages self.old) }
        ensures never_falls { ⟦<MemDev as SwapDev>⟧.failures self.old
            ≤ ⟦<MemDev as SwapDev>⟧.failures
            self.new }
        ensures cause { OnErr result (Rose (⟦<MemDev as SwapDev>⟧.failures self.old)
            (⟦<MemDev as SwapDev>⟧.failures self.new)) }
        ensures unfailed { OnOk result (⟦<MemDev as SwapDev>⟧.failures self.new
            ≡ ⟦<MemDev as SwapDev>⟧.failures self.old) }
        ensures unfailed_memory { IsErrOf result AttachErr.Memory
            → ⟦<MemDev as SwapDev>⟧.failures self.new ≡ ⟦<MemDev as SwapDev>⟧.failures self.old }
        ensures asked { ⟦<MemDev as SwapDev>⟧.history self.new
            ≡ after_attach area name.now (is_ok result) (⟦<MemDev as SwapDev>⟧.history self.old) }
        // Beside what the trait says: exactly the calls that are listed fail, and none for memory;
        // all pages of the area are used, and they stay.
        ensures calls { IsNextCall self.old.failures self.new.failures (is_err result) }
        ensures failed { OnErr result (IsErrOf result AttachErr.Failed) }
        ensures all { IfOk result (λ n. n ≡ size_in self.old.areas.items area) }
        ensures kept { ⟦<MemDev as SwapDev>⟧.pages self.new ≡ ⟦<MemDev as SwapDev>⟧.pages self.old }
    {
        let failed = self.failures.next_fails();
        self.log = self.log.then(&Call::Attach {
            area,
            name,
            well: !failed,
        });
        if failed {
            return Err(AttachErr::Failed);
        }
        self.attached[area as usize] = true;
        Ok(size(&self.areas, area as usize))
    }

    fn read(&mut self, area: u8, page: u32, into: &mut [u8]) -> Result<(), Failed>
        requires there { HasPage (⟦<MemDev as SwapDev>⟧.sizes self.old) area page }
        requires long { length into.old ≡ page_size }
        ensures bytes { OnOk result (Holds (⟦<MemDev as SwapDev>⟧.pages self.old) area page
            into.new) }
        ensures same_pages { ⟦<MemDev as SwapDev>⟧.pages self.new ≡ ⟦<MemDev as SwapDev>⟧.pages
            self.old }
        ensures same_sizes { ⟦<MemDev as SwapDev>⟧.sizes self.new ≡ ⟦<MemDev as SwapDev>⟧.sizes
            self.old }
        ensures never_falls { ⟦<MemDev as SwapDev>⟧.failures self.old
            ≤ ⟦<MemDev as SwapDev>⟧.failures
            self.new }
        ensures cause { OnErr result (Rose (⟦<MemDev as SwapDev>⟧.failures self.old)
            (⟦<MemDev as SwapDev>⟧.failures self.new)) }
        ensures unfailed { OnOk result (⟦<MemDev as SwapDev>⟧.failures self.new
            ≡ ⟦<MemDev as SwapDev>⟧.failures self.old) }
        ensures asked { ⟦<MemDev as SwapDev>⟧.history self.new
            ≡ ⟦<MemDev as SwapDev>⟧.history self.old }
        // Beside what the trait says: exactly the calls that are listed fail.
        ensures calls { IsNextCall self.old.failures self.new.failures (is_err result) }
    {
        if self.failures.next_fails() {
            return Err(Failed);
        }
        into.copy_from_slice(&self.areas[area as usize][page as usize]);
        Ok(())
    }

    fn write(&mut self, area: u8, page: u32, from: &[u8]) -> Result<(), Failed>
        requires there { HasPage (⟦<MemDev as SwapDev>⟧.sizes self.old) area page }
        requires long { length from.now ≡ page_size }
        ensures written { OnOk result (IsWritten area page from.now
            (⟦<MemDev as SwapDev>⟧.pages self.old) (⟦<MemDev as SwapDev>⟧.pages self.new)) }
        ensures spoiled { OnErr result (IsSpoiled area page (⟦<MemDev as SwapDev>⟧.pages self.old)
            (⟦<MemDev as SwapDev>⟧.pages self.new)) }
        ensures same_sizes { ⟦<MemDev as SwapDev>⟧.sizes self.new ≡ ⟦<MemDev as SwapDev>⟧.sizes
            self.old }
        ensures never_falls { ⟦<MemDev as SwapDev>⟧.failures self.old
            ≤ ⟦<MemDev as SwapDev>⟧.failures
            self.new }
        ensures cause { OnErr result (Rose (⟦<MemDev as SwapDev>⟧.failures self.old)
            (⟦<MemDev as SwapDev>⟧.failures self.new)) }
        ensures unfailed { OnOk result (⟦<MemDev as SwapDev>⟧.failures self.new
            ≡ ⟦<MemDev as SwapDev>⟧.failures self.old) }
        ensures asked { ⟦<MemDev as SwapDev>⟧.history self.new
            ≡ after_write area page (⟦<MemDev as SwapDev>⟧.history self.old) }
        // Beside what the trait says: exactly the calls that are listed fail, and then each bit of
        // the page is inverted.
        ensures calls { IsNextCall self.old.failures self.new.failures (is_err result) }
        ensures inverted { OnErr result (IsInverted (pages_in self.old.areas.items area page)
            (pages_in self.new.areas.items area page)) }
    {
        self.log = self.log.then(&Call::Write { area, page });
        let bytes = &mut self.areas[area as usize][page as usize];
        if self.failures.next_fails() {
            invert(bytes);
            return Err(Failed);
        }
        replace(bytes, from);
        Ok(())
    }
}
