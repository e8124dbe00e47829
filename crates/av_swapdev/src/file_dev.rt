//! A device over files.

ghost use Rattle.std.specs.Prelude.{◌≡◌, ◌*◌, ◌≤◌, ◌<◌, ℕ, None, Some, length, replicate, vec_len};
ghost use Rattle.std.specs.Prelude.{IfOk, OnOk, OnErr, IsErrOf, is_ok};
ghost use Rattle.av_base.specs.Page.{page_size};
ghost use Rattle.av_base.specs.Words.{with_at};
ghost use Rattle.av_io.specs.Count.{Rose, one_more};
ghost use Rattle.av_swapdev.specs.Device.{HasPage, Holds, IsRenewed, IsSpoiled, IsWritten};
ghost use Rattle.av_swapdev.specs.Device.{after_attach, after_write, most_areas, most_pages};
ghost use Rattle.av_swapdev.specs.Device.{no_history};
ghost use Rattle.av_swapdev.specs.File.{Opens, Reads, SameBut, Stores, StoresPart, after_open};
ghost use Rattle.av_swapdev.specs.File.{after_failure, file_at, pages_of, sizes_of};

use crate::device::{AttachErr, MOST_PAGES, SwapDev};
use crate::file::{SwapFile, SwapFiles};
use crate::log::{Call, Log};
use av_base::PAGE_SIZE;
use av_io::Failed;
use std::alloc::{AllocError, Global};

/// A file that is attached, and how many of its pages are used.
#[derive(Drop)]
struct Attached<F> {
    file: F,
    pages: u32,
}

/// A device each of whose areas is a file that is read and written.
#[derive(Drop)]
pub struct FileDev<H: SwapFiles + Drop> {
    files: H,
    areas: Vec<Option<Attached<H::File>>>,
    failures: u64,
    log: Log,
    ghost eight: { vec_len areas ≡ 8 },
}

impl<H: SwapFiles + Drop> FileDev<H> {
    /// A device over these files without an area, which has not failed yet.
    pub fn new(alloc: Global, files: H) -> Result<FileDev<H>, AllocError>
        ensures sizes { IfOk result (λ d. (area : ℕ)
            → ⟦<FileDev<H> as SwapDev>⟧.sizes d area ≡ None) }
        ensures failures { IfOk result (λ d. ⟦<FileDev<H> as SwapDev>⟧.failures d ≡ 0) }
        ensures history { IfOk result (λ d. ⟦<FileDev<H> as SwapDev>⟧.history d ≡ no_history) }
        ensures files { IfOk result (λ d. d.files ≡ files) }
    {
        Ok(FileDev {
            files,
            areas: no_areas(alloc)?,
            failures: 0,
            log: Log::new(),
        })
    }
}

/// Eight areas without a file.
fn no_areas<F: Drop>(alloc: Global) -> Result<Vec<Option<Attached<F>>>, AllocError>
    ensures { IfOk result (λ v. v.items ≡ replicate 8 None) }
{
    let mut areas = Vec::new(alloc);
    for area in 0..8u8 {
        areas.push(None)?;
    }
    Ok(areas)
}

/// How many pages of a file with so many bytes are used.
fn pages_of(len: u64) -> u32
    ensures { result ≡ pages_of len }
{
    (len / PAGE_SIZE).min(u64::from(MOST_PAGES)) as u32
}

/// One more failure.
fn count(failures: &mut u64)
    ensures once { failures.new ≡ one_more failures.old }
    ensures never_falls { failures.old ≤ failures.new }
{
    *failures = failures.saturating_add(1);
}

/// Where a page begins in its file.
fn place(page: u32) -> u64
    ensures { result ≡ page * page_size }
{
    u64::from(page) * PAGE_SIZE
}

/// Reads a page of an attached file.
fn read_page<F: SwapFile>(
    attached: &mut Attached<F>,
    page: u32,
    into: &mut [u8],
) -> Result<(), Failed>
    ensures ok { OnOk result (Reads (F.view attached.old.file) (F.view attached.new.file)
        (page * page_size) into.new) }
    ensures err { OnErr result (F.view attached.new.file
        ≡ after_failure (F.view attached.old.file)) }
    ensures pages { attached.new.pages ≡ attached.old.pages }
{
    attached.file.read_at(place(page), into)
}

/// Writes a page of an attached file.
fn write_page<F: SwapFile>(attached: &mut Attached<F>, page: u32, from: &[u8]) -> Result<(), Failed>
    ensures ok { OnOk result (Stores (F.view attached.old.file) (F.view attached.new.file)
        (page * page_size) from.now) }
    ensures err { OnErr result (StoresPart (F.view attached.old.file) (F.view attached.new.file)
        (page * page_size) from.now) }
    ensures pages { attached.new.pages ≡ attached.old.pages }
{
    attached.file.write_at(place(page), from)
}

impl<H: SwapFiles + Drop> SwapDev for FileDev<H> {
    ghost sizes = { λ d. sizes_of d.areas.items };

    ghost pages = { λ _. None };

    ghost failures = { λ d. d.failures };

    ghost history = { λ d. d.log.history };

    fn attach(&mut self, area: u8, name: &str) -> Result<u32, AttachErr>
        requires { area < most_areas }
        ensures size { IfOk result (λ n. sizes_of self.new.areas.items
            ≡ with_at area (Some n) (sizes_of self.old.areas.items)) }
        ensures most { IfOk result (λ n. n ≤ most_pages) }
        ensures renewed { OnOk result (IsRenewed area None None) }
        ensures same_sizes { OnErr result (sizes_of self.new.areas.items
            ≡ sizes_of self.old.areas.items) }
        ensures same_pages { OnErr result (⟦<FileDev<H> as SwapDev>⟧.pages self.new
            ≡ ⟦<FileDev<H> as SwapDev>⟧.pages self.old) }
        ensures never_falls { self.old.failures ≤ self.new.failures }
        ensures cause { IsErrOf result AttachErr.Failed
            → Rose self.old.failures self.new.failures }
        ensures unfailed { OnOk result (self.new.failures ≡ self.old.failures) }
        ensures unfailed_memory { IsErrOf result AttachErr.Memory
            → self.new.failures ≡ self.old.failures }
        ensures asked { self.new.log.history
            ≡ after_attach area name.now (is_ok result) self.old.log.history }
        // Beside what the trait says: one file is opened, whose answer this is; it is the area's
        // file then, with as many pages as its bytes fill.
        ensures answer { H.view self.new.files ≡ after_open result (H.view self.old.files) }
        ensures file { OnOk result (Opens (H.view self.old.files) name.now
            (file_at H.File.view self.new.areas.items area)) }
        ensures all { IfOk result (λ n. n
            ≡ pages_of (file_at H.File.view self.new.areas.items area).len) }
        ensures others { SameBut area (file_at H.File.view self.old.areas.items)
            (file_at H.File.view self.new.areas.items) }
        ensures same_files { OnErr result (self.new.areas ≡ self.old.areas) }
        ensures once { IsErrOf result AttachErr.Failed
            → self.new.failures ≡ one_more self.old.failures }
    {
        let opened = self.files.open(name);
        let well = opened.is_ok();
        self.log = self.log.then(&Call::Attach { area, name, well });
        if let Err(AttachErr::Failed) = opened {
            count(&mut self.failures);
        }
        let file = opened?;
        let pages = pages_of(file.len());
        self.areas[area as usize] = Some(Attached { file, pages });
        Ok(pages)
    }

    fn read(&mut self, area: u8, page: u32, into: &mut [u8]) -> Result<(), Failed>
        requires there { HasPage (⟦<FileDev<H> as SwapDev>⟧.sizes self.old) area page }
        requires long { length into.old ≡ page_size }
        ensures bytes { OnOk result (Holds (⟦<FileDev<H> as SwapDev>⟧.pages self.old) area page
            into.new) }
        ensures same_pages { ⟦<FileDev<H> as SwapDev>⟧.pages self.new
            ≡ ⟦<FileDev<H> as SwapDev>⟧.pages self.old }
        ensures same_sizes { ⟦<FileDev<H> as SwapDev>⟧.sizes self.new
            ≡ ⟦<FileDev<H> as SwapDev>⟧.sizes self.old }
        ensures never_falls { ⟦<FileDev<H> as SwapDev>⟧.failures self.old
            ≤ ⟦<FileDev<H> as SwapDev>⟧.failures self.new }
        ensures cause { OnErr result (Rose (⟦<FileDev<H> as SwapDev>⟧.failures self.old)
            (⟦<FileDev<H> as SwapDev>⟧.failures self.new)) }
        ensures unfailed { OnOk result (⟦<FileDev<H> as SwapDev>⟧.failures self.new
            ≡ ⟦<FileDev<H> as SwapDev>⟧.failures self.old) }
        ensures asked { ⟦<FileDev<H> as SwapDev>⟧.history self.new
            ≡ ⟦<FileDev<H> as SwapDev>⟧.history self.old }
        // Beside what the trait says: the area's file is read once, where the page begins in it,
        // and this is its answer; each other file is left alone.
        ensures file { OnOk result (Reads (file_at H.File.view self.old.areas.items area)
            (file_at H.File.view self.new.areas.items area) (page * page_size) into.new) }
        ensures failure { OnErr result (file_at H.File.view self.new.areas.items area
            ≡ after_failure (file_at H.File.view self.old.areas.items area)) }
        ensures others { SameBut area (file_at H.File.view self.old.areas.items)
            (file_at H.File.view self.new.areas.items) }
        ensures same_files { self.new.files ≡ self.old.files }
        ensures once { OnErr result (self.new.failures ≡ one_more self.old.failures) }
    {
        let Some(attached) = &mut self.areas[area as usize] else {
            unreachable!();
        };
        if read_page(attached, page, into).is_err() {
            count(&mut self.failures);
            return Err(Failed);
        }
        Ok(())
    }

    fn write(&mut self, area: u8, page: u32, from: &[u8]) -> Result<(), Failed>
        requires there { HasPage (⟦<FileDev<H> as SwapDev>⟧.sizes self.old) area page }
        requires long { length from.now ≡ page_size }
        ensures written { OnOk result (IsWritten area page from.now
            (⟦<FileDev<H> as SwapDev>⟧.pages self.old) (⟦<FileDev<H> as SwapDev>⟧.pages self.new)) }
        ensures spoiled { OnErr result (IsSpoiled area page (⟦<FileDev<H> as SwapDev>⟧.pages
            self.old) (⟦<FileDev<H> as SwapDev>⟧.pages self.new)) }
        ensures same_sizes { ⟦<FileDev<H> as SwapDev>⟧.sizes self.new
            ≡ ⟦<FileDev<H> as SwapDev>⟧.sizes self.old }
        ensures never_falls { ⟦<FileDev<H> as SwapDev>⟧.failures self.old
            ≤ ⟦<FileDev<H> as SwapDev>⟧.failures self.new }
        ensures cause { OnErr result (Rose (⟦<FileDev<H> as SwapDev>⟧.failures self.old)
            (⟦<FileDev<H> as SwapDev>⟧.failures self.new)) }
        ensures unfailed { OnOk result (⟦<FileDev<H> as SwapDev>⟧.failures self.new
            ≡ ⟦<FileDev<H> as SwapDev>⟧.failures self.old) }
        ensures asked { ⟦<FileDev<H> as SwapDev>⟧.history self.new
            ≡ after_write area page (⟦<FileDev<H> as SwapDev>⟧.history self.old) }
        // Beside what the trait says: the area's file is written once, where the page begins in it,
        // and this is its answer; each other file is left alone.
        ensures file { OnOk result (Stores (file_at H.File.view self.old.areas.items area)
            (file_at H.File.view self.new.areas.items area) (page * page_size) from.now) }
        ensures failure { OnErr result (StoresPart (file_at H.File.view self.old.areas.items area)
            (file_at H.File.view self.new.areas.items area) (page * page_size) from.now) }
        ensures others { SameBut area (file_at H.File.view self.old.areas.items)
            (file_at H.File.view self.new.areas.items) }
        ensures same_files { self.new.files ≡ self.old.files }
        ensures once { OnErr result (self.new.failures ≡ one_more self.old.failures) }
    {
        self.log = self.log.then(&Call::Write { area, page });
        let Some(attached) = &mut self.areas[area as usize] else {
            unreachable!();
        };
        if write_page(attached, page, from).is_err() {
            count(&mut self.failures);
            return Err(Failed);
        }
        Ok(())
    }
}
