//! Headers and their faults; devices in memory, over files in memory, and over files of the host.

ghost use Rattle.std.specs.Prelude.{◌≡◌, ◌+◌, ◌<◌, ◌≤◌, if◌then◌else◌, Some, true, false, length};
ghost use Rattle.av_io.specs.Count.{one_more};

use crate::paths::path_of_test;
use av_io::Failed;
use av_swapdev::*;
use std::alloc::{AllocError, Global};
use std::fs::{self, OpenOptions};
use std::path::{Path, PathBuf};
use std::test::*;

/// As many bad pages as a header has room for.
const MOST_BAD: usize = 637;

/// Puts a number at this place, in this order of bytes.
fn put(page: &mut [u8; PAGE_LEN], little: bool, at: usize, number: u32)
    requires { at + 4 ≤ 4096 }
{
    let bytes = if little {
        number.to_le_bytes()
    } else {
        number.to_be_bytes()
    };
    page[at..at + 4].copy_from_slice(&bytes);
}

/// A header in this order of bytes. Where `bad` is too long, it says so, and has the first of them.
pub(crate) fn header(little: bool, version: u32, last: u32, bad: &[u32]) -> [u8; PAGE_LEN] {
    let mut page = [0; PAGE_LEN];
    page[PAGE_LEN - 10..].copy_from_slice(b"SWAPSPACE2");
    let named = bad.len().min(MOST_BAD + 1);
    put(&mut page, little, 1024, version);
    put(&mut page, little, 1028, last);
    put(&mut page, little, 1032, named as u32);
    for i in 0..named.min(MOST_BAD) {
        put(&mut page, little, 1536 + 4 * i, bad[i]);
    }
    page
}

/// What is read of such a header on a device with so many pages, where both orders say the same.
fn read(pages: u32, version: u32, last: u32, bad: &[u32]) -> Option<Result<Header, HeaderErr>> {
    let found = read_header(&header(true, version, last, bad), pages);
    if read_header(&header(false, version, last, bad), pages) != found {
        return None;
    }
    Some(found)
}

/// An area of so many pages, with so many slots and bad pages.
fn area(pages: u32, slots: u32, bad: u32) -> Result<Header, HeaderErr> {
    Ok(Header { pages, slots, bad })
}

#[test]
fn headers(rt: HostRuntime) {
    let most = 1 << 20;
    let rows: [(u32, u32, u32, &[u32], Result<Header, HeaderErr>); 14] = [
        (8, 1, 7, &[], area(8, 7, 0)),
        (8, 1, 7, &[3, 3, 5], area(8, 5, 2)),
        (8, 1, 1, &[], area(2, 1, 0)),
        (10000, 1, 9999, &[9; MOST_BAD], area(10000, 9998, 1)),
        (
            most,
            1,
            u32::MAX,
            &[5, most, u32::MAX],
            area(most, most - 2, 1),
        ),
        (8, 2, 7, &[], Err(HeaderErr::Version)),
        (8, 1 << 16, 7, &[], Err(HeaderErr::Version)),
        (8, 1, 0, &[], Err(HeaderErr::LastPage)),
        (8, 1, 8, &[], Err(HeaderErr::Short)),
        (8, 1, u32::MAX, &[], Err(HeaderErr::Short)),
        (8, 1, 7, &[9; MOST_BAD + 1], Err(HeaderErr::TooManyBad)),
        (8, 1, 7, &[0], Err(HeaderErr::BadPage)),
        (8, 1, 7, &[3, 8], Err(HeaderErr::BadPage)),
        (8, 1, 1, &[1], Err(HeaderErr::NoSlot)),
    ];
    for (pages, version, last, bad, wanted) in rows {
        assert!(rt; read(pages, version, last, bad) == Some(wanted));
    }
}

#[test]
fn bad_pages_of_a_header(rt: HostRuntime) -> Result<(), Fail> {
    let mut page = header(true, 1, 7, &[5, 3, 3]);
    let Ok(found) = read_header(&page, 8) else {
        return Err(Fail::new("the header is not read"));
    };
    for number in 0..9 {
        assert!(rt; is_bad(&page, &found, number) == (number == 3 || number == 5));
    }
    assert!(rt; bad_pages(rt.alloc(), &page, &found)?.as_slice() == [3, 5].as_slice());
    page[PAGE_LEN - 1] = b'1';
    assert!(rt; read_header(&page, 8) == Err(HeaderErr::Signature));
    Ok(())
}

/// Whether what has this name is attached as area 0, with so many pages.
pub(crate) fn is_attached<D: SwapDev>(device: &mut D, name: &str, pages: u32) -> bool
    ensures { result ≡ true → D.sizes device.new 0 ≡ Some pages }
{
    device.attach(0, name) == Ok(pages)
}

/// Copies a page of area 0, which has so many, to another.
fn copy_page<D: SwapDev>(
    device: &mut D,
    pages: u32,
    from: u32,
    to: u32,
    buffer: &mut [u8; PAGE_LEN],
) -> Result<(), Failed>
    requires pages { D.sizes device.old 0 ≡ Some pages }
    requires there { (from < pages) × (to < pages) }
    ensures { D.sizes device.new 0 ≡ Some pages }
{
    device.read(0, from, buffer)?;
    device.write(0, to, buffer)
}

/// One area of three pages, whose calls 4 and 7 fail.
fn three_pages(alloc: Global) -> Result<MemDev, AllocError> {
    let pages = vec![in alloc; [7; PAGE_LEN], [8; PAGE_LEN], [9; PAGE_LEN]]?;
    let areas = vec![in alloc; pages]?;
    Ok(MemDev::new(areas, vec![in alloc; 4, 7]?))
}

/// Whether the calls of such a device come to what they have to.
fn goes_as_told(device: &mut MemDev, buffer: &mut [u8; PAGE_LEN]) -> bool {
    if device.attach(3, "none") != Ok(0) || !is_attached(device, "some", 3) {
        return false;
    }
    // The third call reads, and the fourth fails to write.
    let spoilt = copy_page(device, 3, 2, 1, buffer) == Err(Failed)
        && device.page(0, 1) == Some(&[!8; PAGE_LEN]);
    let copied = copy_page(device, 3, 2, 0, buffer) == Ok(())
        && device.page(0, 0) == Some(&[9; PAGE_LEN]);
    let kept = copy_page(device, 3, 1, 2, buffer) == Err(Failed)
        && device.page(0, 2) == Some(&[9; PAGE_LEN]);
    spoilt && copied && kept && device.page(0, 3).is_none() && device.page(1, 0).is_none()
}

#[test]
fn memory(rt: HostRuntime) -> Result<(), AllocError> {
    let mut device = three_pages(rt.alloc())?;
    assert!(rt; goes_as_told(&mut device, &mut [0; PAGE_LEN]));
    Ok(())
}

/// Two pages and a part of a third.
fn bytes_of_test(alloc: Global) -> Result<Vec<u8>, AllocError> {
    let mut bytes = vec![in alloc; 1; PAGE_LEN]?;
    bytes.extend_from_slice(&[2; PAGE_LEN])?;
    bytes.extend_from_slice(&[3; PAGE_LEN - 1])?;
    Ok(bytes)
}

/// A file in memory, which tells what it holds. Its call of one number fails.
#[derive(Drop)]
struct MemFile {
    bytes: Vec<u8>,
    calls: u64,
    failures: u64,
    failing: u64,
    len: u64,
}

impl MemFile {
    /// Counts a call, and says whether it fails: its turn has come, or the file has too few bytes.
    fn fails(&mut self, place: u64, count: usize) -> bool
        ensures within { result ≡ false → place + count ≤ length self.old.bytes.items }
        ensures same { (self.new.bytes ≡ self.old.bytes) × (self.new.len ≡ self.old.len) }
        ensures calls { self.new.calls ≡ one_more self.old.calls }
        ensures failures { self.new.failures ≡
            (if result then one_more self.old.failures else self.old.failures) }
    {
        self.calls = self.calls.saturating_add(1);
        let held = self.bytes.len() as u64;
        if self.calls != self.failing && place <= held && count as u64 <= held - place {
            return false;
        }
        self.failures = self.failures.saturating_add(1);
        true
    }
}

impl SwapFile for MemFile {
    ghost view = { λ f. record {
      bytes = Some f.bytes.items;
      len = f.len;
      calls = f.calls;
      failures = f.failures;
    } };

    fn len(&self) -> u64 {
        self.len
    }

    fn read_at(&mut self, place: u64, into: &mut [u8]) -> Result<(), Failed> {
        if self.fails(place, into.len()) {
            return Err(Failed);
        }
        let from = place as usize;
        into.copy_from_slice(&self.bytes[from..from + into.len()]);
        Ok(())
    }

    fn write_at(&mut self, place: u64, piece: &[u8]) -> Result<(), Failed> {
        if self.fails(place, piece.len()) {
            return Err(Failed);
        }
        let from = place as usize;
        self.bytes[from..from + piece.len()].copy_from_slice(piece);
        Ok(())
    }
}

/// Files in memory: one for each name but the empty one, all with these bytes.
#[derive(Drop)]
struct MemFiles {
    bytes: Vec<u8>,
    failing: u64,
    calls: u64,
    failures: u64,
    shortages: u64,
}

impl SwapFiles for MemFiles {
    type File = MemFile;

    ghost view = { λ h. record {
      named = Some (λ _. h.bytes.items);
      calls = h.calls;
      failures = h.failures;
      shortages = h.shortages;
    } };

    fn open(&mut self, name: &str) -> Result<MemFile, AttachErr> {
        self.calls = self.calls.saturating_add(1);
        if name.is_empty() {
            self.failures = self.failures.saturating_add(1);
            return Err(AttachErr::Failed);
        }
        let Ok(bytes) = self.bytes.clone() else {
            self.shortages = self.shortages.saturating_add(1);
            return Err(AttachErr::Memory);
        };
        Ok(MemFile {
            len: bytes.len() as u64,
            bytes,
            calls: 0,
            failures: 0,
            failing: self.failing,
        })
    }
}

/// Whether two pages of this name are attached, and the second is copied over the first.
fn is_served<D: SwapDev>(device: &mut D, name: &str, buffer: &mut [u8; PAGE_LEN]) -> bool
    ensures { result ≡ true → D.sizes device.new 0 ≡ Some 2 }
{
    is_attached(device, name, 2)
        && copy_page(device, 2, 1, 0, buffer) == Ok(())
        && *buffer == [2; PAGE_LEN]
}

/// Whether files go as such a device's have to.
fn go_as_told<D: SwapDev>(device: &mut D, buffer: &mut [u8; PAGE_LEN]) -> bool {
    if device.attach(0, "") != Err(AttachErr::Failed) || !is_served(device, "some", buffer) {
        return false;
    }
    // The third call reads what the second wrote, and the fourth fails to write.
    *buffer = [0; PAGE_LEN];
    copy_page(device, 2, 0, 1, buffer) == Err(Failed) && *buffer == [2; PAGE_LEN]
}

#[test]
fn files_in_memory(rt: HostRuntime) -> Result<(), Fail> {
    let files = MemFiles {
        bytes: bytes_of_test(rt.alloc())?,
        failing: 4,
        calls: 0,
        failures: 0,
        shortages: 0,
    };
    let mut device = FileDev::new(rt.alloc(), files)?;
    assert!(rt; go_as_told(&mut device, &mut [0; PAGE_LEN]));
    Ok(())
}

/// A device over files of the host.
fn of_host(rt: &HostRuntime) -> Result<FileDev<HostFiles<HostRuntime>>, Fail> {
    Ok(FileDev::new(rt.alloc(), HostFiles::new(rt.clone()?))?)
}

/// Whether the file has its second page in place of the first, and the rest as it was.
fn is_copied(rt: &HostRuntime, path: Path<'_>) -> Result<bool, Fail> {
    let now = fs::read(rt, path)?;
    Ok(
        now.len() == 3 * PAGE_LEN - 1
            && now.starts_with(&[2; 2 * PAGE_LEN])
            && now.ends_with(&[3; PAGE_LEN - 1]),
    )
}

/// Cuts the file behind its first page.
fn cut(rt: &HostRuntime, path: Path<'_>) -> Result<(), Fail> {
    let mut file = OpenOptions::new().write(true).open(rt, path)?;
    file.set_len(PAGE_LEN as u64)?;
    Ok(())
}

/// Whether a file of the host is served, also when it is cut, and no more when it is gone.
fn serves<D: SwapDev>(rt: &HostRuntime, device: &mut D, path: &PathBuf) -> Result<bool, Fail> {
    let mut buffer = [0; PAGE_LEN];
    if !is_served(device, path.as_str(), &mut buffer) || !is_copied(rt, path.as_path())? {
        return Ok(false);
    }
    cut(rt, path.as_path())?;
    let cut_short = copy_page(device, 2, 1, 0, &mut buffer) == Err(Failed);
    fs::remove_file(rt, path.as_path())?;
    Ok(cut_short && !is_attached(device, path.as_str(), 1))
}

#[test]
fn files(rt: HostRuntime) -> Result<(), Fail> {
    let path = path_of_test(&rt, "av_swapdev")?;
    fs::write(&rt, path.as_path(), bytes_of_test(rt.alloc())?.as_slice())?;
    let mut device = of_host(&rt)?;
    assert!(rt; serves(&rt, &mut device, &path)?);
    Ok(())
}
