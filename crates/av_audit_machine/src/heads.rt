//! The machine of an audit: what page 0 of each swap area says.

ghost use Rattle.std.specs.Prelude.{◌≡◌, ◌≤◌, length, slice_get, IfOk, IsErrOf, Some};
ghost use Rattle.std.specs.List.{AllByRecursion};
ghost use Rattle.av_base.specs.Page.{page_size};
ghost use Rattle.av_io.specs.Count.{Rose};
ghost use Rattle.av_plain.specs.Device.{seen_by};
ghost use Rattle.av_swapdev.specs.Device.{most_areas, most_pages};
ghost use Rattle.av_audit_book.specs.Machine.{AreNamed, setting_of};
ghost use Rattle.av_audit_machine.specs.declared.heads.MachineErr.TheVariants.{Memory};
ghost use Rattle.av_audit_machine.specs.Heads.{AreCounted, IsCounted, IsHead};
ghost use Rattle.av_audit_machine.specs.Heads.{IsLayoutIn, IsMachineOf};
ghost use Rattle.av_audit_machine.specs.Heads.{OnlyFails};

use av_audit_book::{Head, Layout, Machine};
use av_swapdev::{PAGE_LEN, SwapDev, bad_pages, read_header};
use std::alloc::{AllocError, Global};

/// Why the swap areas of a machine are not known.
#[derive(Clone, Copy, Drop, Debug, PartialEq, Eq)]
pub enum MachineErr {
    /// A page 0 could not be read.
    Failed,
    Memory,
}

impl From<AllocError> for MachineErr {
    ghost from_gives = { λ _ e. e ≡ Memory };

    fn from(_error: AllocError) -> MachineErr {
        MachineErr::Memory
    }
}

/// What a page 0 says of an area with so many pages, if it has no fault.
pub fn layout_in(alloc: Global, page: &[u8], size: u32) -> Result<Option<Layout>, AllocError>
    requires { length page.now ≡ page_size }
    ensures layout { IfOk result (IsLayoutIn page.now size) }
    ensures counted { IfOk result IsCounted }
{
    match read_header(page, size) {
        Err(_) => Ok(None),
        Ok(header) => Ok(Some(Layout {
            pages: header.pages,
            slots: header.slots,
            bad: bad_pages(alloc, page, &header)?,
        })),
    }
}

/// What page 0 of an area with so many pages says, if it has one. What `page` holds is forgotten.
fn read_head<D: SwapDev>(
    alloc: Global,
    area: u8,
    size: u32,
    dev: &mut D,
    page: &mut [u8],
) -> Result<Head, MachineErr>
    requires there { D.sizes dev.old area ≡ Some size }
    requires long { length page.old ≡ page_size }
    ensures head { IfOk result (IsHead (D.pages dev.old) area size) }
    ensures same { OnlyFails (seen_by D.sizes D.pages D.failures D.history dev.old)
        (seen_by D.sizes D.pages D.failures D.history dev.new) }
    ensures cause { IsErrOf result MachineErr.Failed
        → Rose (D.failures dev.old) (D.failures dev.new) }
    ensures unfailed { IfOk result (λ head. D.failures dev.new ≡ D.failures dev.old) }
    ensures unfailed_memory { IsErrOf result MachineErr.Memory
        → D.failures dev.new ≡ D.failures dev.old }
    ensures long { length page.new ≡ page_size }
{
    if size == 0 {
        return Ok(Head {
            pages: 0,
            layout: None,
        });
    }
    if dev.read(area, 0, page).is_err() {
        return Err(MachineErr::Failed);
    }
    Ok(Head {
        pages: size,
        layout: layout_in(alloc, page, size)?,
    })
}

/// A machine of so many frames, with the swap areas of the device, which have so many pages each.
/// Page 0 is read of each that has pages.
pub fn read_machine<D: SwapDev>(
    alloc: Global,
    frames: u32,
    sizes: &[u32],
    dev: &mut D,
) -> Result<Machine, MachineErr>
    requires few { length sizes.now ≤ most_areas }
    requires small { AllByRecursion (λ n. n ≤ most_pages) sizes.now }
    requires attached { D.sizes dev.old ≡ slice_get sizes.now }
    ensures machine { IfOk result
        (IsMachineOf frames (seen_by D.sizes D.pages D.failures D.history dev.old)) }
    ensures named { IfOk result (λ machine. AreNamed (setting_of machine)) }
    ensures counted { IfOk result AreCounted }
    ensures frames { IfOk result (λ machine. machine.frames ≡ frames) }
    ensures same { OnlyFails (seen_by D.sizes D.pages D.failures D.history dev.old)
        (seen_by D.sizes D.pages D.failures D.history dev.new) }
    ensures cause { IsErrOf result MachineErr.Failed
        → Rose (D.failures dev.old) (D.failures dev.new) }
    ensures unfailed { IfOk result (λ machine. D.failures dev.new ≡ D.failures dev.old) }
    ensures unfailed_memory { IsErrOf result MachineErr.Memory
        → D.failures dev.new ≡ D.failures dev.old }
{
    let mut page = vec![in alloc; 0; PAGE_LEN]?;
    let mut heads = Vec::new(alloc);
    for (area, size) in sizes.iter().enumerate() {
        let head = read_head(alloc, area as u8, *size, dev, &mut page)?;
        if heads.push(head).is_err() {
            return Err(MachineErr::Memory);
        }
    }
    Ok(Machine { frames, heads })
}
