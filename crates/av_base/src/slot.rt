//! The name of a slot.

/// A page-sized slot of a swap area: the area's number, and the page of its device.
#[derive(Clone, Copy, Drop, Debug, PartialEq, Eq)]
pub struct Slot {
    pub area: u8,
    pub page: u32,
}
