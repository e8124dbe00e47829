//! What pages and frames hold.

ghost use Rattle.std.specs.Prelude.{◌≡◌, option_map};
ghost use Rattle.av_plain.specs.Mremap.{marks_at};
ghost use Rattle.av_plain.specs.World.{World, pages};
ghost use Rattle.av_audit_world.specs.Memories.{IsWorld};
ghost use Rattle.av_audit_world.specs.Space.{marks_of};
ghost use Rattle.av_audit_neighbour.specs.Held.{bytes_of_frame, bytes_of_page};

use av_audit_ranges::Marks;
use av_audit_world::Memories;
use std::collections::BTreeMap;

/// A page of each frame whose bytes are those of the frame.
pub type FramePages = BTreeMap<u32, (u16, u64)>;

/// What is said of a page, if it is mapped.
pub fn page_marks(memories: &Memories, key: (u16, u64)) -> Option<Marks>
    ensures { (w : World) → IsWorld memories.now w
        → option_map marks_of result ≡ marks_at (pages w key.0) key.1 }
{
    match memories.get(key.0) {
        None => None,
        Some(space) => space.marks(key.1),
    }
}

/// The bytes that are kept of a page. Those past their end are 0.
pub fn page_bytes(memories: &Memories, key: (u16, u64)) -> &[u8]
    ensures { result.now ≡ bytes_of_page memories.now key }
{
    match memories.get(key.0) {
        None => &[],
        Some(space) => space.bytes_of(key.1),
    }
}

/// The bytes that are kept of a frame's page.
pub fn frame_bytes<'a>(memories: &'a Memories, pages: &FramePages, frame: u32) -> &'a [u8]
    ensures { result.now ≡ bytes_of_frame memories.now pages.now frame }
{
    match pages.get(&frame) {
        None => &[],
        Some(key) => page_bytes(memories, *key),
    }
}
