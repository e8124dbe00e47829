//! What tells members apart.

ghost use Rattle.std.specs.Prelude.{◌≡◌, ℕ};

use av_base::Slot;

/// What has a name of two numbers, which no other has.
pub trait Member: Copy + Drop {
    ghost name: { Self → ℕ × ℕ };

    /// Its name.
    fn name(self) -> (u8, u32)
        ensures { result ≡ name self };

    ghost tells_apart: { (x y : Self) → name x ≡ name y → x ≡ y };
}

/// A frame, by its number.
impl Member for u32 {
    ghost use Rattle.av_audit_queue.specs.Name.{frame_name, frames_apart};

    ghost name = { frame_name };

    ghost tells_apart = { frames_apart };

    fn name(self) -> (u8, u32) {
        (0, self)
    }
}

/// A slot, by its area and page.
impl Member for Slot {
    ghost use Rattle.av_audit_queue.specs.Name.{slot_name, slots_apart};

    ghost name = { slot_name };

    ghost tells_apart = { slots_apart };

    fn name(self) -> (u8, u32) {
        (self.area, self.page)
    }
}
