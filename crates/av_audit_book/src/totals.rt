//! How many frames and slots there are in all.

ghost use Rattle.std.specs.Prelude.{◌≡◌, ℕ, ◌*◌, ◌^◌, ◌<◌, length, sum_by};
ghost use Rattle.av_plain.specs.Ledger.{SwapArea, free_frames, free_slots, is_full};
ghost use Rattle.av_audit_book.specs.Book.{ledger_of};
ghost use Rattle.av_audit_book.specs.Machine.{setting_of};

use crate::book::Book;
use crate::machine::Machine;

impl Book {
    /// How many frames are free.
    pub fn count_free(&self, machine: &Machine) -> u32
        ensures { result ≡ length (free_frames (setting_of machine.now) (ledger_of self.now)) }
    {
        machine.frames - self.pages.frames_used(machine.frames)
    }

    /// How many usable slots the swap areas have that are on.
    pub fn all_slots(&self) -> u128
        ensures slots { result
            ≡ sum_by (λ (a : ℕ × SwapArea). a.1.slots) (ledger_of self.now).on }
        ensures fits { result < 2 ^ 95 }
    {
        let mut n = 0u128;
        for (_, area) in self.on.iter() {
            n += u128::from(area.slots);
        }
        n
    }

    /// How many of them are free.
    pub fn all_free_slots(&self, machine: &Machine) -> u128
        ensures slots { result
            ≡ sum_by (free_slots (setting_of machine.now) (ledger_of self.now))
            (ledger_of self.now).on }
        ensures fits { result < 2 ^ 95 }
    {
        let mut n = 0u128;
        for (number, area) in self.on.iter() {
            n += u128::from(self.free_slots(machine, *number, *area));
        }
        n
    }

    /// Whether swap is full: fewer than half of its slots are free.
    pub fn is_full(&self, machine: &Machine) -> bool
        ensures { result ≡ is_full (setting_of machine.now) (ledger_of self.now) }
    {
        2 * self.all_free_slots(machine) < self.all_slots()
    }
}
