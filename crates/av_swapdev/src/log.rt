//! What a device was asked, kept for proofs alone.

ghost use Rattle.std.specs.Prelude.{◌≡◌};
ghost use Rattle.std.specs.Borrow.{ftrue};
ghost use Rattle.av_swapdev.specs.Device.{History, no_history};

use std::marker::Model;

/// The history of a device, for proofs alone: it takes no space, and its calls do nothing.
#[derive(Drop)]
pub struct Log {
    pub ghost history: { History },
}

impl Model for Log {
    ghost also_owns = { λ _. ftrue };
}

/// A call of a device that its history has.
#[derive(Clone, Copy, Drop)]
pub enum Call<'a> {
    Attach { area: u8, name: &'a str, well: bool },
    Write { area: u8, page: u32 },
}

impl Log {
    ghost use Rattle.av_swapdev.specs.Log.{after_call};

    /// Nothing was asked yet.
    pub fn new() -> Log
        ensures { result.history ≡ no_history }
    {
        Log {}
    }

    /// After one more call.
    #[inline(always)]
    pub fn then(&self, _call: &Call<'_>) -> Log
        ensures { result.history ≡ after_call _call.now self.now.history }
    {
        Log {}
    }
}
