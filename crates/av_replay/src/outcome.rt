//! How a run ended, with the kernel that it leaves.

ghost use Rattle.std.specs.Prelude.{◌≡◌};
ghost use Rattle.av_replay.specs.Replay.{kernel_at};

use crate::status::Status;
use av_kernel::Kernel;
use std::mem::forget;

/// How a run ended, and the kernel that it leaves.
#[derive(Drop)]
pub struct Outcome {
    pub status: Status,
    pub kernel: Option<Kernel>,
}

impl Outcome {
    /// The status alone. The kernel goes, here rather than in a test, which would have to prove
    /// that of each of its parts once more.
    pub fn into_status(self) -> Status
        ensures { result ≡ self.status }
    {
        self.status
    }

    /// The status alone, for a program that ends. The kernel isn't taken apart: the host takes all
    /// its memory at once.
    pub fn leave_kernel(self) -> Status
        ensures { result ≡ self.status }
    {
        let Outcome { status, kernel } = self;
        forget(kernel);
        status
    }
}

/// The kernel goes on where it can, by the status.
pub fn hand_back(status: Status, kernel: Kernel) -> Outcome
    ensures status { result.status ≡ status }
    ensures kernel { result.kernel ≡ kernel_at status kernel }
{
    match status {
        Status::Usage
        | Status::Memory
        | Status::AttachFault
        | Status::Illegal(_)
        | Status::TooLong => Outcome {
            status,
            kernel: None,
        },
        _ => Outcome {
            status,
            kernel: Some(kernel),
        },
    }
}
