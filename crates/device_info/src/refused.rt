//! Why a device's figures or changes aren't printed.
ghost use Rattle.std.specs.Prelude.{◌≡◌};

use lab_parts::{PrintRefused, told, told_of};
use layout_2::OpenRefused;
use std::alloc::AllocError;
use std::io::Write;

/// Why nothing, or not all, is printed of a device.
#[derive(Clone, Copy, Drop)]
pub enum InfoRefused {
    /// The device can't be read.
    Device(OpenRefused),
    /// What an opening passes over can't be read.
    Suspects(OpenRefused),
    Print(PrintRefused),
}

impl InfoRefused {
    // Tells it of a device, and answers the exit status.
    pub(crate) fn told<E: Write>(self, err: &mut E, device: &str) -> u8
        ensures { result ≡ 1 }
    {
        match self {
            InfoRefused::Device(refused) | InfoRefused::Suspects(refused) => {
                told_of(err, device, refused)
            }
            InfoRefused::Print(refused) => told(err, 1, refused),
        }
    }
}

impl From<OpenRefused> for InfoRefused {
    ghost use Rattle.device_info.specs.declared.refused.InfoRefused.TheVariants.{Device};

    ghost from_gives = { λ refused e. e ≡ Device refused };

    fn from(refused: OpenRefused) -> Self {
        InfoRefused::Device(refused)
    }
}

impl From<AllocError> for InfoRefused {
    ghost use Rattle.device_info.specs.declared.refused.InfoRefused.TheVariants.{Print};
    ghost use Rattle.lab_parts.specs.declared.telling.PrintRefused.TheVariants.{Memory};

    ghost from_gives = { λ _ e. e ≡ Print Memory };

    fn from(_: AllocError) -> Self {
        InfoRefused::Print(PrintRefused::Memory)
    }
}
