//! What a descriptor has to be.
ghost use Rattle.std.specs.Prelude.{◌≡◌, IfErr, IfOk};
ghost use Rattle.descriptors.specs.Telling.{IsDevice, Lacks};

use crate::telling::{octal, value_of};

/// Why a descriptor isn't taken.
#[derive(Clone, Copy, Debug, PartialEq, Eq, Drop, thiserror::Error)]
pub enum Unfit {
    /// It isn't that of a TUN device.
    #[error("is no TUN device")]
    NoTun,
    /// No device is attached to it.
    #[error("has no device attached")]
    Unattached,
    /// Nothing is told of how it was opened.
    #[error("tells nothing of how it was opened")]
    Untold,
    /// A read waits where it has no packet.
    #[error("isn't open with O_NONBLOCK")]
    Blocks,
    /// It isn't open for reading and writing.
    #[error("isn't open for reading and writing")]
    OneWay,
}

/// The name of the device that is attached, by what Linux tells of a descriptor.
///
/// # Errors
///
/// What it lacks to be taken, the first in the order of `Unfit`.
pub fn device_of(told: &[u8]) -> Result<&[u8], Unfit>
    ensures ok { IfOk result (λ name. IsDevice told.now name.now) }
    ensures err { IfErr result (Lacks told.now) }
{
    let Some(name) = value_of(told, b"iff:\t") else {
        return Err(Unfit::NoTun);
    };
    if name.is_empty() {
        return Err(Unfit::Unattached);
    }
    let Some(digits) = value_of(told, b"flags:\t") else {
        return Err(Unfit::Untold);
    };
    let Some(flags) = octal(digits) else {
        return Err(Unfit::Untold);
    };
    if flags / 2_048 % 2 == 0 {
        return Err(Unfit::Blocks);
    }
    if flags % 4 != 2 {
        return Err(Unfit::OneWay);
    }
    Ok(name)
}
