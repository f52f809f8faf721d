//! The versions of a file's form.
ghost use Rattle.std.specs.Prelude.{◌≡◌, ◌≢◌, IfSome, IfNone, IsTrue, ◌↔◌};
ghost use Rattle.byteorder.specs.Endian.{big_number};
ghost use Rattle.durable.specs.Versions.{latest, mark_of};

/// A version of a file's form. They differ in the mark and in what is stored of a configuration.
#[derive(Clone, Copy, Debug, PartialEq, Eq, Drop)]
pub enum Version {
    /// NGW1: one external address, and filtering by endpoint.
    First,
    /// NGW2: a pool of external addresses, and the filtering.
    Second,
}

impl Version {
    /// The one that is written.
    pub const LATEST: Version = Version::Second;

    /// Its mark: four bytes behind a file's gate.
    pub(crate) fn mark(self) -> [u8; 4]
        ensures { result ≡ mark_of self }
    {
        match self {
            Version::First => [0x4e, 0x47, 0x57, 0x31],
            Version::Second => [0x4e, 0x47, 0x57, 0x32],
        }
    }

    /// The version whose mark this is, as a number of four bytes, if there is one.
    pub(crate) fn of_mark(number: u32) -> Option<Version>
        ensures found { IfSome result (λ version. big_number 4 (mark_of version) ≡ number) }
        ensures none { IfNone result ((version : Version) → big_number 4 (mark_of version) ≢ number) }
    {
        match number {
            0x4e47_5731 => Some(Version::First),
            0x4e47_5732 => Some(Version::Second),
            _ => None,
        }
    }

    /// Whether it is the one that is written.
    pub fn is_latest(self) -> bool
        ensures { IsTrue result ↔ (self ≡ latest) }
    {
        matches!(self, Version::Second)
    }
}
