//! The parts of a configuration, and which of them differ.
ghost use Rattle.std.specs.Prelude.{◌↔◌, IsTrue};
ghost use Rattle.diagnosis.specs.Fields.{Agrees};

use durable::same_prefixes;
use packet::Bounds;

/// A part of a configuration.
#[derive(Clone, Copy, PartialEq, Eq, Drop)]
pub enum Field {
    /// The name of the interface to the inside hosts.
    Lan,
    /// The name of the interface to everyone else.
    Wan,
    /// The inside prefixes, with their order.
    Inside,
    /// The external addresses, with their order.
    External,
    /// Whom a mapping lets in.
    Filtering,
}

/// Whether the two configurations have different values in this part.
pub fn differs(field: Field, a: &Bounds, b: &Bounds) -> bool
    ensures { IsTrue result ↔ ¬ Agrees field a.now b.now }
{
    match field {
        Field::Lan => a.lan() != b.lan(),
        Field::Wan => a.wan() != b.wan(),
        Field::Inside => !same_prefixes(a.inside(), b.inside()),
        Field::External => a.external() != b.external(),
        Field::Filtering => a.filtering() != b.filtering(),
    }
}
