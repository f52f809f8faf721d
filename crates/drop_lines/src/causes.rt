//! The causes of drops.
ghost use Rattle.std.specs.Prelude.{◌≡◌};
ghost use Rattle.drop_lines.specs.Causes.{name_of};

/// Their names, by their numbers (docs/frames.md); 0 is none.
const NAMES: &[&str] = &[
    "",
    "Short",
    "Version",
    "HeaderLength",
    "Length",
    "HeaderSum",
    "Fragment",
    "Protocol",
    "Transport",
    "PortZero",
    "Ttl",
    "Spoofed",
    "NoRoute",
    "NoMapping",
    "Filtered",
    "NoSession",
    "Rule",
    "Clash",
    "SelfMapped",
    "NoPort",
    "TableFull",
];

/// The name of the cause with this number; of any other number the empty one.
pub fn cause_name(cause: usize) -> &'static str
    ensures { result.now ≡ name_of cause }
{
    if cause < NAMES.len() {
        NAMES[cause]
    } else {
        ""
    }
}
