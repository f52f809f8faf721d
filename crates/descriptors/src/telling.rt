//! The lines that Linux tells.
ghost use Rattle.std.specs.Prelude.{◌≡◌, ◌==◌, ◌++◌, ℕ, IfNone, IfSome};
ghost use Rattle.std.specs.List.{position};
ghost use Rattle.descriptors.specs.Telling.{HasLine, LacksKey, SpellsOctal};

// Where the first line ends.
fn line_end(text: &[u8]) -> Option<usize>
    ensures { result ≡ position (λ byte. byte == 10) text.now }
{
    text.iter().position(|byte| *byte == b'\n')
}

/// The value of the first line with this key; `None` if no line has it.
pub fn value_of<'a>(text: &'a [u8], key: &[u8]) -> Option<&'a [u8]>
    ensures some { IfSome result (λ value. HasLine text.now (key.now ++ value.now)) }
    ensures none { IfNone result (LacksKey text.now key.now) }
{
    let mut rest = text;
    while let Some(end) = line_end(rest) {
        let (line, behind) = rest.split_at(end);
        if let Some(value) = line.strip_prefix(key) {
            return Some(value);
        }
        rest = &behind[1..];
    }
    None
}

/// The number that octal digits spell, if it is below 2^32.
pub fn octal(digits: &[u8]) -> Option<u32>
    ensures some { IfSome result (SpellsOctal digits.now) }
    ensures none { IfNone result ((n : ℕ) → ¬ SpellsOctal digits.now n) }
{
    match std::str::from_utf8(digits) {
        Ok(text) => match u32::from_str_radix(text, 8) {
            Ok(number) => Some(number),
            Err(_) => None,
        },
        Err(_) => None,
    }
}
