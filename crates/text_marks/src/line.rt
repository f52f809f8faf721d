//! The line of a text that holds a place.
ghost use Rattle.std.specs.Prelude.{◌≡◌, ◌≤◌, count_by, length};
ghost use Rattle.std.specs.List.{after_last, before_first};
ghost use Rattle.text_marks.specs.Lines.{is_newline, line_front, line_number, line_rest};

/// A place of a text, and the line that holds it.
#[derive(Clone, Copy, Drop)]
pub(crate) struct Spot<'a> {
    /// The number of the line, from 1.
    pub line: usize,
    /// What stands before the place in its line.
    pub front: &'a [u8],
    /// What stands from the place on in its line, without the newline.
    pub rest: &'a [u8],
}

/// How many newlines there are.
pub(crate) fn newlines(bytes: &[u8]) -> usize
    ensures value { result ≡ count_by is_newline bytes.now }
    ensures few { result ≤ length bytes.now }
{
    bytes.iter().filter(|b| **b == b'\n').count()
}

// What stands behind the last newline.
fn last_line(bytes: &[u8]) -> &[u8]
    ensures { result.now ≡ after_last is_newline bytes.now }
{
    let mut start = bytes.len();
    while start > 0 && bytes[start - 1] != b'\n' {
        start -= 1;
    }
    let (_, line) = bytes.split_at(start);
    line
}

// What stands before the first newline.
fn first_line(bytes: &[u8]) -> &[u8]
    ensures { result.now ≡ before_first is_newline bytes.now }
{
    let mut end = 0;
    while end < bytes.len() && bytes[end] != b'\n' {
        end += 1;
    }
    let (line, _) = bytes.split_at(end);
    line
}

/// The line of a text that holds a place, which is at most the text's length. A newline belongs to the line that it
/// ends.
pub(crate) fn spot_of(text: &[u8], at: usize) -> Spot<'_>
    requires { at ≤ length text.now }
    ensures line { result.line ≡ line_number text.now at }
    ensures front { result.front.now ≡ line_front text.now at }
    ensures rest { result.rest.now ≡ line_rest text.now at }
{
    let (before, behind) = text.split_at(at);
    Spot {
        line: newlines(before) + 1,
        front: last_line(before),
        rest: first_line(behind),
    }
}
