// How names, paths and texts are printed, so that none of them steers a terminal.
ghost use Rattle.std.specs.Prelude.{◌≡◌, ℕ, List, Some};
ghost use Rattle.cli.specs.Escaped.{SteersNone, byte_escape, byte_shown, escaped, escaped_bytes, is_within, shown, steers};

use std::fmt;
use std::fmt::{Display, Formatter};

// The characters above 126 that are not shown, by the first and the last of each range: the controls of C1 with the byte before them, the format characters of Unicode, and its line and paragraph separators.
const HIDDEN: [(u32, u32); 21] = [
    (0x7F, 0x9F),
    (0xAD, 0xAD),
    (0x600, 0x605),
    (0x61C, 0x61C),
    (0x6DD, 0x6DD),
    (0x70F, 0x70F),
    (0x890, 0x891),
    (0x8E2, 0x8E2),
    (0x180E, 0x180E),
    (0x200B, 0x200F),
    (0x2028, 0x202E),
    (0x2060, 0x206F),
    (0xFEFF, 0xFEFF),
    (0xFFF9, 0xFFFB),
    (0x110BD, 0x110BD),
    (0x110CD, 0x110CD),
    (0x13430, 0x1343F),
    (0x1BCA0, 0x1BCA3),
    (0x1D173, 0x1D17A),
    (0xE0001, 0xE0001),
    (0xE0020, 0xE007F),
];

fn is_within(ranges: &[(u32, u32)], number: u32) -> bool
    ensures { result ≡ is_within number ranges.now }
{
    ranges
        .iter()
        .any(|range| range.0 <= number && number <= range.1)
}

// Whether a character would steer a terminal: a control, or one that is not shown.
#[tactic(auto, unfolding(crate::specs::Escaped::steers))]
fn steers(c: char) -> bool
    ensures { result ≡ steers c }
{
    let number = u32::from(c);
    if number < 127 {
        number < 32
    } else {
        is_within(&HIDDEN, number)
    }
}

// A byte by two digits of base 16.
#[derive(Clone, Copy)]
struct ByteEscape(u8);

impl Display for ByteEscape {
    ghost output = { λ b. Some (byte_escape b.0) };

    fn fmt<W: fmt::Write>(&self, f: &mut Formatter<W>) -> fmt::Result {
        let byte = self.0;
        let zero = if byte < 16 { "0" } else { "" };
        write!(f, "\\x{zero}{byte:x}")
    }
}

// A character: as it is, or by its number.
#[derive(Clone, Copy)]
struct Shown(char);

impl Display for Shown {
    ghost output = { λ s. Some (shown s.0) };

    fn fmt<W: fmt::Write>(&self, f: &mut Formatter<W>) -> fmt::Result {
        let c = self.0;
        if c == '\\' {
            return f.write_str("\\\\");
        }
        if !steers(c) {
            return write!(f, "{c}");
        }
        let number = u32::from(c);
        if number < 128 {
            return write!(f, "{}", ByteEscape(number as u8));
        }
        write!(f, "\\u{{{number:x}}}")
    }
}

/// A text with escapes in the place of what would steer a terminal: `\x1b` for a control character of ASCII, `\u{202e}` for another character that is not shown, and `\\` for a backslash. Other characters are as they are.
#[derive(Clone, Copy, Debug)]
pub struct Escaped<'a>(pub &'a str);

impl<'a> Escaped<'a> {
    fn text(&self) -> &'a str
        ensures { result.now ≡ self.now.0.now }
    {
        self.0
    }
}

impl Display for Escaped<'_> {
    ghost output = { λ e. Some (escaped e.0.now) };

    fn fmt<W: fmt::Write>(&self, f: &mut Formatter<W>) -> fmt::Result {
        let text = self.text();
        for c in text.chars() {
            write!(f, "{}", Shown(c))?;
        }
        Ok(())
    }
}

// A byte of what is no text.
#[derive(Clone, Copy)]
struct ByteShown(u8);

impl Display for ByteShown {
    ghost output = { λ b. Some (byte_shown b.0) };

    fn fmt<W: fmt::Write>(&self, f: &mut Formatter<W>) -> fmt::Result {
        let byte = self.0;
        if byte < 128 {
            write!(f, "{}", Shown(char::from(byte)))
        } else {
            write!(f, "{}", ByteEscape(byte))
        }
    }
}

/// Bytes that may be no text: a text as `Escaped` has it; of others each byte that is no ASCII as `\xff`.
#[derive(Clone, Copy, Debug)]
pub struct EscapedBytes<'a>(pub &'a [u8]);

impl Display for EscapedBytes<'_> {
    ghost output = { λ e. Some (escaped_bytes e.0.now) };

    fn fmt<W: fmt::Write>(&self, f: &mut Formatter<W>) -> fmt::Result {
        match str::from_utf8(self.0) {
            Ok(text) => write!(f, "{}", Escaped(text)),
            Err(_) => {
                for byte in self.0 {
                    write!(f, "{}", ByteShown(*byte))?;
                }
                Ok(())
            }
        }
    }
}

/// What is printed of a text, and of bytes that may be none, has no control byte, and no character that would steer a terminal.
pub fn escapes_steer_none()
    ensures text { (bytes : List ℕ) → SteersNone (escaped bytes) }
    ensures bytes { (bytes : List ℕ) → SteersNone (escaped_bytes bytes) }
{}
