ghost use Rattle.std.specs.Prelude.{◌≡◌, ℕ, ◌+◌, ◌<◌, ◌≤◌, Bool, true, false, List, length, take, IsTrue, MatchOption};
ghost use Rattle.std.specs.Char.{is_ascii};
ghost use Rattle.std.specs.List.{list_all};
ghost use Rattle.std.specs.Str.{IsAscii, IsUtf8};
ghost use Rattle.sources.specs.Came.{Came};
ghost use Rattle.sources.specs.Editions.{NewerReadsSame};
ghost use Rattle.sources.specs.Folded.{FoldsLines};
ghost use Rattle.sources.specs.Lines.{reading, course, broke as broke_of};

use crate::chars::is_utf8;
use crate::fault::{Refusal, at_line};
use crate::kind::{Break, Close, Finish, Kind};
use crate::reason::Reason;
use crate::source::{Piece, Source};
use std::simd::prelude::*;
use std::str::{from_utf8, from_utf8_unchecked};

/// The longest piece of a line, in bytes.
pub const MAX_LINE: usize = 4096;

/// The longest text, in bytes.
pub const MAX_TEXT: usize = 268435456;

// Whether `n` bytes more take a text of `size` bytes past the longest.
fn past_cap(size: usize, n: usize) -> bool
    requires { size ≤ 268435456 }
    ensures { elim result [ true ↦ 268435456 < size + n | false ↦ size + n ≤ 268435456 ] }
{
    n > MAX_TEXT - size
}

// What a break answers.
fn broke<K: Kind>(taken: u32) -> Result<u32, Refusal>
    requires { taken ≤ 268435456 }
    ensures { result ≡ broke_of K.rules.on_break taken }
{
    match K::BREAK {
        Break::Ends => Ok(taken),
        Break::Refuses => Err(Refusal::new(Reason::Broken, taken + 1)),
    }
}

// What comes next.
#[derive(Clone, Copy)]
enum Next {
    // a line of so many bytes
    Line(usize),
    // as many bytes, without byte 10 before a broken ending
    Lost(usize),
    // a piece that fills the buffer, without byte 10
    Long,
    Ended,
    Broken,
}

// Reads the next line to the front of `buf`.
fn next_line<S: Source>(source: &mut S, buf: &mut [u8]) -> Next
    requires { 0 < length buf.old }
    ensures { Came (length buf.old) (S.text source.old) result buf.new (S.text source.new) }
{
    match source.piece(buf) {
        Piece::Ended => Next::Ended,
        Piece::Broken => Next::Broken,
        Piece::Bytes(n) => {
            if buf[n - 1] == 10 {
                return Next::Line(n);
            }
            if n == buf.len() {
                return Next::Long;
            }
            match source.piece(&mut buf[n..]) {
                Piece::Broken => Next::Lost(n),
                _ => Next::Line(n),
            }
        }
    }
}

// Whether all of 16 bytes are ASCII.
#[inline(always)]
fn is_ascii(bytes: u8x16) -> bool
    ensures { IsTrue result → IsAscii bytes }
{
    bytes.simd_ge(u8x16::splat(0x80)).to_bitmask() == 0
}

// Whether each byte is ASCII, a byte at a time.
fn short_ascii(text: &[u8]) -> bool
    ensures { result ≡ list_all is_ascii text.now }
{
    text.iter().all(|b| *b < 128)
}

// Whether a text is known to be ASCII, by 16 bytes at a time: the last 16, and those from the front up to them. One of fewer than 16 bytes is gone through a byte at a time.
fn known_ascii(text: &[u8]) -> bool
    ensures { IsTrue result → IsAscii text.now }
{
    if text.len() < 16 {
        return short_ascii(text);
    }
    let last = text.len() - 16;
    let mut seen = u8x16::from_slice(&text[last..]);
    let mut at = 0;
    while at < last {
        seen |= u8x16::from_slice(&text[at..]);
        at += 16;
    }
    is_ascii(seen)
}

// Whether a text is known to be UTF-8: as ASCII, which is told soonest, or, where it has fewer than 16 bytes, a character at a time.
#[inline(always)]
fn known_utf8(text: &[u8]) -> bool
    ensures { IsTrue result → IsUtf8 text.now }
{
    known_ascii(text) || (text.len() < 16 && is_utf8(text))
}

// The first n bytes as text, where they are UTF-8. Most lines are ASCII, which is told 16 bytes at a time. It stands in the loop over lines, since short ones cost little more than a call. What is not known here, the library tests.
#[inline(always)]
fn line_text(buf: &[u8], n: usize) -> Option<&str>
    requires { n ≤ length buf.now }
    ensures { MatchOption result (¬ (IsUtf8 (take n buf.now))) (λ s. (s.now ≡ take n buf.now) × IsUtf8 (take n buf.now)) }
{
    let line = &buf[..n];
    if known_utf8(line) {
        return Some(unsafe { from_utf8_unchecked(line) });
    }
    from_utf8(line).ok()
}

/// Hands the lines of a text to a kind, and answers how many. The kind is to be closed then: by `read` and `fill`, or by a caller who closes it into memory of his own.
/// A loop that counts, and no iterator: each line stands in the one buffer, which an Iterator could not lend.
pub fn lines<S: Source, K: Kind>(source: &mut S, kind: &mut K) -> Result<u32, Refusal>
    ensures course { (result, K.means kind.new, S.text source.new) ≡ course K.rules (K.means kind.old) (S.text source.old) }
    ensures frame { K.frame kind.old kind.new }
{
    // an array, since the libraries allocate nothing
    let mut buf = [0u8; MAX_LINE];
    let mut taken: u32 = 0;
    let mut size: usize = 0;
    loop {
        match next_line(source, &mut buf) {
            Next::Ended => return Ok(taken),
            Next::Broken => return broke::<K>(taken),
            Next::Long => return Err(Refusal::new(Reason::LongLine, taken + 1)),
            Next::Lost(n) => {
                if past_cap(size, n) {
                    return Err(Refusal::new(Reason::LongText, taken + 1));
                }
                return broke::<K>(taken);
            }
            Next::Line(n) => {
                if past_cap(size, n) {
                    return Err(Refusal::new(Reason::LongText, taken + 1));
                }
                match line_text(&buf, n) {
                    None => return broke::<K>(taken),
                    Some(line) => at_line(kind.take(line), taken + 1)?,
                }
                taken += 1;
                size += n;
            }
        }
    }
}

/// Reads a text by a kind, which is closed and gone then.
pub fn read<S: Source, K: Close + Drop>(source: &mut S, kind: K) -> Result<K::Closed, Refusal>
    ensures reading { (result, S.text source.new) ≡ reading K.Kind.rules (K.Kind.means kind) (S.text source.old) }
    ensures folds { FoldsLines K.Kind.rules (K.Kind.means kind) (S.text source.old) result (S.text source.new) }
{
    let mut kind = kind;
    let taken = lines(source, &mut kind)?;
    at_line(kind.close(), taken)
}

/// Reads a text by a kind that is closed where it stands.
pub fn fill<S: Source, K: Finish>(source: &mut S, kind: &mut K) -> Result<K::Closed, Refusal>
    ensures reading { (result, S.text source.new) ≡ reading K.Kind.rules (K.Kind.means kind.old) (S.text source.old) }
    ensures folds { FoldsLines K.Kind.rules (K.Kind.means kind.old) (S.text source.old) result (S.text source.new) }
    ensures means { K.Kind.means kind.new ≡ (course K.Kind.rules (K.Kind.means kind.old) (S.text source.old)).1 }
    ensures frame { K.Kind.frame kind.old kind.new }
{
    let taken = lines(source, kind)?;
    at_line(kind.finish(), taken)
}

/// A newer edition of a text reads the same, line numbers aside, by every kind.
pub fn newer_reads_same<K: Kind>()
    ensures { NewerReadsSame K.rules K.begun K.foreign }
{}
