ghost use Rattle.std.specs.Prelude.{◌≡◌, ◌<◌, ℕ, [], ◌∷◌, map, length, slice_index, nat_le, IfSome, MatchOption};
ghost use Rattle.std.specs.List.{prefix_len};
ghost use Rattle.std.specs.Option.{is_some, option_map};
ghost use Rattle.std.specs.Simd.Lanes.{mask_l};
ghost use Rattle.sources.specs.Pieces.{bytes_of_2};
ghost use Rattle.sources.specs.White.{nth};
ghost use Rattle.sources.specs.Words.{ascii_words, in_word, skipped, next_word};

use crate::pieces::strip_prefix;
use std::simd::prelude::*;

// Which of the bytes are a space or stand below it: bit k is set where byte k is or does.
#[inline(always)]
fn low_bits(bytes: u8x16) -> u64
    ensures { result ≡ mask_l (map (λ b. nat_le b 32) bytes) }
{
    bytes.simd_le(u8x16::splat(b' ')).to_bitmask()
}

// The place of the first byte that is a space or stands below it, if the text has 16 bytes and it is one of the first 16.
#[inline(always)]
fn first_low(text: &[u8]) -> Option<usize>
    ensures { IfSome result (λ n. (n < length text.now) × ((k : ℕ) → k < n → 32 < slice_index text.now k)) }
{
    if text.len() < 16 {
        return None;
    }
    let low = low_bits(u8x16::from_slice(text));
    if low == 0 {
        return None;
    }
    Some(low.trailing_zeros() as usize)
}

// How many bytes stand before the first white one, a byte at a time.
fn word_len_by_one(text: &[u8]) -> usize
    ensures { result ≡ prefix_len in_word text.now }
{
    text.iter()
        .position(|b| b.is_ascii_whitespace())
        .unwrap_or(text.len())
}

// The same. Most words end within 16 bytes, with a white byte as the first that is no higher than a space: that one is found at once.
fn word_len(text: &[u8]) -> usize
    ensures { result ≡ prefix_len in_word text.now }
{
    match first_low(text) {
        Some(n) if text[n].is_ascii_whitespace() => n,
        _ => word_len_by_one(text),
    }
}

// The text without eight spaces at a time in front, as long as there are so many: figures stand in columns, behind gaps.
#[tactic(auto, using(crate::proofs::Cut::eight_passed))]
fn past_gap(text: &str) -> &str
    ensures { skipped result.now ≡ skipped text.now }
{
    let mut rest = text;
    while let Some(more) = strip_prefix(rest, "        ") {
        rest = more;
    }
    rest
}

/// The first word between ASCII white bytes, and what follows it. A reader of lines asks for few words of many, and `split_ascii_whitespace` stops at each white byte.
pub fn next_word(text: &str) -> Option<(&str, &str)>
    ensures defined { option_map bytes_of_2 result ≡ next_word text.now }
    ensures words { MatchOption result (ascii_words text.now ≡ []) (λ p. ascii_words text.now ≡ p.0.now ∷ ascii_words p.1.now) }
{
    let rest = past_gap(text).trim_ascii_start();
    if rest.is_empty() {
        return None;
    }
    let n = word_len(rest.as_bytes());
    Some(rest.split_at(n))
}

/// Whether a word follows.
pub fn has_word(text: &str) -> bool
    ensures { result ≡ is_some (nth 0 (ascii_words text.now)) }
{
    !past_gap(text).trim_ascii_start().is_empty()
}
