ghost use Rattle.memchr.specs.Find.{IsFirstByte, is_byte};

use memchr::memchr;
use std::simd::prelude::*;

// The place of the first of 16 bytes that has this value.
#[inline(always)]
fn place_in(byte: u8, block: u8x16) -> Option<usize>
    ensures { IsFirstByte (is_byte byte) block result }
{
    let mask = block.simd_eq(u8x16::splat(byte)).to_bitmask();
    if mask == 0 {
        return None;
    }
    Some(mask.trailing_zeros() as usize)
}

// The place of the first byte that has this value: by steps of 16 bytes, since it is mostly near, and among fewer at the end by `memchr`.
pub(crate) fn find(byte: u8, bytes: &[u8]) -> Option<usize>
    ensures { IsFirstByte (is_byte byte) bytes.now result }
{
    let mut at = 0;
    while bytes.len() - at >= 16 {
        if let Some(i) = place_in(byte, u8x16::from_slice(&bytes[at..])) {
            return Some(at + i);
        }
        at += 16;
    }
    let i = memchr(byte, &bytes[at..])?;
    Some(at + i)
}
