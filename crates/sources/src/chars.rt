// UTF-8 a character at a time, by the rows of the table of well-formed sequences. Of a text of a few bytes it takes less time than a call of the library's test, as long as it stands in line.
ghost use Rattle.std.specs.Prelude.{◌≡◌, ◌<◌, ◌≤◌, ◌∷◌, [], List, Some, false, length, IfSome, MatchOption};
ghost use Rattle.sources.specs.Utf8.{Range, is_utf8, trail, well_formed};

// What follows the first byte of a text, if there is one and it is within a range.
#[inline(always)]
fn past(text: &[u8], least: u8, most: u8) -> Option<&[u8]>
    ensures shorter { IfSome result (λ rest. length rest.now < length text.now) }
    ensures wanted { (rs : List Range) → MatchOption result (well_formed (Some ((least, most) ∷ rs)) text.now ≡ false) (λ rest. well_formed (Some ((least, most) ∷ rs)) text.now ≡ well_formed (Some rs) rest.now) }
{
    match text.split_first() {
        Some((first, rest)) if least <= *first && *first <= most => Some(rest),
        _ => None,
    }
}

// What follows two bytes, the first within a range, the second one that continues a character.
#[inline(always)]
fn past_two(text: &[u8], least: u8, most: u8) -> Option<&[u8]>
    ensures shorter { IfSome result (λ rest. length rest.now < length text.now) }
    ensures wanted { MatchOption result (well_formed (Some ((least, most) ∷ trail ∷ [])) text.now ≡ false) (λ rest. well_formed (Some ((least, most) ∷ trail ∷ [])) text.now ≡ is_utf8 rest.now) }
{
    past(past(text, least, most)?, 0x80, 0xBF)
}

// What follows three bytes, the first within a range, the others such as continue a character.
#[inline(always)]
fn past_three(text: &[u8], least: u8, most: u8) -> Option<&[u8]>
    ensures shorter { IfSome result (λ rest. length rest.now < length text.now) }
    ensures wanted { MatchOption result (well_formed (Some ((least, most) ∷ trail ∷ trail ∷ [])) text.now ≡ false) (λ rest. well_formed (Some ((least, most) ∷ trail ∷ trail ∷ [])) text.now ≡ is_utf8 rest.now) }
{
    past_two(past(text, least, most)?, 0x80, 0xBF)
}

// What follows the first character of the text that is `first` and then `rest`, if it begins with a character.
#[inline(always)]
fn past_char(first: u8, rest: &[u8]) -> Option<&[u8]>
    ensures shorter { IfSome result (λ behind. length behind.now ≤ length rest.now) }
    ensures formed { MatchOption result (is_utf8 (first ∷ rest.now) ≡ false) (λ behind. is_utf8 (first ∷ rest.now) ≡ is_utf8 behind.now) }
{
    match first {
        0x00..=0x7F => Some(rest),
        0xC2..=0xDF => past(rest, 0x80, 0xBF),
        0xE0 => past_two(rest, 0xA0, 0xBF),
        0xE1..=0xEC | 0xEE..=0xEF => past_two(rest, 0x80, 0xBF),
        0xED => past_two(rest, 0x80, 0x9F),
        0xF0 => past_three(rest, 0x90, 0xBF),
        0xF1..=0xF3 => past_three(rest, 0x80, 0xBF),
        0xF4 => past_three(rest, 0x80, 0x8F),
        _ => None,
    }
}

// Whether a text is UTF-8.
#[inline(always)]
pub(crate) fn is_utf8(text: &[u8]) -> bool
    ensures { result ≡ is_utf8 text.now }
{
    let mut left = text;
    while let Some((first, rest)) = left.split_first() {
        match past_char(*first, rest) {
            Some(behind) => left = behind,
            None => return false,
        }
    }
    true
}
