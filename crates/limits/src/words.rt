ghost use Rattle.std.specs.Prelude.{◌≡◌, length, take};
ghost use Rattle.sources.specs.White.{white_words};
ghost use Rattle.limits.specs.Entries.{unitless as unitless_of, words_behind};
ghost use Rattle.limits.specs.Words.{same_words, word_at};

use sources::pieces::strip_prefix;

/// How many words a text has.
pub fn count_words(text: &str) -> usize
    ensures { result ≡ length (white_words text.now) }
{
    text.split_whitespace().count()
}

/// The word behind the first n, or an empty one where there is none: there is one wherever it is asked for, so an Option would have a case that never comes.
pub fn word_at(text: &str, n: usize) -> &str
    ensures { result.now ≡ word_at n (white_words text.now) }
{
    text.split_whitespace().nth(n).unwrap_or("")
}

/// A text and a count, here and in `place_of`: a struct of both would be made and opened again in a line each.
/// Whether the first n words of a text, or all where it has fewer, are the words of a name.
pub fn same_words(text: &str, n: usize, name: &str) -> bool
    ensures { result ≡ same_words (take n (white_words text.now)) (white_words name.now) }
{
    text.split_whitespace().take(n).eq(name.split_whitespace())
}

// Two limits have no unit.
fn unitless(text: &str) -> bool
    ensures { result ≡ unitless_of text.now }
{
    strip_prefix(text, "Max nice priority").is_some()
        || strip_prefix(text, "Max realtime priority").is_some()
}

/// How many words stand behind the name.
pub fn words_behind(text: &str) -> usize
    ensures { result ≡ words_behind text.now }
{
    if unitless(text) { 2 } else { 3 }
}
