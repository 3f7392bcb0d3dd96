ghost use Rattle.std.specs.Prelude.{◌≡◌, ◌<◌, ◌++◌, ◌∷◌, [], take, IfSome, slice_index_or};
ghost use Rattle.sources.specs.White.{white_words};
ghost use Rattle.limits.specs.Names.{names, place_of};

use crate::words::same_words;
use sources::pieces::strip_prefix;

// The names of the limits, in the order of the fields.
const NAMES: [&str; 16] = [
    "Max cpu time",
    "Max file size",
    "Max data size",
    "Max stack size",
    "Max core file size",
    "Max resident set",
    "Max processes",
    "Max open files",
    "Max locked memory",
    "Max address space",
    "Max file locks",
    "Max pending signals",
    "Max msgqueue size",
    "Max nice priority",
    "Max realtime priority",
    "Max realtime timeout",
];

/// The place, from 0 on, of the name that the first n words of a text are, if they are one.
pub fn place_of(text: &str, n: usize) -> Option<usize>
    ensures value { result ≡ place_of (take n (white_words text.now)) }
    ensures bound { IfSome result (λ place. place < 16) }
{
    NAMES.iter().position(|own| same_words(text, n, own))
}

// The name at a place.
fn name(place: usize) -> &'static str
    requires { place < 16 }
    ensures { result.now ≡ slice_index_or names place [] }
{
    NAMES[place]
}

/// The place of the name that a text begins with, and what follows the space behind it.
pub fn named(text: &str) -> Option<(usize, &str)>
    ensures bound { IfSome result (λ p. p.0 < 16) }
    ensures text { IfSome result (λ p. text.now ≡ slice_index_or names p.0 [] ++ (32 ∷ p.1.now)) }
{
    let place = NAMES.iter().position(|own| text.starts_with(own))?;
    let rest = strip_prefix(strip_prefix(text, name(place))?, " ")?;
    Some((place, rest))
}
