ghost use Rattle.std.specs.Prelude.{◌≡◌, MatchOption, true, false};
ghost use Rattle.sources.specs.Records.{recorded, records_of, formed as formed_of, going as going_of, last as «last_of»};

/// One record of a recording. Its marks are read where they stand, as the bytes that the format has.
pub type Record = [u8; 64];

// Whether a record has at most 62 text bytes, and zeros behind them.
fn formed(one: &Record) -> bool
    ensures { result ≡ formed_of one.now }
{
    let n = usize::from(one[0]);
    n <= 62 && one[2 + n..].iter().all(|b| *b == 0)
}

// A record that others follow.
fn going(one: &Record) -> bool
    ensures { result ≡ going_of one.now }
{
    formed(one) && one[1] == 0
}

// The last record.
fn last(one: &Record) -> bool
    ensures { result ≡ «last_of» one.now }
{
    formed(one) && (one[1] == 1 || one[1] == 2)
}

/// The records of a recording, where bytes are one.
pub fn records_in(bytes: &[u8]) -> Option<&[Record]>
    ensures { MatchOption result (recorded bytes.now ≡ false) (λ records. (recorded bytes.now ≡ true) × (records.now ≡ records_of bytes.now)) }
{
    let (records, rest) = bytes.as_chunks::<64>();
    let (end, before) = records.split_last()?;
    if rest.is_empty() && before.iter().all(going) && last(end) {
        Some(records)
    } else {
        None
    }
}
