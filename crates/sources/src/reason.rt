ghost use Rattle.std.specs.Prelude.{◌≡◌};
ghost use Rattle.sources.specs.Reasons.{number_of, word_of};

/// Why something was refused, with the number that docs/REFUSALS.md gives.
#[derive(Clone, Copy, PartialEq, Eq, Debug)]
pub enum Reason {
    Broken = 1,
    LongLine = 2,
    LongText = 3,
    Orphan = 4,
    Short = 5,
    Figure = 6,
    Value = 7,
    Torn = 8,
    Scale = 9,
    Heavy = 10,
    Absent = 11,
    Full = 12,
    State = 13,
    Pid = 14,
    Present = 15,
    Unknown = 16,
    Packed = 17,
    Over = 18,
    Sum = 19,
    Bracket = 20,
    Key = 21,
    Spool = 22,
}

impl Reason {
    /// The number that docs/REFUSALS.md gives it.
    pub fn number(self) -> u8
        ensures { result ≡ number_of self }
    {
        self as u8
    }

    /// The word that docs/REFUSALS.md gives it. It is stored; a Display would have to copy it.
    pub fn word(self) -> &'static str
        ensures { result.now ≡ word_of self }
    {
        match self {
            Reason::Broken => "broken",
            Reason::LongLine => "long",
            Reason::LongText => "long",
            Reason::Orphan => "orphan",
            Reason::Short => "short",
            Reason::Figure => "figure",
            Reason::Value => "value",
            Reason::Torn => "torn",
            Reason::Scale => "scale",
            Reason::Heavy => "heavy",
            Reason::Absent => "absent",
            Reason::Full => "full",
            Reason::State => "state",
            Reason::Pid => "pid",
            Reason::Present => "present",
            Reason::Unknown => "unknown",
            Reason::Packed => "packed",
            Reason::Over => "over",
            Reason::Sum => "sum",
            Reason::Bracket => "bracket",
            Reason::Key => "key",
            Reason::Spool => "spool",
        }
    }
}
