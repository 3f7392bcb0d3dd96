ghost use Rattle.std.specs.Prelude.{◌≡◌, ◌+◌, refl};
ghost use Rattle.sources.specs.declared.kind.Break.TheVariants.{Refuses};
ghost use Rattle.kinds.specs.Measure.{fresh, next, measure_rules, has_begun, is_foreign, fault_of, capped, sum_of, set_to, closed_with, opened};
ghost use Rattle.kinds.specs.MeasureLaws.{refusal_stays, foreign_aside, begins_with_mapping};
ghost use Rattle.kinds.specs.Measured.{closed_of, recording_of, join_of};
ghost use Rattle.kinds.specs.Sums.{Measures, SameInEditions, AddsOverJoins};
ghost use Rattle.kinds.specs.declared.measure.State.{State as Standing};
ghost use Rattle.sources.specs.Lines.{reading};
ghost use Rattle.sources.specs.Rules.{verdict as verdict_of};

use crate::sort::{Key, Setting, Sort, sort_of};
use sources::drive::read;
use sources::fault::{Fault, Refusal};
use sources::join::Join;
use sources::kind::{Break, Close, Kind};
use sources::reason::Reason;
use sources::source::Source;
use sources::spool::Spool;

/// The most that one total may be, and the most that the packing list charges a job: 2 to the 56th. Here it is passed on as `cap`: the sums and their laws are those of any cap, and name no number.
pub const CAP: u64 = 72057594037927936;

/// One figure for each of the keys, in bytes.
#[derive(Clone, Copy, PartialEq, Eq, Debug, Default)]
pub struct Figures {
    pub rss: u64,
    pub pss: u64,
    pub swap_pss: u64,
}

/// The mappings so far: how many there are with the open one, the totals of those that are closed, and the figures of the open one.
#[derive(Clone, Copy, Default)]
pub struct Tally {
    mappings: u32,
    totals: Figures,
    last: Figures,
}

/// Where an open measure stands: an enum of its own and no Result, since a measure matches it together with the sort of line that arrives.
#[derive(Clone, Copy)]
pub enum State {
    NoMapping,
    InMapping(Tally),
    Refused(Fault),
}

/// A measure that takes lines.
#[derive(Drop)]
pub struct Open {
    state: State,
}

/// A measure that is done. It is made by closing an open one, or of figures that were one, and can't be copied.
#[derive(Drop)]
pub struct Closed {
    mappings: u32,
    totals: Figures,
}

impl Closed {
    /// For a boundary over which measures are handed as figures: who calls it answers for it that they were measured.
    pub fn from_figures(mappings: u32, totals: Figures) -> Closed
        ensures { result ≡ closed_of mappings totals }
    {
        Closed { mappings, totals }
    }

    /// How many mappings the text has.
    pub fn mappings(&self) -> u32
        ensures { result ≡ self.now.mappings }
    {
        self.mappings
    }

    /// The sums over its mappings, in bytes.
    pub fn totals(&self) -> Figures
        ensures { result ≡ self.now.totals }
    {
        self.totals
    }
}

// The sum of two figures; one above `cap` is too heavy.
fn sum(a: u64, b: u64, cap: u64) -> Result<u64, Fault>
    ensures { result ≡ capped cap (a + b) }
{
    a.checked_add(b)
        .filter(|c| *c <= cap)
        .ok_or(Fault::new(Reason::Heavy))
}

impl Figures {
    // The sums, each at most `cap`.
    fn plus(self, other: Figures, cap: u64) -> Result<Figures, Fault>
        ensures { result ≡ sum_of cap self other }
    {
        let rss = sum(self.rss, other.rss, cap)?;
        let pss = sum(self.pss, other.pss, cap)?;
        let swap_pss = sum(self.swap_pss, other.swap_pss, cap)?;
        Ok(Figures { rss, pss, swap_pss })
    }

    // Sets the figure of one key.
    fn set(&mut self, setting: Setting)
        ensures { self.new ≡ set_to setting self.old }
    {
        let Setting { key, amount } = setting;
        match key {
            Key::Rss => self.rss = amount,
            Key::Pss => self.pss = amount,
            Key::SwapPss => self.swap_pss = amount,
        }
    }
}

impl Tally {
    // The totals once the open mapping is closed.
    fn closed(self, cap: u64) -> Result<Figures, Fault>
        ensures { result ≡ closed_with cap self }
    {
        self.totals.plus(self.last, cap)
    }

    // The open mapping is closed, and another open.
    fn opened(self, cap: u64) -> Result<Tally, Fault>
        ensures { result ≡ opened cap self }
    {
        Ok(Tally {
            mappings: self.mappings.saturating_add(1),
            totals: self.closed(cap)?,
            last: Figures::default(),
        })
    }
}

// What a line of a sort makes of a state, and whether that is refused. A line that changes nothing writes nothing.
// Sorts stand before states in the match for speed: so the compiler goes from where a sort is made straight to what it does.
fn step(state: &mut State, sort: Sort, cap: u64) -> Result<(), Fault>
    ensures next { state.new ≡ next cap state.old sort }
    ensures verdict { result ≡ verdict_of (fault_of state.new) }
{
    let taken = match (sort, &mut *state) {
        (Sort::Attribute(Ok(None)), State::InMapping(_)) => Ok(()),
        (Sort::Attribute(Ok(Some(setting))), State::InMapping(tally)) => {
            tally.last.set(setting);
            Ok(())
        }
        (Sort::Attribute(Err(f)), State::InMapping(_)) => Err(f),
        (Sort::Mapping(head), State::InMapping(tally)) => match (tally.opened(cap), head) {
            (Ok(next), Ok(())) => {
                *tally = next;
                Ok(())
            }
            (Err(f), _) | (Ok(_), Err(f)) => Err(f),
        },
        (Sort::Mapping(Ok(())), State::NoMapping) => {
            *state = State::InMapping(Tally {
                mappings: 1,
                ..Tally::default()
            });
            Ok(())
        }
        (Sort::Mapping(Err(f)), State::NoMapping) => Err(f),
        (Sort::Attribute(_), State::NoMapping) => Err(Fault::new(Reason::Orphan)),
        (_, State::Refused(f)) => return Err(*f),
    };
    if let Err(f) = taken {
        *state = State::Refused(f);
    }
    taken
}

impl Open {
    /// By name, and no Default: its contract is the meaning before any line.
    pub fn new() -> Open
        ensures { result.state ≡ fresh }
    {
        Open {
            state: State::NoMapping,
        }
    }
}

impl Kind for Open {
    type Closed = Closed;

    const BREAK: Break = Break::Refuses;

    ghost BREAK = { Refuses };

    ghost Meaning = { Standing };

    ghost means = { λ m. m.state };

    ghost rules = { measure_rules };

    ghost begun = { has_begun };

    ghost foreign = { is_foreign };

    ghost breaks = { refl };

    ghost stays = { refusal_stays };

    ghost aside = { foreign_aside };

    ghost begins = { begins_with_mapping };

    ghost frame = { λ _ _. Unit {0} };

    ghost framed = { λ _. tt };

    ghost still = { λ _ _ _ _ _. tt };

    fn take(&mut self, line: &str) -> Result<(), Fault> {
        step(&mut self.state, sort_of(line), CAP)
    }
}

impl Close for Open {
    fn close(self) -> Result<Closed, Fault> {
        let (mappings, totals) = match self.state {
            State::Refused(f) => return Err(f),
            State::NoMapping => (0, Figures::default()),
            State::InMapping(tally) => (tally.mappings, tally.closed(CAP)?),
        };
        Ok(Closed { mappings, totals })
    }
}

/// Measures the smaps text of a source.
pub fn measure<S: Source>(source: &mut S) -> Result<Closed, Refusal>
    ensures defined { (result, S.text source.new) ≡ reading measure_rules fresh (S.text source.old) }
    ensures sums { Measures (S.text source.old) result }
    ensures editions { SameInEditions (S.text source.old) result }
    ensures joins { AddsOverJoins (S.text source.old) result }
{
    read(source, Open::new())
}

/// Measures the smaps text of a recording.
pub fn measure_recording(recording: &[u8]) -> Result<Closed, Refusal>
    ensures { result ≡ recording_of recording.now }
{
    let mut spool = Spool::new(recording)?;
    measure(&mut spool)
}

/// Measures the smaps text of two sources, one after the other.
pub fn measure_joined<A: Source + Drop, B: Source + Drop>(
    first: A,
    second: B,
) -> Result<Closed, Refusal>
    ensures { result ≡ join_of (A.text first) (B.text second) }
{
    let mut both = Join::new(first, second);
    measure(&mut both)
}
