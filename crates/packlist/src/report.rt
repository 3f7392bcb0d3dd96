// What is printed of an answer, and of what is used of a limit.
ghost use Rattle.std.specs.Prelude.{◌≡◌, ◌+◌, ◌-◌, Some, map};
ghost use Rattle.sources.specs.Pieces.{bytes_of};
ghost use Rattle.packlist.specs.Report.{bounds_text, excess_of, excess_text, fields_of, kilobytes_text, limit_text, room_text, row_text, status_text, told_text, totals_text, view_text};

use crate::asked::Asked;
use crate::outcomes::Outcome;
use cli::fields::{LIMITS_FIELDS, STATUS_FIELDS};
use cli::refused::Named;
use cli::size::Size;
use cli::text_file::TextFile;
use kinds::measure::Figures;
use limits::limit::LimitValue;
use packing::place::{Bounds, Noted, View};
use runs::call::{Answer, Call};
use sources::fault::Refusal;
use sources::reason::Reason;
use std::fmt;
use std::fmt::{Display, Formatter};

// What is used of a limit, and what is left of it.
#[derive(Clone, Copy)]
pub struct Room {
    pub limit: u64,
    pub used: u64,
}

impl Display for Room {
    ghost output = { λ r. Some (room_text r.limit r.used) };

    fn fmt<W: fmt::Write>(&self, f: &mut Formatter<W>) -> fmt::Result {
        let Room { limit, used } = *self;
        if used <= limit {
            let left = limit - used;
            write!(f, "used {}, left {}", Size(used.into()), Size(left.into()))
        } else {
            let over = used - limit;
            write!(
                f,
                "used {}, over by {}",
                Size(used.into()),
                Size(over.into())
            )
        }
    }
}

#[derive(Clone, Copy)]
struct Totals(u32, Figures);

impl Display for Totals {
    ghost output = { λ t. Some (totals_text t.0 t.1) };

    fn fmt<W: fmt::Write>(&self, f: &mut Formatter<W>) -> fmt::Result {
        let Totals(mappings, Figures { rss, pss, swap_pss }) = *self;
        write!(
            f,
            "mappings {mappings} rss {rss} pss {pss} swappss {swap_pss}"
        )
    }
}

#[derive(Clone, Copy)]
struct Limit(LimitValue);

impl Display for Limit {
    ghost output = { λ l. Some (limit_text l.0) };

    fn fmt<W: fmt::Write>(&self, f: &mut Formatter<W>) -> fmt::Result {
        match self.0 {
            LimitValue::Unlimited => f.write_str("unlimited"),
            LimitValue::Value(n) => write!(f, "{n}"),
        }
    }
}

// A figure in kB, if there is one.
#[derive(Clone, Copy)]
struct Kilobytes(Option<u64>);

impl Display for Kilobytes {
    ghost output = { λ k. Some (kilobytes_text k.0) };

    fn fmt<W: fmt::Write>(&self, f: &mut Formatter<W>) -> fmt::Result {
        match self.0 {
            Some(n) => write!(f, "{n} kB"),
            None => f.write_str("-"),
        }
    }
}

// What a status text told, or a `-` for each figure.
#[derive(Clone, Copy)]
struct Status(Option<Noted>);

impl Display for Status {
    ghost output = { λ s. Some (status_text s.0) };

    fn fmt<W: fmt::Write>(&self, f: &mut Formatter<W>) -> fmt::Result {
        match self.0 {
            Some(noted) => write!(
                f,
                "state {} threads {} vmrss {}",
                noted.state,
                noted.threads,
                Kilobytes(noted.vmrss)
            ),
            None => f.write_str("state - threads - vmrss -"),
        }
    }
}

// What a limits text told, or a `-` for each limit.
#[derive(Clone, Copy)]
struct Limits(Option<Bounds>);

impl Display for Limits {
    ghost output = { λ l. Some (bounds_text l.0) };

    fn fmt<W: fmt::Write>(&self, f: &mut Formatter<W>) -> fmt::Result {
        match self.0 {
            Some(bounds) => write!(
                f,
                "address space {} open files {}",
                Limit(bounds.address_space),
                Limit(bounds.open_files)
            ),
            None => f.write_str("address space - open files -"),
        }
    }
}

#[derive(Clone, Copy)]
struct Seen(View);

impl Display for Seen {
    ghost output = { λ s. Some (view_text s.0) };

    fn fmt<W: fmt::Write>(&self, f: &mut Formatter<W>) -> fmt::Result {
        let view = self.0;
        write!(
            f,
            "headroom {} {} charge {} {} {}",
            view.headroom,
            Totals(view.mappings, view.totals),
            Size(view.charge.into()),
            Status(view.noted),
            Limits(view.bounds)
        )
    }
}

// The names of the fields of the text that a call reads.
fn fields_of<T>(call: &Call<T>) -> &'static [&'static str]
    ensures { map bytes_of result.now ≡ fields_of call.now }
{
    match call {
        Call::Note { .. } => &STATUS_FIELDS,
        Call::Bound { .. } => &LIMITS_FIELDS,
        _ => &[],
    }
}

// By how much a charge would pass the limit, where it is refused for that: of an admit, which has the headroom.
#[derive(Clone, Copy)]
struct Excess(Option<u128>);

impl Display for Excess {
    ghost output = { λ e. Some (excess_text e.0) };

    fn fmt<W: fmt::Write>(&self, f: &mut Formatter<W>) -> fmt::Result {
        match self.0 {
            Some(bytes) => write!(f, " by {}", Size(bytes)),
            None => Ok(()),
        }
    }
}

/// What a call was answered, on a list of this limit of which so much is used.
#[derive(Clone, Copy)]
pub struct Told<'a> {
    pub call: &'a Call<TextFile<'a>>,
    pub outcome: Outcome,
    pub limit: u64,
}

// By how much a charge of these totals and this headroom would pass the limit, where so much is used.
fn past(limit: u64, used: u64, headroom: u64, totals: Figures) -> u128
    ensures { result ≡ used + (totals.pss + totals.swap_pss + headroom) - limit }
{
    let charge = u128::from(totals.pss) + u128::from(totals.swap_pss) + u128::from(headroom);
    (u128::from(used) + charge).saturating_sub(u128::from(limit))
}

impl Told<'_> {
    // By how much a measure of these totals would pass the limit, if it was refused for that.
    fn excess(&self, refusal: Refusal, totals: Figures) -> Excess
        ensures { result.0 ≡ excess_of self.now.limit self.now.call.now self.now.outcome.used refusal.reason totals }
    {
        match (self.call, refusal.reason) {
            (Call::Admit { headroom, .. }, Reason::Over) => Excess(Some(past(
                self.limit,
                self.outcome.used,
                *headroom,
                totals,
            ))),
            _ => Excess(None),
        }
    }
}

impl Display for Told<'_> {
    ghost output = { λ t. Some (told_text t.limit t.call.now t.outcome) };

    fn fmt<W: fmt::Write>(&self, f: &mut Formatter<W>) -> fmt::Result {
        match self.outcome.answer {
            Answer::Missing => f.write_str("no such measure in hand"),
            Answer::Made { mappings, totals } => write!(f, "{}", Totals(mappings, totals)),
            Answer::Done => f.write_str("done"),
            Answer::Refused(refusal) => {
                let fields = fields_of(self.call);
                write!(f, "{}", Named { refusal, fields })
            }
            Answer::Handed {
                refusal,
                totals,
                ..
            } => {
                let excess = self.excess(refusal, totals);
                write!(f, "{refusal}{excess}, measure handed back")
            }
            Answer::Seen(view) => write!(f, "{}", Seen(view)),
            Answer::Total(used) => write!(f, "{}", Size(used.into())),
        }
    }
}

/// A line of the report: what was asked, what came of it, and what is used and left then.
#[derive(Clone, Copy)]
pub struct Row<'a> {
    pub asked: Asked<'a>,
    pub told: Told<'a>,
}

impl Display for Row<'_> {
    ghost output = { λ r. Some (row_text r.asked.words.0.now r.asked.spaces r.told.limit r.told.call.now r.told.outcome) };

    fn fmt<W: fmt::Write>(&self, f: &mut Formatter<W>) -> fmt::Result {
        let Row { asked, told } = *self;
        let room = Room {
            limit: told.limit,
            used: told.outcome.used,
        };
        write!(f, "{asked} {told}; {room}")
    }
}
