use kinds::measure::Figures;
use packing::place::View;
use sources::fault::Refusal;

/// A call of a run. A measure is named by the number of the Measure call that made it, from 0.
#[derive(Drop)]
pub enum Call<S> {
    Measure {
        text: S,
    },
    Admit {
        pid: i32,
        headroom: u64,
        measure: usize,
    },
    Remeasure {
        pid: i32,
        measure: usize,
    },
    Note {
        pid: i32,
        text: S,
    },
    Bound {
        pid: i32,
        text: S,
    },
    Release {
        pid: i32,
    },
    Look {
        pid: i32,
    },
    Used,
}

/// What came of a call.
#[derive(Clone, Copy, PartialEq, Eq, Debug)]
pub enum Answer {
    /// There is no such measure: none was made, it was refused, or it is charged.
    Missing,
    /// A measure was made, with these figures.
    Made {
        mappings: u32,
        totals: Figures,
    },
    Done,
    Refused(Refusal),
    /// A measure was refused and handed back.
    Handed {
        refusal: Refusal,
        mappings: u32,
        totals: Figures,
    },
    Seen(View),
    Total(u64),
}
