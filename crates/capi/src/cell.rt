// What stands in the caller's memory, in numbers alone.
ghost use Rattle.std.specs.Prelude.{◌≡◌};
ghost use Rattle.capi.specs.Cells.{there, letter_in, bound_in, note_in, bounds_in, place_in, free_cell, unlimited_flag, value_or_zero, cell_of, cell_of_job, figures_of, closed_in, no_figures};

use kinds::measure::{Closed, Figures};
use limits::limit::LimitValue;
use packing::place::{Bounds, Noted, Place};

/// The figures of a measure.
#[repr(C)]
#[derive(Clone, Copy)]
pub struct Measure {
    pub mappings: u32,
    pub rss: u64,
    pub pss: u64,
    pub swap_pss: u64,
}

/// One place of a list. With pid 0 it is free, and nothing else of it is looked at.
/// Where `noted` is not 0, state, threads and vmrss are what note kept; where `bounded` is not 0, the limits are what bound kept.
#[repr(C)]
#[derive(Clone, Copy)]
pub struct Cell {
    pub pid: i32,
    pub mappings: u32,
    pub headroom: u64,
    pub rss: u64,
    pub pss: u64,
    pub swap_pss: u64,
    pub noted: u32,
    pub state: u32,
    pub threads: u64,
    pub has_vmrss: u32,
    pub bounded: u32,
    pub vmrss: u64,
    pub address_space_unlimited: u32,
    pub open_files_unlimited: u32,
    pub address_space: u64,
    pub open_files: u64,
}

impl Measure {
    /// No figures, as refusals leave them.
    pub fn zeros() -> Measure
        ensures { result ≡ no_figures }
    {
        Measure {
            mappings: 0,
            rss: 0,
            pss: 0,
            swap_pss: 0,
        }
    }

    /// The figures of a measure.
    pub fn of(closed: &Closed) -> Measure
        ensures { result ≡ figures_of closed.now }
    {
        let totals = closed.totals();
        Measure {
            mappings: closed.mappings(),
            rss: totals.rss,
            pss: totals.pss,
            swap_pss: totals.swap_pss,
        }
    }

    /// The measure that has these figures: who hands them in answers for it that they were measured.
    pub fn closed(&self) -> Closed
        ensures { result ≡ closed_in self.now }
    {
        Closed::from_figures(self.mappings, self.totals())
    }

    fn totals(&self) -> Figures
        ensures { result ≡ (closed_in self.now).totals }
    {
        Figures {
            rss: self.rss,
            pss: self.pss,
            swap_pss: self.swap_pss,
        }
    }
}

// The letter of a number; one above 255 is read as 0, which is no state's.
fn letter(number: u32) -> char
    ensures { result ≡ letter_in number }
{
    match u8::try_from(number) {
        Ok(byte) => char::from(byte),
        Err(_) => '\0',
    }
}

fn limit(unlimited: u32, value: u64) -> LimitValue
    ensures { result ≡ bound_in unlimited value }
{
    match unlimited {
        0 => LimitValue::Value(value),
        _ => LimitValue::Unlimited,
    }
}

fn unlimited_flag(limit: LimitValue) -> u32
    ensures { result ≡ unlimited_flag limit }
{
    match limit {
        LimitValue::Unlimited => 1,
        LimitValue::Value(_) => 0,
    }
}

fn value_or_zero(limit: LimitValue) -> u64
    ensures { result ≡ value_or_zero limit }
{
    match limit {
        LimitValue::Unlimited => 0,
        LimitValue::Value(value) => value,
    }
}

impl Cell {
    /// The cell of a free place.
    pub fn free() -> Cell
        ensures { result ≡ free_cell }
    {
        Cell {
            pid: 0,
            mappings: 0,
            headroom: 0,
            rss: 0,
            pss: 0,
            swap_pss: 0,
            noted: 0,
            state: 0,
            threads: 0,
            has_vmrss: 0,
            bounded: 0,
            vmrss: 0,
            address_space_unlimited: 0,
            open_files_unlimited: 0,
            address_space: 0,
            open_files: 0,
        }
    }

    fn vmrss(&self) -> Option<u64>
        ensures { result ≡ there self.now.has_vmrss self.now.vmrss }
    {
        match self.has_vmrss {
            0 => None,
            _ => Some(self.vmrss),
        }
    }

    fn note(&self) -> Option<Noted>
        ensures { result ≡ note_in self.now }
    {
        if self.noted == 0 {
            return None;
        }
        Some(Noted {
            state: letter(self.state),
            threads: self.threads,
            vmrss: self.vmrss(),
        })
    }

    fn bounds(&self) -> Option<Bounds>
        ensures { result ≡ bounds_in self.now }
    {
        if self.bounded == 0 {
            return None;
        }
        Some(Bounds {
            address_space: limit(self.address_space_unlimited, self.address_space),
            open_files: limit(self.open_files_unlimited, self.open_files),
        })
    }

    /// What stands here.
    pub fn place(&self) -> Option<Place>
        ensures { result ≡ place_in self.now }
    {
        if self.pid == 0 {
            return None;
        }
        Some(Place {
            pid: self.pid,
            headroom: self.headroom,
            mappings: self.mappings,
            totals: Figures {
                rss: self.rss,
                pss: self.pss,
                swap_pss: self.swap_pss,
            },
            noted: self.note(),
            bounds: self.bounds(),
        })
    }

    /// The cell of a job; what is absent is written as zeros.
    pub fn of_job(job: &Place) -> Cell
        ensures { result ≡ cell_of_job job.now }
    {
        let noted = job.noted.unwrap_or(Noted {
            state: '\0',
            threads: 0,
            vmrss: None,
        });
        let bounds = job.bounds.unwrap_or(Bounds {
            address_space: LimitValue::Value(0),
            open_files: LimitValue::Value(0),
        });
        Cell {
            pid: job.pid,
            mappings: job.mappings,
            headroom: job.headroom,
            rss: job.totals.rss,
            pss: job.totals.pss,
            swap_pss: job.totals.swap_pss,
            noted: u32::from(job.noted.is_some()),
            state: u32::from(noted.state),
            threads: noted.threads,
            has_vmrss: u32::from(noted.vmrss.is_some()),
            bounded: u32::from(job.bounds.is_some()),
            vmrss: noted.vmrss.unwrap_or(0),
            address_space_unlimited: unlimited_flag(bounds.address_space),
            open_files_unlimited: unlimited_flag(bounds.open_files),
            address_space: value_or_zero(bounds.address_space),
            open_files: value_or_zero(bounds.open_files),
        }
    }

    /// The cell of a place.
    pub fn of(place: &Option<Place>) -> Cell
        ensures { result ≡ cell_of place.now }
    {
        match place {
            None => Cell::free(),
            Some(job) => Cell::of_job(job),
        }
    }
}
