//! Readings of status and limits by calls that answer one figure: bench/ times them, and nothing else uses them.
#![tactic(auto)]

ghost use Rattle.std.specs.Prelude.{◌≡◌};
ghost use Rattle.timed.specs.Told.{bound as bound_of, limits_in, limits_told, or_number as or_number_of, status_in, status_told};

use kinds::limits_text::read_limits;
use kinds::status_text::read_status;
use limits::limit::LimitValue;
use limits::record::Limits;
use sources::fault::Refusal;
use sources::held::Held;
use status::record::Status;

// The figure, or the number of the refusal.
fn or_number(read: Result<(), Refusal>, figure: u64) -> u64
    ensures { result ≡ or_number_of read figure }
{
    match read {
        Ok(()) => figure,
        Err(refusal) => u64::from(refusal.reason.number()),
    }
}

fn bound(value: LimitValue) -> u64
    ensures { result ≡ bound_of value }
{
    match value {
        LimitValue::Unlimited => u64::MAX,
        LimitValue::Value(n) => n,
    }
}

// Not inlined, here and below, so that a record is written whole.
#[inline(never)]
fn status_in(text: &[u8], status: &mut Status) -> Result<(), Refusal>
    ensures { (result, status.new) ≡ status_in text.now }
{
    read_status(&mut Held::new(text), status)
}

#[inline(never)]
fn limits_in(text: &[u8], limits: &mut Limits) -> Result<(), Refusal>
    ensures { (result, limits.new) ≡ limits_in text.now }
{
    read_limits(&mut Held::new(text), limits)
}

/// The threads that a status tells, which is read so often into one record, and once at least.
#[unsafe(no_mangle)]
pub extern "C" fn jomukahu_timed_status(text: &[u8], times: u32) -> u64
    ensures { result ≡ status_told text.now }
{
    let mut status = Status::blank();
    let mut read = status_in(text, &mut status);
    for _again in 1..times {
        read = status_in(text, &mut status);
    }
    or_number(read, status.threads)
}

/// How many files limits allow, which are read so.
#[unsafe(no_mangle)]
pub extern "C" fn jomukahu_timed_limits(text: &[u8], times: u32) -> u64
    ensures { result ≡ limits_told text.now }
{
    let mut limits = Limits::blank();
    let mut read = limits_in(text, &mut limits);
    for _again in 1..times {
        read = limits_in(text, &mut limits);
    }
    or_number(read, bound(limits.max_open_files.soft_limit))
}
