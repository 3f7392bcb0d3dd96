ghost use Rattle.std.specs.Prelude.{◌≡◌};
ghost use Rattle.sources.specs.Split.{pieces_left};
ghost use Rattle.support.specs.Calls.{blocked_of, call_in, call_of, call_number_of, pieces_of, read_first, register_of, registers_of, unprefixed as unprefixed_of};

use sources::fault::{Fault, Refusal, at_line};
use sources::number::{FromStrRadix, Radix};
use sources::pieces::{Split, strip_prefix, trimmed};
use sources::reason::Reason;
use sources::text::text;

// The most bytes that a system call's text may have.
const MAX_TEXT: usize = 4096;

/// Whether a process is blocked, and in which system call.
#[derive(Clone, Copy, PartialEq, Eq, Debug)]
pub enum Syscall {
    Running,
    Blocked {
        syscall_number: i64,
        argument_registers: [u64; 6],
        stack_pointer: u64,
        program_counter: u64,
    },
}

// A number without the prefix of base 16, if it has one.
fn unprefixed(piece: &str) -> &str
    ensures { result.now ≡ unprefixed_of piece.now }
{
    strip_prefix(piece, "0x")
        .or(strip_prefix(piece, "0X"))
        .unwrap_or(piece)
}

// The next piece, as the number of a call.
fn number(pieces: &mut Split) -> Result<i64, Fault>
    ensures { (result, pieces_left pieces.new) ≡ read_first call_number_of (pieces_left pieces.old) }
{
    let piece = pieces.next().ok_or(Fault::new(Reason::Short))?;
    Ok(FromStrRadix::from_str_radix(piece, Radix::Decimal)?)
}

// The next piece, as a register.
fn register(pieces: &mut Split) -> Result<u64, Fault>
    ensures { (result, pieces_left pieces.new) ≡ read_first register_of (pieces_left pieces.old) }
{
    let piece = pieces.next().ok_or(Fault::new(Reason::Short))?;
    Ok(FromStrRadix::from_str_radix(unprefixed(piece), Radix::Hexadecimal)?)
}

// The next eight pieces, as registers.
fn registers(pieces: &mut Split) -> Result<[u64; 8], Fault>
    ensures { result ≡ registers_of 8 (pieces_left pieces.old) }
{
    let mut registers = [0; 8];
    for place in registers.iter_mut() {
        *place = register(pieces)?;
    }
    Ok(registers)
}

// The pieces of a process that does not run.
#[tactic(auto, using(crate::proofs::Registers::blocked_by))]
fn blocked(text: &str) -> Result<Syscall, Fault>
    ensures { result ≡ blocked_of (pieces_of text.now) }
{
    let mut pieces = Split::new(text, ' ');
    let syscall_number = number(&mut pieces)?;
    let [a, b, c, d, e, f, stack_pointer, program_counter] = registers(&mut pieces)?;
    Ok(Syscall::Blocked {
        syscall_number,
        argument_registers: [a, b, c, d, e, f],
        stack_pointer,
        program_counter,
    })
}

// A text without white space around it.
fn read(bytes: &[u8]) -> Result<Syscall, Fault>
    ensures { result ≡ call_of bytes.now }
{
    if bytes.len() > MAX_TEXT {
        return Err(Fault::new(Reason::LongLine));
    }
    match trimmed(text(bytes)?) {
        "running" => Ok(Syscall::Running),
        line => blocked(line),
    }
}

impl Syscall {
    /// Reads the text of /proc/PID/syscall (proc(5)). Refused are 2, more than 4,096 bytes; 1, bytes that are not UTF-8;
    /// 5, a missing piece; 6, a bad number. Of what is wrong, the first in this order, and then in that of the pieces, is told.
    pub fn from_bytes(bytes: &[u8]) -> Result<Syscall, Refusal>
        ensures { result ≡ call_in bytes.now }
    {
        at_line(read(bytes), 0)
    }
}
