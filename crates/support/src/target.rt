ghost use Rattle.std.specs.Prelude.{◌≡◌, true, IfOk};
ghost use Rattle.support.specs.Target.{Target, inode_of, seen, seen_in, target_in, target_of, told, typed_of};
ghost use Rattle.support.specs.Written.{IsWritten, is_plain};

use sources::fault::{Fault, Refusal, at_line};
use sources::number::{FromStrRadix, Radix};
use sources::pieces::{bracketed, split_once, strip_prefix};
use sources::reason::Reason;
use sources::text::text;

/// What a descriptor stands for, as the name of its link says it.
#[derive(Clone, Copy, PartialEq, Eq, Debug)]
pub enum FDTarget<'a> {
    Path(&'a str),
    Socket(u64),
    Net(u64),
    Pipe(u64),
    AnonInode(&'a str),
    MemFD(&'a str),
    Other(&'a str, u64),
    Unknown(&'a str, &'a str),
}

// The number of an inode, in square brackets.
fn inode(rest: &str) -> Result<u64, Fault>
    ensures { result ≡ inode_of rest.now }
{
    match bracketed(rest) {
        None | Some("") => Err(Fault::new(Reason::Bracket)),
        Some(digits) => Ok(FromStrRadix::from_str_radix(digits, Radix::Decimal)?),
    }
}

// A type, and what follows its colon.
fn read_typed<'a>(kind: &'a str, rest: &'a str) -> Result<FDTarget<'a>, Fault>
    ensures { seen result ≡ typed_of kind.now rest.now }
{
    match kind {
        "" => Err(Fault::new(Reason::Bracket)),
        "socket" => Ok(FDTarget::Socket(inode(rest)?)),
        "net" => Ok(FDTarget::Net(inode(rest)?)),
        "pipe" => Ok(FDTarget::Pipe(inode(rest)?)),
        "anon_inode" => Ok(FDTarget::AnonInode(rest)),
        _ => match inode(rest) {
            Ok(number) => Ok(FDTarget::Other(kind, number)),
            Err(_) => Ok(FDTarget::Unknown(kind, rest)),
        },
    }
}

impl<'a> FDTarget<'a> {
    /// The Rust's name, and no FromStr, whose answer couldn't borrow the text.
    #[tactic(auto, using(crate::proofs::Written::seen_back))]
    pub fn from_str(text: &'a str) -> Result<FDTarget<'a>, Fault>
        ensures reading { seen result ≡ target_of text.now }
        ensures written { IfOk result (λ t. IsWritten (told t) text.now) }
        ensures read { (t : Target) → is_plain t ≡ true → IsWritten t text.now → seen result ≡ Ok t }
    {
        if let Some(name) = strip_prefix(text, "/memfd:") {
            return Ok(FDTarget::MemFD(name));
        }
        if strip_prefix(text, "/").is_some() {
            return Ok(FDTarget::Path(text));
        }
        match split_once(text, ':') {
            None => Ok(FDTarget::Path(text)),
            Some((kind, rest)) => read_typed(kind, rest),
        }
    }

    /// The same of bytes, which may be no text.
    pub fn from_bytes(bytes: &'a [u8]) -> Result<FDTarget<'a>, Refusal>
        ensures { seen_in result ≡ target_in bytes.now }
    {
        at_line(text(bytes).and_then(FDTarget::from_str), 0)
    }
}
