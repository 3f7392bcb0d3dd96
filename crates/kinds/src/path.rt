ghost use Rattle.std.specs.Prelude.{◌≡◌};
ghost use Rattle.kinds.specs.Path.{eight as eight_of, file_of, segment_key, named_of, path_in, path_of, seen, seen_in, thread_of};

use sources::fault::{Fault, Refusal, at_line};
use sources::number::{FromStrRadix, Radix};
use sources::pieces::{bracketed, strip_prefix, strip_suffix, trimmed, trimmed_start, up_to};
use sources::reason::Reason;
use sources::text::text;

/// What a mapping is of, as the last piece of its line says it.
#[derive(Clone, Copy, PartialEq, Eq, Debug)]
pub enum MMapPath<'a> {
    Path(&'a str),
    Heap,
    Stack,
    TStack(u32),
    Vdso,
    Vvar,
    Vsyscall,
    Rollup,
    Anonymous,
    Vsys(i32),
    Other(&'a str),
}

// What follows `[stack:`.
fn read_thread(rest: &str) -> Result<MMapPath<'_>, Fault>
    ensures { seen result ≡ thread_of rest.now }
{
    let inner = strip_suffix(rest, "]").ok_or(Fault::new(Reason::Torn))?;
    let tid = FromStrRadix::from_str_radix(up_to(inner, ':'), Radix::Decimal)?;
    Ok(MMapPath::TStack(tid))
}

// Eight digits of base 16, as a signed number of 32 bits.
fn eight(digits: &str) -> Option<i32>
    ensures { result ≡ eight_of digits.now }
{
    if digits.len() != 8 || digits.starts_with('+') {
        return None;
    }
    <u32 as FromStrRadix>::from_str_radix(digits, Radix::Hexadecimal)
        .ok()
        .map(u32::cast_signed)
}

// The key of a shared memory segment.
fn read_key(name: &str) -> Option<i32>
    ensures { result ≡ segment_key name.now }
{
    let rest = strip_prefix(name, "/SYSV")?;
    eight(strip_suffix(rest, " (deleted)").unwrap_or(rest))
}

// The name of a file: white space in front is dropped, and it runs on to byte 10 or the end.
fn file_name(text: &str) -> &str
    ensures { result.now ≡ file_of text.now }
{
    up_to(trimmed_start(text), '\n')
}

// Any name that is not one of the plain ones; `text` is the path before it was trimmed.
fn read_named<'a>(name: &'a str, text: &'a str) -> Result<MMapPath<'a>, Fault>
    ensures { seen result ≡ named_of name.now text.now }
{
    if let Some(rest) = strip_prefix(name, "[stack:") {
        return read_thread(rest);
    }
    if let Some(inner) = bracketed(name) {
        return Ok(MMapPath::Other(inner));
    }
    match read_key(name) {
        Some(key) => Ok(MMapPath::Vsys(key)),
        None => Ok(MMapPath::Path(file_name(text))),
    }
}

impl<'a> MMapPath<'a> {
    /// Name and form are procfs-core's; a `From` can't refuse, and this can.
    pub fn from(text: &'a str) -> Result<MMapPath<'a>, Fault>
        ensures { seen result ≡ path_of text.now }
    {
        let name = trimmed(text);
        match name {
            "" => Ok(MMapPath::Anonymous),
            "[heap]" => Ok(MMapPath::Heap),
            "[stack]" => Ok(MMapPath::Stack),
            "[vdso]" => Ok(MMapPath::Vdso),
            "[vvar]" => Ok(MMapPath::Vvar),
            "[vsyscall]" => Ok(MMapPath::Vsyscall),
            "[rollup]" => Ok(MMapPath::Rollup),
            _ => read_named(name, text),
        }
    }

    /// The same of bytes, which may be no text.
    pub fn from_bytes(bytes: &'a [u8]) -> Result<MMapPath<'a>, Refusal>
        ensures { seen_in result ≡ path_in bytes.now }
    {
        at_line(text(bytes).and_then(MMapPath::from), 0)
    }
}
