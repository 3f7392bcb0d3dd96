// The fields of a status, a line each.
use crate::trouble::Trouble;
use cli::escaped::EscapedBytes;
use cli::fields::STATUS_FIELDS;
use fields::counted::{Counted, Text};
use kinds::status_text::read_status;
use sources::source::Source;
use status::record::Status;
use std::alloc::Global;
use std::fmt;
use std::fmt::{Display, Formatter};

// A value, or `-` where there is none.
#[derive(Clone, Copy)]
struct OrDash<T>(Option<T>);

impl<T: Display> Display for OrDash<T> {
    fn fmt<W: fmt::Write>(&self, f: &mut Formatter<W>) -> fmt::Result {
        match &self.0 {
            Some(value) => write!(f, "{value}"),
            None => f.write_str("-"),
        }
    }
}

// A mask of signals or capabilities, in base 16.
#[derive(Clone, Copy)]
struct Mask(u64);

impl Display for Mask {
    fn fmt<W: fmt::Write>(&self, f: &mut Formatter<W>) -> fmt::Result {
        let bits = self.0;
        write!(f, "{bits:016x}")
    }
}

// A mask of modes, in base 8.
#[derive(Clone, Copy)]
struct Modes(u32);

impl Display for Modes {
    fn fmt<W: fmt::Write>(&self, f: &mut Formatter<W>) -> fmt::Result {
        let bits = self.0;
        write!(f, "{bits:04o}")
    }
}

// A word of a mask of processors or nodes, in base 16.
#[derive(Clone, Copy)]
struct Word(u32);

impl Display for Word {
    fn fmt<W: fmt::Write>(&self, f: &mut Formatter<W>) -> fmt::Result {
        let bits = self.0;
        write!(f, "{bits:08x}")
    }
}

#[derive(Clone, Copy)]
struct Kilobytes(u64);

impl Display for Kilobytes {
    fn fmt<W: fmt::Write>(&self, f: &mut Formatter<W>) -> fmt::Result {
        write!(f, "{} kB", self.0)
    }
}

// Signals that are queued, and how many may be.
#[derive(Clone, Copy)]
struct Queue(u64, u64);

impl Display for Queue {
    fn fmt<W: fmt::Write>(&self, f: &mut Formatter<W>) -> fmt::Result {
        write!(f, "{}/{}", self.0, self.1)
    }
}

// A range, by its first and its last, or the one number that it has.
#[derive(Clone, Copy)]
struct Span(u32, u32);

impl Display for Span {
    fn fmt<W: fmt::Write>(&self, f: &mut Formatter<W>) -> fmt::Result {
        let Span(first, last) = *self;
        if first == last {
            write!(f, "{first}")
        } else {
            write!(f, "{first}-{last}")
        }
    }
}

// The length of the longest name of a field.
const LONGEST: usize = 26;

// The names of the fields in the order of their numbers, of which so many are printed.
#[derive(Drop)]
struct Names(usize);

impl Names {
    // Takes the next.
    fn next(&mut self) -> &'static str {
        let name = STATUS_FIELDS.get(self.0).copied().unwrap_or("");
        self.0 = self.0.saturating_add(1);
        name
    }
}

// The name of a field, filled up so that the values stand in one column.
fn put_name<W: fmt::Write>(f: &mut Formatter<W>, name: &str) -> fmt::Result {
    write!(f, "{name}:")?;
    for _i in name.len()..LONGEST {
        f.write_str(" ")?;
    }
    Ok(())
}

// A line of the next field.
fn put<W: fmt::Write, D: Display + Drop>(
    f: &mut Formatter<W>,
    names: &mut Names,
    value: D,
) -> fmt::Result {
    put_name(f, names.next())?;
    write!(f, " {value}\n")
}

fn put_text<W: fmt::Write>(f: &mut Formatter<W>, names: &mut Names, text: &Text) -> fmt::Result {
    put(f, names, EscapedBytes(text.items()))
}

fn items<T: Copy, const N: usize>(list: &Option<Counted<T, N>>) -> Option<&[T]> {
    list.as_ref().map(Counted::items)
}

// A line of a list, its items as `shown` has them, or `-` where there is none.
fn put_list<W: fmt::Write, T, D: Display + Drop, F: Fn(&T) -> D>(
    f: &mut Formatter<W>,
    names: &mut Names,
    list: Option<&[T]>,
    shown: F,
) -> fmt::Result
    requires { F.IsAlwaysCallable shown }
{
    match list {
        Some([]) => write!(f, "{}:\n", names.next()),
        Some(items) => {
            put_name(f, names.next())?;
            for item in items {
                write!(f, " {}", shown(item))?;
            }
            f.write_str("\n")
        }
        None => put(f, names, "-"),
    }
}

fn put_ids<W: fmt::Write>(f: &mut Formatter<W>, names: &mut Names, s: &Status) -> fmt::Result {
    put_text(f, names, &s.name)?;
    put(f, names, OrDash(s.umask.map(Modes)))?;
    put_text(f, names, &s.state)?;
    put(f, names, s.tgid)?;
    put(f, names, OrDash(s.ngid))?;
    put(f, names, s.pid)?;
    put(f, names, s.ppid)?;
    put(f, names, s.tracerpid)
}

fn put_owner<W: fmt::Write>(f: &mut Formatter<W>, names: &mut Names, s: &Status) -> fmt::Result {
    for id in [
        s.ruid, s.euid, s.suid, s.fuid, s.rgid, s.egid, s.sgid, s.fgid, s.fdsize,
    ] {
        put(f, names, id)?;
    }
    Ok(())
}

fn put_spaces<W: fmt::Write>(f: &mut Formatter<W>, names: &mut Names, s: &Status) -> fmt::Result {
    put_list(f, names, Some(s.groups.items()), |id| *id)?;
    put_list(f, names, items(&s.nstgid), |id| *id)?;
    put_list(f, names, items(&s.nspid), |id| *id)?;
    put_list(f, names, items(&s.nspgid), |id| *id)?;
    put_list(f, names, items(&s.nssid), |id| *id)
}

fn put_memory<W: fmt::Write>(f: &mut Formatter<W>, names: &mut Names, s: &Status) -> fmt::Result {
    for size in [
        s.vmpeak,
        s.vmsize,
        s.vmlck,
        s.vmpin,
        s.vmhwm,
        s.vmrss,
        s.rssanon,
        s.rssfile,
        s.rssshmem,
        s.vmdata,
        s.vmstk,
        s.vmexe,
        s.vmlib,
        s.vmpte,
        s.vmswap,
        s.hugetlbpages,
    ] {
        put(f, names, OrDash(size.map(Kilobytes)))?;
    }
    Ok(())
}

fn put_signals<W: fmt::Write>(f: &mut Formatter<W>, names: &mut Names, s: &Status) -> fmt::Result {
    put(f, names, s.threads)?;
    put(f, names, Queue(s.sigq.0, s.sigq.1))?;
    for mask in [
        s.sigpnd, s.shdpnd, s.sigblk, s.sigign, s.sigcgt, s.capinh, s.capprm, s.capeff,
    ] {
        put(f, names, Mask(mask))?;
    }
    put(f, names, OrDash(s.capbnd.map(Mask)))?;
    put(f, names, OrDash(s.capamb.map(Mask)))
}

fn put_others<W: fmt::Write>(f: &mut Formatter<W>, names: &mut Names, s: &Status) -> fmt::Result {
    put(f, names, OrDash(s.nonewprivs))?;
    put(f, names, OrDash(s.seccomp))?;
    let bypass = s.speculation_store_bypass.as_ref();
    let bypass = bypass.map(|text| EscapedBytes(text.items()));
    put(f, names, OrDash(bypass))?;
    put_list(f, names, items(&s.cpus_allowed), |word| Word(*word))?;
    put_list(
        f,
        names,
        items(&s.cpus_allowed_list),
        |range| Span(range.0, range.1),
    )?;
    put_list(f, names, items(&s.mems_allowed), |word| Word(*word))?;
    put_list(
        f,
        names,
        items(&s.mems_allowed_list),
        |range| Span(range.0, range.1),
    )?;
    put(f, names, OrDash(s.voluntary_ctxt_switches))?;
    put(f, names, OrDash(s.nonvoluntary_ctxt_switches))?;
    put(f, names, OrDash(s.core_dumping))?;
    put(f, names, OrDash(s.thp_enabled))
}

#[derive(Clone, Copy)]
struct Fields<'a>(&'a Status);

impl Display for Fields<'_> {
    fn fmt<W: fmt::Write>(&self, f: &mut Formatter<W>) -> fmt::Result {
        let mut names = Names(0);
        put_ids(f, &mut names, self.0)?;
        put_owner(f, &mut names, self.0)?;
        put_spaces(f, &mut names, self.0)?;
        put_memory(f, &mut names, self.0)?;
        put_signals(f, &mut names, self.0)?;
        put_others(f, &mut names, self.0)
    }
}

/// The fields of a source's status text, a line each.
pub fn status_text<'a, S: Source>(alloc: Global, source: &mut S) -> Result<String, Trouble<'a>> {
    let mut status = Status::blank();
    read_status(source, &mut status)?;
    Ok(format!(in alloc; "{}", Fields(&status))?)
}
