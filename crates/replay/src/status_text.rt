// The answer to a status text: `ok` and the 61 fields in order, or `refused`.
use crate::quoted::Quoted;
use crate::text::Text;
use crate::{Answer, record_answer};
use fields::counted::Counted;
use kinds::status_text::read_status;
use status::record::Status;
use std::alloc::{AllocError, Global};
use std::fmt;
use std::fmt::{Display, Formatter};

// A value, or `-` where there is none.
#[derive(Clone, Copy)]
struct OrDash<T>(Option<T>);

impl<T: Display> Display for OrDash<T> {
    fn fmt<W: fmt::Write>(&self, f: &mut Formatter<W>) -> fmt::Result {
        match &self.0 {
            Some(value) => write!(f, "{value}"),
            None => f.write_str("-"),
        }
    }
}

// A range, by its first and its last.
#[derive(Clone, Copy)]
struct Span((u32, u32));

impl Display for Span {
    fn fmt<W: fmt::Write>(&self, f: &mut Formatter<W>) -> fmt::Result {
        let (first, last) = self.0;
        write!(f, "{first}-{last}")
    }
}

fn items<T: Copy, const N: usize>(list: &Option<Counted<T, N>>) -> Option<&[T]> {
    list.as_ref().map(Counted::items)
}

// A space, and a list in brackets, with commas between its items as `shown` has them, or `-` where there is none.
fn put_list<W: fmt::Write, T, D: Display + Drop, F: Fn(&T) -> D>(
    f: &mut Formatter<W>,
    list: Option<&[T]>,
    shown: F,
) -> fmt::Result
    requires { F.IsAlwaysCallable shown }
{
    let Some(items) = list else {
        return f.write_str(" -");
    };
    f.write_str(" [")?;
    if let Some((first, others)) = items.split_first() {
        write!(f, "{}", shown(first))?;
        for item in others {
            write!(f, ",{}", shown(item))?;
        }
    }
    f.write_str("]")
}

// The fields of a record in order, each after a space.
#[derive(Clone, Copy)]
struct Fields<'a>(&'a Status);

impl Display for Fields<'_> {
    fn fmt<W: fmt::Write>(&self, f: &mut Formatter<W>) -> fmt::Result {
        put_ids(f, self.0)?;
        put_memory(f, self.0)?;
        put_signals(f, self.0)?;
        put_others(f, self.0)
    }
}

fn put_ids<W: fmt::Write>(f: &mut Formatter<W>, s: &Status) -> fmt::Result {
    write!(f, " {} {}", Quoted(s.name.items()), OrDash(s.umask))?;
    write!(f, " {} {}", Quoted(s.state.items()), s.tgid)?;
    write!(f, " {} {}", OrDash(s.ngid), s.pid)?;
    write!(f, " {} {}", s.ppid, s.tracerpid)?;
    write!(f, " {} {} {} {}", s.ruid, s.euid, s.suid, s.fuid)?;
    write!(f, " {} {} {} {}", s.rgid, s.egid, s.sgid, s.fgid)
}

fn put_memory<W: fmt::Write>(f: &mut Formatter<W>, s: &Status) -> fmt::Result {
    write!(f, " {}", s.fdsize)?;
    put_list(f, Some(s.groups.items()), |id| *id)?;
    for list in [&s.nstgid, &s.nspid, &s.nspgid, &s.nssid] {
        put_list(f, items(list), |id| *id)?;
    }
    for size in [
        s.vmpeak,
        s.vmsize,
        s.vmlck,
        s.vmpin,
        s.vmhwm,
        s.vmrss,
        s.rssanon,
        s.rssfile,
        s.rssshmem,
        s.vmdata,
        s.vmstk,
        s.vmexe,
        s.vmlib,
        s.vmpte,
        s.vmswap,
        s.hugetlbpages,
    ] {
        write!(f, " {}", OrDash(size))?;
    }
    Ok(())
}

fn put_signals<W: fmt::Write>(f: &mut Formatter<W>, s: &Status) -> fmt::Result {
    write!(f, " {} {}/{}", s.threads, s.sigq.0, s.sigq.1)?;
    for mask in [
        s.sigpnd, s.shdpnd, s.sigblk, s.sigign, s.sigcgt, s.capinh, s.capprm, s.capeff,
    ] {
        write!(f, " {mask}")?;
    }
    write!(f, " {} {}", OrDash(s.capbnd), OrDash(s.capamb))?;
    write!(f, " {} {}", OrDash(s.nonewprivs), OrDash(s.seccomp))
}

fn put_others<W: fmt::Write>(f: &mut Formatter<W>, s: &Status) -> fmt::Result {
    let bypass = s.speculation_store_bypass.as_ref();
    write!(f, " {}", OrDash(bypass.map(|text| Quoted(text.items()))))?;
    put_list(f, items(&s.cpus_allowed), |mask| *mask)?;
    put_list(f, items(&s.cpus_allowed_list), |range| Span(*range))?;
    put_list(f, items(&s.mems_allowed), |mask| *mask)?;
    put_list(f, items(&s.mems_allowed_list), |range| Span(*range))?;
    write!(f, " {}", OrDash(s.voluntary_ctxt_switches))?;
    write!(f, " {}", OrDash(s.nonvoluntary_ctxt_switches))?;
    write!(f, " {} {}", OrDash(s.core_dumping), OrDash(s.thp_enabled))
}

pub fn answer(heap: Global, text: &Text) -> Result<Answer, AllocError> {
    let mut record = Status::blank();
    let read = text
        .source()
        .and_then(|mut source| read_status(&mut source, &mut record));
    record_answer(heap, read, Fields(&record))
}
