// The answers to single values. Of a target, the case with its parts, each text as an equals sign and its bytes in base 16; of a system call, `running` or its nine numbers.
// Of a page word, `memory` with the word and the frame number, or `swap` with the word, the type and the offset, and then the six bits that have a name.
use crate::text::Text;
use crate::{Answer, record_answer};
use std::alloc::{AllocError, Global};
use std::fmt;
use std::fmt::{Display, Formatter};
use support::page::{PageFlags, PageInfo};
use support::syscall::Syscall;
use support::target::FDTarget;

#[derive(Clone, Copy)]
struct Name<'a>(&'a str);

impl Display for Name<'_> {
    fn fmt<W: fmt::Write>(&self, f: &mut Formatter<W>) -> fmt::Result {
        f.write_str("=")?;
        for byte in self.0.as_bytes() {
            write!(f, "{byte:02x}")?;
        }
        Ok(())
    }
}

#[derive(Clone, Copy)]
struct Target<'a>(FDTarget<'a>);

impl Display for Target<'_> {
    fn fmt<W: fmt::Write>(&self, f: &mut Formatter<W>) -> fmt::Result {
        match self.0 {
            FDTarget::Path(name) => write!(f, " path {}", Name(name)),
            FDTarget::Socket(inode) => write!(f, " socket {inode}"),
            FDTarget::Net(inode) => write!(f, " net {inode}"),
            FDTarget::Pipe(inode) => write!(f, " pipe {inode}"),
            FDTarget::AnonInode(rest) => write!(f, " anon_inode {}", Name(rest)),
            FDTarget::MemFD(name) => write!(f, " memfd {}", Name(name)),
            FDTarget::Other(kind, inode) => write!(f, " other {} {inode}", Name(kind)),
            FDTarget::Unknown(kind, rest) => write!(f, " unknown {} {}", Name(kind), Name(rest)),
        }
    }
}

pub fn target_answer(heap: Global, text: &Text) -> Result<Answer, AllocError> {
    match FDTarget::from_bytes(text.bytes.as_slice()) {
        Ok(target) => record_answer(heap, Ok(()), Target(target)),
        Err(refusal) => record_answer(heap, Err(refusal), ""),
    }
}

#[derive(Clone, Copy)]
struct Call(Syscall);

impl Display for Call {
    fn fmt<W: fmt::Write>(&self, f: &mut Formatter<W>) -> fmt::Result {
        match self.0 {
            Syscall::Running => f.write_str(" running"),
            Syscall::Blocked {
                syscall_number,
                argument_registers,
                stack_pointer,
                program_counter,
            } => {
                write!(f, " {syscall_number}")?;
                for register in argument_registers {
                    write!(f, " {register}")?;
                }
                write!(f, " {stack_pointer} {program_counter}")
            }
        }
    }
}

pub fn syscall_answer(heap: Global, text: &Text) -> Result<Answer, AllocError> {
    match Syscall::from_bytes(text.bytes.as_slice()) {
        Ok(call) => record_answer(heap, Ok(()), Call(call)),
        Err(refusal) => record_answer(heap, Err(refusal), ""),
    }
}

#[derive(Clone, Copy)]
struct Bits<P>(P);

impl<P: PageFlags> Display for Bits<P> {
    fn fmt<W: fmt::Write>(&self, f: &mut Formatter<W>) -> fmt::Result {
        let flags = &self.0;
        for bit in [
            flags.is_soft_dirty(),
            flags.is_exclusively_mapped(),
            flags.is_write_protected(),
            flags.is_file_or_shared_anon(),
            flags.is_swapped(),
            flags.is_present(),
        ] {
            write!(f, " {bit}")?;
        }
        Ok(())
    }
}

#[derive(Clone, Copy)]
struct Page(PageInfo);

impl Display for Page {
    fn fmt<W: fmt::Write>(&self, f: &mut Formatter<W>) -> fmt::Result {
        match self.0 {
            PageInfo::MemoryPage(page) => {
                write!(
                    f,
                    " memory {} {}",
                    page.bits(),
                    page.get_page_frame_number()
                )?;
                write!(f, "{}", Bits(page))
            }
            PageInfo::SwapPage(page) => {
                write!(
                    f,
                    " swap {} {} {}",
                    page.bits(),
                    page.get_swap_type(),
                    page.get_swap_offset()
                )?;
                write!(f, "{}", Bits(page))
            }
        }
    }
}

// The word of the first eight bytes, the lowest first; bytes that lack are 0.
fn word(text: &[u8]) -> u64 {
    let mut bytes = [0; 8];
    for (place, byte) in bytes.iter_mut().zip(text) {
        *place = *byte;
    }
    u64::from_le_bytes(bytes)
}

pub fn page_answer(heap: Global, text: &Text) -> Result<Answer, AllocError> {
    record_answer(
        heap,
        Ok(()),
        Page(PageInfo::parse_info(word(text.bytes.as_slice()))),
    )
}
