// Targets, system calls and words of page tables.
use crate::trouble::Trouble;
use cli::escaped::Escaped;
use std::alloc::Global;
use std::fmt;
use std::fmt::{Display, Formatter};
use support::page::{PageFlags, PageInfo};
use support::syscall::Syscall;
use support::target::FDTarget;

#[derive(Clone, Copy)]
struct Target<'a>(FDTarget<'a>);

impl Display for Target<'_> {
    fn fmt<W: fmt::Write>(&self, f: &mut Formatter<W>) -> fmt::Result {
        match self.0 {
            FDTarget::Path(path) => write!(f, "path {}", Escaped(path)),
            FDTarget::Socket(inode) => write!(f, "socket inode {inode}"),
            FDTarget::Net(inode) => write!(f, "net inode {inode}"),
            FDTarget::Pipe(inode) => write!(f, "pipe inode {inode}"),
            FDTarget::AnonInode(name) => write!(f, "anon_inode {}", Escaped(name)),
            FDTarget::MemFD(name) => write!(f, "memfd {}", Escaped(name)),
            FDTarget::Other(kind, inode) => { write!(f, "other {} inode {inode}", Escaped(kind)) }
            FDTarget::Unknown(kind, rest) => {
                write!(f, "unknown {} ", Escaped(kind))?;
                write!(f, "{}", Escaped(rest))
            }
        }
    }
}

/// What a target stands for.
pub fn target_text<'a>(alloc: Global, text: &str) -> Result<String, Trouble<'a>> {
    let target = FDTarget::from_bytes(text.as_bytes())?;
    Ok(format!(in alloc; "{}\n", Target(target))?)
}

#[derive(Clone, Copy)]
struct Call(Syscall);

impl Display for Call {
    fn fmt<W: fmt::Write>(&self, f: &mut Formatter<W>) -> fmt::Result {
        match self.0 {
            Syscall::Running => f.write_str("running\n"),
            Syscall::Blocked {
                syscall_number,
                argument_registers,
                stack_pointer,
                program_counter,
            } => {
                write!(f, "call {syscall_number}\narguments")?;
                for register in argument_registers {
                    write!(f, " 0x{register:x}")?;
                }
                write!(f, "\nstack pointer 0x{stack_pointer:x}\n")?;
                write!(f, "program counter 0x{program_counter:x}\n")
            }
        }
    }
}

/// The system call that a text tells.
pub fn call_text<'a>(alloc: Global, bytes: &[u8]) -> Result<String, Trouble<'a>> {
    let call = Syscall::from_bytes(bytes)?;
    Ok(format!(in alloc; "{}", Call(call))?)
}

// The flags of a word, by name.
fn put_flags<W: fmt::Write, P: PageFlags>(f: &mut Formatter<W>, word: &P) -> fmt::Result {
    for (name, set) in [
        ("present", word.is_present()),
        ("file-or-shared", word.is_file_or_shared_anon()),
        ("write-protected", word.is_write_protected()),
        ("exclusive", word.is_exclusively_mapped()),
        ("soft-dirty", word.is_soft_dirty()),
    ] {
        if set {
            write!(f, " {name}")?;
        }
    }
    Ok(())
}

#[derive(Clone, Copy)]
struct Page(PageInfo);

impl Display for Page {
    fn fmt<W: fmt::Write>(&self, f: &mut Formatter<W>) -> fmt::Result {
        match self.0 {
            // Only of a page in memory do the low bits tell a frame.
            PageInfo::MemoryPage(page) if page.is_present() => {
                write!(f, "memory frame 0x{:x}", page.get_page_frame_number())?;
                put_flags(f, &page)
            }
            PageInfo::MemoryPage(page) => {
                f.write_str("not present")?;
                put_flags(f, &page)
            }
            PageInfo::SwapPage(page) => {
                write!(f, "swap type {}", page.get_swap_type())?;
                write!(f, " offset 0x{:x} swapped", page.get_swap_offset())?;
                put_flags(f, &page)
            }
        }
    }
}

// The words that bytes are, the lowest byte of each first.
#[derive(Clone, Copy)]
struct Words<'a>(&'a [u8]);

// The number that bytes are.
fn word_of(bytes: &[u8]) -> Option<u64> {
    let cells: [u8; 8] = bytes.try_into().ok()?;
    Some(u64::from_le_bytes(cells))
}

impl Display for Words<'_> {
    fn fmt<W: fmt::Write>(&self, f: &mut Formatter<W>) -> fmt::Result {
        for (number, bytes) in self.0.chunks(8).enumerate() {
            match word_of(bytes) {
                Some(word) => write!(f, "{number}: {}\n", Page(PageInfo::parse_info(word)))?,
                None => write!(f, "{number}: cut off, {} bytes of 8\n", bytes.len())?,
            }
        }
        Ok(())
    }
}

/// The words that bytes are, a line each.
pub fn pages_text<'a>(alloc: Global, bytes: &[u8]) -> Result<String, Trouble<'a>> {
    Ok(format!(in alloc; "{}", Words(bytes))?)
}
