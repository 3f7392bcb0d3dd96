ghost use Rattle.std.specs.Prelude.{◌≡◌, ℕ, ◌<◌, ◌^◌};
ghost use Rattle.support.specs.Page.{page_frame_number, page_of, soft_dirty, exclusively_mapped, write_protected, file_or_shared_anon, swapped, present, swap_offset, swap_type, memory_word, swap_word};

/// What a word says of its page, of whichever sort.
pub trait PageFlags: Sized {
    ghost word: { Self → ℕ };

    // The whole word.
    fn bits(&self) -> u64
        ensures { result ≡ word self.now };

    fn is_soft_dirty(&self) -> bool
        ensures { result ≡ soft_dirty (word self.now) }
    {
        self.bits() >> 55 & 1 == 1
    }

    fn is_exclusively_mapped(&self) -> bool
        ensures { result ≡ exclusively_mapped (word self.now) }
    {
        self.bits() >> 56 & 1 == 1
    }

    fn is_write_protected(&self) -> bool
        ensures { result ≡ write_protected (word self.now) }
    {
        self.bits() >> 57 & 1 == 1
    }

    fn is_file_or_shared_anon(&self) -> bool
        ensures { result ≡ file_or_shared_anon (word self.now) }
    {
        self.bits() >> 61 & 1 == 1
    }

    fn is_swapped(&self) -> bool
        ensures { result ≡ swapped (word self.now) }
    {
        self.bits() >> 62 & 1 == 1
    }

    fn is_present(&self) -> bool
        ensures { result ≡ present (word self.now) }
    {
        self.bits() >> 63 & 1 == 1
    }
}

/// The word of a page that is not swapped.
#[derive(Clone, Copy, PartialEq, Eq, Debug)]
pub struct MemoryPageFlags {
    pub bits: u64,
}

/// The word of a swapped page.
#[derive(Clone, Copy, PartialEq, Eq, Debug)]
pub struct SwapPageFlags {
    pub bits: u64,
}

impl PageFlags for MemoryPageFlags {
    ghost word = { λ p. p.bits };

    fn bits(&self) -> u64
        ensures bits { result ≡ self.now.bits }
        ensures parts { result ≡ memory_word self.now.bits }
    {
        self.bits
    }
}

impl PageFlags for SwapPageFlags {
    ghost word = { λ p. p.bits };

    fn bits(&self) -> u64
        ensures bits { result ≡ self.now.bits }
        ensures parts { result ≡ swap_word self.now.bits }
    {
        self.bits
    }
}

impl MemoryPageFlags {
    /// Bits 0 to 54: the number of the page's frame, where the page is present (pagemap.rst).
    pub fn get_page_frame_number(&self) -> u64
        ensures value { result ≡ page_frame_number self.now.bits }
        ensures fits { result < 2 ^ 55 }
    {
        self.bits & ((1 << 55) - 1)
    }
}

impl SwapPageFlags {
    /// Bits 0 to 4: which swap area the page is in (pagemap.rst).
    pub fn get_swap_type(&self) -> u64
        ensures value { result ≡ swap_type self.now.bits }
        ensures fits { result < 2 ^ 5 }
    {
        self.bits & ((1 << 5) - 1)
    }

    /// Bits 5 to 54: where in that area (pagemap.rst).
    pub fn get_swap_offset(&self) -> u64
        ensures value { result ≡ swap_offset self.now.bits }
        ensures fits { result < 2 ^ 50 }
    {
        self.bits >> 5 & ((1 << 50) - 1)
    }
}

/// What a word of a page table is of.
#[derive(Clone, Copy, PartialEq, Eq, Debug)]
pub enum PageInfo {
    MemoryPage(MemoryPageFlags),
    SwapPage(SwapPageFlags),
}

impl PageInfo {
    /// Which sort a word is of: bit 62 says that the page is swapped (pagemap.rst). No word is refused.
    pub fn parse_info(info: u64) -> PageInfo
        ensures { result ≡ page_of info }
    {
        let flags = MemoryPageFlags { bits: info };
        if flags.is_swapped() {
            PageInfo::SwapPage(SwapPageFlags { bits: info })
        } else {
            PageInfo::MemoryPage(flags)
        }
    }
}
