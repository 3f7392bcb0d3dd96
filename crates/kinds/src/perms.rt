ghost use Rattle.std.specs.Prelude.{◌≡◌};
ghost use Rattle.kinds.specs.Perms.{bit_of, perms_of};

/// What a process may do with a mapping, a bit each.
#[derive(Clone, Copy, PartialEq, Eq, Debug)]
pub struct MMPermissions {
    pub bits: u8,
}

impl MMPermissions {
    /// Constants, by their names in the Rust.
    pub const NONE: u8 = 0;

    /// Letter r.
    pub const READ: u8 = 1;

    /// Letter w.
    pub const WRITE: u8 = 2;

    /// Letter x.
    pub const EXECUTE: u8 = 4;

    /// Letter s.
    pub const SHARED: u8 = 8;

    /// Letter p: writes are not shared.
    pub const PRIVATE: u8 = 16;

    // The bit of a letter, and none for another byte.
    fn from_ascii_char(b: u8) -> u8
        ensures { result ≡ bit_of b }
    {
        match b {
            b'r' => Self::READ,
            b'w' => Self::WRITE,
            b'x' => Self::EXECUTE,
            b's' => Self::SHARED,
            b'p' => Self::PRIVATE,
            _ => Self::NONE,
        }
    }

    /// The union over the letters.
    pub fn from_letters(text: &str) -> MMPermissions
        ensures { result.bits ≡ perms_of text.now }
    {
        // A loop over the bytes, as the union is defined: one bit or-ed in for each.
        let mut bits = 0;
        for b in text.as_bytes() {
            bits |= Self::from_ascii_char(*b);
        }
        MMPermissions { bits }
    }

    /// The constants are the bits of the letters r, w, x, s and p, and of a byte that is none.
    pub fn constants_are_bits()
        ensures { (MMPermissions.READ ≡ bit_of 114) × (MMPermissions.WRITE ≡ bit_of 119) × (MMPermissions.EXECUTE ≡ bit_of 120) × (MMPermissions.SHARED ≡ bit_of 115) × (MMPermissions.PRIVATE ≡ bit_of 112) × (MMPermissions.NONE ≡ bit_of 0) }
    {}
}
