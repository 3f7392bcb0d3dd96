ghost use Rattle.std.specs.Prelude.{◌≡◌, [], ◌∷◌, codes, map};
ghost use Rattle.kinds.specs.Rows.Flags.{flag_names, known, flag_bit, flags_of};

/// The flags of a mapping, a bit each, by their names in the Rust, which are the kernel's in capital letters.
pub struct VmFlags;

impl VmFlags {
    /// Readable.
    pub const RD: u32 = 0x1;

    /// Writable.
    pub const WR: u32 = 0x2;

    /// Executable.
    pub const EX: u32 = 0x4;

    /// Shared.
    pub const SH: u32 = 0x8;

    /// May be made readable.
    pub const MR: u32 = 0x10;

    /// May be made writable.
    pub const MW: u32 = 0x20;

    /// May be made executable.
    pub const ME: u32 = 0x40;

    /// May be made shared.
    pub const MS: u32 = 0x80;

    /// A stack, which grows down.
    pub const GD: u32 = 0x100;

    /// Frames that are no pages of memory.
    pub const PF: u32 = 0x200;

    /// The file that is mapped may not be written.
    pub const DW: u32 = 0x400;

    /// Its pages are locked in memory.
    pub const LO: u32 = 0x800;

    /// Memory of a device.
    pub const IO: u32 = 0x1000;

    /// Will be read from front to back.
    pub const SR: u32 = 0x2000;

    /// Will be read here and there.
    pub const RR: u32 = 0x4000;

    /// Is not copied on fork.
    pub const DC: u32 = 0x8000;

    /// Does not grow when it is mapped anew.
    pub const DE: u32 = 0x10000;

    /// Is accounted for.
    pub const AC: u32 = 0x20000;

    /// No swap space is set aside for it.
    pub const NR: u32 = 0x40000;

    /// Of huge pages.
    pub const HT: u32 = 0x80000;

    /// Faults are written through to the file.
    pub const SF: u32 = 0x100000;

    /// Non-linear.
    pub const NL: u32 = 0x200000;

    /// Of the architecture.
    pub const AR: u32 = 0x400000;

    /// Is wiped on fork.
    pub const WF: u32 = 0x800000;

    /// Is left out of a core dump.
    pub const DD: u32 = 0x1000000;

    /// Written since soft-dirty was cleared.
    pub const SD: u32 = 0x2000000;

    /// Frames and pages of memory mixed.
    pub const MM: u32 = 0x4000000;

    /// Huge pages are advised.
    pub const HG: u32 = 0x8000000;

    /// Huge pages are not to be used.
    pub const NH: u32 = 0x10000000;

    /// Equal pages may be merged.
    pub const MG: u32 = 0x20000000;

    /// Missing pages are left to a user.
    pub const UM: u32 = 0x40000000;

    /// Write faults are left to a user.
    pub const UW: u32 = 0x80000000;

    /// Each with the kernel's name.
    pub const NAMES: [(u32, &'static str); 32] = [
        (VmFlags::RD, "rd"),
        (VmFlags::WR, "wr"),
        (VmFlags::EX, "ex"),
        (VmFlags::SH, "sh"),
        (VmFlags::MR, "mr"),
        (VmFlags::MW, "mw"),
        (VmFlags::ME, "me"),
        (VmFlags::MS, "ms"),
        (VmFlags::GD, "gd"),
        (VmFlags::PF, "pf"),
        (VmFlags::DW, "dw"),
        (VmFlags::LO, "lo"),
        (VmFlags::IO, "io"),
        (VmFlags::SR, "sr"),
        (VmFlags::RR, "rr"),
        (VmFlags::DC, "dc"),
        (VmFlags::DE, "de"),
        (VmFlags::AC, "ac"),
        (VmFlags::NR, "nr"),
        (VmFlags::HT, "ht"),
        (VmFlags::SF, "sf"),
        (VmFlags::NL, "nl"),
        (VmFlags::AR, "ar"),
        (VmFlags::WF, "wf"),
        (VmFlags::DD, "dd"),
        (VmFlags::SD, "sd"),
        (VmFlags::MM, "mm"),
        (VmFlags::HG, "hg"),
        (VmFlags::NH, "nh"),
        (VmFlags::MG, "mg"),
        (VmFlags::UM, "um"),
        (VmFlags::UW, "uw"),
    ];

    /// Each constant is the bit of its name, and the table is that of the definition.
    pub fn constants_are_bits()
        ensures constants { (VmFlags.RD, codes "rd") ∷ (VmFlags.WR, codes "wr") ∷ (VmFlags.EX, codes "ex") ∷ (VmFlags.SH, codes "sh")
            ∷ (VmFlags.MR, codes "mr") ∷ (VmFlags.MW, codes "mw") ∷ (VmFlags.ME, codes "me") ∷ (VmFlags.MS, codes "ms")
            ∷ (VmFlags.GD, codes "gd") ∷ (VmFlags.PF, codes "pf") ∷ (VmFlags.DW, codes "dw") ∷ (VmFlags.LO, codes "lo")
            ∷ (VmFlags.IO, codes "io") ∷ (VmFlags.SR, codes "sr") ∷ (VmFlags.RR, codes "rr") ∷ (VmFlags.DC, codes "dc")
            ∷ (VmFlags.DE, codes "de") ∷ (VmFlags.AC, codes "ac") ∷ (VmFlags.NR, codes "nr") ∷ (VmFlags.HT, codes "ht")
            ∷ (VmFlags.SF, codes "sf") ∷ (VmFlags.NL, codes "nl") ∷ (VmFlags.AR, codes "ar") ∷ (VmFlags.WF, codes "wf")
            ∷ (VmFlags.DD, codes "dd") ∷ (VmFlags.SD, codes "sd") ∷ (VmFlags.MM, codes "mm") ∷ (VmFlags.HG, codes "hg")
            ∷ (VmFlags.NH, codes "nh") ∷ (VmFlags.MG, codes "mg") ∷ (VmFlags.UM, codes "um") ∷ (VmFlags.UW, codes "uw")
            ∷ [] ≡ flag_names }
        ensures names { map (λ own. (own.0, own.1.now)) VmFlags.NAMES ≡ flag_names }
    {}
}

// The bit of a flag's name.
fn known(word: &str) -> Option<u32>
    ensures { result ≡ known word.now }
{
    VmFlags::NAMES
        .iter()
        .find(|own| own.1 == word)
        .map(|own| own.0)
}

// The same, and none for another word.
#[tactic(auto, unfolding(crate::specs::Rows::Flags::flag_bit))]
fn flag_of(word: &str) -> u32
    ensures { result ≡ flag_bit word.now }
{
    known(word).unwrap_or(0)
}

/// The union over the words behind the first.
pub fn flags_of(line: &str) -> u32
    ensures { result ≡ flags_of line.now }
{
    let mut words = line.split_ascii_whitespace();
    let _ = words.next();
    let mut bits = 0;
    for word in words {
        bits |= flag_of(word);
    }
    bits
}
