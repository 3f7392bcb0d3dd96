ghost use Rattle.std.specs.Prelude.{◌≡◌, map};
ghost use Rattle.status.specs.Names.{field_of, names_with, named};

// The names of lines that begin with a byte, each with the number of the first field that its line sets, as docs/STATUS.md numbers the fields and refusals tell them.
// By their first bytes, so that a name is compared with few others.
fn names_with(first: u8) -> &'static [(u8, &'static str)]
    ensures { map named result.now ≡ names_with first }
{
    match first {
        b'N' => &[
            (1, "Name"),
            (5, "Ngid"),
            (19, "NStgid"),
            (20, "NSpid"),
            (21, "NSpgid"),
            (22, "NSsid"),
            (51, "NoNewPrivs"),
        ],
        b'U' => &[(2, "Umask"), (9, "Uid")],
        b'S' => &[
            (3, "State"),
            (40, "SigQ"),
            (41, "SigPnd"),
            (42, "ShdPnd"),
            (43, "SigBlk"),
            (44, "SigIgn"),
            (45, "SigCgt"),
            (52, "Seccomp"),
            (53, "Speculation_Store_Bypass"),
        ],
        b'T' => &[
            (4, "Tgid"),
            (8, "TracerPid"),
            (39, "Threads"),
            (61, "THP_enabled"),
        ],
        b'P' => &[(6, "Pid"), (7, "PPid")],
        b'G' => &[(13, "Gid"), (18, "Groups")],
        b'F' => &[(17, "FDSize")],
        b'V' => &[
            (23, "VmPeak"),
            (24, "VmSize"),
            (25, "VmLck"),
            (26, "VmPin"),
            (27, "VmHWM"),
            (28, "VmRSS"),
            (32, "VmData"),
            (33, "VmStk"),
            (34, "VmExe"),
            (35, "VmLib"),
            (36, "VmPTE"),
            (37, "VmSwap"),
        ],
        b'R' => &[(29, "RssAnon"), (30, "RssFile"), (31, "RssShmem")],
        b'H' => &[(38, "HugetlbPages")],
        b'C' => &[
            (46, "CapInh"),
            (47, "CapPrm"),
            (48, "CapEff"),
            (49, "CapBnd"),
            (50, "CapAmb"),
            (54, "Cpus_allowed"),
            (55, "Cpus_allowed_list"),
            (60, "CoreDumping"),
        ],
        b'M' => &[(56, "Mems_allowed"), (57, "Mems_allowed_list")],
        b'v' => &[(58, "voluntary_ctxt_switches")],
        b'n' => &[(59, "nonvoluntary_ctxt_switches")],
        _ => &[],
    }
}

// The number of the first field that a line of this name sets, where the name is one of these.
pub(crate) fn field_of(name: &str) -> Option<u8>
    ensures { result ≡ field_of name.now }
{
    let first = *name.as_bytes().first()?;
    names_with(first)
        .iter()
        .find(|own| own.1 == name)
        .map(|own| own.0)
}
