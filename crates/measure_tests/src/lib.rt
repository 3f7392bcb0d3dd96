// Examples of sources and of mapping lines; what is expected comes from docs/SOURCES.md and docs/SMAPS.md.
#![tactic(auto)]

#[cfg(test)]
mod tests {
    use kinds::mapping::MemoryMap;
    use kinds::measure::{Closed, measure};
    use kinds::path::MMapPath;
    use kinds::perms::MMPermissions;
    use sources::fault::Refusal;
    use sources::held::Held;
    use sources::join::Join;
    use sources::reason::Reason;
    use sources::source::{Piece, Source};
    use sources::spool::Spool;
    use std::test::Fail;

    // A measure as its mappings and totals: Rss, Pss, SwapPss.
    fn told(r: Result<Closed, Refusal>) -> Result<(u32, u64, u64, u64), Refusal> {
        let closed = r?;
        let t = closed.totals();
        Ok((closed.mappings(), t.rss, t.pss, t.swap_pss))
    }

    // A record of a recording: the first 62 bytes of a text, and a mark.
    fn record(text: &[u8], mark: u8) -> [u8; 64] {
        let n = text.len().min(62);
        let mut record = [0; 64];
        // The check shows that it fits.
        record[0] = n as u8;
        record[1] = mark;
        record[2..2 + n].copy_from_slice(&text[..n]);
        record
    }

    // A last record that says `n` text bytes, and has a byte 120 everywhere behind them.
    fn counted(n: u8) -> [u8; 64] {
        let mut record = [120; 64];
        record[0] = n;
        record[1] = 1;
        record
    }

    fn spooled(recording: &[u8]) -> Result<(u32, u64, u64, u64), Refusal> {
        let mut spool = Spool::new(recording)?;
        told(measure(&mut spool))
    }

    #[test]
    fn pieces(rt: HostRuntime) {
        let mut source = Held::new(b"ab\ncd");
        let mut buf = [7u8; 4];
        assert_eq!(rt; source.piece(&mut buf[0..0]), Piece::Bytes(0));
        assert_eq!(rt; source.piece(&mut buf[0..2]), Piece::Bytes(2));
        assert_eq!(rt; buf, [b'a', b'b', 7, 7]);
        assert_eq!(rt; source.piece(&mut buf), Piece::Bytes(1));
        assert_eq!(rt; buf, [10, b'b', 7, 7]);
        assert_eq!(rt; source.piece(&mut buf), Piece::Bytes(2));
        assert_eq!(rt; buf, [b'c', b'd', 7, 7]);
        assert_eq!(rt; source.piece(&mut buf[0..0]), Piece::Bytes(0));
        assert_eq!(rt; source.piece(&mut buf), Piece::Ended);
        assert_eq!(rt; source.piece(&mut buf), Piece::Ended);
    }

    #[test]
    fn recordings(rt: HostRuntime) -> Result<(), Fail> {
        let bad = Err(Refusal::new(Reason::Spool, 0));
        let mut whole = Vec::new(rt.alloc());
        whole.extend_from_slice(&record(b"1-2 r 0 0:0 0 \nPss: 1", 0))?;
        whole.extend_from_slice(&record(b"", 0))?;
        assert_eq!(rt; spooled(whole.as_slice()), bad);
        whole.extend_from_slice(&record(b"2\nSwapPss: 5\n", 1))?;
        assert_eq!(rt; spooled(whole.as_slice()), Ok((1, 0, 12, 5)));
        whole.extend_from_slice(&record(b"", 1))?;
        assert_eq!(rt; spooled(whole.as_slice()), bad);
        Ok(())
    }

    // A rest before a broken ending is lost, also where more is joined to it.
    #[test]
    fn broken_recording(rt: HostRuntime) -> Result<(), Fail> {
        let torn = record(b"1-2 r 0 0:0 0 \nPss: 1", 2);
        let broken = Err(Refusal::new(Reason::Broken, 2));
        assert_eq!(rt; spooled(&torn), broken);
        let mut both = Join::new(Spool::new(&torn)?, Held::new(b"\nRss: 1\n"));
        assert_eq!(rt; told(measure(&mut both)), broken);
        Ok(())
    }

    #[test]
    fn bad_records(rt: HostRuntime) -> Result<(), Fail> {
        let bad = Err(Refusal::new(Reason::Spool, 0));
        let short = Err(Refusal::new(Reason::Short, 1));
        assert_eq!(rt; spooled(&[]), bad);
        assert_eq!(rt; spooled(&record(b"a", 3)), bad);
        let mut one = record(b"a", 1).to_vec(rt.alloc())?;
        assert_eq!(rt; spooled(one.as_slice()), short);
        one.push(0)?;
        assert_eq!(rt; spooled(one.as_slice()), bad);
        // 63 text bytes, and a byte behind the text that is not 0
        assert_eq!(rt; spooled(&counted(63)), bad);
        assert_eq!(rt; spooled(&counted(62)), short);
        assert_eq!(rt; spooled(&counted(61)), bad);
        Ok(())
    }

    #[test]
    fn mapping_lines(rt: HostRuntime) -> Result<(), Fail> {
        let table: [(&str, MMapPath<'static>); 14] = [
            ("", MMapPath::Anonymous),
            ("                 /a b ", MMapPath::Path("/a b ")),
            ("/a (deleted)\n", MMapPath::Path("/a (deleted)")),
            ("[heap]\n", MMapPath::Heap),
            ("[stack]", MMapPath::Stack),
            ("[stack:12:3]", MMapPath::TStack(12)),
            (" [vdso] ", MMapPath::Vdso),
            ("[vvar]", MMapPath::Vvar),
            ("[vsyscall]", MMapPath::Vsyscall),
            ("[rollup]", MMapPath::Rollup),
            ("/SYSV0000abCD (deleted)", MMapPath::Vsys(43981)),
            ("/SYSVfffffffe", MMapPath::Vsys(-2)),
            ("/SYSV00000000.log", MMapPath::Path("/SYSV00000000.log")),
            ("[anon:x]", MMapPath::Other("anon:x")),
        ];
        for (text, path) in table {
            assert_eq!(rt; MMapPath::from(text), Ok(path));
        }
        assert_eq!(rt; MMapPath::from_bytes(b"[heap]"), Ok(MMapPath::Heap));
        let broken = Err(Refusal::new(Reason::Broken, 0));
        assert_eq!(rt; MMapPath::from_bytes(b"/a\xff"), broken);
        let map = MemoryMap::from_line("1000-2fFf rwxsp 30 4:-5 60 /a\n")?;
        assert_eq!(rt; map.address, (4096, 12287));
        assert_eq!(rt; map.perms, MMPermissions { bits: 31 });
        assert_eq!(rt;
            MMPermissions::from_letters("-w-p"),
            MMPermissions { bits: 18 }
        );
        assert_eq!(rt;
            MMPermissions::from_letters("rxs"),
            MMPermissions { bits: 13 }
        );
        assert_eq!(rt; (map.offset, map.dev, map.inode), (48, (4, -5), 60));
        assert_eq!(rt; map.pathname, MMapPath::Path("/a"));
        Ok(())
    }

    #[test]
    fn joins(rt: HostRuntime) {
        let first = Join::new(Held::new(b"1-2 r 0 0:0 0 \nRss"), Held::new(b": 4 k"));
        let mut all = Join::new(first, Held::new(b"B\n1-2 r 0 0:0 0 \nRss: 1\n"));
        assert_eq!(rt; told(measure(&mut all)), Ok((2, 4097, 0, 0)));
    }
}
