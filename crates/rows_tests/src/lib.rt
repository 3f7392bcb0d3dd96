// Examples of rows; what is expected comes from docs/ROWS.md.
#![tactic(auto)]

#[cfg(test)]
mod tests {
    use kinds::perms::MMPermissions;
    use kinds::rows::entry::Entry;
    use kinds::rows::path::{PathCell, Place};
    use kinds::rows::read::{Counts, read_rows};
    use kinds::rows::row::Row;
    use sources::fault::Refusal;
    use sources::held::Held;
    use sources::reason::Reason;

    const SAMPLE: &[u8] =
        b"1000-3000 r--p 00000000 08:01 77 /a\nRss: 8 kB\nPss: 4 kB\nRss: 9 kB\nVmFlags: rd mr\n3000-4000 rw-p 00000000 00:00 0 [x]\nPss: 3 kB\n";

    // A row that no reading leaves.
    fn other() -> Row {
        Row {
            inode: 5,
            flags: 9,
            ..Row::blank()
        }
    }

    fn at(reason: Reason, line: u32) -> Result<Counts, Refusal> {
        Err(Refusal {
            reason,
            line,
            field: 0,
        })
    }

    // What a text is read as, with three cells of each.
    fn answer(text: &[u8]) -> Result<Counts, Refusal> {
        let mut rows = [other(); 3];
        let mut entries = [Entry::blank(); 3];
        read_rows(&mut Held::new(text), &mut rows, &mut entries)
    }

    #[test]
    fn sample(rt: HostRuntime) {
        let mut rows = [other(); 3];
        let mut entries = [Entry::blank(); 3];
        let counts = read_rows(&mut Held::new(SAMPLE), &mut rows, &mut entries);
        assert_eq!(rt;
            counts,
            Ok(Counts {
                rows: 2,
                entries: 3
            })
        );
        assert_eq!(rt;
            rows[0],
            Row {
                address: (0x1000, 0x3000),
                perms: MMPermissions { bits: 17 },
                offset: 0,
                dev: (8, 1),
                inode: 77,
                path: PathCell {
                    kind: 0,
                    number: 0,
                    place: Place {
                        offset: 33,
                        length: 2
                    }
                },
                flags: 17,
                first: 0,
                count: 2,
            }
        );
        assert_eq!(rt;
            rows[1],
            Row {
                address: (0x3000, 0x4000),
                perms: MMPermissions { bits: 19 },
                offset: 0,
                dev: (0, 0),
                inode: 0,
                path: PathCell {
                    kind: 10,
                    number: 0,
                    place: Place {
                        offset: 114,
                        length: 1
                    }
                },
                flags: 0,
                first: 2,
                count: 1,
            }
        );
        assert_eq!(rt; rows[2], other());
        assert_eq!(rt; entries[0].key.items(), b"Rss".as_slice());
        assert_eq!(rt; entries[0].value, 9216);
        assert_eq!(rt; entries[1].key.items(), b"Pss".as_slice());
        assert_eq!(rt; entries[1].value, 4096);
        assert_eq!(rt; entries[2].key.items(), b"Pss".as_slice());
        assert_eq!(rt; entries[2].value, 3072);
    }

    #[test]
    fn full(rt: HostRuntime) {
        let mut rows = [other(); 3];
        let mut entries = [Entry::blank(); 2];
        let counts = read_rows(&mut Held::new(SAMPLE), &mut rows, &mut entries);
        assert_eq!(rt; counts, at(Reason::Full, 7));
        assert_eq!(rt; rows, [Row::blank(); 3]);
        assert_eq!(rt; entries[0].key.items().len(), 0);
        assert_eq!(rt; entries[0].value, 0);
    }

    #[test]
    fn refusals(rt: HostRuntime) {
        assert_eq!(rt;
            answer(b""),
            Ok(Counts {
                rows: 0,
                entries: 0
            })
        );
        assert_eq!(rt; answer(b"Rss: x"), at(Reason::Orphan, 1));
        assert_eq!(rt; answer(b"VmFlags: rd"), at(Reason::Orphan, 1));
        assert_eq!(rt; answer(b"1-2 r 0 0:0 0"), at(Reason::Short, 1));
        assert_eq!(rt; answer(b"1-2 r 0 0:0 0 \nRss: x"), at(Reason::Value, 2));
        assert_eq!(rt;
            answer(b"1-2 r 0 0:0 0 \nSize: 18014398509481984 kB"),
            at(Reason::Scale, 2)
        );
        assert_eq!(rt;
            answer(b"1-2 r 0 0:0 0 \nKKKKKKKKKKKKKKKKKKKKKKKKKKKKKKKKK: 4"),
            at(Reason::Key, 2)
        );
        assert_eq!(rt;
            answer(b"1-2 r 0 0:0 0 \nKKKKKKKKKKKKKKKKKKKKKKKKKKKKKKKKK: x"),
            at(Reason::Value, 2)
        );
        assert_eq!(rt;
            answer(b"1-2 r 0 0:0 0 \nKKKKKKKKKKKKKKKKKKKKKKKKKKKKKKKK:: 4"),
            Ok(Counts {
                rows: 1,
                entries: 1
            })
        );
        assert_eq!(rt;
            answer(b"1-2 r 0 0:0 0 \nRss:\nRss: 1\nRss 2"),
            Ok(Counts {
                rows: 1,
                entries: 1
            })
        );
        assert_eq!(rt;
            answer(b"1-2 r 0 0:0 0 \n1-2 r 0 0:0 0 \n1-2 r 0 0:0 0 \n1-2 r 0 0:0 0 \n"),
            at(Reason::Full, 4)
        );
        assert_eq!(rt;
            answer(b"1-2 r 0 0:0 0 \n1-2 r 0 0:0 0 \n1-2 r 0 0:0 0 \nx\n"),
            at(Reason::Short, 4)
        );
    }
}
