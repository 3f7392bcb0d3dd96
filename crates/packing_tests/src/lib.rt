// Examples of calls on a packing list. 19 has none: 64 charges of at most 2 to the 56th can't pass 2 to the 64th.
#![tactic(auto)]

#[cfg(test)]
mod tests {
    use kinds::measure::{Closed, Figures, measure};
    use limits::limit::LimitValue;
    use packing::list::PackingList;
    use packing::place::{Bounds, Noted, View};
    use sources::fault::Refusal;
    use sources::held::Held;
    use sources::join::Join;
    use sources::reason::Reason;
    use sources::source::{Piece, Source};
    use std::test::Fail;

    // Measures of the texts, to be charged 9216, 16 and 0 with no headroom.
    fn sample() -> Result<Closed, Refusal> {
        measure(&mut Held::new(
            b"1000-3000 r--p 00000000 08:01 77 /a\nRss: 8 kB\nPss: 4 kB\n3000-4000 rw-p 00000000 00:00 0 \nPss: 3 kB\nSwapPss: 2 kB\n",
        ))
    }

    fn small() -> Result<Closed, Refusal> {
        measure(&mut Held::new(b"1-2 r 0 0:0 0 \nRss: 3\nPss: 11\nSwapPss: 5\n"))
    }

    fn empty() -> Result<Closed, Refusal> {
        measure(&mut Held::new(b""))
    }

    fn figures(rss: u64, pss: u64, swap_pss: u64) -> Figures {
        Figures { rss, pss, swap_pss }
    }

    // What is seen of the sample with a headroom, where its charge is `charge`.
    fn sampled(headroom: u64, charge: u64) -> View {
        View {
            headroom,
            mappings: 2,
            totals: figures(8192, 7168, 2048),
            charge,
            noted: None,
            bounds: None,
        }
    }

    fn plain(reason: Reason) -> Refusal {
        Refusal {
            reason,
            line: 0,
            field: 0,
        }
    }

    fn at(reason: Reason, line: u32, field: u32) -> Result<(), Refusal> {
        Err(Refusal {
            reason,
            line,
            field,
        })
    }

    // Of a charge that is to be accepted.
    fn accepted(r: Result<(), (Refusal, Closed)>) -> Result<(), Refusal> {
        r.map_err(|(refusal, _)| refusal)
    }

    // Of a charge that is to be refused: the refusal, and the measure handed back.
    fn refused(r: Result<(), (Refusal, Closed)>) -> Result<(Refusal, Closed), &'static str> {
        match r {
            Ok(()) => Err("accepted"),
            Err(handed) => Ok(handed),
        }
    }

    // What a list tells: the sum, and what is kept of the jobs 7 and 8.
    fn told(list: &PackingList) -> (u64, Result<View, Refusal>, Result<View, Refusal>) {
        (list.used(), list.look(7), list.look(8))
    }

    // Notes a good status text of job 7, with more behind it.
    fn note(list: &mut PackingList, pid: i32, more: &[u8]) -> Result<(), Refusal> {
        let text =
            b"Name: a\nState: S (sleeping)\nTgid: 1\nPid: 7\nPPid: 0\nTracerPid: 0\nUid: 0 0 0 0\nGid: 0 0 0 0\nFDSize: 0\nGroups:\nThreads: 3\nSigQ: 0/0\nSigPnd: 0\nShdPnd: 0\nSigBlk: 0\nSigIgn: 0\nSigCgt: 0\nCapInh: 0\nCapPrm: 0\nCapEff: 0\n";
        list.note(pid, &mut Join::new(Held::new(text), Held::new(more)))
    }

    // Bounds a job by a good limits text, with more behind it.
    fn bound(list: &mut PackingList, pid: i32, more: &[u8]) -> Result<(), Refusal> {
        let text =
            b"Max cpu time 1 2 x\nMax file size 1 2 x\nMax data size 1 2 x\nMax stack size 1 2 x\nMax core file size 1 2 x\nMax resident set 1 2 x\nMax processes 1 2 x\nMax open files 1024 4096 x\nMax locked memory 1 2 x\nMax address space unlimited 5 x\nMax file locks 1 2 x\nMax pending signals 1 2 x\nMax msgqueue size 1 2 x\nMax nice priority 1 2\nMax realtime priority 1 2\nMax realtime timeout 1 2 x\n";
        list.bound(pid, &mut Join::new(Held::new(text), Held::new(more)))
    }

    #[test]
    fn charges_of_the_sample(rt: HostRuntime) -> Result<(), Fail> {
        let mut list = PackingList::new(10216);
        accepted(list.admit(7, 1000, sample()?))?;
        assert_eq!(rt; list.used(), 10216);
        assert_eq!(rt; list.look(7), Ok(sampled(1000, 10216)));
        let mut tight = PackingList::new(10215);
        let (refusal, handed) = refused(tight.admit(7, 1000, sample()?))?;
        assert_eq!(rt; refusal, plain(Reason::Over));
        assert_eq!(rt; told(&tight).0, 0);
        assert_eq!(rt; tight.look(7), Err(plain(Reason::Unknown)));
        accepted(tight.admit(7, 999, handed))?;
        assert_eq!(rt; tight.look(7), Ok(sampled(999, 10215)));
        Ok(())
    }

    // Refusals of an admit, each before those behind it, and then the same measure is admitted.
    #[test]
    fn refused_admits(rt: HostRuntime) -> Result<(), Fail> {
        let most = 72057594037927936;
        let mut list = PackingList::new(most + 16);
        accepted(list.admit(7, 0, small()?))?;
        let before = told(&list);
        let mut measure = sample()?;
        for (pid, headroom, reason) in [
            (0, u64::MAX, Reason::Pid),
            (-7, 0, Reason::Pid),
            (7, u64::MAX, Reason::Present),
            (8, most - 9215, Reason::Heavy),
            (8, u64::MAX, Reason::Heavy),
        ] {
            let (refusal, handed) = refused(list.admit(pid, headroom, measure))?;
            assert_eq!(rt; refusal, plain(reason), "pid {pid}");
            assert_eq!(rt; told(&list), before, "pid {pid}");
            measure = handed;
        }
        accepted(list.admit(8, most - 9216, measure))?;
        assert_eq!(rt; list.look(8), Ok(sampled(most - 9216, most)));
        assert_eq!(rt; list.used(), most + 16);
        let (refusal, handed) = refused(list.admit(9, 1, empty()?))?;
        assert_eq!(rt; refusal, plain(Reason::Over));
        assert_eq!(rt; list.used(), most + 16);
        accepted(list.admit(9, 0, handed))?;
        assert_eq!(rt; list.used(), most + 16);
        Ok(())
    }

    #[test]
    fn all_places(rt: HostRuntime) -> Result<(), Fail> {
        let mut list = PackingList::new(100);
        for pid in 1..65 {
            accepted(list.admit(pid, 1, empty()?))?;
        }
        let before = told(&list);
        assert_eq!(rt; before.0, 64);
        let (refusal, handed) = refused(list.admit(65, 1, small()?))?;
        assert_eq!(rt; refusal, plain(Reason::Packed));
        // Packed also where it would be over, and heavy before that
        let (refusal, handed) = refused(list.admit(65, 1000, handed))?;
        assert_eq!(rt; refusal, plain(Reason::Packed));
        let (refusal, handed) = refused(list.admit(65, u64::MAX, handed))?;
        assert_eq!(rt; refusal, plain(Reason::Heavy));
        assert_eq!(rt; told(&list), before);
        assert_eq!(rt; list.look(65), Err(plain(Reason::Unknown)));
        list.release(30)?;
        assert_eq!(rt; list.used(), 63);
        accepted(list.admit(65, 1, handed))?;
        assert_eq!(rt; list.used(), 80);
        assert_eq!(rt;
            refused(list.admit(30, 0, empty()?))?.0,
            plain(Reason::Packed)
        );
        assert_eq!(rt; list.release(30), at(Reason::Unknown, 0, 0));
        Ok(())
    }

    // It keeps the headroom and what note and bound kept, and may pass the limit.
    #[test]
    fn remeasures(rt: HostRuntime) -> Result<(), Fail> {
        let mut list = PackingList::new(1024);
        accepted(list.admit(7, 1000, small()?))?;
        note(&mut list, 7, b"VmRSS: 12 kB\n")?;
        bound(&mut list, 7, b"")?;
        let before = told(&list);
        let mut measure = sample()?;
        for (pid, reason) in [(0, Reason::Pid), (8, Reason::Unknown)] {
            let (refusal, handed) = refused(list.remeasure(pid, measure))?;
            assert_eq!(rt; refusal, plain(reason), "pid {pid}");
            assert_eq!(rt; told(&list), before, "pid {pid}");
            measure = handed;
        }
        accepted(list.remeasure(7, measure))?;
        let seen = View {
            noted: Some(Noted {
                state: 'S',
                threads: 3,
                vmrss: Some(12),
            }),
            bounds: Some(Bounds {
                address_space: LimitValue::Unlimited,
                open_files: LimitValue::Value(1024),
            }),
            ..sampled(1000, 10216)
        };
        assert_eq!(rt; list.look(7), Ok(seen));
        assert_eq!(rt; list.used(), 10216);
        // Past the limit nothing is admitted, even without a charge.
        let (refusal, handed) = refused(list.admit(8, 0, empty()?))?;
        assert_eq!(rt; refusal, plain(Reason::Over));
        accepted(list.remeasure(7, handed))?;
        assert_eq!(rt; list.used(), 1000);
        Ok(())
    }

    // A new charge of 2 to the 56th passes, of one more it is refused.
    #[test]
    fn heavy_remeasures(rt: HostRuntime) -> Result<(), Fail> {
        let most = 72057594037927936;
        let mut list = PackingList::new(u64::MAX);
        accepted(list.admit(7, most - 9216, empty()?))?;
        accepted(list.admit(8, most - 9215, empty()?))?;
        let before = told(&list);
        let (refusal, handed) = refused(list.remeasure(8, sample()?))?;
        assert_eq!(rt; refusal, plain(Reason::Heavy));
        assert_eq!(rt; told(&list), before);
        accepted(list.remeasure(7, handed))?;
        assert_eq!(rt; list.look(7), Ok(sampled(most - 9216, most)));
        assert_eq!(rt; list.used(), 2 * most - 9215);
        Ok(())
    }

    #[test]
    fn notes(rt: HostRuntime) -> Result<(), Fail> {
        let mut list = PackingList::new(20000);
        accepted(list.admit(7, 1000, sample()?))?;
        let before = told(&list);
        let mut source = Held::new(b"Name: a\n");
        let mut buf = [0u8; 4];
        assert_eq!(rt; list.note(-1, &mut source), at(Reason::Pid, 0, 0));
        assert_eq!(rt; list.note(8, &mut source), at(Reason::Unknown, 0, 0));
        assert_eq!(rt; source.piece(&mut buf), Piece::Bytes(4));
        assert_eq!(rt; buf, *b"Name");
        assert_eq!(rt; list.note(7, &mut source), at(Reason::Absent, 1, 1));
        let table: [(&[u8], Result<(), Refusal>); 7] = [
            (b"Umask: 8\n", at(Reason::Figure, 21, 2)),
            (b"Name\n", at(Reason::Short, 21, 0)),
            (b"State:\n", at(Reason::State, 0, 0)),
            (b"State: Q (x)\n", at(Reason::State, 0, 0)),
            (b"State: \nPid: 8\n", at(Reason::State, 0, 0)),
            (b"Pid: 8\n", at(Reason::Pid, 0, 0)),
            (b"Pid: 8\nUmask: 8\n", at(Reason::Figure, 22, 2)),
        ];
        for (more, answer) in table {
            assert_eq!(rt; note(&mut list, 7, more), answer);
            assert_eq!(rt; told(&list), before);
        }
        note(&mut list, 7, b"")?;
        let noted = Some(Noted {
            state: 'S',
            threads: 3,
            vmrss: None,
        });
        let seen = View {
            noted,
            ..sampled(1000, 10216)
        };
        assert_eq!(rt; told(&list), (10216, Ok(seen), before.2));
        Ok(())
    }

    #[test]
    fn bounds(rt: HostRuntime) -> Result<(), Fail> {
        let mut list = PackingList::new(20000);
        accepted(list.admit(7, 1000, sample()?))?;
        let before = told(&list);
        let mut source = Held::new(b"Limit\n");
        let mut buf = [0u8; 4];
        assert_eq!(rt; list.bound(0, &mut source), at(Reason::Pid, 0, 0));
        assert_eq!(rt; list.bound(8, &mut source), at(Reason::Unknown, 0, 0));
        assert_eq!(rt; source.piece(&mut buf), Piece::Bytes(4));
        assert_eq!(rt; buf, *b"Limi");
        let table: [(&[u8], Result<(), Refusal>); 2] = [
            (b"Max open files x 2 files\n", at(Reason::Figure, 17, 8)),
            (b"Max\n", at(Reason::Short, 17, 0)),
        ];
        for (more, answer) in table {
            assert_eq!(rt; bound(&mut list, 7, more), answer);
            assert_eq!(rt; told(&list), before);
        }
        assert_eq!(rt;
            list.bound(7, &mut Held::new(b"Limit\n")),
            at(Reason::Absent, 1, 1)
        );
        bound(&mut list, 7, b"Max open files 5 2 files\n")?;
        let bounds = Some(Bounds {
            address_space: LimitValue::Unlimited,
            open_files: LimitValue::Value(5),
        });
        let seen = View {
            bounds,
            ..sampled(1000, 10216)
        };
        assert_eq!(rt; told(&list), (10216, Ok(seen), before.2));
        Ok(())
    }

    // Nothing of a job that was released is left for the next of its pid.
    #[test]
    fn releases(rt: HostRuntime) -> Result<(), Fail> {
        let mut list = PackingList::new(20000);
        accepted(list.admit(7, 1000, sample()?))?;
        accepted(list.admit(8, 2, small()?))?;
        note(&mut list, 7, b"")?;
        bound(&mut list, 7, b"")?;
        let before = told(&list);
        for (pid, reason) in [(0, Reason::Pid), (9, Reason::Unknown)] {
            assert_eq!(rt; list.release(pid), at(reason, 0, 0), "pid {pid}");
            assert_eq!(rt; list.look(pid), Err(plain(reason)), "pid {pid}");
        }
        assert_eq!(rt; told(&list), before);
        list.release(7)?;
        assert_eq!(rt; told(&list), (18, Err(plain(Reason::Unknown)), before.2));
        accepted(list.admit(7, 0, sample()?))?;
        assert_eq!(rt; told(&list), (9234, Ok(sampled(0, 9216)), before.2));
        Ok(())
    }
}
