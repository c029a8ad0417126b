// Tests of a group at the limits of its sizes, and of sheets that are worked out from a group of channel books.
#![tactic(auto)]

#[cfg(test)]
mod tests {
    use books::{SheetFault, key_sheet};
    use group::Group;
    use keylines::{Channel, ChannelLine, Pair};
    use keys::KeyTable;
    use protocol::{Message, Step, Worker};
    use roster::{Entry, PlainRoster};
    use std::alloc::AllocError;
    use std::test::Fail;
    use storage::Storage;

    // Whether a group can be made of so many records, cells in each table and message places.
    fn can_make(
        rt: &HostRuntime,
        records: usize,
        cells: usize,
        places: usize,
    ) -> Result<bool, AllocError> {
        let unsent = Message::Learn {
            from: 0,
            line: 0,
            value: 0u32,
        };
        let mut storage = Storage::new(rt.alloc(), records, cells, places, unsent)?;
        let group = storage.group();
        Ok(group.workers().is_some())
    }

    #[test]
    fn numbers_of_workers(rt: HostRuntime) -> Result<(), Fail> {
        assert!(rt; !can_make(&rt, 2, 128, 16)?);
        assert!(rt; can_make(&rt, 3, 192, 16)?);
        assert!(rt; can_make(&rt, 8, 512, 16)?);
        assert!(rt; !can_make(&rt, 9, 576, 16)?);
        Ok(())
    }

    #[test]
    fn sizes_of_tables(rt: HostRuntime) -> Result<(), Fail> {
        assert!(rt; !can_make(&rt, 3, 191, 16)?);
        assert!(rt; !can_make(&rt, 3, 193, 16)?);
        assert!(rt; !can_make(&rt, 3, 192, 15)?);
        assert!(rt; can_make(&rt, 3, 192, 4096)?);
        assert!(rt; !can_make(&rt, 3, 192, 4097)?);
        Ok(())
    }

    // Puts one word and a zero under a channel's number.
    fn put(number: u32, word: u64) -> ChannelLine<Channel> {
        ChannelLine::Put(Channel { number }, [word, 0])
    }

    // What a key sheet of worker `w` to line `to` counts as fit, after a short book: the lines 1 to 3 are fixed, worker 0
    // learns them all and worker 2 the first and the third. The table has one place, so the second put is unfit.
    fn fit_lines(w: usize, to: usize) -> Result<u32, SheetFault> {
        let nothing = Message::Learn {
            from: 0,
            line: 0,
            value: put(0, 0),
        };
        let mut workers = [Worker::default(); 3];
        let mut hand = [None; 192];
        let mut accepted = [None; 192];
        let mut learned = [None; 192];
        let mut messages = [nothing; 16];
        let mut entries = [Entry::Lead(0); 4];
        let mut roster = PlainRoster::new(&mut entries);
        let mut group = Group::new(
            &mut workers,
            &mut hand,
            &mut accepted,
            &mut learned,
            &mut messages,
        );
        let steps = [
            Step::Found(1),
            Step::Read(0),
            Step::Lead(0),
            Step::Prepare(0),
            Step::Deliver(0, 1),
            Step::Deliver(1, 0),
            Step::Propose(0, 1, put(5, 50)),
            Step::Propose(0, 2, put(6, 60)),
            Step::Propose(0, 3, put(5, 51)),
            Step::Deliver(2, 1),
            Step::Deliver(3, 1),
            Step::Deliver(4, 1),
            Step::Deliver(5, 0),
            Step::Deliver(6, 0),
            Step::Deliver(7, 0),
            Step::Deliver(5, 2),
            Step::Deliver(7, 2),
        ];
        group.play(&mut roster, &steps);
        let mut pairs = [Pair {
            key: Channel { number: 0 },
            words: [0, 0],
        }];
        let mut table = KeyTable::new(&mut pairs);
        key_sheet(&group, &mut table, w, to)
            .map(|sheet| sheet.fit())
            .map_err(|refusal| refusal.fault)
    }

    #[test]
    fn key_sheets(rt: HostRuntime) {
        assert_eq!(rt; fit_lines(0, 0), Ok(0));
        assert_eq!(rt; fit_lines(0, 3), Ok(2));
        assert_eq!(rt; fit_lines(2, 1), Ok(1));
        assert_eq!(rt; fit_lines(2, 3), Err(SheetFault::NotHeld));
        assert_eq!(rt; fit_lines(0, 65), Err(SheetFault::NotHeld));
        assert_eq!(rt; fit_lines(3, 0), Err(SheetFault::NoWorker));
    }
}
