// Tests of the key table and the key sheet on small examples and at the limits of a slice.
#![tactic(auto)]

ghost use Rattle.std.specs.Prelude.{◌==◌, nat_lt};
ghost use Rattle.std.proofs.Common.{rules};

// A kind of key whose type has no `==` and no `<`: its sameness and its order are its own.
#[cfg(test)]
mod tags {
    use keylines::{Key, OrderedKey};

    #[derive(Clone, Copy)]
    pub struct Tag {
        pub serial: u32,
    }

    impl Key for Tag {
        ghost alike = { λ x y. (x.serial == y.serial) };

        ghost exact = { Prim.search rules };

        ghost itself = { Prim.search rules };

        fn same(&self, other: &Self) -> bool {
            self.serial == other.serial
        }
    }

    // The newest tag, which has the smallest serial number, is the largest.
    impl OrderedKey for Tag {
        ghost above = { λ x y. nat_lt x.serial y.serial };

        ghost total = { Prim.search rules };

        ghost transitive = { Prim.search rules };

        ghost strict = { Prim.search rules };

        fn exceeds(&self, other: &Self) -> bool {
            self.serial < other.serial
        }
    }
}

#[cfg(test)]
mod tests {
    use crate::tags::Tag;
    use keylines::{Channel, ChannelLine, ChannelPosition, Pair};
    use keys::{KeySheet, KeyTable};
    use std::alloc::AllocError;
    use std::test::Fail;

    // The channel of a number.
    fn channel(number: u32) -> Channel {
        Channel { number }
    }

    // A place that holds the pair of a channel and no words.
    fn place(number: u32) -> Pair<Channel> {
        Pair {
            key: channel(number),
            words: [0, 0],
        }
    }

    // Puts one word and a zero under a channel's number. Whether they fit.
    fn put(table: &mut KeyTable<Channel>, number: u32, word: u64) -> bool {
        table.put(channel(number), [word, 0])
    }

    // Erases a channel by its number.
    fn erase(table: &mut KeyTable<Channel>, number: u32) {
        table.erase(channel(number));
    }

    // The words under a channel's number.
    fn find(table: &KeyTable<Channel>, number: u32) -> Option<[u64; 2]> {
        table.find(channel(number))
    }

    // The number of the largest channel in a table, or 0.
    fn top(table: &KeyTable<Channel>) -> u32 {
        match table.largest() {
            Some(c) => c.number,
            None => 0,
        }
    }

    // The capacity of a table on so many places.
    fn capacity(rt: &HostRuntime, places: usize) -> Result<usize, AllocError> {
        let mut slice = vec![in rt.alloc(); place(0); places]?;
        Ok(KeyTable::new(slice.as_mut_slice()).capacity())
    }

    #[test]
    fn no_places(rt: HostRuntime) {
        let mut places: [Pair<Channel>; 0] = [];
        let mut table = KeyTable::new(&mut places);
        assert!(rt; !put(&mut table, 7, 1));
        erase(&mut table, 7);
        assert_eq!(rt; find(&table, 7), None);
        assert_eq!(rt; top(&table), 0);
    }

    #[test]
    fn one_place(rt: HostRuntime) {
        let mut places = [place(9)];
        let mut table = KeyTable::new(&mut places);
        assert_eq!(rt; find(&table, 9), None);
        assert!(rt; put(&mut table, 7, 1));
        assert!(rt; !put(&mut table, 8, 2));
        assert!(rt; put(&mut table, 7, 3));
        assert_eq!(rt; find(&table, 7), Some([3, 0]));
        erase(&mut table, 8);
        assert_eq!(rt; table.len(), 1);
        erase(&mut table, 7);
        assert_eq!(rt; table.len(), 0);
    }

    #[test]
    fn last_pair_moves(rt: HostRuntime) {
        let mut places = [place(0); 4];
        {
            let mut table = KeyTable::new(&mut places);
            assert!(rt; put(&mut table, 5, 1) && put(&mut table, 9, 2) && put(&mut table, 6, 3));
            assert_eq!(rt; top(&table), 9);
            erase(&mut table, 5);
            erase(&mut table, 9);
            assert_eq!(rt; top(&table), 6);
            assert!(rt; put(&mut table, 4, 4));
        }
        assert_eq!(rt; places[0].key.number, 6);
        assert_eq!(rt; places[1].key.number, 4);
        assert_eq!(rt; places[3].key.number, 0);
    }

    #[test]
    fn capacities(rt: HostRuntime) -> Result<(), Fail> {
        assert_eq!(rt; capacity(&rt, 0)?, 0);
        assert_eq!(rt; capacity(&rt, 1023)?, 1023);
        assert_eq!(rt; capacity(&rt, 1024)?, 1024);
        assert_eq!(rt; capacity(&rt, 1025)?, 1024);
        Ok(())
    }

    #[test]
    fn full_table(rt: HostRuntime) -> Result<(), Fail> {
        let mut places = vec![in rt.alloc(); place(0); 1025]?;
        let mut table = KeyTable::new(places.as_mut_slice());
        // the numbers are the keys themselves
        for i in 0..1025 {
            let _ = put(&mut table, i, 1);
        }
        assert_eq!(rt; table.len(), 1024);
        assert_eq!(rt; find(&table, 1024), None);
        assert!(rt; put(&mut table, 1023, 2));
        assert_eq!(rt; top(&table), 1023);
        Ok(())
    }

    #[test]
    fn counted_lines(rt: HostRuntime) {
        let mut places = [place(0); 2];
        let mut table = KeyTable::new(&mut places);
        let mut sheet = KeySheet::new();
        let third = ChannelLine::Put(channel(3), [3, 0]);
        sheet.apply_all(
            &mut table,
            &[
                ChannelLine::Put(channel(1), [1, 0]),
                ChannelLine::Put(channel(2), [2, 0]),
                third,
                ChannelLine::Erase(channel(4)),
                ChannelLine::Put(channel(2), [4, 0]),
            ],
        );
        assert!(rt; sheet.fit() == 4 && sheet.unfit() == 1);
        assert_eq!(rt; find(&table, 2), Some([4, 0]));
        assert!(rt; !table.fits(third));
        sheet.apply(&mut table, ChannelLine::Erase(channel(1)));
        assert!(rt; table.fits(third));
        assert_eq!(rt; table.len(), 1);
    }

    #[test]
    fn positions(rt: HostRuntime) -> Result<(), Fail> {
        let far = ChannelPosition {
            number: 1,
            position: 9,
        };
        let near = ChannelPosition {
            number: 2,
            position: 3,
        };
        let next = ChannelPosition {
            number: 2,
            position: 4,
        };
        let mut places = [Pair {
            key: far,
            words: [0, 0],
        }; 3];
        let lines = [
            ChannelLine::Put(next, [1, 0]),
            ChannelLine::Put(far, [2, 0]),
            ChannelLine::Put(near, [3, 0]),
        ];
        let mut table = KeyTable::new(&mut places);
        let mut sheet = KeySheet::new();
        sheet.apply_all(&mut table, &lines);
        assert_eq!(rt; table.find(near), Some([3, 0]));
        match table.largest() {
            Some(k) => {
                assert!(rt; k.number == 2 && k.position == 4);
                Ok(())
            },
            None => Err(Fail::new("no largest key")),
        }
    }

    #[test]
    fn kinds_of_their_own(rt: HostRuntime) -> Result<(), Fail> {
        let mut places = [Pair {
            key: Tag { serial: 0 },
            words: [0, 0],
        }; 2];
        let mut table = KeyTable::new(&mut places);
        assert!(rt; table.put(Tag { serial: 9 }, [1, 0]));
        assert!(rt; table.put(Tag { serial: 4 }, [2, 0]));
        assert!(rt; !table.put(Tag { serial: 7 }, [3, 0]));
        assert_eq!(rt; table.find(Tag { serial: 9 }), Some([1, 0]));
        match table.largest() {
            Some(k) => {
                assert_eq!(rt; k.serial, 4);
                Ok(())
            },
            None => Err(Fail::new("no largest key")),
        }
    }
}
