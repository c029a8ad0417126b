// Trials of the roster: a caller that is generic in the roster, and tests of the plain roster.
#![tactic(auto)]

pub mod lends;
pub mod pairs;

#[cfg(test)]
mod tests {
    use crate::pairs::append_pair;
    use roster::{Entry, PlainRoster, Roster, RosterFault};
    use std::test::Fail;

    // How many of the numbers from 1 to 1,030 a roster in the table takes, each at its own place.
    fn taken(table: &mut [usize]) -> usize {
        let mut roster = PlainRoster::new(table);
        (1..1031).filter(|&i| roster.append(i, i).is_ok()).count()
    }

    #[test]
    fn no_place(rt: HostRuntime) {
        let mut cells = [0u32; 0];
        let mut roster = PlainRoster::new(&mut cells);
        assert_eq!(rt; roster.append(1, 7), Err(RosterFault::Full));
        assert_eq!(rt; roster.append(2, 7), Err(RosterFault::NotNext));
        assert_eq!(rt; roster.read(1), Err(RosterFault::NoEntry));
    }

    #[test]
    fn one_place(rt: HostRuntime) -> Result<(), Fail> {
        let mut cells = [0u32; 1];
        let mut roster = PlainRoster::new(&mut cells);
        assert_eq!(rt; roster.append(0, 7), Err(RosterFault::NotNext));
        assert_eq!(rt; roster.append(usize::MAX, 7), Err(RosterFault::NotNext));
        roster.append(1, 8)?;
        assert_eq!(rt; roster.append(2, 9), Err(RosterFault::Full));
        assert_eq!(rt; roster.read(1)?, 8);
        assert_eq!(rt; roster.read(0), Err(RosterFault::NoEntry));
        assert_eq!(rt; roster.read(usize::MAX), Err(RosterFault::NoEntry));
        Ok(())
    }

    #[test]
    fn near_the_limit(rt: HostRuntime) -> Result<(), Fail> {
        let mut below = vec![in rt.alloc(); 0usize; 1023]?;
        let mut at = vec![in rt.alloc(); 0usize; 1024]?;
        assert_eq!(rt; taken(&mut below), 1023);
        assert_eq!(rt; taken(&mut at), 1024);
        Ok(())
    }

    #[test]
    fn past_the_limit(rt: HostRuntime) -> Result<(), Fail> {
        let mut cells = vec![in rt.alloc(); 0usize; 1025]?;
        assert_eq!(rt; taken(&mut cells), 1024);
        assert!(rt; cells.len() == 1025);
        assert_eq!(rt; cells[1023], 1024);
        assert_eq!(rt; cells[1024], 0);
        Ok(())
    }

    #[test]
    fn pair_comes_back(rt: HostRuntime) -> Result<(), Fail> {
        let mut cells = [Entry::Seat(0); 3];
        let mut roster = PlainRoster::new(&mut cells);
        let first = Entry::Carry(5, 60u32);
        assert_eq!(rt;
            append_pair(&mut roster, 1, first, Entry::Lead(2)),
            Ok(first)
        );
        assert_eq!(rt;
            append_pair(&mut roster, 3, Entry::Seat(1), first),
            Err(RosterFault::Full)
        );
        assert_eq!(rt; roster.read(3)?, Entry::Seat(1));
        Ok(())
    }
}
