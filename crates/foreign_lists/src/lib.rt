// A list that is not the product's, written against the same trait, and the tests of all lists at their edges.
// For tests alone: no crate of the product builds on this one.

#![tactic(auto)]

ghost use Rattle.std.specs.Prelude.{◌≡◌};
ghost use Rattle.foreign_lists.specs.Reversal.{reversed, reversed_bounds};
ghost use Rattle.foreign_lists.specs.Rules.{Numbering, PlainShifts, PlainTables};

use lists::Permutations;

// The identity, and the places counted from the other end.
#[derive(Clone, Copy)]
pub struct Reversed {
    n: u8,
}

impl Reversed {
    pub fn new(n: u8) -> Reversed
        ensures { result.n ≡ n }
    {
        Reversed { n }
    }
}

impl Permutations for Reversed {
    ghost meaning = { λ l. reversed l.n };

    ghost bounds = { λ l. reversed_bounds l.n };

    fn length(&self) -> u8 {
        self.n
    }

    fn count(&self) -> u16 {
        2
    }

    fn target(&self, i: u16, p: u8) -> Option<u8> {
        if p >= self.n {
            return None;
        }
        match i {
            0 => Some(p),
            1 => Some(self.n - 1 - p),
            _ => None,
        }
    }
}

// The rules of the product's lists, as theorems about their definitions. What counts is the contract.
pub fn definitions_stand()
    ensures numbering { Numbering }
    ensures shifts { PlainShifts }
    ensures tables { PlainTables }
{}

#[cfg(test)]
mod tests {
    use super::*;
    use lists::{Multiplier, Shifts, Table};
    use std::test::Fail;

    #[test]
    fn lengths_and_counts(rt: HostRuntime) {
        // The shifts' n and number, the powers above them, the count of the shifts and that of the layer.
        let cases = [
            (7, 7, 3, 7, 21),
            (7, 0, 255, 0, 0),
            (7, 7, 0, 7, 0),
            (0, 9, 2, 9, 18),
            (255, 511, 1, 511, 511),
            (255, 512, 1, 512, 512),
            (255, 513, 1, 512, 512),
            (255, 65535, 255, 512, 512),
            (251, 2, 255, 2, 510),
            (251, 3, 255, 3, 512),
        ];
        for (n, number, r, shifts, powers) in cases {
            let below = Shifts::new(n, 1, number);
            assert_eq!(rt; below.length(), n);
            assert_eq!(rt; below.count(), shifts);
            let layer = Multiplier::new(below, 3, r);
            assert_eq!(rt; layer.length(), n);
            assert_eq!(rt; layer.count(), powers);
        }
    }

    #[test]
    fn shift_targets(rt: HostRuntime) {
        // The shifts' n, step and number, then a question and the reply that is due.
        let cases = [
            (7, 3, 7, 0, 6, Some(6)),
            (7, 3, 7, 2, 5, Some(4)),
            (7, 3, 7, 6, 6, Some(3)),
            (7, 3, 7, 7, 0, None),
            (7, 3, 7, 6, 7, None),
            (7, 3, 7, 65535, 255, None),
            (255, 254, 65535, 511, 254, Some(253)),
            (255, 254, 65535, 512, 0, None),
            (255, 254, 65535, 65535, 0, None),
            (255, 254, 65535, 0, 255, None),
            (0, 3, 9, 0, 0, None),
            (7, 0, 3, 2, 6, Some(6)),
            (1, 255, 512, 511, 0, Some(0)),
            (7, 1, 0, 0, 0, None),
        ];
        for (n, step, number, j, p, due) in cases {
            assert_eq!(rt; Shifts::new(n, step, number).target(j, p), due);
        }
    }

    // 0 for a table, or the number of the refusal, which is what is tested.
    fn refusal(n: u8, part: &[u8]) -> u8 {
        Table::new(n, part).err().map_or(0, |fault| fault.number())
    }

    #[test]
    fn table_shapes(rt: HostRuntime) {
        let bytes = [0u8; 513];
        // n, the number of bytes, and the refusal.
        let cases = [
            (1, 512, 0),
            (1, 513, 2),
            (64, 128, 0),
            (65, 130, 2),
            (255, 255, 2),
            (5, 0, 0),
            (65, 0, 2),
            (0, 0, 2),
            (0, 513, 2),
            (3, 5, 2),
            (64, 63, 2),
        ];
        for (n, size, due) in cases {
            assert!(rt; size <= bytes.len());
            assert_eq!(rt; refusal(n, &bytes[..size]), due);
        }
    }

    #[test]
    fn table_targets(rt: HostRuntime) -> Result<(), Fail> {
        let rows = [2, 0, 1, 1, 2, 0, 255, 9, 9];
        let list = Table::new(3, &rows)?;
        assert_eq!(rt; list.length(), 3);
        assert_eq!(rt; list.count(), 3);
        let cases = [
            (0, 0, Some(2)),
            (0, 2, Some(1)),
            (1, 0, Some(1)),
            (1, 1, Some(2)),
            (2, 0, Some(255)),
            (2, 2, Some(9)),
            (3, 0, None),
            (0, 3, None),
            (65535, 255, None),
        ];
        for (i, p, due) in cases {
            assert_eq!(rt; list.target(i, p), due);
        }
        Ok(())
    }

    #[test]
    fn largest_and_empty_tables(rt: HostRuntime) -> Result<(), Fail> {
        let bytes = [7u8; 512];
        let most = Table::new(1, &bytes)?;
        assert_eq!(rt; most.count(), 512);
        assert_eq!(rt; most.target(511, 0), Some(7));
        assert_eq!(rt; most.target(512, 0), None);
        let none = Table::new(5, &[])?;
        assert_eq!(rt; none.length(), 5);
        assert_eq!(rt; none.count(), 0);
        assert_eq!(rt; none.target(0, 0), None);
        Ok(())
    }

    #[test]
    fn multiplier_targets(rt: HostRuntime) {
        // The shifts' n and number, g and r, then a question and the reply that is due.
        let cases = [
            (7, 7, 2, 3, 0, 3, Some(3)),
            (7, 7, 2, 3, 9, 5, Some(5)),
            (7, 7, 2, 3, 20, 3, Some(4)),
            (7, 7, 2, 3, 20, 7, None),
            (7, 7, 2, 3, 21, 0, None),
            (7, 7, 2, 3, 65535, 255, None),
            (5, 5, 0, 2, 0, 3, Some(3)),
            (5, 5, 0, 2, 5, 3, Some(0)),
            (5, 5, 0, 2, 7, 3, Some(2)),
            (251, 2, 6, 255, 509, 1, Some(42)),
            (251, 2, 6, 255, 509, 250, Some(211)),
            (251, 3, 6, 255, 511, 1, Some(95)),
            (251, 3, 6, 255, 512, 0, None),
            (255, 65535, 255, 255, 511, 254, Some(0)),
            (7, 7, 3, 0, 0, 0, None),
            (7, 0, 3, 255, 0, 0, None),
            (0, 4, 3, 2, 7, 0, None),
        ];
        for (n, number, g, r, x, p, due) in cases {
            let list = Multiplier::new(Shifts::new(n, 1, number), g, r);
            assert_eq!(rt; list.target(x, p), due);
        }
    }

    #[test]
    fn piles(rt: HostRuntime) -> Result<(), Fail> {
        let shifts = Multiplier::new(Multiplier::new(Shifts::new(7, 1, 7), 2, 3), 3, 2);
        assert_eq!(rt; shifts.count(), 42);
        assert_eq!(rt; shifts.target(21, 5), Some(1));
        assert_eq!(rt; shifts.target(41, 3), Some(0));
        assert_eq!(rt; shifts.target(42, 0), None);
        let rows = [2, 0, 1, 1, 2, 0];
        let table = Multiplier::new(Table::new(3, &rows)?, 2, 2);
        assert_eq!(rt; table.target(1, 2), Some(0));
        assert_eq!(rt; table.target(3, 2), Some(2));
        Ok(())
    }

    #[test]
    fn reversals(rt: HostRuntime) {
        // n, the powers of 2 above, then a question and the reply that is due.
        let cases = [
            (5, 1, 0, 4, Some(4)),
            (5, 1, 1, 4, Some(0)),
            (5, 2, 2, 4, Some(3)),
            (5, 2, 3, 4, Some(1)),
            (5, 2, 4, 0, None),
            (255, 1, 1, 0, Some(254)),
            (255, 1, 1, 255, None),
            (0, 1, 1, 0, None),
        ];
        for (n, r, x, p, due) in cases {
            let list = Multiplier::new(Reversed::new(n), 2, r);
            assert_eq!(rt; list.count(), r as u16 * 2);
            assert_eq!(rt; list.target(x, p), due);
        }
    }
}
