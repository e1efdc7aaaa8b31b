// Tests of scheme files: every refusal, every header byte at its limits and past them, every form, the greatest file.
// For tests alone: no crate of the product builds on this one.

#![tactic(auto)]

// A scheme over residues modulo 2 with n = 7, k = 4, t = 1 and five shifts by 1.
pub const SHIFTS: [u8; 26] = [
    0x50, 0x44, 0x53, 0, 1, 0, 2, 7, 4, 1, 1, 0, 5, 1, 1, 1, 0, 0, 1, 1, 1, 1, 1, 1, 0, 1,
];

#[cfg(test)]
mod tests {
    use super::*;
    use faults::Fault;
    use files::{Family, Form, SchemeFile};
    use std::process::Abort;
    use std::test::Fail;

    // Number and first place of the refusal, which are what is tested, or 0 and 0. A crate for this line and its like is no plainer.
    fn refused<T: Drop>(answer: Result<T, Fault>) -> (u8, u64) {
        answer
            .err()
            .map_or((0, 0), |fault| (fault.number(), fault.first()))
    }

    fn set(file: &mut [u8], place: usize, value: u8) {
        if let Some(byte) = file.get_mut(place) {
            *byte = value;
        }
    }

    #[test]
    fn header_bytes(rt: HostRuntime) {
        // Two bytes are changed, then the refusal's number and first place are due.
        let cases = [
            (0, 0x50, 1, 0x44, 0, 0),
            (0, 0x51, 5, 9, 19, 0),
            (1, 0x43, 3, 9, 19, 0),
            (2, 0, 4, 9, 19, 0),
            (3, 1, 5, 9, 20, 0),
            (4, 0, 5, 9, 20, 0),
            (3, 1, 4, 0, 20, 0),
            (4, 2, 12, 0, 20, 0),
            (5, 2, 12, 0, 21, 5),
            (5, 255, 6, 0, 21, 5),
            (5, 0, 6, 1, 21, 6),
            (5, 0, 6, 2, 0, 0),
            (5, 0, 6, 16, 0, 0),
            (5, 0, 6, 17, 21, 6),
            (5, 1, 6, 1, 21, 6),
            (5, 1, 6, 2, 0, 0),
            (5, 1, 6, 4, 0, 0),
            (5, 1, 6, 5, 21, 6),
            (7, 1, 9, 0, 21, 7),
            (7, 2, 8, 1, 22, 0),
            (7, 2, 8, 2, 21, 8),
            (7, 64, 8, 16, 22, 0),
            (7, 64, 8, 17, 21, 8),
            (7, 65, 8, 0, 21, 7),
            (8, 0, 9, 0, 21, 8),
            (8, 3, 9, 1, 0, 0),
            (8, 6, 9, 1, 22, 0),
            (8, 7, 9, 1, 21, 8),
            (9, 0, 10, 3, 21, 9),
            (9, 1, 10, 1, 0, 0),
            (9, 5, 10, 1, 0, 0),
            (9, 6, 10, 1, 21, 9),
            (10, 3, 12, 0, 21, 10),
            (10, 0, 12, 5, 22, 0),
            (10, 2, 12, 5, 22, 0),
            (11, 0, 12, 0, 21, 11),
            (11, 0, 12, 1, 0, 0),
            (11, 2, 12, 0, 0, 0),
            (11, 2, 12, 1, 21, 11),
            (11, 1, 12, 255, 0, 0),
            (11, 5, 12, 0, 21, 11),
            (13, 255, 14, 255, 0, 0),
        ];
        for (place, value, other, changed, number, first) in cases {
            let mut file = SHIFTS;
            set(&mut file, place, value);
            set(&mut file, other, changed);
            assert_eq!(rt; refused(files::read(&file)), (number, first));
        }
    }

    #[test]
    fn lengths(rt: HostRuntime) {
        let mut file = [0; 27];
        file[..26].copy_from_slice(&SHIFTS);
        // The size itself is tried.
        for size in 0..=27 {
            let number = match size {
                0..=12 => 18,
                26 => 0,
                _ => 22,
            };
            assert!(rt; size <= file.len());
            assert_eq!(rt; refused(files::read(&file[..size])), (number, 0));
        }
    }

    fn same(rt: &impl Abort, found: &[u8], due: &[u8]) {
        assert!(rt; found == due);
    }

    // Reads the file, writes what was read, and compares.
    fn again(rt: &impl Abort, file: &[u8], out: &mut [u8]) -> Result<(), Fail> {
        let scheme = files::read(file)?;
        files::write(&scheme, out)?;
        same(rt, out, file);
        Ok(())
    }

    #[test]
    fn shifts(rt: HostRuntime) -> Result<(), Fail> {
        let scheme = files::read(&SHIFTS)?;
        assert_eq!(rt; scheme.family, Family::Residues);
        assert_eq!(rt; (scheme.base, scheme.n, scheme.k, scheme.t), (2, 7, 4, 1));
        assert_eq!(rt; scheme.count, 5);
        same(&rt, scheme.rows, &[1, 1, 0, 0, 1, 1, 1, 1, 1, 1, 0, 1]);
        let Form::Shifts { step } = scheme.form else {
            return Err(Fail::new("another form"));
        };
        assert_eq!(rt; step, 1);
        again(&rt, &SHIFTS, &mut [0u8; 26])
    }

    #[test]
    fn table(rt: HostRuntime) -> Result<(), Fail> {
        let file = [
            0x50, 0x44, 0x53, 0, 1, 0, 16, 3, 1, 5, 0, 0, 2, 14, 15, 0, 1, 2, 1, 2, 0,
        ];
        let scheme = files::read(&file)?;
        assert_eq!(rt; scheme.family, Family::Residues);
        assert_eq!(rt; (scheme.base, scheme.n, scheme.k, scheme.t), (16, 3, 1, 5));
        assert_eq!(rt; scheme.count, 2);
        same(&rt, scheme.rows, &[14, 15]);
        let Form::Table(part) = scheme.form else {
            return Err(Fail::new("another form"));
        };
        same(&rt, part, &[0, 1, 2, 1, 2, 0]);
        again(&rt, &file, &mut [0u8; 21])
    }

    #[test]
    fn multiplier(rt: HostRuntime) -> Result<(), Fail> {
        let file = [
            0x50, 0x44, 0x53, 0, 1, 1, 4, 3, 2, 2, 2, 1, 2, 3, 5, 7, 14, 15,
        ];
        let scheme = files::read(&file)?;
        assert_eq!(rt; scheme.family, Family::TwoPower);
        assert_eq!(rt; (scheme.base, scheme.n, scheme.k, scheme.t), (4, 3, 2, 2));
        assert_eq!(rt; scheme.count, 258);
        same(&rt, scheme.rows, &[14, 15]);
        let Form::Multiplier {
            step,
            factor,
            powers,
        } = scheme.form
        else {
            return Err(Fail::new("another form"));
        };
        assert_eq!(rt; (step, factor, powers), (3, 5, 7));
        again(&rt, &file, &mut [0u8; 18])
    }

    #[test]
    fn refused_writing(rt: HostRuntime) {
        let rows = [1u8; 12];
        // base, n, k, t, count and the output's length, then the refusal's number and first place.
        let cases = [
            (2, 7, 4, 1, 5, 26, 0, 0),
            (1, 1, 4, 1, 5, 26, 21, 6),
            (17, 7, 4, 1, 5, 26, 21, 6),
            (16, 7, 3, 5, 512, 26, 0, 0),
            (2, 1, 0, 1, 5, 26, 21, 7),
            (2, 65, 4, 1, 5, 26, 21, 7),
            (2, 7, 0, 0, 5, 26, 21, 8),
            (2, 7, 7, 1, 5, 26, 21, 8),
            (2, 64, 17, 1, 5, 26, 21, 8),
            (2, 7, 4, 0, 0, 26, 21, 9),
            (2, 7, 4, 6, 5, 26, 21, 9),
            (2, 7, 4, 1, 0, 25, 21, 11),
            (2, 7, 4, 1, 513, 26, 21, 11),
            (2, 8, 4, 1, 5, 26, 22, 0),
            (2, 6, 4, 1, 5, 26, 22, 0),
            (2, 7, 4, 1, 5, 25, 22, 0),
            (2, 7, 4, 1, 5, 27, 22, 0),
            (2, 7, 4, 1, 5, 0, 22, 0),
        ];
        for (base, n, k, t, count, size, number, first) in cases {
            let scheme = SchemeFile {
                family: Family::Residues,
                base,
                n,
                k,
                t,
                count,
                rows: &rows,
                form: Form::Shifts { step: 1 },
            };
            let mut out = [0xaau8; 27];
            assert!(rt; size <= out.len());
            assert_eq!(rt;
                refused(files::write(&scheme, &mut out[..size])),
                (number, first)
            );
            assert!(rt; (number == 0) == (out[0] == 0x50));
            assert!(rt; (number == 0) == (out[25] == 1));
            assert!(rt; out[26] == 0xaa);
        }
    }

    // Writes two rows of three with a table.
    fn write_table(base: u8, table: &[u8], out: &mut [u8]) -> (u8, u64) {
        let scheme = SchemeFile {
            family: Family::TwoPower,
            base,
            n: 3,
            k: 1,
            t: 1,
            count: 2,
            rows: &[1, 2],
            form: Form::Table(table),
        };
        refused(files::write(&scheme, out))
    }

    #[test]
    fn refused_tables(rt: HostRuntime) {
        let bytes = [0u8, 1, 2, 1, 2, 0, 7, 7];
        // w and the table's length, then the refusal's number and first place.
        let cases = [
            (4, 6, 0, 0),
            (5, 6, 21, 6),
            (4, 5, 22, 0),
            (4, 7, 22, 0),
            (4, 0, 22, 0),
        ];
        for (base, size, number, first) in cases {
            let mut out = [0xaau8; 21];
            assert!(rt; size <= bytes.len());
            assert_eq!(rt;
                write_table(base, &bytes[..size], &mut out),
                (number, first)
            );
            assert!(rt; (number == 0) == (out[0] == 0x50));
        }
    }

    #[test]
    fn greatest(rt: HostRuntime) -> Result<(), Fail> {
        let head = [0x50, 0x44, 0x53, 0, 1, 0, 2, 64, 16, 5, 0, 2, 0];
        let mut file = Vec::new(rt.alloc());
        file.extend_from_slice(&head)?;
        file.extend((0..33536u32).map(|i| (i % 251) as u8))?;
        let scheme = files::read(&file)?;
        assert_eq!(rt; scheme.rows.len(), 768);
        let Form::Table(part) = scheme.form else {
            return Err(Fail::new("another form"));
        };
        assert!(rt; part.len() == 32768);
        assert_eq!(rt; (part[0], part[32767]), (15, 152));
        let mut out = vec![in rt.alloc(); 0u8; 33549]?;
        files::write(&scheme, &mut out)?;
        same(&rt, &out, &file);
        Ok(())
    }
}
