// Encode, correct, close and withdraw on live schemes: answers, buffers and tallies.
use crate::HAMMING;
use crate::common::{live, told};
use foreign_kinds::Triangular;
use foreign_lists::Reversed;
use lists::{Shifts, Table};
use schemes::{Live, Tally};
use std::array;
use std::test::Fail;
use symbols::Residues;

#[test]
fn corrections(rt: HostRuntime) -> Result<(), Fail> {
    let bits = Residues::new(2)?;
    let shifts = Shifts::new(7, 1, 5);
    let mut scheme = live(&bits, &shifts, 7, 4, 1, &HAMMING)?;
    let mut out = [9u8; 7];
    assert_eq!(rt;
        scheme.correct(&bits, &shifts, &HAMMING, &[1, 1, 1, 0, 1, 0, 0], &mut out)?,
        (1, 4)
    );
    assert_eq!(rt; out, [0, 1, 1, 0, 1, 0, 0]);
    assert_eq!(rt;
        scheme.correct(&bits, &shifts, &HAMMING, &[0, 1, 1, 0, 1, 0, 0], &mut out)?,
        (0, 0)
    );
    assert_eq!(rt;
        scheme.close(),
        Tally {
            blocks: 2,
            clean: 1,
            mended: 1,
            symbols: 1,
            ..Tally::default()
        }
    );
    scheme.encode(&bits, &shifts, &HAMMING, &[1, 0, 1, 1], &mut out)?;
    assert_eq!(rt; out, [1, 0, 1, 1, 1, 0, 0]);
    let (_, last) = scheme.withdraw();
    assert_eq!(rt; last, Tally::default());
    let table = Table::new(4, &[0, 1, 2, 3, 1, 2, 0, 3, 2, 0, 1, 3])?;
    let threes = Residues::new(3)?;
    let mut scheme = live(&threes, &table, 4, 2, 1, &[2, 2, 2, 1])?;
    let mut out = [9u8; 4];
    assert_eq!(rt;
        scheme.correct(&threes, &table, &[2, 2, 2, 1], &[2, 1, 1, 0], &mut out)?,
        (1, 2)
    );
    assert_eq!(rt; out, [1, 1, 1, 0]);
    Ok(())
}

#[test]
fn refusals_leave_buffer_and_scheme(rt: HostRuntime) -> Result<(), Fail> {
    let bits = Residues::new(2)?;
    let shifts = Shifts::new(4, 1, 2);
    let rows = [1u8, 1, 1];
    let mut scheme = live(&bits, &shifts, 4, 1, 1, &rows)?;
    let mut out = [7u8; 4];
    let answers = [
        scheme.correct(&Residues::new(3)?, &shifts, &rows, &[1, 1, 0, 0], &mut out),
        scheme.correct(&bits, &Shifts::new(4, 1, 3), &rows, &[1, 1, 0, 0], &mut out),
        scheme.correct(&bits, &Shifts::new(5, 1, 2), &rows, &[1, 1, 0, 0], &mut out),
        scheme.correct(&bits, &shifts, &[1, 1], &[1, 2, 0, 0], &mut out),
        scheme.correct(&bits, &shifts, &rows, &[1, 1, 0], &mut out),
        scheme.correct(&bits, &shifts, &rows, &[1, 1, 2, 3], &mut out),
    ];
    let refusals = [(13, 0), (13, 0), (13, 0), (13, 0), (14, 0), (15, 2)];
    for (answer, (number, first)) in answers.into_iter().zip(refusals) {
        assert_eq!(rt; told(answer), (number, first, 0));
    }
    let mut long = [7u8; 5];
    assert_eq!(rt;
        told(scheme.correct(&bits, &shifts, &rows, &[1, 1, 0, 0], &mut long)),
        (14, 0, 0)
    );
    assert_eq!(rt; scheme.close(), Tally::default());
    assert_eq!(rt;
        told(scheme.correct(&bits, &shifts, &rows, &[1, 1, 0, 0], &mut out)),
        (17, 0, 0)
    );
    assert_eq!(rt;
        told(scheme.encode(&bits, &shifts, &rows, &[2], &mut out)),
        (15, 0, 0)
    );
    assert_eq!(rt; (out, long), ([7u8; 4], [7u8; 5]));
    assert_eq!(rt;
        scheme.close(),
        Tally {
            blocks: 1,
            lost: 1,
            ..Tally::default()
        }
    );
    Ok(())
}

// After the trial: a list of the same length and count, whose first entry is no permutation and whose second takes every place to itself.
#[test]
fn another_list_after_the_trial(rt: HostRuntime) -> Result<(), Fail> {
    let bits = Residues::new(2)?;
    let rows = [1u8, 1, 1];
    let mut scheme = live(&bits, &Shifts::new(4, 1, 2), 4, 1, 1, &rows)?;
    let entries = [1u8, 1, 1, 1, 0, 1, 2, 3];
    let other = Table::new(4, &entries)?;
    let mut out = [7u8; 4];
    assert_eq!(rt;
        scheme.correct(&bits, &other, &rows, &[1, 1, 0, 1], &mut out)?,
        (1, 1)
    );
    assert_eq!(rt; out, [1u8; 4]);
    assert_eq!(rt;
        told(scheme.correct(&bits, &other, &rows, &[0, 1, 1, 1], &mut out)),
        (17, 0, 0)
    );
    assert_eq!(rt;
        scheme.close(),
        Tally {
            blocks: 2,
            mended: 1,
            lost: 1,
            symbols: 1,
            ..Tally::default()
        }
    );
    Ok(())
}

#[test]
fn kind_and_list_from_outside(rt: HostRuntime) -> Result<(), Fail> {
    let matrices = Triangular::new();
    let list = Reversed::new(4);
    let rows = [3u8, 1, 3];
    let mut scheme = live(&matrices, &list, 4, 1, 1, &rows)?;
    let mut out = [0u8; 4];
    // 4 times 3 is 4; 3 times 4 would be 6
    scheme.encode(&matrices, &list, &rows, &[4], &mut out)?;
    assert_eq!(rt; out, [4u8; 4]);
    assert_eq!(rt;
        scheme.correct(&matrices, &list, &rows, &[5, 4, 4, 4], &mut out)?,
        (1, 1)
    );
    assert_eq!(rt; out, [4u8; 4]);
    assert_eq!(rt;
        scheme.correct(&matrices, &list, &rows, &[7, 5, 7, 6], &mut out)?,
        (1, 0)
    );
    assert_eq!(rt; out, [7, 5, 7, 5]);
    assert_eq!(rt;
        scheme.close(),
        Tally {
            blocks: 2,
            mended: 2,
            symbols: 2,
            ..Tally::default()
        }
    );
    Ok(())
}

// Corrects a million blocks: one that is mended and one that is clean, in turn.
fn fill(scheme: &mut Live, bits: &Residues, shifts: &Shifts, rows: &[u8]) {
    // So many times: nothing is gone through.
    for _ in 0..500_000 {
        let mut out = [0u8; 3];
        let _ = scheme.correct(bits, shifts, rows, &[1, 1, 0], &mut out);
        let _ = scheme.correct(bits, shifts, rows, &[0, 0, 0], &mut out);
    }
}

#[test]
fn full_tally(rt: HostRuntime) -> Result<(), Fail> {
    let bits = Residues::new(2)?;
    let shifts = Shifts::new(3, 1, 3);
    let rows = [1u8, 1];
    let mut scheme = live(&bits, &shifts, 3, 1, 1, &rows)?;
    fill(&mut scheme, &bits, &shifts, &rows);
    let mut last = [5u8; 3];
    assert_eq!(rt;
        told(scheme.correct(&bits, &shifts, &rows, &[1, 1, 0], &mut last)),
        (16, 0, 0)
    );
    assert_eq!(rt; last, [5u8; 3]);
    assert_eq!(rt;
        scheme.close(),
        Tally {
            blocks: 1_000_000,
            clean: 500_000,
            mended: 500_000,
            symbols: 500_000,
            ..Tally::default()
        }
    );
    assert_eq!(rt;
        scheme.correct(&bits, &shifts, &rows, &[1, 1, 0], &mut last)?,
        (1, 0)
    );
    assert_eq!(rt;
        scheme.close(),
        Tally {
            blocks: 1,
            mended: 1,
            symbols: 1,
            ..Tally::default()
        }
    );
    Ok(())
}

// Seven bits of a number, the lowest first.
fn bits_of(x: u32) -> [u8; 7] {
    array::from_fn(|i| (x >> i & 1) as u8)
}

// A run of blocks from a simple generator, with counts kept beside it: of 7 bits, 16 words are codewords and all others are one place off.
#[test]
fn long_run(rt: HostRuntime) -> Result<(), Fail> {
    let bits = Residues::new(2)?;
    let shifts = Shifts::new(7, 3, 3);
    let mut scheme = live(&bits, &shifts, 7, 4, 1, &HAMMING)?;
    let mut seed = 12345u32;
    let mut clean = 0u32;
    let mut refused = 0u32;
    // So many times: each block follows from the one before.
    for _ in 0..5_000 {
        seed = seed.wrapping_mul(1_103_515_245).wrapping_add(12_345);
        let x = seed >> 16;
        let mut out = [0u8; 7];
        let mut word = bits_of(x);
        if x % 64 == 0 {
            word[6] = 2;
            refused = refused.wrapping_add(1);
        }
        scheme.encode(&bits, &shifts, &HAMMING, &word[..4], &mut out)?;
        if out == word {
            clean = clean.wrapping_add(1);
        }
        let _ = scheme.correct(&bits, &shifts, &HAMMING, &word, &mut out);
    }
    let mended = 5_000u32.wrapping_sub(refused).wrapping_sub(clean);
    assert!(rt; clean > 400 && refused > 50);
    assert_eq!(rt;
        scheme.close(),
        Tally {
            blocks: clean.wrapping_add(mended),
            clean,
            mended,
            symbols: mended,
            ..Tally::default()
        }
    );
    Ok(())
}
