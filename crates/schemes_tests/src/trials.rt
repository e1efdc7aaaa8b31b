// Drafts and trials: what goes live, and each refusal from 3 to 12 with its places.
use crate::HAMMING;
use crate::common::{LIVE, Told, live, told};
use foreign_kinds::Triangular;
use foreign_lists::Reversed;
use lists::{Permutations, Shifts, Table};
use schemes::Draft;
use std::test::Fail;
use symbols::{Kind, Residues, TwoPower};

fn drafted<K: Kind>(kind: &K, n: u8, k: u8, t: u8) -> Told {
    told(Draft::new(n, k, t, kind))
}

// The parameters are those of the calls.
fn tried<K: Kind, L: Permutations>(kind: &K, list: &L, n: u8, k: u8, t: u8, rows: &[u8]) -> Told {
    told(live(kind, list, n, k, t, rows))
}

#[test]
fn drafts(rt: HostRuntime) -> Result<(), Fail> {
    let bits = Residues::new(2)?;
    let hex = TwoPower::new(4)?;
    let sizes: [(u8, u8, u8, u8); 12] = [
        (1, 1, 1, 3),
        (65, 1, 1, 3),
        (255, 16, 1, 3),
        (7, 0, 1, 3),
        (20, 17, 1, 3),
        (7, 7, 1, 3),
        (7, 8, 9, 3),
        (7, 4, 0, 4),
        (7, 4, 6, 4),
        (2, 1, 5, 0),
        (64, 16, 5, 0),
        (17, 16, 1, 0),
    ];
    for (n, k, t, number) in sizes {
        assert_eq!(rt; drafted(&bits, n, k, t), (number, 0, 0));
    }
    assert_eq!(rt; drafted(&hex, 7, 4, 1), LIVE);
    assert_eq!(rt; drafted(&hex, 7, 5, 1), (5, 0, 0));
    assert_eq!(rt; drafted(&hex, 20, 16, 1), (5, 0, 0));
    Ok(())
}

#[test]
fn binary_code(rt: HostRuntime) -> Result<(), Fail> {
    let bits = Residues::new(2)?;
    let rows = HAMMING;
    assert_eq!(rt; tried(&bits, &Shifts::new(7, 1, 5), 7, 4, 1, &rows), LIVE);
    assert_eq!(rt; tried(&bits, &Shifts::new(7, 3, 3), 7, 4, 1, &rows), LIVE);
    assert_eq!(rt;
        tried(&bits, &Shifts::new(7, 3, 2), 7, 4, 1, &rows),
        (12, 1, 0)
    );
    assert_eq!(rt;
        tried(&bits, &Shifts::new(7, 1, 5), 7, 4, 2, &rows),
        (10, 1, 0)
    );
    let swap = [0u8, 1, 2, 3, 4, 5, 6, 1, 0, 2, 3, 4, 5, 6];
    assert_eq!(rt;
        tried(&bits, &Table::new(7, &swap)?, 7, 4, 1, &rows),
        (11, 1, 0)
    );
    // 3 places are too few for 2 errors
    assert_eq!(rt;
        tried(&bits, &Shifts::new(3, 1, 3), 3, 1, 2, &[1, 1]),
        (10, 1, 0)
    );
    Ok(())
}

#[test]
fn unfit_for_a_trial(rt: HostRuntime) -> Result<(), Fail> {
    let bits = Residues::new(2)?;
    let shifts = Shifts::new(7, 1, 5);
    let draft = Draft::new(7, 4, 1, &Residues::new(3)?)?;
    let answer = draft.trial(&bits, &shifts, &HAMMING);
    assert_eq!(rt; told(answer.map_err(|rejected| rejected.fault)), (6, 0, 0));
    assert_eq!(rt; tried(&bits, &shifts, 7, 4, 1, &[1, 1]), (6, 0, 0));
    assert_eq!(rt;
        tried(
            &bits,
            &shifts,
            7,
            4,
            1,
            &[1, 1, 0, 0, 1, 2, 1, 1, 1, 1, 0, 3],
        ),
        (7, 5, 0)
    );
    assert_eq!(rt;
        tried(&bits, &Shifts::new(6, 1, 5), 7, 4, 1, &HAMMING),
        (8, 0, 0)
    );
    assert_eq!(rt;
        tried(&bits, &Shifts::new(7, 1, 0), 7, 4, 1, &HAMMING),
        (8, 0, 0)
    );
    let twice = [0u8, 1, 2, 3, 4, 5, 6, 0, 1, 2, 3, 4, 5, 4];
    assert_eq!(rt;
        tried(&bits, &Table::new(7, &twice)?, 7, 4, 1, &HAMMING),
        (9, 1, 6)
    );
    let large = [0u8, 1, 7, 3, 4, 5, 5];
    assert_eq!(rt;
        tried(&bits, &Table::new(7, &large)?, 7, 4, 1, &HAMMING),
        (9, 0, 2)
    );
    Ok(())
}

#[test]
fn other_rings_and_lists(rt: HostRuntime) -> Result<(), Fail> {
    let ternary = [0u8, 1, 2, 3, 1, 2, 0, 3, 2, 0, 1, 3];
    assert_eq!(rt;
        tried(
            &Residues::new(3)?,
            &Table::new(4, &ternary)?,
            4,
            2,
            1,
            &[2, 2, 2, 1],
        ),
        LIVE
    );
    assert_eq!(rt;
        tried(&TwoPower::new(2)?, &Shifts::new(3, 1, 3), 3, 1, 1, &[2, 3]),
        LIVE
    );
    assert_eq!(rt;
        tried(&Residues::new(4)?, &Shifts::new(3, 1, 3), 3, 1, 1, &[2, 3]),
        (10, 2, 0)
    );
    // products that do not commute, and a list that the product does not know
    let matrices = Triangular::new();
    assert_eq!(rt;
        tried(&matrices, &Reversed::new(4), 4, 1, 1, &[3, 1, 3]),
        LIVE
    );
    assert_eq!(rt;
        tried(&matrices, &Reversed::new(4), 4, 1, 1, &[3, 1, 1]),
        (11, 1, 0)
    );
    assert_eq!(rt;
        tried(&matrices, &Reversed::new(4), 4, 1, 1, &[2, 1, 2]),
        (10, 2, 0)
    );
    Ok(())
}
