// Products, sums and negatives by hand-computed values, through the interface of kinds.
use crate::Triangular;
use faults::Fault;
use std::process::Abort;
use std::test::Fail;
use symbols::{Kind, Residues, TwoPower};

#[test]
fn two_power_products(rt: HostRuntime) -> Result<(), Fail> {
    // (w, a, b, a times b)
    let cases: [(u8, u8, u8, u8); 14] = [
        (2, 2, 2, 3),
        (2, 2, 3, 1),
        (2, 3, 3, 2),
        (3, 2, 4, 3),
        (3, 4, 4, 6),
        (3, 7, 7, 3),
        (3, 5, 2, 1),
        (4, 2, 9, 1),
        (4, 8, 2, 3),
        (4, 15, 15, 10),
        (4, 7, 6, 1),
        (2, 6, 7, 1),
        (3, 255, 8, 0),
        (4, 18, 25, 1),
    ];
    for (w, a, b, product) in cases {
        assert_eq!(rt; TwoPower::new(w)?.product(a, b), product);
    }
    Ok(())
}

#[test]
fn two_power_sums(rt: HostRuntime) -> Result<(), Fail> {
    // (w, q, a, b, a + b)
    let cases: [(u8, u8, u8, u8, u8); 6] = [
        (2, 4, 2, 3, 1),
        (2, 4, 6, 5, 3),
        (3, 8, 5, 3, 6),
        (3, 8, 255, 8, 7),
        (4, 16, 9, 12, 5),
        (4, 16, 16, 15, 15),
    ];
    for (w, q, a, b, sum) in cases {
        let kind = TwoPower::new(w)?;
        assert_eq!(rt; kind.order(), q);
        assert_eq!(rt; kind.sum(a, b), sum);
        assert_eq!(rt; kind.negative(a), a % q);
    }
    Ok(())
}

#[test]
fn residues_once_each(rt: HostRuntime) -> Result<(), Fail> {
    // (b, x, y, x + y, -x, x times y)
    let cases: [(u8, u8, u8, u8, u8, u8); 18] = [
        (2, 1, 1, 0, 1, 1),
        (3, 2, 2, 1, 1, 1),
        (4, 2, 3, 1, 2, 2),
        (5, 3, 4, 2, 2, 2),
        (6, 4, 5, 3, 2, 2),
        (7, 3, 5, 1, 4, 1),
        (8, 6, 7, 5, 2, 2),
        (9, 7, 8, 6, 2, 2),
        (10, 4, 8, 2, 6, 2),
        (11, 6, 10, 5, 5, 5),
        (12, 7, 11, 6, 5, 5),
        (13, 12, 12, 11, 1, 1),
        (14, 9, 13, 8, 5, 5),
        (15, 0, 14, 14, 0, 0),
        (16, 15, 15, 14, 1, 1),
        (16, 16, 17, 1, 0, 0),
        (10, 255, 10, 5, 5, 0),
        (7, 200, 100, 6, 3, 1),
    ];
    for (b, x, y, sum, negative, product) in cases {
        let kind = Residues::new(b)?;
        assert_eq!(rt; kind.order(), b);
        assert_eq!(rt; kind.sum(x, y), sum);
        assert_eq!(rt; kind.negative(x), negative);
        assert_eq!(rt; kind.product(x, y), product);
    }
    Ok(())
}

// A refusal by number and places, which are what is tested; all 0 stands for none. Other test crates have it, too: a crate for one line is no plainer.
fn told<T: Drop>(answer: Result<T, Fault>) -> (u8, u64, u64) {
    answer.err().map_or(
        (0, 0, 0),
        |fault| (fault.number(), fault.first(), fault.second()),
    )
}

#[test]
fn refused_kinds(rt: HostRuntime) {
    for b in [0, 1, 17, 255] {
        assert_eq!(rt; told(Residues::new(b)), (1, 0, 0));
    }
    for w in [0, 1, 5, 255] {
        assert_eq!(rt; told(TwoPower::new(w)), (1, 0, 0));
    }
}

#[test]
fn triangular_products(rt: HostRuntime) {
    let kind = Triangular::new();
    // 2 is the matrix with a single 1 at the upper right, 4 with a single 1 at the lower right.
    assert_eq!(rt; kind.product(2, 4), 2);
    assert_eq!(rt; kind.product(4, 2), 0);
    assert_eq!(rt; kind.product(5, 5), 5);
    assert_eq!(rt; kind.product(9, 15), 7);
    assert_eq!(rt; kind.sum(12, 6), 2);
}

// Whether add_multiple gives what sum and product give, place by place.
fn adds_multiple<K: Kind>(rt: &impl Abort, kind: &K, factor: u8, row: &[u8]) {
    let before: [u8; 6] = [0, 3, 200, 1, 15, 255];
    let mut sums = before;
    kind.add_multiple(factor, row, &mut sums);
    for (j, sum) in before.iter().enumerate() {
        let expected = row
            .get(j)
            .map_or(*sum, |code| kind.sum(*sum, kind.product(factor, *code)));
        assert_eq!(rt; sums[j], expected);
    }
}

// The same by several factors.
fn adds_multiples_of<K: Kind>(rt: &impl Abort, kind: &K, row: &[u8]) {
    for factor in [0, 1, 2, 3, 6, 255] {
        adds_multiple(rt, kind, factor, row);
    }
}

// The same on rows shorter than the sums, as long and longer.
fn adds_multiples<K: Kind>(rt: &impl Abort, kind: &K) {
    let codes: [u8; 8] = [7, 0, 1, 2, 255, 14, 5, 128];
    for long in [0, 1, 5, 6, 8] {
        adds_multiples_of(rt, kind, &codes[..long]);
    }
}

#[test]
fn multiples_added(rt: HostRuntime) -> Result<(), Fail> {
    adds_multiples(&rt, &Triangular::new());
    adds_multiples(&rt, &Residues::new(2)?);
    adds_multiples(&rt, &Residues::new(3)?);
    adds_multiples(&rt, &Residues::new(16)?);
    adds_multiples(&rt, &TwoPower::new(4)?);
    Ok(())
}
