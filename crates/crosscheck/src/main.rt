// Another decoder, written apart from the product, and what both make of many blocks.
// It goes through all codewords and takes the nearest. The program prints what it compared; a difference shows in the last column.

#![tactic(auto)]

use brute::{Book, Size, cyclic_rows};
use compare::{Blocks, Comparison};
use faults::Fault;
use foreign_kinds::Triangular;
use foreign_lists::Reversed;
use lists::{Multiplier, Permutations, Shifts, Table};
use schemes::Draft;
use std::alloc::AllocError;
use std::io;
use symbols::{Kind, Residues, TwoPower};

mod brute;
mod compare;

// Why the program stops early.
#[derive(Clone, Copy)]
enum Failure {
    Refused(Fault),
    Numbers,
    Memory,
    Output,
}

impl From<Fault> for Failure {
    fn from(fault: Fault) -> Failure {
        Failure::Refused(fault)
    }
}

impl From<AllocError> for Failure {
    fn from(_: AllocError) -> Failure {
        Failure::Memory
    }
}

impl From<io::Error> for Failure {
    fn from(_: io::Error) -> Failure {
        Failure::Output
    }
}

fn size_of(n: u8, k: u8, t: u8) -> Result<Size, Failure> {
    Size::new(n, k, t).ok_or(Failure::Numbers)
}

// A binary cyclic code: its generator has the coefficient of the i-th power as bit i.
#[derive(Clone, Copy)]
struct Cyclic {
    size: Size,
    generator: u32,
    powers: u8,
}

fn cyclic_code(n: u8, k: u8, t: u8, generator: u32, powers: u8) -> Result<Cyclic, Failure> {
    Ok(Cyclic {
        size: size_of(n, k, t)?,
        generator,
        powers,
    })
}

// Compares both decoders on blocks of a code, and prints a line. Kind, list and rows go on to the trial, so a struct of them is no plainer.
fn compare_code<K: Kind, L: Permutations>(
    rt: &HostRuntime,
    label: &str,
    size: Size,
    kind: &K,
    list: &L,
    rows: &[u8],
    blocks: Blocks,
) -> Result<(), Failure> {
    match Draft::new(size.n, size.k, size.t, kind)?.trial(kind, list, rows) {
        Ok(live) => {
            let book = Book::new(rt.alloc(), kind, size, rows)?;
            let found = Comparison::new(live, kind, list, rows, book, blocks).run();
            println!(rt; "{label}: live, {found}")?;
        }
        Err(rejected) => println!(rt; "{label}: {}", rejected.fault)?,
    }
    Ok(())
}

// A binary cyclic code, with all shifts and the powers of multiplier 2.
fn compare_cyclic(rt: &HostRuntime, code: Cyclic) -> Result<(), Failure> {
    let heap = rt.alloc();
    let kind = Residues::new(2)?;
    let size = code.size;
    let list = Multiplier::new(Shifts::new(size.n, 1, size.n as u16), 2, code.powers);
    let rows = cyclic_rows(heap, size, code.generator)?;
    let label = format!(in heap; "{size} with {} powers", code.powers)?;
    compare_code(rt, &label, size, &kind, &list, &rows, Blocks::Patterns)
}

// Every block of a small code. Its parameters are those of `compare_code`.
fn compare_small<K: Kind, L: Permutations>(
    rt: &HostRuntime,
    name: &str,
    kind: &K,
    list: &L,
    size: Size,
    rows: &[u8],
) -> Result<(), Failure> {
    let label = format!(in rt.alloc(); "{name} {size}")?;
    compare_code(rt, &label, size, kind, list, rows, Blocks::Every)
}

// The binary cyclic codes, with all shifts and the powers of multiplier 2.
fn run_cyclic(rt: &HostRuntime) -> Result<(), Failure> {
    let codes = [
        cyclic_code(23, 12, 3, 3189, 4)?,
        cyclic_code(23, 12, 3, 3189, 3)?,
        cyclic_code(23, 12, 3, 3189, 11)?,
        cyclic_code(31, 16, 3, 62961, 5)?,
        cyclic_code(31, 11, 4, 1940501, 5)?,
        cyclic_code(21, 12, 2, 947, 6)?,
        cyclic_code(21, 9, 3, 7723, 6)?,
        cyclic_code(21, 5, 4, 128305, 6)?,
        cyclic_code(17, 9, 2, 471, 8)?,
        cyclic_code(15, 7, 2, 465, 4)?,
        cyclic_code(15, 5, 3, 1893, 4)?,
    ];
    for code in codes {
        compare_cyclic(rt, code)?;
    }
    Ok(())
}

// Small codes over other rings: one with two information places, and a symbol with its multiples in three, four and five places.
fn run_small(rt: &HostRuntime) -> Result<(), Failure> {
    let table = Table::new(4, &[0, 1, 2, 3, 1, 2, 0, 3, 2, 0, 1, 3])?;
    let ternary = size_of(4, 2, 1)?;
    let threefold = size_of(3, 1, 1)?;
    let fourfold = size_of(4, 1, 1)?;
    let fivefold = size_of(5, 1, 2)?;
    let three = Shifts::new(3, 1, 3);
    let four = Shifts::new(4, 1, 4);
    let five = Shifts::new(5, 1, 5);
    let reversed = Reversed::new(4);
    let mod3 = Residues::new(3)?;
    let mod4 = Residues::new(4)?;
    let mod5 = Residues::new(5)?;
    let bits2 = TwoPower::new(2)?;
    let bits3 = TwoPower::new(3)?;
    let bits4 = TwoPower::new(4)?;
    let matrices = Triangular::new();
    compare_small(rt, "residues 3", &mod3, &table, ternary, &[2, 2, 2, 1])?;
    compare_small(rt, "residues 4", &mod4, &four, fourfold, &[3, 1, 3])?;
    compare_small(rt, "residues 5", &mod5, &five, fivefold, &[1, 1, 1, 1])?;
    compare_small(rt, "two-power 2", &bits2, &three, threefold, &[2, 3])?;
    compare_small(rt, "two-power 3", &bits3, &four, fourfold, &[1, 1, 1])?;
    compare_small(rt, "two-power 4", &bits4, &three, threefold, &[6, 7])?;
    compare_small(rt, "matrices", &matrices, &reversed, fourfold, &[3, 1, 3])
}

// Compares the decoders on all schemes.
fn run(rt: &HostRuntime) -> Result<(), Failure> {
    run_cyclic(rt)?;
    run_small(rt)
}

fn main(rt: HostRuntime) -> io::Result<()> {
    match run(&rt) {
        Ok(_) => Ok(()),
        Err(Failure::Refused(fault)) => println!(rt; "{fault}"),
        Err(Failure::Numbers) => println!(rt; "no code has such numbers"),
        Err(Failure::Memory) => println!(rt; "out of memory"),
        Err(Failure::Output) => Ok(()),
    }
}
