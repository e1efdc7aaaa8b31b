// Both decoders on the same blocks.
ghost use Rattle.std.specs.Prelude.{◌<◌};

use crate::brute::Book;
use faults::Fault;
use lists::Permutations;
use schemes::Live;
use std::fmt;
use symbols::Kind;

// The blocks that are compared.
#[derive(Clone, Copy)]
pub enum Blocks {
    // Every block of symbols.
    Every,
    // Codewords of bits with errors: random patterns, and every one of at most t errors where the code has at most 23 places.
    Patterns,
}

// What was compared: blocks with at most t errors, blocks with more, lost ones, and those on which the decoders differ.
// Where every block is compared, all are counted as near.
#[derive(Clone, Copy)]
pub struct Found {
    blocks: Blocks,
    near: u32,
    far: u32,
    lost: u32,
    different: u32,
}

impl fmt::Display for Found {
    fn fmt<W: fmt::Write>(&self, f: &mut fmt::Formatter<W>) -> fmt::Result {
        match self.blocks {
            Blocks::Every => write!(f, "{} blocks", self.near)?,
            Blocks::Patterns => {
                write!(f, "{} patterns up to t, {} beyond", self.near, self.far)?;
            }
        }
        write!(f, ", {} lost, {} different", self.lost, self.different)
    }
}

// A live scheme with what its calls read, the codewords of its code, and what was found so far.
#[derive(Drop)]
pub struct Comparison<'a, K, L> {
    live: Live,
    kind: &'a K,
    list: &'a L,
    rows: &'a [u8],
    book: Book,
    found: Found,
}

impl<'a, K: Kind, L: Permutations> Comparison<'a, K, L> {
    pub fn new(
        live: Live,
        kind: &'a K,
        list: &'a L,
        rows: &'a [u8],
        book: Book,
        blocks: Blocks,
    ) -> Comparison<'a, K, L> {
        let found = Found {
            blocks,
            near: 0,
            far: 0,
            lost: 0,
            different: 0,
        };
        Comparison {
            live,
            kind,
            list,
            rows,
            book,
            found,
        }
    }

    // Compares the blocks, and answers what was found.
    pub fn run(mut self) -> Found {
        match self.found.blocks {
            Blocks::Every => self.every_block(),
            Blocks::Patterns => {
                self.samples();
                self.every_pattern();
            }
        }
        self.found
    }

    // Whether both decoders make the same of a block: the codeword at most t places away, or none.
    fn agree(&mut self, block: &[u8], out: &mut [u8]) -> bool {
        let t = self.book.size.t as usize;
        let answer = self
            .live
            .correct(self.kind, self.list, self.rows, block, out);
        let nearest = self.book.nearest(block).filter(|(d, _)| *d <= t);
        match (answer, nearest) {
            (Ok((distance, _)), Some((d, word))) => distance as usize == d && *out == *word,
            (Err(Fault::Lost), None) => {
                self.found.lost = self.found.lost.saturating_add(1);
                true
            }
            _ => false,
        }
    }

    // Compares one block, the first n symbols of the given ones. Arrays of 64 symbols, as no block is longer and none is kept.
    fn one(&mut self, symbols: &[u8; 64]) {
        let n = self.book.size.n as usize;
        let mut out = [0u8; 64];
        if !self.agree(&symbols[..n], &mut out[..n]) {
            self.found.different = self.found.different.saturating_add(1);
        }
    }

    // Every block of symbols, at most 100,000.
    fn every_block(&mut self) {
        let q = self.kind.order();
        let count = (q as u32).saturating_pow(self.book.size.n as u32);
        // A block is its number.
        for x in 0..count.min(100_000) {
            self.one(&numbered(x, q));
            self.found.near = self.found.near.saturating_add(1);
        }
    }

    // A codeword of bits drawn by a random number, with the places of a mask turned.
    fn pattern(&mut self, seed: u32, mask: u32) {
        let block = self
            .book
            .drawn((seed >> 4) as usize)
            .map_or([0; 64], |word| turned(word, mask));
        self.one(&block);
        if mask.count_ones() <= self.book.size.t as u32 {
            self.found.near = self.found.near.saturating_add(1);
        } else {
            self.found.far = self.found.far.saturating_add(1);
        }
    }

    // Every pattern of at most t errors, if the code has at most 23 places.
    fn every_pattern(&mut self) {
        if self.book.size.n > 23 {
            return;
        }
        let t = self.book.size.t as u32;
        let mut seed = 1u32;
        for mask in (0..1u32 << self.book.size.n).filter(|mask| mask.count_ones() <= t) {
            seed = random(seed);
            self.pattern(seed, mask);
        }
    }

    // Random patterns: 100 of at most t errors, then 100 of about t + 1 to t + 4.
    fn samples(&mut self) {
        let mut seed = 1u32;
        // The number decides how many errors there are.
        for i in 0..200u32 {
            let more = if i < 100 { 0 } else { 1 + (i % 4) as u8 };
            let (mask, next) = scattered(seed, self.book.size.n, self.book.size.t + more);
            seed = random(next);
            self.pattern(seed, mask);
        }
    }
}

// A codeword of bits with the places of a mask turned, in an array as `one` takes it.
fn turned(word: &[u8], mask: u32) -> [u8; 64] {
    let mut block = [0u8; 64];
    let mut rest = mask;
    for (place, symbol) in block.iter_mut().zip(word) {
        *place = *symbol ^ (rest & 1) as u8;
        rest >>= 1;
    }
    block
}

// The next number of a simple generator.
fn random(seed: u32) -> u32 {
    seed.wrapping_mul(1_664_525).wrapping_add(1_013_904_223)
}

// A mask of some of n places, drawn at random, and the last random number.
fn scattered(seed: u32, n: u8, errors: u8) -> (u32, u32)
    requires { 0 < n }
{
    (0..errors).fold((0, seed), |(mask, last), _| {
        let next = random(last);
        (mask | 1 << ((next >> 8) % n as u32 % 32), next)
    })
}

// The symbols of a number in base q, the lowest first, in an array as `one` takes it.
fn numbered(x: u32, q: u8) -> [u8; 64] {
    let q = q.max(1) as u32;
    let mut block = [0u8; 64];
    let mut rest = x;
    for place in block.iter_mut() {
        *place = (rest % q) as u8;
        rest /= q;
    }
    block
}
