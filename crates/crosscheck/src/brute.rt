// All codewords of a code, one after another, and the nearest of them to a block. Nothing of the product's decoder is used here.
ghost use Rattle.std.specs.Prelude.{◌≡◌, ◌<◌, ◌≤◌};

use std::alloc::{AllocError, Global};
use std::fmt;
use symbols::Kind;

// The numbers of a code: n places, the first k of them information places, up to t errors.
#[derive(Clone, Copy)]
pub struct Size {
    pub n: u8,
    pub k: u8,
    pub t: u8,
    ghost longest: { n ≤ 64 },
    ghost some: { 0 < k },
    ghost order: { k < n },
    ghost errors: { t ≤ 5 },
}

impl Size {
    // None where the numbers are outside these limits.
    pub fn new(n: u8, k: u8, t: u8) -> Option<Size> {
        if n > 64 || k == 0 || k >= n || t > 5 {
            return None;
        }
        Some(Size { n, k, t })
    }
}

impl fmt::Display for Size {
    fn fmt<W: fmt::Write>(&self, f: &mut fmt::Formatter<W>) -> fmt::Result {
        write!(f, "({},{},{})", self.n, self.k, self.t)
    }
}

// The codewords of a code, one after another: `chunks_exact` cuts them, and no memory is asked for each.
#[derive(Drop)]
pub struct Book {
    pub size: Size,
    words: Vec<u8>,
}

// The next message of symbols below q, the first symbol first to rise.
fn step(message: &mut [u8], q: u8) {
    for symbol in message.iter_mut() {
        *symbol = symbol.wrapping_add(1);
        if *symbol < q {
            return;
        }
        *symbol = 0;
    }
}

// Check symbol j of a message, for check rows of the given width.
fn check_symbol<K: Kind>(kind: &K, rows: &[u8], width: usize, message: &[u8], j: usize) -> u8
    requires { 0 < width }
{
    // By whole rows: to pass over single codes would take a step for each.
    rows.chunks_exact(width)
        .zip(message)
        .fold(0, |sum, (row, u)| match row.get(j) {
            Some(code) => kind.sum(kind.product(*u, *code), sum),
            None => sum,
        })
}

// Appends the check symbols of a message. The rows are lent, and no field of a book, since its words are all that is asked for later.
fn put_checks<K: Kind>(
    words: &mut Vec<u8>,
    kind: &K,
    rows: &[u8],
    width: usize,
    message: &[u8],
) -> Result<(), AllocError>
    requires { 0 < width }
{
    words.extend((0..width).map(|j| check_symbol(kind, rows, width, message, j)))
}

impl Book {
    // All codewords of the code with these check rows, in the order of their messages.
    pub fn new<K: Kind>(
        heap: Global,
        kind: &K,
        size: Size,
        rows: &[u8],
    ) -> Result<Book, AllocError> {
        let mut words = Vec::new(heap);
        let mut message = vec![in heap; 0u8; size.k as usize]?;
        let width = (size.n - size.k) as usize;
        // As often as there are messages; `message` itself counts.
        for _ in 0..(kind.order() as u32).saturating_pow(size.k as u32) {
            words.extend_from_slice(&message)?;
            put_checks(&mut words, kind, rows, width, &message)?;
            step(&mut message, kind.order());
        }
        Ok(Book { size, words })
    }

    // A codeword drawn by a number, or none if there are no codewords.
    pub fn drawn(&self, number: usize) -> Option<&[u8]> {
        let n = self.size.n as usize;
        // By its place: `nth` of chunks would go through those before it.
        let from = number.checked_rem(self.words.len() / n)?.checked_mul(n)?;
        self.words.get(from..)?.get(..n)
    }

    // The codeword nearest to a block, and its distance: of several, the first.
    pub fn nearest(&self, block: &[u8]) -> Option<(usize, &[u8])> {
        self.words
            .chunks_exact(self.size.n as usize)
            .map(|word| (differing(word, block), word))
            .min_by_key(|(distance, _)| *distance)
    }
}

// The number of places where two words differ.
fn differing(a: &[u8], b: &[u8]) -> usize {
    a.iter().zip(b).filter(|(x, y)| x != y).count()
}

// x to a power, reduced by a generator of the given degree.
fn power_of_x(power: u8, generator: u32, degree: u8) -> u64
    requires { degree < 64 }
{
    (0..power).fold(1, |x: u64, _| {
        let next = x << 1;
        if next >> degree & 1 == 1 {
            next ^ generator as u64
        } else {
            next
        }
    })
}

// Appends the bits of a check row, the coefficient of the highest power first.
fn put_bits(rows: &mut Vec<u8>, row: u64, degree: u8) -> Result<(), AllocError>
    requires { degree ≤ 64 }
{
    rows.extend((0..degree).rev().map(|power| (row >> power & 1) as u8))
}

// The check rows of a cyclic code whose place p is the coefficient of the power n - 1 - p: row i is x to the power n - 1 - i, reduced.
pub fn cyclic_rows(heap: Global, size: Size, generator: u32) -> Result<Vec<u8>, AllocError> {
    let degree = size.n - size.k;
    let mut rows = Vec::new(heap);
    // Row i is a number's: `extend` in `put_bits` can fail, so no closure goes round it.
    for i in 0..size.k {
        let row = power_of_x(size.n - 1 - i, generator, degree);
        put_bits(&mut rows, row, degree)?;
    }
    Ok(rows)
}
