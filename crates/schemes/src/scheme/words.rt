// Words: a code that is lent, its check symbols and codewords.
ghost use Rattle.std.specs.Prelude.{◌≡◌, ℕ, ◌+◌, ◌-◌, ◌*◌, ◌^◌, ◌<◌, ◌≤◌, true, length, slice_index, take};

use crate::scheme::counts::distance;
use symbols::Kind;

// A word of at most 64 symbols, from place 0 on. It is an array with its length kept by the code, since the product has no heap.
pub(crate) type Word = [u8; 64];

// A message of at most 16 symbols, likewise.
pub(crate) type Message = [u8; 16];

// A code as it is handed over: a kind and check rows, for words of n places, the first k of them information places.
// Its methods ask for messages of k symbols: a type for these would hold k once more, and is no plainer.
#[derive(Drop)]
pub(crate) struct Code<'a, K> {
    pub(crate) kind: &'a K,
    pub(crate) rows: &'a [u8],
    pub(crate) n: usize,
    pub(crate) k: usize,
    ghost some: { 0 < k },
    ghost short: { k ≤ 16 },
    ghost order: { k < n },
    ghost few: { n ≤ 64 },
    ghost size: { length rows.now ≡ k * (n - k) },
}

impl<'a, K: Kind> Code<'a, K> {
    ghost use Rattle.symbols.specs.Ring.{added};
    ghost use Rattle.codes.specs.Code.{codeword, is_codeword, distance};
    ghost use Rattle.schemes.specs.Lent.{code_lent, row, begun};

    // Adds to sums the multiples of the first `few` codes of row i.
    pub(crate) fn add_row(&self, i: usize, symbol: u8, few: usize, sums: &mut Word)
        requires { (i < self.now.k) × (few ≤ self.now.n - self.now.k) }
        ensures { sums.new ≡ added (K.ring self.now.kind.now) symbol (row self.now.rows.now (self.now.n - self.now.k) i few) sums.old }
    {
        let start = i * (self.n - self.k);
        let codes = &self.rows[start..start + few];
        self.kind.add_multiple(symbol, codes, sums);
    }

    // The first `few` check symbols of a message. One that stops short of k symbols has 0 at its other places.
    pub(crate) fn check_symbols(&self, message: &[u8], few: usize) -> Word
        requires { (length message.now ≤ self.now.k) × (few ≤ self.now.n - self.now.k) }
        ensures { (j : ℕ) → j < few → slice_index result j ≡ begun (code_lent K.ring self.now) message.now j }
    {
        let mut sums = [0u8; 64];
        for (i, symbol) in message.iter().enumerate() {
            if *symbol != 0 {
                self.add_row(i, *symbol, few, &mut sums);
            }
        }
        sums
    }

    // The codeword of a message.
    pub(crate) fn codeword(&self, message: &[u8]) -> Word
        requires { length message.now ≡ self.now.k }
        ensures { take self.now.n result ≡ codeword (code_lent K.ring self.now) message.now }
    {
        let width = self.n - self.k;
        let checks = self.check_symbols(message, width);
        let mut word = [0u8; 64];
        word[..self.k].copy_from_slice(message);
        word[self.k..self.n].copy_from_slice(&checks[..width]);
        word
    }

    // Whether a word is the codeword of its first k symbols.
    pub(crate) fn is_codeword(&self, word: &[u8]) -> bool
        requires { length word.now ≡ self.now.n }
        ensures { result ≡ is_codeword (code_lent K.ring self.now) word.now }
    {
        let width = self.n - self.k;
        let checks = self.check_symbols(&word[..self.k], width);
        checks[..width] == word[self.k..]
    }

    // Whether the first check symbols show that a word is more than `limit` places from the codeword of its first k symbols.
    // They are twice as many as would if each of them differed. Where these are all, nothing is saved, and the answer is no.
    pub(crate) fn is_far(&self, word: &[u8], limit: usize) -> bool
        requires long { length word.now ≡ self.now.n }
        requires few { limit ≤ 5 }
        ensures { result ≡ true → limit < distance self.now.n word.now (codeword (code_lent K.ring self.now) (take self.now.k word.now)) }
    {
        let few = 2 * (limit + 1);
        if few >= self.n - self.k {
            return false;
        }
        let checks = self.check_symbols(&word[..self.k], few);
        distance(&word[self.k..self.k + few], &checks[..few]) > limit
    }
}
