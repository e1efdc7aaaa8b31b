// Attempts: a block taken by a permutation, its first symbols encoded anew, and the codeword brought back.
ghost use Rattle.std.specs.Prelude.{◌≡◌, ℕ, ◌<◌, ◌≤◌, length, take, Some, MatchOption, slice_index};
ghost use Rattle.lists.specs.Told.{told};
ghost use Rattle.codes.specs.Code.{unit};

use crate::scheme::counts::distance;
use crate::scheme::permuting::Listed;
use crate::scheme::words::{Code, Message, Word};
use lists::{Permutations, Targets};
use symbols::Kind;

// What correct works with: a code, a list for its places, and up to t errors. Code and list each have n, as each works without the other.
// A type for a block of symbols of this code would hold the code once more, so its methods ask for that instead.
#[derive(Drop)]
pub(crate) struct Fitted<'c, 'l, K, L: Permutations> {
    pub(crate) code: Code<'c, K>,
    pub(crate) list: Listed<'l, L>,
    pub(crate) t: u8,
    ghost same: { code.n ≡ list.n },
    ghost limit: { t ≤ 5 },
}

// An attempt that succeeds: the distance, its number, and its word in the first n places.
#[derive(Clone, Copy)]
struct Success {
    distance: u8,
    number: u16,
    word: Word,
}

// Brings a word back: the symbol of each place is that at the place's target.
fn bring_back(word: &[u8], targets: &Targets) -> Word
    requires few { length word.now ≤ 64 }
    requires within { (p : ℕ) → p < length word.now → (to : ℕ) × (told targets.now p ≡ Some to) × (to < length word.now) }
    ensures { (p to : ℕ) → p < length word.now → told targets.now p ≡ Some to → slice_index result p ≡ slice_index word.now to }
{
    let mut back = [0u8; 64];
    // Not plainer over `iter_mut`: the targets are asked by the number of a place.
    for p in 0..word.len() {
        let Some(to) = targets.target(p as u8) else {
            return unreachable();
        };
        back[p] = word[to as usize];
    }
    back
}

// The unit message j: a 1 at information place j, and 0 elsewhere.
fn unit(j: usize) -> Message
    requires { j < 16 }
    ensures { (k : ℕ) → k ≤ 16 → take k result ≡ unit k j }
{
    let mut message = [0u8; 16];
    message[j] = 1;
    message
}

impl<'c, 'l, K: Kind, L: Permutations> Fitted<'c, 'l, K, L> {
    ghost use Rattle.codes.specs.Code.{Symbols, distance, Permutation, candidate, Succeeds, First};
    ghost use Rattle.codes.specs.Offenders.{unkept_unit, unkept};
    ghost use Rattle.schemes.specs.Lent.{code_lent};
    ghost use Rattle.schemes.specs.Takes.{Candidate};

    // Attempt i on the block v, or none where it fails.
    fn attempt(&self, i: u16, v: &[u8]) -> Option<Success>
        requires within { i < (L.meaning self.now.list.list.now).count }
        requires block { Symbols (K.ring self.now.code.kind.now).q self.now.code.n v.now }
        ensures { MatchOption result (Succeeds (code_lent K.ring self.now.code) self.now.t ((L.meaning self.now.list.list.now).target i) v.now → ⊥)
            (λ x. (x.number ≡ i) × Succeeds (code_lent K.ring self.now.code) self.now.t ((L.meaning self.now.list.list.now).target i) v.now
            × Candidate (code_lent K.ring self.now.code) (L.meaning self.now.list.list.now).target v.now x) }
    {
        let n = self.code.n;
        // Not plainer with `.ok()?`: what `take` ensures of both its answers would be read through an `Option`.
        let targets = self.list.list.targets(i);
        let Ok(taken) = self.list.take(i, &targets, v) else {
            return None;
        };
        // Most attempts on a damaged block end here.
        if self.code.is_far(&taken[..n], self.t as usize) {
            return None;
        }
        let codeword = self.code.codeword(&taken[..self.code.k]);
        let d = distance(&taken[..n], &codeword[..n]);
        if d > self.t as usize {
            return None;
        }
        let word = bring_back(&codeword[..n], &targets);
        if !self.code.is_codeword(&word[..n]) {
            return None;
        }
        Some(Success {
            distance: d as u8,
            number: i,
            word,
        })
    }

    // The first attempt that succeeds. The loop breaks with it: a rule of the project asks for this form here (docs/DECISIONS.md).
    fn first_success(&self, v: &[u8]) -> Option<Success>
        requires block { Symbols (K.ring self.now.code.kind.now).q self.now.code.n v.now }
        ensures { MatchOption result ((i : ℕ) → i < (L.meaning self.now.list.list.now).count → Succeeds (code_lent K.ring self.now.code) self.now.t ((L.meaning self.now.list.list.now).target i) v.now → ⊥)
            (λ x. (x.number < (L.meaning self.now.list.list.now).count)
            × First (code_lent K.ring self.now.code) self.now.t (L.meaning self.now.list.list.now).target v.now x.number
            × Candidate (code_lent K.ring self.now.code) (L.meaning self.now.list.list.now).target v.now x) }
    {
        let m = self.list.list.count();
        let mut i = 0;
        loop {
            if i >= m {
                break None;
            }
            if let Some(success) = self.attempt(i, v) {
                break Some(success);
            }
            i += 1;
        }
    }

    // The distance and the number of the first attempt that succeeds, with its word in `out`; where none does, `out` stays.
    pub(crate) fn correct_into(&self, v: &[u8], out: &mut [u8]) -> Option<(u8, u16)>
        requires block { Symbols (K.ring self.now.code.kind.now).q self.now.code.n v.now }
        requires room { length out.old ≡ self.now.code.n }
        ensures { MatchOption result (((i : ℕ) → i < (L.meaning self.now.list.list.now).count → Succeeds (code_lent K.ring self.now.code) self.now.t ((L.meaning self.now.list.list.now).target i) v.now → ⊥) × (out.new ≡ out.old))
            (λ x. (x.1 < (L.meaning self.now.list.list.now).count)
            × First (code_lent K.ring self.now.code) self.now.t (L.meaning self.now.list.list.now).target v.now x.1
            × (out.new ≡ candidate (code_lent K.ring self.now.code) ((L.meaning self.now.list.list.now).target x.1) v.now)
            × (x.0 ≡ distance self.now.code.n v.now out.new)) }
    {
        let success = self.first_success(v)?;
        out.copy_from_slice(&success.word[..self.code.n]);
        Some((success.distance, success.number))
    }

    // The first unit message whose codeword permutation i takes to no codeword.
    fn unkept_unit(&self, i: u16) -> Option<u8>
        requires within { i < (L.meaning self.now.list.list.now).count }
        requires permutation { Permutation self.now.code.n ((L.meaning self.now.list.list.now).target i) }
        ensures { result ≡ unkept_unit (code_lent K.ring self.now.code) ((L.meaning self.now.list.list.now).target i) }
    {
        let n = self.code.n;
        let targets = self.list.list.targets(i);
        // Not plainer as `find`: the step itself can leave.
        for j in 0..self.code.k {
            let message = unit(j);
            let word = self.code.codeword(&message[..self.code.k]);
            let Ok(image) = self.list.take(i, &targets, &word[..n]) else {
                return unreachable();
            };
            if !self.code.is_codeword(&image[..n]) {
                return Some(j as u8);
            }
        }
        None
    }

    // The first permutation that takes the codeword of a unit message to no codeword, and the first such message.
    pub(crate) fn unkept(&self) -> Option<(u16, u8)>
        requires permutations { (i : ℕ) → i < (L.meaning self.now.list.list.now).count → Permutation self.now.code.n ((L.meaning self.now.list.list.now).target i) }
        ensures { result ≡ unkept (code_lent K.ring self.now.code) (L.meaning self.now.list.list.now).count (L.meaning self.now.list.list.now).target }
    {
        // The list is asked by number, and `find_map` is no plainer.
        for i in 0..self.list.list.count() {
            if let Some(j) = self.unkept_unit(i) {
                return Some((i, j));
            }
        }
        None
    }
}
