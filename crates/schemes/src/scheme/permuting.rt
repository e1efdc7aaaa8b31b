// A list of permutations that is lent: its entries, and words taken by them.
ghost use Rattle.std.specs.Prelude.{◌≡◌, ℕ, ◌<◌, ◌≤◌, length, Some, MatchResult};

use crate::scheme::words::Word;
use lists::{Permutations, Targets};

// A list as it is handed over, for words of n places. Its methods ask for numbers below the list's count: a type for these would hold the list
// once more, and is no plainer.
#[derive(Drop)]
pub(crate) struct Listed<'a, L: Permutations> {
    pub(crate) list: &'a L,
    pub(crate) n: u8,
    ghost few: { n ≤ 64 },
    ghost long: { n ≡ (L.meaning list.now).places },
}

impl<'a, L: Permutations> Listed<'a, L> {
    ghost use Rattle.codes.specs.Offenders.{bad_place, bad_entry};
    ghost use Rattle.lists.specs.Meaning.{reply};
    ghost use Rattle.lists.specs.Told.{told};
    ghost use Rattle.schemes.specs.Takes.{Takes, taken};

    // Takes the word v by permutation i, whose targets are lent: the word, or the first position that shows that it is no permutation.
    pub(crate) fn take(&self, i: u16, targets: &Targets, v: &[u8]) -> Result<Word, u8>
        requires within { i < (L.meaning self.now.list.now).count }
        requires asked { (p : ℕ) → p < 64 → told targets.now p ≡ reply (L.meaning self.now.list.now) i p }
        requires block { length v.now ≡ self.now.n }
        ensures { MatchResult result (λ word. Takes self.now.n ((L.meaning self.now.list.now).target i) v.now (taken targets.now word)) (λ p. bad_place self.now.n ((L.meaning self.now.list.now).target i) ≡ Some p) }
    {
        let mut came = [false; 64];
        let mut word = [0u8; 64];
        // Not plainer over the symbols of v: the number p is asked for, and refused.
        for p in 0..self.n {
            let to = targets.target(p).ok_or(p)?;
            if to >= self.n || came[to as usize] {
                return Err(p);
            }
            came[to as usize] = true;
            word[to as usize] = v[p as usize];
        }
        Ok(word)
    }

    // The first entry that is no permutation, and the first position that shows it.
    pub(crate) fn bad_entry(&self) -> Option<(u16, u8)>
        ensures { result ≡ bad_entry self.now.n (L.meaning self.now.list.now).count (L.meaning self.now.list.now).target }
    {
        let zeros = [0u8; 64];
        // The list is asked by number, and `find_map` is no plainer.
        for i in 0..self.list.count() {
            let targets = self.list.targets(i);
            if let Err(p) = self.take(i, &targets, &zeros[..self.n as usize]) {
                return Some((i, p));
            }
        }
        None
    }
}
