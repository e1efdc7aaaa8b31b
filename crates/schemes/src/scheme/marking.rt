// The search through all sets of t places, in dictionary order, for one that no permutation clears.
// A permutation is a mask of the places that it takes to information places: it clears a set when mask and set have no place in common.
ghost use Rattle.std.specs.Prelude.{◌≡◌, ℕ, ◌+◌, ◌-◌, ◌*◌, ◌/◌, ◌%◌, ◌^◌, ◌<◌, ◌≤◌, true, List, [], ◌∷◌, ◌++◌, length, take, MatchBool, MatchOption, bit_and, slice_index};
ghost use Rattle.std.specs.Option.{option_map};
ghost use Rattle.codes.specs.Sets.{SetOf, Before, bits, uncleared};
ghost use Rattle.codes.specs.Steps.{Last, Next, MaskOf, Missed, Skipped};

use crate::scheme::permuting::Listed;
use lists::Permutations;

// The places of a set, of which there are at most five: a small array by value, with t beside it, as each step answers a new set.
type Places = [u8; 5];

// A struct of set, t and n would have to say in the contract of each step that t and n stay, so it is no plainer.

// The set with the places from number j to t replaced by those from `first` on.
fn run_from(set: Places, j: usize, t: usize, first: u8) -> Places
    requires { (j ≤ t) × ((t ≤ 5) × (first + 5 < 256)) }
    ensures kept { (i : ℕ) → i < j → slice_index result i ≡ slice_index set i }
    ensures numbered { (i : ℕ) → j ≤ i → i < t → slice_index result i ≡ first + (i - j) }
{
    let mut next = set;
    for (l, place) in next[j..t].iter_mut().enumerate() {
        *place = first + l as u8;
    }
    next
}

// Whether a place, with those after it in a row, can rise by one and stay below n.
fn can_rise(place: u8, after: usize, n: u8) -> bool
    requires { after ≤ 5 }
    ensures { MatchBool result (place + after < n) (n ≤ place + after) }
{
    place as usize + after < n as usize
}

// The next set of t places below n in dictionary order, or none after the last.
fn successor(set: Places, t: usize, n: u8) -> Option<Places>
    requires { (t ≤ 5) × (n ≤ 64) }
    ensures { MatchOption result (Last n (take t set)) (λ s. Next n (take t set) (take t s)) }
{
    // Not plainer as `find`: the place and what stands there are both asked.
    for j in (0..t).rev() {
        if can_rise(set[j], t - j, n) {
            return Some(run_from(set, j, t, set[j] + 1));
        }
    }
    None
}

// The sum of 2 to the power p over the places p of the set.
fn number_of(set: Places, t: usize, n: u8) -> u64
    requires { (t ≤ 5) × ((n ≤ 64) × (SetOf n t (take t set))) }
    ensures { result ≡ bits (take t set) }
{
    let mut sum = 0u64;
    // Not plainer as `fold`.
    for place in &set[..t] {
        sum |= 1 << *place;
    }
    sum
}

// Whether one of the masks has no place of the set.
fn missed(masks: &[u64], set: u64) -> bool
    ensures { MatchBool result ((i : ℕ) × (i < length masks.now) × (bit_and (slice_index masks.now i) set ≡ 0)) ((i : ℕ) → i < length masks.now → bit_and (slice_index masks.now i) set ≡ 0 → ⊥) }
{
    masks.iter().any(|mask| mask & set == 0)
}

// The set with another last place.
fn ending(set: Places, t: usize, last: u8) -> Places
    requires { (0 < t) × (t ≤ 5) }
    ensures { take t result ≡ take (t - 1) set ++ (last ∷ []) }
{
    let mut end = set;
    end[t - 1] = last;
    end
}

// Whether, for each place from `from` on, one of the masks has neither that place nor a place of `head`.
// The places for which none is found yet are the bits of `rest`.
fn all_missed(masks: &[u64], head: u64, from: u8) -> bool
    requires { from < 64 }
    ensures { result ≡ true → (p : ℕ) → from ≤ p → p < 64 → (i : ℕ) × (i < length masks.now) × (bit_and (slice_index masks.now i) head ≡ 0) × ((slice_index masks.now i / 2 ^ p) % 2 ≡ 0) }
{
    let mut rest = u64::MAX << from;
    for mask in masks {
        if mask & head == 0 {
            rest &= mask;
            if rest == 0 {
                return true;
            }
        }
    }
    false
}

// The last set that begins as this one does, where some mask misses each set up to it; else the set itself.
fn skip(masks: &[u64], set: Places, t: usize, n: u8) -> Places
    requires sizes { (0 < t) × (t ≤ 5) × (n ≤ 64) }
    requires set { SetOf n t (take t set) }
    ensures { Skipped masks.now (length masks.now) n t (take t set) (take t result) }
{
    let head = number_of(set, t - 1, n);
    if all_missed(masks, head, set[t - 1]) {
        return ending(set, t, n - 1);
    }
    set
}

// The first set of t places, in dictionary order, that every mask meets, as the sum of the powers of two.
fn first_met(masks: &[u64], t: usize, n: u8) -> Option<u64>
    requires sizes { (0 < t) × (t ≤ 5) × (t ≤ n) × (n ≤ 64) }
    ensures { MatchOption result ((ps : List ℕ) → SetOf n t ps → Missed masks.now (length masks.now) ps)
        (λ x. (s : List ℕ) × (x ≡ bits s) × SetOf n t s × (Missed masks.now (length masks.now) s → ⊥) × ((ps : List ℕ) → SetOf n t ps → Before ps s → Missed masks.now (length masks.now) ps)) }
{
    let mut set = run_from([0; 5], 0, t, 0);
    // Each set follows from the one before and from the masks, so no iterator has them.
    loop {
        let number = number_of(set, t, n);
        if !missed(masks, number) {
            return Some(number);
        }
        set = successor(skip(masks, set, t, n), t, n)?;
    }
}

impl<'a, L: Permutations> Listed<'a, L> {
    // Bit p is set when permutation i takes p to one of the first k places.
    fn mask(&self, i: u16, k: u8) -> u64
        requires within { i < (L.meaning self.now.list.now).count }
        ensures { MaskOf self.now.n k ((L.meaning self.now.list.now).target i) result }
    {
        let targets = self.list.targets(i);
        let mut mask = 0u64;
        // The targets are asked by number, and a closure could not leave, so `fold` is no plainer.
        for p in 0..self.n {
            let Some(to) = targets.target(p) else {
                return unreachable();
            };
            if to < k {
                mask |= 1 << p;
            }
        }
        mask
    }

    // The masks of all permutations of the list, with room for the most that a list has, since the product has no heap.
    fn masks(&self, k: u8) -> [u64; 512]
        ensures { (i : ℕ) → i < (L.meaning self.now.list.now).count → MaskOf self.now.n k ((L.meaning self.now.list.now).target i) (slice_index result i) }
    {
        let mut masks = [0u64; 512];
        let m = self.list.count() as usize;
        for (i, mask) in masks[..m].iter_mut().enumerate() {
            *mask = self.mask(i as u16, k);
        }
        masks
    }

    // The first set of t places, in dictionary order, that no permutation clears, as the sum of the powers of two.
    pub(crate) fn first_uncleared(&self, k: u8, t: u8) -> Option<u64>
        requires { (0 < t) × (t ≤ 5) × (t ≤ self.now.n) }
        ensures { result ≡ option_map bits (uncleared self.now.n k t (L.meaning self.now.list.now).count (L.meaning self.now.list.now).target) }
    {
        let masks = self.masks(k);
        first_met(&masks[..self.list.count() as usize], t as usize, self.n)
    }
}
