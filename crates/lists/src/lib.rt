// Permutation lists: the trait that every list meets, and the lists of the product, which are a table of bytes,
// the shifts and the multiplier. A list only tells its length, count and targets: whether an entry is a permutation,
// or keeps a code, is not decided here.

#![tactic(auto)]

ghost use Rattle.std.specs.Prelude.{◌≡◌, ℕ, ◌+◌, ◌*◌, ◌%◌, ◌^◌, ◌<◌, ◌≤◌, length, MatchResult, slice_index};
ghost use Rattle.faults.specs.Refusal.{refusal, refuse};
ghost use Rattle.lists.specs.Bounded.{table_bounds, shifts_bounds, multiplied_bounds};
ghost use Rattle.lists.specs.Meaning.{Meaning, Bounds, Fair, reply, table, shifts, multiplied};
ghost use Rattle.lists.specs.Told.{told};

use faults::Fault;

// The most permutations that a list has.
const MOST: u16 = 512;

// The most columns of a table.
const WIDEST: u8 = 64;

// The targets of the first 64 positions under one permutation: the replies of a list, asked for at once.
// No heap is allowed here, so they stand in a fixed array with their number beside it.
#[derive(Clone, Copy)]
pub struct Targets {
    n: u8,
    places: [u8; 64],
}

impl Targets {
    // What a list tells of a number that it does not have: no target at all. An `Option` of targets would be asked twice, and is no plainer.
    fn none() -> Targets
        ensures { result.n ≡ 0 }
    {
        Targets {
            n: 0,
            places: [0; 64],
        }
    }

    // Where the permutation takes position p, as the list would reply; `None` from position 64 on.
    pub fn target(&self, p: u8) -> Option<u8>
        ensures { result ≡ told self.now p }
    {
        if p >= self.n {
            return None;
        }
        self.places.get(p as usize).copied()
    }
}

// A list of permutations of the positions 0 to n - 1, which have the numbers 0 to m - 1. A question changes nothing.
pub trait Permutations {
    // What the list means.
    ghost meaning: { Self → Meaning };

    // What every list keeps to. It stands above the calls, so it is data and no law.
    ghost bounds: { (l : Self) → Bounds (meaning l) };

    // The length n of each permutation.
    fn length(&self) -> u8
        ensures { result ≡ (meaning self.now).places };

    // The number m of permutations.
    fn count(&self) -> u16
        ensures { result ≡ (meaning self.now).count };

    // Where permutation i takes position p: `None` if there is no such number or position.
    fn target(&self, i: u16, p: u8) -> Option<u8>
        ensures { result ≡ reply (meaning self.now) i p };

    // All targets of permutation i, for up to 64 positions. A list may have a quicker way than to ask itself for each.
    fn targets(&self, i: u16) -> Targets
        ensures { (p : ℕ) → p < 64 → told result p ≡ reply (meaning self.now) i p }
    {
        let n = self.length().min(64);
        let mut places = [0u8; 64];
        for (p, place) in places[..n as usize].iter_mut().enumerate() {
            let Some(to) = self.target(i, p as u8) else {
                return Targets::none();
            };
            *place = to;
        }
        Targets { n, places }
    }
}

// Permutations written out: row i of n bytes has the targets of number i.
#[derive(Clone, Copy)]
pub struct Table<'a> {
    n: u8,
    part: &'a [u8],
    ghost fair: { Fair n (length part.now) },
}

impl<'a> Table<'a> {
    // Refuses a length outside 1 to 64, bytes that are no whole rows, and more than 512 rows.
    pub fn new(n: u8, part: &'a [u8]) -> Result<Table<'a>, Fault>
        ensures { MatchResult result (λ t. (t.n ≡ n) × (t.part.now ≡ part.now) × Fair n (length part.now)) (λ e. (refusal e ≡ refuse 2 0 0) × (Fair n (length part.now) → ⊥)) }
    {
        if !(1..=WIDEST).contains(&n) {
            return Err(Fault::TableShape);
        }
        let width = n as usize;
        if !part.len().is_multiple_of(width) || part.len() / width > MOST as usize {
            return Err(Fault::TableShape);
        }
        Ok(Table { n, part })
    }
}

impl<'a> Permutations for Table<'a> {
    ghost meaning = { λ l. table l.n l.part.now };

    ghost bounds = { λ l. table_bounds l.n l.part.now };

    fn length(&self) -> u8 {
        self.n
    }

    fn count(&self) -> u16 {
        (self.part.len() / self.n as usize) as u16
    }

    fn target(&self, i: u16, p: u8) -> Option<u8> {
        if p >= self.n {
            return None;
        }
        let at = i as usize * self.n as usize + p as usize;
        self.part.get(at).copied()
    }
}

// Shifts by the multiples of a step: number j takes p to (p + step * j) mod n. More than 512 are cut off.
#[derive(Clone, Copy)]
pub struct Shifts {
    n: u8,
    step: u8,
    number: u16,
}

impl Shifts {
    pub fn new(n: u8, step: u8, number: u16) -> Shifts
        ensures { (result.n ≡ n) × (result.step ≡ step) × (result.number ≡ number) }
    {
        Shifts { n, step, number }
    }

    // How far number j goes round.
    fn turn(&self, j: u16) -> u8
        requires { 0 < self.now.n }
        ensures value { result ≡ (self.now.step * j) % self.now.n }
        ensures within { result < self.now.n }
    {
        (self.step as u32 * j as u32 % self.n as u32) as u8
    }
}

impl Permutations for Shifts {
    ghost meaning = { λ l. shifts l.n l.step l.number };

    ghost bounds = { λ l. shifts_bounds l.n l.step l.number };

    fn length(&self) -> u8 {
        self.n
    }

    fn count(&self) -> u16 {
        self.number.min(MOST)
    }

    fn target(&self, j: u16, p: u8) -> Option<u8> {
        if j >= self.count() || p >= self.n {
            return None;
        }
        Some(around(p, self.turn(j), self.n))
    }

    // All positions go as far, so the turn is computed once.
    fn targets(&self, j: u16) -> Targets {
        if j >= self.count() || self.n == 0 {
            return Targets::none();
        }
        let mut places = [0u8; 64];
        let turn = self.turn(j);
        let told = self.n.min(64);
        for (p, place) in places[..told as usize].iter_mut().enumerate() {
            *place = around(p as u8, turn, self.n);
        }
        Targets { n: told, places }
    }
}

// (p + turn) mod n, for two positions of n.
fn around(p: u8, turn: u8, n: u8) -> u8
    requires { (p < n) × (turn < n) }
    ensures { result ≡ (p + turn) % n }
{
    let to = p as u16 + turn as u16;
    if to < n as u16 {
        to as u8
    } else {
        (to - n as u16) as u8
    }
}

// A layer over a list of m permutations: number i * m + j, for i below r, takes p to where the list below takes
// (g^i * p) mod n by its number j. More than 512 are cut off.
#[derive(Drop)]
pub struct Multiplier<L> {
    below: L,
    g: u8,
    r: u8,
}

impl<L: Permutations> Multiplier<L> {
    pub fn new(below: L, g: u8, r: u8) -> Multiplier<L>
        ensures { (result.below ≡ below) × (result.g ≡ g) × (result.r ≡ r) }
    {
        Multiplier { below, g, r }
    }
}

impl<L: Permutations> Permutations for Multiplier<L> {
    ghost meaning = { λ l. multiplied l.g l.r (L.Permutations.meaning l.below) };

    ghost bounds = { λ l. multiplied_bounds l.g l.r (L.Permutations.meaning l.below) (L.Permutations.bounds l.below) };

    fn length(&self) -> u8 {
        self.below.length()
    }

    fn count(&self) -> u16 {
        (self.r as u16).saturating_mul(self.below.count()).min(MOST)
    }

    fn target(&self, x: u16, p: u8) -> Option<u8> {
        let m = self.below.count();
        let n = self.below.length();
        if x >= self.count() || p >= n {
            return None;
        }
        let i = x / m;
        let j = x % m;
        self.below.target(j, power_times(self.g, i, p, n))
    }

    // The power is computed once, and the multiples of it one after another.
    fn targets(&self, x: u16) -> Targets {
        let m = self.below.count();
        let n = self.below.length();
        if x >= self.count() || n == 0 {
            return Targets::none();
        }
        let mut places = [0u8; 64];
        let power = power_times(self.g, x / m, 1, n);
        let told = n.min(64);
        let mut at = 0u8;
        for place in places[..told as usize].iter_mut() {
            let Some(to) = self.below.target(x % m, at) else {
                return unreachable();
            };
            *place = to;
            at = around(at, power, n);
        }
        Targets { n: told, places }
    }
}

// (g^i * p) mod n, by squaring.
fn power_times(g: u8, i: u16, p: u8, n: u8) -> u8
    requires { 0 < n }
    ensures { result ≡ (g ^ i * p) % n }
{
    let modulus = n as u16;
    let mut square = g as u16 % modulus;
    let mut product = p as u16 % modulus;
    let mut rest = i;
    // The exponent is halved each time, so no iterator says it more plainly.
    while rest > 0 {
        if rest % 2 == 1 {
            product = product * square % modulus;
        }
        square = square * square % modulus;
        rest /= 2;
    }
    product as u8
}
