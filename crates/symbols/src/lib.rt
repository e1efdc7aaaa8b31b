// Kinds of symbol: finite rings whose elements are the codes 0 to q - 1, one code in a byte.
// Here live the interface of kinds and the two families of the product. Nothing here knows of words, codes or lists.

#![tactic(auto)]

ghost use Rattle.std.specs.Prelude.{◌≡◌, ℕ, ◌+◌, ◌-◌, ◌*◌, ◌/◌, ◌%◌, ◌^◌, ◌<◌, ◌≤◌, length, MatchResult, slice_index};
ghost use Rattle.faults.specs.Refusal.{refusal, refuse};
ghost use Rattle.symbols.specs.Ring.{Ring, RingRules, plus, minus, times, added, residues};
ghost use Rattle.symbols.specs.Polynomials.{two_power};
ghost use Rattle.symbols.specs.Packed.{packed, Multiples};
ghost use Rattle.symbols.specs.Families.{residue_rules, two_power_rules};

use faults::Fault;

// A kind of symbol. Its meaning is a ring, and the ring rules are all that is known of it.
// Every byte is a legal operand: one of q or more is first replaced by its remainder on division by q.
pub trait Kind {
    ghost ring: { Self → Ring };

    // The number q of codes.
    fn order(&self) -> u8
        ensures { result ≡ (ring self.now).q };

    fn sum(&self, a: u8, b: u8) -> u8
        ensures { result ≡ plus (ring self.now) a b };

    fn negative(&self, a: u8) -> u8
        ensures { result ≡ minus (ring self.now) a };

    fn product(&self, a: u8, b: u8) -> u8
        ensures { result ≡ times (ring self.now) a b };

    // Adds the multiples of a row's codes to sums, place by place: factor times code, the factor on the left. Sums past the row's end stay.
    fn add_multiple(&self, factor: u8, row: &[u8], sums: &mut [u8])
        ensures { sums.new ≡ added (ring self.now) factor row.now sums.old }
    {
        combine(
            row,
            sums,
            |sum, code| self.sum(sum, self.product(factor, code)),
        );
    }

    ghost rules: { (k : Self) → RingRules (ring k) };
}

// Puts into sums what add makes of each sum and the row's code at its place. Sums past the row's end stay.
fn combine<F: Fn(u8, u8) -> u8>(row: &[u8], sums: &mut [u8], add: F)
    requires { F.IsAlwaysCallable add }
    ensures long { length sums.new ≡ length sums.old }
    ensures combined { (j : ℕ) → j < length sums.old → j < length row.now → F.post add (slice_index sums.old j) (slice_index row.now j) (slice_index sums.new j) }
    ensures stays { (j : ℕ) → length row.now ≤ j → slice_index sums.new j ≡ slice_index sums.old j }
{
    // Not sums zipped with row: after such a loop no fact about the sums is left, so the proof does not close.
    let both = sums.len().min(row.len());
    for (j, sum) in sums[..both].iter_mut().enumerate() {
        *sum = add(*sum, row[j]);
    }
}

// Residues b: counting modulo b, for b from 2 to 16.
#[derive(Clone, Copy)]
pub struct Residues {
    b: u8,
    ghost low: { 2 ≤ b },
    ghost high: { b ≤ 16 },
}

impl Residues {
    pub fn new(b: u8) -> Result<Residues, Fault>
        ensures { MatchResult result (λ k. (2 ≤ b) × (b ≤ 16) × (k.b ≡ b)) (λ e. (refusal e ≡ refuse 1 0 0) × ((2 ≤ b) × (b ≤ 16) → ⊥)) }
    {
        if !(2..=16).contains(&b) {
            return Err(Fault::KindRange);
        }
        Ok(Residues { b })
    }
}

impl Kind for Residues {
    ghost ring = { λ k. residues k.b };

    ghost rules = { λ k. residue_rules k.b k.low k.high };

    fn order(&self) -> u8 {
        self.b
    }

    fn sum(&self, a: u8, b: u8) -> u8 {
        (a % self.b + b % self.b) % self.b
    }

    fn negative(&self, a: u8) -> u8 {
        (self.b - a % self.b) % self.b
    }

    fn product(&self, a: u8, b: u8) -> u8 {
        ((a % self.b) * (b % self.b)) % self.b
    }

    fn add_multiple(&self, factor: u8, row: &[u8], sums: &mut [u8]) {
        if self.b == 2 {
            // Modulo 2 the last bit of a product is an and, that of a sum an exclusive or.
            combine(row, sums, |sum, code| (sum ^ factor & code) % 2);
        } else {
            let multiples = ResidueMultiples::new(*self, factor);
            combine(row, sums, |sum, code| multiples.add(sum, code));
        }
    }
}

// The multiples of one factor modulo b, which are added with no division.
// The factor is kept reduced too, and the reciprocal is the least whole number above 65536 / b.
#[derive(Clone, Copy)]
struct ResidueMultiples {
    kind: Residues,
    factor: u8,
    reduced: u8,
    reciprocal: u16,
    ghost reduced_is: { reduced ≡ factor % kind.b },
    ghost reciprocal_is: { reciprocal ≡ 65536 / kind.b + 1 },
}

impl ResidueMultiples {
    fn new(kind: Residues, factor: u8) -> ResidueMultiples
        ensures { (result.kind.b ≡ kind.b) × (result.factor ≡ factor) }
    {
        ResidueMultiples {
            kind,
            factor,
            reduced: factor % kind.b,
            reciprocal: (65536 / kind.b as u32 + 1) as u16,
        }
    }

    // The quotient is the high half of a product with the reciprocal.
    fn add(&self, sum: u8, code: u8) -> u8
        ensures { result ≡ plus (residues self.now.kind.b) sum (times (residues self.now.kind.b) self.now.factor code) }
    {
        let whole = sum as u16 + self.reduced as u16 * code as u16;
        let quotient = (whole as u32 * self.reciprocal as u32 >> 16) as u16;
        (whole - self.kind.b as u16 * quotient) as u8
    }
}

// Two-power w: polynomials over bits of degree below w, for w from 2 to 4, bit 0 being the constant term.
#[derive(Clone, Copy)]
pub struct TwoPower {
    w: u8,
    ghost low: { 2 ≤ w },
    ghost high: { w ≤ 4 },
}

impl TwoPower {
    // Not one function with `Residues::new`: the rings and the numbers that are refused differ.
    pub fn new(w: u8) -> Result<TwoPower, Fault>
        ensures { MatchResult result (λ k. (2 ≤ w) × (w ≤ 4) × (k.w ≡ w)) (λ e. (refusal e ≡ refuse 1 0 0) × ((2 ≤ w) × (w ≤ 4) → ⊥)) }
    {
        if !(2..=4).contains(&w) {
            return Err(Fault::KindRange);
        }
        Ok(TwoPower { w })
    }
}

impl Kind for TwoPower {
    ghost ring = { λ k. two_power k.w };

    ghost rules = { λ k. two_power_rules k.w k.low k.high };

    fn order(&self) -> u8 {
        1 << self.w
    }

    fn sum(&self, a: u8, b: u8) -> u8 {
        let q = self.order();
        (a % q) ^ (b % q)
    }

    fn negative(&self, a: u8) -> u8 {
        a % self.order()
    }

    fn product(&self, a: u8, b: u8) -> u8 {
        let q = self.order();
        self.reduced_product(a % q, b % q)
    }

    fn add_multiple(&self, factor: u8, row: &[u8], sums: &mut [u8]) {
        let multiples = PolynomialMultiples::new(*self, factor);
        combine(row, sums, |sum, code| multiples.add(sum, code));
    }
}

impl TwoPower {
    // The code that a byte stands for. It is a function of its own, since written out at its uses it made adding multiples slower by a twentieth.
    fn reduced(&self, a: u8) -> u8
        ensures value { result ≡ a % 2 ^ self.now.w }
        ensures small { result < 16 }
    {
        a % (1 << self.w)
    }

    // The product of two codes: powers of the whole product from w on are replaced by x + 1 times a lower power.
    fn reduced_product(&self, x: u8, y: u8) -> u8
        requires { (x < 2 ^ self.now.w) × (y < 2 ^ self.now.w) }
        ensures { result ≡ (two_power self.now.w).mul x y }
    {
        let whole = x * (y & 1) ^ x * (y & 2) ^ x * (y & 4) ^ x * (y & 8);
        let high = whole >> self.w;
        whole % (1 << self.w) ^ high ^ high << 1
    }
}

// The packed multiples of 1, x, x^2 and x^3, for w = 2, 3 and 4: four bits for each code, code 0 in the lowest. One that has no code is 0.
const MULTIPLES: [[u64; 4]; 3] = [
    [0x3210, 0x1320, 0, 0],
    [0x7654_3210, 0x5713_6420, 0x1526_7340, 0],
    [
        0xfedc_ba98_7654_3210,
        0xdf9b_5713_eca8_6420,
        0x9d15_ae26_fb73_c840,
        0x192a_7f4c_d5e6_b380,
    ],
];

// The multiples of one factor, packed into a number.
#[derive(Clone, Copy)]
struct PolynomialMultiples {
    kind: TwoPower,
    factor: u8,
    packed: u64,
    ghost right: { Multiples kind.w (factor % 2 ^ kind.w) packed },
}

impl PolynomialMultiples {
    // The sum of the packed multiples of the factor's powers.
    fn new(kind: TwoPower, factor: u8) -> PolynomialMultiples
        ensures { (result.kind.w ≡ kind.w) × (result.factor ≡ factor) }
    {
        let powers = MULTIPLES[(kind.w - 2) as usize];
        let f = kind.reduced(factor) as u64;
        let packed = (f & 1) * powers[0]
            ^ (f >> 1 & 1) * powers[1]
            ^ (f >> 2 & 1) * powers[2]
            ^ (f >> 3) * powers[3];
        PolynomialMultiples {
            kind,
            factor,
            packed,
        }
    }

    fn add(&self, sum: u8, code: u8) -> u8
        ensures { result ≡ plus (two_power self.now.kind.w) sum (times (two_power self.now.kind.w) self.now.factor code) }
    {
        self.kind.reduced(sum) ^ ((self.packed >> 4 * self.kind.reduced(code)) % 16) as u8
    }
}
