// Kinds of symbol that the product does not know, written against its interface alone. For tests: nothing of the product may use them.

#![tactic(auto)]

ghost use Rattle.std.specs.Prelude.{◌≡◌};
ghost use Rattle.foreign_kinds.specs.Triangular.{triangular};
ghost use Rattle.foreign_kinds.specs.Products.{triangular_rules};

use symbols::Kind;

#[cfg(test)]
mod tests;

// The upper triangular 2 x 2 matrices over bits: eight codes, and products that do not commute.
// Code x + 2y + 4z is the matrix with x and y in its first row, and 0 and x + z (modulo 2) in its second: 0 is the zero matrix, 1 the unit matrix.
#[derive(Clone, Copy)]
pub struct Triangular {}

impl Triangular {
    pub fn new() -> Triangular {
        Triangular {}
    }
}

impl Kind for Triangular {
    ghost ring = { λ _. triangular };

    ghost rules = { λ k. triangular_rules };

    fn order(&self) -> u8 {
        8
    }

    fn sum(&self, a: u8, b: u8) -> u8 {
        a % 8 ^ b % 8
    }

    fn negative(&self, a: u8) -> u8 {
        a % 8
    }

    // Bit by bit, from the product of the matrices x y, 0 x + z and u v, 0 u + w.
    fn product(&self, a: u8, b: u8) -> u8 {
        let (x, y, z) = (a % 2, a / 2 % 2, a / 4 % 2);
        let (u, v, w) = (b % 2, b / 2 % 2, b / 4 % 2);
        let right = x & v ^ y & (u ^ w);
        let lower = x & w ^ z & (u ^ w);
        x & u | right << 1 | lower << 2
    }
}
