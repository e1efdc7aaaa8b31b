// Tests of schemes through their public calls, with kinds and lists of the product and from outside it.

#![tactic(auto)]

#[cfg(test)]
mod calls;
#[cfg(test)]
mod common;
#[cfg(test)]
mod trials;

// The binary code with 7 places, 4 of them information places: its check rows 110, 011, 111 and 101.
pub const HAMMING: [u8; 12] = [1, 1, 0, 0, 1, 1, 1, 1, 1, 1, 0, 1];
