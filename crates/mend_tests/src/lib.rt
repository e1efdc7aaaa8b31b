// Tests of what mend prints, over a table of inputs.

#![tactic(auto)]

#[cfg(test)]
mod tests;

// A scheme file: residues 2, 7 places, 4 of them information places, one error, 5 shifts of step 1.
pub const HAMMING: [u8; 26] = [
    0x50, 0x44, 0x53, 0, 1, 0, 2, 7, 4, 1, 1, 0, 5, 1, 1, 1, 0, 0, 1, 1, 1, 1, 1, 1, 0, 1,
];
