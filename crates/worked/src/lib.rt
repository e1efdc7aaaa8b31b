// Worked schemes: scheme files and blocks with what becomes of them, proved together in one statement.
// Only data lives here; the statement is by the definitions that the contracts of the calls use.

#![tactic(auto)]

ghost use Rattle.worked.specs.Worked.{Worked};

#[cfg(test)]
mod tests;

// Scheme files, with blocks for some of them, each array whole. The binary code has 7 places, 4 of them information places, and the check rows 110, 011, 111, 101.
#[derive(Clone, Copy)]
pub struct Schemes {
    // The binary code with 5 shifts of step 1, and a block that its attempt 4 mends.
    pub binary: [u8; 26],
    pub damaged: [u8; 7],
    pub mended: [u8; 7],
    // With 3 shifts of step 3, with 2 of them, and for 2 errors.
    pub three_shifts: [u8; 26],
    pub two_shifts: [u8; 26],
    pub two_errors: [u8; 26],
    // With a table of the identity and the swap of places 0 and 1.
    pub swapped: [u8; 39],
    // Residues 3 with a table of three permutations, and a block that its attempt 2 mends.
    pub ternary: [u8; 29],
    pub ternary_damaged: [u8; 4],
    pub ternary_mended: [u8; 4],
    // One information place, the row 23 and three shifts, under two-power 2 and under residues 4.
    pub polynomials: [u8; 16],
    pub counting: [u8; 16],
    // One bit sent four times, with two shifts, and a block that is lost.
    pub repeated: [u8; 17],
    pub halved: [u8; 4],
    // The numbers n, k, t and q of two drafts: one that may be tried, and one with too many messages.
    pub draft: (u8, u8, u8, u8),
    pub large_draft: (u8, u8, u8, u8),
}

// The worked schemes. What counts is the contract.
pub fn worked_schemes() -> Schemes
    ensures { Worked result }
{
    Schemes {
        binary: [
            80, 68, 83, 0, 1, 0, 2, 7, 4, 1, 1, 0, 5, 1, 1, 1, 0, 0, 1, 1, 1, 1, 1, 1, 0, 1,
        ],
        damaged: [1, 1, 1, 0, 1, 0, 0],
        mended: [0, 1, 1, 0, 1, 0, 0],
        three_shifts: [
            80, 68, 83, 0, 1, 0, 2, 7, 4, 1, 1, 0, 3, // three shifts
            3, // of step 3
            1, 1, 0, 0, 1, 1, 1, 1, 1, 1, 0, 1,
        ],
        two_shifts: [
            80, 68, 83, 0, 1, 0, 2, 7, 4, 1, 1, 0, 2, // two shifts
            3, // by 3 places
            1, 1, 0, 0, 1, 1, 1, 1, 1, 1, 0, 1,
        ],
        two_errors: [
            80, 68, 83, 0, 1, 0, 2, 7, 4, 2, 1, 0, 5, 1, 1, 1, 0, 0, 1, 1, 1, 1, 1, 1, 0, 1,
        ],
        swapped: [
            80, 68, 83, 0, 1, 0, 2, 7, 4, 1, 0, 0, 2, 1, 1, 0, 0, 1, 1, 1, 1, 1, 1, 0, 1, 0, 1, 2,
            3, 4, 5, 6, 1, 0, 2, 3, 4, 5, 6,
        ],
        ternary: [
            80, 68, 83, 0, 1, 0, 3, 4, 2, 1, 0, 0, 3, 2, 2, 2, 1, 0, 1, 2, 3, 1, 2, 0, 3, 2, 0, 1,
            3,
        ],
        ternary_damaged: [2, 1, 1, 0],
        ternary_mended: [1, 1, 1, 0],
        polynomials: [80, 68, 83, 0, 1, 1, 2, 3, 1, 1, 1, 0, 3, 1, 2, 3],
        counting: [80, 68, 83, 0, 1, 0, 4, 3, 1, 1, 1, 0, 3, 1, 2, 3],
        repeated: [80, 68, 83, 0, 1, 0, 2, 4, 1, 1, 1, 0, 2, 1, 1, 1, 1],
        halved: [1, 1, 0, 0],
        draft: (7, 4, 1, 16),
        large_draft: (7, 5, 1, 16),
    }
}
