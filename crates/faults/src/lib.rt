// Refusals: one fault type for the whole product.
// Here live the fault cases, their numbers and their places. No rule that decides a refusal lives here.

#![tactic(auto)]

ghost use Rattle.std.specs.Prelude.{◌≡◌, Some};
ghost use Rattle.faults.specs.Refusal.{refusal, shown_as};

use std::fmt;

// What went wrong, with the values that belong to it.
#[derive(Clone, Copy, PartialEq, Eq, Debug)]
pub enum Fault {
    // A kind of symbol outside its range.
    KindRange,
    // A permutation table whose bytes are no whole rows, or too many.
    TableShape,
    // A code's number of places or of information places.
    CodeSize,
    // The number of errors to be corrected.
    ErrorCount,
    // More messages than a draft may have.
    MessageCount,
    // A trial with another kind, or with check rows of another size.
    TrialMismatch,
    // A check row code that is no symbol.
    RowCode { index: usize },
    // A trial with a list of another length, or with an empty one.
    ListShape,
    // A list entry that is no permutation, and the first position that shows it.
    NoPermutation { number: u16, position: u8 },
    // A non-zero message whose codeword has too few non-zero symbols.
    LightCodeword { message: u32 },
    // A permutation that takes the codeword of a unit message to no codeword.
    NotKept { number: u16, unit: u8 },
    // A set of places that no permutation clears, as a sum of powers of two.
    Uncleared { places: u64 },
    // A call with another kind, list or size of rows than the scheme's.
    SchemeMismatch,
    // A message, block or output of another length.
    WordLength,
    // A symbol that is none of the kind's.
    SymbolRange { index: usize },
    // The tally is full.
    TallyFull,
    // No codeword was found for the block.
    Lost,
    // A scheme file shorter than its header.
    FileShort,
    // A file that does not begin with the mark of scheme files.
    FileMark,
    // A scheme file of another version.
    FileVersion,
    // A header field outside its values.
    FileField { byte: u8 },
    // A scheme file of another length than its header gives.
    FileLength,
}

impl Fault {
    // The number of the refusal.
    pub fn number(self) -> u8
        ensures { result ≡ (refusal self).number }
    {
        match self {
            Fault::KindRange => 1,
            Fault::TableShape => 2,
            Fault::CodeSize => 3,
            Fault::ErrorCount => 4,
            Fault::MessageCount => 5,
            Fault::TrialMismatch => 6,
            Fault::RowCode { .. } => 7,
            Fault::ListShape => 8,
            Fault::NoPermutation { .. } => 9,
            Fault::LightCodeword { .. } => 10,
            Fault::NotKept { .. } => 11,
            Fault::Uncleared { .. } => 12,
            Fault::SchemeMismatch => 13,
            Fault::WordLength => 14,
            Fault::SymbolRange { .. } => 15,
            Fault::TallyFull => 16,
            Fault::Lost => 17,
            Fault::FileShort => 18,
            Fault::FileMark => 19,
            Fault::FileVersion => 20,
            Fault::FileField { .. } => 21,
            Fault::FileLength => 22,
        }
    }

    // The first place that the refusal names, or 0.
    pub fn first(self) -> u64
        ensures { result ≡ (refusal self).first }
    {
        match self {
            Fault::RowCode { index } | Fault::SymbolRange { index } => index as u64,
            Fault::NoPermutation { number, .. } | Fault::NotKept { number, .. } => u64::from(
                number,
            ),
            Fault::LightCodeword { message } => u64::from(message),
            Fault::Uncleared { places } => places,
            Fault::FileField { byte } => u64::from(byte),
            _ => 0,
        }
    }

    // The second place that the refusal names, or 0.
    pub fn second(self) -> u64
        ensures { result ≡ (refusal self).second }
    {
        match self {
            Fault::NoPermutation { position, .. } => u64::from(position),
            Fault::NotKept { unit, .. } => u64::from(unit),
            _ => 0,
        }
    }
}

// The line that tells of a refusal: its number and both places.
impl fmt::Display for Fault {
    ghost output = { λ f. Some (shown_as f) };

    fn fmt<W: fmt::Write>(&self, f: &mut fmt::Formatter<W>) -> fmt::Result {
        let (number, first, second) = (self.number(), self.first(), self.second());
        write!(f, "refused {number} {first} {second}")
    }
}
