// Codes, permutations of places and sets of places: their definitions (specs/) and theorems (proofs/), over every ring of symbols.
// No decoder lives here: what the calls of a scheme do is in the crate `schemes`.

#![tactic(auto)]

ghost use Rattle.codes.specs.Search.{FindsFirst, FindsFirstWith};
ghost use Rattle.codes.specs.Serviceable.{Decoding};
ghost use Rattle.codes.specs.Sets.{Enumerates};

// Where code and permutations serve, some attempt succeeds exactly when a codeword is within t places, and its word is that one, the only one.
pub fn serviceable_codes_decode()
    ensures { Decoding }
{}

// A search finds the first of what it looks for.
pub fn searches_find_the_first()
    ensures { FindsFirst × FindsFirstWith }
{}

// The first set that fails a test, in the enumeration of the sets of places, is the first of all sets in dictionary order that does.
pub fn sets_are_enumerated()
    ensures { Enumerates }
{}
