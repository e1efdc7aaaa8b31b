// The types of schemes. Their fields are private to the modules below, so that only the trial makes a live scheme.
ghost use Rattle.std.specs.Prelude.{◌≡◌, ◌+◌, ◌*◌, ◌^◌, ◌<◌, ◌≤◌};

use faults::Fault;

mod attempting;
mod calling;
mod counts;
mod drafting;
mod marking;
mod permuting;
mod searching;
mod trying;
mod words;

// The numbers of a code to be tried: n places, the first k of them information places, up to t errors, q symbols.
#[derive(Drop)]
pub struct Draft {
    n: u8,
    k: u8,
    t: u8,
    q: u8,
    ghost longest: { n ≤ 64 },
    ghost some: { 1 ≤ k },
    ghost most: { k ≤ 16 },
    ghost order: { k < n },
    ghost errors: { 1 ≤ t },
    ghost limit: { t ≤ 5 },
    ghost messages: { q ^ k ≤ 65536 },
}

// What a call is handed for reading: the kind, the list and the check rows of a scheme.
#[derive(Drop)]
struct Handed<'a, K, L> {
    kind: &'a K,
    list: &'a L,
    rows: &'a [u8],
}

// How the blocks since the start or the last close fared.
#[derive(Clone, Copy, PartialEq, Eq, Debug, Default)]
pub struct Tally {
    pub blocks: u32,
    pub clean: u32,
    pub mended: u32,
    pub lost: u32,
    pub symbols: u32,
}

// A tally as a live scheme keeps it.
#[derive(Clone, Copy)]
struct Count {
    tally: Tally,
    ghost room: { tally.blocks ≤ 1000000 },
    ghost parts: { tally.clean + tally.mended + tally.lost ≡ tally.blocks },
    ghost sum: { tally.symbols ≤ 5 * tally.mended },
}

// A draft that has passed its trial, with the number of permutations that it was tried with.
#[derive(Drop)]
pub struct Live {
    draft: Draft,
    m: u16,
    count: Count,
}

// A draft that a trial hands back, with the refusal.
#[derive(Drop)]
pub struct Rejected {
    pub draft: Draft,
    pub fault: Fault,
}

// A rejected draft is let go where only the fault goes on.
impl From<Rejected> for Fault {
    ghost from_gives = { λ x r. r ≡ x.fault };

    fn from(rejected: Rejected) -> Fault {
        rejected.fault
    }
}
