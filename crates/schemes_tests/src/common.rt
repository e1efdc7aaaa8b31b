// Live schemes and refusals, as the tests build and compare them.
use faults::Fault;
use lists::Permutations;
use schemes::{Draft, Live};
use symbols::Kind;

// A refusal as its number and places, which are what is tested; all 0 stands for an answer that is none. Other test crates have it, too: a crate for one line is no plainer.
pub(crate) type Told = (u8, u64, u64);

pub(crate) const LIVE: Told = (0, 0, 0);

pub(crate) fn told<T: Drop>(answer: Result<T, Fault>) -> Told {
    answer.err().map_or(
        LIVE,
        |fault| (fault.number(), fault.first(), fault.second()),
    )
}

// A live scheme, or what refused it. The parameters are those of the calls.
pub(crate) fn live<K: Kind, L: Permutations>(
    kind: &K,
    list: &L,
    n: u8,
    k: u8,
    t: u8,
    rows: &[u8],
) -> Result<Live, Fault> {
    Ok(Draft::new(n, k, t, kind)?.trial(kind, list, rows)?)
}
