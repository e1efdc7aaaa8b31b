// Making a draft.
ghost use Rattle.std.specs.Prelude.{◌≡◌, ◌+◌, ◌-◌, ◌*◌, ◌^◌, ◌<◌, ◌≤◌, MatchOption};
ghost use Rattle.promises.specs.Scheme.{plan, draft_refusal};
ghost use Rattle.schemes.specs.Told.{Answers, planned};

use crate::scheme::Draft;
use faults::Fault;
use symbols::Kind;

// The most messages of a draft.
const MOST: u32 = 65_536;

// q to the power k, where that is at most 65,536.
pub(crate) fn message_count(q: u8, k: u8) -> Option<u32>
    requires { 1 ≤ q }
    ensures { MatchOption result (65536 < q ^ k) (λ x. (x ≡ q ^ k) × (x ≤ 65536)) }
{
    (q as u32)
        .checked_pow(k as u32)
        .filter(|count| *count <= MOST)
}

impl Draft {
    // A draft of the numbers n, k and t, with the q of the kind.
    pub fn new<K: Kind>(n: u8, k: u8, t: u8, kind: &K) -> Result<Draft, Fault>
        ensures { Answers (draft_refusal n k t (K.ring kind.now).q) result (λ d. planned d ≡ plan n k t (K.ring kind.now).q) }
    {
        if !(2..=64).contains(&n) || !(1..=16).contains(&k) || k >= n {
            return Err(Fault::CodeSize);
        }
        if !(1..=5).contains(&t) {
            return Err(Fault::ErrorCount);
        }
        let q = kind.order();
        message_count(q, k).ok_or(Fault::MessageCount)?;
        Ok(Draft { n, k, t, q })
    }
}
