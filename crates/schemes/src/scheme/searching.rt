// The search through all messages for a codeword with few non-zero symbols.
ghost use Rattle.std.specs.Prelude.{◌≡◌, ℕ, ◌+◌, ◌-◌, ◌^◌, ◌<◌, ◌≤◌, List, [], ◌∷◌, ◌++◌, length, nat_le, slice_index, take};
ghost use Rattle.codes.specs.Code.{message as message_of};

use crate::scheme::counts::weight;
use crate::scheme::words::{Code, Message, Word};
use symbols::Kind;

// The message of k symbols that reads as x in base q, its first symbol leading.
fn message(x: u32, q: u8, k: usize) -> Message
    requires { (2 ≤ q) × (k ≤ 16) }
    ensures { take k result ≡ message_of q k x }
{
    let mut symbols = [0u8; 16];
    let mut rest = x;
    // Tried with `iter_mut().rev()`: the proof knows no items of that iterator, and did not close.
    for i in (0..k).rev() {
        symbols[i] = (rest % q as u32) as u8;
        rest /= q as u32;
    }
    symbols
}

impl<'a, K: Kind> Code<'a, K> {
    ghost use Rattle.codes.specs.Code.{codeword, weight};
    ghost use Rattle.codes.specs.Offenders.{light};
    ghost use Rattle.codes.specs.Search.{least};
    ghost use Rattle.schemes.specs.Lent.{code_lent, begun};

    // Whether the codeword of the message that has `last` after the head has at most `limit` symbols that are not 0.
    // The head's weight and its check symbols are given. Once there are more than `limit`, no others are formed: of twice as many check symbols as
    // would decide if none were 0, mostly enough are not.
    fn is_light(&self, head: &[u8], own: usize, sums: &Word, last: u8, limit: usize) -> bool
        requires head { length head.now + 1 ≡ self.now.k }
        requires own { own ≡ weight (length head.now) head.now }
        requires sums { (j : ℕ) → j < self.now.n - self.now.k → slice_index sums.now j ≡ begun (code_lent K.ring self.now) head.now j }
        requires few { limit ≤ 10 }
        ensures { result ≡ nat_le (weight self.now.n (codeword (code_lent K.ring self.now) (head.now ++ (last ∷ [])))) limit }
    {
        let whole = own + weight(&[last]);
        if whole > limit {
            return false;
        }
        let width = self.n - self.k;
        let few = (2 * (limit + 1 - whole)).min(width);
        let mut firsts = *sums;
        self.add_row(self.k - 1, last, few, &mut firsts);
        if whole + weight(&firsts[..few]) > limit {
            return false;
        }
        let mut checks = *sums;
        self.add_row(self.k - 1, last, width, &mut checks);
        whole + weight(&checks[..width]) <= limit
    }

    // The first symbol from `from` on that, put after the head, gives a message whose codeword has at most `limit` non-zero symbols.
    fn light_end(&self, head: &[u8], from: u8, limit: usize) -> Option<u8>
        requires head { length head.now + 1 ≡ self.now.k }
        requires few { limit ≤ 10 }
        requires from { from ≤ 2 }
        ensures { result ≡ least (λ last. nat_le (weight self.now.n (codeword (code_lent K.ring self.now) (head.now ++ (last ∷ [])))) limit) from ((K.ring self.now.kind.now).q - from) }
    {
        let own = weight(head);
        if own > limit {
            return None;
        }
        let sums = self.check_symbols(head, self.n - self.k);
        // A symbol is its number, and `find` is no plainer.
        for last in from..self.kind.order() {
            if self.is_light(head, own, &sums, last, limit) {
                return Some(last);
            }
        }
        None
    }

    // The smallest non-zero message, as a number, whose codeword has at most `limit` non-zero symbols; `count` is the number of messages.
    // Messages that differ in the last symbol only have the check symbols of the others in common.
    pub(crate) fn first_light(&self, limit: usize, count: u32) -> Option<u32>
        requires few { limit ≤ 10 }
        requires all { count ≡ (K.ring self.now.kind.now).q ^ self.now.k }
        ensures { result ≡ light (code_lent K.ring self.now) limit }
    {
        let q = self.kind.order();
        // A head is its number, and `find_map` is no plainer.
        for lead in 0..count / q as u32 {
            let symbols = message(lead, q, self.k - 1);
            let from = if lead == 0 { 1 } else { 0 };
            if let Some(last) = self.light_end(&symbols[..self.k - 1], from, limit) {
                return Some(lead * q as u32 + last as u32);
            }
        }
        None
    }
}
