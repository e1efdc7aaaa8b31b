// The calls on a live scheme.
ghost use Rattle.std.specs.Prelude.{◌≡◌, ℕ, ◌+◌, ◌-◌, ◌*◌, ◌<◌, ◌≤◌};
ghost use Rattle.promises.specs.Scheme.{handing, none};
ghost use Rattle.promises.specs.Calls.{objection, Encodes, Corrects, Closes, Withdraws, found, missed};
ghost use Rattle.schemes.specs.Lent.{handed_lent};
ghost use Rattle.schemes.specs.Told.{Answers, planned, kept, counts, tallied, encoding, correcting};

use crate::scheme::attempting::Fitted;
use crate::scheme::counts::first_excess;
use crate::scheme::permuting::Listed;
use crate::scheme::words::Code;
use crate::scheme::{Count, Draft, Handed, Live, Tally};
use faults::Fault;
use lists::Permutations;
use symbols::Kind;

// The tally takes no more blocks than these.
const FULL: u32 = 1_000_000;

impl Count {
    // Counts a block that is corrected at distance d.
    fn add_corrected(&mut self, d: u8)
        requires room { self.old.tally.blocks < 1000000 }
        requires few { d ≤ 5 }
        ensures { counts self.new.tally ≡ found d (counts self.old.tally) }
    {
        self.tally.blocks += 1;
        if d == 0 {
            self.tally.clean += 1;
        } else {
            self.tally.mended += 1;
            self.tally.symbols += d as u32;
        }
    }

    // Counts a block that is lost.
    fn add_lost(&mut self)
        requires { self.old.tally.blocks < 1000000 }
        ensures { counts self.new.tally ≡ missed (counts self.old.tally) }
    {
        self.tally.blocks += 1;
        self.tally.lost += 1;
    }
}

impl Live {
    // Refusals 13 to 15.
    fn check<K: Kind, L: Permutations>(
        &self,
        handed: &Handed<K, L>,
        size: usize,
        input: &[u8],
        output: &[u8],
    ) -> Result<(), Fault>
        ensures { Answers (objection (kept self.now) (handed_lent K.ring L.meaning handed.now) size input.now output.now) result (λ _. Unit {0}) }
    {
        let n = self.draft.n as usize;
        let k = self.draft.k as usize;
        if handed.kind.order() != self.draft.q
            || handed.list.length() != self.draft.n
            || handed.list.count() != self.m
            || handed.rows.len() != k * (n - k)
        {
            return Err(Fault::SchemeMismatch);
        }
        if input.len() != size || output.len() != n {
            return Err(Fault::WordLength);
        }
        if let Some(index) = first_excess(self.draft.q, input) {
            return Err(Fault::SymbolRange { index });
        }
        Ok(())
    }

    // The number n of places of a block.
    pub fn places(&self) -> u8
        ensures { result ≡ (kept self.now).n }
    {
        self.draft.n
    }

    // Writes the codeword of a message. Here and below, kind, list and rows are apart, as callers hold them: no struct of ours is asked of them.
    pub fn encode<K: Kind, L: Permutations>(
        &self,
        kind: &K,
        list: &L,
        rows: &[u8],
        message: &[u8],
        out: &mut [u8],
    ) -> Result<(), Fault>
        ensures { Encodes (kept self.now) (encoding (handing (K.ring kind.now) rows.now (L.meaning list.now)) message.now out.old result out.new) }
    {
        let n = self.draft.n as usize;
        let k = self.draft.k as usize;
        self.check(&Handed { kind, list, rows }, k, message, out)?;
        let code = Code { kind, rows, n, k };
        out.copy_from_slice(&code.codeword(message)[..n]);
        Ok(())
    }

    // Corrects a block, and counts it: the distance and the number of the first attempt that succeeds.
    pub fn correct<K: Kind, L: Permutations>(
        &mut self,
        kind: &K,
        list: &L,
        rows: &[u8],
        block: &[u8],
        out: &mut [u8],
    ) -> Result<(u8, u16), Fault>
        ensures does { Corrects (kept self.old) (tallied self.old) (correcting (handing (K.ring kind.now) rows.now (L.meaning list.now)) block.now out.old result out.new) (tallied self.new) }
        ensures keeps { kept self.new ≡ kept self.old }
    {
        let n = self.draft.n as usize;
        let k = self.draft.k as usize;
        self.check(&Handed { kind, list, rows }, n, block, out)?;
        if self.count.tally.blocks >= FULL {
            return Err(Fault::TallyFull);
        }
        let fitted = Fitted {
            code: Code { kind, rows, n, k },
            list: Listed {
                list,
                n: self.draft.n,
            },
            t: self.draft.t,
        };
        let Some((d, i)) = fitted.correct_into(block, out) else {
            self.count.add_lost();
            return Err(Fault::Lost);
        };
        self.count.add_corrected(d);
        Ok((d, i))
    }

    // Answers the tally and sets it to 0.
    pub fn close(&mut self) -> Tally
        ensures does { Closes (tallied self.old) (counts result) (tallied self.new) }
        ensures keeps { kept self.new ≡ kept self.old }
    {
        let tally = self.count.tally;
        self.count = Count {
            tally: Tally::default(),
        };
        tally
    }

    // Takes the scheme out of service, and answers its draft and its tally.
    pub fn withdraw(self) -> (Draft, Tally)
        ensures draft { planned result.0 ≡ planned self.draft }
        ensures tally { Withdraws (tallied self) (counts result.1) }
    {
        let Live { draft, m: _, count } = self;
        (draft, count.tally)
    }
}
