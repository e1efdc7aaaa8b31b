// The trial: what decides whether a draft goes live.
ghost use Rattle.std.specs.Prelude.{◌≡◌, ℕ, ◌+◌, ◌-◌, ◌*◌, ◌<◌, ◌≤◌, true, is_ok, IfOk, None};
ghost use Rattle.promises.specs.Scheme.{handing};
ghost use Rattle.promises.specs.Trial.{unfit, fails, verdict, Serves, Exactly};
ghost use Rattle.promises.specs.Promise.{Promise};
ghost use Rattle.schemes.specs.Told.{Answers, planned, kept, Tried};
ghost use Rattle.schemes.specs.Lent.{handed_lent};

use crate::scheme::attempting::Fitted;
use crate::scheme::counts::first_excess;
use crate::scheme::drafting::message_count;
use crate::scheme::permuting::Listed;
use crate::scheme::words::Code;
use crate::scheme::{Count, Draft, Handed, Live, Rejected, Tally};
use faults::Fault;
use lists::Permutations;
use symbols::Kind;

impl Draft {
    // Refusals 6 to 9: whether kind, rows and list are fit to be tried.
    fn check_fit<K: Kind, L: Permutations>(&self, handed: &Handed<K, L>) -> Result<(), Fault>
        ensures { Answers (unfit (planned self.now) (handed_lent K.ring L.meaning handed.now)) result (λ _. Unit {0}) }
    {
        let n = self.n as usize;
        let k = self.k as usize;
        if handed.kind.order() != self.q || handed.rows.len() != k * (n - k) {
            return Err(Fault::TrialMismatch);
        }
        if let Some(index) = first_excess(self.q, handed.rows) {
            return Err(Fault::RowCode { index });
        }
        if handed.list.length() != self.n || handed.list.count() == 0 {
            return Err(Fault::ListShape);
        }
        let listed = Listed {
            list: handed.list,
            n: self.n,
        };
        if let Some((number, position)) = listed.bad_entry() {
            return Err(Fault::NoPermutation { number, position });
        }
        Ok(())
    }

    // Refusals 10 to 12: whether the code and the list serve.
    fn check_code<K: Kind, L: Permutations>(&self, handed: &Handed<K, L>) -> Result<(), Fault>
        requires { unfit (planned self.now) (handed_lent K.ring L.meaning handed.now) ≡ None }
        ensures { Answers (fails (planned self.now) (handed_lent K.ring L.meaning handed.now)) result (λ _. Unit {0}) }
    {
        let Some(count) = message_count(self.q, self.k) else {
            return unreachable();
        };
        // As in `correct`: a function for both would have to state each field once more.
        let fitted = Fitted {
            code: Code {
                kind: handed.kind,
                rows: handed.rows,
                n: self.n as usize,
                k: self.k as usize,
            },
            list: Listed {
                list: handed.list,
                n: self.n,
            },
            t: self.t,
        };
        if let Some(message) = fitted.code.first_light(2 * self.t as usize, count) {
            return Err(Fault::LightCodeword { message });
        }
        if let Some((number, unit)) = fitted.unkept() {
            return Err(Fault::NotKept { number, unit });
        }
        if let Some(places) = fitted.list.first_uncleared(self.k, self.t) {
            return Err(Fault::Uncleared { places });
        }
        Ok(())
    }

    // The first refusal of a trial.
    fn examine<K: Kind, L: Permutations>(&self, handed: &Handed<K, L>) -> Result<(), Fault>
        ensures { Answers (verdict (planned self.now) (handed_lent K.ring L.meaning handed.now)) result (λ _. Unit {0}) }
    {
        self.check_fit(handed)?;
        self.check_code(handed)
    }

    // The answer of a trial.
    fn decide<K: Kind, L: Permutations>(self, handed: &Handed<K, L>) -> Result<Live, Rejected>
        ensures { Tried (planned self) (handed_lent K.ring L.meaning handed.now) result }
    {
        // A match, as both answers hand the draft on.
        match self.examine(handed) {
            Ok(()) => Ok(Live {
                draft: self,
                m: handed.list.count(),
                count: Count {
                    tally: Tally::default(),
                },
            }),
            Err(fault) => Err(Rejected { draft: self, fault }),
        }
    }

    // Puts the draft on trial: a live scheme with an empty tally, or the same draft with the first refusal.
    // Kind, list and rows are apart, as callers hold them.
    pub fn trial<K: Kind, L: Permutations>(
        self,
        kind: &K,
        list: &L,
        rows: &[u8],
    ) -> Result<Live, Rejected>
        ensures tried { Tried (planned self) (handing (K.ring kind.now) rows.now (L.meaning list.now)) result }
        ensures promised { IfOk result (λ live. Promise (kept live) (handing (K.ring kind.now) rows.now (L.meaning list.now))) }
        ensures exactly { unfit (planned self) (handing (K.ring kind.now) rows.now (L.meaning list.now)) ≡ None → Exactly (is_ok result ≡ true) (Serves (planned self) (handing (K.ring kind.now) rows.now (L.meaning list.now))) }
    {
        self.decide(&Handed { kind, list, rows })
    }
}
