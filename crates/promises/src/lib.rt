// What drafts, trials, live schemes and their calls mean, and what a scheme that has passed its trial promises over every run of calls.
// Definitions (specs/) and theorems (proofs/) only: the calls themselves are in the crate `schemes`, whose contracts cite these definitions.

#![tactic(auto)]

ghost use Rattle.promises.specs.Promise.{Law};
ghost use Rattle.promises.specs.Settled.{Settled, OneTally};

// Every code over every ring, with every list, that passes a trial keeps the promise.
pub fn promise_stands()
    ensures { Law }
{}

// A call of correct has at most one outcome for what it is handed, and blocks have at most one tally.
pub fn outcomes_are_single()
    ensures { Settled × OneTally }
{}
