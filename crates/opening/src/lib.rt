// From a scheme file to a live scheme: the kind and the list that the file names, its draft, its trial.
// Here live the kinds and lists of files, as one type each. What a file's bytes are is in `files`, what a trial asks in `schemes`.

#![tactic(auto)]

ghost use Rattle.std.specs.Prelude.{◌≡◌, Some, None, MatchResult};
ghost use Rattle.faults.specs.Refusal.{refusal};
ghost use Rattle.files.specs.Held.{contents, family_number, list_of};
ghost use Rattle.promises.specs.Scheme.{plan, handing, scheme as scheme_of, none};
ghost use Rattle.promises.specs.Promise.{Promise};
ghost use Rattle.opening.specs.Opening.{ring_of, kind_refusal, meaning_of, list_refusal, live_refusal};
ghost use Rattle.opening.specs.Held.{ring_held, meaning_held, WentLive};

use faults::Fault;
use files::{Family, Form, SchemeFile};
use kinds::FileKind;
use lists::{Multiplier, Permutations, Shifts, Table};
use lists_of_files::FileList;
use schemes::{Draft, Live};
use symbols::{Kind, Residues, TwoPower};

pub mod kinds;
pub mod lists_of_files;
pub mod opened;

pub use opened::Opened;

// The kind that a file names.
pub fn kind_of(family: Family, base: u8) -> Result<FileKind, Fault>
    ensures { MatchResult result (λ kind. (kind_refusal (family_number family) base ≡ None) × (ring_held kind ≡ ring_of (family_number family) base)) (λ e. kind_refusal (family_number family) base ≡ Some (refusal e)) }
{
    match family {
        Family::Residues => Ok(FileKind::Residues(Residues::new(base)?)),
        Family::TwoPower => Ok(FileKind::TwoPower(TwoPower::new(base)?)),
    }
}

// The list that a file names, for n places and the count c.
pub fn list_of<'a>(n: u8, count: u16, form: Form<'a>) -> Result<FileList<'a>, Fault>
    ensures { MatchResult result (λ list. (list_refusal n (list_of form.entry) ≡ None) × (meaning_held list ≡ meaning_of n count (list_of form.entry))) (λ e. list_refusal n (list_of form.entry) ≡ Some (refusal e)) }
{
    match form {
        Form::Table(part) => Ok(FileList::Table(Table::new(n, part)?)),
        Form::Shifts { step } => Ok(FileList::Shifts(Shifts::new(n, step, count))),
        Form::Multiplier {
            step,
            factor,
            powers,
        } => Ok(FileList::Multiplier(Multiplier::new(Shifts::new(n, step, count), factor, powers))),
    }
}

// Drafts and tries: a live scheme that keeps its promise, or the first refusal. Kind, list and rows are apart, as callers hold them.
pub fn go_live<K: Kind, L: Permutations>(
    n: u8,
    k: u8,
    t: u8,
    kind: &K,
    list: &L,
    rows: &[u8],
) -> Result<Live, Fault>
    ensures { MatchResult result (WentLive (plan n k t (K.ring kind.now).q) (handing (K.ring kind.now) rows.now (L.meaning list.now))) (λ e. live_refusal (plan n k t (K.ring kind.now).q) (handing (K.ring kind.now) rows.now (L.meaning list.now)) ≡ Some (refusal e)) }
{
    let live = Draft::new(n, k, t, kind)?.trial(kind, list, rows)?;
    Ok(live)
}
