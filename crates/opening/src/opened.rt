// A scheme file whose scheme went live, and the calls on it.
ghost use Rattle.std.specs.Prelude.{◌≡◌, Some, MatchResult};
ghost use Rattle.faults.specs.Refusal.{refusal};
ghost use Rattle.promises.specs.Calls.{Corrects, Closes};
ghost use Rattle.schemes.specs.Told.{kept, counts, tallied, correcting};
ghost use Rattle.opening.specs.Opening.{scheme_refusal};
ghost use Rattle.opening.specs.Opened.{handed_held, IsOpened};

use crate::kinds::FileKind;
use crate::lists_of_files::FileList;
use crate::{go_live, kind_of, list_of};
use faults::Fault;
use schemes::{Live, Tally};

// The live scheme of a file, with the kind, the list and the check rows that the file names.
#[derive(Drop)]
pub struct Opened<'a> {
    kind: FileKind,
    list: FileList<'a>,
    rows: &'a [u8],
    live: Live,
}

impl<'a> Opened<'a> {
    // Reads a scheme file and tries its scheme: a live scheme that keeps its promise, or the first refusal.
    pub fn new(file: &'a [u8]) -> Result<Opened<'a>, Fault>
        ensures { MatchResult result (IsOpened file.now) (λ e. scheme_refusal file.now ≡ Some (refusal e)) }
    {
        let scheme = files::read(file)?;
        let kind = kind_of(scheme.family, scheme.base)?;
        let list = list_of(scheme.n, scheme.count, scheme.form)?;
        let live = go_live(scheme.n, scheme.k, scheme.t, &kind, &list, scheme.rows)?;
        Ok(Opened {
            kind,
            list,
            rows: scheme.rows,
            live,
        })
    }

    // The number of places of a block.
    pub fn places(&self) -> u8
        ensures { result ≡ (kept self.now.live).n }
    {
        self.live.places()
    }

    // Corrects a block, and counts it: the distance and the number of the first attempt that succeeds.
    pub fn correct(&mut self, block: &[u8], out: &mut [u8]) -> Result<(u8, u16), Fault>
        ensures does { Corrects (kept self.old.live) (tallied self.old.live) (correcting (handed_held self.old) block.now out.old result out.new) (tallied self.new.live) }
        ensures keeps { (kept self.new.live ≡ kept self.old.live) × (handed_held self.new ≡ handed_held self.old) }
    {
        self.live
            .correct(&self.kind, &self.list, self.rows, block, out)
    }

    // Answers the tally and sets it to 0.
    pub fn close(&mut self) -> Tally
        ensures does { Closes (tallied self.old.live) (counts result) (tallied self.new.live) }
        ensures keeps { (kept self.new.live ≡ kept self.old.live) × (handed_held self.new ≡ handed_held self.old) }
    {
        self.live.close()
    }
}
