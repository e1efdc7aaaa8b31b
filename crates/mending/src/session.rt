// The session over the blocks of an input, from an opened scheme file to the total line.
ghost use Rattle.std.specs.Prelude.{◌≡◌, ◌^◌, ◌<◌, length, IfOk, OnOk};
ghost use Rattle.promises.specs.Scheme.{none};
ghost use Rattle.promises.specs.Promise.{Promise};
ghost use Rattle.schemes.specs.Told.{kept, tallied};
ghost use Rattle.opening.specs.Opened.{handed_held};
ghost use Rattle.mending.specs.Printed.{Added, Reported};

use crate::lines::{put_line, put_total};
use opening::Opened;
use std::alloc::{AllocError, Global};

// Corrects block number `number`, and appends its line.
fn add(
    heap: Global,
    text: &mut Vec<u8>,
    number: u64,
    opened: &mut Opened,
    block: &[u8],
) -> Result<(), AllocError>
    ensures keeps { (kept opened.new.live ≡ kept opened.old.live) × (handed_held opened.new ≡ handed_held opened.old) }
    ensures added { OnOk result (Added (kept opened.old.live) (handed_held opened.old) number block.now (tallied opened.old.live) (tallied opened.new.live) text.old.items text.new.items) }
{
    // A fixed array: a block has at most 64 symbols, and memory asked for here could fail.
    let mut word = [0u8; 64];
    let out = &mut word[..opened.places() as usize];
    let answer = opened.correct(block, out);
    put_line(heap, text, number, block, answer, out)
}

// The lines of all blocks of the bytes, and the total line.
pub(crate) fn session(heap: Global, mut opened: Opened, bytes: &[u8]) -> Result<Vec<u8>, AllocError>
    requires starts { tallied opened.live ≡ none }
    requires promise { Promise (kept opened.live) (handed_held opened) }
    ensures { IfOk result (λ text. Reported (kept opened.entry.live) (handed_held opened.entry) bytes.now text.items) }
{
    let n = opened.places() as usize;
    let mut text = Vec::new(heap);
    for (i, block) in bytes.chunks(n).enumerate() {
        add(heap, &mut text, i as u64 + 1, &mut opened, block)?;
    }
    put_total(heap, &mut text, opened.close())?;
    Ok(text)
}
