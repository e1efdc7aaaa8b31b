// Entries for the benchmark in `bench`: the trial of a scheme file, and many corrections by one live scheme.
// Nothing of the product builds on this crate, and no promise stands here; the calls that are timed are those of the product.

#![tactic(auto)]

use faults::Fault;
use opening::Opened;

// Corrects each whole block of n bytes into its part of the output.
fn correct_each(opened: &mut Opened, blocks: &[u8], out: &mut [u8]) {
    let n = opened.places() as usize;
    for (block, word) in blocks.chunks_exact(n).zip(out.chunks_exact_mut(n)) {
        let _ = opened.correct(block, word);
    }
}

// Opens the file, tries its scheme, and corrects all blocks, as many times as `rounds` says.
fn rounds_of(file: &[u8], blocks: &[u8], out: &mut [u8], rounds: u32) -> Result<(), Fault> {
    let mut opened = Opened::new(file)?;
    // As often as is asked: nothing is gone through.
    for _ in 0..rounds {
        correct_each(&mut opened, blocks, out);
        let _ = opened.close();
    }
    Ok(())
}

// For C: 0 where the file's scheme goes live, else the number of the refusal. All blocks are corrected `rounds` times.
#[unsafe(no_mangle)]
pub extern "C" fn dulvarech_rounds(file: &[u8], blocks: &[u8], out: &mut [u8], rounds: u32) -> u8 {
    rounds_of(file, blocks, out, rounds).map_or_else(|fault| fault.number(), |_| 0)
}
