// The lines that mend prints, appended to a text.
ghost use Rattle.std.specs.Prelude.{◌≡◌, ℕ, List, ◌++◌, map, Some, IfOk, codes, decimal, OnOk};
ghost use Rattle.faults.specs.Refusal.{refusal};
ghost use Rattle.schemes.specs.Told.{answered, counts};
ghost use Rattle.mending.specs.Lines.{digit as digit_of, fate, total, refused_line};

use crate::fates::fate_of;
use faults::Fault;
use schemes::Tally;
use std::alloc::{AllocError, Global};
use std::fmt::Write;

// The bytes of the longest number and fate.
const HEAD: usize = 32;

// A symbol as a digit from 0 to f.
fn digit(symbol: u8) -> u8
    ensures { result ≡ digit_of symbol }
{
    let value = symbol % 16;
    if value < 10 {
        b'0' + value
    } else {
        b'a' - 10 + value
    }
}

// Appends symbols as digits.
fn put_symbols(text: &mut Vec<u8>, symbols: &[u8]) -> Result<(), AllocError>
    ensures { OnOk result (text.new.items ≡ text.old.items ++ map digit_of symbols.now) }
{
    for symbol in symbols {
        text.push(digit(*symbol))?;
    }
    Ok(())
}

// Appends the line of a block: its number, and what became of it.
pub(crate) fn put_line(
    heap: Global,
    text: &mut Vec<u8>,
    number: u64,
    block: &[u8],
    answer: Result<(u8, u16), Fault>,
    word: &[u8],
) -> Result<(), AllocError>
    ensures { OnOk result (text.new.items ≡ text.old.items ++ (decimal number ++ (fate block.now (answered answer) word.now ++ codes "\n"))) }
{
    let (fate, symbols) = fate_of(answer, block, word);
    // With room for the longest, since a text that grows as it is written asks for memory more than once.
    let mut head = String::with_capacity(heap, HEAD)?;
    write!(head, "{number} {fate}")?;
    text.extend_from_slice(head.as_bytes())?;
    put_symbols(text, symbols)?;
    text.extend_from_slice(b"\n")
}

// Appends the total line.
pub(crate) fn put_total(heap: Global, text: &mut Vec<u8>, tally: Tally) -> Result<(), AllocError>
    ensures { OnOk result (text.new.items ≡ text.old.items ++ total (counts tally)) }
{
    let line = format!(in heap;
        "total {} {} {} {} {}\n",
        tally.blocks, tally.clean, tally.mended, tally.lost, tally.symbols
    )?;
    text.extend_from_slice(line.as_bytes())
}

// The only line where no scheme goes live.
pub(crate) fn refused(heap: Global, fault: Fault) -> Result<Vec<u8>, AllocError>
    ensures { IfOk result (λ text. text.items ≡ refused_line (refusal fault)) }
{
    let line = format!(in heap; "{fault}\n")?;
    Vec::from_slice(heap, line.as_bytes())
}
