// mend: reads a scheme file and received blocks from standard input, and prints what became of each block.
// It only reads and prints; the work is in the crate `mending`.

#![tactic(auto)]

use mending::answer;
use std::io;
use std::io::{Read, Write};

// At most so many bytes of the input are read.
const LIMIT: u64 = 49_935;

fn main(rt: HostRuntime) -> io::Result<()> {
    let heap = rt.alloc();
    let mut input = Vec::new(heap);
    rt.stdin().take(LIMIT).read_to_end(&mut input)?;
    let text = answer(heap, input.as_slice())?;
    rt.stdout().write_all(text.as_slice())
}
