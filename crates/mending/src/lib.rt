// The work of the mend program: from the bytes of an input to the text that is printed.
// Here live the cutting of an input and the session over its blocks; the lines are in `lines`. Reading and printing live in the program.

#![tactic(auto)]

ghost use Rattle.std.specs.Prelude.{◌≡◌, ℕ, ◌+◌, ◌-◌, ◌*◌, ◌/◌, ◌<◌, ◌≤◌, length, IfOk};
ghost use Rattle.mending.specs.Input.{file_size, scheme_file, block_bytes};
ghost use Rattle.mending.specs.Printed.{Printed};

use lines::refused;
use opening::Opened;
use session::session;
use std::alloc::{AllocError, Global};

mod fates;
mod lines;
mod session;

// The length of the scheme file: two bytes, the high one first.
fn file_size(input: &[u8]) -> usize
    requires { 2 ≤ length input.now }
    ensures { (result ≡ file_size input.now) × (result < 65536) }
{
    u16::from_be_bytes([input[0], input[1]]) as usize
}

// The scheme file of an input: two bytes give its length, the high one first. It is shorter if the input ends, and empty if the length is missing.
pub fn scheme_file(input: &[u8]) -> &[u8]
    ensures { result.now ≡ scheme_file input.now }
{
    if input.len() < 2 {
        return &[];
    }
    let rest = &input[2..];
    &rest[..file_size(input).min(rest.len())]
}

// The bytes after the scheme file.
pub fn block_bytes(input: &[u8]) -> &[u8]
    ensures { result.now ≡ block_bytes input.now }
{
    if input.len() < 2 {
        return &[];
    }
    &input[(2 + file_size(input)).min(input.len())..]
}

// The text that mend prints for an input.
pub fn answer(heap: Global, input: &[u8]) -> Result<Vec<u8>, AllocError>
    ensures { IfOk result (λ text. Printed input.now text.items) }
{
    match Opened::new(scheme_file(input)) {
        Ok(opened) => session(heap, opened, block_bytes(input)),
        Err(fault) => refused(heap, fault),
    }
}
