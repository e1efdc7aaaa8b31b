// The static library for host programs in C: the exported call, with the clauses of the crate `host`.
// Nothing else lives here; what the call does is in `host` and below it.

#![tactic(auto)]

ghost use Rattle.host.specs.Hosted.{HostAnswers};

// For C: the distance, or 100 and the number of the refusal, which leaves the output as it was.
#[unsafe(no_mangle)]
pub extern "C" fn dulvarech_correct(file: &[u8], block: &[u8], out: &mut [u8]) -> u8
    ensures { HostAnswers file.now block.now out.old result out.new }
{
    host::dulvarech_correct(file, block, out)
}
