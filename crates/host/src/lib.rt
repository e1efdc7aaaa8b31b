// The call for a host program: a scheme file, a block and an output in, one number out.
// Here live the order of the steps and the number. What each step does and refuses is in the crates below.

#![tactic(auto)]

ghost use Rattle.std.specs.Result.{MatchResult};
ghost use Rattle.faults.specs.Refusal.{refusal};
ghost use Rattle.host.specs.Hosted.{Stops, Mends, Says, HostAnswers};

use faults::Fault;
use opening::Opened;

// What the number of a refusal is added to in an answer.
const REFUSED: u8 = 100;

// Opens the file and corrects the block: the distance, or the first refusal.
fn correct_once(file: &[u8], block: &[u8], out: &mut [u8]) -> Result<u8, Fault>
    ensures { MatchResult result (λ d. Mends file.now block.now out.old d out.new) (λ e. Stops file.now block.now out.old (refusal e) out.new) }
{
    let mut opened = Opened::new(file)?;
    let (distance, _) = opened.correct(block, out)?;
    Ok(distance)
}

fn refusal_answer(fault: Fault) -> u8
    ensures { Says (refusal fault) result }
{
    REFUSED + fault.number()
}

// The distance, or 100 and the number of the refusal, which leaves the output as it was. The crate `host_c` exports it to C.
pub fn dulvarech_correct(file: &[u8], block: &[u8], out: &mut [u8]) -> u8
    ensures { HostAnswers file.now block.now out.old result out.new }
{
    match correct_once(file, block, out) {
        Ok(distance) => distance,
        Err(fault) => refusal_answer(fault),
    }
}
