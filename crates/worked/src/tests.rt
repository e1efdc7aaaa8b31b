// The worked schemes once more, run through the public calls.
use crate::worked_schemes;
use faults::Fault;
use opening::Opened;
use schemes::Draft;
use std::test::Fail;
use symbols::TwoPower;

// Opens a file and corrects a block: the distance and the number of the attempt, or the refusal.
fn corrected(file: &[u8], block: &[u8], out: &mut [u8]) -> Result<(u8, u16), Fault> {
    Opened::new(file)?.correct(block, out)
}

// A refusal by number and places, which are what is tested; all 0 stands for none. Other test crates have it, too: a crate for one line is no plainer.
fn told(answer: Result<(u8, u16), Fault>) -> (u8, u64, u64) {
    answer.err().map_or(
        (0, 0, 0),
        |fault| (fault.number(), fault.first(), fault.second()),
    )
}

// The refusal of a file, with no block: a live scheme then refuses by 14.
fn refused(file: &[u8]) -> (u8, u64, u64) {
    told(corrected(file, &[], &mut []))
}

#[test]
fn trials(rt: HostRuntime) -> Result<(), Fail> {
    let worked = worked_schemes();
    assert_eq!(rt; refused(&worked.three_shifts), (14, 0, 0));
    assert_eq!(rt; refused(&worked.two_shifts), (12, 1, 0));
    assert_eq!(rt; refused(&worked.two_errors), (10, 1, 0));
    assert_eq!(rt; refused(&worked.swapped), (11, 1, 0));
    assert_eq!(rt; refused(&worked.polynomials), (14, 0, 0));
    assert_eq!(rt; refused(&worked.counting), (10, 2, 0));
    let sixteen = TwoPower::new(4)?;
    let (n, k, t, _) = worked.draft;
    assert!(rt; Draft::new(n, k, t, &sixteen).is_ok());
    let (n, k, t, _) = worked.large_draft;
    assert!(rt; Draft::new(n, k, t, &sixteen).is_err());
    Ok(())
}

#[test]
fn corrections(rt: HostRuntime) -> Result<(), Fail> {
    let worked = worked_schemes();
    let mut seven = [9u8; 7];
    assert_eq!(rt;
        corrected(&worked.binary, &worked.damaged, &mut seven)?,
        (1, 4)
    );
    assert_eq!(rt; seven, worked.mended);
    let mut four = [9u8; 4];
    assert_eq!(rt;
        corrected(&worked.ternary, &worked.ternary_damaged, &mut four)?,
        (1, 2)
    );
    assert_eq!(rt; four, worked.ternary_mended);
    let mut out = [9u8; 4];
    let lost = corrected(&worked.repeated, &worked.halved, &mut out);
    assert_eq!(rt; (told(lost), out), ((17, 0, 0), [9u8; 4]));
    Ok(())
}
