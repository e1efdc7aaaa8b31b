// Inputs and the texts that they give.
use crate::HAMMING;
use mending::answer;
use std::alloc::Global;
use std::process::Abort;
use std::test::Fail;

// The text for a scheme file and the bytes of blocks is the expected one.
fn shows(
    rt: &impl Abort,
    heap: Global,
    file: &[u8],
    blocks: &[u8],
    expected: &[u8],
) -> Result<(), Fail> {
    let mut input = Vec::new(heap);
    input.extend_from_slice(&u16::try_from(file.len())?.to_be_bytes())?;
    input.extend_from_slice(file)?;
    input.extend_from_slice(blocks)?;
    let text = answer(heap, input.as_slice())?;
    assert!(rt; text.as_slice() == expected);
    Ok(())
}

// The worked file with one byte changed.
fn changed(at: usize, byte: u8) -> [u8; 26] {
    let mut file = HAMMING;
    if let Some(place) = file.get_mut(at) {
        *place = byte;
    }
    file
}

#[test]
fn inputs_without_a_file(rt: HostRuntime) -> Result<(), Fail> {
    let heap = rt.alloc();
    let inputs: [&[u8]; 3] = [&[], &[0], &[0, 26, 0x50, 0x44, 0x53]];
    for input in inputs {
        let text = answer(heap, input)?;
        assert!(rt; text.as_slice() == b"refused 18 0 0\n".as_slice());
    }
    Ok(())
}

#[test]
fn refused_schemes(rt: HostRuntime) -> Result<(), Fail> {
    let heap = rt.alloc();
    shows(&rt, heap, &changed(1, 0x45), &[], b"refused 19 0 0\n")?;
    shows(&rt, heap, &changed(4, 2), &[], b"refused 20 0 0\n")?;
    shows(&rt, heap, &changed(5, 2), &[], b"refused 21 5 0\n")?;
    shows(&rt, heap, &changed(8, 7), &[], b"refused 21 8 0\n")?;
    shows(&rt, heap, &changed(10, 2), &[], b"refused 22 0 0\n")?;
    shows(&rt, heap, &changed(14, 2), &[], b"refused 7 0 0\n")?;
    shows(&rt, heap, &changed(9, 2), &[1, 1], b"refused 10 1 0\n")?;
    let mut two = changed(12, 2);
    two[13] = 3;
    shows(&rt, heap, &two, &[0; 7], b"refused 12 1 0\n")?;
    // two-power 4 with 5 information places has too many messages
    let many = [
        0x50, 0x44, 0x53, 0, 1, 1, 4, 6, 5, 1, 1, 0, 1, 1, 1, 1, 1, 1, 1,
    ];
    shows(&rt, heap, &many, &[], b"refused 5 0 0\n")
}

#[test]
fn fates_of_blocks(rt: HostRuntime) -> Result<(), Fail> {
    let heap = rt.alloc();
    shows(&rt, heap, &HAMMING, &[], b"total 0 0 0 0 0\n")?;
    shows(
        &rt,
        heap,
        &HAMMING,
        &[1, 1, 1, 0, 1, 0, 0, 0, 1, 1],
        b"1 mended 1 0110100\n2 refused 14\ntotal 1 0 1 0 1\n",
    )?;
    let repeats = [0x50, 0x44, 0x53, 0, 1, 0, 2, 4, 1, 1, 1, 0, 2, 1, 1, 1, 1];
    shows(
        &rt,
        heap,
        &repeats,
        &[1, 1, 0, 0, 1, 1, 0, 1, 1, 1, 1, 1],
        b"1 lost - 1100\n2 mended 1 1111\n3 clean 0 1111\ntotal 3 1 1 1 1\n",
    )?;
    let sixteen = [0x50, 0x44, 0x53, 0, 1, 1, 4, 3, 1, 1, 1, 0, 3, 1, 1, 1];
    shows(
        &rt,
        heap,
        &sixteen,
        &[15, 15, 10, 16, 0, 0, 10, 11, 12, 9, 13, 13],
        b"1 mended 1 fff\n2 refused 15\n3 lost - abc\n4 mended 1 ddd\ntotal 3 0 2 1 2\n",
    )?;
    let table = [
        0x50, 0x44, 0x53, 0, 1, 0, 3, 4, 2, 1, 0, 0, 3, 2, 2, 2, 1, 0, 1, 2, 3, 1, 2, 0, 3, 2, 0,
        1, 3,
    ];
    shows(
        &rt,
        heap,
        &table,
        &[2, 1, 1, 0],
        b"1 mended 1 1110\ntotal 1 0 1 0 1\n",
    )
}
