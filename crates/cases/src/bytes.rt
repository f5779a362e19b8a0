//! Calls and answers as bytes: tables of what they are read as and written as.
use codec::answer::Answer;
use codec::call::Call;
use codec::cells::cell;
use codec::misread::Misread;
use codec::refusal::Refusal;
use std::alloc::Global;
use std::process::Abort;
use std::test::Fail;

/// Lays: how many cells each has, the first and the last.
const LAYS: [(&[u8], usize, Option<u16>, Option<u16>); 4] = [
    (&[0, 0, 0], 0, None, None),
    (&[0, 4, 0, 1, 0, 2, 0, 3, 0, 0, 0], 4, Some(1), Some(0)),
    (&[0, 1, 0, 255, 0], 1, Some(255), Some(255)),
    (&[0, 2, 0, 0, 1, 255, 255], 2, Some(256), Some(65535)),
];

/// The other calls.
const CALLS: [(&[u8], Call<'static>); 7] = [
    (&[1, 0], Call::Move(0)),
    (&[1, 3], Call::Move(3)),
    (&[1, 4], Call::Move(4)),
    (&[1, 255], Call::Move(255)),
    (&[2], Call::Show),
    (&[3], Call::Solve),
    (&[4], Call::Shortest),
];

/// Each way for bytes to be no call, and the place: empty, an unknown number, too short, too long.
const NO_CALLS: [(&[u8], usize); 17] = [
    (&[], 0),
    (&[5], 0),
    (&[255, 0, 0], 0),
    (&[0], 1),
    (&[0, 0], 2),
    (&[0, 1, 0], 3),
    (&[0, 1, 0, 7], 4),
    (&[0, 1, 0, 7, 0, 9], 5),
    (&[0, 0, 0, 0], 3),
    (&[0, 0, 1, 1, 0], 5),
    (&[0, 255, 255, 1, 0, 2], 6),
    (&[1], 1),
    (&[1, 0, 0], 2),
    (&[1, 0, 0, 0], 2),
    (&[2, 0], 1),
    (&[3, 3, 3], 1),
    (&[4, 0], 1),
];

/// Each answer and each refusal, the cells beside it, and the bytes that it is written as.
const ANSWERS: [(Answer, &[u16], &[u8]); 17] = [
    (
        Answer::Refused(Refusal::Unreadable(5)),
        &[],
        &[0, 1, 0, 5, 0, 0, 0],
    ),
    (
        Answer::Refused(Refusal::Unreadable(0xfedcba98)),
        &[],
        &[0, 1, 0, 0x98, 0xba, 0xdc, 0xfe],
    ),
    (
        Answer::Refused(Refusal::Improper),
        &[],
        &[0, 2, 0, 0, 0, 0, 0],
    ),
    (Answer::Refused(Refusal::Side), &[], &[0, 3, 0, 0, 0, 0, 0]),
    (
        Answer::Refused(Refusal::Memory),
        &[],
        &[0, 3, 0, 1, 0, 0, 0],
    ),
    (
        Answer::Refused(Refusal::Blocked),
        &[],
        &[0, 4, 0, 0, 0, 0, 0],
    ),
    (
        Answer::Refused(Refusal::TooManyCells),
        &[],
        &[0, 5, 0, 0, 0, 0, 0],
    ),
    (Answer::Number(1), &[9], &[1, 1, 0]),
    (Answer::Number(255), &[], &[1, 255, 0]),
    (Answer::Number(256), &[], &[1, 0, 1]),
    (Answer::Number(65535), &[], &[1, 255, 255]),
    (Answer::Cells, &[], &[2, 0, 0]),
    (
        Answer::Cells,
        &[1, 2, 3, 0],
        &[2, 4, 0, 1, 0, 2, 0, 3, 0, 0, 0],
    ),
    (
        Answer::Cells,
        &[255, 256, 65535],
        &[2, 3, 0, 255, 0, 0, 1, 255, 255],
    ),
    (Answer::Way(0), &[], &[3, 0, 0, 0, 0]),
    (Answer::Way(2), &[], &[3, 2, 0, 0, 0, 3, 3]),
    (Answer::Never, &[], &[4]),
];

/// Each way for bytes to be no answer, and the place: empty, an unknown number, too short, too long, and what no refusal has.
const NO_ANSWERS: [(&[u8], usize); 22] = [
    (&[], 0),
    (&[5], 0),
    (&[255, 1, 2], 0),
    (&[0], 1),
    (&[0, 0, 0, 0, 0, 0, 0], 1),
    (&[0, 6, 0, 0, 0, 0, 0], 1),
    (&[0, 9], 1),
    (&[0, 1, 1, 0, 0, 0, 0], 2),
    (&[0, 2, 0, 1, 0, 0, 0], 3),
    (&[0, 3, 0, 2, 0, 0, 0], 3),
    (&[0, 3, 0, 1, 1, 0, 0], 4),
    (&[0, 4, 0, 0, 0, 1, 0], 5),
    (&[0, 5, 0, 0, 0, 0, 1], 6),
    (&[0, 1, 0, 0, 0, 0], 6),
    (&[0, 1, 0, 0, 0, 0, 0, 0], 7),
    (&[1, 1], 2),
    (&[1, 1, 0, 0], 3),
    (&[2, 1], 2),
    (&[2, 1, 0, 4, 0, 5], 5),
    (&[3, 1, 0, 0, 0], 5),
    (&[3, 1, 0, 0, 0, 2, 2], 6),
    (&[4, 0], 1),
];

/// A lay has so many cells, and these are the first and the last.
fn check_lay(
    rt: &impl Abort,
    request: &[u8],
    count: usize,
    first: Option<u16>,
    last: Option<u16>,
) -> Result<(), Fail> {
    let Ok(Call::Lay(cells)) = Call::decode(request) else {
        return Err(Fail::new("these are cells"));
    };
    assert_eq!(rt; cells.len() / 2, count);
    assert_eq!(rt; cell(cells, 0), first);
    assert_eq!(rt; cell(cells, count.saturating_sub(1)), last);
    Ok(())
}

/// Each call, and each way to be none.
fn check_calls(rt: &impl Abort) -> Result<(), Fail> {
    for (request, count, first, last) in LAYS {
        check_lay(rt, request, count, first, last)?;
    }
    for (request, call) in CALLS {
        assert_eq!(rt; Call::decode(request), Ok(call));
    }
    for (request, place) in NO_CALLS {
        assert_eq!(rt; Call::decode(request), Err(Misread { place }));
    }
    Ok(())
}

/// As many cells as can be counted, one byte more or less, and one cell more.
fn check_largest(rt: &impl Abort, heap: Global) -> Result<(), Fail> {
    let mut request = vec![in heap; 7; 131074]?;
    assert!(rt; request.len() == 131074);
    request[0] = 0;
    request[1] = 255;
    request[2] = 255;
    check_lay(
        rt,
        &request.as_slice()[0..131073],
        65535,
        Some(1799),
        Some(1799),
    )?;
    assert_eq!(rt;
        Call::decode(request.as_slice()),
        Err(Misread { place: 131073 })
    );
    assert_eq!(rt;
        Call::decode(&request.as_slice()[0..131072]),
        Err(Misread { place: 131072 })
    );
    let cells = vec![in heap; 258; 65536]?;
    assert!(rt; cells.len() == 65536);
    assert_eq!(rt;
        Answer::Cells.encode(cells.as_slice(), request.as_mut_slice()),
        None
    );
    check_cells(
        rt,
        &cells.as_slice()[0..65535],
        request.as_mut_slice(),
        131073,
    );
    Ok(())
}

/// Cells take so many bytes, and are read back.
fn check_cells(rt: &impl Abort, cells: &[u16], out: &mut [u8], size: usize) {
    assert_eq!(rt; Answer::Cells.encode(cells, out), Some(size));
    assert!(rt; size <= out.len());
    assert_eq!(rt; Answer::decode(&out[0..size]), Ok(Answer::Cells));
}

/// The answer is written over bytes of which the sixth and seventh are 3, what is behind it stays, it is read back, and it is
/// refused where there is a byte too few. A refusal is the one that the list has under its number and place.
fn check_answer(
    rt: &impl Abort,
    answer: Answer,
    cells: &[u16],
    expected: &[u8],
) -> Result<(), Fail> {
    let mut out = [7, 7, 7, 7, 7, 3, 3, 7, 7, 7, 7, 9];
    let Some(size) = answer.encode(cells, &mut out) else {
        return Err(Fail::new("there is room"));
    };
    assert!(rt; size <= 11);
    assert_eq!(rt; &out[0..size], expected);
    assert_eq!(rt; out[11], 9);
    assert_eq!(rt; Answer::decode(&out[0..size]), Ok(answer));
    assert_eq!(rt; answer.encode(cells, &mut out[0..size - 1]), None);
    if let Answer::Refused(refusal) = answer {
        let listed = Refusal::listed(refusal.number(), refusal.place());
        assert_eq!(rt; listed, Some(refusal));
    }
    Ok(())
}

/// Each answer, and each way to be none.
fn check_answers(rt: &impl Abort) -> Result<(), Fail> {
    for (answer, cells, expected) in ANSWERS {
        check_answer(rt, answer, cells, expected)?;
    }
    for (bytes, place) in NO_ANSWERS {
        assert_eq!(rt; Answer::decode(bytes), Err(Misread { place }));
    }
    Ok(())
}

#[test]
fn calls_and_answers(rt: HostRuntime) -> Result<(), Fail> {
    check_calls(&rt)?;
    check_largest(&rt, rt.alloc())?;
    check_answers(&rt)
}
