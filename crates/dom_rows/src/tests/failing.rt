use super::{EVENTS, Given, LATE, PLAN, PROGRAM, READS, TRACE, answer, answered, files_of};
use std::alloc::Global;
use std::process::Abort;
use std::test::Fail;

// Calls of each command and refusals of each kind: the words, the program and the trace.
const CALLS: [(&str, &str, &str); 26] = [
    ("run raw-small p t", PROGRAM, TRACE),
    ("compile raw-small p", PROGRAM, TRACE),
    ("exec c t", PROGRAM, TRACE),
    ("watch c t", PROGRAM, TRACE),
    ("probe c t 2", PROGRAM, TRACE),
    ("probe c t 5", PROGRAM, TRACE),
    ("upgrade c", PROGRAM, TRACE),
    ("upgrade p", PROGRAM, TRACE),
    ("serial p t", PROGRAM, TRACE),
    ("selfrun raw-small 7 1", PROGRAM, TRACE),
    ("", PROGRAM, TRACE),
    ("run raw-small p t", "no program", TRACE),
    ("run raw-small p t", PROGRAM, "no trace"),
    ("compile write-small p", PROGRAM, TRACE),
    ("exec p t", PROGRAM, TRACE),
    ("exec c t", PROGRAM, "no trace"),
    ("watch p t", PROGRAM, TRACE),
    ("serial p t", PROGRAM, "gap,x\n2000000,1\n"),
    ("codelets raw-small p", LATE, TRACE),
    ("planned raw-small p t", LATE, PLAN),
    ("planned raw-small p t", PROGRAM, PLAN),
    ("elastic c p t", TRACE, EVENTS),
    ("elastic c p t", TRACE, "no event"),
    ("schedule c t x 8 4", PROGRAM, TRACE),
    ("schedule c t x 1 16", PROGRAM, TRACE),
    ("schedule c t y 8 4", PROGRAM, TRACE),
];

// What a call gives where one put takes so many bytes and fails.
fn cut_short(
    alloc: Global,
    call: &(&str, &str, &str),
    put: u64,
    taken: usize,
) -> Result<Given, Fail> {
    let (command, program, trace) = call;
    let files = files_of(alloc, program, trace)?;
    let failing = vec![in alloc; (put, taken)]?;
    Ok(answer(alloc, command, files, Vec::new(alloc), failing)?)
}

// The lines are those that the call puts where nothing fails. Where a put takes some bytes of its line and fails, these and
// the lines before it are held, and nothing else is put. No put comes behind the last line.
fn fails_in_each_put(
    rt: &impl Abort,
    alloc: Global,
    call: &(&str, &str, &str),
) -> Result<(), Fail> {
    let (command, program, trace) = call;
    let whole = answered(alloc, command, program, trace)?;
    let mut put = 1u64;
    let mut before = 0usize;
    for line in whole.held.split_inclusive(|byte| *byte == b'\n') {
        for taken in 0..=line.len() {
            let given = cut_short(alloc, call, put, taken)?;
            let held = whole.held.get(..before.saturating_add(taken));
            assert_eq!(rt;
                given.status,
                5,
                "for {command}, put {put} and {taken} bytes"
            );
            assert_eq!(rt;
                Some(given.held.as_slice()),
                held,
                "for {command}, put {put}"
            );
        }
        put = put.saturating_add(1);
        before = before.saturating_add(line.len());
    }
    let given = cut_short(alloc, call, put, 0)?;
    assert_eq!(rt; given.status, whole.status, "for {command}");
    assert_eq!(rt;
        given.held.as_slice(),
        whole.held.as_slice(),
        "for {command}"
    );
    Ok(())
}

fn fail_in_each_put(
    rt: &impl Abort,
    alloc: Global,
    calls: &[(&str, &str, &str)],
) -> Result<(), Fail> {
    for call in calls {
        fails_in_each_put(rt, alloc, call)?;
    }
    Ok(())
}

#[test]
fn each_put_fails(rt: HostRuntime) -> Result<(), Fail> {
    fail_in_each_put(&rt, rt.alloc(), &CALLS)
}

// Where one of the reads that a call makes fails and all others can succeed, the status is 4 and nothing is held.
fn fail_in_each_read(
    rt: &impl Abort,
    alloc: Global,
    rows: &[(&str, &str, &str, u64, u8)],
) -> Result<(), Fail> {
    for (command, program, trace, reads, _status) in rows {
        for number in 1..=*reads {
            let files = files_of(alloc, program, trace)?;
            let failing = vec![in alloc; number]?;
            let given = answer(alloc, command, files, failing, Vec::new(alloc))?;
            assert_eq!(rt; given.status, 4, "for {command} and read {number}");
            assert_eq!(rt; given.held.as_slice(), b"".as_slice(), "for {command}");
        }
    }
    Ok(())
}

#[test]
fn each_read_fails(rt: HostRuntime) -> Result<(), Fail> {
    fail_in_each_read(&rt, rt.alloc(), &READS)
}
