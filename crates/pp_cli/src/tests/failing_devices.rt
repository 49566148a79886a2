//! Sources and sinks that fail at each of their calls, and those that never fail.
use crate::tests::row::COUNTER;
use crate::tests::{added, answered, assert_answer, run_with_counter, status_of};
use pp_core::{Status, Words};
use pp_input::{MemorySink, MemorySource, SteadySink, SteadySource};
use std::marker::Brand;
use std::sync::ledger::Blank;
use std::test::Fail;

/// The report of the run that adds.
const ADDED_REPORT: &[u8] = b"accepted steps 4 committed 1\ntx t1\nop 1 c.add(2)=none\nstate c 2\n";

#[test]
fn whichever_read_fails_nothing_is_written(rt: HostRuntime) -> Result<(), Fail> {
    let alloc = rt.alloc();
    for call in 0..250u64 {
        let mut input = added(alloc)?;
        input.extend_from_slice(b"\n")?;
        let last = input.len() as u64;
        let pieces = vec![in alloc; 1usize; input.len()]?;
        let source = MemorySource::new(input, pieces, vec![in alloc; call]?);
        let answer = answered(
            alloc,
            b"certify",
            source,
            MemorySink::new(alloc, 8, Vec::new(alloc)),
        )?;
        let (status, report) = if call <= last {
            (Status::ReadFault, b"".as_slice())
        } else {
            (Status::Accepted, ADDED_REPORT)
        };
        assert_answer(&rt, "a failing read", &answer, status, report);
    }
    Ok(())
}

/// A record without a step, and a header whose end is still to come.
const BEFORE_A_FAILED_READ: [(&[u8], Status, &[u8]); 2] = [
    (b"{}\n", Status::InputFault, b"fault line 2 Missing(step)\n"),
    (b"", Status::ReadFault, b""),
];

#[test]
fn a_failed_read_is_told_unless_a_fault_stands_before_it(rt: HostRuntime) -> Result<(), Fail> {
    let alloc = rt.alloc();
    for (records, status, report) in BEFORE_A_FAILED_READ {
        let mut input = COUNTER.to_vec(alloc)?;
        if records.len() == 0 {
            input.pop();
        }
        input.extend_from_slice(records)?;
        let source = MemorySource::new(input, Vec::new(alloc), vec![in alloc; 1u64]?);
        let answer = answered(
            alloc,
            b"certify",
            source,
            MemorySink::new(alloc, 8, Vec::new(alloc)),
        )?;
        assert_answer(&rt, "before a failed read", &answer, status, report);
    }
    Ok(())
}

#[test]
fn a_failed_write_leaves_what_was_written_before_it(rt: HostRuntime) -> Result<(), Fail> {
    let alloc = rt.alloc();
    for call in 0..100usize {
        let mut input = added(alloc)?;
        input.extend_from_slice(b"\n")?;
        let source = MemorySource::new(input, Vec::new(alloc), Vec::new(alloc));
        let sink = MemorySink::new(alloc, 1, vec![in alloc; call as u64]?);
        let answer = answered(alloc, b"certify", source, sink)?;
        let status = if call <= ADDED_REPORT.len() {
            Status::WriteFault
        } else {
            Status::Accepted
        };
        let held = &ADDED_REPORT[..call.min(ADDED_REPORT.len())];
        assert_answer(&rt, "a failing write", &answer, status, held);
    }
    Ok(())
}

#[test]
fn a_failed_write_of_a_made_run_leaves_a_prefix(rt: HostRuntime) -> Result<(), Fail> {
    let alloc = rt.alloc();
    let mut words = Words::new(alloc);
    words.push(b"drill")?;
    words.push(b"1")?;
    let mut source = MemorySource::new(Vec::new(alloc), Vec::new(alloc), Vec::new(alloc));
    let mut sink = MemorySink::new(alloc, 8, vec![in alloc; 1u64]?);
    let status = status_of(&words, &mut source, &mut sink, alloc);
    let answer = (status, sink.held().to_vec(alloc)?);
    assert_answer(&rt, "a made run", &answer, Status::WriteFault, b"drill 1\n");
    Ok(())
}

#[test]
fn devices_that_never_fail_carry_the_whole_report(rt: HostRuntime) -> Result<(), Fail> {
    let alloc = rt.alloc();
    let mut words = Words::new(alloc);
    words.push(b"certify")?;
    let mut source = SteadySource::new(added(alloc)?);
    let mut sink = SteadySink::new(alloc);
    let status = run_with_counter::<Brand, _, _>(
        alloc,
        &words,
        &mut source,
        &mut sink,
        Blank::new(1),
    );
    let answer = (status, sink.held().to_vec(alloc)?);
    assert_answer(
        &rt,
        "the run that adds",
        &answer,
        Status::Accepted,
        ADDED_REPORT,
    );
    assert_eq!(rt; sink.sent(), ADDED_REPORT);
    Ok(())
}
