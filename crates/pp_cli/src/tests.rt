//! What no clause says: the program does not run out of memory without need, and whole runs lead
//! from their bytes to their reports.
ghost use Rattle.std.specs.Prelude.{◌≡◌};

mod accepted_runs;
mod commands;
mod cut_runs;
mod expanded_runs;
mod failing_devices;
mod faulty_inputs;
mod focused_runs;
mod given_words;
mod hostile_lines;
mod library_calls;
mod long_inputs;
mod made_runs;
mod rejected_runs;
mod row;
mod starts;
mod streams;
mod style_faults;
mod styled_runs;
mod walks;

use crate::tests::accepted_runs::ACCEPTED;
use crate::tests::commands::{COMMANDS, DRIVEN, OPAQUE};
use crate::tests::expanded_runs::{EXPANDED, OLD_READ};
use crate::tests::faulty_inputs::FAULTY;
use crate::tests::given_words::GivenWords;
use crate::tests::hostile_lines::HOSTILE;
use crate::tests::long_inputs::{
    JUDGED, LONG, MANY_PEAKS, TOO_MANY_STEPS, bytes_of, turned_commits,
};
use crate::tests::made_runs::MADE;
use crate::tests::rejected_runs::REJECTED;
use crate::tests::row::{COUNTER, Row};
use crate::tests::starts::STARTS;
use crate::tests::style_faults::STYLE_FAULTS;
use crate::tests::styled_runs::STYLED;
use crate::words::collect_words;
use pp_cmd_drill::drill_run;
use pp_core::{Status, Ticks, Words};
use pp_input::{MemorySink, MemorySource, Sink, Source};
use pp_run::run;
use std::alloc::Global;
use std::marker::Brand;
use std::process::Abort;
use std::sync::ledger::{Blank, Ledger};
use std::test::Fail;

/// Runs a command over any source and sink, with a new counter of operations.
fn run_with_counter<L: Ledger, S: Source, K: Sink>(
    alloc: Global,
    words: &Words,
    source: &mut S,
    sink: &mut K,
    blank: Blank,
) -> Status
    requires name { blank.name ≡ L.name }
    requires parts { blank.parts ≡ L.parts }
    requires one { L.parts ≡ 1 }
{
    let mut ticks = Ticks::<L>::new(blank);
    run(alloc, words, source, sink, &mut ticks)
}

/// The status of a command on an input.
fn status_of(
    words: &Words,
    source: &mut MemorySource,
    sink: &mut MemorySink,
    alloc: Global,
) -> Status {
    run_with_counter::<Brand, _, _>(alloc, words, source, sink, Blank::new(1))
}

/// The status of a command of one argument on an input, and the output in the sink.
fn answered(
    alloc: Global,
    command: &[u8],
    mut source: MemorySource,
    mut sink: MemorySink,
) -> Result<(Status, Vec<u8>), Fail> {
    let mut words = Words::new(alloc);
    words.push(command)?;
    let status = status_of(&words, &mut source, &mut sink, alloc);
    Ok((status, sink.held().to_vec(alloc)?))
}

/// The status and the output for bytes that come one by one, or all at once.
fn answered_bytes(
    alloc: Global,
    command: &[u8],
    input: Vec<u8>,
    by_one: bool,
) -> Result<(Status, Vec<u8>), Fail> {
    let count = if by_one { input.len() } else { 0 };
    let pieces = vec![in alloc; 1usize; count]?;
    let source = MemorySource::new(input, pieces, Vec::new(alloc));
    let sink = MemorySink::new(alloc, 3, Vec::new(alloc));
    answered(alloc, command, source, sink)
}

/// The status and the output of `certify` for bytes.
fn certified_bytes(alloc: Global, input: Vec<u8>, by_one: bool) -> Result<(Status, Vec<u8>), Fail> {
    answered_bytes(alloc, b"certify", input, by_one)
}

/// The status and the output of `expand` for bytes.
fn expanded_bytes(alloc: Global, input: Vec<u8>, by_one: bool) -> Result<(Status, Vec<u8>), Fail> {
    answered_bytes(alloc, b"expand", input, by_one)
}

/// The lines of a row.
fn input_of(alloc: Global, row: &Row) -> Result<Vec<u8>, Fail> {
    let mut input = row.header.to_vec(alloc)?;
    input.extend_from_slice(row.records)?;
    Ok(input)
}

/// The records of one transaction that adds to a counter. The last line has no end.
const ADDED: &[u8] = br#"{"step":"begin","tx":"t1","thread":"p1"}
{"step":"app","tx":"t1","id":1,"on":"c","call":"add","args":[2],"result":null}
{"step":"push","tx":"t1","id":1}
{"step":"cmt","tx":"t1"}"#;

/// The whole of that run.
fn added(alloc: Global) -> Result<Vec<u8>, Fail> {
    let mut input = COUNTER.to_vec(alloc)?;
    input.extend_from_slice(ADDED)?;
    Ok(input)
}

/// Asserts the status and the report.
fn assert_answer(
    rt: &impl Abort,
    what: &str,
    answer: &(Status, Vec<u8>),
    status: Status,
    report: &[u8],
) {
    assert_eq!(rt; answer.0, status, "{what}");
    assert_eq!(rt; answer.1.as_slice(), report, "{what}");
}

#[test]
fn runs_have_their_reports(rt: HostRuntime) -> Result<(), Fail> {
    let alloc = rt.alloc();
    for table in [
        ACCEPTED.as_slice(),
        REJECTED.as_slice(),
        FAULTY.as_slice(),
        STARTS.as_slice(),
        STYLE_FAULTS.as_slice(),
        STYLED.as_slice(),
        HOSTILE.as_slice(),
    ] {
        for row in table {
            let answer = certified_bytes(alloc, input_of(alloc, row)?, true)?;
            assert_answer(&rt, row.what, &answer, row.status, row.report);
        }
    }
    Ok(())
}

#[test]
fn commands_have_their_outputs(rt: HostRuntime) -> Result<(), Fail> {
    let alloc = rt.alloc();
    for command in &COMMANDS {
        let row = &command.row;
        let answer = answered_bytes(alloc, command.command, input_of(alloc, row)?, true)?;
        assert_answer(&rt, row.what, &answer, row.status, row.report);
    }
    Ok(())
}

#[test]
fn driven_runs_have_their_reports(rt: HostRuntime) -> Result<(), Fail> {
    let alloc = rt.alloc();
    for command in &DRIVEN {
        let row = &command.row;
        let answer = answered_bytes(alloc, command.command, input_of(alloc, row)?, true)?;
        assert_answer(&rt, row.what, &answer, row.status, row.report);
    }
    Ok(())
}

#[test]
fn opaque_runs_and_zombies_have_their_outputs(rt: HostRuntime) -> Result<(), Fail> {
    let alloc = rt.alloc();
    for command in &OPAQUE {
        let row = &command.row;
        let answer = answered_bytes(alloc, command.command, input_of(alloc, row)?, true)?;
        assert_answer(&rt, row.what, &answer, row.status, row.report);
    }
    Ok(())
}

#[test]
fn a_boosted_run_may_have_more_steps_than_a_run_of_the_machine(
    rt: HostRuntime,
) -> Result<(), Fail> {
    let alloc = rt.alloc();
    let input = bytes_of(alloc, TOO_MANY_STEPS)?;
    let (status, report) = answered_bytes(alloc, b"quick", input, false)?;
    let first = b"quick accepted records 2495 committed 628\n".as_slice();
    assert_eq!(rt; status, Status::Accepted);
    assert_eq!(rt; report.as_slice().starts_with(first), true);
    assert_eq!(rt;
        report.as_slice().ends_with(b"state c 628\n".as_slice()),
        true
    );
    Ok(())
}

#[test]
fn a_run_is_judged_however_many_steps_it_has(rt: HostRuntime) -> Result<(), Fail> {
    let alloc = rt.alloc();
    let input = bytes_of(alloc, TOO_MANY_STEPS)?;
    let (status, report) = answered_bytes(alloc, b"judge", input, false)?;
    let first = b"accepted steps 200001 committed 628\n".as_slice();
    assert_eq!(rt; status, Status::Accepted);
    assert_eq!(rt; report.as_slice().starts_with(first), true);
    assert_eq!(rt;
        report.as_slice().ends_with(b"state c 628\n".as_slice()),
        true
    );
    Ok(())
}

/// A call of the open transaction after this many steps, with a wrong result.
const WRONG_RESULT: &[u8] =
    br#"{"step":"op","tx":"t629","id":629,"on":"c","call":"get","args":[],"result":7}"#;

#[test]
fn a_rejected_step_may_come_after_many(rt: HostRuntime) -> Result<(), Fail> {
    let alloc = rt.alloc();
    let mut input = bytes_of(alloc, TOO_MANY_STEPS)?;
    input.extend_from_slice(WRONG_RESULT)?;
    let answer = answered_bytes(alloc, b"judge", input, false)?;
    let report = b"rejected step 200630 line 2497 APP 4\nentry 629 gives 628\n";
    assert_answer(&rt, "many steps", &answer, Status::Rejected, report);
    Ok(())
}

#[test]
fn peaks_may_be_too_many(rt: HostRuntime) -> Result<(), Fail> {
    let alloc = rt.alloc();
    let answer = answered_bytes(alloc, b"views", bytes_of(alloc, MANY_PEAKS)?, false)?;
    let report = b"toolarge views 2000001\n";
    assert_answer(&rt, "many peaks", &answer, Status::TooLarge, report);
    Ok(())
}

#[test]
fn a_certificate_may_be_too_large(rt: HostRuntime) -> Result<(), Fail> {
    let alloc = rt.alloc();
    let answer = answered_bytes(alloc, b"swaps", turned_commits(alloc)?, false)?;
    let report = b"toolarge swaps 1000405\n";
    assert_answer(&rt, "turned commits", &answer, Status::TooLarge, report);
    Ok(())
}

#[test]
fn runs_have_their_steps(rt: HostRuntime) -> Result<(), Fail> {
    let alloc = rt.alloc();
    for row in &EXPANDED {
        let answer = expanded_bytes(alloc, input_of(alloc, row)?, true)?;
        assert_answer(&rt, row.what, &answer, row.status, row.report);
    }
    Ok(())
}

#[test]
fn printed_steps_are_a_run_of_themselves(rt: HostRuntime) -> Result<(), Fail> {
    let alloc = rt.alloc();
    for row in &EXPANDED {
        if row.status != Status::InputFault {
            let answer = expanded_bytes(alloc, row.report.to_vec(alloc)?, false)?;
            assert_answer(&rt, row.what, &answer, row.status, row.report);
        }
    }
    Ok(())
}

/// Asserts that the steps of a row have the verdict of its records, and the same report if the row
/// is accepted.
fn assert_same_verdict(rt: &impl Abort, alloc: Global, row: &Row) -> Result<(), Fail> {
    let answer = certified_bytes(alloc, input_of(alloc, row)?, false)?;
    let again = certified_bytes(alloc, row.report.to_vec(alloc)?, false)?;
    assert_eq!(rt; again.0, answer.0, "{}", row.what);
    if answer.0 == Status::Accepted {
        assert_eq!(rt; again.1.as_slice(), answer.1.as_slice(), "{}", row.what);
    }
    Ok(())
}

#[test]
fn printed_steps_have_the_verdict_of_their_run(rt: HostRuntime) -> Result<(), Fail> {
    for row in &EXPANDED {
        if row.status != Status::InputFault {
            assert_same_verdict(&rt, rt.alloc(), row)?;
        }
    }
    Ok(())
}

#[test]
fn a_printed_step_is_rejected_on_its_own_line(rt: HostRuntime) -> Result<(), Fail> {
    let alloc = rt.alloc();
    let (_status, printed) = expanded_bytes(alloc, OLD_READ.to_vec(alloc)?, false)?;
    let answer = certified_bytes(alloc, printed, false)?;
    let report = b"rejected step 7 line 8 PUSH 5\nentry 1 gives 1\n";
    assert_answer(&rt, "an old read", &answer, Status::Rejected, report);
    Ok(())
}

#[test]
fn the_last_line_may_lack_its_end(rt: HostRuntime) -> Result<(), Fail> {
    let answer = certified_bytes(rt.alloc(), added(rt.alloc())?, true)?;
    let report = b"accepted steps 4 committed 1\ntx t1\nop 1 c.add(2)=none\nstate c 2\n";
    assert_answer(&rt, "no end", &answer, Status::Accepted, report);
    Ok(())
}

#[test]
fn long_inputs_have_their_reports(rt: HostRuntime) -> Result<(), Fail> {
    let alloc = rt.alloc();
    for long in &LONG {
        let answer = certified_bytes(alloc, bytes_of(alloc, long.input)?, false)?;
        let report = bytes_of(alloc, long.report)?;
        assert_answer(&rt, long.what, &answer, long.status, report.as_slice());
    }
    Ok(())
}

#[test]
fn runs_past_the_limits_of_certify_are_judged(rt: HostRuntime) -> Result<(), Fail> {
    let alloc = rt.alloc();
    for long in &JUDGED {
        let answer = answered_bytes(alloc, b"judge", bytes_of(alloc, long.input)?, false)?;
        let report = bytes_of(alloc, long.report)?;
        assert_answer(&rt, long.what, &answer, long.status, report.as_slice());
    }
    Ok(())
}

#[test]
fn the_run_of_a_number_asks_nothing_of_the_source(rt: HostRuntime) -> Result<(), Fail> {
    let alloc = rt.alloc();
    for made in &MADE {
        let mut words = Words::new(alloc);
        words.push(b"drill")?;
        words.push(made.number)?;
        let mut source = MemorySource::new(added(alloc)?, Vec::new(alloc), vec![in alloc; 0u64]?);
        let mut sink = MemorySink::new(alloc, 3, Vec::new(alloc));
        let status = status_of(&words, &mut source, &mut sink, alloc);
        let answer = (status, sink.held().to_vec(alloc)?);
        assert_answer(&rt, "a made run", &answer, Status::Accepted, made.report);
    }
    Ok(())
}

#[test]
fn the_run_of_a_number_is_an_input_with_the_same_report(rt: HostRuntime) -> Result<(), Fail> {
    let alloc = rt.alloc();
    let input = drill_run(alloc, 2_000)?.bytes().to_vec(alloc)?;
    let (status, report) = certified_bytes(alloc, input, false)?;
    let first = b"accepted steps 16999 committed 2000\n".as_slice();
    let states = b"state m 0=1000\nstate c 6000\nstate s\n".as_slice();
    assert_eq!(rt; status, Status::Accepted);
    assert_eq!(rt; report.as_slice().starts_with(first), true);
    assert_eq!(rt; report.as_slice().ends_with(states), true);
    Ok(())
}

/// Arguments that are no command, after the program's own name.
const NO_COMMANDS: [&[&[u8]]; 20] = [
    &[b"pp_cli"],
    &[b"pp_cli", b"certify", b"certify"],
    &[b"pp_cli", b"certify", b"expand"],
    &[b"pp_cli", b"expand", b"x"],
    &[b"pp_cli", b"expan"],
    &[b"pp_cli", b"check"],
    &[b"pp_cli", b"drill", b"0"],
    &[b"pp_cli", b"drill", b"20001"],
    &[b"pp_cli", b"drill", b"007"],
    &[b"pp_cli", b"drill", b"+7"],
    &[b"pp_cli", b"drill"],
    &[b"pp_cli", b"drill", b"7", b"7"],
    &[b"pp_cli", b"focus"],
    &[b"pp_cli", b"focus", b""],
    &[b"pp_cli", b"focus", b"a b"],
    &[b"pp_cli", b"focus", &[b'c'; 25]],
    &[b"pp_cli", b"focus", b"c", b"c"],
    &[b"pp_cli", b""],
    &[b"pp_cli", b"certif\xff"],
    &[b"pp_cli", &[b'c'; 300]],
];

#[test]
fn other_words_read_and_write_nothing(rt: HostRuntime) -> Result<(), Fail> {
    let alloc = rt.alloc();
    for given in &NO_COMMANDS {
        let words = collect_words(alloc, &GivenWords { words: given })?.expect(&rt, "words");
        assert_eq!(rt; words.len() + 1, given.len());
        let mut source = MemorySource::new(added(alloc)?, Vec::new(alloc), Vec::new(alloc));
        let mut sink = MemorySink::new(alloc, 3, Vec::new(alloc));
        assert_eq!(rt;
            status_of(&words, &mut source, &mut sink, alloc),
            Status::BadWords
        );
        assert_eq!(rt; sink.held().len(), 0);
        let mut first = [0u8; 1];
        assert_eq!(rt; source.read(&mut first), Ok(1));
        assert_eq!(rt; first[0], b'{');
    }
    Ok(())
}

#[test]
fn a_failed_read_writes_nothing(rt: HostRuntime) -> Result<(), Fail> {
    let alloc = rt.alloc();
    for command in [b"certify".as_slice(), b"expand".as_slice()] {
        let input = added(alloc)?;
        let pieces = vec![in alloc; 1usize; input.len()]?;
        let source = MemorySource::new(input, pieces, vec![in alloc; 2u64]?);
        let sink = MemorySink::new(alloc, 8, Vec::new(alloc));
        let (status, report) = answered(alloc, command, source, sink)?;
        assert_eq!(rt; status, Status::ReadFault);
        assert_eq!(rt; report.len(), 0);
    }
    Ok(())
}

#[test]
fn a_failed_write_leaves_a_prefix(rt: HostRuntime) -> Result<(), Fail> {
    let alloc = rt.alloc();
    for (command, prefix) in [
        (b"certify".as_slice(), b"accepted".as_slice()),
        (b"expand".as_slice(), b"{\"object".as_slice()),
    ] {
        let source = MemorySource::new(added(alloc)?, Vec::new(alloc), Vec::new(alloc));
        let sink = MemorySink::new(alloc, 8, vec![in alloc; 1u64]?);
        let (status, report) = answered(alloc, command, source, sink)?;
        assert_eq!(rt; status, Status::WriteFault);
        assert_eq!(rt; report.as_slice(), prefix);
    }
    Ok(())
}
