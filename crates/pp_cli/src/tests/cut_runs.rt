//! A run that is cut after each of its bytes.
use crate::tests::{added, assert_answer, certified_bytes};
use pp_core::Status;
use std::test::Fail;

/// The report if this many of its lines are whole.
const WHOLE: [&[u8]; 6] = [
    b"fault line 1 NoHeader\n",
    b"accepted steps 0 committed 0\nstate c 0\n",
    b"accepted steps 1 committed 0\nstate c 0\n",
    b"accepted steps 2 committed 0\nstate c 0\n",
    b"accepted steps 3 committed 0\nstate c 0\n",
    b"accepted steps 4 committed 1\ntx t1\nop 1 c.add(2)=none\nstate c 2\n",
];

/// The report if the line after this many whole ones is cut.
const CUT: [&[u8]; 5] = [
    b"fault line 1 NotJson\n",
    b"fault line 2 NotJson\n",
    b"fault line 3 NotJson\n",
    b"fault line 4 NotJson\n",
    b"fault line 5 NotJson\n",
];

/// The status and the report for this many whole lines and the beginning of the next one. The next
/// line is cut, or whole without its line end.
fn answer_to(lines: usize, is_begun: bool, is_cut: bool) -> Option<(Status, &'static [u8])> {
    let report = match (is_begun, is_cut) {
        (true, true) => CUT.get(lines)?,
        (true, false) => WHOLE.get(lines.saturating_add(1))?,
        (false, _) => WHOLE.get(lines)?,
    };
    let status = if report.starts_with(b"accepted") {
        Status::Accepted
    } else {
        Status::InputFault
    };
    Some((status, report))
}

#[test]
fn a_run_may_be_cut_behind_each_byte(rt: HostRuntime) -> Result<(), Fail> {
    let alloc = rt.alloc();
    let mut input = added(alloc)?;
    input.extend_from_slice(b"\n")?;
    let mut lines = 0usize;
    let mut is_begun = false;
    for n in 0..input.len() {
        let ends = input[n] == b'\n';
        let (status, report) = answer_to(lines, is_begun, !ends).expect(&rt, "a line");
        let answer = certified_bytes(alloc, input[..n].to_vec(alloc)?, false)?;
        assert_answer(&rt, "a cut run", &answer, status, report);
        is_begun = !ends;
        if ends {
            lines = lines.saturating_add(1);
        }
    }
    Ok(())
}
