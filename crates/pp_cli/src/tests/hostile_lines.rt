//! Lines that no recorder writes.
use crate::tests::row::{COUNTER, Row};
use pp_core::Status;

pub(crate) const HOSTILE: [Row; 6] = [
    Row {
        what: "a byte that is no text",
        header: COUNTER,
        records: b"\xff\n",
        status: Status::InputFault,
        report: b"fault line 2 NotJson\n",
    },
    Row {
        what: "brackets in brackets",
        header: COUNTER,
        records: b"[[[[[[[[[[[[[[[[[[[[[[[[[[[[[[[[[[[[[[[[[[[[[[[[[[[[[[[[[[[[[[[[[[[[[[[[[[[[[[[[[[[[[[[[[[[[[[[[[[[[[[[[[[[[[[[[[[[[[[[[[[[[[[[[[[[[[[[[[[[[[[[[[[[[[[[[[[[[[[[[[[[[[[[[[[[[[[[[[[[[[[[[[[[[[[[[[[[[[[[[]]]]]]]]]]]]]]]]]]]]]]]]]]]]]]]]]]]]]]]]]]]]]]]]]]]]]]]]]]]]]]]]]]]]]]]]]]]]]]]]]]]]]]]]]]]]]]]]]]]]]]]]]]]]]]]]]]]]]]]]]]]]]]]]]]]]]]]]]]]]]]]]]]]]]]]]]]]]]]]]]]]]]]]]]]]]]]]]]]]]]]]]]]]]]]]]]]]]]]]]\n",
        status: Status::InputFault,
        report: b"fault line 2 NotJson\n",
    },
    Row {
        what: "a name with a letter too many",
        header: COUNTER,
        records: br#"{"step":"cmt","tx":"aaaaaaaaaaaaaaaaaaaaaaaaa"}
"#,
        status: Status::InputFault,
        report: b"fault line 2 BadName(tx)\n",
    },
    Row {
        what: "a name of a byte 0",
        header: COUNTER,
        records: br#"{"step":"cmt","tx":"\u0000"}
"#,
        status: Status::InputFault,
        report: b"fault line 2 BadName(tx)\n",
    },
    Row {
        what: "the deepest body",
        header: COUNTER,
        records: br#"{"step":"begin","tx":"t1","thread":"p1","body":{"star":{"star":{"star":{"star":{"star":{"star":{"star":{"star":{"star":{"star":{"star":{"star":{"star":{"star":{"star":{"on":"c","call":"add","args":[null]}}}}}}}}}}}}}}}}}
"#,
        status: Status::Accepted,
        report: b"accepted steps 1 committed 0\nstate c 0\n",
    },
    Row {
        what: "a body that is too deep",
        header: COUNTER,
        records: br#"{"step":"begin","tx":"t1","thread":"p1","body":{"star":{"star":{"star":{"star":{"star":{"star":{"star":{"star":{"star":{"star":{"star":{"star":{"star":{"star":{"star":{"star":{"on":"c","call":"add","args":[null]}}}}}}}}}}}}}}}}}}
"#,
        status: Status::InputFault,
        report: b"fault line 2 BodyTooLarge\n",
    },
];
