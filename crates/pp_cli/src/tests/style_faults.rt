//! Inputs with a fault, in the styles whose records are whole calls and whole commits.
use crate::tests::row::{COUNTER, Row};
use pp_core::Status;

/// The header of one counter in style boosted.
const BOOSTED: &[u8] = br#"{"run":1,"style":"boosted","objects":[{"name":"c","kind":"counter"}]}
"#;

/// The header of one counter in style optimistic.
const OPTIMISTIC: &[u8] =
    br#"{"run":1,"style":"optimistic","objects":[{"name":"c","kind":"counter"}]}
"#;

/// The header of one counter in style hardware.
const HARDWARE: &[u8] = br#"{"run":1,"style":"hardware","objects":[{"name":"c","kind":"counter"}]}
"#;

/// The header of one counter in style dependent.
const DEPENDENT: &[u8] = br#"{"run":1,"style":"dependent","objects":[{"name":"c","kind":"counter"}]}
"#;

pub(crate) const STYLE_FAULTS: [Row; 22] = [
    Row {
        what: "a single step in style boosted",
        header: BOOSTED,
        records: br#"{"step":"app","tx":"t1","id":1,"on":"c","call":"add","args":[1],"result":null}
"#,
        status: Status::InputFault,
        report: b"fault line 2 UnknownStep\n",
    },
    Row {
        what: "a refresh in style boosted",
        header: BOOSTED,
        records: br#"{"step":"refresh","tx":"t1","on":"c"}
"#,
        status: Status::InputFault,
        report: b"fault line 2 UnknownStep\n",
    },
    Row {
        what: "a whole call without its transaction",
        header: BOOSTED,
        records: br#"{"step":"op","id":-1,"on":"d"}
"#,
        status: Status::InputFault,
        report: b"fault line 2 Missing(tx)\n",
    },
    Row {
        what: "a whole call with an id below 0",
        header: BOOSTED,
        records: br#"{"step":"op","tx":"t1","id":-1,"on":"d"}
"#,
        status: Status::InputFault,
        report: b"fault line 2 OutOfRange(id)\n",
    },
    Row {
        what: "a whole call with a result of another form",
        header: BOOSTED,
        records: br#"{"step":"op","tx":"t1","id":1,"on":"c","call":"add","args":[1],"result":1}
"#,
        status: Status::InputFault,
        report: b"fault line 2 WrongType(result)\n",
    },
    Row {
        what: "a whole commit without its transaction",
        header: BOOSTED,
        records: br#"{"step":"commit"}
"#,
        status: Status::InputFault,
        report: b"fault line 2 Missing(tx)\n",
    },
    Row {
        what: "a body that is a number",
        header: BOOSTED,
        records: br#"{"step":"begin","tx":"t1","thread":"p1","body":7}
"#,
        status: Status::InputFault,
        report: b"fault line 2 BodyBad\n",
    },
    Row {
        what: "a section in style optimistic",
        header: OPTIMISTIC,
        records: br#"{"step":"xbegin","tx":"t1"}
"#,
        status: Status::InputFault,
        report: b"fault line 2 UnknownStep\n",
    },
    Row {
        what: "a refresh without its transaction",
        header: OPTIMISTIC,
        records: br#"{"step":"refresh","on":"d"}
"#,
        status: Status::InputFault,
        report: b"fault line 2 Missing(tx)\n",
    },
    Row {
        what: "a refresh without its object",
        header: OPTIMISTIC,
        records: br#"{"step":"refresh","tx":"t1"}
"#,
        status: Status::InputFault,
        report: b"fault line 2 Missing(on)\n",
    },
    Row {
        what: "a refresh of an object that is a number",
        header: OPTIMISTIC,
        records: br#"{"step":"refresh","tx":"t1","on":7}
"#,
        status: Status::InputFault,
        report: b"fault line 2 WrongType(on)\n",
    },
    Row {
        what: "a refresh of an object that is not there",
        header: OPTIMISTIC,
        records: br#"{"step":"refresh","tx":"t1","on":"d"}
"#,
        status: Status::InputFault,
        report: b"fault line 2 UnknownObject\n",
    },
    Row {
        what: "a publication in style hardware",
        header: HARDWARE,
        records: br#"{"step":"publish","tx":"t1"}
"#,
        status: Status::InputFault,
        report: b"fault line 2 UnknownStep\n",
    },
    Row {
        what: "an end of a section of a number",
        header: HARDWARE,
        records: br#"{"step":"xend","tx":7}
"#,
        status: Status::InputFault,
        report: b"fault line 2 WrongType(tx)\n",
    },
    Row {
        what: "an abort of a section of no name",
        header: HARDWARE,
        records: br#"{"step":"xabort","tx":"a b"}
"#,
        status: Status::InputFault,
        report: b"fault line 2 BadName(tx)\n",
    },
    Row {
        what: "an end of a section in style dependent",
        header: DEPENDENT,
        records: br#"{"step":"xend","tx":"t1"}
"#,
        status: Status::InputFault,
        report: b"fault line 2 UnknownStep\n",
    },
    Row {
        what: "a source without its transaction",
        header: DEPENDENT,
        records: br#"{"step":"depend","source":7}
"#,
        status: Status::InputFault,
        report: b"fault line 2 Missing(tx)\n",
    },
    Row {
        what: "a record without its source",
        header: DEPENDENT,
        records: br#"{"step":"depend","tx":"t1"}
"#,
        status: Status::InputFault,
        report: b"fault line 2 Missing(source)\n",
    },
    Row {
        what: "a source that is a number",
        header: DEPENDENT,
        records: br#"{"step":"depend","tx":"t1","source":7}
"#,
        status: Status::InputFault,
        report: b"fault line 2 WrongType(source)\n",
    },
    Row {
        what: "a source that is no name",
        header: DEPENDENT,
        records: br#"{"step":"drop","tx":"t1","source":""}
"#,
        status: Status::InputFault,
        report: b"fault line 2 BadName(source)\n",
    },
    Row {
        what: "a publication without its transaction",
        header: DEPENDENT,
        records: br#"{"step":"publish"}
"#,
        status: Status::InputFault,
        report: b"fault line 2 Missing(tx)\n",
    },
    Row {
        what: "a source in style rules",
        header: COUNTER,
        records: br#"{"step":"depend","tx":"t2","source":"t1"}
"#,
        status: Status::InputFault,
        report: b"fault line 2 UnknownStep\n",
    },
];
