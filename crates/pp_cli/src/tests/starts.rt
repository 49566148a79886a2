//! Runs whose header is of version 2, with and without a start.
use crate::tests::row::Row;
use pp_core::Status;

/// The header of one counter, to which the transaction `t0` has added 7.
const STARTED: &[u8] =
    br#"{"run":2,"style":"rules","objects":[{"name":"c","kind":"counter"}],"start":{"tx":"t0","ops":[{"id":1,"on":"c","call":"add","args":[7],"result":null}]}}
"#;

/// The header of one counter, up to its start.
const BEFORE_START: &[u8] =
    br#"{"run":2,"style":"rules","objects":[{"name":"c","kind":"counter"}],"start":"#;

pub(crate) const STARTS: [Row; 26] = [
    Row {
        what: "version 2 without a start",
        header: b"",
        records: br#"{"run":2,"style":"rules","objects":[]}
"#,
        status: Status::Accepted,
        report: b"accepted steps 0 committed 0\n",
    },
    Row {
        what: "a start that is null",
        header: b"",
        records: br#"{"run":2,"style":"rules","objects":[],"start":null}
"#,
        status: Status::Accepted,
        report: b"accepted steps 0 committed 0\n",
    },
    Row {
        what: "a start in version 1",
        header: b"",
        records: br#"{"run":1,"style":"rules","objects":[],"start":7}
"#,
        status: Status::Accepted,
        report: b"accepted steps 0 committed 0\n",
    },
    Row {
        what: "a start without operations",
        header: b"",
        records: br#"{"run":2,"style":"rules","objects":[],"start":{"tx":"t0","ops":[]}}
"#,
        status: Status::Accepted,
        report: b"accepted steps 0 committed 1\ntx t0\n",
    },
    Row {
        what: "a start that is read",
        header: STARTED,
        records: br#"{"step":"begin","tx":"t1","thread":"p1"}
{"step":"pull","tx":"t1","id":1}
{"step":"app","tx":"t1","id":2,"on":"c","call":"get","args":[],"result":7}
{"step":"push","tx":"t1","id":2}
{"step":"cmt","tx":"t1"}
"#,
        status: Status::Accepted,
        report: b"accepted steps 5 committed 2\ntx t0\nop 1 c.add(7)=none\ntx t1\nop 2 c.get()=7\nstate c 7\n",
    },
    Row {
        what: "a start with a result that differs",
        header: b"",
        records: br#"{"run":2,"style":"rules","objects":[{"name":"c","kind":"counter"}],"start":{"tx":"t0","ops":[{"id":1,"on":"c","call":"add","args":[7],"result":null},{"id":2,"on":"c","call":"get","args":[],"result":6}]}}
"#,
        status: Status::Rejected,
        report: b"rejected step 0 line 1 START 2\nentry 2 gives 7\n",
    },
    Row {
        what: "a start with an id twice",
        header: b"",
        records: br#"{"run":2,"style":"rules","objects":[{"name":"c","kind":"counter"}],"start":{"tx":"t0","ops":[{"id":1,"on":"c","call":"add","args":[7],"result":null},{"id":1,"on":"c","call":"add","args":[7],"result":null}]}}
"#,
        status: Status::Rejected,
        report: b"rejected step 0 line 1 START 1\nentry 1\n",
    },
    Row {
        what: "an id twice is told before a result that differs, on the line of the header",
        header: b"\n",
        records: br#"{"run":2,"style":"rules","objects":[{"name":"c","kind":"counter"}],"start":{"tx":"t0","ops":[{"id":4,"on":"c","call":"get","args":[],"result":6},{"id":3,"on":"c","call":"get","args":[],"result":0},{"id":4,"on":"c","call":"get","args":[],"result":0}]}}
"#,
        status: Status::Rejected,
        report: b"rejected step 0 line 2 START 1\nentry 4\n",
    },
    Row {
        what: "the name of a start is begun",
        header: STARTED,
        records: br#"{"step":"begin","tx":"t0","thread":"p0"}
"#,
        status: Status::Rejected,
        report: b"rejected step 1 line 2 BEGIN 1\n",
    },
    Row {
        what: "the ids of a start are used",
        header: STARTED,
        records: br#"{"step":"begin","tx":"t1","thread":"p1"}
{"step":"app","tx":"t1","id":1,"on":"c","call":"add","args":[2],"result":null}
"#,
        status: Status::Rejected,
        report: b"rejected step 2 line 3 APP 2\n",
    },
    Row {
        what: "a fault behind a start that fails",
        header: b"",
        records: br#"{"run":2,"style":"rules","objects":[{"name":"c","kind":"counter"}],"start":{"tx":"t0","ops":[{"id":2,"on":"c","call":"get","args":[],"result":6}]}}
{"step":"begin","tx":"t1","thread":"p1"}
{"step":"begin","tx":"t2"}
"#,
        status: Status::InputFault,
        report: b"fault line 3 Missing(thread)\n",
    },
    Row {
        what: "a start that is no object",
        header: b"",
        records: br#"{"run":2,"style":"rules","objects":[],"start":[]}
"#,
        status: Status::InputFault,
        report: b"fault line 1 WrongType(start)\n",
    },
    Row {
        what: "a start without a name",
        header: BEFORE_START,
        records: br#"{"ops":7}}
"#,
        status: Status::InputFault,
        report: b"fault line 1 Missing(tx)\n",
    },
    Row {
        what: "a start with a number for its name",
        header: BEFORE_START,
        records: br#"{"tx":7,"ops":7}}
"#,
        status: Status::InputFault,
        report: b"fault line 1 WrongType(tx)\n",
    },
    Row {
        what: "a start with a name of no character",
        header: BEFORE_START,
        records: br#"{"tx":"","ops":7}}
"#,
        status: Status::InputFault,
        report: b"fault line 1 BadName(tx)\n",
    },
    Row {
        what: "a start without its operations",
        header: BEFORE_START,
        records: br#"{"tx":"t0"}}
"#,
        status: Status::InputFault,
        report: b"fault line 1 Missing(ops)\n",
    },
    Row {
        what: "a start with an object for its operations",
        header: BEFORE_START,
        records: br#"{"tx":"t0","ops":{}}}
"#,
        status: Status::InputFault,
        report: b"fault line 1 WrongType(ops)\n",
    },
    Row {
        what: "an element of a start that is no object",
        header: b"",
        records: br#"{"run":2,"style":"rules","objects":[],"start":{"tx":"t0","ops":[7]}}
"#,
        status: Status::InputFault,
        report: b"fault line 1 WrongType(ops)\n",
    },
    Row {
        what: "an element of a start without an id",
        header: b"",
        records: br#"{"run":2,"style":"rules","objects":[{"name":"c","kind":"counter"}],"start":{"tx":"t0","ops":[{"on":"d"}]}}
"#,
        status: Status::InputFault,
        report: b"fault line 1 Missing(id)\n",
    },
    Row {
        what: "an element of a start on an object that is not there",
        header: BEFORE_START,
        records: br#"{"tx":"t0","ops":[{"id":1,"on":"d","call":"add","args":[],"result":0}]}}
"#,
        status: Status::InputFault,
        report: b"fault line 1 UnknownObject\n",
    },
    Row {
        what: "an element of a start with a call that a counter does not have",
        header: BEFORE_START,
        records: br#"{"tx":"t0","ops":[{"id":1,"on":"c","call":"put","args":[],"result":0}]}}
"#,
        status: Status::InputFault,
        report: b"fault line 1 UnknownCall\n",
    },
    Row {
        what: "an element of a start with an argument too few",
        header: BEFORE_START,
        records: br#"{"tx":"t0","ops":[{"id":1,"on":"c","call":"add","args":[],"result":0}]}}
"#,
        status: Status::InputFault,
        report: b"fault line 1 WrongType(args)\n",
    },
    Row {
        what: "an element of a start with a result that an addition does not give",
        header: BEFORE_START,
        records: br#"{"tx":"t0","ops":[{"id":1,"on":"c","call":"add","args":[7],"result":0}]}}
"#,
        status: Status::InputFault,
        report: b"fault line 1 WrongType(result)\n",
    },
    Row {
        what: "the first element of a start that is no operation",
        header: BEFORE_START,
        records: br#"{"tx":"t0","ops":[{"id":1,"on":"c","call":"get","args":[],"result":0},{"id":-1},7]}}
"#,
        status: Status::InputFault,
        report: b"fault line 1 OutOfRange(id)\n",
    },
    Row {
        what: "an object of a header before its start",
        header: b"",
        records: br#"{"run":2,"style":"rules","objects":[7],"start":7}
"#,
        status: Status::InputFault,
        report: b"fault line 1 WrongType(objects)\n",
    },
    Row {
        what: "a start in another style",
        header: b"",
        records: br#"{"run":2,"style":"boosted","objects":[],"start":7}
"#,
        status: Status::InputFault,
        report: b"fault line 1 WrongType(start)\n",
    },
];
