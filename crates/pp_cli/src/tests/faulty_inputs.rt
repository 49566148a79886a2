//! Inputs with a fault.
use crate::tests::row::{COUNTER, Row};
use pp_core::Status;

pub(crate) const FAULTY: [Row; 23] = [
    Row {
        what: "no byte",
        header: b"",
        records: b"",
        status: Status::InputFault,
        report: b"fault line 1 NoHeader\n",
    },
    Row {
        what: "blank lines alone",
        header: b"",
        records: b"\n\n\n",
        status: Status::InputFault,
        report: b"fault line 4 NoHeader\n",
    },
    Row {
        what: "a fault behind a rejection",
        header: COUNTER,
        records: br#"{"step":"begin","tx":"t1","thread":"p1"}
{"step":"app","tx":"t1","id":1,"on":"c","call":"get","args":[],"result":1}
oops
"#,
        status: Status::InputFault,
        report: b"fault line 4 NotJson\n",
    },
    Row {
        what: "a number past its limit",
        header: b"",
        records: b"{\"run\":1,\"style\":\"rules\",\"objects\":[{\"name\":\"c\",\"kind\":\"counter\"}]}\r\n{\"step\":\"begin\",\"tx\":\"t1\",\"thread\":\"p1\",\"at\":17}\r\n{\"step\":\"app\",\"tx\":\"t1\",\"id\":1,\"on\":\"c\",\"call\":\"add\",\"args\":[1000000000000000001],\"result\":null}\r\n{\"step\":\"push\",\"tx\":\"t1\",\"id\":1}\r\n{\"step\":\"cmt\",\"tx\":\"t1\"}\r\n",
        status: Status::InputFault,
        report: b"fault line 3 OutOfRange(args)\n",
    },
    Row {
        what: "a fraction",
        header: b"",
        records: b"{\"run\":1,\"style\":\"rules\",\"objects\":[{\"name\":\"c\",\"kind\":\"counter\"}]}\r\n{\"step\":\"begin\",\"tx\":\"t1\",\"thread\":\"p1\",\"at\":17}\r\n{\"step\":\"app\",\"tx\":\"t1\",\"id\":1,\"on\":\"c\",\"call\":\"add\",\"args\":[1.0],\"result\":null}\r\n{\"step\":\"push\",\"tx\":\"t1\",\"id\":1}\r\n{\"step\":\"cmt\",\"tx\":\"t1\"}\r\n",
        status: Status::InputFault,
        report: b"fault line 3 WrongType(args)\n",
    },
    Row {
        what: "a record that is no object",
        header: COUNTER,
        records: b"[1]\n",
        status: Status::InputFault,
        report: b"fault line 2 NotObject\n",
    },
    Row {
        what: "a record without a step",
        header: COUNTER,
        records: b"{}\n",
        status: Status::InputFault,
        report: b"fault line 2 Missing(step)\n",
    },
    Row {
        what: "a step that is no text",
        header: COUNTER,
        records: br#"{"step":1}
"#,
        status: Status::InputFault,
        report: b"fault line 2 WrongType(step)\n",
    },
    Row {
        what: "a step of another style",
        header: COUNTER,
        records: br#"{"step":"commit","tx":"t1"}
"#,
        status: Status::InputFault,
        report: b"fault line 2 UnknownStep\n",
    },
    Row {
        what: "a step without its transaction",
        header: COUNTER,
        records: br#"{"step":"cmt"}
"#,
        status: Status::InputFault,
        report: b"fault line 2 Missing(tx)\n",
    },
    Row {
        what: "a name with a space",
        header: COUNTER,
        records: br#"{"step":"cmt","tx":"a b"}
"#,
        status: Status::InputFault,
        report: b"fault line 2 BadName(tx)\n",
    },
    Row {
        what: "an id past its limit",
        header: COUNTER,
        records: br#"{"step":"push","tx":"t1","id":1000000000}
"#,
        status: Status::InputFault,
        report: b"fault line 2 OutOfRange(id)\n",
    },
    Row {
        what: "an object that is not there",
        header: COUNTER,
        records: br#"{"step":"app","tx":"t1","id":1,"on":"d"}
"#,
        status: Status::InputFault,
        report: b"fault line 2 UnknownObject\n",
    },
    Row {
        what: "a call of another kind",
        header: COUNTER,
        records: br#"{"step":"app","tx":"t1","id":1,"on":"c","call":"enq"}
"#,
        status: Status::InputFault,
        report: b"fault line 2 UnknownCall\n",
    },
    Row {
        what: "an argument too few",
        header: COUNTER,
        records: br#"{"step":"app","tx":"t1","id":1,"on":"c","call":"add","args":[],"result":null}
"#,
        status: Status::InputFault,
        report: b"fault line 2 WrongType(args)\n",
    },
    Row {
        what: "a result of another form",
        header: COUNTER,
        records: br#"{"step":"app","tx":"t1","id":1,"on":"c","call":"get","args":[],"result":true}
"#,
        status: Status::InputFault,
        report: b"fault line 2 WrongType(result)\n",
    },
    Row {
        what: "an alternative without parts",
        header: COUNTER,
        records: br#"{"step":"begin","tx":"t1","thread":"p1","body":{"alt":[]}}
"#,
        status: Status::InputFault,
        report: b"fault line 2 BodyBad\n",
    },
    Row {
        what: "a body with a node too many",
        header: COUNTER,
        records: br#"{"step":"begin","tx":"t1","thread":"p1","body":{"seq":[{"skip":true},{"skip":true},{"skip":true},{"skip":true},{"skip":true},{"skip":true},{"skip":true},{"skip":true},{"skip":true},{"skip":true},{"skip":true},{"skip":true},{"skip":true},{"skip":true},{"skip":true},{"skip":true},{"skip":true},{"skip":true},{"skip":true},{"skip":true},{"skip":true},{"skip":true},{"skip":true},{"skip":true},{"skip":true},{"skip":true},{"skip":true},{"skip":true},{"skip":true},{"skip":true},{"skip":true},{"skip":true},{"skip":true},{"skip":true},{"skip":true},{"skip":true},{"skip":true},{"skip":true},{"skip":true},{"skip":true},{"skip":true},{"skip":true},{"skip":true},{"skip":true},{"skip":true},{"skip":true},{"skip":true},{"skip":true},{"skip":true},{"skip":true},{"skip":true},{"skip":true},{"skip":true},{"skip":true},{"skip":true},{"skip":true},{"skip":true},{"skip":true},{"skip":true},{"skip":true},{"skip":true},{"skip":true},{"skip":true},{"skip":true}]}}
"#,
        status: Status::InputFault,
        report: b"fault line 2 BodyTooLarge\n",
    },
    Row {
        what: "another version",
        header: b"",
        records: br#"{"run":3,"style":"rules","objects":[]}
"#,
        status: Status::InputFault,
        report: b"fault line 1 OutOfRange(run)\n",
    },
    Row {
        what: "an unknown style",
        header: b"",
        records: br#"{"run":1,"style":"lazy","objects":[]}
"#,
        status: Status::InputFault,
        report: b"fault line 1 UnknownStyle\n",
    },
    Row {
        what: "an unknown kind",
        header: b"",
        records: br#"{"run":1,"style":"rules","objects":[{"name":"c","kind":"heap"}]}
"#,
        status: Status::InputFault,
        report: b"fault line 1 UnknownKind\n",
    },
    Row {
        what: "two objects of one name",
        header: b"",
        records: br#"{"run":1,"style":"rules","objects":[{"name":"c","kind":"counter"},{"name":"c","kind":"counter"}]}
"#,
        status: Status::InputFault,
        report: b"fault line 1 RepeatedObject\n",
    },
    Row {
        what: "a whole call in style rules",
        header: COUNTER,
        records: br#"{"step":"op","tx":"t1","id":1,"on":"c","call":"add","args":[1],"result":null}
"#,
        status: Status::InputFault,
        report: b"fault line 2 UnknownStep\n",
    },
];
