//! Inputs that are restricted to one of their objects, line for line.
use crate::tests::row::Row;
use crate::tests::{assert_answer, input_of, status_of};
use pp_core::{Status, Words};
use pp_input::{MemorySink, MemorySource};
use std::alloc::Global;
use std::test::Fail;

/// The name of an object, and what `focus` prints for it and an input.
struct FocusedRow {
    name: &'static [u8],
    row: Row,
}

/// The header of a counter and a set.
const COUNTER_AND_SET: &[u8] =
    br#"{"run":1,"style":"boosted","objects":[{"name":"c","kind":"counter"},{"name":"s","kind":"set"}]}
"#;

const FOCUSED: [FocusedRow; 9] = [
    FocusedRow {
        name: b"c",
        row: Row {
            what: "a begin loses its body, and an operation of another object leaves",
            header: COUNTER_AND_SET,
            records: br#"{"step":"begin","tx":"t1","thread":"p1","body":{"star":{"on":"c","call":"add","args":[null]}}}

{"step":"op","tx":"t1","id":1,"on":"s","call":"add","args":[5],"result":true}
  
{"step":"op","tx":"t1","id":2,"on":"c","call":"add","args":[2],"result":null}
{"step":"commit","tx":"t1"}
"#,
            status: Status::Accepted,
            report: br#"{"objects":[{"kind":"counter","name":"c"}],"run":1,"style":"boosted"}
{"step":"begin","thread":"p1","tx":"t1"}


  
{"step":"op","tx":"t1","id":2,"on":"c","call":"add","args":[2],"result":null}
{"step":"commit","tx":"t1"}
"#,
        },
    },
    FocusedRow {
        name: b"m",
        row: Row {
            what: "the steps of ids leave with the operations, and unknown ids stay",
            header: br#"{"run":2,"style":"rules","objects":[{"name":"c","kind":"counter"},{"name":"m","kind":"mem"}],"start":{"tx":"t0","ops":[{"id":1,"on":"c","call":"add","args":[4],"result":null},{"id":2,"on":"m","call":"write","args":[0,7],"result":null}]}}
"#,
            records: br#"{"step":"begin","tx":"t1","thread":"p1"}
{"step":"pull","tx":"t1","id":1}
{"step":"pull","tx":"t1","id":2}
{"step":"app","tx":"t1","id":3,"on":"m","call":"read","args":[0],"result":7}
{"step":"push","tx":"t1","id":3}
{"step":"push","tx":"t1","id":9}
{"step":"cmt","tx":"t1"}
"#,
            status: Status::Accepted,
            report: br#"{"objects":[{"kind":"mem","name":"m"}],"run":2,"start":{"ops":[{"args":[0,7],"call":"write","id":2,"on":"m","result":null}],"tx":"t0"},"style":"rules"}
{"step":"begin","thread":"p1","tx":"t1"}

{"step":"pull","tx":"t1","id":2}
{"step":"app","tx":"t1","id":3,"on":"m","call":"read","args":[0],"result":7}
{"step":"push","tx":"t1","id":3}
{"step":"push","tx":"t1","id":9}
{"step":"cmt","tx":"t1"}
"#,
        },
    },
    FocusedRow {
        name: b"a.b-c_4",
        row: Row {
            what: "a refresh of another object leaves, and the last line gets its end",
            header: br#"{"run":1,"style":"optimistic","objects":[{"name":"m","kind":"mem"},{"name":"a.b-c_4","kind":"mem"}]}
"#,
            records: br#"{"step":"begin","tx":"t1","thread":"p1"}
{"step":"refresh","tx":"t1","on":"m"}
{"step":"refresh","tx":"t1","on":"a.b-c_4"}
{"step":"retry","tx":"t1"}"#,
            status: Status::Accepted,
            report: br#"{"objects":[{"kind":"mem","name":"a.b-c_4"}],"run":1,"style":"optimistic"}
{"step":"begin","thread":"p1","tx":"t1"}

{"step":"refresh","tx":"t1","on":"a.b-c_4"}
{"step":"retry","tx":"t1"}
"#,
        },
    },
    FocusedRow {
        name: b"s",
        row: Row {
            what: "a record that no transaction began is kept",
            header: COUNTER_AND_SET,
            records: br#"{"step":"op","tx":"t9","id":1,"on":"c","call":"add","args":[2],"result":null}
{"step":"commit","tx":"t9"}
"#,
            status: Status::Accepted,
            report: br#"{"objects":[{"kind":"set","name":"s"}],"run":1,"style":"boosted"}

{"step":"commit","tx":"t9"}
"#,
        },
    },
    FocusedRow {
        name: b"c",
        row: Row {
            what: "one byte 13 at the end of a line leaves, and two stay",
            header: COUNTER_AND_SET,
            records: b"{\"step\":\"begin\",\"tx\":\"t1\",\"thread\":\"p1\"}\r\r\n\
\r\n\
{\"step\":\"op\",\"tx\":\"t1\",\"id\":1,\"on\":\"s\",\"call\":\"add\",\"args\":[5],\"result\":true}\r\r\n\
{\"step\":\"op\",\"tx\":\"t1\",\"id\":2,\"on\":\"c\",\"call\":\"add\",\"args\":[2],\"result\":null}\r\n\
{\"step\":\"op\",\"tx\":\"t1\",\"id\":3,\"on\":\"c\",\"call\":\"add\",\"args\":[2],\"result\":null}\r\r\n\
{\"step\":\"commit\",\"tx\":\"t1\"}\r\r\n",
            status: Status::Accepted,
            report: b"{\"objects\":[{\"kind\":\"counter\",\"name\":\"c\"}],\"run\":1,\"style\":\"boosted\"}\n\
{\"step\":\"begin\",\"thread\":\"p1\",\"tx\":\"t1\"}\n\
\n\
\n\
{\"step\":\"op\",\"tx\":\"t1\",\"id\":2,\"on\":\"c\",\"call\":\"add\",\"args\":[2],\"result\":null}\n\
{\"step\":\"op\",\"tx\":\"t1\",\"id\":3,\"on\":\"c\",\"call\":\"add\",\"args\":[2],\"result\":null}\r\r\n\
{\"step\":\"commit\",\"tx\":\"t1\"}\r\r\n",
        },
    },
    FocusedRow {
        name: b"s",
        row: Row {
            what: "a header that ends in bytes 13, and a last line without an end",
            header: b"{\"run\":1,\"style\":\"boosted\",\"objects\":[{\"name\":\"s\",\"kind\":\"set\"}]}\r\r\n",
            records: b"{\"step\":\"commit\",\"tx\":\"t9\"}\r\r",
            status: Status::Accepted,
            report: b"{\"objects\":[{\"kind\":\"set\",\"name\":\"s\"}],\"run\":1,\"style\":\"boosted\"}\n\
{\"step\":\"commit\",\"tx\":\"t9\"}\r\r\n",
        },
    },
    FocusedRow {
        name: b"x",
        row: Row {
            what: "an object that the header does not have",
            header: b"\n",
            records: br#"{"run":1,"style":"rules","objects":[{"name":"c","kind":"counter"}]}
{"step":"begin","tx":"t1","thread":"p1"}
"#,
            status: Status::InputFault,
            report: b"fault line 2 UnknownObject\n",
        },
    },
    FocusedRow {
        name: b"x",
        row: Row {
            what: "a later fault comes before an object that the header does not have",
            header: COUNTER_AND_SET,
            records: b"{}\n",
            status: Status::InputFault,
            report: b"fault line 2 Missing(step)\n",
        },
    },
    FocusedRow {
        name: b"c",
        row: Row {
            what: "no header",
            header: b"",
            records: b"",
            status: Status::InputFault,
            report: b"fault line 1 NoHeader\n",
        },
    },
];

/// The arguments of `focus` for this name.
fn focus_words(alloc: Global, name: &[u8]) -> Result<Words, Fail> {
    let mut words = Words::new(alloc);
    words.push(b"focus")?;
    words.push(name)?;
    Ok(words)
}

#[test]
fn restrictions_are_line_for_line(rt: HostRuntime) -> Result<(), Fail> {
    let alloc = rt.alloc();
    for focused in &FOCUSED {
        let row = &focused.row;
        let words = focus_words(alloc, focused.name)?;
        let input = input_of(alloc, row)?;
        let pieces = vec![in alloc; 1usize; input.len()]?;
        let mut source = MemorySource::new(input, pieces, Vec::new(alloc));
        let mut sink = MemorySink::new(alloc, 3, Vec::new(alloc));
        let status = status_of(&words, &mut source, &mut sink, alloc);
        let answer = (status, sink.held().to_vec(alloc)?);
        assert_answer(&rt, row.what, &answer, row.status, row.report);
    }
    Ok(())
}

#[test]
fn a_failed_read_prints_no_restriction(rt: HostRuntime) -> Result<(), Fail> {
    let alloc = rt.alloc();
    let words = focus_words(alloc, b"c")?;
    let input = COUNTER_AND_SET.to_vec(alloc)?;
    let mut source = MemorySource::new(input, Vec::new(alloc), vec![in alloc; 1u64]?);
    let mut sink = MemorySink::new(alloc, 8, Vec::new(alloc));
    let status = status_of(&words, &mut source, &mut sink, alloc);
    assert_eq!(rt; status, Status::ReadFault);
    assert_eq!(rt; sink.held().len(), 0);
    Ok(())
}
