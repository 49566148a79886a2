//! Runs that are rejected, with their reports.
use crate::tests::row::{COUNTER, MEMORY, PRIORITY_QUEUE, QUEUE, Row, STACK};
use pp_core::Status;

pub(crate) const REJECTED: [Row; 35] = [
    Row {
        what: "a result that no counter gives",
        header: COUNTER,
        records: br#"{"step":"begin","tx":"t1","thread":"p1"}
{"step":"app","tx":"t1","id":1,"on":"c","call":"get","args":[],"result":1}
"#,
        status: Status::Rejected,
        report: br#"rejected step 2 line 3 APP 4
entry 1 gives 0
"#,
    },
    Row {
        what: "two transactions that write other numbers",
        header: MEMORY,
        records: br#"{"step":"begin","tx":"t1","thread":"p1"}
{"step":"begin","tx":"t2","thread":"p2"}
{"step":"app","tx":"t1","id":1,"on":"m","call":"write","args":[0,5],"result":null}
{"step":"push","tx":"t1","id":1}
{"step":"app","tx":"t2","id":2,"on":"m","call":"write","args":[0,6],"result":null}
{"step":"push","tx":"t2","id":2}
{"step":"cmt","tx":"t2"}
{"step":"cmt","tx":"t1"}
"#,
        status: Status::Rejected,
        report: br#"rejected step 6 line 7 PUSH 4
entry 1
before
after m.read(0)=6
"#,
    },
    Row {
        what: "a read of what an uncommitted write puts there too",
        header: MEMORY,
        records: br#"{"step":"begin","tx":"t0","thread":"p0"}
{"step":"app","tx":"t0","id":1,"on":"m","call":"write","args":[0,5],"result":null}
{"step":"push","tx":"t0","id":1}
{"step":"cmt","tx":"t0"}
{"step":"begin","tx":"t1","thread":"p1"}
{"step":"app","tx":"t1","id":2,"on":"m","call":"write","args":[0,5],"result":null}
{"step":"push","tx":"t1","id":2}
{"step":"begin","tx":"t2","thread":"p2"}
{"step":"pull","tx":"t2","id":1}
{"step":"app","tx":"t2","id":3,"on":"m","call":"read","args":[0],"result":5}
{"step":"push","tx":"t2","id":3}
"#,
        status: Status::Rejected,
        report: br#"rejected step 11 line 12 PUSH 4
entry 2
before m.write(0,0)=none
after
"#,
    },
    Row {
        what: "an item that might be the uncommitted one",
        header: QUEUE,
        records: br#"{"step":"begin","tx":"t0","thread":"p0"}
{"step":"app","tx":"t0","id":1,"on":"q","call":"enq","args":[3],"result":null}
{"step":"push","tx":"t0","id":1}
{"step":"cmt","tx":"t0"}
{"step":"begin","tx":"t1","thread":"p1"}
{"step":"app","tx":"t1","id":2,"on":"q","call":"enq","args":[3],"result":null}
{"step":"push","tx":"t1","id":2}
{"step":"begin","tx":"t2","thread":"p2"}
{"step":"pull","tx":"t2","id":1}
{"step":"app","tx":"t2","id":3,"on":"q","call":"deq","args":[],"result":3}
{"step":"push","tx":"t2","id":3}
{"step":"cmt","tx":"t2"}
{"step":"cmt","tx":"t1"}
"#,
        status: Status::Rejected,
        report: br#"rejected step 11 line 12 PUSH 4
entry 2
before
after
"#,
    },
    Row {
        what: "a read that the shared log does not give",
        header: MEMORY,
        records: br#"{"step":"begin","tx":"t0","thread":"p0"}
{"step":"app","tx":"t0","id":1,"on":"m","call":"write","args":[0,6],"result":null}
{"step":"push","tx":"t0","id":1}
{"step":"cmt","tx":"t0"}
{"step":"begin","tx":"t1","thread":"p1"}
{"step":"app","tx":"t1","id":2,"on":"m","call":"write","args":[0,5],"result":null}
{"step":"push","tx":"t1","id":2}
{"step":"begin","tx":"t2","thread":"p2"}
{"step":"pull","tx":"t2","id":1}
{"step":"app","tx":"t2","id":3,"on":"m","call":"read","args":[0],"result":6}
{"step":"push","tx":"t2","id":3}
"#,
        status: Status::Rejected,
        report: br#"rejected step 11 line 12 PUSH 5
entry 3 gives 5
"#,
    },
    Row {
        what: "a read published before the addition that it saw",
        header: COUNTER,
        records: br#"{"step":"begin","tx":"t1","thread":"p1"}
{"step":"app","tx":"t1","id":1,"on":"c","call":"add","args":[1],"result":null}
{"step":"app","tx":"t1","id":2,"on":"c","call":"get","args":[],"result":1}
{"step":"push","tx":"t1","id":2}
"#,
        status: Status::Rejected,
        report: br#"rejected step 4 line 5 PUSH 3
entry 1
before c.add(1)=none
after
"#,
    },
    Row {
        what: "a call that the body has not",
        header: COUNTER,
        records: br#"{"step":"begin","tx":"t1","thread":"p1","body":{"star":{"on":"c","call":"add","args":[null]}}}
{"step":"app","tx":"t1","id":1,"on":"c","call":"add","args":[1],"result":null}
{"step":"app","tx":"t1","id":2,"on":"c","call":"get","args":[],"result":1}
"#,
        status: Status::Rejected,
        report: b"rejected step 3 line 4 APP 3\n",
    },
    Row {
        what: "a commit before the body ends",
        header: COUNTER,
        records: br#"{"step":"begin","tx":"t1","thread":"p1","body":{"seq":[{"on":"c","call":"add","args":[null]},{"on":"c","call":"get","args":[]}]}}
{"step":"app","tx":"t1","id":1,"on":"c","call":"add","args":[1],"result":null}
{"step":"push","tx":"t1","id":1}
{"step":"cmt","tx":"t1"}
"#,
        status: Status::Rejected,
        report: b"rejected step 4 line 5 CMT 2\n",
    },
    Row {
        what: "a commit on what is not committed",
        header: COUNTER,
        records: br#"{"step":"begin","tx":"t1","thread":"p1"}
{"step":"app","tx":"t1","id":1,"on":"c","call":"add","args":[1],"result":null}
{"step":"push","tx":"t1","id":1}
{"step":"begin","tx":"t2","thread":"p2"}
{"step":"pull","tx":"t2","id":1}
{"step":"cmt","tx":"t2"}
"#,
        status: Status::Rejected,
        report: br#"rejected step 6 line 7 CMT 4
entry 1
"#,
    },
    Row {
        what: "a name that was begun before",
        header: COUNTER,
        records: br#"{"step":"begin","tx":"t1","thread":"p1"}
{"step":"begin","tx":"t1","thread":"p2"}
"#,
        status: Status::Rejected,
        report: b"rejected step 2 line 3 BEGIN 1\n",
    },
    Row {
        what: "a thread that is busy",
        header: COUNTER,
        records: br#"{"step":"begin","tx":"t1","thread":"p1"}
{"step":"begin","tx":"t2","thread":"p1"}
"#,
        status: Status::Rejected,
        report: b"rejected step 2 line 3 BEGIN 2\n",
    },
    Row {
        what: "a call of a transaction that is not open",
        header: COUNTER,
        records: br#"{"step":"app","tx":"t1","id":1,"on":"c","call":"add","args":[1],"result":null}
"#,
        status: Status::Rejected,
        report: b"rejected step 1 line 2 APP 1\n",
    },
    Row {
        what: "a push of an unknown id",
        header: COUNTER,
        records: br#"{"step":"begin","tx":"t1","thread":"p1"}
{"step":"push","tx":"t1","id":1}
"#,
        status: Status::Rejected,
        report: b"rejected step 2 line 3 PUSH 2\n",
    },
    Row {
        what: "a push over an own write",
        header: MEMORY,
        records: br#"{"step":"begin","tx":"t1","thread":"p1"}
{"step":"app","tx":"t1","id":1,"on":"m","call":"write","args":[0,1],"result":null}
{"step":"app","tx":"t1","id":2,"on":"m","call":"write","args":[0,2],"result":null}
{"step":"push","tx":"t1","id":2}
"#,
        status: Status::Rejected,
        report: br#"rejected step 4 line 5 PUSH 3
entry 1
before
after m.read(0)=1
"#,
    },
    Row {
        what: "a pull of an unknown id",
        header: COUNTER,
        records: br#"{"step":"begin","tx":"t1","thread":"p1"}
{"step":"pull","tx":"t1","id":9}
"#,
        status: Status::Rejected,
        report: b"rejected step 2 line 3 PULL 2\n",
    },
    Row {
        what: "a second pull of an operation",
        header: COUNTER,
        records: br#"{"step":"begin","tx":"t0","thread":"p0"}
{"step":"app","tx":"t0","id":1,"on":"c","call":"add","args":[1],"result":null}
{"step":"push","tx":"t0","id":1}
{"step":"cmt","tx":"t0"}
{"step":"begin","tx":"t1","thread":"p1"}
{"step":"pull","tx":"t1","id":1}
{"step":"pull","tx":"t1","id":1}
"#,
        status: Status::Rejected,
        report: b"rejected step 7 line 8 PULL 3\n",
    },
    Row {
        what: "a pull that the local log does not allow",
        header: COUNTER,
        records: br#"{"step":"begin","tx":"t0","thread":"p0"}
{"step":"app","tx":"t0","id":1,"on":"c","call":"add","args":[1],"result":null}
{"step":"app","tx":"t0","id":2,"on":"c","call":"get","args":[],"result":1}
{"step":"push","tx":"t0","id":1}
{"step":"push","tx":"t0","id":2}
{"step":"cmt","tx":"t0"}
{"step":"begin","tx":"t1","thread":"p1"}
{"step":"pull","tx":"t1","id":2}
"#,
        status: Status::Rejected,
        report: br#"rejected step 8 line 9 PULL 4
entry 2 gives 0
"#,
    },
    Row {
        what: "a pull over an own read",
        header: COUNTER,
        records: br#"{"step":"begin","tx":"t0","thread":"p0"}
{"step":"app","tx":"t0","id":1,"on":"c","call":"add","args":[1],"result":null}
{"step":"push","tx":"t0","id":1}
{"step":"cmt","tx":"t0"}
{"step":"begin","tx":"t1","thread":"p1"}
{"step":"app","tx":"t1","id":2,"on":"c","call":"get","args":[],"result":0}
{"step":"pull","tx":"t1","id":1}
"#,
        status: Status::Rejected,
        report: br#"rejected step 7 line 8 PULL 5
entry 2
before
after
"#,
    },
    Row {
        what: "a quit with a log that is not empty",
        header: COUNTER,
        records: br#"{"step":"begin","tx":"t1","thread":"p1"}
{"step":"app","tx":"t1","id":1,"on":"c","call":"add","args":[1],"result":null}
{"step":"quit","tx":"t1"}
"#,
        status: Status::Rejected,
        report: br#"rejected step 3 line 4 QUIT 2
entry 1
"#,
    },
    Row {
        what: "a note of a transaction that is not open",
        header: COUNTER,
        records: br#"{"step":"note","tx":"t1"}
"#,
        status: Status::Rejected,
        report: b"rejected step 1 line 2 NOTE 1\n",
    },
    Row {
        what: "a context of two additions",
        header: COUNTER,
        records: br#"{"step":"begin","tx":"t1","thread":"p1"}
{"step":"app","tx":"t1","id":1,"on":"c","call":"add","args":[-1000000000000000000],"result":null}
{"step":"push","tx":"t1","id":1}
{"step":"begin","tx":"t2","thread":"p2"}
{"step":"app","tx":"t2","id":2,"on":"c","call":"add","args":[1000000000000000000],"result":null}
{"step":"push","tx":"t2","id":2}
{"step":"app","tx":"t2","id":3,"on":"c","call":"get","args":[],"result":1000000000000000000}
{"step":"push","tx":"t2","id":3}
"#,
        status: Status::Rejected,
        report: br#"rejected step 8 line 9 PUSH 4
entry 1
before c.add(1000000000000000000)=none c.add(1000000000000000000)=none
after
"#,
    },
    Row {
        what: "a read that a commit made old",
        header: b"",
        records: br#"{"objects":[{"kind":"mem","name":"m"}],"run":1,"style":"rules"}
{"step":"begin","thread":"p1","tx":"t1"}
{"args":[0],"call":"read","id":1,"on":"m","result":0,"step":"app","tx":"t1"}
{"step":"begin","thread":"p2","tx":"t2"}
{"args":[0,1],"call":"write","id":2,"on":"m","result":null,"step":"app","tx":"t2"}
{"id":2,"step":"push","tx":"t2"}
{"step":"cmt","tx":"t2"}
{"id":1,"step":"push","tx":"t1"}
"#,
        status: Status::Rejected,
        report: br#"rejected step 7 line 8 PUSH 5
entry 1 gives 1
"#,
    },
    Row {
        what: "a write that is withdrawn before the one behind it",
        header: MEMORY,
        records: br#"{"step":"begin","tx":"t1","thread":"p1"}
{"step":"app","tx":"t1","id":1,"on":"m","call":"write","args":[0,1],"result":null}
{"step":"app","tx":"t1","id":2,"on":"m","call":"write","args":[0,2],"result":null}
{"step":"push","tx":"t1","id":1}
{"step":"push","tx":"t1","id":2}
{"step":"unpush","tx":"t1","id":1}
"#,
        status: Status::Rejected,
        report: br#"rejected step 6 line 7 UNPUSH 3
entry 2
before
after m.read(0)=1
"#,
    },
    Row {
        what: "a commit of a read that was not published, of a write that was withdrawn",
        header: MEMORY,
        records: br#"{"step":"begin","tx":"t1","thread":"p1"}
{"step":"app","tx":"t1","id":1,"on":"m","call":"write","args":[0,7],"result":null}
{"step":"push","tx":"t1","id":1}
{"step":"begin","tx":"t2","thread":"p2"}
{"step":"pull","tx":"t2","id":1}
{"step":"app","tx":"t2","id":2,"on":"m","call":"read","args":[0],"result":7}
{"step":"unpush","tx":"t1","id":1}
{"step":"unapp","tx":"t1","id":1}
{"step":"cmt","tx":"t2"}
"#,
        status: Status::Rejected,
        report: br#"rejected step 9 line 10 CMT 3
entry 2
"#,
    },
    Row {
        what: "a commit on a write that was withdrawn",
        header: MEMORY,
        records: br#"{"step":"begin","tx":"t1","thread":"p1"}
{"step":"app","tx":"t1","id":1,"on":"m","call":"write","args":[0,7],"result":null}
{"step":"push","tx":"t1","id":1}
{"step":"begin","tx":"t2","thread":"p2"}
{"step":"pull","tx":"t2","id":1}
{"step":"app","tx":"t2","id":2,"on":"m","call":"read","args":[0],"result":7}
{"step":"unpush","tx":"t1","id":1}
{"step":"unapp","tx":"t1","id":1}
{"step":"unapp","tx":"t2","id":2}
{"step":"cmt","tx":"t2"}
"#,
        status: Status::Rejected,
        report: br#"rejected step 10 line 11 CMT 4
entry 1
"#,
    },
    Row {
        what: "an id that was taken back and is used again",
        header: COUNTER,
        records: br#"{"step":"begin","tx":"t1","thread":"p1"}
{"step":"app","tx":"t1","id":1,"on":"c","call":"add","args":[1],"result":null}
{"step":"unapp","tx":"t1","id":1}
{"step":"app","tx":"t1","id":1,"on":"c","call":"add","args":[1],"result":null}
"#,
        status: Status::Rejected,
        report: b"rejected step 4 line 5 APP 2\n",
    },
    Row {
        what: "an unapp in an empty log",
        header: COUNTER,
        records: br#"{"step":"begin","tx":"t1","thread":"p1"}
{"step":"unapp","tx":"t1","id":1}
"#,
        status: Status::Rejected,
        report: b"rejected step 2 line 3 UNAPP 2\n",
    },
    Row {
        what: "an unpush of what is not published",
        header: COUNTER,
        records: br#"{"step":"begin","tx":"t1","thread":"p1"}
{"step":"app","tx":"t1","id":1,"on":"c","call":"add","args":[1],"result":null}
{"step":"unpush","tx":"t1","id":1}
"#,
        status: Status::Rejected,
        report: b"rejected step 3 line 4 UNPUSH 2\n",
    },
    Row {
        what: "a write that is withdrawn before the read that saw it",
        header: MEMORY,
        records: br#"{"step":"begin","tx":"t1","thread":"p1"}
{"step":"app","tx":"t1","id":1,"on":"m","call":"write","args":[0,5],"result":null}
{"step":"app","tx":"t1","id":2,"on":"m","call":"read","args":[0],"result":5}
{"step":"push","tx":"t1","id":1}
{"step":"push","tx":"t1","id":2}
{"step":"unpush","tx":"t1","id":1}
"#,
        status: Status::Rejected,
        report: br#"rejected step 6 line 7 UNPUSH 4
entry 2 gives 0
"#,
    },
    Row {
        what: "an unpull of an unknown id",
        header: COUNTER,
        records: br#"{"step":"begin","tx":"t1","thread":"p1"}
{"step":"unpull","tx":"t1","id":1}
"#,
        status: Status::Rejected,
        report: b"rejected step 2 line 3 UNPULL 2\n",
    },
    Row {
        what: "a pull that is given up before the read that saw it",
        header: COUNTER,
        records: br#"{"step":"begin","tx":"t0","thread":"p0"}
{"step":"app","tx":"t0","id":1,"on":"c","call":"add","args":[1],"result":null}
{"step":"push","tx":"t0","id":1}
{"step":"cmt","tx":"t0"}
{"step":"begin","tx":"t1","thread":"p1"}
{"step":"pull","tx":"t1","id":1}
{"step":"app","tx":"t1","id":2,"on":"c","call":"get","args":[],"result":1}
{"step":"unpull","tx":"t1","id":1}
"#,
        status: Status::Rejected,
        report: br#"rejected step 8 line 9 UNPULL 3
entry 2 gives 0
"#,
    },
    Row {
        what: "a compare-and-swap that fails on what an uncommitted one put",
        header: MEMORY,
        records: br#"{"step":"begin","tx":"t1","thread":"p1"}
{"step":"app","tx":"t1","id":1,"on":"m","call":"cas","args":[0,0,5],"result":true}
{"step":"push","tx":"t1","id":1}
{"step":"begin","tx":"t2","thread":"p2"}
{"step":"pull","tx":"t2","id":1}
{"step":"app","tx":"t2","id":2,"on":"m","call":"cas","args":[0,0,9],"result":false}
{"step":"push","tx":"t2","id":2}
"#,
        status: Status::Rejected,
        report: br#"rejected step 7 line 8 PUSH 4
entry 1
before m.write(0,0)=none
after
"#,
    },
    Row {
        what: "a write of what an uncommitted compare-and-swap did not find",
        header: MEMORY,
        records: br#"{"step":"begin","tx":"t1","thread":"p1"}
{"step":"app","tx":"t1","id":1,"on":"m","call":"cas","args":[0,5,1],"result":false}
{"step":"push","tx":"t1","id":1}
{"step":"begin","tx":"t2","thread":"p2"}
{"step":"app","tx":"t2","id":2,"on":"m","call":"write","args":[0,5],"result":null}
{"step":"push","tx":"t2","id":2}
"#,
        status: Status::Rejected,
        report: br#"rejected step 6 line 7 PUSH 4
entry 1
before m.write(0,0)=none
after
"#,
    },
    Row {
        what: "two transactions that push other items",
        header: STACK,
        records: br#"{"step":"begin","tx":"t1","thread":"p1"}
{"step":"app","tx":"t1","id":1,"on":"k","call":"push","args":[4],"result":null}
{"step":"push","tx":"t1","id":1}
{"step":"begin","tx":"t2","thread":"p2"}
{"step":"app","tx":"t2","id":2,"on":"k","call":"push","args":[5],"result":null}
{"step":"push","tx":"t2","id":2}
{"step":"cmt","tx":"t2"}
{"step":"cmt","tx":"t1"}
"#,
        status: Status::Rejected,
        report: br#"rejected step 6 line 7 PUSH 4
entry 1
before
after k.pop()=5
"#,
    },
    Row {
        what: "a smaller value inserted beside a take",
        header: PRIORITY_QUEUE,
        records: br#"{"step":"begin","tx":"t0","thread":"p0"}
{"step":"app","tx":"t0","id":1,"on":"h","call":"insert","args":[3],"result":null}
{"step":"push","tx":"t0","id":1}
{"step":"cmt","tx":"t0"}
{"step":"begin","tx":"t1","thread":"p1"}
{"step":"pull","tx":"t1","id":1}
{"step":"app","tx":"t1","id":2,"on":"h","call":"take","args":[],"result":3}
{"step":"push","tx":"t1","id":2}
{"step":"begin","tx":"t2","thread":"p2"}
{"step":"app","tx":"t2","id":3,"on":"h","call":"insert","args":[2],"result":null}
{"step":"push","tx":"t2","id":3}
{"step":"cmt","tx":"t2"}
{"step":"cmt","tx":"t1"}
"#,
        status: Status::Rejected,
        report: br#"rejected step 11 line 12 PUSH 4
entry 2
before h.insert(3)=none
after
"#,
    },
];
