//! Runs of the styles whose records are whole calls and whole commits, and their reports.
use crate::tests::row::Row;
use pp_core::Status;

pub(crate) const STYLED: [Row; 16] = [
    Row {
        what: "an operation that was pulled, and an abort",
        header: b"",
        records: br#"{"run":1,"style":"boosted","objects":[{"name":"s","kind":"set"}]}
{"step":"begin","tx":"t1","thread":"p1"}
{"step":"op","tx":"t1","id":1,"on":"s","call":"add","args":[5],"result":true}
{"step":"begin","tx":"t2","thread":"p2"}
{"step":"op","tx":"t2","id":2,"on":"s","call":"add","args":[7],"result":true}
{"step":"commit","tx":"t2"}
{"step":"op","tx":"t1","id":3,"on":"s","call":"contains","args":[7],"result":true}
{"step":"abort","tx":"t1"}
"#,
        status: Status::Accepted,
        report: b"accepted steps 16 committed 1\ntx t2\nop 2 s.add(7)=true\nstate s 7\n",
    },
    Row {
        what: "accounts in style boosted",
        header: b"",
        records: br#"{"run":1,"style":"boosted","objects":[{"name":"acct","kind":"map"}]}
{"step":"begin","tx":"t0","thread":"p0"}
{"step":"op","tx":"t0","id":1,"on":"acct","call":"put","args":[1,100],"result":null}
{"step":"op","tx":"t0","id":2,"on":"acct","call":"put","args":[2,50],"result":null}
{"step":"commit","tx":"t0"}
{"step":"begin","tx":"t1","thread":"p1"}
{"step":"begin","tx":"t2","thread":"p2"}
{"step":"op","tx":"t1","id":3,"on":"acct","call":"put","args":[1,70],"result":100}
{"step":"op","tx":"t2","id":4,"on":"acct","call":"put","args":[3,5],"result":null}
{"step":"commit","tx":"t2"}
{"step":"op","tx":"t1","id":5,"on":"acct","call":"put","args":[2,80],"result":50}
{"step":"commit","tx":"t1"}
"#,
        status: Status::Accepted,
        report: b"accepted steps 21 committed 3\ntx t0\nop 1 acct.put(1,100)=none\nop 2 acct.put(2,50)=none\ntx t2\nop 4 acct.put(3,5)=none\ntx t1\nop 3 acct.put(1,70)=100\nop 5 acct.put(2,80)=50\nstate acct 1=70 2=80 3=5\n",
    },
    Row {
        what: "an operation pulled behind one that it may not pass",
        header: b"",
        records: br#"{"run":1,"style":"boosted","objects":[{"name":"q","kind":"queue"}]}
{"step":"begin","tx":"t0","thread":"p0"}
{"step":"op","tx":"t0","id":1,"on":"q","call":"enq","args":[3],"result":null}
{"step":"commit","tx":"t0"}
{"step":"begin","tx":"t1","thread":"p1"}
{"step":"op","tx":"t1","id":2,"on":"q","call":"deq","args":[],"result":3}
{"step":"begin","tx":"t2","thread":"p2"}
{"step":"op","tx":"t2","id":3,"on":"q","call":"enq","args":[3],"result":null}
{"step":"commit","tx":"t1"}
{"step":"op","tx":"t2","id":4,"on":"q","call":"enq","args":[3],"result":null}
"#,
        status: Status::Rejected,
        report: b"rejected step 14 line 10 PULL 5\nentry 3\nbefore\nafter\n",
    },
    Row {
        what: "a read of what was overwritten since",
        header: b"",
        records: br#"{"run":1,"style":"optimistic","objects":[{"name":"m","kind":"mem"}]}
{"step":"begin","tx":"t1","thread":"p1"}
{"step":"op","tx":"t1","id":1,"on":"m","call":"read","args":[0],"result":0}
{"step":"begin","tx":"t2","thread":"p2"}
{"step":"op","tx":"t2","id":2,"on":"m","call":"write","args":[0,1],"result":null}
{"step":"commit","tx":"t2"}
{"step":"commit","tx":"t1"}
"#,
        status: Status::Rejected,
        report: b"rejected step 7 line 7 PUSH 5\nentry 1 gives 1\n",
    },
    Row {
        what: "a section that is taken back, and another",
        header: b"",
        records: br#"{"run":1,"style":"hardware","objects":[{"name":"m","kind":"mem"}]}
{"step":"begin","tx":"t1","thread":"p1"}
{"step":"xbegin","tx":"t1"}
{"step":"op","tx":"t1","id":1,"on":"m","call":"read","args":[0],"result":0}
{"step":"begin","tx":"t2","thread":"p2"}
{"step":"op","tx":"t2","id":2,"on":"m","call":"write","args":[0,1],"result":null}
{"step":"commit","tx":"t2"}
{"step":"xabort","tx":"t1"}
{"step":"xbegin","tx":"t1"}
{"step":"op","tx":"t1","id":3,"on":"m","call":"read","args":[0],"result":1}
{"step":"xend","tx":"t1"}
{"step":"commit","tx":"t1"}
"#,
        status: Status::Accepted,
        report: b"accepted steps 15 committed 2\ntx t2\nop 2 m.write(0,1)=none\ntx t1\nop 3 m.read(0)=1\nstate m 0=1\n",
    },
    Row {
        what: "a commit before that of its source",
        header: b"",
        records: br#"{"run":1,"style":"dependent","objects":[{"name":"m","kind":"mem"}]}
{"step":"begin","tx":"t1","thread":"p1"}
{"step":"op","tx":"t1","id":1,"on":"m","call":"write","args":[0,5],"result":null}
{"step":"publish","tx":"t1"}
{"step":"begin","tx":"t2","thread":"p2"}
{"step":"depend","tx":"t2","source":"t1"}
{"step":"op","tx":"t2","id":2,"on":"m","call":"read","args":[0],"result":5}
{"step":"commit","tx":"t2"}
"#,
        status: Status::Rejected,
        report: b"rejected step 9 line 8 PUSH 4\nentry 1\nbefore m.write(0,0)=none\nafter\n",
    },
    Row {
        what: "a commit behind that of its source",
        header: b"",
        records: br#"{"run":1,"style":"dependent","objects":[{"name":"m","kind":"mem"}]}
{"step":"begin","tx":"t1","thread":"p1"}
{"step":"op","tx":"t1","id":1,"on":"m","call":"write","args":[0,5],"result":null}
{"step":"publish","tx":"t1"}
{"step":"begin","tx":"t2","thread":"p2"}
{"step":"depend","tx":"t2","source":"t1"}
{"step":"op","tx":"t2","id":2,"on":"m","call":"read","args":[0],"result":5}
{"step":"commit","tx":"t1"}
{"step":"commit","tx":"t2"}
"#,
        status: Status::Accepted,
        report: b"accepted steps 11 committed 2\ntx t1\nop 1 m.write(0,5)=none\ntx t2\nop 2 m.read(0)=5\nstate m 0=5\n",
    },
    Row {
        what: "a source that is dropped",
        header: b"",
        records: br#"{"run":1,"style":"dependent","objects":[{"name":"c","kind":"counter"}]}
{"step":"begin","tx":"t1","thread":"p1"}
{"step":"op","tx":"t1","id":1,"on":"c","call":"add","args":[5],"result":null}
{"step":"publish","tx":"t1"}
{"step":"begin","tx":"t2","thread":"p2"}
{"step":"depend","tx":"t2","source":"t1"}
{"step":"op","tx":"t2","id":2,"on":"c","call":"add","args":[3],"result":null}
{"step":"drop","tx":"t2","source":"t1"}
{"step":"commit","tx":"t2"}
{"step":"commit","tx":"t1"}
"#,
        status: Status::Accepted,
        report: b"accepted steps 13 committed 2\ntx t2\nop 2 c.add(3)=none\ntx t1\nop 1 c.add(5)=none\nstate c 8\n",
    },
    Row {
        what: "a start that is pulled",
        header: b"",
        records: br#"{"run":2,"style":"boosted","objects":[{"name":"c","kind":"counter"}],"start":{"tx":"t0","ops":[{"id":0,"on":"c","call":"add","args":[7],"result":null}]}}
{"step":"begin","tx":"t1","thread":"p1"}
{"step":"op","tx":"t1","id":1,"on":"c","call":"get","args":[],"result":7}
{"step":"commit","tx":"t1"}
"#,
        status: Status::Accepted,
        report: b"accepted steps 5 committed 2\ntx t0\nop 0 c.add(7)=none\ntx t1\nop 1 c.get()=7\nstate c 7\n",
    },
    Row {
        what: "a record of a transaction that is not open",
        header: b"",
        records: br#"{"run":1,"style":"hardware","objects":[{"name":"m","kind":"mem"}]}
{"step":"xend","tx":"t1"}
{"step":"xbegin","tx":"t1"}
"#,
        status: Status::Rejected,
        report: b"rejected step 1 line 2 NOTE 1\n",
    },
    Row {
        what: "a step within a record rejected, and a retry behind it",
        header: b"",
        records: br#"{"run":1,"style":"boosted","objects":[{"name":"c","kind":"counter"}]}
{"step":"begin","tx":"t1","thread":"p1"}
{"step":"op","tx":"t1","id":1,"on":"c","call":"add","args":[1],"result":null}
{"step":"commit","tx":"t1"}
{"step":"begin","tx":"t2","thread":"p1"}
{"step":"op","tx":"t2","id":2,"on":"c","call":"get","args":[],"result":0}
{"step":"retry","tx":"t2"}
"#,
        status: Status::Rejected,
        report: b"rejected step 7 line 6 APP 4\nentry 2 gives 1\n",
    },
    Row {
        what: "a fault behind a rejection",
        header: b"",
        records: br#"{"run":1,"style":"optimistic","objects":[{"name":"c","kind":"counter"}]}
{"step":"commit","tx":"t1"}
{"step":"xend","tx":"t1"}
"#,
        status: Status::InputFault,
        report: b"fault line 3 UnknownStep\n",
    },
    Row {
        what: "an operation of a transaction that is not open",
        header: b"",
        records: br#"{"run":1,"style":"boosted","objects":[{"name":"c","kind":"counter"}]}
{"step":"op","tx":"t1","id":1,"on":"c","call":"add","args":[1],"result":null}
"#,
        status: Status::Rejected,
        report: b"rejected step 1 line 2 APP 1\n",
    },
    Row {
        what: "a commit of a transaction that is not open",
        header: b"",
        records: br#"{"run":1,"style":"boosted","objects":[{"name":"c","kind":"counter"}]}
{"step":"commit","tx":"t1"}
"#,
        status: Status::Rejected,
        report: b"rejected step 1 line 2 CMT 1\n",
    },
    Row {
        what: "an abort of a transaction that is not open",
        header: b"",
        records: br#"{"run":1,"style":"boosted","objects":[{"name":"c","kind":"counter"}]}
{"step":"abort","tx":"t1"}
"#,
        status: Status::Rejected,
        report: b"rejected step 1 line 2 QUIT 1\n",
    },
    Row {
        what: "an xabort without a section",
        header: b"",
        records: br#"{"run":1,"style":"hardware","objects":[{"name":"m","kind":"mem"}]}
{"step":"begin","tx":"t1","thread":"p1"}
{"step":"op","tx":"t1","id":1,"on":"m","call":"write","args":[0,1],"result":null}
{"step":"xabort","tx":"t1"}
{"step":"commit","tx":"t1"}
"#,
        status: Status::Accepted,
        report: b"accepted steps 7 committed 1\ntx t1\nstate m\n",
    },
];
