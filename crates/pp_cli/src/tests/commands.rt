//! Inputs of the commands that print neither a report nor steps.
use crate::tests::row::{COUNTER, Row};
use pp_core::Status;

/// A command, and what it prints for an input.
pub(crate) struct CommandRow {
    pub(crate) command: &'static [u8],
    pub(crate) row: Row,
}

pub(crate) const COMMANDS: [CommandRow; 19] = [
    CommandRow {
        command: b"swaps",
        row: Row {
            what: "two additions that are committed in the other order",
            header: b"",
            records: br#"{"run":1,"style":"rules","objects":[{"name":"c","kind":"counter"}]}
{"step":"begin","tx":"t1","thread":"p1"}
{"step":"begin","tx":"t2","thread":"p2"}
{"step":"app","tx":"t1","id":1,"on":"c","call":"add","args":[1],"result":null}
{"step":"app","tx":"t2","id":2,"on":"c","call":"add","args":[5],"result":null}
{"step":"push","tx":"t1","id":1}
{"step":"push","tx":"t2","id":2}
{"step":"cmt","tx":"t2"}
{"step":"cmt","tx":"t1"}
"#,
            status: Status::Accepted,
            report: br#"{"certificate":1,"objects":[{"kind":"counter","name":"c"}]}
{"args":[1],"call":"add","id":1,"on":"c","result":null}
{"args":[5],"call":"add","id":2,"on":"c","result":null}
{"swaps":[0]}
{"serial":2}
"#,
        },
    },
    CommandRow {
        command: b"recheck",
        row: Row {
            what: "a certificate of two additions",
            header: b"",
            records: br#"{"certificate":1,"objects":[{"kind":"counter","name":"c"}]}
{"args":[1],"call":"add","id":1,"on":"c","result":null}
{"args":[5],"call":"add","id":2,"on":"c","result":null}
{"swaps":[0]}
{"serial":2}
"#,
            status: Status::Accepted,
            report: b"holds operations 2 swaps 1 serial 2\nop 2 c.add(5)=none\nop 1 c.add(1)=none\nstate c 6\n",
        },
    },
    CommandRow {
        command: b"recheck",
        row: Row {
            what: "two writes that do not change places",
            header: b"",
            records: br#"{"certificate":1,"objects":[{"kind":"mem","name":"m"}]}
{"args":[0,5],"call":"write","id":1,"on":"m","result":null}
{"args":[0,6],"call":"write","id":2,"on":"m","result":null}
{"swaps":[0]}
{"serial":2}
"#,
            status: Status::Rejected,
            report: b"refused line 4 pair 1 2\n",
        },
    },
    CommandRow {
        command: b"recheck",
        row: Row {
            what: "no certificate",
            header: b"",
            records: b"",
            status: Status::InputFault,
            report: b"fault line 1 NotCertificate\n",
        },
    },
    CommandRow {
        command: b"views",
        row: Row {
            what: "a call that sees what was committed beside it",
            header: b"",
            records: br#"{"run":1,"style":"boosted","objects":[{"name":"s","kind":"set"}]}
{"step":"begin","tx":"t1","thread":"p1"}
{"step":"op","tx":"t1","id":1,"on":"s","call":"add","args":[5],"result":true}
{"step":"begin","tx":"t2","thread":"p2"}
{"step":"op","tx":"t2","id":2,"on":"s","call":"add","args":[7],"result":true}
{"step":"commit","tx":"t2"}
{"step":"op","tx":"t1","id":3,"on":"s","call":"contains","args":[7],"result":true}
{"step":"abort","tx":"t1"}
"#,
            status: Status::Accepted,
            report: b"accepted steps 16 committed 1\nview t2 ops 1 after 0\nview t1 ops 2 after 1\n",
        },
    },
    CommandRow {
        command: b"views",
        row: Row {
            what: "a section that is taken back and begun anew",
            header: b"",
            records: br#"{"run":1,"style":"hardware","objects":[{"name":"m","kind":"mem"}]}
{"step":"begin","tx":"t1","thread":"p1"}
{"step":"xbegin","tx":"t1"}
{"step":"op","tx":"t1","id":1,"on":"m","call":"read","args":[0],"result":0}
{"step":"begin","tx":"t2","thread":"p2"}
{"step":"op","tx":"t2","id":2,"on":"m","call":"write","args":[0,1],"result":null}
{"step":"commit","tx":"t2"}
{"step":"xabort","tx":"t1"}
{"step":"xbegin","tx":"t1"}
{"step":"op","tx":"t1","id":3,"on":"m","call":"read","args":[0],"result":1}
{"step":"xend","tx":"t1"}
{"step":"commit","tx":"t1"}
"#,
            status: Status::Accepted,
            report: b"accepted steps 15 committed 2\nview t1 ops 1 after 0\nview t2 ops 1 after 0\nview t1 ops 1 after 1\n",
        },
    },
    CommandRow {
        command: b"views",
        row: Row {
            what: "a read of what was never committed",
            header: b"",
            records: br#"{"run":1,"style":"rules","objects":[{"name":"m","kind":"mem"}]}
{"step":"begin","tx":"t1","thread":"p1"}
{"step":"app","tx":"t1","id":1,"on":"m","call":"write","args":[0,7],"result":null}
{"step":"push","tx":"t1","id":1}
{"step":"begin","tx":"t2","thread":"p2"}
{"step":"pull","tx":"t2","id":1}
{"step":"app","tx":"t2","id":2,"on":"m","call":"read","args":[0],"result":7}
{"step":"unpush","tx":"t1","id":1}
{"step":"unapp","tx":"t1","id":1}
"#,
            status: Status::Accepted,
            report: b"accepted steps 8 committed 0\nview t1 ops 1 after 0\nview t2 ops 1 after none\n",
        },
    },
    CommandRow {
        command: b"judge",
        row: Row {
            what: "accounts",
            header: b"",
            records: br#"{"run":1,"style":"boosted","objects":[{"name":"acct","kind":"map"}]}
{"step":"begin","tx":"t0","thread":"p0"}
{"step":"op","tx":"t0","id":1,"on":"acct","call":"put","args":[1,100],"result":null}
{"step":"op","tx":"t0","id":2,"on":"acct","call":"put","args":[2,50],"result":null}
{"step":"commit","tx":"t0"}
{"step":"begin","tx":"t1","thread":"p1"}
{"step":"begin","tx":"t2","thread":"p2"}
{"step":"op","tx":"t1","id":3,"on":"acct","call":"put","args":[1,70],"result":100}
{"step":"op","tx":"t2","id":4,"on":"acct","call":"put","args":[3,5],"result":null}
{"step":"commit","tx":"t2"}
{"step":"op","tx":"t1","id":5,"on":"acct","call":"put","args":[2,80],"result":50}
{"step":"commit","tx":"t1"}
"#,
            status: Status::Accepted,
            report: b"accepted steps 21 committed 3\ntx t0\nop 1 acct.put(1,100)=none\nop 2 acct.put(2,50)=none\ntx t2\nop 4 acct.put(3,5)=none\ntx t1\nop 3 acct.put(1,70)=100\nop 5 acct.put(2,80)=50\nstate acct 1=70 2=80 3=5\n",
        },
    },
    CommandRow {
        command: b"judge",
        row: Row {
            what: "a counter that does not start at 0",
            header: b"",
            records: br#"{"run":2,"style":"boosted","objects":[{"name":"c","kind":"counter"}],"start":{"tx":"t0","ops":[{"id":1,"on":"c","call":"add","args":[5],"result":null}]}}
{"step":"begin","tx":"t1","thread":"p1"}
{"step":"op","tx":"t1","id":2,"on":"c","call":"get","args":[],"result":5}
{"step":"commit","tx":"t1"}
"#,
            status: Status::Accepted,
            report: b"accepted steps 5 committed 2\ntx t0\nop 1 c.add(5)=none\ntx t1\nop 2 c.get()=5\nstate c 5\n",
        },
    },
    CommandRow {
        command: b"judge",
        row: Row {
            what: "a queue that is not left as it was found",
            header: b"",
            records: br#"{"run":1,"style":"boosted","objects":[{"name":"q","kind":"queue"}]}
{"step":"begin","tx":"t0","thread":"p0"}
{"step":"op","tx":"t0","id":1,"on":"q","call":"enq","args":[3],"result":null}
{"step":"commit","tx":"t0"}
{"step":"begin","tx":"t1","thread":"p1"}
{"step":"op","tx":"t1","id":2,"on":"q","call":"deq","args":[],"result":3}
{"step":"begin","tx":"t2","thread":"p2"}
{"step":"op","tx":"t2","id":3,"on":"q","call":"enq","args":[3],"result":null}
{"step":"commit","tx":"t1"}
{"step":"op","tx":"t2","id":4,"on":"q","call":"enq","args":[3],"result":null}
"#,
            status: Status::Rejected,
            report: b"rejected step 14 line 10 PULL 5\nentry 3\nbefore\nafter\n",
        },
    },
    CommandRow {
        command: b"judge",
        row: Row {
            what: "a run of style rules",
            header: b"",
            records: br#"{"run":1,"style":"rules","objects":[{"name":"c","kind":"counter"}]}
{"step":"begin","tx":"t1","thread":"p1"}
{"step":"app","tx":"t1","id":1,"on":"c","call":"add","args":[2],"result":null}
{"step":"push","tx":"t1","id":1}
{"step":"cmt","tx":"t1"}
"#,
            status: Status::Accepted,
            report: b"accepted steps 4 committed 1\ntx t1\nop 1 c.add(2)=none\nstate c 2\n",
        },
    },
    CommandRow {
        command: b"judge",
        row: Row {
            what: "a commit that is not published",
            header: b"",
            records: br#"{"run":2,"style":"rules","objects":[{"name":"c","kind":"counter"}],"start":{"tx":"t0","ops":[{"id":1,"on":"c","call":"add","args":[5],"result":null}]}}
{"step":"begin","tx":"t1","thread":"p1"}
{"step":"app","tx":"t1","id":2,"on":"c","call":"add","args":[2],"result":null}

{"step":"cmt","tx":"t1"}
"#,
            status: Status::Rejected,
            report: b"rejected step 3 line 5 CMT 3\nentry 2\n",
        },
    },
    CommandRow {
        command: b"judge",
        row: Row {
            what: "a read that is made again after its check failed",
            header: b"",
            records: br#"{"run":2,"style":"optimistic","objects":[{"name":"m","kind":"mem"}],"start":{"tx":"t0","ops":[{"id":1,"on":"m","call":"write","args":[1,100],"result":null}]}}
{"step":"begin","tx":"t1","thread":"p1"}
{"step":"begin","tx":"t2","thread":"p2"}
{"step":"op","tx":"t1","id":2,"on":"m","call":"read","args":[1],"result":100}
{"step":"op","tx":"t2","id":3,"on":"m","call":"read","args":[1],"result":100}
{"step":"op","tx":"t1","id":4,"on":"m","call":"write","args":[1,110],"result":null}
{"step":"op","tx":"t2","id":5,"on":"m","call":"write","args":[1,105],"result":null}
{"step":"commit","tx":"t1"}
{"step":"retry","tx":"t2"}
{"step":"op","tx":"t2","id":6,"on":"m","call":"read","args":[1],"result":110}
{"step":"op","tx":"t2","id":7,"on":"m","call":"write","args":[1,115],"result":null}
{"step":"commit","tx":"t2"}
"#,
            status: Status::Accepted,
            report: b"accepted steps 23 committed 3\ntx t0\nop 1 m.write(1,100)=none\ntx t1\nop 2 m.read(1)=100\nop 4 m.write(1,110)=none\ntx t2\nop 6 m.read(1)=110\nop 7 m.write(1,115)=none\nstate m 1=115\n",
        },
    },
    CommandRow {
        command: b"judge",
        row: Row {
            what: "a commit without a check of what was read",
            header: b"",
            records: br#"{"run":2,"style":"optimistic","objects":[{"name":"m","kind":"mem"}],"start":{"tx":"t0","ops":[{"id":1,"on":"m","call":"write","args":[1,100],"result":null}]}}
{"step":"begin","tx":"t1","thread":"p1"}
{"step":"begin","tx":"t2","thread":"p2"}
{"step":"op","tx":"t1","id":2,"on":"m","call":"read","args":[1],"result":100}
{"step":"op","tx":"t2","id":3,"on":"m","call":"read","args":[1],"result":100}
{"step":"op","tx":"t1","id":4,"on":"m","call":"write","args":[1,110],"result":null}
{"step":"op","tx":"t2","id":5,"on":"m","call":"write","args":[1,105],"result":null}
{"step":"commit","tx":"t1"}
{"step":"commit","tx":"t2"}
"#,
            status: Status::Rejected,
            report: b"rejected step 12 line 9 PUSH 5\nentry 3 gives 110\n",
        },
    },
    CommandRow {
        command: b"judge",
        row: Row {
            what: "a start that adds one key twice",
            header: b"",
            records: br#"{"run":2,"style":"boosted","objects":[{"name":"s","kind":"set"}],"start":{"tx":"t0","ops":[{"id":1,"on":"s","call":"add","args":[5],"result":true},{"id":2,"on":"s","call":"add","args":[5],"result":true}]}}
{"step":"begin","tx":"t1","thread":"p1"}
"#,
            status: Status::Rejected,
            report: b"rejected step 0 line 1 START 2\nentry 2 gives false\n",
        },
    },
    CommandRow {
        command: b"quick",
        row: Row {
            what: "accounts",
            header: b"",
            records: br#"{"run":1,"style":"boosted","objects":[{"name":"acct","kind":"map"}]}
{"step":"begin","tx":"t0","thread":"p0"}
{"step":"op","tx":"t0","id":1,"on":"acct","call":"put","args":[1,100],"result":null}
{"step":"op","tx":"t0","id":2,"on":"acct","call":"put","args":[2,50],"result":null}
{"step":"commit","tx":"t0"}
{"step":"begin","tx":"t1","thread":"p1"}
{"step":"begin","tx":"t2","thread":"p2"}
{"step":"op","tx":"t1","id":3,"on":"acct","call":"put","args":[1,70],"result":100}
{"step":"op","tx":"t2","id":4,"on":"acct","call":"put","args":[3,5],"result":null}
{"step":"commit","tx":"t2"}
{"step":"op","tx":"t1","id":5,"on":"acct","call":"put","args":[2,80],"result":50}
{"step":"commit","tx":"t1"}
"#,
            status: Status::Accepted,
            report: b"quick accepted records 11 committed 3\ntx t0\nop 1 acct.put(1,100)=none\nop 2 acct.put(2,50)=none\ntx t2\nop 4 acct.put(3,5)=none\ntx t1\nop 3 acct.put(1,70)=100\nop 5 acct.put(2,80)=50\nstate acct 1=70 2=80 3=5\n",
        },
    },
    CommandRow {
        command: b"quick",
        row: Row {
            what: "a counter that does not start at 0",
            header: b"",
            records: br#"{"run":2,"style":"boosted","objects":[{"name":"c","kind":"counter"}],"start":{"tx":"t0","ops":[{"id":1,"on":"c","call":"add","args":[5],"result":null}]}}
{"step":"begin","tx":"t1","thread":"p1"}
{"step":"op","tx":"t1","id":2,"on":"c","call":"get","args":[],"result":5}
{"step":"commit","tx":"t1"}
"#,
            status: Status::Accepted,
            report: b"quick accepted records 3 committed 2\ntx t0\nop 1 c.add(5)=none\ntx t1\nop 2 c.get()=5\nstate c 5\n",
        },
    },
    CommandRow {
        command: b"quick",
        row: Row {
            what: "a queue that is not left as it was found",
            header: b"",
            records: br#"{"run":1,"style":"boosted","objects":[{"name":"q","kind":"queue"}]}
{"step":"begin","tx":"t0","thread":"p0"}
{"step":"op","tx":"t0","id":1,"on":"q","call":"enq","args":[3],"result":null}
{"step":"commit","tx":"t0"}
{"step":"begin","tx":"t1","thread":"p1"}
{"step":"op","tx":"t1","id":2,"on":"q","call":"deq","args":[],"result":3}
{"step":"begin","tx":"t2","thread":"p2"}
{"step":"op","tx":"t2","id":3,"on":"q","call":"enq","args":[3],"result":null}
{"step":"commit","tx":"t1"}
{"step":"op","tx":"t2","id":4,"on":"q","call":"enq","args":[3],"result":null}
"#,
            status: Status::Rejected,
            report: b"quick rejected line 10\n",
        },
    },
    CommandRow {
        command: b"quick",
        row: Row {
            what: "a run of style rules",
            header: b"",
            records: br#"{"run":1,"style":"rules","objects":[{"name":"c","kind":"counter"}]}
{"step":"begin","tx":"t1","thread":"p1"}
{"step":"app","tx":"t1","id":1,"on":"c","call":"add","args":[2],"result":null}
{"step":"push","tx":"t1","id":1}
{"step":"cmt","tx":"t1"}
"#,
            status: Status::InputFault,
            report: b"fault line 1 NotBoosted\n",
        },
    },
];

/// Outputs of `judge` for a style whose steps the machine does.
pub(crate) const DRIVEN: [CommandRow; 1] = [CommandRow {
    command: b"judge",
    row: Row {
        what: "a read of what a source published, which commits first",
        header: b"",
        records: br#"{"run":1,"style":"dependent","objects":[{"name":"m","kind":"mem"}]}
{"step":"begin","tx":"t1","thread":"p1"}
{"step":"op","tx":"t1","id":1,"on":"m","call":"write","args":[0,5],"result":null}
{"step":"publish","tx":"t1"}
{"step":"begin","tx":"t2","thread":"p2"}
{"step":"depend","tx":"t2","source":"t1"}
{"step":"op","tx":"t2","id":2,"on":"m","call":"read","args":[0],"result":5}
{"step":"op","tx":"t2","id":3,"on":"m","call":"write","args":[1,6],"result":null}
{"step":"commit","tx":"t1"}
{"step":"commit","tx":"t2"}
"#,
        status: Status::Accepted,
        report: b"accepted steps 13 committed 2\ntx t1\nop 1 m.write(0,5)=none\ntx t2\nop 2 m.read(0)=5\nop 3 m.write(1,6)=none\nstate m 0=5 1=6\n",
    },
}];

/// Runs with what `opaque` prints.
pub(crate) const OPAQUE: [CommandRow; 3] = [
    CommandRow {
        command: b"opaque",
        row: Row {
            what: "a call that sees what was committed beside it",
            header: b"",
            records: br#"{"run":1,"style":"boosted","objects":[{"name":"s","kind":"set"}]}
{"step":"begin","tx":"t1","thread":"p1"}
{"step":"op","tx":"t1","id":1,"on":"s","call":"add","args":[5],"result":true}
{"step":"begin","tx":"t2","thread":"p2"}
{"step":"op","tx":"t2","id":2,"on":"s","call":"add","args":[7],"result":true}
{"step":"commit","tx":"t2"}
{"step":"op","tx":"t1","id":3,"on":"s","call":"contains","args":[7],"result":true}
{"step":"abort","tx":"t1"}
"#,
            status: Status::Accepted,
            report: b"opaque steps 16 committed 1\n",
        },
    },
    CommandRow {
        command: b"opaque",
        row: Row {
            what: "a retried attempt that sees an old and a new value",
            header: b"",
            records: br#"{"run":2,"style":"optimistic","objects":[{"name":"x","kind":"mem"},{"name":"y","kind":"mem"}],"start":{"tx":"t0","ops":[{"id":9,"on":"x","call":"write","args":[0,5],"result":null},{"id":10,"on":"y","call":"write","args":[0,5],"result":null}]}}

{"step":"begin","tx":"t1","thread":"p1"}
{"step":"op","tx":"t1","id":1,"on":"x","call":"read","args":[0],"result":5}
{"step":"begin","tx":"t2","thread":"p2"}
{"step":"op","tx":"t2","id":2,"on":"x","call":"write","args":[0,6],"result":null}
{"step":"op","tx":"t2","id":3,"on":"y","call":"write","args":[0,6],"result":null}
{"step":"retry","tx":"t1"}
{"step":"op","tx":"t1","id":4,"on":"x","call":"read","args":[0],"result":5}
{"step":"commit","tx":"t2"}
{"step":"op","tx":"t1","id":5,"on":"y","call":"read","args":[0],"result":6}
{"step":"retry","tx":"t1"}
"#,
            status: Status::Rejected,
            report: b"zombie step 19 line 11\nview t1 ops 2 from 1 to 2\nop 4 x.read(0)=5\nop 5 y.read(0)=6\n",
        },
    },
    CommandRow {
        command: b"opaque",
        row: Row {
            what: "a wrong result",
            header: COUNTER,
            records: br#"{"step":"begin","tx":"t1","thread":"p1"}
{"step":"app","tx":"t1","id":1,"on":"c","call":"get","args":[],"result":1}
"#,
            status: Status::Rejected,
            report: b"rejected step 2 line 3 APP 4\nentry 1 gives 0\n",
        },
    },
];
