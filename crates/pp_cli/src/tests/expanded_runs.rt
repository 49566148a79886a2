//! Runs, and the steps that their records mean.
use crate::tests::row::Row;
use pp_core::Status;

/// A commit of a read of what was overwritten since.
pub(crate) const OLD_READ: &[u8] =
    br#"{"run":1,"style":"optimistic","objects":[{"name":"m","kind":"mem"}]}
{"step":"begin","tx":"t1","thread":"p1"}
{"step":"op","tx":"t1","id":1,"on":"m","call":"read","args":[0],"result":0}
{"step":"begin","tx":"t2","thread":"p2"}
{"step":"op","tx":"t2","id":2,"on":"m","call":"write","args":[0,1],"result":null}
{"step":"commit","tx":"t2"}
{"step":"commit","tx":"t1"}
"#;

pub(crate) const EXPANDED: [Row; 14] = [
    Row {
        what: "a read of what was overwritten since",
        header: b"",
        records: OLD_READ,
        status: Status::Rejected,
        report: br#"{"objects":[{"kind":"mem","name":"m"}],"run":1,"style":"rules"}
{"step":"begin","thread":"p1","tx":"t1"}
{"args":[0],"call":"read","id":1,"on":"m","result":0,"step":"app","tx":"t1"}
{"step":"begin","thread":"p2","tx":"t2"}
{"args":[0,1],"call":"write","id":2,"on":"m","result":null,"step":"app","tx":"t2"}
{"id":2,"step":"push","tx":"t2"}
{"step":"cmt","tx":"t2"}
{"id":1,"step":"push","tx":"t1"}
"#,
    },
    Row {
        what: "one call in style boosted",
        header: b"",
        records: br#"{"run":1,"style":"boosted","objects":[{"name":"c","kind":"counter"}]}
{"step":"begin","tx":"t1","thread":"p1"}
{"step":"op","tx":"t1","id":1,"on":"c","call":"add","args":[2],"result":null}
{"step":"commit","tx":"t1"}
"#,
        status: Status::Accepted,
        report: br#"{"objects":[{"kind":"counter","name":"c"}],"run":1,"style":"rules"}
{"step":"begin","thread":"p1","tx":"t1"}
{"args":[2],"call":"add","id":1,"on":"c","result":null,"step":"app","tx":"t1"}
{"id":1,"step":"push","tx":"t1"}
{"step":"cmt","tx":"t1"}
"#,
    },
    Row {
        what: "accounts in style boosted",
        header: b"",
        records: br#"{"run":1,"style":"boosted","objects":[{"name":"acct","kind":"map"}]}
{"step":"begin","tx":"t0","thread":"p0"}
{"step":"op","tx":"t0","id":1,"on":"acct","call":"put","args":[1,100],"result":null}
{"step":"op","tx":"t0","id":2,"on":"acct","call":"put","args":[2,50],"result":null}
{"step":"commit","tx":"t0"}
{"step":"begin","tx":"t1","thread":"p1"}
{"step":"begin","tx":"t2","thread":"p2"}
{"step":"op","tx":"t1","id":3,"on":"acct","call":"put","args":[1,70],"result":100}
{"step":"op","tx":"t2","id":4,"on":"acct","call":"put","args":[3,5],"result":null}
{"step":"commit","tx":"t2"}
{"step":"op","tx":"t1","id":5,"on":"acct","call":"put","args":[2,80],"result":50}
{"step":"commit","tx":"t1"}
"#,
        status: Status::Accepted,
        report: br#"{"objects":[{"kind":"map","name":"acct"}],"run":1,"style":"rules"}
{"step":"begin","thread":"p0","tx":"t0"}
{"args":[1,100],"call":"put","id":1,"on":"acct","result":null,"step":"app","tx":"t0"}
{"id":1,"step":"push","tx":"t0"}
{"args":[2,50],"call":"put","id":2,"on":"acct","result":null,"step":"app","tx":"t0"}
{"id":2,"step":"push","tx":"t0"}
{"step":"cmt","tx":"t0"}
{"step":"begin","thread":"p1","tx":"t1"}
{"step":"begin","thread":"p2","tx":"t2"}
{"id":1,"step":"pull","tx":"t1"}
{"id":2,"step":"pull","tx":"t1"}
{"args":[1,70],"call":"put","id":3,"on":"acct","result":100,"step":"app","tx":"t1"}
{"id":3,"step":"push","tx":"t1"}
{"id":1,"step":"pull","tx":"t2"}
{"id":2,"step":"pull","tx":"t2"}
{"args":[3,5],"call":"put","id":4,"on":"acct","result":null,"step":"app","tx":"t2"}
{"id":4,"step":"push","tx":"t2"}
{"step":"cmt","tx":"t2"}
{"id":4,"step":"pull","tx":"t1"}
{"args":[2,80],"call":"put","id":5,"on":"acct","result":50,"step":"app","tx":"t1"}
{"id":5,"step":"push","tx":"t1"}
{"step":"cmt","tx":"t1"}
"#,
    },
    Row {
        what: "a start that is pulled",
        header: b"",
        records: br#"{"run":2,"style":"boosted","objects":[{"name":"c","kind":"counter"}],"start":{"tx":"t0","ops":[{"id":1,"on":"c","call":"add","args":[7],"result":null}]}}
{"step":"begin","tx":"t1","thread":"p1"}
{"step":"op","tx":"t1","id":2,"on":"c","call":"get","args":[],"result":7}
{"step":"commit","tx":"t1"}
"#,
        status: Status::Accepted,
        report: br#"{"objects":[{"kind":"counter","name":"c"}],"run":2,"start":{"ops":[{"args":[7],"call":"add","id":1,"on":"c","result":null}],"tx":"t0"},"style":"rules"}
{"step":"begin","thread":"p1","tx":"t1"}
{"id":1,"step":"pull","tx":"t1"}
{"args":[],"call":"get","id":2,"on":"c","result":7,"step":"app","tx":"t1"}
{"id":2,"step":"push","tx":"t1"}
{"step":"cmt","tx":"t1"}
"#,
    },
    Row {
        what: "a start that is rejected",
        header: b"",
        records: br#"{"run":2,"style":"rules","objects":[{"name":"c","kind":"counter"}],"start":{"tx":"t0","ops":[{"id":1,"on":"c","call":"add","args":[7],"result":null},{"id":2,"on":"c","call":"get","args":[],"result":6}]}}
{"step":"begin","tx":"t1","thread":"p1"}
"#,
        status: Status::Rejected,
        report: br#"{"objects":[{"kind":"counter","name":"c"}],"run":2,"start":{"ops":[{"args":[7],"call":"add","id":1,"on":"c","result":null},{"args":[],"call":"get","id":2,"on":"c","result":6}],"tx":"t0"},"style":"rules"}
"#,
    },
    Row {
        what: "version 2 without a start",
        header: b"",
        records: br#"{"run":2,"style":"rules","objects":[]}
"#,
        status: Status::Accepted,
        report: br#"{"objects":[],"run":1,"style":"rules"}
"#,
    },
    Row {
        what: "a step within a record rejected, and a retry behind it",
        header: b"",
        records: br#"{"run":1,"style":"boosted","objects":[{"name":"c","kind":"counter"}]}
{"step":"begin","tx":"t1","thread":"p1"}
{"step":"op","tx":"t1","id":1,"on":"c","call":"add","args":[1],"result":null}
{"step":"commit","tx":"t1"}
{"step":"begin","tx":"t2","thread":"p1"}
{"step":"op","tx":"t2","id":2,"on":"c","call":"get","args":[],"result":0}
{"step":"retry","tx":"t2"}
"#,
        status: Status::Rejected,
        report: br#"{"objects":[{"kind":"counter","name":"c"}],"run":1,"style":"rules"}
{"step":"begin","thread":"p1","tx":"t1"}
{"args":[1],"call":"add","id":1,"on":"c","result":null,"step":"app","tx":"t1"}
{"id":1,"step":"push","tx":"t1"}
{"step":"cmt","tx":"t1"}
{"step":"begin","thread":"p1","tx":"t2"}
{"id":1,"step":"pull","tx":"t2"}
{"args":[],"call":"get","id":2,"on":"c","result":0,"step":"app","tx":"t2"}
"#,
    },
    Row {
        what: "a body",
        header: b"",
        records: br#"{"run":1,"style":"rules","objects":[{"name":"c","kind":"counter"}]}
{"step":"begin","tx":"t1","thread":"p1","body":{"seq":[{"star":{"on":"c","call":"add","args":[null]}},{"skip":true},{"alt":[{"seq":[]}]}]}}
{"step":"app","tx":"t1","id":1,"on":"c","call":"add","args":[-3],"result":null}
{"step":"unapp","tx":"t1","id":1}
{"step":"quit","tx":"t1"}
"#,
        status: Status::Accepted,
        report: br#"{"objects":[{"kind":"counter","name":"c"}],"run":1,"style":"rules"}
{"body":{"seq":[{"star":{"args":[null],"call":"add","on":"c"}},{"skip":true},{"alt":[{"seq":[]}]}]},"step":"begin","thread":"p1","tx":"t1"}
{"args":[-3],"call":"add","id":1,"on":"c","result":null,"step":"app","tx":"t1"}
{"id":1,"step":"unapp","tx":"t1"}
{"step":"quit","tx":"t1"}
"#,
    },
    Row {
        what: "each of the ten steps, with members in another order, and each form of a body",
        header: b"",
        records: br#"{"style":"rules","run":2,"objects":[{"name":"c","kind":"counter"},{"name":"M_.-9","kind":"mem"},{"name":"h","kind":"prio"}],"start":{"tx":"t0","ops":[{"id":1,"on":"c","call":"add","args":[7],"result":null},{"id":999999999,"on":"M_.-9","call":"cas","args":[-1000000000000000000,1,1000000000000000000],"result":false}]}}
{"step":"begin","tx":"t1","thread":"p1","body":null,"at":1}
{"step":"app","tx":"t1","id":0,"on":"h","call":"take","args":[],"result":null}
{"step":"push","tx":"t1","id":0}
{"step":"unpush","tx":"t1","id":0}
{"step":"unapp","tx":"t1","id":0}
{"step":"note","tx":"t1"}
{"step":"begin","body":{"seq":[{"star":{"on":"M_.-9","call":"cas","args":[null,-3,0],"at":1}},{"skip":true},{"alt":[{"seq":[]},{"on":"c","args":[],"call":"get"}]}]},"tx":"t2","thread":"p2"}
{"step":"pull","tx":"t2","id":1}
{"step":"app","tx":"t2","id":3,"on":"M_.-9","call":"cas","args":[5,-3,0],"result":false}
{"step":"unapp","tx":"t2","id":3}
{"step":"unpull","tx":"t2","id":1}
{"step":"quit","tx":"t2"}
{"step":"app","tx":"t1","id":2,"on":"h","call":"least","args":[],"result":null}
{"step":"push","tx":"t1","id":2}
{"step":"cmt","tx":"t1"}
"#,
        status: Status::Accepted,
        report: br#"{"objects":[{"kind":"counter","name":"c"},{"kind":"mem","name":"M_.-9"},{"kind":"prio","name":"h"}],"run":2,"start":{"ops":[{"args":[7],"call":"add","id":1,"on":"c","result":null},{"args":[-1000000000000000000,1,1000000000000000000],"call":"cas","id":999999999,"on":"M_.-9","result":false}],"tx":"t0"},"style":"rules"}
{"step":"begin","thread":"p1","tx":"t1"}
{"args":[],"call":"take","id":0,"on":"h","result":null,"step":"app","tx":"t1"}
{"id":0,"step":"push","tx":"t1"}
{"id":0,"step":"unpush","tx":"t1"}
{"id":0,"step":"unapp","tx":"t1"}
{"step":"note","tx":"t1"}
{"body":{"seq":[{"star":{"args":[null,-3,0],"call":"cas","on":"M_.-9"}},{"skip":true},{"alt":[{"seq":[]},{"args":[],"call":"get","on":"c"}]}]},"step":"begin","thread":"p2","tx":"t2"}
{"id":1,"step":"pull","tx":"t2"}
{"args":[5,-3,0],"call":"cas","id":3,"on":"M_.-9","result":false,"step":"app","tx":"t2"}
{"id":3,"step":"unapp","tx":"t2"}
{"id":1,"step":"unpull","tx":"t2"}
{"step":"quit","tx":"t2"}
{"args":[],"call":"least","id":2,"on":"h","result":null,"step":"app","tx":"t1"}
{"id":2,"step":"push","tx":"t1"}
{"step":"cmt","tx":"t1"}
"#,
    },
    Row {
        what: "what a source that aborted has published, taken over and given up",
        header: b"",
        records: br#"{"run":1,"style":"dependent","objects":[{"name":"m","kind":"mem"}]}
{"step":"begin","tx":"t1","thread":"p1"}
{"step":"op","tx":"t1","id":1,"on":"m","call":"write","args":[0,5],"result":null}
{"step":"publish","tx":"t1"}
{"step":"begin","tx":"t2","thread":"p2"}
{"step":"depend","tx":"t2","source":"t1"}
{"step":"op","tx":"t2","id":2,"on":"m","call":"read","args":[0],"result":5}
{"step":"abort","tx":"t1"}
{"step":"retry","tx":"t2"}
{"step":"op","tx":"t2","id":3,"on":"m","call":"read","args":[0],"result":0}
{"step":"op","tx":"t2","id":4,"on":"m","call":"write","args":[1,1],"result":null}
{"step":"commit","tx":"t2"}
"#,
        status: Status::Accepted,
        report: br#"{"objects":[{"kind":"mem","name":"m"}],"run":1,"style":"rules"}
{"step":"begin","thread":"p1","tx":"t1"}
{"args":[0,5],"call":"write","id":1,"on":"m","result":null,"step":"app","tx":"t1"}
{"step":"note","tx":"t1"}
{"id":1,"step":"push","tx":"t1"}
{"step":"begin","thread":"p2","tx":"t2"}
{"step":"note","tx":"t2"}
{"id":1,"step":"pull","tx":"t2"}
{"args":[0],"call":"read","id":2,"on":"m","result":5,"step":"app","tx":"t2"}
{"id":1,"step":"unpush","tx":"t1"}
{"id":1,"step":"unapp","tx":"t1"}
{"step":"quit","tx":"t1"}
{"step":"note","tx":"t2"}
{"id":2,"step":"unapp","tx":"t2"}
{"id":1,"step":"unpull","tx":"t2"}
{"args":[0],"call":"read","id":3,"on":"m","result":0,"step":"app","tx":"t2"}
{"args":[1,1],"call":"write","id":4,"on":"m","result":null,"step":"app","tx":"t2"}
{"id":3,"step":"push","tx":"t2"}
{"id":4,"step":"push","tx":"t2"}
{"step":"cmt","tx":"t2"}
"#,
    },
    Row {
        what: "a section of hardware taken back, and one that ends",
        header: b"",
        records: br#"{"run":1,"style":"hardware","objects":[{"name":"m","kind":"mem"},{"name":"s","kind":"set"}]}
{"step":"begin","tx":"t1","thread":"p1"}
{"step":"op","tx":"t1","id":1,"on":"s","call":"add","args":[3],"result":true}
{"step":"xbegin","tx":"t1"}
{"step":"op","tx":"t1","id":2,"on":"m","call":"write","args":[0,1],"result":null}
{"step":"xabort","tx":"t1"}
{"step":"xbegin","tx":"t1"}
{"step":"op","tx":"t1","id":3,"on":"m","call":"read","args":[0],"result":0}
{"step":"op","tx":"t1","id":4,"on":"m","call":"write","args":[0,2],"result":null}
{"step":"xend","tx":"t1"}
{"step":"commit","tx":"t1"}
"#,
        status: Status::Accepted,
        report: br#"{"objects":[{"kind":"mem","name":"m"},{"kind":"set","name":"s"}],"run":1,"style":"rules"}
{"step":"begin","thread":"p1","tx":"t1"}
{"args":[3],"call":"add","id":1,"on":"s","result":true,"step":"app","tx":"t1"}
{"id":1,"step":"push","tx":"t1"}
{"step":"note","tx":"t1"}
{"args":[0,1],"call":"write","id":2,"on":"m","result":null,"step":"app","tx":"t1"}
{"step":"note","tx":"t1"}
{"id":2,"step":"unapp","tx":"t1"}
{"step":"note","tx":"t1"}
{"args":[0],"call":"read","id":3,"on":"m","result":0,"step":"app","tx":"t1"}
{"args":[0,2],"call":"write","id":4,"on":"m","result":null,"step":"app","tx":"t1"}
{"step":"note","tx":"t1"}
{"id":3,"step":"push","tx":"t1"}
{"id":4,"step":"push","tx":"t1"}
{"step":"cmt","tx":"t1"}
"#,
    },
    Row {
        what: "what another committed meanwhile, taken over",
        header: b"",
        records: br#"{"run":1,"style":"optimistic","objects":[{"name":"c","kind":"counter"}]}
{"step":"begin","tx":"t1","thread":"p1"}
{"step":"op","tx":"t1","id":1,"on":"c","call":"add","args":[2],"result":null}
{"step":"begin","tx":"t2","thread":"p2"}
{"step":"op","tx":"t2","id":2,"on":"c","call":"add","args":[3],"result":null}
{"step":"commit","tx":"t2"}
{"step":"refresh","tx":"t1","on":"c"}
{"step":"op","tx":"t1","id":3,"on":"c","call":"get","args":[],"result":5}
{"step":"commit","tx":"t1"}
"#,
        status: Status::Accepted,
        report: br#"{"objects":[{"kind":"counter","name":"c"}],"run":1,"style":"rules"}
{"step":"begin","thread":"p1","tx":"t1"}
{"args":[2],"call":"add","id":1,"on":"c","result":null,"step":"app","tx":"t1"}
{"step":"begin","thread":"p2","tx":"t2"}
{"args":[3],"call":"add","id":2,"on":"c","result":null,"step":"app","tx":"t2"}
{"id":2,"step":"push","tx":"t2"}
{"step":"cmt","tx":"t2"}
{"step":"note","tx":"t1"}
{"id":2,"step":"pull","tx":"t1"}
{"args":[],"call":"get","id":3,"on":"c","result":5,"step":"app","tx":"t1"}
{"id":1,"step":"push","tx":"t1"}
{"id":3,"step":"push","tx":"t1"}
{"step":"cmt","tx":"t1"}
"#,
    },
    Row {
        what: "no line",
        header: b"",
        records: b"",
        status: Status::InputFault,
        report: b"fault line 1 NoHeader\n",
    },
    Row {
        what: "a fault behind a rejection",
        header: b"",
        records: br#"{"run":1,"style":"optimistic","objects":[{"name":"c","kind":"counter"}]}
{"step":"commit","tx":"t1"}
{"step":"xend","tx":"t1"}
"#,
        status: Status::InputFault,
        report: b"fault line 3 UnknownStep\n",
    },
];
