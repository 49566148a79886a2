//! Runs that are accepted, with their reports.
use crate::tests::row::{COUNTER, MEMORY, PRIORITY_QUEUE, QUEUE, Row, STACK};
use pp_core::Status;

pub(crate) const ACCEPTED: [Row; 26] = [
    Row {
        what: "a header alone",
        header: COUNTER,
        records: b"",
        status: Status::Accepted,
        report: b"accepted steps 0 committed 0\nstate c 0\n",
    },
    Row {
        what: "one transaction",
        header: COUNTER,
        records: br#"{"step":"begin","tx":"t1","thread":"p1"}
{"step":"app","tx":"t1","id":1,"on":"c","call":"add","args":[2],"result":null}
{"step":"push","tx":"t1","id":1}
{"step":"cmt","tx":"t1"}
"#,
        status: Status::Accepted,
        report: b"accepted steps 4 committed 1\ntx t1\nop 1 c.add(2)=none\nstate c 2\n",
    },
    Row {
        what: "an unfinished transaction",
        header: COUNTER,
        records: br#"{"step":"begin","tx":"t1","thread":"p1"}
{"step":"app","tx":"t1","id":1,"on":"c","call":"add","args":[2],"result":null}
{"step":"push","tx":"t1","id":1}
"#,
        status: Status::Accepted,
        report: b"accepted steps 3 committed 0\nstate c 0\n",
    },
    Row {
        what: "two transactions that add at the same time",
        header: COUNTER,
        records: br#"{"step":"begin","tx":"t1","thread":"p1"}
{"step":"begin","tx":"t2","thread":"p2"}
{"step":"app","tx":"t1","id":1,"on":"c","call":"add","args":[1],"result":null}
{"step":"app","tx":"t2","id":2,"on":"c","call":"add","args":[5],"result":null}
{"step":"push","tx":"t1","id":1}
{"step":"push","tx":"t2","id":2}
{"step":"cmt","tx":"t2"}
{"step":"cmt","tx":"t1"}
"#,
        status: Status::Accepted,
        report: b"accepted steps 8 committed 2\ntx t2\nop 2 c.add(5)=none\ntx t1\nop 1 c.add(1)=none\nstate c 6\n",
    },
    Row {
        what: "a memory and a counter",
        header: br#"{"run":1,"style":"rules","objects":[{"name":"m","kind":"mem"},{"name":"c","kind":"counter"}]}
"#,
        records: br#"{"step":"begin","tx":"t1","thread":"p1"}
{"step":"app","tx":"t1","id":1,"on":"m","call":"write","args":[3,9],"result":null}
{"step":"app","tx":"t1","id":2,"on":"c","call":"fetch_add","args":[4],"result":0}
{"step":"push","tx":"t1","id":2}
{"step":"push","tx":"t1","id":1}
{"step":"cmt","tx":"t1"}
"#,
        status: Status::Accepted,
        report: b"accepted steps 6 committed 1\ntx t1\nop 1 m.write(3,9)=none\nop 2 c.fetch_add(4)=0\nstate m 3=9\nstate c 4\n",
    },
    Row {
        what: "two transactions that write the same number",
        header: MEMORY,
        records: br#"{"step":"begin","tx":"t1","thread":"p1"}
{"step":"begin","tx":"t2","thread":"p2"}
{"step":"app","tx":"t1","id":1,"on":"m","call":"write","args":[0,5],"result":null}
{"step":"push","tx":"t1","id":1}
{"step":"app","tx":"t2","id":2,"on":"m","call":"write","args":[0,5],"result":null}
{"step":"push","tx":"t2","id":2}
{"step":"cmt","tx":"t2"}
{"step":"cmt","tx":"t1"}
"#,
        status: Status::Accepted,
        report: b"accepted steps 8 committed 2\ntx t2\nop 2 m.write(0,5)=none\ntx t1\nop 1 m.write(0,5)=none\nstate m 0=5\n",
    },
    Row {
        what: "a commit without a call, under a body",
        header: COUNTER,
        records: br#"{"step":"begin","tx":"t1","thread":"p1","body":{"star":{"skip":true}}}
{"step":"cmt","tx":"t1"}
"#,
        status: Status::Accepted,
        report: b"accepted steps 2 committed 1\ntx t1\nstate c 0\n",
    },
    Row {
        what: "a body that adds any number of times",
        header: COUNTER,
        records: br#"{"step":"begin","tx":"t1","thread":"p1","body":{"star":{"on":"c","call":"add","args":[null]}}}
{"step":"app","tx":"t1","id":1,"on":"c","call":"add","args":[1],"result":null}
{"step":"app","tx":"t1","id":2,"on":"c","call":"add","args":[2],"result":null}
{"step":"push","tx":"t1","id":1}
{"step":"push","tx":"t1","id":2}
{"step":"cmt","tx":"t1"}
"#,
        status: Status::Accepted,
        report: b"accepted steps 6 committed 1\ntx t1\nop 1 c.add(1)=none\nop 2 c.add(2)=none\nstate c 3\n",
    },
    Row {
        what: "a body of the most nodes",
        header: COUNTER,
        records: br#"{"step":"begin","tx":"t1","thread":"p1","body":{"seq":[{"skip":true},{"skip":true},{"skip":true},{"skip":true},{"skip":true},{"skip":true},{"skip":true},{"skip":true},{"skip":true},{"skip":true},{"skip":true},{"skip":true},{"skip":true},{"skip":true},{"skip":true},{"skip":true},{"skip":true},{"skip":true},{"skip":true},{"skip":true},{"skip":true},{"skip":true},{"skip":true},{"skip":true},{"skip":true},{"skip":true},{"skip":true},{"skip":true},{"skip":true},{"skip":true},{"skip":true},{"skip":true},{"skip":true},{"skip":true},{"skip":true},{"skip":true},{"skip":true},{"skip":true},{"skip":true},{"skip":true},{"skip":true},{"skip":true},{"skip":true},{"skip":true},{"skip":true},{"skip":true},{"skip":true},{"skip":true},{"skip":true},{"skip":true},{"skip":true},{"skip":true},{"skip":true},{"skip":true},{"skip":true},{"skip":true},{"skip":true},{"skip":true},{"skip":true},{"skip":true},{"skip":true},{"skip":true},{"skip":true}]}}
"#,
        status: Status::Accepted,
        report: b"accepted steps 1 committed 0\nstate c 0\n",
    },
    Row {
        what: "an item that is taken over a pull while another is put in",
        header: QUEUE,
        records: br#"{"step":"begin","tx":"t0","thread":"p0"}
{"step":"app","tx":"t0","id":1,"on":"q","call":"enq","args":[3],"result":null}
{"step":"push","tx":"t0","id":1}
{"step":"cmt","tx":"t0"}
{"step":"begin","tx":"t1","thread":"p1"}
{"step":"app","tx":"t1","id":2,"on":"q","call":"enq","args":[4],"result":null}
{"step":"push","tx":"t1","id":2}
{"step":"begin","tx":"t2","thread":"p2"}
{"step":"pull","tx":"t2","id":1}
{"step":"app","tx":"t2","id":3,"on":"q","call":"deq","args":[],"result":3}
{"step":"push","tx":"t2","id":3}
{"step":"cmt","tx":"t2"}
{"step":"cmt","tx":"t1"}
"#,
        status: Status::Accepted,
        report: b"accepted steps 13 committed 3\ntx t0\nop 1 q.enq(3)=none\ntx t2\nop 3 q.deq()=3\ntx t1\nop 2 q.enq(4)=none\nstate q 4\n",
    },
    Row {
        what: "an item that is put in again while it is taken",
        header: QUEUE,
        records: br#"{"step":"begin","tx":"t0","thread":"p0"}
{"step":"app","tx":"t0","id":1,"on":"q","call":"enq","args":[3],"result":null}
{"step":"push","tx":"t0","id":1}
{"step":"cmt","tx":"t0"}
{"step":"begin","tx":"t1","thread":"p1"}
{"step":"pull","tx":"t1","id":1}
{"step":"app","tx":"t1","id":2,"on":"q","call":"deq","args":[],"result":3}
{"step":"push","tx":"t1","id":2}
{"step":"begin","tx":"t2","thread":"p2"}
{"step":"app","tx":"t2","id":3,"on":"q","call":"enq","args":[3],"result":null}
{"step":"push","tx":"t2","id":3}
{"step":"cmt","tx":"t2"}
{"step":"cmt","tx":"t1"}
"#,
        status: Status::Accepted,
        report: b"accepted steps 13 committed 3\ntx t0\nop 1 q.enq(3)=none\ntx t2\nop 3 q.enq(3)=none\ntx t1\nop 2 q.deq()=3\nstate q 3\n",
    },
    Row {
        what: "a number at its limit, a member that is not known, and lines that end in 13 10",
        header: b"",
        records: b"{\"run\":1,\"style\":\"rules\",\"objects\":[{\"name\":\"c\",\"kind\":\"counter\"}]}\r\n{\"step\":\"begin\",\"tx\":\"t1\",\"thread\":\"p1\",\"at\":17}\r\n{\"step\":\"app\",\"tx\":\"t1\",\"id\":1,\"on\":\"c\",\"call\":\"add\",\"args\":[1000000000000000000],\"result\":null}\r\n{\"step\":\"push\",\"tx\":\"t1\",\"id\":1}\r\n{\"step\":\"cmt\",\"tx\":\"t1\"}\r\n",
        status: Status::Accepted,
        report: b"accepted steps 4 committed 1\ntx t1\nop 1 c.add(1000000000000000000)=none\nstate c 1000000000000000000\n",
    },
    Row {
        what: "a set, a queue and a map",
        header: br#"{"run":1,"style":"rules","objects":[{"name":"s","kind":"set"},{"name":"q","kind":"queue"},{"name":"a","kind":"map"}]}
"#,
        records: br#"{"step":"begin","tx":"t1","thread":"p1"}
{"step":"app","tx":"t1","id":1,"on":"s","call":"add","args":[7],"result":true}
{"step":"app","tx":"t1","id":2,"on":"q","call":"enq","args":[4],"result":null}
{"step":"app","tx":"t1","id":3,"on":"q","call":"enq","args":[3],"result":null}
{"step":"app","tx":"t1","id":4,"on":"a","call":"put","args":[1,-8],"result":null}
{"step":"app","tx":"t1","id":5,"on":"s","call":"add","args":[-5],"result":true}
{"step":"push","tx":"t1","id":1}
{"step":"push","tx":"t1","id":2}
{"step":"push","tx":"t1","id":3}
{"step":"push","tx":"t1","id":4}
{"step":"push","tx":"t1","id":5}
{"step":"cmt","tx":"t1"}
"#,
        status: Status::Accepted,
        report: br#"accepted steps 12 committed 1
tx t1
op 1 s.add(7)=true
op 2 q.enq(4)=none
op 3 q.enq(3)=none
op 4 a.put(1,-8)=none
op 5 s.add(-5)=true
state s -5 7
state q 4 3
state a 1=-8
"#,
    },
    Row {
        what: "a call that is taken back, so that the body's other part is taken",
        header: COUNTER,
        records: br#"{"step":"begin","tx":"t1","thread":"p1","body":{"alt":[{"seq":[{"on":"c","call":"add","args":[null]},{"on":"c","call":"get","args":[]}]},{"seq":[{"on":"c","call":"add","args":[null]},{"on":"c","call":"add","args":[null]}]}]}}
{"step":"app","tx":"t1","id":1,"on":"c","call":"add","args":[1],"result":null}
{"step":"app","tx":"t1","id":2,"on":"c","call":"get","args":[],"result":1}
{"step":"unapp","tx":"t1","id":2}
{"step":"app","tx":"t1","id":3,"on":"c","call":"add","args":[1],"result":null}
{"step":"push","tx":"t1","id":1}
{"step":"push","tx":"t1","id":3}
{"step":"cmt","tx":"t1"}
"#,
        status: Status::Accepted,
        report: br#"accepted steps 8 committed 1
tx t1
op 1 c.add(1)=none
op 3 c.add(1)=none
state c 2
"#,
    },
    Row {
        what: "a write that is withdrawn, and a reader that gives it up and reads again",
        header: MEMORY,
        records: br#"{"step":"begin","tx":"t1","thread":"p1"}
{"step":"app","tx":"t1","id":1,"on":"m","call":"write","args":[0,7],"result":null}
{"step":"push","tx":"t1","id":1}
{"step":"begin","tx":"t2","thread":"p2"}
{"step":"pull","tx":"t2","id":1}
{"step":"app","tx":"t2","id":2,"on":"m","call":"read","args":[0],"result":7}
{"step":"unpush","tx":"t1","id":1}
{"step":"unapp","tx":"t1","id":1}
{"step":"quit","tx":"t1"}
{"step":"unapp","tx":"t2","id":2}
{"step":"unpull","tx":"t2","id":1}
{"step":"app","tx":"t2","id":3,"on":"m","call":"read","args":[0],"result":0}
{"step":"push","tx":"t2","id":3}
{"step":"cmt","tx":"t2"}
{"step":"begin","tx":"t1_again","thread":"p1"}
{"step":"app","tx":"t1_again","id":4,"on":"m","call":"write","args":[0,8],"result":null}
{"step":"push","tx":"t1_again","id":4}
{"step":"cmt","tx":"t1_again"}
"#,
        status: Status::Accepted,
        report: br#"accepted steps 18 committed 2
tx t2
op 3 m.read(0)=0
tx t1_again
op 4 m.write(0,8)=none
state m 0=8
"#,
    },
    Row {
        what: "a compare-and-swap that succeeds, and one that fails",
        header: MEMORY,
        records: br#"{"step":"begin","tx":"t1","thread":"p1"}
{"step":"app","tx":"t1","id":1,"on":"m","call":"cas","args":[0,0,5],"result":true}
{"step":"app","tx":"t1","id":2,"on":"m","call":"cas","args":[0,0,6],"result":false}
{"step":"push","tx":"t1","id":1}
{"step":"push","tx":"t1","id":2}
{"step":"cmt","tx":"t1"}
"#,
        status: Status::Accepted,
        report: br#"accepted steps 6 committed 1
tx t1
op 1 m.cas(0,0,5)=true
op 2 m.cas(0,0,6)=false
state m 0=5
"#,
    },
    Row {
        what: "a compare-and-swap that fails beside one that succeeds",
        header: MEMORY,
        records: br#"{"step":"begin","tx":"t1","thread":"p1"}
{"step":"app","tx":"t1","id":1,"on":"m","call":"cas","args":[0,0,5],"result":true}
{"step":"push","tx":"t1","id":1}
{"step":"begin","tx":"t2","thread":"p2"}
{"step":"app","tx":"t2","id":2,"on":"m","call":"cas","args":[0,7,9],"result":false}
{"step":"push","tx":"t2","id":2}
"#,
        status: Status::Accepted,
        report: br#"accepted steps 6 committed 0
state m
"#,
    },
    Row {
        what: "two transactions that push one item",
        header: STACK,
        records: br#"{"step":"begin","tx":"t1","thread":"p1"}
{"step":"app","tx":"t1","id":1,"on":"k","call":"push","args":[4],"result":null}
{"step":"push","tx":"t1","id":1}
{"step":"begin","tx":"t2","thread":"p2"}
{"step":"app","tx":"t2","id":2,"on":"k","call":"push","args":[4],"result":null}
{"step":"push","tx":"t2","id":2}
{"step":"cmt","tx":"t2"}
{"step":"cmt","tx":"t1"}
"#,
        status: Status::Accepted,
        report: br#"accepted steps 8 committed 2
tx t2
op 2 k.push(4)=none
tx t1
op 1 k.push(4)=none
state k 4 4
"#,
    },
    Row {
        what: "a greater value inserted beside a take",
        header: PRIORITY_QUEUE,
        records: br#"{"step":"begin","tx":"t0","thread":"p0"}
{"step":"app","tx":"t0","id":1,"on":"h","call":"insert","args":[3],"result":null}
{"step":"push","tx":"t0","id":1}
{"step":"cmt","tx":"t0"}
{"step":"begin","tx":"t1","thread":"p1"}
{"step":"pull","tx":"t1","id":1}
{"step":"app","tx":"t1","id":2,"on":"h","call":"take","args":[],"result":3}
{"step":"push","tx":"t1","id":2}
{"step":"begin","tx":"t2","thread":"p2"}
{"step":"app","tx":"t2","id":3,"on":"h","call":"insert","args":[7],"result":null}
{"step":"push","tx":"t2","id":3}
{"step":"cmt","tx":"t2"}
{"step":"cmt","tx":"t1"}
"#,
        status: Status::Accepted,
        report: br#"accepted steps 13 committed 3
tx t0
op 1 h.insert(3)=none
tx t2
op 3 h.insert(7)=none
tx t1
op 2 h.take()=3
state h 7
"#,
    },
    Row {
        what: "of a priority queue the least is taken, and one of two that are equal",
        header: PRIORITY_QUEUE,
        records: br#"{"step":"begin","tx":"t1","thread":"p1"}
{"step":"app","tx":"t1","id":1,"on":"h","call":"insert","args":[3],"result":null}
{"step":"app","tx":"t1","id":2,"on":"h","call":"insert","args":[1],"result":null}
{"step":"app","tx":"t1","id":3,"on":"h","call":"insert","args":[1],"result":null}
{"step":"app","tx":"t1","id":4,"on":"h","call":"take","args":[],"result":1}
{"step":"app","tx":"t1","id":5,"on":"h","call":"least","args":[],"result":1}
{"step":"push","tx":"t1","id":1}
{"step":"push","tx":"t1","id":2}
{"step":"push","tx":"t1","id":3}
{"step":"push","tx":"t1","id":4}
{"step":"push","tx":"t1","id":5}
{"step":"cmt","tx":"t1"}
"#,
        status: Status::Accepted,
        report: br#"accepted steps 12 committed 1
tx t1
op 1 h.insert(3)=none
op 2 h.insert(1)=none
op 3 h.insert(1)=none
op 4 h.take()=1
op 5 h.least()=1
state h 1 3
"#,
    },
    Row {
        what: "of a stack the last item is popped",
        header: STACK,
        records: br#"{"step":"begin","tx":"t1","thread":"p1"}
{"step":"app","tx":"t1","id":1,"on":"k","call":"push","args":[3],"result":null}
{"step":"app","tx":"t1","id":2,"on":"k","call":"push","args":[1],"result":null}
{"step":"app","tx":"t1","id":3,"on":"k","call":"pop","args":[],"result":1}
{"step":"push","tx":"t1","id":1}
{"step":"push","tx":"t1","id":2}
{"step":"push","tx":"t1","id":3}
{"step":"cmt","tx":"t1"}
"#,
        status: Status::Accepted,
        report: br#"accepted steps 8 committed 1
tx t1
op 1 k.push(3)=none
op 2 k.push(1)=none
op 3 k.pop()=1
state k 3
"#,
    },
    Row {
        what: "a compare-and-swap withdrawn while a write stands behind it, and published again",
        header: MEMORY,
        records: br#"{"step":"begin","tx":"t1","thread":"p1"}
{"step":"app","tx":"t1","id":1,"on":"m","call":"write","args":[0,4],"result":null}
{"step":"app","tx":"t1","id":2,"on":"m","call":"cas","args":[0,4,5],"result":true}
{"step":"app","tx":"t1","id":3,"on":"m","call":"write","args":[1,6],"result":null}
{"step":"push","tx":"t1","id":1}
{"step":"push","tx":"t1","id":2}
{"step":"push","tx":"t1","id":3}
{"step":"unpush","tx":"t1","id":2}
{"step":"push","tx":"t1","id":2}
{"step":"cmt","tx":"t1"}
"#,
        status: Status::Accepted,
        report: br#"accepted steps 10 committed 1
tx t1
op 1 m.write(0,4)=none
op 2 m.cas(0,4,5)=true
op 3 m.write(1,6)=none
state m 0=5 1=6
"#,
    },
    Row {
        what: "a pulled put given up while another stands behind it, and pulled again",
        header: br#"{"run":1,"style":"rules","objects":[{"name":"a","kind":"map"}]}
"#,
        records: br#"{"step":"begin","tx":"t1","thread":"p1"}
{"step":"app","tx":"t1","id":1,"on":"a","call":"put","args":[1,5],"result":null}
{"step":"app","tx":"t1","id":2,"on":"a","call":"put","args":[2,6],"result":null}
{"step":"push","tx":"t1","id":1}
{"step":"push","tx":"t1","id":2}
{"step":"cmt","tx":"t1"}
{"step":"begin","tx":"t2","thread":"p2"}
{"step":"pull","tx":"t2","id":1}
{"step":"pull","tx":"t2","id":2}
{"step":"unpull","tx":"t2","id":1}
{"step":"pull","tx":"t2","id":1}
{"step":"app","tx":"t2","id":3,"on":"a","call":"get","args":[1],"result":5}
{"step":"push","tx":"t2","id":3}
{"step":"cmt","tx":"t2"}
"#,
        status: Status::Accepted,
        report: br#"accepted steps 14 committed 2
tx t1
op 1 a.put(1,5)=none
op 2 a.put(2,6)=none
tx t2
op 3 a.get(1)=5
state a 1=5 2=6
"#,
    },
    Row {
        what: "an enq and a deq withdrawn while calls stand behind them, and published again",
        header: QUEUE,
        records: br#"{"step":"begin","tx":"t1","thread":"p1"}
{"step":"app","tx":"t1","id":1,"on":"q","call":"enq","args":[3],"result":null}
{"step":"app","tx":"t1","id":2,"on":"q","call":"enq","args":[3],"result":null}
{"step":"app","tx":"t1","id":3,"on":"q","call":"deq","args":[],"result":3}
{"step":"app","tx":"t1","id":4,"on":"q","call":"enq","args":[4],"result":null}
{"step":"app","tx":"t1","id":5,"on":"q","call":"deq","args":[],"result":3}
{"step":"app","tx":"t1","id":6,"on":"q","call":"deq","args":[],"result":4}
{"step":"push","tx":"t1","id":1}
{"step":"push","tx":"t1","id":2}
{"step":"unpush","tx":"t1","id":1}
{"step":"push","tx":"t1","id":1}
{"step":"push","tx":"t1","id":3}
{"step":"push","tx":"t1","id":4}
{"step":"unpush","tx":"t1","id":3}
{"step":"push","tx":"t1","id":3}
{"step":"push","tx":"t1","id":5}
{"step":"push","tx":"t1","id":6}
{"step":"cmt","tx":"t1"}
"#,
        status: Status::Accepted,
        report: br#"accepted steps 18 committed 1
tx t1
op 1 q.enq(3)=none
op 2 q.enq(3)=none
op 3 q.deq()=3
op 4 q.enq(4)=none
op 5 q.deq()=3
op 6 q.deq()=4
state q
"#,
    },
    Row {
        what: "a push and a pop withdrawn while calls stand behind them, and published again",
        header: STACK,
        records: br#"{"step":"begin","tx":"t1","thread":"p1"}
{"step":"app","tx":"t1","id":1,"on":"k","call":"push","args":[5],"result":null}
{"step":"app","tx":"t1","id":2,"on":"k","call":"push","args":[4],"result":null}
{"step":"app","tx":"t1","id":3,"on":"k","call":"push","args":[4],"result":null}
{"step":"app","tx":"t1","id":4,"on":"k","call":"pop","args":[],"result":4}
{"step":"app","tx":"t1","id":5,"on":"k","call":"pop","args":[],"result":4}
{"step":"app","tx":"t1","id":6,"on":"k","call":"pop","args":[],"result":5}
{"step":"push","tx":"t1","id":1}
{"step":"push","tx":"t1","id":2}
{"step":"push","tx":"t1","id":3}
{"step":"unpush","tx":"t1","id":2}
{"step":"push","tx":"t1","id":2}
{"step":"push","tx":"t1","id":4}
{"step":"push","tx":"t1","id":5}
{"step":"unpush","tx":"t1","id":4}
{"step":"push","tx":"t1","id":4}
{"step":"push","tx":"t1","id":6}
{"step":"cmt","tx":"t1"}
"#,
        status: Status::Accepted,
        report: br#"accepted steps 18 committed 1
tx t1
op 1 k.push(5)=none
op 2 k.push(4)=none
op 3 k.push(4)=none
op 4 k.pop()=4
op 5 k.pop()=4
op 6 k.pop()=5
state k
"#,
    },
    Row {
        what: "an insert and a take withdrawn while calls stand behind them, and published again",
        header: PRIORITY_QUEUE,
        records: br#"{"step":"begin","tx":"t1","thread":"p1"}
{"step":"app","tx":"t1","id":1,"on":"h","call":"insert","args":[1],"result":null}
{"step":"app","tx":"t1","id":2,"on":"h","call":"insert","args":[2],"result":null}
{"step":"app","tx":"t1","id":3,"on":"h","call":"take","args":[],"result":1}
{"step":"app","tx":"t1","id":4,"on":"h","call":"insert","args":[3],"result":null}
{"step":"app","tx":"t1","id":5,"on":"h","call":"least","args":[],"result":2}
{"step":"push","tx":"t1","id":1}
{"step":"push","tx":"t1","id":2}
{"step":"unpush","tx":"t1","id":1}
{"step":"push","tx":"t1","id":1}
{"step":"push","tx":"t1","id":3}
{"step":"push","tx":"t1","id":4}
{"step":"unpush","tx":"t1","id":3}
{"step":"push","tx":"t1","id":3}
{"step":"push","tx":"t1","id":5}
{"step":"cmt","tx":"t1"}
"#,
        status: Status::Accepted,
        report: br#"accepted steps 16 committed 1
tx t1
op 1 h.insert(1)=none
op 2 h.insert(2)=none
op 3 h.take()=1
op 4 h.insert(3)=none
op 5 h.least()=2
state h 2 3
"#,
    },
];
