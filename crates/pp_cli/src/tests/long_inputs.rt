//! Inputs at the limits, made of many pieces.
use crate::tests::row::COUNTER;
use pp_core::Status;
use std::alloc::Global;
use std::test::Fail;

/// A text that is repeated this many times. Between its parts is its number, counted from 1.
pub(crate) struct Piece {
    parts: &'static [&'static [u8]],
    times: usize,
}

/// A case, with the pieces of its input and of its report.
pub(crate) struct Long {
    pub(crate) what: &'static str,
    pub(crate) input: &'static [Piece],
    pub(crate) status: Status,
    pub(crate) report: &'static [Piece],
}

/// The header of one counter in style boosted.
const BOOSTED: &[u8] = br#"{"run":1,"style":"boosted","objects":[{"name":"c","kind":"counter"}]}
"#;

/// 628 transactions that add to a counter in style boosted, and one that is retried 610 times.
pub(crate) const TOO_MANY_STEPS: &[Piece] = &[
    Piece {
        parts: &[BOOSTED],
        times: 1,
    },
    Piece {
        parts: &[
            br#"{"step":"begin","tx":"t"#,
            br#"","thread":"p1"}
{"step":"op","tx":"t"#,
            b"\",\"id\":",
            b",\"on\":\"c\",\"call\":\"add\",\"args\":[1],\"result\":null}\n{\"step\":\"commit\",\"tx\":\"t",
            b"\"}\n",
        ],
        times: 628,
    },
    Piece {
        parts: &[
            br#"{"step":"begin","tx":"t629","thread":"p1"}
"#,
        ],
        times: 1,
    },
    Piece {
        parts: &[
            br#"{"step":"retry","tx":"t629"}
"#,
        ],
        times: 610,
    },
];

/// 200,001 empty lines after a header.
const TOO_MANY_LINES: &[Piece] = &[
    Piece {
        parts: &[COUNTER],
        times: 1,
    },
    Piece {
        parts: &[b"\n"],
        times: 200_001,
    },
];

/// Runs past the limits of `certify` on transactions and lines, with what `judge` reports.
pub(crate) const JUDGED: [Long; 2] = [
    Long {
        what: "a transaction more than certify takes",
        input: &[
            Piece {
                parts: &[COUNTER],
                times: 1,
            },
            Piece {
                parts: &[
                    br#"{"step":"begin","tx":"t"#,
                    b"\",\"thread\":\"p1\"}\n{\"step\":\"quit\",\"tx\":\"t",
                    b"\"}\n",
                ],
                times: 20_001,
            },
        ],
        status: Status::Accepted,
        report: &[Piece {
            parts: &[b"accepted steps 40002 committed 0\nstate c 0\n"],
            times: 1,
        }],
    },
    Long {
        what: "a line more than certify takes",
        input: TOO_MANY_LINES,
        status: Status::Accepted,
        report: &[Piece {
            parts: &[b"accepted steps 0 committed 0\nstate c 0\n"],
            times: 1,
        }],
    },
];

pub(crate) const LONG: [Long; 11] = [
    Long {
        what: "an object too many",
        input: &[
            Piece {
                parts: &[br#"{"run":1,"style":"rules","objects":[{"name":"c","kind":"counter"}"#],
                times: 1,
            },
            Piece {
                parts: &[br#",{"name":"c"#, br#"","kind":"counter"}"#],
                times: 256,
            },
            Piece {
                parts: &[b"]}\n"],
                times: 1,
            },
        ],
        status: Status::InputFault,
        report: &[Piece {
            parts: &[b"fault line 1 TooManyObjects\n"],
            times: 1,
        }],
    },
    Long {
        what: "the most operations of a start",
        input: &[
            Piece {
                parts: &[
                    br#"{"run":2,"style":"rules","objects":[{"name":"c","kind":"counter"}],"start":{"tx":"t0","ops":[{"id":0,"on":"c","call":"get","args":[],"result":1}"#,
                ],
                times: 1,
            },
            Piece {
                parts: &[
                    b",{\"id\":",
                    br#","on":"c","call":"add","args":[7],"result":null}"#,
                ],
                times: 255,
            },
            Piece {
                parts: &[b"]}}\n"],
                times: 1,
            },
        ],
        status: Status::Rejected,
        report: &[Piece {
            parts: &[b"rejected step 0 line 1 START 2\nentry 0 gives 0\n"],
            times: 1,
        }],
    },
    Long {
        what: "an operation of a start too many",
        input: &[
            Piece {
                parts: &[
                    br#"{"run":2,"style":"rules","objects":[{"name":"c","kind":"counter"}],"start":{"tx":"t0","ops":[{"id":0,"on":"c","call":"add","args":[7],"result":null}"#,
                ],
                times: 1,
            },
            Piece {
                parts: &[
                    b",{\"id\":",
                    br#","on":"c","call":"add","args":[7],"result":null}"#,
                ],
                times: 256,
            },
            Piece {
                parts: &[b"]}}\n"],
                times: 1,
            },
        ],
        status: Status::InputFault,
        report: &[Piece {
            parts: &[b"fault line 1 TooManyStart\n"],
            times: 1,
        }],
    },
    Long {
        what: "a transaction too many",
        input: &[
            Piece {
                parts: &[COUNTER],
                times: 1,
            },
            Piece {
                parts: &[br#"{"step":"begin","tx":"t"#, b"\",\"thread\":\"p1\"}\n"],
                times: 20_001,
            },
        ],
        status: Status::InputFault,
        report: &[Piece {
            parts: &[b"fault line 20002 TooManyTransactions\n"],
            times: 1,
        }],
    },
    Long {
        what: "a byte of a line too many",
        input: &[Piece {
            parts: &[b" "],
            times: 65_537,
        }],
        status: Status::InputFault,
        report: &[Piece {
            parts: &[b"fault line 1 LineTooLong\n"],
            times: 1,
        }],
    },
    Long {
        what: "the most lines",
        input: &[
            Piece {
                parts: &[COUNTER],
                times: 1,
            },
            Piece {
                parts: &[b"\n"],
                times: 200_000,
            },
        ],
        status: Status::Accepted,
        report: &[Piece {
            parts: &[b"accepted steps 0 committed 0\nstate c 0\n"],
            times: 1,
        }],
    },
    Long {
        what: "a line too many",
        input: TOO_MANY_LINES,
        status: Status::InputFault,
        report: &[Piece {
            parts: &[b"fault line 200002 TooManyLines\n"],
            times: 1,
        }],
    },
    Long {
        what: "operations that are pulled by each transaction behind them",
        input: &[
            Piece {
                parts: &[BOOSTED],
                times: 1,
            },
            Piece {
                parts: &[
                    br#"{"step":"begin","tx":"t"#,
                    br#"","thread":"p1"}
{"step":"op","tx":"t"#,
                    b"\",\"id\":",
                    b",\"on\":\"c\",\"call\":\"add\",\"args\":[1],\"result\":null}\n{\"step\":\"commit\",\"tx\":\"t",
                    b"\"}\n",
                ],
                times: 628,
            },
        ],
        status: Status::Accepted,
        report: &[
            Piece {
                parts: &[b"accepted steps 199390 committed 628\n"],
                times: 1,
            },
            Piece {
                parts: &[b"tx t", b"\nop ", b" c.add(1)=none\n"],
                times: 628,
            },
            Piece {
                parts: &[b"state c 628\n"],
                times: 1,
            },
        ],
    },
    Long {
        what: "the most steps",
        input: &[
            Piece {
                parts: &[BOOSTED],
                times: 1,
            },
            Piece {
                parts: &[
                    br#"{"step":"begin","tx":"t"#,
                    br#"","thread":"p1"}
{"step":"op","tx":"t"#,
                    b"\",\"id\":",
                    b",\"on\":\"c\",\"call\":\"add\",\"args\":[1],\"result\":null}\n{\"step\":\"commit\",\"tx\":\"t",
                    b"\"}\n",
                ],
                times: 628,
            },
            Piece {
                parts: &[
                    br#"{"step":"begin","tx":"t629","thread":"p1"}
"#,
                ],
                times: 1,
            },
            Piece {
                parts: &[
                    br#"{"step":"retry","tx":"t629"}
"#,
                ],
                times: 609,
            },
        ],
        status: Status::Accepted,
        report: &[
            Piece {
                parts: &[b"accepted steps 200000 committed 628\n"],
                times: 1,
            },
            Piece {
                parts: &[b"tx t", b"\nop ", b" c.add(1)=none\n"],
                times: 628,
            },
            Piece {
                parts: &[b"state c 628\n"],
                times: 1,
            },
        ],
    },
    Long {
        what: "the most transactions",
        input: &[
            Piece {
                parts: &[COUNTER],
                times: 1,
            },
            Piece {
                parts: &[
                    br#"{"step":"begin","tx":"t"#,
                    b"\",\"thread\":\"p1\"}\n{\"step\":\"quit\",\"tx\":\"t",
                    b"\"}\n",
                ],
                times: 20_000,
            },
        ],
        status: Status::Accepted,
        report: &[Piece {
            parts: &[b"accepted steps 40000 committed 0\nstate c 0\n"],
            times: 1,
        }],
    },
    Long {
        what: "a step too many",
        input: TOO_MANY_STEPS,
        status: Status::InputFault,
        report: &[Piece {
            parts: &[b"fault line 2496 TooManySteps\n"],
            times: 1,
        }],
    },
];

/// Adds a piece, which has this number.
fn push_piece(
    alloc: Global,
    bytes: &mut Vec<u8>,
    piece: &Piece,
    number: usize,
) -> Result<(), Fail> {
    for (place, part) in piece.parts.iter().enumerate() {
        if place > 0 {
            bytes.extend_from_slice(number.to_string(alloc)?.as_bytes())?;
        }
        bytes.extend_from_slice(part)?;
    }
    Ok(())
}

/// The bytes of pieces.
pub(crate) fn bytes_of(alloc: Global, pieces: &[Piece]) -> Result<Vec<u8>, Fail> {
    let mut bytes = Vec::new(alloc);
    for piece in pieces {
        for number in 1..=piece.times {
            push_piece(alloc, &mut bytes, piece, number)?;
        }
    }
    Ok(bytes)
}

/// Transactions that add to a counter, each of them still open.
const OPEN: &[Piece] = &[
    Piece {
        parts: &[BOOSTED],
        times: 1,
    },
    Piece {
        parts: &[
            br#"{"step":"begin","tx":"t"#,
            br#"","thread":"p"#,
            b"\"}\n{\"step\":\"op\",\"tx\":\"t",
            b"\",\"id\":",
            b",\"on\":\"c\",\"call\":\"add\",\"args\":[1],\"result\":null}\n",
        ],
        times: 1_415,
    },
];

/// The commit of a transaction.
const COMMIT: Piece = Piece {
    parts: &[br#"{"step":"commit","tx":"t"#, b"\"}\n"],
    times: 1,
};

/// 1,415 transactions that add to a counter, and commit from the last to the first.
pub(crate) fn turned_commits(alloc: Global) -> Result<Vec<u8>, Fail> {
    let mut bytes = bytes_of(alloc, OPEN)?;
    for number in (1..=1_415).rev() {
        push_piece(alloc, &mut bytes, &COMMIT, number)?;
    }
    Ok(bytes)
}

/// A transaction adds to a counter 2,000 times, and then takes back and adds 999 times more.
/// Another transaction adds once. Their attempts have 2,000,001 operations together.
pub(crate) const MANY_PEAKS: &[Piece] = &[
    Piece {
        parts: &[COUNTER],
        times: 1,
    },
    Piece {
        parts: &[
            br#"{"step":"begin","tx":"t1","thread":"p1"}
"#,
        ],
        times: 1,
    },
    Piece {
        parts: &[
            br#"{"step":"app","tx":"t1","id":"#,
            br#","on":"c","call":"add","args":[1],"result":null}
"#,
        ],
        times: 2_000,
    },
    Piece {
        parts: &[
            br#"{"step":"unapp","tx":"t1","id":2000}
"#,
        ],
        times: 1,
    },
    Piece {
        parts: &[
            br#"{"step":"app","tx":"t1","id":"#,
            br#"00000,"on":"c","call":"add","args":[1],"result":null}
{"step":"unapp","tx":"t1","id":"#,
            b"00000}\n",
        ],
        times: 998,
    },
    Piece {
        parts: &[
            br#"{"step":"app","tx":"t1","id":0,"on":"c","call":"add","args":[1],"result":null}
{"step":"begin","tx":"t2","thread":"p2"}
{"step":"app","tx":"t2","id":900000000,"on":"c","call":"add","args":[1],"result":null}
"#,
        ],
        times: 1,
    },
];
