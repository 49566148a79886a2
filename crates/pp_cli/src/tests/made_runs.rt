//! Runs that are made from the number of their transactions.

/// A number, and what `drill` prints for it.
pub(crate) struct MadeRun {
    pub(crate) number: &'static [u8],
    pub(crate) report: &'static [u8],
}

pub(crate) const MADE: [MadeRun; 4] = [
    MadeRun {
        number: b"1",
        report: b"drill 1\naccepted steps 10 committed 1\nstate m 0=1\nstate c 1\nstate s\n",
    },
    MadeRun {
        number: b"3",
        report: b"drill 3\naccepted steps 27 committed 3\nstate m 0=2\nstate c 6\nstate s\n",
    },
    MadeRun {
        number: b"2000",
        report: b"drill 2000\naccepted steps 16999 committed 2000\nstate m 0=1000\nstate c 6000\nstate s\n",
    },
    MadeRun {
        number: b"20000",
        report: b"drill 20000\naccepted steps 169999 committed 20000\nstate m 0=10000\nstate c 59998\nstate s\n",
    },
];
