//! The steps of the machine, and the rules that they follow.
ghost use Rattle.std.specs.Prelude.{◌≡◌, IfOk};
ghost use Rattle.pp_core.specs.Steps.{meaning, rule_of};
ghost use Rattle.pp_core.specs.Words.{rule_word};

use crate::answer::OutOfMemory;
use crate::body::Body;
use crate::name::Name;
use std::alloc::Global;

/// A step of the machine: what one transaction does at once.
#[derive(Drop)]
pub enum Step<O> {
    Begin {
        tx: Name,
        thread: Name,
        body: Option<Body>,
    },
    App {
        tx: Name,
        id: u32,
        op: O,
    },
    Unapp {
        tx: Name,
        id: u32,
    },
    Push {
        tx: Name,
        id: u32,
    },
    Unpush {
        tx: Name,
        id: u32,
    },
    Pull {
        tx: Name,
        id: u32,
    },
    Unpull {
        tx: Name,
        id: u32,
    },
    Cmt {
        tx: Name,
    },
    Quit {
        tx: Name,
    },
    Note {
        tx: Name,
    },
}

impl<O: Copy> Step<O> {
    /// The same step. The only error is out of memory for its body.
    pub fn copy(&self, alloc: Global) -> Result<Step<O>, OutOfMemory>
        ensures { IfOk result (λ copy. meaning copy ≡ meaning self.now) }
    {
        match self {
            Step::Begin { tx, thread, body } => Ok(Step::Begin {
                tx: *tx,
                thread: *thread,
                body: Body::copy_if_any(body, alloc)?,
            }),
            Step::App { tx, id, op } => Ok(Step::App {
                tx: *tx,
                id: *id,
                op: *op,
            }),
            Step::Unapp { tx, id } => Ok(Step::Unapp { tx: *tx, id: *id }),
            Step::Push { tx, id } => Ok(Step::Push { tx: *tx, id: *id }),
            Step::Unpush { tx, id } => Ok(Step::Unpush { tx: *tx, id: *id }),
            Step::Pull { tx, id } => Ok(Step::Pull { tx: *tx, id: *id }),
            Step::Unpull { tx, id } => Ok(Step::Unpull { tx: *tx, id: *id }),
            Step::Cmt { tx } => Ok(Step::Cmt { tx: *tx }),
            Step::Quit { tx } => Ok(Step::Quit { tx: *tx }),
            Step::Note { tx } => Ok(Step::Note { tx: *tx }),
        }
    }
}

/// The rule that a step follows, or the start of a run.
#[derive(Clone, Copy, Debug, PartialEq, Eq)]
pub enum Rule {
    Start,
    Begin,
    App,
    Unapp,
    Push,
    Unpush,
    Pull,
    Unpull,
    Cmt,
    Quit,
    Note,
}

impl Rule {
    /// Its name in a report.
    pub fn word(self) -> &'static str
        ensures { result.now ≡ rule_word self }
    {
        match self {
            Rule::Start => "START",
            Rule::Begin => "BEGIN",
            Rule::App => "APP",
            Rule::Unapp => "UNAPP",
            Rule::Push => "PUSH",
            Rule::Unpush => "UNPUSH",
            Rule::Pull => "PULL",
            Rule::Unpull => "UNPULL",
            Rule::Cmt => "CMT",
            Rule::Quit => "QUIT",
            Rule::Note => "NOTE",
        }
    }
}

/// The rule of a step.
pub fn rule_of<O>(step: &Step<O>) -> Rule
    ensures { result ≡ rule_of (meaning step.now) }
{
    match step {
        Step::Begin { .. } => Rule::Begin,
        Step::App { .. } => Rule::App,
        Step::Unapp { .. } => Rule::Unapp,
        Step::Push { .. } => Rule::Push,
        Step::Unpush { .. } => Rule::Unpush,
        Step::Pull { .. } => Rule::Pull,
        Step::Unpull { .. } => Rule::Unpull,
        Step::Cmt { .. } => Rule::Cmt,
        Step::Quit { .. } => Rule::Quit,
        Step::Note { .. } => Rule::Note,
    }
}
