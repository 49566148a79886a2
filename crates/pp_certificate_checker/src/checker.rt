//! The checker of certificates.
ghost use Rattle.std.specs.Prelude.{◌≡◌, ◌+◌, ◌<◌, ◌≤◌, IfOk, IfSome, OnOk};
ghost use Rattle.pp_core.specs.declared.limits.TheConstants.{MOST_LINES};
ghost use Rattle.pp_certificate_checker.specs.Certificates.{Fresh, Head, shown_at};
ghost use Rattle.pp_certificate_checker.specs.Checking.{IsReadable, Takes, cost, serial_in};
ghost use Rattle.pp_certificate_checker.specs.Keeping.{stage_of, IsHeld, Moves};
ghost use Rattle.pp_certificate_checker.specs.Laws.{ShowsAllowed};

use crate::entry::enter;
use crate::exchange::{end, exchange};
use crate::held::Held;
use crate::line::Line;
use crate::refusal::Refusal;
use crate::shown::{Shown, show};
use pp_core::{OutOfMemory, Ticks};
use pp_kind::Spec;
use std::alloc::Global;
use std::marker::Model;
use std::sync::ledger::Ledger;

/// A checker that takes the lines of a certificate one after another. It is lost with a line that
/// is refused. Contracts see what was read, and how many lines.
#[derive(Drop)]
pub struct Checker<S: Spec> {
    alloc: Global,
    held: Held<S::Shape, S::State, S::Op>,
    lines: u32,
}

impl<S: Spec> Model for Checker<S> {
    ghost use Rattle.std.specs.Coded.{codes};
    ghost use Rattle.pp_certificate_checker.specs.Checking.{ReadSoFar};
    ghost use Rattle.std.specs.Prelude.{◌≤◌};
    ghost use Rattle.pp_core.specs.declared.limits.TheConstants.{MOST_LINES};
    ghost use Rattle.pp_certificate_checker.specs.Keeping.{stage_of, IsHeld};

    ghost Value = { ReadSoFar S.Shape S.Op };

    ghost coded = { Prim.hlevel (codes, S.Shape.code, S.Op.code) };

    ghost view = { λ a. record { stage = stage_of a.held; lines = a.lines } };

    ghost invariant = { λ a. IsHeld S.object a.held a.lines × (a.lines ≤ MOST_LINES) };
}

/// Takes the first line.
fn begin<S: Spec>(
    alloc: Global,
    held: Held<S::Shape, S::State, S::Op>,
    shape: S::Shape,
    lines: u32,
) -> Result<Result<Held<S::Shape, S::State, S::Op>, Refusal>, OutOfMemory>
    ensures { IfOk result (λ next. Moves S.object held (Head shape) lines next) }
{
    if !matches!(&held, Held::Nothing) {
        return Ok(Err(Refusal::NotCertificate));
    }
    let state = S::empty(alloc, &shape)?;
    Ok(Ok(Held::Entries {
        shape,
        list: Vec::new(alloc),
        state,
    }))
}

/// Takes a line.
fn moved<S: Spec, L: Ledger>(
    alloc: Global,
    held: Held<S::Shape, S::State, S::Op>,
    line: Line<S::Shape, S::Op>,
    lines: u32,
    ticks: &mut Ticks<L>,
) -> Result<Result<Held<S::Shape, S::State, S::Op>, Refusal>, OutOfMemory>
    requires held { IsHeld S.object held lines }
    requires few { lines < MOST_LINES }
    requires readable { IsReadable S.object line }
    ensures taken { IfOk result (λ next. Moves S.object held line lines next) }
    ensures cost { ticks.new ≡ ticks.old + cost S.object (stage_of held) line }
{
    match line {
        Line::Blank => Ok(Ok(held)),
        Line::Head(shape) => begin::<S>(alloc, held, shape, lines),
        Line::Entry(item) => enter::<S, L>(held, item, lines, ticks),
        Line::Exchanges(positions) => Ok(exchange::<S>(held, positions.as_slice(), lines)),
        Line::Serial(serial) => Ok(end::<S>(held, serial, lines)),
        Line::Other => Ok(Err(Refusal::NotCertificate)),
    }
}

impl<S: Spec> Checker<S> {
    /// A checker that has read nothing.
    pub fn new(alloc: Global) -> Checker<S>
        ensures { result ≡ record { stage = Fresh; lines = 0 } }
    {
        Checker {
            alloc,
            held: Held::Nothing,
            lines: 0,
        }
    }

    /// How many lines were taken.
    pub fn lines(&self) -> u32
        ensures lines { result ≡ self.now.lines }
        ensures few { result ≤ MOST_LINES }
    {
        self.lines
    }

    /// Takes a line, or says why it is refused. The only error is out of memory.
    pub fn take<L: Ledger>(
        self,
        line: Line<S::Shape, S::Op>,
        ticks: &mut Ticks<L>,
    ) -> Result<Result<Checker<S>, Refusal>, OutOfMemory>
        requires few { self.lines < MOST_LINES }
        requires readable { IsReadable S.object line }
        ensures taken { IfOk result (λ next. Takes S.object self line next) }
        ensures cost { ticks.new ≡ ticks.old + cost S.object self.stage line }
    {
        let Checker { alloc, held, lines } = self;
        match moved::<S, L>(alloc, held, line, lines, ticks)? {
            Ok(held) => Ok(Ok(Checker {
                alloc,
                held,
                lines: lines + 1,
            })),
            Err(why) => Ok(Err(why)),
        }
    }

    /// The verdict that the lines show, if a serial number is among them. The only error is out of
    /// memory.
    pub fn close<L: Ledger>(
        self,
        ticks: &mut Ticks<L>,
    ) -> Result<Option<Shown<S::Shape, S::State, S::Op>>, OutOfMemory>
        ensures shown { IfOk result (λ shown. shown ≡ shown_at S.object self.stage) }
        ensures allowed { IfOk result (λ shown. IfSome shown (ShowsAllowed S.object)) }
        ensures cost { OnOk result (ticks.new ≡ ticks.old + serial_in self.stage) }
        ensures rises { ticks.old ≤ ticks.new }
        ensures bound { ticks.new ≤ ticks.old + serial_in self.stage }
        ensures few { ticks.new ≤ ticks.old + self.lines }
    {
        let Checker {
            alloc,
            held,
            lines: _,
        } = self;
        match held {
            Held::All(turned, serial) => Ok(Some(show::<S, L>(alloc, turned, serial, ticks)?)),
            Held::Nothing | Held::Entries { .. } | Held::Exchanges(_) => Ok(None),
        }
    }
}
