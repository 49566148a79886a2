//! The lines of an input, taken as those of a certificate.
ghost use Rattle.std.specs.Prelude.{◌≡◌, ◌+◌, ◌<◌, ◌≤◌, ℕ, List, [], true, false, Some};
ghost use Rattle.std.specs.Prelude.{IfOk, IfSome, OnOk};
ghost use Rattle.pp_core.specs.declared.limits.TheConstants.{MOST_LINES};
ghost use Rattle.pp_input.specs.Lines.{blank};
ghost use Rattle.pp_objects.specs.Objects.{objects};
ghost use Rattle.pp_certificate_checker.specs.Certificates.{Fresh, shown_at};
ghost use Rattle.pp_certificate_checker.specs.Checking.{cost, serial_in};
ghost use Rattle.pp_certificate_lines.specs.Checkings.{line_in, read_in, Closes, Covers, CoversNamed};
ghost use Rattle.pp_certificate_lines.specs.Checkings.{LeadsOn, TakesLine};
ghost use Rattle.pp_certificate_lines.specs.declared.checking.Checking.TheVariants.{Before, Within};

use crate::read::{read_line, read_objects};
use pp_certificate_checker::{Checker, Line, Refusal, Shown};
use pp_core::{Catalog, Kinds, OutOfMemory, Ticks};
use pp_input::is_blank;
use pp_objects::{ObjectStates, Objects, Op};
use std::alloc::Global;
use std::sync::ledger::Ledger;

/// What the lines of a certificate so far lead to.
#[derive(Drop)]
pub enum Checking {
    /// All lines so far are blank.
    Before(Checker<Objects>),
    /// The objects that the first line names, and what the lines so far lead to.
    Within(Catalog, Checker<Objects>),
}

/// Takes a blank line.
fn pass_blank<L: Ledger>(
    checking: Checking,
    ticks: &mut Ticks<L>,
) -> Result<Result<Checking, Refusal>, OutOfMemory>
    requires few { (read_in checking).lines < MOST_LINES }
    ensures taken { IfOk result (λ next.
        (line : List ℕ) → blank line ≡ true → TakesLine checking line next) }
    ensures cost { ticks.new ≡ ticks.old }
{
    match checking {
        Checking::Before(checker) => match checker.take(Line::Blank, ticks)? {
            Ok(next) => Ok(Ok(Checking::Before(next))),
            Err(why) => Ok(Err(why)),
        },
        Checking::Within(catalog, checker) => match checker.take(Line::Blank, ticks)? {
            Ok(next) => Ok(Ok(Checking::Within(catalog, next))),
            Err(why) => Ok(Err(why)),
        },
    }
}

/// Takes the first line that is not blank.
fn take_first<L: Ledger>(
    alloc: Global,
    checker: Checker<Objects>,
    line: &[u8],
    ticks: &mut Ticks<L>,
) -> Result<Result<Checking, Refusal>, OutOfMemory>
    requires few { checker.lines < MOST_LINES }
    requires other { blank line.now ≡ false }
    ensures taken { IfOk result (λ next. TakesLine (Before checker) line.now next) }
    ensures cost { ticks.new ≡ ticks.old }
{
    let Some(catalog) = read_objects(alloc, line)? else {
        return Ok(Err(Refusal::NotCertificate));
    };
    let kinds = catalog.kinds(alloc)?;
    match checker.take(Line::Head(kinds), ticks)? {
        Ok(next) => Ok(Ok(Checking::Within(catalog, next))),
        Err(why) => Ok(Err(why)),
    }
}

/// Takes a line after the first one.
#[tactic(auto, using(pp_certificate_checker::proofs::Costs::cost_small))]
fn take_later<L: Ledger>(
    alloc: Global,
    catalog: Catalog,
    checker: Checker<Objects>,
    line: &[u8],
    ticks: &mut Ticks<L>,
) -> Result<Result<Checking, Refusal>, OutOfMemory>
    requires few { checker.lines < MOST_LINES }
    requires other { blank line.now ≡ false }
    ensures taken { IfOk result (λ next. TakesLine (Within catalog checker) line.now next) }
    ensures cost { OnOk result (ticks.new ≡ ticks.old
        + cost objects checker.stage (line_in (Within catalog checker) line.now)) }
    ensures rises { ticks.old ≤ ticks.new }
    ensures bound { ticks.new ≤ ticks.old + 1 }
{
    let said = read_line(alloc, &catalog, line)?;
    match checker.take(said, ticks)? {
        Ok(next) => Ok(Ok(Checking::Within(catalog, next))),
        Err(why) => Ok(Err(why)),
    }
}

/// Takes a line.
fn take_any<L: Ledger>(
    alloc: Global,
    checking: Checking,
    line: &[u8],
    ticks: &mut Ticks<L>,
) -> Result<Result<Checking, Refusal>, OutOfMemory>
    requires few { (read_in checking).lines < MOST_LINES }
    ensures taken { IfOk result (λ next. TakesLine checking line.now next) }
    ensures cost { OnOk result (ticks.new ≡ ticks.old
        + cost objects (read_in checking).stage (line_in checking line.now)) }
    ensures rises { ticks.old ≤ ticks.new }
    ensures bound { ticks.new ≤ ticks.old + 1 }
{
    if is_blank(line) {
        return pass_blank(checking, ticks);
    }
    match checking {
        Checking::Before(checker) => take_first(alloc, checker, line, ticks),
        Checking::Within(catalog, checker) => take_later(alloc, catalog, checker, line, ticks),
    }
}

/// What the lines of a certificate over these objects show.
fn close_over<L: Ledger>(
    catalog: Catalog,
    checker: Checker<Objects>,
    ticks: &mut Ticks<L>,
) -> Result<Option<(Catalog, Shown<Kinds, ObjectStates, Op>)>, OutOfMemory>
    ensures closes { IfOk result (λ found. (lines : List (List ℕ)) →
        CoversNamed lines catalog checker → Closes lines found) }
    ensures shown { IfOk result (λ found.
        IfSome found (λ some. Some some.1 ≡ shown_at objects checker.stage)) }
    ensures cost { OnOk result (ticks.new ≡ ticks.old + serial_in checker.stage) }
    ensures rises { ticks.old ≤ ticks.new }
    ensures bound { ticks.new ≤ ticks.old + checker.lines }
{
    match checker.close(ticks)? {
        Some(shown) => Ok(Some((catalog, shown))),
        None => Ok(None),
    }
}

impl Checking {
    /// A checking that has taken no line.
    pub fn new(alloc: Global) -> Checking
        ensures fresh { result ≡ Before (record { stage = Fresh; lines = 0 }) }
        ensures covers { Covers [] result }
    {
        Checking::Before(Checker::new(alloc))
    }

    /// How many lines were taken.
    pub fn lines(&self) -> u32
        ensures lines { result ≡ (read_in self.now).lines }
        ensures few { result ≤ MOST_LINES }
    {
        match self {
            Checking::Before(checker) => checker.lines(),
            Checking::Within(_catalog, checker) => checker.lines(),
        }
    }

    /// Takes a line, or returns why it refuses the line. The only error is out of memory.
    pub fn take_text<L: Ledger>(
        self,
        alloc: Global,
        text: &[u8],
        ticks: &mut Ticks<L>,
    ) -> Result<Result<Checking, Refusal>, OutOfMemory>
        requires few { (read_in self).lines < MOST_LINES }
        ensures taken { IfOk result (λ next. TakesLine self text.now next) }
        ensures leads { IfOk result (λ next. (lines : List (List ℕ)) →
            Covers lines self → LeadsOn lines text.now next) }
        ensures cost { OnOk result (ticks.new ≡ ticks.old
            + cost objects (read_in self).stage (line_in self text.now)) }
        ensures rises { ticks.old ≤ ticks.new }
        ensures bound { ticks.new ≤ ticks.old + 1 }
    {
        take_any(alloc, self, text, ticks)
    }

    /// What the lines show, with their objects, if one of the lines is a serial number. The only
    /// error is out of memory.
    pub fn close<L: Ledger>(
        self,
        ticks: &mut Ticks<L>,
    ) -> Result<Option<(Catalog, Shown<Kinds, ObjectStates, Op>)>, OutOfMemory>
        ensures closes { IfOk result (λ found. (lines : List (List ℕ)) →
            Covers lines self → Closes lines found) }
        ensures shown { IfOk result (λ found.
            IfSome found (λ some. Some some.1 ≡ shown_at objects (read_in self).stage)) }
        ensures cost { IfOk result (λ found.
            IfSome found (λ some. ticks.new ≡ ticks.old + serial_in (read_in self).stage)) }
        ensures rises { ticks.old ≤ ticks.new }
        ensures bound { ticks.new ≤ ticks.old + (read_in self).lines }
    {
        match self {
            Checking::Before(_checker) => Ok(None),
            Checking::Within(catalog, checker) => close_over(catalog, checker, ticks),
        }
    }
}
