//! The machine as a judge: it is driven through the steps of each record, and an observer is shown
//! them.
ghost use Rattle.std.specs.Prelude.{◌≡◌, ◌≤◌, ◌+◌, take, None, IfOk};
ghost use Rattle.pp_core.specs.declared.limits.TheConstants.{MOST_STEPS};
ghost use Rattle.pp_format_read.specs.Starts.{IsReadableStart};
ghost use Rattle.pp_model.specs.Config.{first};
ghost use Rattle.pp_objects.specs.Objects.{kinds_of};
ghost use Rattle.pp_judge.specs.Costs.{start_length};
ghost use Rattle.pp_judge.specs.Driven.{judged_of};
ghost use Rattle.pp_judge.specs.Objects.{start_of};
ghost use Rattle.pp_judge.specs.Running.{HasStarted, IsFirstFront, rejection_on};

use crate::judge::{Judge, Judged};
use crate::observer::Observer;
use crate::record_steps::{make_steps, steps_of};
use pp_core::{MOST_STEPS, OutOfMemory, Rule, Step, Ticks};
use pp_format_read::Header;
use pp_input::Limits;
use pp_input_reader::{Cause, Stop};
use pp_machine::{Detail, Machine, Outcome};
use pp_objects::{Objects, Op};
use pp_records::RunRecord;
use pp_styles::{BoxedFront, Halt, Tracked, do_steps};
use std::alloc::Global;
use std::sync::ledger::Ledger;

/// The first step that does not meet its criteria, the line of its record, its rule, its first
/// false criterion, and the evidence of it. The start is step 0, on the line of the header.
#[derive(Drop)]
pub struct Rejection {
    pub step: u64,
    pub line: u32,
    pub rule: Rule,
    pub criterion: u8,
    pub detail: Detail<Op>,
}

/// A machine that takes the steps of a run in its style, and an observer that has seen them.
#[derive(Drop)]
pub struct Driven<W> {
    pub front: BoxedFront,
    pub machine: Tracked<Objects>,
    pub observer: W,
}

/// The first step that is rejected, and an observer that has seen the steps up to it.
#[derive(Drop)]
pub struct ObservedRejection<W> {
    pub rejection: Rejection,
    pub observer: W,
}

/// A machine that is as `new` made it, with the start of a header if the header has one.
fn with_start<L: Ledger>(
    machine: Machine<Objects>,
    header: &Header,
    ticks: &mut Ticks<L>,
) -> Result<(Machine<Objects>, Outcome<Op>), OutOfMemory>
    requires new { machine ≡ record {
      shape = kinds_of header.now.catalog;
      config = first None;
      count = 0;
    } }
    requires readable { IsReadableStart header.now.catalog header.now.start }
    ensures starts { IfOk result (λ r. HasStarted header.now r.1 r.0) }
    ensures rises { ticks.old ≤ ticks.new }
    ensures bound { ticks.new ≤ ticks.old + start_length (start_of header.now) }
{
    match &header.start {
        None => Ok((machine, Outcome::Done)),
        Some(start) => machine.start(start.tx, &start.ops, ticks),
    }
}

/// A machine with the start of a header, and whether that meets its criteria.
pub fn start_machine<L: Ledger>(
    alloc: Global,
    header: &Header,
    ticks: &mut Ticks<L>,
) -> Result<(Machine<Objects>, Outcome<Op>), OutOfMemory>
    requires { IsReadableStart header.now.catalog header.now.start }
    ensures starts { IfOk result (λ r. HasStarted header.now r.1 r.0) }
    ensures rises { ticks.old ≤ ticks.new }
    ensures bound { ticks.new ≤ ticks.old + start_length (start_of header.now) }
{
    let machine = Machine::new(alloc, header.catalog.kinds(alloc)?)?;
    with_start(machine, header, ticks)
}

/// The front of the style of a header, which keeps nothing yet.
pub fn first_front(alloc: Global, header: &Header) -> Result<BoxedFront, OutOfMemory>
    ensures { IfOk result (IsFirstFront header.now) }
{
    let kinds = header.catalog.kinds(alloc)?;
    BoxedFront::new(alloc, header.style, kinds)
}

/// What a halt after so many steps of a run is, if the record on this line halts it: the rejection
/// of the next step, or the fault that there are too many.
pub fn rejection_on(
    line: u32,
    count: u32,
    halt: Option<Halt<Op>>,
) -> Result<Option<Rejection>, Stop<Cause>>
    ensures { result ≡ rejection_on line count halt }
{
    match halt {
        None => Ok(None),
        Some(Halt::TooMany) => Err(Stop::Fault(line, Cause::TooManySteps)),
        Some(
            Halt::Failed {
                rule,
                criterion,
                detail,
            },
        ) => Ok(Some(Rejection {
            step: u64::from(count) + 1,
            line,
            rule,
            criterion,
            detail,
        })),
    }
}

/// The steps of a record that were tried: those that were done, and the next one, if there is one.
fn tried(steps: &[Step<Op>], done: u32) -> &[Step<Op>]
    requires { done ≤ MOST_STEPS }
    ensures { result.now ≡ take (done + 1) steps.now }
{
    let count = done as usize + 1;
    if count <= steps.len() {
        &steps[..count]
    } else {
        steps
    }
}

/// The judge that took a record, or the rejection of a step of it.
fn judged_of<W: Observer>(
    front: BoxedFront,
    machine: Tracked<Objects>,
    observer: W,
    rejection: Option<Rejection>,
) -> Judged<Driven<W>, ObservedRejection<W>>
    ensures { result ≡ judged_of front machine observer rejection }
{
    match rejection {
        None => Judged::Good(Driven {
            front,
            machine,
            observer,
        }),
        Some(rejection) => Judged::Rejected(ObservedRejection {
            rejection,
            observer,
        }),
    }
}

impl<W: Observer> Judge for Driven<W> {
    ghost use Rattle.pp_judge.specs.Driven.{driven_judging};
    ghost use Rattle.pp_judge.specs.laws.Driven.{driven_laws};

    type Rejection = ObservedRejection<W>;

    ghost judging = { driven_judging W.HasSeen };

    fn limits() -> Limits {
        Limits::usual()
    }

    fn begin<L: Ledger>(
        alloc: Global,
        header: &Header,
        line: u32,
        ticks: &mut Ticks<L>,
    ) -> Result<Judged<Driven<W>, ObservedRejection<W>>, Stop<Cause>> {
        let observer = W::begin(alloc, header)?;
        let front = first_front(alloc, header)?;
        let (machine, outcome) = start_machine(alloc, header, ticks)?;
        match outcome {
            Outcome::Done => {
                let machine = Tracked::new(alloc, machine)?;
                Ok(Judged::Good(Driven {
                    front,
                    machine,
                    observer,
                }))
            }
            Outcome::False { criterion, detail } => {
                let rejection = Rejection {
                    step: 0,
                    line,
                    rule: Rule::Start,
                    criterion,
                    detail,
                };
                Ok(Judged::Rejected(ObservedRejection {
                    rejection,
                    observer,
                }))
            }
        }
    }

    fn judge<L: Ledger>(
        self,
        alloc: Global,
        header: &Header,
        recorded: &RunRecord<Op>,
        line: u32,
        ticks: &mut Ticks<L>,
    ) -> Result<Judged<Driven<W>, ObservedRejection<W>>, Stop<Cause>> {
        let Driven {
            mut front,
            mut machine,
            observer,
        } = self;
        let before = machine.count();
        let made = make_steps(&mut front, recorded, &mut machine)?;
        let steps = steps_of(recorded, &made);
        let (machine, halt) = do_steps(machine, steps, MOST_STEPS, ticks)?;
        let count = machine.count();
        let rejection = rejection_on(line, count, halt)?;
        let observer = observer.see(alloc, header, line, tried(steps, count - before))?;
        Ok(judged_of(front, machine, observer, rejection))
    }

    ghost laws = { driven_laws W.HasSeen };
}
