//! Whole lines out of pieces of bytes, and the sources and sinks of bytes.
ghost use Rattle.std.specs.Prelude.{◌≡◌, ◌≤◌, ◌+◌, ◌++◌, ◌∷◌, [], ℕ, List, IfNone, None, Some, Err};
ghost use Rattle.std.specs.Prelude.{OnOk, IfErr, IsErrOf, option_map, IfSome, false};
ghost use Rattle.pp_input.specs.Limits.{CanCount, HasNext};
ghost use Rattle.pp_input.specs.Lines.{NumberedLine, blank, numbered_lines};
ghost use Rattle.pp_input.specs.Overruns.{overrun, answer_of};
ghost use Rattle.pp_input.specs.Taken.{Hands, Took};
ghost use Rattle.pp_input.specs.Held.{TakesPiece, empty, refused, finished, next_line, after_next};
ghost use Rattle.pp_input.specs.declared.fault.LineFault.TheVariants.{OutOfMemory};
ghost use Rattle.pp_input.specs.declared.limits.Limits.{Limits as LimitsOf};

use crate::cut::cut;
use crate::fault::LineFault;
use crate::limits::Limits;
use crate::reach::{Reach, allowed};
use crate::tail::Tail;
use pp_core::Text;
use std::alloc::Global;
use std::collections::VecDeque;
use std::marker::Model;

/// A line of an input: its number, from 1, and its bytes without its end.
#[derive(Drop)]
pub struct Line {
    pub number: u32,
    pub text: Text,
}

/// Cuts an input, which comes in pieces, into its lines. After each `feed` all whole lines can be
/// taken by `next`; at the end of the input `finish` makes what is left a line.
#[derive(Drop)]
pub struct Lines {
    whole: VecDeque<Text>,
    last: Option<Text>,
    tail: Tail,
    handed: u32,
    reach: Reach,
    fault: Option<LineFault>,
    closed: bool,
}

impl Model for Lines {
    ghost use Rattle.std.specs.Prelude.{◌++◌};
    ghost use Rattle.pp_input.specs.Held.{Held};
    ghost use Rattle.pp_input.specs.Counted.{listed, IsCounted};

    ghost Value = { Held };

    ghost view = { λ l. record {
      whole = l.whole.items ++ listed l.last;
      rest = l.tail;
      handed = l.handed;
      reach = l.reach;
      fault = l.fault;
      closed = l.closed;
    } };

    ghost invariant = { λ l. IsCounted l.whole.items l.last l.tail l.handed l.reach l.closed };
}

impl Lines {
    /// No byte yet of an input with these limits.
    pub fn new(alloc: Global, limits: Limits) -> Lines
        requires { CanCount limits }
        ensures value { result ≡ empty limits }
        ensures input { Took limits [] [] result }
    {
        Lines {
            whole: VecDeque::new(alloc),
            last: None,
            tail: Tail::new(alloc),
            handed: 0,
            reach: Reach {
                limits,
                bytes: 0,
                lines: 0,
                column: 0,
            },
            fault: None,
            closed: false,
        }
    }

    /// Takes the next piece of the input.
    pub fn feed(&mut self, piece: &[u8]) -> Result<(), LineFault>
        requires { self.old.closed ≡ false }
        ensures again { IfSome self.old.fault (λ fault.
            (result ≡ Err fault) × (self.new ≡ self.old)) }
        ensures ok { self.old.fault ≡ None →
            OnOk result (TakesPiece self.old self.new piece.now None) }
        ensures passed { self.old.fault ≡ None →
            IfErr result (λ fault.
            ¬ (fault ≡ OutOfMemory) → TakesPiece self.old self.new piece.now (Some fault)) }
        ensures memory { self.old.fault ≡ None → IsErrOf result OutOfMemory →
            self.new ≡ refused self.old }

        // In whatever pieces the bytes before it came.
        ensures input { (limits : LimitsOf) (bytes : List ℕ) (out : List NumberedLine) →
            Took limits bytes out self.old →
            self.old.fault ≡ None → ¬ IsErrOf result OutOfMemory →
            (result ≡ answer_of (overrun limits (bytes ++ piece.now)))
            × Took limits (bytes ++ piece.now) out self.new }
    {
        if let Some(fault) = self.fault {
            return Err(fault);
        }
        let before = self.whole.len();
        let (count, reach, overrun) = allowed(self.reach, piece);
        if cut(&mut self.whole, &mut self.tail, &piece[..count]).is_err() {
            self.whole.truncate(before);
            let _ = self.tail.take();
            self.fault = Some(LineFault::OutOfMemory);
            return Err(LineFault::OutOfMemory);
        }
        self.reach = reach;
        self.fault = overrun;
        match overrun {
            None => Ok(()),
            Some(fault) => Err(fault),
        }
    }

    /// The input is at its end: what follows the last line end counts as a line if it is not
    /// empty.
    pub fn finish(&mut self)
        requires sound { self.old.fault ≡ None }
        requires open { self.old.closed ≡ false }
        ensures after { self.new ≡ finished self.old }
        ensures input { (limits : LimitsOf) (bytes : List ℕ) (out : List NumberedLine) →
            Took limits bytes out self.old → Hands (numbered_lines bytes) out self.new }
    {
        self.closed = true;
        if !self.tail.is_empty() {
            self.last = Some(self.tail.take());
        }
    }

    /// The next whole line, if there is one.
    pub fn next(&mut self) -> Option<Line>
        ensures line { option_map (λ line. (line.number, line.text)) result ≡ next_line self.old }
        ensures after { self.new ≡ after_next self.old }
        ensures number { IfSome result (λ line.
            (line.number ≡ self.old.handed + 1)
            × (self.new.handed ≡ line.number)
            × (line.number ≤ self.old.reach.limits.lines)
            × HasNext line.number) }
        ensures input { (limits : LimitsOf) (bytes : List ℕ) (out : List NumberedLine) →
            Took limits bytes out self.old → IfSome result (λ line.
            Took limits bytes (out ++ (line.number, line.text) ∷ []) self.new) }
        ensures some { (lines out : List NumberedLine) → Hands lines out self.old →
            IfSome result (λ line. Hands lines (out ++ (line.number, line.text) ∷ []) self.new) }
        ensures none { (lines out : List NumberedLine) → Hands lines out self.old →
            IfNone result (out ≡ lines) }
    {
        let text = match self.whole.pop_front() {
            Some(text) => text,
            None => self.last.take()?,
        };
        self.handed += 1;
        Some(Line {
            number: self.handed,
            text,
        })
    }
}

/// Whether all bytes are spaces or tabs.
pub fn is_blank(text: &[u8]) -> bool
    ensures { result ≡ blank text.now }
{
    text.iter().all(|byte| *byte == b' ' || *byte == b'\t')
}
