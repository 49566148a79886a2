//! How far an input has come, and what it may not pass.
ghost use Rattle.std.specs.Prelude.{◌≡◌, ◌≢◌, ◌<◌, ◌≤◌, ◌+◌, ◌↔◌, IsTrue, length, take, None, Some};
ghost use Rattle.pp_input.specs.Reaches.{HasRoom, passed, past, overrun_from, within_from, reach_from};
ghost use Rattle.pp_input.specs.Reaches.{IsReach, IsSkipped};
ghost use Rattle.pp_input.specs.declared.fault.LineFault.TheVariants.{OutOfMemory};

use crate::fault::LineFault;
use crate::limits::Limits;
use bstr::ByteSlice;

/// The limits of an input; and the bytes so far, the lines that they end, and the bytes after the
/// last end.
#[derive(Clone, Copy)]
pub(crate) struct Reach {
    pub(crate) limits: Limits,
    pub(crate) bytes: u64,
    pub(crate) lines: u32,
    pub(crate) column: u64,
}

fn passing(at: Reach, byte: u8) -> Option<LineFault>
    requires { IsReach at }
    ensures passed { result ≡ passed at byte }
    ensures cause { result ≢ Some OutOfMemory }
{
    if at.bytes >= at.limits.bytes {
        Some(LineFault::TooLong { line: at.lines + 1 })
    } else if at.lines >= at.limits.lines {
        Some(LineFault::TooManyLines { line: at.lines + 1 })
    } else if byte != b'\n' && at.column >= at.limits.line_bytes {
        Some(LineFault::LineTooLong { line: at.lines + 1 })
    } else {
        None
    }
}

fn behind(at: Reach, byte: u8) -> Reach
    requires { passed at byte ≡ None }
    ensures { result ≡ past at byte }
{
    if byte == b'\n' {
        Reach {
            limits: at.limits,
            bytes: at.bytes + 1,
            lines: at.lines + 1,
            column: 0,
        }
    } else {
        Reach {
            limits: at.limits,
            bytes: at.bytes + 1,
            lines: at.lines,
            column: at.column + 1,
        }
    }
}

/// Whether a line of so many bytes passes no limit, nor does its end.
fn has_room(at: Reach, len: usize) -> bool
    ensures { IsTrue result ↔ HasRoom at len }
{
    let len = len as u64;
    at.bytes < at.limits.bytes
        && len < at.limits.bytes - at.bytes
        && at.lines < at.limits.lines
        && len <= at.limits.line_bytes
        && at.column <= at.limits.line_bytes - len
}

/// The number of bytes of the lines that end in a piece and pass no limit, and the state of the
/// input after them.
fn skipped(from: Reach, piece: &[u8]) -> (usize, Reach)
    requires { IsReach from }
    ensures count { result.0 ≤ length piece.now }
    ensures skipped { IsSkipped from piece.now result.0 result.1 }
    ensures reached { IsReach result.1 }
{
    let mut at = from;
    let mut done = 0;
    let mut left = piece;
    'lines: while let Some(len) = left.find_byte(b'\n') {
        if !has_room(at, len) {
            break;
        }
        at = Reach {
            limits: at.limits,
            bytes: at.bytes + len as u64 + 1,
            lines: at.lines + 1,
            column: 0,
        };
        done += len + 1;
        left = &left[len + 1..];
    }
    (done, at)
}

/// How many bytes of a piece pass no limit, the state of the input after them, and the limit that
/// the next one passes: byte by byte.
fn passed_over(from: Reach, piece: &[u8]) -> (usize, Reach, Option<LineFault>)
    requires { IsReach from }
    ensures count { result.0 ≤ length piece.now }
    ensures within { take result.0 piece.now ≡ within_from from piece.now }
    ensures reach { result.1 ≡ reach_from from piece.now }
    ensures overrun { result.2 ≡ overrun_from from piece.now }
    ensures cause { result.2 ≢ Some OutOfMemory }
    ensures reached { IsReach result.1 }
{
    let mut at = from;
    for (i, byte) in piece.iter().enumerate() {
        if let Some(fault) = passing(at, *byte) {
            return (i, at, Some(fault));
        }
        at = behind(at, *byte);
    }
    (piece.len(), at, None)
}

/// How many bytes of a piece pass no limit, the state of the input after them, and the limit that
/// the next one passes.
pub(crate) fn allowed(from: Reach, piece: &[u8]) -> (usize, Reach, Option<LineFault>)
    requires { IsReach from }
    ensures count { result.0 ≤ length piece.now }
    ensures within { take result.0 piece.now ≡ within_from from piece.now }
    ensures reach { result.1 ≡ reach_from from piece.now }
    ensures overrun { result.2 ≡ overrun_from from piece.now }
    ensures cause { result.2 ≢ Some OutOfMemory }
    ensures reached { IsReach result.1 }
{
    let (done, at) = skipped(from, piece);
    let (more, reach, fault) = passed_over(at, &piece[done..]);
    (done + more, reach, fault)
}
