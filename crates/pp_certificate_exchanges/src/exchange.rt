//! The exchanges that turn a log into another order of it.
ghost use Rattle.std.specs.Prelude.{◌≡◌, ◌+◌, ◌<◌, ◌≤◌, ◌^◌, ◌++◌, ℕ, IfOk, IfErr, OnOk, length};
ghost use Rattle.std.specs.Prelude.{sum, slice_index};
ghost use Rattle.pp_certificate_exchanges.specs.Exchanges.{Permutes, inverted, route, after_exchanges, down_to};
ghost use Rattle.pp_certificate_exchanges.specs.Faults.{IsSwapFault};
ghost use Rattle.pp_certificate_exchanges.specs.Laws.{InvertedSwap, ExchangesSwap};
ghost use Rattle.pp_certificate_exchanges.specs.Passes.{route_passing};

use crate::passes::passed;
use pp_core::{Items, OutOfMemory, Sequence};
use pp_kind::Spec;
use std::alloc::{AllocError, Global};

/// Positions of exchanges: at the position i that of the entries at i and i + 1.
pub type Positions = Sequence<u32>;

/// Why there is no route.
#[derive(Drop)]
pub enum SwapFault {
    /// There are more inverted pairs than the limit, this many.
    TooMany { count: u64 },
    /// Out of memory.
    OutOfMemory,
}

impl From<OutOfMemory> for SwapFault {
    ghost use Rattle.pp_certificate_exchanges.specs.declared.exchange.SwapFault.TheVariants.{OutOfMemory};

    ghost from_gives = { λ _ fault. fault ≡ OutOfMemory };

    fn from(_: OutOfMemory) -> SwapFault {
        SwapFault::OutOfMemory
    }
}

impl From<AllocError> for SwapFault {
    ghost use Rattle.pp_certificate_exchanges.specs.declared.exchange.SwapFault.TheVariants.{OutOfMemory};

    ghost from_gives = { λ _ fault. fault ≡ OutOfMemory };

    fn from(_: AllocError) -> SwapFault {
        SwapFault::OutOfMemory
    }
}

/// Adds the exchanges that draw an entry to this position past so many others.
fn add_draw(list: &mut Positions, position: u32, count: u32) -> Result<(), OutOfMemory>
    requires { position + count < 2 ^ 32 }
    ensures { OnOk result (list.new ≡ list.old ++ down_to position count) }
{
    let mut left = count;
    while left > 0 {
        left -= 1;
        list.push(position + left)?;
    }
    Ok(())
}

/// The exchanges of all draws, the first to the position 0.
fn add_draws(alloc: Global, counts: &[u32]) -> Result<Positions, OutOfMemory>
    requires few { length counts.now < 1_000_000 }
    requires within { (k : ℕ) → k < length counts.now → k + slice_index counts.now k < 2 ^ 32 }
    ensures { IfOk result (λ list. list ≡ route_passing 0 counts.now) }
{
    let mut list = Positions::new(alloc);
    let mut position = 0u32;
    for count in counts {
        add_draw(&mut list, position, *count)?;
        position += 1;
    }
    Ok(list)
}

/// All counts together.
fn total(counts: &[u32]) -> u64
    requires { length counts.now < 1_000_000 }
    ensures { result ≡ sum counts.now }
{
    counts.iter().map(|count| u64::from(*count)).sum()
}

/// The exchanges that turn the log into the target, unless they are more than `most`. For n entries
/// the time grows with n log n, and with the number of exchanges. If these are too many, they
/// are only counted.
pub fn exchanges<S: Spec>(
    alloc: Global,
    log: &Items<S::Op>,
    target: &Items<S::Op>,
    most: u32,
) -> Result<Positions, SwapFault>
    requires few { length log.now < 1_000_000 }
    requires permutes { Permutes log.now target.now }
    requires swaps { InvertedSwap S.object log.now target.now }
    ensures route { IfOk result (λ list. list ≡ route log.now target.now) }
    ensures few { OnOk result (inverted log.now target.now ≤ most) }
    ensures fault { IfErr result (IsSwapFault (inverted log.now target.now) most) }
    ensures swaps { IfOk result (λ list. ExchangesSwap S.object log.now list) }
    ensures last { IfOk result (λ list. after_exchanges log.now list ≡ target.now) }
    ensures long { IfOk result (λ list. length list ≡ inverted log.now target.now) }
{
    let counts = passed(alloc, log.as_slice(), target.as_slice())?;
    let count = total(&counts);
    if count > u64::from(most) {
        return Err(SwapFault::TooMany { count });
    }
    Ok(add_draws(alloc, &counts)?)
}
