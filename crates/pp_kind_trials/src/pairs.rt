//! Pairs of operations, and the expected results for them.
use crate::calls::ELSEWHERE;
use pp_kind::Spec;
use pp_objects::{Objects, Op};
use std::alloc::Global;
use std::process::Abort;
use std::test::Fail;

/// Two operations on one object, the first before the second.
pub struct Pair {
    pub first: Op,
    pub second: Op,
    /// The operations before and after them if they do not swap, or nothing if they do.
    pub context: Option<(&'static [Op], &'static [Op])>,
}

/// A pair that swaps.
macro_rules! swap {
    ($first:expr, $second:expr) => {
        Pair { first: $first, second: $second, context: None }
    };
}

/// A pair that does not, with the operations before it and after it that show this.
macro_rules! stay {
    ($first:expr, $second:expr, $before:expr, $after:expr) => {
        Pair { first: $first, second: $second, context: Some((&$before, &$after)) }
    };
}

pub(crate) use stay;
pub(crate) use swap;

/// Tries each pair on one object and on two.
pub fn try_pairs(rt: &impl Abort, alloc: Global, pairs: &[Pair]) -> Result<(), Fail> {
    for Pair {
        first,
        second,
        context,
    } in pairs {
        assert!(rt; Objects::ranged(first), "{first:?}");
        assert!(rt; Objects::ranged(second), "{second:?}");
        assert_eq!(rt;
            Objects::swaps(first, second),
            context.is_none(),
            "{first:?} {second:?}"
        );
        let found = Objects::context(alloc, first, second)?;
        match (&found, context) {
            (Some(found), Some((before, after))) => {
                assert_eq!(rt; found.before.as_slice(), *before, "{first:?} {second:?}");
                assert_eq!(rt; found.after.as_slice(), *after, "{first:?} {second:?}");
            }
            (found, context) => {
                assert!(rt;
                    found.is_none() && context.is_none(),
                    "{first:?} {second:?}"
                )
            }
        }
        let other = Op {
            object: ELSEWHERE,
            act: second.act,
        };
        assert!(rt; Objects::swaps(first, &other) && Objects::swaps(&other, first));
    }
    Ok(())
}
