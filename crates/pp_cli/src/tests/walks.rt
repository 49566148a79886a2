//! A step of a walk that no command takes. With enough memory, no call returns out of memory.
use pp_body::Walk;
use pp_core::{Body, Call, Method, Pattern};
use std::test::Fail;

/// Any addition to the first object.
const ADDITION: Pattern = Pattern {
    object: 0,
    method: Method::Add,
    first: None,
    second: Some(0),
    third: Some(0),
};

/// A call that is such an addition.
const CALL: Call = Call {
    object: 0,
    method: Method::Add,
    first: 2,
    second: 0,
    third: 0,
};

#[test]
fn a_walk_is_complete_once_it_has_taken_the_one_call_of_its_body(
    rt: HostRuntime,
) -> Result<(), Fail> {
    let walk = Walk::start(rt.alloc(), Some(Body::Step(ADDITION)))?;
    assert!(rt; !walk.complete());
    let begins = walk.can(&CALL);
    assert!(rt; begins);
    assert!(rt; walk.take(CALL)?.complete());
    Ok(())
}
