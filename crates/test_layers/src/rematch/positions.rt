//! The walk over a particle's positions for one more name.

use pv_model::{NameId, Part, advance, may_be_empty, push_positions};
use std::test::Fail;

const A: NameId = NameId(1);

const B: NameId = NameId(2);

#[test]
fn walk_over_a_name(rt: HostRuntime) -> Result<(), Fail> {
    let part = Part::Name(A);
    let mut positions = Vec::new(rt.alloc());
    push_positions(&part, &mut positions)?;
    assert_eq!(rt; positions.as_slice(), [false].as_slice());
    assert!(rt; !may_be_empty(&part));
    let first = advance(&part, true, A, &mut positions, 0);
    assert!(rt; first.is_end && first.is_reached && !first.was_end && !first.may_be_empty);
    assert_eq!(rt; first.next, 1);
    assert_eq!(rt; positions.as_slice(), [true].as_slice());
    let second = advance(&part, false, A, &mut positions, 0);
    assert!(rt; second.was_end && !second.is_end && !second.is_reached);
    let other = advance(&part, true, B, &mut positions, 0);
    assert!(rt; !other.is_end && !other.is_reached);
    Ok(())
}

#[test]
fn empty_words(rt: HostRuntime) -> Result<(), Fail> {
    let alloc = rt.alloc();
    assert!(rt; may_be_empty(&Part::Opt(Box::new(alloc, Part::Name(A))?)));
    assert!(rt; may_be_empty(&Part::Star(Box::new(alloc, Part::Name(A))?)));
    assert!(rt; !may_be_empty(&Part::Plus(Box::new(alloc, Part::Name(A))?)));
    let star = Part::Star(Box::new(alloc, Part::Name(A))?);
    let mut positions = Vec::new(alloc);
    push_positions(&star, &mut positions)?;
    assert_eq!(rt; positions.as_slice(), [false, false].as_slice());
    Ok(())
}
