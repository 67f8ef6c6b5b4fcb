//! What follows want of memory: `rt try --test --fail-alloc N` makes the N-th allocation fail.

use crate::asking::{KINDS, half};
use crate::made::made;
use std::test::Fail;
use theory_decide::Engine;
use theory_search::four_policies;
use theory_verdict::{Decider, Half};

/// A linear sentence that a place of the grid meets is found, at the latest when asked again; each
/// call counts as one.
#[test]
fn an_engine_can_be_asked_again(rt: HostRuntime) -> Result<(), Fail> {
    let alloc = rt.alloc();
    let policies = four_policies!(alloc);
    let mut engine = Engine::new(&policies);
    let plain = made(alloc, 1)?;
    for kind in KINDS {
        let before = engine.runs();
        let first = half(alloc, &mut engine, &plain, kind);
        assert_eq!(rt; Some(engine.runs()), before.checked_add(1), "{kind:?}");
        let found = match first {
            Ok(found) => found,
            Err(_) => half(alloc, &mut engine, &plain, kind)?,
        };
        assert!(rt; matches!(&found, Some(Half::Found(_))), "{kind:?}");
    }
    Ok(())
}
