//! How many atoms a lowered sentence may have.

use std::alloc::Global;
use std::test::Fail;
use theory_lower::{LowerFault, is_listed, lower};
use theory_points::{Names, NoMemory};
use theory_syntax::{Claim, Claims, Sentence};

/// As many members true, or false where that is said.
fn members(alloc: Global, truth: bool, count: u32) -> Result<Claims, NoMemory> {
    let mut all = Vec::new(alloc);
    for _ in 0..count {
        all.push(if truth { Claim::True } else { Claim::False })?;
    }
    Ok(all)
}

/// The fault of a sentence about nothing, if it has one.
fn fault(alloc: Global, conjuncts: Claims) -> Option<LowerFault> {
    let symbols = Names::new(alloc);
    let sentence = Sentence { conjuncts, symbols };
    if sentence.symbols.as_slice().len() > 32 || !is_listed(&sentence) {
        return Some(LowerFault::Memory);
    }
    match lower(alloc, &sentence) {
        Ok(_) => None,
        Err(fault) => Some(fault),
    }
}

/// True and False are atoms of the normal form, in a list and as conjuncts.
#[test]
fn true_and_false_are_counted(rt: HostRuntime) -> Result<(), Fail> {
    let alloc = rt.alloc();
    for (count, want) in [(512, None), (513, Some(LowerFault::Large))] {
        let all = Claim::And(members(alloc, true, count)?);
        let found = fault(alloc, vec![in alloc; all]?);
        assert_eq!(rt; found, want, "{count} members true");
        let some = Claim::Or(members(alloc, false, count)?);
        let found = fault(alloc, vec![in alloc; some]?);
        assert_eq!(rt; found, want, "{count} members false");
        let found = fault(alloc, members(alloc, true, count)?);
        assert_eq!(rt; found, want, "{count} conjuncts");
    }
    Ok(())
}

#[test]
fn faults_tell_why(rt: HostRuntime) -> Result<(), Fail> {
    let alloc = rt.alloc();
    let rows = [
        (LowerFault::Large, "more than 512 atoms"),
        (LowerFault::Wide, "a polynomial passes a limit"),
        (LowerFault::from(NoMemory), "no memory"),
    ];
    for (fault, told) in rows {
        assert_eq!(rt; fault.to_string(alloc)?.as_str(), told);
    }
    Ok(())
}
