//! Questions as rows ask them: listed names, assumptions and a claim.

use std::alloc::Global;
use theory_points::{Name, Names};
use theory_rows_method::fault::RowFault;
use theory_rows_method::pieces::claim;
use theory_syntax::{Claim, Claims, Sentence};

/// The names between blanks.
pub fn names(alloc: Global, field: &str) -> Result<Names, RowFault> {
    let mut names = Names::new(alloc);
    for word in field.split(' ') {
        if !word.is_empty() {
            names.push(Name::from_slice(alloc, word.as_bytes())?)?;
        }
    }
    Ok(names)
}

/// The claims between semicolons; none in an empty field.
fn assumptions(alloc: Global, field: &str) -> Result<Claims, RowFault> {
    let mut claims = Vec::new(alloc);
    for part in field.split(';') {
        if !part.trim().is_empty() {
            push(&mut claims, claim(alloc, part)?)?;
        }
    }
    Ok(claims)
}

fn push(claims: &mut Claims, claim: Claim) -> Result<(), RowFault> {
    claims.push(claim)?;
    Ok(())
}

/// The names, assumptions and claim of a question, between bars.
#[derive(Clone, Copy)]
pub struct Question<'a> {
    pub names: &'a str,
    pub assumptions: &'a str,
    pub claim: &'a str,
}

impl Question<'_> {
    /// The sentence that an example meets.
    pub fn example(&self, alloc: Global) -> Result<Sentence, RowFault> {
        let last = claim(alloc, self.claim)?;
        self.with_last(alloc, last)
    }

    /// The sentence that a counterexample meets.
    pub fn counterexample(&self, alloc: Global) -> Result<Sentence, RowFault> {
        let last = Claim::Not(Box::new(alloc, claim(alloc, self.claim)?)?);
        self.with_last(alloc, last)
    }

    /// The assumptions and a claim behind them.
    fn with_last(&self, alloc: Global, last: Claim) -> Result<Sentence, RowFault> {
        let mut conjuncts = assumptions(alloc, self.assumptions)?;
        push(&mut conjuncts, last)?;
        let symbols = names(alloc, self.names)?;
        Ok(Sentence { conjuncts, symbols })
    }
}
