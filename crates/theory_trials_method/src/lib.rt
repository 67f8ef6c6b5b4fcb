//! Tests of what no row of `theory_rows` says: grids of formulas by a fixed rule, and limits on how
//! many there are.
#![tactic(auto)]

#[cfg(test)]
mod branches;
#[cfg(test)]
mod counts;
#[cfg(test)]
mod making;
#[cfg(test)]
mod signs;
#[cfg(test)]
mod simplified;
#[cfg(test)]
mod terms;
