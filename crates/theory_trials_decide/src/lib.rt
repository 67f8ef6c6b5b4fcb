//! Tests of the engine: sentences made by a fixed rule, against a plain program that tries the
//! points of a grid; conditions on names, against halves at values; calls that no row of `theory_rows` makes; and what follows want of memory.
#![tactic(auto)]

mod among;
#[cfg(test)]
mod asking;
#[cfg(test)]
mod conditions;
#[cfg(test)]
mod conjuncts;
#[cfg(test)]
mod grids;
#[cfg(test)]
mod layers;
#[cfg(test)]
mod made;
#[cfg(test)]
mod memory;
#[cfg(test)]
mod places;
#[cfg(test)]
mod regions;
#[cfg(test)]
mod source;
#[cfg(test)]
mod sums;
#[cfg(test)]
mod written;

pub use among::are_among;
