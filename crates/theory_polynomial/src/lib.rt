//! Polynomials over whole numbers: written as lists of terms in a fixed order, and as maps from
//! exponents to coefficients.
//!
//! The definitions stand in `specs/`: `Terms` and `Polynomial`, then `PolynomialValue` and
//! `RationalPolynomial`. `laws` says what they mean.
#![tactic(auto)]

mod laws;
mod polynomial;

pub use laws::{
    canonical_and_lowest_forms_are_single, canonical_keeps_or_turns_signs,
    coefficients_of_operations, cross_has_the_sign, polynomial_is_unique, primitive_keeps_signs,
    restriction_keeps_signs, split_has_the_value, value_reads_coefficients, values_of_operations,
};
pub use polynomial::Term;
