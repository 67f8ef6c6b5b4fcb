//! What is written of the elimination order `signed`: possible signs, splits, and simplified forms.
//!
//! The definitions stand in `specs/`: `SignRules` and `PossibleSigns`, `CommonPowers` and `Split`,
//! then `Signed`, `ByKind` and `Reduced`. What they mean is said by `laws_signs`, `laws_split`,
//! `laws_simplified` and `laws_kind`.
#![tactic(auto)]

mod laws_kind;
mod laws_signs;
mod laws_simplified;
mod laws_split;

pub use laws_kind::{
    each_kind_is_decided_or_has_an_atom, each_kind_keeps_truth, each_kind_makes_no_symbol,
    signed_forms, three_kinds_simplify_by_facts_alone,
};
pub use laws_signs::{possible_signs_are_right, signs_of_polynomials};
pub use laws_simplified::{
    simplification_by_signs_keeps_truth, simplification_by_signs_makes_no_polynomial,
};
pub use laws_split::{
    conditions_are_atoms, split_forms, splitting_keeps_truth, splitting_makes_no_symbol,
};
