//! Tests of doc_order, name_scope, const_eval and build_lines through their public calls.
#![tactic(auto)]

#[cfg(test)]
mod admissions;
#[cfg(test)]
mod lengths;
#[cfg(test)]
mod listing;
#[cfg(test)]
mod scope;
