//! Tests of package_group, ident_index, corpus_piece and corpus through their public calls.
#![tactic(auto)]

#[cfg(test)]
mod identifiers;
#[cfg(test)]
mod packages;
#[cfg(test)]
mod pieces;
#[cfg(test)]
mod whole;
