//! Tests of plain_data, text_out and tree_io through their public calls.
#![tactic(auto)]

#[cfg(test)]
mod data;
#[cfg(test)]
mod texts;
#[cfg(test)]
mod trees;
