//! Tests of the commands of godoc through the public call `run`.
#![tactic(auto)]

#[cfg(test)]
mod answers;
#[cfg(test)]
mod finds;
