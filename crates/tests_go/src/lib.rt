//! Tests of go_ast, go_chars, go_scanner, type_parser and go_parser through their public calls.
#![tactic(auto)]

#[cfg(test)]
mod ast;
#[cfg(test)]
mod chars;
#[cfg(test)]
mod chunks;
#[cfg(test)]
mod files;
#[cfg(test)]
mod scanner;
#[cfg(test)]
mod types;
