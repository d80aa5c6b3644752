//! What integer and rune literals denote: reads a literal a line and prints the line with its
//! value. Empty lines and lines that begin with a number sign and a space are printed as they are.
#![tactic(auto)]

use go_literals::{integer_value, rune_value};
use plain_data::Mem;
use std::alloc::{AllocError, Global};
use std::io;

/// The value of a literal, as a line shows it.
fn value_of(alloc: Global, text: &str) -> Mem<String> {
    if let Some(code) = rune_value(text.as_bytes()) {
        return Ok(format!(in alloc; "{code}")?);
    }
    match integer_value(text.as_bytes()) {
        Some(value) => Ok(format!(in alloc; "{value}")?),
        None => Ok(String::from_str(alloc, "none")?),
    }
}

fn with_value(alloc: Global, line: &str) -> Mem<String> {
    let mut answered = String::from_str(alloc, line)?;
    if !line.is_empty() && !line.starts_with("# ") {
        let value = value_of(alloc, line)?;
        answered.push_str(" => ")?;
        answered.push_str(value.as_str())?;
    }
    Ok(answered)
}

/// A line with its value, where it asks for one.
fn answered(alloc: Global, line: &str) -> Result<String, AllocError> {
    match with_value(alloc, line) {
        Ok(answered) => Ok(answered),
        Err(_) => String::from_str(alloc, "out of memory"),
    }
}

fn main(rt: HostRuntime) -> io::Result<()> {
    for line in rt.lines(rt.alloc()) {
        let line = line?;
        let answered = answered(rt.alloc(), line.as_str())?;
        println!(rt; "{answered}")?;
    }
    Ok(())
}
