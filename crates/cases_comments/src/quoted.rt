//! Texts on one line: the escapes `\n`, `\t`, `\r` and `\\`.

use plain_data::Mem;
use std::alloc::Global;

/// The character that an escape stands for by its letter.
fn meant_by(letter: char) -> char {
    match letter {
        'n' => '\n',
        't' => '\t',
        'r' => '\r',
        other => other,
    }
}

/// The text that a text with escapes stands for.
pub fn unquoted(alloc: Global, quoted: &str) -> Mem<String> {
    let mut text = String::new(alloc);
    let mut escaped = false;
    for c in quoted.chars() {
        if escaped {
            text.push(meant_by(c))?;
            escaped = false;
        } else if c == '\\' {
            escaped = true;
        } else {
            text.push(c)?;
        }
    }
    Ok(text)
}

/// Adds a text with its escapes.
pub fn push_quoted(line: &mut String, text: &str) -> Mem<()> {
    for c in text.chars() {
        match c {
            '\n' => line.push_str("\\n")?,
            '\t' => line.push_str("\\t")?,
            '\r' => line.push_str("\\r")?,
            '\\' => line.push_str("\\\\")?,
            _ => line.push(c)?,
        }
    }
    Ok(())
}
