//! Texts on one line, with pictures of control characters.

use plain_data::Mem;
use std::alloc::Global;

/// The bytes that a text with pictures stands for.
pub fn unpictured(alloc: Global, text: &str) -> Mem<Vec<u8>> {
    let mut bytes = Vec::new(alloc);
    for c in text.chars() {
        match c {
            '␤' => bytes.push(b'\n')?,
            '␍' => bytes.push(b'\r')?,
            '␉' => bytes.push(b'\t')?,
            '\u{FFFD}' => bytes.push(0xFF)?,
            _ => {
                let mut buffer = [0; 4];
                bytes.extend_from_slice(c.encode_utf8(&mut buffer).as_bytes())?;
            }
        }
    }
    Ok(bytes)
}

/// Adds a text of which each control character is pictured.
pub fn push_pictured(line: &mut String, text: &str) -> Mem<()> {
    for c in text.chars() {
        line.push(match c {
            '\n' => '␤',
            '\r' => '␍',
            '\t' => '␉',
            other => other,
        })?;
    }
    Ok(())
}
