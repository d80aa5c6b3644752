//! A line of the table: a question, its source, and the answer.

use crate::answers;
use plain_data::Mem;
use std::alloc::{AllocError, Global};

/// The source that a text with pictures of control characters stands for.
fn unpictured(alloc: Global, text: &str) -> Mem<String> {
    let mut source = String::new(alloc);
    for c in text.chars() {
        match c {
            '␤' => source.push('\n')?,
            '␍' => source.push('\r')?,
            '␀' => source.push('\0')?,
            '␚' => source.push('\u{FEFF}')?,
            _ => source.push(c)?,
        }
    }
    Ok(source)
}

/// The answer to a question on a source.
fn answer(alloc: Global, question: &str, source: &str) -> Mem<String> {
    match question {
        "tokens" => answers::tokens(alloc, source),
        "places" => answers::places(alloc, source),
        "second" => answers::second(alloc, source),
        "type" => answers::typ(alloc, source),
        "decl" => answers::decl(alloc, source),
        "file" => answers::file(alloc, source),
        _ => Ok(String::from_str(alloc, "no such question")?),
    }
}

/// The question of a line and its text, as it is written.
fn parts_of(line: &str) -> Option<(&str, &str)> {
    let (question, text) = line.split_once(" \"")?;
    Some((question, text.strip_suffix('"')?))
}

fn with_answer(alloc: Global, line: &str) -> Mem<String> {
    let mut answered = String::from_str(alloc, line)?;
    if let Some((question, text)) = parts_of(line) {
        let source = unpictured(alloc, text)?;
        let answer = answer(alloc, question, source.as_str())?;
        answered.push_str(" => ")?;
        answered.push_str(answer.as_str())?;
    }
    Ok(answered)
}

/// A line with its answer, where it asks something.
pub fn answered(alloc: Global, line: &str) -> Result<String, AllocError> {
    match with_answer(alloc, line) {
        Ok(answered) => Ok(answered),
        Err(_) => String::from_str(alloc, "out of memory"),
    }
}
