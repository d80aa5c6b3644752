//! A line of the table: a question, its text, and the answer.

use crate::answers;
use crate::quoted::{push_quoted, unquoted};
use plain_data::{Mem, Txt};
use std::alloc::{AllocError, Global};

/// Adds a text in quotes.
fn push_text(line: &mut String, text: &Txt) -> Mem<()> {
    line.push_str("\"")?;
    push_quoted(line, text.as_str())?;
    line.push_str("\"")?;
    Ok(())
}

/// Adds a text in quotes, or `none`.
fn push_option(line: &mut String, text: Option<Txt>) -> Mem<()> {
    match text {
        None => line.push_str("none")?,
        Some(text) => push_text(line, &text)?,
    }
    Ok(())
}

/// Adds what stands for itself, or `none` where it is empty.
fn push_list(line: &mut String, list: &str) -> Mem<()> {
    if list.is_empty() {
        line.push_str("none")?;
    }
    push_quoted(line, list)
}

/// Adds the answer to a question on a text.
fn push_answer(alloc: Global, line: &mut String, question: &str, text: &str) -> Mem<()> {
    match question {
        "blocks" => push_list(line, answers::blocks(alloc, text)?.as_str()),
        "inline" => push_list(line, answers::inline(alloc, text)?.as_str()),
        "long" => push_list(line, answers::long(alloc, text)?.as_str()),
        "html" => push_text(line, &answers::html(alloc, text)?),
        "synopsis" => push_text(line, &synopsis_notes::synopsis(alloc, text)?),
        "bug" => push_option(line, synopsis_notes::bug(alloc, text)?),
        "deprecated" => {
            let deprecated = synopsis_notes::deprecated(alloc, text)?;
            push_list(line, if deprecated { "yes" } else { "no" })
        }
        _ => match question.strip_prefix("doc ") {
            None => push_list(line, "no such question"),
            Some(number) => {
                let number = number.parse::<u32>().unwrap_or(0);
                push_option(line, answers::doc(alloc, text, number)?)
            }
        },
    }
}

/// The question of a line and its text, as it is written.
fn parts_of(line: &str) -> Option<(&str, &str)> {
    let (question, text) = line.split_once(" \"")?;
    Some((question, text.strip_suffix('"')?))
}

fn with_answer(alloc: Global, line: &str) -> Mem<String> {
    let mut answered = String::from_str(alloc, line)?;
    if let Some((question, text)) = parts_of(line) {
        answered.push_str(" => ")?;
        let text = unquoted(alloc, text)?;
        push_answer(alloc, &mut answered, question, text.as_str())?;
    }
    Ok(answered)
}

/// A line with its answer, where it asks something.
pub fn answered(alloc: Global, line: &str) -> Result<String, AllocError> {
    match with_answer(alloc, line) {
        Ok(answered) => Ok(answered),
        Err(_) => String::from_str(alloc, "out of memory"),
    }
}
