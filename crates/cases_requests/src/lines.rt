//! A line of the table: a question, its text, and the answer.

use crate::pictures::unpictured;
use crate::{replies, streams, targets};
use http_wire::Verb;
use plain_data::Mem;
use std::alloc::{AllocError, Global};

/// The answer to a question on a text.
fn answer(alloc: Global, question: &str, text: &str) -> Mem<String> {
    match question {
        "open" => streams::requests(alloc, unpictured(alloc, text)?.as_slice(), false),
        "ended" => streams::requests(alloc, unpictured(alloc, text)?.as_slice(), true),
        "long" => streams::long(alloc, text, false),
        "last" => streams::long(alloc, text, true),
        "get" => targets::target(alloc, Verb::Get, text),
        "head" => targets::target(alloc, Verb::Head, text),
        "post" => targets::target(alloc, Verb::Other, text),
        "reply" => replies::head(alloc, text),
        "refusal" => replies::refusal(alloc),
        _ => Ok(String::from_str(alloc, "no such question")?),
    }
}

/// The question of a line and its text, as it is written.
fn parts_of(line: &str) -> Option<(&str, &str)> {
    let (question, text) = line.split_once(" \"")?;
    Some((question, text.strip_suffix('"')?))
}

fn with_answer(alloc: Global, line: &str) -> Mem<String> {
    let mut answered = String::from_str(alloc, line)?;
    if let Some((question, text)) = parts_of(line) {
        let answer = answer(alloc, question, text)?;
        answered.push_str(" => ")?;
        answered.push_str(answer.as_str())?;
    }
    Ok(answered)
}

/// A line with its answer, where it asks something.
pub fn answered(alloc: Global, line: &str) -> Result<String, AllocError> {
    match with_answer(alloc, line) {
        Ok(answered) => Ok(answered),
        Err(_) => String::from_str(alloc, "out of memory"),
    }
}
