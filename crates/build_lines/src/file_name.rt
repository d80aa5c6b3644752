//! What the name of a file says of its system and architecture.

ghost use Rattle.std.specs.Prelude.{◌≡◌};
ghost use Rattle.build_lines.specs.FileNames.{is_cut, is_listed, last_part, name_admits};
ghost use Rattle.build_lines.specs.FileNames.{names_platform, names_tag, other_parts, stem_of};
ghost use Rattle.build_lines.specs.FileNames.{without_test};

use crate::part::{after_last, before_first, before_last};
use crate::tag::{holds, is_architecture, is_system};
use go_ast::Config;

/// A text without a final `_test`.
#[tactic(auto, unfolding(crate::specs::FileNames::without_test))]
fn without_test(text: &[u8]) -> &[u8]
    ensures { result.now ≡ without_test text.now }
{
    if text.ends_with(b"_test") {
        &text[..text.len() - 5]
    } else {
        text
    }
}

/// What stands after the last slash and before the first point after it, without a final `_test`.
fn stem_of(path: &[u8]) -> &[u8]
    ensures { result.now ≡ stem_of path.now }
{
    without_test(before_first(b'.', after_last(b'/', path)))
}

/// Whether a text has two parts at least, where it is cut at each `_`.
fn is_cut(text: &[u8]) -> bool
    ensures { result ≡ is_cut text.now }
{
    text.iter().any(|byte| *byte == b'_')
}

#[tactic(auto, unfolding(crate::specs::FileNames::last_part))]
fn last_part(text: &[u8]) -> &[u8]
    ensures { result.now ≡ last_part text.now }
{
    after_last(b'_', text)
}

/// The parts before the last.
#[tactic(auto, unfolding(crate::specs::FileNames::other_parts))]
fn other_parts(text: &[u8]) -> &[u8]
    ensures { result.now ≡ other_parts text.now }
{
    before_last(b'_', text)
}

/// Whether a tag is a listed system or a listed architecture.
fn is_listed(tag: &[u8]) -> bool
    ensures { result ≡ is_listed tag.now }
{
    is_system(tag) || is_architecture(tag)
}

/// Whether there are three parts at least, of which the last two are a system and an architecture.
#[tactic(auto, unfolding(crate::specs::FileNames::names_platform))]
fn names_platform(stem: &[u8]) -> bool
    ensures { result ≡ names_platform stem.now }
{
    let others = other_parts(stem);
    is_cut(stem)
        && is_cut(others)
        && is_system(last_part(others))
        && is_architecture(last_part(stem))
}

/// Whether there are two parts at least, of which the last is a system or an architecture.
#[tactic(auto, unfolding(crate::specs::FileNames::names_tag))]
fn names_tag(stem: &[u8]) -> bool
    ensures { result ≡ names_tag stem.now }
{
    is_cut(stem) && is_listed(last_part(stem))
}

/// Whether the name of the file at a path lets it in (the go command, "Build constraints").
#[tactic(auto, unfolding(crate::specs::FileNames::name_admits))]
pub fn name_admits(config: &Config, path: &str) -> bool
    ensures { result ≡ name_admits config.now path.now }
{
    let stem = stem_of(path.as_bytes());
    let last = last_part(stem);
    if names_platform(stem) {
        holds(last_part(other_parts(stem)), config) && holds(last, config)
    } else if names_tag(stem) {
        holds(last, config)
    } else {
        true
    }
}
