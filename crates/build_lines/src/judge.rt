//! Which files are read.

ghost use Rattle.std.specs.Prelude.{◌≡◌, ◌≤◌, All, IfOk, length, true};
ghost use Rattle.go_ast.specs.declared.token.TheConstants.{MAX_SOURCE_BYTES};
ghost use Rattle.go_ast.specs.Reading.{Reads};
ghost use Rattle.build_lines.specs.Admissions.{IsAdmission, IsBadLine, IsJudgedBy, judged};
ghost use Rattle.build_lines.specs.Judging.{BeginsBuild, IsInside};

use crate::admission::{Admission, Why};
use crate::build_line::{build_lines, expression_text, line_of};
use crate::expression::expression_value;
use crate::file_name::name_admits;
use go_ast::{Comment, Config, Mem, Scanned};
use std::alloc::Global;

/// What is said of a file by whether its name lets it in, and then whether its build line does.
fn judged(by_name: bool, by_line: bool) -> Admission
    ensures { result ≡ judged by_name by_line }
{
    if !by_name {
        Admission::Ignored(Why::ByName)
    } else if !by_line {
        Admission::Ignored(Why::ByLine)
    } else {
        Admission::Admitted
    }
}

/// What is said of a file for a build line that is malformed, or that is a second one.
fn bad_line(source: &[u8], line: &Comment) -> Admission
    requires small { length source.now ≤ MAX_SOURCE_BYTES }
    requires inside { IsInside (length source.now) line.now }
    ensures { IsBadLine source.now line.now result }
{
    Admission::BadBuildLine(line_of(source, line.span.start))
}

/// What is said of a file by its build lines, and by whether its name lets it in.
fn judge(
    alloc: Global,
    source: &[u8],
    config: &Config,
    by_name: bool,
    lines: &[Comment],
) -> Mem<Admission>
    requires small { length source.now ≤ MAX_SOURCE_BYTES }
    requires inside { All (IsInside (length source.now)) lines.now }
    requires begin { All (BeginsBuild source.now) lines.now }
    ensures { IfOk result (IsJudgedBy source.now config.now by_name lines.now) }
{
    match lines {
        [] => Ok(judged(by_name, true)),
        [line, others @ ..] => {
            match expression_value(alloc, expression_text(source, line), config)? {
                None => Ok(bad_line(source, line)),
                Some(by_line) => match others {
                    [] => Ok(judged(by_name, by_line)),
                    [second, ..] => Ok(bad_line(source, second)),
                },
            }
        }
    }
}

/// Whether a file is read for a configuration: by its path, whose folders don't count, its bytes
/// and what a scan found in them, of which the lines aren't looked at.
///
/// The source has at most [`MAX_SOURCE_BYTES`](go_ast::MAX_SOURCE_BYTES) bytes, and the tokens and
/// comments are those of its reading. A build line is a `//` comment before the first token that is
/// no semicolon, with only white space before it on its line, that begins `//go:build` and ends
/// there or continues with a blank. `BadBuildLine` comes first: with the line of the first build
/// line, where what follows in it spells no expression of at most 100 levels, else with the line of
/// a second one. Then comes `Ignored(ByName)`, where the name of the file names a system or an
/// architecture that doesn't hold, and then `Ignored(ByLine)`, where the expression doesn't hold.
/// Else the file is `Admitted` (The go command, "Build constraints").
///
/// # Errors
///
/// `NoMemory` where an allocation is refused.
pub fn admits(
    alloc: Global,
    path: &str,
    source: &[u8],
    scanned: &Scanned,
    config: &Config,
) -> Mem<Admission>
    requires small { length source.now ≤ MAX_SOURCE_BYTES }
    requires read { Reads source.now scanned.now.tokens scanned.now.comments }
    ensures { IfOk result (IsAdmission path.now source.now
        scanned.now.tokens scanned.now.comments config.now) }
{
    let lines = build_lines(alloc, source, scanned)?;
    judge(
        alloc,
        source,
        config,
        name_admits(config, path),
        lines.as_slice(),
    )
}
