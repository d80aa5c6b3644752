//! What is said of faults.

ghost use Rattle.std.specs.Prelude.{◌≡◌, ◌++◌, OnOk, decimal};
ghost use Rattle.text_out.specs.Escape.{escaped};
ghost use Rattle.godoc_commands.specs.Faults.{fault_text};

use go_ast::{Fault, Mem};
use text_out::Text;

/// Appends words and a number, for use in HTML.
fn push_numbered(text: &mut Text, words: &str, number: u32) -> Mem<()>
    ensures { OnOk result (text.new ≡ text.old ++ escaped (words.now ++ decimal number)) }
{
    text.push_escaped(words)?;
    text.push_number(u64::from(number))
}

/// Appends the text of a fault, for use in HTML.
#[tactic(auto, unfolding(crate::specs::Faults::fault_text))]
pub(crate) fn push_fault(text: &mut Text, fault: &Fault) -> Mem<()>
    ensures { OnOk result (text.new ≡ text.old ++ escaped (fault_text fault.now)) }
{
    match fault {
        Fault::NotUtf8(offset) => push_numbered(text, "fault 1: not UTF-8 at byte ", *offset),
        Fault::BadToken(offset) => push_numbered(text, "fault 2: bad token at byte ", *offset),
        Fault::OpenComment(offset) => push_numbered(
            text,
            "fault 3: open comment at byte ",
            *offset,
        ),
        Fault::OpenString(offset) => push_numbered(text, "fault 4: open string at byte ", *offset),
        Fault::Unbalanced(offset) => push_numbered(text, "fault 5: unbalanced at byte ", *offset),
        Fault::NoPackageClause => text.push_escaped("fault 6: no package clause"),
        Fault::BadDeclaration(chunk, line) => push_bad_declaration(text, *chunk, *line),
        Fault::OtherPackage(name) => push_other_package(text, name.as_str()),
        Fault::FileTooLarge => text.push_escaped("fault 11: file too large"),
        Fault::Unread => text.push_escaped("fault 12: unread"),
        Fault::BadBuildLine(line) => push_numbered(text, "fault 13: bad build line ", *line),
    }
}

/// Appends the text of a bad declaration, by its chunk and its line.
fn push_bad_declaration(text: &mut Text, chunk: u32, line: u32) -> Mem<()>
    ensures { OnOk result
        (text.new ≡ text.old ++ escaped (fault_text (Fault.BadDeclaration chunk line))) }
{
    push_numbered(text, "fault 7: bad declaration ", chunk)?;
    push_numbered(text, " at line ", line)
}

/// Appends the text of a file next to another package, by the name in its package clause.
fn push_other_package(text: &mut Text, name: &str) -> Mem<()>
    ensures { OnOk result
        (text.new ≡ text.old ++ escaped (fault_text (Fault.OtherPackage name.now))) }
{
    text.push_escaped("fault 8: package ")?;
    text.push_escaped(name)?;
    text.push_escaped(" beside another package")
}
