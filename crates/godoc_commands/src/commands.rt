//! The top call: everything that the program does.

ghost use Rattle.std.specs.Prelude.{◌≡◌, ◌↔◌, List, None, Some, map, string_bytes, ℕ};
ghost use Rattle.plain_data.specs.Causes.{IsCaused, Rose};
ghost use Rattle.godoc_commands.specs.Changes.{input_change, output_change, tree_change};
ghost use Rattle.godoc_commands.specs.Outcome.{FindsPlan, IsOfTree, IsWithoutFault, OpensAtMostOne};
ghost use Rattle.godoc_commands.specs.Serving.{AnswersPlan};
ghost use Rattle.godoc_commands.specs.Words.{Plan, answer, find, plan_of};

use crate::answer::answer;
use crate::config::default_config;
use crate::find::find;
use crate::status::Status;
use crate::words::{Command, command_of};
use link_io::{Sink, Source};
use std::alloc::Global;
use std::sync::Wait;
use tree_io::Tree;

/// Does what the words of the command line ask for, and returns how that ended.
///
/// The words `find` and an identifier that is no keyword ask for the places of a name. The call
/// opens a scan of the tree, reads its files one after another, and writes a line `PATH:LINE:COL`
/// for each identifier with that name, sorted by path and offset. Lines and columns are counted
/// from 1, and columns in bytes. Files with a fault, files that aren't for Go 1.23 on linux and
/// amd64, and files in the directory of a package of another name are skipped.
///
/// The word `answer` alone asks for the replies to the requests of one connection. The call scans
/// the tree once, and serves the input and the output as the two ways of the connection, by the
/// packages and the faults that the scan found. It ends with the input, after a request that
/// closes, after what can't be a request, and after 1,000 replies. All other words give `Usage`.
///
/// A tree with more than 20,000 files gives `Limit` before any of them is read, and one whose files
/// have more than 134,217,728 bytes together after the first with which they do.
///
/// `answer` ends its publisher, which may wait for readers that are entering; there are none then.
/// What the clauses say holds if the call returns.
pub fn run<R: Wait, T: Tree, I: Source, O: Sink>(
    rt: &R,
    alloc: Global,
    words: &[String],
    tree: &mut T,
    input: &mut I,
    out: &mut O,
) -> Status
    // What the words ask for.
    ensures usage { (result ≡ Status.Usage) ↔ (plan_of (map string_bytes words.now) ≡ None) }
    ensures usage_leaves_tree { result ≡ Status.Usage → tree.new ≡ tree.old }
    ensures usage_leaves_input { result ≡ Status.Usage → input.new ≡ input.old }
    ensures usage_leaves_output { result ≡ Status.Usage → out.new ≡ out.old }

    // A fault comes only where its count rose by one in this call, or stands at its end, and
    // anything else only where the count is unchanged.
    ensures list_faults { IsCaused (T.list_faults tree.old) (T.list_faults tree.new)
        (result ≡ Status.TreeFault) }
    ensures read_faults { IsCaused (I.read_faults input.old) (I.read_faults input.new)
        (result ≡ Status.ReadFault) }
    ensures write_faults { IsCaused (O.write_faults out.old) (O.write_faults out.new)
        (result ≡ Status.WriteFault) }
    ensures unread { IsOfTree result → input.new ≡ input.old }
    ensures unwritten { IsOfTree result → out.new ≡ out.old }
    ensures at_most_one_scan { OpensAtMostOne (T.scans tree.old) (T.scans tree.new) }

    // Exactly the text of `find` over the sources of one scan, or a prefix of it.
    ensures finds { (plan : Plan) (name : List ℕ)
        → plan_of (map string_bytes words.now) ≡ Some plan → plan.command ≡ find name
        → FindsPlan plan.config name
        (tree_change T.scans T.list_faults T.read_faults tree.old tree.new)
        (output_change O.held O.write_faults out.old out.new) result }
    ensures find_leaves_input { (plan : Plan) (name : List ℕ)
        → plan_of (map string_bytes words.now) ≡ Some plan → plan.command ≡ find name
        → input.new ≡ input.old }

    // Exactly the text of the connection, by the one edition that the sources of one scan define,
    // or what a session leaves that fails.
    ensures answers { (plan : Plan)
        → plan_of (map string_bytes words.now) ≡ Some plan → plan.command ≡ answer
        → AnswersPlan plan.config
        (tree_change T.scans T.list_faults T.read_faults tree.old tree.new)
        (input_change I.remaining I.read_faults input.old input.new)
        (output_change O.held O.write_faults out.old out.new) result }

    // Where no count of faults rose or stands at its end, only `NoMemory` and the limits keep
    // a command from its end.
    ensures complete { ¬ (plan_of (map string_bytes words.now) ≡ None)
        → ¬ (Rose (T.list_faults tree.old) (T.list_faults tree.new))
        → ¬ (Rose (I.read_faults input.old) (I.read_faults input.new))
        → ¬ (Rose (O.write_faults out.old) (O.write_faults out.new))
        → IsWithoutFault result }
{
    let Some(command) = command_of(words) else {
        return Status::Usage;
    };
    let Ok(config) = default_config(alloc) else {
        return Status::NoMemory;
    };
    match command {
        Command::Find(name) => find(alloc, &config, name, tree, out),
        Command::Answer => answer(rt, alloc, &config, tree, input, out),
    }
}
