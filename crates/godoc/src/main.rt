//! godoc: a documentation server for trees of Go source.
//!
//! `godoc ROOT find NAME` prints where a name stands as an identifier in the Go files under a
//! folder. `godoc ROOT answer` answers the HTTP requests of standard input by pages on the packages
//! and the faults under a folder.
#![tactic(auto)]

ghost use Rattle.std.specs.Prelude.{◌≡◌};
ghost use Rattle.std.specs.Process.{exit_status};
ghost use Rattle.godoc_commands.specs.Status.{exit_status_of};

use godoc_commands::{CommandLine, Status, run};
use link_io::{StdSink, StdSource};
use std::env;
use std::process::ExitCode;
use tree_io::FsTree;

/// Tells how a run ended: by a line on standard error, where there is one, and by the exit status.
fn report<R: Eprint>(rt: &R, status: Status) -> ExitCode
    ensures { exit_status result ≡ exit_status_of status }
{
    if let Some(message) = status.message() {
        let _ = eprintln!(rt; "{message}");
    }
    ExitCode::from(status.exit_status())
}

fn main(rt: HostRuntime) -> ExitCode {
    let Ok(arguments) = env::args(&rt) else {
        return report(&rt, Status::Usage);
    };
    let Ok(words) = arguments.collect(rt.alloc()) else {
        return report(&rt, Status::NoMemory);
    };
    let line = CommandLine::new(rt.alloc(), words);
    let mut tree = FsTree::new(rt, line.root);
    let mut input = StdSource::new(rt);
    let mut out = StdSink::new(rt);
    let words = line.words.as_slice();
    let status = run(&rt, rt.alloc(), words, &mut tree, &mut input, &mut out);
    report(&rt, status)
}
