//! What godoc makes of the texts of comments: reads a case a line and prints the line with its
//! answer.
//!
//! A case is a question and a text in quotes, in which `\n`, `\t`, `\r` and `\\` are escapes:
//!
//! | Question | Answer |
//! |---|---|
//! | `doc LINE` | the text of the comments that document what begins on that line of a source |
//! | `blocks` | the blocks: `P`aragraph, `H`eading, `C`ode, `B`ullets, `N`umbers, `D`efinitions |
//! | `inline` | the inlines: `{plain}` and `<link's text|address>` |
//! | `html` | the HTML |
//! | `synopsis`, `bug`, `deprecated` | what the text says in short |
//! | `long` | how many inlines the text has, written twenty thousand times |
//!
//! Empty lines and lines that begin with `#` are printed as they are.
#![tactic(auto)]

mod answers;
mod lines;
mod links;
mod quoted;

use std::io;

fn main(rt: HostRuntime) -> io::Result<()> {
    for line in rt.lines(rt.alloc()) {
        let line = line?;
        let answered = lines::answered(rt.alloc(), line.as_str())?;
        println!(rt; "{answered}")?;
    }
    Ok(())
}
