//! What the scanner and the parsers make of Go sources: reads a case a line and prints the line
//! with its answer.
//!
//! A case is a question and a source in quotes, in which `␤`, `␍` and `␀` stand for the control
//! characters that they picture, and `␚` for a byte order mark:
//!
//! | Question | Answer |
//! |---|---|
//! | `tokens` | the tokens, as a kind and a range of bytes, or the fault |
//! | `places` | the comments, by their opening marks and ranges, and where lines begin |
//! | `second` | the kind of the second token |
//! | `type` | the type that the source is |
//! | `decl` | the declaration that follows `package p` and a newline, or the fault |
//! | `file` | the file, with the range of tokens of each declaration, or the fault |
//!
//! `#3-5` are the tokens from 3 to before 5. Empty lines and lines that begin with `#` are printed
//! as they are.
#![tactic(auto)]

mod answers;
mod declarations;
mod lines;
mod types;

use std::io;

fn main(rt: HostRuntime) -> io::Result<()> {
    for line in rt.lines(rt.alloc()) {
        let line = line?;
        let answered = lines::answered(rt.alloc(), line.as_str())?;
        println!(rt; "{answered}")?;
    }
    Ok(())
}
