//! What godoc makes of the bytes of a connection: reads a case a line and prints the line with its
//! answer.
//!
//! A case is a question and a text in quotes, in which `␤`, `␍` and `␉` stand for the control
//! characters that they picture, and `�` for a byte that stands in no UTF-8:
//!
//! | Question | Answer |
//! |---|---|
//! | `open` | the requests of a stream whose input hasn't ended, and how it ends |
//! | `ended` | the same where the input ends after it |
//! | `long`, `last` | both of the stream `letters N`, `newlines N`, `head N` (bytes) or `fields N` |
//! | `get`, `head`, `post` | what a request with that method asks for by its target |
//! | `reply` | the head of the reply with this code, length and edition; `last` where it closes |
//! | `refusal` | the reply to what can't be a request |
//!
//! A stream is fed whole, byte by byte, and in two pieces for each place of a cut. Empty lines and
//! lines that begin with `#` are printed as they are.
#![tactic(auto)]

mod lines;
mod pictures;
mod replies;
mod streams;
mod targets;

use std::io;

fn main(rt: HostRuntime) -> io::Result<()> {
    for line in rt.lines(rt.alloc()) {
        let line = line?;
        let answered = lines::answered(rt.alloc(), line.as_str())?;
        println!(rt; "{answered}")?;
    }
    Ok(())
}
