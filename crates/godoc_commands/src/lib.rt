//! All that the program godoc does: the top call [`run`], and the calls for each command.
//!
//! `find` writes where a name stands as an identifier in the Go files under a folder. `answer`
//! answers the HTTP requests of the input by pages on the packages and faults under a folder.
//!
//! ```
//! let line = CommandLine::new(alloc, words);
//! let mut tree = FsTree::new(rt, line.root);
//! let status = run(&rt, alloc, line.words.as_slice(), &mut tree, &mut input, &mut out);
//! let code = status.exit_status();
//! ```
#![tactic(auto)]

mod answer;
mod command_line;
mod commands;
mod config;
mod faults;
mod find;
mod hit_lines;
mod laws;
mod pages;
mod scan;
mod site;
mod status;
mod words;

pub use command_line::CommandLine;
pub use commands::run;
pub use laws::find_has_one_text;
pub use status::Status;
