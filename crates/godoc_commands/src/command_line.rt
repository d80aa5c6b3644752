//! The command line.

ghost use Rattle.std.specs.Prelude.{◌≡◌, [], drop, map, slice_index_or, string_bytes};
ghost use Rattle.godoc_commands.specs.Words.{root_of, words_after_root};

use std::alloc::Global;

/// The root folder and the words after it.
#[derive(Debug, Drop)]
pub struct CommandLine {
    /// The first word after the program's name, or empty.
    pub root: String,
    /// The words after the root folder.
    pub words: Vec<String>,
}

impl CommandLine {
    /// Takes the words of a command line apart. The first is the program's name.
    pub fn new(alloc: Global, mut words: Vec<String>) -> CommandLine
        ensures root { string_bytes result.root ≡ root_of (map string_bytes words.items) }
        ensures words { map string_bytes result.words.items
            ≡ words_after_root (map string_bytes words.items) }
    {
        let _program = take_first(alloc, &mut words);
        let root = take_first(alloc, &mut words);
        CommandLine { root, words }
    }
}

/// Takes the first word off: the empty text where there isn't one.
fn take_first(alloc: Global, words: &mut Vec<String>) -> String
    ensures first { string_bytes result ≡ slice_index_or (map string_bytes words.old.items) 0 [] }
    ensures rest { map string_bytes words.new.items ≡ drop 1 (map string_bytes words.old.items) }
{
    if words.is_empty() {
        return String::new(alloc);
    }
    words.remove(0)
}
