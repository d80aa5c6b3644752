//! The words of the command line.

ghost use Rattle.std.specs.Prelude.{◌≡◌, map, option_map, string_bytes};
ghost use Rattle.godoc_commands.specs.Asked.{asked};
ghost use Rattle.godoc_commands.specs.Words.{command_of};

use go_chars::is_name;

/// What the program is asked for.
#[derive(Clone, Copy, Debug)]
pub(crate) enum Command<'a> {
    /// The places where a name stands as an identifier.
    Find(&'a str),
    /// The replies to the requests of one connection.
    Answer,
}

/// The command that the words ask for: they are `answer` alone, or `find` and an identifier that is
/// no keyword. `None` for all other words.
pub(crate) fn command_of(words: &[String]) -> Option<Command<'_>>
    ensures { option_map asked result ≡ command_of (map string_bytes words.now) }
{
    match words {
        [command] if command.as_str() == "answer" => Some(Command::Answer),
        [command, name] if command.as_str() == "find" && is_name(name.as_str()) => {
            Some(Command::Find(name.as_str()))
        }
        _ => None,
    }
}
