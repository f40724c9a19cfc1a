ghost use Rattle.std.specs.Prelude.{◌≡◌, map};
ghost use Rattle.std.specs.String.{string_bytes};
ghost use Rattle.script_commands.specs.Commands.{command_of, lone_of, numbered_of};

use xl_base::decimal;

/// A command of the program: to read and plan a script; to run it too, by a seed below 2^64; to run it with so many
/// threads that take the hub's turns, 1 to 16; to run the script that a number below 2^32 generates; or to judge a script with
/// its report.
#[derive(Clone, Copy)]
pub enum Command {
    Check,
    Run(u64),
    Mount(u8),
    Generate(u64),
    Replay,
}

/// The command that the words after the program's name are; `None` exactly where they are no command.
pub fn command_in(words: &[String]) -> Option<Command>
    ensures { result ≡ command_of (map string_bytes words.now) }
{
    match words {
        [word] => lone_command(word.as_bytes()),
        [word, number] => numbered_command(word.as_bytes(), decimal(number.as_bytes())?),
        _ => None,
    }
}

fn lone_command(word: &[u8]) -> Option<Command>
    ensures { result ≡ lone_of word.now }
{
    if word == b"check".as_slice() {
        return Some(Command::Check);
    }
    if word == b"replay".as_slice() {
        return Some(Command::Replay);
    }
    None
}

fn numbered_command(word: &[u8], number: u64) -> Option<Command>
    ensures { result ≡ numbered_of word.now number }
{
    if word == b"run".as_slice() {
        return Some(Command::Run(number));
    }
    if word == b"mount".as_slice() && 1 <= number && number <= 16 {
        return Some(Command::Mount(number as u8));
    }
    if word == b"gen".as_slice() && number < 4294967296 {
        return Some(Command::Generate(number));
    }
    None
}
