// What a line commands.
ghost use Rattle.std.specs.Prelude.{◌≡◌};
ghost use Rattle.script.specs.Commands.{style_of, one_said, two_said, alone, readers, read_by, command_of};

use crate::numbers::FromWord;
use crate::text::{Words, as_text};
use base::ROW_BYTES;

/// The two makes of a memory.
#[derive(Clone, Copy, Debug, PartialEq, Eq)]
pub enum Style {
    Rewriting,
    Flash,
}

/// A command of a script.
#[derive(Clone, Copy, Debug, PartialEq, Eq)]
pub enum Command {
    Part(Style, u16),
    Window(u16, u16),
    Power(u32, u8),
    Off,
    Write(u16, [u8; ROW_BYTES]),
    Blank(u16),
    Raise,
    Read(u16),
    Count,
    Rows,
    Load(u16),
}

impl FromWord for Style {
    ghost said = { style_of };

    fn from_word(word: &[u8]) -> Option<Style> {
        match as_text(word)? {
            "rewriting" => Some(Style::Rewriting),
            "flash" => Some(Style::Flash),
            _ => None,
        }
    }
}

// The command, where no word is left.
fn alone(mut words: Words, command: Command) -> Option<Command>
    ensures { result ≡ alone command words.entry }
{
    match words.next() {
        None => Some(command),
        Some(_) => None,
    }
}

// What the only word that is left says.
fn one<A: FromWord>(mut words: Words) -> Option<A>
    ensures { result ≡ one_said A.said words.entry }
{
    let word = words.next()?;
    match words.next() {
        None => A::from_word(word),
        Some(_) => None,
    }
}

// What the only two words that are left say.
fn two<A: FromWord, B: FromWord>(mut words: Words) -> Option<(A, B)>
    ensures { result ≡ two_said A.said B.said words.entry }
{
    let first = A::from_word(words.next()?)?;
    Some((first, one(words)?))
}

// What a name and the words after it command.
fn named(name: &[u8], words: Words) -> Option<Command>
    ensures { result ≡ read_by readers name.now words.entry }
{
    match as_text(name)? {
        "part" => two(words).map(|(style, rows)| Command::Part(style, rows)),
        "window" => two(words).map(|(first, rows)| Command::Window(first, rows)),
        "power" => two(words).map(|(charge, tear)| Command::Power(charge, tear)),
        "off" => alone(words, Command::Off),
        "write" => two(words).map(|(row, bytes)| Command::Write(row, bytes)),
        "blank" => one(words).map(Command::Blank),
        "raise" => alone(words, Command::Raise),
        "read" => one(words).map(Command::Read),
        "count" => alone(words, Command::Count),
        "rows" => alone(words, Command::Rows),
        "load" => one(words).map(Command::Load),
        _ => None,
    }
}

/// What a cleaned line commands, if it is a command.
#[tactic(auto, unfolding(crate::specs::Commands::command_of))]
pub fn parse(line: &[u8]) -> Option<Command>
    ensures { result ≡ command_of line.now }
{
    let mut words = Words::of(line);
    named(words.next()?, words)
}
