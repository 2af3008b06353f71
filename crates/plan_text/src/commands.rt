// The lines of the text that names plans.
ghost use Rattle.std.specs.Prelude.{ℕ, List, MatchOption};
ghost use Rattle.plan_text.specs.Commands.{CommandIs, Names, TerminalOf};
ghost use Rattle.plan_text.specs.declared.commands.Command.{Command};
ghost use Rattle.words.specs.Words.{Listed, NoNumeral};

use ring::Link;
use shapes::Shape;
use std::str::FromStr;
use words::{FewWords, number_of, up_to_four};

// What a line asks for.
#[derive(Clone, Copy, Debug, PartialEq, Eq)]
pub enum Command {
    // Nothing: the line is blank.
    Blank,
    // A new plan of so many terminals.
    Plan(usize),
    // One more link of the plan.
    Link(Link),
    // A plan that is drawn for the asker, of a shape and so many terminals.
    Shape(Shape, usize),
}

// The line's words name no command.
#[derive(Clone, Copy, Debug, PartialEq, Eq)]
pub struct UnknownCommand;

// A terminal; every number past 65,535 is read as 65,535, which is no terminal of any plan.
fn read_terminal(word: &str) -> Option<u16>
    ensures { MatchOption result (NoNumeral word.now) (TerminalOf word.now) }
{
    let number = number_of(word)?;
    Some(u16::try_from(number).unwrap_or(u16::MAX))
}

// The command that the words of a line name, if they name one.
fn named(words: FewWords<'_>) -> Option<Command>
    ensures { (ws : List (List ℕ)) → Listed words.entry ws → MatchOption result ((c : Command) → Names ws c → ⊥) (Names ws) }
{
    match words {
        FewWords::Blank => Some(Command::Blank),
        FewWords::Two("plan", terminals) => Some(Command::Plan(number_of(terminals)?)),
        FewWords::Three("link", from, to) => Some(Command::Link(Link {
            from: read_terminal(from)?,
            to: read_terminal(to)?,
        })),
        FewWords::Three("shape", shape, terminals) => {
            Some(Command::Shape(shape.parse().ok()?, number_of(terminals)?))
        }
        _ => None,
    }
}

impl FromStr for Command {
    type Err = UnknownCommand;

    ghost from_str_gives = { CommandIs };

    fn from_str(line: &str) -> Result<Command, UnknownCommand> {
        named(up_to_four(line)).ok_or(UnknownCommand)
    }
}
