//! What an item makes of any command.
#![tactic(auto, unfolding(tx_private::specs::Moves::move_in))]

ghost use Rattle.tx_private.specs.World.{World};
ghost use Rattle.tx_views.specs.Views.{View};
ghost use Rattle.tx_frames.specs.Knowledge.{Known};
ghost use Rattle.tx_commands.specs.Outcomes.{BecomesGiven, Begins, Suits};
ghost use Rattle.tx_commands.specs.Knowledge.{KnowsItem, KnowsControl, KnowsOutcome};

use crate::after::{after_given, ignore_spaces_given};
use crate::arithmetic::arithmetic_given;
use crate::assign::assign_given;
use crate::begin::begin_given;
use crate::command::Command;
use crate::item::Item;
use crate::name::name_given;
use crate::named::named_given;
use crate::outcome::Outcome;
use crate::prefixed::prefixed_given;
use crate::text::{letters_given, message_given};
use std::alloc::Global;

/// Main control at the beginning of a command, which has been given nothing. *TeX: The Program*, section 1030.
pub fn start() -> Command
    ensures begins { (view : View) (w : World) → Begins view result w }
    ensures knows { (known : Known) → KnowsControl known result }
{
    Command::Start
}

/// Gives an item to a command, which wished for it; a list that is held comes only where the value of a list is wished
/// for. The outcome says how the command goes on or what it does at last, and in which world. It is an error where the
/// number of a register or of a character is out of range (15 and 16), where a math code is (17) or the code of a byte
/// (18, which shows the greatest one), where arithmetic finds no token (20), where no name stands where one must (24),
/// and where something isn't built yet (63); other errors come of effects. Where memory is wanting the outcome is
/// `Outcome::Memory`, and nothing else has changed. The names and lists of an outcome are among those of the command
/// and of the item. *TeX: The Program*, parts 46 and 49.
pub fn feed(alloc: Global, command: Command, item: Item) -> Outcome
    requires { Suits command item }
    ensures becomes { (view : View) (w : World) → BecomesGiven view command item w result }
    ensures knows { (known : Known) → KnowsControl known command → KnowsItem known item → KnowsOutcome known result }
{
    match command {
        Command::Start => begin_given(alloc, item),
        Command::Prefixed(prefixes) => prefixed_given(alloc, prefixes, item),
        Command::Assign(prefixes, assign) => assign_given(prefixes, assign, item),
        Command::Name(prefixes, naming) => name_given(prefixes, naming, item),
        Command::Named(prefixes, place, named) => named_given(prefixes, place, named, item),
        Command::Arithmetic(prefixes, operation, stage) => {
            arithmetic_given(prefixes, operation, stage, item)
        }
        Command::After(after) => after_given(alloc, after, item),
        Command::Message(message, braced) => message_given(message, braced, item),
        Command::ChangeCase(letters, braced) => letters_given(letters, braced, item),
        Command::IgnoreSpaces => ignore_spaces_given(alloc, item),
    }
}
