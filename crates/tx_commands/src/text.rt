//! Commands with a text in braces. *TeX: The Program*, sections 1279 to 1288.

ghost use Rattle.std.specs.Prelude.{true, false};
ghost use Rattle.tx_private.specs.World.{World};
ghost use Rattle.tx_views.specs.Views.{View};
ghost use Rattle.tx_commands.specs.Outcomes.{BecomesGiven, Suits};
ghost use Rattle.tx_commands.specs.Knowledge.{KnowsGiven};

use crate::command::{Command, Letters, Message};
use crate::effect::Effect;
use crate::item::Item;
use crate::outcome::Outcome;

/// `\message` or `\errmessage`, with an item more.
pub(crate) fn message_given(message: Message, braced: bool, item: Item) -> Outcome
    requires { Suits (Command.Message message braced) item }
    ensures becomes { (view : View) (w : World) → BecomesGiven view (Command.Message message braced) item w result }
    ensures knows { KnowsGiven (Command.Message message braced) item result }
{
    if braced {
        message_text_given(message, item)
    } else {
        message_brace_given(message, item)
    }
}

/// `\message` or `\errmessage`, with its left brace.
fn message_brace_given(message: Message, item: Item) -> Outcome
    ensures becomes { (view : View) (w : World) → BecomesGiven view (Command.Message message false) item w result }
    ensures knows { KnowsGiven (Command.Message message false) item result }
{
    match &item {
        Item::Nothing => Outcome::Goes(Command::Message(message, true)),
        _ => Outcome::error(63),
    }
}

/// `\message` or `\errmessage`, with the item that is its text.
fn message_text_given(message: Message, item: Item) -> Outcome
    requires { Suits (Command.Message message true) item }
    ensures becomes { (view : View) (w : World) → BecomesGiven view (Command.Message message true) item w result }
    ensures knows { KnowsGiven (Command.Message message true) item result }
{
    match item {
        Item::Tokens(text) => Outcome::Does(Effect::Message(message, text)),
        Item::List(_) => unreachable!(),
        Item::Token(_, _) => Outcome::error(63),
        Item::End => Outcome::error(63),
        Item::Expanded(_, _) => Outcome::error(63),
        Item::TextEnd => Outcome::error(63),
        Item::Amount(_) => Outcome::error(63),
        Item::Word(_) => Outcome::error(63),
        Item::Nothing => Outcome::error(63),
    }
}

/// `\lowercase` or `\uppercase`, with an item more.
pub(crate) fn letters_given(letters: Letters, braced: bool, item: Item) -> Outcome
    requires { Suits (Command.ChangeCase letters braced) item }
    ensures becomes { (view : View) (w : World) → BecomesGiven view (Command.ChangeCase letters braced) item w result }
    ensures knows { KnowsGiven (Command.ChangeCase letters braced) item result }
{
    if braced {
        letters_text_given(letters, item)
    } else {
        letters_brace_given(letters, item)
    }
}

/// `\lowercase` or `\uppercase`, with its left brace.
fn letters_brace_given(letters: Letters, item: Item) -> Outcome
    ensures becomes { (view : View) (w : World) → BecomesGiven view (Command.ChangeCase letters false) item w result }
    ensures knows { KnowsGiven (Command.ChangeCase letters false) item result }
{
    match &item {
        Item::Nothing => Outcome::Goes(Command::ChangeCase(letters, true)),
        _ => Outcome::error(63),
    }
}

/// `\lowercase` or `\uppercase`, with the item that is its text.
fn letters_text_given(letters: Letters, item: Item) -> Outcome
    requires { Suits (Command.ChangeCase letters true) item }
    ensures becomes { (view : View) (w : World) → BecomesGiven view (Command.ChangeCase letters true) item w result }
    ensures knows { KnowsGiven (Command.ChangeCase letters true) item result }
{
    match item {
        Item::Tokens(text) => Outcome::Does(Effect::ChangeCase(letters, text)),
        Item::List(_) => unreachable!(),
        Item::Token(_, _) => Outcome::error(63),
        Item::End => Outcome::error(63),
        Item::Expanded(_, _) => Outcome::error(63),
        Item::TextEnd => Outcome::error(63),
        Item::Amount(_) => Outcome::error(63),
        Item::Word(_) => Outcome::error(63),
        Item::Nothing => Outcome::error(63),
    }
}
