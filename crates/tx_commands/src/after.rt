//! Tokens that are kept for later, and spaces that are ignored.

ghost use Rattle.tx_private.specs.World.{World};
ghost use Rattle.tx_views.specs.Views.{View};
ghost use Rattle.tx_commands.specs.Outcomes.{BecomesGiven};
ghost use Rattle.tx_commands.specs.Knowledge.{KnowsGiven};

use crate::command::{After, Command};
use crate::effect::Effect;
use crate::item::Item;
use crate::looks::is_space;
use crate::outcome::Outcome;
use std::alloc::Global;
use tx_tok::{Tok, Toks};
use tx_views::Sense;

/// What keeps a token, with an item more.
pub(crate) fn after_given(alloc: Global, after: After, item: Item) -> Outcome
    ensures becomes { (view : View) (w : World) → BecomesGiven view (Command.After after) item w result }
    ensures knows { KnowsGiven (Command.After after) item result }
{
    match after {
        After::Group => after_group_given(alloc, item),
        After::Assignment => after_assignment_given(alloc, item),
    }
}

/// `\aftergroup`, with an item more. At the end of the text it does nothing.
fn after_group_given(alloc: Global, item: Item) -> Outcome
    ensures becomes { (view : View) (w : World) → BecomesGiven view (Command.After After.Group) item w result }
    ensures knows { KnowsGiven (Command.After After.Group) item result }
{
    match &item {
        Item::Token(token, _) => Outcome::Does(Effect::AfterGroup(*token)),
        _ => Outcome::Again(Toks::new(alloc)),
    }
}

/// `\afterassignment`, with an item more. At the end of the text it does nothing.
fn after_assignment_given(alloc: Global, item: Item) -> Outcome
    ensures becomes { (view : View) (w : World) → BecomesGiven view (Command.After After.Assignment) item w result }
    ensures knows { KnowsGiven (Command.After After.Assignment) item result }
{
    match &item {
        Item::Token(token, _) => Outcome::Does(Effect::AfterAssignment(*token)),
        _ => Outcome::Again(Toks::new(alloc)),
    }
}

/// `\ignorespaces`, with an item more.
pub(crate) fn ignore_spaces_given(alloc: Global, item: Item) -> Outcome
    ensures becomes { (view : View) (w : World) → BecomesGiven view Command.IgnoreSpaces item w result }
    ensures knows { KnowsGiven Command.IgnoreSpaces item result }
{
    match &item {
        Item::Expanded(token, sense) => ignore_spaces(alloc, *token, sense),
        _ => Outcome::Again(Toks::new(alloc)),
    }
}

/// `\ignorespaces`, with a token that can't be expanded.
fn ignore_spaces(alloc: Global, token: Tok, sense: &Sense) -> Outcome
    ensures becomes { (view : View) (w : World) → BecomesGiven view Command.IgnoreSpaces (Item.Expanded token sense.now) w result }
    ensures knows { KnowsGiven Command.IgnoreSpaces (Item.Expanded token sense.now) result }
{
    if is_space(sense) {
        return Outcome::Goes(Command::IgnoreSpaces);
    }
    let mut back = Vec::new(alloc);
    match back.push(token) {
        Ok(()) => Outcome::Again(Toks(back)),
        Err(_) => Outcome::Memory,
    }
}
