//! Commands that take a name. *TeX: The Program*, section 1215.

ghost use Rattle.tx_private.specs.World.{World};
ghost use Rattle.tx_views.specs.Views.{View};
ghost use Rattle.tx_views.specs.Places.{address_in};
ghost use Rattle.tx_assign.specs.Assigned.{prefixes_in};
ghost use Rattle.tx_frames.specs.Knowledge.{Known, KnowsPlace};
ghost use Rattle.tx_commands.specs.Outcomes.{BecomesGiven, Makes};
ghost use Rattle.tx_commands.specs.Commands.{behind_name as behind_name_of};
ghost use Rattle.tx_commands.specs.Knowledge.{KnowsOutcome, KnowsGiven};

use crate::command::{Command, DefineStage, FutureLetStage, LetStage, Named, Naming, Stage};
use crate::item::Item;
use crate::looks::is_space_token;
use crate::outcome::Outcome;
use tx_assign::{Prefixes, name_place};
use tx_tok::Tok;
use tx_views::{Place, Sense};

/// A command that takes a name, with the item that is the name, or a space before it.
pub(crate) fn name_given(prefixes: Prefixes, naming: Naming, item: Item) -> Outcome
    ensures becomes { (view : View) (w : World) → BecomesGiven view (Command.Name prefixes naming) item w result }
    ensures knows { KnowsGiven (Command.Name prefixes naming) item result }
{
    match &item {
        Item::Token(token, sense) => name(prefixes, naming, *token, *sense),
        _ => Outcome::error(24),
    }
}

/// A command that takes a name, with the token that is the name, or a space before it.
fn name(prefixes: Prefixes, naming: Naming, token: Tok, sense: Sense) -> Outcome
    ensures becomes { (view : View) (w : World) → BecomesGiven view (Command.Name prefixes naming) (Item.Token token sense) w result }
    ensures knows { KnowsGiven (Command.Name prefixes naming) (Item.Token token sense) result }
{
    let _ = sense;
    if is_space_token(token) {
        return Outcome::Goes(Command::Name(prefixes, naming));
    }
    match name_place(token) {
        Some(place) => behind_name(prefixes, naming, place),
        None => Outcome::error(24),
    }
}

/// A command that took its name.
fn behind_name(prefixes: Prefixes, naming: Naming, place: Place) -> Outcome
    ensures becomes { (view : View) (w : World) → Makes view (behind_name_of (prefixes_in prefixes) naming (address_in view place)) w result }
    ensures knows { (known : Known) → KnowsPlace known place → KnowsOutcome known result }
{
    match naming {
        Naming::Define(expands) => Outcome::Goes(Command::Named(
            prefixes,
            place,
            Named::Define(expands, DefineStage::Brace),
        )),
        Naming::Let => Outcome::Goes(Command::Named(prefixes, place, Named::Let(LetStage::Start))),
        Naming::FutureLet => Outcome::Goes(Command::Named(
            prefixes,
            place,
            Named::FutureLet(FutureLetStage::First),
        )),
        Naming::Stand(what) => Outcome::Relaxes(
            Command::Named(prefixes, place, Named::Stand(what, Stage::Equals)),
            prefixes,
            place,
        ),
    }
}
