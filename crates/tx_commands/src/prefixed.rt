//! Assignments behind prefixes. *TeX: The Program*, section 1211.

ghost use Rattle.std.specs.Prelude.{◌≡◌, ◌||◌, true, false};
ghost use Rattle.tx_private.specs.Meanings.{Prim};
ghost use Rattle.tx_private.specs.World.{World};
ghost use Rattle.tx_private.specs.Assignments.{assign_at};
ghost use Rattle.tx_private.specs.Controls.{assignments, checked, defines as is_definition};
ghost use Rattle.tx_views.specs.Views.{View};
ghost use Rattle.tx_views.specs.Places.{address_in};
ghost use Rattle.tx_views.specs.Meanings.{sense_in};
ghost use Rattle.tx_assign.specs.Assigned.{prefixes_in};
ghost use Rattle.tx_frames.specs.Knowledge.{Known, KnowsPlace, KnowsSense};
ghost use Rattle.tx_commands.specs.Outcomes.{BecomesGiven, Makes};
ghost use Rattle.tx_commands.specs.Stages.{prefixed_with, skipping};
ghost use Rattle.tx_commands.specs.Knowledge.{KnowsOutcome, KnowsGiven};

use crate::assign::at_place;
use crate::command::Command;
use crate::define::assignment;
use crate::effect::Effect;
use crate::item::Item;
use crate::looks::is_skipped;
use crate::outcome::Outcome;
use std::alloc::Global;
use tx_assign::{Prefixes, defines, prefix};
use tx_prims::primitives::{Assignment, Primitive};
use tx_tok::Toks;
use tx_views::{Place, Sense};

/// Prefixes, with an item more.
pub(crate) fn prefixed_given(alloc: Global, prefixes: Prefixes, item: Item) -> Outcome
    ensures becomes { (view : View) (w : World) → BecomesGiven view (Command.Prefixed prefixes) item w result }
    ensures knows { KnowsGiven (Command.Prefixed prefixes) item result }
{
    match &item {
        Item::Expanded(_, sense) => behind_prefixes(prefixes, sense),
        _ => Outcome::Again(Toks::new(alloc)),
    }
}

/// Prefixes, before what means this.
fn behind_prefixes(prefixes: Prefixes, sense: &Sense) -> Outcome
    ensures becomes { (view : View) (w : World) → Makes view (skipping (prefixes_in prefixes) (sense_in view sense.now)) w result }
    ensures knows { (known : Known) → KnowsSense known sense.now → KnowsOutcome known result }
{
    if is_skipped(sense) {
        Outcome::Goes(Command::Prefixed(prefixes))
    } else {
        prefixed(prefixes, *sense)
    }
}

/// Prefixes, before what means this, which is not skipped.
fn prefixed(prefixes: Prefixes, sense: Sense) -> Outcome
    ensures becomes { (view : View) (w : World) → Makes view (prefixed_with (prefixes_in prefixes) (sense_in view sense)) w result }
    ensures knows { (known : Known) → KnowsSense known sense → KnowsOutcome known result }
{
    match sense {
        Sense::Register(kind, no) => prefixed_place(
            prefixes,
            Sense::Register(kind, no),
            Place::Register(kind, no),
        ),
        Sense::Primitive(primitive) => prefixed_primitive(prefixes, primitive),
        _ => Outcome::Does(Effect::BadPrefix(sense)),
    }
}

/// Prefixes, before a primitive, which is not skipped.
fn prefixed_primitive(prefixes: Prefixes, primitive: Primitive) -> Outcome
    ensures becomes { (view : View) (w : World) → Makes view (prefixed_with (prefixes_in prefixes) (Prim primitive)) w result }
    ensures knows { (known : Known) → KnowsOutcome known result }
{
    let sense = Sense::Primitive(primitive);
    match primitive {
        Primitive::IntegerParameter(parameter) => {
            prefixed_place(prefixes, sense, Place::Integer(parameter))
        }
        Primitive::DimensionParameter(parameter) => {
            prefixed_place(prefixes, sense, Place::Dimension(parameter))
        }
        Primitive::GlueParameter(parameter) => {
            prefixed_place(prefixes, sense, Place::Glue(parameter))
        }
        Primitive::ListParameter(parameter) => {
            prefixed_place(prefixes, sense, Place::List(parameter))
        }
        Primitive::Assignment(assignment) => prefixed_assignment(prefixes, assignment),
        Primitive::Expandable(_) | Primitive::Command(_) | Primitive::Math(_) => {
            Outcome::Does(Effect::BadPrefix(sense))
        }
    }
}

/// Whether `\long` or `\protected` is among prefixes.
fn are_flagged(prefixes: Prefixes) -> bool
    ensures { result ≡ (prefixes.long || prefixes.protected) }
{
    prefixes.long || prefixes.protected
}

/// Prefixes, before a token that means this and is for a place.
fn prefixed_place(prefixes: Prefixes, sense: Sense, place: Place) -> Outcome
    ensures becomes { (view : View) (w : World) → Makes view (λ items v. checked (prefixes.long || prefixes.protected) false (sense_in view sense) v (assign_at (prefixes_in prefixes) (address_in view place) items v)) w result }
    ensures knows { (known : Known) → KnowsSense known sense → KnowsPlace known place → KnowsOutcome known result }
{
    if are_flagged(prefixes) {
        Outcome::Does(Effect::BadPrefix(sense))
    } else {
        at_place(prefixes, place)
    }
}

/// Prefixes, before an assignment or a further prefix.
fn prefixed_assignment(prefixes: Prefixes, primitive: Assignment) -> Outcome
    ensures becomes { (view : View) (w : World) → Makes view (prefixed_with (prefixes_in prefixes) (Prim (Primitive.Assignment primitive))) w result }
    ensures knows { (known : Known) → KnowsOutcome known result }
{
    match prefix(primitive, prefixes) {
        Some(prefixes) => Outcome::Goes(Command::Prefixed(prefixes)),
        None => flagged_assignment(prefixes, primitive),
    }
}

/// Prefixes, before an assignment.
fn flagged_assignment(prefixes: Prefixes, primitive: Assignment) -> Outcome
    ensures becomes { (view : View) (w : World) → Makes view (λ items v. checked (prefixes.long || prefixes.protected) (is_definition primitive) (Prim (Primitive.Assignment primitive)) v (assignments (prefixes_in prefixes) primitive items v)) w result }
    ensures knows { (known : Known) → KnowsOutcome known result }
{
    if are_flagged(prefixes) {
        definition(prefixes, primitive)
    } else {
        assignment(prefixes, primitive)
    }
}

/// `\long` or `\protected`, before an assignment, which must be a definition.
fn definition(prefixes: Prefixes, primitive: Assignment) -> Outcome
    ensures becomes { (view : View) (w : World) → Makes view (λ items v. checked true (is_definition primitive) (Prim (Primitive.Assignment primitive)) v (assignments (prefixes_in prefixes) primitive items v)) w result }
    ensures knows { (known : Known) → KnowsOutcome known result }
{
    if defines(primitive) {
        assignment(prefixes, primitive)
    } else {
        Outcome::Does(Effect::BadPrefix(Sense::Primitive(Primitive::Assignment(primitive))))
    }
}
