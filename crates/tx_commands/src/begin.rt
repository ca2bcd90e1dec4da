//! The beginning of a command.

ghost use Rattle.tx_private.specs.Meanings.{Prim};
ghost use Rattle.tx_private.specs.World.{World};
ghost use Rattle.tx_private.specs.Controls.{commands, other_command};
ghost use Rattle.tx_views.specs.Views.{View};
ghost use Rattle.tx_views.specs.Meanings.{sense_in};
ghost use Rattle.tx_frames.specs.Knowledge.{Known};
ghost use Rattle.tx_commands.specs.Outcomes.{BecomesGiven, Makes};
ghost use Rattle.tx_commands.specs.Stages.{begun_with};
ghost use Rattle.tx_commands.specs.Knowledge.{KnowsOutcome, KnowsGiven};

use crate::assign::at_place;
use crate::command::{After, Command, Letters, Message};
use crate::define::assignment;
use crate::effect::Effect;
use crate::item::Item;
use crate::outcome::Outcome;
use std::alloc::Global;
use tx_assign::{Prefixes, prefix};
use tx_prims::primitives::{Assignment, Command as Primitive, Primitive as AnyPrimitive};
use tx_save::GroupKind;
use tx_tok::{Cat, Toks};
use tx_views::{Place, Sense};

/// A command, with the item that begins it.
pub(crate) fn begin_given(alloc: Global, item: Item) -> Outcome
    ensures becomes { (view : View) (w : World) → BecomesGiven view Command.Start item w result }
    ensures knows { KnowsGiven Command.Start item result }
{
    match &item {
        Item::Expanded(_, sense) => begin(alloc, *sense),
        Item::TextEnd => Outcome::Does(Effect::Finish),
        _ => Outcome::error(63),
    }
}

/// A command that begins with what means this. *TeX: The Program*, section 1045.
fn begin(alloc: Global, sense: Sense) -> Outcome
    ensures becomes { (view : View) (w : World) → Makes view (begun_with (sense_in view sense)) w result }
    ensures knows { (known : Known) → KnowsOutcome known result }
{
    match sense {
        Sense::Register(kind, no) => at_place(Prefixes::NONE, Place::Register(kind, no)),
        Sense::Primitive(primitive) => begin_primitive(alloc, primitive),
        Sense::Char(cat, byte) => character(alloc, cat, byte),
        _ => Outcome::error(63),
    }
}

/// A character.
fn character(alloc: Global, cat: Cat, byte: u8) -> Outcome
    ensures becomes { (view : View) (w : World) → Makes view (other_command (sense_in view (Sense.Char cat byte))) w result }
    ensures knows { (known : Known) → KnowsOutcome known result }
{
    let _ = byte;
    match cat {
        Cat::Space => Outcome::Again(Toks::new(alloc)),
        Cat::Begin => Outcome::Does(Effect::BeginGroup(GroupKind::Simple)),
        Cat::End => Outcome::Does(Effect::CloseBrace),
        _ => Outcome::error(63),
    }
}

/// A command that begins with a primitive.
fn begin_primitive(alloc: Global, primitive: AnyPrimitive) -> Outcome
    ensures becomes { (view : View) (w : World) → Makes view (begun_with (Prim primitive)) w result }
    ensures knows { (known : Known) → KnowsOutcome known result }
{
    match primitive {
        AnyPrimitive::IntegerParameter(parameter) => {
            at_place(Prefixes::NONE, Place::Integer(parameter))
        }
        AnyPrimitive::DimensionParameter(parameter) => {
            at_place(Prefixes::NONE, Place::Dimension(parameter))
        }
        AnyPrimitive::GlueParameter(parameter) => at_place(Prefixes::NONE, Place::Glue(parameter)),
        AnyPrimitive::ListParameter(parameter) => at_place(Prefixes::NONE, Place::List(parameter)),
        AnyPrimitive::Assignment(assignment) => begin_assignment(assignment),
        AnyPrimitive::Command(command) => begin_command(alloc, command),
        AnyPrimitive::Expandable(_) | AnyPrimitive::Math(_) => Outcome::error(63),
    }
}

/// An assignment without a prefix, or a prefix.
fn begin_assignment(primitive: Assignment) -> Outcome
    ensures becomes { (view : View) (w : World) → Makes view (begun_with (Prim (AnyPrimitive.Assignment primitive))) w result }
    ensures knows { (known : Known) → KnowsOutcome known result }
{
    match prefix(primitive, Prefixes::NONE) {
        Some(prefixes) => Outcome::Goes(Command::Prefixed(prefixes)),
        None => assignment(Prefixes::NONE, primitive),
    }
}

/// A primitive of the family of commands. What isn't built yet is error 63.
fn begin_command(alloc: Global, primitive: Primitive) -> Outcome
    ensures becomes { (view : View) (w : World) → Makes view (commands primitive) w result }
    ensures knows { (known : Known) → KnowsOutcome known result }
{
    match primitive {
        Primitive::Relax => Outcome::Again(Toks::new(alloc)),
        Primitive::Par => Outcome::Does(Effect::Par),
        Primitive::End => Outcome::Does(Effect::End),
        Primitive::Dump => Outcome::Does(Effect::Dump),
        Primitive::BeginGroup => Outcome::Does(Effect::BeginGroup(GroupKind::Semi)),
        Primitive::EndGroup => Outcome::Does(Effect::EndGroup),
        Primitive::AfterGroup => Outcome::Goes(Command::After(After::Group)),
        Primitive::AfterAssignment => Outcome::Goes(Command::After(After::Assignment)),
        Primitive::Message => Outcome::Goes(Command::Message(Message::Log, false)),
        Primitive::ErrMessage => Outcome::Goes(Command::Message(Message::Error, false)),
        Primitive::Lowercase => Outcome::Goes(Command::ChangeCase(Letters::Lower, false)),
        Primitive::Uppercase => Outcome::Goes(Command::ChangeCase(Letters::Upper, false)),
        Primitive::IgnoreSpaces => Outcome::Goes(Command::IgnoreSpaces),
        _ => Outcome::error(63),
    }
}
