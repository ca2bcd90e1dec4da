//! Where a list stands that begins with a token.

ghost use Rattle.std.specs.Prelude.{◌≡◌, Bool, List};
ghost use Rattle.tx_private.specs.World.{World, Command};
ghost use Rattle.tx_private.specs.Readings as private;
ghost use Rattle.tx_private.specs.Lists.{list_from};
ghost use Rattle.tx_private.specs.Expansions.{the_of};
ghost use Rattle.tx_views.specs.Views.{View};
ghost use Rattle.tx_views.specs.Meanings.{sense_in};
ghost use Rattle.tx_frames.specs.ListPlaces.{the_by, list_by};
ghost use Rattle.tx_frames.specs.Knowledge.{Known, KnowsListPlace};

use tx_eqtb::RegKind;
use tx_prims::primitives::{Assignment, Primitive};
use tx_views::{Place, Sense};

/// Where the list stands that begins with a token.
#[derive(Clone, Copy, Debug, PartialEq, Eq)]
pub(crate) enum ListPlace {
    /// At this place.
    At(Place),
    /// At a register of `\toks`, whose number is due.
    Numbered,
    /// Nowhere: no list begins with it.
    Nowhere,
}

/// Where the list stands that begins with what means this.
pub(crate) fn list_place(sense: &Sense) -> ListPlace
    ensures the { (view : View) (text : Bool) (command : Command) (items : List private.Item) (w : World) → the_of text command (sense_in view sense.now) items w ≡ the_by view result text command (sense_in view sense.now) items w }
    ensures list { (view : View) (items : List private.Item) (w : World) → list_from (sense_in view sense.now) items w ≡ list_by view result (sense_in view sense.now) items w }
    ensures knows { (known : Known) → KnowsListPlace known result }
{
    match sense {
        Sense::Register(kind, no) => register_place(*kind, *no),
        Sense::Primitive(primitive) => primitive_place(*primitive),
        Sense::Undefined
        | Sense::Macro(_, _, _)
        | Sense::Char(_, _)
        | Sense::Code(_, _)
        | Sense::Int(_)
        | Sense::Dim(_)
        | Sense::Glue(_)
        | Sense::List(_) => ListPlace::Nowhere,
    }
}

/// Where the list stands that begins with a register.
fn register_place(kind: RegKind, no: u16) -> ListPlace
    ensures the { (view : View) (text : Bool) (command : Command) (items : List private.Item) (w : World) → the_of text command (sense_in view (Sense.Register kind no)) items w ≡ the_by view result text command (sense_in view (Sense.Register kind no)) items w }
    ensures list { (view : View) (items : List private.Item) (w : World) → list_from (sense_in view (Sense.Register kind no)) items w ≡ list_by view result (sense_in view (Sense.Register kind no)) items w }
    ensures knows { (known : Known) → KnowsListPlace known result }
{
    match kind {
        RegKind::Toks => ListPlace::At(Place::Register(RegKind::Toks, no)),
        RegKind::Count | RegKind::Dimen | RegKind::Skip | RegKind::Muskip => ListPlace::Nowhere,
    }
}

/// Where the list stands that begins with a primitive.
fn primitive_place(primitive: Primitive) -> ListPlace
    ensures the { (view : View) (text : Bool) (command : Command) (items : List private.Item) (w : World) → the_of text command (sense_in view (Sense.Primitive primitive)) items w ≡ the_by view result text command (sense_in view (Sense.Primitive primitive)) items w }
    ensures list { (view : View) (items : List private.Item) (w : World) → list_from (sense_in view (Sense.Primitive primitive)) items w ≡ list_by view result (sense_in view (Sense.Primitive primitive)) items w }
    ensures knows { (known : Known) → KnowsListPlace known result }
{
    match primitive {
        Primitive::ListParameter(parameter) => ListPlace::At(Place::List(parameter)),
        Primitive::Assignment(assignment) => assignment_place(assignment),
        Primitive::Expandable(_)
        | Primitive::Command(_)
        | Primitive::Math(_)
        | Primitive::IntegerParameter(_)
        | Primitive::DimensionParameter(_)
        | Primitive::GlueParameter(_) => ListPlace::Nowhere,
    }
}

/// Where the list stands that begins with a primitive of the family of assignments.
fn assignment_place(assignment: Assignment) -> ListPlace
    ensures the { (view : View) (text : Bool) (command : Command) (items : List private.Item) (w : World) → the_of text command (sense_in view (Sense.Primitive (Primitive.Assignment assignment))) items w ≡ the_by view result text command (sense_in view (Sense.Primitive (Primitive.Assignment assignment))) items w }
    ensures list { (view : View) (items : List private.Item) (w : World) → list_from (sense_in view (Sense.Primitive (Primitive.Assignment assignment))) items w ≡ list_by view result (sense_in view (Sense.Primitive (Primitive.Assignment assignment))) items w }
    ensures knows { (known : Known) → KnowsListPlace known result }
{
    match assignment {
        Assignment::Toks => ListPlace::Numbered,
        _ => ListPlace::Nowhere,
    }
}
