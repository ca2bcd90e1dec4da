//! Open readings, one within another, and what a region comes to from there.
//!
//! `specs/Opens` says what an open reading is by what it says of all items to come, and what it and those around it
//! come to with each of its moves. `proofs/Opens` has one lemma for each move, by which an engine that makes one move
//! after another shows that it goes the way of the definitions. `end` says that they suffice for a whole region.
#![tactic(auto)]

ghost use Rattle.tx_private.specs.World.{World};
ghost use Rattle.tx_private.specs.Readings.{Kind};
ghost use Rattle.tx_private.specs.Reads.{Result};
ghost use Rattle.tx_opens.specs.Opens.{ComesToEnd};

/// What a reading comes to from its beginning, where none is around it, is how it ends in the definitions.
pub fn end()
    ensures { (k : Kind) (w : World) (r : Result) → ComesToEnd k w r }
{}
