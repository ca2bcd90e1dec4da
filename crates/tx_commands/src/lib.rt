//! Main control's commands in the middle of their work: what a token or the value of a reading makes of a command, and
//! what the command does at last.
//!
//! Nothing here touches the pending input, the environment or a store: an outcome says what a command does next, and
//! whoever keeps the state carries it out.
#![tactic(auto)]

mod after;
mod arithmetic;
mod assign;
mod begin;
mod command;
mod define;
mod dispatch;
mod effect;
mod item;
mod looks;
mod name;
mod named;
mod numbered;
mod outcome;
mod prefixed;
mod text;

pub use command::{
    After, Arithmetic, Assign, Command, DefineStage, FutureLetStage, LetStage, Letters, Message,
    Named, Naming, Stage, Standing,
};
pub use dispatch::{feed, start};
pub use effect::Effect;
pub use item::Item;
pub use outcome::Outcome;

#[cfg(test)]
mod tests;
