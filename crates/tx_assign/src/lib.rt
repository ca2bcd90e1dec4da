//! What assignments make of the values that were read: ranges and their errors, arithmetic, and the meaning
//! that an address gets. *TeX: The Program*, part 49.
//!
//! All of it is pure and takes no memory. `specs/` says what each answer stands for in the definitions of
//! `tx_private`, so that a caller can put the answer for the definition's move.
#![tactic(auto)]

mod arithmetic;
mod change;
mod kinds;
mod meanings;
mod names;
mod operation;
mod part;
mod prefixes;
mod ranges;
mod refused;
mod targeting;
mod targets;

pub use arithmetic::computed;
pub use kinds::{ValueKind, value_kind};
pub use meanings::meaning;
pub use names::{Defined, codes, defining, name_place, register};
pub use operation::{Operation, operand_kind};
pub use prefixes::{Prefixes, defines, is_global, prefix};
pub use ranges::{ByteError, byte, code, math_code};
pub use refused::Refused;
pub use targeting::target;
pub use targets::Target;

#[cfg(test)]
mod tests;
