//! The definitions of texd with registers, parameters, assignments and groups of several kinds: what a private
//! TeX does with a region, in TeX's own terms.
//!
//! `specs/` has the definitions, a file a topic, over those of `tx_model` for lines and tokens and of
//! `tx_quant` for numbers, dimensions, glue and keywords. `rows` has worked regions, and `laws` what holds
//! of the definitions themselves. The program doesn't stand on this crate yet.
#![tactic(auto)]

pub mod laws;
pub mod rows;
