//! What comes of an item for a command.

ghost use Rattle.std.specs.Prelude.{◌≡◌, pos, None};

use crate::command::Command;
use crate::effect::Effect;
use tx_assign::{Prefixes, Refused};
use tx_num::ErrorNo;
use tx_tok::Toks;
use tx_views::Place;

/// What comes of an item for a command.
#[derive(Debug, Drop)]
pub enum Outcome {
    /// It goes on so, and takes its next item.
    Goes(Command),
    /// The same, after this place is given the meaning of `\relax`.
    Relaxes(Command, Prefixes, Place),
    /// Main control begins again, behind these tokens, which are put in front.
    Again(Toks),
    /// It does this.
    Does(Effect),
    /// It is an error.
    Wrong(Refused),
    /// Memory was wanting.
    Memory,
}

impl Outcome {
    /// The error of this number.
    pub(crate) fn error(no: u8) -> Outcome
        ensures { result ≡ Outcome.Wrong (record { number = record { no = no; case = 0; value = pos 0 }; limit = None }) }
    {
        Outcome::Wrong(Refused {
            number: ErrorNo {
                no,
                case: 0,
                value: 0,
            },
            limit: None,
        })
    }
}
