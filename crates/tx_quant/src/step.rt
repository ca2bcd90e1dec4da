//! A letter more of a word.

ghost use Rattle.std.specs.Prelude.{◌≡◌};
ghost use Rattle.tx_quant.specs.Keywords.{Goes};

use crate::part::Part;

/// What a letter more makes of a word.
pub(crate) enum Step {
    /// It was the last.
    Found,
    /// More are due.
    Due(Part),
    /// Another letter was due. So many tokens were taken.
    Missing(u8),
}

/// A letter more, or a token that is none.
pub(crate) fn next_letter(part: Part, letter: Option<u8>) -> Step
    ensures { Goes result part letter }
{
    match letter {
        Some(letter) => step_by(part, letter),
        None => {
            let _text = part.word.text();
            Step::Missing(part.taken + 1)
        }
    }
}

/// A letter more.
fn step_by(part: Part, letter: u8) -> Step
    ensures { Goes result part (Some letter) }
{
    let text = part.word.text();
    let taken = part.taken + 1;
    if text[usize::from(part.taken)] != letter {
        Step::Missing(taken)
    } else if usize::from(taken) == text.len() {
        Step::Found
    } else {
        Step::Due(Part {
            word: part.word,
            taken,
        })
    }
}
