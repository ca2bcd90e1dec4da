//! Units.

ghost use Rattle.std.specs.Prelude.{◌≡◌, ◌≢◌, [], ◌∷◌};
ghost use Rattle.tx_quant.specs.Spelling.{going_on, going_on_with};
ghost use Rattle.tx_quant.specs.Units.{spelled_as, unit_words, finite_words, lengths, left, words_after_factor, due};

use crate::setting::Setting;

/// A unit.
#[derive(Clone, Copy, Debug)]
pub(crate) enum Unit {
    Pt,
    In,
    Pc,
    Cm,
    Mm,
    Bp,
    Dd,
    Cc,
    Sp,
    Em,
    Ex,
    Mu,
}

/// What may stand after a factor.
#[derive(Clone, Copy, Debug)]
pub(crate) enum UnitWord {
    /// `true`, before a unit.
    True,
    /// `fil`, the begin of an infinite unit.
    Fil,
    /// A unit.
    Of(Unit),
}

/// The letters of a unit that were taken.
#[derive(Clone, Copy, Debug)]
pub(crate) enum Begun {
    /// `p`, of `pt` or `pc`.
    P,
    /// `i`, of `in`.
    I,
    /// `c`, of `cm` or `cc`.
    C,
    /// `m`, of `mm`.
    M,
    /// `b`, of `bp`.
    B,
    /// `d`, of `dd`.
    D,
    /// `s`, of `sp`.
    S,
    /// `e`, of `em` or `ex`.
    E,
    /// `m`, of `mu`.
    MathM,
    /// `t`, of `true`.
    T,
    /// `tr`, of `true`.
    Tr,
    /// `tru`, of `true`.
    Tru,
    /// `f`, of `fil`.
    F,
    /// `fi`, of `fil`.
    Fi,
}

/// What a letter makes of a unit.
#[derive(Clone, Copy, Debug)]
pub(crate) enum UnitStep {
    /// It was the last.
    Found(UnitWord),
    /// More are due.
    Due(Begun),
    /// No unit goes on so.
    Missing,
}

/// The first letter of what may stand after a factor.
pub(crate) fn first_of_unit(setting: &Setting, letter: Option<u8>) -> UnitStep
    ensures { going_on_with letter (unit_words setting.now) ≡ left result }
{
    match letter {
        Some(letter) => first_letter(setting.infinite, setting.math, letter),
        None => UnitStep::Missing,
    }
}

/// The first letter of a unit that may stand after `true`.
pub(crate) fn first_of_length(letter: Option<u8>) -> UnitStep
    ensures { going_on_with letter lengths ≡ left result }
{
    match letter {
        Some(letter) => length_with(letter),
        None => UnitStep::Missing,
    }
}

/// A letter more of a unit.
pub(crate) fn next_of_unit(begun: Begun, letter: Option<u8>) -> UnitStep
    ensures { going_on_with letter (due begun) ≡ left result }
{
    match letter {
        Some(letter) => go_on(begun, letter),
        None => UnitStep::Missing,
    }
}

/// The first letter of a unit.
fn first_letter(infinite: bool, math: bool, letter: u8) -> UnitStep
    ensures { going_on letter (words_after_factor infinite math) ≡ left result }
{
    if infinite && letter == b'f' {
        UnitStep::Due(Begun::F)
    } else {
        finite_with(math, letter)
    }
}

/// The finite units that begin with this letter.
fn finite_with(math: bool, letter: u8) -> UnitStep
    ensures { going_on letter (finite_words math) ≡ left result }
{
    if math {
        match letter {
            b'm' => UnitStep::Due(Begun::MathM),
            _ => UnitStep::Missing,
        }
    } else {
        match letter {
            b't' => UnitStep::Due(Begun::T),
            b'e' => UnitStep::Due(Begun::E),
            _ => length_with(letter),
        }
    }
}

/// The units that begin with this letter and may stand after `true`.
fn length_with(letter: u8) -> UnitStep
    ensures { going_on letter lengths ≡ left result }
{
    match letter {
        b'p' => UnitStep::Due(Begun::P),
        b'i' => UnitStep::Due(Begun::I),
        b'c' => UnitStep::Due(Begun::C),
        b'm' => UnitStep::Due(Begun::M),
        b'b' => UnitStep::Due(Begun::B),
        b'd' => UnitStep::Due(Begun::D),
        b's' => UnitStep::Due(Begun::S),
        _ => UnitStep::Missing,
    }
}

/// A letter more of a unit.
fn go_on(begun: Begun, letter: u8) -> UnitStep
    ensures { going_on letter (due begun) ≡ left result }
{
    match begun {
        Begun::P => either_letter(letter, (b't', Unit::Pt), (b'c', Unit::Pc)),
        Begun::C => either_letter(letter, (b'm', Unit::Cm), (b'c', Unit::Cc)),
        Begun::E => either_letter(letter, (b'm', Unit::Em), (b'x', Unit::Ex)),
        Begun::I => last_letter(letter, b'n', UnitWord::Of(Unit::In)),
        Begun::M => last_letter(letter, b'm', UnitWord::Of(Unit::Mm)),
        Begun::B => last_letter(letter, b'p', UnitWord::Of(Unit::Bp)),
        Begun::D => last_letter(letter, b'd', UnitWord::Of(Unit::Dd)),
        Begun::S => last_letter(letter, b'p', UnitWord::Of(Unit::Sp)),
        Begun::MathM => last_letter(letter, b'u', UnitWord::Of(Unit::Mu)),
        Begun::T => match letter {
            b'r' => UnitStep::Due(Begun::Tr),
            _ => UnitStep::Missing,
        },
        Begun::Tr => match letter {
            b'u' => UnitStep::Due(Begun::Tru),
            _ => UnitStep::Missing,
        },
        Begun::Tru => last_letter(letter, b'e', UnitWord::True),
        Begun::F => match letter {
            b'i' => UnitStep::Due(Begun::Fi),
            _ => UnitStep::Missing,
        },
        Begun::Fi => last_letter(letter, b'l', UnitWord::Fil),
    }
}

/// The last letter of a word.
fn last_letter(letter: u8, last: u8, word: UnitWord) -> UnitStep
    ensures { going_on letter ((word, last ∷ []) ∷ []) ≡ left result }
{
    if letter == last {
        UnitStep::Found(word)
    } else {
        UnitStep::Missing
    }
}

/// The last letter of one of two units.
fn either_letter(letter: u8, one: (u8, Unit), other: (u8, Unit)) -> UnitStep
    requires { one.0 ≢ other.0 }
    ensures { going_on letter (spelled_as one.1 (one.0 ∷ []) ∷ spelled_as other.1 (other.0 ∷ []) ∷ []) ≡ left result }
{
    if letter == one.0 {
        UnitStep::Found(UnitWord::Of(one.1))
    } else {
        last_letter(letter, other.0, UnitWord::Of(other.1))
    }
}
