//! What tokens make of the stages of a dimension.

ghost use Rattle.std.specs.Prelude.{◌≡◌, [], List, MatchOption};
ghost use Rattle.tx_quant.specs.Items.{Item, Token, Asks};
ghost use Rattle.tx_quant.specs.Behinds.{Leads};
ghost use Rattle.tx_quant.specs.Errors.{dimension_too_large};
ghost use Rattle.tx_quant.specs.Dimensions.{after_true, after_word, behind_whole, dimension_after, is_letter as is_letter_of, is_point as is_point_item, missing_unit as missing_unit_of, size, true_unit, unit_after, unsigned_dimension, whole as whole_of};
ghost use Rattle.tx_quant.specs.DimensionStates.{Becomes, dimension_at, stepped};
ghost use Rattle.tx_quant.specs.FractionStates.{decimals_in};

use crate::decimals::Decimals;
use crate::dimension_stage::DimStage;
use crate::errors::{
    DIMENSION_TOO_LARGE, MISSING_NUMBER, NO_MATH_UNIT, NO_UNIT, NUMBER_TOO_BIG, TOO_INFINITE,
};
use crate::factor::{Factor, Whole};
use crate::next::Next;
use crate::setting::Setting;
use crate::size::Size;
use crate::sizes::amount;
use crate::tokens::{digit, is_other, is_space, letter, unused};
use crate::units::{Begun, Unit, UnitStep, UnitWord, first_of_length, first_of_unit, next_of_unit};
use tx_num::{ErrorNo, Order, Sp, Want};
use tx_tok::Tok;

/// How the next item is to be taken.
pub(crate) fn wanted(stage: DimStage) -> Want
    ensures { (s : Setting) → dimension_at s stage [] ≡ Asks result 0 }
{
    match stage {
        DimStage::Sign(_) | DimStage::Whole(_) | DimStage::Decimals(_) | DimStage::Unit(_) => {
            Want::Start
        }
        DimStage::Letters(_, _)
        | DimStage::True(_)
        | DimStage::TrueLetters(_, _)
        | DimStage::Infinite(_, _)
        | DimStage::Space(_, _) => Want::Expanded,
    }
}

/// What a token makes of a stage.
pub(crate) fn after(setting: &Setting, stage: DimStage, t: Tok) -> Next<DimStage, Size>
    ensures { Leads (dimension_at setting.now) result (dimension_at setting.now stage) (Token t) }
{
    match stage {
        DimStage::Sign(negative) => after_signs(setting, negative, t),
        DimStage::Whole(whole) => next_digit(setting, whole, t),
        DimStage::Decimals(decimals) => next_decimal(setting, decimals, t),
        DimStage::Unit(factor) => first_letter(setting, factor, t),
        DimStage::Letters(factor, begun) => next_letter(setting, factor, begun, t),
        DimStage::True(factor) => first_true_letter(setting, factor, t),
        DimStage::TrueLetters(factor, begun) => next_true_letter(setting, factor, begun, t),
        DimStage::Infinite(factor, order) => infinite_letter(setting, factor, order, t),
        DimStage::Space(amount, order) => ended(amount, order, unused(t)),
    }
}

/// A token where a sign may stand.
fn after_signs(setting: &Setting, negative: bool, t: Tok) -> Next<DimStage, Size>
    ensures { Leads (dimension_at setting.now) result (dimension_after setting.now negative) (Token t) }
{
    if is_space(t) || is_other(t, b'+') {
        Next::More(DimStage::Sign(negative), 0)
    } else if is_other(t, b'-') {
        Next::More(DimStage::Sign(!negative), 0)
    } else {
        first_digit(setting, negative, t)
    }
}

/// The first digit, or the point, of a factor.
fn first_digit(setting: &Setting, negative: bool, t: Tok) -> Next<DimStage, Size>
    ensures { Leads (dimension_at setting.now) result (unsigned_dimension setting.now negative) (Token t) }
{
    match digit(t, 10) {
        Some(d) => {
            let value = u32::from(d);
            Next::More(DimStage::Whole(Whole { negative, value }), 0)
        }
        None => {
            if is_point(t) {
                Next::More(DimStage::Decimals(Decimals::none(negative, 0)), 0)
            } else {
                Next::Bad(MISSING_NUMBER)
            }
        }
    }
}

/// A token behind digits before the point.
fn next_digit(setting: &Setting, whole: Whole, t: Tok) -> Next<DimStage, Size>
    ensures { Leads (dimension_at setting.now) result (whole_of setting.now whole.negative whole.value) (Token t) }
{
    match digit(t, 10) {
        Some(d) => {
            let value = u64::from(whole.value) * 10 + u64::from(d);
            if value < 1 << 31 {
                let more = Whole {
                    negative: whole.negative,
                    value: value as u32,
                };
                Next::More(DimStage::Whole(more), 0)
            } else {
                Next::Bad(NUMBER_TOO_BIG)
            }
        }
        None => behind_digits(setting, whole, t),
    }
}

/// A token behind digits that is no digit.
fn behind_digits(setting: &Setting, whole: Whole, t: Tok) -> Next<DimStage, Size>
    ensures { Leads (dimension_at setting.now) result (behind_whole setting.now whole.negative whole.value) (Token t) }
{
    if is_point(t) {
        let decimals = Decimals::none(whole.negative, whole.value);
        Next::More(DimStage::Decimals(decimals), 0)
    } else {
        first_letter(setting, whole.factor(), t)
    }
}

/// A token behind the point.
fn next_decimal(setting: &Setting, decimals: Decimals, t: Tok) -> Next<DimStage, Size>
    ensures { Leads (dimension_at setting.now) result (dimension_at setting.now (DimStage.Decimals decimals)) (Token t) }
{
    match digit(t, 10) {
        Some(d) => Next::More(DimStage::Decimals(decimals.and(d)), 0),
        None => first_letter(setting, decimals.factor(), t),
    }
}

/// The first letter of a unit, or a space before it.
fn first_letter(setting: &Setting, factor: Factor, t: Tok) -> Next<DimStage, Size>
    ensures { Leads (dimension_at setting.now) result (unit_after setting.now factor) (Token t) }
{
    if is_space(t) {
        return Next::More(DimStage::Unit(factor), 0);
    }
    match after_step(setting, factor, first_of_unit(setting, letter(t))) {
        Ok(stage) => Next::More(stage, 0),
        Err(error) => Next::Bad(error),
    }
}

/// A letter more of a unit.
fn next_letter(setting: &Setting, factor: Factor, begun: Begun, t: Tok) -> Next<DimStage, Size>
    ensures { Leads (dimension_at setting.now) result (dimension_at setting.now (DimStage.Letters factor begun)) (Token t) }
{
    match after_step(setting, factor, next_of_unit(begun, letter(t))) {
        Ok(stage) => Next::More(stage, 0),
        Err(error) => Next::Bad(error),
    }
}

/// The first letter of a unit after `true`, or a space before it.
fn first_true_letter(setting: &Setting, factor: Factor, t: Tok) -> Next<DimStage, Size>
    ensures { Leads (dimension_at setting.now) result (after_true setting.now factor) (Token t) }
{
    if is_space(t) {
        return Next::More(DimStage::True(factor), 0);
    }
    match after_true_step(setting, factor, first_of_length(letter(t))) {
        Ok(stage) => Next::More(stage, 0),
        Err(error) => Next::Bad(error),
    }
}

/// A letter more of a unit after `true`.
fn next_true_letter(setting: &Setting, factor: Factor, begun: Begun, t: Tok) -> Next<DimStage, Size>
    ensures { Leads (dimension_at setting.now) result (dimension_at setting.now (DimStage.TrueLetters factor begun)) (Token t) }
{
    match after_true_step(setting, factor, next_of_unit(begun, letter(t))) {
        Ok(stage) => Next::More(stage, 0),
        Err(error) => Next::Bad(error),
    }
}

/// The stage after a letter of a unit.
fn after_step(setting: &Setting, factor: Factor, step: UnitStep) -> Result<DimStage, ErrorNo>
    ensures { Becomes setting.now result (stepped setting.now (after_word setting.now factor) step) }
{
    match step {
        UnitStep::Found(word) => Ok(behind_word(setting, factor, word)),
        UnitStep::Due(begun) => Ok(DimStage::Letters(factor, begun)),
        UnitStep::Missing => Err(missing_unit(setting)),
    }
}

/// The stage behind a unit, or behind `true` or `fil`.
fn behind_word(setting: &Setting, factor: Factor, word: UnitWord) -> DimStage
    ensures { (items : List Item) → after_word setting.now factor word items ≡ dimension_at setting.now result items }
{
    match word {
        UnitWord::Of(unit) => DimStage::Space(amount(setting, factor, unit), Order::Finite),
        UnitWord::True => DimStage::True(factor),
        UnitWord::Fil => DimStage::Infinite(factor, Order::Fil),
    }
}

/// The stage after a letter of a unit after `true`.
fn after_true_step(setting: &Setting, factor: Factor, step: UnitStep) -> Result<DimStage, ErrorNo>
    ensures { Becomes setting.now result (stepped setting.now (true_unit setting.now factor) step) }
{
    match step {
        UnitStep::Found(word) => behind_true(setting, factor, word),
        UnitStep::Due(begun) => Ok(DimStage::TrueLetters(factor, begun)),
        UnitStep::Missing => Err(missing_unit(setting)),
    }
}

/// The stage behind a unit after `true`.
fn behind_true(setting: &Setting, factor: Factor, word: UnitWord) -> Result<DimStage, ErrorNo>
    ensures { Becomes setting.now result (true_unit setting.now factor word) }
{
    match word {
        UnitWord::Of(unit) => Ok(DimStage::Space(amount(setting, factor, unit), Order::Finite)),
        UnitWord::True | UnitWord::Fil => Err(missing_unit(setting)),
    }
}

/// A token behind `fil`. It may make what is read more infinite; what doesn't is put back, and a space may
/// follow the unit.
fn infinite_letter(setting: &Setting, factor: Factor, order: Order, t: Tok) -> Next<DimStage, Size>
    ensures { Leads (dimension_at setting.now) result (dimension_at setting.now (DimStage.Infinite factor order)) (Token t) }
{
    if is_space(t) {
        return Next::More(DimStage::Infinite(factor, order), 0);
    }
    if !is_letter(letter(t), b'l') {
        return Next::More(DimStage::Space(amount(setting, factor, Unit::Pt), order), 1);
    }
    match order {
        Order::Finite => Next::More(DimStage::Infinite(factor, Order::Fil), 0),
        Order::Fil => Next::More(DimStage::Infinite(factor, Order::Fill), 0),
        Order::Fill => Next::More(DimStage::Infinite(factor, Order::Filll), 0),
        Order::Filll => Next::Bad(TOO_INFINITE),
    }
}

/// The end of a dimension, after so many tokens are put back.
pub(crate) fn ended(amount: Option<Sp>, order: Order, back: u8) -> Next<DimStage, Size>
    ensures { MatchOption amount (result ≡ Next.Bad dimension_too_large) (λ v. result ≡ Next.Done (size v order) back) }
{
    match amount {
        Some(amount) => Next::Done(Size { amount, order }, back),
        None => Next::Bad(DIMENSION_TOO_LARGE),
    }
}

/// The error where a unit is missing.
pub(crate) fn missing_unit(setting: &Setting) -> ErrorNo
    ensures { result ≡ missing_unit_of setting.now }
{
    if setting.math { NO_MATH_UNIT } else { NO_UNIT }
}

/// Whether it is a point, or a comma in its place.
fn is_point(t: Tok) -> bool
    ensures { result ≡ is_point_item (Token t) }
{
    is_other(t, b'.') || is_other(t, b',')
}

/// Whether it is this letter.
fn is_letter(letter: Option<u8>, other: u8) -> bool
    ensures { result ≡ is_letter_of other letter }
{
    match letter {
        Some(letter) => letter == other,
        None => false,
    }
}
