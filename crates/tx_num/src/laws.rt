//! What is proved of the definitions. Each function here does nothing: its contract is the law.

ghost use Rattle.tx_num.specs.Laws.{BadnessFalls, BadnessGrows, BadnessIsBounded, DecimalsAreDigits, DecimalsAreFewest, DecimalsReadBack, DigitsAreRounded, DimensionsReadBack, PartGrows, PartIsOdd, QuotientsAreNearest};

/// The more is to be stretched, the worse.
pub fn badness_grows()
    ensures { BadnessGrows }
{}

/// The more stretch can be had, the better.
pub fn badness_falls()
    ensures { BadnessFalls }
{}

/// Badness is at most 10000.
pub fn badness_is_bounded()
    ensures { BadnessIsBounded }
{}

/// A quotient to the nearest whole number is the nearest, and the upper one of two.
pub fn quotients_are_nearest()
    ensures { QuotientsAreNearest }
{}

/// The part of the opposite sum is the opposite part.
pub fn part_is_odd()
    ensures { PartIsOdd }
{}

/// The part of a larger sum is no smaller.
pub fn part_grows()
    ensures { PartGrows }
{}

/// The decimals that are printed for so many 65536ths read back as them.
pub fn decimals_read_back()
    ensures { DecimalsReadBack }
{}

/// No fewer decimals, but at least one, read back as the same 65536ths.
pub fn decimals_are_fewest()
    ensures { DecimalsAreFewest }
{}

/// Between one and five decimals are printed, and each is from 0 to 9.
pub fn decimals_are_digits()
    ensures { DecimalsAreDigits }
{}

/// Decimals are rounded to the nearest 65536th, a tie up.
pub fn digits_are_rounded()
    ensures { DigitsAreRounded }
{}

/// The text that is printed for a dimension reads back as it.
pub fn dimensions_read_back()
    ensures { DimensionsReadBack }
{}
