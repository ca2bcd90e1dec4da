//! What is proved of the definitions. Each function here does nothing: its contract is the law.

ghost use Rattle.tx_etex.specs.Laws.{DetokenizedIsShown, IntegersAreRigid, ValueIsArithmetic};

/// The tokens of a list's text are the bytes that TeX prints of the list.
pub fn detokenized_is_shown()
    ensures { DetokenizedIsShown }
{}

/// An expression without quotients is ordinary arithmetic, where nothing overflows.
pub fn value_is_arithmetic()
    ensures { ValueIsArithmetic }
{}

/// An expression of integers never stretches or shrinks.
pub fn integers_are_rigid()
    ensures { IntegersAreRigid }
{}
