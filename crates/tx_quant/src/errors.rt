//! The errors of the readings.

use tx_num::ErrorNo;

/// Neither a digit nor an internal quantity.
pub(crate) const MISSING_NUMBER: ErrorNo = ErrorNo {
    no: 9,
    case: 0,
    value: 0,
};

/// A number that passes 2^31-1.
pub(crate) const NUMBER_TOO_BIG: ErrorNo = ErrorNo {
    no: 10,
    case: 0,
    value: 0,
};

/// No unit.
pub(crate) const NO_UNIT: ErrorNo = ErrorNo {
    no: 11,
    case: 0,
    value: 0,
};

/// No unit in a math dimension.
pub(crate) const NO_MATH_UNIT: ErrorNo = ErrorNo {
    no: 11,
    case: 1,
    value: 0,
};

/// An infinite unit beyond `filll`.
pub(crate) const TOO_INFINITE: ErrorNo = ErrorNo {
    no: 11,
    case: 2,
    value: 0,
};

/// A dimension of 2^30 scaled points or more.
pub(crate) const DIMENSION_TOO_LARGE: ErrorNo = ErrorNo {
    no: 12,
    case: 0,
    value: 0,
};

/// Math glue where another quantity is due, or the reverse.
pub(crate) const INCOMPATIBLE_UNITS: ErrorNo = ErrorNo {
    no: 13,
    case: 0,
    value: 0,
};

/// A backquote without a character.
pub(crate) const IMPROPER_CONSTANT: ErrorNo = ErrorNo {
    no: 19,
    case: 0,
    value: 0,
};
