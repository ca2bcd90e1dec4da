//! A header, byte by byte.

ghost use Rattle.std.specs.Prelude.{◌≡◌, ◌≢◌, ℕ, ◌^◌, ◌≤◌, ◌<◌, List, [], ◌∷◌, ◌++◌, IfSome, IfNone};
ghost use Rattle.std.specs.Fmt.{decimal};
ghost use Rattle.tx_proto.specs.Headers.{AfterByte, IsBudget, IsLength, IsSound, front};

/// The greatest budget, in steps.
const MAX_BUDGET: u32 = 10_000_000;

/// The greatest length of a text, in bytes.
const MAX_LENGTH: u32 = 1_048_576;

/// The word that begins a frame, and its blank.
const REGION: [u8; 7] = *b"REGION ";

/// The line that ends a session.
const BYE: [u8; 4] = *b"BYE\n";

/// How far a header was read: the bytes so far, which some header or BYE begins with.
#[derive(Clone, Copy, Debug, PartialEq, Eq)]
pub enum HeaderState {
    /// So many bytes of `REGION` and its blank, and not all.
    Region(usize),
    /// So many bytes of `BYE` and its byte 10, at least one and not all.
    Bye(usize),
    /// `REGION` and its blank.
    BeforeBudget,
    /// Digits of a budget with this value.
    Budget(u32),
    /// A budget and its blank.
    BeforeLength(u32),
    /// A budget, and digits of a length with this value.
    Length(u32, u32),
}

/// What a byte makes of a header.
#[derive(Clone, Copy, Debug, PartialEq, Eq)]
pub enum Next {
    /// The header isn't complete.
    On(HeaderState),
    /// It is complete, with this budget and length.
    Header(u32, u32),
    /// The line BYE is complete.
    Bye,
    /// No frame and no line BYE begins with these bytes.
    Broken,
}

impl HeaderState {
    /// What the next byte makes of the header.
    pub fn next(self, byte: u8) -> Next
        requires { IsSound self }
        ensures { AfterByte (front self ++ byte ∷ []) result }
    {
        match self {
            HeaderState::Region(count) => in_region(count, byte),
            HeaderState::Bye(count) => in_bye(count, byte),
            HeaderState::BeforeBudget => before_budget(byte),
            HeaderState::Budget(budget) => in_budget(budget, byte),
            HeaderState::BeforeLength(budget) => before_length(budget, byte),
            HeaderState::Length(budget, length) => in_length(budget, length, byte),
        }
    }
}

/// After so many bytes of `REGION` and its blank.
fn in_region(count: usize, byte: u8) -> Next
    requires { count < 7 }
    ensures { AfterByte (front (HeaderState.Region count) ++ byte ∷ []) result }
{
    if byte == REGION[count] {
        if count == 6 {
            Next::On(HeaderState::BeforeBudget)
        } else {
            Next::On(HeaderState::Region(count + 1))
        }
    } else if count == 0 && byte == b'B' {
        Next::On(HeaderState::Bye(1))
    } else {
        Next::Broken
    }
}

/// After so many bytes of `BYE` and its byte 10.
fn in_bye(count: usize, byte: u8) -> Next
    requires { IsSound (HeaderState.Bye count) }
    ensures { AfterByte (front (HeaderState.Bye count) ++ byte ∷ []) result }
{
    if byte == BYE[count] {
        if count == 3 {
            Next::Bye
        } else {
            Next::On(HeaderState::Bye(count + 1))
        }
    } else {
        Next::Broken
    }
}

/// After `REGION` and its blank.
fn before_budget(byte: u8) -> Next
    ensures { AfterByte (front HeaderState.BeforeBudget ++ byte ∷ []) result }
{
    match first_digit(byte) {
        Some(budget) => {
            if budget == 0 {
                Next::Broken
            } else {
                Next::On(HeaderState::Budget(budget))
            }
        }
        None => Next::Broken,
    }
}

/// After a digit of a budget.
fn in_budget(budget: u32, byte: u8) -> Next
    requires { IsBudget budget }
    ensures { AfterByte (front (HeaderState.Budget budget) ++ byte ∷ []) result }
{
    if byte == b' ' {
        return Next::On(HeaderState::BeforeLength(budget));
    }
    match with_digit(budget, byte, MAX_BUDGET) {
        Some(budget) => Next::On(HeaderState::Budget(budget)),
        None => Next::Broken,
    }
}

/// After a budget and its blank.
fn before_length(budget: u32, byte: u8) -> Next
    requires { IsBudget budget }
    ensures { AfterByte (front (HeaderState.BeforeLength budget) ++ byte ∷ []) result }
{
    match first_digit(byte) {
        Some(length) => Next::On(HeaderState::Length(budget, length)),
        None => Next::Broken,
    }
}

/// After a digit of a length.
fn in_length(budget: u32, length: u32, byte: u8) -> Next
    requires budget { IsBudget budget }
    requires length { IsLength length }
    ensures { AfterByte (front (HeaderState.Length budget length) ++ byte ∷ []) result }
{
    if byte == b'\n' {
        return Next::Header(budget, length);
    }
    match with_digit(length, byte, MAX_LENGTH) {
        Some(length) => Next::On(HeaderState::Length(budget, length)),
        None => Next::Broken,
    }
}

/// The number that is written by this digit alone, or none, if no number begins with the byte.
fn first_digit(byte: u8) -> Option<u32>
    ensures some { IfSome result (λ n. (n < 10) × (decimal n ≡ byte ∷ [])) }
    ensures none { IfNone result ((n : ℕ) (rest : List ℕ) → n < 2 ^ 32 → decimal n ≢ byte ∷ rest) }
{
    if byte.is_ascii_digit() {
        Some(u32::from(byte - b'0'))
    } else {
        None
    }
}

/// The number that is written by the digits of this one and this digit, or none, if no number up to
/// `most` begins with them.
fn with_digit(number: u32, byte: u8, most: u32) -> Option<u32>
    requires number { number ≤ most }
    requires most { most < 2 ^ 24 }
    ensures some { IfSome result (λ n. (number ≤ n) × (n ≤ most) × (decimal n ≡ decimal number ++ byte ∷ [])) }
    ensures none { IfNone result ((n : ℕ) (rest : List ℕ) → n ≤ most → decimal n ≢ decimal number ++ byte ∷ rest) }
{
    if number == 0 || !byte.is_ascii_digit() {
        return None;
    }
    let longer = 10 * number + u32::from(byte - b'0');
    if longer <= most { Some(longer) } else { None }
}
