//! The addresses of the table of equivalents.

/// The kinds of addresses. *TeX: The Program*, part 17.
#[derive(Clone, Copy, Debug, PartialEq, Eq, Hash)]
pub enum AddrKind {
    /// What a name means.
    Name,
    /// What an active byte means.
    Active,
    /// A register of `\count`.
    Count,
    /// A register of `\dimen`.
    Dimen,
    /// A register of `\skip`.
    Skip,
    /// A register of `\muskip`.
    Muskip,
    /// A register of `\toks`.
    Toks,
    /// A register of boxes.
    Box,
    /// The category of a byte.
    CatCode,
    /// The lower case of a byte.
    LcCode,
    /// The upper case of a byte.
    UcCode,
    /// The space factor of a byte.
    SfCode,
    /// The math code of a byte.
    MathCode,
    /// The delimiter code of a byte.
    DelCode,
    /// A parameter that is an integer.
    IntParam,
    /// A parameter that is a dimension.
    DimenParam,
    /// A parameter that is glue.
    GlueParam,
    /// A parameter that is a list of tokens.
    ToksParam,
    /// The current font.
    CurrentFont,
    /// A font of a family.
    Family,
    /// The shape of the paragraph.
    ParShape,
}

/// An address: what stands there has a meaning.
#[derive(Clone, Copy, Debug, PartialEq, Eq, Hash)]
pub struct Addr {
    /// The kind.
    pub kind: AddrKind,
    /// The number within the kind: of a name, a byte, a register, a parameter or a family.
    pub no: u64,
}
