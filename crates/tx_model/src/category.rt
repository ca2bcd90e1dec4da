/// The sixteen categories of characters, in the order of their codes. *The TeXbook*, chapter 7.
#[derive(Clone, Copy, Debug, PartialEq, Eq)]
pub enum Cat {
    Escape,
    Begin,
    End,
    Math,
    Tab,
    LineEnd,
    Parameter,
    Superscript,
    Subscript,
    Ignored,
    Space,
    Letter,
    Other,
    Active,
    Comment,
    Invalid,
}

/// Where the scanner stands in a line. *The TeXbook*, chapter 8.
#[derive(Clone, Copy, Debug, PartialEq, Eq)]
pub enum LineState {
    /// State N: only bytes that give nothing were read of this line.
    NewLine,
    /// State M.
    MidLine,
    /// State S: blanks that follow give nothing.
    SkippingBlanks,
}
