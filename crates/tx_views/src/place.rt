//! The addresses that commands name.

ghost use Rattle.std.specs.Prelude.{◌≡◌};
ghost use Rattle.tx_views.specs.Places.{addr_of, register_kind, code_kind};

use tx_eqtb::{Addr, AddrKind, RegKind};
use tx_prims::primitives::{DimensionParameter, GlueParameter, IntegerParameter, ListParameter};

/// The tables that give each byte a code.
#[derive(Clone, Copy, Debug, PartialEq, Eq)]
pub enum CodeTable {
    /// Of `\catcode`.
    Categories,
    /// Of `\lccode`.
    LowerCases,
    /// Of `\uccode`.
    UpperCases,
    /// Of `\sfcode`.
    SpaceFactors,
    /// Of `\mathcode`.
    MathCodes,
    /// Of `\delcode`.
    DelimiterCodes,
}

/// What an assignment can give a meaning to. *TeX: The Program*, part 17.
#[derive(Clone, Copy, Debug, PartialEq, Eq)]
pub enum Place {
    /// A name, by its number.
    Name(u64),
    /// An active byte.
    Active(u8),
    /// A register.
    Register(RegKind, u16),
    /// The code of a byte.
    Code(CodeTable, u8),
    /// A parameter that is an integer.
    Integer(IntegerParameter),
    /// A parameter that is a dimension.
    Dimension(DimensionParameter),
    /// A parameter that is glue.
    Glue(GlueParameter),
    /// A parameter that is a list of tokens.
    List(ListParameter),
}

impl Place {
    /// The address in the table of equivalents.
    pub fn addr(self) -> Addr
        ensures { result ≡ addr_of self }
    {
        match self {
            Place::Name(number) => numbered(AddrKind::Name, number),
            Place::Active(byte) => numbered(AddrKind::Active, u64::from(byte)),
            Place::Register(kind, no) => numbered(register(kind), u64::from(no)),
            Place::Code(table, byte) => numbered(code(table), u64::from(byte)),
            Place::Integer(parameter) => numbered(AddrKind::IntParam, parameter as u64),
            Place::Dimension(parameter) => numbered(AddrKind::DimenParam, parameter as u64),
            Place::Glue(parameter) => numbered(AddrKind::GlueParam, parameter as u64),
            Place::List(parameter) => numbered(AddrKind::ToksParam, parameter as u64),
        }
    }
}

/// The address of this kind and number.
fn numbered(kind: AddrKind, no: u64) -> Addr
    ensures { result ≡ record { kind = kind; no = no } }
{
    Addr { kind, no }
}

/// The addresses of registers of a kind.
fn register(kind: RegKind) -> AddrKind
    ensures { result ≡ register_kind kind }
{
    match kind {
        RegKind::Count => AddrKind::Count,
        RegKind::Dimen => AddrKind::Dimen,
        RegKind::Skip => AddrKind::Skip,
        RegKind::Muskip => AddrKind::Muskip,
        RegKind::Toks => AddrKind::Toks,
    }
}

/// The addresses of the codes of a table.
fn code(table: CodeTable) -> AddrKind
    ensures { result ≡ code_kind table }
{
    match table {
        CodeTable::Categories => AddrKind::CatCode,
        CodeTable::LowerCases => AddrKind::LcCode,
        CodeTable::UpperCases => AddrKind::UcCode,
        CodeTable::SpaceFactors => AddrKind::SfCode,
        CodeTable::MathCodes => AddrKind::MathCode,
        CodeTable::DelimiterCodes => AddrKind::DelCode,
    }
}
