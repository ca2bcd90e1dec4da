//! Commands, by how far each is.

ghost use Rattle.std.specs.Prelude.{◌≡◌};
ghost use Rattle.tx_frames.specs.Knowledge.{Known, KnowsWish};
ghost use Rattle.tx_commands.specs.Wishes.{wish_of, assign_wish as assign_wish_of, named_wish as named_wish_of, stage_wish as stage_wish_of, arithmetic_wish as arithmetic_wish_of, text_wish as text_wish_of, body_text as body_text_of};
ghost use Rattle.tx_commands.specs.Knowledge.{KnowsAssign, KnowsArithmetic, KnowsControl};

use tx_assign::{Operation, Prefixes};
use tx_eqtb::RegKind;
use tx_frames::{Reading, TextKind, Wish};
use tx_quant::KeySet;
use tx_tok::Tok;
use tx_views::{CodeTable, Place, Sense};

/// How far an assignment to a place is. *TeX: The Program*, sections 1224 to 1248.
#[derive(Clone, Copy, Debug, PartialEq, Eq)]
pub enum Assign {
    /// The number of a register of this kind is due.
    Register(RegKind),
    /// The byte of a code of this table is due.
    Code(CodeTable),
    /// The equals sign is due.
    Equals(Place),
    /// The value is due, which is read so.
    Value(Place, Reading),
}

/// What a name stands for whose number is read. *TeX: The Program*, section 1224.
#[derive(Clone, Copy, Debug, PartialEq, Eq)]
pub enum Standing {
    /// A character, as by `\chardef`.
    Character,
    /// A math character, as by `\mathchardef`.
    MathCharacter,
    /// A register of this kind, as by `\countdef`.
    Register(RegKind),
}

/// What is done with a name that is due.
#[derive(Clone, Copy, Debug, PartialEq, Eq)]
pub enum Naming {
    /// It gets a macro, whose body is expanded where this is true.
    Define(bool),
    /// It gets the meaning of a token, as by `\let`.
    Let,
    /// It gets the meaning of the second token that follows, as by `\futurelet`.
    FutureLet,
    /// It stands for a number.
    Stand(Standing),
}

/// How far a definition is, behind its name. *TeX: The Program*, section 473.
#[derive(Clone, Copy, Debug, PartialEq, Eq)]
pub enum DefineStage {
    /// The left brace is due.
    Brace,
    /// The body is due, behind this left brace.
    Body(Tok, Sense),
}

/// How far `\let` is, behind its name. *TeX: The Program*, section 1221.
#[derive(Clone, Copy, Debug, PartialEq, Eq)]
pub enum LetStage {
    /// An equals sign or a token is due.
    Start,
    /// A space or a token is due, behind an equals sign.
    Equals,
    /// A token is due.
    Last,
}

/// How far `\futurelet` is, behind its name. *TeX: The Program*, section 1221.
#[derive(Clone, Copy, Debug, PartialEq, Eq)]
pub enum FutureLetStage {
    /// The first token is due.
    First,
    /// The second token is due, behind this one.
    Second(Tok, Sense),
}

/// An equals sign and then a number.
#[derive(Clone, Copy, Debug, PartialEq, Eq)]
pub enum Stage {
    /// The equals sign is due.
    Equals,
    /// The number is due.
    Number,
}

/// How far a command is, behind its name.
#[derive(Clone, Copy, Debug, PartialEq, Eq)]
pub enum Named {
    /// A definition, whose body is expanded where this is true.
    Define(bool, DefineStage),
    /// `\let`.
    Let(LetStage),
    /// `\futurelet`.
    FutureLet(FutureLetStage),
    /// A name that stands for a number.
    Stand(Standing, Stage),
}

/// How far `\advance`, `\multiply` or `\divide` is. *TeX: The Program*, section 1236.
#[derive(Clone, Copy, Debug, PartialEq, Eq)]
pub enum Arithmetic {
    /// What is computed in is due.
    Target,
    /// The number of a register of this kind is due.
    Register(RegKind),
    /// The keyword `by` is due.
    By(Place),
    /// The operand is due, behind the keyword at this place, which is read so.
    Operand(Place, u8, Reading),
}

/// What keeps a token for later.
#[derive(Clone, Copy, Debug, PartialEq, Eq)]
pub enum After {
    /// `\aftergroup`. *TeX: The Program*, section 1271.
    Group,
    /// `\afterassignment`. *TeX: The Program*, section 1268.
    Assignment,
}

/// Where a text is told.
#[derive(Clone, Copy, Debug, PartialEq, Eq)]
pub enum Message {
    /// In the log, by `\message`. *TeX: The Program*, section 1280.
    Log,
    /// As an error, by `\errmessage`. *TeX: The Program*, section 1283.
    Error,
}

/// The letters that a text is changed to.
#[derive(Clone, Copy, Debug, PartialEq, Eq)]
pub enum Letters {
    /// By `\lowercase`. *TeX: The Program*, section 1288.
    Lower,
    /// By `\uppercase`. *TeX: The Program*, section 1288.
    Upper,
}

/// How far main control is.
#[derive(Clone, Copy, Debug, PartialEq, Eq)]
pub enum Command {
    /// A command is due.
    Start,
    /// An assignment is due, behind these prefixes.
    Prefixed(Prefixes),
    /// An assignment to a place.
    Assign(Prefixes, Assign),
    /// A command that takes a name, which is due.
    Name(Prefixes, Naming),
    /// The same behind the name, which is this place.
    Named(Prefixes, Place, Named),
    /// Arithmetic.
    Arithmetic(Prefixes, Operation, Arithmetic),
    /// A token is kept for later, and is due.
    After(After),
    /// A text is to be told. It is due where this is true, and else its left brace is.
    Message(Message, bool),
    /// A text is to be changed to other letters. It is due where this is true, and else its left brace is.
    ChangeCase(Letters, bool),
    /// `\ignorespaces`. *TeX: The Program*, section 1045.
    IgnoreSpaces,
}

impl Command {
    /// How the command takes its next item.
    pub fn wish(&self) -> Wish
        ensures wish { result ≡ wish_of self.now }
        ensures knows { (known : Known) → KnowsControl known self.now → KnowsWish known result }
    {
        match self {
            Command::Start | Command::Prefixed(_) | Command::IgnoreSpaces => Wish::Expanded(false),
            Command::Assign(_, assign) => assign_wish(*assign),
            Command::Name(_, _) | Command::After(_) => Wish::Plain,
            Command::Named(_, _, named) => named_wish(*named),
            Command::Arithmetic(_, _, arithmetic) => arithmetic_wish(*arithmetic),
            Command::Message(_, braced) => text_wish(TextKind::Expanded, *braced),
            Command::ChangeCase(_, braced) => text_wish(TextKind::Plain, *braced),
        }
    }
}

/// How an assignment to a place takes its next item.
fn assign_wish(assign: Assign) -> Wish
    ensures wish { result ≡ assign_wish_of assign }
    ensures knows { (known : Known) → KnowsAssign known assign → KnowsWish known result }
{
    match assign {
        Assign::Register(_) | Assign::Code(_) => Wish::Within(Reading::Number),
        Assign::Equals(_) => Wish::Within(Reading::Equals),
        Assign::Value(_, reading) => Wish::Within(reading),
    }
}

/// How a command takes its next item behind its name.
fn named_wish(named: Named) -> Wish
    ensures wish { result ≡ named_wish_of named }
    ensures knows { (known : Known) → KnowsWish known result }
{
    match named {
        Named::Define(_, DefineStage::Brace) | Named::Let(_) | Named::FutureLet(_) => Wish::Plain,
        Named::Define(expands, DefineStage::Body(_, _)) => {
            Wish::Within(Reading::Text(body_text(expands)))
        }
        Named::Stand(_, stage) => stage_wish(stage),
    }
}

/// How the body of a definition is read.
fn body_text(expands: bool) -> TextKind
    ensures { result ≡ body_text_of expands }
{
    if expands {
        TextKind::ExpandedBody
    } else {
        TextKind::Body
    }
}

/// How an equals sign and then a number are read.
fn stage_wish(stage: Stage) -> Wish
    ensures wish { result ≡ stage_wish_of stage }
    ensures knows { (known : Known) → KnowsWish known result }
{
    match stage {
        Stage::Equals => Wish::Within(Reading::Equals),
        Stage::Number => Wish::Within(Reading::Number),
    }
}

/// How arithmetic takes its next item.
fn arithmetic_wish(arithmetic: Arithmetic) -> Wish
    ensures wish { result ≡ arithmetic_wish_of arithmetic }
    ensures knows { (known : Known) → KnowsArithmetic known arithmetic → KnowsWish known result }
{
    match arithmetic {
        Arithmetic::Target => Wish::Expanded(false),
        Arithmetic::Register(_) => Wish::Within(Reading::Number),
        Arithmetic::By(_) => Wish::Within(Reading::Keyword(KeySet::By)),
        Arithmetic::Operand(_, _, reading) => Wish::Within(reading),
    }
}

/// How a text is taken, behind its left brace or not.
fn text_wish(kind: TextKind, braced: bool) -> Wish
    ensures wish { result ≡ text_wish_of kind braced }
    ensures knows { (known : Known) → KnowsWish known result }
{
    if braced {
        Wish::Within(Reading::Text(kind))
    } else {
        Wish::Within(Reading::LeftBrace)
    }
}
