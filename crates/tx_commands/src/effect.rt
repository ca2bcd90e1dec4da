//! What commands do at last.

use crate::command::{Letters, Message};
use tx_assign::{Operation, Prefixes};
use tx_eqtb::Meaning;
use tx_node::BoxNode;
use tx_num::Quant;
use tx_save::GroupKind;
use tx_tok::{Tok, Toks};
use tx_views::{Place, Sense};

/// What a command does at last, with all that it needs. Where nothing else is said, main control begins again.
#[derive(Debug, Drop)]
pub enum Effect {
    /// A place is given a meaning. *TeX: The Program*, section 1211.
    Assign(Prefixes, Place, Meaning<BoxNode>),
    /// A place is given a list of these tokens, which count as stored already.
    AssignTokens(Prefixes, Place, Toks),
    /// A place is given what a token means.
    Let(Prefixes, Place, Sense),
    /// The same behind these two tokens, which are put in front before.
    FutureLet(Prefixes, Place, Sense, Tok, Tok),
    /// A place is given a macro with this body, which is stored.
    Define(Prefixes, Place, Toks),
    /// A place is given what it holds, with which this is computed; error 14 where the result is out of range.
    Compute(Prefixes, Operation, Place, Quant),
    /// A group begins. *TeX: The Program*, section 1063.
    BeginGroup(GroupKind),
    /// A right brace ends the innermost group, if that is one of braces. *TeX: The Program*, section 1068.
    CloseBrace,
    /// `\endgroup` ends the innermost group, if that is one of `\begingroup`. *TeX: The Program*, section 1063.
    EndGroup,
    /// The token is kept for the end of the innermost group. *TeX: The Program*, section 1271.
    AfterGroup(Tok),
    /// The token is kept for the end of the next assignment. *TeX: The Program*, section 1268.
    AfterAssignment(Tok),
    /// The text of these tokens is told: as a line of the log, or as an error that ends the region.
    Message(Message, Toks),
    /// These tokens are put in front, each character with its code of `\lccode` or `\uccode` in its place.
    ChangeCase(Letters, Toks),
    /// A paragraph ends. *TeX: The Program*, section 1070.
    Par,
    /// The region ends, where no group is open, and what is pending is dropped. *TeX: The Program*, section 1054.
    End,
    /// The same by `\dump`, which is an error within a group of a preamble. *TeX: The Program*, section 1304.
    Dump,
    /// The text is at its end, and so is the region, where no group is open.
    Finish,
    /// A prefix stands before what means this, and may not. *TeX: The Program*, sections 1212 and 1213.
    BadPrefix(Sense),
    /// Nothing can be computed in what means this. *TeX: The Program*, section 1237.
    NoTarget(Sense),
}
