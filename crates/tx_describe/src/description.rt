//! The description of a token, of a list of tokens or of a meaning.

ghost use Rattle.std.specs.Prelude.{◌≡◌, [], ◌++◌, ◌<◌, ℕ, Bool, Some, IsTrue, OnOk, OnErr, All};
ghost use Rattle.std.specs.List.{flat_map};
ghost use Rattle.tx_model.specs.Shown.{shown_token, shown_in_list};
ghost use Rattle.tx_private.specs.Environment.{Environment, category_of};
ghost use Rattle.tx_private.specs.Described.{described};
ghost use Rattle.tx_scan.specs.declared.cats.Cats.{Cats};
ghost use Rattle.tx_scan.specs.Scans.{category_by};
ghost use Rattle.tx_tok.specs.declared.tok.ListRef.{ListRef};
ghost use Rattle.tx_views.specs.Views.{View, IsView, viewed, all_viewed};
ghost use Rattle.tx_views.specs.Meanings.{sense_in};
ghost use Rattle.tx_describe.specs.Rests.{content_wanted, behind, KnowsToken, KnowsSense};
ghost use Rattle.tx_describe.specs.Descriptions.{written, wants, wants_text, wants_content, text_in, left, Progresses, Knows, KnowsWanted};

use crate::pieces::{piece, piece_of_name};
use crate::printed::Printed;
use crate::rest::{Rest, Wanted};
use crate::unread::Unread;
use std::alloc::{AllocError, Global};
use std::mem;
use tx_scan::Cats;
use tx_tok::{Tok, Toks};
use tx_views::Sense;

/// How far a step came.
#[derive(Clone, Copy, Debug, PartialEq, Eq)]
pub enum Progress {
    /// A piece of the text was printed.
    Went,
    /// This has to be given before the next step.
    Wants(Wanted),
    /// All is printed.
    Done,
    /// Memory was wanting.
    Memory,
}

/// A text that is being printed piece by piece. It is that of a token, of a list of tokens or of a meaning, and its
/// names and lists are given as it comes to them. *TeX: The Program*, part 20.
#[derive(Debug, Drop)]
pub struct Description {
    printed: Printed,
    escape: i32,
    rest: Rest,
}

impl Description {
    /// What `\string` gives of a token, where `\escapechar` is `escape`. *TeX: The Program*, sections 263 and 472.
    pub fn token(alloc: Global, token: Tok, escape: i32) -> Self
        ensures text { (view : View) (cats : Cats) → text_in view cats result ≡ shown_token escape (viewed view token) }
        ensures knows { (known : ℕ → Bool) (held : ListRef → Bool) → KnowsToken known token → Knows known held result }
    {
        Description::new(alloc, Rest::Token(token), escape)
    }

    /// The text of a list of tokens, where `\escapechar` is `escape`. *TeX: The Program*, section 292.
    pub fn list(alloc: Global, tokens: Toks, escape: i32) -> Self
        ensures text { (view : View) (cats : Cats) → text_in view cats result ≡ flat_map (shown_in_list (category_by cats) escape) (all_viewed view tokens) }
        ensures knows { (known : ℕ → Bool) (held : ListRef → Bool) → All (KnowsToken known) tokens → Knows known held result }
    {
        Description::new(alloc, Rest::Tokens(Unread::new(tokens)), escape)
    }

    /// What `\meaning` gives of a token that means this, where `\escapechar` is `escape`. *TeX: The Program*,
    /// section 296.
    pub fn meaning(alloc: Global, sense: Sense, escape: i32) -> Self
        ensures text { (view : View) (cats : Cats) (e : Environment) → category_of e ≡ category_by cats → text_in view cats result ≡ described e escape (sense_in view sense) }
        ensures knows { (known : ℕ → Bool) (held : ListRef → Bool) → KnowsSense held sense → Knows known held result }
    {
        Description::new(alloc, Rest::Meaning(sense), escape)
    }

    /// Nothing is printed, and this is left.
    fn new(alloc: Global, rest: Rest, escape: i32) -> Self
        ensures { result ≡ record { printed = []; escape = escape; rest = rest } }
    {
        Description {
            printed: Printed::new(alloc),
            escape,
            rest,
        }
    }

    /// Prints the next piece, unless something has to be given before it: the text of a name, or the content of a
    /// list. Then, and where all is printed or memory is wanting, nothing changes. *TeX: The Program*, sections 292
    /// to 298.
    pub fn go(&mut self) -> Progress
        ensures text { (view : View) (cats : Cats) → IsView view → text_in view cats self.new ≡ text_in view cats self.old }
        ensures progress { Progresses result self.old self.new }
        ensures knows { (known : ℕ → Bool) (held : ListRef → Bool) → Knows known held self.old → Knows known held self.new }
        ensures wanted { (known : ℕ → Bool) (held : ListRef → Bool) → Knows known held self.old → KnowsWanted known held result }
    {
        match self.rest.wanted() {
            Some(wanted) => Progress::Wants(wanted),
            None => self.step(),
        }
    }

    /// Prints the next piece, where nothing has to be given before it.
    fn step(&mut self) -> Progress
        requires { wants self.old ≡ None }
        ensures text { (view : View) (cats : Cats) → IsView view → text_in view cats self.new ≡ text_in view cats self.old }
        ensures progress { Progresses result self.old self.new }
        ensures knows { (known : ℕ → Bool) (held : ListRef → Bool) → Knows known held self.old → Knows known held self.new }
        ensures wanted { (known : ℕ → Bool) (held : ListRef → Bool) → KnowsWanted known held result }
    {
        if self.rest.is_finished() {
            return Progress::Done;
        }
        match self.print_piece() {
            Ok(()) => Progress::Went,
            Err(_) => Progress::Memory,
        }
    }

    /// Prints the next piece. The only error is want of memory, which changes nothing.
    fn print_piece(&mut self) -> Result<(), AllocError>
        requires { wants self.old ≡ None }
        ensures text { OnOk result ((view : View) (cats : Cats) → IsView view → text_in view cats self.new ≡ text_in view cats self.old) }
        ensures rest { OnOk result (self.new.rest ≡ behind self.old.rest) }
        ensures err { OnErr result (self.new ≡ self.old) }
    {
        let piece = piece(self.printed.alloc(), &self.rest, self.escape)?;
        self.print(piece.as_slice())
    }

    /// Takes the text of the name that was asked for, and prints it. In a list a blank follows it, unless it is one
    /// byte that is no letter by these categories. The only error is want of memory, which changes nothing. *TeX:
    /// The Program*, sections 262 and 263.
    pub fn text(&mut self, cats: &Cats, text: &[u8]) -> Result<(), AllocError>
        requires { IsTrue (wants_text self.old) }
        ensures text { OnOk result ((view : View) (n : ℕ) → wants self.old ≡ Some (Wanted.Text n) → view.naming n ≡ text.now → text_in view cats.now self.new ≡ text_in view cats.now self.old) }
        ensures left { OnOk result ((view : View) → left view self.new < left view self.old) }
        ensures knows { (known : ℕ → Bool) (held : ListRef → Bool) → Knows known held self.old → Knows known held self.new }
        ensures err { OnErr result (self.new ≡ self.old) }
    {
        let piece = piece_of_name(self.printed.alloc(), &self.rest, self.escape, cats, text)?;
        self.print(piece.as_slice())
    }

    /// Takes the content of the list that was asked for, which is printed in the steps that follow. *TeX: The
    /// Program*, sections 292 and 296.
    pub fn content(&mut self, tokens: Toks)
        requires { IsTrue (wants_content self.old) }
        ensures text { (view : View) (cats : Cats) (list : ListRef) → wants self.old ≡ content_wanted list → view.content list ≡ tokens → text_in view cats self.new ≡ text_in view cats self.old }
        ensures left { (view : View) (list : ListRef) → wants self.old ≡ content_wanted list → view.content list ≡ tokens → left view self.new < left view self.old }
        ensures knows { (known : ℕ → Bool) (held : ListRef → Bool) → All (KnowsToken known) tokens → Knows known held self.new }
    {
        self.rest = Rest::Tokens(Unread::new(tokens));
    }

    /// The text as far as it is printed. It is whole after [`Progress::Done`].
    pub fn into_text(self) -> Vec<u8>
        ensures { result.items ≡ written self }
    {
        let Description { printed, .. } = self;
        printed.into_bytes()
    }

    /// Prints a piece. The only error is want of memory, which changes nothing.
    fn print(&mut self, piece: &[u8]) -> Result<(), AllocError>
        ensures ok { OnOk result (self.new ≡ record self.old { printed = self.old.printed ++ piece.now; rest = behind self.old.rest }) }
        ensures err { OnErr result (self.new ≡ self.old) }
    {
        self.printed.push(piece)?;
        leave_behind(&mut self.rest);
        Ok(())
    }
}

/// Leaves out the piece that is printed.
fn leave_behind(rest: &mut Rest)
    ensures { rest.new ≡ behind rest.old }
{
    *rest = mem::replace(rest, Rest::Nothing).behind();
}
