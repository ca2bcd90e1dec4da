//! Scans.

ghost use Rattle.std.specs.Prelude.{IsTrue};
ghost use Rattle.tx_amounts.specs.Automata.{is_ready};

use crate::amount::{ScanWish, Scanned};
use crate::automaton::Automaton;
use crate::back::{answered, with_back};
use crate::begun::Begun;
use crate::letters::scanned;
use std::alloc::Global;
use tx_num::{Quant, Sp, Want};
use tx_quant::{DimScan, GlueScan, KeySet, Keyword, NumScan};
use tx_tok::{Tok, Toks};
use tx_views::Sense;

/// The reading of a number, a dimension, glue or a keyword, one item at a time: an expanded token with its meaning,
/// a token as it stands, or an internal quantity (*TeX: The Program*, part 26). It holds the tokens that it has
/// taken, so that it can give back the very ones. Where memory was wanting, nothing is said of it afterwards.
#[derive(Debug, Drop)]
pub struct Scan {
    automaton: Automaton,
    /// The tokens that were taken, the latest last. None is an end of the text.
    taken: Vec<Option<Tok>>,
    /// The command of the quantity that is being read.
    begun: Option<Begun>,
    ghost ready: { IsTrue (is_ready begun automaton) },
}

impl Scan {
    ghost use Rattle.std.specs.Prelude.{◌≡◌, [], ◌∷◌, ◌++◌, List, ◌↔◌, ◌⊎◌, IsSome, IfSome};
    ghost use Rattle.std.specs.Option.{option_to_list};
    ghost use Rattle.tx_views.specs.Views.{View};
    ghost use Rattle.tx_private.specs.World.{World};
    ghost use Rattle.tx_private.specs.Readings.{Item, Number, DimensionOf, GlueOf, Keyword as KeywordOf, QuantityFrom, Given, TextEnd, Sub};
    ghost use Rattle.tx_private.specs.Meanings.{Meaning};
    ghost use Rattle.tx_private.specs.Moves.{move_in};
    ghost use Rattle.tx_amounts.specs.Scanning.{says, started, wish_of, wish_move, WishesFor, Tells, command_of, token_item, quantity_item, plain_item, letter_in};
    ghost use Rattle.tx_amounts.specs.Names.{IsWithin, scan_tokens, tokens_back};

    /// A number of which nothing was taken (*TeX: The Program*, section 440). Its value is an integer below 2^31 in
    /// absolute value. It takes no memory yet.
    pub fn number(alloc: Global) -> Self
        ensures says { (view : View) (items : List Item) (w : World) → says view result items w ≡ move_in Number items w }
        ensures wish { (view : View) (w : World) → move_in Number [] w ≡ wish_move view result w }
        ensures names { scan_tokens result ≡ [] }
    {
        Scan::begin(alloc, Automaton::Number(NumScan::new()))
    }

    /// A dimension of which nothing was taken, measured in mu where `mu` says so (*TeX: The Program*,
    /// section 448). Its value is in scaled points. One em and one ex are nothing, since the font has none. It takes
    /// no memory yet.
    pub fn dimension(alloc: Global, mu: bool) -> Self
        ensures says { (view : View) (items : List Item) (w : World) → says view result items w ≡ move_in (DimensionOf mu) items w }
        ensures wish { (view : View) (w : World) → move_in (DimensionOf mu) [] w ≡ wish_move view result w }
        ensures names { scan_tokens result ≡ [] }
    {
        Scan::begin(
            alloc,
            Automaton::Dimension(DimScan::new(mu, Sp::ZERO, Sp::ZERO)),
        )
    }

    /// Glue of which nothing was taken, measured in mu where `mu` says so (*TeX: The Program*, section 461).
    /// Its value is in scaled points. One em and one ex are nothing, since the font has none. It takes no memory
    /// yet.
    pub fn glue(alloc: Global, mu: bool) -> Self
        ensures says { (view : View) (items : List Item) (w : World) → says view result items w ≡ move_in (GlueOf mu) items w }
        ensures wish { (view : View) (w : World) → move_in (GlueOf mu) [] w ≡ wish_move view result w }
        ensures names { scan_tokens result ≡ [] }
    {
        Scan::begin(
            alloc,
            Automaton::Glue(mu, GlueScan::new(mu, Sp::ZERO, Sp::ZERO)),
        )
    }

    /// The look for a keyword of this set, for which nothing was taken (*TeX: The Program*, section 407). Its value
    /// is the word's place in the set, or 255 where none stands here. It takes no memory yet.
    pub fn keyword(alloc: Global, set: KeySet) -> Self
        ensures says { (view : View) (items : List Item) (w : World) → says view result items w ≡ move_in (KeywordOf set) items w }
        ensures wish { (view : View) (w : World) → move_in (KeywordOf set) [] w ≡ wish_move view result w }
        ensures names { scan_tokens result ≡ [] }
    {
        Scan::begin(alloc, Automaton::Keyword(Keyword::new(set)))
    }

    /// A scan with an automaton that was given nothing.
    fn begin(alloc: Global, automaton: Automaton) -> Self
        ensures automaton { result.automaton ≡ automaton }
        ensures taken { result.taken.items ≡ [] }
        ensures begun { result.begun ≡ None }
    {
        Scan {
            automaton,
            taken: Vec::new(alloc),
            begun: None,
        }
    }

    /// How the next item is to be taken: the quantity that has begun, or else what the automaton asks for (*TeX: The
    /// Program*, sections 413 and 442).
    pub fn wish(&self) -> ScanWish
        ensures wish { result ≡ wish_of self.now }
        ensures now { (view : View) (w : World) → says view self.now [] w ≡ wish_move view self.now w }
        ensures moves { (view : View) (w : World) → WishesFor result w (wish_move view self.now w) }
    {
        match self.begun {
            Some(_) => ScanWish::Quantity,
            None => match self.automaton.wants() {
                Want::Plain => ScanWish::Plain,
                _ => ScanWish::Expanded,
            },
        }
    }

    /// The token, with its meaning, with which the quantity begins that is wished for. None comes exactly where
    /// `wish` is not `Quantity`.
    pub fn command(&self) -> Option<(Tok, Sense)>
        ensures begun { result ≡ started self.now.begun }
        ensures command { IfSome result (λ c. (view : View) (w : World) → wish_move view self.now w ≡ Sub (QuantityFrom (command_of view c.0 c.1)) w) }
        ensures there { IsSome result ↔ (wish_of self.now ≡ ScanWish.Quantity) }
        ensures names { IfSome result (λ c. IsWithin (c.0 ∷ []) (scan_tokens self.now)) }
    {
        match self.begun {
            Some(begun) => Some((begun.token, begun.sense)),
            None => None,
        }
    }

    /// Takes an expanded token with its meaning (*TeX: The Program*, sections 407, 413 and 440 to 462). Where a
    /// quantity may stand and one begins with the meaning, the scan wishes for the quantity. What means a space is
    /// a space, and what is put back is the token itself. The errors are 9 where neither a digit nor a quantity
    /// stands, 10 at the digit with which the number passes 2^31-1, 11 at the token that fits no unit, and at an `l`
    /// behind `filll`, and 12 behind a unit where the dimension is 2^30 scaled points or more. No call may follow
    /// another answer than More. No quantity begins here but with the token and its meaning, whatever the answer is.
    pub fn token(&mut self, token: Tok, sense: Sense) -> Scanned
        requires { wish_of self.old ≡ ScanWish.Expanded }
        ensures says { (view : View) → Tells view result self.old (token_item view token sense) self.new }
        ensures names { IsWithin (scan_tokens self.new ++ tokens_back result) (token ∷ scan_tokens self.old) }
        ensures begun { (self.new.begun ≡ self.old.begun) ⊎ (self.new.begun ≡ Some (record { token = token; sense = sense })) }
    {
        if self.automaton.begins_with(&sense) {
            self.begun = Some(Begun { token, sense });
            return Scanned::More(Toks::new(*self.taken.allocator()));
        }
        let answer = self.automaton.token(scanned(token, sense));
        answered(&mut self.taken, Some(token), answer)
    }

    /// Takes the end of the text in place of an expanded token (*TeX: The Program*, sections 407 and 440 to 462). It
    /// is as a token that belongs to nothing, and is never put back. The errors are those of `token`. No call may
    /// follow another answer than More. No quantity begins here.
    pub fn end(&mut self) -> Scanned
        requires { wish_of self.old ≡ ScanWish.Expanded }
        ensures says { (view : View) → Tells view result self.old (Given TextEnd) self.new }
        ensures names { IsWithin (scan_tokens self.new ++ tokens_back result) (scan_tokens self.old) }
        ensures begun { self.new.begun ≡ self.old.begun }
    {
        let answer = self.automaton.token(Tok::Stop);
        answered(&mut self.taken, None, answer)
    }

    /// Takes a token as it stands, after a backquote, or None for the end of the text, and the code that the token
    /// has by `letter_of`. The error is 19 where it has none (*TeX: The Program*, section 442). No call may follow
    /// another answer than More. No quantity begins here.
    pub fn letter(&mut self, token: Option<Tok>, letter: Option<u8>) -> Scanned
        requires { wish_of self.old ≡ ScanWish.Plain }
        ensures says { (view : View) (meaning : Meaning) → letter ≡ letter_in view token → Tells view result self.old (plain_item view meaning token) self.new }
        ensures names { IsWithin (scan_tokens self.new ++ tokens_back result) (option_to_list token ++ scan_tokens self.old) }
        ensures begun { self.new.begun ≡ self.old.begun }
    {
        let answer = self.automaton.letter(letter);
        answered(&mut self.taken, token, answer)
    }

    /// Takes the quantity that was wished for (*TeX: The Program*, sections 440, 449, 451, 455 and 461). The errors
    /// are 10 for an integer that is none of TeX's, 11 where an integer stands for a unit, 12 for a dimension that
    /// is too large, and 13 where math glue meets another quantity. No call may follow another answer than More. No
    /// quantity has begun afterwards, whatever the answer is.
    pub fn quantity(&mut self, q: Quant) -> Scanned
        requires { wish_of self.old ≡ ScanWish.Quantity }
        ensures says { (view : View) → Tells view result self.old (quantity_item q) self.new }
        ensures names { IsWithin (scan_tokens self.new ++ tokens_back result) (scan_tokens self.old) }
        ensures begun { self.new.begun ≡ None }
    {
        let answer = self.automaton.quantity(q);
        self.begun = None;
        with_back(*self.taken.allocator(), self.taken.as_slice(), answer)
    }
}
