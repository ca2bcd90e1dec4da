//! Tokens, and the text's end, for whoever takes them.

ghost use Rattle.std.specs.Prelude.{ℕ, Bool, None, ◌≡◌, [], ◌∷◌};
ghost use Rattle.tx_frames.specs.Knowledge.{Known, KnowsToken, KnowsSense, KnowsFrame, KnowsAnswer};
ghost use Rattle.tx_scene.specs.Knowledge.{KnowsScene};
ghost use Rattle.tx_run.specs.Knowledge.{known_by, KnowsFormat, KnowsOpen, KnowsAfter, Holds};
ghost use Rattle.std.specs.List.{AllByRecursion};
ghost use Rattle.tx_eqtb.specs.Meanings.{meanings};
ghost use Rattle.tx_private.specs.World.{World};
ghost use Rattle.tx_private.specs.Readings as private;
ghost use Rattle.tx_private.specs.Scans.{letter_of as letter_of_token};
ghost use Rattle.tx_views.specs.Views.{View, viewed};
ghost use Rattle.tx_environment.specs.Soundness.{IsSound};
ghost use Rattle.tx_input.specs.Owned.{error_of};
ghost use Rattle.tx_frames.specs.declared.frame.Wish.{Wish};
ghost use Rattle.tx_frames.specs.declared.value.Item.TheVariants as item;
ghost use Rattle.tx_frames.specs.Answers.{BecomesGiven};
ghost use Rattle.tx_frames.specs.Values.{command_in};
ghost use Rattle.tx_frames.specs.Frames.{wish_of};
ghost use Rattle.tx_run.specs.Readings.{waiting, Waits, Takes, is_scan, letter_given};
ghost use Rattle.tx_run.specs.Runs.{ComesTaken, ComesEnded, ComesPlain, FailsNow, LeadsFor, IsSoundAfter, Keeps, IsAsked};

use crate::doing::{Doing, Start, Taker};
use crate::frames::start_of;
use crate::op::{Op, Tick};
use crate::run::Run;
use std::alloc::Global;
use tx_amounts::letter_of;
use tx_commands::{Item as CommandItem, feed as feed_command};
use tx_format::Format;
use tx_frames::{Answer, Frame, Item, Value, expand, feed, feed_letter};
use tx_input::NameLimit;
use tx_tok::Tok;
use tx_views::Sense;

impl Run {
    /// Whoever takes a token is given this one.
    pub(crate) fn took(&mut self, format: &Format, taker: Taker, token: Tok) -> Tick
        requires sound { IsSound (meanings format.now.frozen) self.old.scene.environment }
        requires plain { Takes taker self.old.frames }
        requires waits { AllByRecursion Waits (waiting taker self.old.frames) }
        ensures leads { LeadsFor format.now (λ g. ComesTaken g (meanings format.now.frozen) taker token self.old) self.old.scene result self.new }
        ensures sound { IsSoundAfter (meanings format.now.frozen) result self.new }
        ensures keeps { Keeps self.old self.new }
        ensures asked { self.old.fallen ≡ None → IsAsked result self.new }
        ensures knows { (names : ℕ → Bool) → KnowsFormat names format.now → KnowsScene names self.old.scene → KnowsOpen (known_by names self.old.scene) self.old.frames self.old.command → KnowsToken (known_by names self.old.scene) token → KnowsAfter names result self.new }
        ensures holds { Holds self.old self.new }
    {
        match taker {
            Taker::Innermost => self.took_plain(format, token),
            Taker::Expanded(text) => {
                let sense = self.scene.sense(format.frozen(), token);
                let answer = expand(self.scene.alloc, text, token, sense);
                self.carry(format, Start::Expanded(text), answer)
            }
        }
    }

    /// The innermost reading is given this token as it stands. Behind a backquote it is given the token's code too, for
    /// which the text of a name is asked for.
    fn took_plain(&mut self, format: &Format, token: Tok) -> Tick
        requires sound { IsSound (meanings format.now.frozen) self.old.scene.environment }
        requires plain { Takes Taker.Innermost self.old.frames }
        requires waits { AllByRecursion Waits (waiting Taker.Innermost self.old.frames) }
        ensures leads { LeadsFor format.now (λ g. ComesTaken g (meanings format.now.frozen) Taker.Innermost token self.old) self.old.scene result self.new }
        ensures sound { IsSoundAfter (meanings format.now.frozen) result self.new }
        ensures keeps { Keeps self.old self.new }
        ensures asked { self.old.fallen ≡ None → IsAsked result self.new }
        ensures knows { (names : ℕ → Bool) → KnowsFormat names format.now → KnowsScene names self.old.scene → KnowsOpen (known_by names self.old.scene) self.old.frames self.old.command → KnowsToken (known_by names self.old.scene) token → KnowsAfter names result self.new }
        ensures holds { Holds self.old self.new }
    {
        match token {
            Tok::Name(number) => {
                if self.is_scan() {
                    self.doing = Doing::Letter(number);
                    Tick::Ask(Op::Text(number))
                } else {
                    self.given(format, token, None)
                }
            }
            _ => self.given(format, token, letter_of(token, b"")),
        }
    }

    /// Whether the innermost reading is one of a number, a dimension, glue or a keyword.
    fn is_scan(&self) -> bool
        ensures { result ≡ is_scan self.now.frames }
    {
        match self.frames.last() {
            Some(Frame::Scan(_, _)) => true,
            _ => false,
        }
    }

    /// The innermost reading is given this token as it stands, which has this code if the reading asks for one.
    pub(crate) fn given(&mut self, format: &Format, token: Tok, letter: Option<u8>) -> Tick
        requires sound { IsSound (meanings format.now.frozen) self.old.scene.environment }
        requires plain { Takes Taker.Innermost self.old.frames }
        requires waits { AllByRecursion Waits (waiting Taker.Innermost self.old.frames) }
        ensures leads { LeadsFor format.now (λ g r. letter_given self.old.frames letter ≡ letter_given self.old.frames (letter_of_token (viewed g.view token)) → ComesTaken g (meanings format.now.frozen) Taker.Innermost token self.old r) self.old.scene result self.new }
        ensures sound { IsSoundAfter (meanings format.now.frozen) result self.new }
        ensures keeps { Keeps self.old self.new }
        ensures asked { self.old.fallen ≡ None → IsAsked result self.new }
        ensures knows { (names : ℕ → Bool) → KnowsFormat names format.now → KnowsScene names self.old.scene → KnowsOpen (known_by names self.old.scene) self.old.frames self.old.command → KnowsToken (known_by names self.old.scene) token → KnowsAfter names result self.new }
        ensures holds { Holds self.old self.new }
    {
        let sense = self.scene.sense(format.frozen(), token);
        match self.frames.pop() {
            None => {
                let outcome = feed_command(
                    self.scene.alloc,
                    self.command,
                    CommandItem::Token(token, sense),
                );
                self.conclude(format, outcome)
            }
            Some(frame) => self.feed_plain(format, frame, token, sense, letter),
        }
    }

    /// A reading of a token as it stands is given one, which has this code if the reading asks for it.
    fn feed_plain(
        &mut self,
        format: &Format,
        frame: Frame,
        token: Tok,
        sense: Sense,
        letter: Option<u8>,
    ) -> Tick
        requires sound { IsSound (meanings format.now.frozen) self.old.scene.environment }
        requires waits { AllByRecursion Waits self.old.frames }
        requires plain { wish_of frame ≡ Wish.Plain }
        ensures leads { LeadsFor format.now (λ g r. letter_given (frame ∷ []) letter ≡ letter_given (frame ∷ []) (letter_of_token (viewed g.view token)) → ComesPlain g (meanings format.now.frozen) frame (private.Tok (command_in g.view token sense)) self.old r) self.old.scene result self.new }
        ensures sound { IsSoundAfter (meanings format.now.frozen) result self.new }
        ensures keeps { Keeps self.old self.new }
        ensures asked { self.old.fallen ≡ None → IsAsked result self.new }
        ensures knows { (names : ℕ → Bool) → KnowsFormat names format.now → KnowsScene names self.old.scene → KnowsOpen (known_by names self.old.scene) self.old.frames self.old.command → KnowsFrame (known_by names self.old.scene) frame → KnowsToken (known_by names self.old.scene) token → KnowsSense (known_by names self.old.scene) sense → KnowsAfter names result self.new }
        ensures holds { Holds self.old self.new }
    {
        let begun = start_of(&frame);
        let answer = feed_token(self.scene.alloc, frame, token, sense, letter);
        self.carry(format, begun, answer)
    }

    /// Whoever takes a token is given the end of the text.
    pub(crate) fn ended(&mut self, format: &Format, taker: Taker) -> Tick
        requires sound { IsSound (meanings format.now.frozen) self.old.scene.environment }
        requires plain { Takes taker self.old.frames }
        requires waits { AllByRecursion Waits (waiting taker self.old.frames) }
        ensures leads { LeadsFor format.now (λ g. ComesEnded g (meanings format.now.frozen) taker self.old) self.old.scene result self.new }
        ensures sound { IsSoundAfter (meanings format.now.frozen) result self.new }
        ensures keeps { Keeps self.old self.new }
        ensures asked { self.old.fallen ≡ None → IsAsked result self.new }
        ensures knows { (names : ℕ → Bool) → KnowsFormat names format.now → KnowsScene names self.old.scene → KnowsOpen (known_by names self.old.scene) self.old.frames self.old.command → KnowsAfter names result self.new }
        ensures holds { Holds self.old self.new }
    {
        match taker {
            Taker::Innermost => self.ended_plain(format),
            Taker::Expanded(_) => {
                self.doing = Doing::Gives(Value::TextEnd);
                Tick::Went
            }
        }
    }

    /// The innermost reading is given the end of the text, in place of a token as it stands.
    fn ended_plain(&mut self, format: &Format) -> Tick
        requires sound { IsSound (meanings format.now.frozen) self.old.scene.environment }
        requires plain { Takes Taker.Innermost self.old.frames }
        requires waits { AllByRecursion Waits (waiting Taker.Innermost self.old.frames) }
        ensures leads { LeadsFor format.now (λ g. ComesEnded g (meanings format.now.frozen) Taker.Innermost self.old) self.old.scene result self.new }
        ensures sound { IsSoundAfter (meanings format.now.frozen) result self.new }
        ensures keeps { Keeps self.old self.new }
        ensures asked { self.old.fallen ≡ None → IsAsked result self.new }
        ensures knows { (names : ℕ → Bool) → KnowsFormat names format.now → KnowsScene names self.old.scene → KnowsOpen (known_by names self.old.scene) self.old.frames self.old.command → KnowsAfter names result self.new }
        ensures holds { Holds self.old self.new }
    {
        match self.frames.pop() {
            None => {
                let outcome = feed_command(self.scene.alloc, self.command, CommandItem::End);
                self.conclude(format, outcome)
            }
            Some(frame) => {
                let begun = start_of(&frame);
                let answer = feed_end(self.scene.alloc, frame);
                self.carry(format, begun, answer)
            }
        }
    }

    /// Ends the region because a name is beyond a limit.
    pub(crate) fn full(&mut self, format: &Format, limit: NameLimit) -> Tick
        requires sound { IsSound (meanings format.now.frozen) self.old.scene.environment }
        ensures leads { LeadsFor format.now (λ g. FailsNow (meanings format.now.frozen) (error_of limit) g self.old.scene) self.old.scene result self.new }
        ensures sound { IsSoundAfter (meanings format.now.frozen) result self.new }
        ensures keeps { Keeps self.old self.new }
        ensures asked { self.old.fallen ≡ None → IsAsked result self.new }
        ensures knows { (names : ℕ → Bool) → KnowsScene names self.old.scene → KnowsAfter names result self.new }
        ensures holds { Holds self.old self.new }
    {
        let case = match limit {
            NameLimit::Number => 0,
            NameLimit::Bytes => 1,
            NameLimit::Length => 2,
        };
        self.error(format, 57, case, 0)
    }
}

/// What a token as it stands makes of a reading that has wished for one. It has this code if the reading asks for it.
fn feed_token(alloc: Global, frame: Frame, token: Tok, sense: Sense, letter: Option<u8>) -> Answer
    requires plain { wish_of frame ≡ Wish.Plain }
    ensures becomes { (view : View) (w : World) → letter_given (frame ∷ []) letter ≡ letter_given (frame ∷ []) (letter_of_token (viewed view token)) → BecomesGiven view frame (item.Token token sense) w result }
    ensures knows { (known : Known) → KnowsFrame known frame → KnowsToken known token → KnowsSense known sense → KnowsAnswer known result }
{
    match frame {
        Frame::Scan(reading, scan) => feed_letter(reading, scan, Some(token), letter),
        other => feed(alloc, other, Item::Token(token, sense)),
    }
}

/// What the end of the text makes of a reading that has wished for a token as it stands.
fn feed_end(alloc: Global, frame: Frame) -> Answer
    requires plain { wish_of frame ≡ Wish.Plain }
    ensures becomes { (view : View) (w : World) → BecomesGiven view frame item.End w result }
    ensures knows { (known : Known) → KnowsFrame known frame → KnowsAnswer known result }
{
    match frame {
        Frame::Scan(reading, scan) => feed_letter(reading, scan, None, None),
        other => feed(alloc, other, Item::End),
    }
}
