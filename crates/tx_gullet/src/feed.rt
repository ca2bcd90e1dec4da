//! What an item makes of the innermost open reading.
#![tactic(auto, unfolding(tx_model::specs::Moves::move_in))]

ghost use Rattle.std.specs.Prelude.{◌≡◌, ◌≤◌, ◌+◌, length};
ghost use Rattle.tx_model.specs.World.{World};
ghost use Rattle.tx_model.specs.Tokens.{is_left_brace as is_left_brace_in, is_right_brace as is_right_brace_in};
ghost use Rattle.tx_tok.specs.Tokens.{token_in};
ghost use Rattle.tx_names.specs.Names.{Names, Naming, KeepsApart, Agrees};
ghost use Rattle.tx_gullet.specs.Meanings.{IsKnown, AreKnown};
ghost use Rattle.tx_gullet.specs.Levels.{KeepsBefore};
ghost use Rattle.tx_gullet.specs.Scenes.{IsSound, world_of};
ghost use Rattle.tx_gullet.specs.Frames.{Comes, ComesAtEnd, Answers, AnswersValue, Adds, Keeps, Begun, open_of, item_in, KnowsText, KnowsFrame, KnowsItem, KnowsAnswer, IsSoundAfter};

use crate::frame::{Answer, AtEnd, BalancedText, Frame, Item, Waiting, Wish};
use crate::meaning::Meaning;
use crate::scene::Scene;
use std::alloc::Global;
use tx_model::{Cat, Error, Primitive};
use tx_tok::Tok;

/// Gives an item to the innermost open reading.
pub(crate) fn feed(frame: Frame, item: Item, scene: &mut Scene) -> Answer
    requires sound { IsSound scene.old }
    requires frame { KnowsFrame scene.old.names frame }
    requires item { KnowsItem scene.old.names item }
    ensures sound { IsSoundAfter result scene.new }
    ensures known { KnowsAnswer scene.new.names result }
    ensures names { scene.new.names ≡ scene.old.names }
    ensures steps { scene.new.steps ≡ scene.old.steps }
    ensures kept { KeepsBefore scene.old.equivalents scene.new.equivalents }
    ensures answers { Answers frame item scene.old result scene.new }
{
    match frame {
        Frame::Control => control(item, scene),
        Frame::Message => message(scene.alloc, item),
        Frame::Definition => definition(item),
        Frame::DefinitionOf(number) => definition_of(scene.alloc, number, item),
        Frame::Balanced(wish, text) => balanced(wish, text, item),
    }
}

/// Main control, at the beginning of a command. *TeX: The Program*, part 46.
fn control(item: Item, scene: &mut Scene) -> Answer
    requires sound { IsSound scene.old }
    ensures sound { IsSoundAfter result scene.new }
    ensures known { (names : Names) → KnowsAnswer names result }
    ensures names { scene.new.names ≡ scene.old.names }
    ensures steps { scene.new.steps ≡ scene.old.steps }
    ensures kept { KeepsBefore scene.old.equivalents scene.new.equivalents }
    ensures answers { Answers Frame.Control item scene.old result scene.new }
{
    match item {
        Item::Expanded(_token, meaning) => command(&meaning, scene),
        Item::Token(_, _) => Answer::Wrong(Error::NotBuilt),
    }
}

/// A command of main control, by its meaning. *TeX: The Program*, part 46.
fn command(meaning: &Meaning, scene: &mut Scene) -> Answer
    requires sound { IsSound scene.old }
    ensures sound { IsSoundAfter result scene.new }
    ensures known { (names : Names) → KnowsAnswer names result }
    ensures names { scene.new.names ≡ scene.old.names }
    ensures steps { scene.new.steps ≡ scene.old.steps }
    ensures kept { KeepsBefore scene.old.equivalents scene.new.equivalents }
    ensures answers { (t : Tok) → Answers Frame.Control (Item.Expanded t meaning.now) scene.old result scene.new }
{
    match meaning {
        Meaning::Primitive(primitive) => primitive_command(*primitive),
        Meaning::Character(cat, byte) => character(*cat, *byte, scene),
        Meaning::Undefined => Answer::Wrong(Error::NotBuilt),
        Meaning::Macro(_) => Answer::Wrong(Error::NotBuilt),
    }
}

/// A primitive that main control takes.
fn primitive_command(primitive: Primitive) -> Answer
    ensures known { (names : Names) → KnowsAnswer names result }
    ensures sound { (s : Scene) → IsSound s → IsSoundAfter result s }
    ensures answers { (t : Tok) (naming : Naming) (w : World) → Comes naming (open_of naming Frame.Control) (item_in naming (Item.Expanded t (Meaning.Primitive primitive))) w result w }
{
    match primitive {
        Primitive::Relax | Primitive::Par => Answer::Again,
        Primitive::Message => Answer::Goes(Frame::Message),
        Primitive::Def => Answer::Goes(Frame::Definition),
    }
}

/// A character that main control takes.
fn character(cat: Cat, byte: u8, scene: &mut Scene) -> Answer
    requires sound { IsSound scene.old }
    ensures sound { IsSoundAfter result scene.new }
    ensures known { (names : Names) → KnowsAnswer names result }
    ensures names { scene.new.names ≡ scene.old.names }
    ensures steps { scene.new.steps ≡ scene.old.steps }
    ensures kept { KeepsBefore scene.old.equivalents scene.new.equivalents }
    ensures answers { (t : Tok) → Answers Frame.Control (Item.Expanded t (Meaning.Character cat byte)) scene.old result scene.new }
{
    match cat {
        Cat::Space => Answer::Again,
        Cat::Begin => begin_group(byte, scene),
        Cat::End => end_group(byte, scene),
        Cat::Escape => Answer::Wrong(Error::NotBuilt),
        Cat::Math => Answer::Wrong(Error::NotBuilt),
        Cat::Tab => Answer::Wrong(Error::NotBuilt),
        Cat::LineEnd => Answer::Wrong(Error::NotBuilt),
        Cat::Parameter => Answer::Wrong(Error::NotBuilt),
        Cat::Superscript => Answer::Wrong(Error::NotBuilt),
        Cat::Subscript => Answer::Wrong(Error::NotBuilt),
        Cat::Ignored => Answer::Wrong(Error::NotBuilt),
        Cat::Letter => Answer::Wrong(Error::NotBuilt),
        Cat::Other => Answer::Wrong(Error::NotBuilt),
        Cat::Active => Answer::Wrong(Error::NotBuilt),
        Cat::Comment => Answer::Wrong(Error::NotBuilt),
        Cat::Invalid => Answer::Wrong(Error::NotBuilt),
    }
}

/// A left brace begins a group. *TeX: The Program*, part 19.
fn begin_group(byte: u8, scene: &mut Scene) -> Answer
    requires sound { IsSound scene.old }
    ensures sound { IsSoundAfter result scene.new }
    ensures known { (names : Names) → KnowsAnswer names result }
    ensures names { scene.new.names ≡ scene.old.names }
    ensures steps { scene.new.steps ≡ scene.old.steps }
    ensures kept { KeepsBefore scene.old.equivalents scene.new.equivalents }
    ensures answers { (t : Tok) → Answers Frame.Control (Item.Expanded t (Meaning.Character Cat.Begin byte)) scene.old result scene.new }
{
    match scene.begin_group() {
        Ok(()) => Answer::Again,
        Err(_) => Answer::Memory,
    }
}

/// A right brace ends a group, if one is open. *TeX: The Program*, part 19.
fn end_group(byte: u8, scene: &mut Scene) -> Answer
    requires sound { IsSound scene.old }
    ensures sound { IsSoundAfter result scene.new }
    ensures known { (names : Names) → KnowsAnswer names result }
    ensures names { scene.new.names ≡ scene.old.names }
    ensures steps { scene.new.steps ≡ scene.old.steps }
    ensures kept { KeepsBefore scene.old.equivalents scene.new.equivalents }
    ensures answers { (t : Tok) → Answers Frame.Control (Item.Expanded t (Meaning.Character Cat.End byte)) scene.old result scene.new }
{
    if scene.end_group() {
        Answer::Again
    } else {
        Answer::Wrong(Error::TooManyRightBraces)
    }
}

/// What the end of the text makes of the innermost open reading. Only main control may end there.
pub(crate) fn at_end(frame: &Frame, scene: &Scene) -> AtEnd
    ensures { ComesAtEnd frame.now result scene.now }
{
    match frame {
        Frame::Control => region_end(scene),
        Frame::Message => AtEnd::Wrong(Error::NotBuilt),
        Frame::Definition => AtEnd::Wrong(Error::NotBuilt),
        Frame::DefinitionOf(_) => AtEnd::Wrong(Error::NotBuilt),
        Frame::Balanced(_, _) => AtEnd::Wrong(Error::NotBuilt),
    }
}

/// The end of the region, where no group may be open.
fn region_end(scene: &Scene) -> AtEnd
    ensures { ComesAtEnd Frame.Control result scene.now }
{
    let groups = scene.equivalents.open_groups();
    if groups == 0 {
        AtEnd::Done
    } else {
        AtEnd::Wrong(Error::EndedInGroup(groups))
    }
}

/// A token that begins a group.
fn is_left_brace(token: Tok) -> bool
    ensures { (naming : Naming) → result ≡ is_left_brace_in (token_in naming token) }
{
    matches!(token, Tok::Char(Cat::Begin, _))
}

/// A token that ends a group.
fn is_right_brace(token: Tok) -> bool
    ensures { (naming : Naming) → result ≡ is_right_brace_in (token_in naming token) }
{
    matches!(token, Tok::Char(Cat::End, _))
}

/// `\message`, whose left brace is due. *TeX: The Program*, part 49.
fn message(alloc: Global, item: Item) -> Answer
    ensures known { (names : Names) → KnowsAnswer names result }
    ensures sound { (s : Scene) → IsSound s → IsSoundAfter result s }
    ensures answers { (naming : Naming) (w : World) → Comes naming (open_of naming Frame.Message) (item_in naming item) w result w }
{
    match item {
        Item::Token(token, _) => {
            if is_left_brace(token) {
                Answer::Within(Waiting::Message, begun(alloc, Wish::Expanded))
            } else {
                Answer::Wrong(Error::NotBuilt)
            }
        }
        Item::Expanded(_, _) => Answer::Wrong(Error::NotBuilt),
    }
}

/// A balanced text of which nothing was taken.
fn begun(alloc: Global, wish: Wish) -> Frame
    ensures { Begun wish result }
{
    Frame::Balanced(
        wish,
        BalancedText {
            groups: 0,
            tokens: Vec::new(alloc),
        },
    )
}

/// `\def`, whose name is due. *TeX: The Program*, part 49.
fn definition(item: Item) -> Answer
    ensures known { (names : Names) → KnowsAnswer names result }
    ensures sound { (s : Scene) → IsSound s → IsSoundAfter result s }
    ensures answers { (naming : Naming) (w : World) → Comes naming (open_of naming Frame.Definition) (item_in naming item) w result w }
{
    match item {
        Item::Token(token, _) => named(token),
        Item::Expanded(_, _) => Answer::Wrong(Error::NotBuilt),
    }
}

/// `\def` with the token that stands where its name is due.
fn named(token: Tok) -> Answer
    ensures known { (names : Names) → KnowsAnswer names result }
    ensures sound { (s : Scene) → IsSound s → IsSoundAfter result s }
    ensures answers { (naming : Naming) (w : World) (m : Meaning) → Comes naming (open_of naming Frame.Definition) (item_in naming (Item.Token token m)) w result w }
{
    match token {
        Tok::Name(number) => Answer::Goes(Frame::DefinitionOf(number)),
        Tok::Char(_, _) => Answer::Wrong(Error::NotBuilt),
        Tok::Active(_) => Answer::Wrong(Error::NotBuilt),
        Tok::Param(_) => Answer::Wrong(Error::NotBuilt),
        Tok::Stop => Answer::Wrong(Error::NotBuilt),
    }
}

/// `\def` with a name, whose left brace is due. *TeX: The Program*, part 49.
fn definition_of(alloc: Global, number: u64, item: Item) -> Answer
    ensures known { (names : Names) → KnowsAnswer names result }
    ensures sound { (s : Scene) → IsSound s → IsSoundAfter result s }
    ensures answers { (naming : Naming) (w : World) → Comes naming (open_of naming (Frame.DefinitionOf number)) (item_in naming item) w result w }
{
    match item {
        Item::Token(token, _) => {
            if is_left_brace(token) {
                Answer::Within(Waiting::Definition(number), begun(alloc, Wish::Plain))
            } else {
                Answer::Wrong(Error::NotBuilt)
            }
        }
        Item::Expanded(_, _) => Answer::Wrong(Error::NotBuilt),
    }
}

/// A balanced text. *TeX: The Program*, part 27.
fn balanced(wish: Wish, text: BalancedText, item: Item) -> Answer
    requires few { text.groups ≤ length text.tokens.items }
    ensures known { (names : Names) → KnowsText names text → KnowsItem names item → KnowsAnswer names result }
    ensures sound { (s : Scene) → IsSound s → IsSoundAfter result s }
    ensures answers { (naming : Naming) (w : World) → Comes naming (open_of naming (Frame.Balanced wish text)) (item_in naming item) w result w }
{
    match item {
        Item::Token(token, _meaning) => added(wish, text, token),
        Item::Expanded(token, _meaning) => added(wish, text, token),
    }
}

/// A token more of a balanced text.
fn added(wish: Wish, text: BalancedText, token: Tok) -> Answer
    requires few { text.groups ≤ length text.tokens.items }
    ensures known { (names : Names) → KnowsText names text → IsKnown names token → KnowsAnswer names result }
    ensures sound { (s : Scene) → IsSound s → IsSoundAfter result s }
    ensures answers { Adds wish text token result }
{
    let BalancedText { groups, tokens } = text;
    if is_left_brace(token) {
        return opened(wish, groups, tokens, token);
    }
    if !is_right_brace(token) {
        return kept(wish, groups, tokens, token);
    }
    if groups == 0 {
        return Answer::Done(tokens);
    }
    kept(wish, groups - 1, tokens, token)
}

/// A balanced text with a left brace more.
fn opened(wish: Wish, groups: usize, tokens: Vec<Tok>, token: Tok) -> Answer
    requires few { groups ≤ length tokens.items }
    ensures known { (names : Names) → AreKnown names tokens.items → IsKnown names token → KnowsAnswer names result }
    ensures sound { (s : Scene) → IsSound s → IsSoundAfter result s }
    ensures keeps { Keeps wish (groups + 1) tokens token result }
{
    let mut tokens = tokens;
    if tokens.push(token).is_err() {
        return Answer::Memory;
    }
    // No more groups are open than there are tokens, and their number fits.
    let _length = tokens.as_slice().len();
    Answer::Goes(Frame::Balanced(
        wish,
        BalancedText {
            groups: groups + 1,
            tokens,
        },
    ))
}

/// A balanced text with a token more, in which so many groups are open.
fn kept(wish: Wish, groups: usize, tokens: Vec<Tok>, token: Tok) -> Answer
    requires few { groups ≤ length tokens.items }
    ensures known { (names : Names) → AreKnown names tokens.items → IsKnown names token → KnowsAnswer names result }
    ensures sound { (s : Scene) → IsSound s → IsSoundAfter result s }
    ensures keeps { Keeps wish groups tokens token result }
{
    let mut tokens = tokens;
    if tokens.push(token).is_err() {
        return Answer::Memory;
    }
    Answer::Goes(Frame::Balanced(wish, BalancedText { groups, tokens }))
}

/// Gives a balanced text to the reading that waits for it.
pub(crate) fn give(waiting: Waiting, tokens: Vec<Tok>, scene: &mut Scene) -> Answer
    requires sound { IsSound scene.old }
    requires tokens { AreKnown scene.old.names tokens.items }
    ensures sound { IsSoundAfter result scene.new }
    ensures known { (names : Names) → KnowsAnswer names result }
    ensures names { scene.new.names ≡ scene.old.names }
    ensures steps { scene.new.steps ≡ scene.old.steps }
    ensures kept { KeepsBefore scene.old.equivalents scene.new.equivalents }
    ensures answers { AnswersValue waiting tokens scene.old result scene.new }
{
    match waiting {
        Waiting::Message => message_given(tokens, scene),
        Waiting::Definition(number) => definition_given(number, tokens, scene),
    }
}

/// `\message` with its text, which is logged as a line. *TeX: The Program*, part 49.
fn message_given(tokens: Vec<Tok>, scene: &mut Scene) -> Answer
    requires sound { IsSound scene.old }
    requires tokens { AreKnown scene.old.names tokens.items }
    ensures sound { IsSoundAfter result scene.new }
    ensures known { (names : Names) → KnowsAnswer names result }
    ensures names { scene.new.names ≡ scene.old.names }
    ensures steps { scene.new.steps ≡ scene.old.steps }
    ensures kept { KeepsBefore scene.old.equivalents scene.new.equivalents }
    ensures answers { AnswersValue Waiting.Message tokens scene.old result scene.new }
{
    match scene.log_list(tokens.as_slice()) {
        Ok(()) => Answer::Again,
        Err(_) => Answer::Memory,
    }
}

/// `\def` with its name and body. *TeX: The Program*, part 49.
fn definition_given(number: u64, tokens: Vec<Tok>, scene: &mut Scene) -> Answer
    requires sound { IsSound scene.old }
    requires tokens { AreKnown scene.old.names tokens.items }
    ensures sound { IsSoundAfter result scene.new }
    ensures known { (names : Names) → KnowsAnswer names result }
    ensures names { scene.new.names ≡ scene.old.names }
    ensures steps { scene.new.steps ≡ scene.old.steps }
    ensures kept { KeepsBefore scene.old.equivalents scene.new.equivalents }
    ensures answers { AnswersValue (Waiting.Definition number) tokens scene.old result scene.new }
{
    match scene.define(number, tokens) {
        Ok(()) => Answer::Again,
        Err(_) => Answer::Memory,
    }
}
