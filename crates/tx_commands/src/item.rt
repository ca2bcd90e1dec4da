//! What commands are given.

ghost use Rattle.std.specs.Prelude.{◌≡◌};
ghost use Rattle.tx_views.specs.Views.{View};
ghost use Rattle.tx_frames.specs.Values.{item_in as reading_item_in};
ghost use Rattle.tx_frames.specs.declared.value.Item.TheVariants as reading_item;
ghost use Rattle.tx_frames.specs.Knowledge.{Known, KnowsItem as KnowsReadingItem, KnowsValue};
ghost use Rattle.tx_commands.specs.declared.command.Command.{Command};
ghost use Rattle.tx_commands.specs.Items.{item_in};
ghost use Rattle.tx_commands.specs.Outcomes.{Suits};
ghost use Rattle.tx_commands.specs.Knowledge.{KnowsItem};

use tx_num::Quant;
use tx_tok::{ListRef, Tok, Toks};
use tx_views::Sense;

/// What a command is given: a token as it stands, or the value of a reading.
#[derive(Debug, Drop)]
pub enum Item {
    /// A token as it stands, with its meaning.
    Token(Tok, Sense),
    /// The end of the text, in place of such a token.
    End,
    /// A token that can't be expanded, with its meaning.
    Expanded(Tok, Sense),
    /// The end of the text, in place of such a token.
    TextEnd,
    /// Tokens.
    Tokens(Toks),
    /// Tokens of a list that is held already.
    List(ListRef),
    /// A quantity.
    Amount(Quant),
    /// A keyword by its place in its set, or 255.
    Word(u8),
    /// What was looked for, or that it isn't there.
    Nothing,
}

impl Item {
    /// What a reading is given, as an item for a command, which may be given to any command.
    pub fn of(item: tx_frames::Item) -> Item
        ensures same { (view : View) → item_in view result ≡ reading_item_in view item }
        ensures suits { (command : Command) → Suits command result }
        ensures knows { (known : Known) → KnowsReadingItem known item → KnowsItem known result }
    {
        match item {
            tx_frames::Item::Token(token, sense) => Item::Token(token, sense),
            tx_frames::Item::End => Item::End,
            tx_frames::Item::Given(value) => Item::of_value(value),
        }
    }

    /// The value of a reading, as an item for a command, which may be given to any command.
    pub fn of_value(value: tx_frames::Value) -> Item
        ensures same { (view : View) → item_in view result ≡ reading_item_in view (reading_item.Given value) }
        ensures suits { (command : Command) → Suits command result }
        ensures knows { (known : Known) → KnowsValue known value → KnowsItem known result }
    {
        match value {
            tx_frames::Value::Command(token, sense) => Item::Expanded(token, sense),
            tx_frames::Value::TextEnd => Item::TextEnd,
            tx_frames::Value::Tokens(tokens) => Item::Tokens(tokens),
            tx_frames::Value::Amount(quantity) => Item::Amount(quantity),
            tx_frames::Value::Word(place) => Item::Word(place),
            tx_frames::Value::Nothing => Item::Nothing,
        }
    }
}
