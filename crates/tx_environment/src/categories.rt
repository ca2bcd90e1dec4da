//! Tables of categories.

ghost use Rattle.std.specs.Prelude.{◌≡◌};
ghost use Rattle.tx_eqtb.specs.Meanings.{meanings};
ghost use Rattle.tx_private.specs.Categories.{category_numbered};
ghost use Rattle.tx_environment.specs.Soundness.{category_given, AreCategories, Pairwise};
ghost use Rattle.tx_environment.specs.Changes.{IsGiven, IsGivenAround};

use tx_eqtb::{Frozen, Meaning};
use tx_node::BoxNode;
use tx_scan::{Cat, Cats};
use tx_views::{CodeTable, Place};

/// The category with a number. A number below 0 counts as 12 and one above 15 as 15, though a category code is
/// neither. *The TeXbook*, chapter 7.
fn numbered(code: i32) -> Cat
    ensures { result ≡ category_numbered code }
{
    match code {
        0 => Cat::Escape,
        1 => Cat::Begin,
        2 => Cat::End,
        3 => Cat::Math,
        4 => Cat::Tab,
        5 => Cat::LineEnd,
        6 => Cat::Parameter,
        7 => Cat::Superscript,
        8 => Cat::Subscript,
        9 => Cat::Ignored,
        10 => Cat::Space,
        11 => Cat::Letter,
        12 => Cat::Other,
        13 => Cat::Active,
        14 => Cat::Comment,
        _ if code < 0 => Cat::Other,
        _ => Cat::Invalid,
    }
}

/// The category that a meaning gives a byte: that of an integer is by its number, and that of anything else is 0's.
pub(crate) fn category_of(meaning: &Meaning<BoxNode>) -> Cat
    ensures { result ≡ category_given meaning.now }
{
    match meaning {
        Meaning::Int(code) => numbered(*code),
        _ => numbered(0),
    }
}

/// The categories of a frozen table.
pub(crate) fn categories_of(frozen: &Frozen<BoxNode>) -> Cats
    ensures { AreCategories result (meanings frozen.now) }
{
    let mut cats = [Cat::Other; 256];
    for byte in 0..256 {
        let place = Place::Code(CodeTable::Categories, byte as u8);
        cats[byte] = category_of(frozen.get(place.addr()));
    }
    Cats(cats)
}

/// Gives a byte this category, where the place is that of its category.
pub(crate) fn give(cats: &mut Cats, place: Place, category: Cat)
    ensures { IsGiven place category cats.old cats.new }
{
    match place {
        Place::Code(table, byte) => give_code(cats, table, byte, category),
        _ => {}
    }
}

/// Gives a byte this category, where the table is that of categories.
fn give_code(cats: &mut Cats, table: CodeTable, byte: u8, category: Cat)
    ensures { IsGiven (Place.Code table byte) category cats.old cats.new }
{
    match table {
        CodeTable::Categories => cats.set(byte, category),
        _ => {}
    }
}

/// Gives a byte this category in all these tables, where the place is that of its category.
fn give_all(tables: &mut [Cats], place: Place, category: Cat)
    ensures { Pairwise (IsGiven place category) tables.old tables.new }
{
    for cats in tables.iter_mut() {
        give(cats, place, category);
    }
}

/// Gives a byte this category in all these tables, where the place is that of its category and `global`.
pub(crate) fn give_around(tables: &mut [Cats], place: Place, category: Cat, global: bool)
    ensures { IsGivenAround global place category tables.old tables.new }
{
    if global {
        give_all(tables, place, category);
    }
}
