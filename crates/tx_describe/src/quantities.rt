//! Quantities as texts.

ghost use Rattle.std.specs.Prelude.{◌≡◌, ◌++◌, IfOk, OnOk};
ghost use Rattle.tx_private.specs.Texts.{unit_of as unit_in, part_text, glue_text as text_of_glue, quantity_text as text_of_quantity};

use crate::numbers::decimal_text;
use std::alloc::{AllocError, Global};
use tx_num::{GlueSpec, Order, Quant, Sp, print_sp};

/// What `\the` gives of a quantity. The only error is want of memory. *TeX: The Program*, section 465.
pub fn quantity_text(alloc: Global, quantity: Quant) -> Result<Vec<u8>, AllocError>
    ensures { IfOk result (λ text. text.items ≡ text_of_quantity quantity) }
{
    match quantity {
        Quant::Int(number) => decimal_text(alloc, number),
        Quant::Dim(dimension) => dimension_text(alloc, dimension),
        Quant::Glue(glue) => glue_text(alloc, &glue, b"pt"),
        Quant::Mu(glue) => glue_text(alloc, &glue, b"mu"),
    }
}

/// A dimension, in points.
fn dimension_text(alloc: Global, dimension: Sp) -> Result<Vec<u8>, AllocError>
    ensures { IfOk result (λ text. text.items ≡ text_of_quantity (Quant.Dim dimension)) }
{
    let mut text = Vec::new(alloc);
    print_sp(alloc, dimension, &mut text)?;
    text.extend_from_slice(b"pt")?;
    Ok(text)
}

/// Glue, whose finite parts have this unit. *TeX: The Program*, section 178.
fn glue_text(alloc: Global, glue: &GlueSpec, unit: &[u8]) -> Result<Vec<u8>, AllocError>
    ensures { IfOk result (λ text. text.items ≡ text_of_glue glue.now unit.now) }
{
    let mut text = Vec::new(alloc);
    print_sp(alloc, glue.width, &mut text)?;
    text.extend_from_slice(unit)?;
    push_part(&mut text, b" plus ", glue.stretch, glue.stretch_order, unit)?;
    push_part(&mut text, b" minus ", glue.shrink, glue.shrink_order, unit)?;
    Ok(text)
}

/// The unit of a part of this order, where `unit` is that of a finite one. *TeX: The Program*, section 177.
fn unit_of(order: Order, unit: &[u8]) -> &[u8]
    ensures { result.now ≡ unit_in order unit.now }
{
    match order {
        Order::Finite => unit,
        Order::Fil => b"fil",
        Order::Fill => b"fill",
        Order::Filll => b"filll",
    }
}

/// Adds a part of glue, where it is not 0.
fn push_part(
    text: &mut Vec<u8>,
    word: &[u8],
    amount: Sp,
    order: Order,
    unit: &[u8],
) -> Result<(), AllocError>
    ensures { OnOk result (text.new.items ≡ text.old.items ++ part_text word.now amount order unit.now) }
{
    if amount.get() != 0 {
        text.extend_from_slice(word)?;
        print_sp(*text.allocator(), amount, text)?;
        text.extend_from_slice(unit_of(order, unit))?;
    }
    Ok(())
}
