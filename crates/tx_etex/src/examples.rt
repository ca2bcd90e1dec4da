//! Worked expressions, computed from the definition. Each function here does nothing: its contract is
//! the example.

ghost use Rattle.std.specs.Prelude.{◌≡◌, ◌∷◌, [], Some, None, pos, negsuc};
ghost use Rattle.tx_etex.specs.Expressions.{Quantity, Inner, Sum, Difference, Product, Quotient, rigid, value};
ghost use Rattle.tx_etex.specs.Readings.{Token, Factor, Asks, Gives, Fails, expression, missing_parenthesis, overflow};

use tx_num::{Order, Quant, QuantKind, Want};
use tx_tok::{Cat, Tok};

/// 7/2 and -7/2, rounded away from zero; 5/3 and 4/3, to the nearest.
pub fn rounded_quotients()
    ensures up { value QuantKind.Int (Quotient (Quantity (Quant.Int (pos 7))) (Quantity (Quant.Int (pos 2)))) ≡ Some (rigid (pos 4)) }
    ensures down { value QuantKind.Int (Quotient (Quantity (Quant.Int (negsuc 6))) (Quantity (Quant.Int (pos 2)))) ≡ Some (rigid (negsuc 3)) }
    ensures above { value QuantKind.Int (Quotient (Quantity (Quant.Int (pos 5))) (Quantity (Quant.Int (pos 3)))) ≡ Some (rigid (pos 2)) }
    ensures below { value QuantKind.Int (Quotient (Quantity (Quant.Int (pos 4))) (Quantity (Quant.Int (pos 3)))) ≡ Some (rigid (pos 1)) }
{}

/// 50000*50000/50000 is 50000, but 50000*50000 is an overflow, and so is (50000*50000)/50000.
pub fn whole_products()
    ensures before_quotient { value QuantKind.Int (Quotient (Product (Quantity (Quant.Int (pos 50000))) (Quantity (Quant.Int (pos 50000)))) (Quantity (Quant.Int (pos 50000)))) ≡ Some (rigid (pos 50000)) }
    ensures alone { value QuantKind.Int (Product (Quantity (Quant.Int (pos 50000))) (Quantity (Quant.Int (pos 50000)))) ≡ None }
    ensures in_parentheses { value QuantKind.Int (Quotient (Inner (Product (Quantity (Quant.Int (pos 50000))) (Quantity (Quant.Int (pos 50000))))) (Quantity (Quant.Int (pos 50000)))) ≡ None }
{}

/// 1/0 is an overflow, and so is 0*(1/0); 2-(3+4) is -5.
pub fn divisors_and_sums()
    ensures zero { value QuantKind.Int (Quotient (Quantity (Quant.Int (pos 1))) (Quantity (Quant.Int (pos 0)))) ≡ None }
    ensures inner { value QuantKind.Int (Product (Quantity (Quant.Int (pos 0))) (Inner (Quotient (Quantity (Quant.Int (pos 1))) (Quantity (Quant.Int (pos 0)))))) ≡ None }
    ensures sum { value QuantKind.Int (Difference (Quantity (Quant.Int (pos 2))) (Inner (Sum (Quantity (Quant.Int (pos 3))) (Quantity (Quant.Int (pos 4)))))) ≡ Some (rigid (negsuc 4)) }
{}

/// `0pt plus 1fil - 0pt plus 2fill` has the stretch of the higher order, with its sign.
pub fn stretches()
    ensures higher { value QuantKind.Glue (Difference (Quantity (Quant.Glue (record { width = pos 0; stretch = pos 1; stretch_order = Order.Fil; shrink = pos 0; shrink_order = Order.Finite }))) (Quantity (Quant.Glue (record { width = pos 0; stretch = pos 2; stretch_order = Order.Fill; shrink = pos 0; shrink_order = Order.Finite })))) ≡ Some (record { width = pos 0; stretch = record { size = pos 2; order = Order.Fill }; shrink = record { size = pos 0; order = Order.Finite } }) }
{}

/// `7/2\relax` gives 4, with `\relax` to be put back; `(1\relax` wants a parenthesis; `50000*50000\relax`
/// overflows at its end.
pub fn readings()
    ensures value { expression QuantKind.Int (Factor (Quant.Int (pos 7)) ∷ Token (Tok.Char Cat.Other 47) ∷ Token (Tok.Char Cat.Space 32) ∷ Factor (Quant.Int (pos 2)) ∷ Token (Tok.Name 9) ∷ []) ≡ Gives (Quant.Int (pos 4)) 1 }
    ensures open { expression QuantKind.Dim (Factor (Quant.Dim (pos 7)) ∷ Token (Tok.Char Cat.Other 42) ∷ Token (Tok.Char Cat.Other 40) ∷ []) ≡ Asks (Want.Factor QuantKind.Int) }
    ensures parenthesis { expression QuantKind.Int (Token (Tok.Char Cat.Other 40) ∷ Factor (Quant.Int (pos 1)) ∷ Token (Tok.Name 9) ∷ []) ≡ Fails missing_parenthesis }
    ensures inner { expression QuantKind.Int (Factor (Quant.Int (pos 2)) ∷ Token (Tok.Char Cat.Other 45) ∷ Token (Tok.Char Cat.Other 40) ∷ Factor (Quant.Int (pos 3)) ∷ Token (Tok.Char Cat.Other 43) ∷ Factor (Quant.Int (pos 4)) ∷ Token (Tok.Char Cat.Other 41) ∷ Token (Tok.Char Cat.Other 41) ∷ []) ≡ Gives (Quant.Int (negsuc 4)) 1 }
    ensures too_great { expression QuantKind.Int (Factor (Quant.Int (pos 50000)) ∷ Token (Tok.Char Cat.Other 42) ∷ Factor (Quant.Int (pos 50000)) ∷ Token (Tok.Name 9) ∷ []) ≡ Fails overflow }
{}
