//! What the definitions say of some texts. Each function here does nothing: its contract is computed
//! from the definitions.

ghost use Rattle.std.specs.Prelude.{◌≡◌, ◌∷◌, ◌++◌, [], codes, pos, negsuc, true, false};
ghost use Rattle.tx_num.specs.declared.glue.Order.{Order};
ghost use Rattle.tx_num.specs.declared.glue.GlueSpec.{GlueSpec};
ghost use Rattle.tx_num.specs.declared.quantities.Want.{Want};
ghost use Rattle.tx_num.specs.declared.quantities.Quant.{Quant};
ghost use Rattle.tx_quant.specs.Items.{Letter, Quantity, Asks, Gives, Fails};
ghost use Rattle.tx_quant.specs.Typed.{typed};
ghost use Rattle.tx_quant.specs.Errors.{missing_number, number_too_big, improper_constant, no_unit, no_math_unit, too_infinite, dimension_too_large, incompatible_units};
ghost use Rattle.tx_quant.specs.Keywords.{keyword};
ghost use Rattle.tx_quant.specs.Numbers.{number};
ghost use Rattle.tx_quant.specs.Dimensions.{dimension_value};
ghost use Rattle.tx_quant.specs.Glues.{glue_value};
ghost use Rattle.tx_quant.specs.declared.keyword.KeySet.{KeySet};

/// Keywords are looked for without case, behind spaces that are used.
pub fn keywords()
    ensures by { keyword KeySet.By (typed (codes " bY")) ≡ Gives 0 0 }
    ensures spread { keyword KeySet.Spec (typed (codes "spread")) ≡ Gives 1 0 }
    ensures open { keyword KeySet.Spec (typed (codes "sprea")) ≡ Asks Want.Expanded 0 }
    ensures missing { keyword KeySet.Rule (typed (codes "  heix")) ≡ Gives 255 4 }
    ensures blank { keyword KeySet.Plus (typed (codes "p l")) ≡ Gives 255 2 }
{}

/// Numbers in digits.
pub fn digits()
    ensures decimal { number (typed (codes "- -12 ")) ≡ Gives (pos 12) 0 }
    ensures negative { number (typed (codes "-1x")) ≡ Gives (negsuc 0) 1 }
    ensures octal { number (typed (codes "'178")) ≡ Gives (pos 15) 1 }
    ensures hexadecimal { number (typed (codes "\"FG")) ≡ Gives (pos 15) 1 }
    ensures largest { number (typed (codes "2147483647 ")) ≡ Gives (pos 2147483647) 0 }
    ensures open { number (typed (codes "2147483647")) ≡ Asks Want.Expanded 0 }
    ensures too_big { number (typed (codes "2147483648")) ≡ Fails number_too_big }
    ensures missing { number (typed (codes "+x")) ≡ Fails missing_number }
{}

/// The code of a character after a backquote.
pub fn characters()
    ensures plain { number (typed (codes "`")) ≡ Asks Want.Plain 0 }
    ensures code { number (typed (codes "`") ++ Letter (Some 97) ∷ typed (codes " ")) ≡ Gives (pos 97) 0 }
    ensures improper { number (typed (codes "`") ++ Letter None ∷ []) ≡ Fails improper_constant }
{}

/// Dimensions, where one em is ten points and one ex is four.
pub fn dimensions()
    ensures inch { dimension_value false (pos 655360) (pos 262144) (typed (codes "1in ")) ≡ Gives (pos 4736286) 0 }
    ensures cut { dimension_value false (pos 655360) (pos 262144) (typed (codes "-.1TRUE bp,")) ≡ Gives (negsuc 6577) 1 }
    ensures comma { dimension_value false (pos 655360) (pos 262144) (typed (codes "- 1,5 em ")) ≡ Gives (negsuc 983039) 0 }
    ensures point { dimension_value false (pos 655360) (pos 262144) (typed (codes ".ex ")) ≡ Gives (pos 0) 0 }
    ensures scaled { dimension_value false (pos 655360) (pos 262144) (typed (codes "7.9sp ")) ≡ Gives (pos 7) 0 }
    ensures open { dimension_value false (pos 655360) (pos 262144) (typed (codes "1pt")) ≡ Asks Want.Expanded 0 }
    ensures largest { dimension_value false (pos 655360) (pos 262144) (typed (codes "16383.99999pt ")) ≡ Gives (pos 1073741823) 0 }
    ensures too_large { dimension_value false (pos 655360) (pos 262144) (typed (codes "16384pt ")) ≡ Fails dimension_too_large }
    ensures too_big { dimension_value false (pos 655360) (pos 262144) (typed (codes "2147483648")) ≡ Fails number_too_big }
    ensures missing { dimension_value false (pos 655360) (pos 262144) (typed (codes "-'")) ≡ Fails missing_number }
    ensures no_unit { dimension_value false (pos 655360) (pos 262144) (typed (codes "1p t")) ≡ Fails no_unit }
    ensures math { dimension_value true (pos 0) (pos 0) (typed (codes "1mu ")) ≡ Gives (pos 65536) 0 }
    ensures no_math_unit { dimension_value true (pos 0) (pos 0) (typed (codes "1mm")) ≡ Fails no_math_unit }
    ensures internal { dimension_value false (pos 0) (pos 0) (typed (codes "-") ++ Quantity (Quant.Dim (pos 3)) ∷ []) ≡ Gives (negsuc 2) 0 }
    ensures factor { dimension_value false (pos 0) (pos 0) (Quantity (Quant.Int (negsuc 2)) ∷ typed (codes "sp ")) ≡ Gives (negsuc 2) 0 }
    ensures internal_unit { dimension_value false (pos 0) (pos 0) (typed (codes ".5") ++ Quantity (Quant.Dim (negsuc 2)) ∷ []) ≡ Gives (negsuc 0) 0 }
    ensures incompatible { dimension_value true (pos 0) (pos 0) (Quantity (Quant.Dim (pos 3)) ∷ []) ≡ Fails incompatible_units }
{}

/// Glue. A token that is put back stands twice.
pub fn glue()
    ensures width { glue_value false (pos 0) (pos 0) (typed (codes "1ptx")) ≡ Asks Want.Expanded 1 }
    ensures rigid { glue_value false (pos 0) (pos 0) (typed (codes "1ptxxx")) ≡ Gives (record { width = pos 65536; stretch = pos 0; stretch_order = Order.Finite; shrink = pos 0; shrink_order = Order.Finite }) 1 }
    ensures stretching { glue_value false (pos 0) (pos 0) (typed (codes "1pt plus -1fil lmmminus 1.5ptx")) ≡ Gives (record { width = pos 65536; stretch = negsuc 65535; stretch_order = Order.Fill; shrink = pos 98304; shrink_order = Order.Finite }) 1 }
    ensures missing { glue_value false (pos 0) (pos 0) (typed (codes "1pt pl1")) ≡ Asks Want.Expanded 3 }
    ensures too_infinite { glue_value false (pos 0) (pos 0) (typed (codes "0pt plus 1fillll")) ≡ Fails too_infinite }
    ensures no_unit { glue_value false (pos 0) (pos 0) (typed (codes "1f")) ≡ Fails no_unit }
    ensures math { glue_value true (pos 0) (pos 0) (typed (codes "1mu plus 1p")) ≡ Fails no_math_unit }
    ensures signed { (g : GlueSpec) → glue_value false (pos 0) (pos 0) (typed (codes "-") ++ Quantity (Quant.Glue g) ∷ []) ≡ Asks Want.Expanded 0 }
    ensures internal { (g : GlueSpec) → glue_value false (pos 0) (pos 0) (Quantity (Quant.Glue g) ∷ []) ≡ Gives g 0 }
    ensures incompatible { (g : GlueSpec) → glue_value false (pos 0) (pos 0) (Quantity (Quant.Mu g) ∷ []) ≡ Fails incompatible_units }
{}
