//! Letters, by their codes.

ghost use Rattle.std.specs.Prelude.{◌≡◌, ℕ, Bool, map, IfOk};
ghost use Rattle.tx_eqtb.specs.Meanings.{meanings};
ghost use Rattle.tx_private.specs.Controls.{byte_for, recoded};
ghost use Rattle.tx_views.specs.Views.{viewed, all_viewed};
ghost use Rattle.tx_views.specs.Places.{table_in};
ghost use Rattle.tx_input.specs.Worlds.{IsKnown, AllKnown};
ghost use Rattle.tx_scene.specs.Scenes.{Ground, IsGround, world};

use crate::scene::Scene;
use std::alloc::AllocError;
use tx_eqtb::Frozen;
use tx_node::BoxNode;
use tx_tok::{Tok, Toks};
use tx_views::CodeTable;

impl Scene {
    /// These tokens, each character with its code in its place, where that is not 0. The only error is want of memory; a
    /// code that is not a byte's, which no assignment gives, counts as that. *TeX: The Program*, section 1289.
    pub fn recoded(
        &self,
        frozen: &Frozen<BoxNode>,
        table: CodeTable,
        tokens: &Toks,
    ) -> Result<Toks, AllocError>
        ensures recodes { IfOk result (λ out. (g : Ground) (depth : ℕ) → IsGround g self.now → all_viewed g.view out ≡ map (recoded (table_in table) (world g (meanings frozen.now) depth self.now)) (all_viewed g.view tokens.now)) }
        ensures knows { IfOk result (λ out. (known : ℕ → Bool) → AllKnown known tokens.now → AllKnown known out) }
    {
        let mut out = Vec::new(self.alloc);
        'tokens: for token in tokens.as_slice() {
            out.push(self.recoded_token(frozen, table, *token)?)?;
        }
        Ok(Toks(out))
    }

    /// A token, which has the code of its byte in its place if it is a character.
    fn recoded_token(
        &self,
        frozen: &Frozen<BoxNode>,
        table: CodeTable,
        token: Tok,
    ) -> Result<Tok, AllocError>
        ensures recodes { IfOk result (λ out. (g : Ground) (depth : ℕ) → IsGround g self.now → viewed g.view out ≡ recoded (table_in table) (world g (meanings frozen.now) depth self.now) (viewed g.view token)) }
        ensures knows { IfOk result (λ out. (known : ℕ → Bool) → IsKnown known token → IsKnown known out) }
    {
        match token {
            Tok::Char(cat, byte) => Ok(Tok::Char(cat, self.byte_for(frozen, table, byte)?)),
            Tok::Active(byte) => Ok(Tok::Active(self.byte_for(frozen, table, byte)?)),
            Tok::Name(_) | Tok::Param(_) | Tok::Stop => Ok(token),
        }
    }

    /// The code of a byte, where that is not 0, and else the byte.
    fn byte_for(
        &self,
        frozen: &Frozen<BoxNode>,
        table: CodeTable,
        byte: u8,
    ) -> Result<u8, AllocError>
        ensures { IfOk result (λ out. (g : Ground) (depth : ℕ) → IsGround g self.now → out ≡ byte_for (table_in table) (world g (meanings frozen.now) depth self.now) byte) }
    {
        let code = self.environment.code(frozen, table, byte);
        if code > 255 {
            return Err(AllocError);
        }
        if code > 0 { Ok(code as u8) } else { Ok(byte) }
    }
}
