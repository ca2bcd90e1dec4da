//! What the definitions say of some addresses. Each function here does nothing: its contract is computed
//! from the definitions.

ghost use Rattle.std.specs.Prelude.{◌≡◌, pos, negsuc, None};
ghost use Rattle.tx_eqtb.specs.declared.addr.AddrKind.TheVariants as kind;
ghost use Rattle.tx_eqtb.specs.declared.meaning.Meaning.TheVariants as meaning;
ghost use Rattle.tx_eqtb.specs.Meanings.{no_glue};
ghost use Rattle.tx_format.specs.Parameters.{rigid, one_fil};
ghost use Rattle.tx_format.specs.States.{start_map, bare_map};

/// Categories: of a left brace, which is an other character at the start, of a letter, of the escape
/// character and of a tab.
pub fn categories()
    ensures brace { bare_map (record { kind = kind.CatCode; no = 123 }) ≡ meaning.Int (pos 1) }
    ensures brace_at_start { start_map (record { kind = kind.CatCode; no = 123 }) ≡ meaning.Int (pos 12) }
    ensures letter { bare_map (record { kind = kind.CatCode; no = 97 }) ≡ meaning.Int (pos 11) }
    ensures escape { bare_map (record { kind = kind.CatCode; no = 92 }) ≡ meaning.Int (pos 0) }
    ensures tab { bare_map (record { kind = kind.CatCode; no = 9 }) ≡ meaning.Int (pos 10) }
    ensures no_byte { bare_map (record { kind = kind.CatCode; no = 256 }) ≡ meaning.Int (pos 0) }
{}

/// The other codes of letters, digits and points.
pub fn codes()
    ensures lower { bare_map (record { kind = kind.LcCode; no = 65 }) ≡ meaning.Int (pos 97) }
    ensures upper { bare_map (record { kind = kind.UcCode; no = 122 }) ≡ meaning.Int (pos 90) }
    ensures no_letter { bare_map (record { kind = kind.UcCode; no = 48 }) ≡ meaning.Int (pos 0) }
    ensures capital { bare_map (record { kind = kind.SfCode; no = 65 }) ≡ meaning.Int (pos 999) }
    ensures small { bare_map (record { kind = kind.SfCode; no = 97 }) ≡ meaning.Int (pos 1000) }
    ensures letter { bare_map (record { kind = kind.MathCode; no = 97 }) ≡ meaning.Int (pos 29025) }
    ensures digit { bare_map (record { kind = kind.MathCode; no = 48 }) ≡ meaning.Int (pos 28720) }
    ensures plus { bare_map (record { kind = kind.MathCode; no = 43 }) ≡ meaning.Int (pos 43) }
    ensures point { bare_map (record { kind = kind.DelCode; no = 46 }) ≡ meaning.Int (pos 0) }
    ensures bracket { bare_map (record { kind = kind.DelCode; no = 40 }) ≡ meaning.Int (negsuc 0) }
{}

/// Parameters: `\pretolerance`, `\tolerance`, `\year`, `\newlinechar`, `\hfuzz`, `\hsize`, `\baselineskip`
/// and `\parfillskip`.
pub fn parameters()
    ensures pretolerance { bare_map (record { kind = kind.IntParam; no = 0 }) ≡ meaning.Int (pos 100) }
    ensures tolerance { bare_map (record { kind = kind.IntParam; no = 1 }) ≡ meaning.Int (pos 200) }
    ensures tolerance_at_start { start_map (record { kind = kind.IntParam; no = 1 }) ≡ meaning.Int (pos 10000) }
    ensures year { bare_map (record { kind = kind.IntParam; no = 21 }) ≡ meaning.Int (pos 1776) }
    ensures newlinechar { bare_map (record { kind = kind.IntParam; no = 29 }) ≡ meaning.Int (negsuc 0) }
    ensures hfuzz { bare_map (record { kind = kind.DimenParam; no = 0 }) ≡ meaning.Dim (pos 6554) }
    ensures hsize { bare_map (record { kind = kind.DimenParam; no = 4 }) ≡ meaning.Dim (pos 22609920) }
    ensures hsize_at_start { start_map (record { kind = kind.DimenParam; no = 4 }) ≡ meaning.Dim (pos 0) }
    ensures baselineskip { bare_map (record { kind = kind.GlueParam; no = 0 }) ≡ meaning.Glue (rigid 12) }
    ensures parfillskip { bare_map (record { kind = kind.GlueParam; no = 14 }) ≡ meaning.Glue one_fil }
    ensures parskip { bare_map (record { kind = kind.GlueParam; no = 2 }) ≡ meaning.Glue no_glue }
{}

/// Names, registers and the font.
pub fn others()
    ensures first { bare_map (record { kind = kind.Name; no = 0 }) ≡ meaning.Prim 0 }
    ensures last { bare_map (record { kind = kind.Name; no = 296 }) ≡ meaning.Prim 296 }
    ensures past { bare_map (record { kind = kind.Name; no = 297 }) ≡ meaning.Undefined }
    ensures active { bare_map (record { kind = kind.Active; no = 126 }) ≡ meaning.Undefined }
    ensures count { bare_map (record { kind = kind.Count; no = 1 }) ≡ meaning.Int (pos 0) }
    ensures dimen { bare_map (record { kind = kind.Dimen; no = 1 }) ≡ meaning.Dim (pos 0) }
    ensures void { bare_map (record { kind = kind.Box; no = 255 }) ≡ meaning.Held None }
    ensures font { bare_map (record { kind = kind.CurrentFont; no = 0 }) ≡ meaning.Font 0 }
{}
