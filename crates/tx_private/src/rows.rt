//! Worked regions, computed from the definitions to the bytes of the reply.

ghost use lib.Chars.{codes};
ghost use Rattle.std.specs.Prelude.{◌++◌, ◌∷◌, []};
ghost use Rattle.tx_private.specs.Row.{Comes, ComesIn, repeated};

/// Registers: a list keeps its tokens, and a name may stand for a register.
pub fn registers()
    ensures greatest { Comes (92 ∷ codes "count1=2147483647") (codes "DONE 15 0 0 0" ++ 10 ∷ []) }
    ensures too_big { Comes (92 ∷ codes "count1=2147483648") (codes "FAIL 14 0 0 22" ++ 10 ∷ codes "! Number too big." ++ 10 ∷ codes "l.1" ++ 10 ∷ []) }
    ensures lists { Comes (92 ∷ codes "toks0{a}{" ++ 92 ∷ codes "toks0{b}" ++ 92 ∷ codes "global" ++ 92 ∷ codes "toks0{c}" ++ 92 ∷ codes "toks0{d}}" ++ 92 ∷ codes "message{" ++ 92 ∷ codes "the" ++ 92 ∷ codes "toks0}") (codes "DONE 39 0 0 2" ++ 10 ∷ codes "c" ++ 10 ∷ []) }
    ensures list_of_list { Comes (92 ∷ codes "toks1={a}" ++ 92 ∷ codes "toks0=" ++ 92 ∷ codes "toks1 " ++ 92 ∷ codes "message{" ++ 92 ∷ codes "the" ++ 92 ∷ codes "toks0}") (codes "DONE 22 0 0 2" ++ 10 ∷ codes "a" ++ 10 ∷ []) }
    ensures named { Comes (92 ∷ codes "countdef" ++ 92 ∷ codes "a=1" ++ 92 ∷ codes "a=5 " ++ 92 ∷ codes "message{" ++ 92 ∷ codes "the" ++ 92 ∷ codes "count1}") (codes "DONE 17 0 0 2" ++ 10 ∷ codes "5" ++ 10 ∷ []) }
    ensures advanced { Comes (92 ∷ codes "count0=5" ++ 92 ∷ codes "advance" ++ 92 ∷ codes "count0 by -7 " ++ 92 ∷ codes "message{" ++ 92 ∷ codes "the" ++ 92 ∷ codes "count0}") (codes "DONE 24 0 0 3" ++ 10 ∷ codes "-2" ++ 10 ∷ []) }
    ensures codes { Comes (92 ∷ codes "message{" ++ 92 ∷ codes "the" ++ 92 ∷ codes "catcode37," ++ 92 ∷ codes "the" ++ 92 ∷ codes "uccode97 }") (codes "DONE 15 0 0 6" ++ 10 ∷ codes "14,65" ++ 10 ∷ []) }
    ensures code_too_great { Comes (92 ∷ codes "catcode37=16 ") (codes "FAIL 8 0 0 55" ++ 10 ∷ codes "! Invalid code (16), should be in the range 0..15." ++ 10 ∷ codes "l.1" ++ 10 ∷ []) }
{}

/// Dimensions: exact, and cut toward zero.
pub fn dimensions()
    ensures divided { Comes (92 ∷ codes "dimen0=1pt " ++ 92 ∷ codes "divide" ++ 92 ∷ codes "dimen0 by 3 " ++ 92 ∷ codes "message{" ++ 92 ∷ codes "the" ++ 92 ∷ codes "dimen0}") (codes "DONE 25 0 0 10" ++ 10 ∷ codes "0.33333pt" ++ 10 ∷ []) }
    ensures too_large { Comes (92 ∷ codes "dimen0=16384pt") (codes "FAIL 12 0 0 27" ++ 10 ∷ codes "! Dimension too large." ++ 10 ∷ codes "l.1" ++ 10 ∷ []) }
    ensures largest { Comes (92 ∷ codes "dimen0=16383.99999pt") (codes "DONE 18 0 0 0" ++ 10 ∷ []) }
    ensures space_before_unit { Comes (92 ∷ codes "dimen0=1 pt" ++ 92 ∷ codes "relax") (codes "DONE 10 0 0 0" ++ 10 ∷ []) }
    ensures hexadecimal { Comes (92 ∷ codes "dimen0=" ++ 34 ∷ codes "10pt") (codes "FAIL 5 0 0 39" ++ 10 ∷ codes "! Missing number, treated as zero." ++ 10 ∷ codes "l.1" ++ 10 ∷ []) }
    ensures integer_as_unit { Comes (92 ∷ codes "count1=2 " ++ 92 ∷ codes "dimen0=2" ++ 92 ∷ codes "count1") (codes "FAIL 14 0 0 45" ++ 10 ∷ codes "! Illegal unit of measure (pt inserted)." ++ 10 ∷ codes "l.1" ++ 10 ∷ []) }
{}

/// Glue: after a sign the width alone counts.
pub fn glue()
    ensures sign { Comes (92 ∷ codes "skip1=1pt plus 2pt " ++ 92 ∷ codes "skip0=-" ++ 92 ∷ codes "skip1 " ++ 92 ∷ codes "message{" ++ 92 ∷ codes "the" ++ 92 ∷ codes "skip0}") (codes "DONE 36 0 0 7" ++ 10 ∷ codes "-1.0pt" ++ 10 ∷ []) }
    ensures infinite { Comes (92 ∷ codes "skip0=1pt plus 1fil l" ++ 92 ∷ codes "relax") (codes "DONE 23 0 0 0" ++ 10 ∷ []) }
    ensures math_glue { Comes (92 ∷ codes "count0=" ++ 92 ∷ codes "muskip0") (codes "FAIL 7 0 0 31" ++ 10 ∷ codes "! Incompatible glue units." ++ 10 ∷ codes "l.1" ++ 10 ∷ []) }
    ensures list { Comes (92 ∷ codes "count0=" ++ 92 ∷ codes "toks0") (codes "FAIL 5 0 0 39" ++ 10 ∷ codes "! Missing number, treated as zero." ++ 10 ∷ codes "l.1" ++ 10 ∷ []) }
{}

/// Groups: a global assignment changes all levels.
pub fn groups()
    ensures global { Comes (codes "{" ++ 92 ∷ codes "global" ++ 92 ∷ codes "def" ++ 92 ∷ codes "a{x}" ++ 92 ∷ codes "def" ++ 92 ∷ codes "a{y}}" ++ 92 ∷ codes "message{" ++ 92 ∷ codes "a}") (codes "DONE 19 0 0 2" ++ 10 ∷ codes "x" ++ 10 ∷ []) }
    ensures after { Comes (92 ∷ codes "begingroup" ++ 92 ∷ codes "aftergroup" ++ 92 ∷ codes "relax" ++ 92 ∷ codes "endgroup") (codes "DONE 5 0 0 0" ++ 10 ∷ []) }
    ensures mixed { Comes (codes "{" ++ 92 ∷ codes "endgroup") (codes "FAIL 2 0 0 26" ++ 10 ∷ codes "! Missing } inserted." ++ 10 ∷ codes "l.1" ++ 10 ∷ []) }
    ensures most { ComesIn 1100 (repeated 254 (codes "{") ++ repeated 254 (codes "}")) (codes "DONE 509 0 0 0" ++ 10 ∷ []) }
    ensures too_many { ComesIn 600 (repeated 255 (codes "{")) (codes "FAIL 255 0 0 58" ++ 10 ∷ codes "! TeX capacity exceeded, sorry [grouping levels=255]." ++ 10 ∷ codes "l.1" ++ 10 ∷ []) }
{}

/// Commands, and parameters that change how lines and logs are made.
pub fn commands()
    ensures ignored_spaces { Comes (92 ∷ codes "ignorespaces" ++ 92 ∷ codes "relax") (codes "DONE 3 0 0 0" ++ 10 ∷ []) }
    ensures end { Comes (92 ∷ codes "end" ++ 92 ∷ codes "zz") (codes "DONE 1 0 0 0" ++ 10 ∷ []) }
    ensures new_lines { Comes (92 ∷ codes "newlinechar=101 " ++ 92 ∷ codes "zz") (codes "FAIL 7 0 0 34" ++ 10 ∷ codes "! Und" ++ 10 ∷ codes "fin" ++ 10 ∷ codes "d control s" ++ 10 ∷ codes "qu" ++ 10 ∷ codes "nc" ++ 10 ∷ codes "." ++ 10 ∷ codes "l.1" ++ 10 ∷ []) }
    ensures line_ends { Comes (92 ∷ codes "endlinechar=-1 " ++ 92 ∷ codes "relax" ++ 10 ∷ 92 ∷ []) (codes "FAIL 7 0 0 34" ++ 10 ∷ codes "! Undefined control sequence." ++ 10 ∷ codes "l.2" ++ 10 ∷ []) }
    ensures upper_case { Comes (92 ∷ codes "uppercase{" ++ 92 ∷ codes "message{ab}}") (codes "DONE 14 0 0 3" ++ 10 ∷ codes "AB" ++ 10 ∷ []) }
    ensures active_character { Comes (92 ∷ codes "catcode122=13 " ++ 92 ∷ codes "def z{}" ++ 92 ∷ codes "uppercase{z}") (codes "FAIL 18 0 0 34" ++ 10 ∷ codes "! Undefined control sequence." ++ 10 ∷ codes "l.1" ++ 10 ∷ []) }
    ensures escape_character { Comes (92 ∷ codes "escapechar=33 " ++ 92 ∷ codes "the" ++ 92 ∷ codes "relax") (codes "FAIL 7 0 0 41" ++ 10 ∷ codes "! You can't use `!relax' after " ++ 92 ∷ codes "the." ++ 10 ∷ codes "l.1" ++ 10 ∷ []) }
    ensures no_register { Comes (92 ∷ codes "advance" ++ 92 ∷ codes "relax") (codes "FAIL 2 0 0 47" ++ 10 ∷ codes "! You can't use `" ++ 92 ∷ codes "relax' in vertical mode." ++ 10 ∷ codes "l.1" ++ 10 ∷ []) }
    ensures long_register { Comes (92 ∷ codes "long" ++ 92 ∷ codes "count0=1") (codes "FAIL 2 0 0 44" ++ 10 ∷ codes "! You can't use a prefix with `" ++ 92 ∷ codes "count'." ++ 10 ∷ codes "l.1" ++ 10 ∷ []) }
    ensures list_in_definition { Comes (92 ∷ codes "toks0={#}" ++ 92 ∷ codes "edef" ++ 92 ∷ codes "a{" ++ 92 ∷ codes "the" ++ 92 ∷ codes "toks0}" ++ 92 ∷ codes "message{" ++ 92 ∷ codes "meaning" ++ 92 ∷ codes "a}") (codes "DONE 31 0 0 11" ++ 10 ∷ codes "macro:->##" ++ 10 ∷ []) }
    ensures letter { Comes (92 ∷ codes "message{" ++ 92 ∷ codes "meaning A}") (codes "DONE 18 0 0 13" ++ 10 ∷ codes "the letter A" ++ 10 ∷ []) }
    ensures numeral { Comes (92 ∷ codes "message{" ++ 92 ∷ codes "romannumeral 1994 }") (codes "DONE 17 0 0 8" ++ 10 ∷ codes "mcmxciv" ++ 10 ∷ []) }
    ensures job { Comes (92 ∷ codes "message{" ++ 92 ∷ codes "jobname}") (codes "DONE 9 0 0 5" ++ 10 ∷ codes "texd" ++ 10 ∷ []) }
    ensures hanging { Comes (92 ∷ codes "hangindent=1pt " ++ 92 ∷ codes "par" ++ 92 ∷ codes "message{" ++ 92 ∷ codes "the" ++ 92 ∷ codes "hangindent}") (codes "DONE 13 0 0 6" ++ 10 ∷ codes "0.0pt" ++ 10 ∷ []) }
    ensures end_in_group { Comes (codes "{" ++ 10 ∷ 92 ∷ codes "end") (codes "FAIL 3 0 0 46" ++ 10 ∷ codes "! Region ended inside a group at level 1." ++ 10 ∷ codes "l.2" ++ 10 ∷ []) }
{}

/// Limits, of which each is told at the token that passes it.
pub fn limits()
    ensures readings { ComesIn 2100 (repeated 501 (92 ∷ codes "number") ++ codes "1") (codes "FAIL 501 0 0 63" ++ 10 ∷ codes "! TeX capacity exceeded, sorry [parameter stack size=500]." ++ 10 ∷ codes "l.1" ++ 10 ∷ []) }
    ensures name { Comes (92 ∷ repeated 1025 (codes "a")) (codes "FAIL 1 0 0 55" ++ 10 ∷ codes "! TeX capacity exceeded, sorry [buffer size=1024]." ++ 10 ∷ codes "l.1" ++ 10 ∷ []) }
{}
