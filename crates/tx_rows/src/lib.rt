//! Worked regions, computed from the definitions to the bytes of the reply.
#![tactic(auto)]

ghost use lib.Chars.{codes};
ghost use Rattle.std.specs.Prelude.{◌++◌, ◌∷◌, []};
ghost use Rattle.tx_rows.specs.Row.{Comes};

/// Texts that do nothing: spaces, `\relax`, `\par` and empty lines, within a budget of one step or a few.
pub fn regions_that_are_done()
    ensures empty { Comes [] 100 (codes "DONE 0 0 0 0" ++ 10 ∷ []) }
    ensures one_step { Comes (92 ∷ codes "relax") 1 (codes "DONE 1 0 0 0" ++ 10 ∷ []) }
    ensures empty_line { Comes (10 ∷ []) 100 (codes "DONE 1 0 0 0" ++ 10 ∷ []) }
    ensures blanks { Comes (codes "  " ++ 92 ∷ codes "par  " ++ 10 ∷ codes " ") 100 (codes "DONE 2 0 0 0" ++ 10 ∷ []) }
{}

/// A step is wanted after the budget was spent.
pub fn regions_that_are_spent()
    ensures { Comes (92 ∷ codes "relax" ++ 92 ∷ codes "relax") 1 (codes "SPENT 1 0 0 0" ++ 10 ∷ []) }
{}

/// Errors, with the step of the token at fault and the number of its line. An invalid byte costs no step.
pub fn regions_that_fail()
    ensures letter { Comes (codes "x") 1000 (codes "FAIL 1 0 0 37" ++ 10 ∷ codes "! This command is not built yet." ++ 10 ∷ codes "l.1" ++ 10 ∷ []) }
    ensures byte { Comes (127 ∷ []) 1000 (codes "FAIL 0 0 0 47" ++ 10 ∷ codes "! Text line contains an invalid character." ++ 10 ∷ codes "l.1" ++ 10 ∷ []) }
    ensures byte_in_name { Comes (10 ∷ 92 ∷ codes "relax^^7f") 1000 (codes "FAIL 2 0 0 47" ++ 10 ∷ codes "! Text line contains an invalid character." ++ 10 ∷ codes "l.2" ++ 10 ∷ []) }
    ensures name { Comes (10 ∷ 10 ∷ 92 ∷ codes "zz") 1000 (codes "FAIL 3 0 0 34" ++ 10 ∷ codes "! Undefined control sequence." ++ 10 ∷ codes "l.3" ++ 10 ∷ []) }
{}

/// Messages: the text is expanded, a name prints with the escape character and a blank, and braces within
/// it stand in pairs.
pub fn messages()
    ensures names { Comes (92 ∷ codes "message{a{b}" ++ 92 ∷ codes "relax" ++ 92 ∷ codes "par c}") 1000 (codes "DONE 11 0 0 18" ++ 10 ∷ codes "a{b}" ++ 92 ∷ codes "relax " ++ 92 ∷ codes "par c" ++ 10 ∷ []) }
    ensures undefined { Comes (92 ∷ codes "message{" ++ 92 ∷ codes "zz}") 1000 (codes "FAIL 3 0 0 34" ++ 10 ∷ codes "! Undefined control sequence." ++ 10 ∷ codes "l.1" ++ 10 ∷ []) }
    ensures without_brace { Comes (92 ∷ codes "message x") 1000 (codes "FAIL 2 0 0 37" ++ 10 ∷ codes "! This command is not built yet." ++ 10 ∷ codes "l.1" ++ 10 ∷ []) }
    ensures unclosed { Comes (92 ∷ codes "message{x") 1000 (codes "FAIL 4 0 0 37" ++ 10 ∷ codes "! This command is not built yet." ++ 10 ∷ codes "l.1" ++ 10 ∷ []) }
{}

/// Definitions: one in a group is undone at its end. A macro may stand for itself, and then every step is
/// spent.
pub fn definitions()
    ensures in_group { Comes (92 ∷ codes "def" ++ 92 ∷ codes "a{x}{" ++ 92 ∷ codes "def" ++ 92 ∷ codes "a{y}" ++ 92 ∷ codes "message{" ++ 92 ∷ codes "a}}" ++ 92 ∷ codes "message{" ++ 92 ∷ codes "a}") 100 (codes "DONE 23 0 0 4" ++ 10 ∷ codes "y" ++ 10 ∷ codes "x" ++ 10 ∷ []) }
    ensures for_ever { Comes (92 ∷ codes "def" ++ 92 ∷ codes "a{" ++ 92 ∷ codes "a}" ++ 92 ∷ codes "a") 20 (codes "SPENT 20 0 0 0" ++ 10 ∷ []) }
    ensures of_character { Comes (92 ∷ codes "def a{}") 1000 (codes "FAIL 2 0 0 37" ++ 10 ∷ codes "! This command is not built yet." ++ 10 ∷ codes "l.1" ++ 10 ∷ []) }
    ensures with_parameter { Comes (92 ∷ codes "def" ++ 92 ∷ codes "a x{}") 1000 (codes "FAIL 3 0 0 37" ++ 10 ∷ codes "! This command is not built yet." ++ 10 ∷ codes "l.1" ++ 10 ∷ []) }
{}

/// Groups: a right brace closes one that is open, and none is open at the region's end.
pub fn groups()
    ensures closed { Comes (codes "{{}}") 1000 (codes "DONE 5 0 0 0" ++ 10 ∷ []) }
    ensures none_open { Comes (codes "}") 1000 (codes "FAIL 1 0 0 20" ++ 10 ∷ codes "! Too many }'s." ++ 10 ∷ codes "l.1" ++ 10 ∷ []) }
    ensures left_open { Comes (codes "{") 1000 (codes "FAIL 2 0 0 46" ++ 10 ∷ codes "! Region ended inside a group at level 1." ++ 10 ∷ codes "l.1" ++ 10 ∷ []) }
    ensures two_left_open { Comes (codes "{" ++ 10 ∷ codes "{") 1000 (codes "FAIL 4 0 0 46" ++ 10 ∷ codes "! Region ended inside a group at level 2." ++ 10 ∷ codes "l.2" ++ 10 ∷ []) }
{}

/// Bytes that two superscripts write, in a text, in a name and as what they write again; comments, and
/// bytes that are ignored.
pub fn bytes_of_lines()
    ensures hex { Comes (92 ∷ codes "message{^^41^^J}") 1000 (codes "DONE 6 0 0 5" ++ 10 ∷ codes "A^^J" ++ 10 ∷ []) }
    ensures invalid { Comes (codes "^^7f") 1000 (codes "FAIL 0 0 0 47" ++ 10 ∷ codes "! Text line contains an invalid character." ++ 10 ∷ codes "l.1" ++ 10 ∷ []) }
    ensures in_name { Comes (codes "^^5crel^^61x") 1000 (codes "DONE 1 0 0 0" ++ 10 ∷ []) }
    ensures again { Comes (92 ∷ codes "message{^^5e^41^}") 1000 (codes "DONE 6 0 0 3" ++ 10 ∷ codes "A^" ++ 10 ∷ []) }
    ensures ignored { Comes (0 ∷ 92 ∷ codes "relax" ++ 0 ∷ 32 ∷ 0 ∷ []) 1 (codes "DONE 1 0 0 0" ++ 10 ∷ []) }
    ensures comment { Comes (92 ∷ codes "relax% " ++ 92 ∷ codes "zz" ++ 10 ∷ 92 ∷ codes "relax") 1000 (codes "DONE 2 0 0 0" ++ 10 ∷ []) }
    ensures characters { Comes (92 ∷ codes "message{$&#_^~}") 1000 (codes "DONE 10 0 0 8" ++ 10 ∷ codes "$&##_^~" ++ 10 ∷ []) }
{}
