//! Each name of the primitives by family, worked lines of errors, and a call of each function.
use crate::errors::{ERROR_COUNT, HoleValues, error_table, error_text};
use crate::primitives::{
    Command, Family, PRIMITIVE_COUNT, PRIMITIVES, Primitive, place_named, primitive_at,
    primitive_named,
};
use crate::{Key, TableRow, lawful};
use std::process::Abort;
use std::test::Fail;

const EXPANDABLE: &str = "
    csname expandafter noexpand string number romannumeral meaning the jobname fontname input
    endinput topmark firstmark botmark splitfirstmark splitbotmark unexpanded detokenize if
    ifcat ifx ifnum ifdim ifodd ifvmode ifhmode ifmmode ifinner ifvoid ifhbox ifvbox iftrue
    iffalse ifcase ifdefined ifcsname iffontchar or else fi unless
";

const ASSIGNMENT: &str = "
    def edef gdef xdef let futurelet chardef mathchardef countdef dimendef skipdef muskipdef
    toksdef advance multiply divide global long protected count dimen skip muskip toks setbox
    catcode lccode uccode sfcode mathcode delcode font fontdimen hyphenchar skewchar textfont
    scriptfont scriptscriptfont nullfont parshape hyphenation patterns wd ht dp spacefactor
    prevdepth prevgraf deadcycles insertpenalties pagegoal pagetotal pagestretch pagefilstretch
    pagefillstretch pagefilllstretch pageshrink pagedepth numexpr dimexpr glueexpr muexpr
    lastpenalty lastkern lastskip badness inputlineno currentgrouplevel eTeXversion
";

const COMMAND: &str = "
    relax par end dump endcsname afterassignment aftergroup begingroup endgroup message
    errmessage special lowercase uppercase ignorespaces hbox vbox vtop box copy lastbox vsplit
    unhbox unhcopy unvbox unvcopy raise lower moveleft moveright shipout hrule vrule hskip hfil
    hfill hss hfilneg vskip vfil vfill vss vfilneg kern penalty unpenalty unkern unskip mark
    insert vadjust indent noindent char accent discretionary noboundary halign cr crcr noalign
    omit span vcenter - /
";

const MATH: &str = "
    mathchar mathord mathop mathbin mathrel mathopen mathclose mathpunct mathinner overline
    underline radical mathaccent delimiter left right over atop above overwithdelims
    atopwithdelims abovewithdelims limits nolimits displaylimits mathchoice displaystyle
    textstyle scriptstyle scriptscriptstyle nonscript mskip mkern eqno leqno
";

const INTEGER_PARAMETER: &str = "
    pretolerance tolerance linepenalty hyphenpenalty exhyphenpenalty clubpenalty widowpenalty
    displaywidowpenalty brokenpenalty binoppenalty relpenalty predisplaypenalty
    postdisplaypenalty interlinepenalty doublehyphendemerits finalhyphendemerits adjdemerits
    delimiterfactor time day month year hbadness vbadness fam escapechar defaulthyphenchar
    defaultskewchar endlinechar newlinechar lefthyphenmin righthyphenmin uchyph globaldefs
    maxdeadcycles hangafter floatingpenalty outputpenalty
";

const DIMENSION_PARAMETER: &str = "
    hfuzz vfuzz overfullrule emergencystretch hsize vsize maxdepth splitmaxdepth boxmaxdepth
    lineskiplimit delimitershortfall nulldelimiterspace scriptspace mathsurround predisplaysize
    displaywidth displayindent parindent hangindent hoffset voffset
";

const GLUE_PARAMETER: &str = "
    baselineskip lineskip parskip abovedisplayskip belowdisplayskip abovedisplayshortskip
    belowdisplayshortskip leftskip rightskip topskip splittopskip tabskip spaceskip xspaceskip
    parfillskip thinmuskip medmuskip thickmuskip
";

const LIST_PARAMETER: &str = "
    output everypar everymath everydisplay everyhbox everyvbox everycr
";

/// The number of a primitive in its family.
fn number_of(primitive: Primitive) -> usize {
    match primitive {
        Primitive::Expandable(member) => member as usize,
        Primitive::Assignment(member) => member as usize,
        Primitive::Command(member) => member as usize,
        Primitive::Math(member) => member as usize,
        Primitive::IntegerParameter(member) => member as usize,
        Primitive::DimensionParameter(member) => member as usize,
        Primitive::GlueParameter(member) => member as usize,
        Primitive::ListParameter(member) => member as usize,
    }
}

/// Each name is that of a primitive of this family, in the order of the family. Gives how many there are.
fn check_family(rt: &impl Abort, names: &str, family: Family) -> usize {
    let mut count: usize = 0;
    for name in names.split_whitespace() {
        let primitive = primitive_named(name.as_bytes()).expect(rt, name);
        assert_eq!(rt; primitive.family(), family, "{name}");
        assert_eq!(rt; number_of(primitive), count, "{name}");
        count = count.saturating_add(1);
    }
    count
}

#[test]
fn finds_each_name_with_its_family(rt: HostRuntime) {
    let control_space = primitive_named(b" ");
    assert_eq!(rt;
        control_space,
        Some(Primitive::Command(Command::ControlSpace))
    );
    let counts = [
        1,
        check_family(&rt, EXPANDABLE, Family::Expandable),
        check_family(&rt, ASSIGNMENT, Family::Assignment),
        check_family(&rt, COMMAND, Family::Command),
        check_family(&rt, MATH, Family::Math),
        check_family(&rt, INTEGER_PARAMETER, Family::IntegerParameter),
        check_family(&rt, DIMENSION_PARAMETER, Family::DimensionParameter),
        check_family(&rt, GLUE_PARAMETER, Family::GlueParameter),
        check_family(&rt, LIST_PARAMETER, Family::ListParameter),
    ];
    assert_eq!(rt;
        counts
            .iter()
            .fold(0_usize, |sum, count| sum.saturating_add(*count)),
        PRIMITIVE_COUNT
    );
}

#[test]
fn finds_no_other_name(rt: HostRuntime) {
    for name in [
        "",
        "csnam",
        "csnames",
        "CSNAME",
        "leaders",
        "zzz",
        "abcdefghijklmnopqrstuvwxy",
    ] {
        assert_eq!(rt; primitive_named(name.as_bytes()), None, "{name}");
    }
}

#[test]
fn places_are_those_of_the_table(rt: HostRuntime) {
    for (place, row) in PRIMITIVES.iter().enumerate() {
        assert_eq!(rt; place_named(row.key.text()), Some(place as u16));
        assert_eq!(rt; primitive_at(place as u16), Some(row.row));
    }
    assert_eq!(rt; primitive_at(PRIMITIVE_COUNT as u16), None);
    assert_eq!(rt; place_named(b" "), Some(0));
    assert_eq!(rt; place_named(b"year"), Some(PRIMITIVE_COUNT as u16 - 1));
}

/// A row whose key has the two bytes at its front.
fn row(len: u8, first: u8, second: u8) -> TableRow<u8> {
    let mut bytes = [0; 24];
    bytes[0] = first;
    bytes[1] = second;
    TableRow {
        key: Key { len, bytes },
        row: first,
    }
}

#[test]
fn lawful_tells_tables(rt: HostRuntime) {
    assert!(rt; lawful::<0, u8>(&[]));
    assert!(rt; lawful::<3, u8>(&[row(0, 0, 0), row(1, 7, 0), row(2, 7, 0)]));
    assert!(rt; !lawful::<2, u8>(&[row(1, 7, 0)]));
    assert!(rt; !lawful::<1, u8>(&[row(1, 7, 9)]));
    assert!(rt; !lawful::<1, u8>(&[row(25, 7, 9)]));
    assert!(rt; !lawful::<2, u8>(&[row(1, 7, 0), row(1, 7, 0)]));
    assert!(rt; !lawful::<2, u8>(&[row(1, 8, 0), row(2, 7, 9)]));
}

#[test]
fn error_lines(rt: HostRuntime) -> Result<(), Fail> {
    let values = HoleValues {
        meaning: br"\unpenalty",
        name: br"\a",
        number: b"25",
        limit: b"127",
        mode: b"vertical mode",
        file: b"cmr10",
        character: b"A",
        message: b"text",
    };
    for (number, case, line) in [
        (1, 0, "Undefined control sequence."),
        (18, 0, "Invalid code (25), should be in the range 0..127."),
        (20, 0, r"You can't use `\unpenalty' in vertical mode."),
        (20, 2, r"You can't use `\unless' before `\unpenalty'."),
        (30, 0, r"Paragraph ended before \a was complete."),
        (32, 0, r"Incomplete \a; all text was ignored after line 25."),
        (41, 0, "Output loop---25 consecutive dead cycles."),
        (52, 0, r"\textfont 25 is undefined (character A)."),
        (54, 1, r"Font \a=cmr10 not loadable: Bad metric (TFM) file."),
        (57, 3, "TeX capacity exceeded, sorry [grouping levels=255]."),
        (62, 0, "text."),
    ] {
        let text = error_text(number, case).ok_or(line)?;
        let filled = text.filled(rt.alloc(), &values)?;
        assert_eq!(rt; filled.as_slice(), line.as_bytes());
    }
    Ok(())
}

#[test]
fn there_are_no_other_errors(rt: HostRuntime) {
    for (number, case) in [(0, 0), (4, 3), (23, 0), (63, 1), (64, 0)] {
        assert!(rt; error_text(number, case).is_none());
    }
    assert_eq!(rt; error_table().place(&[63, 0]), Some(ERROR_COUNT - 1));
}
