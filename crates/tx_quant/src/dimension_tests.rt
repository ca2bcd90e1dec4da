use crate::errors::{
    DIMENSION_TOO_LARGE, INCOMPATIBLE_UNITS, MISSING_NUMBER, NO_MATH_UNIT, NO_UNIT, NUMBER_TOO_BIG,
    TOO_INFINITE,
};
use crate::tests::token;
use crate::{DimScan, GlueScan};
use std::test::Fail;
use tx_num::{Feed, GlueSpec, Order, Quant, Sp, Want};
use tx_tok::Tok;

/// One em in the tests.
const EM: Sp = Sp(655_360);

/// One ex in the tests.
const EX: Sp = Sp(-3);

/// An answer with its value in scaled points.
fn in_points(answer: Feed<Sp>) -> Feed<i32> {
    match answer {
        Feed::More(back) => Feed::More(back),
        Feed::Done(value, back) => Feed::Done(value.get(), back),
        Feed::Bad(error) => Feed::Bad(error),
        Feed::Memory => Feed::Memory,
    }
}

/// The first answer other than More to the characters of a text.
fn dimension(mu: bool, text: &str) -> Feed<i32> {
    let mut scan = DimScan::new(mu, EM, EX);
    for byte in text.as_bytes() {
        match scan.feed(token(*byte)) {
            Feed::More(_) => {}
            answer => return in_points(answer),
        }
    }
    Feed::More(0)
}

/// The same of glue. A character that is put back stands twice in the text.
fn glue(mu: bool, text: &str) -> Feed<GlueSpec> {
    let mut scan = GlueScan::new(mu, EM, EX);
    for byte in text.as_bytes() {
        match scan.feed(token(*byte)) {
            Feed::More(_) => {}
            answer => return answer,
        }
    }
    Feed::More(0)
}

/// Each unit, once, a tenth and one and a half times.
#[test]
fn units(rt: HostRuntime) -> Result<(), Fail> {
    for (text, value) in [
        ("1pt ", 65_536),
        (".1pt ", 6_554),
        ("1,5pt ", 98_304),
        ("1in ", 4_736_286),
        (".1in ", 473_657),
        ("1.5in ", 7_104_430),
        ("1pc ", 786_432),
        (".1pc ", 78_648),
        ("1.5pc ", 1_179_648),
        ("1cm ", 1_864_679),
        (".1cm ", 186_479),
        ("1.5cm ", 2_797_019),
        ("1mm ", 186_467),
        (".1mm ", 18_647),
        ("1.5mm ", 279_701),
        ("1bp ", 65_781),
        (".1bp ", 6_578),
        ("1.5bp ", 98_672),
        ("1dd ", 70_124),
        (".1dd ", 7_012),
        ("1.5dd ", 105_186),
        ("1cc ", 841_489),
        (".1cc ", 84_154),
        ("1.5cc ", 1_262_233),
    ] {
        assert_eq!(rt; dimension(false, text), Feed::Done(value, 0), "{text}");
    }
    Ok(())
}

/// The units that are no fractions of a point, and those of mathematics.
#[test]
fn other_units(rt: HostRuntime) -> Result<(), Fail> {
    for (text, value) in [
        ("1sp ", 1),
        (".1sp ", 0),
        (".9sp ", 0),
        ("1.5sp ", 1),
        ("16383.99999sp ", 16_383),
        ("1em ", 655_360),
        (".1em ", 65_540),
        ("1.5em ", 983_040),
        ("1ex ", -3),
        (".1ex ", 0),
        ("16383.99999ex ", -49_151),
        ("- -1.5 TrUe pT ", 98_304),
        ("-1.5ex ", 4),
    ] {
        assert_eq!(rt; dimension(false, text), Feed::Done(value, 0), "{text}");
    }
    for (text, value) in [
        ("1mu ", 65_536),
        (".1mu ", 6_554),
        ("1.5mu ", 98_304),
        ("16383.99999mu ", 1_073_741_823),
    ] {
        assert_eq!(rt; dimension(true, text), Feed::Done(value, 0), "{text}");
    }
    Ok(())
}

/// The ends of the range, and what is put back or refused.
#[test]
fn dimensions(rt: HostRuntime) -> Result<(), Fail> {
    for (mu, text, answer) in [
        (false, "16383.99999pt ", Feed::Done(1_073_741_823, 0)),
        (false, "-16383.99999ptx", Feed::Done(-1_073_741_823, 1)),
        (false, "16383.999999pt ", Feed::Bad(DIMENSION_TOO_LARGE)),
        (false, "16384pt ", Feed::Bad(DIMENSION_TOO_LARGE)),
        (false, "1073741823.9sp ", Feed::Done(1_073_741_823, 0)),
        (false, "1073741824sp ", Feed::Bad(DIMENSION_TOO_LARGE)),
        (false, "0.99999999999999999pt ", Feed::Done(65_536, 0)),
        (false, ".00000762939453125pt ", Feed::Done(1, 0)),
        (false, ".00000762939453124pt ", Feed::Done(0, 0)),
        (false, "2147483648", Feed::Bad(NUMBER_TOO_BIG)),
        (false, "-\"", Feed::Bad(MISSING_NUMBER)),
        (false, "1..", Feed::Bad(NO_UNIT)),
        (false, "1trueem", Feed::Bad(NO_UNIT)),
        (false, "1mu", Feed::Bad(NO_UNIT)),
        (false, "1f", Feed::Bad(NO_UNIT)),
        (true, "1t", Feed::Bad(NO_MATH_UNIT)),
    ] {
        assert_eq!(rt; dimension(mu, text), answer, "{text}");
    }
    let mut scan = DimScan::new(false, EM, EX);
    assert_eq!(rt; scan.feed(token(b'1')), Feed::More(0));
    assert_eq!(rt; scan.feed(Tok::Name(0)), Feed::Bad(NO_UNIT));
    Ok(())
}

/// Glue of these sizes in scaled points.
fn spec(width: Sp, stretch: Sp, stretch_order: Order, shrink: Sp) -> GlueSpec {
    GlueSpec {
        width,
        stretch,
        stretch_order,
        shrink,
        shrink_order: Order::Finite,
    }
}

#[test]
fn glues(rt: HostRuntime) -> Result<(), Fail> {
    let point = Sp::POINT;
    let zero = Sp::ZERO;
    for (mu, text, answer) in [
        (
            false,
            "1ptxxx",
            Feed::Done(spec(point, zero, Order::Finite, zero), 1),
        ),
        (
            false,
            "0pt plus 1fil l  mmminus 1pt ",
            Feed::Done(spec(zero, point, Order::Fill, point), 0),
        ),
        (
            false,
            "1ptpplus1FILLLxxx",
            Feed::Done(spec(point, point, Order::Filll, zero), 1),
        ),
        (
            true,
            "1mu mminus1mu ",
            Feed::Done(spec(point, zero, Order::Finite, point), 0),
        ),
        (
            false,
            "0pt plus 1fil l mmminus 1fillll",
            Feed::Bad(TOO_INFINITE),
        ),
        (false, "0pt plus16384fil xx", Feed::Bad(DIMENSION_TOO_LARGE)),
        (true, "1mu plus 1p", Feed::Bad(NO_MATH_UNIT)),
    ] {
        assert_eq!(rt; glue(mu, text), answer, "{text}");
    }
    Ok(())
}

/// Glue of one point that can stretch.
fn one_point() -> GlueSpec {
    spec(Sp::POINT, Sp::MAX, Order::Filll, Sp::ZERO)
}

/// A dimension of which these characters were taken.
fn begun(mu: bool, text: &str) -> DimScan {
    let mut scan = DimScan::new(mu, EM, EX);
    for byte in text.as_bytes() {
        let _more = scan.feed(token(*byte));
    }
    scan
}

#[test]
fn quantities_as_dimensions(rt: HostRuntime) -> Result<(), Fail> {
    for (mu, text, q, answer) in [
        (
            false,
            "-",
            Quant::Dim(Sp::MAX),
            Feed::Done(-1_073_741_823, 0),
        ),
        (false, "", Quant::Glue(one_point()), Feed::Done(65_536, 0)),
        (false, "", Quant::Int(-5), Feed::More(0)),
        (
            false,
            "",
            Quant::Mu(one_point()),
            Feed::Bad(INCOMPATIBLE_UNITS),
        ),
        (
            true,
            "",
            Quant::Glue(one_point()),
            Feed::Bad(INCOMPATIBLE_UNITS),
        ),
        (true, "-.5", Quant::Mu(one_point()), Feed::Done(-32_768, 0)),
        (false, "-1.5 ", Quant::Dim(EX), Feed::Done(4, 0)),
        (
            false,
            "2",
            Quant::Dim(Sp::MAX),
            Feed::Bad(DIMENSION_TOO_LARGE),
        ),
        (false, "2", Quant::Int(1), Feed::Bad(NO_UNIT)),
    ] {
        let mut scan = begun(mu, text);
        match scan.wants() {
            Want::Start => assert_eq!(rt; in_points(scan.quantity(q)), answer, "{text}"),
            _ => assert!(rt; false, "a quantity may stand here"),
        }
    }
    Ok(())
}

#[test]
fn quantities_as_glue(rt: HostRuntime) -> Result<(), Fail> {
    for (mu, signs, q, answer) in [
        (
            false,
            b' ',
            Quant::Glue(one_point()),
            Feed::Done(one_point(), 0),
        ),
        (false, b'+', Quant::Glue(one_point()), Feed::More(0)),
        (
            true,
            b' ',
            Quant::Mu(one_point()),
            Feed::Done(one_point(), 0),
        ),
        (
            true,
            b' ',
            Quant::Glue(one_point()),
            Feed::Bad(INCOMPATIBLE_UNITS),
        ),
        (
            false,
            b' ',
            Quant::Mu(one_point()),
            Feed::Bad(INCOMPATIBLE_UNITS),
        ),
    ] {
        let mut scan = GlueScan::new(mu, EM, EX);
        assert_eq!(rt; scan.feed(token(signs)), Feed::More(0));
        match scan.wants() {
            Want::Start => assert_eq!(rt; scan.quantity(q), answer),
            _ => assert!(rt; false, "a quantity may stand here"),
        }
    }
    Ok(())
}
