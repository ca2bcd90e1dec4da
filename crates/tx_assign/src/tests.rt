//! A call of each function, with the values that TeX gives.

use crate::{
    ByteError, Defined, Operation, Prefixes, Refused, Target, ValueKind, byte, code, codes,
    computed, defines, defining, is_global, math_code, meaning, name_place, operand_kind, prefix,
    register, target, value_kind,
};
use std::test::Fail;
use tx_eqtb::{Meaning, RegKind};
use tx_node::BoxNode;
use tx_num::{ErrorNo, GlueSpec, Order, Quant, Sp};
use tx_prims::primitives::{Assignment, GlueParameter, IntegerParameter, ListParameter, Primitive};
use tx_tok::{Cat, ListRef, Tok};
use tx_views::{CodeTable, Place, Sense};

/// The error with this number and case, whose text shows a number, and maybe a limit.
fn refused(no: u8, case: u8, value: i64, limit: Option<u32>) -> Refused {
    Refused {
        number: ErrorNo { no, case, value },
        limit,
    }
}

/// The integer that an answer is.
fn integer(answer: &Result<Meaning<BoxNode>, Refused>) -> Option<i32> {
    match answer {
        Ok(Meaning::Int(n)) => Some(*n),
        _ => None,
    }
}

/// The scaled points of the dimension that an answer is.
fn dimension(answer: &Result<Meaning<BoxNode>, Refused>) -> Option<i32> {
    match answer {
        Ok(Meaning::Dim(d)) => Some(d.get()),
        _ => None,
    }
}

/// The width, the stretch with its order and the shrink of the glue that an answer is.
fn sizes(answer: &Result<Meaning<BoxNode>, Refused>) -> Option<(i32, i32, Order, i32)> {
    match answer {
        Ok(Meaning::Glue(g)) => Some((
            g.width.get(),
            g.stretch.get(),
            g.stretch_order,
            g.shrink.get(),
        )),
        _ => None,
    }
}

/// The error that an answer is.
fn error(answer: &Result<Meaning<BoxNode>, Refused>) -> Option<Refused> {
    match answer {
        Ok(_) => None,
        Err(refused) => Some(*refused),
    }
}

/// The overflow of arithmetic.
fn overflow() -> Option<Refused> {
    Some(refused(14, 0, 0, None))
}

/// Glue of this width that stretches so far, and shrinks by a point.
fn glue(width: i32, stretch: i32, stretch_order: Order) -> GlueSpec {
    GlueSpec {
        width: Sp::new(width).unwrap_or(Sp::ZERO),
        stretch: Sp::new(stretch).unwrap_or(Sp::ZERO),
        stretch_order,
        shrink: Sp::POINT,
        shrink_order: Order::Finite,
    }
}

#[test]
fn ranges(rt: HostRuntime) -> Result<(), Fail> {
    assert_eq!(rt; byte(ByteError::Register, 255), Ok(255));
    assert_eq!(rt;
        byte(ByteError::Register, 256),
        Err(refused(15, 0, 256, None))
    );
    assert_eq!(rt;
        byte(ByteError::Character, -1),
        Err(refused(16, 0, -1, None))
    );
    assert_eq!(rt; math_code(32767), Ok(32767));
    assert_eq!(rt; math_code(32768), Err(refused(17, 1, 32768, None)));
    for (table, most, case) in [
        (CodeTable::Categories, 15, 0),
        (CodeTable::LowerCases, 255, 0),
        (CodeTable::UpperCases, 255, 0),
        (CodeTable::SpaceFactors, 32767, 0),
        (CodeTable::MathCodes, 32768, 0),
        (CodeTable::DelimiterCodes, 16_777_215, 1),
    ] {
        let limit = Some(most as u32);
        assert_eq!(rt; code(table, most), Ok(most));
        assert_eq!(rt;
            code(table, most + 1),
            Err(refused(18, case, i64::from(most) + 1, limit))
        );
    }
    assert_eq!(rt;
        code(CodeTable::Categories, -1),
        Err(refused(18, 0, -1, Some(15)))
    );
    assert_eq!(rt; code(CodeTable::DelimiterCodes, -1), Ok(-1));
    Ok(())
}

#[test]
fn meanings(rt: HostRuntime) -> Result<(), Fail> {
    let category = Place::Code(CodeTable::Categories, b'~');
    assert_eq!(rt; integer(&meaning(category, Quant::Int(13))), Some(13));
    let limit = Some(refused(18, 0, 16, Some(15)));
    assert_eq!(rt; error(&meaning(category, Quant::Int(16))), limit);
    let count = Place::Register(RegKind::Count, 7);
    assert_eq!(rt; integer(&meaning(count, Quant::Int(16))), Some(16));
    let skip = Place::Register(RegKind::Skip, 7);
    let answer = meaning(skip, Quant::Glue(glue(0, 65536, Order::Fill)));
    assert_eq!(rt; sizes(&answer), Some((0, 65536, Order::Fill, 65536)));
    Ok(())
}

#[test]
fn integers(rt: HostRuntime) -> Result<(), Fail> {
    for (operation, old, by, new) in [
        (Operation::Advance, 7, -10, -3),
        (Operation::Multiply, 7, -10, -70),
        (Operation::Divide, 7, -2, -3),
        (Operation::Divide, -7, 2, -3),
    ] {
        let answer = computed(operation, Quant::Int(old), Quant::Int(by));
        assert_eq!(rt; integer(&answer), Some(new));
    }
    for (operation, old, by) in [
        (Operation::Advance, i32::MAX, 1),
        (Operation::Multiply, 65536, 32768),
        (Operation::Divide, 7, 0),
    ] {
        let answer = computed(operation, Quant::Int(old), Quant::Int(by));
        assert_eq!(rt; error(&answer), overflow());
    }
    Ok(())
}

#[test]
fn dimensions(rt: HostRuntime) -> Result<(), Fail> {
    let sum = computed(
        Operation::Advance,
        Quant::Dim(Sp::POINT),
        Quant::Dim(Sp::POINT),
    );
    assert_eq!(rt; dimension(&sum), Some(131_072));
    let high = computed(
        Operation::Advance,
        Quant::Dim(Sp::POINT),
        Quant::Dim(Sp::MAX),
    );
    assert_eq!(rt; error(&high), overflow());
    let mixed = computed(Operation::Advance, Quant::Dim(Sp::POINT), Quant::Int(1));
    assert_eq!(rt; error(&mixed), overflow());
    let product = computed(Operation::Multiply, Quant::Dim(Sp::POINT), Quant::Int(2));
    assert_eq!(rt; dimension(&product), Some(131_072));
    let large = computed(
        Operation::Multiply,
        Quant::Dim(Sp::POINT),
        Quant::Int(16384),
    );
    assert_eq!(rt; error(&large), overflow());
    let quotient = computed(Operation::Divide, Quant::Dim(Sp::POINT), Quant::Int(-3));
    assert_eq!(rt; dimension(&quotient), Some(-21845));
    Ok(())
}

#[test]
fn glues(rt: HostRuntime) -> Result<(), Fail> {
    let sum = computed(
        Operation::Advance,
        Quant::Glue(glue(65536, 65536, Order::Fil)),
        Quant::Glue(glue(65536, 131_072, Order::Fill)),
    );
    assert_eq!(rt; sizes(&sum), Some((131_072, 131_072, Order::Fill, 131_072)));
    let same = computed(
        Operation::Advance,
        Quant::Mu(glue(65536, 0, Order::Filll)),
        Quant::Mu(glue(65536, 131_072, Order::Finite)),
    );
    assert_eq!(rt;
        sizes(&same),
        Some((131_072, 131_072, Order::Finite, 131_072))
    );
    let mixed = computed(
        Operation::Advance,
        Quant::Glue(glue(0, 0, Order::Finite)),
        Quant::Mu(glue(0, 0, Order::Finite)),
    );
    assert_eq!(rt; error(&mixed), overflow());
    let high = computed(
        Operation::Multiply,
        Quant::Glue(glue(1_073_741_823, 0, Order::Finite)),
        Quant::Int(2),
    );
    assert_eq!(rt; error(&high), overflow());
    let half = computed(
        Operation::Divide,
        Quant::Mu(glue(65536, 65536, Order::Fil)),
        Quant::Int(2),
    );
    assert_eq!(rt; sizes(&half), Some((32768, 32768, Order::Fil, 32768)));
    Ok(())
}

#[test]
fn kinds(rt: HostRuntime) -> Result<(), Fail> {
    let mu = Place::Glue(GlueParameter::ThinMuSkip);
    assert_eq!(rt;
        value_kind(Place::Code(CodeTable::Categories, 0)),
        ValueKind::Number
    );
    assert_eq!(rt;
        value_kind(Place::Register(RegKind::Dimen, 0)),
        ValueKind::Dimension
    );
    assert_eq!(rt; value_kind(mu), ValueKind::Glue(true));
    assert_eq!(rt;
        value_kind(Place::List(ListParameter::EveryPar)),
        ValueKind::List
    );
    assert_eq!(rt; operand_kind(Operation::Advance, mu), ValueKind::Glue(true));
    assert_eq!(rt; operand_kind(Operation::Divide, mu), ValueKind::Number);
    Ok(())
}

#[test]
fn targets(rt: HostRuntime) -> Result<(), Fail> {
    let parameter = IntegerParameter::EndLineChar;
    for (sense, answer) in [
        (
            Sense::Register(RegKind::Muskip, 3),
            Target::Place(Place::Register(RegKind::Muskip, 3)),
        ),
        (Sense::Register(RegKind::Toks, 3), Target::None),
        (
            Sense::Primitive(Primitive::Assignment(Assignment::Skip)),
            Target::Numbered(RegKind::Skip),
        ),
        (
            Sense::Primitive(Primitive::Assignment(Assignment::CatCode)),
            Target::None,
        ),
        (
            Sense::Primitive(Primitive::IntegerParameter(parameter)),
            Target::Place(Place::Integer(parameter)),
        ),
        (Sense::List(ListRef::Empty), Target::None),
    ] {
        assert_eq!(rt; target(sense), answer);
    }
    Ok(())
}

#[test]
fn names(rt: HostRuntime) -> Result<(), Fail> {
    assert_eq!(rt; name_place(Tok::Name(9)), Some(Place::Name(9)));
    assert_eq!(rt; name_place(Tok::Active(b'~')), Some(Place::Active(b'~')));
    assert_eq!(rt; name_place(Tok::Char(Cat::Other, b'~')), None);
    for (assignment, answer) in [
        (
            Assignment::EDef,
            Some(Defined::Def {
                expands: true,
                global: false,
            }),
        ),
        (
            Assignment::GDef,
            Some(Defined::Def {
                expands: false,
                global: true,
            }),
        ),
        (Assignment::MathCharDef, Some(Defined::Code { math: true })),
        (Assignment::ToksDef, Some(Defined::Register(RegKind::Toks))),
        (
            Assignment::Divide,
            Some(Defined::Arithmetic(Operation::Divide)),
        ),
        (Assignment::SetBox, None),
    ] {
        assert_eq!(rt; defining(assignment), answer);
    }
    assert_eq!(rt; register(Assignment::MuSkip), Some(RegKind::Muskip));
    assert_eq!(rt; register(Assignment::SetBox), None);
    assert_eq!(rt; codes(Assignment::SfCode), Some(CodeTable::SpaceFactors));
    assert_eq!(rt; codes(Assignment::Count), None);
    Ok(())
}

#[test]
fn prefixes(rt: HostRuntime) -> Result<(), Fail> {
    let long = Prefixes {
        long: true,
        ..Prefixes::NONE
    };
    let both = Prefixes {
        global: true,
        ..long
    };
    assert_eq!(rt; prefix(Assignment::Long, Prefixes::NONE), Some(long));
    assert_eq!(rt; prefix(Assignment::Global, long), Some(both));
    assert_eq!(rt; prefix(Assignment::Def, long), None);
    assert!(rt; defines(Assignment::XDef));
    assert!(rt; !defines(Assignment::Let));
    for (globaldefs, global, answer) in [
        (0, true, true),
        (0, false, false),
        (1, false, true),
        (-1, true, false),
    ] {
        assert_eq!(rt; is_global(globaldefs, global), answer);
    }
    Ok(())
}
