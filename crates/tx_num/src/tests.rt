//! Numbers that TeX gives, and the ends of the ranges.

use crate::{
    Feed, GlueSpec, Order, Quant, Ratio, Sp, badness, integer, print_sp, round_digits, sum,
};
use std::test::Fail;

#[test]
fn dimensions_end_below_2_to_30(rt: HostRuntime) -> Result<(), Fail> {
    let least = Sp::new(-1_073_741_823).ok_or("in range")?;
    assert_eq!(rt; Sp::new(1_073_741_823), Some(Sp::MAX));
    assert_eq!(rt; Sp::new(1_073_741_824), None);
    assert_eq!(rt; Sp::new(-1_073_741_824), None);
    assert_eq!(rt; Sp::from_i64(-65536), Some(Sp(-65536)));
    assert_eq!(rt; Sp::from_i64(4_294_967_296), None);
    assert_eq!(rt; sum(Sp::MAX, Sp::ZERO), Some(Sp::MAX));
    assert_eq!(rt; sum(Sp::MAX, Sp(1)), None);
    assert_eq!(rt; sum(least, Sp(-1)), None);
    assert_eq!(rt; sum(least, Sp::MAX), Some(Sp::ZERO));
    assert_eq!(rt; Sp::POINT.get(), 65536);
    assert_eq!(rt; integer(-2_147_483_647), Some(-2_147_483_647));
    assert_eq!(rt; integer(-2_147_483_648), None);
    assert_eq!(rt; integer(2_147_483_648), None);
    Ok(())
}

#[test]
fn quantities_compare(rt: HostRuntime) {
    assert!(rt; Order::Fill < Order::Filll);
    assert_eq!(rt;
        Feed::Done(Quant::Dim(Sp::POINT), 1),
        Feed::Done(Quant::Dim(Sp(65536)), 1)
    );
    assert_ne!(rt;
        Feed::Done(Quant::Glue(GlueSpec::ZERO), 1),
        Feed::Done(Quant::Mu(GlueSpec::ZERO), 1)
    );
}

#[test]
fn badness_at_its_thresholds(rt: HostRuntime) {
    for (t, s, want) in [
        (0, 0, 0),
        (0, -1, 0),
        (1, 0, 10000),
        (1, -5, 10000),
        (65536, 65536, 100),
        (131072, 65536, 800),
        (32768, 65536, 12),
        (7_230_584, 1_663_496, 8189),
        (7_230_585, 1_663_496, 10000),
        (7_230_585, 1_663_497, 8189),
        (1290, 297, 8189),
        (1291, 297, 10000),
    ] {
        assert_eq!(rt; badness(t, s), want, "at {t}, {s}");
    }
}

#[test]
fn parts_are_rounded_and_held(rt: HostRuntime) {
    for (num, den, total, want) in [
        (1, 2, 3, 2),
        (1, 2, -3, -2),
        (1, 3, 1, 0),
        (2, 3, -1, -1),
        (0, 1, 65536, 0),
        (1_000_000, 1, 1001, 1_000_000_000),
        (1_000_000, 1, -1001, -1_000_000_000),
    ] {
        let ratio = Ratio { num, den };
        assert_eq!(rt; ratio.part(total), want, "{num} over {den} of {total}");
    }
}

#[test]
fn dimensions_are_printed(rt: HostRuntime) -> Result<(), Fail> {
    for (value, want) in [
        (0, "0.0"),
        (1, "0.00002"),
        (65536, "1.0"),
        (21845, "0.33333"),
        (6554, "0.1"),
        (-65536, "-1.0"),
        (-1, "-0.00002"),
        (1_073_741_823, "16383.99998"),
    ] {
        let mut out = Vec::from_slice(rt.alloc(), b"=")?;
        print_sp(rt.alloc(), Sp::new(value).ok_or("in range")?, &mut out)?;
        assert_eq!(rt; out.get(1..), Some(want.as_bytes()));
    }
    Ok(())
}

#[test]
fn decimals_are_rounded(rt: HostRuntime) {
    assert_eq!(rt; round_digits(&[]), 0);
    assert_eq!(rt; round_digits(&[5]), 32768);
    assert_eq!(rt; round_digits(&[1]), 6554);
    assert_eq!(rt; round_digits(&[3; 5]), 21845);
    assert_eq!(rt; round_digits(&[9; 17]), 65536);
    // half of a scaled point below a point, and a little less
    assert_eq!(rt;
        round_digits(&[9, 9, 9, 9, 9, 2, 3, 7, 0, 6, 0, 5, 4, 6, 8, 7, 5]),
        65536
    );
    assert_eq!(rt;
        round_digits(&[9, 9, 9, 9, 9, 2, 3, 7, 0, 6, 0, 5, 4, 6, 8, 7, 4]),
        65535
    );
}
