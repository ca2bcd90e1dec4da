//! Badness.

ghost use Rattle.std.specs.Prelude.{◌≡◌, ◌<◌, ◌≤ℤ◌, pos};
ghost use Rattle.tx_num.specs.Badness.{badness, stretch_ratio};

/// The badness that stands for all that is worse.
const INFINITELY_BAD: u16 = 10000;

/// The largest ratio whose badness is below that.
const LARGEST_RATIO: u64 = 1290;

/// The badness of stretching or shrinking by `t` scaled points, at least 0, where `s` can be had, from 0
/// to 10000:
/// about a hundred times the third power of `t/s` (*TeX: The Program*, section 108).
pub fn badness(t: i64, s: i64) -> u16
    requires { pos 0 ≤ℤ t }
    ensures { result ≡ badness t s }
{
    if t == 0 {
        return 0;
    }
    if s <= 0 {
        return INFINITELY_BAD;
    }
    let r = stretch_ratio(t.unsigned_abs(), s.unsigned_abs());
    if r > LARGEST_RATIO {
        INFINITELY_BAD
    } else {
        ((r * r * r + (1 << 17)) >> 18) as u16
    }
}

/// About 297 times `t/s`.
fn stretch_ratio(t: u64, s: u64) -> u64
    requires { 0 < s }
    ensures { result ≡ stretch_ratio t s }
{
    if t <= 7_230_584 {
        t * 297 / s
    } else if s >= 1_663_497 {
        t / (s / 297)
    } else {
        t
    }
}
