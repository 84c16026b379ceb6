// Roots and quotients cut to whole numbers, and the clamp to a range (rules 2.7 and 2.10).
#![tactic(auto)]

ghost use Rattle.std.specs.Prelude.{◌≡◌, ◌<◌, ◌^◌, pos, nat_abs, ◌<ℤ◌};
ghost use Rattle.integers.specs.Bounds.{AtMost, max_dividend};
ghost use Rattle.integers.specs.Rounding.{floor_root, floor_div, clamped};

// The square root, cut down to a whole number, by Newton's iteration: (r + x / r) / 2 is at least the root, and it is below r where
// r is above the root. The first step is from 2 ^ k, which is above the root, and divides by a shift. Below 2 ^ 52 every sum and square fits.
pub fn floor_root(x: u64) -> u64
    requires { x < 2 ^ 52 }
    ensures { result ≡ floor_root x }
{
    let k = (65 - u64::leading_zeros(x)) / 2;
    let mut r = ((1u64 << k) + (x >> k)) / 2;
    while x < r * r {
        r = (r + x / r) / 2;
    }
    r
}

// n / k, rounded down. The machine rounds toward zero: one too many where the remainder is below zero.
pub fn floor_div(n: i64, k: i64) -> i64
    requires { (AtMost max_dividend n) × (pos 0 <ℤ k) }
    ensures { result ≡ floor_div n (nat_abs k) }
{
    let q = n / k;
    if n % k < 0 { q - 1 } else { q }
}

// x, or the nearer end of low to high where x is outside.
pub fn clamp(x: i64, low: i64, high: i64) -> i64
    ensures { result ≡ clamped low high x }
{
    if x < low {
        return low;
    }
    if high < x {
        return high;
    }
    x
}
