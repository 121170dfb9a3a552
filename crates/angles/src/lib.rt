// Sine, cosine and arctangent of document 01's "Angles", by the exact steps of docs/ANGLES.md, which
// are the C library's own.
//
// The steps of the sine and the cosine are crate `sines`'s. The arctangent is a guess in f32, which
// whole numbers certify; where they do not, it is found by halving. The contracts hold the steps, as
// definitions in specs/. That the steps meet document 01's bounds is proved in the crate
// `angle_laws`.
//
// `sin`, `cos` and `atan2` take every f32 and give +0 where document 01 has the call refused. `sine`,
// `cosine` and `arctangent` refuse instead.
#![tactic(auto)]

ghost use Rattle.std.specs.Prelude.{All, reverse, ◌≡◌, ◌+◌, ◌-◌, ◌*◌, ◌/◌, ◌%◌, ◌<◌, ◌≤◌, min, true, false, cond, not, ◌&&◌, T, pos};
ghost use Rattle.std.specs.Float.{fin, binary32};
ghost use Rattle.std.specs.Float.Ieee.{le, lt, neg, mul, div, of_int};
ghost use Rattle.std.specs.Float.Ieee.Scale.{finite};
ghost use Rattle.floats.specs.Floats.{abs_of};
ghost use Rattle.sines.specs.Steps.{rest, nest, sin_fix, cos_fix, seek};
ghost use Rattle.sines.specs.Sines.{plus_zero};
ghost use Rattle.angles.specs.Guess.{tail_of, raised_of, lowered_of, atan_low, atan_high, atan_guess, arc_guess};
ghost use Rattle.angles.specs.Arc.{usable, ratio_of, slope_of, angle_of, eighth_of, arc_steps, behind_of, minus_size, plus_over, line_test, turn_test, grid_test, cert_of, best_steps, arctan_steps};
ghost use Rattle.angles.specs.Says.{sin_of, cos_of, atan2_of, sine_says, cosine_says, arctan_says};

use refusals::{Refusal, allow};

// One level of the nested form: 1 - t / c * h, where 2^30 stands for 1.
fn level(t: u64, h: u64, c: u64) -> u64
    requires { (t ≤ 1073741824)
        × (h ≤ 1073741824)
        × (1 ≤ c) }
    ensures { result ≡ 1073741824 - t * h / 1073741824 / c }
{
    1073741824 - t * h / 1073741824 / c
}

// The nested form over the divisors, the innermost first.
fn nest(t: u64, divisors: &[u64]) -> u64
    requires small { t ≤ 1073741824 }
    requires divisors { All (λ c. 1 ≤ c) divisors.now }
    ensures { result ≡ nest 1073741824 t (reverse divisors.now) }
{
    let mut h = 1073741824;
    for &c in divisors {
        h = level(t, h, c);
    }
    h
}

// The sine, in units of 2^-31, of an angle in units of 2^-34.
fn sin_fix(a: u64) -> u64
    requires { a < 17179869184 }
    ensures { result ≡ sin_fix a }
{
    let b = a / 4;
    a * nest(b * b / 17179869184, &[156, 110, 72, 42, 20, 6]) / 8589934592
}

// The cosine, in units of 2^-31, of an angle in units of 2^-34.
fn cos_fix(a: u64) -> u64
    requires { a < 17179869184 }
    ensures { result ≡ cos_fix a }
{
    let b = a / 4;
    2 * nest(b * b / 17179869184, &[182, 132, 90, 56, 30, 12, 2])
}

// |r| in units of 2^-34.
fn rest_of(q: u64, x: u64) -> u64
    requires { (q ≤ 20)
        × (x ≤ 17592186044416) }
    ensures { result ≡ rest q x }
{
    let b = (q + q % 2) * 226375608064910088 / 1024;
    if q % 2 == 0 {
        (x * 256).saturating_sub(b) / 16384
    } else {
        b.saturating_sub(x * 256) / 16384
    }
}

// The angle, in units of 2^-24 and at most π / 4, whose tangent is nearest below t / 2^31.
// Beside `root::bisect`, which halves until a gap closes: one of both would take a closure, and a law of each test.
fn seek_from(t: u64) -> u64
    requires { t ≤ 4294967296 }
    ensures { result ≡ seek 24 t 0 13176795 }
{
    let mut lo: u64 = 0;
    let mut hi: u64 = 13176795;
    for _ in 0..24_u32 {
        let mid = (lo + hi) / 2;
        let s = sin_fix(mid * 1024);
        let k = cos_fix(mid * 1024);
        if 2147483648 * s <= t * k {
            lo = mid;
        } else {
            hi = mid;
        }
    }
    lo
}

// lo / big in units of 2^-31.
fn ratio_of(lo: f32, big: f32) -> u64
    requires { T (lt (fin true 1 (pos 0)) (mul binary32 (div binary32 lo big) (fin false 1 (pos 31))))
        × T (lt (mul binary32 (div binary32 lo big) (fin false 1 (pos 31))) (fin false 1 (pos 64))) }
    ensures { result ≡ ratio_of lo big }
{
    std::num::truncating_f32_to_u64(lo / big * 2147483648.0)
}

// w times `unit`, for a w that a float holds.
fn times(w: u64, unit: f32) -> f32
    requires { w < 16777216 }
    ensures { result ≡ mul binary32 (of_int binary32 (pos w)) unit }
{
    w as f32 * unit
}

// The angle of the eighth o: j, π/2 - j, π/2 + j, π - j.
// Eighths and quadrants are numbers, opened by a match: document 01 has them so.
fn angle_of(o: u64, j: u64) -> f32
    requires { j < 13176795 }
    ensures { result ≡ angle_of o j }
{
    match o {
        0 => times(j, 0.000000059604644775390625),
        1 => {
            let m = j.min(13176792);
            times(13176794 - (m + 1) / 2, 0.00000011920928955078125)
        }
        2 => {
            let m = j.min(13176788);
            times(6588398 + m / 4, 0.0000002384185791015625)
        }
        _ => {
            let m = j.min(13176788);
            times(13176794 - (m + 3) / 4, 0.0000002384185791015625)
        }
    }
}

// The eighth of the half circle, from whether |y| <= |x| and whether x < 0.
fn eighth_of(flat: bool, back: bool) -> u64
    ensures { result ≡ eighth_of flat back }
{
    match (flat, back) {
        (true, false) => 0,
        (false, false) => 1,
        (false, true) => 2,
        (true, true) => 3,
    }
}

// The size of the arctangent, for a ratio t.
fn arc_size(flat: bool, back: bool, t: u64) -> f32
    requires { t ≤ 4294967296 }
    ensures { result ≡ angle_of (eighth_of flat back) (seek 24 t 0 13176795) }
{
    angle_of(eighth_of(flat, back), seek_from(t))
}

// a, negated where `minus`.
fn signed(minus: bool, a: f32) -> f32
    ensures { result ≡ cond minus (neg a) a }
{
    if minus { -a } else { a }
}

// The lesser of |y| and |x| over the larger, in units of 2^-31.
// `usable` is asked of two floats, `atan2`'s arguments: a struct of them would be opened at once in each function.
fn slope(y: f32, x: f32) -> u64
    requires { T (usable y x) }
    ensures value { result ≡ slope_of y x }
    ensures small { result ≤ 2147484168 }
{
    let p = floats::abs(y);
    let q = floats::abs(x);
    if p <= q {
        ratio_of(p, q)
    } else {
        ratio_of(q, p)
    }
}

// The arctangent of (y, x), both finite, y not zero, by halving.
fn arc(y: f32, x: f32) -> f32
    requires { T (usable y x) }
    ensures { result ≡ arc_steps y x }
{
    let flat = floats::abs(y) <= floats::abs(x);
    signed(y < 0.0, arc_size(flat, x < 0.0, slope(y, x)))
}

// About 1 - atan(u) / u.
#[tactic(auto, unfolding(crate::specs::Guess::tail_of))]
fn tail(u: f32) -> f32
    ensures { result ≡ tail_of u }
{
    let v = u * u;
    let w = v * v;
    let e = v
        * (0.3333333432674408
            + w * (0.1428571492433548
                + w * (0.09090887010097504
                    + w * (0.06661073118448257
                        + w * (0.049768779426813126 + w * 0.016285819932818413)))));
    let o = w
        * (0.20000000298023224
            + w * (0.1111111044883728
                + w * (0.07691875845193863 + w * (0.05833570286631584 + w * 0.03653157129883766))));
    e - o
}

// h + l + atan(u).
#[tactic(auto, unfolding(crate::specs::Guess::raised_of))]
fn raised(h: f32, l: f32, u: f32) -> f32
    ensures { result ≡ raised_of h l u }
{
    h - ((u * tail(u) - l) - u)
}

// π/2 - atan(t).
#[tactic(auto, unfolding(crate::specs::Guess::lowered_of))]
fn lowered(t: f32) -> f32
    ensures { result ≡ lowered_of t }
{
    1.570796251296997 - (t - (t * tail(t) + 0.00000007549789415861596))
}

// atan(x), x below 7/16.
#[tactic(auto, unfolding(crate::specs::Guess::atan_low))]
fn atan_low(x: f32) -> f32
    ensures { result ≡ atan_low x }
{
    if x < 0.000000001862645149230957 {
        x
    } else {
        x - x * tail(x)
    }
}

// atan(x), x from 7/16 on: from atan(1/2), π/4, atan(3/2) or π/2.
#[tactic(auto, unfolding(crate::specs::Guess::atan_high))]
fn atan_high(x: f32) -> f32
    ensures { result ≡ atan_high x }
{
    if x < 0.6875 {
        raised(
            0.46364760398864746,
            0.00000000501215824399992,
            (2.0 * x - 1.0) / (2.0 + x),
        )
    } else if x < 1.1875 {
        raised(
            0.7853981256484985,
            0.00000003774894707930798,
            (x - 1.0) / (x + 1.0),
        )
    } else if x < 2.4375 {
        raised(
            0.9827936887741089,
            0.00000003447321716976148,
            (x - 1.5) / (1.0 + 1.5 * x),
        )
    } else if x < 33554432.0 {
        lowered(1.0 / x)
    } else {
        1.5707963705062866
    }
}

#[tactic(auto, unfolding(crate::specs::Guess::atan_guess))]
fn atan_guess(x: f32) -> f32
    ensures { result ≡ atan_guess x }
{
    if x < 0.4375 {
        atan_low(x)
    } else {
        atan_high(x)
    }
}

// The size of the angle of (p, s), the sizes of y and x: a guess.
#[tactic(auto, unfolding(crate::specs::Guess::arc_guess))]
fn arc_guess(back: bool, p: f32, s: f32) -> f32
    ensures { result ≡ arc_guess back p s }
{
    let z = atan_guess(p / s);
    if back {
        3.1415927410125732 - (z + 0.00000008742277657347586)
    } else {
        z
    }
}

// The size of ± u - ± v.
// A sign and a size both hold always, so a sign is no flag of an `Option`; an i64 would not hold the sum.
fn gap(a: bool, u: u64, b: bool, v: u64) -> u64
    requires { (u ≤ 6917529027641081856)
        × (v ≤ 6917529027641081856) }
    ensures { result ≡ minus_size a u b v }
{
    if sines::differ(a, b) {
        u + v
    } else {
        u.abs_diff(v)
    }
}

// Whether ± u + ± v is at least 2^60.
fn ahead(a: bool, u: u64, b: bool, v: u64) -> bool
    requires { (u ≤ 6917529027641081856)
        × (v ≤ 6917529027641081856) }
    ensures { result ≡ plus_over a u b v }
{
    match (a, b) {
        (false, false) => 1152921504606846976 <= u + v,
        (false, true) => v + 1152921504606846976 <= u,
        (true, false) => u + 1152921504606846976 <= v,
        (true, true) => false,
    }
}

// Where (x, y) lies: x below zero where `back`, and |y| and |x| in units of 2^-31 of the larger.
#[derive(Clone, Copy)]
struct Direction {
    back: bool,
    py: u64,
    px: u64,
    ghost small: { (py ≤ 2147484168) × (px ≤ 2147484168) },
}

impl Direction {
    fn of(y: f32, x: f32) -> Direction
        requires { T (usable y x) }
        ensures back { result.back ≡ lt x plus_zero }
        ensures py { result.py ≡ cond (le (abs_of y) (abs_of x)) (slope_of y x) 2147483648 }
        ensures px { result.px ≡ cond (le (abs_of y) (abs_of x)) 2147483648 (slope_of y x) }
    {
        let back = x < 0.0;
        let t = slope(y, x);
        if floats::abs(y) <= floats::abs(x) {
            Direction {
                back,
                py: t,
                px: 2147483648,
            }
        } else {
            Direction {
                back,
                py: 2147483648,
                px: t,
            }
        }
    }

    // Whether (± vc, ± vs), in units of 2^-31, lies along it.
    fn on_line(self, ns: bool, vs: u64, nc: bool, vc: u64) -> bool
        requires { (vs ≤ 2147483648)
            × (vc ≤ 2147483648) }
        ensures { result ≡ line_test self.back self.py self.px ns vs nc vc }
    {
        let Direction { back, py, px } = self;
        gap(nc, py * vc, sines::differ(back, ns), px * vs) <= 8796093022208
            && ahead(sines::differ(back, nc), px * vc, ns, py * vs)
    }

    // By k mod 4, for the sine s and the cosine c of |r|.
    // A quadrant is a number, opened by a match: document 01 has it so.
    fn on_turn(self, k: u64, down: bool, s: u64, c: u64) -> bool
        requires { (s ≤ 2147483648)
            × (c ≤ 2147483648) }
        ensures { result ≡ turn_test k down self.back self.py self.px s c }
    {
        match k {
            0 => self.on_line(down, s, false, c),
            1 => self.on_line(false, c, !down, s),
            2 => self.on_line(!down, s, true, c),
            _ => self.on_line(true, c, down, s),
        }
    }

    // The angle x / 2^40.
    fn on_grid(self, x: u64) -> bool
        requires { x ≤ 17592186044416 }
        ensures { result ≡ grid_test self.back self.py self.px x }
    {
        let q = sines::eighth(x);
        let a = rest_of(q, x);
        self.on_turn((q + 1) / 2 % 4, q % 2 != 0, sin_fix(a), cos_fix(a))
    }

    // Whether the angle c, not below zero, is certified for it.
    fn certifies(self, c: f32) -> bool
        requires { T (not (lt c plus_zero)) }
        ensures { result ≡ cert_of self.back self.py self.px c }
    {
        c <= 3.1415927410125732421875 && self.on_grid(bits::fixed(c, 40))
    }
}

// The arctangent of (y, x), both finite, y not zero: the guess where it is certified, otherwise by halving.
fn arc_best(y: f32, x: f32) -> f32
    requires { T (usable y x) }
    ensures { result ≡ best_steps y x }
{
    let c = floats::abs(arc_guess(x < 0.0, floats::abs(y), floats::abs(x)));
    if Direction::of(y, x).certifies(c) {
        signed(y < 0.0, c)
    } else {
        arc(y, x)
    }
}

// Whether x is below zero or -0.
#[tactic(auto, unfolding(crate::specs::Arc::behind_of))]
fn behind(x: f32) -> bool
    ensures { result ≡ behind_of x }
{
    x < 0.0 || (x == 0.0 && 1.0 / x < 0.0)
}

// The arctangent of (y, x), both finite.
fn atan_of(y: f32, x: f32) -> f32
    requires { T (finite y && finite x) }
    ensures { result ≡ arctan_steps y x }
{
    if y == 0.0 {
        if behind(x) {
            if 1.0 / y < 0.0 {
                -3.1415927410125732421875
            } else {
                3.1415927410125732421875
            }
        } else {
            y
        }
    } else {
        arc_best(y, x)
    }
}

// A single angle call answers the value, or refuses the first argument that is not allowed.
// One by one, as C calls them by name: each judges its own arguments, and takes no closure for its one step.
#[tactic(auto, unfolding(crate::specs::Says::sine_says))]
pub fn sine(x: f32) -> Result<f32, Refusal>
    ensures { result ≡ sine_says x }
{
    allow(sines::in_range(x), Refusal::BadValue(0))?;
    Ok(sines::sin_of(x))
}

#[tactic(auto, unfolding(crate::specs::Says::cosine_says))]
pub fn cosine(x: f32) -> Result<f32, Refusal>
    ensures { result ≡ cosine_says x }
{
    allow(sines::in_range(x), Refusal::BadValue(0))?;
    Ok(sines::cos_of(x))
}

#[tactic(auto, unfolding(crate::specs::Says::arctan_says))]
pub fn arctangent(y: f32, x: f32) -> Result<f32, Refusal>
    ensures { result ≡ arctan_says y x }
{
    allow(floats::is_finite(y), Refusal::BadValue(0))?;
    allow(floats::is_finite(x), Refusal::BadValue(1))?;
    Ok(atan_of(y, x))
}

// The same with +0 in the place of a refusal.
#[tactic(auto, unfolding(crate::specs::Says::sin_of, crate::specs::Says::sine_says))]
pub fn sin(x: f32) -> f32
    ensures { result ≡ sin_of x }
{
    sine(x).unwrap_or(0.0)
}

#[tactic(auto, unfolding(crate::specs::Says::cos_of, crate::specs::Says::cosine_says))]
pub fn cos(x: f32) -> f32
    ensures { result ≡ cos_of x }
{
    cosine(x).unwrap_or(0.0)
}

#[tactic(auto, unfolding(crate::specs::Says::atan2_of, crate::specs::Says::arctan_says))]
pub fn atan2(y: f32, x: f32) -> f32
    ensures { result ≡ atan2_of y x }
{
    arctangent(y, x).unwrap_or(0.0)
}
