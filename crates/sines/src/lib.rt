// Sine and cosine of document 01's "Angles", from -16 to 16, by the exact steps of docs/ANGLES.md, which are the C library's own.
//
// They are polynomials in f64, chosen by the eighth of a turn in which the angle lies. The contracts hold the steps, as definitions in
// specs/: Steps on whole numbers, which the arctangent of crate `angles` goes by too, and Sines in floats. The calls for every f32, and
// their refusals, are crate `angles`'s. That the steps meet document 01's bounds is proved in the crate `angle_laws`.
#![tactic(auto)]

ghost use Rattle.std.specs.Prelude.{◌≡◌, ◌≤◌, T};
ghost use Rattle.std.specs.Float.Ieee.Scale.{finite};
ghost use Rattle.bits.specs.Parts.{places};
ghost use Rattle.sines.specs.Steps.{xor, scan};
ghost use Rattle.sines.specs.Sines.{in_range, absf, rest_of, sin_poly, cos_poly, sin_value, sin_minus, single, wave_from, sine_steps, cosine_steps};

// The eighth of a turn, counted from 0, in which x lies, in units of 2^-40.
// The bound, 16 in units of 2^-40, is asked call by call: a type of such angles would be opened at every step.
pub fn eighth(x: u64) -> u64
    requires { x ≤ 17592186044416 }
    ensures { result ≡ scan 20 0 x }
{
    // 4 / π is a little more than 83443 / 2^16, so this is that eighth, or now and then the one before.
    let q = x / 16777216 * 83443 / 4294967296;
    if x <= (q + 1) * 226375608064910088 / 262144 {
        q
    } else {
        q + 1
    }
}

// Of an f64, by a test of its own: std's `abs` clears the sign of -0, which the definition keeps.
#[tactic(auto, unfolding(crate::specs::Sines::absf))]
fn size(x: f64) -> f64
    ensures { result ≡ absf x }
{
    if x < 0.0 { -x } else { x }
}

// |r|: the size of a less the multiple of π/2 that belongs to the eighth q.
#[tactic(auto, unfolding(crate::specs::Sines::rest_of))]
fn rest_64(q: u64, a: f32) -> f64
    requires { q ≤ 20 }
    ensures { result ≡ rest_of q a }
{
    let t = (q + q % 2) as u32 as f64;
    size(std::num::f32_to_f64_with_nan(a) - t * 0.7853981633974483)
}

#[tactic(auto, unfolding(crate::specs::Sines::sin_poly))]
fn sin_poly(r: f64) -> f64
    ensures { result ≡ sin_poly r }
{
    let z = r * r;
    let c = r * z;
    (r - c * 0.16666654943701084) + c * z * (0.008332178146138854 - z * 0.00019517298981385725)
}

#[tactic(auto, unfolding(crate::specs::Sines::cos_poly))]
fn cos_poly(r: f64) -> f64
    ensures { result ≡ cos_poly r }
{
    let z = r * r;
    let y = z * z;
    ((1.0 - z * 0.49999999725108224) + y * 0.041666623324344516)
        - y * z * (0.001388676379437604 - z * 2.4390450703564542e-05)
}

// The size of the sine by k mod 4, r being the size of the rest.
// The quadrant is a number, opened by a match: document 01 has it so.
fn sin_value(k: u64, r: f64) -> f64
    ensures { result ≡ sin_value k r }
{
    match k {
        0 => sin_poly(r),
        1 => cos_poly(r),
        2 => sin_poly(r),
        _ => cos_poly(r),
    }
}

// Whether the sine is below zero, by k mod 4, the rest being so where `down`.
fn sin_minus(k: u64, down: bool) -> bool
    ensures { result ≡ sin_minus k down }
{
    match k {
        0 => down,
        1 => false,
        2 => !down,
        _ => true,
    }
}

// v as an f32, negated where `minus`. From 2^-60 to below 2, where every size was that was met.
fn rounded(minus: bool, v: f64) -> f32
    ensures { result ≡ single minus v }
{
    if 8.673617379884035e-19 <= v && v < 2.0 {
        bits::narrow(minus, v)
    } else {
        0.0
    }
}

// Whether two signs differ: by a name, since the definitions of the steps say `xor`.
pub fn differ(a: bool, b: bool) -> bool
    ensures { result ≡ xor a b }
{
    a != b
}

// The sine so many quarters of a turn on from a, which is from 2^-12 to 16, negated where `minus`. The cosine is that of one quarter.
// `quarters` is added to the count of the quadrant: a number, and no kind.
fn wave(quarters: u64, minus: bool, a: f32) -> f32
    requires { T (finite a)
        × (places 40 a ≤ 17592186044416)
        × (quarters ≤ 1) }
    ensures { result ≡ wave_from quarters minus a }
{
    let q = eighth(bits::fixed(a, 40));
    let k = ((q + 1) / 2 + quarters) % 4;
    let v = sin_value(k, rest_64(q, a));
    rounded(differ(minus, sin_minus(k, q % 2 != 0)), v)
}

// The sine of an x from -16 to 16.
pub fn sin_of(x: f32) -> f32
    requires { T (in_range x) }
    ensures { result ≡ sine_steps x }
{
    let a = floats::abs(x);
    if a < 0.000244140625 {
        return x;
    }
    wave(0, x < 0.0, a)
}

// The cosine of an x from -16 to 16.
// Beside `sin_of` for what it answers near 0: every other angle goes by `wave` in both.
pub fn cos_of(x: f32) -> f32
    requires { T (in_range x) }
    ensures { result ≡ cosine_steps x }
{
    let a = floats::abs(x);
    if a < 0.000244140625 {
        return 1.0;
    }
    wave(1, false, a)
}

// Whether x is a number from -16 to 16.
pub fn in_range(x: f32) -> bool
    ensures { result ≡ in_range x }
{
    (-16.0 <= x) & (x <= 16.0)
}
