// 01's SIN, COS, EXP, LN, POW and TANH, each equal to its definition in specs/Elementary.antt at every float.
// Uses casts and std.
#![tactic(auto)]

ghost use Rattle.std.specs.Prelude.{◌≡◌, ℕ, ◌<◌, ◌≤◌, Float};
ghost use Rattle.casts.specs.Arithmetic.{◌⊗◌};
ghost use Rattle.elementary.specs.Elementary.{turn, down, SIN, COS, EXP, LN, POW, TANH};
ghost use Rattle.elementary.specs.Convergent.{convergent, steps_for};

pub const TAU: f64 = 6.28318530717958647692528676655900577;

pub const LN2: f64 = 0.693147180559945309417232121458176568;

// "For j = n down to 1": what the steps make of the first value.
fn stepped<F: Fn(u32, f64) -> f64>(n: u32, first: f64, step: F) -> f64
    requires { (j : ℕ) (t : Float) → 0 < j → j ≤ n → F.pre step j t }
    ensures { (f : ℕ → Float → Float) → ((j : ℕ) (t r : Float) → 0 < j → j ≤ n → F.post step j t r → r ≡ f j t) → result ≡ down f n first }
{
    let mut t = first;
    for j in (1..=n).rev() {
        t = step(j, t);
    }
    t
}

// v less the nearest whole number of turns.
pub fn turned(v: f64) -> f64
    ensures { result ≡ turn v }
{
    v - casts::floor(v / TAU + 0.5) * TAU
}

pub fn sin(v: f64) -> f64
    ensures { result ≡ SIN v }
{
    let r = turned(v);
    let z = r * r;
    r * stepped(
        13,
        1.0,
        |j, s| 1.0 - (z / f64::from(2 * j * (2 * j + 1))) * s,
    )
}

pub fn cos(v: f64) -> f64
    ensures { result ≡ COS v }
{
    let r = turned(v);
    let z = r * r;
    stepped(
        14,
        1.0,
        |j, c| 1.0 - (z / f64::from((2 * j - 1) * (2 * j))) * c,
    )
}

pub fn exp(v: f64) -> f64
    ensures { result ≡ EXP v }
{
    let k = casts::floor(v / LN2 + 0.5);
    let r = v - k * LN2;
    let e = stepped(20, 1.0, |j, e| 1.0 + (r / f64::from(j)) * e);
    e * casts::power_of_two(casts::signed_part(k))
}

// The digits of x under the exponent's field 1023 are m, and x's own field less 1023 is k.
pub fn ln(x: f64) -> f64
    ensures { result ≡ LN x }
{
    let b = casts::bits_of_f64(x);
    let m = f64::from_bits(casts::ONE + b % casts::FIELD);
    let k = std::num::nearest_i64_to_f64((b / casts::FIELD) as i64 - 1023);
    let y = (m - 1.0) / (m + 1.0);
    let z = y * y;
    let s = stepped(20, 1.0 / 41.0, |i, s| 1.0 / f64::from(2 * i - 1) + z * s);
    (2.0 * y) * s + k * LN2
}

#[tactic(auto, unfolding(crate::specs::Elementary::POW))]
pub fn pow(b: f64, p: f64) -> f64
    ensures { result ≡ POW b p }
{
    exp(p * ln(b))
}

// Which convergent of TANH's continued fraction to try.
pub fn steps(z: f64) -> u32
    ensures { (1 < result) × (result < 40) × (result ≡ steps_for z) }
{
    if z <= 1.0 {
        10
    } else if z <= 4.0 {
        12
    } else if z <= 16.0 {
        16
    } else if z <= 64.0 {
        21
    } else {
        32
    }
}

// The nth convergent of TANH's continued fraction.
fn convergent(z: f64, n: u32) -> f64
    requires { n ≤ 40 }
    ensures { result ≡ convergent z n }
{
    stepped(n, f64::from(2 * n + 1), |i, t| f64::from(2 * i - 1) + z / t)
}

// What TANH divides v by: the 40th convergent at z = v·v. It lies between any two neighbours before it, so where two of those are one float it is that float.
fn denominator(v: f64) -> f64
    ensures { result ≡ convergent (v ⊗ v) 40 }
{
    let z = v * v;
    let n = steps(z);
    let t = convergent(z, n);
    if t == convergent(z, n + 1) {
        t
    } else {
        convergent(z, 40)
    }
}

#[tactic(auto, using(crate::proofs::Convergents::convergent_whole), unfolding(crate::specs::Elementary::TANH))]
pub fn tanh(v: f64) -> f64
    ensures { result ≡ TANH v }
{
    if v >= 20.0 {
        1.0
    } else if v <= -20.0 {
        -1.0
    } else {
        v / denominator(v)
    }
}
