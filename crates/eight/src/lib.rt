// Elementary functions of eight numbers at a time, each equal to the plain function mapped: the eight chains of divisions
// run side by side in the lanes of one vector. Uses casts and elementary.
#![tactic(auto)]

ghost use Rattle.std.specs.Prelude.{◌≡◌, map, ◌+◌, ◌<◌, ◌≤◌, length};
ghost use Rattle.std.specs.Simd.Lanes.{zip2};
ghost use Rattle.casts.specs.Arithmetic.{◌⊗◌, one};
ghost use Rattle.elementary.specs.Elementary.{TANH, SIN, COS, turn, down};
ghost use Rattle.elementary.specs.Convergent.{convergent};
ghost use Rattle.eight.specs.Each.{held_at, wave_step, saturated_over, group_end};

use std::array;
use std::simd::prelude::*;

fn all_turned(x: f64x8) -> f64x8
    ensures { result ≡ map turn x }
{
    let x = x.to_array();
    f64x8::from_array(array::from_fn(|k| elementary::turned(x[k])))
}

// q, but 1 from 20 up and -1 from -20 down.
fn held(v: f64, q: f64) -> f64
    ensures { result ≡ held_at v q }
{
    if v >= 20.0 {
        1.0
    } else if v <= -20.0 {
        -1.0
    } else {
        q
    }
}

fn all_held(x: f64x8, q: f64x8) -> f64x8
    ensures { result ≡ zip2 held_at x q }
{
    let x = x.to_array();
    let q = q.to_array();
    f64x8::from_array(array::from_fn(|k| held(x[k], q[k])))
}

// The nth convergents of TANH's continued fraction.
fn convergents(z: f64x8, n: u32) -> f64x8
    requires { n ≤ 40 }
    ensures { result ≡ map (λ u. convergent u n) z }
{
    let mut t = f64x8::splat(f64::from(2 * n + 1));
    for i in (1..=n).rev() {
        t = f64x8::splat(f64::from(2 * i - 1)) + z / t;
    }
    t
}

// The terms of SIN (odd 1) or COS (odd 0), from the last down: 1 - z/2·3·(1 - z/4·5·..) or 1 - z/1·2·(1 - z/3·4·..).
fn wave(z: f64x8, terms: u32, odd: u32) -> f64x8
    requires { (terms ≤ 14) × (odd ≤ 1) }
    ensures { result ≡ map (λ u. down (wave_step odd u) terms one) z }
{
    let one = f64x8::splat(1.0);
    let mut s = one;
    for j in (1..=terms).rev() {
        s = one - z / f64x8::splat(f64::from((2 * j + odd) * (2 * j + odd - 1))) * s;
    }
    s
}

// What TANH divides each by, as elementary has one. Two early convergents take fewer steps than the 40th only where no v is great.
fn denominators(x: f64x8) -> f64x8
    ensures { result ≡ map (λ v. convergent (v ⊗ v) 40) x }
{
    let z = x * x;
    let s = z.reduce_sum();
    if s <= 16.0 {
        let n = elementary::steps(s);
        let t = convergents(z, n);
        if t.simd_eq(convergents(z, n + 1)).all() {
            return t;
        }
    }
    convergents(z, 40)
}

fn tanh_eight(x: f64x8) -> f64x8
    ensures { result ≡ map TANH x }
{
    all_held(x, x / denominators(x))
}

pub fn sin_eight(x: f64x8) -> f64x8
    ensures { result ≡ map SIN x }
{
    let r = all_turned(x);
    r * wave(r * r, 13, 1)
}

pub fn cos_eight(x: f64x8) -> f64x8
    ensures { result ≡ map COS x }
{
    let r = all_turned(x);
    wave(r * r, 14, 0)
}

fn saturate_eight(x: f64x8, drive: f64, top: f64) -> f64x8
    ensures { result ≡ map (saturated_over drive top) x }
{
    tanh_eight(x * f64x8::splat(drive)) / f64x8::splat(top)
}

// The same of at most eight, in place.
fn saturate_group(s: &mut [f64], drive: f64, top: f64)
    requires { length s.old ≤ 8 }
    ensures { s.new ≡ map (saturated_over drive top) s.old }
{
    // Each place tested: a copy of a length that is not known calls memcpy.
    let x = array::from_fn(|i| if i < s.len() { s[i] } else { 0.0 });
    let y = saturate_eight(f64x8::from_array(x), drive, top).to_array();
    for i in 0..8 {
        if i < s.len() {
            s[i] = y[i];
        }
    }
}

// The saturation of each, TANH(drive) being in hand, in place.
pub fn saturate_over(s: &mut [f64], drive: f64, top: f64)
    ensures { s.new ≡ map (saturated_over drive top) s.old }
{
    for i in (0..s.len()).step_by(8) {
        let end = group_end(i, s.len());
        saturate_group(&mut s[i..end], drive, top);
    }
}

// Where the group ends that begins at i: eight on, or at the end.
pub fn group_end(i: usize, len: usize) -> usize
    requires { i < len }
    ensures { (i < result) × (result ≤ len) × (result ≤ i + 8) × (result ≡ group_end i len) }
{
    i + 8.min(len - i)
}
