// The lane's oscillators (lanes.rs `phase` and `Tape::process`, recipe.rs `PadTone::swell`): the pad's swell, and how far behind its
// newest sample the warp is read, of one sample and of a group of eight. Uses casts, elementary, eight and rate.
#![tactic(auto)]

ghost use Rattle.std.specs.Prelude.{◌≡◌, ◌+◌, ◌<◌, ◌≤◌, map};
ghost use Rattle.casts.specs.Arithmetic.{whole};
ghost use Rattle.eight.specs.Each.{eight_of, Laid};
ghost use Rattle.ranges.specs.Ranges.{last_position};
ghost use Rattle.oscillators.specs.Oscillators.{phase_of, swell_of, warp_delay, swelled};

use rate::TapeRate;
use std::array;
use std::simd::prelude::*;

// A pad: its swell's rate in Hz and its depth.
#[derive(Clone, Copy)]
pub struct Pad {
    pub hz: f32,
    pub depth: f32,
}

// The phase in radians, within one cycle, of a sine at hz, n samples in; an f32's value.
fn phase(rate: u32, hz: f32, n: u64) -> f64
    ensures { result ≡ phase_of rate hz n }
{
    let cycles = casts::widen(hz) * std::num::nearest_u64_to_f64(n) / (rate as f64);
    casts::widen(casts::narrow(elementary::TAU * (cycles - casts::floor(cycles))))
}

// The swell whose sine is s.
fn swell_by(depth: f32, s: f64) -> f64
    ensures { result ≡ swelled depth s }
{
    casts::widen(1.0f32 + depth * casts::narrow(s))
}

// The pad's swell at sample n; 1 without a pad.
fn swell(rate: u32, pad: Option<Pad>, n: u64) -> f64
    ensures { result ≡ swell_of rate pad n }
{
    match pad {
        None => 1.0,
        Some(Pad { hz, depth }) => swell_by(depth, elementary::sin(phase(rate, hz, n))),
    }
}

// How far behind its newest sample the warp is read at sample n.
fn warp_delay(rate: TapeRate, n: u64) -> f64
    ensures { result ≡ warp_delay rate n }
{
    let count = std::num::nearest_u64_to_f64(n);
    let wow = elementary::sin(rate.wow.w * count);
    let flutter = elementary::sin(rate.flutter.w * count);
    rate.reach - rate.wow.a * wow - rate.flutter.a * flutter
}

// ---- of the eight samples from n on

fn phases(rate: u32, hz: f32, n: u64) -> f64x8
    requires { n < last_position }
    ensures { result ≡ eight_of (λ k. phase_of rate hz (n + k)) }
{
    f64x8::from_array(array::from_fn(|k| phase(rate, hz, n + k as u64)))
}

fn swells_by(depth: f32, s: f64x8) -> f64x8
    ensures { result ≡ map (swelled depth) s }
{
    let s = s.to_array();
    f64x8::from_array(array::from_fn(|k| swell_by(depth, s[k])))
}

fn swell_eight(rate: u32, pad: Option<Pad>, n: u64) -> f64x8
    requires { n < last_position }
    ensures { result ≡ eight_of (λ k. swell_of rate pad (n + k)) }
{
    match pad {
        None => f64x8::splat(1.0),
        Some(Pad { hz, depth }) => swells_by(depth, eight::sin_eight(phases(rate, hz, n))),
    }
}

fn counts(n: u64) -> f64x8
    requires { n < last_position }
    ensures { result ≡ eight_of (λ k. whole (n + k)) }
{
    f64x8::from_array(array::from_fn(|k| { std::num::nearest_u64_to_f64(n + k as u64) }))
}

fn delay_eight(rate: TapeRate, n: u64) -> f64x8
    requires { n < last_position }
    ensures { result ≡ eight_of (λ k. warp_delay rate (n + k)) }
{
    let count = counts(n);
    let wow = eight::sin_eight(f64x8::splat(rate.wow.w) * count);
    let flutter = eight::sin_eight(f64x8::splat(rate.flutter.w) * count);
    f64x8::splat(rate.reach)
        - f64x8::splat(rate.wow.a) * wow
        - f64x8::splat(rate.flutter.a) * flutter
}

// ---- of a group, the first count of the eight samples from n on: a sample alone is cheaper by the plain functions

pub fn swells(rate: u32, pad: Option<Pad>, n: u64, count: usize) -> [f64; 8]
    requires { (n < last_position) × (count ≤ 8) }
    ensures { Laid count (λ k. swell_of rate pad (n + k)) result }
{
    if count < 2 {
        [swell(rate, pad, n); 8]
    } else {
        swell_eight(rate, pad, n).to_array()
    }
}

pub fn delays(rate: TapeRate, n: u64, count: usize) -> [f64; 8]
    requires { (n < last_position) × (count ≤ 8) }
    ensures { Laid count (λ k. warp_delay rate (n + k)) result }
{
    if count < 2 {
        [warp_delay(rate, n); 8]
    } else {
        delay_eight(rate, n).to_array()
    }
}
