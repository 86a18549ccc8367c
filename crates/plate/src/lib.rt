// The plate (plate.rs): Dattorro's plate-class reverberator, on its own part of the sample store. A line's ring lies
// in that part; the dampings and the high-passes are kept by value. It may use casts, stage, elementary, eight,
// stream, onepole, biquad, delay, rate and allpass.
#![tactic(auto)]

ghost use Rattle.std.specs.Prelude.{◌≡◌, ℕ, ◌+◌, ◌<◌, ◌≤◌, map, length, slice_index_or};
ghost use Rattle.stream.specs.declared.Frame.{Frame};
ghost use Rattle.std.specs.Simd.Lanes.{zip2};
ghost use Rattle.eight.specs.Each.{eight_of};
ghost use Rattle.stage.specs.Stage.{ran, outs};
ghost use Rattle.allpass.specs.Allpass.{gave, stretched_at};
ghost use Rattle.rate.specs.Plate.{InputUsable, HalfUsable, TapsUsable, PlateUsable};
ghost use Rattle.ranges.specs.Ranges.{last_position};
ghost use Rattle.plate.specs.Machine.{turn_of, stretch_of, frame};
ghost use Rattle.rate.specs.Stores.{plate_samples};
ghost use Rattle.plate.specs.Plate.{input_on, half_in, half_from, leaving_on, taps_on, tank_in, fed_on, halves_on, returned_on, tank_on, plate_on, plate_step_on, fresh_on, quiet_of, at_rest_on};

use biquad::Section;
use onepole::OnePole;
use rate::{HalfRate, InputRate, PlateRate, Taps};
use std::array;
use std::simd::prelude::*;
use stream::Frame;

const INPUT_DIFFUSION_1: f64 = 0.75;

const INPUT_DIFFUSION_2: f64 = 0.625;

// "Note sign": decay diffusion 1's lattice is negated.
const DECAY_DIFFUSION_1: f64 = -0.70;

const TAP_GAIN: f64 = 0.6;

const LFO_HZ: f64 = 1.0;

// The halves' dampings.
#[derive(Clone, Copy)]
pub struct Tank {
    pub left: OnePole,
    pub right: OnePole,
}

// The dampings, and each side's high-pass.
#[derive(Clone, Copy)]
pub struct Plate {
    pub tank: Tank,
    pub left: Section,
    pub right: Section,
}

#[derive(Clone, Copy)]
pub struct TankGave {
    pub tank: Tank,
    pub frame: Frame,
}

#[derive(Clone, Copy)]
pub struct PlateGave {
    pub plate: Plate,
    pub frame: Frame,
}

// The predelay and the four input lattices.
#[tactic(auto, unfolding(crate::specs::Plate::input_on))]
fn input(rate: InputRate, part: &mut [f64], x: f64, n: u64) -> f64
    requires input_usable { InputUsable rate }
    requires part_len { (length part.old ≡ rate.places) × (n < last_position) }
    ensures { gave part.new result ≡ input_on rate n part.old x }
{
    let p = allpass::delayed(rate.predelay, part, x, n);
    let a = allpass::lattice(rate.diffuser1, part, INPUT_DIFFUSION_1, p, n);
    let b = allpass::lattice(rate.diffuser2, part, INPUT_DIFFUSION_1, a, n);
    let c = allpass::lattice(rate.diffuser3, part, INPUT_DIFFUSION_2, b, n);
    allpass::lattice(rate.diffuser4, part, INPUT_DIFFUSION_2, c, n)
}

// One half of the tank, first being what the line of its first lattice gives. That read stands apart, so that a half is small
// enough for the compiler to write out for each side.
#[tactic(auto, unfolding(crate::specs::Plate::half_from))]
fn half(
    rate: HalfRate,
    decay: f64,
    diffusion: f64,
    damping: OnePole,
    part: &mut [f64],
    fed: f64,
    first: f64,
    n: u64,
) -> OnePole
    requires half_usable { HalfUsable rate }
    requires part_len { (length part.old ≡ rate.places) × (n < last_position) }
    ensures { half_in result part.new ≡ half_from rate decay diffusion n (half_in damping part.old) fed first }
{
    let a = allpass::lattice_from(rate.diffuser1, part, DECAY_DIFFUSION_1, first, fed, n);
    let b = allpass::delayed(rate.delay1, part, allpass::stored(a), n);
    let damping = damping.lowpass(b);
    let d = allpass::lattice(rate.diffuser2, part, diffusion, damping.y * decay, n);
    let e = allpass::stored(d);
    rate.delay2.line.push(part, n, e);
    damping
}

// What the line of a half's first lattice gives, stretched, before its pushes.
fn first_at(rate: HalfRate, part: &[f64], stretch: f64, n: u64) -> f64
    requires half_usable { HalfUsable rate }
    requires part_len { length part.now ≡ rate.places }
    ensures { result ≡ stretched_at rate.diffuser1 rate.reach stretch n part.now }
{
    allpass::stretched(rate.diffuser1, part, rate.reach, stretch, n)
}

// The sample leaving a half on this frame, before its pushes.
#[tactic(auto, unfolding(crate::specs::Plate::leaving_on))]
fn leaving(rate: HalfRate, part: &[f64], n: u64) -> f64
    requires half_usable { HalfUsable rate }
    requires part_len { length part.now ≡ rate.places }
    ensures { result ≡ leaving_on rate n part.now }
{
    rate.delay2.line.at(part, n, rate.delay2.delay - 1)
}

// A side's taps of the other half and of its own, n samples being pushed.
#[tactic(auto, unfolding(crate::specs::Plate::taps_on))]
fn taps(t: Taps, other: HalfRate, own: HalfRate, there: &[f64], here: &[f64], n: u64) -> f64
    requires other_usable { HalfUsable other }
    requires own_usable { HalfUsable own }
    requires taps_usable { TapsUsable t other own }
    requires there_len { (length there.now ≡ other.places) × (length here.now ≡ own.places) }
    ensures { result ≡ taps_on t other own n there.now here.now }
{
    let a = other.delay1.line.at(there, n, t.first);
    let b = other.delay1.line.at(there, n, t.second);
    let c = other.diffuser2.line.at(there, n, t.third);
    let d = other.delay2.line.at(there, n, t.fourth);
    let e = own.delay1.line.at(here, n, t.fifth);
    let f = own.diffuser2.line.at(here, n, t.sixth);
    let g = own.delay2.line.at(here, n, t.seventh);
    TAP_GAIN * (a + b - c + d - e - f - g)
}

// The LFO's angle at the frame n.
#[tactic(auto, unfolding(crate::specs::Machine::turn_of))]
fn turn(sr: u32, n: u64) -> f64
    ensures { result ≡ turn_of sr n }
{
    let t = LFO_HZ * std::num::nearest_u64_to_f64(n) / f64::from(sr);
    elementary::TAU * (t - std::num::nearest_u64_to_f64(casts::whole_part(t)))
}

// How far each half's first lattice stretches: a quadrature pair.
#[tactic(auto, unfolding(crate::specs::Machine::stretch_of))]
fn stretch(rate: PlateRate, n: u64) -> Frame
    ensures { result ≡ stretch_of rate n }
{
    let turn = turn(rate.sr, n);
    let sin = elementary::sin(turn);
    let cos = elementary::cos(turn);
    Frame {
        left: rate.excursion * sin,
        right: rate.excursion * cos,
    }
}

// The LFO's angles at the eight frames from n on.
fn angles(sr: u32, n: u64) -> f64x8
    requires { n ≤ last_position }
    ensures { result ≡ eight_of (λ j. turn_of sr (n + j)) }
{
    f64x8::from_array(array::from_fn(|j| turn(sr, n + j as u64)))
}

// Frames of two sides.
fn frames(left: f64x8, right: f64x8) -> [Frame; 8]
    ensures { result ≡ zip2 frame left right }
{
    let left = left.to_array();
    let right = right.to_array();
    array::from_fn(|j| Frame {
        left: left[j],
        right: right[j],
    })
}

// The stretches of the eight frames from n on.
fn stretch_eight(rate: PlateRate, n: u64) -> [Frame; 8]
    requires { n ≤ last_position }
    ensures { result ≡ eight_of (λ j. stretch_of rate (n + j)) }
{
    let angles = angles(rate.sr, n);
    let excursion = f64x8::splat(rate.excursion);
    frames(
        excursion * eight::sin_eight(angles),
        excursion * eight::cos_eight(angles),
    )
}

// The stretches of the count frames from n on. A frame alone is cheaper by the plain functions.
fn lfo(rate: PlateRate, n: u64, count: usize) -> [Frame; 8]
    requires { (n ≤ last_position) × (count ≤ 8) }
    ensures { (j : ℕ) (d : Frame) → j < count → slice_index_or result j d ≡ stretch_of rate (n + j) }
{
    if count < 2 {
        [stretch(rate, n); 8]
    } else {
        stretch_eight(rate, n)
    }
}

// What each half is fed: the input, and what leaves the other.
#[tactic(auto, unfolding(crate::specs::Plate::fed_on))]
fn fed(rate: PlateRate, part: &[f64], x: f64, n: u64) -> Frame
    requires plate_usable { PlateUsable rate }
    requires part_len { length part.now ≡ rate.left.places + rate.right.places }
    ensures { result ≡ fed_on rate n part.now x }
{
    let (left, right) = part.split_at(rate.left.places);
    let left = leaving(rate.left, left, n);
    let right = leaving(rate.right, right, n);
    Frame {
        left: x + rate.decay * right,
        right: x + rate.decay * left,
    }
}

// Both halves, each on its own places.
#[tactic(auto, unfolding(crate::specs::Plate::halves_on, crate::specs::Plate::half_on))]
fn halves(rate: PlateRate, tank: Tank, part: &mut [f64], fed: Frame, stretch: Frame, n: u64) -> Tank
    requires plate_usable { PlateUsable rate }
    requires part_len { (length part.old ≡ rate.left.places + rate.right.places) × (n < last_position) }
    ensures { tank_in result part.new ≡ halves_on rate n (tank_in tank part.old) fed stretch }
{
    let (left_part, right_part) = part.split_at_mut(rate.left.places);
    let first = first_at(rate.left, left_part, stretch.left, n);
    let left = half(
        rate.left,
        rate.decay,
        rate.diffusion,
        tank.left,
        left_part,
        fed.left,
        first,
        n,
    );
    let first = first_at(rate.right, right_part, stretch.right, n);
    let right = half(
        rate.right,
        rate.decay,
        rate.diffusion,
        tank.right,
        right_part,
        fed.right,
        first,
        n,
    );
    Tank { left, right }
}

// Both sides' taps, n samples being pushed.
#[tactic(auto, unfolding(crate::specs::Plate::returned_on))]
fn returned(rate: PlateRate, part: &[f64], n: u64) -> Frame
    requires plate_usable { PlateUsable rate }
    requires part_len { length part.now ≡ rate.left.places + rate.right.places }
    ensures { result ≡ returned_on rate n part.now }
{
    let (left, right) = part.split_at(rate.left.places);
    Frame {
        left: taps(rate.left.taps, rate.right, rate.left, right, left, n),
        right: taps(rate.right.taps, rate.left, rate.right, left, right, n),
    }
}

// The tank's step: x comes from the input lattices.
#[tactic(auto, unfolding(crate::specs::Plate::tank_on))]
fn tank_step(
    rate: PlateRate,
    tank: Tank,
    part: &mut [f64],
    x: f64,
    stretch: Frame,
    n: u64,
) -> TankGave
    requires plate_usable { PlateUsable rate }
    requires stretch_value { stretch ≡ stretch_of rate n }
    requires part_len { (length part.old ≡ rate.left.places + rate.right.places) × (n < last_position) }
    ensures { gave (tank_in result.tank part.new) result.frame ≡ tank_on rate n (tank_in tank part.old) x }
{
    let f = fed(rate, part, x, n);
    let tank = halves(rate, tank, part, f, stretch, n);
    let frame = returned(rate, part, n + 1);
    TankGave { tank, frame }
}

// One sample: x is what is sent, and n the samples before it.
#[tactic(auto, unfolding(crate::specs::Plate::plate_step_on))]
fn step(
    rate: PlateRate,
    plate: Plate,
    part: &mut [f64],
    x: f64,
    stretch: Frame,
    n: u64,
) -> PlateGave
    requires plate_usable { PlateUsable rate }
    requires stretch_value { stretch ≡ stretch_of rate n }
    requires part_len { (length part.old ≡ plate_samples rate) × (n < last_position) }
    ensures { gave (plate_on result.plate part.new) result.frame ≡ plate_step_on rate n (plate_on plate part.old) x }
{
    let (input_part, tank_part) = part.split_at_mut(rate.input.places);
    let y = input(rate.input, input_part, x, n);
    let t = tank_step(rate, plate.tank, tank_part, y, stretch, n);
    let left = plate.left.step(t.frame.left);
    let right = plate.right.step(t.frame.right);
    let tank = t.tank;
    PlateGave {
        plate: Plate { tank, left, right },
        frame: Frame {
            left: left.y1,
            right: right.y1,
        },
    }
}

// At most eight samples: what is sent lies in left, and the two sides take its place and right's.
fn group(
    rate: PlateRate,
    mut plate: Plate,
    part: &mut [f64],
    left: &mut [f64],
    right: &mut [f64],
    n: u64,
) -> Plate
    requires plate_usable { PlateUsable rate }
    requires left_len_bound { length left.old ≤ 8 }
    requires part_len { (length part.old ≡ plate_samples rate) × (length right.old ≡ length left.old) × (n + length left.old ≤ last_position) }
    ensures plate_after { plate_on result part.new ≡ ran (plate_step_on rate) n (plate_on plate part.old) left.old }
    ensures left_after { left.new ≡ map (λ (f : Frame). f.left) (outs (plate_step_on rate) n (plate_on plate part.old) left.old) }
    ensures right_after { right.new ≡ map (λ (f : Frame). f.right) (outs (plate_step_on rate) n (plate_on plate part.old) left.old) }
{
    let stretches = lfo(rate, n, left.len());
    for i in 0..left.len() {
        let g = step(rate, plate, part, left[i], stretches[i], n + i as u64);
        plate = g.plate;
        left[i] = g.frame.left;
        right[i] = g.frame.right;
    }
    plate
}

// A block: what is sent lies in left, and the two sides take its place and right's.
pub fn block(
    rate: PlateRate,
    mut plate: Plate,
    part: &mut [f64],
    left: &mut [f64],
    right: &mut [f64],
    n: u64,
) -> Plate
    requires plate_usable { PlateUsable rate }
    requires part_len { (length part.old ≡ plate_samples rate) × (length right.old ≡ length left.old) × (n + length left.old ≤ last_position) }
    ensures plate_after { plate_on result part.new ≡ ran (plate_step_on rate) n (plate_on plate part.old) left.old }
    ensures left_after { left.new ≡ map (λ (f : Frame). f.left) (outs (plate_step_on rate) n (plate_on plate part.old) left.old) }
    ensures right_after { right.new ≡ map (λ (f : Frame). f.right) (outs (plate_step_on rate) n (plate_on plate part.old) left.old) }
{
    for i in (0..left.len()).step_by(8) {
        let end = eight::group_end(i, left.len());
        plate = group(
            rate,
            plate,
            part,
            &mut left[i..end],
            &mut right[i..end],
            n + i as u64,
        );
    }
    plate
}

impl Plate {
    // A plate whose filters' pasts are zero.
    #[tactic(auto, unfolding(crate::specs::Plate::fresh_on))]
    pub fn new(rate: PlateRate) -> Plate
        ensures { result ≡ fresh_on rate }
    {
        let damping = OnePole::new(rate.damping);
        let section = Section::new(rate.highpass);
        Plate {
            tank: Tank {
                left: damping,
                right: damping,
            },
            left: section,
            right: section,
        }
    }

    // Whether its filters' pasts hold only zeros.
    #[tactic(auto, unfolding(crate::specs::Plate::quiet_of))]
    fn quiet(self) -> bool
        ensures { result ≡ quiet_of self }
    {
        self.tank.left.at_rest()
            && self.tank.right.at_rest()
            && self.left.at_rest()
            && self.right.at_rest()
    }
}

// Whether every line and filter holds only zeros.
#[tactic(auto, unfolding(crate::specs::Plate::at_rest_on))]
pub fn at_rest(plate: Plate, part: &[f64]) -> bool
    ensures { result ≡ at_rest_on (plate_on plate part.now) }
{
    delay::at_rest(part) && plate.quiet()
}
