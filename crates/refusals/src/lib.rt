// Document 01, 'When the part declines': a function for each ground, true where the part does not decline, and for each call one that takes its
// grounds in their order and answers the refusal of the first that fails.
// Uses casts, ranges, duck, master and rate, and strip for the types and definitions.
#![tactic(auto)]

ghost use Rattle.std.specs.Prelude.{◌≡◌, ◌&&◌, [], leb, length, take, drop};
ghost use Rattle.casts.specs.Arithmetic.{whole, nought};
ghost use Rattle.ranges.specs.Ranges.{most_points, in_range};
ghost use Rattle.duck.specs.Cursors.{duck_counts, duck_on, duck_formed};
ghost use Rattle.rate.specs.Rate.{rate_of, RateUsable, Sized};
ghost use Rattle.rate.specs.Stores.{warp_samples, lane_samples, lane_counts};
ghost use Rattle.strip.specs.Refusals.{long_enough, ok_corner, ok_drive, ok_unit, ok_tone, ok_pad, ok_gain, ok_tape, ok_setup, ok_points, ok_kicks, ok_lists, ok_ramp, ok_outputs, ok_end, ok_samples, ok_controls};
ghost use Rattle.strip.specs.Kept.{lists_of, lane_on, LaneLong, bus_on, BusLong, state, lane_formed, bus_formed, formed};
ghost use Rattle.strip.specs.Calls.{first_of, open_grounds, run_grounds, latch_grounds, first};

use automation::Tone;
use duck::Duck;
use oscillators::Pad;
use ramp::Ramp;
use rate::{Rate, places};
use strip::{Bus, Controls, Lane, Refusal, Setup, Strip};
use tape::TapeSetup;

// ---- 1

#[tactic(auto, unfolding(strip::specs::Refusals::long_enough))]
pub fn long_enough(rate: Rate, store: &[f64], counts: &[u64]) -> bool
    ensures { result ≡ long_enough rate store.now counts.now }
{
    rate.samples <= store.len() && rate.counts <= counts.len()
}

// ---- 2

fn ok_corner(x: f32) -> bool
    ensures { result ≡ ok_corner x }
{
    ranges::in_range(20.0, 20000.0, casts::widen(x))
}

fn ok_drive(x: f64) -> bool
    ensures { result ≡ ok_drive x }
{
    ranges::in_range(0.1, 8.0, x)
}

#[tactic(auto, unfolding(strip::specs::Refusals::ok_unit))]
fn ok_unit(x: f64) -> bool
    ensures { result ≡ ok_unit x }
{
    ranges::in_range(0.0, 1.0, x)
}

fn ok_gain(x: f64) -> bool
    ensures { result ≡ ok_gain x }
{
    ranges::in_range(0.0, 16.0, x)
}

#[tactic(auto, unfolding(strip::specs::Refusals::ok_tone))]
fn ok_tone(tone: Tone) -> bool
    ensures { result ≡ ok_tone tone }
{
    match tone {
        Tone::Fixed { corner, drive } => ok_corner(corner) && ok_drive(drive),
        Tone::Graded {
            night_corner,
            day_corner,
            night_drive,
            day_drive,
        } => {
            ok_corner(night_corner)
                && ok_corner(day_corner)
                && ok_drive(casts::widen(night_drive))
                && ok_drive(casts::widen(day_drive))
        }
    }
}

fn ok_hz(x: f32) -> bool
    ensures { result ≡ in_range nought (whole 20) x }
{
    ranges::in_range(0.0, 20.0, casts::widen(x))
}

#[tactic(auto, unfolding(strip::specs::Refusals::ok_pad))]
fn ok_pad(pad: Option<Pad>) -> bool
    ensures { result ≡ ok_pad pad }
{
    match pad {
        None => true,
        Some(pad) => ok_hz(pad.hz) && ok_unit(casts::widen(pad.depth)),
    }
}

#[tactic(auto, unfolding(strip::specs::Refusals::ok_tape))]
fn ok_tape(setup: TapeSetup) -> bool
    ensures { result ≡ ok_tape setup }
{
    ok_tone(setup.tone) && ok_pad(setup.pad) && ok_gain(setup.input) && ok_gain(setup.output)
}

#[tactic(auto, unfolding(strip::specs::Refusals::ok_setup))]
pub fn ok_setup(setup: Setup) -> bool
    ensures { result ≡ ok_setup setup }
{
    ok_tape(setup.tape)
        && ok_unit(casts::widen(setup.daylight))
        && ok_unit(casts::widen(setup.rain))
        && ok_unit(setup.send)
}

// ---- 3

#[tactic(auto, unfolding(strip::specs::Refusals::ok_points))]
fn ok_points(positions: &[u64], values: &[f64]) -> bool
    ensures { result ≡ ok_points positions.now values.now }
{
    positions.len() <= ranges::MOST_POINTS
        && positions.len() == values.len()
        && ranges::rising(positions)
        && ranges::all_in_range(0.0, 1.0, values)
}

#[tactic(auto, unfolding(strip::specs::Refusals::ok_kicks))]
fn ok_kicks(kicks: &[u64]) -> bool
    ensures { result ≡ ok_kicks kicks.now }
{
    kicks.len() <= ranges::MOST_KICKS && ranges::rising(kicks)
}

#[tactic(auto, unfolding(strip::specs::Refusals::ok_lists))]
fn ok_lists(positions: &[u64], values: &[f64], kicks: &[u64]) -> bool
    ensures { result ≡ ok_lists (lists_of positions.now values.now kicks.now) }
{
    ok_points(positions, values) && ok_kicks(kicks)
}

// 1, 2 and 3.
#[tactic(auto, unfolding(strip::specs::Calls::first_of))]
pub fn check_open(
    rate: Rate,
    setup: Setup,
    positions: &[u64],
    values: &[f64],
    kicks: &[u64],
    store: &[f64],
    counts: &[u64],
) -> Result<(), Refusal>
    ensures { result ≡ first_of (open_grounds rate setup (lists_of positions.now values.now kicks.now) store.now counts.now) }
{
    if !long_enough(rate, store, counts) {
        return Err(Refusal::StoreShort);
    }
    if !ok_setup(setup) {
        return Err(Refusal::BadSetup);
    }
    if !ok_lists(positions, values, kicks) {
        return Err(Refusal::BadList);
    }
    Ok(())
}

// ---- 4

#[tactic(auto, unfolding(strip::specs::Refusals::ok_ramp))]
fn ok_ramp(ramp: Ramp) -> bool
    ensures { result ≡ ok_ramp ramp }
{
    ramp.start <= ranges::LAST_POSITION && ramp.len <= ranges::LAST_POSITION
}

// The kept lists: no more points than there is room for, and these and the kicks as 3 asks.
fn lists_formed(rate: Rate, points: usize, duck: Duck, samples: &[f64], counts: &[u64]) -> bool
    requires { (length samples.now ≡ lane_samples rate) × (length counts.now ≡ lane_counts) }
    ensures { result ≡ (leb points most_points && (ok_points (take points (drop duck_counts counts.now)) (take points (drop (warp_samples rate.tape) samples.now)) && duck_formed (duck_on duck (take duck_counts counts.now)))) }
{
    // First, and by itself: the slices below need it.
    if ranges::MOST_POINTS < points {
        return false;
    }
    let w = places::warp_samples(rate);
    ok_points(
        &counts[duck::COUNTS..duck::COUNTS + points],
        &samples[w..w + points],
    ) && duck::formed(duck, &counts[0..duck::COUNTS])
}

// A lane, with its own parts of the stores.
#[tactic(auto, unfolding(strip::specs::Kept::lane_formed))]
pub fn lane_formed(rate: Rate, lane: Lane, samples: &[f64], counts: &[u64]) -> bool
    requires rate_usable { RateUsable rate }
    requires lane_long { LaneLong rate (lane_on lane samples.now counts.now) }
    ensures { result ≡ lane_formed rate (lane_on lane samples.now counts.now) }
{
    ok_ramp(lane.daylight)
        && ok_ramp(lane.rain)
        && ok_setup(lane.setup)
        && lists_formed(rate, lane.points, lane.tape.duck, samples, counts)
}

// A bus, with its own.
#[tactic(auto, unfolding(strip::specs::Kept::bus_formed))]
pub fn bus_formed(rate: Rate, bus: Bus, samples: &[f64], counts: &[u64]) -> bool
    requires rate_usable { RateUsable rate }
    requires bus_long { BusLong rate (bus_on bus samples.now counts.now) }
    ensures { result ≡ bus_formed rate (bus_on bus samples.now counts.now) }
{
    let p = places::plate_samples(rate);
    master::well_formed(rate.ceiling, bus.ceiling, &samples[p..], counts)
}

// Lends each its parts of the stores.
#[tactic(auto, unfolding(strip::specs::Kept::formed))]
fn formed(rate: Rate, strip: Strip, store: &[f64], counts: &[u64]) -> bool
    requires rate_usable { RateUsable rate }
    requires sized { Sized rate store.now counts.now }
    ensures { result ≡ formed rate (state strip store.now counts.now) }
{
    let lane_part = places::lane_part(rate);
    let bus_part = places::bus_part(rate);
    strip.position <= ranges::LAST_POSITION
        && lane_formed(
            rate,
            strip.lane,
            &store[lane_part.samples],
            &counts[lane_part.counts],
        )
        && bus_formed(
            rate,
            strip.bus,
            &store[bus_part.samples],
            &counts[bus_part.counts],
        )
}

// 1 and 4. The rate is made here, so that its numbers are constants to the compiler.
#[tactic(auto, unfolding(strip::specs::Calls::first, strip::specs::Calls::first_of))]
pub fn check_strip(strip: Strip, store: &[f64], counts: &[u64]) -> Result<(), Refusal>
    ensures { result ≡ first (rate_of 44100) (state strip store.now counts.now) [] }
{
    let rate = Rate::cd();
    if !long_enough(rate, store, counts) {
        return Err(Refusal::StoreShort);
    }
    if !formed(rate, strip, store, counts) {
        return Err(Refusal::BadStrip);
    }
    Ok(())
}

// ---- 5, 6 and 7

// With no product that could wrap.
#[tactic(auto, unfolding(strip::specs::Refusals::ok_outputs))]
fn ok_outputs(samples: usize, frames: usize, gains: usize) -> bool
    ensures { result ≡ ok_outputs samples frames gains }
{
    frames % 2 == 0 && frames / 2 == samples && gains == samples
}

// With no sum that could wrap.
#[tactic(auto, unfolding(strip::specs::Refusals::ok_end))]
fn ok_end(position: u64, samples: usize) -> bool
    ensures { result ≡ ok_end position samples }
{
    position <= ranges::LAST_POSITION && samples as u64 <= ranges::LAST_POSITION - position
}

fn ok_samples(samples: &[f64]) -> bool
    ensures { result ≡ ok_samples samples.now }
{
    ranges::all_in_range(-1024.0, 1024.0, samples)
}

// 5, 6 and 7.
#[tactic(auto, unfolding(strip::specs::Calls::first_of))]
pub fn check_run(position: u64, samples: &[f64], frames: usize, gains: usize) -> Result<(), Refusal>
    ensures { result ≡ first_of (run_grounds position samples.now frames gains) }
{
    if !ok_outputs(samples.len(), frames, gains) {
        return Err(Refusal::BadOutput);
    }
    if !ok_end(position, samples.len()) {
        return Err(Refusal::PastEnd);
    }
    if !ok_samples(samples) {
        return Err(Refusal::BadSample);
    }
    Ok(())
}

// ---- 8

#[tactic(auto, unfolding(strip::specs::Refusals::ok_controls))]
fn ok_controls(controls: Controls) -> bool
    ensures { result ≡ ok_controls controls }
{
    ok_unit(casts::widen(controls.daylight))
        && ok_unit(casts::widen(controls.rain))
        && controls.grading <= ranges::LAST_POSITION
        && controls.darkening <= ranges::LAST_POSITION
}

// 8.
#[tactic(auto, unfolding(strip::specs::Calls::first_of))]
pub fn check_latch(controls: Controls) -> Result<(), Refusal>
    ensures { result ≡ first_of (latch_grounds controls) }
{
    if !ok_controls(controls) {
        return Err(Refusal::BadControl);
    }
    Ok(())
}
