// The four calls: open, run, latch, rest. Uses refusals for the checks, opening and blocks for the work, and the stages; strip has the types and the definitions that the contracts cite.
#![tactic(auto)]

ghost use Rattle.std.specs.Prelude.{◌≡◌, length};
ghost use Rattle.rate.specs.Rate.{rate_of, RateUsable, Sized};
ghost use Rattle.rate.specs.Stores.{bus_samples, lane_samples};
ghost use Rattle.strip.specs.Kept.{lists_of, state, lane_latched_on, latched_strip, lane_resting_on, bus_resting_on, resting_on};
ghost use Rattle.strip.specs.Calls.{open_call, run_call, latch_call, rest_call};
ghost use Rattle.part.specs.Pieces.{opened, went};

use rate::{Rate, places};
use strip::{Bus, Controls, Declined, Lane, Refusal, Setup, Strip};

// ---- open

#[tactic(auto, unfolding(strip::specs::Calls::open_call))]
pub fn open(
    setup: Setup,
    positions: &[u64],
    values: &[f64],
    kicks: &[u64],
    store: &mut [f64],
    counts: &mut [u64],
) -> Result<Strip, Refusal>
    ensures { opened result store.new counts.new ≡ open_call (rate_of 44100) setup (lists_of positions.now values.now kicks.now) store.old counts.old }
{
    let rate = Rate::cd();
    refusals::check_open(rate, setup, positions, values, kicks, store, counts)?;
    Ok(opening::open_strip(rate, setup, positions, values, kicks, store, counts))
}

// ---- run

pub fn run(
    strip: Strip,
    samples: &[f64],
    drums: bool,
    frames: &mut [f32],
    gains: &mut [u64],
    store: &mut [f64],
    counts: &mut [u64],
) -> Result<Strip, Declined>
    ensures { went result store.new counts.new frames.new gains.new ≡ run_call (rate_of 44100) (state strip store.old counts.old) samples.now drums frames.old gains.old }
{
    let check_run = |()| refusals::check_run(strip.position, samples, frames.len(), gains.len());
    match refusals::check_strip(strip, store, counts).and_then(check_run) {
        Ok(()) => Ok(blocks::go(strip, samples, drums, frames, gains, store, counts)),
        Err(refusal) => Err(Declined { refusal, strip }),
    }
}

// ---- latch

// Both ramps on their way from n. The lane's tuning follows the daylight's, so it is given up.
#[tactic(auto, unfolding(strip::specs::Kept::lane_latched_on))]
pub fn lane_latched(n: u64, lane: Lane, controls: Controls) -> Lane
    ensures { result ≡ lane_latched_on n lane controls }
{
    Lane {
        daylight: lane
            .daylight
            .toward(n, casts::widen(controls.daylight), controls.grading),
        rain: lane
            .rain
            .toward(n, casts::widen(controls.rain), controls.darkening),
        tape: tape::untuned(lane.tape),
        ..lane
    }
}

#[tactic(auto, unfolding(strip::specs::Kept::latched_strip))]
fn latched(strip: Strip, controls: Controls) -> Strip
    ensures { result ≡ latched_strip strip controls }
{
    Strip {
        lane: lane_latched(strip.position, strip.lane, controls),
        ..strip
    }
}

#[tactic(auto, using(refusals::proofs::Numbers::first_is), unfolding(strip::specs::Calls::latch_call))]
pub fn latch(
    strip: Strip,
    controls: Controls,
    store: &[f64],
    counts: &[u64],
) -> Result<Strip, Declined>
    ensures { result ≡ latch_call (rate_of 44100) (state strip store.now counts.now) controls }
{
    let check_latch = |()| refusals::check_latch(controls);
    match refusals::check_strip(strip, store, counts).and_then(check_latch) {
        Ok(()) => Ok(latched(strip, controls)),
        Err(refusal) => Err(Declined { refusal, strip }),
    }
}

// ---- rest

// Whether the lane's filters and the warp's line hold only zeros.
#[tactic(auto, unfolding(strip::specs::Kept::lane_resting_on))]
pub fn lane_resting(rate: Rate, lane: Lane, samples: &[f64]) -> bool
    requires { length samples.now ≡ lane_samples rate }
    ensures { result ≡ lane_resting_on rate lane samples.now }
{
    let w = places::warp_samples(rate);
    tape::at_rest(lane.tape, &samples[0..w])
}

// Whether the plate's filters and lines do.
#[tactic(auto, unfolding(strip::specs::Kept::bus_resting_on))]
pub fn bus_resting(rate: Rate, bus: Bus, samples: &[f64]) -> bool
    requires rate_usable { RateUsable rate }
    requires samples_len { length samples.now ≡ bus_samples rate }
    ensures { result ≡ bus_resting_on rate bus samples.now }
{
    let p = places::plate_samples(rate);
    plate::at_rest(bus.plate, &samples[0..p])
}

// Lends each its parts of the stores.
#[tactic(auto, unfolding(strip::specs::Kept::resting_on))]
fn resting(rate: Rate, strip: Strip, store: &[f64], counts: &[u64]) -> bool
    requires rate_usable { RateUsable rate }
    requires sized { Sized rate store.now counts.now }
    ensures { result ≡ resting_on rate (state strip store.now counts.now) }
{
    lane_resting(rate, strip.lane, &store[places::lane_part(rate).samples])
        && bus_resting(rate, strip.bus, &store[places::bus_part(rate).samples])
}

#[tactic(auto, unfolding(strip::specs::Calls::rest_call))]
pub fn rest(strip: Strip, store: &[f64], counts: &[u64]) -> Result<bool, Declined>
    ensures { result ≡ rest_call (rate_of 44100) (state strip store.now counts.now) }
{
    match refusals::check_strip(strip, store, counts) {
        Ok(()) => Ok(resting(Rate::cd(), strip, store, counts)),
        Err(refusal) => Err(Declined { refusal, strip }),
    }
}
