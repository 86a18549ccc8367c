// What open leaves: a fresh lane and a fresh bus, each on its own parts of the two stores, and the strip of both.
// Uses the stages, rate for the places of their parts, laying for the lists, and strip for its types.
#![tactic(auto)]

ghost use Rattle.std.specs.Prelude.{◌≡◌, ◌++◌, ◌≤◌, length, take, drop, replicate};
ghost use Rattle.casts.specs.Arithmetic.{nought};
ghost use Rattle.ranges.specs.Ranges.{most_points, most_kicks};
ghost use Rattle.stage.specs.Stage.{over};
ghost use Rattle.duck.specs.Cursors.{duck_counts, laid};
ghost use Rattle.rate.specs.Rate.{RateUsable, Sized};
ghost use Rattle.rate.specs.Stores.{bus_samples, bus_counts, warp_samples, lane_samples, lane_counts};
ghost use Rattle.strip.specs.Kept.{lists_of, lane_on, bus_on, state, opened_lane, opened_bus, opened_state};

use duck::Duck;
use plate::Plate;
use ramp::{Ramp, Shape};
use rate::{Rate, places};
use strip::{Bus, Lane, Setup, Strip};

// The warp's line silent, and the sweep's values behind it.
fn lay_samples(rate: Rate, values: &[f64], samples: &mut [f64])
    requires { (length samples.old ≡ lane_samples rate) × (length values.now ≤ most_points) }
    ensures { samples.new ≡ replicate (warp_samples rate.tape) nought ++ over values.now (drop (warp_samples rate.tape) samples.old) }
{
    let w = places::warp_samples(rate);
    samples[..w].fill(0.0);
    laying::lay(values, &mut samples[w..]);
}

// The kicks, and the sweep's positions behind them.
fn lay_counts(positions: &[u64], kicks: &[u64], counts: &mut [u64])
    requires { (length counts.old ≡ lane_counts) × (length positions.now ≤ most_points) × (length kicks.now ≤ most_kicks) }
    ensures { counts.new ≡ (laid kicks.now (take duck_counts counts.old)).part ++ over positions.now (drop duck_counts counts.old) }
{
    Duck::new(kicks, &mut counts[0..duck::COUNTS]);
    laying::lay(positions, &mut counts[duck::COUNTS..]);
}

pub fn open_lane(
    rate: Rate,
    setup: Setup,
    positions: &[u64],
    values: &[f64],
    kicks: &[u64],
    samples: &mut [f64],
    counts: &mut [u64],
) -> Lane
    requires rate_usable { RateUsable rate }
    requires samples_len { (length samples.old ≡ lane_samples rate) × (length counts.old ≡ lane_counts) }
    requires positions_len_bound { (length positions.now ≤ most_points) × (length values.now ≤ most_points) × (length kicks.now ≤ most_kicks) }
    ensures { lane_on result samples.new counts.new ≡ opened_lane rate setup (lists_of positions.now values.now kicks.now) samples.old counts.old }
{
    lay_samples(rate, values, samples);
    lay_counts(positions, kicks, counts);
    let daylight = Ramp::held(casts::widen(setup.daylight), Shape::Linear);
    let rain = Ramp::held(casts::widen(setup.rain), Shape::Linear);
    let tape = tape::fresh(rate.tape, kicks.len());
    Lane {
        setup,
        points: positions.len(),
        daylight,
        rain,
        tape,
    }
}

pub fn open_bus(rate: Rate, samples: &mut [f64], counts: &mut [u64]) -> Bus
    requires rate_usable { RateUsable rate }
    requires samples_len { (length samples.old ≡ bus_samples rate) × (length counts.old ≡ bus_counts rate) }
    ensures { bus_on result samples.new counts.new ≡ opened_bus rate samples.old counts.old }
{
    let p = places::plate_samples(rate);
    samples[..p].fill(0.0);
    let ceiling = master::fresh(rate.ceiling, &mut samples[p..], counts);
    let plate = Plate::new(rate.plate);
    Bus { plate, ceiling }
}

pub fn open_strip(
    rate: Rate,
    setup: Setup,
    positions: &[u64],
    values: &[f64],
    kicks: &[u64],
    store: &mut [f64],
    counts: &mut [u64],
) -> Strip
    requires rate_usable { RateUsable rate }
    requires sized { Sized rate store.old counts.old }
    requires positions_len_bound { (length positions.now ≤ most_points) × (length values.now ≤ most_points) × (length kicks.now ≤ most_kicks) }
    ensures { state result store.new counts.new ≡ opened_state rate setup (lists_of positions.now values.now kicks.now) store.old counts.old }
{
    let lane_part = places::lane_part(rate);
    let bus_part = places::bus_part(rate);
    let lane = open_lane(
        rate,
        setup,
        positions,
        values,
        kicks,
        &mut store[lane_part.samples],
        &mut counts[lane_part.counts],
    );
    let bus = open_bus(
        rate,
        &mut store[bus_part.samples],
        &mut counts[bus_part.counts],
    );
    Strip {
        position: 0,
        lane,
        bus,
    }
}
