// A run: blocks of samples through the lane and the bus to frames, each on its own parts of the stores.
// Uses the stages, rate for the lengths of their parts, and strip for its types and definitions.
#![tactic(auto)]

ghost use Rattle.std.specs.Prelude.{◌≡◌, map, ◌+◌, ◌-◌, ◌*◌, ◌<◌, ◌≤◌, min, length};
ghost use Rattle.casts.specs.Arithmetic.{◌⊗◌};
ghost use Rattle.ranges.specs.Ranges.{last_position};
ghost use Rattle.stage.specs.Stage.{ran, outs};
ghost use Rattle.stream.specs.declared.Frame.{Frame};
ghost use Rattle.rate.specs.Rate.{rate_of, RateUsable};
ghost use Rattle.rate.specs.Plate.{PlateUsable};
ghost use Rattle.rate.specs.Stores.{plate_samples};
ghost use Rattle.plate.specs.Plate.{plate_on};
ghost use Rattle.master.specs.Kept.{frames_out, counts_out};
ghost use Rattle.strip.specs.Kept.{lane_on, lane_step_on, bus_on, mixed_step_on, bus_step_on, lane_in, state};
ghost use Rattle.blocks.specs.Run.{sents_in, added, LaneRuns, BusRuns, Runs, tuned_of, Piecewise, Outputs, ran_all, all_ran};

use automation::Sweep;
use plate::Plate;
use rate::{PlateRate, Rate, places};
use strip::{Bus, Lane, Strip};
use tape::Tape;

// The samples of a block at most.
const BLOCK: usize = 32;

// ---- the lane

// The lane's tape tuned for the sample n.
pub fn lane_tuned(rate: Rate, lane: Lane, samples: &[f64], counts: &[u64], n: u64) -> Tape
    requires lane_runs { LaneRuns rate (lane_on lane samples.now counts.now) }
    requires n_lt_last_position { n < last_position }
    ensures { result ≡ tuned_of rate n (lane_on lane samples.now counts.now) }
{
    let warp = places::warp_samples(rate);
    let values_end = warp + lane.points;
    let positions_end = duck::COUNTS + lane.points;
    let sweep = Sweep {
        positions: &counts[duck::COUNTS..positions_end],
        values: &samples[warp..values_end],
    };
    let tone = lane.setup.tape.tone;
    tape::tuned(rate.tape, tone, lane.daylight, sweep, lane.tape, n)
}

// The lane's samples at the send level.
fn send(dry: &[f64], sent: &mut [f64], level: f64)
    requires { length sent.old ≡ length dry.now }
    ensures { sent.new ≡ map (λ y. y ⊗ level) dry.now }
{
    for (i, y) in sent.iter_mut().enumerate() {
        *y = dry[i] * level;
    }
}

// A block of at most as many samples as have one tuning. The samples lie in dry, and so does then what is heard dry.
pub fn lane_block(
    rate: Rate,
    lane: Lane,
    tape: Tape,
    drums: bool,
    samples: &mut [f64],
    counts: &mut [u64],
    dry: &mut [f64],
    sent: &mut [f64],
    n: u64,
) -> Lane
    requires rate_usable { RateUsable rate }
    requires lane_runs { LaneRuns rate (lane_on lane samples.old counts.old) }
    requires tape_value { tape ≡ tuned_of rate n (lane_on lane samples.old counts.old) }
    requires piecewise { Piecewise tape.until n (length dry.old) }
    requires sent_len { length sent.old ≡ length dry.old }
    ensures lane_after { lane_on result samples.new counts.new ≡ ran (lane_step_on rate drums) n (lane_on lane samples.old counts.old) dry.old }
    ensures sents_after { sents_in dry.new sent.new ≡ outs (lane_step_on rate drums) n (lane_on lane samples.old counts.old) dry.old }
{
    let warp = places::warp_samples(rate);
    let setup = lane.setup;
    let daylight = lane.daylight;
    let rain = lane.rain;
    let tape = tape::tape_block(
        rate.tape,
        setup.tape,
        rain,
        tape,
        &mut samples[0..warp],
        &mut counts[0..duck::COUNTS],
        dry,
        n,
        drums,
    );
    send(dry, sent, setup.send);
    Lane {
        setup,
        points: lane.points,
        daylight,
        rain,
        tape,
    }
}

// ---- the bus

// The lane's samples in front of a side of the plate's.
fn add(dry: &[f64], side: &mut [f64])
    requires { length side.old ≡ length dry.now }
    ensures { side.new ≡ added dry.now side.old }
{
    for (i, y) in side.iter_mut().enumerate() {
        *y = dry[i] + *y;
    }
}

// The plate, and what is heard dry added. What is sent lies in left.
fn mix(
    rate: PlateRate,
    plate: Plate,
    part: &mut [f64],
    dry: &[f64],
    left: &mut [f64],
    right: &mut [f64],
    n: u64,
) -> Plate
    requires plate_usable { PlateUsable rate }
    requires part_len { (length part.old ≡ plate_samples rate) × (n + length dry.now ≤ last_position) }
    requires left_len { (length left.old ≡ length dry.now) × (length right.old ≡ length dry.now) }
    ensures plate_after { plate_on result part.new ≡ ran (mixed_step_on rate) n (plate_on plate part.old) (sents_in dry.now left.old) }
    ensures left_after { left.new ≡ map (λ (f : Frame). f.left) (outs (mixed_step_on rate) n (plate_on plate part.old) (sents_in dry.now left.old)) }
    ensures right_after { right.new ≡ map (λ (f : Frame). f.right) (outs (mixed_step_on rate) n (plate_on plate part.old) (sents_in dry.now left.old)) }
{
    let next = plate::block(rate, plate, part, left, right, n);
    add(dry, left);
    add(dry, right);
    next
}

// A block through the plate and the ceiling to frames. What is sent lies in left; left and right are room for the two sides.
pub fn bus_block(
    rate: Rate,
    bus: Bus,
    samples: &mut [f64],
    counts: &mut [u64],
    dry: &[f64],
    left: &mut [f64],
    right: &mut [f64],
    frames: &mut [f32],
    gains: &mut [u64],
    n: u64,
) -> Bus
    requires rate_usable { RateUsable rate }
    requires bus_runs { BusRuns rate (bus_on bus samples.old counts.old) }
    requires dry_bound { n + length dry.now ≤ last_position }
    requires outputs { Outputs (length dry.now) (length left.old) (length right.old) (length frames.old) (length gains.old) }
    ensures bus_after { bus_on result samples.new counts.new ≡ ran (bus_step_on rate) n (bus_on bus samples.old counts.old) (sents_in dry.now left.old) }
    ensures frames_after { frames.new ≡ frames_out (outs (bus_step_on rate) n (bus_on bus samples.old counts.old) (sents_in dry.now left.old)) }
    ensures gains_after { gains.new ≡ counts_out (outs (bus_step_on rate) n (bus_on bus samples.old counts.old) (sents_in dry.now left.old)) }
{
    let at = places::plate_samples(rate);
    let plate = mix(
        rate.plate,
        bus.plate,
        &mut samples[0..at],
        dry,
        left,
        right,
        n,
    );
    let ceiling = master::block(
        rate.ceiling,
        bus.ceiling,
        &mut samples[at..],
        counts,
        n,
        left,
        right,
        frames,
        gains,
    );
    Bus { plate, ceiling }
}

// ---- a run's samples, piece by piece

// The lane and then the bus, each on its own parts of the stores. Written out in `go`, where the rate's numbers are constants.
#[inline(always)]
fn block(
    rate: Rate,
    strip: Strip,
    tape: Tape,
    drums: bool,
    dry: &mut [f64],
    left: &mut [f64],
    right: &mut [f64],
    frames: &mut [f32],
    gains: &mut [u64],
    store: &mut [f64],
    counts: &mut [u64],
) -> Strip
    requires rate_usable { RateUsable rate }
    requires runs { Runs rate (state strip store.old counts.old) }
    requires tape_value { tape ≡ tuned_of rate strip.position (lane_in rate (state strip store.old counts.old)) }
    requires piecewise { Piecewise tape.until strip.position (length dry.old) }
    requires outputs { Outputs (length dry.old) (length left.old) (length right.old) (length frames.old) (length gains.old) }
    ensures { ran_all result store.new counts.new frames.new gains.new ≡ all_ran rate drums (state strip store.old counts.old) dry.old }
{
    let n = strip.position;
    let k = dry.len() as u64;
    let lane_part = places::lane_part(rate);
    let bus_part = places::bus_part(rate);
    let lane = lane_block(
        rate,
        strip.lane,
        tape,
        drums,
        &mut store[lane_part.samples],
        &mut counts[lane_part.counts],
        dry,
        left,
        n,
    );
    let bus = bus_block(
        rate,
        strip.bus,
        &mut store[bus_part.samples],
        &mut counts[bus_part.counts],
        dry,
        left,
        right,
        frames,
        gains,
        n,
    );
    Strip {
        position: n + k,
        lane,
        bus,
    }
}

// The tape tuned for the next sample.
fn tuned(rate: Rate, strip: Strip, store: &[f64], counts: &[u64]) -> Tape
    requires rate_usable { RateUsable rate }
    requires runs { Runs rate (state strip store.now counts.now) }
    requires position_lt_last_position { strip.position < last_position }
    ensures { result ≡ tuned_of rate strip.position (lane_in rate (state strip store.now counts.now)) }
{
    let part = places::lane_part(rate);
    lane_tuned(
        rate,
        strip.lane,
        &store[part.samples],
        &counts[part.counts],
        strip.position,
    )
}

// How many of the samples left the next block has: those of one tuning, and no more than its arrays hold.
fn block_len(until: u64, n: u64, left: usize) -> usize
    requires { (n < until) × (0 < left) }
    ensures { (0 < result) × (n + result ≤ until) × (result ≤ left) × (result ≤ 32) × (result ≡ min (min (until - n) left) 32) }
{
    (until - n).min(left.min(BLOCK) as u64) as usize
}

// The rate is made here, so that its numbers are constants to the compiler.
pub fn go(
    strip: Strip,
    samples: &[f64],
    drums: bool,
    frames: &mut [f32],
    gains: &mut [u64],
    store: &mut [f64],
    counts: &mut [u64],
) -> Strip
    requires runs { Runs (rate_of 44100) (state strip store.old counts.old) }
    requires samples_bound { strip.position + length samples.now ≤ last_position }
    requires frames_len { (length frames.old ≡ 2 * length samples.now) × (length gains.old ≡ length samples.now) }
    ensures { ran_all result store.new counts.new frames.new gains.new ≡ all_ran (rate_of 44100) drums (state strip store.old counts.old) samples.now }
{
    let rate = Rate::cd();
    let mut dry = [0.0f64; BLOCK];
    let mut left = [0.0f64; BLOCK];
    let mut right = [0.0f64; BLOCK];
    let mut strip = strip;
    let mut i: usize = 0;
    // By hand: a block is as long as its tuning lasts, which only the block before leaves.
    while i < samples.len() {
        let tape = tuned(rate, strip, store, counts);
        let k = block_len(tape.until, strip.position, samples.len() - i);
        let e = i + k;
        let from = 2 * i;
        let to = 2 * e;
        dry[0..k].copy_from_slice(&samples[i..e]);
        strip = block(
            rate,
            strip,
            tape,
            drums,
            &mut dry[0..k],
            &mut left[0..k],
            &mut right[0..k],
            &mut frames[from..to],
            &mut gains[i..e],
            store,
            counts,
        );
        i = e;
    }
    strip
}
