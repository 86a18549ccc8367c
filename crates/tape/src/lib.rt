// The tape lane as a stage (lanes.rs `Tape`): tone, swell and gain, warp, saturation, head bump, rolloff, tilt, gain and duck.
// It works on its own parts of the stores: the warp's ring in the sample store, the duck's part in the count store.
// Uses casts, ranges, elementary, eight, stage, onepole, biquad, delay, ramp, rate, automation, sidechain, duck and oscillators.
#![tactic(auto)]

ghost use Rattle.std.specs.Prelude.{◌≡◌, map, ◌+◌, ◌<◌, ◌≤◌, length};
ghost use Rattle.eight.specs.Each.{saturated_over};
ghost use Rattle.stage.specs.Stage.{ran, outs};
ghost use Rattle.onepole.specs.OnePole.{tilt_step};
ghost use Rattle.duck.specs.Cursors.{duck_on, Within};
ghost use Rattle.oscillators.specs.Oscillators.{swell_of, warp_delay};
ghost use Rattle.ranges.specs.Ranges.{last_position};
ghost use Rattle.tape.specs.Tape.{lift_at, equalizer_step, equalizer_at_rest};
ghost use Rattle.tape.specs.Kept.{front_step_on, front_on, front_gave, equalizer_gave, ducked_step_on, tape_on, tape_tuned, tuned_at, untuned, WarpFits, fresh_tape, tape_at_rest_on};

use automation::{Sweep, Tone};
use biquad::{Coefficients, Lowpass, Section};
use duck::Duck;
use onepole::{OnePole, Tilted};
use oscillators::Pad;
use ramp::Ramp;
use rate::TapeRate;
use sidechain::DuckRate;

// What a maker sets of a lane.
#[derive(Clone, Copy)]
pub struct TapeSetup {
    pub tone: Tone,
    pub pad: Option<Pad>,
    pub darkened: bool,
    // gain in and gain out
    pub input: f64,
    pub output: f64,
    pub ducked: bool,
}

// What follows the saturation: the head bump, the rolloff and the tilt.
#[derive(Clone, Copy)]
pub struct Equalizer {
    pub bump: Section,
    pub rolloff: Lowpass,
    pub tilt: OnePole,
}

// The filters and the duck; the drive and its TANH; and the position up to which the tone's corner and the drive hold.
#[derive(Clone, Copy)]
pub struct Tape {
    pub tone: Lowpass,
    pub equalizer: Equalizer,
    pub duck: Duck,
    pub drive: f64,
    pub top: f64,
    pub until: u64,
}

#[derive(Clone, Copy)]
pub struct Fronted {
    pub tone: Lowpass,
    pub y: f64,
}

#[derive(Clone, Copy)]
pub struct Equalized {
    pub equalizer: Equalizer,
    pub y: f64,
}

const HEAD_BUMP_MIX: f32 = 0.35;

// The saturation, TANH(drive) being in hand.
fn saturate_over(drive: f64, top: f64, x: f64) -> f64
    ensures { result ≡ saturated_over drive top x }
{
    elementary::tanh(x * drive) / top
}

// The tilt's lift at sample n: the rain moves it only where it darkens the lane.
#[tactic(auto, unfolding(crate::specs::Tape::lift_at))]
fn lift(darkened: bool, rain: Ramp, n: u64) -> f64
    ensures { result ≡ lift_at darkened rain n }
{
    if darkened {
        onepole::lift(rain.at(n))
    } else {
        casts::widen(onepole::TILT_LIFT)
    }
}

// ---- one sample of each pass

// Tone, swell and gain in, warp: the ring is the warp's own, the swell and the delay are the sample's.
#[tactic(auto, unfolding(crate::specs::Kept::front_step_on))]
fn front_step(
    rate: TapeRate,
    setup: TapeSetup,
    tone: Lowpass,
    ring: &mut [f64],
    n: u64,
    swell: f64,
    delay: f64,
    x: f64,
) -> Fronted
    requires warp_fits { WarpFits rate ring.old }
    requires n_lt_last_position { n < last_position }
    requires swell_value { (swell ≡ swell_of rate.hz setup.pad n) × (delay ≡ warp_delay rate n) }
    ensures { front_gave result.tone ring.new result.y ≡ front_step_on rate setup n (front_on tone ring.old) x }
{
    let toned = tone.step(x);
    let warp = rate.warp;
    warp.push(ring, n, toned.second.y1 * (swell * setup.input));
    let y = warp.tap(ring, n + 1, rate.most, delay);
    Fronted { tone: toned, y }
}

// The tilt: it lends the one-pole to its step.
pub fn tilt(mut lp: OnePole, lift: f64, x: f64) -> Tilted
    ensures { result ≡ tilt_step lp lift x }
{
    let out = lp.tilt_in_place(lift, x);
    Tilted { lp, out }
}

impl Equalizer {
    // Head bump, rolloff, tilt, gain out.
    #[tactic(auto, unfolding(crate::specs::Tape::equalizer_step))]
    fn step(self, setup: TapeSetup, rain: Ramp, n: u64, x: f64) -> Equalized
        ensures { equalizer_gave result.equalizer result.y ≡ equalizer_step setup rain n self x }
    {
        let bump = self.bump.step(x);
        let rolloff = self.rolloff.step(x + casts::widen(HEAD_BUMP_MIX) * bump.y1);
        let tilted = tilt(self.tilt, lift(setup.darkened, rain, n), rolloff.second.y1);
        Equalized {
            equalizer: Equalizer {
                bump,
                rolloff,
                tilt: tilted.lp,
            },
            y: tilted.out * setup.output,
        }
    }

    // Whether its past is all zeros.
    #[tactic(auto, unfolding(crate::specs::Tape::equalizer_at_rest))]
    fn at_rest(self) -> bool
        ensures { result ≡ equalizer_at_rest self }
    {
        self.bump.at_rest() && self.rolloff.at_rest() && self.tilt.at_rest()
    }
}

// ---- the passes over a block

fn front_group(
    rate: TapeRate,
    setup: TapeSetup,
    tone: Lowpass,
    ring: &mut [f64],
    group: &mut [f64],
    n: u64,
) -> Lowpass
    requires warp_fits { WarpFits rate ring.old }
    requires group_bound { (n + length group.old ≤ last_position) × (n < last_position) × (length group.old ≤ 8) }
    ensures front_after { front_on result ring.new ≡ ran (front_step_on rate setup) n (front_on tone ring.old) group.old }
    ensures group_after { group.new ≡ outs (front_step_on rate setup) n (front_on tone ring.old) group.old }
{
    let swells = oscillators::swells(rate.hz, setup.pad, n, group.len());
    let delays = oscillators::delays(rate, n, group.len());
    let mut tone = tone;
    for (i, x) in group.iter_mut().enumerate() {
        let fronted = front_step(
            rate,
            setup,
            tone,
            ring,
            n + i as u64,
            swells[i],
            delays[i],
            *x,
        );
        tone = fronted.tone;
        *x = fronted.y;
    }
    tone
}

fn front_block(
    rate: TapeRate,
    setup: TapeSetup,
    tone: Lowpass,
    ring: &mut [f64],
    block: &mut [f64],
    n: u64,
) -> Lowpass
    requires warp_fits { WarpFits rate ring.old }
    requires block_bound { n + length block.old ≤ last_position }
    ensures front_after { front_on result ring.new ≡ ran (front_step_on rate setup) n (front_on tone ring.old) block.old }
    ensures block_after { block.new ≡ outs (front_step_on rate setup) n (front_on tone ring.old) block.old }
{
    let mut tone = tone;
    for i in (0..block.len()).step_by(8) {
        let end = (i + 8).min(block.len());
        tone = front_group(rate, setup, tone, ring, &mut block[i..end], n + i as u64);
    }
    tone
}

// One by one, TANH(drive) being in hand.
fn saturate_each(drive: f64, top: f64, block: &mut [f64])
    ensures { block.new ≡ map (saturated_over drive top) block.old }
{
    for x in block.iter_mut() {
        *x = saturate_over(drive, top, *x);
    }
}

// A sample alone is cheaper by the plain TANH.
fn saturate_block(drive: f64, top: f64, block: &mut [f64])
    ensures { block.new ≡ map (saturated_over drive top) block.old }
{
    if block.len() < 2 {
        saturate_each(drive, top, block);
    } else {
        eight::saturate_over(block, drive, top);
    }
}

fn equalizer_block(
    setup: TapeSetup,
    rain: Ramp,
    equalizer: Equalizer,
    block: &mut [f64],
    n: u64,
) -> Equalizer
    requires { n + length block.old ≤ last_position }
    ensures value { result ≡ ran (equalizer_step setup rain) n equalizer block.old }
    ensures block_after { block.new ≡ outs (equalizer_step setup rain) n equalizer block.old }
{
    let mut equalizer = equalizer;
    for (i, x) in block.iter_mut().enumerate() {
        let equalized = equalizer.step(setup, rain, n + i as u64, *x);
        equalizer = equalized.equalizer;
        *x = equalized.y;
    }
    equalizer
}

// The duck, where the lane ducks.
#[tactic(auto, unfolding(crate::specs::Kept::ducked_step_on), using(stage::proofs::Laws::ran_identity, stage::proofs::Laws::outs_identity))]
fn duck_block(
    rate: DuckRate,
    ducked: bool,
    duck: Duck,
    counts: &mut [u64],
    block: &mut [f64],
    n: u64,
    drums: bool,
) -> Duck
    requires within { Within (duck_on duck counts.old) }
    requires block_bound { n + length block.old ≤ last_position }
    ensures duck_after { duck_on result counts.new ≡ ran (ducked_step_on rate ducked drums) n (duck_on duck counts.old) block.old }
    ensures block_after { block.new ≡ outs (ducked_step_on rate ducked drums) n (duck_on duck counts.old) block.old }
{
    if ducked {
        duck::duck_block(rate, duck, counts, block, n, drums)
    } else {
        duck
    }
}

// The tape tuned for the sample at n. A tuning costs more than a sample, so it is kept as long as it lasts.
#[tactic(auto, unfolding(crate::specs::Kept::tuned_at, crate::specs::Kept::tuned_afresh, automation::specs::Pieces::piece_at), using(automation::proofs::Span::span_most))]
pub fn tuned(rate: TapeRate, tone: Tone, daylight: Ramp, sweep: Sweep, tape: Tape, n: u64) -> Tape
    requires { n < last_position }
    ensures { result ≡ tuned_at rate tone daylight sweep.entry.positions.now sweep.entry.values.now n tape }
{
    if n < tape.until {
        tape
    } else {
        let p = automation::piece_at(tone, daylight, sweep, n);
        Tape {
            tone: tape.tone.retuned(p.tuning.corner, rate.hz),
            drive: p.tuning.drive,
            top: elementary::tanh(p.tuning.drive),
            until: n + p.len,
            ..tape
        }
    }
}

// Gives the tuning up: what it was made from has changed.
pub fn untuned(tape: Tape) -> Tape
    ensures { result ≡ untuned tape }
{
    Tape { until: 0, ..tape }
}

// A block of samples that have one tuning, the tape's.
pub fn tape_block(
    rate: TapeRate,
    setup: TapeSetup,
    rain: Ramp,
    tape: Tape,
    ring: &mut [f64],
    counts: &mut [u64],
    block: &mut [f64],
    n: u64,
    drums: bool,
) -> Tape
    requires warp_fits { WarpFits rate ring.old }
    requires within { Within (duck_on tape.duck counts.old) }
    requires block_bound { n + length block.old ≤ last_position }
    ensures tape_after { tape_on result ring.new counts.new ≡ ran (tape_tuned rate setup rain drums) n (tape_on tape ring.old counts.old) block.old }
    ensures block_after { block.new ≡ outs (tape_tuned rate setup rain drums) n (tape_on tape ring.old counts.old) block.old }
{
    let tone = front_block(rate, setup, tape.tone, ring, block, n);
    saturate_block(tape.drive, tape.top, block);
    let equalizer = equalizer_block(setup, rain, tape.equalizer, block, n);
    let duck = duck_block(rate.duck, setup.ducked, tape.duck, counts, block, n, drums);
    Tape {
        tone,
        equalizer,
        duck,
        ..tape
    }
}

// The tape's filters whose past is zero, not tuned yet, and a duck that has reached no kick.
#[tactic(auto, unfolding(crate::specs::Kept::fresh_tape, crate::specs::Tape::fresh_tone, crate::specs::Tape::fresh_equalizer))]
pub fn fresh(rate: TapeRate, kicks: usize) -> Tape
    ensures { result ≡ fresh_tape rate kicks }
{
    let silent = Section::new(Coefficients::default());
    Tape {
        tone: Lowpass {
            first: silent,
            second: silent,
        },
        equalizer: Equalizer {
            bump: Section::new(rate.bump),
            rolloff: Lowpass {
                first: Section::new(rate.first),
                second: Section::new(rate.second),
            },
            tilt: OnePole::new(rate.tilt),
        },
        duck: Duck {
            count: kicks,
            reached: 0,
            ducking: 0,
        },
        drive: 0.0,
        top: 0.0,
        until: 0,
    }
}

// Whether the tape's filters and its warp hold only zeros.
#[tactic(auto, unfolding(crate::specs::Kept::tape_at_rest_on))]
pub fn at_rest(tape: Tape, ring: &[f64]) -> bool
    ensures { result ≡ tape_at_rest_on tape.tone tape.equalizer ring.now }
{
    tape.tone.at_rest() && tape.equalizer.at_rest() && delay::at_rest(ring)
}
