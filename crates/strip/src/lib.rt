// The strip: a position, a lane and a bus, and what the four calls take and give. No code but two conversions: the refusals, the one-sample
// machine, the strip as it is kept, the calls' definitions and the promise stand in specs/, the theorem about every list of calls in proofs/.
// The crate part has the calls. Uses the crates of the stages for their types and definitions.
#![tactic(auto)]

ghost use Rattle.std.specs.Prelude.{◌≡◌};
ghost use Rattle.strip.specs.Refusals.{number_of};

use master::Ceiling;
use plate::Plate;
use ramp::Ramp;
use tape::{Tape, TapeSetup};

// What a maker sets (document 01, 'Opening a strip').
#[derive(Clone, Copy)]
pub struct Setup {
    pub tape: TapeSetup,
    pub daylight: f32,
    pub rain: f32,
    pub send: f64,
}

// A lane: what it was opened with, its two ramps, and what the tape keeps.
#[derive(Clone, Copy)]
pub struct Lane {
    pub setup: Setup,
    pub points: usize,
    pub daylight: Ramp,
    pub rain: Ramp,
    pub tape: Tape,
}

// The bus that a lane sends to: what the plate and the ceiling keep.
#[derive(Clone, Copy)]
pub struct Bus {
    pub plate: Plate,
    pub ceiling: Ceiling,
}

// A strip: how many samples it has taken, its lane and its bus.
#[derive(Clone, Copy)]
pub struct Strip {
    pub position: u64,
    pub lane: Lane,
    pub bus: Bus,
}

// What latch takes: a target for each ramp, and over how many samples.
#[derive(Clone, Copy)]
pub struct Controls {
    pub daylight: f32,
    pub grading: u64,
    pub rain: f32,
    pub darkening: u64,
}

// Why the part declines a call (document 01, 'When the part declines'), in the order in which it looks.
#[derive(Clone, Copy, PartialEq, Eq)]
pub enum Refusal {
    StoreShort,
    BadSetup,
    BadList,
    BadStrip,
    BadOutput,
    PastEnd,
    BadSample,
    BadControl,
}

// What C is answered.
impl From<Refusal> for u64 {
    ghost from_gives = { λ refusal number. number ≡ number_of refusal };

    fn from(refusal: Refusal) -> u64 {
        match refusal {
            Refusal::StoreShort => 1,
            Refusal::BadSetup => 2,
            Refusal::BadList => 3,
            Refusal::BadStrip => 4,
            Refusal::BadOutput => 5,
            Refusal::PastEnd => 6,
            Refusal::BadSample => 7,
            Refusal::BadControl => 8,
        }
    }
}

// A declined run, latch or rest: why, and the strip as it came.
#[derive(Clone, Copy)]
pub struct Declined {
    pub refusal: Refusal,
    pub strip: Strip,
}

impl From<Declined> for Refusal {
    ghost from_gives = { λ declined refusal. refusal ≡ declined.refusal };

    fn from(declined: Declined) -> Refusal {
        declined.refusal
    }
}
