// A tape lane with all that it plays by, over a signal in calls.
ghost use Rattle.std.specs.Prelude.{◌+◌, ◌≤◌, ◌≡◌, true, length};
ghost use Rattle.ranges.specs.Ranges.{most_kicks, last_position};
ghost use Rattle.duck.specs.Cursors.{duck_counts};

use crate::{end_of, in_time};
use automation::Sweep;
use ramp::{Ramp, Shape};
use rate::TapeRate;
use tape::{Tape, TapeSetup};
use vectors::Kept;

// A run of so many samples with drums or not, or a latch of the two controls, each over a length.
#[derive(Clone, Copy)]
enum Call {
    Run {
        len: u64,
        drums: bool,
    },
    Latch {
        daylight: f64,
        grading: u64,
        rain: f64,
        darkening: u64,
    },
}

impl Call {
    // The call that four words stand for, the first of them a number since C hands it over.
    fn of(words: &[u64]) -> Option<Call> {
        match *words {
            [0, len, drums, _] => Some(Call::Run {
                len,
                drums: drums != 0,
            }),
            [_, controls, grading, darkening] => Some(Call::Latch {
                daylight: casts::widen(f32::from_number(controls >> 32)),
                grading,
                rain: casts::widen(f32::from_number(controls)),
                darkening,
            }),
            _ => None,
        }
    }

    // The samples that it takes.
    fn len(self) -> u64 {
        match self {
            Call::Run { len, .. } => len,
            Call::Latch { .. } => 0,
        }
    }
}

// A control that stays as it is.
pub(crate) fn held(control: f32) -> Ramp {
    Ramp::held(casts::widen(control), Shape::Linear)
}

// A lane, with what it plays by and the parts that it is lent.
#[derive(Drop)]
pub(crate) struct Lane<'a, 's> {
    pub setup: TapeSetup,
    pub sweep: Sweep<'s>,
    pub ring: &'a mut [f64],
    pub counts: &'a mut [u64],
    pub daylight: Ramp,
    pub rain: Ramp,
    pub tape: Tape,
}

impl Lane<'_, '_> {
    // Whether its parts and its duck fit, and a block of len samples at n.
    fn fits(&self, n: u64, len: usize) -> bool
        ensures { result ≡ true → (length self.now.ring.now ≡ 64) × (duck_counts ≤ length self.now.counts.now) × (self.now.tape.duck.count ≤ most_kicks) × (self.now.tape.duck.reached ≤ self.now.tape.duck.count) × (self.now.tape.duck.ducking ≤ self.now.tape.duck.count) × (n + len ≤ last_position) }
    {
        let duck = self.tape.duck;
        self.ring.len() == TapeRate::WARP
            && duck::COUNTS <= self.counts.len()
            && duck.count <= ranges::MOST_KICKS
            && duck.reached <= duck.count
            && duck.ducking <= duck.count
            && in_time(n, len)
    }

    // Tunes it for the sample at n, if there is one.
    fn tune(&mut self, n: u64) {
        if n < ranges::LAST_POSITION {
            self.tape = tape::tuned(
                TapeRate::cd(),
                self.setup.tone,
                self.daylight,
                self.sweep,
                self.tape,
                n,
            );
        }
    }

    // A block of one tuning, if all fits.
    #[tactic(auto, using(crate::proofs::Fits::warp_fits))]
    fn pass(&mut self, block: &mut [f64], n: u64, drums: bool) {
        if self.fits(n, block.len()) {
            let rate = TapeRate::cd();
            self.tape = tape::tape_block(
                rate,
                self.setup,
                self.rain,
                self.tape,
                self.ring,
                self.counts,
                block,
                n,
                drums,
            );
        }
    }

    // A run, tuning by tuning; each has a sample at least.
    fn run(&mut self, block: &mut [f64], n: u64, drums: bool)
        requires { n ≤ last_position }
    {
        let mut at = 0;
        // By hand: a piece is as long as its tuning lasts, which only the piece before leaves.
        while at < block.len() {
            let m = n + at as u64;
            self.tune(m);
            let lasting = self.tape.until.saturating_sub(m);
            let end = end_of(at, lasting.max(1), block.len());
            self.pass(&mut block[at..end], m, drums);
            at = end;
        }
    }

    fn call(&mut self, call: Call, block: &mut [f64], n: u64) {
        match call {
            Call::Run { drums, .. } => {
                if n <= ranges::LAST_POSITION {
                    self.run(block, n, drums);
                }
            }
            Call::Latch {
                daylight,
                grading,
                rain,
                darkening,
            } => {
                self.daylight = self.daylight.toward(n, daylight, grading);
                self.rain = self.rain.toward(n, rain, darkening);
                self.tape = tape::untuned(self.tape);
            }
        }
    }

    // The calls, four words each, over the samples in place. Written out where it is called, so that the lane is no struct in memory, which memcpy would copy.
    #[inline(always)]
    pub fn play(&mut self, samples: &mut [f64], calls: &[u64]) {
        let mut at = 0;
        for call in calls.chunks(4).filter_map(Call::of) {
            let end = end_of(at, call.len(), samples.len());
            self.call(call, &mut samples[at..end], at as u64);
            at = end;
        }
    }

    pub fn at_rest(&self) -> bool {
        tape::at_rest(self.tape, self.ring)
    }
}
