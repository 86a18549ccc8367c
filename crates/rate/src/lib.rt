// The rate's own type: what depends on the rate, for each stage, made by a constructor out of constants.
// places.rt has how long each part of the stores is.
// Uses ranges, biquad, delay, attack, sidechain and duck for their types and numbers; the definitions in specs/ use casts, elementary, stream and onepole too.
#![tactic(auto)]

ghost use Rattle.std.specs.Prelude.{◌≡◌};
ghost use Rattle.casts.specs.Arithmetic.{whole};
ghost use Rattle.biquad.specs.Cookbook.{lowpass_at, bandpass_at, butter_q};
ghost use Rattle.rate.specs.Tape.{duck_rate, tape_rate};
ghost use Rattle.rate.specs.Plate.{input_rate, left_rate, right_rate, plate_rate};
ghost use Rattle.rate.specs.Ceiling.{ceiling_rate};
ghost use Rattle.rate.specs.Rate.{rate_of};

use biquad::Coefficients;
use delay::DelayLine;
use sidechain::DuckRate;

pub mod places;

// Wow or flutter: radians a sample, and the read head's excursion in samples.
#[derive(Clone, Copy)]
pub struct Warp {
    pub w: f64,
    pub a: f64,
}

// The lane's: the rate in Hz, the two warps, their reach, the greatest delay and the places of the warp's ring, the coefficients of
// the head bump and of the rolloff's two sections, the tilt's pole, and the duck's numbers.
#[derive(Clone, Copy)]
pub struct TapeRate {
    pub hz: u32,
    pub wow: Warp,
    pub flutter: Warp,
    pub reach: f64,
    pub most: f64,
    pub warp: DelayLine,
    pub bump: Coefficients,
    pub first: Coefficients,
    pub second: Coefficients,
    pub tilt: f64,
    pub duck: DuckRate,
}

impl TapeRate {
    pub const HZ: u32 = 44100;

    pub const WOW: f64 = 9.973309841551711e-05;

    pub const WOW_EXCURSION: f64 = 25.066903403571384;

    pub const FLUTTER: f64 = 0.0011398068584452764;

    pub const FLUTTER_EXCURSION: f64 = 0.5264049992793385;

    pub const REACH: f64 = 25.593308402850724;

    pub const MOST: f64 = 51.18661680570145;

    pub const WARP: usize = 64;

    pub const TILT: f64 = 0.8428459914056853;

    pub const ATTACK: u64 = 441;

    pub const RELEASE: u64 = 8379;

    pub const FLOOR: f64 = attack::FLOOR;

    fn bump() -> Coefficients
        ensures { result ≡ bandpass_at 44100 }
    {
        Coefficients {
            b0: 0.004256088143132999,
            b1: 0.0,
            b2: -0.004256088143132999,
            a1: -1.9913422920734143,
            a2: 0.991487823713734,
        }
    }

    fn first() -> Coefficients
        ensures { result ≡ lowpass_at (whole 6500) (butter_q 1 4) 44100 }
    {
        Coefficients {
            b0: 0.15278648126034453,
            b1: 0.30557296252068905,
            b2: 0.15278648126034453,
            a1: -0.9203995076315631,
            a2: 0.5315454326729411,
        }
    }

    fn second() -> Coefficients
        ensures { result ≡ lowpass_at (whole 6500) (butter_q 2 4) 44100 }
    {
        Coefficients {
            b0: 0.11476941184533414,
            b1: 0.22953882369066828,
            b2: 0.11476941184533414,
            a1: -0.6913812614979481,
            a2: 0.15045890887928468,
        }
    }

    fn duck() -> DuckRate
        ensures { result ≡ duck_rate 44100 }
    {
        DuckRate {
            attack: TapeRate::ATTACK,
            release: TapeRate::RELEASE,
            floor: TapeRate::FLOOR,
        }
    }

    // 44,100 Hz.
    pub fn cd() -> TapeRate
        ensures { result ≡ tape_rate 44100 }
    {
        TapeRate {
            hz: TapeRate::HZ,
            wow: Warp {
                w: TapeRate::WOW,
                a: TapeRate::WOW_EXCURSION,
            },
            flutter: Warp {
                w: TapeRate::FLUTTER,
                a: TapeRate::FLUTTER_EXCURSION,
            },
            reach: TapeRate::REACH,
            most: TapeRate::MOST,
            warp: DelayLine {
                at: 0,
                ring: TapeRate::WARP,
            },
            bump: TapeRate::bump(),
            first: TapeRate::first(),
            second: TapeRate::second(),
            tilt: TapeRate::TILT,
            duck: TapeRate::duck(),
        }
    }
}

// A line of the plate, and the delay at which it is read.
#[derive(Clone, Copy)]
pub struct LineRate {
    pub line: DelayLine,
    pub delay: u64,
}

impl LineRate {
    // The line whose ring of so many places lies at `at` of its stage's part.
    fn new(at: usize, ring: usize, delay: u64) -> LineRate
        ensures { result ≡ record { line = record { at = at; ring = ring }; delay = delay } }
    {
        LineRate {
            line: DelayLine { at, ring },
            delay,
        }
    }
}

// The predelay, the four input lattices, and how many places they have together.
#[derive(Clone, Copy)]
pub struct InputRate {
    pub predelay: LineRate,
    pub diffuser1: LineRate,
    pub diffuser2: LineRate,
    pub diffuser3: LineRate,
    pub diffuser4: LineRate,
    pub places: usize,
}

// A side's seven taps, in the order of Dattorro's Table 2: the first four are the other half's.
#[derive(Clone, Copy)]
pub struct Taps {
    pub first: u64,
    pub second: u64,
    pub third: u64,
    pub fourth: u64,
    pub fifth: u64,
    pub sixth: u64,
    pub seventh: u64,
}

// One half of the tank: its four lines, how far its first lattice reaches, how many places they have together, and the
// taps of its side's output.
#[derive(Clone, Copy)]
pub struct HalfRate {
    pub diffuser1: LineRate,
    pub reach: f64,
    pub delay1: LineRate,
    pub diffuser2: LineRate,
    pub delay2: LineRate,
    pub places: usize,
    pub taps: Taps,
}

// The plate's numbers. The decay is taken twice a half; diffusion is Dattorro's decay diffusion 2.
#[derive(Clone, Copy)]
pub struct PlateRate {
    pub sr: u32,
    pub input: InputRate,
    pub left: HalfRate,
    pub right: HalfRate,
    pub decay: f64,
    pub diffusion: f64,
    pub excursion: f64,
    pub damping: f64,
    pub highpass: Coefficients,
}

impl InputRate {
    pub const PREDELAY: u64 = 882;

    pub const DIFFUSER1: u64 = 210;

    pub const DIFFUSER2: u64 = 159;

    pub const DIFFUSER3: u64 = 562;

    pub const DIFFUSER4: u64 = 410;

    // 44,100 Hz.
    pub fn cd() -> InputRate
        ensures { result ≡ input_rate 44100 }
    {
        InputRate {
            predelay: LineRate::new(0, 1024, InputRate::PREDELAY),
            diffuser1: LineRate::new(1024, 256, InputRate::DIFFUSER1),
            diffuser2: LineRate::new(1280, 256, InputRate::DIFFUSER2),
            diffuser3: LineRate::new(1536, 1024, InputRate::DIFFUSER3),
            diffuser4: LineRate::new(2560, 512, InputRate::DIFFUSER4),
            places: 3072,
        }
    }
}

impl HalfRate {
    pub const LEFT_DIFFUSER1: u64 = 996;

    pub const LEFT_DELAY1: u64 = 6598;

    pub const LEFT_DIFFUSER2: u64 = 2667;

    pub const LEFT_DELAY2: u64 = 5512;

    pub const RIGHT_DIFFUSER1: u64 = 1345;

    pub const RIGHT_DELAY1: u64 = 6249;

    pub const RIGHT_DIFFUSER2: u64 = 3936;

    pub const RIGHT_DELAY2: u64 = 4687;

    // The left half at 44,100 Hz.
    pub fn left_cd() -> HalfRate
        ensures { result ≡ left_rate 44100 }
    {
        HalfRate {
            diffuser1: LineRate::new(0, 1024, HalfRate::LEFT_DIFFUSER1),
            reach: 1007.8544403749873,
            delay1: LineRate::new(1024, 8192, HalfRate::LEFT_DELAY1),
            diffuser2: LineRate::new(9216, 4096, HalfRate::LEFT_DIFFUSER2),
            delay2: LineRate::new(13312, 8192, HalfRate::LEFT_DELAY2),
            places: 21504,
            taps: Taps {
                first: 394,
                second: 4407,
                third: 2835,
                fourth: 2958,
                fifth: 2949,
                sixth: 277,
                seventh: 1580,
            },
        }
    }

    // The right half at 44,100 Hz.
    pub fn right_cd() -> HalfRate
        ensures { result ≡ right_rate 44100 }
    {
        HalfRate {
            diffuser1: LineRate::new(0, 2048, HalfRate::RIGHT_DIFFUSER1),
            reach: 1356.8544403749875,
            delay1: LineRate::new(2048, 8192, HalfRate::RIGHT_DELAY1),
            diffuser2: LineRate::new(10240, 4096, HalfRate::RIGHT_DIFFUSER2),
            delay2: LineRate::new(14336, 8192, HalfRate::RIGHT_DELAY2),
            places: 22528,
            taps: Taps {
                first: 523,
                second: 5375,
                third: 1820,
                fourth: 3961,
                fifth: 3128,
                sixth: 496,
                seventh: 179,
            },
        }
    }
}

impl PlateRate {
    pub const DECAY: f64 = 0.4338120260819526;

    pub const DIFFUSION: f64 = 0.5;

    pub const EXCURSION: f64 = 11.8544403749874;

    pub const DAMPING: f64 = 0.4904758255421935;

    // 44,100 Hz.
    pub fn cd() -> PlateRate
        ensures { result ≡ plate_rate 44100 }
    {
        PlateRate {
            sr: 44100,
            input: InputRate::cd(),
            left: HalfRate::left_cd(),
            right: HalfRate::right_cd(),
            decay: PlateRate::DECAY,
            diffusion: PlateRate::DIFFUSION,
            excursion: PlateRate::EXCURSION,
            damping: PlateRate::DAMPING,
            highpass: Coefficients {
                b0: 0.9702283766983296,
                b1: -1.9404567533966592,
                b2: 0.9702283766983296,
                a1: -1.9395702073516703,
                a2: 0.9413432994416484,
            },
        }
    }
}

// The ceiling's: how many frames late it plays, how many frames its window of needs has, the limit, and the released gain's rise a frame.
#[derive(Clone, Copy)]
pub struct CeilingRate {
    pub ahead: usize,
    pub window: usize,
    pub limit: f32,
    pub rise: f64,
}

impl CeilingRate {
    pub const AHEAD: usize = 220;

    pub const WINDOW: usize = 882;

    pub const LIMIT: f32 = 0.8912509083747864;

    pub const RISE: f64 = 1.0001571885842506;

    // A gain of 1, in steps: at every rate 2^40.
    pub const UNIT: u64 = 1099511627776;

    // 44,100 Hz.
    pub fn cd() -> CeilingRate
        ensures { result ≡ ceiling_rate 44100 }
    {
        CeilingRate {
            ahead: CeilingRate::AHEAD,
            window: CeilingRate::WINDOW,
            limit: CeilingRate::LIMIT,
            rise: CeilingRate::RISE,
        }
    }
}

// A strip's: how long the two lent stores are at least, and the stages' numbers.
// That a rate can be used (RateUsable) is a clause of each function and no invariant here: `rate_of` makes the numbers of any Hz, and theorems speak of it.
#[derive(Clone, Copy)]
pub struct Rate {
    pub samples: usize,
    pub counts: usize,
    pub tape: TapeRate,
    pub plate: PlateRate,
    pub ceiling: CeilingRate,
}

impl Rate {
    pub const SAMPLES: usize = 49152;

    pub const COUNTS: usize = 4096;

    // 44,100 Hz.
    pub fn cd() -> Rate
        ensures { result ≡ rate_of 44100 }
    {
        Rate {
            samples: Rate::SAMPLES,
            counts: Rate::COUNTS,
            tape: TapeRate::cd(),
            plate: PlateRate::cd(),
            ceiling: CeilingRate::cd(),
        }
    }
}
