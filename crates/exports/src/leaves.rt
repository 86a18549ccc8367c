// Flush, filters, delay lines, ramps, the sweep, the tone and the duck. Their numbers go over as arrays, and choices as numbers and flags,
// since C and the harness hand them over so.
use automation::{Sweep, Tone};
use biquad::{Coefficients, Lowpass, Section};
use duck::Duck;
use onepole::OnePole;
use ramp::{Ramp, Shape};
use rate::{PlateRate, TapeRate};

const HZ: u32 = 44100;

pub fn goqhari_test_flush(v: f64) -> f64 {
    stream::flush(v)
}

pub fn goqhari_test_section(s: &mut [f64; 9], x: f64) -> f64 {
    let [b0, b1, b2, a1, a2, x1, x2, y1, y2] = *s;
    let section = Section {
        b0,
        b1,
        b2,
        a1,
        a2,
        x1,
        x2,
        y1,
        y2,
    };
    let next = section.step(x);
    let [b0, b1, b2, a1, a2] = coefficients(next);
    *s = [b0, b1, b2, a1, a2, next.x1, next.x2, next.y1, next.y2];
    next.y1
}

fn coefficients(s: Section) -> [f64; 5] {
    [s.b0, s.b1, s.b2, s.a1, s.a2]
}

// A low-pass that is tuned to hz, its past being zero.
fn lowpass_at(hz: f32) -> Lowpass {
    let silent = Section::new(Coefficients::default());
    let lowpass = Lowpass {
        first: silent,
        second: silent,
    };
    lowpass.retuned(hz, HZ)
}

// The sections of an order-4 low-pass.
pub fn goqhari_test_lowpass(hz: f32, first: &mut [f64; 5], second: &mut [f64; 5]) {
    let lowpass = lowpass_at(hz);
    *first = coefficients(lowpass.first);
    *second = coefficients(lowpass.second);
}

// The same of a low-pass that was tuned to `from` before, and has a past.
pub fn goqhari_test_retuned(from: f32, hz: f32, first: &mut [f64; 5], second: &mut [f64; 5]) {
    let lowpass = lowpass_at(from).step(1.0).retuned(hz, HZ);
    *first = coefficients(lowpass.first);
    *second = coefficients(lowpass.second);
}

// The rate's own coefficients: the head bump, the rolloff's two sections, the plate's high-pass.
pub fn goqhari_test_fixed(which: u64, out: &mut [f64; 5]) {
    let tape = TapeRate::cd();
    let fixed = match which {
        0 => tape.bump,
        1 => tape.first,
        2 => tape.second,
        _ => PlateRate::cd().highpass,
    };
    *out = coefficients(Section::new(fixed));
}

// The rate's own poles: the tilt's, and the plate's damping.
pub fn goqhari_test_pole(damping: bool) -> f64 {
    if damping {
        PlateRate::DAMPING
    } else {
        TapeRate::TILT
    }
}

pub fn goqhari_test_onepole(s: &mut [f64; 2], x: f64) -> f64 {
    let [pole, y] = *s;
    let next = OnePole { pole, y }.lowpass(x);
    *s = [next.pole, next.y];
    next.y
}

pub fn goqhari_test_tilt(s: &mut [f64; 2], rain: f64, x: f64) -> f64 {
    let [pole, y] = *s;
    let next = OnePole { pole, y }.tilt(onepole::lift(rain), x);
    *s = [next.lp.pole, next.lp.y];
    next.out
}

pub fn goqhari_test_push(ring: &mut [f64], written: u64, x: f64) {
    if !ring.is_empty() {
        delay::push(ring, written, x);
    }
}

pub fn goqhari_test_at(ring: &[f64], written: u64, delay: u64) -> f64 {
    if !ring.is_empty() && delay < 1 << 32 {
        delay::at(ring, written, delay)
    } else {
        0.0
    }
}

pub fn goqhari_test_tap(ring: &[f64], written: u64, max_delay: f64, delay: f64) -> f64 {
    if !ring.is_empty() && 0.0 <= max_delay && max_delay < 65536.0 {
        delay::tap(ring, written, max_delay, delay)
    } else {
        0.0
    }
}

fn ramp_of(ends: &[f64; 2], span: &[u64; 2], db: bool) -> Ramp {
    let [from, to] = *ends;
    let [start, len] = *span;
    let shape = if db { Shape::Db } else { Shape::Linear };
    Ramp {
        from,
        to,
        start,
        len,
        shape,
    }
}

pub fn goqhari_test_ramp_at(ends: &[f64; 2], span: &[u64; 2], db: bool, n: u64) -> f64 {
    ramp_of(ends, span, db).at(n)
}

// The ramp of daylight as the sample at n plays it.
pub fn goqhari_test_daylight(ends: &[f64; 2], span: &[u64; 2], n: u64) -> f64 {
    automation::daylight_at(ramp_of(ends, span, false), n)
}

pub fn goqhari_test_ramp_toward(
    ends: &mut [f64; 2],
    span: &mut [u64; 2],
    db: bool,
    n: u64,
    to: f64,
    len: u64,
) {
    let next = ramp_of(ends, span, db).toward(n, to, len);
    *ends = [next.from, next.to];
    *span = [next.start, next.len];
}

// The corner of a fixed tone at n, swept.
pub fn goqhari_test_sweep(points: &[u64], values: &[f64], own: f32, n: u64) -> f32 {
    if values.len() < points.len() {
        return 0.0;
    }
    let daylight = Ramp::held(0.0, Shape::Linear);
    let tone = Tone::Fixed {
        corner: own,
        drive: 1.0,
    };
    let sweep = Sweep {
        positions: points,
        values,
    };
    automation::piece_at(tone, daylight, sweep, n).tuning.corner
}

pub fn goqhari_test_swept(own: f32, value: f64) -> f32 {
    automation::swept(own, value)
}

pub fn goqhari_test_grade_corner(night: f32, day: f32, t: f64) -> f32 {
    let tone = Tone::Graded {
        night_corner: night,
        day_corner: day,
        night_drive: 1.0,
        day_drive: 1.0,
    };
    automation::tone_at(tone, t).corner
}

pub fn goqhari_test_grade_drive(night: f32, day: f32, t: f64) -> f64 {
    let tone = Tone::Graded {
        night_corner: 1000.0,
        day_corner: 1000.0,
        night_drive: night,
        day_drive: day,
    };
    automation::tone_at(tone, t).drive
}

pub fn goqhari_test_sidechain(since: u64) -> f64 {
    sidechain::sidechain_gain(TapeRate::cd().duck, since)
}

// Keeps the kicks in a duck's part; answers how many.
pub fn goqhari_test_duck_new(kicks: &[u64], counts: &mut [u64]) -> usize {
    if kicks.len() <= ranges::MOST_KICKS && duck::COUNTS <= counts.len() {
        Duck::new(kicks, counts).count
    } else {
        0
    }
}

// The gain of the sample n; the cursors are count, reached and ducking.
pub fn goqhari_test_duck(counts: &mut [u64], cursors: &mut [usize; 3], n: u64, drums: bool) -> f64 {
    let [count, reached, ducking] = *cursors;
    let fits = duck::COUNTS <= counts.len() && count <= ranges::MOST_KICKS;
    if !fits || count < reached || count < ducking {
        return 0.0;
    }
    let duck = Duck {
        count,
        reached,
        ducking,
    };
    let g = duck::duck_step(TapeRate::cd().duck, duck, counts, n, drums);
    *cursors = [count, g.duck.reached, g.duck.ducking];
    g.gain
}
