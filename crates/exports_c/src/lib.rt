// The leaves for C: what the harness links as build/libexports.a (harness/SIGNATURES.md). Each calls the function of its name in
// exports, whose clauses it repeats. It may use exports alone, and reaches what that uses.
#![tactic(auto)]

ghost use Rattle.std.specs.Prelude.{◌≡◌};
ghost use Rattle.elementary.specs.Elementary.{SINH, SIN32, POW32};

#[unsafe(no_mangle)]
pub extern "C" fn goqhari_test_widen(x: f32) -> f64 {
    exports::goqhari_test_widen(x)
}

#[unsafe(no_mangle)]
pub extern "C" fn goqhari_test_narrow(x: f64) -> f32 {
    exports::goqhari_test_narrow(x)
}

#[unsafe(no_mangle)]
pub extern "C" fn goqhari_test_floor(x: f64) -> f64 {
    exports::goqhari_test_floor(x)
}

#[unsafe(no_mangle)]
pub extern "C" fn goqhari_test_whole(x: f64) -> u64 {
    exports::goqhari_test_whole(x)
}

#[unsafe(no_mangle)]
pub extern "C" fn goqhari_test_sin(v: f64) -> f64 {
    exports::goqhari_test_sin(v)
}

#[unsafe(no_mangle)]
pub extern "C" fn goqhari_test_cos(v: f64) -> f64 {
    exports::goqhari_test_cos(v)
}

#[unsafe(no_mangle)]
pub extern "C" fn goqhari_test_exp(v: f64) -> f64 {
    exports::goqhari_test_exp(v)
}

#[unsafe(no_mangle)]
pub extern "C" fn goqhari_test_ln(x: f64) -> f64 {
    exports::goqhari_test_ln(x)
}

#[unsafe(no_mangle)]
pub extern "C" fn goqhari_test_pow(b: f64, p: f64) -> f64 {
    exports::goqhari_test_pow(b, p)
}

#[unsafe(no_mangle)]
pub extern "C" fn goqhari_test_tanh(v: f64) -> f64 {
    exports::goqhari_test_tanh(v)
}

#[unsafe(no_mangle)]
pub extern "C" fn goqhari_test_sinh(v: f64) -> f64
    ensures { result ≡ SINH v }
{
    exports::goqhari_test_sinh(v)
}

#[unsafe(no_mangle)]
pub extern "C" fn goqhari_test_sin_f32(x: f32) -> f32
    ensures { result ≡ SIN32 x }
{
    exports::goqhari_test_sin_f32(x)
}

#[unsafe(no_mangle)]
pub extern "C" fn goqhari_test_pow_f32(b: f32, p: f32) -> f32
    ensures { result ≡ POW32 b p }
{
    exports::goqhari_test_pow_f32(b, p)
}

#[unsafe(no_mangle)]
pub extern "C" fn goqhari_test_flush(v: f64) -> f64 {
    exports::leaves::goqhari_test_flush(v)
}

#[unsafe(no_mangle)]
pub extern "C" fn goqhari_test_section(s: &mut [f64; 9], x: f64) -> f64 {
    exports::leaves::goqhari_test_section(s, x)
}

// The sections of an order-4 low-pass.
#[unsafe(no_mangle)]
pub extern "C" fn goqhari_test_lowpass(hz: f32, first: &mut [f64; 5], second: &mut [f64; 5]) {
    exports::leaves::goqhari_test_lowpass(hz, first, second);
}

// The same of a low-pass that was tuned to `from` before, and has a past.
#[unsafe(no_mangle)]
pub extern "C" fn goqhari_test_retuned(
    from: f32,
    hz: f32,
    first: &mut [f64; 5],
    second: &mut [f64; 5],
) {
    exports::leaves::goqhari_test_retuned(from, hz, first, second);
}

// The rate's own coefficients: the head bump, the rolloff's two sections, the plate's high-pass.
#[unsafe(no_mangle)]
pub extern "C" fn goqhari_test_fixed(which: u64, out: &mut [f64; 5]) {
    exports::leaves::goqhari_test_fixed(which, out);
}

// The rate's own poles: the tilt's, and the plate's damping.
#[unsafe(no_mangle)]
pub extern "C" fn goqhari_test_pole(damping: bool) -> f64 {
    exports::leaves::goqhari_test_pole(damping)
}

#[unsafe(no_mangle)]
pub extern "C" fn goqhari_test_onepole(s: &mut [f64; 2], x: f64) -> f64 {
    exports::leaves::goqhari_test_onepole(s, x)
}

#[unsafe(no_mangle)]
pub extern "C" fn goqhari_test_tilt(s: &mut [f64; 2], rain: f64, x: f64) -> f64 {
    exports::leaves::goqhari_test_tilt(s, rain, x)
}

#[unsafe(no_mangle)]
pub extern "C" fn goqhari_test_push(ring: &mut [f64], written: u64, x: f64) {
    exports::leaves::goqhari_test_push(ring, written, x);
}

#[unsafe(no_mangle)]
pub extern "C" fn goqhari_test_at(ring: &[f64], written: u64, delay: u64) -> f64 {
    exports::leaves::goqhari_test_at(ring, written, delay)
}

#[unsafe(no_mangle)]
pub extern "C" fn goqhari_test_tap(ring: &[f64], written: u64, max_delay: f64, delay: f64) -> f64 {
    exports::leaves::goqhari_test_tap(ring, written, max_delay, delay)
}

#[unsafe(no_mangle)]
pub extern "C" fn goqhari_test_ramp_at(ends: &[f64; 2], span: &[u64; 2], db: bool, n: u64) -> f64 {
    exports::leaves::goqhari_test_ramp_at(ends, span, db, n)
}

// The ramp of daylight as the sample at n plays it.
#[unsafe(no_mangle)]
pub extern "C" fn goqhari_test_daylight(ends: &[f64; 2], span: &[u64; 2], n: u64) -> f64 {
    exports::leaves::goqhari_test_daylight(ends, span, n)
}

#[unsafe(no_mangle)]
pub extern "C" fn goqhari_test_ramp_toward(
    ends: &mut [f64; 2],
    span: &mut [u64; 2],
    db: bool,
    n: u64,
    to: f64,
    len: u64,
) {
    exports::leaves::goqhari_test_ramp_toward(ends, span, db, n, to, len);
}

// The corner of a fixed tone at n, swept.
#[unsafe(no_mangle)]
pub extern "C" fn goqhari_test_sweep(points: &[u64], values: &[f64], own: f32, n: u64) -> f32 {
    exports::leaves::goqhari_test_sweep(points, values, own, n)
}

#[unsafe(no_mangle)]
pub extern "C" fn goqhari_test_swept(own: f32, value: f64) -> f32 {
    exports::leaves::goqhari_test_swept(own, value)
}

#[unsafe(no_mangle)]
pub extern "C" fn goqhari_test_grade_corner(night: f32, day: f32, t: f64) -> f32 {
    exports::leaves::goqhari_test_grade_corner(night, day, t)
}

#[unsafe(no_mangle)]
pub extern "C" fn goqhari_test_grade_drive(night: f32, day: f32, t: f64) -> f64 {
    exports::leaves::goqhari_test_grade_drive(night, day, t)
}

#[unsafe(no_mangle)]
pub extern "C" fn goqhari_test_sidechain(since: u64) -> f64 {
    exports::leaves::goqhari_test_sidechain(since)
}

// Keeps the kicks in a duck's part; answers how many.
#[unsafe(no_mangle)]
pub extern "C" fn goqhari_test_duck_new(kicks: &[u64], counts: &mut [u64]) -> usize {
    exports::leaves::goqhari_test_duck_new(kicks, counts)
}

// The gain of the sample n; the cursors are count, reached and ducking.
#[unsafe(no_mangle)]
pub extern "C" fn goqhari_test_duck(
    counts: &mut [u64],
    cursors: &mut [usize; 3],
    n: u64,
    drums: bool,
) -> f64 {
    exports::leaves::goqhari_test_duck(counts, cursors, n, drums)
}
