// The four calls for C (include/goqhari.h): `rt lib` here builds the library from them, build/libgoqhari.a. Each calls the function of its
// name in goqhari, whose clauses it repeats. It may use goqhari alone, and of what that uses the definitions.
#![tactic(auto)]

ghost use Rattle.std.specs.Prelude.{◌≡◌};
ghost use Rattle.rate.specs.Rate.{rate_of};
ghost use Rattle.strip.specs.Kept.{lists_of};
ghost use Rattle.goqhari.specs.Library.{back, opening, library_open, running, library_run, controls, library_latch, resting, library_rest};

#[unsafe(no_mangle)]
pub extern "C" fn goqhari_open(
    singles: &[f32; 8],
    doubles: &[f64; 4],
    flags: u64,
    positions: &[u64],
    values: &[f64],
    kicks: &[u64],
    numbers: &mut [f64],
    words: &mut [u64],
    store: &mut [f64],
    counts: &mut [u64],
) -> u64
    ensures { opening (back result numbers.new words.new) store.new counts.new ≡ library_open (rate_of 44100) singles.now doubles.now flags (lists_of positions.now values.now kicks.now) numbers.old words.old store.old counts.old }
{
    goqhari::goqhari_open(
        singles, doubles, flags, positions, values, kicks, numbers, words, store, counts,
    )
}

#[unsafe(no_mangle)]
pub extern "C" fn goqhari_run(
    numbers: &mut [f64],
    words: &mut [u64],
    samples: &[f64],
    drums: u64,
    frames: &mut [f32],
    gains: &mut [u64],
    store: &mut [f64],
    counts: &mut [u64],
) -> u64
    ensures { running (back result numbers.new words.new) store.new counts.new frames.new gains.new ≡ library_run (rate_of 44100) numbers.old words.old samples.now drums store.old counts.old frames.old gains.old }
{
    goqhari::goqhari_run(numbers, words, samples, drums, frames, gains, store, counts)
}

#[unsafe(no_mangle)]
pub extern "C" fn goqhari_latch(
    numbers: &mut [f64],
    words: &mut [u64],
    daylight: f32,
    grading: u64,
    rain: f32,
    darkening: u64,
    store: &[f64],
    counts: &[u64],
) -> u64
    ensures { back result numbers.new words.new ≡ library_latch (rate_of 44100) numbers.old words.old (controls daylight grading rain darkening) store.now counts.now }
{
    goqhari::goqhari_latch(
        numbers, words, daylight, grading, rain, darkening, store, counts,
    )
}

#[unsafe(no_mangle)]
pub extern "C" fn goqhari_rest(
    numbers: &[f64],
    words: &[u64],
    rests: &mut [u64; 1],
    store: &[f64],
    counts: &[u64],
) -> u64
    ensures { resting result rests.new ≡ library_rest (rate_of 44100) numbers.now words.now rests.old store.now counts.now }
{
    goqhari::goqhari_rest(numbers, words, rests, store, counts)
}
