// The four calls for C (include/goqhari.h), which goqhari_c exports. The strip stands packed in two lists that the caller lends.
// No call has a `requires`, and each contract is the Rattle call's through the packing (specs/Library.antt).
// Uses part for the calls, packing for the strip, refusals for 1, setup for the setup.
#![tactic(auto)]

ghost use Rattle.std.specs.Prelude.{◌≡◌};
ghost use Rattle.rate.specs.Rate.{rate_of};
ghost use Rattle.strip.specs.Kept.{lists_of};
ghost use Rattle.goqhari.specs.Library.{number, lent_strip, back, declined_by, opening, library_open, running, library_run, controls, library_latch, resting, library_rest};

use packing::UnpackError;
use rate::Rate;
use strip::{Controls, Refusal, Strip};

// 0, or the refusal's number.
fn number(answer: Result<(), Refusal>) -> u64
    ensures { result ≡ number answer }
{
    match answer {
        Ok(()) => 0,
        Err(refusal) => u64::from(refusal),
    }
}

// A refusal that 1 comes before.
#[tactic(auto, unfolding(crate::specs::Library::declined_by))]
fn declined(refusal: Refusal, store: &[f64], counts: &[u64]) -> Refusal
    ensures { result ≡ declined_by (rate_of 44100) refusal store.now counts.now }
{
    if refusals::long_enough(Rate::cd(), store, counts) {
        refusal
    } else {
        Refusal::StoreShort
    }
}

// The packed strip that a caller lends.
#[tactic(auto, unfolding(crate::specs::Library::lent_strip))]
fn lent_strip(
    numbers: &[f64],
    words: &[u64],
    store: &[f64],
    counts: &[u64],
) -> Result<Strip, Refusal>
    ensures { result ≡ lent_strip (rate_of 44100) numbers.now words.now store.now counts.now }
{
    match packing::unpack(numbers, words) {
        Ok(strip) => Ok(strip),
        Err(UnpackError::Short) => Err(Refusal::StoreShort),
        Err(UnpackError::Malformed) => Err(declined(Refusal::BadStrip, store, counts)),
    }
}

// ---- open

#[tactic(auto, unfolding(crate::specs::Library::library_open, crate::specs::Library::open_done, crate::specs::Library::opened_back, crate::specs::Library::packed_back))]
fn open(
    singles: &[f32; 8],
    doubles: &[f64; 4],
    flags: u64,
    positions: &[u64],
    values: &[f64],
    kicks: &[u64],
    numbers: &mut [f64],
    words: &mut [u64],
    store: &mut [f64],
    counts: &mut [u64],
) -> Result<(), Refusal>
    ensures { opening (back (number result) numbers.new words.new) store.new counts.new ≡ library_open (rate_of 44100) singles.now doubles.now flags (lists_of positions.now values.now kicks.now) numbers.old words.old store.old counts.old }
{
    if !packing::roomy(numbers, words) {
        return Err(Refusal::StoreShort);
    }
    if 15 < flags {
        return Err(declined(Refusal::BadSetup, store, counts));
    }
    let setup = setup::setup_of(singles, doubles, flags);
    let strip = part::open(setup, positions, values, kicks, store, counts)?;
    packing::pack(strip, numbers, words);
    Ok(())
}

pub fn goqhari_open(
    singles: &[f32; 8],
    doubles: &[f64; 4],
    flags: u64,
    positions: &[u64],
    values: &[f64],
    kicks: &[u64],
    numbers: &mut [f64],
    words: &mut [u64],
    store: &mut [f64],
    counts: &mut [u64],
) -> u64
    ensures { opening (back result numbers.new words.new) store.new counts.new ≡ library_open (rate_of 44100) singles.now doubles.now flags (lists_of positions.now values.now kicks.now) numbers.old words.old store.old counts.old }
{
    number(open(
        singles, doubles, flags, positions, values, kicks, numbers, words, store, counts,
    ))
}

// ---- run

#[tactic(auto, unfolding(crate::specs::Library::library_run, crate::specs::Library::run_from, crate::specs::Library::run_done, crate::specs::Library::drumming, crate::specs::Library::outcome_back, crate::specs::Library::packed_back))]
fn run(
    numbers: &mut [f64],
    words: &mut [u64],
    samples: &[f64],
    drums: u64,
    frames: &mut [f32],
    gains: &mut [u64],
    store: &mut [f64],
    counts: &mut [u64],
) -> Result<(), Refusal>
    ensures { running (back (number result) numbers.new words.new) store.new counts.new frames.new gains.new ≡ library_run (rate_of 44100) numbers.old words.old samples.now drums store.old counts.old frames.old gains.old }
{
    let strip = lent_strip(numbers, words, store, counts)?;
    let next = part::run(strip, samples, drums != 0, frames, gains, store, counts)?;
    packing::pack(next, numbers, words);
    Ok(())
}

pub fn goqhari_run(
    numbers: &mut [f64],
    words: &mut [u64],
    samples: &[f64],
    drums: u64,
    frames: &mut [f32],
    gains: &mut [u64],
    store: &mut [f64],
    counts: &mut [u64],
) -> u64
    ensures { running (back result numbers.new words.new) store.new counts.new frames.new gains.new ≡ library_run (rate_of 44100) numbers.old words.old samples.now drums store.old counts.old frames.old gains.old }
{
    number(run(numbers, words, samples, drums, frames, gains, store, counts))
}

// ---- latch

#[tactic(auto, unfolding(crate::specs::Library::library_latch, crate::specs::Library::latch_from, crate::specs::Library::outcome_back, crate::specs::Library::packed_back))]
fn latch(
    numbers: &mut [f64],
    words: &mut [u64],
    controls: Controls,
    store: &[f64],
    counts: &[u64],
) -> Result<(), Refusal>
    ensures { back (number result) numbers.new words.new ≡ library_latch (rate_of 44100) numbers.old words.old controls store.now counts.now }
{
    let strip = lent_strip(numbers, words, store, counts)?;
    let next = part::latch(strip, controls, store, counts)?;
    packing::pack(next, numbers, words);
    Ok(())
}

pub fn goqhari_latch(
    numbers: &mut [f64],
    words: &mut [u64],
    daylight: f32,
    grading: u64,
    rain: f32,
    darkening: u64,
    store: &[f64],
    counts: &[u64],
) -> u64
    ensures { back result numbers.new words.new ≡ library_latch (rate_of 44100) numbers.old words.old (controls daylight grading rain darkening) store.now counts.now }
{
    let controls = Controls {
        daylight,
        grading,
        rain,
        darkening,
    };
    number(latch(numbers, words, controls, store, counts))
}

// ---- rest

#[tactic(auto, unfolding(crate::specs::Library::library_rest, crate::specs::Library::rest_from, crate::specs::Library::rested_back))]
fn rest(
    numbers: &[f64],
    words: &[u64],
    rests: &mut [u64; 1],
    store: &[f64],
    counts: &[u64],
) -> Result<(), Refusal>
    ensures { resting (number result) rests.new ≡ library_rest (rate_of 44100) numbers.now words.now rests.old store.now counts.now }
{
    let strip = lent_strip(numbers, words, store, counts)?;
    let answer = part::rest(strip, store, counts)?;
    rests[0] = u64::from(answer);
    Ok(())
}

pub fn goqhari_rest(
    numbers: &[f64],
    words: &[u64],
    rests: &mut [u64; 1],
    store: &[f64],
    counts: &[u64],
) -> u64
    ensures { resting result rests.new ≡ library_rest (rate_of 44100) numbers.now words.now rests.old store.now counts.now }
{
    number(rest(numbers, words, rests, store, counts))
}
