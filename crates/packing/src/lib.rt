// A strip as numbers and words: what a caller of the C library lends a strip's memory as. specs/Packing.antt has each part's places,
// counted from its own start; what was packed is read back (proofs/Inverse.antt).
// Uses casts, the crates of the stages and strip for their types, setup for one definition, and laying to lay a list.
#![tactic(auto)]

ghost use Rattle.std.specs.Prelude.{◌≡◌, ◌&&◌, [], ◌∷◌, ◌≤◌, length};
ghost use Rattle.stage.specs.Stage.{over};
ghost use Rattle.setup.specs.Setup.{number_at};
ghost use Rattle.packing.specs.Packing.{flagged, shape_tag, shape_of, one_pole_long, one_pole_from, section_long, section_from, lowpass_long, lowpass_from, ramp_numbers_long, ramp_words_long, ramp_from, ramp_fits, is_short, both_short, tone_long, tone_numbers, tone_tag, tone_from, tone_fits, pad_long, pad_numbers, pad_tag, pad_from, pad_fits, setup_numbers_long, setup_words_long, setup_from, flags_fit, setup_fits, equalizer_long, equalizer_from, tape_numbers_long, tape_words_long, duck_from, tape_from, lane_numbers_long, lane_words_long, lane_numbers, lane_words, lane_from, lane_fits, bus_numbers_long, bus_words_long, plate_from, bus_numbers, bus_words, bus_from, numbers_long, words_long, packed_numbers, packed_words, roomy, unpackable, strip_from, unpacked};

use automation::Tone;
use biquad::{Lowpass, Section};
use duck::Duck;
use master::Ceiling;
use onepole::OnePole;
use oscillators::Pad;
use plate::{Plate, Tank};
use ramp::{Ramp, Shape};
use strip::{Bus, Lane, Setup, Strip};
use tape::{Equalizer, Tape, TapeSetup};

// How many numbers and how many words each part has, and where a part stands in the next larger one.
const ONE_POLE: usize = 2;

const SECTION: usize = 9;

const LOWPASS: usize = SECTION + SECTION;

const RAMP_NUMBERS: usize = 2;

const RAMP_WORDS: usize = 3;

const TONE: usize = 4;

const PAD: usize = 2;

const SETUP_NUMBERS: usize = TONE + PAD + 5;

const SETUP_WORDS: usize = 4;

const TILT_AT: usize = SECTION + LOWPASS;

const EQUALIZER: usize = TILT_AT + ONE_POLE;

const TUNING_AT: usize = LOWPASS + EQUALIZER;

const TAPE_NUMBERS: usize = TUNING_AT + 2;

const TAPE_WORDS: usize = 4;

const RAIN_AT: usize = SETUP_NUMBERS + RAMP_NUMBERS;

const TAPE_AT: usize = RAIN_AT + RAMP_NUMBERS;

const LANE_NUMBERS: usize = TAPE_AT + TAPE_NUMBERS;

const DAYLIGHT_WORDS_AT: usize = SETUP_WORDS + 1;

const RAIN_WORDS_AT: usize = DAYLIGHT_WORDS_AT + RAMP_WORDS;

const TAPE_WORDS_AT: usize = RAIN_WORDS_AT + RAMP_WORDS;

const LANE_WORDS: usize = TAPE_WORDS_AT + TAPE_WORDS;

const LEFT_AT: usize = ONE_POLE + ONE_POLE;

const RIGHT_AT: usize = LEFT_AT + SECTION;

const RELEASED_AT: usize = RIGHT_AT + SECTION;

const BUS_NUMBERS: usize = RELEASED_AT + 1;

const BUS_WORDS: usize = 3;

const NUMBERS: usize = BUS_NUMBERS + LANE_NUMBERS;

const OWN_WORDS: usize = 1;

const LANE_WORDS_AT: usize = OWN_WORDS + BUS_WORDS;

const WORDS: usize = LANE_WORDS_AT + LANE_WORDS;

// Why numbers and words are no packed strip: too few of them, or a tag, a bool or an f32 that is none.
#[derive(Clone, Copy, PartialEq, Eq)]
pub enum UnpackError {
    Short,
    Malformed,
}

// ---- tags, bools and counts as words, and back

// 1 for true.
pub fn flagged(flag: bool) -> u64
    ensures { result ≡ flagged flag }
{
    u64::from(flag)
}

// A tag and not a From: the shape is ramp's and the tone automation's, and neither knows the packing's words.
fn shape_tag(shape: Shape) -> u64
    ensures { result ≡ shape_tag shape }
{
    match shape {
        Shape::Linear => 0,
        Shape::Db => 1,
    }
}

#[tactic(auto, unfolding(crate::specs::Packing::shape_of))]
fn shape_of(tag: u64) -> Shape
    ensures { result ≡ shape_of tag }
{
    if tag == 0 { Shape::Linear } else { Shape::Db }
}

// ---- a one-pole, a section, two sections, and a ramp

fn one_pole_from(numbers: &[f64]) -> OnePole
    requires { one_pole_long ≤ length numbers.now }
    ensures { result ≡ one_pole_from numbers.now }
{
    OnePole {
        pole: numbers[0],
        y: numbers[1],
    }
}

fn section_from(numbers: &[f64]) -> Section
    requires { section_long ≤ length numbers.now }
    ensures { result ≡ section_from numbers.now }
{
    Section {
        b0: numbers[0],
        b1: numbers[1],
        b2: numbers[2],
        a1: numbers[3],
        a2: numbers[4],
        x1: numbers[5],
        x2: numbers[6],
        y1: numbers[7],
        y2: numbers[8],
    }
}

#[tactic(auto, unfolding(crate::specs::Packing::lowpass_from))]
fn lowpass_from(numbers: &[f64]) -> Lowpass
    requires { lowpass_long ≤ length numbers.now }
    ensures { result ≡ lowpass_from numbers.now }
{
    let first = section_from(numbers);
    let second = section_from(&numbers[SECTION..]);
    Lowpass { first, second }
}

#[tactic(auto, unfolding(crate::specs::Packing::ramp_from))]
fn ramp_from(numbers: &[f64], words: &[u64]) -> Ramp
    requires { (ramp_numbers_long ≤ length numbers.now) × (ramp_words_long ≤ length words.now) }
    ensures { result ≡ ramp_from numbers.now words.now }
{
    let shape = shape_of(words[2]);
    Ramp {
        from: numbers[0],
        to: numbers[1],
        start: words[0],
        len: words[1],
        shape,
    }
}

fn ramp_fits(words: &[u64]) -> bool
    requires { ramp_words_long ≤ length words.now }
    ensures { result ≡ ramp_fits words.now }
{
    words[2] <= 1
}

// ---- a tone and a pad

#[tactic(auto, unfolding(crate::specs::Packing::tone_numbers))]
fn tone_numbers(tone: Tone) -> [f64; TONE]
    ensures { tone_numbers tone ≡ number_at result 0 ∷ number_at result 1 ∷ number_at result 2 ∷ number_at result 3 ∷ [] }
{
    match tone {
        Tone::Fixed { corner, drive } => [casts::widen(corner), drive, 0.0, 0.0],
        Tone::Graded {
            night_corner,
            day_corner,
            night_drive,
            day_drive,
        } => [
            casts::widen(night_corner),
            casts::widen(day_corner),
            casts::widen(night_drive),
            casts::widen(day_drive),
        ],
    }
}

fn tone_tag(tone: Tone) -> u64
    ensures { result ≡ tone_tag tone }
{
    match tone {
        Tone::Fixed { .. } => 0,
        Tone::Graded { .. } => 1,
    }
}

#[tactic(auto, unfolding(crate::specs::Packing::tone_from))]
fn tone_from(numbers: &[f64], tag: u64) -> Tone
    requires { tone_long ≤ length numbers.now }
    ensures { result ≡ tone_from numbers.now tag }
{
    let corner = casts::narrow(numbers[0]);
    if tag == 0 {
        Tone::Fixed {
            corner,
            drive: numbers[1],
        }
    } else {
        Tone::Graded {
            night_corner: corner,
            day_corner: casts::narrow(numbers[1]),
            night_drive: casts::narrow(numbers[2]),
            day_drive: casts::narrow(numbers[3]),
        }
    }
}

#[tactic(auto, unfolding(crate::specs::Packing::pad_numbers))]
fn pad_numbers(pad: Option<Pad>) -> [f64; PAD]
    ensures { pad_numbers pad ≡ number_at result 0 ∷ number_at result 1 ∷ [] }
{
    match pad {
        None => [0.0, 0.0],
        Some(swell) => [casts::widen(swell.hz), casts::widen(swell.depth)],
    }
}

fn pad_tag(pad: Option<Pad>) -> u64
    ensures { result ≡ pad_tag pad }
{
    u64::from(pad.is_some())
}

#[tactic(auto, unfolding(crate::specs::Packing::pad_from))]
fn pad_from(numbers: &[f64], tag: u64) -> Option<Pad>
    requires { pad_long ≤ length numbers.now }
    ensures { result ≡ pad_from numbers.now tag }
{
    if tag == 0 {
        None
    } else {
        Some(Pad {
            hz: casts::narrow(numbers[0]),
            depth: casts::narrow(numbers[1]),
        })
    }
}

// ---- which numbers are an f32's

// Nearly all have the field of a normal f32 and no digit below an f32's.
fn is_short(x: f64) -> bool
    ensures { result ≡ is_short x }
{
    let bits = casts::bits_of_f64(x);
    if bits % 536870912 == 0 {
        let field = bits / 4503599627370496 % 2048;
        if 897 <= field && field < 1151 {
            return true;
        }
    }
    let y = casts::widen(casts::narrow(x));
    casts::bits_of_f64(y) == bits
}

#[tactic(auto, unfolding(crate::specs::Packing::both_short))]
fn both_short(numbers: &[f64]) -> bool
    requires { 2 ≤ length numbers.now }
    ensures { result ≡ both_short numbers.now }
{
    is_short(numbers[0]) && is_short(numbers[1])
}

#[tactic(auto, unfolding(crate::specs::Packing::tone_fits))]
fn tone_fits(numbers: &[f64], tag: u64) -> bool
    requires { tone_long ≤ length numbers.now }
    ensures { result ≡ tone_fits numbers.now tag }
{
    match tag {
        0 => is_short(numbers[0]),
        1 => both_short(numbers) && both_short(&numbers[2..]),
        _ => false,
    }
}

#[tactic(auto, unfolding(crate::specs::Packing::pad_fits))]
fn pad_fits(numbers: &[f64], tag: u64) -> bool
    requires { pad_long ≤ length numbers.now }
    ensures { result ≡ pad_fits numbers.now tag }
{
    match tag {
        0 => true,
        1 => both_short(numbers),
        _ => false,
    }
}

// ---- a setup

#[tactic(auto, unfolding(crate::specs::Packing::setup_from))]
fn setup_from(numbers: &[f64], words: &[u64]) -> Setup
    requires { (setup_numbers_long ≤ length numbers.now) × (setup_words_long ≤ length words.now) }
    ensures { result ≡ setup_from numbers.now words.now }
{
    let tone = tone_from(numbers, words[0]);
    let pad = pad_from(&numbers[TONE..], words[1]);
    let tape = TapeSetup {
        tone,
        pad,
        darkened: words[2] != 0,
        input: numbers[6],
        output: numbers[7],
        ducked: words[3] != 0,
    };
    Setup {
        tape,
        daylight: casts::narrow(numbers[8]),
        rain: casts::narrow(numbers[9]),
        send: numbers[10],
    }
}

fn flags_fit(words: &[u64]) -> bool
    requires { setup_words_long ≤ length words.now }
    ensures { result ≡ flags_fit words.now }
{
    words[2] <= 1 && words[3] <= 1
}

#[tactic(auto, unfolding(crate::specs::Packing::setup_fits))]
fn setup_fits(numbers: &[f64], words: &[u64]) -> bool
    requires { (setup_numbers_long ≤ length numbers.now) × (setup_words_long ≤ length words.now) }
    ensures { result ≡ setup_fits numbers.now words.now }
{
    tone_fits(numbers, words[0])
        && pad_fits(&numbers[TONE..], words[1])
        && both_short(&numbers[8..])
        && flags_fit(words)
}

// ---- what the tape keeps

#[tactic(auto, unfolding(crate::specs::Packing::equalizer_from))]
fn equalizer_from(numbers: &[f64]) -> Equalizer
    requires { equalizer_long ≤ length numbers.now }
    ensures { result ≡ equalizer_from numbers.now }
{
    let bump = section_from(numbers);
    let rolloff = lowpass_from(&numbers[SECTION..]);
    let tilt = one_pole_from(&numbers[TILT_AT..]);
    Equalizer {
        bump,
        rolloff,
        tilt,
    }
}

#[tactic(auto, unfolding(crate::specs::Packing::duck_from))]
fn duck_from(words: &[u64]) -> Duck
    requires { tape_words_long ≤ length words.now }
    ensures { result ≡ duck_from words.now }
{
    Duck {
        count: words[0] as usize,
        reached: words[1] as usize,
        ducking: words[2] as usize,
    }
}

fn tape_from(numbers: &[f64], words: &[u64]) -> Tape
    requires { (tape_numbers_long ≤ length numbers.now) × (tape_words_long ≤ length words.now) }
    ensures { result ≡ tape_from numbers.now words.now }
{
    let tone = lowpass_from(numbers);
    let equalizer = equalizer_from(&numbers[LOWPASS..]);
    let tuning = &numbers[TUNING_AT..];
    let duck = duck_from(words);
    Tape {
        tone,
        equalizer,
        duck,
        drive: tuning[0],
        top: tuning[1],
        until: words[3],
    }
}

// ---- a lane

#[tactic(auto, unfolding(crate::specs::Packing::lane_numbers))]
pub fn lane_numbers(lane: Lane) -> [f64; LANE_NUMBERS]
    ensures { result ≡ lane_numbers lane }
{
    let setup = lane.setup;
    let tape = setup.tape;
    let tone = tape.tone;
    let pad = tape.pad;
    let t = tone_numbers(tone);
    let p = pad_numbers(pad);
    let daylight = casts::widen(lane.setup.daylight);
    let rain = casts::widen(lane.setup.rain);
    [
        t[0],
        t[1],
        t[2],
        t[3],
        p[0],
        p[1],
        lane.setup.tape.input,
        lane.setup.tape.output,
        daylight,
        rain,
        lane.setup.send,
        lane.daylight.from,
        lane.daylight.to,
        lane.rain.from,
        lane.rain.to,
        lane.tape.tone.first.b0,
        lane.tape.tone.first.b1,
        lane.tape.tone.first.b2,
        lane.tape.tone.first.a1,
        lane.tape.tone.first.a2,
        lane.tape.tone.first.x1,
        lane.tape.tone.first.x2,
        lane.tape.tone.first.y1,
        lane.tape.tone.first.y2,
        lane.tape.tone.second.b0,
        lane.tape.tone.second.b1,
        lane.tape.tone.second.b2,
        lane.tape.tone.second.a1,
        lane.tape.tone.second.a2,
        lane.tape.tone.second.x1,
        lane.tape.tone.second.x2,
        lane.tape.tone.second.y1,
        lane.tape.tone.second.y2,
        lane.tape.equalizer.bump.b0,
        lane.tape.equalizer.bump.b1,
        lane.tape.equalizer.bump.b2,
        lane.tape.equalizer.bump.a1,
        lane.tape.equalizer.bump.a2,
        lane.tape.equalizer.bump.x1,
        lane.tape.equalizer.bump.x2,
        lane.tape.equalizer.bump.y1,
        lane.tape.equalizer.bump.y2,
        lane.tape.equalizer.rolloff.first.b0,
        lane.tape.equalizer.rolloff.first.b1,
        lane.tape.equalizer.rolloff.first.b2,
        lane.tape.equalizer.rolloff.first.a1,
        lane.tape.equalizer.rolloff.first.a2,
        lane.tape.equalizer.rolloff.first.x1,
        lane.tape.equalizer.rolloff.first.x2,
        lane.tape.equalizer.rolloff.first.y1,
        lane.tape.equalizer.rolloff.first.y2,
        lane.tape.equalizer.rolloff.second.b0,
        lane.tape.equalizer.rolloff.second.b1,
        lane.tape.equalizer.rolloff.second.b2,
        lane.tape.equalizer.rolloff.second.a1,
        lane.tape.equalizer.rolloff.second.a2,
        lane.tape.equalizer.rolloff.second.x1,
        lane.tape.equalizer.rolloff.second.x2,
        lane.tape.equalizer.rolloff.second.y1,
        lane.tape.equalizer.rolloff.second.y2,
        lane.tape.equalizer.tilt.pole,
        lane.tape.equalizer.tilt.y,
        lane.tape.drive,
        lane.tape.top,
    ]
}

#[tactic(auto, unfolding(crate::specs::Packing::lane_words))]
pub fn lane_words(lane: Lane) -> [u64; LANE_WORDS]
    ensures { result ≡ lane_words lane }
{
    let setup = lane.setup;
    let tape = setup.tape;
    let tone = tape.tone;
    let pad = tape.pad;
    let daylight = lane.daylight;
    let rain = lane.rain;
    let daylight_shape = daylight.shape;
    let rain_shape = rain.shape;
    [
        tone_tag(tone),
        pad_tag(pad),
        flagged(lane.setup.tape.darkened),
        flagged(lane.setup.tape.ducked),
        lane.points as u64,
        lane.daylight.start,
        lane.daylight.len,
        shape_tag(daylight_shape),
        lane.rain.start,
        lane.rain.len,
        shape_tag(rain_shape),
        lane.tape.duck.count as u64,
        lane.tape.duck.reached as u64,
        lane.tape.duck.ducking as u64,
        lane.tape.until,
    ]
}

pub fn lane_from(numbers: &[f64], words: &[u64]) -> Lane
    requires { (lane_numbers_long ≤ length numbers.now) × (lane_words_long ≤ length words.now) }
    ensures { result ≡ lane_from numbers.now words.now }
{
    let setup = setup_from(numbers, words);
    let daylight = ramp_from(&numbers[SETUP_NUMBERS..], &words[DAYLIGHT_WORDS_AT..]);
    let rain = ramp_from(&numbers[RAIN_AT..], &words[RAIN_WORDS_AT..]);
    let tape = tape_from(&numbers[TAPE_AT..], &words[TAPE_WORDS_AT..]);
    Lane {
        setup,
        points: words[SETUP_WORDS] as usize,
        daylight,
        rain,
        tape,
    }
}

#[tactic(auto, unfolding(crate::specs::Packing::lane_fits))]
fn lane_fits(numbers: &[f64], words: &[u64]) -> bool
    requires { (lane_numbers_long ≤ length numbers.now) × (lane_words_long ≤ length words.now) }
    ensures { result ≡ lane_fits numbers.now words.now }
{
    setup_fits(numbers, words)
        && ramp_fits(&words[DAYLIGHT_WORDS_AT..])
        && ramp_fits(&words[RAIN_WORDS_AT..])
}

// ---- a bus

pub fn bus_numbers(bus: Bus) -> [f64; BUS_NUMBERS]
    ensures { result ≡ bus_numbers bus }
{
    [
        bus.plate.tank.left.pole,
        bus.plate.tank.left.y,
        bus.plate.tank.right.pole,
        bus.plate.tank.right.y,
        bus.plate.left.b0,
        bus.plate.left.b1,
        bus.plate.left.b2,
        bus.plate.left.a1,
        bus.plate.left.a2,
        bus.plate.left.x1,
        bus.plate.left.x2,
        bus.plate.left.y1,
        bus.plate.left.y2,
        bus.plate.right.b0,
        bus.plate.right.b1,
        bus.plate.right.b2,
        bus.plate.right.a1,
        bus.plate.right.a2,
        bus.plate.right.x1,
        bus.plate.right.x2,
        bus.plate.right.y1,
        bus.plate.right.y2,
        bus.ceiling.released,
    ]
}

pub fn bus_words(bus: Bus) -> [u64; BUS_WORDS]
    ensures { result ≡ bus_words bus }
{
    [
        bus.ceiling.count,
        bus.ceiling.head as u64,
        bus.ceiling.len as u64,
    ]
}

#[tactic(auto, unfolding(crate::specs::Packing::plate_from))]
fn plate_from(numbers: &[f64]) -> Plate
    requires { bus_numbers_long ≤ length numbers.now }
    ensures { result ≡ plate_from numbers.now }
{
    let tank_left = one_pole_from(numbers);
    let tank_right = one_pole_from(&numbers[ONE_POLE..]);
    let tank = Tank {
        left: tank_left,
        right: tank_right,
    };
    let left = section_from(&numbers[LEFT_AT..]);
    let right = section_from(&numbers[RIGHT_AT..]);
    Plate { tank, left, right }
}

#[tactic(auto, unfolding(crate::specs::Packing::bus_from))]
pub fn bus_from(numbers: &[f64], words: &[u64]) -> Bus
    requires { (bus_numbers_long ≤ length numbers.now) × (bus_words_long ≤ length words.now) }
    ensures { result ≡ bus_from numbers.now words.now }
{
    let plate = plate_from(numbers);
    let ceiling = Ceiling {
        released: numbers[RELEASED_AT],
        count: words[0],
        head: words[1] as usize,
        len: words[2] as usize,
    };
    Bus { plate, ceiling }
}

// ---- a strip

fn pack_numbers(strip: Strip, numbers: &mut [f64])
    requires { numbers_long ≤ length numbers.old }
    ensures { numbers.new ≡ over (packed_numbers strip) numbers.old }
{
    let bus = strip.bus;
    let lane = strip.lane;
    let b = bus_numbers(bus);
    let k = lane_numbers(lane);
    laying::lay(&b, numbers);
    laying::lay(&k, &mut numbers[BUS_NUMBERS..]);
}

fn pack_words(strip: Strip, words: &mut [u64])
    requires { words_long ≤ length words.old }
    ensures { words.new ≡ over (packed_words strip) words.old }
{
    let bus = strip.bus;
    let lane = strip.lane;
    let own = [strip.position];
    let b = bus_words(bus);
    let k = lane_words(lane);
    laying::lay(&own, words);
    laying::lay(&b, &mut words[OWN_WORDS..]);
    laying::lay(&k, &mut words[LANE_WORDS_AT..]);
}

// A strip laid at its places, and what stands behind it as it was.
pub fn pack(strip: Strip, numbers: &mut [f64], words: &mut [u64])
    requires { (numbers_long ≤ length numbers.old) × (words_long ≤ length words.old) }
    ensures numbers_after { numbers.new ≡ over (packed_numbers strip) numbers.old }
    ensures words_after { words.new ≡ over (packed_words strip) words.old }
{
    pack_numbers(strip, numbers);
    pack_words(strip, words);
}

#[tactic(auto, unfolding(crate::specs::Packing::roomy))]
pub fn roomy(numbers: &[f64], words: &[u64]) -> bool
    ensures { result ≡ roomy numbers.now words.now }
{
    NUMBERS <= numbers.len() && WORDS <= words.len()
}

#[tactic(auto, unfolding(crate::specs::Packing::unpackable))]
fn unpackable(numbers: &[f64], words: &[u64]) -> bool
    requires { (numbers_long ≤ length numbers.now) × (words_long ≤ length words.now) }
    ensures { result ≡ unpackable numbers.now words.now }
{
    lane_fits(&numbers[BUS_NUMBERS..], &words[LANE_WORDS_AT..])
}

fn strip_from(numbers: &[f64], words: &[u64]) -> Strip
    requires { (numbers_long ≤ length numbers.now) × (words_long ≤ length words.now) }
    ensures { result ≡ strip_from numbers.now words.now }
{
    let bus = bus_from(numbers, &words[OWN_WORDS..]);
    let lane = lane_from(&numbers[BUS_NUMBERS..], &words[LANE_WORDS_AT..]);
    Strip {
        position: words[0],
        lane,
        bus,
    }
}

pub fn unpack(numbers: &[f64], words: &[u64]) -> Result<Strip, UnpackError>
    ensures { result ≡ unpacked numbers.now words.now }
{
    if !roomy(numbers, words) {
        return Err(UnpackError::Short);
    }
    if !unpackable(numbers, words) {
        return Err(UnpackError::Malformed);
    }
    Ok(strip_from(numbers, words))
}
