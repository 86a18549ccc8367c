// Functions for the Rust harness beside the part, for which exports_stages_c exports them: a fresh tape lane, plate or ceiling over a whole
// signal, in calls of the lengths that are given, and the lane's tilt. Only the harness and the replay use them. Rust promises nothing of what it passes: lengths and
// bounds are tested first, and nothing is done where they do not hold.
#![tactic(auto)]

ghost use Rattle.std.specs.Prelude.{◌↔◌, ◌+◌, ◌-◌, ◌<◌, ◌≤◌, ◌*◌, ◌≡◌, min, true, length, IsTrue, T};
ghost use Rattle.ranges.specs.Ranges.{most_kicks, last_position};
ghost use Rattle.duck.specs.Cursors.{duck_counts};
ghost use Rattle.rate.specs.Ceiling.{ceiling_rate};
ghost use Rattle.master.specs.Kept.{ceiling_on};
ghost use Rattle.master.specs.WellFormed.{well_formed};

mod lane;

use automation::Sweep;
use duck::Duck;
use lane::Lane;
use master::Ceiling;
use onepole::OnePole;
use plate::Plate;
use rate::{CeilingRate, PlateRate, Rate, TapeRate, places};

// What the ceiling needs of each store.
const LATE: usize = CeilingRate::WINDOW + 1 + 2 * CeilingRate::AHEAD;

const STEPS: usize = CeilingRate::WINDOW + 1 + (CeilingRate::AHEAD + 1);

// Where a call of len samples ends that begins at `at`, of `most` samples.
fn end_of(at: usize, len: u64, most: usize) -> usize
    requires { at ≤ most }
    ensures { result ≡ at + min len (most - at) }
{
    at + len.min((most - at) as u64) as usize
}

// Whether a call of len samples at n ends by the last position.
fn in_time(n: u64, len: usize) -> bool
    ensures { IsTrue result ↔ (n + len ≤ last_position) }
{
    n <= ranges::LAST_POSITION && len as u64 <= ranges::LAST_POSITION - n
}

// ---- the tape lane

// A fresh lane; whether it is at rest at the end.
pub fn goqhari_test_tape(
    f32s: &[f32; 8],
    f64s: &[f64; 4],
    flags: u64,
    points: &[u64],
    values: &[f64],
    kicks: &[u64],
    ring: &mut [f64],
    counts: &mut [u64],
    samples: &mut [f64],
    calls: &[u64],
) -> bool {
    if ranges::MOST_KICKS < kicks.len() || counts.len() < duck::COUNTS {
        return false;
    }
    ring.fill(0.0);
    let duck = Duck::new(kicks, counts);
    let tape = tape::fresh(TapeRate::cd(), duck.count);
    // Nothing runs where a point has no value.
    if values.len() < points.len() {
        return tape::at_rest(tape, ring);
    }
    let sweep = Sweep {
        positions: points,
        values,
    };
    let mut lane = Lane {
        setup: setup::tape_setup_of(f32s, f64s, flags),
        sweep,
        ring,
        counts,
        daylight: lane::held(f32s[6]),
        rain: lane::held(f32s[7]),
        tape,
    };
    lane.play(samples, calls);
    lane.at_rest()
}

// The lane's tilt at a rain, of a one-pole that it lends to its step: pole and y.
pub fn goqhari_test_tilt_lent(s: &mut [f64; 2], rain: f64, x: f64) -> f64 {
    let [pole, y] = *s;
    let next = tape::tilt(OnePole { pole, y }, onepole::lift(rain), x);
    *s = [next.lp.pole, next.lp.y];
    next.out
}

// ---- the plate

// A call, if the lengths of the plate's part and of the call fit.
#[tactic(auto, using(rate::proofs::Rates::usable_44100))]
fn plated(plate: Plate, part: &mut [f64], left: &mut [f64], right: &mut [f64], n: u64) -> Plate {
    let rate = Rate::cd();
    if part.len() == places::plate_samples(rate)
        && right.len() == left.len()
        && in_time(n, left.len())
    {
        plate::block(rate.plate, plate, part, left, right, n)
    } else {
        plate
    }
}

// A fresh plate over what lies in left, in calls of the given lengths; whether it is at rest at the end.
pub fn goqhari_test_plate(
    part: &mut [f64],
    left: &mut [f64],
    right: &mut [f64],
    calls: &[u64],
) -> bool {
    if right.len() != left.len() {
        return false;
    }
    part.fill(0.0);
    let mut plate = Plate::new(PlateRate::cd());
    let mut at = 0;
    for &len in calls {
        let end = end_of(at, len, left.len());
        plate = plated(
            plate,
            part,
            &mut left[at..end],
            &mut right[at..end],
            at as u64,
        );
        at = end;
    }
    plate::at_rest(plate, part)
}

// ---- the ceiling

// The calls, by a ceiling that is well-formed, as it stays.
#[tactic(auto, using(rate::proofs::Ceiling::usable_44100, crate::proofs::Fits::sized_of, crate::proofs::Fits::stays))]
fn limit(
    mut c: Ceiling,
    samples: &mut [f64],
    counts: &mut [u64],
    left: &[f64],
    right: &[f64],
    frames: &mut [f32],
    gains: &mut [u64],
    calls: &[u64],
)
    requires in_bounds { (1323 ≤ length samples.old) × (1104 ≤ length counts.old) }
    requires is_well_formed { T (well_formed (ceiling_rate 44100) (ceiling_on c samples.old counts.old)) }
    requires left_len_bound { length left.now ≤ last_position }
    requires right_len { (length right.now ≡ length left.now) × (length gains.old ≡ length left.now) }
    requires frames_len { length frames.old ≡ 2 * length left.now }
{
    let rate = CeilingRate::cd();
    let mut at = 0;
    for &len in calls {
        let end = end_of(at, len, left.len());
        c = master::block(
            rate,
            c,
            samples,
            counts,
            at as u64,
            &left[at..end],
            &right[at..end],
            &mut frames[2 * at..2 * end],
            &mut gains[at..end],
        );
        at = end;
    }
}

// A fresh ceiling over the frames (left, right), in calls of the given lengths.
#[tactic(auto, using(rate::proofs::Ceiling::usable_44100, crate::proofs::Fits::sized_of))]
pub fn goqhari_test_ceiling(
    samples: &mut [f64],
    counts: &mut [u64],
    left: &[f64],
    right: &[f64],
    frames: &mut [f32],
    gains: &mut [u64],
    calls: &[u64],
) {
    let sides = right.len() == left.len() && in_time(0, left.len());
    let outputs = gains.len() == left.len()
        && frames.len() % 2 == 0
        && frames.len() / 2 == left.len();
    if samples.len() < LATE || counts.len() < STEPS || !sides || !outputs {
        return;
    }
    let rate = CeilingRate::cd();
    let c = master::fresh(rate, samples, counts);
    if master::well_formed(rate, c, samples, counts) {
        limit(c, samples, counts, left, right, frames, gains, calls);
    }
}
