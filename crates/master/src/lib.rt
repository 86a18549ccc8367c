// The ceiling: a limiter with a look-ahead, and a clamp (document 01, "Ceiling"), as a stage on its own parts of the two stores.
// Uses casts (widen, narrow, whole part), ranges, stream (Frame), delay (a line at rest), rate (CeilingRate), and stage in specs and proofs.
#![tactic(auto)]

ghost use Rattle.std.specs.Prelude.{◌≡◌, ◌+◌, ◌-◌, ◌*◌, ◌/◌, ◌%◌, ◌<◌, ◌≤◌, T, length, get_or, ◌==◌, ◌&&◌, nat_le, sum, slice_index, slice_index_or, slice_set};
ghost use Rattle.std.specs.List.{list_all};
ghost use Rattle.std.specs.Float.{nan};
ghost use Rattle.std.specs.Float.Ieee.{le};
ghost use Rattle.casts.specs.Arithmetic.{◌⊗◌, size_of};
ghost use Rattle.casts.specs.Cast.{narrowed};
ghost use Rattle.casts.specs.Least.{min_f};
ghost use Rattle.casts.specs.Step.{step_of};
ghost use Rattle.stage.specs.Stage.{ran, outs};
ghost use Rattle.rate.specs.Ceiling.{Usable, plain, unit};
ghost use Rattle.rate.specs.Stores.{ceiling_samples};
ghost use Rattle.ranges.specs.Ranges.{last_position};
ghost use Rattle.master.specs.Ceiling.{larger_of, need_of, gain_of, multiplied, clamped, delivered};
ghost use Rattle.master.specs.Kept.{ceiling_on, places_of, pop_len, drops, head_after, len_after, needs_after, numbers_after, step_place, late_place, late_at, gave, ceiling_step_on, frames_in, frames_out, counts_out, filled, ceiling_fresh, ceiling_at_rest_on};
ghost use Rattle.master.specs.WellFormed.{needs_in, steps_in, sum_at, well_formed, Sized};

use rate::CeilingRate;
use stream::Frame;

// What a frame in gives out: the frame that the look-ahead kept, limited, and the gain count.
#[derive(Clone, Copy)]
pub struct Heard {
    pub left: f32,
    pub right: f32,
    pub count: u64,
}

// The released gain, the gain count, and the queue of needs: where its oldest lies, and how many it has.
#[derive(Clone, Copy)]
pub struct Ceiling {
    pub released: f64,
    pub count: u64,
    pub head: usize,
    pub len: usize,
}

#[derive(Clone, Copy)]
pub struct Turn {
    pub ceiling: Ceiling,
    pub heard: Heard,
}

// ---- a frame's need

// A size, with -0 left as it is: std's `abs` clears its sign, by one test more.
#[tactic(auto, unfolding(casts::specs::Arithmetic::size_of))]
fn size(x: f64) -> f64
    ensures { result ≡ size_of x }
{
    if x < 0.0 { -x } else { x }
}

// The larger of two sizes, a NaN one ignored. Of 0 and -0 it is a: std's `max` leaves that open.
#[tactic(auto, unfolding(crate::specs::Ceiling::larger_of))]
fn larger(a: f64, b: f64) -> f64
    ensures { result ≡ larger_of a b }
{
    if a < b || a.is_nan() { b } else { a }
}

// The gain that a frame needs to keep under the limit.
#[tactic(auto, unfolding(crate::specs::Ceiling::need_of, crate::specs::Ceiling::need_for, crate::specs::Ceiling::peak_of))]
fn need(rate: CeilingRate, f: Frame) -> f64
    ensures { result ≡ need_of rate f }
{
    let peak = larger(size(f.left), size(f.right));
    let limit = casts::widen(rate.limit);
    if limit < peak { limit / peak } else { 1.0 }
}

// ---- the queue of needs

// i reduced into a ring, without a division.
fn wrapped(i: usize, places: usize) -> usize
    requires { i < places + places }
    ensures { (result ≡ i % places) × (result < places) }
{
    if i < places { i } else { i - places }
}

// How many of the queue's needs stay before a new one: those at its back that the new one undercuts or equals go.
#[tactic(auto, using(crate::proofs::Laws::down_one, crate::proofs::Laws::down_stop, crate::proofs::Laws::down_none))]
fn pops(ring: &[f64], head: usize, len: usize, need: f64) -> usize
    requires short { length ring.now ≤ 65535 }
    requires head_lt_places { (head < length ring.now) × (len ≤ length ring.now) }
    ensures value { result ≡ pop_len le (length ring.now) head (λ i. get_or ring.now i nan) need len }
    ensures upper_bound { result ≤ len }
{
    for k in (0..len).rev() {
        let i = wrapped(head + k, ring.len());
        if !(need <= ring[i]) {
            return k + 1;
        }
    }
    0
}

// Whether the head goes, with len needs queued: the frames from its own to this one are more than the window, or the ring is over-full.
fn head_goes(window: usize, n: u64, number: u64, len: usize) -> bool
    requires { (window < 65535) × (n < last_position) }
    ensures { result ≡ drops window (window + 1) n number len }
{
    window + 1 < len || number <= n && (window as u64) < n - number + 1
}

// The need of the frame n comes to the queue.
fn enqueue(
    rate: CeilingRate,
    c: Ceiling,
    samples: &mut [f64],
    counts: &mut [u64],
    n: u64,
    need: f64,
) -> Ceiling
    requires usable { Usable rate }
    requires sized { Sized rate samples.old counts.old }
    requires queue_and_position_bounds { (c.head < places_of rate) × (c.len ≤ places_of rate) × (n < last_position) }
    ensures queue { result ≡ record c { head = head_after rate n (ceiling_on c samples.old counts.old) need; len = len_after rate n (ceiling_on c samples.old counts.old) need } }
    ensures samples { samples.new ≡ needs_after rate (ceiling_on c samples.old counts.old) need }
    ensures counts { counts.new ≡ numbers_after rate n (ceiling_on c samples.old counts.old) need }
{
    let places = rate.window + 1;
    let staying = pops(&samples[..places], c.head, c.len, need);
    let i = wrapped(c.head + staying, places);
    samples[i] = need;
    counts[i] = n;
    if head_goes(rate.window, n, counts[c.head], staying + 1) {
        return Ceiling {
            head: wrapped(c.head + 1, places),
            len: staying,
            ..c
        };
    }
    Ceiling {
        len: staying + 1,
        ..c
    }
}

// ---- the gain

// The need at the queue's head, or the gain before risen by a frame, whichever is less.
fn release(samples: &[f64], head: usize, before: f64, rise: f64) -> f64
    requires { head < length samples.now }
    ensures { result ≡ min_f (slice_index_or samples.now head nan) (before ⊗ rise) }
{
    casts::lesser(samples[head], before * rise)
}

// CeilingRate::UNIT as an f64, which a constant cannot be cast to.
const UNIT: f64 = 1099511627776.0;

// A gain in whole steps.
fn steps(x: f64) -> u64
    ensures { result ≡ step_of x }
{
    casts::whole_part(x * UNIT)
}

// The step of the frame n takes the oldest one's place, and the count that follows is returned.
fn renew(rate: CeilingRate, n: u64, count: u64, counts: &mut [u64], s: u64) -> u64
    requires step_place_in_bounds { (step_place rate n < length counts.old) × (rate.ahead < 65535) }
    requires oldest_le_count { slice_index counts.old (step_place rate n) ≤ count }
    requires count_bound { (count ≤ 65535 * 1099511627776) × (s ≤ 1099511627776) }
    ensures value { result ≡ count - slice_index counts.old (step_place rate n) + s }
    ensures counts_after { counts.new ≡ slice_set counts.old (step_place rate n) s }
{
    let i = rate.window + 1 + (n as usize) % (rate.ahead + 1);
    let oldest = counts[i];
    counts[i] = s;
    count - oldest + s
}

// The gain that a count of steps comes to.
#[tactic(auto, unfolding(crate::specs::Ceiling::gain_of))]
fn gain(rate: CeilingRate, count: u64) -> f64
    requires { rate.ahead < 65535 }
    ensures { result ≡ gain_of rate count }
{
    let steps = rate.ahead as u64 + 1;
    std::num::nearest_u64_to_f64(count) / std::num::nearest_u64_to_f64(steps * CeilingRate::UNIT)
}

// ---- the late frames

// The frame n takes the oldest late one's place, which is returned.
fn delay(rate: CeilingRate, n: u64, samples: &mut [f64], f: Frame) -> Frame
    requires { (late_place rate n + 1 < length samples.old) × (0 < rate.ahead) }
    ensures value { result ≡ late_at (places_of rate) samples.old (n % rate.ahead) }
    ensures samples_after { samples.new ≡ slice_set (slice_set samples.old (late_place rate n) f.left) (late_place rate n + 1) f.right }
{
    let i = rate.window + 1 + 2 * ((n as usize) % rate.ahead);
    let left = samples[i];
    let right = samples[i + 1];
    samples[i] = f.left;
    samples[i + 1] = f.right;
    Frame { left, right }
}

// x narrowed, and clamped to the limit.
#[tactic(auto, using(crate::proofs::Laws::minus_below), unfolding(crate::specs::Ceiling::clamped))]
fn clamp(limit: f32, x: f64) -> f32
    requires { T (plain limit) }
    ensures { result ≡ clamped limit (narrowed x) }
{
    casts::narrow(x).clamp(-limit, limit)
}

// A late frame, played at the gain that a count comes to.
#[tactic(auto, unfolding(crate::specs::Ceiling::delivered, crate::specs::Ceiling::multiplied))]
fn play(rate: CeilingRate, count: u64, late: Frame) -> Heard
    requires { Usable rate }
    ensures { result ≡ delivered rate (multiplied rate count late) }
{
    let gain = gain(rate, count);
    Heard {
        left: clamp(rate.limit, late.left * gain),
        right: clamp(rate.limit, late.right * gain),
        count,
    }
}

// ---- one frame, and a block of them

// The frame n in, and the frame that the look-ahead kept out, with the gain count that it is played at.
pub fn step(
    rate: CeilingRate,
    c: Ceiling,
    samples: &mut [f64],
    counts: &mut [u64],
    n: u64,
    f: Frame,
) -> Turn
    requires usable { Usable rate }
    requires sized { Sized rate samples.old counts.old }
    requires is_well_formed { T (well_formed rate (ceiling_on c samples.old counts.old)) }
    requires n_lt_last_position { n < last_position }
    ensures { gave result.ceiling samples.new counts.new result.heard ≡ ceiling_step_on rate n (ceiling_on c samples.old counts.old) f }
{
    let wanted = need(rate, f);
    let queued = enqueue(rate, c, samples, counts, n, wanted);
    let released = release(samples, queued.head, c.released, rate.rise);
    let count = renew(rate, n, c.count, counts, steps(released));
    let late = delay(rate, n, samples, f);
    Turn {
        ceiling: Ceiling {
            released,
            count,
            ..queued
        },
        heard: play(rate, count, late),
    }
}

// The frames of two slices in, from the frame n on, and for each a frame and a gain count out.
pub fn block(
    rate: CeilingRate,
    c: Ceiling,
    samples: &mut [f64],
    counts: &mut [u64],
    n: u64,
    left: &[f64],
    right: &[f64],
    frames: &mut [f32],
    gains: &mut [u64],
) -> Ceiling
    requires usable { Usable rate }
    requires sized { Sized rate samples.old counts.old }
    requires is_well_formed { T (well_formed rate (ceiling_on c samples.old counts.old)) }
    requires left_bound { (n + length left.now ≤ last_position) × (length right.now ≡ length left.now) }
    requires frames_len { (length frames.old ≡ 2 * length left.now) × (length gains.old ≡ length left.now) }
    ensures ceiling_after { ceiling_on result samples.new counts.new ≡ ran (ceiling_step_on rate) n (ceiling_on c samples.old counts.old) (frames_in left.now right.now) }
    ensures frames_after { frames.new ≡ frames_out (outs (ceiling_step_on rate) n (ceiling_on c samples.old counts.old) (frames_in left.now right.now)) }
    ensures gains_after { gains.new ≡ counts_out (outs (ceiling_step_on rate) n (ceiling_on c samples.old counts.old) (frames_in left.now right.now)) }
{
    let mut c = c;
    for i in 0..left.len() {
        let f = Frame {
            left: left[i],
            right: right[i],
        };
        let t = step(rate, c, samples, counts, n + i as u64, f);
        c = t.ceiling;
        frames[2 * i] = t.heard.left;
        frames[2 * i + 1] = t.heard.right;
        gains[i] = t.heard.count;
    }
    c
}

// ---- a fresh ceiling

// A fresh ceiling, whatever its parts of the stores held.
pub fn fresh(rate: CeilingRate, samples: &mut [f64], counts: &mut [u64]) -> Ceiling
    requires usable { Usable rate }
    requires sized { Sized rate samples.old counts.old }
    ensures { ceiling_on result samples.new counts.new ≡ ceiling_fresh rate samples.old counts.old }
{
    let places = rate.window + 1;
    let steps = rate.ahead + 1;
    samples[..places + 2 * rate.ahead].fill(0.0);
    counts[..places].fill(0);
    counts[places..places + steps].fill(CeilingRate::UNIT);
    Ceiling {
        released: 1.0,
        count: steps as u64 * CeilingRate::UNIT,
        head: 0,
        len: 0,
    }
}

// ---- rest

// Whether every late frame is zero on both sides.
#[tactic(auto, unfolding(crate::specs::Kept::ceiling_at_rest_on))]
pub fn at_rest(rate: CeilingRate, samples: &[f64]) -> bool
    requires usable { Usable rate }
    requires samples_long_enough { ceiling_samples rate ≤ length samples.now }
    ensures { result ≡ ceiling_at_rest_on rate samples.now }
{
    let start = rate.window + 1;
    let end = start + 2 * rate.ahead;
    delay::at_rest(&samples[start..end])
}

// ---- refusal 4

// Whether each of the len needs queued from head on is from 0 to 1: those up to the ring's end, and those that lie from its beginning on.
#[tactic(auto, using(crate::proofs::Checking::needs_low, crate::proofs::Checking::needs_around))]
fn needs_in(ring: &[f64], head: usize, len: usize) -> bool
    requires short { length ring.now ≤ 65535 }
    requires head_lt_places { (head < length ring.now) × (len ≤ length ring.now) }
    ensures { result ≡ needs_in ring.now (length ring.now) head len }
{
    let end = head + len;
    if end <= ring.len() {
        return ranges::all_in_range(0.0, 1.0, &ring[head..end]);
    }
    let around = end - ring.len();
    ranges::all_in_range(0.0, 1.0, &ring[head..]) && ranges::all_in_range(0.0, 1.0, &ring[..around])
}

// 0 where a step is at most 2^40. A sum of these takes less than a test of each, since SSE2 cannot compare two u64 at once.
fn above(step: u64) -> u64
    ensures value { result ≡ (step - step / unit) / unit }
    ensures bound { result < 16777216 }
{
    (step - step / CeilingRate::UNIT) / CeilingRate::UNIT
}

// Whether each step is at most 2^40.
fn steps_in(steps: &[u64]) -> bool
    requires { length steps.now ≤ 65535 }
    ensures { result ≡ list_all (λ s. nat_le s unit) steps.now }
{
    steps.iter().map(|s| above(*s)).sum::<u64>() == 0
}

// Whether each step is at most 2^40, and the count is their sum.
fn counted(steps: &[u64], count: u64) -> bool
    requires { length steps.now ≤ 65535 }
    ensures { result ≡ (list_all (λ s. nat_le s unit) steps.now && count == sum steps.now) }
{
    steps_in(steps) && count == steps.iter().sum()
}

// Refusal 4, as far as it concerns the ceiling: false where it declines.
#[tactic(auto, using(crate::proofs::Checking::needs_part, crate::proofs::Checking::counted_part), unfolding(crate::specs::WellFormed::well_formed))]
pub fn well_formed(rate: CeilingRate, c: Ceiling, samples: &[f64], counts: &[u64]) -> bool
    requires usable { Usable rate }
    requires sized { Sized rate samples.now counts.now }
    ensures { result ≡ well_formed rate (ceiling_on c samples.now counts.now) }
{
    let places = rate.window + 1;
    let end = places + rate.ahead + 1;
    c.head < places
        && c.len <= places
        && ranges::in_range(0.0, 1.0, c.released)
        && needs_in(&samples[..places], c.head, c.len)
        && counted(&counts[places..end], c.count)
}
