// A delay line (delay.rs): its ring is a part of its stage's part of the sample store. `push`, `at` and `tap` work on
// the ring alone; a DelayLine lends them its own places. It may use casts.
#![tactic(auto)]

ghost use Rattle.std.specs.Prelude.{◌≡◌, ◌+◌, ◌%◌, ◌<◌, ◌≤◌, ◌^◌, length};
ghost use Rattle.casts.specs.Arithmetic.{nought};
ghost use Rattle.delay.specs.Delay.{pushed, tapped, not_below, not_above, tap_of, Reach, all_zero, line_push, line_at, line_tap};

use std::ops::Range;

// Where its ring starts in its stage's part, and how many places it has.
#[derive(Clone, Copy)]
pub struct DelayLine {
    pub at: usize,
    pub ring: usize,
}

// n reduced into a ring. Every line's has 2^k places, and then a mask does for a division. std's `is_power_of_two` counts ones, which takes
// half as long again.
fn place(n: u64, ring: usize) -> usize
    requires { 0 < ring }
    ensures { (result ≡ n % ring) × (result < ring) }
{
    let mask = ring - 1;
    if ring & mask == 0 {
        n as usize & mask
    } else {
        n as usize % ring
    }
}

// Writes x as the newest sample, the count of those before it being written.
pub fn push(ring: &mut [f64], written: u64, x: f64)
    requires { 0 < length ring.old }
    ensures { ring.new ≡ pushed ring.old written x }
{
    ring[place(written, ring.len())] = x;
}

// The sample delay before the newest.
pub fn at(ring: &[f64], written: u64, delay: u64) -> f64
    requires { (0 < length ring.now) × (delay < 4294967296) }
    ensures { result ≡ tapped ring.now written delay }
{
    ring[place(written.wrapping_sub(delay + 1), ring.len())]
}

// A delay held within 0 and the greatest one, NaN at 0. std's `max` and `min` leave the sign of a zero open, and its `clamp` gives NaN back.
fn held(delay: f64, max_delay: f64) -> f64
    ensures { result ≡ not_above (not_below delay nought) max_delay }
{
    let low = if delay > 0.0 { delay } else { 0.0 };
    if low < max_delay { low } else { max_delay }
}

// The sample a fractional delay before the newest. A delay out of range reads at the nearer end, and NaN at 0.
pub fn tap(ring: &[f64], written: u64, max_delay: f64, delay: f64) -> f64
    requires { (0 < length ring.now) × Reach max_delay }
    ensures { result ≡ tap_of (tapped ring.now written) max_delay delay }
{
    let d = held(delay, max_delay);
    let whole = casts::whole_part(d);
    let frac = d - std::num::nearest_u64_to_f64(whole);
    (1.0 - frac) * at(ring, written, whole) + frac * at(ring, written, whole + 1)
}

// Whether it holds only zeros.
pub fn at_rest(ring: &[f64]) -> bool
    ensures { result ≡ all_zero ring.now }
{
    ring.iter().all(|x| *x == 0.0)
}

impl DelayLine {
    // Its places in its stage's part.
    fn places(self) -> Range<usize>
        requires { self.at + self.ring < 2 ^ 64 }
        ensures { result ≡ record { start = self.at; end = self.at + self.ring } }
    {
        self.at..self.at + self.ring
    }

    pub fn push(self, part: &mut [f64], written: u64, x: f64)
        requires { (0 < self.ring) × (self.at + self.ring ≤ length part.old) }
        ensures { part.new ≡ line_push self part.old written x }
    {
        push(&mut part[self.places()], written, x);
    }

    pub fn at(self, part: &[f64], written: u64, delay: u64) -> f64
        requires line_in_part { (0 < self.ring) × (self.at + self.ring ≤ length part.now) }
        requires delay_bound { delay < 4294967296 }
        ensures { result ≡ line_at self part.now written delay }
    {
        at(&part[self.places()], written, delay)
    }

    pub fn tap(self, part: &[f64], written: u64, max_delay: f64, delay: f64) -> f64
        requires line_in_part { (0 < self.ring) × (self.at + self.ring ≤ length part.now) }
        requires reach { Reach max_delay }
        ensures { result ≡ line_tap self part.now written max_delay delay }
    {
        tap(&part[self.places()], written, max_delay, delay)
    }
}
