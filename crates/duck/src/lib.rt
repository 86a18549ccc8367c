// The duck: a lane's dip under the kicks that the drums sounded (lanes.rs `Duck`). Its part of the count store keeps 1,024
// positions and then 1,024 marks. Uses casts, ranges, stage and sidechain, and no rate by its number.
#![tactic(auto)]

ghost use Rattle.std.specs.Prelude.{◌≡◌, ◌+◌, ◌-◌, ◌<◌, ◌≤◌, leb, length, drop, map, true, ◌&&◌};
ghost use Rattle.casts.specs.Arithmetic.{one};
ghost use Rattle.stage.specs.Stage.{ran, outs};
ghost use Rattle.sidechain.specs.Sidechain.{span, releases};
ghost use Rattle.ranges.specs.Ranges.{last_position, most_kicks};
ghost use Rattle.duck.specs.Cursors.{duck_on, laid, is_mark, kicks_in, marks_in, reach, reached_at, released, times_gain, times_until, gave, gain_on, duck_step_on, Within, duck_formed, duck_counts};

use sidechain::{DuckRate, Gains};

// The kicks in use, the first that the lane has not reached, and the first whose duck still releases.
#[derive(Clone, Copy, PartialEq, Eq)]
pub struct Duck {
    pub count: usize,
    pub reached: usize,
    pub ducking: usize,
}

#[derive(Clone, Copy)]
pub struct Ducked {
    pub duck: Duck,
    pub gain: f64,
}

#[derive(Clone, Copy)]
struct DuckedTwo {
    duck: Duck,
    gains: Gains,
}

// The products of two samples so far, and the next kick.
#[derive(Clone, Copy)]
struct PastAttacks {
    gains: Gains,
    next: usize,
}

// A duck's part of the count store: the kicks, and their marks after them. A mark is a word, 1 or 0, as all that stands there.
pub const COUNTS: usize = 2 * ranges::MOST_KICKS;

// ---- the kicks

impl Duck {
    // Keeps the kicks in the duck's part, with no kick marked: a product may look at a mark before its kick is reached.
    pub fn new(kicks: &[u64], counts: &mut [u64]) -> Self
        requires { (length kicks.now ≤ most_kicks) × (duck_counts ≤ length counts.old) }
        ensures { duck_on result counts.new ≡ laid kicks.now counts.old }
    {
        // By a loop: std's copy would call memmove, which the header does not name.
        for (i, &kick) in kicks.iter().enumerate() {
            counts[i] = kick;
            counts[ranges::MOST_KICKS + i] = 0;
        }
        Self {
            count: kicks.len(),
            reached: 0,
            ducking: 0,
        }
    }
}

// What refusal 4 asks of a duck.
pub fn formed(duck: Duck, counts: &[u64]) -> bool
    requires { duck_counts ≤ length counts.now }
    ensures { result ≡ duck_formed (duck_on duck counts.now) }
{
    duck.count <= ranges::MOST_KICKS
        && duck.reached <= duck.count
        && duck.ducking <= duck.count
        && ranges::rising(&counts[..duck.count])
}

// ---- one kick

// Whether a kick's duck has released at n: kick + attack + release <= n, with no sum that could wrap.
fn has_released(rate: DuckRate, kick: u64, n: u64) -> bool
    ensures { result ≡ leb (kick + span rate) n }
{
    kick <= n && rate.attack <= n - kick && rate.release <= n - kick - rate.attack
}

// Whether a kick's attack is over at n.
fn has_attacked(rate: DuckRate, kick: u64, n: u64) -> bool
    ensures { result ≡ (leb kick n && leb rate.attack (n - kick)) }
{
    kick <= n && rate.attack <= n - kick
}

// Whether a kick is marked and releases at n.
fn sounds(rate: DuckRate, kick: u64, mark: u64, n: u64) -> bool
    ensures { result ≡ (is_mark mark && (leb kick n && releases rate (n - kick))) }
{
    mark != 0 && kick <= n && sidechain::releases(rate, n - kick)
}

// One kick more in the product.
fn times_gain(rate: DuckRate, gain: f64, since: u64, mark: u64) -> f64
    ensures { result ≡ times_gain rate gain since (is_mark mark) }
{
    if mark == 0 {
        gain
    } else {
        gain * sidechain::sidechain_gain(rate, since)
    }
}

// Two kicks more in the product, both marked and releasing: their gains do not wait for each other.
fn times_two(rate: DuckRate, gain: f64, first: u64, second: u64) -> f64
    requires { (releases rate first ≡ true) × (releases rate second ≡ true) }
    ensures { result ≡ times_gain rate (times_gain rate gain first true) second true }
{
    let of = sidechain::releasing_gains(rate, first, second);
    gain * of.at * of.after
}

// One kick more in the products of two samples; its attack is over at both.
fn times_gains(rate: DuckRate, gains: Gains, since: u64, mark: u64) -> Gains
    requires { (rate.attack ≤ since) × (since + 1 < last_position) }
    ensures at_value { result.at ≡ times_gain rate gains.at since (is_mark mark) }
    ensures after_value { result.after ≡ times_gain rate gains.after (since + 1) (is_mark mark) }
{
    if mark == 0 {
        return gains;
    }
    let of = sidechain::sidechain_gains(rate, since);
    Gains {
        at: gains.at * of.at,
        after: gains.after * of.after,
    }
}

// ---- the cursors

// Marks the kicks up to n, from the first that the lane has not reached.
fn mark(duck: Duck, counts: &mut [u64], n: u64, drums: bool) -> usize
    requires { Within (duck_on duck counts.old) }
    ensures { reached_at result counts.new ≡ reach (duck.count - duck.reached) duck.reached n drums counts.old }
{
    for next in duck.reached..duck.count {
        if n < counts[next] {
            return next;
        }
        counts[ranges::MOST_KICKS + next] = u64::from(drums);
    }
    duck.count
}

// The first kick whose duck still releases at n.
fn advance(rate: DuckRate, duck: Duck, counts: &[u64], n: u64) -> usize
    requires { Within (duck_on duck counts.now) }
    ensures { result ≡ duck.ducking + released rate n (drop duck.ducking (kicks_in duck.count counts.now)) }
{
    for first in duck.ducking..duck.count {
        if !has_released(rate, counts[first], n) {
            return first;
        }
    }
    duck.count
}

// ---- the products

// The kicks in use, and beside each its mark.
#[derive(Clone, Copy)]
struct Kicks<'a> {
    positions: &'a [u64],
    marks: &'a [u64],
    ghost one_mark_each: { length positions.now ≡ length marks.now },
}

impl<'a> Kicks<'a> {
    fn of(duck: Duck, counts: &'a [u64]) -> Self
        requires { Within (duck_on duck counts.now) }
        ensures positions { result.positions.now ≡ kicks_in duck.count counts.now }
        ensures marks { map is_mark result.marks.now ≡ marks_in duck.count counts.now }
    {
        Self {
            positions: &counts[..duck.count],
            marks: &counts[ranges::MOST_KICKS..ranges::MOST_KICKS + duck.count],
        }
    }

    // gain, times the gains of those from one on. Not inlined, so that `product` is.
    #[inline(never)]
    fn product_from(self, from: usize, rate: DuckRate, n: u64, gain: f64) -> f64
        requires { from ≤ length self.positions.now }
        ensures { result ≡ times_until rate n gain (drop from self.entry.positions.now) (drop from (map is_mark self.entry.marks.now)) }
    {
        let mut product = gain;
        for c in from..self.positions.len() {
            let kick = self.positions[c];
            if n < kick {
                break;
            }
            product = times_gain(rate, product, n - kick, self.marks[c]);
        }
        product
    }

    // The same. Where the next kick is yet to come, as for most samples, the loop and what it prepares are spared.
    fn product(self, from: usize, rate: DuckRate, n: u64, gain: f64) -> f64
        ensures { result ≡ times_until rate n gain (drop from self.entry.positions.now) (drop from (map is_mark self.entry.marks.now)) }
    {
        if from < self.positions.len() && self.positions[from] <= n {
            self.product_from(from, rate, n, gain)
        } else {
            gain
        }
    }

    // The gains of those from one on, two by two while two sound. By an index: it stops at a pair, and what is left begins there.
    fn product_by_two(self, from: usize, rate: DuckRate, n: u64) -> f64
        requires { from ≤ length self.positions.now }
        ensures { result ≡ times_until rate n one (drop from self.entry.positions.now) (drop from (map is_mark self.entry.marks.now)) }
    {
        let mut gain = 1.0;
        let mut c = from;
        while c + 1 < self.positions.len()
            && sounds(rate, self.positions[c], self.marks[c], n)
            && sounds(rate, self.positions[c + 1], self.marks[c + 1], n)
        {
            gain = times_two(rate, gain, n - self.positions[c], n - self.positions[c + 1]);
            c += 2;
        }
        self.product(c, rate, n, gain)
    }

    // The products at n and at n + 1 over those from one on up to the first whose attack is not over, side by side: a product's
    // multiplications wait for each other, those of two do not. By an index, since it answers where it stopped.
    fn past_attacks(self, from: usize, rate: DuckRate, n: u64) -> PastAttacks
        requires from_within { from ≤ length self.positions.now }
        requires n_bound { n + 1 < last_position }
        ensures times_at { times_until rate n result.gains.at (drop result.next self.entry.positions.now) (drop result.next (map is_mark self.entry.marks.now)) ≡ times_until rate n one (drop from self.entry.positions.now) (drop from (map is_mark self.entry.marks.now)) }
        ensures times_after { times_until rate (n + 1) result.gains.after (drop result.next self.entry.positions.now) (drop result.next (map is_mark self.entry.marks.now)) ≡ times_until rate (n + 1) one (drop from self.entry.positions.now) (drop from (map is_mark self.entry.marks.now)) }
    {
        let mut gains = Gains {
            at: 1.0,
            after: 1.0,
        };
        let mut next = from;
        while next < self.positions.len() && has_attacked(rate, self.positions[next], n) {
            gains = times_gains(rate, gains, n - self.positions[next], self.marks[next]);
            next += 1;
        }
        PastAttacks { gains, next }
    }

    // The products at n and at n + 1 over those from one on. From the first whose attack is not over each goes on by itself, so that the
    // attack's table is read in one place.
    fn products(self, from: usize, rate: DuckRate, n: u64) -> Gains
        requires from_within { from ≤ length self.positions.now }
        requires n_bound { n + 1 < last_position }
        ensures at_value { result.at ≡ times_until rate n one (drop from self.entry.positions.now) (drop from (map is_mark self.entry.marks.now)) }
        ensures after_value { result.after ≡ times_until rate (n + 1) one (drop from self.entry.positions.now) (drop from (map is_mark self.entry.marks.now)) }
    {
        let past = self.past_attacks(from, rate, n);
        Gains {
            at: self.product(past.next, rate, n, past.gains.at),
            after: self.product(past.next, rate, n + 1, past.gains.after),
        }
    }
}

// ---- a sample, two samples, and a block of them in place

// The duck at n but for its gain.
fn moved(rate: DuckRate, duck: Duck, counts: &mut [u64], n: u64, drums: bool) -> Duck
    requires { Within (duck_on duck counts.old) }
    ensures duck_after { duck_on result counts.new ≡ (gain_on rate drums n (duck_on duck counts.old)).next }
    ensures within { Within (duck_on result counts.new) }
{
    let reached = mark(duck, counts, n, drums);
    let ducking = advance(rate, duck, counts, n);
    Duck {
        count: duck.count,
        reached,
        ducking,
    }
}

pub fn duck_step(rate: DuckRate, duck: Duck, counts: &mut [u64], n: u64, drums: bool) -> Ducked
    requires { Within (duck_on duck counts.old) }
    ensures { gave result.duck counts.new result.gain ≡ gain_on rate drums n (duck_on duck counts.old) }
{
    let duck = moved(rate, duck, counts, n, drums);
    let gain = Kicks::of(duck, counts).product_by_two(duck.ducking, rate, n);
    Ducked { duck, gain }
}

// The samples n and n + 1. The second's gain is found anew if a cursor moves between them.
fn duck_two(rate: DuckRate, duck: Duck, counts: &mut [u64], n: u64, drums: bool) -> DuckedTwo
    requires within { Within (duck_on duck counts.old) }
    requires n_bound { n + 1 < last_position }
    ensures at_value { result.gains.at ≡ (gain_on rate drums n (duck_on duck counts.old)).out }
    ensures second_step { gave result.duck counts.new result.gains.after ≡ gain_on rate drums (n + 1) (gain_on rate drums n (duck_on duck counts.old)).next }
{
    let first = moved(rate, duck, counts, n, drums);
    let gains = Kicks::of(first, counts).products(first.ducking, rate, n);
    let duck = moved(rate, first, counts, n + 1, drums);
    if duck == first {
        return DuckedTwo { duck, gains };
    }
    let after = Kicks::of(duck, counts).product(duck.ducking, rate, n + 1, 1.0);
    DuckedTwo {
        duck,
        gains: Gains {
            at: gains.at,
            after,
        },
    }
}

pub fn duck_block(
    rate: DuckRate,
    mut duck: Duck,
    counts: &mut [u64],
    block: &mut [f64],
    n: u64,
    drums: bool,
) -> Duck
    requires within { Within (duck_on duck counts.old) }
    requires block_bound { n + length block.old ≤ last_position }
    ensures duck_after { duck_on result counts.new ≡ ran (duck_step_on rate drums) n (duck_on duck counts.old) block.old }
    ensures block_after { block.new ≡ outs (duck_step_on rate drums) n (duck_on duck counts.old) block.old }
{
    let mut i = 0;
    // By an index: after chunks_mut a proof knows no sample, and the last one of an odd number stands alone.
    while i + 1 < block.len() {
        let g = duck_two(rate, duck, counts, n + i as u64, drums);
        block[i] *= g.gains.at;
        block[i + 1] *= g.gains.after;
        duck = g.duck;
        i += 2;
    }
    if i < block.len() {
        let g = duck_step(rate, duck, counts, n + i as u64, drums);
        block[i] *= g.gain;
        duck = g.duck;
    }
    duck
}
