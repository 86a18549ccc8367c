// What the lane plays under: daylight, the sweep and the tone, and how long a tuning lasts.
// Uses casts, ranges, elementary and ramp.
#![tactic(auto)]

ghost use Rattle.std.specs.Prelude.{◌≡◌, ◌<◌, ◌≤◌, length};
ghost use Rattle.automation.specs.Automation.{block_of, daylight_of, reached, segment, sweep_at, swept, corner_between, drive_between, tone_at};
ghost use Rattle.automation.specs.Kept.{tie_end, lowest_to};
ghost use Rattle.automation.specs.Pieces.{Reached, ramp_span, sweep_span, piece_at};

use ramp::Ramp;

// The samples of a block, counted from position 0.
const COEFF_BLOCK: u64 = 32;

// The corner that a sweep closes to.
const FILTERED_HZ: f32 = 800.0;

// A lane's own tone: set once, or graded with the daylight between a night's and a day's.
#[derive(Clone, Copy)]
pub enum Tone {
    Fixed {
        corner: f32,
        drive: f64,
    },
    Graded {
        night_corner: f32,
        day_corner: f32,
        night_drive: f32,
        day_drive: f32,
    },
}

// What the lane is tuned to: its low-pass corner and its drive.
#[derive(Clone, Copy)]
pub struct Tuning {
    pub corner: f32,
    pub drive: f64,
}

// A tuning, and for how many samples it holds.
#[derive(Clone, Copy)]
pub struct Piece {
    pub tuning: Tuning,
    pub len: u64,
}

#[tactic(auto, unfolding(crate::specs::Automation::block_of))]
fn block_of(n: u64) -> u64
    ensures { result ≡ block_of n }
{
    n - n % COEFF_BLOCK
}

// ---- daylight

// The daylight that the sample at n plays at.
#[tactic(auto, unfolding(crate::specs::Automation::daylight_of))]
pub fn daylight_at(r: Ramp, n: u64) -> f64
    ensures { result ≡ daylight_of r n }
{
    if r.ended(n) {
        r.to
    } else {
        r.at(block_of(n).max(r.start))
    }
}

// ---- the sweep

// Between the point at a and the next, at b.
#[tactic(auto, unfolding(crate::specs::Automation::segment))]
fn segment(a: u64, xa: f64, b: u64, xb: f64, n: u64) -> f64
    requires { (a ≤ n) × (n < b) }
    ensures { result ≡ segment a xa b xb n }
{
    let m = block_of(n).max(a);
    xa + (xb - xa) * std::num::nearest_u64_to_f64(m - a) / std::num::nearest_u64_to_f64(b - a)
}

// A sweep's points as they are kept: positions, and a value at least for each.
#[derive(Clone, Copy)]
pub struct Sweep<'a> {
    pub positions: &'a [u64],
    pub values: &'a [f64],
    ghost paired: { length positions.now ≤ length values.now },
}

impl Sweep<'_> {
    // How many points from the front lie at or before n.
    fn reached(self, n: u64) -> usize
        ensures { result ≡ reached self.entry.positions.now n }
    {
        self.positions
            .iter()
            .position(|p| n < *p)
            .unwrap_or(self.positions.len())
    }

    // Where the tie that begins at i ends.
    #[tactic(auto, unfolding(crate::specs::Kept::tie_end), using(crate::proofs::Points::one_tied, crate::proofs::Points::no_tied, crate::proofs::Points::none_tied))]
    fn tie_end(self, i: usize) -> usize
        requires { i < length self.positions.now }
        ensures { result ≡ tie_end self.entry.positions.now i }
    {
        for e in i + 1..self.positions.len() {
            if self.positions[e] != self.positions[i] {
                return e;
            }
        }
        self.positions.len()
    }

    // The lowest value of the tie that ends with the first e points.
    #[tactic(auto, using(crate::proofs::Relates::tie_last, crate::proofs::Relates::tie_back, crate::proofs::Relates::tie_first))]
    fn lowest_to(self, e: usize) -> f64
        requires { (0 < e) × (e ≤ length self.positions.now) }
        ensures { result ≡ lowest_to self.entry.positions.now self.entry.values.now e }
    {
        let mut lowest = self.values[e - 1];
        for i in (0..e - 1).rev() {
            if self.positions[i] != self.positions[i + 1] {
                break;
            }
            lowest = casts::lesser(self.values[i], lowest);
        }
        lowest
    }
}

// A sweep as the sample at n finds it, with so many points reached.
#[derive(Clone, Copy)]
struct SweepAt<'a> {
    sweep: Sweep<'a>,
    n: u64,
    reached: usize,
    ghost counted: { Reached sweep.positions.now n reached },
}

impl SweepAt<'_> {
    // How open it is. Points on one position count as one with their lowest value.
    #[tactic(auto, using(crate::proofs::Points::reached_before, crate::proofs::Points::reached_next, crate::proofs::Points::tie_within, crate::proofs::Relates::sweep_before, crate::proofs::Relates::sweep_after, crate::proofs::Relates::sweep_between))]
    fn value(self) -> f64
        ensures { result ≡ sweep_at self.entry.sweep.positions.now self.entry.sweep.values.now self.entry.n }
    {
        let sweep = self.sweep;
        let i = self.reached;
        if i == 0 {
            1.0
        } else if i == sweep.positions.len() {
            sweep.lowest_to(i)
        } else {
            let xa = sweep.lowest_to(i);
            let xb = sweep.lowest_to(sweep.tie_end(i));
            segment(sweep.positions[i - 1], xa, sweep.positions[i], xb, self.n)
        }
    }

    // For how many samples from n on it stays: it moves only between two points.
    #[tactic(auto, unfolding(crate::specs::Pieces::sweep_span), using(crate::proofs::Points::reached_next))]
    fn span(self) -> u64
        ensures { result ≡ sweep_span self.entry.sweep.positions.now self.entry.n }
    {
        let positions = self.sweep.positions;
        if self.reached == positions.len() {
            return ranges::LAST_POSITION;
        }
        let gap = positions[self.reached] - self.n;
        if self.reached == 0 {
            gap
        } else {
            gap.min(COEFF_BLOCK - self.n % COEFF_BLOCK)
        }
    }
}

// A corner, opened x of the way from FILTERED_HZ to it. Its ends need no pow.
#[tactic(auto, unfolding(crate::specs::Automation::swept))]
pub fn swept(own: f32, x: f64) -> f32
    ensures { result ≡ swept own x }
{
    if x >= 1.0 || own <= FILTERED_HZ {
        own
    } else if x <= 0.0 {
        FILTERED_HZ
    } else {
        let opened = elementary::pow(casts::widen(own), x);
        let closed = elementary::pow(casts::widen(FILTERED_HZ), 1.0 - x);
        casts::narrow(opened * closed)
    }
}

// ---- the tone

#[tactic(auto, unfolding(crate::specs::Automation::corner_between))]
fn corner_between(night: f32, day: f32, t: f64) -> f32
    ensures { result ≡ corner_between night day t }
{
    if t <= 0.0 {
        night
    } else if t >= 1.0 {
        day
    } else {
        let from = casts::widen(night);
        let to = casts::widen(day);
        casts::narrow(from * elementary::pow(to / from, t))
    }
}

#[tactic(auto, unfolding(crate::specs::Automation::drive_between))]
fn drive_between(night: f32, day: f32, t: f64) -> f64
    ensures { result ≡ drive_between night day t }
{
    let from = casts::widen(night);
    let to = casts::widen(day);
    if t <= 0.0 {
        from
    } else if t >= 1.0 {
        to
    } else {
        from * (1.0 - t) + to * t
    }
}

// The tone's own corner and drive at a daylight.
#[tactic(auto, unfolding(crate::specs::Automation::tone_at))]
pub fn tone_at(tone: Tone, t: f64) -> Tuning
    ensures { result ≡ tone_at tone t }
{
    match tone {
        Tone::Fixed { corner, drive } => Tuning { corner, drive },
        Tone::Graded {
            night_corner,
            day_corner,
            night_drive,
            day_drive,
        } => {
            let corner = corner_between(night_corner, day_corner, t);
            let drive = drive_between(night_drive, day_drive, t);
            Tuning { corner, drive }
        }
    }
}

// ---- a piece

// How many samples from n on the ramp lets the daylight be: all once it has ended, else to its end or the block's. No sum of it can wrap.
#[tactic(auto, unfolding(crate::specs::Pieces::ramp_span))]
fn ramp_span(r: Ramp, n: u64) -> u64
    ensures { result ≡ ramp_span r n }
{
    if r.ended(n) {
        return ranges::LAST_POSITION;
    }
    let block = COEFF_BLOCK - n % COEFF_BLOCK;
    if r.start <= n {
        (r.len - (n - r.start)).min(block)
    } else {
        let gap = r.start - n;
        if block <= gap {
            block
        } else {
            gap + r.len.min(block - gap)
        }
    }
}

// The tuning of the sample at n, and how many samples from it on have the same.
#[tactic(auto, unfolding(crate::specs::Pieces::piece_at, crate::specs::Pieces::span, crate::specs::Automation::tuning_at), using(crate::proofs::Points::reached_most))]
pub fn piece_at(tone: Tone, daylight: Ramp, sweep: Sweep, n: u64) -> Piece
    ensures { result ≡ piece_at tone daylight sweep.entry.positions.now sweep.entry.values.now n }
{
    let at = SweepAt {
        sweep,
        n,
        reached: sweep.reached(n),
    };
    let own = tone_at(tone, daylight_at(daylight, n));
    Piece {
        tuning: Tuning {
            corner: swept(own.corner, at.value()),
            drive: own.drive,
        },
        len: ramp_span(daylight, n).min(at.span()),
    }
}
