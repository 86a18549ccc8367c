// The plate's lines (plate.rs, Allpass): a lattice at its own length and stretched, and a plain delay, each on its ring in
// a part of the sample store. It may use casts, stage, stream, delay and rate.
#![tactic(auto)]

ghost use Rattle.std.specs.Prelude.{◌≡◌, ◌<◌};
ghost use Rattle.delay.specs.Delay.{Reach};
ghost use Rattle.ranges.specs.Ranges.{last_position};
ghost use Rattle.allpass.specs.Allpass.{gave, stored_of, lattice_from_on, lattice_on, stretched_at, delay_on, Lent};

// A line's rate and its part come as two parameters: a part is lent to several lines in turn, so a struct of both would be made anew at each call.
use rate::LineRate;

// What a line inside a loop takes: the Rust's flush(v) + kick, kick being 0. The sum changes no value, since flush gives no -0.
#[tactic(auto, unfolding(crate::specs::Allpass::stored_of))]
pub fn stored(v: f64) -> f64
    ensures { result ≡ stored_of v }
{
    stream::flush(v) + 0.0
}

// A lattice of coefficient g whose line gives d.
#[tactic(auto, unfolding(crate::specs::Allpass::lattice_from_on))]
pub fn lattice_from(rate: LineRate, part: &mut [f64], g: f64, d: f64, x: f64, n: u64) -> f64
    requires { Lent rate part.old }
    ensures { gave part.new result ≡ lattice_from_on rate g d n part.old x }
{
    let w = stored(x + g * d);
    rate.line.push(part, n, w);
    d - g * w
}

// A lattice at its own length.
#[tactic(auto, unfolding(crate::specs::Allpass::lattice_on))]
pub fn lattice(rate: LineRate, part: &mut [f64], g: f64, x: f64, n: u64) -> f64
    requires { Lent rate part.old }
    ensures { gave part.new result ≡ lattice_on rate g n part.old x }
{
    let d = rate.line.at(part, n, rate.delay - 1);
    lattice_from(rate, part, g, d, x, n)
}

// What a lattice's line gives stretch frames beyond its length, between frames.
#[tactic(auto, unfolding(crate::specs::Allpass::stretched_at))]
pub fn stretched(rate: LineRate, part: &[f64], reach: f64, stretch: f64, n: u64) -> f64
    requires lent { Lent rate part.now }
    requires reach { Reach reach }
    ensures { result ≡ stretched_at rate reach stretch n part.now }
{
    let back = std::num::nearest_u64_to_f64(rate.delay) + stretch - 1.0;
    rate.line.tap(part, n, reach, back)
}

// A plain delay: pushed, then read at its length.
#[tactic(auto, unfolding(crate::specs::Allpass::delay_on))]
pub fn delayed(rate: LineRate, part: &mut [f64], x: f64, n: u64) -> f64
    requires lent { Lent rate part.old }
    requires n_lt_last_position { n < last_position }
    ensures { gave part.new result ≡ delay_on rate n part.old x }
{
    rate.line.push(part, n, x);
    rate.line.at(part, n + 1, rate.delay)
}
