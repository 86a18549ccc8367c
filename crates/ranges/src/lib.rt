// Document 01's ranges: of a number, of each number of a list, and of a list of positions. Both tests of a list go on to its end, since a loop that
// may end early is not vectorized; refusal 4 looks at every kept list in each call. Uses nothing.
#![tactic(auto)]

ghost use Rattle.std.specs.Prelude.{◌≡◌};
ghost use Rattle.ranges.specs.Ranges.{in_range, all_in_range, rising_from};

// The most sweep points and kicks, and the last position.
pub const MOST_POINTS: usize = 256;

pub const MOST_KICKS: usize = 1024;

pub const LAST_POSITION: u64 = 4294967296;

#[tactic(auto, unfolding(crate::specs::Ranges::in_range))]
pub fn in_range(lo: f64, hi: f64, x: f64) -> bool
    ensures { result ≡ in_range lo hi x }
{
    lo <= x && x <= hi
}

pub fn all_in_range(lo: f64, hi: f64, list: &[f64]) -> bool
    ensures { result ≡ all_in_range lo hi list.now }
{
    list.iter().fold(true, |all, x| all & in_range(lo, hi, *x))
}

// Above any position, a power of two.
const REACH: u64 = 2 * LAST_POSITION;

// Whether a list of positions never falls and has none above 2^32. Where it falls, a position less the one before it is REACH or more, wrapped. All
// positions and differences go into one word: SSE2 cannot compare two u64 at once.
pub fn rising(list: &[u64]) -> bool
    ensures { result ≡ rising_from 0 list.now }
{
    let mut joined = 0;
    let mut least = 0;
    for &k in list {
        joined |= k | k.wrapping_sub(least);
        least = k;
    }
    joined < REACH && least <= LAST_POSITION
}
