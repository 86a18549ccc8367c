// A kick's gain (whole.rs `sidechain_gain`): at one sample, at two neighbours at once, and of two kicks at once. Uses casts and attack, and no
// rate by its number.
#![tactic(auto, unfolding(crate::specs::Sidechain::releases))]

ghost use Rattle.std.specs.Prelude.{◌≡◌, ◌+◌, ◌<◌, ◌≤◌, true};
ghost use Rattle.casts.specs.Arithmetic.{◌⊕◌, ◌⊖◌, ◌⊗◌, ◌⊘◌, one, whole};
ghost use Rattle.sidechain.specs.Sidechain.{sidechain_gain, releases};

// What of a duck depends on the rate: the attack and the release in samples, and the gain at the bottom.
#[derive(Clone, Copy)]
pub struct DuckRate {
    pub attack: u64,
    pub release: u64,
    pub floor: f64,
}

// The gains at a sample and at the one after it, or of a kick and of the one after it.
#[derive(Clone, Copy)]
pub struct Gains {
    pub at: f64,
    pub after: f64,
}

// n as a float: n in the last digits of 2^52, less 2^52. Two of these the compiler converts at once, which it does not two u32.
fn short(n: u64) -> f64
    requires { n < 4294967296 }
    ensures { result ≡ whole n }
{
    f64::from_bits(n + 0x4330_0000_0000_0000) - 4503599627370496.0
}

// n as a float. Below 2^32, where all that is since a kick lies, one conversion does.
fn counted(n: u64) -> f64
    ensures { result ≡ whole n }
{
    if n < 4294967296 {
        short(n)
    } else {
        std::num::nearest_u64_to_f64(n)
    }
}

// The gain of a kick that releases, so many samples since its attack.
fn releasing(rate: DuckRate, up: f64) -> f64
    ensures { result ≡ rate.floor ⊕ (one ⊖ rate.floor) ⊗ up ⊘ whole rate.release }
{
    rate.floor + (1.0 - rate.floor) * up / counted(rate.release)
}

// The gain of a kick past its attack, so many samples since the attack.
fn past_attack(rate: DuckRate, up: u64) -> f64
    ensures { result ≡ sidechain_gain rate (rate.attack + up) }
{
    if up < rate.release {
        releasing(rate, counted(up))
    } else {
        1.0
    }
}

pub fn sidechain_gain(rate: DuckRate, since: u64) -> f64
    ensures { result ≡ sidechain_gain rate since }
{
    if since < rate.attack {
        attack::attack_gain(rate.floor, rate.attack, since)
    } else {
        past_attack(rate, since - rate.attack)
    }
}

// The gain of a kick past its attack at a sample and at the next. Where it releases at both, one branch has the two, for the compiler to
// divide them by one instruction.
pub fn sidechain_gains(rate: DuckRate, since: u64) -> Gains
    requires { (rate.attack ≤ since) × (since + 1 < 4294967296) }
    ensures at_value { result.at ≡ sidechain_gain rate since }
    ensures after_value { result.after ≡ sidechain_gain rate (since + 1) }
{
    let up = since - rate.attack;
    if up + 1 < rate.release {
        Gains {
            at: releasing(rate, short(up)),
            after: releasing(rate, short(up + 1)),
        }
    } else {
        Gains {
            at: past_attack(rate, up),
            after: past_attack(rate, up + 1),
        }
    }
}

// Whether a kick releases so many samples since it, and since its attack there are few enough for `short`.
pub fn releases(rate: DuckRate, since: u64) -> bool
    ensures { result ≡ releases rate since }
{
    rate.attack <= since && since - rate.attack < rate.release && since - rate.attack < 4294967296
}

// The gains of two kicks that release, so many samples since each.
pub fn releasing_gains(rate: DuckRate, first: u64, second: u64) -> Gains
    requires { (releases rate first ≡ true) × (releases rate second ≡ true) }
    ensures at_value { result.at ≡ sidechain_gain rate first }
    ensures after_value { result.after ≡ sidechain_gain rate second }
{
    Gains {
        at: releasing(rate, short(first - rate.attack)),
        after: releasing(rate, short(second - rate.attack)),
    }
}
