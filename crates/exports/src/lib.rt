// Thin functions over the crates, for the Rust harness beside the part, for which exports_c exports them, and for the replays; nothing else
// uses them. sinh and the f32 functions stand here whole, since no crate of the part calls them.
// Rust promises nothing of what it passes: each tests lengths and bounds first, and does nothing where they do not hold.
#![tactic(auto)]

ghost use Rattle.std.specs.Prelude.{◌≡◌};
ghost use Rattle.elementary.specs.Elementary.{SINH, SIN32, POW32};

pub mod leaves;

pub fn goqhari_test_widen(x: f32) -> f64 {
    casts::widen(x)
}

pub fn goqhari_test_narrow(x: f64) -> f32 {
    casts::narrow(x)
}

pub fn goqhari_test_floor(x: f64) -> f64 {
    casts::floor(x)
}

pub fn goqhari_test_whole(x: f64) -> u64 {
    casts::whole_part(x)
}

pub fn goqhari_test_sin(v: f64) -> f64 {
    elementary::sin(v)
}

pub fn goqhari_test_cos(v: f64) -> f64 {
    elementary::cos(v)
}

pub fn goqhari_test_exp(v: f64) -> f64 {
    elementary::exp(v)
}

pub fn goqhari_test_ln(x: f64) -> f64 {
    elementary::ln(x)
}

pub fn goqhari_test_pow(b: f64, p: f64) -> f64 {
    elementary::pow(b, p)
}

pub fn goqhari_test_tanh(v: f64) -> f64 {
    elementary::tanh(v)
}

#[tactic(auto, unfolding(elementary::specs::Elementary::SINH))]
pub fn goqhari_test_sinh(v: f64) -> f64
    ensures { result ≡ SINH v }
{
    (elementary::exp(v) - elementary::exp(-v)) / 2.0
}

pub fn goqhari_test_sin_f32(x: f32) -> f32
    ensures { result ≡ SIN32 x }
{
    casts::narrow(elementary::sin(casts::widen(x)))
}

pub fn goqhari_test_pow_f32(b: f32, p: f32) -> f32
    ensures { result ≡ POW32 b p }
{
    casts::narrow(elementary::pow(casts::widen(b), casts::widen(p)))
}
