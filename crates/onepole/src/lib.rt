// The one-pole low-pass, and the tilt that it makes.
// Uses casts, elementary and stream.
#![tactic(auto, unfolding(crate::specs::OnePole::lift_of, crate::specs::OnePole::one_pole_at, crate::specs::OnePole::one_pole_at_rest, crate::specs::OnePole::one_pole_step, crate::specs::OnePole::tilt_step))]

ghost use Rattle.std.specs.Prelude.{◌≡◌};
ghost use Rattle.onepole.specs.OnePole.{one_pole_at, one_pole_step, tilt_step, one_pole_at_rest, lift_of};

// y = (1 − a)·x + a·y₋₁, a being the pole and y the last output.
#[derive(Clone, Copy)]
pub struct OnePole {
    pub pole: f64,
    pub y: f64,
}

// The one-pole after a sample, and the tilt's output.
#[derive(Clone, Copy)]
pub struct Tilted {
    pub lp: OnePole,
    pub out: f64,
}

pub const TILT_LIFT: f32 = 0.8;

const RAIN_TILT_LIFT: f32 = -0.098;

impl OnePole {
    // A one-pole whose past is zero.
    pub fn new(pole: f64) -> OnePole
        ensures { result ≡ one_pole_at pole }
    {
        OnePole { pole, y: 0.0 }
    }

    // The one-pole after x; its y is the output.
    pub fn lowpass(mut self, x: f64) -> OnePole
        ensures { result ≡ one_pole_step self x }
    {
        self.y = stream::flush(self.pole * self.y + (1.0 - self.pole) * x);
        self
    }

    // The tilt, a high shelf: x + lift·(x − lp(x)).
    pub fn tilt(self, lift: f64, x: f64) -> Tilted
        ensures { result ≡ tilt_step self lift x }
    {
        let lp = self.lowpass(x);
        let out = x + lift * (x - lp.y);
        Tilted { lp, out }
    }

    // The same by a reference: the one-pole that is lent becomes the one after x, and the output is handed back.
    pub fn tilt_in_place(&mut self, lift: f64, x: f64) -> f64
        ensures { (self.new ≡ (tilt_step self.old lift x).lp) × (result ≡ (tilt_step self.old lift x).out) }
    {
        let tilted = self.tilt(lift, x);
        *self = tilted.lp;
        tilted.out
    }

    // Whether its past is zero.
    pub fn at_rest(self) -> bool
        ensures { result ≡ one_pole_at_rest self }
    {
        self.y == 0.0
    }
}

// The tilt's lift at a rain.
pub fn lift(rain: f64) -> f64
    ensures { result ≡ lift_of rain }
{
    let dry = casts::widen(TILT_LIFT);
    dry + (casts::widen(RAIN_TILT_LIFT) - dry) * rain
}
