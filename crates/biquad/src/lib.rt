// Second-order sections by value, the cookbook's low-pass at run time, and the order-4 low-pass of two sections.
// Uses casts, elementary and stream.
#![tactic(auto, unfolding(crate::specs::Cookbook::angle_of, crate::specs::Cookbook::lowpass_at, crate::specs::Cookbook::lowpass_retuned, crate::specs::Cookbook::lpf, crate::specs::Cookbook::normalized, crate::specs::Section::lowpass_at_rest, crate::specs::Section::lowpass_step, crate::specs::Section::retuned, crate::specs::Section::section_at, crate::specs::Section::section_at_rest, crate::specs::Section::section_step))]

ghost use Rattle.std.specs.Prelude.{◌≡◌};
ghost use Rattle.biquad.specs.Section.{section_at, section_step, retuned, section_at_rest, lowpass_step, lowpass_at_rest};
ghost use Rattle.biquad.specs.Cookbook.{angle_of, lpf, lowpass_retuned};

// The Butterworth Qs of order 4.
const Q_FIRST: f64 = 1.306562964876377;

const Q_SECOND: f64 = 0.5411961001461969;

// A section's five coefficients, a0 being 1.
#[derive(Clone, Copy, Default)]
pub struct Coefficients {
    pub b0: f64,
    pub b1: f64,
    pub b2: f64,
    pub a1: f64,
    pub a2: f64,
}

// Direct Form 1: five coefficients, the last two inputs and the last two outputs. It has the five as its own: the definitions of the stages name them so,
// and by a field of Coefficients each would be one name longer.
#[derive(Clone, Copy)]
pub struct Section {
    pub b0: f64,
    pub b1: f64,
    pub b2: f64,
    pub a1: f64,
    pub a2: f64,
    pub x1: f64,
    pub x2: f64,
    pub y1: f64,
    pub y2: f64,
}

impl Section {
    // A section whose past is zero.
    pub fn new(c: Coefficients) -> Section
        ensures { result ≡ section_at c }
    {
        Section {
            b0: c.b0,
            b1: c.b1,
            b2: c.b2,
            a1: c.a1,
            a2: c.a2,
            x1: 0.0,
            x2: 0.0,
            y1: 0.0,
            y2: 0.0,
        }
    }

    // The section after x; its y1 is the output.
    pub fn step(mut self, x: f64) -> Section
        ensures { result ≡ section_step self x }
    {
        let y = stream::flush(
            self.b0 * x + self.b1 * self.x1 + self.b2 * self.x2
                - self.a1 * self.y1
                - self.a2 * self.y2,
        );
        self.x2 = self.x1;
        self.x1 = x;
        self.y2 = self.y1;
        self.y1 = y;
        self
    }

    // Other coefficients, the past kept.
    pub fn retuned(self, c: Coefficients) -> Section
        ensures { result ≡ retuned self c }
    {
        Section {
            x1: self.x1,
            x2: self.x2,
            y1: self.y1,
            y2: self.y2,
            ..Section::new(c)
        }
    }

    // Whether its past is all zeros.
    pub fn at_rest(self) -> bool
        ensures { result ≡ section_at_rest self }
    {
        self.x1 == 0.0 && self.x2 == 0.0 && self.y1 == 0.0 && self.y2 == 0.0
    }
}

// The cookbook's LPF at the sine and cosine of its w0.
fn cookbook_lowpass(sin: f64, cos: f64, q: f64) -> Coefficients
    ensures { result ≡ lpf sin cos q }
{
    let alpha = sin / (2.0 * q);
    let a0 = 1.0 + alpha;
    let b0 = (1.0 - cos) / 2.0 / a0;
    Coefficients {
        b0,
        b1: (1.0 - cos) / a0,
        b2: b0,
        a1: -2.0 * cos / a0,
        a2: (1.0 - alpha) / a0,
    }
}

// w0 of a corner: its angle a sample.
fn angle(hz: f32, rate: u32) -> f64
    ensures { result ≡ angle_of hz rate }
{
    elementary::TAU * casts::widen(hz) / f64::from(rate)
}

// An order-4 Butterworth low-pass, whose corner may move.
#[derive(Clone, Copy)]
pub struct Lowpass {
    pub first: Section,
    pub second: Section,
}

impl Lowpass {
    // The sections after x; the second's y1 is the output.
    pub fn step(self, x: f64) -> Lowpass
        ensures { result ≡ lowpass_step self x }
    {
        let first = self.first.step(x);
        let second = self.second.step(first.y1);
        Lowpass { first, second }
    }

    // Moves the corner to hz, the past kept.
    pub fn retuned(self, hz: f32, rate: u32) -> Lowpass
        ensures { result ≡ lowpass_retuned self hz rate }
    {
        let w0 = angle(hz, rate);
        let sin = elementary::sin(w0);
        let cos = elementary::cos(w0);
        let first = self.first.retuned(cookbook_lowpass(sin, cos, Q_FIRST));
        let second = self.second.retuned(cookbook_lowpass(sin, cos, Q_SECOND));
        Lowpass { first, second }
    }

    // Whether its past is all zeros.
    pub fn at_rest(self) -> bool
        ensures { result ≡ lowpass_at_rest self }
    {
        self.first.at_rest() && self.second.at_rest()
    }
}
