// A control's ramp, closed-form in the position, so that nothing moves it but a latch.
// Uses casts and elementary.
#![tactic(auto, unfolding(crate::specs::Ramp::held, crate::specs::Ramp::ramp_at, crate::specs::Ramp::shaped, crate::specs::Ramp::toward))]

ghost use Rattle.std.specs.Prelude.{◌≡◌, nat_le};
ghost use Rattle.ramp.specs.Ramp.{ramp_end, held, shaped, ramp_at, toward};

// How a ramp moves between its ends: in its value, or in decibels.
#[derive(Clone, Copy)]
pub enum Shape {
    Linear,
    Db,
}

#[derive(Clone, Copy)]
pub struct Ramp {
    pub from: f64,
    pub to: f64,
    pub start: u64,
    pub len: u64,
    pub shape: Shape,
}

impl Ramp {
    // The value from position 0 on.
    pub fn held(value: f64, shape: Shape) -> Ramp
        ensures { result ≡ held value shape }
    {
        Ramp {
            from: value,
            to: value,
            start: 0,
            len: 0,
            shape,
        }
    }

    // Whether n is at the end or after it. The end itself is not summed, which could wrap.
    pub fn ended(self, n: u64) -> bool
        ensures { result ≡ nat_le (ramp_end self) n }
    {
        self.start <= n && self.len <= n - self.start
    }

    // The value x of the way.
    fn shaped(self, x: f64) -> f64
        ensures { result ≡ shaped self.shape self.from self.to x }
    {
        match self.shape {
            Shape::Linear => self.from * (1.0 - x) + self.to * x,
            Shape::Db => self.from * elementary::pow(self.to / self.from, x),
        }
    }

    // The value at n: exactly `to` from the end on.
    pub fn at(self, n: u64) -> f64
        ensures { result ≡ ramp_at self n }
    {
        if self.ended(n) {
            self.to
        } else if n <= self.start {
            self.from
        } else {
            let gone = std::num::nearest_u64_to_f64(n - self.start);
            self.shaped(gone / std::num::nearest_u64_to_f64(self.len))
        }
    }

    // From the value at n to `to` over len samples; one already headed for `to` keeps its course.
    pub fn toward(self, n: u64, to: f64, len: u64) -> Ramp
        ensures { result ≡ toward self n to len }
    {
        if self.to == to {
            self
        } else {
            Ramp {
                from: self.at(n),
                to,
                start: n,
                len,
                ..self
            }
        }
    }
}
