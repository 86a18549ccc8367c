// The values that a kept list's numbers stand for.
ghost use Rattle.std.specs.Prelude.{◌≡◌, ℕ, ◌%◌, ◌^◌, from_bits, to_bits};
ghost use Rattle.std.specs.Float.{binary32, binary64};

use std::num;

/// A value that a list keeps as a number. A float's is its bit pattern, and any NaN's the one with only the highest digit of its
/// fraction set.
pub trait Kept: Copy {
    ghost value_of: { ℕ → Self };

    ghost number_of: { Self → ℕ };

    fn from_number(number: u64) -> Self
        ensures { result ≡ value_of number };

    fn number(self) -> u64
        ensures { result ≡ number_of self };
}

impl Kept for u64 {
    ghost value_of = { λ number. number };

    ghost number_of = { λ value. value };

    fn from_number(number: u64) -> u64 {
        number
    }

    fn number(self) -> u64 {
        self
    }
}

impl Kept for f64 {
    ghost value_of = { from_bits binary64 };

    ghost number_of = { to_bits binary64 };

    fn from_number(number: u64) -> f64 {
        num::f64_from_bits_with_nan(number)
    }

    fn number(self) -> u64 {
        num::f64_to_bits_with_nan(self)
    }
}

// The pattern stands in the number's lower half.
impl Kept for f32 {
    ghost value_of = { λ number. from_bits binary32 (number % 2 ^ 32) };

    ghost number_of = { to_bits binary32 };

    fn from_number(number: u64) -> f32 {
        num::f32_from_bits_with_nan((number % (1 << 32)) as u32)
    }

    fn number(self) -> u64 {
        u64::from(num::f32_to_bits_with_nan(self))
    }
}
