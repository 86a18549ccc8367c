ghost use Rattle.replay.specs.Function.{letters_of};

use vectors::{Kept, Kind};

/// A function whose answers the list has.
#[derive(Clone, Copy)]
pub enum Function {
    Sin,
    Cos,
    Exp,
    Ln,
    Pow,
    Tanh,
    Sinh,
    SinF32,
    PowF32,
    Widen,
    Narrow,
    Floor,
    Whole,
}

impl Function {
    /// All, in the order in which their lines are printed.
    pub const ALL: [Function; 13] = [
        Function::Sin,
        Function::Cos,
        Function::Exp,
        Function::Ln,
        Function::Pow,
        Function::Tanh,
        Function::Sinh,
        Function::SinF32,
        Function::PowF32,
        Function::Widen,
        Function::Narrow,
        Function::Floor,
        Function::Whole,
    ];

    /// The part's answer to the arguments, as the number that a list keeps of it; a function of one argument leaves the second.
    pub fn answer(self, first: u64, second: u64) -> u64 {
        let x = f64::from_number(first);
        let y = f64::from_number(second);
        let x_f32 = f32::from_number(first);
        let y_f32 = f32::from_number(second);
        match self {
            Function::Sin => elementary::sin(x).number(),
            Function::Cos => elementary::cos(x).number(),
            Function::Exp => elementary::exp(x).number(),
            Function::Ln => elementary::ln(x).number(),
            Function::Pow => elementary::pow(x, y).number(),
            Function::Tanh => elementary::tanh(x).number(),
            Function::Sinh => exports::goqhari_test_sinh(x).number(),
            Function::SinF32 => exports::goqhari_test_sin_f32(x_f32).number(),
            Function::PowF32 => exports::goqhari_test_pow_f32(x_f32, y_f32).number(),
            Function::Widen => casts::widen(x_f32).number(),
            Function::Narrow => casts::narrow(x).number(),
            Function::Floor => casts::floor(x).number(),
            Function::Whole => casts::whole_part(x),
        }
    }
}

impl Kind<13> for Function {
    ghost letters = { letters_of };

    fn name(self) -> &'static str {
        match self {
            Function::Sin => "sin",
            Function::Cos => "cos",
            Function::Exp => "exp",
            Function::Ln => "ln",
            Function::Pow => "pow",
            Function::Tanh => "tanh",
            Function::Sinh => "sinh",
            Function::SinF32 => "sin32",
            Function::PowF32 => "pow32",
            Function::Widen => "widen",
            Function::Narrow => "narrow",
            Function::Floor => "floor",
            Function::Whole => "whole",
        }
    }

    fn place(self) -> usize {
        self as usize
    }
}
