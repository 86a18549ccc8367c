// The functions of which the list has single answers.
ghost use Rattle.replay_stages.specs.Function.{letters_of};

use exports::leaves;
use vectors::{Kept, Kind};

/// A function whose answers the list has.
#[derive(Clone, Copy)]
pub enum Function {
    Section,
    OnePole,
    Tilt,
    Delay,
    Ramp,
    Daylight,
    Sweep,
    Opened,
    Corner,
    Drive,
    Side,
    Flush,
}

// Nine numbers of a section, and a sample.
fn section(n: &[u64; 12]) -> f64 {
    let [b0, b1, b2, a1, a2, x1, x2, y1, y2, x, ..] = n.map(f64::from_number);
    leaves::goqhari_test_section(&mut [b0, b1, b2, a1, a2, x1, x2, y1, y2], x)
}

// A one-pole's two numbers, and a sample.
fn onepole(n: &[u64; 12]) -> f64 {
    let [pole, y, x, ..] = n.map(f64::from_number);
    leaves::goqhari_test_onepole(&mut [pole, y], x)
}

// The same with the rain between, by the tilt that is lent its one-pole.
fn tilt(n: &[u64; 12]) -> f64 {
    let [pole, y, rain, x, ..] = n.map(f64::from_number);
    exports_stages::goqhari_test_tilt_lent(&mut [pole, y], rain, x)
}

// A ring of four, the count of its samples, the greatest delay and the delay.
fn delay(n: &[u64; 12]) -> f64 {
    let [first, second, third, fourth, _, max_delay, delay, ..] = n.map(f64::from_number);
    leaves::goqhari_test_tap(&[first, second, third, fourth], n[4], max_delay, delay)
}

// Two ends, start and length, the shape, and the position.
fn ramp(n: &[u64; 12]) -> f64 {
    let [from, to, start, len, db, position, ..] = *n;
    let ends = [from, to].map(f64::from_number);
    leaves::goqhari_test_ramp_at(&ends, &[start, len], db != 0, position)
}

// The same without the shape.
fn daylight(n: &[u64; 12]) -> f64 {
    let [from, to, start, len, position, ..] = *n;
    let ends = [from, to].map(f64::from_number);
    leaves::goqhari_test_daylight(&ends, &[start, len], position)
}

// Three points and their values, the own corner, and the position.
fn sweep(n: &[u64; 12]) -> f32 {
    let [first, second, third, x, y, z, own, position, ..] = *n;
    let values = [x, y, z].map(f64::from_number);
    leaves::goqhari_test_sweep(
        &[first, second, third],
        &values,
        f32::from_number(own),
        position,
    )
}

// A corner and how open it is.
fn opened(n: &[u64; 12]) -> f32 {
    leaves::goqhari_test_swept(f32::from_number(n[0]), f64::from_number(n[1]))
}

impl Function {
    /// All, in the order in which their lines are printed.
    pub const ALL: [Function; 12] = [
        Function::Section,
        Function::OnePole,
        Function::Tilt,
        Function::Delay,
        Function::Ramp,
        Function::Daylight,
        Function::Sweep,
        Function::Opened,
        Function::Corner,
        Function::Drive,
        Function::Side,
        Function::Flush,
    ];

    /// The part's answer to a line's numbers, as the number that a list keeps of it.
    pub fn answer(self, n: &[u64; 12]) -> u64 {
        let night = f32::from_number(n[0]);
        let day = f32::from_number(n[1]);
        let daylight_at = f64::from_number(n[2]);
        match self {
            Function::Section => section(n).number(),
            Function::OnePole => onepole(n).number(),
            Function::Tilt => tilt(n).number(),
            Function::Delay => delay(n).number(),
            Function::Ramp => ramp(n).number(),
            Function::Daylight => daylight(n).number(),
            Function::Sweep => sweep(n).number(),
            Function::Opened => opened(n).number(),
            Function::Corner => leaves::goqhari_test_grade_corner(night, day, daylight_at).number(),
            Function::Drive => leaves::goqhari_test_grade_drive(night, day, daylight_at).number(),
            Function::Side => leaves::goqhari_test_sidechain(n[0]).number(),
            Function::Flush => leaves::goqhari_test_flush(f64::from_number(n[0])).number(),
        }
    }
}

impl Kind<12> for Function {
    ghost letters = { letters_of };

    fn name(self) -> &'static str {
        match self {
            Function::Section => "section",
            Function::OnePole => "onepole",
            Function::Tilt => "tilt",
            Function::Delay => "delay",
            Function::Ramp => "ramp",
            Function::Daylight => "daylight",
            Function::Sweep => "sweep",
            Function::Opened => "opened",
            Function::Corner => "corner",
            Function::Drive => "drive",
            Function::Side => "side",
            Function::Flush => "flush",
        }
    }

    fn place(self) -> usize {
        self as usize
    }
}
