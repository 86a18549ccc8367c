// Replays a kept list of the oracle's answers, on standard input, and prints how many of the part's are alike:
// a line for each thing (name, answers, answers alike) and a total, fields parted by tabs. The list has answers of
// single functions, then signals through the tape, the plate, the ceiling and the duck.
// It may use the exported functions and vectors.
#![tactic(auto)]

ghost use Rattle.std.specs.Prelude.{◌≤◌, length};

mod function;

use function::Function;
use std::io::{self, Read};
use vectors::{Count, Kept, Tally};

// A line is a name's field and 12 numbers.
const LINE: usize = 212;

const NAME: usize = 8;

// The samples of a signal, and of one that goes on.
const SIGNAL: usize = 300;

const LONG: usize = 10080;

// ---- the answers of single functions

// The lines up to the first that names none; a line's last number is the answer.
fn tallied<R: Read>(input: &mut R) -> io::Result<Tally<12>> {
    let mut tally = Tally::new();
    let mut line = [0; LINE];
    for _ in 0..u64::MAX {
        if vectors::read_full(input, &mut line)? < LINE {
            break;
        }
        let Some(function) = vectors::kind_of(&Function::ALL, &line) else {
            break;
        };
        let numbers = vectors::numbers(&line[NAME..]);
        tally.count(Some(function), function.answer(&numbers) == numbers[11]);
    }
    Ok(tally)
}

// ---- lists of numbers

// The next line's first N numbers; what the input lacks counts as 0.
fn next<R: Read, const N: usize>(input: &mut R) -> io::Result<[u64; N]> {
    let mut line = [0; LINE];
    vectors::read_full(input, &mut line)?;
    Ok(vectors::numbers(&line[NAME..]))
}

// Fills a list by the lines' numbers, 12 of each.
fn fill<K: Kept, R: Read>(input: &mut R, out: &mut [K]) -> io::Result<()> {
    for values in out.chunks_mut(12) {
        let numbers = next::<R, 12>(input)?;
        for (value, number) in values.iter_mut().zip(numbers) {
            *value = K::from_number(number);
        }
    }
    Ok(())
}

// A signal over and over.
fn repeat(x: &[f64; SIGNAL], out: &mut [f64]) {
    for (sample, x) in out.iter_mut().zip(x.iter().cycle()) {
        *sample = *x;
    }
}

// How many of the answers have the numbers that are kept.
fn alike<K: Kept>(answers: &[K], kept: &[u64]) -> Count
    requires { length answers.now ≤ length kept.now }
{
    let mut count = Count::default();
    for (answer, number) in answers.iter().zip(kept) {
        count += Count::one(answer.number() == *number);
    }
    count
}

// ---- the signals

// Reads a lane's setup, two lines of numbers with the flags, three of points, values and kicks, and four of twelve calls, and
// runs the lane over the samples.
fn through_tape<R: Read>(input: &mut R, samples: &mut [f64]) -> io::Result<()> {
    let f32s = next::<R, 8>(input)?.map(f32::from_number);
    let [drive, gain_in, gain_out, send, flags] = next::<R, 5>(input)?;
    let f64s = [drive, gain_in, gain_out, send].map(f64::from_number);
    let points = next::<R, 4>(input)?;
    let values = next::<R, 4>(input)?.map(f64::from_number);
    let kicks = next::<R, 12>(input)?;
    let mut calls = [0u64; 48];
    fill(input, &mut calls)?;
    let mut ring = [0.0; 64];
    let mut counts = [0; 2048];
    exports_stages::goqhari_test_tape(
        &f32s,
        &f64s,
        flags,
        &points,
        &values,
        &kicks,
        &mut ring,
        &mut counts,
        samples,
        &calls,
    );
    Ok(())
}

fn tape<R: Read>(input: &mut R) -> io::Result<Count> {
    let mut samples = [0.0; SIGNAL];
    let mut kept = [0u64; SIGNAL];
    fill(input, &mut samples)?;
    through_tape(input, &mut samples)?;
    fill(input, &mut kept)?;
    Ok(alike(&samples, &kept))
}

// Past a kick's attack and release: a signal over and over, every answer kept.
fn kicks<R: Read>(input: &mut R) -> io::Result<Count> {
    let mut x = [0.0; SIGNAL];
    let mut samples = [0.0; LONG];
    let mut kept = [0u64; LONG];
    fill(input, &mut x)?;
    repeat(&x, &mut samples);
    through_tape(input, &mut samples)?;
    fill(input, &mut kept)?;
    Ok(alike(&samples, &kept))
}

// Whether the drums are on at n, which they are at first and turn at each of the places.
fn drums_at(turns: &[u64; 12], n: u64) -> bool {
    turns.iter().filter(|turn| **turn <= n).count() % 2 == 0
}

// A fresh duck's gain for each sample, by itself.
fn gains(kicks: &[u64; 12], turns: &[u64; 12], out: &mut [f64]) {
    let mut counts = [0; 2048];
    let count = exports::leaves::goqhari_test_duck_new(kicks, &mut counts);
    let mut cursors = [count, 0, 0];
    for (n, gain) in (0..).zip(out) {
        let drums = drums_at(turns, n);
        *gain = exports::leaves::goqhari_test_duck(&mut counts, &mut cursors, n, drums);
    }
}

fn duck<R: Read>(input: &mut R) -> io::Result<Count> {
    let kicks = next(input)?;
    let turns = next(input)?;
    let mut out = [0.0; LONG];
    let mut kept = [0u64; LONG];
    gains(&kicks, &turns, &mut out);
    fill(input, &mut kept)?;
    Ok(alike(&out, &kept))
}

// The plate answers late: a signal over and over, the last answers kept.
fn plate<R: Read>(input: &mut R) -> io::Result<Count> {
    let calls = next::<R, 12>(input)?;
    let mut x = [0.0; SIGNAL];
    let mut left = [0.0; 3000];
    let mut right = [0.0; 3000];
    let mut part = [0.0; 47104];
    let mut kept = [0u64; SIGNAL];
    fill(input, &mut x)?;
    repeat(&x, &mut left);
    exports_stages::goqhari_test_plate(&mut part, &mut left, &mut right, &calls);
    fill(input, &mut kept)?;
    let mut count = alike(&left[2700..], &kept);
    fill(input, &mut kept)?;
    count += alike(&right[2700..], &kept);
    Ok(count)
}

// Past the window of the needs.
fn ceiling<R: Read>(input: &mut R) -> io::Result<Count> {
    let calls = next::<R, 12>(input)?;
    let mut left = [0.0; 2004];
    let mut right = [0.0; 2004];
    let mut frames = [0.0f32; 4008];
    let mut gains = [0u64; 2004];
    let mut samples = [0.0; 1323];
    let mut counts = [0; 1104];
    let mut kept_frames = [0u64; 4008];
    let mut kept_gains = [0u64; 2004];
    fill(input, &mut left)?;
    fill(input, &mut right)?;
    exports_stages::goqhari_test_ceiling(
        &mut samples,
        &mut counts,
        &left,
        &right,
        &mut frames,
        &mut gains,
        &calls,
    );
    fill(input, &mut kept_frames)?;
    fill(input, &mut kept_gains)?;
    let mut count = alike(&frames, &kept_frames);
    count += alike(&gains, &kept_gains);
    Ok(count)
}

fn main(rt: HostRuntime) -> io::Result<()> {
    let mut input = rt.stdin();
    let tally = tallied(&mut input)?;
    tally.print(&rt, &Function::ALL)?;
    let of_tape = tape(&mut input)?;
    println!(rt; "tape\t{of_tape}")?;
    let of_kicks = kicks(&mut input)?;
    println!(rt; "kicks\t{of_kicks}")?;
    let of_duck = duck(&mut input)?;
    println!(rt; "duck\t{of_duck}")?;
    let of_plate = plate(&mut input)?;
    println!(rt; "plate\t{of_plate}")?;
    let of_ceiling = ceiling(&mut input)?;
    println!(rt; "ceiling\t{of_ceiling}")
}
