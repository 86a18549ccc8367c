// A line of a kept list: a name of at most 8 letters with blanks after it, and numbers of 16 digits with a byte after each.
ghost use Rattle.std.specs.Prelude.{◌≡◌, ◌<◌, ◌≤◌, ◌==◌, IfOk, get_or, length, not, take_while};
ghost use Rattle.vectors.specs.Line.{name_of, digit_of, number_of_digits};

use std::io::{self, Read};

// The bytes of a name's field.
const NAME: usize = 8;

/// Reads until `line` is full or the input ends, and answers how many bytes stand at its start. std's `read_exact` doesn't say how
/// many a last, shorter line had.
pub fn read_full<R: Read>(input: &mut R, line: &mut [u8]) -> io::Result<usize>
    ensures { IfOk result (λ n. n ≤ length line.new) }
{
    let mut done = 0;
    while done < line.len() {
        match input.read(&mut line[done..])? {
            0 => break,
            read => done += read,
        }
    }
    Ok(done)
}

// How many letters stand before the first blank.
fn letters(field: &[u8]) -> usize
    ensures { result ≡ length (take_while (λ letter. not (letter == 32)) field.now) }
{
    field.iter().take_while(|letter| **letter != b' ').count()
}

// The name that the line begins with.
pub(crate) fn name(line: &[u8]) -> &[u8]
    ensures { result.now ≡ name_of line.now }
{
    let field = &line[..NAME.min(line.len())];
    &field[..letters(field)]
}

// The value of a digit; what is none counts as 0, capitals too.
fn digit(byte: u8) -> u64
    ensures below { result < 16 }
    ensures value { result ≡ digit_of byte }
{
    match byte {
        b'0'..=b'9' => u64::from(byte - b'0'),
        b'a'..=b'f' => u64::from(byte - b'a' + 10),
        _ => 0,
    }
}

// A field's byte; what lies past its end reads as a blank.
fn byte_at(field: &[u8], i: usize) -> u8
    ensures { result ≡ get_or field.now i 32 }
{
    if i < field.len() { field[i] } else { b' ' }
}

// The number that the 16 digits of a field are. Inlined, as what calls it is made anew in each crate that does.
#[inline]
fn number(field: &[u8]) -> u64
    ensures { result ≡ number_of_digits field.now 16 }
{
    let mut value = 0;
    for i in 0..16 {
        value = value * 16 + digit(byte_at(field, i));
    }
    value
}

/// The numbers that stand in the fields of a line, and 0 for each that it lacks.
pub fn numbers<const N: usize>(fields: &[u8]) -> [u64; N] {
    let mut numbers = [0; N];
    for (value, field) in numbers.iter_mut().zip(fields.chunks(17)) {
        *value = number(field);
    }
    numbers
}
