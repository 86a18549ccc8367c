// The tally of the answers that are alike.
ghost use Rattle.std.specs.Prelude.{◌≡◌, ◌≢◌, ℕ, ◌+◌, ◌%◌, ◌^◌, ◌<◌, List, None, IfSome, if◌then◌else◌};
ghost use Rattle.std.specs.List.{All};
ghost use Rattle.vectors.specs.Line.{name_of};
ghost use Rattle.vectors.specs.Tally.{no_answers, with_one};

use crate::line;
use std::ops::AddAssign;
use std::{fmt, io};

/// One of the N things that a list has answers of.
pub trait Kind<const N: usize>: Copy {
    ghost letters: { Self → List ℕ };

    /// Its name in the list, of at most 8 letters.
    fn name(self) -> &'static str
        ensures { result.now ≡ letters self };

    /// Its place among them, counted from 0.
    fn place(self) -> usize
        ensures { result < N };
}

/// The kind that the line begins with the name of.
pub fn kind_of<K: Kind<N>, const N: usize>(kinds: &[K; N], line: &[u8]) -> Option<K>
    ensures named { IfSome result (λ kind. K.letters kind ≡ name_of line.now) }
    ensures unnamed { result ≡ None → All (λ kind. K.letters kind ≢ name_of line.now) kinds.now }
{
    let name = line::name(line);
    for kind in kinds {
        if kind.name().as_bytes() == name {
            return Some(*kind);
        }
    }
    None
}

/// How many answers there were, and how many alike.
#[derive(Clone, Copy, Default)]
pub struct Count {
    pub answers: u64,
    pub alike: u64,
}

impl Count {
    /// One answer.
    pub fn one(alike: bool) -> Count
        ensures answers { result.answers ≡ 1 }
        ensures alike { result.alike ≡ (if alike then 1 else 0) }
    {
        Count {
            answers: 1,
            alike: u64::from(alike),
        }
    }
}

impl AddAssign for Count {
    ghost add_assign_gives = { λ old other new. (new.answers ≡ (old.answers + other.answers) % 2 ^ 64) × (new.alike ≡ (old.alike + other.alike) % 2 ^ 64) };

    fn add_assign(&mut self, other: Count) {
        self.answers = self.answers.wrapping_add(other.answers);
        self.alike = self.alike.wrapping_add(other.alike);
    }
}

impl fmt::Display for Count {
    fn fmt<W: fmt::Write>(&self, f: &mut fmt::Formatter<W>) -> fmt::Result {
        let answers = self.answers;
        let alike = self.alike;
        write!(f, "{answers}\t{alike}")
    }
}

/// The counts of N kinds, and of the lines that name none of them.
#[derive(Clone, Copy)]
pub struct Tally<const N: usize> {
    pub kinds: [Count; N],
    pub others: Count,
}

impl<const N: usize> Tally<N> {
    /// No answers.
    pub fn new() -> Self
        ensures kinds { All (λ count. count ≡ no_answers) result.kinds }
        ensures others { result.others ≡ no_answers }
    {
        let none = Count::default();
        Tally {
            kinds: [none; N],
            others: none,
        }
    }

    /// Counts an answer of that kind.
    pub fn count<K: Kind<N>>(&mut self, kind: Option<K>, alike: bool)
        ensures named { IfSome kind (λ kind. self.new.others ≡ self.old.others) }
        ensures unnamed { kind ≡ None → (self.new.kinds ≡ self.old.kinds) × (self.new.others ≡ with_one self.old.others alike) }
    {
        let one = Count::one(alike);
        match kind {
            Some(kind) => self.kinds[kind.place()] += one,
            None => self.others += one,
        }
    }

    fn total(&self) -> Count {
        let mut total = self.others;
        for count in self.kinds {
            total += count;
        }
        total
    }

    /// Prints a line for each kind, one for all others, and the total.
    pub fn print<K: Kind<N>>(&self, rt: &impl Print, kinds: &[K; N]) -> io::Result<()> {
        for kind in kinds {
            let name = kind.name();
            let count = self.kinds[kind.place()];
            println!(rt; "{name}\t{count}")?;
        }
        let others = self.others;
        println!(rt; "other\t{others}")?;
        let total = self.total();
        println!(rt; "total\t{total}")
    }
}
