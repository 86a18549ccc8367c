// What the replays share: the lines of a kept list (line), the values that their numbers stand for (kept), and the tally of the
// answers that are alike (tally). Uses std alone.
#![tactic(auto)]

pub mod kept;
pub mod line;
pub mod tally;

pub use kept::Kept;
pub use line::{numbers, read_full};
pub use tally::{Count, Kind, Tally, kind_of};
