// What every stage of the stream uses: flush, and a frame of two sides.
// Uses casts and elementary.
#![tactic(auto)]

ghost use Rattle.std.specs.Prelude.{◌≡◌};
ghost use Rattle.stream.specs.Stream.{flushed};

// The exponent's field of 2^-64, below which a feedback state is silence.
const FLUSH_FIELD: u64 = 959;

#[derive(Clone, Copy)]
pub struct Frame {
    pub left: f64,
    pub right: f64,
}

// v, or 0 where its size is below 2^-64: the least size with the field 959, so the field alone tells.
// A NaN's bits cannot be read: 1, which stays, stands in for it and for all above 1.
pub fn flush(v: f64) -> f64
    ensures { result ≡ flushed v }
{
    let field = casts::lesser(1.0, v).to_bits() / casts::FIELD % 2048;
    if field < FLUSH_FIELD { 0.0 } else { v }
}
