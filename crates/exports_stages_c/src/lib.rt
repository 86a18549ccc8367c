// The stages for C: what the harness links as build/libexports_stages.a (harness/SIGNATURES.md). Each calls the function of its name in
// exports_stages, which promises no answer but tests lengths and bounds. It may use exports_stages alone, and reaches what that uses.
#![tactic(auto)]

// A fresh lane; whether it is at rest at the end.
#[unsafe(no_mangle)]
pub extern "C" fn goqhari_test_tape(
    f32s: &[f32; 8],
    f64s: &[f64; 4],
    flags: u64,
    points: &[u64],
    values: &[f64],
    kicks: &[u64],
    ring: &mut [f64],
    counts: &mut [u64],
    samples: &mut [f64],
    calls: &[u64],
) -> bool {
    exports_stages::goqhari_test_tape(
        f32s, f64s, flags, points, values, kicks, ring, counts, samples, calls,
    )
}

// The lane's tilt at a rain, of a one-pole that it lends to its step: pole and y.
#[unsafe(no_mangle)]
pub extern "C" fn goqhari_test_tilt_lent(s: &mut [f64; 2], rain: f64, x: f64) -> f64 {
    exports_stages::goqhari_test_tilt_lent(s, rain, x)
}

// A fresh plate over what lies in left, in calls of the given lengths; whether it is at rest at the end.
#[unsafe(no_mangle)]
pub extern "C" fn goqhari_test_plate(
    part: &mut [f64],
    left: &mut [f64],
    right: &mut [f64],
    calls: &[u64],
) -> bool {
    exports_stages::goqhari_test_plate(part, left, right, calls)
}

// A fresh ceiling over the frames (left, right), in calls of the given lengths.
#[unsafe(no_mangle)]
pub extern "C" fn goqhari_test_ceiling(
    samples: &mut [f64],
    counts: &mut [u64],
    left: &[f64],
    right: &[f64],
    frames: &mut [f32],
    gains: &mut [u64],
    calls: &[u64],
) {
    exports_stages::goqhari_test_ceiling(samples, counts, left, right, frames, gains, calls);
}
