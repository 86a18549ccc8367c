// A setup, and the lane's part of it, out of the numbers and flags that C hands over (specs/Setup.antt). Uses automation, oscillators, tape
// and strip for their types.
#![tactic(auto)]

ghost use Rattle.std.specs.Prelude.{◌≡◌};
ghost use Rattle.setup.specs.Setup.{tone_of, tape_setup_of, setup_of};

use automation::Tone;
use oscillators::Pad;
use strip::Setup;
use tape::TapeSetup;

#[tactic(auto, unfolding(crate::specs::Setup::tone_of))]
fn tone_of(singles: &[f32; 8], drive: f64, graded: bool) -> Tone
    ensures { result ≡ tone_of singles.now drive graded }
{
    if graded {
        Tone::Graded {
            night_corner: singles[0],
            day_corner: singles[1],
            night_drive: singles[2],
            day_drive: singles[3],
        }
    } else {
        Tone::Fixed {
            corner: singles[0],
            drive,
        }
    }
}

#[tactic(auto, unfolding(crate::specs::Setup::tape_setup_of, crate::specs::Setup::pad_of))]
pub fn tape_setup_of(singles: &[f32; 8], doubles: &[f64; 4], flags: u64) -> TapeSetup
    ensures { result ≡ tape_setup_of singles.now doubles.now flags }
{
    let tone = tone_of(singles, doubles[0], flags % 2 == 1);
    let swell = Pad {
        hz: singles[4],
        depth: singles[5],
    };
    let pad = (flags / 2 % 2 == 1).then_some(swell);
    TapeSetup {
        tone,
        pad,
        darkened: flags / 4 % 2 == 1,
        input: doubles[1],
        output: doubles[2],
        ducked: flags / 8 % 2 == 1,
    }
}

#[tactic(auto, unfolding(crate::specs::Setup::setup_of))]
pub fn setup_of(singles: &[f32; 8], doubles: &[f64; 4], flags: u64) -> Setup
    ensures { result ≡ setup_of singles.now doubles.now flags }
{
    let tape = tape_setup_of(singles, doubles, flags);
    Setup {
        tape,
        daylight: singles[6],
        rain: singles[7],
        send: doubles[3],
    }
}
