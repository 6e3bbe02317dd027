ghost use Rattle.std.specs.Prelude.{◌≡◌, ℕ, ◌+◌, ◌≤◌, ◌++◌, ◌∷◌, length};
ghost use Rattle.pec_types.specs.Bytes.{Bytes};
ghost use Rattle.pec_http_head.specs.Cuts.{Reaches, cut_after, cut_from, cut_of, lines_with, step_of};

use crate::stands::{HEAD_BYTES, HEAD_LINES, Scan, Stand};

/// Where a head ends, as far as is known.
#[derive(Clone, Copy)]
pub enum Cut {
    /// It ends before this place, counted in bytes from the head's first.
    Ends(u32),
    /// It has more bytes or more lines than a head may have.
    TooLarge,
    /// It doesn't end yet.
    GoesOn(Scan),
}

impl Scan {
    /// Nothing came yet.
    pub fn new() -> Scan
        ensures begin { result.at ≡ 0 }
        ensures cut { (text : Bytes) → cut_from result.stand result.lines result.at text ≡ cut_of text }
    {
        Scan {
            stand: Stand::Blank,
            lines: 0,
            at: 0,
        }
    }

    /// The piece that comes next.
    pub fn further(self, piece: &[u8]) -> Cut
        // Where the head ends does not depend on what comes behind its end.
        ensures cut { (more : Bytes) → cut_from self.stand self.lines self.at (piece.now ++ more) ≡ cut_after result more }
        ensures place { Reaches result (self.at + length piece.now) }
    {
        let mut scan = self;
        for b in piece {
            match scan.step(*b) {
                Cut::GoesOn(next) => scan = next,
                found => return found,
            }
        }
        Cut::GoesOn(scan)
    }

    /// The byte that comes next.
    fn step(self, b: u8) -> Cut
        ensures place { Reaches result (self.at + 1) }
        ensures cut { (more : Bytes) → cut_from self.stand self.lines self.at (b ∷ more) ≡ cut_after result more }
    {
        let at = self.at + 1;
        let lines = lines_with(self.stand, self.lines, b);
        let Some(stand) = step(self.stand, b) else {
            return if lines > HEAD_LINES + 1 {
                Cut::TooLarge
            } else {
                Cut::Ends(at)
            };
        };
        if at < HEAD_BYTES {
            Cut::GoesOn(Scan { stand, lines, at })
        } else {
            Cut::TooLarge
        }
    }
}

fn lines_with(stand: Stand, lines: u32, b: u8) -> u32
    requires { lines ≤ 65536 }
    ensures value { result ≡ lines_with stand lines b }
    ensures few { result ≤ lines + 1 }
{
    match stand {
        Stand::InLine if b == b'\n' => lines + 1,
        _ => lines,
    }
}

/// Where the reader stands behind the byte, `None` where the byte ends the head.
fn step(stand: Stand, b: u8) -> Option<Stand>
    ensures { result ≡ step_of stand b }
{
    match (stand, b) {
        (Stand::Blank | Stand::BlankReturn, b'\n') => Some(Stand::Blank),
        (Stand::Blank, b'\r') => Some(Stand::BlankReturn),
        (Stand::InLine, b'\n') => Some(Stand::Begins),
        (Stand::Begins | Stand::BeginsReturn, b'\n') => None,
        (Stand::Begins, b'\r') => Some(Stand::BeginsReturn),
        _ => Some(Stand::InLine),
    }
}
