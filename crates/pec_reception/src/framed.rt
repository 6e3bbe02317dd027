ghost use Rattle.std.specs.Prelude.{◌≡◌, option_map, IfOk, IfSome};
ghost use Rattle.pec_trade.specs.Texts.{unframed_of};
ghost use Rattle.pec_reception.specs.Views.{IsWithin, framed_shown};

use pec_frames::{FrameFault, read_frame};
use pec_types::{Address, NoMemory};
use std::alloc::Global;

/// What stands in a frame: a path, and a message, which is a slice of the frame.
#[derive(Drop)]
pub(crate) struct Framed<'a> {
    pub path: Vec<Address>,
    pub message: &'a [u8],
}

/// What stands in a frame; `None` says that the bytes are no frame.
#[tactic(auto, unfolding(pec_trade::specs::Texts::unframed_of))]
pub(crate) fn unframed<'a>(alloc: Global, frame: &'a [u8]) -> Result<Option<Framed<'a>>, NoMemory>
    ensures framed { IfOk result (λ found. option_map framed_shown found ≡ unframed_of frame.now) }
    ensures within { IfOk result (λ found. IfSome found (λ framed. IsWithin (framed_shown framed))) }
{
    match read_frame(alloc, frame) {
        Ok((path, place)) => Ok(Some(Framed {
            path,
            message: &frame[place..],
        })),
        Err(FrameFault::NoMemory) => Err(NoMemory),
        Err(_) => Ok(None),
    }
}
