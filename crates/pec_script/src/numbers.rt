ghost use Rattle.std.specs.Prelude.{◌≡◌};
ghost use Rattle.pec_script.specs.LinesReading.{moment_of, place_of};

use pec_types::{END_OF_TIME, Moment};
use pec_words::number_below;

/// How many places there may be: the first number that is no `u32`.
const PLACES: u64 = 4_294_967_296;

/// The moment that the text is.
#[tactic(auto, unfolding(crate::specs::LinesReading::moment_of))]
pub(crate) fn moment_of(text: &[u8]) -> Option<Moment>
    ensures { result ≡ moment_of text.now }
{
    let seconds = number_below(text, END_OF_TIME)?;
    Moment::new(seconds)
}

/// The place that the text is.
#[tactic(auto, unfolding(crate::specs::LinesReading::place_of))]
pub(crate) fn place_of(text: &[u8]) -> Option<u32>
    ensures { result ≡ place_of text.now }
{
    let place = number_below(text, PLACES)?;
    Some(place as u32)
}
