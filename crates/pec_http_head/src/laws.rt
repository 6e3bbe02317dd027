ghost use Rattle.std.specs.Prelude.{◌≡◌, ◌↔◌, Some};
ghost use Rattle.pec_types.specs.Bytes.{Bytes, Path};
ghost use Rattle.pec_http_head.specs.Cuts.{WholeCut, cut_of};
ghost use Rattle.pec_http_head.specs.HeadEnds.{IsWholeCut};
ghost use Rattle.pec_http_head.specs.Paths.{IsSpacedPath, addresses_in};
ghost use Rattle.pec_http_head.specs.Requests.{IsRequest, Request, Seen, Sees};

use pec_words::{a_path_has_one_reading, a_text_is_cut_in_one_way};

/// A head ends where its lines say: with the first empty line behind one that isn't empty.
pub fn a_head_ends_in_one_place()
    ensures { (text : Bytes) (cut : WholeCut) → (cut_of text ≡ cut) ↔ IsWholeCut text cut }
{}

/// A path with blanks round its addresses is read exactly where it is one.
pub fn a_spaced_path_has_one_reading()
    ensures { (text : Bytes) (path : Path) → (addresses_in text ≡ Some path) ↔ IsSpacedPath text path }
{
    a_path_has_one_reading();
    a_text_is_cut_in_one_way();
}

/// The bytes of a request are seen in one way: they are the head of one request at most, and what is seen of them is
/// one thing.
pub fn a_request_is_seen_in_one_way()
    ensures head { (text : Bytes) (request other : Request) → IsRequest text request → IsRequest text other → request ≡ other }
    ensures seen { (input : Bytes) (seen other : Seen) → Sees input seen → Sees input other → seen ≡ other }
{}
