ghost use Rattle.std.specs.Prelude.{◌≡◌, ◌↔◌, IsTrue, length};
ghost use Rattle.std.specs.Str.{bytes_eq};

/// Whether a key that was given is this one. Keys of different lengths differ; of the same length all bytes are looked
/// at, also behind the first that differs, so that the time tells nothing of its place.
pub(crate) fn is_same_key(given: &[u8], own: &[u8]) -> bool
    ensures { result ≡ bytes_eq given.now own.now }
{
    if given.len() != own.len() {
        return false;
    }
    are_same(given, own)
}

/// The same, of keys of one length.
fn are_same(given: &[u8], own: &[u8]) -> bool
    requires { length given.now ≡ length own.now }
    ensures { IsTrue result ↔ (given.now ≡ own.now) }
{
    let mut same = true;
    for place in 0..given.len() {
        same &= given[place] == own[place];
    }
    same
}
