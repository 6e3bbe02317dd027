ghost use Rattle.std.specs.Prelude.{◌≡◌, take, drop};
ghost use Rattle.pec_heads.specs.Bytes.{part_of};

/// The bytes from a place up to another, as far as there are any.
#[tactic(auto, unfolding(crate::specs::Bytes::part_of))]
pub(crate) fn part(bytes: &[u8], from: usize, to: usize) -> &[u8]
    ensures { result.now ≡ part_of from to bytes.now }
{
    at_most(behind(bytes, from), to.saturating_sub(from))
}

fn behind(bytes: &[u8], from: usize) -> &[u8]
    ensures { result.now ≡ drop from bytes.now }
{
    if from < bytes.len() {
        &bytes[from..]
    } else {
        &[]
    }
}

/// The first bytes, or all where there aren't more than the limit.
pub(crate) fn at_most(bytes: &[u8], limit: usize) -> &[u8]
    ensures { result.now ≡ take limit bytes.now }
{
    if bytes.len() <= limit {
        bytes
    } else {
        &bytes[..limit]
    }
}
