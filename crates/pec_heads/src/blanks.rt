ghost use Rattle.std.specs.Prelude.{◌≡◌, false};
ghost use Rattle.pec_types.specs.Bytes.{Bytes};
ghost use Rattle.pec_heads.specs.Bytes.{IsTrimmed, begins_blank, cut_blanks, ends_blank, skip_blanks, trimmed};
ghost use Rattle.pec_heads.specs.Lists.{is_all_blank};

/// The law of cutting: what is left stands between blanks and has none at its ends, and nothing else does.
pub fn blanks_are_cut_at_both_ends()
    ensures cut { (bytes : Bytes) → IsTrimmed bytes (trimmed bytes) }
    ensures only { (bytes value : Bytes) → IsTrimmed bytes value → trimmed bytes ≡ value }
    ensures kept { (value : Bytes) → begins_blank value ≡ false → ends_blank value ≡ false → trimmed value ≡ value }
{}

/// The bytes without the spaces and tabs (RFC 5322, section 2.2.2) at both ends. It takes no memory.
#[tactic(auto, unfolding(crate::specs::Bytes::trimmed))]
pub fn trim(bytes: &[u8]) -> &[u8]
    ensures { result.now ≡ trimmed bytes.now }
{
    trim_end(trim_start(bytes))
}

fn trim_start(bytes: &[u8]) -> &[u8]
    ensures { result.now ≡ skip_blanks bytes.now }
{
    let mut rest = bytes;
    while let [b' ' | b'\t', behind @ ..] = rest {
        rest = behind;
    }
    rest
}

#[tactic(auto, using(crate::proofs::BlankLemmas::cut_one, crate::proofs::BlankLemmas::cut_none))]
pub(crate) fn trim_end(bytes: &[u8]) -> &[u8]
    ensures { result.now ≡ cut_blanks bytes.now }
{
    let mut rest = bytes;
    while let Some((last, front)) = rest.split_last() {
        if *last != b' ' && *last != b'\t' {
            return rest;
        }
        rest = front;
    }
    rest
}

/// Whether there are only spaces and tabs (RFC 5322, section 2.2.2). It takes no memory.
pub fn is_all_blank(value: &[u8]) -> bool
    ensures { result ≡ is_all_blank value.now }
{
    value.iter().all(|b| *b == b' ' || *b == b'\t')
}
