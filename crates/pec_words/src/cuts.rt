ghost use Rattle.std.specs.Prelude.{◌≡◌, ◌+◌, ◌∷◌, ◌<◌, length, position, option_map, IfSome};
ghost use Rattle.std.specs.List.{slice_split};
ghost use Rattle.pec_words.specs.Cuts.{is_at, parts_behind, size_left};

/// What stands before the first separator, and what is behind it, where there is one. It takes no memory.
pub fn cut(text: &[u8], separator: u8) -> (&[u8], Option<&[u8]>)
    ensures parts { slice_split (is_at separator) text.now ≡ result.0.now ∷ parts_behind separator (option_map (λ rest. rest.now) result.1) }
    ensures size { size_left (option_map (λ rest. rest.now) result.1) < length text.now + 1 }
{
    match place(text, separator) {
        Some(at) => (&text[..at], Some(&text[at + 1..])),
        None => (text, None),
    }
}

fn place(text: &[u8], separator: u8) -> Option<usize>
    ensures first { result ≡ position (is_at separator) text.now }
    ensures within { IfSome result (λ at. at < length text.now) }
{
    text.iter().position(|b| *b == separator)
}
