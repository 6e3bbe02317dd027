ghost use Rattle.std.specs.Prelude.{◌≡◌, ◌<◌, IfSome};
ghost use Rattle.std.specs.Char.{is_ascii_digit};
ghost use Rattle.std.specs.List.{list_all};
ghost use Rattle.pec_words.specs.NumberSteps.{with_digit, with_digits};
ghost use Rattle.pec_words.specs.Numbers.{below, digits_number, has_zero_in_front, is_digits, number_below};

/// The number that the text is in decimal, with no sign and no zero in front; `None` where it is none below the bound.
/// It takes no memory. This project's profile.
#[tactic(auto, unfolding(crate::specs::Numbers::number_below))]
pub fn number_below(text: &[u8], bound: u64) -> Option<u64>
    ensures value { result ≡ number_below bound text.now }
    ensures below { IfSome result (λ number. number < bound) }
{
    if has_zero_in_front(text) {
        return None;
    }
    let number = digits_number(text)?;
    below(bound, number)
}

/// The number that one or more digits give, with zeros in front or without; `None` where it is 2 ^ 64 or more, or a
/// byte is no digit. It takes no memory. This project's profile.
#[tactic(auto, using(crate::proofs::NumberLemmas::with_digits_is), unfolding(crate::specs::Numbers::digits_number))]
pub fn digits_number(text: &[u8]) -> Option<u64>
    ensures { result ≡ digits_number text.now }
{
    if is_digits(text) { worth(text) } else { None }
}

fn below(bound: u64, number: u64) -> Option<u64>
    ensures value { result ≡ below bound number }
    ensures below { IfSome result (λ number. number < bound) }
{
    if number < bound { Some(number) } else { None }
}

fn has_zero_in_front(text: &[u8]) -> bool
    ensures { result ≡ has_zero_in_front text.now }
{
    match text {
        [] => false,
        [first, rest @ ..] => *first == b'0' && !rest.is_empty(),
    }
}

fn is_digits(text: &[u8]) -> bool
    ensures { result ≡ is_digits text.now }
{
    !text.is_empty() && are_digits(text)
}

fn are_digits(text: &[u8]) -> bool
    ensures { result ≡ list_all is_ascii_digit text.now }
{
    text.iter().all(|digit| digit.is_ascii_digit())
}

fn worth(digits: &[u8]) -> Option<u64>
    ensures { result ≡ with_digits 0 digits.now }
{
    let mut number = 0;
    for digit in digits {
        number = with_digit(number, *digit)?;
    }
    Some(number)
}

fn with_digit(number: u64, digit: u8) -> Option<u64>
    ensures { result ≡ with_digit number digit }
{
    let value = u64::from(digit.saturating_sub(b'0'));
    number.checked_mul(10)?.checked_add(value)
}
