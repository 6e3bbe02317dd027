ghost use Rattle.std.specs.Prelude.{◌≡◌, ℕ, ◌≤◌, length, Some, None, Option, IfSome};
ghost use Rattle.std.specs.List.{list_any};
ghost use Rattle.pec_types.specs.Address.{is_atom_byte};
ghost use Rattle.pec_types.specs.AddressReading.{step_of, in_label, may_end, stop_at};
ghost use Rattle.pec_types.specs.AddressSteps.{further, LowerAddressesPass};

/// Where in an address a reader stands, before the next byte.
#[derive(Clone, Copy)]
pub enum Stand {
    AtomBegins,
    InAtom,
    LabelBegins,
    /// Behind a letter or digit of a label that has room for so many bytes more.
    BehindLetter(u8),
    /// Behind a hyphen of a label that has room for so many bytes more.
    BehindHyphen(u8),
}

impl Stand {
    /// The stand behind this byte of an address in lower case, and `None` where no such address goes on with it.
    #[tactic(auto, unfolding(crate::specs::AddressSteps::further))]
    pub fn further(self, b: u8) -> Option<Stand>
        ensures { result ≡ further self b }
    {
        if b.is_ascii_uppercase() {
            return None;
        }
        if b == b'@' {
            return match self {
                Stand::InAtom => Some(Stand::LabelBegins),
                _ => None,
            };
        }
        step(self, b)
    }
}

/// The addresses in lower case are what can be gone through byte by byte from where an atom begins, in at most 254
/// bytes.
pub fn lower_addresses_pass()
    ensures { LowerAddressesPass }
{}

/// The place in the part at which it stops being right, `None` where it is right to its end.
pub(crate) fn stop(begin: Stand, part: &[u8]) -> Option<usize>
    ensures stop { result ≡ stop_at begin 0 part.now }
    ensures within { IfSome result (λ at. at ≤ length part.now) }
{
    let mut stand = begin;
    for (at, b) in part.iter().enumerate() {
        let Some(next) = step(stand, *b) else {
            return Some(at);
        };
        stand = next;
    }
    if can_end(stand) {
        None
    } else {
        Some(part.len())
    }
}

fn can_end(stand: Stand) -> bool
    ensures { result ≡ may_end stand }
{
    matches!(stand, Stand::InAtom | Stand::BehindLetter(_))
}

#[tactic(auto, unfolding(crate::specs::AddressReading::step_of))]
fn step(stand: Stand, b: u8) -> Option<Stand>
    ensures { result ≡ step_of stand b }
{
    match stand {
        Stand::AtomBegins => {
            if is_atom(b) {
                Some(Stand::InAtom)
            } else {
                None
            }
        }
        Stand::InAtom => {
            if is_atom(b) {
                return Some(Stand::InAtom);
            }
            if b == b'.' {
                Some(Stand::AtomBegins)
            } else {
                None
            }
        }
        Stand::LabelBegins => {
            if b.is_ascii_alphanumeric() {
                Some(Stand::BehindLetter(62))
            } else {
                None
            }
        }
        Stand::BehindLetter(room) => label_step(room, b, Some(Stand::LabelBegins)),
        Stand::BehindHyphen(room) => label_step(room, b, None),
    }
}

#[tactic(auto, unfolding(crate::specs::AddressReading::in_label))]
fn label_step(room: u8, b: u8, dot: Option<Stand>) -> Option<Stand>
    ensures { result ≡ in_label room b dot }
{
    if b.is_ascii_alphanumeric() {
        return if room > 0 {
            Some(Stand::BehindLetter(room - 1))
        } else {
            None
        };
    }
    if b == b'-' {
        return if room > 1 {
            Some(Stand::BehindHyphen(room - 1))
        } else {
            None
        };
    }
    if b == b'.' { dot } else { None }
}

#[tactic(auto, unfolding(crate::specs::Address::is_atom_byte))]
fn is_atom(b: u8) -> bool
    ensures { result ≡ is_atom_byte b }
{
    b.is_ascii_alphanumeric() || b"!#$%&'*+-/=?^_`{|}~".contains(&b)
}
