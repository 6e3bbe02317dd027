ghost use Rattle.std.specs.Prelude.{◌≡◌, ℕ, ◌↔◌};
ghost use Rattle.pec_types.specs.Tables.{IsFirst};
ghost use Rattle.pec_points.specs.Reception.{AppliesToFrame, FrameRow, IsReception, frame_rows};
ghost use Rattle.pec_points.specs.ReceptionReading.{fits, is_home, received_else, received_new, reception_of};
ghost use Rattle.pec_points.specs.declared.reception.Arrived.{Arrived as ArrivedShown};
ghost use Rattle.pec_points.specs.declared.reception.Reception.{Reception as ReceptionShown};

use pec_types::Letter;

/// What a provider does with a frame.
#[derive(Clone, Copy, Debug, PartialEq, Eq)]
pub enum Reception {
    /// It takes the message of an envelope.
    Take,
    /// It notes that another provider took charge.
    Charge,
    /// It learns the outcome for one recipient.
    Outcome,
    /// It notes that an outcome arrived.
    Ack,
    /// It had the letter before.
    Repeat,
    /// It places the message as an anomaly with each account in the path that has room.
    Anomaly,
    Drop,
}

/// What a provider sees of a frame: the letter in it, and what was looked up for it. Providers are numbered from 0.
#[derive(Drop)]
pub struct Arrived {
    /// What the message in the frame is, where it is a letter. Whom an envelope is for is told by the path.
    pub letter: Option<Letter>,
    /// The provider that sealed it.
    pub sealer: u32,
    /// The provider of the letter's id.
    pub id_provider: u32,
    /// The provider of the recipient that the letter names, where the directory has one.
    pub recipient_home: Option<u32>,
    /// The frame's path is that of the letter: for an envelope the list of the message's certified recipients here, of
    /// whom there are some; for an outcome the sender, or this provider's receipt address where it tells of a virus; for
    /// a charge or an acknowledgement that receipt address.
    pub path_fits: bool,
    /// For a charge, the message has pairs at the provider that took charge; for an outcome, the pair exists; for an
    /// acknowledgement, the pair is decided here. For an envelope it isn't looked at.
    pub row_there: bool,
    /// The id was taken here, the charge was received, the outcome is known, or the acknowledgement was received.
    pub done: bool,
    /// How many different accounts of this provider stand in the path and have room.
    pub accounts_with_room: u32,
}

/// The law of reception: of each frame one row is the first that applies. So one thing is done with it, which the
/// function `reception_of` says.
pub fn a_frame_has_one_reception()
    ensures some { (me : ℕ) (seen : ArrivedShown) → (row : FrameRow) × IsFirst (AppliesToFrame me seen) frame_rows row }
    ensures one { (me : ℕ) (seen : ArrivedShown) (row other : FrameRow)
        → IsFirst (AppliesToFrame me seen) frame_rows row
        → IsFirst (AppliesToFrame me seen) frame_rows other → row ≡ other }
    ensures function { (me : ℕ) (seen : ArrivedShown) (reception : ReceptionShown)
        → (reception_of me seen ≡ reception) ↔ IsReception me seen reception }
{}

/// What the provider of the number `me` does with a frame (RFC 6109, sections 3.1 to 3.3, within this project's
/// profile). It takes no memory.
pub fn receive(me: u32, seen: &Arrived) -> Reception
    // It is what the first row that applies answers.
    ensures row { IsReception me seen.now result }
    // The same as a function, for definitions that build on it.
    ensures exact { result ≡ reception_of me seen.now }
{
    let Some(letter) = &seen.letter else {
        return anything_else(seen);
    };
    if !fits(me, seen, letter) {
        return anything_else(seen);
    }
    if seen.done {
        return Reception::Repeat;
    }
    first_time(letter)
}

/// The letter is one for this provider, new or not.
fn fits(me: u32, seen: &Arrived, letter: &Letter) -> bool
    ensures { result ≡ fits me seen.now letter.now }
{
    match letter {
        Letter::Envelope { .. } => seen.sealer == seen.id_provider && seen.path_fits,
        Letter::Charge { by, .. } => {
            seen.sealer == *by && seen.id_provider == me && seen.row_there && seen.path_fits
        }
        Letter::Outcome { .. } => {
            is_home(seen.sealer, seen.recipient_home)
                && seen.id_provider == me
                && seen.row_there
                && seen.path_fits
        }
        Letter::Ack { .. } => {
            seen.sealer == seen.id_provider
                && is_home(me, seen.recipient_home)
                && seen.row_there
                && seen.path_fits
        }
    }
}

fn is_home(number: u32, home: Option<u32>) -> bool
    ensures { result ≡ is_home number home }
{
    match home {
        Some(home) => home == number,
        None => false,
    }
}

/// What is done with a letter for this provider that is new.
fn first_time(letter: &Letter) -> Reception
    ensures { result ≡ received_new letter.now }
{
    match letter {
        Letter::Envelope { .. } => Reception::Take,
        Letter::Charge { .. } => Reception::Charge,
        Letter::Outcome { .. } => Reception::Outcome,
        Letter::Ack { .. } => Reception::Ack,
    }
}

/// What is done with a frame that holds no letter for this provider.
fn anything_else(seen: &Arrived) -> Reception
    ensures { result ≡ received_else seen.now }
{
    if seen.accounts_with_room > 0 {
        return Reception::Anomaly;
    }
    Reception::Drop
}
