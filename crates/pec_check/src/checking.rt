ghost use Rattle.std.specs.Prelude.{◌≡◌, true, false, Ok, IfOk};
ghost use Rattle.std.specs.Option.{option_map};
ghost use Rattle.pec_types.specs.Answers.{OrNoMemory, ReadsExactly};
ghost use Rattle.pec_types.specs.Bytes.{Bytes};
ghost use Rattle.pec_types.specs.declared.disputes.LetterFault.TheVariants as faults;
ghost use Rattle.pec_directory.specs.Directory.{providers_of};
ghost use Rattle.pec_seal.specs.Seals.{Seals};
ghost use Rattle.pec_letter_parts.specs.LettersReading.{headed_of};
ghost use Rattle.pec_letter_parts.specs.Views.{headed_shown};
ghost use Rattle.pec_check.specs.Genuine.{IsGenuine, IsRefused, certificate_in, is_for_envelope};
ghost use Rattle.pec_check.specs.GenuineReading.{report_of, said, sealed_rightly};
ghost use Rattle.pec_check.specs.declared.checking.CheckFault.TheVariants as checks;

use crate::laws::a_text_is_one_report;
use crate::reports::{Report, SavedKind};
use crate::sealing::sealer_of;
use pec_bodies::{BodyFault, Parts};
use pec_directory::Directory;
use pec_letter_parts::{Headed, Marking, body_of};
use pec_letters::envelope_in;
use pec_receipts::receipt_in;
use pec_seal::Sealer;
use pec_types::{LetterFault, NoMemory, Text8};
use std::alloc::Global;

/// Why a saved message is no genuine letter, in the order in which the faults are looked for.
#[derive(Clone, Copy, Debug, PartialEq, Eq)]
pub enum CheckFault {
    /// It isn't seen as a letter of the kind that its head says, or memory ran out.
    Letter(LetterFault),
    /// It is a letter, and another provider than this one sealed it, which had to.
    WrongProvider(u32),
}

impl From<LetterFault> for CheckFault {
    ghost from_gives = { λ fault check. check ≡ checks.Letter fault };

    fn from(fault: LetterFault) -> Self {
        CheckFault::Letter(fault)
    }
}

impl From<NoMemory> for CheckFault {
    ghost from_gives = { λ _ check. check ≡ checks.Letter faults.NoMemory };

    fn from(_: NoMemory) -> Self {
        CheckFault::Letter(LetterFault::NoMemory)
    }
}

/// What a saved message says that is a genuine letter of certified mail (RFC 6109, section 3, within this project's
/// profile): a provider of the directory sealed it, it is seen as what its head says, and the right provider sealed it.
/// The fault is `Letter` where it isn't seen so, with the fault of the envelope or the receipt that its head says it
/// is; and then `WrongProvider` where a receipt tells what was decided of a message and another provider had to seal
/// that. Want of memory is `Letter(NoMemory)`. It doesn't say that the letter was ever sent.
pub fn check<S: Sealer>(
    alloc: Global,
    sealer: &S,
    directory: &Directory,
    message: &[u8],
) -> Result<Report, CheckFault>
    ensures reads { ReadsExactly (IsGenuine (S.seals sealer.now) (providers_of directory.now) message.now)
        (IsRefused (S.seals sealer.now) (providers_of directory.now) message.now) (checks.Letter faults.NoMemory) result }
    // The same answer as a function of the bytes, for definitions that build on it.
    ensures exact { OrNoMemory (checks.Letter faults.NoMemory) result
        (report_of (S.seals sealer.now) (providers_of directory.now) message.now) }
{
    a_text_is_one_report::<S>();
    judge(alloc, sealer, directory, message)
}

#[tactic(auto, unfolding(crate::specs::GenuineReading::report_of))]
fn judge<S: Sealer>(
    alloc: Global,
    sealer: &S,
    directory: &Directory,
    message: &[u8],
) -> Result<Report, CheckFault>
    ensures { OrNoMemory (checks.Letter faults.NoMemory) result
        (report_of (S.seals sealer.now) (providers_of directory.now) message.now) }
{
    let headed = Headed::read(alloc, sealer, message)?;
    if is_for_envelope(&headed) {
        return envelope(alloc, directory, headed);
    }
    receipt(alloc, directory, headed)
}

/// Whether a head says that it is an envelope's, whatever else it says.
fn is_for_envelope(headed: &Headed<'_>) -> bool
    ensures { result ≡ is_for_envelope (headed_shown headed.now) }
{
    match headed.head.field(Marking::Transport.name()) {
        Some(value) => value == b"posta-certificata".as_slice(),
        None => false,
    }
}

/// What an envelope with this head says.
fn envelope(alloc: Global, directory: &Directory, headed: Headed<'_>) -> Result<Report, CheckFault>
    ensures { (seals : Seals) (text : Bytes) → headed_of seals text ≡ Ok (headed_shown headed.entry)
        → OrNoMemory (checks.Letter faults.NoMemory) result
        (said seals (providers_of directory.now) text (headed_shown headed.entry) true) }
{
    let by = headed.sealer;
    let cert = certificate(alloc, &headed)?;
    match envelope_in(alloc, directory, headed) {
        Ok(view) => Ok(Report {
            kind: SavedKind::Envelope,
            id: view.id,
            by,
            moment: view.moment,
            recipient: None,
            cert,
        }),
        Err(fault) => Err(CheckFault::Letter(fault)),
    }
}

/// What a receipt, a notice or an acknowledgement with this head says.
fn receipt(alloc: Global, directory: &Directory, headed: Headed<'_>) -> Result<Report, CheckFault>
    ensures { (seals : Seals) (text : Bytes) → headed_of seals text ≡ Ok (headed_shown headed.entry)
        → OrNoMemory (checks.Letter faults.NoMemory) result
        (said seals (providers_of directory.now) text (headed_shown headed.entry) false) }
{
    let cert = certificate(alloc, &headed)?;
    let view = receipt_in(alloc, directory, headed)?;
    let sealer = sealer_of(directory, &view);
    sealed_rightly(
        sealer,
        Report {
            kind: SavedKind::Receipt(view.kind),
            id: view.id,
            by: view.by,
            moment: view.moment,
            recipient: view.recipient,
            cert,
        },
    )
}

/// A report, where the provider that had to seal the letter did.
fn sealed_rightly(sealer: Option<u32>, report: Report) -> Result<Report, CheckFault>
    ensures { result ≡ sealed_rightly sealer report.by report }
{
    match sealer {
        Some(provider) if provider != report.by => Err(CheckFault::WrongProvider(provider)),
        _ => Ok(report),
    }
}

/// The certification text behind a head, if there is one: an acknowledgement has none.
fn certificate(alloc: Global, headed: &Headed<'_>) -> Result<Option<Text8>, NoMemory>
    ensures { IfOk result (λ cert. cert ≡ certificate_in (headed_shown headed.now)) }
{
    if headed.head.field(Marking::Reply.name()).is_some() {
        return Ok(None);
    }
    match Parts::read(alloc, &headed.head, headed.body) {
        Ok(parts) => copied(alloc, body_of(&parts, b"daticert.xml")),
        Err(BodyFault::NoMemory) => Err(NoMemory),
        Err(_) => Ok(None),
    }
}

fn copied(alloc: Global, text: Option<&[u8]>) -> Result<Option<Text8>, NoMemory>
    ensures { IfOk result (λ copy. copy ≡ option_map (λ bytes. bytes.now) text.entry) }
{
    match text {
        Some(text) => Ok(Some(Text8::of(Vec::from_slice(alloc, text)?))),
        None => Ok(None),
    }
}
