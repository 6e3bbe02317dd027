ghost use Rattle.std.specs.Prelude.{◌≡◌, Ok, option_map, IfOk};
ghost use Rattle.std.specs.Result.{result_ok};
ghost use Rattle.pec_types.specs.Bytes.{Bytes};
ghost use Rattle.pec_directory.specs.Directory.{providers_of};
ghost use Rattle.pec_letter_parts.specs.LettersReading.{headed_of};
ghost use Rattle.pec_letter_parts.specs.Views.{headed_shown};
ghost use Rattle.pec_letters.specs.Seen.{Seen as EnvelopeSeen};
ghost use Rattle.pec_letters.specs.SeenReading.{view as envelope_view};
ghost use Rattle.pec_receipts.specs.SeenReading.{view as receipt_view};
ghost use Rattle.pec_receipts.specs.declared.reading.ReceiptView.{ReceiptView as ReceiptSeen};
ghost use Rattle.pec_reception.specs.declared.sights.Sight.TheVariants as sights;
ghost use Rattle.pec_seal.specs.Seals.{Seals};
ghost use Rattle.pec_trade.specs.Texts.{seen_in};
ghost use Rattle.pec_reception.specs.Views.{sight_of};

use pec_directory::Directory;
use pec_letter_parts::Headed;
use pec_letters::{envelope_in, has_envelope_head};
use pec_receipts::{ReceiptView, read, receipt_in};
use pec_seal::Sealer;
use pec_trade::House;
use pec_types::{LetterFault, MsgId, NoMemory};
use std::alloc::Global;

/// What is seen in a message: the envelope of a message, or a receipt.
#[derive(Drop)]
pub(crate) enum Sight {
    Envelope(MsgId),
    Receipt(ReceiptView),
}

/// What is seen in a message; `None` says that it is no letter at all. Its seal is opened once, unless it has the head
/// of an envelope and is none.
#[tactic(auto, unfolding(pec_trade::specs::Texts::seen_in))]
pub(crate) fn see<S: Sealer>(
    alloc: Global,
    house: &House<'_, S>,
    message: &[u8],
) -> Result<Option<Sight>, NoMemory>
    ensures { IfOk result (λ sight. sight
        ≡ option_map sight_of
        (seen_in (S.seals house.now.sealer.now) (providers_of house.now.directory.now) message.now)) }
{
    let Some(headed) = opened(alloc, house.sealer, message)? else {
        return Ok(None);
    };
    if !has_envelope_head(&headed) {
        let view = stated_behind(alloc, house.directory, headed)?;
        return Ok(receipt(view));
    }
    if let Some(id) = enveloped(alloc, house.directory, headed)? {
        return Ok(Some(Sight::Envelope(id)));
    }
    let view = stated(alloc, house, message)?;
    Ok(receipt(view))
}

/// A message that opens, and its head; `None` says that nothing is seen in it.
fn opened<'a, S: Sealer>(
    alloc: Global,
    sealer: &S,
    message: &'a [u8],
) -> Result<Option<Headed<'a>>, NoMemory>
    ensures { IfOk result (λ found. option_map headed_shown found
        ≡ result_ok (headed_of (S.seals sealer.now) message.now)) }
{
    match Headed::read(alloc, sealer, message) {
        Ok(headed) => Ok(Some(headed)),
        Err(LetterFault::NoMemory) => Err(NoMemory),
        Err(_) => Ok(None),
    }
}

fn receipt(view: Option<ReceiptView>) -> Option<Sight>
    ensures { result ≡ option_map (λ (view : ReceiptSeen). sights.Receipt view) view }
{
    match view {
        Some(view) => Some(Sight::Receipt(view)),
        None => None,
    }
}

/// The message whose envelope a text with this head is.
fn enveloped(
    alloc: Global,
    directory: &Directory,
    headed: Headed<'_>,
) -> Result<Option<MsgId>, NoMemory>
    ensures { (seals : Seals) (text : Bytes) → headed_of seals text ≡ Ok (headed_shown headed.entry)
        → IfOk result (λ found. found ≡ option_map (λ (seen : EnvelopeSeen). seen.id)
        (result_ok (envelope_view seals (providers_of directory.now) text))) }
{
    match envelope_in(alloc, directory, headed) {
        Ok(view) => Ok(Some(view.id)),
        Err(LetterFault::NoMemory) => Err(NoMemory),
        Err(_) => Ok(None),
    }
}

/// What a text with this head says, where it is a receipt.
fn stated_behind(
    alloc: Global,
    directory: &Directory,
    headed: Headed<'_>,
) -> Result<Option<ReceiptView>, NoMemory>
    ensures { (seals : Seals) (text : Bytes) → headed_of seals text ≡ Ok (headed_shown headed.entry)
        → IfOk result (λ found. found ≡ result_ok (receipt_view seals (providers_of directory.now) text)) }
{
    match receipt_in(alloc, directory, headed) {
        Ok(view) => Ok(Some(view)),
        Err(LetterFault::NoMemory) => Err(NoMemory),
        Err(_) => Ok(None),
    }
}

/// What the receipt says that this is.
fn stated<S: Sealer>(
    alloc: Global,
    house: &House<'_, S>,
    message: &[u8],
) -> Result<Option<ReceiptView>, NoMemory>
    ensures { IfOk result (λ found. found
        ≡ result_ok (receipt_view (S.seals house.now.sealer.now) (providers_of house.now.directory.now) message.now)) }
{
    match read(alloc, house.sealer, house.directory, message) {
        Ok(view) => Ok(Some(view)),
        Err(LetterFault::NoMemory) => Err(NoMemory),
        Err(_) => Ok(None),
    }
}
