ghost use Rattle.std.specs.Prelude.{◌≡◌, ◌++◌, ◌∷◌, [], ◌<◌, codes, length, map, take, IfOk, MatchOption};
ghost use Rattle.std.specs.List.{flat_map, AllByRecursion};
ghost use Rattle.pec_types.specs.Address.{IsLowerAddress};
ghost use Rattle.pec_cert.specs.Certificate.{address, clock, addressee, addressees_from, delivered_from, received_from, before_recipients, before_shown, before_delivered, before_received, values};
ghost use Rattle.pec_cert.specs.Checking.{Checked, HasValues, Says};
ghost use Rattle.pec_cert.specs.Lines.{front_text, Fits};
ghost use Rattle.pec_cert.specs.Markup.{opening};
ghost use Rattle.pec_cert.specs.Shown.{HasDigits, IsShown};
ghost use Rattle.pec_cert.specs.declared.certificates.CertRecipient.{CertRecipient};

use crate::certificates::{CertData, CertRecipient};
use crate::dates::stamp_of;
use crate::faults::CertFault;
use crate::lines::Lines;
use crate::places::{delivered_place, received_place, recipient_place, sender_place, shown_place};
use crate::stamps::Stamp;
use pec_types::{Address, Items, NoMemory, an_address_is_told_exactly};
use std::alloc::Global;

/// The values of lines that may be wrong, read.
#[derive(Drop)]
pub(crate) struct Values {
    sender: Address,
    recipients: Items<CertRecipient>,
    stamp: Stamp,
    delivered: Option<Address>,
    received: Items<Address>,
}

/// What the lines say, or the fault of the first value in them that is wrong.
pub(crate) fn cert_from_lines(alloc: Global, lines: Lines) -> Result<CertData, CertFault>
    requires { Fits lines }
    ensures { Checked (values lines) (λ cert. Says lines cert) result }
{
    let found = values_in(alloc, &lines)?;
    Ok(CertData {
        kind: lines.kind,
        error: lines.error,
        sender: found.sender,
        recipients: found.recipients,
        reply: lines.reply,
        subject: lines.subject,
        provider: lines.provider,
        stamp: found.stamp,
        id: lines.id,
        reference: lines.reference,
        wish: lines.wish,
        delivered: found.delivered,
        received: found.received,
        detail: lines.detail,
    })
}

fn values_in(alloc: Global, lines: &Lines) -> Result<Values, CertFault>
    requires { HasDigits lines.now.shown }
    ensures { Checked (values lines.now) (λ found. HasValues lines.now found) result }
{
    let sender = sender_of(alloc, lines)?;
    let recipients = recipients_of(alloc, lines)?;
    let stamp = stamp_in(alloc, lines)?;
    let delivered = delivered_of(alloc, lines)?;
    let received = received_of(alloc, lines)?;
    Ok(Values {
        sender,
        recipients,
        stamp,
        delivered,
        received,
    })
}

fn sender_of(alloc: Global, lines: &Lines) -> Result<Address, CertFault>
    ensures { Checked ((front_text lines.now.kind lines.now.error ++ opening (codes "mittente"), address lines.now.sender)
        ∷ []) (λ sender. sender ≡ lines.now.sender) result }
{
    match lower_address(alloc, lines.sender.bytes())? {
        Some(sender) => Ok(sender),
        None => Err(CertFault::BadAddress(sender_place(alloc, lines)?)),
    }
}

fn recipients_of(alloc: Global, lines: &Lines) -> Result<Items<CertRecipient>, CertFault>
    ensures { Checked (addressees_from (before_recipients lines.now) lines.now.recipients)
        (λ recipients. map addressee recipients ≡ lines.now.recipients) result }
{
    let mut all = Vec::new(alloc);
    for (i, r) in lines.recipients.as_slice().iter().enumerate() {
        let Some(address) = lower_address(alloc, r.address.bytes())? else {
            return Err(CertFault::BadAddress(recipient_place(alloc, lines, i, r.certified)?));
        };
        all.push(CertRecipient {
            address,
            certified: r.certified,
        })?;
    }
    Ok(Items::of(all))
}

fn stamp_in(alloc: Global, lines: &Lines) -> Result<Stamp, CertFault>
    requires { HasDigits lines.now.shown }
    ensures { Checked ((before_shown lines.now ++ codes "<data zona=\"", clock lines.now.shown)
        ∷ []) (λ stamp. IsShown lines.now.shown stamp) result }
{
    match stamp_of(lines.shown) {
        Ok(stamp) => Ok(stamp),
        Err(part) => Err(CertFault::BadDate(shown_place(alloc, lines, part)?)),
    }
}

fn delivered_of(alloc: Global, lines: &Lines) -> Result<Option<Address>, CertFault>
    requires { HasDigits lines.now.shown }
    ensures { Checked (delivered_from (before_delivered lines.now) lines.now.delivered)
        (λ delivered. delivered ≡ lines.now.delivered) result }
{
    let Some(text) = &lines.delivered else {
        return Ok(None);
    };
    match lower_address(alloc, text.bytes())? {
        Some(delivered) => Ok(Some(delivered)),
        None => Err(CertFault::BadAddress(delivered_place(alloc, lines)?)),
    }
}

fn received_of(alloc: Global, lines: &Lines) -> Result<Items<Address>, CertFault>
    requires { HasDigits lines.now.shown }
    ensures { Checked (received_from (before_received lines.now) lines.now.received)
        (λ received. received ≡ lines.now.received) result }
{
    let mut all = Vec::new(alloc);
    for (i, text) in lines.received.as_slice().iter().enumerate() {
        let Some(address) = lower_address(alloc, text.bytes())? else {
            return Err(CertFault::BadAddress(received_place(alloc, lines, i)?));
        };
        all.push(address)?;
    }
    Ok(Items::of(all))
}

// The address that these bytes are, if they are one in lower case.
pub(crate) fn lower_address(alloc: Global, bytes: &[u8]) -> Result<Option<Address>, NoMemory>
    ensures { IfOk result (λ found. MatchOption found (IsLowerAddress bytes.now → ⊥)
        (λ found. (found ≡ bytes.now) × IsLowerAddress bytes.now)) }
{
    an_address_is_told_exactly();
    let Some(address) = Address::find(alloc, bytes)? else {
        return Ok(None);
    };
    if address.bytes() != bytes {
        return Ok(None);
    }
    Ok(Some(address))
}
