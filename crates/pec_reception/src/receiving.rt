ghost use Rattle.std.specs.Prelude.{◌≡◌, List, IfOk, IfSome};
ghost use Rattle.pec_directory.specs.Directory.{providers_of};
ghost use Rattle.pec_records.specs.Entry.{IsWithinLimits};
ghost use Rattle.pec_records.specs.declared.entries.Entry.{Entry};
ghost use Rattle.pec_ledger.specs.OfDirectory.{IsOf};
ghost use Rattle.pec_ledger.specs.Steps.{half};
ghost use Rattle.pec_ledger.specs.Trade.{Trade};
ghost use Rattle.pec_plays.specs.Reception.{arrive, by_seen};
ghost use Rattle.pec_trade.specs.Houses.{world_at};
ghost use Rattle.pec_shelf.specs.Seen.{IsFor};
ghost use Rattle.pec_trade.specs.Texts.{seen_in};
ghost use Rattle.pec_reception.specs.Shows.{AreLimited, Answers, Shows};
ghost use Rattle.pec_reception.specs.Views.{IsWithin, framed_shown};

use crate::framed::{Framed, unframed};
use crate::letters::answer;
use crate::others::otherwise;
use crate::received::Received;
use crate::sights::see;
use pec_seal::Sealer;
use pec_shelf::Shelf;
use pec_trade::House;
use pec_types::{Event, Moment, NoMemory};
use std::alloc::Global;

/// What is to be done with one frame at a moment (RFC 6109, sections 3.1 to 3.3, within this project's profile): a
/// letter for this provider is taken in, or told to be a repeat, and is answered; anything else becomes an anomaly of
/// the accounts in its path that have room, or is dropped. The shelf is one of the house's directory. Want of memory is
/// the only error, and changes nothing.
pub fn receive<S: Sealer>(
    alloc: Global,
    house: &House<'_, S>,
    shelf: &Shelf,
    moment: Moment,
    frame: &[u8],
) -> Result<Received, NoMemory>
    requires homes { (trade : Trade) → IsOf house.now.directory.now trade → IsFor trade shelf.now }
    // Whatever journal the half comes from: it is what a provider with this journal does.
    ensures exact { (journal : List Entry) →
        let trade = world_at house.now in
        shelf.now.half ≡ half trade shelf.now.me journal
        → IfOk result (λ received. Shows received (arrive trade shelf.now.me moment journal frame.now)) }
    ensures limits { IfOk result (λ received. IfSome received.entry IsWithinLimits) }
{
    let Some(framed) = unframed(alloc, frame)? else {
        return Ok(Received::passes(Event::Dropped, None));
    };
    if let Some(received) = letter(alloc, house, shelf, moment, &framed)? {
        return Ok(received);
    }
    let received = otherwise(alloc, house.directory, shelf, moment, &framed)?;
    Ok(received)
}

/// What is done with the letter in a frame; `None` says that there is none for this provider.
fn letter<S: Sealer>(
    alloc: Global,
    house: &House<'_, S>,
    shelf: &Shelf,
    moment: Moment,
    framed: &Framed<'_>,
) -> Result<Option<Received>, NoMemory>
    requires homes { (trade : Trade) → IsOf house.now.directory.now trade → IsFor trade shelf.now }
    requires within { IsWithin (framed_shown framed.now) }
    ensures exact { (journal : List Entry) →
        let trade = world_at house.now in
        shelf.now.half ≡ half trade shelf.now.me journal
        → IfOk result (Answers trade shelf.now.me moment journal (framed_shown framed.now)
        (by_seen trade shelf.now.me moment journal (framed_shown framed.now)
        (seen_in (S.seals house.now.sealer.now) (providers_of house.now.directory.now) framed.now.message.now))) }
    ensures limits { IfOk result AreLimited }
{
    let Some(sight) = see(alloc, house, framed.message)? else {
        return Ok(None);
    };
    let found = answer(alloc, house.directory, shelf, moment, framed, &sight)?;
    Ok(found)
}
