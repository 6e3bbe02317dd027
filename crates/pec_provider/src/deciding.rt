ghost use Rattle.std.specs.Prelude.{◌≡◌, ℕ, ◌≤◌, false, map, None, Some, if◌then◌else◌};
ghost use Rattle.std.specs.Prelude.{IfErr, IfOk, IfSome, IsErrOf, IsSome, IsTrue, OnErr, OnOk};
ghost use Rattle.pec_types.specs.declared.letters.Letter.TheVariants as letters;
ghost use Rattle.pec_types.specs.declared.turns.ProviderFault.TheVariants as faults;
ghost use Rattle.pec_outside.specs.Flow.{HasRisen};
ghost use Rattle.pec_screen.specs.VerdictReading.{finds};
ghost use Rattle.pec_screen.specs.Verdicts.{counted};
ghost use Rattle.pec_ledger.specs.Lookups.{taken_of};
ghost use Rattle.pec_plays.specs.Decisions.{found_in_taken, undecided};
ghost use Rattle.pec_reception.specs.OfTrades.{world_at};
ghost use Rattle.pec_chronicle.specs.Carrying.{CarriesOn, NothingMay};
ghost use Rattle.pec_chronicle.specs.Chronicle.{Stands};
ghost use Rattle.pec_stock.specs.Stock.{Agree};
ghost use Rattle.pec_reception.specs.Shows.{IsLimited};
ghost use Rattle.pec_provider.specs.Deciding.{IsReady, IsUnready};
ghost use Rattle.pec_provider.specs.Looking.{LooksNext};
ghost use Rattle.pec_provider.specs.Reading.{EnvelopeIsChanged, FindsIn, IsNotOf, OnChanged, ReadsOver};

use crate::composing::{given_up, read};
use pec_chronicle::Chronicle;
use pec_outgoing::original_of;
use pec_outside::Disk;
use pec_reception::{House, Received, a_house_is_a_trade, decide, next};
use pec_screen::Judge;
use pec_seal::Sealer;
use pec_shelf::Shelf;
use pec_stock::stands_still;
use pec_types::{Address, Moment, MsgId, ProviderFault};
use std::alloc::Global;

/// What is to be done with the next pair that was taken and isn't decided: it is decided, by what screens find in the
/// original that was taken, where its recipient is an account. `None` says that there is none.
pub(crate) fn next_decision<D: Disk, S: Sealer, J: Judge>(
    alloc: Global,
    house: &House<'_, S>,
    chronicle: &mut Chronicle<D>,
    shelf: &Shelf,
    moment: Moment,
    screens: &mut J,
) -> Result<Option<Received>, ProviderFault>
    requires up { chronicle.old.down ≡ false }
    requires agree { Agree house.now.directory.now chronicle.old shelf.now }
    requires is { shelf.now.me ≡ house.now.me }
    ensures ready { IfOk result (IsReady (D.tells × Stands D.sight chronicle.old) (world_at house.now)
        house.now.me moment (J.patterns screens.old) chronicle.old.entries) }
    ensures limits { IfOk result (λ next. IfSome next IsLimited) }
    ensures unready { IfErr result (IsUnready (world_at house.now) house.now.me
        (undecided (world_at house.now) house.now.me chronicle.old.entries)) }
    ensures changed { D.tells → Stands D.sight chronicle.old → IfErr result (OnChanged
        (EnvelopeIsChanged (world_at house.now) house.now.me chronicle.old.entries)) }
    ensures looked { LooksNext (world_at house.now) house.now.me
        (undecided (world_at house.now) house.now.me chronicle.old.entries) None
        (J.seen screens.old) (J.seen screens.new) result }
    ensures patterns { J.patterns screens.new ≡ J.patterns screens.old }
    ensures reads { ReadsOver chronicle.old chronicle.new result }
    ensures carries { D.tells → CarriesOn D.sight NothingMay chronicle.old chronicle.new }
    ensures disk_fault { IsErrOf result faults.DiskFault
        → HasRisen (D.faults chronicle.old.disk) (D.faults chronicle.new.disk) }
    ensures later { D.faults chronicle.old.disk ≤ D.faults chronicle.new.disk }
{
    a_house_is_a_trade(house);
    stands_still(chronicle);
    let Some(first) = next(shelf) else {
        return Ok(None);
    };
    let found = found_for(alloc, house, chronicle, shelf, first.0, first.1, screens)?;
    let received = decide(
        alloc,
        house.directory,
        shelf,
        moment,
        first.0,
        first.1,
        found,
    )?;
    Ok(Some(received))
}

/// Whether some screen finds a rule in the original of a message that was taken, for a recipient that is an account.
/// For any other one nothing is read, and no screen looks.
fn found_for<D: Disk, S: Sealer, J: Judge>(
    alloc: Global,
    house: &House<'_, S>,
    chronicle: &mut Chronicle<D>,
    shelf: &Shelf,
    id: MsgId,
    recipient: &Address,
    screens: &mut J,
) -> Result<bool, ProviderFault>
    requires up { chronicle.old.down ≡ false }
    requires agree { Agree house.now.directory.now chronicle.old shelf.now }
    requires is { shelf.now.me ≡ house.now.me }
    requires taken { IsSome (taken_of shelf.now.half id) }
    ensures found { D.tells → Stands D.sight chronicle.old → IfOk result (λ found.
        IsTrue ((world_at house.now).is_account house.now.me recipient.now) → found
        ≡ found_in_taken (world_at house.now) house.now.me (J.patterns screens.old) chronicle.old.entries id) }
    ensures given { IfOk result (λ found. IsTrue ((world_at house.now).is_account house.now.me recipient.now)
        → FindsIn (D.tells × Stands D.sight chronicle.old) (world_at house.now) house.now.me chronicle.old.entries
        (J.patterns screens.old) id found) }
    ensures account { OnErr result (IsTrue ((world_at house.now).is_account house.now.me recipient.now)) }
    ensures changed { D.tells → Stands D.sight chronicle.old → IfErr result (OnChanged
        (IsNotOf (world_at house.now) house.now.me chronicle.old.entries (letters.Charge id house.now.me))) }
    ensures looked { OnOk result (J.seen screens.new ≡ (if (world_at house.now).is_account house.now.me recipient.now
        then map counted (J.seen screens.old) else J.seen screens.old)) }
    ensures still { OnErr result (J.seen screens.new ≡ J.seen screens.old) }
    ensures patterns { J.patterns screens.new ≡ J.patterns screens.old }
    ensures reads { ReadsOver chronicle.old chronicle.new result }
    ensures carries { D.tells → CarriesOn D.sight NothingMay chronicle.old chronicle.new }
    ensures disk_fault { IsErrOf result faults.DiskFault
        → HasRisen (D.faults chronicle.old.disk) (D.faults chronicle.new.disk) }
    ensures later { D.faults chronicle.old.disk ≤ D.faults chronicle.new.disk }
{
    a_house_is_a_trade(house);
    stands_still(chronicle);
    if !house.directory.is_account_of(house.me, recipient) {
        return Ok(false);
    }
    let found = found_in(alloc, house, chronicle, shelf, id, screens)?;
    Ok(found)
}

/// Whether some screen finds a rule in the original of a message that was taken, in the envelope that is read. An entry
/// that holds no envelope of the message is told as changed, and no screen looks.
fn found_in<D: Disk, S: Sealer, J: Judge>(
    alloc: Global,
    house: &House<'_, S>,
    chronicle: &mut Chronicle<D>,
    shelf: &Shelf,
    id: MsgId,
    screens: &mut J,
) -> Result<bool, ProviderFault>
    requires up { chronicle.old.down ≡ false }
    requires agree { Agree house.now.directory.now chronicle.old shelf.now }
    requires is { shelf.now.me ≡ house.now.me }
    requires taken { IsSome (taken_of shelf.now.half id) }
    ensures found { D.tells → Stands D.sight chronicle.old → IfOk result (λ found. found
        ≡ found_in_taken (world_at house.now) house.now.me (J.patterns screens.old) chronicle.old.entries id) }
    // Over any disk they find it in an envelope of the message, which was read.
    ensures given { IfOk result (FindsIn (D.tells × Stands D.sight chronicle.old) (world_at house.now) house.now.me
        chronicle.old.entries (J.patterns screens.old) id) }
    ensures changed { D.tells → Stands D.sight chronicle.old → IfErr result (OnChanged
        (IsNotOf (world_at house.now) house.now.me chronicle.old.entries (letters.Charge id house.now.me))) }
    ensures looked { OnOk result (J.seen screens.new ≡ map counted (J.seen screens.old)) }
    ensures still { OnErr result (J.seen screens.new ≡ J.seen screens.old) }
    ensures patterns { J.patterns screens.new ≡ J.patterns screens.old }
    ensures reads { ReadsOver chronicle.old chronicle.new result }
    ensures carries { D.tells → CarriesOn D.sight NothingMay chronicle.old chronicle.new }
    ensures disk_fault { IsErrOf result faults.DiskFault
        → HasRisen (D.faults chronicle.old.disk) (D.faults chronicle.new.disk) }
    ensures later { D.faults chronicle.old.disk ≤ D.faults chronicle.new.disk }
{
    a_house_is_a_trade(house);
    let number = taken_by(shelf, id);
    let entry = read(alloc, chronicle, shelf, number)?;
    match original_of(alloc, house, shelf, id, &entry) {
        Ok(original) => Ok(some_finds(screens, original)),
        Err(fault) => Err(given_up(chronicle, number, fault)),
    }
}

/// The number of the entry by which a message was taken.
fn taken_by(shelf: &Shelf, id: MsgId) -> u64
    requires { IsSome (taken_of shelf.now.half id) }
    ensures { IfSome (taken_of shelf.now.half id) (λ row. row.entry ≡ result) }
{
    let Some(row) = shelf.taken(id) else {
        unreachable!();
    };
    row.entry()
}

/// Whether some screen finds a rule in a message. Each of them looks once.
#[tactic(auto, unfolding(pec_screen::specs::VerdictReading::finds))]
fn some_finds<J: Judge>(screens: &mut J, message: &[u8]) -> bool
    ensures found { result ≡ finds (J.patterns screens.old) message.now }
    ensures seen { J.seen screens.new ≡ map counted (J.seen screens.old) }
    ensures patterns { J.patterns screens.new ≡ J.patterns screens.old }
{
    screens.judge(message).is_some()
}
