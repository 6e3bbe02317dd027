ghost use Rattle.std.specs.Prelude.{◌≡◌, ◌≤◌, true, Bool, Ok, Err, IsOk, IfOk, IfErr, ◌≢◌, length, unwrap_or, []};
ghost use Rattle.std.specs.Option.{option_map};
ghost use Rattle.pec_types.specs.Answers.{OrNoMemory};
ghost use Rattle.pec_types.specs.Bytes.{Bytes};
ghost use Rattle.pec_http_head.specs.Routes.{method_of};
ghost use Rattle.pec_http_head.specs.Views.{request_shown};
ghost use Rattle.pec_http.specs.Asking.{Demands, IsFit, IsNoRead, admitted_of, demand_of, keyed, measured, routed};
ghost use Rattle.pec_http.specs.declared.stops.Stop.TheVariants as stops;

use crate::desk::Desk;
use crate::passes::Pass;
use crate::stops::Stop;
use pec_http_head::{Call, Head, Route};
use pec_types::{Address, Items};
use std::alloc::Global;

/// What an account looks at.
#[derive(Clone, Copy, Debug, PartialEq, Eq)]
pub enum Look {
    Book,
    /// The list of the mailbox.
    Items,
    /// The item at this place of the mailbox, from 0.
    Item(u32),
}

/// What a request's head asks of the desk, in the name of an account whose key it has.
#[derive(Drop)]
pub enum Demand {
    /// To submit a message for this forward path, which follows the head and has so many bytes.
    Submit(Address, Items<Address>, u64),
    Look(Address, Look),
}

/// What the head asks of the desk that these bytes are as a whole.
pub(crate) fn read_demand<K: Desk>(alloc: Global, desk: &K, text: &[u8]) -> Result<Demand, Stop>
    ensures ok { IfOk result (λ demand. Demands (K.answers.pass desk.now) text.now (Ok demand)) }
    ensures err { IfErr result (λ stop. stop ≢ stops.NoMemory → Demands (K.answers.pass desk.now) text.now (Err stop)) }
    ensures fits { IfOk result (IsFit (K.answers.is_account desk.now)) }
    ensures no_read { IfErr result IsNoRead }
{
    let Some(head) = Head::read(alloc, text)? else {
        return Err(Stop::BadHead);
    };
    let demand = head_demand(alloc, desk, &head)?;
    Ok(demand)
}

#[tactic(auto, unfolding(crate::specs::Asking::demand_of))]
fn head_demand<K: Desk>(alloc: Global, desk: &K, head: &Head<'_>) -> Result<Demand, Stop>
    ensures exact { OrNoMemory stops.NoMemory result (demand_of (K.answers.pass desk.now) (request_shown head.now)) }
    ensures fits { IfOk result (IsFit (K.answers.is_account desk.now)) }
    ensures no_read { IfErr result IsNoRead }
{
    let Some(route) = Route::read(alloc, head.target)? else {
        return Err(Stop::NoRoute);
    };
    if head.method != route.call.method() {
        return Err(Stop::OtherMethod);
    }
    let limit = admitted(desk, &route.address, head.key())?;
    match route.call {
        Call::Book => Ok(Demand::Look(route.address, Look::Book)),
        Call::Items => Ok(Demand::Look(route.address, Look::Items)),
        Call::Item(place) => Ok(Demand::Look(route.address, Look::Item(place))),
        Call::Submit => submission(alloc, head, route.address, limit),
    }
}

/// The limit of the account whose key this is, in bytes.
fn admitted<K: Desk>(desk: &K, address: &Address, key: Option<&[u8]>) -> Result<u64, Stop>
    ensures exact { let key = option_map (λ bytes. bytes.now) key.entry in
        result ≡ admitted_of key (K.answers.pass desk.now address.now (unwrap_or key [])) }
    ensures account { IsOk result → K.answers.is_account desk.now address.now ≡ true }
    ensures limit { IfOk result (λ limit. limit ≤ 31457280) }
    ensures no_read { IfErr result IsNoRead }
{
    match (desk.pass(address, key.unwrap_or(&[])), key) {
        (Pass::NoAddress, _) => Err(Stop::NoAccount),
        (_, None) => Err(Stop::NoKey),
        (Pass::WrongKey, Some(_)) => Err(Stop::WrongKey),
        (Pass::Admitted(limit), Some(_)) => Ok(limit),
    }
}

/// The submission of an account whose provider takes messages of at most so many bytes.
fn submission(alloc: Global, head: &Head<'_>, address: Address, limit: u64) -> Result<Demand, Stop>
    ensures exact { OrNoMemory stops.NoMemory result (measured (request_shown head.now) address limit) }
    ensures fits { (account : Bytes → Bool) → account address ≡ true → limit ≤ 31457280 → IfOk result (IsFit account) }
    ensures no_read { IfErr result IsNoRead }
{
    let Some(length) = head.length() else {
        return Err(Stop::NoLength);
    };
    let Some(path) = head.path(alloc)? else {
        return Err(Stop::NoPath);
    };
    if length > limit {
        return Err(Stop::TooLarge);
    }
    Ok(Demand::Submit(address, Items::of(path), length))
}
