ghost use Rattle.std.specs.Prelude.{◌≡◌, ◌≢◌, ◌<◌, ◌≤◌, true, length, IfOk, IfErr, IsErrOf};
ghost use Rattle.pec_outside.specs.Flow.{HasRisen};
ghost use Rattle.pec_http.specs.Replies.{Reply as ReplyShown};
ghost use Rattle.pec_http.specs.Serving.{HasRestedOver, RestsBehind, Shows, StopsFor, Submits};
ghost use Rattle.pec_http.specs.Writing.{Exchanges, IsReply};
ghost use Rattle.pec_http.specs.declared.demands.Look.TheVariants as looks;
ghost use Rattle.pec_http.specs.declared.stops.Stop.TheVariants as stops;

use crate::answers::{BODY_ROOM, put_fault, put_submitted, shown};
use crate::demands::{Demand, Look, read_demand};
use crate::desk::Desk;
use crate::reading::{read_body, read_head};
use crate::replies::{HEAD_ROOM, Reply, composed, put_reply};
use crate::statuses::{Kind, Status};
use crate::stops::Stop;
use pec_outside::Source;
use pec_types::Address;
use std::alloc::Global;

/// Reads one request, puts it to the desk, and tells the answer.
pub(crate) fn exchange<S: Source, K: Desk>(
    alloc: Global,
    connection: &mut S,
    desk: &mut K,
) -> Result<Reply, Stop>
    ensures ok { IfOk result (Exchanges K.answers (S.left connection.old) desk.old desk.new) }
    ensures stop { IfErr result (StopsFor (K.answers.pass desk.old) (S.left connection.old)) }
    ensures same { IfErr result (λ stop. stop ≢ stops.NoMemory → desk.new ≡ desk.old) }
    ensures rested { IfErr result (λ stop. HasRestedOver K.answers (S.left connection.old) desk.old desk.new) }
    ensures kept { S.held connection.new ≡ S.held connection.old }
    ensures later { S.faults connection.old ≤ S.faults connection.new }
    ensures cause { IsErrOf result stops.ReadFault → HasRisen (S.faults connection.old) (S.faults connection.new) }
{
    let mut came = Vec::new(alloc);
    let end = read_head(connection, &mut came)?;
    let demand = read_demand(alloc, desk, &came[..end])?;
    match demand {
        Demand::Look(address, look) => {
            let reply = see(alloc, desk, &address, look)?;
            Ok(reply)
        }
        Demand::Submit(address, path, length) => {
            let until = end + length as usize;
            read_body(connection, &mut came, until)?;
            let reply = submit(alloc, desk, &address, path.as_slice(), &came[end..until])?;
            Ok(reply)
        }
    }
}

/// Puts a look to the desk.
fn see<K: Desk>(alloc: Global, desk: &mut K, address: &Address, look: Look) -> Result<Reply, Stop>
    requires { K.answers.is_account desk.old address.now ≡ true }
    ensures ok { IfOk result (λ reply. (answer : ReplyShown)
        × (Shows K.answers desk.old address.now look desk.new answer) × IsReply reply answer) }
    ensures err { IfErr result (λ stop. stop ≡ stops.NoMemory) }
    ensures rested { IfErr result (λ stop. RestsBehind K.answers desk.old address.now look desk.new) }
{
    match look {
        Look::Book => shown(alloc, Kind::Plain, desk.book(alloc, address)),
        Look::Items => shown(alloc, Kind::Plain, desk.items(alloc, address)),
        Look::Item(place) => {
            let reply = see_item(alloc, desk, address, place)?;
            Ok(reply)
        }
    }
}

/// Puts a look at an item to the desk. All memory of the answer to a refusal is taken before, for a refusal may change
/// the desk.
fn see_item<K: Desk>(
    alloc: Global,
    desk: &mut K,
    address: &Address,
    place: u32,
) -> Result<Reply, Stop>
    requires { K.answers.is_account desk.old address.now ≡ true }
    ensures ok { IfOk result (λ reply. (answer : ReplyShown)
        × (Shows K.answers desk.old address.now (looks.Item place) desk.new answer) × IsReply reply answer) }
    ensures err { IfErr result (λ stop. stop ≡ stops.NoMemory) }
    ensures rested { IfErr result (λ stop. RestsBehind K.answers desk.old address.now (looks.Item place) desk.new) }
{
    let mut line = Vec::with_capacity(alloc, BODY_ROOM)?;
    let mut text = Vec::with_capacity(alloc, HEAD_ROOM + BODY_ROOM)?;
    match desk.item(alloc, address, place) {
        Ok(bytes) => {
            let reply = composed(alloc, Status::Ok, Kind::Message, &bytes)?;
            Ok(reply)
        }
        Err(fault) => {
            let status = put_fault(&mut line, fault);
            put_reply(&mut text, status, Kind::Plain, &line);
            Ok(Reply { status, text })
        }
    }
}

/// Puts a submission to the desk. All memory of the answer is taken before.
fn submit<K: Desk>(
    alloc: Global,
    desk: &mut K,
    address: &Address,
    path: &[Address],
    message: &[u8],
) -> Result<Reply, Stop>
    requires account { K.answers.is_account desk.old address.now ≡ true }
    requires path { (0 < length path.now) × (length path.now ≤ 1000) }
    requires size { length message.now ≤ 50331648 }
    ensures ok { IfOk result (λ reply. (answer : ReplyShown)
        × (Submits K.answers desk.old address.now path.now message.now desk.new answer) × IsReply reply answer) }
    ensures err { IfErr result (λ stop. stop ≡ stops.NoMemory) }
    ensures same { IfErr result (λ stop. desk.new ≡ desk.old) }
{
    let mut body = Vec::with_capacity(alloc, BODY_ROOM)?;
    let mut text = Vec::with_capacity(alloc, HEAD_ROOM + BODY_ROOM)?;
    let said = desk.submit(alloc, address, path, message);
    let status = put_submitted(&mut body, desk.domain(address), said);
    put_reply(&mut text, status, Kind::Plain, &body);
    Ok(Reply { status, text })
}
