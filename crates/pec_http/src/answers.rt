ghost use Rattle.std.specs.Prelude.{◌≡◌, ◌+◌, ◌≤◌, ◌++◌, ◌∷◌, [], length, codes, decimal, Ok, IfOk, IfErr, vec_len, vec_capacity};
ghost use Rattle.pec_types.specs.Answers.{seen_as};
ghost use Rattle.pec_types.specs.Bytes.{line_feed};
ghost use Rattle.pec_types.specs.Words.{cause_word, id_text};
ghost use Rattle.pec_http.specs.Replies.{fault_reply, shown_reply, stop_reply, submitted_reply};
ghost use Rattle.pec_http.specs.Writing.{IsReply};
ghost use Rattle.pec_http.specs.declared.stops.Stop.TheVariants as stops;
ghost use Rattle.pec_http.specs.declared.statuses.Kind.TheVariants as kinds;
ghost use Rattle.pec_http.specs.declared.statuses.Status.TheVariants as statuses;

use crate::replies::{Reply, composed, put, put_number};
use crate::statuses::{Kind, Status};
use crate::stops::Stop;
use pec_types::{Cause, Moment, MsgId, ProviderFault, Submitted, seven_digits};
use std::alloc::Global;

/// How many bytes an answer's body has at most that says what became of a submission.
pub(crate) const BODY_ROOM: usize = 384;

/// The answer to a request that isn't put to the desk.
pub(crate) fn refused(alloc: Global, stop: Stop) -> Result<Reply, Stop>
    ensures ok { IfOk result (λ reply. IsReply reply (stop_reply stop)) }
    ensures err { IfErr result (λ other. other ≡ stops.NoMemory) }
{
    composed(alloc, status_of(stop), Kind::Plain, line_of(stop))
}

fn status_of(stop: Stop) -> Status
    ensures status { result ≡ (stop_reply stop).status }
    ensures kind { kinds.Plain ≡ (stop_reply stop).kind }
{
    match stop {
        Stop::LargeHead => Status::RequestHeaderFieldsTooLarge,
        Stop::BadHead | Stop::NoPath | Stop::CutBody => Status::BadRequest,
        Stop::NoRoute | Stop::NoAccount => Status::NotFound,
        Stop::OtherMethod => Status::MethodNotAllowed,
        Stop::NoKey => Status::Unauthorized,
        Stop::WrongKey => Status::Forbidden,
        Stop::NoLength => Status::LengthRequired,
        Stop::TooLarge => Status::PayloadTooLarge,
        Stop::NoMemory | Stop::ReadFault => Status::InternalServerError,
    }
}

fn line_of(stop: Stop) -> &'static [u8]
    ensures { result.now ≡ (stop_reply stop).body }
{
    match stop {
        Stop::LargeHead => b"head-too-large\n",
        Stop::BadHead | Stop::NoPath | Stop::CutBody => b"bad-request\n",
        Stop::NoRoute | Stop::NoAccount => b"not-found\n",
        Stop::OtherMethod => b"method\n",
        Stop::NoKey => b"no-key\n",
        Stop::WrongKey => b"wrong-key\n",
        Stop::NoLength => b"length\n",
        Stop::TooLarge => b"too-large\n",
        Stop::NoMemory | Stop::ReadFault => b"no-memory\n",
    }
}

/// The answer with what was asked to be shown, or with the desk's refusal.
pub(crate) fn shown(
    alloc: Global,
    kind: Kind,
    said: Result<Vec<u8>, ProviderFault>,
) -> Result<Reply, Stop>
    ensures ok { IfOk result (λ reply. IsReply reply (shown_reply kind (seen_as (λ bytes. bytes.items) said))) }
    ensures err { IfErr result (λ stop. stop ≡ stops.NoMemory) }
{
    match said {
        Ok(body) => composed(alloc, Status::Ok, kind, &body),
        Err(fault) => faulted(alloc, fault),
    }
}

fn faulted(alloc: Global, fault: ProviderFault) -> Result<Reply, Stop>
    ensures ok { IfOk result (λ reply. IsReply reply (fault_reply fault)) }
    ensures err { IfErr result (λ stop. stop ≡ stops.NoMemory) }
{
    let mut body = Vec::with_capacity(alloc, BODY_ROOM)?;
    let status = put_fault(&mut body, fault);
    composed(alloc, status, Kind::Plain, &body)
}

/// Puts the body of the answer that says what became of a submission at a provider of this first domain, and tells its
/// status. It takes no memory.
pub(crate) fn put_submitted(
    body: &mut Vec<u8>,
    domain: &[u8],
    said: Result<Submitted, ProviderFault>,
) -> Status
    requires empty { body.old.items ≡ [] }
    requires fits { 384 ≤ vec_capacity body.old }
    requires short { length domain.now ≤ 236 }
    ensures status { result ≡ (submitted_reply domain.now said).status }
    ensures kind { kinds.Plain ≡ (submitted_reply domain.now said).kind }
    ensures body { body.new.items ≡ (submitted_reply domain.now said).body }
    ensures len { vec_len body.new ≤ 384 }
{
    match said {
        Ok(submitted) => put_outcome(body, domain, submitted),
        Err(fault) => put_fault(body, fault),
    }
}

fn put_outcome(body: &mut Vec<u8>, domain: &[u8], submitted: Submitted) -> Status
    requires empty { body.old.items ≡ [] }
    requires fits { 384 ≤ vec_capacity body.old }
    requires short { length domain.now ≤ 236 }
    ensures status { result ≡ (submitted_reply domain.now (Ok submitted)).status }
    ensures kind { kinds.Plain ≡ (submitted_reply domain.now (Ok submitted)).kind }
    ensures body { body.new.items ≡ (submitted_reply domain.now (Ok submitted)).body }
    ensures len { vec_len body.new ≤ 384 }
{
    match submitted {
        Submitted::Accepted(id) => put_accepted(body, domain, id),
        Submitted::NotAccepted(id, cause) => put_not_accepted(body, domain, id, cause),
    }
}

fn put_accepted(body: &mut Vec<u8>, domain: &[u8], id: MsgId) -> Status
    requires empty { body.old.items ≡ [] }
    requires fits { 384 ≤ vec_capacity body.old }
    requires short { length domain.now ≤ 236 }
    ensures status { result ≡ statuses.Created }
    ensures items { body.new.items ≡ codes "accepted " ++ id_text domain.now id.number ++ line_feed ∷ [] }
    ensures len { vec_len body.new ≤ 384 }
{
    put(body, b"accepted ");
    put_id(body, domain, id);
    put(body, b"\n");
    Status::Created
}

fn put_not_accepted(body: &mut Vec<u8>, domain: &[u8], id: MsgId, cause: Cause) -> Status
    requires empty { body.old.items ≡ [] }
    requires fits { 384 ≤ vec_capacity body.old }
    requires short { length domain.now ≤ 236 }
    ensures status { result ≡ statuses.UnprocessableEntity }
    ensures items { body.new.items
        ≡ codes "not-accepted " ++ id_text domain.now id.number ++ codes " " ++ cause_word cause ++ line_feed ∷ [] }
    ensures len { vec_len body.new ≤ 384 }
{
    put(body, b"not-accepted ");
    put_id(body, domain, id);
    put(body, b" ");
    put_cause(body, cause);
    put(body, b"\n");
    Status::UnprocessableEntity
}

/// Puts the word of a cause, which has at most 12 bytes.
fn put_cause(body: &mut Vec<u8>, cause: Cause)
    requires { vec_len body.old + 12 ≤ vec_capacity body.old }
    ensures items { body.new.items ≡ body.old.items ++ cause_word cause }
    ensures len { vec_len body.new ≤ vec_len body.old + 12 }
    ensures capacity { vec_capacity body.old ≤ vec_capacity body.new }
{
    put(body, cause.word());
}

/// Puts the name of a message of a provider of this first domain.
#[tactic(auto, unfolding(pec_types::specs::Words::id_text))]
fn put_id(body: &mut Vec<u8>, domain: &[u8], id: MsgId)
    requires fits { vec_len body.old + 12 + length domain.now ≤ vec_capacity body.old }
    ensures items { body.new.items ≡ body.old.items ++ id_text domain.now id.number }
    ensures len { vec_len body.new ≡ vec_len body.old + 12 + length domain.now }
    ensures capacity { vec_capacity body.old ≤ vec_capacity body.new }
{
    put(body, b"pec.");
    put(body, &seven_digits(id.number));
    put(body, b"@");
    put(body, domain);
}

/// Puts the body of a refusal's answer, and tells its status.
pub(crate) fn put_fault(body: &mut Vec<u8>, fault: ProviderFault) -> Status
    requires empty { body.old.items ≡ [] }
    requires fits { 384 ≤ vec_capacity body.old }
    ensures status { result ≡ (fault_reply fault).status }
    ensures kind { kinds.Plain ≡ (fault_reply fault).kind }
    ensures body { body.new.items ≡ (fault_reply fault).body }
    ensures len { vec_len body.new ≤ 384 }
{
    match fault {
        ProviderFault::Down => word(body, Status::ServiceUnavailable, b"down\n"),
        ProviderFault::NoItem | ProviderFault::NoAccount => word(
            body,
            Status::NotFound,
            b"not-found\n",
        ),
        ProviderFault::Full => word(body, Status::InsufficientStorage, b"full\n"),
        ProviderFault::JournalFull => word(body, Status::InsufficientStorage, b"journal-full\n"),
        ProviderFault::DiskFault => word(body, Status::ServiceUnavailable, b"fault disk\n"),
        ProviderFault::NoMemory => word(body, Status::InternalServerError, b"no-memory\n"),
        ProviderFault::OldJournal => word(body, Status::Conflict, b"old-journal\n"),
        ProviderFault::NoNeed => word(body, Status::Conflict, b"no-need\n"),
        ProviderFault::ClockBack(last) => put_clock(body, last),
        ProviderFault::Changed(entry) => put_changed(body, entry),
    }
}

fn put_clock(body: &mut Vec<u8>, last: Moment) -> Status
    requires empty { body.old.items ≡ [] }
    requires fits { 384 ≤ vec_capacity body.old }
    ensures status { result ≡ statuses.Conflict }
    ensures items { body.new.items ≡ codes "clock-back " ++ decimal last ++ line_feed ∷ [] }
    ensures len { vec_len body.new ≤ 384 }
{
    put(body, b"clock-back ");
    put_number(body, last.seconds());
    put(body, b"\n");
    Status::Conflict
}

fn put_changed(body: &mut Vec<u8>, entry: u64) -> Status
    requires empty { body.old.items ≡ [] }
    requires fits { 384 ≤ vec_capacity body.old }
    ensures status { result ≡ statuses.ServiceUnavailable }
    ensures items { body.new.items ≡ codes "changed " ++ decimal entry ++ line_feed ∷ [] }
    ensures len { vec_len body.new ≤ 384 }
{
    put(body, b"changed ");
    put_number(body, entry);
    put(body, b"\n");
    Status::ServiceUnavailable
}

fn word(body: &mut Vec<u8>, status: Status, line: &[u8]) -> Status
    requires fits { vec_len body.old + length line.now ≤ vec_capacity body.old }
    ensures status { result ≡ status }
    ensures items { body.new.items ≡ body.old.items ++ line.now }
    ensures len { vec_len body.new ≡ vec_len body.old + length line.now }
{
    put(body, line);
    status
}
