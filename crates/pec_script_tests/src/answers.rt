//! Lines of output against lines that were written out by hand.

use crate::printing::{Fault, Printed, Row, first_wrong};
use crate::rows::all_hold;
use pec_script::{Answer, LineFault, Unfit};
use pec_types::{Cause, ItemKind, Kind, Refusal};

static BOOK: &[Row] = &[(
    Printed::Book,
    "pec.0000007@alfa.example bob@beta.example primary 1704186000 1704186001 1704186002 1704186003 delivered \
1704186004\n\
pec.0000007@beta.example bob@beta.example copy 1704186000 1704186001 1704186002 1704186003 virus 1704186004\n\
pec.0000007@alfa.example bob@beta.example primary 1704186000 - - - open\n\
book 3\n",
)];

#[test]
fn a_book_has_a_line_for_each_pair(rt: HostRuntime) {
    all_hold(&rt, first_wrong(rt.alloc(), BOOK));
}

// An item of each kind. Causes of non-acceptance and of delivery errors aren't printed.
static MAILBOXES: &[Row] = &[
    (
        Printed::Mailbox(ItemKind::Envelope),
        "0 envelope - -\n1 envelope pec.0999999@beta.example bob@beta.example\nmailbox 2\n",
    ),
    (
        Printed::Mailbox(ItemKind::Anomaly),
        "0 anomaly - -\n1 anomaly pec.0999999@beta.example bob@beta.example\nmailbox 2\n",
    ),
    (
        Printed::Mailbox(ItemKind::Receipt(Kind::Acceptance)),
        "0 acceptance - -\n1 acceptance pec.0999999@beta.example bob@beta.example\nmailbox 2\n",
    ),
    (
        Printed::Mailbox(ItemKind::Receipt(Kind::NonAcceptance(Cause::Size))),
        "0 non-acceptance - -\n1 non-acceptance pec.0999999@beta.example bob@beta.example\nmailbox 2\n",
    ),
    (
        Printed::Mailbox(ItemKind::Receipt(Kind::Charge)),
        "0 charge - -\n1 charge pec.0999999@beta.example bob@beta.example\nmailbox 2\n",
    ),
    (
        Printed::Mailbox(ItemKind::Receipt(Kind::Delivery)),
        "0 delivery - -\n1 delivery pec.0999999@beta.example bob@beta.example\nmailbox 2\n",
    ),
    (
        Printed::Mailbox(ItemKind::Receipt(Kind::DeliveryError(Refusal::Virus))),
        "0 delivery-error - -\n1 delivery-error pec.0999999@beta.example bob@beta.example\nmailbox 2\n",
    ),
    (
        Printed::Mailbox(ItemKind::Receipt(Kind::VirusFound)),
        "0 virus-found - -\n1 virus-found pec.0999999@beta.example bob@beta.example\nmailbox 2\n",
    ),
    (
        Printed::Mailbox(ItemKind::Receipt(Kind::Warning)),
        "0 warning - -\n1 warning pec.0999999@beta.example bob@beta.example\nmailbox 2\n",
    ),
    (
        Printed::Mailbox(ItemKind::Receipt(Kind::Notice)),
        "0 notice - -\n1 notice pec.0999999@beta.example bob@beta.example\nmailbox 2\n",
    ),
    (
        Printed::Mailbox(ItemKind::Receipt(Kind::LateNotice)),
        "0 late-notice - -\n1 late-notice pec.0999999@beta.example bob@beta.example\nmailbox 2\n",
    ),
    (
        Printed::Mailbox(ItemKind::Receipt(Kind::Ack)),
        "0 ack - -\n1 ack pec.0999999@beta.example bob@beta.example\nmailbox 2\n",
    ),
    (
        Printed::Vault(ItemKind::Envelope),
        "0 envelope - -\n1 envelope pec.0999999@beta.example bob@beta.example\nvault 2\n",
    ),
    (Printed::NoVault, "vault 0\n"),
];

#[test]
fn a_mailbox_has_a_line_for_each_item(rt: HostRuntime) {
    all_hold(&rt, first_wrong(rt.alloc(), MAILBOXES));
}

// What fell due; a mark of nothing has no line.
static MARKS: &[Row] = &[
    (
        Printed::Marks,
        "warned pec.0000000@alfa.example bob@beta.example\n\
noticed pec.0000000@alfa.example bob@beta.example\n\
noticed-late pec.0000000@alfa.example bob@beta.example\n\
ticked\n",
    ),
    (Printed::NoMark, "ticked\n"),
];

#[test]
fn a_clock_call_has_a_line_for_each_notice(rt: HostRuntime) {
    all_hold(&rt, first_wrong(rt.alloc(), MARKS));
}

// The lines of a round in which the first provider did one thing.
static EVENTS: &[Row] = &[
    (
        Printed::Event(0),
        "alfa took pec.0000000@alfa.example\nround\n",
    ),
    (
        Printed::Event(1),
        "alfa charged pec.0000000@alfa.example beta\nround\n",
    ),
    (
        Printed::Event(2),
        "alfa repeat envelope pec.0000001@beta.example\nround\n",
    ),
    (
        Printed::Event(3),
        "alfa repeat charge pec.0000000@alfa.example\nround\n",
    ),
    (Printed::Event(4), "alfa anomaly 4294967295\nround\n"),
    (Printed::Event(5), "alfa dropped\nround\n"),
    (
        Printed::Event(6),
        "alfa learned pec.0000000@alfa.example bob@beta.example delivered\nround\n",
    ),
    (
        Printed::Event(7),
        "alfa learned pec.0000000@alfa.example bob@beta.example no-mailbox\nround\n",
    ),
    (
        Printed::Event(8),
        "alfa learned pec.0000000@alfa.example bob@beta.example mailbox-full\nround\n",
    ),
    (
        Printed::Event(9),
        "alfa acked pec.0000001@beta.example bob@beta.example\nround\n",
    ),
    (
        Printed::Event(10),
        "alfa repeat outcome pec.0000001@beta.example bob@beta.example\nround\n",
    ),
    (
        Printed::Event(11),
        "alfa repeat ack pec.0000000@alfa.example bob@beta.example\nround\n",
    ),
    (
        Printed::Event(12),
        "alfa decided pec.0000001@beta.example bob@beta.example virus\nround\n",
    ),
];

#[test]
fn a_turn_has_a_line_for_each_event(rt: HostRuntime) {
    all_hold(&rt, first_wrong(rt.alloc(), EVENTS));
}

// How many frames were put to the first provider, how the turn ended, and the lines of the round.
static TURNS: &[Row] = &[
    (Printed::Turn(0, None), "round\n"),
    (Printed::Turn(1, None), "beta sent alfa 1\nround\n"),
    (
        Printed::Turn(4_294_967_295, Some(Fault::Down)),
        "beta sent alfa 4294967295\nbeta down\nround\n",
    ),
    (
        Printed::Turn(0, Some(Fault::JournalFull)),
        "beta journal-full\nround\n",
    ),
    (
        Printed::Turn(0, Some(Fault::DiskFault)),
        "beta fault disk\nround\n",
    ),
    (
        Printed::Turn(0, Some(Fault::Changed(18_446_744_073_709_551_615))),
        "beta changed 18446744073709551615\nround\n",
    ),
    (
        Printed::Turn(2, Some(Fault::NoMemory)),
        "beta sent alfa 2\nround\n",
    ),
];

#[test]
fn a_turn_ends_with_what_it_sent(rt: HostRuntime) {
    all_hold(&rt, first_wrong(rt.alloc(), TURNS));
}

// Want of memory has no line.
static REFUSALS: &[Row] = &[
    (Printed::Refusal(Fault::DiskFault), "fault disk\n"),
    (Printed::Refusal(Fault::Down), "down\n"),
    (Printed::Refusal(Fault::NoAccount), "no-account\n"),
    (Printed::Refusal(Fault::Full), "full\n"),
    (Printed::Refusal(Fault::NoItem), "no-item\n"),
    (Printed::Refusal(Fault::JournalFull), "journal-full\n"),
    (Printed::Refusal(Fault::OldJournal), "old-journal\n"),
    (Printed::Refusal(Fault::NoNeed), "no-need\n"),
    (
        Printed::Refusal(Fault::Changed(18_446_744_073_709_551_615)),
        "changed 18446744073709551615\n",
    ),
    (Printed::Refusal(Fault::NoMemory), ""),
    (Printed::Refusal(Fault::Changed(0)), "changed 0\n"),
    (Printed::ClockBack(4_102_444_799), "clock-back 4102444799\n"),
];

#[test]
fn a_refusal_has_its_line(rt: HostRuntime) {
    all_hold(&rt, first_wrong(rt.alloc(), REFUSALS));
}

static ANSWERS: &[Row] = &[
    (Printed::Answer(Answer::Lost), "lost\n"),
    (Printed::Answer(Answer::Repeated), "repeated\n"),
    (Printed::Answer(Answer::Swapped), "swapped\n"),
    (Printed::Answer(Answer::Injected), "injected\n"),
    (Printed::Answer(Answer::Crashed), "crashed\n"),
    (Printed::Answer(Answer::Archived), "archived\n"),
    (Printed::Answer(Answer::Upgraded), "upgraded\n"),
    (Printed::Answer(Answer::Screened), "screened\n"),
    (Printed::Answer(Answer::NoSpare), "no-spare\n"),
    (Printed::Answer(Answer::NoScreen), "no-screen\n"),
    (Printed::Answer(Answer::Restarted(0)), "restarted 0\n"),
    (Printed::Answer(Answer::NoFrame), "no-frame\n"),
    (Printed::Answer(Answer::LinkFull), "link-full\n"),
    (Printed::Answer(Answer::Up), "up\n"),
    (
        Printed::Answer(Answer::BadJournal(Unfit::Journal(40))),
        "bad-journal journal 40\n",
    ),
    (
        Printed::Answer(Answer::BadJournal(Unfit::Directory([0x0a; 32], [0xf0; 32]))),
        "bad-journal directory 0a0a0a0a0a0a0a0a0a0a0a0a0a0a0a0a0a0a0a0a0a0a0a0a0a0a0a0a0a0a0a0a \
f0f0f0f0f0f0f0f0f0f0f0f0f0f0f0f0f0f0f0f0f0f0f0f0f0f0f0f0f0f0f0f0\n",
    ),
    (
        Printed::Answer(Answer::BadJournal(Unfit::Entry(18_446_744_073_709_551_615))),
        "bad-journal entry 18446744073709551615\n",
    ),
    (
        Printed::Fault(18_446_744_073_709_551_615, LineFault::BadNumber(255)),
        "refused line 18446744073709551615 bad-number 255\n",
    ),
    (Printed::Fault(1, LineFault::NoMemory), ""),
    (Printed::Item, "U2FsdmU=\n"),
];

#[test]
fn an_answer_has_its_line(rt: HostRuntime) {
    all_hold(&rt, first_wrong(rt.alloc(), ANSWERS));
}

static SUBMISSIONS: &[Row] = &[
    (
        Printed::Submitted(None),
        "accepted pec.0000012@beta.example\n",
    ),
    (
        Printed::Submitted(Some(Cause::Head)),
        "not-accepted pec.0000012@beta.example head\n",
    ),
    (
        Printed::Submitted(Some(Cause::From)),
        "not-accepted pec.0000012@beta.example from\n",
    ),
    (
        Printed::Submitted(Some(Cause::To)),
        "not-accepted pec.0000012@beta.example to\n",
    ),
    (
        Printed::Submitted(Some(Cause::ReversePath)),
        "not-accepted pec.0000012@beta.example reverse-path\n",
    ),
    (
        Printed::Submitted(Some(Cause::ForwardPath)),
        "not-accepted pec.0000012@beta.example forward-path\n",
    ),
    (
        Printed::Submitted(Some(Cause::Bcc)),
        "not-accepted pec.0000012@beta.example bcc\n",
    ),
    (
        Printed::Submitted(Some(Cause::Size)),
        "not-accepted pec.0000012@beta.example size\n",
    ),
    (
        Printed::Submitted(Some(Cause::Virus)),
        "not-accepted pec.0000012@beta.example virus\n",
    ),
];

#[test]
fn a_submission_has_its_line(rt: HostRuntime) {
    all_hold(&rt, first_wrong(rt.alloc(), SUBMISSIONS));
}
