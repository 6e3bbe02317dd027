//! The directory of the tests, and values whose lines they know.

use pec_directory::Directory;
use pec_trial::two_with_due;
use pec_types::{
    Address, BookLine, Class, Decision, Due, Event, ItemKind, ItemLine, Items, Letter, Mark,
    Moment, MsgId, ProviderFault, Refusal, Turn,
};
use std::alloc::Global;

/// The providers alfa, which has a second domain, and beta.
pub fn directory(alloc: Global) -> Option<Directory> {
    let text = two_with_due(alloc).ok()?;
    Directory::read(alloc, text.as_str()).ok()
}

fn bob(alloc: Global) -> Option<Address> {
    Address::read(alloc, b"bob@beta.example").ok()
}

/// The line of a book of a pair that is open, with no moment but that of its acceptance.
pub fn open_line(alloc: Global, provider: u32, class: Class) -> Option<BookLine> {
    let accepted = Moment::new(1_704_186_000)?;
    let recipient = bob(alloc)?;
    let id = MsgId {
        provider,
        number: 7,
    };
    Some(BookLine {
        id,
        recipient,
        class,
        accepted,
        charged: None,
        warned: None,
        noticed: None,
        outcome: None,
    })
}

/// The line of a book of a pair that was decided, with each of the moments before it.
pub fn decided_line(
    alloc: Global,
    provider: u32,
    class: Class,
    decision: Decision,
) -> Option<BookLine> {
    let decided = Moment::new(1_704_186_004)?;
    let mut line = open_line(alloc, provider, class)?;
    line.charged = Moment::new(1_704_186_001);
    line.warned = Moment::new(1_704_186_002);
    line.noticed = Moment::new(1_704_186_003);
    line.outcome = Some((decision, decided));
    Some(line)
}

/// A line of a mailbox that names nothing.
pub fn nameless_item(kind: ItemKind) -> ItemLine {
    ItemLine {
        kind,
        id: None,
        recipient: None,
    }
}

/// A line of a mailbox that names the last message of the second provider and a recipient.
pub fn named_item(alloc: Global, kind: ItemKind) -> Option<ItemLine> {
    let recipient = bob(alloc)?;
    let id = MsgId {
        provider: 1,
        number: 999_999,
    };
    Some(ItemLine {
        kind,
        id: Some(id),
        recipient: Some(recipient),
    })
}

const FIRST: MsgId = MsgId {
    provider: 0,
    number: 0,
};

const SECOND: MsgId = MsgId {
    provider: 1,
    number: 1,
};

/// A mark of the first message of the first provider.
pub fn mark(alloc: Global, due: Due) -> Option<Mark> {
    let recipient = bob(alloc)?;
    Some(Mark {
        id: FIRST,
        recipient,
        due,
    })
}

/// The event of this number, of the first two providers.
pub fn event(alloc: Global, number: u32) -> Option<Event> {
    match number {
        0 => Some(Event::Took(FIRST)),
        1 => Some(Event::Charged(FIRST, 1)),
        2 => Some(Event::Repeat(Letter::Envelope { id: SECOND, to: 0 })),
        3 => Some(Event::Repeat(Letter::Charge { id: FIRST, by: 1 })),
        4 => Some(Event::Anomaly(4_294_967_295)),
        5 => Some(Event::Dropped),
        _ => {
            let recipient = bob(alloc)?;
            Some(event_naming(recipient, number))
        }
    }
}

/// The event of this number, from 6, which names a recipient.
fn event_naming(recipient: Address, number: u32) -> Event {
    let id = SECOND;
    match number {
        6 => Event::Learned(FIRST, recipient, Decision::Placed),
        7 => Event::Learned(FIRST, recipient, Decision::Refused(Refusal::NoMailbox)),
        8 => Event::Learned(FIRST, recipient, Decision::Refused(Refusal::MailboxFull)),
        9 => Event::Acked(id, recipient),
        10 => Event::Repeat(Letter::Outcome { id, recipient }),
        11 => Event::Repeat(Letter::Ack {
            id: FIRST,
            recipient,
        }),
        _ => Event::Decided(id, recipient, Decision::Refused(Refusal::Virus)),
    }
}

/// A turn of the first provider with this event alone. Where memory is wanting it lacks the event.
pub fn turn_with(alloc: Global, event: Event) -> Turn {
    let mut events = Vec::new(alloc);
    let _ = events.push(event);
    Turn {
        provider: 0,
        events: Items::of(events),
        sent: Items::of(Vec::new(alloc)),
        ended: None,
    }
}

/// A turn of the second provider without events, which put so many frames to the first and ended so. Where memory is
/// wanting it put none.
pub fn turn_sending(alloc: Global, frames: u32, ended: Option<ProviderFault>) -> Turn {
    let mut sent = Vec::new(alloc);
    let _ = sent.push((0, frames));
    Turn {
        provider: 1,
        events: Items::of(Vec::new(alloc)),
        sent: Items::of(sent),
        ended,
    }
}
