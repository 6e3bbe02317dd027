//! Reception: in single rows, and over every combination of what a provider can see, against the rows as data.

use crate::reception::Change::{Again, Astray, ForOneAt, Nothing, Of, SealedBy, Unknown, WithRoom};
use crate::rows::holds_at;
use pec_points::{Arrived, Reception, receive};
use pec_types::{Address, Letter, MsgId};
use std::alloc::Global;

/// The provider that receives. The others are 1 and 2.
const ME: u32 = 0;

/// What stands in a frame.
#[derive(Clone, Copy)]
enum Kind {
    Envelope,
    Charge,
    Outcome,
    Ack,
    Other,
}

/// What is seen of a frame, in words that can be counted through. A charge is always that of provider 1.
#[derive(Clone, Copy)]
struct Seen {
    kind: Kind,
    sealer: u32,
    id_provider: u32,
    home: Option<u32>,
    path: bool,
    row: bool,
    done: bool,
    rooms: u32,
}

/// The letter of a kind, if it is one; none at all where memory is wanting. All of them name the same message, and the
/// charge is that of provider 1.
fn letter_of(alloc: Global, kind: Kind) -> Option<Option<Letter>> {
    let id = MsgId {
        provider: ME,
        number: 7,
    };
    let recipient = Address::read(alloc, b"b@b").ok()?;
    Some(match kind {
        Kind::Envelope => Some(Letter::Envelope { id, to: ME }),
        Kind::Charge => Some(Letter::Charge { id, by: 1 }),
        Kind::Outcome => Some(Letter::Outcome { id, recipient }),
        Kind::Ack => Some(Letter::Ack { id, recipient }),
        Kind::Other => None,
    })
}

/// What is done with the frame.
fn reception_of(alloc: Global, seen: Seen) -> Option<Reception> {
    let letter = letter_of(alloc, seen.kind)?;
    let arrived = Arrived {
        letter,
        sealer: seen.sealer,
        id_provider: seen.id_provider,
        recipient_home: seen.home,
        path_fits: seen.path,
        row_there: seen.row,
        done: seen.done,
        accounts_with_room: seen.rooms,
    };
    Some(receive(ME, &arrived))
}

/// Who has to have sealed the letter.
#[derive(Clone, Copy)]
enum Sealer {
    Id,
    Charger,
    Home,
}

/// What has to be this provider's own.
#[derive(Clone, Copy)]
enum Own {
    Any,
    Id,
    Home,
}

/// Rows 2 to 9 as data, two for each kind: who has to have sealed the letter, what has to be this provider's own, and
/// what is done where it is new. Where it was received before it is a repeat.
fn row_of(kind: Kind) -> Option<(Sealer, Own, Reception)> {
    match kind {
        Kind::Envelope => Some((Sealer::Id, Own::Any, Reception::Take)),
        Kind::Charge => Some((Sealer::Charger, Own::Id, Reception::Charge)),
        Kind::Outcome => Some((Sealer::Home, Own::Id, Reception::Outcome)),
        Kind::Ack => Some((Sealer::Id, Own::Home, Reception::Ack)),
        Kind::Other => None,
    }
}

/// The provider that has to have sealed the letter, where there is one.
fn wanted(sealer: Sealer, seen: Seen) -> Option<u32> {
    match sealer {
        Sealer::Id => Some(seen.id_provider),
        Sealer::Charger => Some(1),
        Sealer::Home => seen.home,
    }
}

/// What has to be this provider's own is.
fn is_own(own: Own, seen: Seen) -> bool {
    match own {
        Own::Any => true,
        Own::Id => seen.id_provider == ME,
        Own::Home => seen.home == Some(ME),
    }
}

/// What rows 10 and 11 answer on anything else.
fn otherwise(seen: Seen) -> Reception {
    if seen.rooms > 0 {
        Reception::Anomaly
    } else {
        Reception::Drop
    }
}

/// What the rows as data answer.
fn by_rows(seen: Seen) -> Reception {
    let Some((sealer, own, new)) = row_of(seen.kind) else {
        return otherwise(seen);
    };
    if wanted(sealer, seen) != Some(seen.sealer) {
        return otherwise(seen);
    }
    if !is_own(own, seen) {
        return otherwise(seen);
    }
    if !seen.path {
        return otherwise(seen);
    }
    if !is_there(seen) {
        return otherwise(seen);
    }
    if seen.done { Reception::Repeat } else { new }
}

/// What the letter speaks of is there; of an envelope nothing need be.
fn is_there(seen: Seen) -> bool {
    match seen.kind {
        Kind::Envelope => true,
        _ => seen.row,
    }
}

/// How many combinations there are: letters, sealers, providers of ids, homes, paths, rows, done or not, rooms.
const COMBINATIONS: u32 = 5 * 3 * 3 * 4 * 2 * 2 * 2 * 3;

/// The combination of a number.
fn combination(number: u32) -> Seen {
    let kind = match number % 5 {
        0 => Kind::Envelope,
        1 => Kind::Charge,
        2 => Kind::Outcome,
        3 => Kind::Ack,
        _ => Kind::Other,
    };
    let homes = number / 45 % 4;
    Seen {
        kind,
        sealer: number / 5 % 3,
        id_provider: number / 15 % 3,
        home: homes.checked_sub(1),
        path: number / 180 % 2 == 1,
        row: number / 360 % 2 == 1,
        done: number / 720 % 2 == 1,
        rooms: number / 1440 % 3,
    }
}

#[test]
fn every_combination_is_received_by_the_rows(rt: HostRuntime) {
    for number in 0..COMBINATIONS {
        holds_at(
            &rt,
            is_received_by_rows(rt.alloc(), number),
            u64::from(number),
        );
    }
}

fn is_received_by_rows(alloc: Global, number: u32) -> bool {
    let seen = combination(number);
    reception_of(alloc, seen) == Some(by_rows(seen))
}

/// The frame of a kind that is all that its row wants, at a provider where no account has room.
fn fitting(kind: Kind) -> Seen {
    let (sealer, id_provider, home) = match kind {
        Kind::Envelope | Kind::Other => (1, 1, None),
        Kind::Charge => (1, ME, None),
        Kind::Outcome => (2, ME, Some(2)),
        Kind::Ack => (1, 1, Some(ME)),
    };
    Seen {
        kind,
        sealer,
        id_provider,
        home,
        path: true,
        row: true,
        done: false,
        rooms: 0,
    }
}

/// What may be otherwise in a frame.
#[derive(Clone, Copy)]
enum Change {
    Nothing,
    /// It comes again.
    Again,
    SealedBy(u32),
    /// The id is that of this provider.
    Of(u32),
    /// The recipient is at home there, or nowhere.
    ForOneAt(Option<u32>),
    /// It comes along another path.
    Astray,
    /// What the letter speaks of isn't there.
    Unknown,
    /// An account in the path has room.
    WithRoom,
}

/// The frame, with this otherwise.
fn changed(seen: Seen, change: Change) -> Seen {
    match change {
        Change::Nothing => seen,
        Change::Again => Seen { done: true, ..seen },
        Change::SealedBy(sealer) => Seen { sealer, ..seen },
        Change::Of(id_provider) => Seen {
            id_provider,
            ..seen
        },
        Change::ForOneAt(home) => Seen { home, ..seen },
        Change::Astray => Seen {
            path: false,
            ..seen
        },
        Change::Unknown => Seen { row: false, ..seen },
        Change::WithRoom => Seen { rooms: 1, ..seen },
    }
}

/// A fitting frame of this kind, two things that are otherwise, and what is done with it.
type Row = (Kind, Change, Change, Reception);

static NEAR_MISSES: &[Row] = &[
    // Rows 2 and 3: an envelope, and the same again. Nothing need be there before, and a provider may write to itself.
    (Kind::Envelope, Nothing, Nothing, Reception::Take),
    (Kind::Envelope, Again, Nothing, Reception::Repeat),
    (Kind::Envelope, Unknown, Nothing, Reception::Take),
    (Kind::Envelope, SealedBy(ME), Of(ME), Reception::Take),
    // Not the provider of the id sealed it; the path isn't that of the recipients here.
    (Kind::Envelope, SealedBy(2), Nothing, Reception::Drop),
    (Kind::Envelope, Astray, Nothing, Reception::Drop),
    (Kind::Envelope, Astray, Again, Reception::Drop),
    // Rows 4 and 5: a charge, and the same again.
    (Kind::Charge, Nothing, Nothing, Reception::Charge),
    (Kind::Charge, Again, Nothing, Reception::Repeat),
    // In another's name; of another's message; without pairs there; not to the receipt address.
    (Kind::Charge, SealedBy(ME), Nothing, Reception::Drop),
    (Kind::Charge, Of(2), Nothing, Reception::Drop),
    (Kind::Charge, Unknown, Nothing, Reception::Drop),
    (Kind::Charge, Astray, Nothing, Reception::Drop),
    // Rows 6 and 7: an outcome, and the same again.
    (Kind::Outcome, Nothing, Nothing, Reception::Outcome),
    (Kind::Outcome, Again, Nothing, Reception::Repeat),
    // Not the recipient's provider sealed it, or there is none; of another's message; of no pair; not to the sender.
    (Kind::Outcome, SealedBy(1), Nothing, Reception::Drop),
    (Kind::Outcome, SealedBy(ME), Nothing, Reception::Drop),
    (Kind::Outcome, ForOneAt(None), Nothing, Reception::Drop),
    (Kind::Outcome, Of(1), Nothing, Reception::Drop),
    (Kind::Outcome, Unknown, Nothing, Reception::Drop),
    (Kind::Outcome, Astray, Nothing, Reception::Drop),
    // Rows 8 and 9: an acknowledgement, and the same again.
    (Kind::Ack, Nothing, Nothing, Reception::Ack),
    (Kind::Ack, Again, Nothing, Reception::Repeat),
    // Not the provider of the id sealed it; for a recipient elsewhere; not decided; not to the receipt address.
    (Kind::Ack, SealedBy(2), Nothing, Reception::Drop),
    (Kind::Ack, ForOneAt(Some(1)), Nothing, Reception::Drop),
    (Kind::Ack, Unknown, Nothing, Reception::Drop),
    (Kind::Ack, Astray, Nothing, Reception::Drop),
    // Rows 10 and 11: anything else, with room and without.
    (Kind::Other, WithRoom, Nothing, Reception::Anomaly),
    (Kind::Envelope, Astray, WithRoom, Reception::Anomaly),
    (Kind::Other, Nothing, Nothing, Reception::Drop),
];

#[test]
fn each_row_answers_and_its_near_misses_fall_to_the_last_two(rt: HostRuntime) {
    for (place, row) in NEAR_MISSES.iter().enumerate() {
        holds_at(&rt, is_answered(rt.alloc(), row), place as u64);
    }
}

fn is_answered(alloc: Global, row: &Row) -> bool {
    reception_of(alloc, seen_in(row)) == Some(row.3)
}

/// What is seen of the frame of a row.
fn seen_in(row: &Row) -> Seen {
    changed(changed(fitting(row.0), row.1), row.2)
}
