ghost use Rattle.std.specs.Prelude.{◌≡◌, ◌++◌, IfOk};
ghost use Rattle.pec_ledger.specs.Due.{addressee, answers_to, due_letters};
ghost use Rattle.pec_ledger.specs.Lookups.{is_home};
ghost use Rattle.pec_trade.specs.Houses.{world_at};
ghost use Rattle.pec_shelf.specs.Seen.{IsFor};

use crate::desks::Desk;
use pec_seal::Sealer;
use pec_shelf::Shelf;
use pec_trade::House;
use pec_types::{Letter, NoMemory};
use std::alloc::Global;

/// The letters that a provider owes another one, itself included (RFC 6109, section 3, within this project's profile):
/// of the answers that it owes that one, in their order, and then of the outcomes that nobody acknowledged and of the
/// envelopes of messages of which nothing was heard, no more than the link has room for. For each of them a frame is
/// put, where one is composed (`needed`, `framed`).
pub fn due_letters<S: Sealer>(
    alloc: Global,
    house: &House<'_, S>,
    shelf: &Shelf,
    to: u32,
    room: usize,
    owed: &[Letter],
) -> Result<Vec<Letter>, NoMemory>
    requires homes { IsFor (world_at house.now) shelf.now }
    ensures { IfOk result (λ letters. letters.items
        ≡ due_letters (world_at house.now) shelf.now.me shelf.now.half to room owed.now) }
{
    let desk = Desk {
        alloc,
        house,
        shelf,
    };
    let mut answers = answers_to(&desk, to, owed)?;
    answers.truncate(room);
    let others = shelf.due(to, room - answers.len())?;
    let letters = joined(answers, others)?;
    Ok(letters)
}

/// Letters, and others behind them.
fn joined(mut letters: Vec<Letter>, others: Vec<Letter>) -> Result<Vec<Letter>, NoMemory>
    ensures { IfOk result (λ all. all.items ≡ letters.items ++ others.items) }
{
    for letter in others {
        letters.push(letter)?;
    }
    Ok(letters)
}

/// The answers that are for a provider, in their order.
fn answers_to<S: Sealer>(
    desk: &Desk<'_, S>,
    to: u32,
    owed: &[Letter],
) -> Result<Vec<Letter>, NoMemory>
    ensures { IfOk result (λ answers. answers.items ≡ answers_to (world_at desk.now.house.now) to owed.now) }
{
    let mut answers = Vec::new(desk.alloc);
    for letter in owed {
        if is_for(desk, to, letter) {
            answers.push(copied(desk.alloc, letter)?)?;
        }
    }
    Ok(answers)
}

/// An equal letter.
fn copied(alloc: Global, letter: &Letter) -> Result<Letter, NoMemory>
    ensures { IfOk result (λ copy. copy ≡ letter.now) }
{
    match letter {
        Letter::Envelope { id, to } => Ok(Letter::Envelope { id: *id, to: *to }),
        Letter::Charge { id, by } => Ok(Letter::Charge { id: *id, by: *by }),
        Letter::Outcome { id, recipient } => {
            let recipient = recipient.copy(alloc)?;
            Ok(Letter::Outcome { id: *id, recipient })
        }
        Letter::Ack { id, recipient } => {
            let recipient = recipient.copy(alloc)?;
            Ok(Letter::Ack { id: *id, recipient })
        }
    }
}

/// Whether a letter is for a provider.
fn is_for<S: Sealer>(desk: &Desk<'_, S>, to: u32, letter: &Letter) -> bool
    ensures { result
        ≡ is_home to (addressee (world_at desk.now.house.now) letter.now) }
{
    match addressee(desk, letter) {
        Some(provider) => to == provider,
        None => false,
    }
}

/// The provider for which a letter is.
fn addressee<S: Sealer>(desk: &Desk<'_, S>, letter: &Letter) -> Option<u32>
    ensures { result ≡ addressee (world_at desk.now.house.now) letter.now }
{
    match letter {
        Letter::Envelope { to, .. } => Some(*to),
        Letter::Charge { id, .. } => Some(id.provider),
        Letter::Outcome { id, .. } => Some(id.provider),
        Letter::Ack { recipient, .. } => desk.house.directory.home_of(recipient),
    }
}
