//! Messages that lines submit.

ghost use Rattle.std.specs.Prelude.{◌<◌, ◌≤◌, length, IfOk};
ghost use Rattle.pec_records.specs.Entry.{longest_message, most_addresses};

use crate::directories::text_of;
use crate::reading::{account_at, addresses_of, moment_of, word};
use pec_types::{Address, Moment};
use std::alloc::Global;
use std::test::Fail;

/// A message that an account submits.
pub struct Submission {
    pub moment: Moment,
    pub sender: Address,
    pub path: Vec<Address>,
    pub message: Vec<u8>,
}

impl Drop for Submission {
    fn drop(self) {
        let Submission {
            moment: _,
            sender: _,
            path: _,
            message: _,
        } = self;
    }
}

/// What a line submits, from its third word on: `MOMENT SENDER PATH MESSAGE`.
pub fn submission_of(alloc: Global, line: &str) -> Result<Submission, Fail>
    ensures path { IfOk result (λ submission. (0 < length submission.path.items)
        × (length submission.path.items ≤ most_addresses)) }
    ensures message { IfOk result (λ submission. length submission.message.items ≤ longest_message) }
{
    let moment = moment_of(line, 2)?;
    let sender = account_at(alloc, line, 3)?;
    let path = addresses_of(alloc, word(line, 4))?;
    let message = message_of(alloc, word(line, 5))?;
    Ok(Submission {
        moment,
        sender,
        path,
        message,
    })
}

/// The message of a name.
pub(crate) fn message_of(alloc: Global, name: &str) -> Result<Vec<u8>, Fail>
    ensures { IfOk result (λ message. length message.items ≤ longest_message) }
{
    let message = text_of(alloc, name)?;
    if message.len() > 1000 {
        return Err("too long for a test".into());
    }
    Ok(message)
}
