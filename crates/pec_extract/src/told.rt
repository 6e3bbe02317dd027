ghost use Rattle.std.specs.Prelude.{◌≡◌, [], Some, None, IfOk, codes, map, option_map};
ghost use Rattle.pec_extract.specs.LogRows.{about, bare};

use crate::words::{copied, text_word};
use pec_types::{Facts, NoMemory};
use std::alloc::Global;
use std::marker::Model;

/// What a row says beside its provider, the number of its entry and the moment.
#[derive(Drop)]
pub(crate) struct Told {
    pub(crate) event: &'static [u8],
    pub(crate) id: Vec<u8>,
    pub(crate) sender: Vec<u8>,
    pub(crate) recipients: Vec<u8>,
    pub(crate) subject: Vec<u8>,
    pub(crate) detail: Vec<u8>,
}

impl Model for Told {
    ghost use Rattle.pec_extract.specs.LogRows.{Told as ToldShown};

    ghost Value = { ToldShown };

    ghost view = { λ told. record {
      event = told.event.now;
      id = told.id.items;
      sender = told.sender.items;
      recipients = told.recipients.items;
      subject = told.subject.items;
      detail = told.detail.items;
    } };
}

/// An event that is of no message.
pub(crate) fn bare(
    alloc: Global,
    event: &'static [u8],
    recipients: Vec<u8>,
    detail: Vec<u8>,
) -> Told
    ensures { result ≡ bare event.now recipients.items detail.items }
{
    Told {
        event,
        id: Vec::new(alloc),
        sender: Vec::new(alloc),
        recipients,
        subject: Vec::new(alloc),
        detail,
    }
}

/// An event of a message of this name, with what its facts tell, where they are had.
pub(crate) fn about(
    alloc: Global,
    event: &'static [u8],
    id: Vec<u8>,
    facts: Option<&Facts>,
    recipients: Vec<u8>,
    detail: Vec<u8>,
) -> Result<Told, NoMemory>
    ensures { IfOk result (λ told. told ≡ about event.now id.items (option_map (λ facts. facts.now) facts.entry)
        recipients.items detail.items) }
{
    match facts {
        Some(facts) => Ok(Told {
            event,
            id,
            sender: copied(alloc, facts.sender.bytes())?,
            recipients,
            subject: text_word(alloc, &facts.subject)?,
            detail,
        }),
        None => Ok(Told {
            event,
            id,
            sender: Vec::new(alloc),
            recipients,
            subject: Vec::new(alloc),
            detail,
        }),
    }
}
