use crate::certificates::{CertError, CertKind};
use crate::stamps::Shown;
use pec_types::{Items, Text, Wish};

/// A recipient as it stands in a text: its address is any text.
#[derive(Drop)]
pub(crate) struct Addressee {
    pub certified: bool,
    pub address: Text,
}

/// The values of the elements in front of the data.
#[derive(Drop)]
pub(crate) struct Heading {
    pub kind: CertKind,
    pub error: CertError,
    pub sender: Text,
    pub recipients: Items<Addressee>,
    pub reply: Text,
    pub subject: Option<Text>,
}

/// The values of the data that say who certifies, when, and what.
#[derive(Drop)]
pub(crate) struct Issue {
    pub provider: Text,
    pub shown: Shown,
    pub id: Text,
    pub reference: Option<Text>,
}

/// The values of the data behind these.
#[derive(Drop)]
pub(crate) struct Closing {
    pub wish: Option<Wish>,
    pub delivered: Option<Text>,
    pub received: Items<Text>,
    pub detail: Option<Text>,
}

/// The values of a text's elements as they stand there.
#[derive(Drop)]
pub(crate) struct Lines {
    pub kind: CertKind,
    pub error: CertError,
    pub sender: Text,
    pub recipients: Items<Addressee>,
    pub reply: Text,
    pub subject: Option<Text>,
    pub provider: Text,
    pub shown: Shown,
    pub id: Text,
    pub reference: Option<Text>,
    pub wish: Option<Wish>,
    pub delivered: Option<Text>,
    pub received: Items<Text>,
    pub detail: Option<Text>,
}
