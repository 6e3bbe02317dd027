/// The kinds of entry, one for each tag.
#[derive(Clone, Copy)]
pub(crate) enum Tag {
    Start,
    Accepted,
    NotAccepted,
    Took,
    Decided,
    Charged,
    Learned,
    Acked,
    Ticked,
    Anomaly,
    StartTwo,
    Upgraded,
    Archived,
}
