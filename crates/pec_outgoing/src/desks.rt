use pec_seal::Sealer;
use pec_shelf::Shelf;
use pec_trade::House;
use std::alloc::Global;

/// What a provider's texts are composed of beside entries: its house and its half of the ledger.
#[derive(Drop)]
pub(crate) struct Desk<'a, S: Sealer> {
    pub(crate) alloc: Global,
    pub(crate) house: &'a House<'a, S>,
    pub(crate) shelf: &'a Shelf,
}
