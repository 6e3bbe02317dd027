/// Where an account stands: the number of its provider, and its place among that provider's accounts, both from 0.
#[derive(Clone, Copy, Debug, PartialEq, Eq)]
pub struct Place {
    pub(crate) provider: usize,
    pub(crate) account: usize,
}
