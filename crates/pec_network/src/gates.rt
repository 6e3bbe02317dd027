/// What each worker of a round passes before its provider's turn.
pub trait Gate {
    /// The worker of the provider of this number passes.
    fn pass(&self, worker: u32);
}

/// A gate at which nobody waits.
#[derive(Clone, Copy)]
pub struct FreeGate;

impl Gate for FreeGate {
    fn pass(&self, _worker: u32) {}
}
