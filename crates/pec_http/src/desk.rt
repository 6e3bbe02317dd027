ghost use Rattle.std.specs.Prelude.{◌≡◌, ℕ, ◌<◌, ◌≤◌, ◌↔◌, false, true, length, Err, IfErr};
ghost use Rattle.pec_outside.specs.Flow.{HasRisen};
ghost use Rattle.pec_types.specs.Answers.{seen_as};
ghost use Rattle.pec_types.specs.Bytes.{Bytes};
ghost use Rattle.pec_types.specs.declared.turns.ProviderFault.TheVariants as faults;
ghost use Rattle.pec_http.specs.Desks.{Answers, IsItemFault, IsLookFault, IsSubmitFault, IsWithinLimit};
ghost use Rattle.pec_http.specs.declared.passes.Pass.TheVariants as passes;

use crate::passes::Pass;
use pec_types::{Address, ProviderFault, Submitted};
use std::alloc::Global;

/// Why a desk didn't do what was asked of it.
pub type ProviderFaultView = ProviderFault;

/// A mail provider's desk, at which accounts hand messages in and look at what is theirs. This project's profile.
pub trait Desk {
    // What it may answer in a state, and the state that this leaves.
    ghost answers: { Answers Self };

    /// Whether an address is an account, and the key its own. An account's provider takes messages of at most so many
    /// bytes. It takes no memory.
    fn pass(&self, address: &Address, key: &[u8]) -> Pass
        ensures value { result ≡ answers.pass self.now address.now key.now }
        ensures account { (result ≡ passes.NoAddress) ↔ (answers.is_account self.now address.now ≡ false) }
        ensures limit { IsWithinLimit result };

    /// The first domain of the account's provider. It takes no memory.
    fn domain(&self, address: &Address) -> &[u8]
        requires { answers.is_account self.now address.now ≡ true }
        ensures value { result.now ≡ answers.domain self.now address.now }
        ensures short { length result.now ≤ 236 };

    /// Submits a message for a forward path. A refusal for want of memory stores nothing.
    fn submit(
        &mut self,
        alloc: Global,
        address: &Address,
        path: &[Address],
        message: &[u8],
    ) -> Result<Submitted, ProviderFaultView>
        requires account { answers.is_account self.old address.now ≡ true }
        requires path { (0 < length path.now) × (length path.now ≤ 1000) }
        requires size { length message.now ≤ 50331648 }
        ensures given { answers.submit self.old address.now path.now message.now result self.new }
        ensures accounts { (other : Bytes) → answers.is_account self.new other ≡ answers.is_account self.old other }
        ensures domains { (other : Bytes) → answers.domain self.new other ≡ answers.domain self.old other }
        ensures refusals { IfErr result IsSubmitFault }
        // The count of faults of each address never falls. It has risen where the address's disk failed.
        ensures later { (other : Bytes) → answers.faults self.old other ≤ answers.faults self.new other }
        ensures cause { result ≡ Err faults.DiskFault
            → HasRisen (answers.faults self.old address.now) (answers.faults self.new address.now) };

    /// The lines of the account's book.
    fn book(&self, alloc: Global, address: &Address) -> Result<Vec<u8>, ProviderFaultView>
        requires { answers.is_account self.now address.now ≡ true }
        ensures given { answers.book self.now address.now (seen_as (λ bytes. bytes.items) result) }
        ensures refusals { IfErr result IsLookFault };

    /// The lines of the account's mailbox.
    fn items(&self, alloc: Global, address: &Address) -> Result<Vec<u8>, ProviderFaultView>
        requires { answers.is_account self.now address.now ≡ true }
        ensures given { answers.items self.now address.now (seen_as (λ bytes. bytes.items) result) }
        ensures refusals { IfErr result IsLookFault };

    /// The item at this place of the account's mailbox, from 0. It is read from the disk of the account's provider,
    /// which may fail (`DiskFault`), or give back another entry than it took (`Changed`).
    fn item(
        &mut self,
        alloc: Global,
        address: &Address,
        place: u32,
    ) -> Result<Vec<u8>, ProviderFaultView>
        requires { answers.is_account self.old address.now ≡ true }
        ensures given { answers.item self.old address.now place (seen_as (λ bytes. bytes.items) result) self.new }
        ensures refusals { IfErr result IsItemFault }
        // The count of faults of each address never falls. It has risen where the address's disk failed.
        ensures later { (other : Bytes) → answers.faults self.old other ≤ answers.faults self.new other }
        ensures cause { result ≡ Err faults.DiskFault
            → HasRisen (answers.faults self.old address.now) (answers.faults self.new address.now) };
}
