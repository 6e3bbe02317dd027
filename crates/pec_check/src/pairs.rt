ghost use Rattle.std.specs.Prelude.{◌++◌};
ghost use Rattle.std.specs.Hash as fed;
ghost use Rattle.std.specs.Cmp.Rules.{hashing};
ghost use Rattle.std.proofs.Common.{rules};

use pec_types::{Address, MsgId};
use std::hash::{Hash, Hasher};

/// A message and one of its recipients.
#[derive(PartialEq, Eq, Drop)]
pub(crate) struct PairKey {
    pub(crate) id: MsgId,
    pub(crate) recipient: Address,
}

impl Hash for PairKey {
    ghost hash_input = { λ pair. fed.u32 pair.id.provider ++ fed.u64 pair.id.number ++ fed.slice fed.u8 pair.recipient };

    ghost respects_eq = { Prim.search (hashing, rules) };

    fn hash<H: Hasher>(&self, state: &mut H) {
        self.id.provider.hash(state);
        self.id.number.hash(state);
        self.recipient.bytes().hash(state);
    }
}
