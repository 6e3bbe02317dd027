ghost use Rattle.std.specs.Prelude.{◌≡◌, ◌<◌, length, not, false, slice_set, IfErr, OnErr, OnOk};
ghost use Rattle.pec_provider.specs.Swapping.{IsUnswapped};

use crate::provider::Provider;
use pec_screen::{Judge, ReplaceFault};

/// Why another screen isn't put into a place among a provider's.
#[derive(Clone, Copy, Debug, PartialEq, Eq)]
pub enum SwapFault {
    /// The provider is down.
    Down,
    /// The provider has no screen at this place.
    NoSuchPlace,
}

impl<D> Provider<D> {
    /// Puts another screen into a place among its screens, counted from 0; the one that was there is dropped. With a
    /// refusal the new one comes back. The first of these that applies is answered: `Down`; `NoSuchPlace` exactly where
    /// the place isn't below the number of its screens. It takes no memory.
    pub fn replace<J: Judge>(
        &mut self,
        screens: &mut J,
        place: usize,
        spare: J::Spare,
    ) -> Result<(), (J::Spare, SwapFault)>
        ensures replaced { OnOk result ((self.old.chronicle.down ≡ false)
            × (place < length (J.patterns screens.old))) }
        ensures patterns { OnOk result (J.patterns screens.new
            ≡ slice_set (J.patterns screens.old) place (J.spare_patterns spare)) }
        ensures seen { OnOk result (J.seen screens.new ≡ slice_set (J.seen screens.old) place (J.spare_seen spare)) }
        ensures refused { IfErr result (λ refusal. IsUnswapped (not self.old.chronicle.down)
            (length (J.patterns screens.old)) place refusal.1) }
        ensures back { IfErr result (λ refusal. refusal.0 ≡ spare) }
        ensures kept { OnErr result (J.patterns screens.new ≡ J.patterns screens.old) }
        ensures still { OnErr result (J.seen screens.new ≡ J.seen screens.old) }
        ensures stays { self.new ≡ self.old }
    {
        if self.is_down() {
            return Err((spare, SwapFault::Down));
        }
        match screens.replace(place, spare) {
            Ok(()) => Ok(()),
            Err((spare, ReplaceFault::NoSuchPlace)) => Err((spare, SwapFault::NoSuchPlace)),
        }
    }
}
