ghost use Rattle.std.specs.Prelude.{◌≡◌, ◌↔◌, ◌<◌, ℕ, List, [], ◌∷◌, map, length, slice_set, IsOk, OnOk, OnErr, IfErr};
ghost use Rattle.pec_screen.specs.VerdictReading.{verdict};
ghost use Rattle.pec_screen.specs.Verdicts.{counted};

use crate::looking::Screen;
use crate::patterns::PatternScreen;
use crate::screens::{ReplaceFault, Screens};

/// What judges messages by boxes of patterns, as `Screens` do. Crates above take any that does.
pub trait Judge: Drop {
    /// What may be put into the place of a box.
    type Spare: Drop;

    /// The patterns of each box, in the order of the boxes.
    ghost patterns: { Self → List (List (List ℕ)) };

    /// How often each box has looked.
    ghost seen: { Self → List ℕ };

    /// The patterns of what may be put into a place, and how often it has looked.
    ghost spare_patterns: { Self.Spare → List (List ℕ) };

    ghost spare_seen: { Self.Spare → ℕ };

    /// Lets every box look at the message. The answer is the place of the first box that found a rule, from 0, and that
    /// rule. It takes no memory.
    fn judge(&mut self, message: &[u8]) -> Option<(u32, u32)>
        ensures verdict { result ≡ verdict (patterns self.old) message.now }
        ensures patterns { patterns self.new ≡ patterns self.old }
        ensures seen { seen self.new ≡ map counted (seen self.old) };

    /// Puts a box into the place of another, which is dropped. `NoSuchPlace` comes exactly where the place isn't below
    /// the number of boxes, and hands the new box back. It takes no memory.
    fn replace(
        &mut self,
        place: usize,
        spare: Self::Spare,
    ) -> Result<(), (Self::Spare, ReplaceFault)>
        ensures no_such_place { IsOk result ↔ (place < length (patterns self.old)) }
        ensures patterns { OnOk result (patterns self.new ≡ slice_set (patterns self.old) place (spare_patterns spare)) }
        ensures seen { OnOk result (seen self.new ≡ slice_set (seen self.old) place (spare_seen spare)) }
        ensures back { IfErr result (λ refusal. refusal.0 ≡ spare) }
        ensures kept { OnErr result (patterns self.new ≡ patterns self.old) }
        ensures still { OnErr result (seen self.new ≡ seen self.old) };
}

impl Judge for Screens {
    type Spare = Box<dyn Screen>;

    ghost spare_patterns = { λ spare. (Screen-box spare).patterns spare.value };

    ghost spare_seen = { λ spare. (Screen-box spare).seen spare.value };

    ghost patterns = { λ screens. map (λ b. (Screen-box b).patterns b.value) screens.boxes.items };

    ghost seen = { λ screens. map (λ b. (Screen-box b).seen b.value) screens.boxes.items };

    fn judge(&mut self, message: &[u8]) -> Option<(u32, u32)> {
        Screens::judge(self, message)
    }

    fn replace(
        &mut self,
        place: usize,
        spare: Box<dyn Screen>,
    ) -> Result<(), (Box<dyn Screen>, ReplaceFault)> {
        Screens::replace(self, place, spare)
    }
}

/// One screen judges alone: the place of what it finds is 0.
impl Judge for PatternScreen {
    type Spare = PatternScreen;

    ghost spare_patterns = { λ spare. ⟦<PatternScreen as Screen>⟧.patterns spare };

    ghost spare_seen = { λ spare. ⟦<PatternScreen as Screen>⟧.seen spare };

    ghost patterns = { λ screen. ⟦<PatternScreen as Screen>⟧.patterns screen ∷ [] };

    ghost seen = { λ screen. ⟦<PatternScreen as Screen>⟧.seen screen ∷ [] };

    fn judge(&mut self, message: &[u8]) -> Option<(u32, u32)> {
        let rule = self.look(message)?;
        Some((0, rule))
    }

    fn replace(
        &mut self,
        place: usize,
        spare: PatternScreen,
    ) -> Result<(), (PatternScreen, ReplaceFault)> {
        if place > 0 {
            return Err((spare, ReplaceFault::NoSuchPlace));
        }
        *self = spare;
        Ok(())
    }
}

/// No boxes: nothing looks, and nothing is found.
#[derive(Clone, Copy, Debug)]
pub struct NoScreens;

impl Judge for NoScreens {
    type Spare = NoScreens;

    ghost spare_patterns = { λ _. [] };

    ghost spare_seen = { λ _. 0 };

    ghost patterns = { λ _. [] };

    ghost seen = { λ _. [] };

    fn judge(&mut self, _message: &[u8]) -> Option<(u32, u32)> {
        None
    }

    fn replace(
        &mut self,
        _place: usize,
        spare: NoScreens,
    ) -> Result<(), (NoScreens, ReplaceFault)> {
        Err((spare, ReplaceFault::NoSuchPlace))
    }
}
