ghost use Rattle.std.specs.Prelude.{◌≡◌};
ghost use Rattle.pec_screen.specs.Perhaps.{all_of};

use crate::judging::Judge;
use crate::screens::ReplaceFault;

/// A judge, or none: then it has no boxes, nothing looks, and nothing is found.
#[derive(Drop)]
pub struct Perhaps<J> {
    judge: Option<J>,
}

impl<J: Judge> Perhaps<J> {
    /// This judge, or none. It takes no memory.
    pub fn of(judge: Option<J>) -> Perhaps<J>
        ensures patterns { ⟦<Perhaps<J> as Judge>⟧.patterns result ≡ all_of J.patterns judge }
        ensures seen { ⟦<Perhaps<J> as Judge>⟧.seen result ≡ all_of J.seen judge }
    {
        Perhaps { judge }
    }
}

impl<J: Judge> Judge for Perhaps<J> {
    type Spare = J::Spare;

    ghost patterns = { λ perhaps. all_of J.patterns perhaps.judge };

    ghost seen = { λ perhaps. all_of J.seen perhaps.judge };

    ghost spare_patterns = { λ spare. J.spare_patterns spare };

    ghost spare_seen = { λ spare. J.spare_seen spare };

    fn judge(&mut self, message: &[u8]) -> Option<(u32, u32)> {
        match &mut self.judge {
            Some(judge) => judge.judge(message),
            None => None,
        }
    }

    fn replace(&mut self, place: usize, spare: J::Spare) -> Result<(), (J::Spare, ReplaceFault)> {
        match &mut self.judge {
            Some(judge) => judge.replace(place, spare),
            None => Err((spare, ReplaceFault::NoSuchPlace)),
        }
    }
}
