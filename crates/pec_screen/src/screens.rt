ghost use Rattle.std.specs.Prelude.{◌≡◌, ◌↔◌, ℕ, ◌+◌, ◌<◌, ◌^◌, List, length, map, IfSome, IfErr, IsOk, OnOk, OnErr, Some, None, false, slice_set, slice_index_or};
ghost use Rattle.pec_types.specs.Bytes.{Bytes};
ghost use Rattle.pec_screen.specs.VerdictReading.{finds, rule_in, verdict};
ghost use Rattle.pec_screen.specs.Verdicts.{AllFindNone, IsVerdict, Patterns, counted};

use crate::looking::Screen;

/// Why a box isn't put into its place.
#[derive(Clone, Copy, Debug, PartialEq, Eq)]
pub enum ReplaceFault {
    /// The place isn't below the number of boxes.
    NoSuchPlace,
}

/// The screens of a provider, in the order in which they are asked.
#[derive(Drop)]
pub struct Screens {
    boxes: Vec<Box<dyn Screen>>,
    ghost few: { length boxes.items < 2 ^ 32 },
}

impl Screens {
    /// These boxes, in their order. It takes no memory.
    pub fn new(boxes: Vec<Box<dyn Screen>>) -> Screens
        requires { length boxes.items < 2 ^ 32 }
        ensures { result.boxes ≡ boxes }
    {
        Screens { boxes }
    }

    /// Lets every box look at the message. The answer is the place of the first box that found a rule, from 0, and that
    /// rule. It takes no memory.
    pub fn judge(&mut self, message: &[u8]) -> Option<(u32, u32)>
        ensures verdict { result ≡ verdict (map (λ b. patterns b) self.old.boxes.items) message.now }
        ensures patterns { map (λ b. patterns b) self.new.boxes.items ≡ map (λ b. patterns b) self.old.boxes.items }
        // Every box has looked once, also behind the one that found.
        ensures seen { map (λ b. seen b) self.new.boxes.items ≡ map (λ b. counted (seen b)) self.old.boxes.items }
    {
        judge_each(self.boxes.as_mut_slice(), message)
    }

    /// Puts a box into the place of another, which is dropped. `NoSuchPlace` comes exactly where the place isn't below
    /// the number of boxes, and hands the new box back. It takes no memory.
    pub fn replace(
        &mut self,
        place: usize,
        screen: Box<dyn Screen>,
    ) -> Result<(), (Box<dyn Screen>, ReplaceFault)>
        ensures no_such_place { IsOk result ↔ (place < length self.old.boxes.items) }
        ensures put { OnOk result (self.new.boxes.items ≡ slice_set self.old.boxes.items place screen) }
        ensures back { IfErr result (λ refusal. refusal.0 ≡ screen) }
        ensures kept { OnErr result (self.new.boxes ≡ self.old.boxes) }
    {
        match self.boxes.get_mut(place) {
            Some(there) => {
                *there = screen;
                Ok(())
            }
            None => Err((screen, ReplaceFault::NoSuchPlace)),
        }
    }
}

/// Lets each of the boxes look, from the first to the last.
fn judge_each(boxes: &mut [Box<dyn Screen>], message: &[u8]) -> Option<(u32, u32)>
    requires { length boxes.old < 2 ^ 32 }
    ensures length { length boxes.new ≡ length boxes.old }
    ensures patterns { (k : ℕ) (d : _) → k < length boxes.old →
        patterns (slice_index_or boxes.new k d) ≡ patterns (slice_index_or boxes.old k d) }
    ensures seen { (k : ℕ) (d : _) → k < length boxes.old →
        seen (slice_index_or boxes.new k d) ≡ counted (seen (slice_index_or boxes.old k d)) }
    ensures some { IfSome result (λ found. (found.0 < length boxes.old)
        × ((d : _) → rule_in (patterns (slice_index_or boxes.old found.0 d)) message.now ≡ Some found.1)
        × ((k : ℕ) (d : _) → k < found.0 → rule_in (patterns (slice_index_or boxes.old k d)) message.now ≡ None)) }
    ensures none { result ≡ None → (k : ℕ) (d : _) → k < length boxes.old →
        rule_in (patterns (slice_index_or boxes.old k d)) message.now ≡ None }
{
    let mut found = None;
    for (place, screen) in boxes.iter_mut().enumerate() {
        let rule = screen.look(message);
        if let (None, Some(rule)) = (found, rule) {
            found = Some((place as u32, rule));
        }
    }
    found
}

/// The verdict of boxes is that of the first that finds a rule, and none exactly where no box finds one.
pub fn a_verdict_is_of_the_first_box()
    ensures verdict { (boxes : List Patterns) (message : Bytes) (place rule : ℕ) →
        (verdict boxes message ≡ Some (place, rule)) ↔ IsVerdict boxes message place rule }
    ensures none { (boxes : List Patterns) (message : Bytes) →
        (verdict boxes message ≡ None) ↔ AllFindNone boxes message }
    // Whether one is found says the same, as a test.
    ensures clean { (boxes : List Patterns) (message : Bytes) →
        (finds boxes message ≡ false) ↔ AllFindNone boxes message }
{}
