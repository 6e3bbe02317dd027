ghost use Rattle.std.specs.Prelude.{◌≡◌, [], ◌∷◌, None, Some, IsSome};
ghost use Rattle.pec_schedules.specs.Examples.{back, both_ended, both_ways, in_turn, left_by, mixed, past_its_room, there};
ghost use Rattle.pec_schedules.specs.Schedules.{IsPlan, IsSchedule, Put, Take, begun, ran};

/// The worked schedules, computed: two of one plan leave the same on its links. Where the puts of a link go past its
/// room, that is no plan: one order of its steps finds the link full, though another doesn't.
pub fn worked_schedules()
    ensures plan { IsPlan both_ways }
    ensures schedules { IsSchedule both_ways in_turn × IsSchedule both_ways mixed }
    ensures in_turn { left_by both_ways in_turn ≡ Some both_ended }
    ensures mixed { left_by both_ways mixed ≡ Some both_ended }
    // A take of a frame that isn't there finds the link empty.
    ensures empty { ran (Take back ∷ Take back ∷ []) (begun both_ways) ≡ None }
    ensures no_plan { IsPlan past_its_room → ⊥ }
    ensures put_first { ran (Put there ∷ Take there ∷ []) (begun past_its_room) ≡ None }
    ensures taken_first { IsSome (left_by past_its_room (Take there ∷ Put there ∷ [])) }
{}
