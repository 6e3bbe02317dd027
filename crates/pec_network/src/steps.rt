ghost use Rattle.std.specs.Prelude.{◌≡◌, ℕ, ◌<◌, ◌≤◌, true, false, List, [], length, IfOk, IfErr, IsErrOf, OnOk};
ghost use Rattle.pec_types.specs.declared.turns.ProviderFault.TheVariants as faults;
ghost use Rattle.pec_outside.specs.Flow.{HasRisen};
ghost use Rattle.pec_ledger.specs.Ledger.{Journals};
ghost use Rattle.pec_plays.specs.Decisions.{undecided};
ghost use Rattle.pec_plays.specs.Turns.{frames_in};
ghost use Rattle.pec_provider.specs.OfTrades.{world_at};
ghost use Rattle.pec_chronicle.specs.Carrying.{CarriesOn, NothingMay};
ghost use Rattle.pec_chronicle.specs.Chronicle.{ChronicleState, Stands};
ghost use Rattle.pec_provider.specs.Following.{MayFollow};
ghost use Rattle.pec_provider.specs.Provider.{RunsIn, desk_of};
ghost use Rattle.pec_provider.specs.Working.{IsAtWork};
ghost use Rattle.pec_rows.specs.Rows.{knowns, waits};
ghost use Rattle.pec_screen.specs.Verdicts.{Patterns};
ghost use Rattle.pec_network.specs.Looking.{LookAlike};
ghost use Rattle.pec_network.specs.Turning.{CarriesFrames, Ends, Leads, Waiting};

use pec_outside::Disk;
use pec_plays::{
    a_plan_goes_step_by_step, frames_are_taken_in_order, the_next_pairs_are_left,
    what_a_provider_does_is_its_own,
};
use pec_provider::{
    Event, House, Provider, ProviderFault, a_house_is_a_trade, nothing_has_changed,
};
use pec_rows::Takers;
use pec_screen::Judge;
use pec_seal::Sealer;
use pec_types::Moment;
use std::alloc::Global;

/// Handles all frames that wait, in their order.
pub(crate) fn take_frames<D: Disk, S: Sealer>(
    alloc: Global,
    house: &House<'_, S>,
    provider: &mut Provider<D>,
    takers: &mut Takers,
    moment: Moment,
    events: &mut Vec<Event>,
) -> Result<(), ProviderFault>
    requires runs { RunsIn house.now provider.old }
    requires works { IsAtWork (world_at house.now) house.now.me moment (desk_of provider.old) }
    ensures leads { (screens : List Patterns) → OnOk result
        (Leads (D.tells × Stands D.sight provider.old.chronicle) (world_at house.now) house.now.me moment screens
        (desk_of provider.old) (waits takers.old) events.old.items
        (desk_of provider.new) (waits takers.new) events.new.items) }
    ensures none { OnOk result (frames_in (waits takers.new) ≡ []) }
    ensures works { OnOk result (IsAtWork (world_at house.now) house.now.me moment (desk_of provider.new)) }
    ensures ends { (screens : List Patterns) → IfErr result (λ fault.
        Ends (D.tells × Stands D.sight provider.old.chronicle) (world_at house.now) house.now.me moment screens
        (desk_of provider.old) (waits takers.old) events.old.items fault
        (desk_of provider.new) (waits takers.new) events.new.items) }
    ensures runs { RunsIn house.now provider.new }
    ensures links { length (waits takers.new) ≡ length (waits takers.old) }
    ensures kept { knowns takers.new ≡ knowns takers.old }
    ensures carries { D.tells → CarriesFrames (world_at house.now) house.now.me moment D.sight
        provider.old.chronicle (waits takers.old) provider.new.chronicle (waits takers.new) }
    ensures stands { D.tells → Stands D.sight provider.old.chronicle → Stands D.sight provider.new.chronicle }
    ensures disk_fault { IsErrOf result faults.DiskFault → HasRisen (D.faults provider.old.chronicle.disk) (D.faults
        provider.new.chronicle.disk) }
    ensures later { D.faults provider.old.chronicle.disk ≤ D.faults provider.new.chronicle.disk }
{
    frames_are_taken_in_order();
    what_rests_carries_on::<D>();
    while take_frame(alloc, house, provider, takers, moment, events)? {}
    Ok(())
}

/// Handles the next frame that waits, and tells whether there was one.
fn take_frame<D: Disk, S: Sealer>(
    alloc: Global,
    house: &House<'_, S>,
    provider: &mut Provider<D>,
    takers: &mut Takers,
    moment: Moment,
    events: &mut Vec<Event>,
) -> Result<bool, ProviderFault>
    requires runs { RunsIn house.now provider.old }
    requires works { IsAtWork (world_at house.now) house.now.me moment (desk_of provider.old) }
    ensures leads { (screens : List Patterns) → OnOk result
        (Leads (D.tells × Stands D.sight provider.old.chronicle) (world_at house.now) house.now.me moment screens
        (desk_of provider.old) (waits takers.old) events.old.items
        (desk_of provider.new) (waits takers.new) events.new.items) }
    ensures none { IfOk result (λ more. more ≡ false → frames_in (waits takers.new) ≡ []) }
    ensures fewer { IfOk result (λ more. more ≡ true → length (frames_in (waits takers.new)) < length (frames_in (waits takers.old))) }
    ensures works { OnOk result (IsAtWork (world_at house.now) house.now.me moment (desk_of provider.new)) }
    ensures ends { (screens : List Patterns) → IfErr result (λ fault.
        Ends (D.tells × Stands D.sight provider.old.chronicle) (world_at house.now) house.now.me moment screens
        (desk_of provider.old) (waits takers.old) events.old.items fault
        (desk_of provider.new) (waits takers.new) events.new.items) }
    ensures runs { RunsIn house.now provider.new }
    ensures links { length (waits takers.new) ≡ length (waits takers.old) }
    ensures kept { knowns takers.new ≡ knowns takers.old }
    ensures carries { D.tells → CarriesFrames (world_at house.now) house.now.me moment D.sight
        provider.old.chronicle (waits takers.old) provider.new.chronicle (waits takers.new) }
    ensures stands { D.tells → Stands D.sight provider.old.chronicle → Stands D.sight provider.new.chronicle }
    ensures disk_fault { IsErrOf result faults.DiskFault → HasRisen (D.faults provider.old.chronicle.disk) (D.faults
        provider.new.chronicle.disk) }
    ensures later { D.faults provider.old.chronicle.disk ≤ D.faults provider.new.chronicle.disk }
{
    a_house_is_a_trade(house);
    a_plan_goes_step_by_step();
    frames_are_taken_in_order();
    what_a_provider_does_is_its_own();
    what_rests_carries_on::<D>();
    let Some(frame) = takers.take() else {
        return Ok(false);
    };
    events.reserve(1)?;
    let event = provider.arrive(alloc, house, moment, frame.bytes())?;
    events.push_reserved(event);
    Ok(true)
}

/// Decides on all that was taken and isn't decided.
pub(crate) fn decide_pairs<D: Disk, S: Sealer, J: Judge>(
    alloc: Global,
    house: &House<'_, S>,
    provider: &mut Provider<D>,
    judge: &mut J,
    moment: Moment,
    events: &mut Vec<Event>,
) -> Result<(), ProviderFault>
    requires runs { RunsIn house.now provider.old }
    requires works { IsAtWork (world_at house.now) house.now.me moment (desk_of provider.old) }
    ensures leads { (left : Waiting) → frames_in left ≡ [] → OnOk result
        (Leads (D.tells × Stands D.sight provider.old.chronicle) (world_at house.now) house.now.me moment
        (J.patterns judge.old)
        (desk_of provider.old) left events.old.items (desk_of provider.new) left events.new.items) }
    ensures decided { OnOk result (undecided (world_at house.now) house.now.me
        provider.new.chronicle.entries ≡ []) }
    ensures ends { (left : Waiting) → frames_in left ≡ [] → IfErr result (λ fault.
        Ends (D.tells × Stands D.sight provider.old.chronicle) (world_at house.now) house.now.me moment
        (J.patterns judge.old)
        (desk_of provider.old) left events.old.items fault (desk_of provider.new) left events.new.items) }
    ensures patterns { J.patterns judge.new ≡ J.patterns judge.old }
    ensures looked { LookAlike (J.seen judge.old) (J.seen judge.new) }
    ensures runs { RunsIn house.now provider.new }
    ensures carries { D.tells → (journals : Journals) → CarriesOn D.sight
        (MayFollow (world_at house.now) journals house.now.me) provider.old.chronicle provider.new.chronicle }
    ensures disk_fault { IsErrOf result faults.DiskFault → HasRisen (D.faults provider.old.chronicle.disk) (D.faults
        provider.new.chronicle.disk) }
    ensures later { D.faults provider.old.chronicle.disk ≤ D.faults provider.new.chronicle.disk }
{
    frames_are_taken_in_order();
    what_rests_carries_on::<D>();
    while decide_pair(alloc, house, provider, judge, moment, events)? {}
    Ok(())
}

/// Decides on the next pair that was taken and isn't decided, and tells whether there was one.
fn decide_pair<D: Disk, S: Sealer, J: Judge>(
    alloc: Global,
    house: &House<'_, S>,
    provider: &mut Provider<D>,
    judge: &mut J,
    moment: Moment,
    events: &mut Vec<Event>,
) -> Result<bool, ProviderFault>
    requires runs { RunsIn house.now provider.old }
    requires works { IsAtWork (world_at house.now) house.now.me moment (desk_of provider.old) }
    ensures leads { (left : Waiting) → frames_in left ≡ [] → OnOk result
        (Leads (D.tells × Stands D.sight provider.old.chronicle) (world_at house.now) house.now.me moment
        (J.patterns judge.old)
        (desk_of provider.old) left events.old.items (desk_of provider.new) left events.new.items) }
    ensures none { IfOk result (λ more. more ≡ false → undecided (world_at house.now)
        house.now.me provider.new.chronicle.entries ≡ []) }
    ensures fewer { IfOk result (λ more. more ≡ true →
        length (undecided (world_at house.now) house.now.me provider.new.chronicle.entries)
        < length (undecided (world_at house.now) house.now.me provider.old.chronicle.entries)) }
    ensures works { OnOk result (IsAtWork (world_at house.now) house.now.me moment (desk_of provider.new)) }
    ensures ends { (left : Waiting) → frames_in left ≡ [] → IfErr result (λ fault.
        Ends (D.tells × Stands D.sight provider.old.chronicle) (world_at house.now) house.now.me moment
        (J.patterns judge.old)
        (desk_of provider.old) left events.old.items fault (desk_of provider.new) left events.new.items) }
    ensures patterns { J.patterns judge.new ≡ J.patterns judge.old }
    ensures looked { LookAlike (J.seen judge.old) (J.seen judge.new) }
    ensures runs { RunsIn house.now provider.new }
    ensures carries { D.tells → (journals : Journals) → CarriesOn D.sight
        (MayFollow (world_at house.now) journals house.now.me) provider.old.chronicle provider.new.chronicle }
    ensures disk_fault { IsErrOf result faults.DiskFault → HasRisen (D.faults provider.old.chronicle.disk) (D.faults
        provider.new.chronicle.disk) }
    ensures later { D.faults provider.old.chronicle.disk ≤ D.faults provider.new.chronicle.disk }
{
    a_house_is_a_trade(house);
    a_plan_goes_step_by_step();
    frames_are_taken_in_order();
    nothing_has_changed();
    the_next_pairs_are_left();
    what_a_provider_does_is_its_own();
    what_rests_carries_on::<D>();
    events.reserve(1)?;
    let Some(event) = provider.decide_next(alloc, house, moment, judge)? else {
        return Ok(false);
    };
    events.push_reserved(event);
    Ok(true)
}

/// What isn't touched carries on.
pub(crate) fn what_rests_carries_on<D: Disk>()
    ensures { D.tells → (state : ChronicleState D) → CarriesOn D.sight NothingMay state state }
{}
