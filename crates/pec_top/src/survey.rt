ghost use Rattle.std.specs.Prelude.{◌≡◌, ◌≢◌, ◌⊎◌, ℕ, ◌<◌, ◌≤◌, IfOk, OnErr};
ghost use Rattle.pec_outside.specs.Depots.{depot_places};
ghost use Rattle.pec_outside.specs.Flow.{HasRisen};
ghost use Rattle.pec_runs.specs.Openings.{disks_at};
ghost use Rattle.pec_service.specs.Runs.{IsChosen};
ghost use Rattle.pec_top.specs.Shown.{form_shown};
ghost use Rattle.pec_top.specs.Surveys.{AreAsTheyWere, HoldsSo};

use crate::forms::Form;
use pec_outside::{Depot, Disk, Failed, a_disk_is_so};

/// How the providers of so many disks come to their journals where connections are served: they are made where all
/// disks are empty, and opened where one holds something. The first that does is the last that is looked at.
pub(crate) fn choose_form<P: Depot>(depot: &mut P, count: u32) -> Result<Form, Failed>
    requires { count ≤ depot_places }
    ensures chosen { IfOk result (λ form.
        IsChosen (disks_at (P.tells × P.D.tells) P.D.sight (P.home depot.old)) count (form_shown form)) }
    ensures elsewhere { P.tells → (provider : ℕ) → count ≤ provider
        → P.home depot.new provider ≡ P.home depot.old provider }
    ensures rest { P.tells → AreAsTheyWere P.D.tells P.D.sight (P.home depot.old) (P.home depot.new) }
    ensures last { (provider : ℕ) → P.last depot.old provider ≤ P.last depot.new provider }
    ensures later { P.faults depot.old ≤ P.faults depot.new }
    ensures cause { OnErr result (HasRisen (P.faults depot.old) (P.faults depot.new)
        ⊎ ((provider : ℕ) × HasRisen (P.last depot.old provider) (P.last depot.new provider))) }
{
    for provider in 0..count {
        let holds = holds_something(depot, provider)?;
        if holds {
            return Ok(Form::Resume);
        }
    }
    Ok(Form::Run)
}

/// Whether a provider's disk, which is at home, holds something.
pub(crate) fn holds_something<P: Depot>(depot: &mut P, provider: u32) -> Result<bool, Failed>
    requires { provider < depot_places }
    ensures holds { P.tells → IfOk result (HoldsSo P.D.tells P.D.sight (P.home depot.old provider)) }
    ensures elsewhere { P.tells → (number : ℕ) → number ≢ provider
        → P.home depot.new number ≡ P.home depot.old number }
    ensures rest { P.tells → AreAsTheyWere P.D.tells P.D.sight (P.home depot.old) (P.home depot.new) }
    ensures last { (number : ℕ) → P.last depot.old number ≤ P.last depot.new number }
    ensures later { P.faults depot.old ≤ P.faults depot.new }
    ensures cause { OnErr result (HasRisen (P.faults depot.old) (P.faults depot.new)
        ⊎ HasRisen (P.last depot.old provider) (P.last depot.new provider)) }
{
    a_disk_is_so::<P::D>();
    let mut disk = depot.disk(provider)?;
    let size = disk.size();
    depot.keep(provider, disk);
    match size {
        Ok(size) => Ok(size > 0),
        Err(failed) => Err(failed),
    }
}
