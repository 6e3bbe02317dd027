ghost use Rattle.std.specs.Prelude.{◌≡◌, ◌+◌, ◌≤◌, IfErr, IfOk, IsErrOf, OnErr, OnOk, length, map};
ghost use Rattle.pec_outside.specs.Flow.{HasRisen, WrotePart, followed_by};
ghost use Rattle.pec_directory.specs.Directory.{providers_of};
ghost use Rattle.pec_directory.specs.Walk.{most_providers};
ghost use Rattle.pec_provider.specs.OfTrades.{Fits, trade_of};
ghost use Rattle.pec_provider.specs.Provider.{desk_of};
ghost use Rattle.pec_extract.specs.LogRows.{both, no_totals};
ghost use Rattle.pec_extract.specs.Logs.{
  AllRead,
  AllRun,
  AllStand,
  AllUp,
  FaultLeaves,
  HasGrown,
  HasRisenIn,
  IsChangedFrom,
  IsChangedIn,
  LogsTell,
  LogsTellFrom,
  OnRead,
  RunFrom,
  TotalsUpTo,
  log_text,
  logs_of,
  rows_of_all,
  totals_of_all,
};
ghost use Rattle.pec_extract.specs.Reading.{OnChanged};
ghost use Rattle.pec_extract.specs.Records.{header, record_text, records_text};
ghost use Rattle.pec_extract.specs.declared.faults.ExtractFault.TheVariants as faults;

use crate::faults::ExtractFault;
use crate::laws::what_rests_carries_on;
use crate::logging::write_provider;
use crate::writing::{Totals, write_header, write_totals};
use pec_directory::Directory;
use pec_outside::{Disk, Sink};
use pec_provider::{House, Provider};
use pec_seal::Sealer;
use pec_types::Moment;
use std::alloc::Global;

/// Writes an extract whole: the header, the rows of each provider's log in the range, provider by provider, and the
/// totals of all. After a fault a front of it was written, and what faults there are is what `write_provider` says. After
/// `DiskFault` and `Changed` one provider is down, and the header was written; else each is as it was.
pub fn write_log<S: Sealer, D: Disk, W: Sink>(
    alloc: Global,
    directory: &Directory,
    sealer: &S,
    providers: &mut [Provider<D>],
    from: Moment,
    upto: Moment,
    out: &mut W,
) -> Result<(), ExtractFault>
    requires fits { Fits (S.seals sealer.now) (providers_of directory.now) }
    requires count { length providers.old ≡ length directory.now }
    requires runs { AllRun directory.now (S.seals sealer.now) providers.old }
    requires up { AllUp providers.old }

    // Over disks that tell what they hold, and on which what is kept stands, it is the text of the logs, or a front of it.
    ensures ok { D.tells → AllStand D.sight providers.old → OnOk result (W.held out.new ≡ followed_by (W.held out.old)
        (log_text (trade_of directory.now (S.seals sealer.now)) (providers_of directory.now) from upto
        (logs_of providers.old))) }
    // For none of its rows the entry holds no envelope of its message.
    ensures tells { D.tells → AllStand D.sight providers.old → OnOk result
        (LogsTell (trade_of directory.now (S.seals sealer.now)) from upto (logs_of providers.old)) }
    ensures err { D.tells → AllStand D.sight providers.old → OnErr result (WrotePart (W.held out.old) (W.held out.new)
        (log_text (trade_of directory.now (S.seals sealer.now)) (providers_of directory.now) from upto
        (logs_of providers.old))) }
    ensures header { IfErr result (OnRead
        (HasGrown (followed_by (W.held out.old) (record_text header)) (W.held out.new))) }
    ensures changed { D.tells → AllStand D.sight providers.old → IfErr result (OnChanged
        (IsChangedIn (trade_of directory.now (S.seals sealer.now)) (logs_of providers.old))) }
    ensures count { length providers.new ≡ length providers.old }
    ensures read { AllRead D.tells D.sight D.faults providers.old providers.new }
    ensures desks { OnOk result (map desk_of providers.new ≡ map desk_of providers.old) }
    ensures stopped { IfErr result (FaultLeaves (map desk_of providers.old) (map desk_of providers.new)) }
    ensures runs { AllRun directory.now (S.seals sealer.now) providers.new }
    ensures disk_fault { IsErrOf result faults.DiskFault → HasRisenIn D.faults providers.old providers.new }
    ensures write_fault { IsErrOf result faults.WriteFault → HasRisen (W.faults out.old) (W.faults out.new) }
    ensures later { W.faults out.old ≤ W.faults out.new }
    ensures kept { W.left out.new ≡ W.left out.old }
{
    what_rests_carries_on::<D>();
    write_header(alloc, out)?;
    let totals = write_each(alloc, directory, sealer, 0, providers, from, upto, out)?;
    write_totals(alloc, &totals, out)?;
    Ok(())
}

/// Writes the rows of the logs of these providers, which are numbered from `me` on. The answer is what is known of the
/// pairs that all of them accepted in the range.
fn write_each<S: Sealer, D: Disk, W: Sink>(
    alloc: Global,
    directory: &Directory,
    sealer: &S,
    me: u32,
    providers: &mut [Provider<D>],
    from: Moment,
    upto: Moment,
    out: &mut W,
) -> Result<Totals, ExtractFault>
    requires fits { Fits (S.seals sealer.now) (providers_of directory.now) }
    requires within { me + length providers.old ≤ length directory.now }
    requires runs { RunFrom directory.now (S.seals sealer.now) me providers.old }
    requires up { AllUp providers.old }
    ensures rows { D.tells → AllStand D.sight providers.old → OnOk result (W.held out.new ≡ followed_by (W.held out.old)
        (records_text (rows_of_all (trade_of directory.now (S.seals sealer.now)) (providers_of directory.now) from upto me
        (logs_of providers.old)))) }
    ensures front { D.tells → AllStand D.sight providers.old → OnErr result (WrotePart (W.held out.old) (W.held out.new)
        (records_text (rows_of_all (trade_of directory.now (S.seals sealer.now)) (providers_of directory.now) from upto me
        (logs_of providers.old)))) }
    ensures tells { D.tells → AllStand D.sight providers.old → OnOk result
        (LogsTellFrom (trade_of directory.now (S.seals sealer.now)) from upto me (logs_of providers.old)) }
    ensures grown { HasGrown (W.held out.old) (W.held out.new) }
    ensures totals { IfOk result (λ totals. totals ≡ totals_of_all (trade_of directory.now (S.seals sealer.now))
        from upto me (logs_of providers.old)) }
    ensures few { IfOk result (λ totals. TotalsUpTo totals (length providers.old)) }
    ensures changed { D.tells → AllStand D.sight providers.old → IfErr result (OnChanged
        (IsChangedFrom (trade_of directory.now (S.seals sealer.now)) me (logs_of providers.old))) }
    ensures count { length providers.new ≡ length providers.old }
    ensures read { AllRead D.tells D.sight D.faults providers.old providers.new }
    ensures desks { OnOk result (map desk_of providers.new ≡ map desk_of providers.old) }
    ensures stopped { IfErr result (FaultLeaves (map desk_of providers.old) (map desk_of providers.new)) }
    ensures runs { RunFrom directory.now (S.seals sealer.now) me providers.new }
    ensures disk_fault { IsErrOf result faults.DiskFault → HasRisenIn D.faults providers.old providers.new }
    ensures write_fault { IsErrOf result faults.WriteFault → HasRisen (W.faults out.old) (W.faults out.new) }
    ensures later { W.faults out.old ≤ W.faults out.new }
    ensures kept { W.left out.new ≡ W.left out.old }
{
    what_rests_carries_on::<D>();
    // (there are few providers)
    directory.count();
    let Some((first, others)) = providers.split_first_mut() else {
        return Ok(no_totals());
    };
    let house = House {
        directory,
        sealer,
        me,
    };
    let own = write_provider(alloc, &house, first, from, upto, out)?;
    let rest = write_each(alloc, directory, sealer, me + 1, others, from, upto, out)?;
    Ok(both(own, rest))
}

/// Of no pair.
fn no_totals() -> Totals
    ensures { result ≡ no_totals }
{
    Totals {
        accepted: 0,
        delivered: 0,
        refused: 0,
        pending: 0,
    }
}

/// Two totals in one.
fn both(own: Totals, rest: Totals) -> Totals
    requires own { TotalsUpTo own most_providers }
    requires rest { TotalsUpTo rest most_providers }
    ensures { result ≡ both own rest }
{
    Totals {
        accepted: own.accepted + rest.accepted,
        delivered: own.delivered + rest.delivered,
        refused: own.refused + rest.refused,
        pending: own.pending + rest.pending,
    }
}
