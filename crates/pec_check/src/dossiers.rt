ghost use Rattle.std.specs.Prelude.{◌≡◌, [], ◌∷◌, ◌++◌, List, map, IfOk, OnOk, OnErr};
ghost use Rattle.std.specs.Option.{option_map};
ghost use Rattle.pec_check.specs.Findings.{findings_of};
ghost use Rattle.pec_check.specs.FindingsReading.{attested_at, told_with, with_attested};
ghost use Rattle.pec_check.specs.Views.{finding_shown};
ghost use Rattle.pec_check.specs.declared.reports.Report.{Report as ReportShown};

use crate::pairs::PairKey;
use crate::reports::Report;
use indexmap::IndexMap;
use pec_types::{Address, Decision, MsgId, NoMemory};
use std::alloc::Global;
use std::marker::Model;

/// What the letters of a dossier say together of a message and one of its recipients: the decision that all of them
/// tell, or `None` where they contradict each other.
#[derive(Drop)]
pub struct Finding {
    pub id: MsgId,
    pub recipient: Address,
    pub decision: Option<Decision>,
}

/// What genuine letters prove together. Contracts see its findings, in the order in which each pair of a message and a
/// recipient first came.
#[derive(Drop)]
pub struct Dossier {
    alloc: Global,
    pairs: IndexMap<PairKey, Option<Decision>>,
}

impl Model for Dossier {
    ghost use Rattle.std.specs.Prelude.{List, map};
    ghost use Rattle.pec_check.specs.Views.{finding_shown};
    ghost use Rattle.pec_check.specs.declared.dossiers.Finding.{Finding as FindingShown};

    ghost Value = { List FindingShown };

    ghost view = { λ dossier. map finding_shown dossier.pairs.entries };
}

impl Dossier {
    /// The dossier of no letters. It takes no memory, and keeps the allocator for what is added and told.
    pub fn new(alloc: Global) -> Dossier
        ensures { result ≡ findings_of [] }
    {
        Dossier {
            alloc,
            pairs: IndexMap::new(alloc),
        }
    }

    /// Adds what a genuine letter says. Want of memory leaves the dossier as it was.
    pub fn add(&mut self, report: &Report) -> Result<(), NoMemory>
        // The dossier of some letters becomes that of these and the new one.
        ensures ok { (reports : List ReportShown) → self.old ≡ findings_of reports
            → OnOk result (self.new ≡ findings_of (reports ++ report.now ∷ [])) }
        ensures err { OnErr result (self.new ≡ self.old) }
    {
        let (Some(decision), Some(recipient)) = (report.kind.decision(), &report.recipient) else {
            return Ok(());
        };
        let pair = PairKey {
            id: report.id,
            recipient: recipient.copy(self.alloc)?,
        };
        note(&mut self.pairs, pair, decision)
    }

    /// The findings: one of each message and recipient of which a letter tells a decision, in the order in which they
    /// first came.
    pub fn lines(&self) -> Result<Vec<Finding>, NoMemory>
        ensures { IfOk result (λ lines. lines.items ≡ self.now) }
    {
        let mut lines = Vec::new(self.alloc);
        for (pair, decision) in self.pairs.iter() {
            lines.push(Finding {
                id: pair.id,
                recipient: pair.recipient.copy(self.alloc)?,
                decision: *decision,
            })?;
        }
        Ok(lines)
    }
}

/// Notes one more decision on a pair. Want of memory leaves all as it was.
fn note(
    pairs: &mut IndexMap<PairKey, Option<Decision>>,
    pair: PairKey,
    decision: Decision,
) -> Result<(), NoMemory>
    ensures ok { OnOk result (map finding_shown pairs.new.entries
        ≡ with_attested (map finding_shown pairs.old.entries) (attested_at pair decision)) }
    ensures err { OnErr result (pairs.new.entries ≡ pairs.old.entries) }
{
    let told = told_with(pairs.get(&pair), decision);
    pairs.insert(pair, told)?;
    Ok(())
}

/// What is told of a pair, with one more decision.
fn told_with(told: Option<&Option<Decision>>, decision: Decision) -> Option<Decision>
    ensures { result ≡ told_with (option_map (λ known. known.now) told.entry) decision }
{
    match told {
        Some(Some(known)) if known.word() != decision.word() => None,
        Some(known) => *known,
        None => Some(decision),
    }
}
