ghost use Rattle.std.specs.Prelude.{◌≡◌, ◌+◌, ◌<◌, [], ◌∷◌, ◌++◌, List, length, map, IfOk};
ghost use Rattle.pec_directory.specs.Directory.{providers_of};
ghost use Rattle.pec_check.specs.GenuineReading.{report_of};
ghost use Rattle.pec_script.specs.Texts.{text_of};
ghost use Rattle.pec_runs.specs.ScriptLines.{most_lines};
ghost use Rattle.pec_dossier.specs.Tallies.{summary_text, tally_of};
ghost use Rattle.pec_dossier.specs.Texts.{Told, finding_words, message_rows};

use crate::texts::{add_counts, add_finding, genuine_text, refusal_text};
use pec_check::{Dossier, Finding, check};
use pec_directory::Directory;
use pec_script::{Page, lines_are_put_in_their_order};
use pec_seal::Sealer;
use pec_types::NoMemory;
use std::alloc::Global;

/// What is kept of the messages of a dossier while it is checked: what they prove together, and how many of them are
/// genuine letters and how many aren't.
#[derive(Drop)]
pub(crate) struct Tally {
    findings: Dossier,
    genuine: u64,
    refused: u64,
}

impl Tally {
    /// That of no messages. It takes no memory.
    pub(crate) fn new(alloc: Global) -> Tally
        ensures { result ≡ tally_of [] }
    {
        Tally {
            findings: Dossier::new(alloc),
            genuine: 0,
            refused: 0,
        }
    }

    /// Checks the next message, and takes what it says. The answer is the lines of what is told of it.
    pub(crate) fn check<S: Sealer>(
        &mut self,
        alloc: Global,
        sealer: &S,
        directory: &Directory,
        message: &[u8],
    ) -> Result<Vec<u8>, NoMemory>
        requires { self.old.genuine + self.old.refused < most_lines }
        ensures { (all : List Told) → self.old ≡ tally_of all → IfOk result (λ text.
            (text.items ≡ text_of (message_rows (providers_of directory.now) (length all)
            (report_of (S.seals sealer.now) (providers_of directory.now) message.now)))
            × (self.new ≡ tally_of (all
            ++ report_of (S.seals sealer.now) (providers_of directory.now) message.now ∷ []))) }
    {
        let number = self.genuine + self.refused;
        match check(alloc, sealer, directory, message) {
            Ok(report) => {
                let text = genuine_text(alloc, directory, number, &report)?;
                self.findings.add(&report)?;
                self.genuine += 1;
                Ok(text)
            }
            Err(fault) => {
                let text = refusal_text(alloc, number, fault)?;
                self.refused += 1;
                Ok(text)
            }
        }
    }

    /// What all of them prove together, and `check GENUINE REFUSED`.
    #[tactic(auto, unfolding(crate::specs::Tallies::summary_text))]
    pub(crate) fn summary(&self, alloc: Global, directory: &Directory) -> Result<Vec<u8>, NoMemory>
        ensures { IfOk result (λ text. text.items ≡ summary_text (providers_of directory.now) self.now) }
    {
        lines_are_put_in_their_order();
        let findings = self.findings.lines()?;
        let page = findings_page(alloc, directory, &findings)?;
        let page = add_counts(page, self.genuine, self.refused)?;
        Ok(page.text)
    }
}

/// The lines of all findings.
fn findings_page(
    alloc: Global,
    directory: &Directory,
    findings: &[Finding],
) -> Result<Page, NoMemory>
    ensures { IfOk result (λ page. page.text.items
        ≡ text_of (map (finding_words (providers_of directory.now)) findings.now)) }
{
    lines_are_put_in_their_order();
    let mut page = Page::new(alloc);
    for finding in findings {
        page = add_finding(alloc, page, directory, finding)?;
    }
    Ok(page)
}
