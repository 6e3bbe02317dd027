ghost use Rattle.std.specs.Prelude.{◌≡◌, ◌<◌, Err, IfOk};
ghost use Rattle.pec_types.specs.Answers.{OrNoMemory, ReadsExactly, TellsExactly};
ghost use Rattle.pec_types.specs.Bytes.{Bytes};
ghost use Rattle.pec_grammar.specs.Grammar.{ending};
ghost use Rattle.pec_grammar.specs.Reading.{MayGive};
ghost use Rattle.pec_cert.specs.Certificate.{CanBeWritten, IsCert, IsCertFault};
ghost use Rattle.pec_cert.specs.CertificateReading.{cert_of, cert_text, unless_fault};
ghost use Rattle.pec_cert.specs.Front.{wrong_in};
ghost use Rattle.pec_cert.specs.LinesReading.{lines_at};
ghost use Rattle.pec_cert.specs.Stamp.{IsStamp};
ghost use Rattle.pec_cert.specs.declared.certificates.CertData.{CertData};
ghost use Rattle.pec_cert.specs.declared.faults.CertFault.{CertFault as Fault};
ghost use Rattle.pec_cert.specs.declared.faults.CertFault.TheVariants as faults;

use crate::certificates::CertData;
use crate::faults::CertFault;
use crate::lines::Lines;
use crate::shape::lines;
use crate::values::cert_from_lines;
use crate::wrong::wrong_value;
use pec_grammar::{Cursor, ReadError, Stop};
use pec_types::{NoMemory, an_address_is_told_exactly};
use std::alloc::Global;

/// What a certification text certifies (RFC 6109, section 4.4, in the spelling of this project's profile). Of the faults
/// of a text the first by its place is answered: a wrong value comes before a place behind it where the shape ends.
pub fn read(alloc: Global, text: &[u8]) -> Result<CertData, CertFault>
    ensures reads { ReadsExactly (λ cert. IsCert cert text.now) (IsCertFault text.now) faults.NoMemory result }
    // The same answer as a function of the bytes, for definitions that build on it.
    ensures exact { OrNoMemory faults.NoMemory result (cert_of text.now) }
{
    a_text_has_one_answer();
    read_text(alloc, text)
}

fn read_text(alloc: Global, text: &[u8]) -> Result<CertData, CertFault>
    ensures { OrNoMemory faults.NoMemory result (cert_of text.now) }
{
    a_text_has_one_answer();
    match whole_text(alloc, text) {
        Ok(lines) => cert_from_lines(alloc, lines),
        Err(ReadError::Stop(stop)) => {
            let fault = fault_of(alloc, text, text.len() - stop.rest.len())?;
            Err(fault)
        }
        Err(ReadError::NoMemory) => Err(CertFault::NoMemory),
    }
}

/// The fault of a text that stops having the shape of a certification text at this place: that of a wrong value in
/// front of it, or the place.
fn fault_of(alloc: Global, text: &[u8], place: usize) -> Result<CertFault, NoMemory>
    ensures { IfOk result (λ fault. unless_fault (wrong_in text.now) (Err (faults.Syntax place)) ≡ Err fault) }
{
    match wrong_value(alloc, text)? {
        Some(fault) => Ok(fault),
        None => Ok(CertFault::Syntax(place)),
    }
}

fn whole_text(alloc: Global, text: &[u8]) -> Result<Lines, ReadError<'_>>
    ensures { MayGive (λ x. x) result (ending (lines_at (record { rest = text.now; farthest = text.now }))) }
{
    let (lines, at) = lines(alloc, Cursor::new(text))?;
    if !at.rest.is_empty() {
        return Err(ReadError::Stop(Stop { rest: at.rest }));
    }
    Ok(lines)
}

/// The law of certification texts: no text belongs to two certificates, no certificate has two texts, and what is no
/// certification text has one first fault.
pub fn one_text()
    ensures value { (c d : CertData) (text : Bytes) → IsCert c text → IsCert d text → c ≡ d }
    ensures text { (c : CertData) (s t : Bytes) → IsCert c s → IsCert c t → s ≡ t }
    ensures fault { (text : Bytes) (f g : Fault) → IsCertFault text f → IsCertFault text g → f ≡ g }
    ensures either { (c : CertData) (text : Bytes) (f : Fault) → IsCert c text → IsCertFault text f → ⊥ }
{
    an_address_is_told_exactly();
}

/// The function that tells the certificate of a text, or the text's fault, is one with the relations: definitions above
/// may take either.
pub fn a_text_has_one_answer()
    ensures { (text : Bytes) → TellsExactly (λ cert. IsCert cert text) (IsCertFault text) (cert_of text) }
{
    an_address_is_told_exactly();
}

/// The same of the function that gives the text of a certificate: each certificate that can be written, of a moment
/// before the year 2100, has this text, and no other.
pub fn a_certificate_has_one_text()
    ensures text { (cert : CertData) → CanBeWritten cert → IsStamp cert.stamp → IsCert cert (cert_text cert) }
    ensures only { (cert : CertData) (text : Bytes) → IsCert cert text → text ≡ cert_text cert }
{}
