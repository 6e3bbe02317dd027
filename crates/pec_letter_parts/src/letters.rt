ghost use Rattle.std.specs.Prelude.{◌≡◌, ◌≤◌, length, option_map, IfOk, IsErrOf};
ghost use Rattle.pec_types.specs.Answers.{Gives, OrNoMemory, ReadsExactly, TellsExactly, seen_as};
ghost use Rattle.pec_types.specs.Bytes.{Bytes};
ghost use Rattle.pec_types.specs.declared.disputes.LetterFault.TheVariants as faults;
ghost use Rattle.pec_heads.specs.HeadReading.{read_of};
ghost use Rattle.pec_bodies.specs.PartsReading.{parts_of};
ghost use Rattle.pec_cert.specs.CertificateReading.{cert_of};
ghost use Rattle.pec_seal.specs.Opening.{opened_of};
ghost use Rattle.pec_letter_parts.specs.Asking.{readable};
ghost use Rattle.pec_letter_parts.specs.Letters.{Headed as HeadedShown, IsHeaded, IsLetter, IsLetterIn, IsUnheaded, IsUnread, IsUnreadIn, body_of, is_value, part_name};
ghost use Rattle.pec_letter_parts.specs.LettersReading.{certified_by, headed_of, letter_in, letter_of};
ghost use Rattle.pec_letter_parts.specs.Views.{headed_shown, letter_shown};

use pec_bodies::{BodyFault, Parts, a_body_has_one_reading, parameter};
use pec_cert::{CertData, CertFault, a_text_has_one_answer, read};
use pec_heads::{Head, HeadFault, a_text_has_one_reading};
use pec_seal::{Sealer, opened, sealing_and_opening};
use pec_types::LetterFault;
use std::alloc::Global;

/// A text that opened: the provider that sealed it, the head of what was sealed, and what is behind that, a slice of
/// the text.
#[derive(Drop)]
pub struct Headed<'a> {
    pub sealer: u32,
    pub head: Head,
    pub body: &'a [u8],
}

/// A letter that was read: the provider that sealed it, its head, its parts, slices of the text, and what it certifies.
pub struct Letter<'a> {
    pub sealer: u32,
    pub head: Head,
    pub parts: Parts<'a>,
    pub cert: CertData,
}

// Written out, so that to drop a letter is one call wherever it is done, and not the drops of all its fields.
impl Drop for Letter<'_> {
    fn drop(self) {
        let Letter {
            sealer: _,
            head: _,
            parts: _,
            cert: _,
        } = self;
    }
}

/// The law of what is behind a head: one letter or a fault, never both, and `letter_in` gives it.
pub fn a_head_has_one_letter()
    ensures { (read : HeadedShown) → TellsExactly (IsLetterIn read) (IsUnreadIn read) (letter_in read) }
{
    a_body_has_one_reading();
    a_text_has_one_answer();
}

/// The law of what is read of texts: one head behind a seal or a fault, and so one letter or a fault, never both;
/// `headed_of` and `letter_of` give them.
pub fn a_text_is_one_letter<S: Sealer>()
    ensures headed { (sealer : S) (text : Bytes) → TellsExactly (IsHeaded (S.seals sealer) text) (IsUnheaded (S.seals sealer) text) (headed_of (S.seals sealer) text) }
    ensures letter { (sealer : S) (text : Bytes) → TellsExactly (IsLetter (S.seals sealer) text) (IsUnread (S.seals sealer) text) (letter_of (S.seals sealer) text) }
{
    sealing_and_opening::<S>();
    a_text_has_one_reading();
    a_head_has_one_letter();
}

impl<'a> Headed<'a> {
    /// Who sealed a text, and the head of what was sealed; what is behind the head is a slice of the text. The fault is
    /// `Seal` where no provider sealed the text, and otherwise `Head` where what was sealed has no head.
    pub fn read<S: Sealer>(
        alloc: Global,
        sealer: &S,
        text: &'a [u8],
    ) -> Result<Headed<'a>, LetterFault>
        ensures reads { ReadsExactly (IsHeaded (S.seals sealer.now) text.now) (IsUnheaded (S.seals sealer.now) text.now) faults.NoMemory (seen_as headed_shown result) }
        // The same answer as a function of the bytes, for definitions that build on it.
        ensures exact { Gives faults.NoMemory headed_shown result (headed_of (S.seals sealer.now) text.now) }
    {
        a_text_is_one_letter::<S>();
        read_headed(alloc, sealer, text)
    }

    /// The letter behind the head. The fault is `Body` where there are no parts, and otherwise `Cert` where no part is
    /// named `daticert.xml` or the first such part's body is no certification text.
    pub fn letter(self, alloc: Global) -> Result<Letter<'a>, LetterFault>
        ensures reads { ReadsExactly (IsLetterIn (headed_shown self.entry)) (IsUnreadIn (headed_shown self.entry)) faults.NoMemory (seen_as letter_shown result) }
        // The same answer as a function of what was read, for definitions that build on it.
        ensures exact { Gives faults.NoMemory letter_shown result (letter_in (headed_shown self.entry)) }
    {
        a_head_has_one_letter();
        self.read_letter(alloc)
    }

    #[tactic(auto, unfolding(crate::specs::LettersReading::letter_in))]
    fn read_letter(self, alloc: Global) -> Result<Letter<'a>, LetterFault>
        ensures { Gives faults.NoMemory letter_shown result (letter_in (headed_shown self.entry)) }
    {
        let parts = read_parts(alloc, &self.head, self.body)?;
        let cert = read_cert(alloc, &parts)?;
        Ok(Letter {
            sealer: self.sealer,
            head: self.head,
            parts,
            cert,
        })
    }
}

#[tactic(auto, unfolding(crate::specs::LettersReading::headed_of))]
fn read_headed<'a, S: Sealer>(
    alloc: Global,
    sealer: &S,
    text: &'a [u8],
) -> Result<Headed<'a>, LetterFault>
    ensures { Gives faults.NoMemory headed_shown result (headed_of (S.seals sealer.now) text.now) }
{
    let (sealer, bytes) = open(sealer, text)?;
    let (head, place) = read_head(alloc, bytes)?;
    Ok(Headed {
        sealer,
        head,
        body: &bytes[place..],
    })
}

fn open<'a, S: Sealer>(sealer: &S, text: &'a [u8]) -> Result<(u32, &'a [u8]), LetterFault>
    ensures given { Gives faults.NoMemory (λ found. (found.0, found.1.now)) result (readable (opened_of (S.seals sealer.now) text.now) faults.Seal) }
    ensures memory { IsErrOf result LetterFault.NoMemory → ⊥ }
{
    match opened(sealer, text) {
        Ok(found) => Ok(found),
        Err(_) => Err(LetterFault::Seal),
    }
}

fn read_head(alloc: Global, bytes: &[u8]) -> Result<(Head, usize), LetterFault>
    ensures given { OrNoMemory faults.NoMemory result (readable (read_of bytes.now) faults.Head) }
    ensures within { IfOk result (λ read. read.1 ≤ length bytes.now) }
{
    match Head::read(alloc, bytes) {
        Ok(read) => Ok(read),
        Err(HeadFault::NoMemory) => Err(LetterFault::NoMemory),
        Err(_) => Err(LetterFault::Head),
    }
}

fn read_parts<'a>(alloc: Global, head: &Head, body: &'a [u8]) -> Result<Parts<'a>, LetterFault>
    ensures { OrNoMemory faults.NoMemory result (readable (parts_of head.now body.now) faults.Body) }
{
    match Parts::read(alloc, head, body) {
        Ok(parts) => Ok(parts),
        Err(BodyFault::NoMemory) => Err(LetterFault::NoMemory),
        Err(_) => Err(LetterFault::Body),
    }
}

/// What the first part named `daticert.xml` certifies.
#[tactic(auto, unfolding(crate::specs::LettersReading::certified_by))]
fn read_cert(alloc: Global, parts: &Parts<'_>) -> Result<CertData, LetterFault>
    ensures { OrNoMemory faults.NoMemory result (certified_by parts.now) }
{
    let Some(text) = body_of(parts, b"daticert.xml") else {
        return Err(LetterFault::Cert);
    };
    let cert = certificate(alloc, text)?;
    Ok(cert)
}

fn certificate(alloc: Global, text: &[u8]) -> Result<CertData, LetterFault>
    ensures { OrNoMemory faults.NoMemory result (readable (cert_of text.now) faults.Cert) }
{
    match read(alloc, text) {
        Ok(cert) => Ok(cert),
        Err(CertFault::NoMemory) => Err(LetterFault::NoMemory),
        Err(_) => Err(LetterFault::Cert),
    }
}

/// The body of the first part of a name: the parameter `name` of its first `Content-Type`. It takes no memory.
#[tactic(auto, unfolding(crate::specs::Letters::body_of))]
pub fn body_of<'a>(parts: &Parts<'a>, name: &[u8]) -> Option<&'a [u8]>
    ensures { option_map (λ body. body.now) result ≡ body_of name.now parts.now }
{
    for i in 0..parts.count() {
        let (Some(head), Some(part)) = (parts.head(i), parts.part(i)) else {
            unreachable!();
        };
        if has_name(head, name) {
            return Some(part.body);
        }
    }
    None
}

fn has_name(head: &Head, name: &[u8]) -> bool
    ensures { result ≡ is_value name.now (part_name head.now) }
{
    let Some(value) = head.field(b"Content-Type") else {
        return false;
    };
    match parameter(value, b"name") {
        Some(found) => found == name,
        None => false,
    }
}
