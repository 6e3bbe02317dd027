ghost use Rattle.std.specs.Prelude.{◌≡◌, List, None, Ok, false};
ghost use Rattle.std.specs.Result.{result_ok};
ghost use Rattle.pec_types.specs.Answers.{Gives, ReadsExactly, seen_as};
ghost use Rattle.pec_types.specs.Bytes.{Bytes};
ghost use Rattle.pec_types.specs.declared.disputes.LetterFault.TheVariants as faults;
ghost use Rattle.pec_directory.specs.Directory.{Provider, providers_of};
ghost use Rattle.pec_letter_parts.specs.LettersReading.{headed_of};
ghost use Rattle.pec_letter_parts.specs.Views.{headed_shown, letter_shown};
ghost use Rattle.pec_letter_facts.specs.Questions.{marking_of};
ghost use Rattle.pec_letters.specs.Behind.{view_in};
ghost use Rattle.pec_letters.specs.Seen.{IsSeen, IsUnseen, dated, is_marked, seen_of};
ghost use Rattle.pec_letters.specs.SeenReading.{view};
ghost use Rattle.pec_letters.specs.Views.{view_shown};
ghost use Rattle.pec_seal.specs.Seals.{Seals};

use crate::asking::{
    are_recipients, facts_in, is_envelope, is_marked, is_sealed_at_home, is_wished,
};
use crate::laws::a_text_is_one_envelope;
use pec_directory::Directory;
use pec_letter_facts::{id_named, is_dated, is_from_home};
use pec_letter_parts::{Headed, Letter, body_of};
use pec_seal::Sealer;
use pec_types::{Disputed, Facts, LetterFault, Moment, MsgId};
use std::alloc::Global;

/// What is seen of an envelope: the message, when it was accepted, the facts of its head, and the message as it was
/// handed in, a slice of the envelope.
#[derive(Drop)]
pub struct EnvelopeView<'a> {
    pub id: MsgId,
    pub moment: Moment,
    pub facts: Facts,
    pub original: &'a [u8],
}

/// What is seen of a text that is an envelope, or the first row that applies of why it is none: no provider sealed it,
/// or what was sealed has no head, no parts, or no certification text; it is a letter of another kind; or what it says
/// disagrees, on the message, the provider that sealed it, the sender, the recipients, the wish or the moment (RFC
/// 6109, section 2.1.2, within this project's profile).
pub fn read_envelope<'a, S: Sealer>(
    alloc: Global,
    sealer: &S,
    directory: &Directory,
    message: &'a [u8],
) -> Result<EnvelopeView<'a>, LetterFault>
    ensures reads { ReadsExactly (IsSeen (S.seals sealer.now) (providers_of directory.now) message.now) (IsUnseen (S.seals sealer.now) (providers_of directory.now) message.now) faults.NoMemory (seen_as view_shown result) }
    // The same answer as a function of the bytes, for definitions that build on it.
    ensures exact { Gives faults.NoMemory view_shown result (view (S.seals sealer.now) (providers_of directory.now) message.now) }
{
    a_text_is_one_envelope::<S>();
    view_text(alloc, sealer, directory, message)
}

#[tactic(auto, using(crate::proofs::BehindLemmas::no_head))]
fn view_text<'a, S: Sealer>(
    alloc: Global,
    sealer: &S,
    directory: &Directory,
    message: &'a [u8],
) -> Result<EnvelopeView<'a>, LetterFault>
    ensures { Gives faults.NoMemory view_shown result (view (S.seals sealer.now) (providers_of directory.now) message.now) }
{
    let headed = Headed::read(alloc, sealer, message)?;
    envelope_in(alloc, directory, headed)
}

/// What `read_envelope` sees of a text, where its seal was opened and its head read already.
pub fn envelope_in<'a>(
    alloc: Global,
    directory: &Directory,
    headed: Headed<'a>,
) -> Result<EnvelopeView<'a>, LetterFault>
    // Whatever text was read so, and whoever seals: it is what that text is seen as.
    ensures exact { (seals : Seals) (text : Bytes) → headed_of seals text ≡ Ok (headed_shown headed.entry)
        → Gives faults.NoMemory view_shown result (view seals (providers_of directory.now) text) }
{
    see_behind(alloc, directory, headed)
}

/// Whether a head that was read says that it is an envelope's: a text with another head is none. It takes no memory.
pub fn has_envelope_head(headed: &Headed<'_>) -> bool
    ensures value { result ≡ is_marked (marking_of headed.now.head) }
    ensures none { (seals : Seals) (providers : List Provider) (text : Bytes)
        → headed_of seals text ≡ Ok (headed_shown headed.now) → result ≡ false
        → result_ok (view seals providers text) ≡ None }
{
    is_marked(&headed.head)
}

/// What is seen behind a head.
#[tactic(auto, unfolding(crate::specs::Behind::view_in))]
fn see_behind<'a>(
    alloc: Global,
    directory: &Directory,
    headed: Headed<'a>,
) -> Result<EnvelopeView<'a>, LetterFault>
    ensures { Gives faults.NoMemory view_shown result (view_in (providers_of directory.now) (headed_shown headed.entry)) }
{
    let letter = headed.letter(alloc)?;
    see(alloc, directory, &letter)
}

/// What is seen of a letter that was read: the rows in their order, the last by `dated`.
#[tactic(auto, unfolding(crate::specs::Seen::seen_of))]
fn see<'a>(
    alloc: Global,
    directory: &Directory,
    letter: &Letter<'a>,
) -> Result<EnvelopeView<'a>, LetterFault>
    ensures { Gives faults.NoMemory view_shown result (seen_of (providers_of directory.now) (letter_shown letter.now)) }
{
    if !is_envelope(letter) {
        return Err(LetterFault::NotThis);
    }
    let Some(original) = body_of(&letter.parts, b"postacert.eml") else {
        return Err(LetterFault::NotThis);
    };
    let Some(id) = id_named(alloc, directory, b"Message-ID", letter)? else {
        return Err(LetterFault::Disagree(Disputed::Identifier));
    };
    if !is_sealed_at_home(directory, id, letter) {
        return Err(LetterFault::Disagree(Disputed::Sealer));
    }
    if !is_from_home(directory, id, letter) {
        return Err(LetterFault::Disagree(Disputed::Sender));
    }
    let Some(facts) = facts_in(alloc, original, letter)? else {
        return Err(LetterFault::Disagree(Disputed::Sender));
    };
    if !are_recipients(alloc, directory, &facts, letter)? {
        return Err(LetterFault::Disagree(Disputed::Recipient));
    }
    if !is_wished(&facts, letter) {
        return Err(LetterFault::Disagree(Disputed::Wish));
    }
    let view = EnvelopeView {
        id,
        moment: moment_of(letter),
        facts,
        original,
    };
    dated(alloc, letter, view)
}

/// What is seen of a letter that passed every other row, where its date is that of the certified stamp: the last row.
fn dated<'a>(
    alloc: Global,
    letter: &Letter<'_>,
    view: EnvelopeView<'a>,
) -> Result<EnvelopeView<'a>, LetterFault>
    ensures { Gives faults.NoMemory view_shown result (dated (letter_shown letter.now) (view_shown view.entry)) }
{
    if !is_dated(alloc, letter)? {
        return Err(LetterFault::Disagree(Disputed::Moment));
    }
    Ok(view)
}

/// The certified moment.
fn moment_of(letter: &Letter<'_>) -> Moment
    ensures { result ≡ letter.now.cert.stamp.moment }
{
    letter.cert.stamp.moment
}
