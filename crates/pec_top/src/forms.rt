ghost use Rattle.std.specs.Prelude.{◌≡◌, ◌≤◌, codes, map, None, IfSome, option_map, string_bytes, if◌then◌else◌};
ghost use Rattle.std.specs.Str.{bytes_eq};
ghost use Rattle.pec_dossier.specs.Checks.{asks_check};
ghost use Rattle.pec_dossier.specs.Exports.{asks_ldif};
ghost use Rattle.pec_dossier.specs.Extracts.{extracts_in, range_between};
ghost use Rattle.pec_load_runs.specs.Loading.{loads_in, number_loaded};
ghost use Rattle.pec_runs.specs.Openings.{form_in};
ghost use Rattle.pec_service.specs.Runs.{number_wanted, wanted_in};
ghost use Rattle.pec_top.specs.Shown.{AsksFew, form_named, form_shown, range_shown, task_shown, way_of};
ghost use Rattle.pec_top.specs.Tasks.{task_in};
ghost use Rattle.pec_types.specs.declared.moments.TheConstants.{END_OF_TIME};
ghost use Rattle.pec_words.specs.Numbers.{number_below};

use pec_load::MOST_MESSAGES;
use pec_serving::Form as Way;
use pec_types::{END_OF_TIME, Moment};
use pec_words::number_below;

/// How many connections may be asked for.
const MOST_CONNECTIONS: u64 = 1_000_000;

/// What the words ask of the program.
#[derive(Clone, Copy, Debug, PartialEq, Eq)]
pub(crate) enum Task {
    /// To play a script.
    Play(Form),
    /// To serve so many connections.
    Serve(u32),
    /// To write its directory as LDIF.
    Export,
    /// To check a dossier of saved letters.
    Check,
    /// To write an extract of logs, from the first moment to the second.
    Extract(Moment, Moment),
    /// To play a load of so many messages.
    Load(u64),
    /// The words are none of the program's forms.
    NoForm,
}

impl Task {
    pub(crate) fn of(words: &[String]) -> Task
        ensures shown { task_shown result ≡ task_in (map string_bytes words.now) }
        ensures few { AsksFew result }
    {
        if asks_ldif(words) {
            return Task::Export;
        }
        if asks_check(words) {
            return Task::Check;
        }
        if let Some((from, upto)) = extracted(words) {
            return Task::Extract(from, upto);
        }
        if let Some(count) = loaded(words) {
            return Task::Load(count);
        }
        if let Some(wanted) = wanted(words) {
            return Task::Serve(wanted);
        }
        match Form::of(words) {
            Some(form) => Task::Play(form),
            None => Task::NoForm,
        }
    }
}

/// The forms of the program that play a script.
#[derive(Clone, Copy, Debug, PartialEq, Eq)]
pub(crate) enum Form {
    /// Journals are made, on empty disks.
    Run,
    /// The journals that are there are opened.
    Resume,
}

impl Form {
    /// The form that the words are.
    fn of(words: &[String]) -> Option<Form>
        ensures { option_map form_shown result ≡ form_in (map string_bytes words.now) }
    {
        match words {
            [word] => named(word.as_str()),
            _ => None,
        }
    }

    /// How a network begins in this form.
    pub(crate) fn way(self) -> Way
        ensures { result ≡ way_of self }
    {
        match self {
            Form::Run => Way::Make,
            Form::Resume => Way::Open,
        }
    }
}

/// The form of a word.
fn named(word: &str) -> Option<Form>
    ensures { option_map form_shown result ≡ form_named word.now }
{
    if word == "run" {
        return Some(Form::Run);
    }
    if word == "resume" {
        return Some(Form::Resume);
    }
    None
}

/// Whether the words ask for the directory as LDIF: `ldif`.
fn asks_ldif(words: &[String]) -> bool
    ensures { result ≡ asks_ldif (map string_bytes words.now) }
{
    match words {
        [word] => word.as_str() == "ldif",
        _ => false,
    }
}

/// Whether the words ask for a dossier to be checked: `check`.
fn asks_check(words: &[String]) -> bool
    ensures { result ≡ asks_check (map string_bytes words.now) }
{
    match words {
        [word] => word.as_str() == "check",
        _ => false,
    }
}

/// The ends of the range that the words ask for, where they are `extract FROM TO`.
fn extracted(words: &[String]) -> Option<(Moment, Moment)>
    ensures { option_map range_shown result ≡ extracts_in (map string_bytes words.now) }
{
    match words {
        [word, from, upto] => extracted_of(word.as_str(), from.as_bytes(), upto.as_bytes()),
        _ => None,
    }
}

fn extracted_of(word: &str, from: &[u8], upto: &[u8]) -> Option<(Moment, Moment)>
    ensures { option_map range_shown result ≡ if bytes_eq word.now (codes "extract")
        then range_between (number_below END_OF_TIME from.now) (number_below END_OF_TIME upto.now) else None }
{
    if word != "extract" {
        return None;
    }
    let from = moment_of(from)?;
    let upto = moment_of(upto)?;
    if upto.seconds() < from.seconds() {
        return None;
    }
    Some((from, upto))
}

/// The moment that the text is.
fn moment_of(text: &[u8]) -> Option<Moment>
    ensures { result ≡ number_below END_OF_TIME text.now }
{
    let seconds = number_below(text, END_OF_TIME)?;
    Moment::new(seconds)
}

/// How many messages the words ask for, where they are `load N`.
fn loaded(words: &[String]) -> Option<u64>
    ensures shown { result ≡ loads_in (map string_bytes words.now) }
    ensures few { IfSome result (λ count. count ≤ MOST_MESSAGES) }
{
    match words {
        [word, number] => loaded_of(word.as_str(), number.as_bytes()),
        _ => None,
    }
}

fn loaded_of(word: &str, number: &[u8]) -> Option<u64>
    ensures shown { result ≡ if bytes_eq word.now (codes "load") then number_loaded number.now else None }
    ensures few { IfSome result (λ count. count ≤ MOST_MESSAGES) }
{
    if word != "load" {
        return None;
    }
    let number = number_below(number, MOST_MESSAGES + 1)?;
    if number == 0 {
        return None;
    }
    Some(number)
}

/// How many connections the words ask for, where they are `serve N`.
fn wanted(words: &[String]) -> Option<u32>
    ensures { result ≡ wanted_in (map string_bytes words.now) }
{
    match words {
        [word, number] => wanted_of(word.as_str(), number.as_bytes()),
        _ => None,
    }
}

fn wanted_of(word: &str, number: &[u8]) -> Option<u32>
    ensures { result ≡ if bytes_eq word.now (codes "serve") then number_wanted number.now else None }
{
    if word != "serve" {
        return None;
    }
    let number = number_below(number, MOST_CONNECTIONS + 1)?;
    if number == 0 {
        return None;
    }
    Some(number as u32)
}
