//! Dossiers of saved letters: what the form `check` writes of them. Worked out by hand.

use crate::directories::Directory;
use crate::items::last_item;
use crate::running::{
    Given, System, in_base64, input_of, joined, played_afresh, ran_afresh, replaced,
};
use pec_top::Status;
use pec_trial::alfa;

/// A directory and the lines behind it, in which `{..}` stands for the base64 of a message; what is written, and the
/// status.
type Dossier = (Directory, &'static str, &'static str, Status);

static DOSSIERS: [Dossier; 1] = [(Directory::Alfa, "", "check 0 0\n", Status::Done)];

/// The tables, by functions without a clause: the proofs of the tests are spared them.
fn dossiers() -> &'static [Dossier] {
    &DOSSIERS
}

fn is_checked(rt: &impl System, input: &[u8], output: &[u8], status: Status) -> bool {
    ran_afresh(rt, &Given::of(&["check"], input)).is(output, status)
}

/// The place of the first dossier that isn't written of as it says.
fn first_other(rt: &impl System) -> Option<usize> {
    for (place, dossier) in dossiers().iter().enumerate() {
        let directory = dossier.0.text(rt.alloc());
        let input = input_of(rt.alloc(), directory.as_str(), dossier.1);
        if !is_checked(rt, &input, dossier.2.as_bytes(), dossier.3) {
            return Some(place);
        }
    }
    None
}

#[test]
fn a_dossier_is_checked_line_by_line(rt: HostRuntime) {
    assert_eq!(rt; first_other(&rt), None);
}

/// A message from alice to anna, to its end, and its receipt of delivery.
fn receipt(rt: &impl System) -> Vec<u8> {
    let ran = played_afresh(
        rt,
        alfa(),
        "submit alfa 1704186000 alice@alfa.example anna@alfa.example {M1}\n\
         round 1704186001\nround 1704186002\nround 1704186003\nshow alice@alfa.example 1\n",
    );
    last_item(rt.alloc(), &ran.text)
}

/// The certification text of a receipt; nothing where it has none.
fn certificate(receipt: &[u8]) -> &str {
    let text = std::str::from_utf8(receipt).unwrap_or("");
    match text.split_once("filename=\"daticert.xml\"\r\n\r\n") {
        Some((_, behind)) => before_the_end(behind),
        None => "",
    }
}

fn before_the_end(behind: &str) -> &str {
    match behind.split_once("\r\n--=_pec_") {
        Some((text, _)) => text,
        None => "",
    }
}

/// What is written of the receipt twice, once with a byte changed, and of the message.
const OUTPUT: &str =
    "genuine 0 delivery pec.0000000@alfa.example alfa 1704186002 anna@alfa.example\n\
     cert CERT\n\
     genuine 1 delivery pec.0000000@alfa.example alfa 1704186002 anna@alfa.example\n\
     cert CERT\n\
     refused 2 seal\n\
     refused 3 seal\n\
     proof pec.0000000@alfa.example anna@alfa.example delivered\n\
     check 2 2\n";

fn is_proved(rt: &impl System) -> bool {
    let alloc = rt.alloc();
    let receipt = receipt(rt);
    let saved = in_base64(alloc, &receipt);
    let changed = replaced(
        alloc,
        std::str::from_utf8(&receipt).unwrap_or(""),
        "Ciao",
        "Caio",
    );
    let other = in_base64(alloc, changed.as_bytes());
    let lines = joined(
        alloc,
        &[
            saved.as_str(),
            "\n",
            saved.as_str(),
            "\n",
            other.as_str(),
            "\n{M1}\n",
        ],
    );
    let input = input_of(alloc, alfa(), lines.as_str());
    let cert = in_base64(alloc, certificate(&receipt).as_bytes());
    !cert.as_str().is_empty()
        && is_checked(
            rt,
            &input,
            replaced(alloc, OUTPUT, "CERT", cert.as_str()).as_bytes(),
            Status::Done,
        )
}

#[test]
fn a_receipt_proves_what_was_decided(rt: HostRuntime) {
    assert!(rt; is_proved(&rt));
}
