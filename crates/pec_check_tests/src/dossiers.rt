//! Dossiers, line by line: what is written of them, and how they end. Worked out by hand.

use crate::houses::House;
use crate::letters::{Saved, certified, letter_of, replaced};
use base64::engine::general_purpose::STANDARD;
use pec_dossier::{Last, Stop};
use std::alloc::Global;

const BOB: &str = "bob@beta.example";

const CARL: &str = "carl@beta.example";

/// A line: a letter that its provider seals; the same with other words for some, under the seal or over it; the base64
/// of a text that nobody sealed; or a line as it stands.
#[derive(Clone, Copy)]
enum Line {
    Letter(Saved),
    Under(Saved, &'static str, &'static str),
    Over(Saved, &'static str, &'static str),
    Unsealed(&'static str),
    Text(&'static str),
}

use Line::{Letter, Over, Text, Under, Unsealed};

/// A dossier, what is written of it, and its end. `I` stands for the message and `CERT0` to `CERT9` for the base64 of
/// what the letter on the line of that number, from 0, certifies.
type Case = (&'static [Line], &'static str, Result<Last, Stop>);

const DELIVERY: Saved = ("delivery", 1, BOB);

static CASES: [Case; 10] = [
    (&[], "check 0 0\n", Ok(Last::Done)),
    // the same receipt twice, and the message that it is about
    (
        &[
            Letter(DELIVERY),
            Letter(DELIVERY),
            Unsealed(
                "From: alice@alfa.example\r\nTo: bob@beta.example\r\nSubject: Ciao\r\n\r\nSalve\r\n",
            ),
        ],
        "genuine 0 delivery I beta 1704186060 bob@beta.example\ncert CERT0\n\
         genuine 1 delivery I beta 1704186060 bob@beta.example\ncert CERT1\n\
         refused 2 seal\n\
         proof I bob@beta.example delivered\ncheck 2 1\n",
        Ok(Last::Done),
    ),
    // two receipts that contradict each other
    (
        &[Letter(DELIVERY), Letter(("mailbox-full", 1, BOB))],
        "genuine 0 delivery I beta 1704186060 bob@beta.example\ncert CERT0\n\
         genuine 1 delivery-error I beta 1704186060 bob@beta.example\ncert CERT1\n\
         conflict I bob@beta.example\ncheck 2 0\n",
        Ok(Last::Done),
    ),
    // a receipt that another provider had to seal
    (
        &[Letter(("delivery", 0, BOB))],
        "refused 0 wrong-provider\ncheck 0 1\n",
        Ok(Last::Done),
    ),
    // every kind, and what all of them prove, in the order in which recipients first come
    (
        &[
            Letter(("envelope", 0, "")),
            Letter(("acceptance", 0, "")),
            Letter(("charge", 1, "")),
            Letter(("no-mailbox", 1, CARL)),
            Letter(("virus", 0, BOB)),
            Letter(("warning", 0, BOB)),
            Letter(("acknowledgement", 0, BOB)),
        ],
        "genuine 0 envelope I alfa 1704186060 -\ncert CERT0\n\
         genuine 1 acceptance I alfa 1704186060 -\ncert CERT1\n\
         genuine 2 charge I beta 1704186060 -\ncert CERT2\n\
         genuine 3 delivery-error I beta 1704186060 carl@beta.example\ncert CERT3\n\
         genuine 4 delivery-error I alfa 1704186060 bob@beta.example\ncert CERT4\n\
         genuine 5 warning I alfa 1704186060 bob@beta.example\ncert CERT5\n\
         genuine 6 ack I alfa 1704186060 bob@beta.example\n\
         proof I carl@beta.example no-mailbox\nproof I bob@beta.example virus\ncheck 7 0\n",
        Ok(Last::Done),
    ),
    // each fault by its words
    (
        &[
            Over(DELIVERY, "avvenuta", "mancata"),
            Under(DELIVERY, "MIME-Version: 1.0", "MIME-Version 1.0"),
            Under(DELIVERY, "--=_pec_0--", "--=_pec_0"),
            Under(DELIVERY, "name=\"daticert.xml\"", "name=\"dati.xml\""),
            Under(DELIVERY, "errore=\"nessuno\"", "errore=\"altro\""),
        ],
        "refused 0 seal\nrefused 1 head\nrefused 2 body\nrefused 3 cert\nrefused 4 not-this\ncheck 0 5\n",
        Ok(Last::Done),
    ),
    // and each word of which the texts of a letter may disagree
    (
        &[
            Under(
                DELIVERY,
                "<identificativo>pec.0001234",
                "<identificativo>pec.0001235",
            ),
            Under(DELIVERY, "emittente>beta<", "emittente>alfa<"),
            Under(DELIVERY, "<mittente>alice@alfa", "<mittente>bob@beta"),
            Under(
                DELIVERY,
                "<consegna>bob@beta.example<",
                "<consegna>anna@alfa.example<",
            ),
            Under(
                DELIVERY,
                "<ricevuta tipo=\"completa\"/>",
                "<ricevuta tipo=\"breve\"/>",
            ),
            Under(DELIVERY, "<ora>10:01:00", "<ora>10:01:01"),
        ],
        "refused 0 disagree identifier\nrefused 1 disagree sealer\nrefused 2 disagree sender\n\
         refused 3 disagree recipient\nrefused 4 disagree wish\nrefused 5 disagree moment\ncheck 0 6\n",
        Ok(Last::Done),
    ),
    // messages count from 0 and lines from 1; what isn't base64 ends the dossier, and then nothing is proved
    (
        &[
            Text("# what the party saved"),
            Letter(DELIVERY),
            Text(""),
            Unsealed("ciao"),
            Text("Y2lhbw"),
            Letter(DELIVERY),
        ],
        "genuine 0 delivery I beta 1704186060 bob@beta.example\ncert CERT1\n\
         refused 1 seal\nrefused line 5 bad-base64 1\n",
        Ok(Last::Refused),
    ),
    // a line has one word
    (
        &[Text("Y2lhbw== Y2lhbw==")],
        "refused line 1 bad-base64 1\n",
        Ok(Last::Refused),
    ),
    // the base64 of no byte is no line
    (
        &[Text("===="), Letter(DELIVERY)],
        "refused line 1 bad-base64 1\n",
        Ok(Last::Refused),
    ),
];

#[test]
fn a_dossier_is_written_line_by_line(rt: HostRuntime) {
    for case in &CASES {
        assert!(rt; comes(rt.alloc(), case));
    }
}

/// Reads or writes that fail, and what stops the run.
static STOPS: [(&[u64], &[u64], Stop); 3] = [
    (&[0], &[], Stop::ReadFault),
    (&[1], &[], Stop::ReadFault),
    (&[], &[0], Stop::WriteFault),
];

#[test]
fn a_device_that_fails_stops_the_run(rt: HostRuntime) {
    for (reads, writes, stop) in &STOPS {
        assert!(rt; stops(rt.alloc(), reads, writes, *stop));
    }
}

fn comes(alloc: Global, case: &Case) -> bool {
    let Some(house) = House::new(alloc) else {
        return false;
    };
    let checked = house.check_lines(alloc, lines_of(alloc, &house, case.0), &[], &[]);
    checked.0 == case.2 && checked.1.as_slice() == written_out(alloc, case.0, case.1).as_bytes()
}

fn stops(alloc: Global, reads: &[u64], writes: &[u64], stop: Stop) -> bool {
    let Some(house) = House::new(alloc) else {
        return false;
    };
    let lines = lines_of(alloc, &house, &[Letter(DELIVERY), Letter(DELIVERY)]);
    house.check_lines(alloc, lines, reads, writes).0 == Err(stop)
}

/// What stands in the input. Where memory is wanting it lacks something, and what comes isn't what has to.
fn lines_of(alloc: Global, house: &House, lines: &[Line]) -> Vec<u8> {
    let mut text = Vec::new(alloc);
    for line in lines {
        add_line(alloc, &mut text, house, line);
        let _ = text.extend_from_slice(b"\r\n");
    }
    text
}

fn add_line(alloc: Global, text: &mut Vec<u8>, house: &House, line: &Line) {
    match line {
        Letter(saved) => add_bytes(alloc, text, &house.sealed_letter(alloc, saved, "", "")),
        Under(saved, words, instead) => {
            add_bytes(
                alloc,
                text,
                &house.sealed_letter(alloc, saved, words, instead),
            )
        }
        Over(saved, words, instead) => {
            let sealed = house.sealed_letter(alloc, saved, "", "");
            match std::str::from_utf8(&sealed) {
                Ok(letter) => add_bytes(
                    alloc,
                    text,
                    replaced(alloc, letter, words, instead).as_bytes(),
                ),
                Err(_) => (),
            }
        }
        Unsealed(message) => add_bytes(alloc, text, message.as_bytes()),
        Text(line) => {
            let _ = text.extend_from_slice(line.as_bytes());
        }
    }
}

/// Adds the base64 of a message.
fn add_bytes(alloc: Global, text: &mut Vec<u8>, message: &[u8]) {
    let _ = text.extend_from_slice(encoded(alloc, message).as_bytes());
}

fn encoded(alloc: Global, bytes: &[u8]) -> String {
    match STANDARD.encode(alloc, bytes) {
        Ok(text) => text,
        Err(_) => String::new(alloc),
    }
}

/// An output, with its certificates and the message's name.
fn written_out(alloc: Global, lines: &[Line], output: &str) -> String {
    let mut text = replaced(alloc, output, " I ", " pec.0001234@alfa.example ");
    for (line, mark) in lines.iter().zip(MARKS.iter()) {
        if let Letter(saved) = line {
            let letter = letter_of(alloc, saved);
            let cert = encoded(alloc, certified(letter.as_str()).as_bytes());
            text = replaced(alloc, text.as_str(), mark, cert.as_str());
        }
    }
    text
}

static MARKS: [&str; 7] = [
    "CERT0", "CERT1", "CERT2", "CERT3", "CERT4", "CERT5", "CERT6",
];
