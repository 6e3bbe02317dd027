//! Certification texts, dates and zones.
use crate::rows::{holds, holds_at};
use crate::texts::{are_these, is_text, put};
use pec_cert::*;
use pec_types::{Moment, Text};
use std::alloc::Global;

const ENVELOPE: &str = "<?xml version=\"1.0\" encoding=\"UTF-8\"?>\r\n\
    <postacert tipo=\"posta-certificata\" errore=\"nessuno\">\r\n\
    <intestazione>\r\n\
    <mittente>alice@alfa.example</mittente>\r\n\
    <destinatari tipo=\"certificato\">anna@alfa.example</destinatari>\r\n\
    <risposte>alice@alfa.example</risposte>\r\n\
    <oggetto>Ciao</oggetto>\r\n\
    </intestazione>\r\n\
    <dati>\r\n\
    <gestore-emittente>alfa</gestore-emittente>\r\n\
    <data zona=\"+0100\">\r\n\
    <giorno>02/01/2024</giorno>\r\n\
    <ora>10:00:00</ora>\r\n\
    </data>\r\n\
    <identificativo>pec.0000000@alfa.example</identificativo>\r\n\
    <ricevuta tipo=\"completa\"/>\r\n\
    </dati>\r\n\
    </postacert>\r\n";

/// The texts, by functions without a clause: the proofs of the tests are spared them.
fn envelope() -> &'static str {
    ENVELOPE
}

const ITALY: &str = "CET-1CEST,M3.5.0,M10.5.0/3";

// Rules, seconds since 1970, and the minutes that a clock there is ahead of UTC.
static STAMPS: [(&str, u64, i32); 2] = [
    (ITALY, 1704186000, 60), // winter
    (ITALY, 1719824400, 120), // summer
];

#[test]
fn a_zone_stamps_with_whole_minutes(rt: HostRuntime) {
    for (rule, seconds, minutes) in &STAMPS {
        holds(
            &rt,
            is_stamp(stamped(rt.alloc(), rule, *seconds), *seconds, *minutes),
            rule,
        );
    }
    assert!(rt; is_no_rule(rt.alloc(), b"nonsense!"));
}

/// Whether this is the stamp of a moment by a clock that is ahead of UTC by so many minutes.
fn is_stamp(found: Option<Stamp>, seconds: u64, minutes: i32) -> bool {
    match found {
        Some(stamp) => stamp.minutes == minutes && stamp.moment.seconds() == seconds,
        None => false,
    }
}

/// The stamp of a moment by a clock under the rule.
fn stamped(alloc: Global, rule: &str, seconds: u64) -> Option<Stamp> {
    let moment = Moment::new(seconds)?;
    match zone_of(alloc, rule.as_bytes()) {
        Some(zone) => Some(zone.stamp(moment)),
        None => None,
    }
}

fn is_no_rule(alloc: Global, rule: &[u8]) -> bool {
    zone_of(alloc, rule).is_none()
}

fn zone_of(alloc: Global, rule: &[u8]) -> Option<Zone> {
    match Text::new(alloc, rule) {
        Ok(rule) => Zone::read(&rule).ok(),
        Err(_) => None,
    }
}

// Rules, seconds since 1970, and the date of a head.
static HEADER_DATES: [(&str, u64, &str); 2] = [
    (ITALY, 1704186000, "Tue, 02 Jan 2024 10:00:00 +0100"), // winter
    (ITALY, 1719824400, "Mon, 01 Jul 2024 11:00:00 +0200"), // summer
];

// And the line of a text.
static DAY_LINES: [(&str, u64, &str); 2] = [
    (ITALY, 1704186000, "Giorno 02/01/2024 ore 10:00:00 (+0100)"), // winter
    (ITALY, 1719824400, "Giorno 01/07/2024 ore 11:00:00 (+0200)"), // summer
];

#[test]
fn a_stamp_is_printed_in_heads_and_texts(rt: HostRuntime) {
    for (rule, seconds, date) in &HEADER_DATES {
        holds(
            &rt,
            is_date(rt.alloc(), stamped(rt.alloc(), rule, *seconds), date),
            date,
        );
    }
    for (rule, seconds, line) in &DAY_LINES {
        holds(
            &rt,
            is_line(rt.alloc(), stamped(rt.alloc(), rule, *seconds), line),
            line,
        );
    }
}

/// Whether the stamp is printed as this date, which is read as it.
fn is_date(alloc: Global, stamp: Option<Stamp>, date: &str) -> bool {
    match stamp {
        Some(stamp) => {
            is_text(header_date(alloc, stamp).ok(), date.as_bytes())
                && is_read_as(date.as_bytes(), stamp)
        }
        None => false,
    }
}

fn is_read_as(date: &[u8], stamp: Stamp) -> bool {
    match read_header_date(date) {
        Some(read) => read == stamp,
        None => false,
    }
}

/// Whether the stamp is printed as this line.
fn is_line(alloc: Global, stamp: Option<Stamp>, line: &str) -> bool {
    match stamp {
        Some(stamp) => is_text(day_line(alloc, stamp).ok(), line.as_bytes()),
        None => false,
    }
}

#[test]
fn what_is_read_is_written_again(rt: HostRuntime) {
    assert!(rt; is_written_again(rt.alloc(), envelope().as_bytes()));
}

// Whether the text is read, and what is read is written as the same text.
fn is_written_again(alloc: Global, text: &[u8]) -> bool {
    match read(alloc, text) {
        Ok(cert) => is_text(written(alloc, &cert), text),
        Err(_) => false,
    }
}

fn written(alloc: Global, cert: &CertData) -> Option<Vec<u8>> {
    if cert.recipients.as_slice().is_empty() {
        return None;
    }
    write(alloc, cert).ok()
}

fn fault_of(alloc: Global, text: &[u8]) -> Option<CertFault> {
    read(alloc, text).err()
}

// A byte or more of the envelope's text, by their place and number, what stands there instead, and the fault of that
// text.
type Row = (usize, usize, &'static str, CertFault);

static SHAPES: [Row; 1] = [
    (517, 0, " ", CertFault::Syntax(517)), // no blank before a tag's end
];

// Two faults each: a value that is wrong, and a place where the shape ends.
static BOTH: [Row; 6] = [
    (121, 20, "ALICE@alfa.example<x", CertFault::BadAddress(121)), // the tag behind the address
    (114, 8, "Xtente>A", CertFault::Syntax(114)), // and the one in front of it
    (184, 19, "Anna@alfa.example<x", CertFault::BadAddress(184)),
    (121, 18, "ALICE\x01", CertFault::Syntax(126)), // no address is whole
    (
        382,
        52,
        "32/01/2024</giorno>\r\n<ora>10:00:00</ora>\r\n</data>\r\nx",
        CertFault::BadDate(382),
    ),
    (
        382,
        43,
        "32/01/2024</giorno>\r\n<ora>10:00:00</ora>\r\nx",
        CertFault::Syntax(424),
    ), // no date is whole
];

#[test]
fn of_two_faults_the_first_is_told(rt: HostRuntime) {
    for row in &BOTH {
        holds_at(&rt, has_fault(rt.alloc(), row), row.0 as u64, row.2);
    }
}

#[test]
fn a_text_of_another_shape_has_its_first_fault(rt: HostRuntime) {
    for row in &SHAPES {
        holds_at(&rt, has_fault(rt.alloc(), row), row.0 as u64, row.2);
    }
}

/// Whether the text that a row says has its fault.
fn has_fault(alloc: Global, row: &Row) -> bool {
    let text = edited(alloc, row.0, row.1, row.2);
    fault_of(alloc, &text) == Some(row.3)
}

/// The envelope's text with some bytes cut out at a place and others put there.
fn edited(alloc: Global, place: usize, cut: usize, instead: &str) -> Vec<u8> {
    let whole = envelope().as_bytes();
    let mut text = Vec::new(alloc);
    put(&mut text, part(whole, 0, place));
    put(&mut text, instead.as_bytes());
    put(
        &mut text,
        part(whole, place.saturating_add(cut), whole.len()),
    );
    text
}

fn part(text: &[u8], from: usize, to: usize) -> &[u8] {
    match text.get(from..to) {
        Some(part) => part,
        None => b"",
    }
}
