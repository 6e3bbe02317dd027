//! Directories in LDIF: what the form `ldif` writes, and what all forms make of such a text. Worked out by hand.

use crate::running::{Given, System, depot_failing, played, ran_afresh};
use pec_top::Status;
use pec_trial::alfa;

/// The directory of alfa.
const ALFA: &str = "version: 1

dn: cn=0
objectClass: pecProvider
pecName: alfa
mailReceipt: ricevute@alfa.example
managedDomains: alfa.example
pecKey: 000102030405060708090a0b0c0d0e0f
pecZone: CET-1CEST,M3.5.0,M10.5.0/3
pecLimit: 31457280

dn: cn=0.1
objectClass: pecAccount
pecAddress: alice@alfa.example
pecQuota: 100
pecKey: chiave-alice

dn: cn=0.2
objectClass: pecAccount
pecAddress: anna@alfa.example
pecQuota: 100
pecKey: chiave-anna
";

/// Words and an input, what is written for them, and the status.
type Row = (&'static [&'static str], &'static [u8], &'static str, Status);

static ROWS: [Row; 1] = [(
    &["run"],
    b"version: 1\ncn: x\n%%\n",
    "refused directory ldif no-dn 11\n",
    Status::Refused,
)];

/// The tables and texts, by functions without a clause: the proofs of the tests are spared them.
fn rows() -> &'static [Row] {
    &ROWS
}

fn alfa_in_ldif() -> &'static str {
    ALFA
}

/// Whether this is written, and the status is this.
fn is_written(
    rt: &impl System,
    words: &[&str],
    input: &[u8],
    output: &[u8],
    status: Status,
) -> bool {
    ran_afresh(rt, &Given::of(words, input)).is(output, status)
}

/// Whether the form `ldif` writes this directory.
fn is_export(rt: &impl System, input: &[u8], output: &[u8]) -> bool {
    is_written(rt, &["ldif"], input, output, Status::Done)
}

/// The place of the first row that doesn't come as it says.
fn first_other(rt: &impl System) -> Option<usize> {
    for (place, row) in rows().iter().enumerate() {
        if !is_written(rt, row.0, row.1, row.2.as_bytes(), row.3) {
            return Some(place);
        }
    }
    None
}

#[test]
fn a_directory_is_ldif_by_its_first_line(rt: HostRuntime) {
    assert_eq!(rt; first_other(&rt), None);
}

#[test]
fn a_directory_is_written_in_ldif(rt: HostRuntime) {
    let wanted = alfa_in_ldif().as_bytes();
    assert!(rt; is_export(&rt, alfa().as_bytes(), wanted));
    assert!(rt; is_export(&rt, wanted, wanted));
}

/// The journal of a directory in TOML is that of the same in LDIF.
#[test]
fn a_run_resumes_with_the_directory_in_ldif(rt: HostRuntime) {
    assert!(rt; is_resumed(&rt));
}

fn is_resumed(rt: &impl System) -> bool {
    let alloc = rt.alloc();
    let mut depot = depot_failing(alloc, &[]);
    let script = "submit alfa 1704186000 alice@alfa.example anna@alfa.example {M1}\n";
    played(rt, &mut depot, alfa(), "run", script);
    let book = "book alice@alfa.example\n";
    let ran = played(rt, &mut depot, alfa_in_ldif(), "resume", book);
    let wanted = "I0 anna@alfa.example primary 1704186000 - - - open\nbook 1\n";
    ran.writes(alloc, wanted, Status::Done)
}
