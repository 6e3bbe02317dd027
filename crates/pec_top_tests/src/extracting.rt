//! Extracts of logs: what the form `extract` writes of the journals that other runs left. Worked out by hand.

use crate::running::{Given, Ran, System, depot_failing, joined, played, ran_over};
use pec_outside::MemDepot;
use pec_top::Status;
use pec_trial::alfa;

/// One message of alice to anna.
const SUBMITTED: &str = "submit alfa 1704186000 alice@alfa.example anna@alfa.example {M1}\n";

/// The same, delivered.
const ROUNDS: &str =
    "round 1704186001\nround 1704186002\nround 1704186003\nround 1704186004\nround 1704186005\n";

const HEADER: &str = "provider,entry,moment,event,id,sender,recipients,subject,detail\n";

const ACCEPTED: &str = "provider,entry,moment,event,id,sender,recipients,subject,detail\n\
    alfa,1,1704186000,accepted,pec.0000000@alfa.example,alice@alfa.example,anna@alfa.example,Ciao,completa\n\
    totals,1,0,0,1,,,,\n";

const TAKEN: &str = "provider,entry,moment,event,id,sender,recipients,subject,detail\n\
    alfa,2,1704186002,took,pec.0000000@alfa.example,alice@alfa.example,anna@alfa.example,Ciao,\n\
    alfa,3,1704186002,decided,pec.0000000@alfa.example,alice@alfa.example,anna@alfa.example,Ciao,delivered\n\
    totals,0,0,0,0,,,,\n";

/// Words that are no form of the program.
static OTHERS: [&[&str]; 1] = [&["extract", "2", "1"]];

/// The texts and the table, by functions without a clause: the proofs of the tests are spared them.
fn header() -> &'static str {
    HEADER
}

fn accepted() -> &'static str {
    ACCEPTED
}

fn taken() -> &'static str {
    TAKEN
}

fn submitted() -> &'static str {
    SUBMITTED
}

fn rounds() -> &'static str {
    ROUNDS
}

fn others() -> &'static [&'static [&'static str]] {
    &OTHERS
}

/// An extract of the journals in a depot, of the directory of alfa, where these writes fail.
fn extracted(rt: &impl System, depot: &mut MemDepot, range: (&str, &str), writes: &[u64]) -> Ran {
    let words = ["extract", range.0, range.1];
    let given = Given {
        writes,
        ..Given::of(&words, alfa().as_bytes())
    };
    ran_over(rt, depot, &given)
}

/// The disks that a run of alfa left which played this script.
fn left_by(rt: &impl System, script: &str) -> MemDepot {
    let mut depot = depot_failing(rt.alloc(), &[]);
    played(rt, &mut depot, alfa(), "run", script);
    depot
}

/// Whether an extract of a range of what a script left is this.
fn is_extract(rt: &impl System, script: &str, range: (&str, &str), output: &str) -> bool {
    let mut depot = left_by(rt, script);
    let first = extracted(rt, &mut depot, range, &[]);
    let again = extracted(rt, &mut depot, range, &[]);
    first.is(output.as_bytes(), Status::Done) && again.is(output.as_bytes(), Status::Done)
}

#[test]
fn a_range_is_told(rt: HostRuntime) {
    assert!(rt; is_extract(&rt, submitted(), ("1704186000", "1704186000"), accepted()));
    assert!(rt; is_taken(&rt));
}

fn is_taken(rt: &impl System) -> bool {
    let script = joined(rt.alloc(), &[submitted(), rounds()]);
    is_extract(rt, script.as_str(), ("1704186002", "1704186002"), taken())
}

#[test]
fn words_that_are_no_range_are_no_form(rt: HostRuntime) {
    for words in others() {
        assert!(rt; is_usage(&rt, words));
    }
}

fn is_usage(rt: &impl System, words: &[&str]) -> bool {
    let mut depot = left_by(rt, submitted());
    ran_over(rt, &mut depot, &Given::of(words, alfa().as_bytes())).is(b"usage\n", Status::Usage)
}

/// An empty disk holds no journal, and nothing is made on it.
#[test]
fn journals_have_to_be_there(rt: HostRuntime) {
    assert!(rt; is_not_fit(&rt));
}

fn is_not_fit(rt: &impl System) -> bool {
    let mut depot = depot_failing(rt.alloc(), &[]);
    let first = extracted(rt, &mut depot, ("1", "2"), &[]);
    let again = extracted(rt, &mut depot, ("1", "2"), &[]);
    let wanted = b"not-fit alfa journal 0\n";
    first.is(wanted, Status::NotFit) && again.is(wanted, Status::NotFit)
}

/// After a fault of the sink a front of the extract was written, and the journals are as they were.
#[test]
fn writes_fail(rt: HostRuntime) {
    assert!(rt; all_writes_fail(&rt));
}

fn all_writes_fail(rt: &impl System) -> bool {
    let range = ("1704186000", "1704186000");
    let mut depot = left_by(rt, submitted());
    let mut right = true;
    for call in 0..3u64 {
        let cut = extracted(rt, &mut depot, range, &[call]);
        right = cut.is_front_of(accepted().as_bytes(), Status::WriteFault) && right;
    }
    extracted(rt, &mut depot, range, &[]).is(accepted().as_bytes(), Status::Done) && right
}

/// Where a call of the disk fails while journals are opened nothing is written; behind that the header was, and a front
/// of the extract.
#[test]
fn disks_fail(rt: HostRuntime) {
    assert!(rt; all_calls_fail(&rt));
}

fn all_calls_fail(rt: &impl System) -> bool {
    let mut right = true;
    let mut some = false;
    for call in 16..40u64 {
        let cut = extracted_failing(rt, call);
        right = is_cut(&cut) && right;
        some = cut.status == Status::DiskFault || some;
    }
    right && some
}

/// An extract where this call of the disk fails, which the run before did without.
fn extracted_failing(rt: &impl System, call: u64) -> Ran {
    let mut depot = depot_failing(rt.alloc(), &[(0, call)]);
    played(rt, &mut depot, alfa(), "run", submitted());
    extracted(rt, &mut depot, ("1704186000", "1704186000"), &[])
}

fn is_cut(ran: &Ran) -> bool {
    match ran.status {
        Status::StartFault => ran.text.is_empty(),
        Status::DiskFault => {
            ran.is_front_of(accepted().as_bytes(), Status::DiskFault)
                && ran.text.starts_with(header().as_bytes())
        }
        // (it takes fewer calls)
        status => status == Status::Done,
    }
}
