//! Disks that fail, crashes, and runs that go on where others left: over memory disks.

use crate::directories::Directory;
use crate::running::{Case, Run, System, depot_failing, first_wrong, joined, played};
use pec_top::Status;
use pec_trial::alfa;

// A journal is made by three calls of its disk, and an entry is appended by four. So those of a provider's first two
// entries are 3 to 6 (its StartTwo) and 7 to 10. The accepted one is read by call 11, for its envelope, and the taken
// one is appended by 12 to 15. That is read by call 16, as screens look at its message, and the decision is appended by
// 17 to 20.

const FAULTED: &str =
    "submit alfa 1704186000 alice@alfa.example anna@alfa.example {M1}\nround 1704186001\nround 1704186002\n\
book alice@alfa.example\nrestart alfa\nround 1704186003\nround 1704186004\nround 1704186005\nround 1704186006\n\
round 1704186007\nbook alice@alfa.example\nmailbox alice@alfa.example\nmailbox anna@alfa.example\nrestart alfa\n";

/// The decision isn't in the journal, and comes in the round behind the restart.
const DECIDED_AGAIN: &str =
    "accepted I0\nalfa sent alfa 1\nround\nalfa took I0\nalfa fault disk\nround\ndown\nrestarted 3\n\
alfa decided I0 anna@alfa.example delivered\nalfa sent alfa 2\nround\n\
alfa learned I0 anna@alfa.example delivered\nalfa repeat envelope I0\nalfa sent alfa 3\nround\n\
alfa acked I0 anna@alfa.example\nalfa charged I0 alfa\nalfa repeat outcome I0 anna@alfa.example\n\
alfa sent alfa 1\nround\nalfa repeat ack I0 anna@alfa.example\nround\nround\n\
I0 anna@alfa.example primary 1704186000 1704186005 - - delivered 1704186003\nbook 1\n\
0 acceptance I0 -\n1 delivery I0 anna@alfa.example\nmailbox 2\n0 envelope I0 -\nmailbox 1\nup\n";

/// The decision is in the journal, though it was never told.
const DECIDED_ONCE: &str =
    "accepted I0\nalfa sent alfa 1\nround\nalfa took I0\nalfa fault disk\nround\ndown\nrestarted 4\n\
alfa sent alfa 2\nround\n\
alfa learned I0 anna@alfa.example delivered\nalfa repeat envelope I0\nalfa sent alfa 3\nround\n\
alfa acked I0 anna@alfa.example\nalfa charged I0 alfa\nalfa repeat outcome I0 anna@alfa.example\n\
alfa sent alfa 1\nround\nalfa repeat ack I0 anna@alfa.example\nround\nround\n\
I0 anna@alfa.example primary 1704186000 1704186005 - - delivered 1704186002\nbook 1\n\
0 acceptance I0 -\n1 delivery I0 anna@alfa.example\nmailbox 2\n0 envelope I0 -\nmailbox 1\nup\n";

const DECIDED_AGAIN_RUN: [Run; 1] = [Run {
    form: "run",
    script: FAULTED,
    output: DECIDED_AGAIN,
    status: Status::Done,
}];

const DECIDED_ONCE_RUN: [Run; 1] = [Run {
    form: "run",
    script: FAULTED,
    output: DECIDED_ONCE,
    status: Status::Done,
}];

static FIRST: [Case; 1] = [Case {
    why: "where the write of a decision fails it isn't in the journal, and is made again",
    directory: Directory::Alfa,
    failing: &[(0, 17)],
    runs: &DECIDED_AGAIN_RUN,
}];

static SECOND: [Case; 1] = [Case {
    why: "where the last sync fails the decision is in the journal, and isn't made again",
    directory: Directory::Alfa,
    failing: &[(0, 20)],
    runs: &DECIDED_ONCE_RUN,
}];

/// The tables, by functions without a clause: the proof of the test is spared their texts.
fn first() -> &'static [Case] {
    &FIRST
}

fn second() -> &'static [Case] {
    &SECOND
}

#[test]
fn runs_go_on_where_others_left(rt: HostRuntime) {
    for cases in [first(), second()] {
        assert_eq!(rt; first_wrong(&rt, cases), None);
    }
}

const ACCEPTED: &str = "submit alfa 1704186000 alice@alfa.example anna@alfa.example {M1}\n\
     book alice@alfa.example\n";

/// The directory of the journal and the one that was handed in, by their digests, as `sha256sum` (GNU coreutils) gives
/// them for the canonical texts.
const OTHER_DIRECTORY: &str = "not-fit alfa directory \
     382842eb27fc4863799e5b5a5239ef613d361ca4805f777f96ac7db1a6cf3c0e \
     a4a8bdb047fa7547d26256fe9f83978b88c42d9331f2400d754b83fdc7ee1f98\n";

/// Over a journal that another directory made, the two digests are told.
#[test]
fn a_journal_of_another_directory_is_not_opened(rt: HostRuntime) {
    assert!(rt; is_refused_under_another(&rt));
}

/// Whether a run is refused so, over the disk of one with another quota of anna.
fn is_refused_under_another(rt: &impl System) -> bool {
    let alloc = rt.alloc();
    let whose = "\"anna@alfa.example\"\nquota = ";
    let (old, new) = (
        joined(alloc, &[whose, "100"]),
        joined(alloc, &[whose, "99"]),
    );
    let Ok(other) = alfa().replace(alloc, old.as_str(), new.as_str()) else {
        return false;
    };
    let mut depot = depot_failing(alloc, &[]);
    let first = played(rt, &mut depot, alfa(), "run", ACCEPTED);
    let again = played(
        rt,
        &mut depot,
        other.as_str(),
        "resume",
        "book alice@alfa.example\n",
    );
    first.status == Status::Done && again.is(OTHER_DIRECTORY.as_bytes(), Status::NotFit)
}
