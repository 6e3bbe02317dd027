//! Rounds without faults bring each pair its outcome, and what keeps it open.

use crate::directories::Directory;
use crate::running::{Case, Run, first_wrong};
use pec_top::Status;

static MET: [Case; 2] = [
    Case {
        why: "behind a loss and a crash, four rounds without faults: the outcome is known, its receipt is there, and the links fall silent",
        directory: Directory::Two,
        failing: &[],
        runs: &[Run {
            form: "run",
            script: "submit alfa 1704186000 alice@alfa.example bob@beta.example {M2}\nround 1704186001\n\
                     lose alfa beta 0\ncrash beta\nrestart beta\nround 1704186002\nround 1704186003\n\
                     round 1704186004\nround 1704186005\nbook alice@alfa.example\nmailbox alice@alfa.example\n\
                     round 1704186006\nround 1704186007\n",
            output: "accepted I0\nalfa sent beta 1\nround\nlost\ncrashed\nrestarted 1\nalfa sent beta 1\nround\n\
                     alfa sent beta 1\nbeta took I0\nbeta decided I0 bob@beta.example delivered\n\
                     beta sent alfa 2\nround\nalfa charged I0 beta\nalfa learned I0 bob@beta.example delivered\n\
                     alfa sent beta 1\nbeta repeat envelope I0\nbeta sent alfa 2\nround\nalfa repeat charge I0\n\
                     alfa repeat outcome I0 bob@beta.example\nalfa sent beta 1\nbeta acked I0 bob@beta.example\n\
                     round\nI0 bob@beta.example primary 1704186000 1704186004 - - delivered 1704186003\nbook 1\n\
                     0 acceptance I0 -\n1 delivery I0 bob@beta.example\nmailbox 2\n\
                     beta repeat ack I0 bob@beta.example\nround\nround\n",
            status: Status::Done,
        }],
    },
    Case {
        why: "in a network at rest three rounds are enough, both ways at once",
        directory: Directory::Two,
        failing: &[],
        runs: &[Run {
            form: "run",
            script: "submit alfa 1704186000 alice@alfa.example bob@beta.example {M2}\n\
                     submit beta 1704186000 bob@beta.example alice@alfa.example {From: bob@beta.example|To: alice@alfa.example||}\n\
                     round 1704186001\nround 1704186002\nround 1704186003\nbook alice@alfa.example\n\
                     book bob@beta.example\n",
            output: "accepted I0\naccepted J0\nalfa sent beta 1\nbeta sent alfa 1\nround\nalfa took J0\n\
                     alfa decided J0 alice@alfa.example delivered\nalfa sent beta 3\nbeta took I0\n\
                     beta decided I0 bob@beta.example delivered\nbeta sent alfa 3\nround\nalfa charged I0 beta\n\
                     alfa learned I0 bob@beta.example delivered\nalfa repeat envelope J0\nalfa sent beta 3\n\
                     beta charged J0 alfa\nbeta learned J0 alice@alfa.example delivered\n\
                     beta repeat envelope I0\nbeta sent alfa 3\nround\n\
                     I0 bob@beta.example primary 1704186000 1704186003 - - delivered 1704186002\nbook 1\n\
                     J0 alice@alfa.example primary 1704186000 1704186003 - - delivered 1704186002\nbook 1\n",
            status: Status::Done,
        }],
    },
];

static NEEDED: [Case; 2] = [
    Case {
        why: "a provider that is down keeps the pair open, however many rounds pass; three without faults end that",
        directory: Directory::Two,
        failing: &[],
        runs: &[Run {
            form: "run",
            script: "submit alfa 1704186000 alice@alfa.example bob@beta.example {M2}\ncrash beta\n\
                     round 1704186001\nround 1704186002\nround 1704186003\nround 1704186004\n\
                     book alice@alfa.example\nrestart beta\nround 1704186005\nround 1704186006\n\
                     round 1704186007\nbook alice@alfa.example\n",
            output: "accepted I0\ncrashed\nalfa sent beta 1\nbeta down\nround\nalfa sent beta 1\nbeta down\n\
                     round\nalfa sent beta 1\nbeta down\nround\nalfa sent beta 1\nbeta down\nround\n\
                     I0 bob@beta.example primary 1704186000 - - - open\nbook 1\nrestarted 1\nalfa sent beta 1\n\
                     beta took I0\nbeta repeat envelope I0\nbeta repeat envelope I0\nbeta repeat envelope I0\n\
                     beta decided I0 bob@beta.example delivered\nbeta sent alfa 5\nround\nalfa charged I0 beta\n\
                     alfa repeat charge I0\nalfa repeat charge I0\nalfa repeat charge I0\n\
                     alfa learned I0 bob@beta.example delivered\nalfa sent beta 1\nbeta repeat envelope I0\n\
                     beta sent alfa 2\nround\nalfa repeat charge I0\nalfa repeat outcome I0 bob@beta.example\n\
                     alfa sent beta 1\nbeta acked I0 bob@beta.example\nround\n\
                     I0 bob@beta.example primary 1704186000 1704186006 - - delivered 1704186005\nbook 1\n",
            status: Status::Done,
        }],
    },
    Case {
        why: "so does a moment that is behind its journal",
        directory: Directory::Two,
        failing: &[],
        runs: &[Run {
            form: "run",
            script: "submit alfa 1704186000 alice@alfa.example bob@beta.example {M2}\ntick beta 1704189600\n\
                     round 1704186001\nround 1704186002\nround 1704186003\nround 1704186004\n\
                     book alice@alfa.example\nround 1704189600\nround 1704189600\nround 1704189600\n\
                     book alice@alfa.example\n",
            output: "accepted I0\nticked\nalfa sent beta 1\nbeta clock-back 1704189600\nround\nalfa sent beta 1\n\
                     beta clock-back 1704189600\nround\nalfa sent beta 1\nbeta clock-back 1704189600\nround\n\
                     alfa sent beta 1\nbeta clock-back 1704189600\nround\n\
                     I0 bob@beta.example primary 1704186000 - - - open\nbook 1\nalfa sent beta 1\nbeta took I0\n\
                     beta repeat envelope I0\nbeta repeat envelope I0\nbeta repeat envelope I0\n\
                     beta decided I0 bob@beta.example delivered\nbeta sent alfa 5\nround\nalfa charged I0 beta\n\
                     alfa repeat charge I0\nalfa repeat charge I0\nalfa repeat charge I0\n\
                     alfa learned I0 bob@beta.example delivered\nalfa sent beta 1\nbeta repeat envelope I0\n\
                     beta sent alfa 2\nround\nalfa repeat charge I0\nalfa repeat outcome I0 bob@beta.example\n\
                     alfa sent beta 1\nbeta acked I0 bob@beta.example\nround\n\
                     I0 bob@beta.example primary 1704186000 1704189600 - - delivered 1704189600\nbook 1\n",
            status: Status::Done,
        }],
    },
];

/// The tables, by functions without a clause: the proof of the test is spared their texts.
fn met() -> &'static [Case] {
    &MET
}

fn needed() -> &'static [Case] {
    &NEEDED
}

#[test]
fn rounds_without_faults_bring_outcomes(rt: HostRuntime) {
    for cases in [met(), needed()] {
        assert_eq!(rt; first_wrong(&rt, cases), None);
    }
}
