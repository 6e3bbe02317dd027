//! Messages from submission to receipts, over memory disks. All outputs were worked out by hand.

use crate::directories::Directory;
use crate::running::{Case, Run, first_wrong};
use pec_top::Status;

static FIRST: [Case; 4] = [
    Case {
        why: "a message is accepted, and stands open in its sender's book",
        directory: Directory::Alfa,
        failing: &[],
        runs: &[Run {
            form: "run",
            script: "submit alfa 1704186000 alice@alfa.example anna@alfa.example {M1}\nbook alice@alfa.example\n",
            output: "accepted I0\nI0 anna@alfa.example primary 1704186000 - - - open\nbook 1\n",
            status: Status::Done,
        }],
    },
    Case {
        why: "within one provider a message is taken, placed, and its receipts are acknowledged",
        directory: Directory::Alfa,
        failing: &[],
        runs: &[Run {
            form: "run",
            script: "submit alfa 1704186000 alice@alfa.example anna@alfa.example {M1}\n\
                     round 1704186001\nround 1704186002\nround 1704186003\nround 1704186004\nround 1704186005\n\
                     book alice@alfa.example\nmailbox alice@alfa.example\nmailbox anna@alfa.example\n",
            output: "accepted I0\nalfa sent alfa 1\nround\n\
                     alfa took I0\nalfa decided I0 anna@alfa.example delivered\nalfa sent alfa 3\nround\n\
                     alfa charged I0 alfa\nalfa learned I0 anna@alfa.example delivered\nalfa repeat envelope I0\n\
                     alfa sent alfa 3\nround\n\
                     alfa acked I0 anna@alfa.example\nalfa repeat charge I0\nalfa repeat outcome I0 anna@alfa.example\n\
                     alfa sent alfa 1\nround\n\
                     alfa repeat ack I0 anna@alfa.example\nround\n\
                     I0 anna@alfa.example primary 1704186000 1704186003 - - delivered 1704186002\nbook 1\n\
                     0 acceptance I0 -\n1 delivery I0 anna@alfa.example\nmailbox 2\n0 envelope I0 -\nmailbox 1\n",
            status: Status::Done,
        }],
    },
    Case {
        why: "classes are by the head, in its order; who isn't certified has no row",
        directory: Directory::Two,
        failing: &[],
        runs: &[Run {
            form: "run",
            script: "submit alfa 1704186000 alice@alfa.example carl@beta.example,bob@beta.example \
                     {From: alice@alfa.example|To: bob@beta.example|Cc: bob@beta.example, carl@beta.example||}\n\
                     submit alfa 1704186000 alice@alfa.example bob@beta.example,x@posta.example \
                     {From: alice@alfa.example|To: bob@beta.example, x@posta.example||}\nbook alice@alfa.example\n",
            output: "accepted I0\naccepted I1\n\
                     I0 bob@beta.example primary 1704186000 - - - open\n\
                     I0 carl@beta.example copy 1704186000 - - - open\n\
                     I1 bob@beta.example primary 1704186000 - - - open\nbook 3\n",
            status: Status::Done,
        }],
    },
    Case {
        why: "a book has the certified recipients of a message alone",
        directory: Directory::Two,
        failing: &[],
        runs: &[Run {
            form: "run",
            script: "submit alfa 1704186000 alice@alfa.example bob@beta.example,x@posta.example \
                     {From: alice@alfa.example|To: bob@beta.example, x@posta.example||}\nbook alice@alfa.example\n",
            output: "accepted I0\nI0 bob@beta.example primary 1704186000 - - - open\nbook 1\n",
            status: Status::Done,
        }],
    },
];

static SECOND: [Case; 3] = [
    Case {
        why: "a message to nobody is told undelivered",
        directory: Directory::Two,
        failing: &[],
        runs: &[Run {
            form: "run",
            script: "submit alfa 1704186000 alice@alfa.example nobody@beta.example \
                     {From: alice@alfa.example|To: nobody@beta.example||}\n\
                     round 1704186001\nround 1704186002\nround 1704186003\n\
                     book alice@alfa.example\nmailbox alice@alfa.example\n",
            output: "accepted I0\nalfa sent beta 1\nround\n\
                     alfa sent beta 1\nbeta took I0\nbeta decided I0 nobody@beta.example no-mailbox\n\
                     beta sent alfa 2\nround\n\
                     alfa charged I0 beta\nalfa learned I0 nobody@beta.example no-mailbox\nalfa sent beta 1\n\
                     beta repeat envelope I0\nbeta sent alfa 2\nround\n\
                     I0 nobody@beta.example primary 1704186000 1704186003 - - no-mailbox 1704186002\nbook 1\n\
                     0 acceptance I0 -\n1 delivery-error I0 nobody@beta.example\nmailbox 2\n",
            status: Status::Done,
        }],
    },
    Case {
        why: "an envelope that is lost twice and repeated three times is placed once",
        directory: Directory::Two,
        failing: &[],
        runs: &[Run {
            form: "run",
            script: "submit alfa 1704186000 alice@alfa.example bob@beta.example {M2}\n\
                     round 1704186001\nlose alfa beta 0\nround 1704186002\nlose alfa beta 0\nround 1704186003\n\
                     repeat alfa beta 0\nrepeat alfa beta 0\nrepeat alfa beta 0\n\
                     round 1704186004\nround 1704186005\nround 1704186006\nround 1704186007\n\
                     mailbox bob@beta.example\n",
            output: "accepted I0\nalfa sent beta 1\nround\nlost\nalfa sent beta 1\nround\nlost\n\
                     alfa sent beta 1\nround\n\
                     repeated\nrepeated\nrepeated\n\
                     alfa sent beta 1\nbeta took I0\nbeta repeat envelope I0\nbeta repeat envelope I0\n\
                     beta repeat envelope I0\nbeta decided I0 bob@beta.example delivered\nbeta sent alfa 5\nround\n\
                     alfa charged I0 beta\nalfa repeat charge I0\nalfa repeat charge I0\nalfa repeat charge I0\n\
                     alfa learned I0 bob@beta.example delivered\nalfa sent beta 1\n\
                     beta repeat envelope I0\nbeta sent alfa 2\nround\n\
                     alfa repeat charge I0\nalfa repeat outcome I0 bob@beta.example\nalfa sent beta 1\n\
                     beta acked I0 bob@beta.example\nround\n\
                     beta repeat ack I0 bob@beta.example\nround\n0 envelope I0 -\nmailbox 1\n",
            status: Status::Done,
        }],
    },
    Case {
        why: "an outcome may come before its charge",
        directory: Directory::Two,
        failing: &[],
        runs: &[Run {
            form: "run",
            script: "submit alfa 1704186000 alice@alfa.example bob@beta.example {M2}\n\
                     round 1704186001\nround 1704186002\nswap beta alfa 1\nswap beta alfa 0\nround 1704186003\n",
            output: "accepted I0\nalfa sent beta 1\nround\nalfa sent beta 1\n\
                     beta took I0\nbeta decided I0 bob@beta.example delivered\nbeta sent alfa 2\nround\n\
                     no-frame\nswapped\n\
                     alfa learned I0 bob@beta.example delivered\nalfa charged I0 beta\nalfa sent beta 1\n\
                     beta repeat envelope I0\nbeta sent alfa 2\nround\n",
            status: Status::Done,
        }],
    },
];

static THIRD: [Case; 3] = [
    Case {
        why: "a sender is warned at 12 hours and has notice at 22 hours, to the second",
        directory: Directory::Alfa,
        failing: &[],
        runs: &[Run {
            form: "run",
            script: "submit alfa 1704186000 alice@alfa.example anna@alfa.example {M1}\n\
                     tick alfa 1704229199\ntick alfa 1704229200\ntick alfa 1704265199\ntick alfa 1704265200\n\
                     tick alfa 1704272401\n",
            output: "accepted I0\nticked\nwarned I0 anna@alfa.example\nticked\nticked\n\
                     noticed I0 anna@alfa.example\nticked\nticked\n",
            status: Status::Done,
        }],
    },
    Case {
        why: "a first look at the clock at 24 hours gives notice, and one later late notice",
        directory: Directory::Two,
        failing: &[],
        runs: &[Run {
            form: "run",
            script: "submit alfa 1704186000 alice@alfa.example anna@alfa.example {M1}\n\
                     submit beta 1704186000 bob@beta.example alice@alfa.example \
                     {From: bob@beta.example|To: alice@alfa.example||}\n\
                     tick alfa 1704272400\ntick beta 1704272401\n",
            output: "accepted I0\naccepted J0\nnoticed I0 anna@alfa.example\nticked\n\
                     noticed-late J0 alice@alfa.example\nticked\n",
            status: Status::Done,
        }],
    },
    Case {
        why: "a message that is delivered behind its notice has both",
        directory: Directory::Alfa,
        failing: &[],
        runs: &[Run {
            form: "run",
            script: "submit alfa 1704186000 alice@alfa.example anna@alfa.example {M1}\ntick alfa 1704265200\n\
                     round 1704265201\nround 1704265202\nround 1704265203\n\
                     book alice@alfa.example\nmailbox alice@alfa.example\n",
            output: "accepted I0\nnoticed I0 anna@alfa.example\nticked\nalfa sent alfa 1\nround\n\
                     alfa took I0\nalfa decided I0 anna@alfa.example delivered\nalfa sent alfa 3\nround\n\
                     alfa charged I0 alfa\nalfa learned I0 anna@alfa.example delivered\nalfa repeat envelope I0\n\
                     alfa sent alfa 3\nround\n\
                     I0 anna@alfa.example primary 1704186000 1704265203 - 1704265200 delivered 1704265202\nbook 1\n\
                     0 acceptance I0 -\n1 notice I0 anna@alfa.example\n2 delivery I0 anna@alfa.example\nmailbox 3\n",
            status: Status::Done,
        }],
    },
];

static FOURTH: [Case; 3] = [
    Case {
        why: "what isn't certified comes as an anomaly to whom its path names",
        directory: Directory::Two,
        failing: &[],
        runs: &[Run {
            form: "run",
            script: "inject alfa beta {F1}\nround 1704186001\nmailbox bob@beta.example\nshow bob@beta.example 1\n",
            output: "injected\nbeta anomaly 1\nround\n0 anomaly - -\nmailbox 1\nno-item\n",
            status: Status::Done,
        }],
    },
    Case {
        why: "a mailbox at its quota takes no further message",
        directory: Directory::Two,
        failing: &[],
        runs: &[Run {
            form: "run",
            script: "submit alfa 1704186000 alice@alfa.example carl@beta.example {M3}\n\
                     submit alfa 1704186000 alice@alfa.example carl@beta.example {M3}\n\
                     round 1704186001\nround 1704186002\n",
            output: "accepted I0\naccepted I1\nalfa sent beta 2\nround\nalfa sent beta 2\n\
                     beta took I0\nbeta took I1\nbeta decided I0 carl@beta.example delivered\n\
                     beta decided I1 carl@beta.example mailbox-full\nbeta sent alfa 4\nround\n",
            status: Status::Done,
        }],
    },
    Case {
        why: "a lost acknowledgement is sent again by a provider that crashed meanwhile",
        directory: Directory::Two,
        failing: &[],
        runs: &[Run {
            form: "run",
            script: "submit alfa 1704186000 alice@alfa.example bob@beta.example {M2}\n\
                     round 1704186001\nround 1704186002\nround 1704186003\n\
                     lose alfa beta 0\ncrash alfa\nbook alice@alfa.example\nrestart alfa\n\
                     round 1704186004\nround 1704186005\nround 1704186006\nmailbox alice@alfa.example\n",
            output: "accepted I0\nalfa sent beta 1\nround\nalfa sent beta 1\nbeta took I0\n\
                     beta decided I0 bob@beta.example delivered\nbeta sent alfa 2\nround\n\
                     alfa charged I0 beta\nalfa learned I0 bob@beta.example delivered\nalfa sent beta 1\n\
                     beta repeat envelope I0\nbeta sent alfa 2\nround\n\
                     lost\ncrashed\ndown\nrestarted 4\n\
                     alfa repeat charge I0\nalfa repeat outcome I0 bob@beta.example\nalfa sent beta 1\n\
                     beta sent alfa 1\nround\n\
                     alfa repeat outcome I0 bob@beta.example\nalfa sent beta 1\n\
                     beta acked I0 bob@beta.example\nround\n\
                     beta repeat ack I0 bob@beta.example\nround\n\
                     0 acceptance I0 -\n1 delivery I0 bob@beta.example\nmailbox 2\n",
            status: Status::Done,
        }],
    },
];

/// The tables, by functions without a clause: the proof of the test is spared their texts.
fn first() -> &'static [Case] {
    &FIRST
}

fn second() -> &'static [Case] {
    &SECOND
}

fn third() -> &'static [Case] {
    &THIRD
}

fn fourth() -> &'static [Case] {
    &FOURTH
}

#[test]
fn messages_come_to_their_ends(rt: HostRuntime) {
    for cases in [first(), second(), third(), fourth()] {
        assert_eq!(rt; first_wrong(&rt, cases), None);
    }
}
