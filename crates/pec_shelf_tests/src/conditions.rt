//! Entries that are no step: one for each condition of each kind of entry, and for its moment.

use crate::lines::Log;
use crate::playing::Desk;
use crate::rows::all_hold;
use std::alloc::Global;

/// At alfa, on the sender's side: 0/0 for bob is charged and known, 0/1 for bob and carl isn't; 0/2 was refused.
const SENT: &str = "\
start 0 0 two
accepted 1704186000 alice@alfa.example alice@alfa.example bob@beta.example -
accepted 1704186000 alice@alfa.example alice@alfa.example bob@beta.example,carl@beta.example -
refused 1704186000 alice@alfa.example bob@beta.example
charged 1704186000 0/0 1
learned 1704186000 0/0 bob@beta.example delivered 1704186000
";

/// What is no step behind that, and why.
const NOT_SENT: &str = "\
accepted 1704186000 zoe@alfa.example zoe@alfa.example bob@beta.example - # by no account
accepted 1704186000 bob@beta.example bob@beta.example alice@alfa.example - # by an account of another
accepted 1704186000 anna@alfa.example alice@alfa.example bob@beta.example - # by another than its sender
accepted 1704186000 alice@alfa.example - bob@beta.example - # its head has no sender
accepted 1704185999 alice@alfa.example alice@alfa.example bob@beta.example - # at an earlier moment
refused 1704186000 nobody@beta.example bob@beta.example # by no account
refused 1704186000 bob@beta.example bob@beta.example # by an account of another
refused 1704186000 alice@alfa.example - # without a path
refused 1704185999 alice@alfa.example bob@beta.example # at an earlier moment
charged 1704186000 1/0 1 # a message of another
charged 1704186000 0/3 1 # a message that isn't there
charged 1704186000 0/2 1 # a message that was refused
charged 1704186000 0/1 0 # no recipient is there
charged 1704186000 0/1 2 # by no provider
charged 1704186000 0/0 1 # twice
charged 1704185999 0/1 1 # at an earlier moment
learned 1704186000 1/0 bob@beta.example delivered 1704186000 # a message of another
learned 1704186000 0/3 bob@beta.example delivered 1704186000 # a message that isn't there
learned 1704186000 0/2 bob@beta.example delivered 1704186000 # a message that was refused
learned 1704186000 0/0 carl@beta.example delivered 1704186000 # none of its recipients
learned 1704186000 0/0 bob@beta.example delivered 1704186000 # twice
learned 1704186000 0/0 bob@beta.example mailbox-full 1704186000 # twice, and otherwise
learned 1704185999 0/1 bob@beta.example delivered 1704185999 # at an earlier moment
tick 1704185999 # the clock goes back
";

/// At beta, on the recipient's side: 0/0 is decided for bob and acknowledged, 0/1 is decided for carl, whose mailbox is
/// full with it, and not for bob; 0/2 is taken for carl and for an address that is no account.
const RECEIVED: &str = "\
start 0 1 two
took 1704186000 0/0 alice@alfa.example bob@beta.example -
decided 1704186000 0/0 bob@beta.example delivered
acked 1704186000 0/0 bob@beta.example
took 1704186000 0/1 alice@alfa.example bob@beta.example,carl@beta.example -
decided 1704186000 0/1 carl@beta.example delivered
took 1704186000 0/2 alice@alfa.example carl@beta.example,nobody@beta.example -
";

/// What is no step behind that, and why.
const NOT_RECEIVED: &str = "\
took 1704186000 0/0 alice@alfa.example bob@beta.example - # the id was taken
took 1704186000 0/0 alice@alfa.example carl@beta.example - # the id was taken, for another
took 1704186000 2/0 alice@alfa.example bob@beta.example - # an id of no provider
took 1704186000 1/0 alice@alfa.example anna@alfa.example - # nobody is here
took 1704185999 1/0 alice@alfa.example bob@beta.example - # at an earlier moment
decided 1704186000 1/0 bob@beta.example delivered # before it is taken
decided 1704186000 0/0 carl@beta.example mailbox-full # taken for another
decided 1704186000 0/0 bob@beta.example delivered # twice
decided 1704186000 0/0 bob@beta.example virus # twice, and otherwise
decided 1704186000 0/1 bob@beta.example no-mailbox # an account
decided 1704186000 0/1 bob@beta.example mailbox-full # an account with room
decided 1704186000 0/2 carl@beta.example delivered # a full mailbox
decided 1704186000 0/2 carl@beta.example no-mailbox # a full mailbox
decided 1704186000 0/2 nobody@beta.example delivered # no account
decided 1704186000 0/2 nobody@beta.example mailbox-full # no account
decided 1704186000 0/2 nobody@beta.example virus # no account
decided 1704185999 0/1 bob@beta.example delivered # at an earlier moment
acked 1704186000 0/1 bob@beta.example # not decided
acked 1704186000 0/0 carl@beta.example # taken for another
acked 1704186000 0/0 bob@beta.example # twice
acked 1704185999 0/1 carl@beta.example # at an earlier moment
anomaly 1704186000 - # for nobody
anomaly 1704186000 bob@beta.example,bob@beta.example # for one twice
anomaly 1704186000 alice@alfa.example # an account of another
anomaly 1704186000 nobody@beta.example # no account
anomaly 1704186000 bob@beta.example,carl@beta.example # one has no room
anomaly 1704185999 bob@beta.example # at an earlier moment
archived 1704186000 bob@beta.example 0 # a journal of version 1
upgraded 1704185999 # at an earlier moment
start-two 0 1 two # not the first entry
";

/// What is no step behind a Start of version 2 and an envelope for carl, of which the item is archived, and why.
const NOT_ARCHIVED: &str = "\
upgraded 1704186000 # of version 2
start 0 1 two # not the first entry
archived 1704186000 carl@beta.example 0 # the mailbox is empty again
archived 1704186000 bob@beta.example 0 # nothing was placed
archived 1704186000 alice@alfa.example 0 # an account of another
archived 1704186000 nobody@beta.example 0 # no account
";

/// A provider of version 2 with an archived item.
const ARCHIVED: &str = "\
start-two 0 1 two
took 1704186000 0/0 alice@alfa.example carl@beta.example -
decided 1704186000 0/0 carl@beta.example delivered
archived 1704186000 carl@beta.example 0
";

/// What is no first step of alfa, and why.
const NOT_FIRST: &str = "\
start 0 1 two # of another provider
start 0 0 one # of another directory
start-two 0 1 two # of another provider
start-two 0 0 one # of another directory
upgraded 1704186000 # without a Start
archived 1704186000 alice@alfa.example 0 # without a Start
";

/// Lines that are no step of a provider behind those before.
type Case = (u32, &'static str, &'static str);

static CASES: [Case; 6] = [
    (0, "", NOT_FIRST),
    (0, "start 0 0 two", "start 0 0 two # twice"),
    (0, SENT, NOT_SENT),
    (1, ARCHIVED, NOT_ARCHIVED),
    (1, "start-two 0 1 two", "start-two 0 1 two # twice"),
    (1, RECEIVED, NOT_RECEIVED),
];

/// The cases, by a function without a clause: the proofs of others are spared their texts.
fn cases() -> &'static [Case] {
    &CASES
}

#[test]
fn an_entry_that_misses_a_condition_is_no_step(rt: HostRuntime) {
    all_hold(&rt, first_wrong(rt.alloc(), cases()));
}

/// The first line that is a step, or behind which one before it isn't; none where there is no such line.
fn first_wrong(alloc: Global, cases: &[Case]) -> Option<&'static str> {
    for (me, before, lines) in cases {
        let wrong = first_step(alloc, *me, before, lines);
        if wrong.is_some() {
            return wrong;
        }
    }
    None
}

/// The first of the lines that is a step of a provider behind those before, or behind which one of these isn't.
fn first_step(
    alloc: Global,
    me: u32,
    before: &'static str,
    lines: &'static str,
) -> Option<&'static str> {
    for line in lines.split('\n') {
        if !line.is_empty() && !is_no_step(alloc, me, before, line) {
            return Some(line);
        }
    }
    None
}

fn is_no_step(alloc: Global, me: u32, before: &'static str, line: &'static str) -> bool {
    let mut log = Log::new(alloc);
    if let Some(mut desk) = Desk::new(alloc, me) {
        desk.play_script(&mut log, before);
        desk.play_line(&mut log, line);
    }
    log.is(b"not-a-step\n")
}
