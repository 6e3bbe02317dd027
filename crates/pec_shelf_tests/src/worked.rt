//! Worked runs, entry by entry, on the shelf of one provider. All lines were worked out by hand.

use crate::lines::Log;
use crate::playing::Desk;
use crate::rows::all_hold;
use std::alloc::Global;

/// Runs, each from a line `= PROVIDER WHAT IT IS ABOUT` on: steps behind `> `, each with the lines that have to come of
/// it.
const RUNS: &str = "\
= 0 classes are by the head, in its order
> start 0 0 two
> accepted 1704186000 alice@alfa.example alice@alfa.example bob@beta.example bob@beta.example,carl@beta.example
> book alice@alfa.example
pec.0000000@alfa.example bob@beta.example primary 1704186000 - - - open
pec.0000000@alfa.example carl@beta.example copy 1704186000 - - - open
book 2
> book anna@alfa.example
book 0
> facts 0
alice@alfa.example primary bob@beta.example copy carl@beta.example
> facts 1
-
= 0 a message to nobody is told undelivered, at its sender's provider
> start 0 0 two
> accepted 1704186000 alice@alfa.example alice@alfa.example nobody@beta.example -
> charged 1704186003 0/0 1
> learned 1704186003 0/0 nobody@beta.example no-mailbox 1704186002
> book alice@alfa.example
pec.0000000@alfa.example nobody@beta.example primary 1704186000 1704186003 - - no-mailbox 1704186002
book 1
> mailbox alice@alfa.example
0 acceptance pec.0000000@alfa.example -
1 delivery-error pec.0000000@alfa.example nobody@beta.example
mailbox 2
> row 0/0 nobody@beta.example
1704186000 1704186003 - - no-mailbox 1704186002 1704186003 / - -
> row 0/0 bob@beta.example
-
= 1 a message to nobody is told undelivered, at its recipient's provider
> start 0 1 two
> undecided
-
> took 1704186002 0/0 alice@alfa.example nobody@beta.example -
> undecided
pec.0000000@alfa.example nobody@beta.example
> decided 1704186002 0/0 nobody@beta.example no-mailbox
> undecided
-
> due 0 64
outcome pec.0000000@alfa.example nobody@beta.example
due 1
> row 0/0 nobody@beta.example
- - - - - / 1704186002 no-mailbox 1704186002
> mailbox nobody@beta.example
mailbox 0
= 0 a sender is warned at 12 hours and has notice at 22 hours, to the second
> start 0 0 two
> accepted 1704186000 alice@alfa.example alice@alfa.example anna@alfa.example -
> tick 1704229199
ticked
> tick 1704229200
warned pec.0000000@alfa.example anna@alfa.example
ticked
> tick 1704229199
not-a-step
> tick 1704265199
ticked
> tick 1704265200
noticed pec.0000000@alfa.example anna@alfa.example
ticked
> tick 1704272401
ticked
> mailbox alice@alfa.example
0 acceptance pec.0000000@alfa.example -
1 warning pec.0000000@alfa.example anna@alfa.example
2 notice pec.0000000@alfa.example anna@alfa.example
mailbox 3
> source alice@alfa.example 1
3
> source alice@alfa.example 3
-
> counted alice@alfa.example
0
> row 0/0 anna@alfa.example
1704186000 - 1704229200 1704265200 - / - -
= 0 a first look at the clock at 24 hours gives notice alone
> start 0 0 two
> accepted 1704186000 alice@alfa.example alice@alfa.example anna@alfa.example -
> tick 1704272400
noticed pec.0000000@alfa.example anna@alfa.example
ticked
= 0 a first look at the clock past 24 hours gives late notice alone
> start 0 0 two
> accepted 1704186000 alice@alfa.example alice@alfa.example anna@alfa.example -
> tick 1704272401
noticed-late pec.0000000@alfa.example anna@alfa.example
ticked
= 0 a message that is delivered behind its notice has both
> start 0 0 two
> accepted 1704186000 alice@alfa.example alice@alfa.example anna@alfa.example -
> tick 1704265200
noticed pec.0000000@alfa.example anna@alfa.example
ticked
> due 0 64
envelope pec.0000000@alfa.example 0
due 1
> due 0 0
due 0
> took 1704265202 0/0 alice@alfa.example anna@alfa.example -
> decided 1704265202 0/0 anna@alfa.example delivered
> due 0 64
outcome pec.0000000@alfa.example anna@alfa.example
envelope pec.0000000@alfa.example 0
due 2
> charged 1704265203 0/0 0
> learned 1704265203 0/0 anna@alfa.example delivered 1704265202
> acked 1704265204 0/0 anna@alfa.example
> due 0 64
due 0
> book alice@alfa.example
pec.0000000@alfa.example anna@alfa.example primary 1704186000 1704265203 - 1704265200 delivered 1704265202
book 1
> mailbox alice@alfa.example
0 acceptance pec.0000000@alfa.example -
1 notice pec.0000000@alfa.example anna@alfa.example
2 delivery pec.0000000@alfa.example anna@alfa.example
mailbox 3
> mailbox anna@alfa.example
0 envelope pec.0000000@alfa.example -
mailbox 1
> row 0/0 anna@alfa.example
1704186000 1704265203 - 1704265200 delivered 1704265202 1704265203 / 1704265202 delivered 1704265202 acked
= 1 a mailbox at its quota takes no further message; receipts take no room
> start 0 1 two
> accepted 1704186000 carl@beta.example carl@beta.example alice@alfa.example -
> took 1704186002 0/0 alice@alfa.example carl@beta.example -
> took 1704186002 0/1 alice@alfa.example carl@beta.example -
> counted carl@beta.example
0
> decided 1704186002 0/0 carl@beta.example delivered
> counted carl@beta.example
1
> decided 1704186002 0/1 carl@beta.example delivered
not-a-step
> decided 1704186002 0/1 carl@beta.example mailbox-full
> mailbox carl@beta.example
0 acceptance pec.0000000@beta.example -
1 envelope pec.0000000@alfa.example -
mailbox 2
> source carl@beta.example 1
4
> taken 0/1
3
> taken 1/0
-
> due 0 64
outcome pec.0000000@alfa.example carl@beta.example
outcome pec.0000001@alfa.example carl@beta.example
envelope pec.0000000@beta.example 0
due 3
> due 0 1
outcome pec.0000000@alfa.example carl@beta.example
due 1
= 1 an item that is archived makes room, and those behind it move one place down
> start-two 0 1 two
> version
2
> accepted 1704186000 carl@beta.example carl@beta.example alice@alfa.example -
> took 1704186002 0/0 alice@alfa.example carl@beta.example -
> took 1704186002 0/1 alice@alfa.example carl@beta.example -
> decided 1704186002 0/0 carl@beta.example delivered
> vault carl@beta.example
vault 0
> archived 1704186003 carl@beta.example 1
> counted carl@beta.example
0
> mailbox carl@beta.example
0 acceptance pec.0000000@beta.example -
mailbox 1
> vault carl@beta.example
0 envelope pec.0000000@alfa.example -
vault 1
> decided 1704186003 0/1 carl@beta.example mailbox-full
not-a-step
> decided 1704186003 0/1 carl@beta.example delivered
> counted carl@beta.example
1
> archived 1704186004 carl@beta.example 2
not-a-step
> archived 1704186004 carl@beta.example 0
> mailbox carl@beta.example
0 envelope pec.0000001@alfa.example -
mailbox 1
> vault carl@beta.example
0 envelope pec.0000000@alfa.example -
1 acceptance pec.0000000@beta.example -
vault 2
> source carl@beta.example 0
6
> source carl@beta.example 1
-
> vault-source carl@beta.example 0
4
> vault-source carl@beta.example 1
1
> vault-source carl@beta.example 2
-
> counted carl@beta.example
1
> vault bob@beta.example
vault 0
= 1 a journal of version 1 knows archives once it is upgraded
> version
0
> start 0 1 two
> version
1
> took 1704186002 0/0 alice@alfa.example bob@beta.example -
> decided 1704186002 0/0 bob@beta.example delivered
> archived 1704186002 bob@beta.example 0
not-a-step
> upgraded 1704186002
> upgraded 1704186002
not-a-step
> version
2
> archived 1704186002 bob@beta.example 0
> mailbox bob@beta.example
mailbox 0
> vault bob@beta.example
0 envelope pec.0000000@alfa.example -
vault 1
= 0 an envelope is due until its provider is heard of, by a charge or by one outcome
> start 0 0 two
> accepted 1704186000 alice@alfa.example alice@alfa.example bob@beta.example -
> accepted 1704186000 alice@alfa.example alice@alfa.example bob@beta.example,carl@beta.example -
> due 1 64
envelope pec.0000000@alfa.example 1
envelope pec.0000001@alfa.example 1
due 2
> due 0 64
due 0
> learned 1704186003 0/1 bob@beta.example delivered 1704186002
> due 1 64
envelope pec.0000000@alfa.example 1
due 1
> charged 1704186004 0/0 1
> due 1 64
due 0
> book alice@alfa.example
pec.0000000@alfa.example bob@beta.example primary 1704186000 1704186004 - - open
pec.0000001@alfa.example bob@beta.example primary 1704186000 - - - delivered 1704186002
pec.0000001@alfa.example carl@beta.example primary 1704186000 - - - open
book 3
> mailbox alice@alfa.example
0 acceptance pec.0000000@alfa.example -
1 acceptance pec.0000001@alfa.example -
2 delivery pec.0000001@alfa.example bob@beta.example
mailbox 3
= 0 a refused message has a number, and neither facts nor lines; an anomaly names nothing
> start 0 0 two
> refused 1704186000 alice@alfa.example bob@beta.example
> accepted 1704186000 alice@alfa.example alice@alfa.example x@posta.example -
> anomaly 1704186001 alice@alfa.example,anna@alfa.example
> own 0
1
> own 1
2
> own 2
-
> facts 0
-
> facts 1
alice@alfa.example primary x@posta.example
> book alice@alfa.example
book 0
> mailbox alice@alfa.example
0 non-acceptance pec.0000000@alfa.example -
1 acceptance pec.0000001@alfa.example -
2 anomaly - -
mailbox 3
> mailbox anna@alfa.example
0 anomaly - -
mailbox 1
> counted alice@alfa.example
1
> due 1 64
due 0
";

/// The runs, by a function without a clause: the proofs of others are spared their text.
fn runs() -> &'static str {
    RUNS
}

#[test]
fn entries_come_to_the_worked_lines(rt: HostRuntime) {
    all_hold(&rt, first_wrong(rt.alloc(), runs()));
}

/// The first run of which other lines come; none where there is no such run.
fn first_wrong(alloc: Global, runs: &'static str) -> Option<&'static str> {
    for run in runs.split('=') {
        if !run.is_empty() && !comes(alloc, run) {
            return Some(run);
        }
    }
    None
}

/// Does the steps of a run, and puts the lines that have to come of them beside those that do.
fn comes(alloc: Global, run: &'static str) -> bool {
    let mut log = Log::new(alloc);
    let mut wanted = Log::new(alloc);
    match Desk::new(alloc, provider_of(run)) {
        Some(mut desk) => play(&mut desk, run, &mut log, &mut wanted),
        None => log.fail(),
    }
    log.is_as(&wanted)
}

fn play(desk: &mut Desk, run: &'static str, log: &mut Log, wanted: &mut Log) {
    for line in run.split('\n').skip(1) {
        play_line(desk, line, log, wanted);
    }
}

fn play_line(desk: &mut Desk, line: &'static str, log: &mut Log, wanted: &mut Log) {
    match line.strip_prefix("> ") {
        Some(step) => desk.play_line(log, step),
        None => want(line, wanted),
    }
}

fn want(line: &str, wanted: &mut Log) {
    if !line.is_empty() {
        wanted.put(line.as_bytes());
        wanted.put(b"\n");
    }
}

fn provider_of(run: &str) -> u32 {
    if run.starts_with(" 1 ") {
        return 1;
    }
    0
}
