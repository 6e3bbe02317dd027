//! Each row of reception, with the true frame and with frames that miss one condition of the row. All answers were
//! worked out by hand.

use super::world::{Case, first_wrong_of};
use std::test::Fail;

static FIRST: [Case; 2] = [
    Case {
        why: "what is no frame is dropped; what isn't certified goes once to each account of its path that has room",
        script: "
beta arrive 1704186001 no-path -> dropped
beta arrive 1704186001 no-line -> dropped
beta arrive 1704186001 no-address -> dropped
beta arrive 1704186001 bad-address -> dropped
beta arrive 1704186001 nothing -> dropped
beta arrive 1704186001 for-nobody -> dropped
alfa arrive 1704186001 for-bob -> dropped
beta figures -> 1 0 0 50 up
beta arrive 1704186001 for-both -> anomaly 2
beta arrive 1704186001 for-both -> anomaly 1
beta arrive 1704186001 for-carl -> dropped
beta arrive 1704186001 for-bob -> anomaly 1
beta mailbox bob@beta.example -> anomaly, anomaly, anomaly, 3 items
beta mailbox carl@beta.example -> anomaly, 1 items
beta item bob@beta.example 0 -> X-Trasporto: errore
beta put 0 64 -> 0 frames
",
    },
    Case {
        why: "an envelope is taken under the seal of its sender's provider and on the path of its recipients here",
        script: "
alfa submit 1704186000 alice@alfa.example bob@beta.example to-bob -> accepted 0/0
alfa put 1 64 -> X-Trasporto: posta-certificata, 1 frames
beta arrive 1704186002 alfa 0 Salve>salve -> anomaly 1
beta arrive 1704186002 alfa 0 X-Sigillo>X-sigillo -> anomaly 1
beta arrive 1704186002 alfa 0 by=1 -> anomaly 1
beta arrive 1704186002 alfa 0 0000000@alfa>0000000@beta by=0 -> anomaly 1
beta arrive 1704186002 alfa 0 0000000@alfa>0000000@beta by=1 -> anomaly 1
beta arrive 1704186002 alfa 0 0000000@alfa>0000000@posta by=0 -> anomaly 1
beta arrive 1704186002 alfa 0 path=bob@beta.example,bob@beta.example -> anomaly 1
beta arrive 1704186002 alfa 0 path=bob@beta.example,alice@alfa.example -> anomaly 1
beta arrive 1704186002 alfa 0 path=carl@beta.example -> anomaly 1
beta arrive 1704186002 alfa 0 path=carl@beta.example -> dropped
beta arrive 1704186002 alfa 0 path=alice@alfa.example -> dropped
alfa arrive 1704186002 alfa 0 -> dropped
alfa arrive 1704186002 alfa 0 path=alice@alfa.example -> anomaly 1
beta decide 1704186002 -> none
beta put 0 64 -> 0 frames
beta arrive 1704186002 alfa 0 -> took 0/0
beta put 0 64 -> X-Ricevuta: presa-in-carico, 1 frames
beta arrive 1704186002 alfa 0 -> repeat envelope 0/0 1
beta arrive 1704186002 alfa 0 Salve>salve -> anomaly 1
beta arrive 1704186002 alfa 0 path=alice@alfa.example -> dropped
beta arrive 1704186002 alfa 0 Salve>salve by=0 -> repeat envelope 0/0 1
beta arrive 1704186002 alfa 0 0000000>0000007 by=0 -> took 0/7
beta put 0 64 -> X-Ricevuta: presa-in-carico, X-Ricevuta: presa-in-carico, X-Ricevuta: presa-in-carico, X-Ricevuta: presa-in-carico, 4 frames
",
    },
];

static SECOND: [Case; 2] = [
    Case {
        why: "a charge is learned under the seal of who took charge, of a message that has recipients there",
        script: "
alfa submit 1704186000 alice@alfa.example bob@beta.example to-bob -> accepted 0/0
alfa submit 1704186000 alice@alfa.example anna@alfa.example to-anna -> accepted 0/1
alfa put 1 64 -> X-Trasporto: posta-certificata, 1 frames
beta arrive 1704186002 alfa 0 -> took 0/0
beta put 0 64 -> X-Ricevuta: presa-in-carico, 1 frames
alfa arrive 1704186003 beta 0 Ciao>ciao -> dropped
alfa arrive 1704186003 beta 0 by=0 -> dropped
alfa arrive 1704186003 beta 0 0000000>0000001 by=1 -> dropped
alfa arrive 1704186003 beta 0 0000000>0000005 by=1 -> dropped
alfa arrive 1704186003 beta 0 0000000@alfa>0000000@beta by=1 -> dropped
alfa arrive 1704186003 beta 0 path=ricevute@beta.example -> dropped
alfa arrive 1704186003 beta 0 path=alice@alfa.example -> anomaly 1
alfa arrive 1704186003 beta 0 path=ricevute@alfa.example,anna@alfa.example -> anomaly 1
beta arrive 1704186003 beta 0 -> dropped
alfa arrive 1704186003 beta 0 -> charged 0/0 1
alfa arrive 1704186003 beta 0 -> repeat charge 0/0 1
alfa arrive 1704186003 beta 0 path=anna@alfa.example -> anomaly 1
alfa put 1 64 -> 0 frames
alfa book alice@alfa.example -> 0/0 bob@beta.example primary 1704186000 1704186003 - - open, 0/1 anna@alfa.example primary 1704186000 - - - open, 2 rows
",
    },
    Case {
        why: "an outcome is learned under the seal of its recipient's provider, on the path of the sender",
        script: "
alfa submit 1704186000 alice@alfa.example bob@beta.example to-bob -> accepted 0/0
alfa put 1 64 -> X-Trasporto: posta-certificata, 1 frames
beta arrive 1704186002 alfa 0 -> took 0/0
beta decide 1704186002 -> decided 0/0 bob@beta.example delivered
beta end-turn -> ended
beta put 0 64 -> X-Ricevuta: avvenuta-consegna, 1 frames
alfa arrive 1704186003 beta 0 Salve>salve -> anomaly 1
alfa arrive 1704186003 beta 0 by=0 -> anomaly 1
alfa arrive 1704186003 beta 0 0000000>0000005 by=1 -> anomaly 1
alfa arrive 1704186003 beta 0 0000000@alfa>0000000@beta by=1 -> anomaly 1
alfa arrive 1704186003 beta 0 bob@beta.example>carl@beta.example by=1 -> anomaly 1
alfa arrive 1704186003 beta 0 path=anna@alfa.example -> anomaly 1
alfa arrive 1704186003 beta 0 path=alice@alfa.example,anna@alfa.example -> anomaly 2
alfa arrive 1704186003 beta 0 path=ricevute@alfa.example -> dropped
beta arrive 1704186003 beta 0 -> dropped
alfa book alice@alfa.example -> 0/0 bob@beta.example primary 1704186000 - - - open, 1 rows
alfa put 1 0 -> 0 frames
alfa arrive 1704186003 beta 0 -> learned 0/0 bob@beta.example delivered
alfa arrive 1704186003 beta 0 -> repeat outcome 0/0 bob@beta.example
alfa arrive 1704186003 beta 0 path=anna@alfa.example -> anomaly 1
alfa arrive 1704186003 beta 0 Salve>salve -> anomaly 1
alfa put 1 64 -> X-Riscontro: pec.0000000@alfa.example bob@beta.example, X-Riscontro: pec.0000000@alfa.example bob@beta.example, 2 frames
alfa book alice@alfa.example -> 0/0 bob@beta.example primary 1704186000 - - - delivered 1704186002, 1 rows
",
    },
];

static THIRD: [Case; 2] = [
    Case {
        why: "an acknowledgement is taken under the seal of the sender's provider, of a pair that is decided here",
        script: "
alfa submit 1704186000 alice@alfa.example bob@beta.example to-bob -> accepted 0/0
alfa submit 1704186000 alice@alfa.example bob@beta.example to-bob -> accepted 0/1
alfa put 1 64 -> X-Trasporto: posta-certificata, X-Trasporto: posta-certificata, 2 frames
beta arrive 1704186002 alfa 0 -> took 0/0
beta decide 1704186002 -> decided 0/0 bob@beta.example delivered
beta arrive 1704186002 alfa 1 -> took 0/1
beta end-turn -> ended
beta put 0 64 -> X-Ricevuta: avvenuta-consegna, 1 frames
alfa arrive 1704186003 beta 0 -> learned 0/0 bob@beta.example delivered
alfa put 1 1 -> X-Riscontro: pec.0000000@alfa.example bob@beta.example, 1 frames
beta arrive 1704186004 alfa 0 ricevuto>Ricevuto -> dropped
beta arrive 1704186004 alfa 0 by=1 -> dropped
beta arrive 1704186004 alfa 0 0000000>0000001 by=0 -> dropped
beta arrive 1704186004 alfa 0 0000000>0000005 by=0 -> dropped
beta arrive 1704186004 alfa 0 bob@beta.example>carl@beta.example by=0 -> dropped
beta arrive 1704186004 alfa 0 path=ricevute@alfa.example -> dropped
beta arrive 1704186004 alfa 0 path=bob@beta.example -> anomaly 1
beta arrive 1704186004 alfa 0 path=ricevute@beta.example,ricevute@beta.example -> dropped
alfa arrive 1704186004 alfa 0 -> dropped
beta put 0 64 -> X-Ricevuta: avvenuta-consegna, 1 frames
beta arrive 1704186004 alfa 0 -> acked 0/0 bob@beta.example
beta arrive 1704186004 alfa 0 -> repeat ack 0/0 bob@beta.example
beta arrive 1704186004 alfa 0 path=bob@beta.example -> anomaly 1
beta put 0 64 -> 0 frames
beta decide 1704186004 -> decided 0/1 bob@beta.example delivered
beta arrive 1704186004 alfa 0 0000000>0000001 by=0 -> acked 0/1 bob@beta.example
",
    },
    Case {
        why: "a letter is of no use to another provider, and none is taken back by who put it",
        script: "
alfa submit 1704186000 alice@alfa.example bob@beta.example,carl@beta.example to-bob -> not-accepted 0/0 forward-path
alfa submit 1704186000 alice@alfa.example bob@beta.example,carl@beta.example to-both -> accepted 0/1
alfa put 1 64 -> X-Trasporto: posta-certificata, 1 frames
beta arrive 1704186002 alfa 0 path=bob@beta.example -> anomaly 1
beta arrive 1704186002 alfa 0 path=carl@beta.example,bob@beta.example -> anomaly 2
beta arrive 1704186002 alfa 0 -> took 0/1
beta decide 1704186002 -> decided 0/1 bob@beta.example delivered
beta decide 1704186002 -> decided 0/1 carl@beta.example mailbox-full
beta put 0 64 -> X-Ricevuta: presa-in-carico, X-Ricevuta: avvenuta-consegna, X-Ricevuta: errore-consegna, 3 frames
beta arrive 1704186002 beta 1 path=bob@beta.example -> anomaly 1
alfa arrive 1704186003 beta 2 -> learned 0/1 carl@beta.example mailbox-full
alfa arrive 1704186003 beta 1 -> learned 0/1 bob@beta.example delivered
alfa mailbox alice@alfa.example -> non-acceptance 0/0, acceptance 0/1, delivery-error 0/1 carl@beta.example, delivery 0/1 bob@beta.example, 4 items
",
    },
];

/// The tables, by functions without a clause: the proof of the test is spared their texts.
fn first() -> &'static [Case] {
    &FIRST
}

fn second() -> &'static [Case] {
    &SECOND
}

fn third() -> &'static [Case] {
    &THIRD
}

#[test]
fn frames_are_received_by_the_first_row_that_applies(rt: HostRuntime) -> Result<(), Fail> {
    for cases in [first(), second(), third()] {
        let wrong = first_wrong_of(rt.alloc(), cases)?;
        assert!(rt; wrong.is_none(), "{wrong:?}");
    }
    Ok(())
}
