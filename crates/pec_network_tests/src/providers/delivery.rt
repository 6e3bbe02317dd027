//! Worked rows on the calls of one provider, or of two whose frames are handed on. All answers were worked out by hand.

use super::world::{Case, first_wrong_of};
use std::test::Fail;

// The Start of a provider takes 50 bytes with the header; the entry of the message to anna takes 5 and 106, and a clock
// call 5 and 9.
static FIRST: [Case; 3] = [
    Case {
        why: "what one provider answers about a message that is open for 12 hours",
        script: "
alfa figures -> 1 0 0 50 up
alfa decide 1704185999 -> none
alfa submit 1704186000 alice@alfa.example anna@alfa.example to-anna -> accepted 0/0
alfa figures -> 2 1704186000 1 161 up
alfa tick 1704229200 -> warning 0/0 anna@alfa.example, 1 marks
alfa tick 1704229199 -> clock-back 1704229200
alfa submit 1704229199 alice@alfa.example anna@alfa.example to-anna -> clock-back 1704229200
alfa decide 1704229199 -> clock-back 1704229200
alfa arrive 1704229199 for-bob -> clock-back 1704229200
alfa decide 1704229200 -> none
alfa put 0 64 -> X-Trasporto: posta-certificata, 1 frames
alfa put 0 0 -> 0 frames
alfa put 1 64 -> 0 frames
alfa item alice@alfa.example 0 -> X-Ricevuta: accettazione
alfa item alice@alfa.example 1 -> X-Ricevuta: preavviso-errore-consegna
alfa item alice@alfa.example 2 -> no-item
alfa item anna@alfa.example 0 -> no-item
alfa item bob@beta.example 0 -> no-account
alfa mailbox alice@alfa.example -> acceptance 0/0, warning 0/0 anna@alfa.example, 2 items
alfa figures -> 3 1704229200 1 175 up
",
    },
    Case {
        why: "within one provider a message is taken, placed, and its receipts are acknowledged",
        script: "
alfa submit 1704186000 alice@alfa.example anna@alfa.example to-anna -> accepted 0/0
alfa put 0 64 -> X-Trasporto: posta-certificata, 1 frames
alfa arrive 1704186002 alfa 0 -> took 0/0
alfa decide 1704186002 -> decided 0/0 anna@alfa.example delivered
alfa decide 1704186002 -> none
alfa put 0 64 -> X-Ricevuta: presa-in-carico, X-Ricevuta: avvenuta-consegna, X-Trasporto: posta-certificata, 3 frames
alfa end-turn -> ended
alfa arrive 1704186003 alfa 0 -> charged 0/0 0
alfa arrive 1704186003 alfa 1 -> learned 0/0 anna@alfa.example delivered
alfa arrive 1704186003 alfa 2 -> repeat envelope 0/0 0
alfa decide 1704186003 -> none
alfa put 0 64 -> X-Riscontro: pec.0000000@alfa.example anna@alfa.example, X-Ricevuta: presa-in-carico, X-Ricevuta: avvenuta-consegna, 3 frames
alfa end-turn -> ended
alfa arrive 1704186004 alfa 0 -> acked 0/0 anna@alfa.example
alfa arrive 1704186004 alfa 1 -> repeat charge 0/0 0
alfa arrive 1704186004 alfa 2 -> repeat outcome 0/0 anna@alfa.example
alfa put 0 64 -> X-Riscontro: pec.0000000@alfa.example anna@alfa.example, 1 frames
alfa end-turn -> ended
alfa arrive 1704186005 alfa 0 -> repeat ack 0/0 anna@alfa.example
alfa put 0 64 -> 0 frames
alfa book alice@alfa.example -> 0/0 anna@alfa.example primary 1704186000 1704186003 - - delivered 1704186002, 1 rows
alfa mailbox alice@alfa.example -> acceptance 0/0, delivery 0/0 anna@alfa.example, 2 items
alfa mailbox anna@alfa.example -> envelope 0/0, 1 items
alfa item alice@alfa.example 1 -> X-Ricevuta: avvenuta-consegna
alfa item anna@alfa.example 0 -> X-Trasporto: posta-certificata
",
    },
    Case {
        why: "what is owed is put in its order, cut to the room, until the turn ends; an outcome until it is acknowledged",
        script: "
alfa submit 1704186000 alice@alfa.example bob@beta.example to-bob -> accepted 0/0
alfa put 0 64 -> 0 frames
alfa put 1 64 -> X-Trasporto: posta-certificata, 1 frames
beta arrive 1704186001 alfa 0 -> took 0/0
beta put 0 64 -> X-Ricevuta: presa-in-carico, 1 frames
beta decide 1704186001 -> decided 0/0 bob@beta.example delivered
beta put 0 1 -> X-Ricevuta: presa-in-carico, 1 frames
beta put 1 64 -> 0 frames
beta put 0 64 -> X-Ricevuta: presa-in-carico, X-Ricevuta: avvenuta-consegna, 2 frames
beta end-turn -> ended
alfa arrive 1704186002 beta 1 -> learned 0/0 bob@beta.example delivered
alfa arrive 1704186002 beta 0 -> charged 0/0 1
alfa put 1 64 -> X-Riscontro: pec.0000000@alfa.example bob@beta.example, 1 frames
alfa end-turn -> ended
beta put 0 64 -> X-Ricevuta: avvenuta-consegna, 1 frames
beta arrive 1704186003 alfa 0 -> acked 0/0 bob@beta.example
beta put 0 64 -> 0 frames
beta put 1 64 -> 0 frames
alfa put 1 64 -> 0 frames
alfa book alice@alfa.example -> 0/0 bob@beta.example primary 1704186000 1704186002 - - delivered 1704186001, 1 rows
alfa mailbox alice@alfa.example -> acceptance 0/0, delivery 0/0 bob@beta.example, 2 items
beta mailbox bob@beta.example -> envelope 0/0, 1 items
beta book bob@beta.example -> 0 rows
alfa book bob@beta.example -> no-account
",
    },
];

static SECOND: [Case; 3] = [
    Case {
        why: "a message is one envelope for all recipients of a provider, in the order of its head",
        script: "
alfa submit 1704186000 alice@alfa.example carl@beta.example,bob@beta.example to-both -> accepted 0/0
alfa book alice@alfa.example -> 0/0 bob@beta.example primary 1704186000 - - - open, 0/0 carl@beta.example copy 1704186000 - - - open, 2 rows
alfa put 1 64 -> X-Trasporto: posta-certificata, 1 frames
beta arrive 1704186001 alfa 0 -> took 0/0
beta decide 1704186001 -> decided 0/0 bob@beta.example delivered
beta decide 1704186001 -> decided 0/0 carl@beta.example delivered
beta decide 1704186001 -> none
beta put 0 64 -> X-Ricevuta: presa-in-carico, X-Ricevuta: avvenuta-consegna, X-Ricevuta: avvenuta-consegna, 3 frames
alfa arrive 1704186002 beta 2 -> learned 0/0 carl@beta.example delivered
alfa put 1 64 -> X-Riscontro: pec.0000000@alfa.example carl@beta.example, 1 frames
alfa book alice@alfa.example -> 0/0 bob@beta.example primary 1704186000 - - - open, 0/0 carl@beta.example copy 1704186000 - - - delivered 1704186001, 2 rows
",
    },
    Case {
        why: "who isn't certified has no row",
        script: "
alfa submit 1704186000 alice@alfa.example bob@beta.example,x@posta.example to-outside -> accepted 0/0
alfa book alice@alfa.example -> 0/0 bob@beta.example primary 1704186000 - - - open, 1 rows
",
    },
    Case {
        why: "a message to nobody is told undelivered",
        script: "
alfa submit 1704186000 alice@alfa.example nobody@beta.example to-nobody -> accepted 0/0
alfa put 1 64 -> X-Trasporto: posta-certificata, 1 frames
beta arrive 1704186002 alfa 0 -> took 0/0
beta decide 1704186002 -> decided 0/0 nobody@beta.example no-mailbox
beta put 0 64 -> X-Ricevuta: presa-in-carico, X-Ricevuta: errore-consegna, 2 frames
alfa arrive 1704186003 beta 0 -> charged 0/0 1
alfa arrive 1704186003 beta 1 -> learned 0/0 nobody@beta.example no-mailbox
alfa book alice@alfa.example -> 0/0 nobody@beta.example primary 1704186000 1704186003 - - no-mailbox 1704186002, 1 rows
alfa mailbox alice@alfa.example -> acceptance 0/0, delivery-error 0/0 nobody@beta.example, 2 items
beta mailbox nobody@beta.example -> no-account
",
    },
];

static THIRD: [Case; 3] = [
    Case {
        why: "a message may be put twice, and an envelope that comes four times is placed once",
        script: "
alfa submit 1704186000 alice@alfa.example bob@beta.example to-bob -> accepted 0/0
alfa put 1 64 -> X-Trasporto: posta-certificata, 1 frames
alfa end-turn -> ended
alfa put 1 64 -> X-Trasporto: posta-certificata, 1 frames
beta arrive 1704186004 alfa 0 -> took 0/0
beta arrive 1704186004 alfa 0 -> repeat envelope 0/0 1
beta arrive 1704186004 alfa 0 -> repeat envelope 0/0 1
beta arrive 1704186004 alfa 0 -> repeat envelope 0/0 1
beta decide 1704186004 -> decided 0/0 bob@beta.example delivered
beta put 0 64 -> X-Ricevuta: presa-in-carico, X-Ricevuta: presa-in-carico, X-Ricevuta: presa-in-carico, X-Ricevuta: presa-in-carico, X-Ricevuta: avvenuta-consegna, 5 frames
alfa arrive 1704186005 beta 0 -> charged 0/0 1
alfa arrive 1704186005 beta 1 -> repeat charge 0/0 1
alfa arrive 1704186005 beta 4 -> learned 0/0 bob@beta.example delivered
beta mailbox bob@beta.example -> envelope 0/0, 1 items
",
    },
    Case {
        why: "a sender is warned at 12 hours and has notice at 22 hours, to the second, and once",
        script: "
alfa submit 1704186000 alice@alfa.example anna@alfa.example to-anna -> accepted 0/0
alfa tick 1704229199 -> 0 marks
alfa tick 1704229200 -> warning 0/0 anna@alfa.example, 1 marks
alfa tick 1704265199 -> 0 marks
alfa tick 1704265200 -> notice 0/0 anna@alfa.example, 1 marks
alfa tick 1704272401 -> 0 marks
alfa mailbox alice@alfa.example -> acceptance 0/0, warning 0/0 anna@alfa.example, notice 0/0 anna@alfa.example, 3 items
beta submit 1704186000 bob@beta.example alice@alfa.example to-alice -> accepted 1/0
beta tick 1704272401 -> late-notice 1/0 alice@alfa.example, 1 marks
beta mailbox bob@beta.example -> acceptance 1/0, late-notice 1/0 alice@alfa.example, 2 items
",
    },
    Case {
        why: "a message that is delivered behind its notice has both",
        script: "
alfa submit 1704186000 alice@alfa.example anna@alfa.example to-anna -> accepted 0/0
alfa tick 1704265200 -> notice 0/0 anna@alfa.example, 1 marks
alfa put 0 64 -> X-Trasporto: posta-certificata, 1 frames
alfa arrive 1704265202 alfa 0 -> took 0/0
alfa decide 1704265202 -> decided 0/0 anna@alfa.example delivered
alfa put 0 2 -> X-Ricevuta: presa-in-carico, X-Ricevuta: avvenuta-consegna, 2 frames
alfa arrive 1704265203 alfa 0 -> charged 0/0 0
alfa arrive 1704265203 alfa 1 -> learned 0/0 anna@alfa.example delivered
alfa book alice@alfa.example -> 0/0 anna@alfa.example primary 1704186000 1704265203 - 1704265200 delivered 1704265202, 1 rows
alfa mailbox alice@alfa.example -> acceptance 0/0, notice 0/0 anna@alfa.example, delivery 0/0 anna@alfa.example, 3 items
",
    },
];

static FOURTH: [Case; 2] = [
    Case {
        why: "a mailbox at its quota takes no further message, but receipts",
        script: "
alfa submit 1704186000 alice@alfa.example carl@beta.example to-carl -> accepted 0/0
alfa submit 1704186000 alice@alfa.example carl@beta.example to-carl -> accepted 0/1
alfa put 1 64 -> X-Trasporto: posta-certificata, X-Trasporto: posta-certificata, 2 frames
beta arrive 1704186002 alfa 0 -> took 0/0
beta arrive 1704186002 alfa 1 -> took 0/1
beta decide 1704186002 -> decided 0/0 carl@beta.example delivered
beta decide 1704186002 -> decided 0/1 carl@beta.example mailbox-full
beta decide 1704186002 -> none
beta mailbox carl@beta.example -> envelope 0/0, 1 items
beta arrive 1704186002 for-carl -> dropped
",
    },
    Case {
        why: "of an account that is none and a clock that is behind the first is told; who isn't accepted has a notice",
        script: "
alfa submit 1704186000 alice@alfa.example anna@alfa.example to-anna -> accepted 0/0
alfa submit 1704185999 zoe@alfa.example anna@alfa.example to-anna -> no-account
alfa submit 1704185999 bob@beta.example anna@alfa.example to-anna -> no-account
alfa submit 1704186000 anna@alfa.example anna@alfa.example to-anna -> not-accepted 0/1 reverse-path
alfa submit 1704186000 alice@alfa.example bob@beta.example to-anna -> not-accepted 0/2 forward-path
alfa submit 1704186000 alice@alfa.example bob@beta.example blind -> not-accepted 0/3 bcc
alfa mailbox alice@alfa.example -> acceptance 0/0, non-acceptance 0/2, non-acceptance 0/3, 3 items
alfa mailbox anna@alfa.example -> non-acceptance 0/1, 1 items
alfa item anna@alfa.example 0 -> X-Ricevuta: non-accettazione
alfa book alice@alfa.example -> 0/0 anna@alfa.example primary 1704186000 - - - open, 1 rows
alfa put 0 64 -> X-Trasporto: posta-certificata, 1 frames
",
    },
];

/// The tables, by functions without a clause: the proof of the test is spared their texts.
fn first() -> &'static [Case] {
    &FIRST
}

fn second() -> &'static [Case] {
    &SECOND
}

fn third() -> &'static [Case] {
    &THIRD
}

fn fourth() -> &'static [Case] {
    &FOURTH
}

#[test]
fn calls_are_answered_as_the_rules_say(rt: HostRuntime) -> Result<(), Fail> {
    for cases in [first(), second(), third(), fourth()] {
        let wrong = first_wrong_of(rt.alloc(), cases)?;
        assert!(rt; wrong.is_none(), "{wrong:?}");
    }
    Ok(())
}
