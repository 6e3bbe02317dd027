//! The rows of the log extract, entry by entry, and its totals. All answers were worked out by hand.

use super::world::{Case, first_wrong_of, wrong_line};
use std::test::Fail;

static CASES: [Case; 3] = [
    Case {
        why: "both ends of a range belong to it, and only entries of the range have rows",
        script: "
alfa submit 1704186000 alice@alfa.example anna@alfa.example to-anna -> accepted 0/0
alfa log 1704186000 1704186000 -> alfa,1,1704186000,accepted,pec.0000000@alfa.example,alice@alfa.example,anna@alfa.example,Ciao,completa | 1 0 0 1
alfa log 1704185999 1704186001 -> alfa,1,1704186000,accepted,pec.0000000@alfa.example,alice@alfa.example,anna@alfa.example,Ciao,completa | 1 0 0 1
alfa log 1704185999 1704185999 -> 0 0 0 0
alfa log 1704186001 1704186001 -> 0 0 0 0
alfa log 1704186001 1704186000 -> 0 0 0 0
",
    },
    Case {
        why: "each kind of entry has its row",
        script: "
alfa submit 1704186000 alice@alfa.example bob@beta.example to-bob -> accepted 0/0
alfa put 1 64 -> X-Trasporto: posta-certificata, 1 frames
beta arrive 1704186001 alfa 0 -> took 0/0
beta decide 1704186002 -> decided 0/0 bob@beta.example delivered
beta put 0 64 -> X-Ricevuta: presa-in-carico, X-Ricevuta: avvenuta-consegna, 2 frames
beta archive 1704186002 bob@beta.example 0 -> archived
beta log 1704186001 1704186002 -> beta,1,1704186001,took,pec.0000000@alfa.example,alice@alfa.example,bob@beta.example,Ciao, |beta,2,1704186002,decided,pec.0000000@alfa.example,alice@alfa.example,bob@beta.example,Ciao,delivered |beta,3,1704186002,archived,,,bob@beta.example,,0 | 0 0 0 0
alfa arrive 1704186003 beta 0 -> charged 0/0 1
alfa arrive 1704186003 beta 1 -> learned 0/0 bob@beta.example delivered
alfa tick 1704186004 -> 0 marks
alfa put 1 64 -> X-Riscontro: pec.0000000@alfa.example bob@beta.example, 1 frames
beta arrive 1704186005 alfa 0 -> acked 0/0 bob@beta.example
beta arrive 1704186006 for-carl -> anomaly 1
beta log 1704186005 1704186006 -> beta,4,1704186005,acked,pec.0000000@alfa.example,alice@alfa.example,bob@beta.example,Ciao, |beta,5,1704186006,anomaly,,,carl@beta.example,,ano.5@beta.example | 0 0 0 0
alfa log 1704186001 1704186004 -> alfa,2,1704186003,charged,pec.0000000@alfa.example,alice@alfa.example,bob@beta.example,Ciao,beta |alfa,3,1704186003,learned,pec.0000000@alfa.example,alice@alfa.example,bob@beta.example,Ciao,delivered |alfa,4,1704186004,ticked,,,,, | 0 0 0 0
alfa log 1704186000 1704186000 -> alfa,1,1704186000,accepted,pec.0000000@alfa.example,alice@alfa.example,bob@beta.example,Ciao,completa | 1 1 0 0
",
    },
    Case {
        why: "a message that wasn't accepted has its number, and what its head says",
        script: "
alfa submit 1704186000 alice@alfa.example bob@beta.example blind -> not-accepted 0/0 bcc
alfa submit 1704186000 alice@alfa.example bob@beta.example to-bob -> accepted 0/1
alfa log 1704186000 1704186000 -> alfa,1,1704186000,not-accepted,pec.0000000@alfa.example,alice@alfa.example,bob@beta.example,,bcc |alfa,2,1704186000,accepted,pec.0000001@alfa.example,alice@alfa.example,bob@beta.example,Ciao,completa | 1 0 0 1
",
    },
];

/// The table, by a function without a clause: the proof of the test is spared its texts.
fn cases() -> &'static [Case] {
    &CASES
}

#[test]
fn each_entry_of_a_range_has_its_row(rt: HostRuntime) -> Result<(), Fail> {
    let wrong = first_wrong_of(rt.alloc(), cases())?;
    assert!(rt; wrong.is_none(), "{wrong:?}");
    Ok(())
}

/// An extract reads the entries one by one: where a read fails the rows before it were written, and the provider is
/// down.
#[test]
fn a_read_that_fails_ends_the_rows(rt: HostRuntime) -> Result<(), Fail> {
    let wrong = wrong_line(rt.alloc(), &[(0, 16)], FAILING)?;
    assert!(rt; wrong.is_none(), "{wrong:?}");
    Ok(())
}

const FAILING: &str = "
alfa submit 1704186000 alice@alfa.example bob@beta.example to-bob -> accepted 0/0
alfa tick 1704186001 -> 0 marks
alfa log 1704186000 1704186001 -> disk-fault
alfa log 1704186000 1704186001 -> down
alfa reopen -> whole
";
