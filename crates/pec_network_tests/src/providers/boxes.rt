//! What a provider's screen finds in what was taken, and what is moved into archives. All answers were worked out by
//! hand.

use super::desk::{Desk, Who};
use super::home::Home;
use super::world::{Case, first_wrong_of};
use pec_trial::{Answers, first_wrong, journal_of, two};
use std::alloc::Global;
use std::test::Fail;

static SCREENS: [Case; 3] = [
    Case {
        why: "a virus that the recipient's provider finds is told to the sender's, which tells the sender",
        script: "
alfa submit 1704186000 alice@alfa.example carl@beta.example to-carl -> accepted 0/0
alfa put 1 64 -> X-Trasporto: posta-certificata, 1 frames
beta screen 1 carl@ -> no-screen
beta screen 0 carl@ -> screened
beta arrive 1704186001 alfa 0 -> took 0/0
beta looks -> 0
beta decide 1704186000 -> clock-back 1704186001
beta looks -> 0
beta decide 1704186001 -> decided 0/0 carl@beta.example virus
beta looks -> 1
beta decide 1704186001 -> none
beta looks -> 1
beta put 0 64 -> X-Ricevuta: presa-in-carico, X-Ricevuta: rilevazione-virus, 2 frames
beta mailbox carl@beta.example -> 0 items
alfa arrive 1704186002 beta 1 path=alice@alfa.example -> anomaly 1
alfa arrive 1704186002 beta 1 -> learned 0/0 carl@beta.example virus
alfa mailbox alice@alfa.example -> acceptance 0/0, anomaly, delivery-error 0/0 carl@beta.example, 3 items
alfa item alice@alfa.example 2 -> X-Ricevuta: errore-consegna
alfa put 1 64 -> X-Riscontro: pec.0000000@alfa.example carl@beta.example, 1 frames
beta end-turn -> ended
beta arrive 1704186003 alfa 0 -> acked 0/0 carl@beta.example
beta put 0 64 -> 0 frames
",
    },
    Case {
        why: "for a recipient that is no account no screen looks, and one that finds nothing looks once",
        script: "
alfa submit 1704186000 alice@alfa.example nobody@beta.example to-nobody -> accepted 0/0
alfa submit 1704186000 alice@alfa.example bob@beta.example to-bob -> accepted 0/1
alfa put 1 64 -> X-Trasporto: posta-certificata, X-Trasporto: posta-certificata, 2 frames
beta screen 0 carl@ -> screened
beta arrive 1704186001 alfa 0 -> took 0/0
beta arrive 1704186001 alfa 1 -> took 0/1
beta decide 1704186001 -> decided 0/0 nobody@beta.example no-mailbox
beta looks -> 0
beta decide 1704186001 -> decided 0/1 bob@beta.example delivered
beta looks -> 1
",
    },
    Case {
        why: "a screen may be changed between two decisions",
        script: "
alfa submit 1704186000 alice@alfa.example bob@beta.example,carl@beta.example to-both -> accepted 0/0
alfa put 1 64 -> X-Trasporto: posta-certificata, 1 frames
beta arrive 1704186001 alfa 0 -> took 0/0
beta screen 0 Salve -> screened
beta decide 1704186001 -> decided 0/0 bob@beta.example virus
beta looks -> 1
beta screen 0 zzz -> screened
beta looks -> 0
beta decide 1704186001 -> decided 0/0 carl@beta.example delivered
beta looks -> 1
",
    },
];

static ARCHIVES: [Case; 2] = [
    Case {
        why: "an item that is archived makes room, and stands last in the archive",
        script: "
alfa submit 1704186000 alice@alfa.example carl@beta.example to-carl -> accepted 0/0
alfa submit 1704186000 alice@alfa.example carl@beta.example to-carl -> accepted 0/1
alfa put 1 64 -> X-Trasporto: posta-certificata, X-Trasporto: posta-certificata, 2 frames
beta arrive 1704186001 alfa 0 -> took 0/0
beta decide 1704186001 -> decided 0/0 carl@beta.example delivered
beta archive 1704186002 carl@beta.example 0 -> archived
beta mailbox carl@beta.example -> 0 items
beta vault carl@beta.example -> envelope 0/0, 1 items
beta vault-item carl@beta.example 0 -> X-Trasporto: posta-certificata
beta vault-item carl@beta.example 1 -> no-item
beta item carl@beta.example 0 -> no-item
beta arrive 1704186002 alfa 1 -> took 0/1
beta decide 1704186002 -> decided 0/1 carl@beta.example delivered
beta mailbox carl@beta.example -> envelope 0/1, 1 items
beta archive 1704186002 carl@beta.example 0 -> archived
beta vault carl@beta.example -> envelope 0/0, envelope 0/1, 2 items
",
    },
    Case {
        why: "of the causes why nothing is archived, or raised, the first is told",
        script: "
alfa archive 1704186000 zoe@alfa.example 0 -> no-account
alfa archive 1704186000 bob@beta.example 0 -> no-account
alfa archive 1704186000 alice@alfa.example 0 -> no-item
alfa submit 1704186000 alice@alfa.example anna@alfa.example to-anna -> accepted 0/0
alfa archive 1704185999 alice@alfa.example 1 -> clock-back 1704186000
alfa archive 1704186000 alice@alfa.example 1 -> no-item
alfa archive 1704186000 alice@alfa.example 0 -> archived
alfa archive 1704186000 alice@alfa.example 0 -> no-item
alfa vault alice@alfa.example -> acceptance 0/0, 1 items
alfa vault-item alice@alfa.example 0 -> X-Ricevuta: accettazione
alfa vault bob@beta.example -> no-account
alfa vault-item bob@beta.example 0 -> no-account
alfa upgrade 1704185999 -> clock-back 1704186000
alfa upgrade 1704186000 -> no-need
",
    },
];

/// The tables, by functions without a clause: the proof of the test is spared their texts.
fn screens() -> &'static [Case] {
    &SCREENS
}

fn archives() -> &'static [Case] {
    &ARCHIVES
}

#[test]
fn screens_look_at_what_was_taken(rt: HostRuntime) -> Result<(), Fail> {
    let wrong = first_wrong_of(rt.alloc(), screens())?;
    assert!(rt; wrong.is_none(), "{wrong:?}");
    Ok(())
}

#[test]
fn items_are_moved_into_archives(rt: HostRuntime) -> Result<(), Fail> {
    let wrong = first_wrong_of(rt.alloc(), archives())?;
    assert!(rt; wrong.is_none(), "{wrong:?}");
    Ok(())
}

/// A provider whose journal is of version 1.
#[derive(Drop)]
struct Old {
    desk: Option<Desk>,
}

impl Answers for Old {
    fn answer(&mut self, call: &str) -> Result<Vec<u8>, Fail> {
        match &mut self.desk {
            Some(desk) => desk.answer(call, b""),
            None => Err("not opened".into()),
        }
    }
}

fn raised_of(alloc: Global) -> Result<Old, Fail> {
    let disk = journal_of(alloc, "start 0\naccepted 5 alice@alfa.example to-bob")?;
    let desk = match Home::of(alloc, two()) {
        Some(home) => Desk::opened(alloc, home, Who::Alfa, disk).ok(),
        None => None,
    };
    Ok(Old { desk })
}

const RAISED: &str = "
alfa archive 5 alice@alfa.example 1 -> no-item
alfa archive 5 alice@alfa.example 0 -> old-journal
alfa upgrade 4 -> clock-back 5
alfa upgrade 5 -> upgraded
alfa upgrade 5 -> no-need
alfa archive 5 alice@alfa.example 0 -> archived
alfa mailbox alice@alfa.example -> 0 items
alfa vault alice@alfa.example -> acceptance 0/0, 1 items
";

/// A journal of version 1 has no archives until it is raised.
#[test]
fn a_journal_of_version_1_is_raised(rt: HostRuntime) -> Result<(), Fail> {
    let mut old = raised_of(rt.alloc())?;
    let wrong = first_wrong(rt.alloc(), &mut old, RAISED)?;
    assert!(rt; wrong.is_none(), "{wrong:?}");
    Ok(())
}
