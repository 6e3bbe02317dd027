//! What letters that are shown hold. Each kind of item stands whole in tests/runs/shown.rows and notices.rows.

use crate::items::{holds, last_item};
use crate::running::{System, played_afresh};
use pec_trial::two;

/// A script whose last line shows an item, and whether a piece stands in the item. Lines of the piece end at `|`.
#[derive(Clone, Copy)]
struct Holding {
    why: &'static str,
    script: &'static str,
    piece: &'static str,
    is_there: bool,
}

static HOLDINGS: [Holding; 3] = [
    Holding {
        why: "an acceptance says who is certified",
        script: "submit alfa 1704186000 alice@alfa.example bob@beta.example,x@posta.example \
                 {From: alice@alfa.example|To: bob@beta.example, x@posta.example||}\nshow alice@alfa.example 0\n",
        piece: "<destinatari tipo=\"certificato\">bob@beta.example</destinatari>|\
                <destinatari tipo=\"esterno\">x@posta.example</destinatari>|",
        is_there: true,
    },
    Holding {
        why: "the receipt of a primary recipient has the message back, where all is wished",
        script: "submit alfa 1704186000 alice@alfa.example carl@beta.example,bob@beta.example \
                 {From: alice@alfa.example|To: bob@beta.example|Cc: bob@beta.example, carl@beta.example||Salve|}\n\
                 round 1704186001\nround 1704186002\nround 1704186003\nshow alice@alfa.example 1\n",
        piece: "filename=\"postacert.eml\"||From: alice@alfa.example|To: bob@beta.example|\
                Cc: bob@beta.example, carl@beta.example||Salve||--=_pec_0|",
        is_there: true,
    },
    Holding {
        why: "and it hasn't the message",
        script: "submit alfa 1704186000 alice@alfa.example carl@beta.example,bob@beta.example \
                 {From: alice@alfa.example|To: bob@beta.example|Cc: bob@beta.example, carl@beta.example||Salve|}\n\
                 round 1704186001\nround 1704186002\nround 1704186003\nshow alice@alfa.example 2\n",
        piece: "postacert.eml",
        is_there: false,
    },
];

fn holdings() -> &'static [Holding] {
    &HOLDINGS
}

#[test]
fn receipts_hold_what_was_wished(rt: HostRuntime) {
    assert_eq!(rt; first_not_held(&rt), None);
}

/// What the first piece is about that isn't held as it says.
fn first_not_held(rt: &impl System) -> Option<&'static str> {
    for holding in holdings() {
        if !is_held(rt, holding) {
            return Some(holding.why);
        }
    }
    None
}

fn is_held(rt: &impl System, holding: &Holding) -> bool {
    let shown = shown(rt, holding.script);
    holds(rt.alloc(), &shown, holding.piece, holding.is_there)
}

/// The bytes of the item that the last line of a script shows.
fn shown(rt: &impl System, script: &str) -> Vec<u8> {
    let ran = played_afresh(rt, two(), script);
    last_item(rt.alloc(), &ran.text)
}
