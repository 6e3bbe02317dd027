ghost use Rattle.std.specs.Prelude.{◌≡◌, IfOk, MatchOption, None};
ghost use Rattle.std.specs.Str.{IsAscii, IsNotAscii};
ghost use Rattle.matchit.specs.Router.{nearest};
ghost use Rattle.matchit.specs.Order.{placed};
ghost use Rattle.pec_http_head.specs.Patterns.{IsPattern, IsSpelled, entry_of, row_of};
ghost use Rattle.pec_http_head.specs.Routes.{route_of};

use matchit::{InsertError, Params, Router};
use pec_types::{NoMemory, an_address_has_its_bytes_alone, an_address_is_told_exactly};
use std::alloc::Global;
use std::marker::Model;

/// What a pattern asks.
#[derive(Clone, Copy)]
pub(crate) enum Asked {
    Submit,
    Book,
    Items,
    Item,
}

/// The parts of a target that a pattern spells.
#[derive(Clone, Copy)]
pub(crate) struct Spelled<'t> {
    pub asked: Asked,
    /// The segment of the account.
    pub account: &'t [u8],
    /// The segment of an item's place, empty where none is asked.
    pub place: &'t [u8],
}

/// The patterns of the service, each with what it asks.
#[derive(Drop)]
pub(crate) struct Patterns {
    router: Router<Asked>,
}

impl Model for Patterns {
    ghost use Rattle.std.specs.Prelude.{◌≡◌};
    ghost use Rattle.pec_http_head.specs.Patterns.{rows};

    ghost Value = { Unit {0} };

    ghost view = { λ patterns. record {} };

    ghost invariant = { λ patterns. patterns.router ≡ rows };
}

impl Patterns {
    /// The four patterns of the service.
    pub(crate) fn new(alloc: Global) -> Result<Patterns, NoMemory> {
        let mut router = Router::new(alloc);
        add(&mut router, "/mail/{address}/submit", Asked::Submit)?;
        add(&mut router, "/mail/{address}/book", Asked::Book)?;
        add(&mut router, "/mail/{address}/items", Asked::Items)?;
        add(&mut router, "/mail/{address}/items/{place}", Asked::Item)?;
        Ok(Patterns { router })
    }

    /// The parts of a target, `None` only where it has no route.
    pub(crate) fn find<'t>(&self, target: &'t [u8]) -> Option<Spelled<'t>>
        ensures { MatchOption result (route_of target.now ≡ None)
            (λ found. IsSpelled target.now found.asked found.account.now found.place.now) }
    {
        an_address_is_told_exactly();
        an_address_has_its_bytes_alone();
        let Some(path) = ascii(target) else {
            return None;
        };
        let Ok(found) = self.router.at(path) else {
            return None;
        };
        let Some(account) = found.params.get("address") else {
            return None;
        };
        let place = found.params.get("place").unwrap_or("");
        Some(Spelled {
            asked: *found.value,
            account: account.as_bytes(),
            place: place.as_bytes(),
        })
    }
}

/// Adds a pattern that no other is in the way of.
fn add(router: &mut Router<Asked>, pattern: &str, asked: Asked) -> Result<(), NoMemory>
    requires pattern { IsPattern pattern.now asked }
    requires free { nearest (entry_of asked).pattern router.old ≡ None }
    ensures { IfOk result (λ done. router.new ≡ placed (row_of asked) router.old) }
{
    let Err(error) = router.insert(pattern, asked) else {
        return Ok(());
    };
    let InsertError::OutOfMemory = error else {
        unreachable!();
    };
    Err(NoMemory)
}

/// A text of bytes below 128.
fn ascii(text: &[u8]) -> Option<&str>
    ensures { MatchOption result (IsNotAscii text.now) (λ found. (found.now ≡ text.now) × IsAscii text.now) }
{
    if !text.is_ascii() {
        return None;
    }
    match std::str::from_utf8(text) {
        Ok(found) => Some(found),
        Err(_) => unreachable!(),
    }
}
