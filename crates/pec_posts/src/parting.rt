ghost use Rattle.std.specs.Prelude.{◌≡◌, ℕ, ◌<◌, [], length, map, IfOk, vec_capacity};
ghost use Rattle.std.specs.List.{All};
ghost use Rattle.pec_link.specs.Ends.{ArePair, AreSettled};
ghost use Rattle.pec_posts.specs.Arrivals.{waiting_for};
ghost use Rattle.pec_posts.specs.Parting.{AreJoined, AreRows, HasRoom, ends_in};
ghost use Rattle.pec_rows.specs.Rows.{waits};

use crate::arrivals::Arrivals;
use pec_link::{Link, Putter, Taker};
use pec_rows::{Putters, Takers};
use pec_types::NoMemory;
use std::alloc::Global;

/// So many empty lists, each with room for as many elements.
pub fn trays<T: Drop>(alloc: Global, count: u32) -> Result<Vec<Vec<T>>, NoMemory>
    ensures count { IfOk result (λ trays. length trays.items ≡ count) }
    ensures room { IfOk result (λ trays. All (HasRoom count) trays.items) }
{
    let mut trays = Vec::new(alloc);
    for _ in 0..count {
        let tray = Vec::with_capacity(alloc, count as usize)?;
        trays.push(tray)?;
    }
    Ok(trays)
}

/// Takes the links of all providers apart: the ends that put go into the rows of the providers that put, the ends that
/// take into lists of their own, one for each provider that takes. The ends of each know all of each other. It takes no
/// memory.
pub fn part(
    arrivals: &mut Vec<Arrivals>,
    rows: &mut [Vec<Putter>],
    trays: Vec<Vec<Taker>>,
    takers: &mut Vec<Takers>,
)
    requires square { (to : ℕ) → to < length arrivals.old.items
        → length (waiting_for arrivals.old.items to) ≡ length arrivals.old.items }
    requires senders { length rows.old ≡ length arrivals.old.items }
    requires rows { All (HasRoom (length arrivals.old.items)) rows.old }
    requires count { length trays.items ≡ length arrivals.old.items }
    requires trays { All (HasRoom (length arrivals.old.items)) trays.items }
    requires takers { HasRoom (length arrivals.old.items) takers.old }
    ensures ends { AreRows AreSettled (length arrivals.old.items) (ends_in rows.new) takers.new.items }
    ensures waiting { map waits takers.new.items ≡ arrivals.old.items }
    // The list of the links is empty, and has as much room as before.
    ensures none { arrivals.new.items ≡ [] }
    ensures room { vec_capacity arrivals.new ≡ vec_capacity arrivals.old }
{
    for tray in trays {
        let links = arrivals.remove(0);
        takers.push_reserved(links.part(rows, tray));
    }
}

/// Puts the links of all providers together, of ends in rows. On each waits what was put there and isn't taken. The
/// rows are emptied. It takes no memory.
pub fn join(
    rows: &mut [Putters],
    takers: Vec<Takers>,
    trays: Vec<Vec<Link>>,
    arrivals: &mut Vec<Arrivals>,
)
    requires ends { AreRows ArePair (length rows.old) rows.old takers.items }
    requires count { length trays.items ≡ length rows.old }
    requires trays { All (HasRoom (length rows.old)) trays.items }
    requires arrivals { HasRoom (length rows.old) arrivals.old }
    ensures { AreJoined (length rows.old) rows.old takers.items arrivals.new.items }
{
    let mut takers = takers;
    for tray in trays {
        let row = takers.remove(0);
        arrivals.push_reserved(Arrivals::join(rows, row, tray));
    }
}
