ghost use Rattle.std.specs.Prelude.{◌≡◌, length, map, drop, slice_get, IfOk};
ghost use Rattle.pec_network.specs.Judging.{lists_of};
ghost use Rattle.pec_network.specs.Network.{of_first};

use pec_screen::{Judge, Perhaps};
use pec_types::NoMemory;
use std::alloc::Global;

/// The screens of so many providers, one after another: those of a list, from the first on, and none where there are no
/// more. Further ones are dropped.
pub(crate) fn one_each<J: Judge>(
    alloc: Global,
    mut judges: Vec<J>,
    count: u32,
) -> Result<Vec<Perhaps<J>>, NoMemory>
    ensures patterns { IfOk result (λ each.
        lists_of J.patterns each.items ≡ of_first count (map J.patterns judges.items)) }
    ensures seen { IfOk result (λ each. lists_of J.seen each.items ≡ of_first count (map J.seen judges.items)) }
    ensures count { IfOk result (λ each. length each.items ≡ count) }
{
    let mut each = Vec::with_capacity(alloc, count as usize)?;
    for _ in 0..count {
        let judge = first(&mut judges);
        each.push_reserved(Perhaps::of(judge));
    }
    Ok(each)
}

/// Takes the first element of a list, if it has one. It takes no memory.
fn first<T>(list: &mut Vec<T>) -> Option<T>
    ensures first { result ≡ slice_get list.old.items 0 }
    ensures rest { list.new.items ≡ drop 1 list.old.items }
{
    if list.is_empty() {
        return None;
    }
    Some(list.remove(0))
}
