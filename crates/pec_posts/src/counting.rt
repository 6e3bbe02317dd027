ghost use Rattle.std.specs.Prelude.{◌≡◌, ◌<◌, ◌≤◌, length, map, IfOk, OnOk};
ghost use Rattle.std.specs.List.{All};
ghost use Rattle.pec_posts.specs.Arrivals.{Waiting, room_on, waiting_from};
ghost use Rattle.pec_plays.specs.Rounds.{link_size};

use crate::arrivals::Arrivals;
use pec_types::NoMemory;
use std::alloc::Global;

/// How many more frames the links from a provider hold, by the provider for which they wait.
pub fn rooms(alloc: Global, arrivals: &[Arrivals], from: u32) -> Result<Vec<usize>, NoMemory>
    requires { All (λ (links : Waiting). from < length links) arrivals.now }
    ensures rooms { IfOk result (λ rooms. rooms.items ≡ map (room_on from) arrivals.now) }
    // No link holds more than it may.
    ensures short { OnOk result (All (λ (links : Waiting). length (waiting_from links from) ≤ link_size) arrivals.now) }
{
    let mut rooms = Vec::new(alloc);
    for links in arrivals {
        rooms.push(links.room(from))?;
    }
    Ok(rooms)
}
