ghost use Rattle.std.specs.Prelude.{◌≡◌, IfOk, option_map};
ghost use Rattle.pec_words.specs.Paths.{path_of, with_address};

use crate::cuts::cut;
use pec_types::{Address, NoMemory};
use std::alloc::Global;

/// The most addresses of a path. This project's profile.
pub const MOST_ADDRESSES: usize = 1_000;

/// The addresses of a path, which stand apart by one comma each; `None` where it is none. This project's profile.
#[tactic(auto, unfolding(crate::specs::Paths::path_of))]
pub fn read_path(alloc: Global, text: &[u8]) -> Result<Option<Vec<Address>>, NoMemory>
    ensures { IfOk result (λ found. option_map (λ path. path.items) found ≡ path_of text.now) }
{
    let mut path = Vec::new(alloc);
    let mut rest = Some(text);
    while let Some(left) = rest {
        let (part, behind) = cut(left, b',');
        let Some(more) = with_address(alloc, path, part)? else {
            return Ok(None);
        };
        path = more;
        rest = behind;
    }
    Ok(Some(path))
}

/// A path with one more address behind those that it has; `None` where the part is no address, and where the path has
/// 1,000 of them. This project's profile.
#[tactic(auto, unfolding(crate::specs::Paths::with_address))]
pub fn with_address(
    alloc: Global,
    path: Vec<Address>,
    part: &[u8],
) -> Result<Option<Vec<Address>>, NoMemory>
    ensures { IfOk result (λ found. option_map (λ more. more.items) found ≡ with_address path.items part.now) }
{
    let mut path = path;
    if path.len() == MOST_ADDRESSES {
        return Ok(None);
    }
    let Some(address) = Address::find(alloc, part)? else {
        return Ok(None);
    };
    path.push(address)?;
    Ok(Some(path))
}
