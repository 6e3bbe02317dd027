ghost use Rattle.std.specs.Prelude.{◌≡◌, IfOk, option_map};
ghost use Rattle.pec_http_head.specs.Paths.{addresses_in};

use pec_heads::trim;
use pec_types::{Address, NoMemory};
use pec_words::{cut, with_address};
use std::alloc::Global;

/// The addresses of a path, with blanks round them; `None` where the text is none.
#[tactic(auto, unfolding(crate::specs::Paths::addresses_in))]
pub(crate) fn addresses_in(alloc: Global, text: &[u8]) -> Result<Option<Vec<Address>>, NoMemory>
    ensures { IfOk result (λ found. option_map (λ path. path.items) found ≡ addresses_in text.now) }
{
    let mut path = Vec::new(alloc);
    let mut rest = Some(text);
    while let Some(left) = rest {
        let (part, behind) = cut(left, b',');
        let Some(more) = with_address(alloc, path, trim(part))? else {
            return Ok(None);
        };
        path = more;
        rest = behind;
    }
    Ok(Some(path))
}
