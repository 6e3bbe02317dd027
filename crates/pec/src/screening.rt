//! The screens that the program hands in: each of its providers refuses what has the pattern of a virus. And the
//! spares, by which scripts may replace them, of another pattern.

ghost use Rattle.std.specs.Prelude.{◌≡◌, ◌∷◌, [], IfOk, map};
ghost use Rattle.pec.specs.Screening.{handed_in, handed_in_spare, of_pattern};

use pec_screen::{Judge, PatternScreen};
use pec_types::Text8;
use std::alloc::{AllocError, Global};

/// How many providers, from the first one on, have a screen.
const LISTS: usize = 16;

/// How many spares there are.
const SPARES: usize = 4;

/// Stands for a virus in tries of the program.
const PATTERN: &[u8] = b"PEC-VIRUS-DI-PROVA";

/// Stands for another virus, which the spares find.
const OTHER_PATTERN: &[u8] = b"PEC-VIRUS-DI-PROVA-2";

/// The screens of the program's providers: each of the first sixteen has one, of one pattern, that hasn't looked yet.
pub(crate) fn screens(alloc: Global) -> Result<Vec<PatternScreen>, AllocError>
    ensures { IfOk result (λ screens. map ⟦<PatternScreen as Judge>⟧.patterns screens.items ≡ handed_in) }
{
    let mut screens = Vec::new(alloc);
    for _ in 0..LISTS {
        screens.push(screen(alloc, PATTERN)?)?;
    }
    Ok(screens)
}

/// The spares: four screens, each of one other pattern, that haven't looked yet.
pub(crate) fn spares(alloc: Global) -> Result<Vec<PatternScreen>, AllocError>
    ensures { IfOk result (λ spares. map ⟦<PatternScreen as Judge>⟧.spare_patterns spares.items ≡ handed_in_spare) }
{
    let mut spares = Vec::new(alloc);
    for _ in 0..SPARES {
        spares.push(screen(alloc, OTHER_PATTERN)?)?;
    }
    Ok(spares)
}

/// A screen of one pattern.
fn screen(alloc: Global, pattern: &[u8]) -> Result<PatternScreen, AllocError>
    ensures screen { IfOk result (λ screen.
        ⟦<PatternScreen as Judge>⟧.patterns screen ≡ of_pattern pattern.now ∷ []) }
    ensures spare { IfOk result (λ screen. ⟦<PatternScreen as Judge>⟧.spare_patterns screen ≡ of_pattern pattern.now) }
{
    let pattern = Text8::of(Vec::from_slice(alloc, pattern)?);
    Ok(PatternScreen::new(vec![in alloc; pattern]?))
}
