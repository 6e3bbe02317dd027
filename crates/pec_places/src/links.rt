ghost use Rattle.std.specs.Prelude.{◌≡◌, ◌^◌, ◌-◌, ◌<◌};
ghost use Rattle.std.specs.Option.{IfSome};

use std::marker::Model;

/// A place, or none: one more than the place, and 0 for none, which takes half the memory of an `Option`.
#[derive(Drop)]
pub(crate) struct Link {
    behind: usize,
}

impl Model for Link {
    ghost use Rattle.std.specs.Prelude.{ℕ, Option};
    ghost use Rattle.pec_places.specs.Places.{place_before};

    ghost Value = { Option ℕ };

    ghost view = { λ link. place_before link.behind };
}

impl Link {
    pub(crate) fn to(place: Option<usize>) -> Link
        requires { IfSome place (λ place. place < 2 ^ 64 - 1) }
        ensures { result ≡ place }
    {
        match place {
            Some(place) => Link { behind: place + 1 },
            None => Link { behind: 0 },
        }
    }

    pub(crate) fn place(&self) -> Option<usize>
        ensures { result ≡ self.now }
    {
        if self.behind == 0 {
            return None;
        }
        Some(self.behind - 1)
    }
}
