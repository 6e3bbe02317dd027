ghost use Rattle.std.specs.Prelude.{◌≡◌};
ghost use Rattle.pec_directory.specs.Directory.{providers_of};
ghost use Rattle.pec_letters.specs.Fitting.{Fits};

use pec_directory::Directory;
use pec_seal::Sealer;

/// Where a provider is at home: the directory, who seals for its providers, and the provider's number in it, from 0. In
/// all calls of one provider these three are the same.
#[derive(Drop)]
pub struct House<'a, S: Sealer> {
    pub directory: &'a Directory,
    pub sealer: &'a S,
    pub me: u32,
    /// The sealer seals for the providers of this directory, and for no others.
    pub ghost fits: { Fits (S.seals sealer.now) (providers_of directory.now) },
}

impl<'a, S: Sealer> House<'a, S> {
    /// The house of the provider of a number. It takes no memory.
    pub fn new(directory: &'a Directory, sealer: &'a S, me: u32) -> House<'a, S>
        requires { Fits (S.seals sealer.now) (providers_of directory.now) }
        ensures directory { result.directory.now ≡ directory.now }
        ensures sealer { result.sealer.now ≡ sealer.now }
        ensures me { result.me ≡ me }
    {
        House {
            directory,
            sealer,
            me,
        }
    }
}
