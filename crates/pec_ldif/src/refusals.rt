ghost use Rattle.std.specs.Prelude.{◌≡◌};
ghost use Rattle.pec_ldif.specs.Directories.{refused_as, refused_by};
ghost use Rattle.pec_ldif.specs.declared.refusals.LdifRefused.TheVariants as refusals;

use crate::faults::LdifFault;
use pec_directory::DirectoryFault;
use pec_types::NoMemory;

/// Why a text of LDIF is no directory. This project's profile.
#[derive(Clone, Copy, Debug, PartialEq, Eq)]
pub enum LdifRefused {
    /// It isn't LDIF.
    Ldif(LdifFault),
    /// The table of its records isn't a directory's.
    Directory(DirectoryFault),
    NoMemory,
}

impl From<LdifFault> for LdifRefused {
    ghost from_gives = { λ fault refused. refused ≡ refused_as fault };

    fn from(fault: LdifFault) -> Self {
        match fault {
            LdifFault::NoMemory => LdifRefused::NoMemory,
            other => LdifRefused::Ldif(other),
        }
    }
}

impl From<DirectoryFault> for LdifRefused {
    ghost from_gives = { λ fault refused. refused ≡ refused_by fault };

    fn from(fault: DirectoryFault) -> Self {
        match fault {
            DirectoryFault::NoMemory => LdifRefused::NoMemory,
            other => LdifRefused::Directory(other),
        }
    }
}

impl From<NoMemory> for LdifRefused {
    ghost from_gives = { λ _ refused. refused ≡ refusals.NoMemory };

    fn from(_: NoMemory) -> Self {
        LdifRefused::NoMemory
    }
}
