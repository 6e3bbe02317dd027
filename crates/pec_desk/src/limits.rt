ghost use Rattle.std.specs.Prelude.{◌≡◌, ◌<◌, ◌≤◌, length, slice_get};
ghost use Rattle.pec_directory.specs.Directory.{first_domain, providers_of};
ghost use Rattle.pec_service.specs.Passes.{limit_in};

use pec_directory::{Directory, a_first_domain_is_one_providers};

/// The most bytes of a message that the provider of a number takes; 0 where there is no such provider. It takes no
/// memory.
pub(crate) fn limit_at(directory: &Directory, number: u32) -> u64
    ensures value { result ≡ limit_in (slice_get directory.now number) }
    ensures bound { result ≤ 31457280 }
{
    // A directory is lawful, and a proof learns so here.
    directory.count();
    match directory.provider(number) {
        Some(provider) => provider.limit(),
        None => 0,
    }
}

/// The first domain of the provider of a number. It takes no memory.
pub(crate) fn own_domain(directory: &Directory, number: u32) -> &[u8]
    requires { number < length directory.now }
    ensures value { result.now ≡ first_domain (providers_of directory.now) number }
    ensures short { length result.now ≤ 236 }
{
    a_first_domain_is_one_providers();
    // A directory is lawful, and a proof learns so here.
    directory.count();
    directory.first_domain(number)
}
