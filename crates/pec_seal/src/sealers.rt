ghost use Rattle.std.specs.Prelude.{◌≡◌, ◌↔◌, IsTrue, Option};
ghost use Rattle.std.specs.Option.{option_copied};
ghost use Rattle.pec_seal.specs.Seals.{Seals, AreLawful};

/// Who seals: providers with names, numbers from 0, and tags for all bytes. None of the calls takes memory.
pub trait Sealer {
    /// The names, numbers and tags.
    ghost seals: { Self → Seals };

    /// The number of the provider of this name.
    fn number(&self, name: &[u8]) -> Option<u32>
        ensures { result ≡ (seals self.now).number_of name.now };

    /// The name of the provider of this number, in bytes from 0x20 to 0x7e.
    fn name(&self, provider: u32) -> Option<&[u8]>
        ensures { option_copied result ≡ (seals self.now).name_of provider };

    /// The tag of these bytes under the provider's key.
    fn tag(&self, provider: u32, bytes: &[u8]) -> [u8; 32]
        ensures { result ≡ (seals self.now).tag_of provider bytes.now };

    /// Whether this is the tag that `tag` gives.
    fn agrees(&self, provider: u32, bytes: &[u8], tag: &[u8; 32]) -> bool
        ensures { IsTrue result ↔ (tag.now ≡ (seals self.now).tag_of provider bytes.now) };

    /// Names and numbers are each other's, names are printable, and tags have 32 bytes.
    ghost lawful: { (sealer : Self) → AreLawful (seals sealer) };
}
