ghost use Rattle.std.specs.Prelude.{◌≡◌, List};
ghost use Rattle.pec_directory.specs.Directory.{Kept, providers_of};
ghost use Rattle.pec_directory.specs.Zones.{AreByRule};
ghost use Rattle.pec_ledger.specs.OfDirectory.{IsOf};
ghost use Rattle.pec_ledger.specs.TradeLaws.{IsTrade};
ghost use Rattle.pec_seal.specs.Seals.{Seals};
ghost use Rattle.pec_trade.specs.Houses.{world_at};
ghost use Rattle.pec_trade.specs.TradeOf.{trade_of};

use crate::houses::House;
use crate::laws::{a_trade_says_what_its_parts_say, the_texts_are_a_trade};
use pec_cert::a_rule_has_one_clock;
use pec_seal::Sealer;

/// The law of worlds: a directory and those who seal for its providers have one, however its zones are kept. Each zone
/// is by its provider's rule, and the text of a rule alone says what its clock shows; so letters and items have the
/// same texts at the same moments.
pub fn a_directory_has_one_world()
    ensures { (kept others : List Kept) (seals : Seals) → AreByRule kept → AreByRule others
        → providers_of kept ≡ providers_of others → trade_of kept seals ≡ trade_of others seals }
{
    a_rule_has_one_clock();
}

/// The world of a house is one of its directory, and meets all that the ledger asks of a trade. It takes no memory.
pub fn a_house_is_a_trade<S: Sealer>(house: &House<'_, S>)
    ensures of { IsOf house.now.directory.now (world_at house.now) }
    ensures trade { IsTrade (world_at house.now) }
{
    // A directory is lawful, and a proof learns so here.
    house.directory.count();
    a_trade_says_what_its_parts_say();
    the_texts_are_a_trade::<S>();
}
