ghost use Rattle.std.specs.Prelude.{◌≡◌, ◌≢◌, ℕ, List, ◌++◌, map, Some, Err};
ghost use Rattle.pec_types.specs.Bytes.{Bytes, Path};
ghost use Rattle.pec_types.specs.declared.turns.ProviderFault.TheVariants as faults;
ghost use Rattle.pec_outside.specs.Doors.{Reply};
ghost use Rattle.pec_directory.specs.Directory.{Kept};
ghost use Rattle.pec_ledger.specs.Trade.{Trade};
ghost use Rattle.pec_http.specs.declared.demands.Look.TheVariants as looks;
ghost use Rattle.pec_service.specs.Connections.{Connection, HandsIn, IsConnection, Place, Sees, heard_from, item_from};
ghost use Rattle.pec_service.specs.Isolation.{answering_of};
ghost use Rattle.pec_service.specs.Services.{AreConnections, place_behind};

use pec_outside::Depot;

/// The replies grow by one for each connection, in order.
pub fn a_connection_has_one_reply<P: Depot>()
    ensures { (trade : Trade) (kept : List Kept) (here : Place) (connections : List Connection)
        (replies : List Reply) → AreConnections trade (P.tells × P.D.tells) kept here connections
        → here.replies ≡ Some replies
        → (place_behind here connections).replies
        ≡ Some (replies ++ map (λ (connection : Connection). connection.reply) connections) }
{}

/// What a provider said to a message that was handed in isn't want of memory, and neither is what it said to a look at
/// an item: 500 is answered only where nothing was stored or shown.
pub fn what_was_stored_is_not_answered_500<P: Depot>()
    ensures submissions { (trade : Trade) (kept : List Kept) (here : Place) (connection : Connection)
        (number : ℕ) (address : Bytes) (path : Path) (message : Bytes)
        → IsConnection trade (P.tells × P.D.tells) kept here connection
        → answering_of connection.hearing ≡ Some (HandsIn number address path message)
        → heard_from trade kept here.network.sites connection.handed ≢ Err faults.NoMemory }
    ensures looks { (trade : Trade) (kept : List Kept) (here : Place) (connection : Connection)
        (address : Bytes) (place : ℕ) → IsConnection trade (P.tells × P.D.tells) kept here connection
        → answering_of connection.hearing ≡ Some (Sees address (looks.Item place))
        → item_from trade kept here.network.sites connection.handed ≢ Err faults.NoMemory }
{}
