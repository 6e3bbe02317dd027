ghost use Rattle.std.specs.Prelude.{◌≡◌, ◌↔◌, ℕ, Bool, false, List, [], Some, None};
ghost use Rattle.pec_types.specs.Bytes.{Bytes};
ghost use Rattle.pec_types.specs.declared.messages.Decision.{Decision};
ghost use Rattle.pec_types.specs.declared.turns.Event.TheVariants as events;
ghost use Rattle.pec_records.specs.declared.entries.Entry.{Entry};
ghost use Rattle.pec_records.specs.declared.entries.Entry.TheVariants as entries;
ghost use Rattle.pec_screen.specs.Verdicts.{Patterns};
ghost use Rattle.pec_points.specs.Decision.{IsDecision};
ghost use Rattle.pec_points.specs.Reception.{IsReception};
ghost use Rattle.pec_points.specs.declared.reception.Reception.{Reception};
ghost use Rattle.pec_ledger.specs.Half.{Half};
ghost use Rattle.pec_ledger.specs.Own.{MayDecide, decision_at};
ghost use Rattle.pec_ledger.specs.Pairs.{Pair};
ghost use Rattle.pec_ledger.specs.Steps.{half};
ghost use Rattle.pec_ledger.specs.Trade.{Framed, Trade};
ghost use Rattle.pec_plays.specs.Decisions.{decide, decision_on, found_in_taken, kept_looks};
ghost use Rattle.pec_plays.specs.Reception.{accounts_with_room, arrive};
ghost use Rattle.pec_plays.specs.ReceptionRows.{AreAccounts, IsReceived};
ghost use Rattle.pec_plays.specs.Steps.{Step, passes};
ghost use Rattle.pec_plays.specs.TableSight.{arrived_at, done_by, mailbox_at};

use pec_points::{a_frame_has_one_reception, a_recipient_has_one_decision};

/// What a provider does with a frame, row by row: which row of the table it is, the entry, what is told and what is
/// owed (RFC 6109, sections 3.1 to 3.3, within this project's profile). Bytes that are no frame are dropped.
pub fn a_frame_is_received_by_its_row()
    ensures no_frame { (trade : Trade) (provider now : ℕ) (journal : List Entry) (frame : Bytes) → trade.unframed frame ≡ None
        → arrive trade provider now journal frame ≡ passes events.Dropped [] }
    ensures row { (trade : Trade) (provider now : ℕ) (journal : List Entry) (frame : Bytes) (framed : Framed) → trade.unframed frame ≡ Some framed
        → (step : Step) → (arrive trade provider now journal frame ≡ step) ↔ IsReceived trade provider journal framed now step }
    // those who get an anomaly
    ensures accounts { (trade : Trade) (provider : ℕ) (journal : List Entry) (framed : Framed)
        → AreAccounts trade provider journal framed (accounts_with_room trade provider journal framed.path) }
{}

/// What a provider does with a frame is what the table of reception answers on what is seen of it.
pub fn reception_is_the_table()
    ensures { (trade : Trade) (provider now : ℕ) (journal : List Entry) (frame : Bytes) (framed : Framed) → trade.unframed frame ≡ Some framed
        → (reception : Reception) → IsReception provider (arrived_at trade provider journal framed) reception
        → arrive trade provider now journal frame
        ≡ done_by trade provider now journal framed reception (arrived_at trade provider journal framed).letter }
{
    a_frame_has_one_reception();
}

/// What a provider decides on a pair, where some screen finds a rule in the message or none does, is what the table of
/// decisions decides on what is seen of the recipient, and may be decided so. It decides each pair by what its screens
/// find in the original that was taken.
pub fn decisions_are_the_table()
    ensures table { (trade : Trade) (provider : ℕ) (half : Half) (recipient : Bytes) (found : Bool) (decision : Decision)
        → (decision_on trade provider half recipient found ≡ decision) ↔ IsDecision (mailbox_at trade provider half recipient found) decision }
    ensures own { (trade : Trade) (provider : ℕ) (half : Half) (recipient : Bytes) (found : Bool)
        → MayDecide trade provider half recipient (decision_on trade provider half recipient found) }
    ensures unscreened { (trade : Trade) (provider : ℕ) (half : Half) (recipient : Bytes)
        → decision_on trade provider half recipient false ≡ decision_at trade provider half recipient }
    // the screens look at the original that was taken
    ensures decided { (trade : Trade) (provider now : ℕ) (screens : List Patterns) (journal : List Entry) (pair : Pair) (decision : Decision)
        → IsDecision (mailbox_at trade provider (half trade provider journal) pair.recipient (found_in_taken trade provider screens journal pair.id)) decision
        → (decide trade provider now (kept_looks trade provider screens) journal pair).entry ≡ Some (entries.Decided now pair.id pair.recipient decision) }
{
    a_recipient_has_one_decision();
}
