ghost use Rattle.std.specs.Prelude.{◌≡◌, [], ◌∷◌, length, Some, None};
ghost use Rattle.pec_types.specs.declared.letters.Letter.TheVariants as letters;
ghost use Rattle.pec_types.specs.declared.mailboxes.ItemKind.TheVariants as item_kinds;
ghost use Rattle.pec_types.specs.declared.messages.Class.TheVariants as classes;
ghost use Rattle.pec_types.specs.declared.messages.Decision.TheVariants as decisions;
ghost use Rattle.pec_types.specs.declared.messages.Refusal.TheVariants as refusals;
ghost use Rattle.pec_types.specs.declared.receipts.Kind.TheVariants as kinds;
ghost use Rattle.pec_types.specs.declared.turns.Event.TheVariants as events;
ghost use Rattle.pec_types.specs.declared.turns.ProviderFault.TheVariants as faults;
ghost use Rattle.pec_types.specs.declared.turns.Submitted.TheVariants as submissions;
ghost use Rattle.pec_ledger.specs.Examples.{anna, bob, first, open_line, receipt_line, receipt_line_on};
ghost use Rattle.pec_ledger.specs.Due.{owed_letters};
ghost use Rattle.pec_ledger.specs.Network.{at_start, frames_between, Sound};
ghost use Rattle.pec_ledger.specs.SmallWorld.{small};
ghost use Rattle.pec_plays.specs.Commands.{Archived, Injected, IsUp, Items, Lines, NoFrame, NoScreen, NoSpare, Refuses, Restarted, Screened, Submits, Swapped, Turns, Vaults};
ghost use Rattle.pec_plays.specs.Examples.{alfa_behind, alfa_turn, answers_of, answers_where, beta_looks, calm, calmly, failing, finding, from_outside, halfway, idle, left_by, looking_fails, no_screens, no_such_place, out_of_order, put_away, to_the_end, turn_of, unread, unwelcome, with_a_fault, with_a_look};
ghost use Rattle.pec_plays.specs.Scripts.{AllUnforged};

use crate::soundness::a_network_stays_sound;
use pec_ledger::{a_world_is_there, soundness};

/// The worked scripts, computed. A message goes from submission to delivery, and its letters are repeated until each is
/// answered; letters that change places do no harm; an append that fails is the end of a turn, and a restart goes on
/// from what the disk has.
pub fn answers_of_the_examples()
    ensures to_the_end { answers_of (calmly to_the_end) to_the_end
        ≡ Submits (submissions.Accepted first)
        ∷ alfa_turn [] ((0, 1) ∷ [])
        ∷ alfa_turn (events.Took first ∷ events.Decided first anna decisions.Placed ∷ []) ((0, 3) ∷ [])
        ∷ alfa_turn
        (events.Charged first 0 ∷ events.Learned first anna decisions.Placed ∷ events.Repeat (letters.Envelope first 0) ∷ [])
        ((0, 3) ∷ [])
        ∷ alfa_turn
        (events.Acked first anna ∷ events.Repeat (letters.Charge first 0) ∷ events.Repeat (letters.Outcome first anna) ∷ [])
        ((0, 1) ∷ [])
        ∷ alfa_turn (events.Repeat (letters.Ack first anna) ∷ []) []
        ∷ Lines (record (open_line anna classes.Primary) {
          charged = Some 1704186003;
          outcome = Some (decisions.Placed, 1704186002);
        } ∷ [])
        ∷ Items (receipt_line kinds.Acceptance ∷ receipt_line_on kinds.Delivery anna ∷ [])
        ∷ Items (record { kind = item_kinds.Envelope; id = Some first; recipient = None } ∷ [])
        ∷ [] }
    // The outcome comes before the charge.
    ensures out_of_order { answers_of (calmly out_of_order) out_of_order
        ≡ Submits (submissions.Accepted first)
        ∷ Turns (turn_of 0 [] ((1, 1) ∷ []) None ∷ idle 1 ∷ [])
        ∷ Turns
        (turn_of 0 [] ((1, 1) ∷ []) None
        ∷ turn_of 1 (events.Took first ∷ events.Decided first bob decisions.Placed ∷ []) ((0, 2) ∷ []) None
        ∷ [])
        ∷ Swapped
        ∷ Turns
        (turn_of 0 (events.Learned first bob decisions.Placed ∷ events.Charged first 1 ∷ []) ((1, 1) ∷ []) None
        ∷ turn_of 1 (events.Repeat (letters.Envelope first 1) ∷ []) ((0, 2) ∷ []) None
        ∷ [])
        ∷ Turns
        (turn_of 0 (events.Repeat (letters.Charge first 1) ∷ events.Repeat (letters.Outcome first bob) ∷ []) ((1, 1) ∷ []) None
        ∷ turn_of 1 (events.Acked first bob ∷ []) [] None
        ∷ [])
        ∷ [] }
    // No frame waits at the place.
    ensures no_such_place { answers_of (calmly no_such_place) no_such_place
        ≡ Submits (submissions.Accepted first)
        ∷ Turns (turn_of 0 [] ((1, 1) ∷ []) None ∷ idle 1 ∷ [])
        ∷ Turns
        (turn_of 0 [] ((1, 1) ∷ []) None
        ∷ turn_of 1 (events.Took first ∷ events.Decided first bob decisions.Placed ∷ []) ((0, 2) ∷ []) None
        ∷ [])
        ∷ NoFrame
        ∷ [] }
    // What no provider sealed is an anomaly, what is no frame is dropped.
    ensures from_outside { answers_of (calmly from_outside) from_outside
        ≡ Injected
        ∷ Injected
        ∷ Turns (idle 0 ∷ turn_of 1 (events.Anomaly 1 ∷ events.Dropped ∷ []) [] None ∷ [])
        ∷ Items (record { kind = item_kinds.Anomaly; id = None; recipient = None } ∷ [])
        ∷ [] }
    // The decision's append fails: nothing is put, alfa is down, and the restart forgets the entry ..
    ensures fault_forgotten { answers_of (calm ∷ calm ∷ failing 1 ∷ calm ∷ calm ∷ calm ∷ []) with_a_fault
        ≡ Submits (submissions.Accepted first)
        ∷ alfa_turn [] ((0, 1) ∷ [])
        ∷ Turns (turn_of 0 (events.Took first ∷ []) [] (Some faults.DiskFault) ∷ idle 1 ∷ [])
        ∷ Refuses faults.Down
        ∷ Restarted 3
        ∷ IsUp
        ∷ [] }
    // .. or finds it.
    ensures fault_found { answers_of (calm ∷ calm ∷ failing 1 ∷ calm ∷ finding ∷ calm ∷ []) with_a_fault
        ≡ Submits (submissions.Accepted first)
        ∷ alfa_turn [] ((0, 1) ∷ [])
        ∷ Turns (turn_of 0 (events.Took first ∷ []) [] (Some faults.DiskFault) ∷ idle 1 ∷ [])
        ∷ Refuses faults.Down
        ∷ Restarted 4
        ∷ IsUp
        ∷ [] }
    // A read for the due letters fails: all is received and decided, nothing is put, and no entry is interrupted.
    ensures read_failed { answers_of (calm ∷ calm ∷ failing 2 ∷ calm ∷ finding ∷ calm ∷ []) with_a_fault
        ≡ Submits (submissions.Accepted first)
        ∷ alfa_turn [] ((0, 1) ∷ [])
        ∷ Turns (turn_of 0 (events.Took first ∷ events.Decided first anna decisions.Placed ∷ []) [] (Some faults.DiskFault) ∷ idle 1 ∷ [])
        ∷ Refuses faults.Down
        ∷ Restarted 4
        ∷ IsUp
        ∷ [] }
    // The read of an item fails: the provider is down, and no entry is interrupted.
    ensures look_failed { answers_of (calm ∷ calm ∷ calm ∷ unread ∷ calm ∷ finding ∷ []) with_a_look
        ≡ Submits (submissions.Accepted first)
        ∷ alfa_turn [] ((0, 1) ∷ [])
        ∷ alfa_turn (events.Took first ∷ events.Decided first anna decisions.Placed ∷ []) ((0, 3) ∷ [])
        ∷ Refuses faults.DiskFault
        ∷ Refuses faults.Down
        ∷ Restarted 4
        ∷ [] }
    // The read of the envelope fails before the decision: it is told as a failed append, but a restart finds no entry.
    ensures unread_decision { answers_of (calm ∷ calm ∷ looking_fails 1 ∷ calm ∷ finding ∷ calm ∷ []) with_a_fault
        ≡ Submits (submissions.Accepted first)
        ∷ alfa_turn [] ((0, 1) ∷ [])
        ∷ Turns (turn_of 0 (events.Took first ∷ []) [] (Some faults.DiskFault) ∷ idle 1 ∷ [])
        ∷ Refuses faults.Down
        ∷ Restarted 3
        ∷ IsUp
        ∷ [] }
    // A virus at the incoming point: the sender gets its own provider's delivery error. Then another screen is put
    // there.
    ensures unwelcome { answers_where beta_looks unwelcome
        ≡ Submits (submissions.Accepted first)
        ∷ Turns (turn_of 0 [] ((1, 1) ∷ []) None ∷ idle 1 ∷ [])
        ∷ Turns
        (turn_of 0 [] ((1, 1) ∷ []) None
        ∷ turn_of 1 (events.Took first ∷ events.Decided first bob (decisions.Refused refusals.Virus) ∷ []) ((0, 2) ∷ []) None
        ∷ [])
        ∷ Turns
        (turn_of 0 (events.Charged first 1 ∷ events.Learned first bob (decisions.Refused refusals.Virus) ∷ []) ((1, 1) ∷ []) None
        ∷ turn_of 1 (events.Repeat (letters.Envelope first 1) ∷ []) ((0, 2) ∷ []) None
        ∷ [])
        ∷ Items (receipt_line kinds.Acceptance ∷ receipt_line_on (kinds.DeliveryError refusals.Virus) bob ∷ [])
        ∷ Items []
        ∷ NoScreen
        ∷ Screened
        ∷ NoSpare
        ∷ [] }
    // An item is archived, and is gone from the mailbox.
    ensures put_away { answers_of (calmly put_away) put_away
        ≡ Submits (submissions.Accepted first)
        ∷ alfa_turn [] ((0, 1) ∷ [])
        ∷ alfa_turn (events.Took first ∷ events.Decided first anna decisions.Placed ∷ []) ((0, 3) ∷ [])
        ∷ Archived
        ∷ Items []
        ∷ Vaults (record { kind = item_kinds.Envelope; id = Some first; recipient = None } ∷ [])
        ∷ Refuses faults.NoItem
        ∷ Refuses faults.NoNeed
        ∷ [] }
{}

/// There is a run that meets all premises of the laws of runs, and has rows of every kind: its commands may come, its
/// state is Sound to the end, and halfway frames wait and letters are owed.
pub fn a_run_is_there()
    ensures unforged { AllUnforged small (calmly to_the_end) (at_start small no_screens) to_the_end }
    ensures sound { Sound small (left_by to_the_end) }
    ensures rows { length (alfa_behind to_the_end).messages ∷ length (alfa_behind to_the_end).charged ∷ length (alfa_behind to_the_end).known
        ∷ length (alfa_behind to_the_end).taken ∷ length (alfa_behind to_the_end).decided ∷ length (alfa_behind to_the_end).acked ∷ []
        ≡ 1 ∷ 1 ∷ 1 ∷ 1 ∷ 1 ∷ 1 ∷ [] }
    ensures waiting { length (frames_between (left_by halfway) 0 0) ≡ 3 }
    ensures owed { owed_letters small 0 (alfa_behind halfway) 0 [] ≡ letters.Outcome first anna ∷ letters.Envelope first 0 ∷ [] }
{
    a_network_stays_sound();
    a_world_is_there();
    soundness();
}
