ghost use Rattle.std.specs.Prelude.{◌≡◌, ℕ, List, [], ◌∷◌, ◌++◌, Some, None};
ghost use Rattle.pec_types.specs.declared.limits.Due.TheVariants as dues;
ghost use Rattle.pec_types.specs.declared.mailboxes.ItemKind.TheVariants as item_kinds;
ghost use Rattle.pec_types.specs.declared.messages.Class.TheVariants as classes;
ghost use Rattle.pec_types.specs.declared.messages.Decision.TheVariants as decisions;
ghost use Rattle.pec_types.specs.declared.messages.Refusal.{Refusal as SomeRefusal};
ghost use Rattle.pec_types.specs.declared.messages.Refusal.TheVariants as refusals;
ghost use Rattle.pec_types.specs.declared.receipts.Kind.TheVariants as kinds;
ghost use Rattle.pec_records.specs.declared.entries.Entry.TheVariants as entries;
ghost use Rattle.pec_ledger.specs.Books.{archive_lines, book, mailbox_lines};
ghost use Rattle.pec_ledger.specs.Examples.{accepting, alice, anna, bob, carl, carl_wrote, first, mark_on_anna, nobody, noticed_and_delivered, one_archived, one_placed, open_line, receipt_line, receipt_line_on, receipt_on, to_nobody, to_one, to_two, two_placed, virus_decided, virus_learned};
ghost use Rattle.pec_ledger.specs.Network.{FollowsState, journal_at, Site};
ghost use Rattle.pec_ledger.specs.Own.{decision_at};
ghost use Rattle.pec_ledger.specs.SmallWorld.{small};
ghost use Rattle.pec_ledger.specs.Steps.{half, marks_by};
ghost use Rattle.pec_ledger.specs.Trade.{Trade};
ghost use Rattle.pec_ledger.specs.TradeLaws.{CanBeComposed, IsSent, IsTrade};

/// There is a world that meets all laws, so nothing that is said of worlds is said of none.
pub fn a_world_is_there()
    ensures { IsTrade small }
{}

/// What the laws ask for can be had, so that none is said of nothing: a message that was accepted, a receipt of each
/// kind that is composed of one (a notice of non-acceptance is composed of none), and a journal that follows a state.
pub fn the_premises_are_met()
    ensures sent { IsSent small first (to_one anna) }
    ensures acceptance { CanBeComposed small (receipt_on kinds.Acceptance None) (to_one anna) }
    ensures charge { CanBeComposed small (receipt_on kinds.Charge None) (to_one anna) }
    ensures delivery { CanBeComposed small (receipt_on kinds.Delivery (Some anna)) (to_one anna) }
    ensures error { (refusal : SomeRefusal) → CanBeComposed small (receipt_on (kinds.DeliveryError refusal) (Some anna)) (to_one anna) }
    ensures virus_found { CanBeComposed small (receipt_on kinds.VirusFound (Some anna)) (to_one anna) }
    ensures warning { CanBeComposed small (receipt_on kinds.Warning (Some anna)) (to_one anna) }
    ensures notice { CanBeComposed small (receipt_on kinds.Notice (Some anna)) (to_one anna) }
    ensures late_notice { CanBeComposed small (receipt_on kinds.LateNotice (Some anna)) (to_one anna) }
    ensures ack { CanBeComposed small (receipt_on kinds.Ack (Some anna)) (to_one anna) }
    ensures images { (trade : Trade) (state : List Site) (provider : ℕ) → FollowsState trade state provider (journal_at state provider) }
{}

/// Books and mailboxes of the worked examples.
pub fn books_of_the_examples()
    // Two recipients are two open lines, in their order: the one in `To` is primary, the other one gets a copy.
    ensures two_recipients { book small 0 (half small 0 (accepting to_two)) alice
        ≡ open_line bob classes.Primary ∷ open_line carl classes.Copy ∷ [] }
    // A recipient who is no account: the charge, and what was decided when.
    ensures nobody_there { book small 0 (half small 0 to_nobody) alice
        ≡ record (open_line nobody classes.Primary) {
          charged = Some 1704186003;
          outcome = Some (decisions.Refused refusals.NoMailbox, 1704186002);
        } ∷ [] }
    ensures nobody_receipts { mailbox_lines (half small 0 to_nobody) alice
        ≡ receipt_line kinds.Acceptance ∷ receipt_line_on (kinds.DeliveryError refusals.NoMailbox) nobody ∷ [] }
    // A notice is no final outcome: the delivery receipt that comes later is taken.
    ensures late_delivery { book small 0 (half small 0 noticed_and_delivered) alice
        ≡ record (open_line anna classes.Primary) {
          charged = Some 1704265203;
          noticed = Some 1704265200;
          outcome = Some (decisions.Placed, 1704265202);
        } ∷ [] }
    ensures late_receipts { mailbox_lines (half small 0 noticed_and_delivered) alice
        ≡ receipt_line kinds.Acceptance ∷ receipt_line_on kinds.Notice anna ∷ receipt_line_on kinds.Delivery anna ∷ [] }
    ensures late_envelope { mailbox_lines (half small 0 noticed_and_delivered) anna
        ≡ record { kind = item_kinds.Envelope; id = Some (record { provider = 0; number = 0 }); recipient = None } ∷ [] }
    // A warning is shown with its moment.
    ensures warned { book small 0 (half small 0 (accepting (to_one anna) ++ entries.Ticked 1704229200 ∷ [])) alice
        ≡ record (open_line anna classes.Primary) { warned = Some 1704229200 } ∷ [] }
    // A mailbox with room for one item.
    ensures room_for_one { decision_at small 1 (half small 1 one_placed) carl ≡ decisions.Refused refusals.MailboxFull }
    // A receipt takes no room.
    ensures room_beside_a_receipt { decision_at small 1 (half small 1 carl_wrote) carl ≡ decisions.Placed }
    ensures room_for_first { decision_at small 1 (half small 1 []) carl ≡ decisions.Placed }
    ensures no_account { decision_at small 1 (half small 1 []) nobody ≡ decisions.Refused refusals.NoMailbox }
    // What is archived takes no room, and leaves the mailbox for the archive; what is placed then stands in the
    // mailbox.
    ensures room_again { decision_at small 1 (half small 1 one_archived) carl ≡ decisions.Placed }
    ensures emptied { mailbox_lines (half small 1 one_archived) carl ≡ [] }
    ensures vault { archive_lines (half small 1 one_archived) carl
        ≡ record { kind = item_kinds.Envelope; id = Some first; recipient = None } ∷ [] }
    ensures next_item { mailbox_lines (half small 1 two_placed) carl
        ≡ record { kind = item_kinds.Envelope; id = Some (record { provider = 0; number = 1 }); recipient = None } ∷ [] }
    ensures same_vault { archive_lines (half small 1 two_placed) carl ≡ archive_lines (half small 1 one_archived) carl }
    // A virus that the recipient's provider finds: nothing is placed, and the sender gets a delivery error.
    ensures virus_book { book small 0 (half small 0 virus_learned) alice
        ≡ record (open_line bob classes.Primary) {
          charged = Some 1704186003;
          outcome = Some (decisions.Refused refusals.Virus, 1704186002);
        } ∷ [] }
    ensures virus_receipts { mailbox_lines (half small 0 virus_learned) alice
        ≡ receipt_line kinds.Acceptance ∷ receipt_line_on (kinds.DeliveryError refusals.Virus) bob ∷ [] }
    ensures virus_kept_out { mailbox_lines (half small 1 virus_decided) bob ≡ [] }
{}

/// What clock calls mark after a message of which nothing is heard.
pub fn marks_of_the_examples()
    ensures before_12_hours { marks_by small 0 (half small 0 (accepting (to_one anna))) (entries.Ticked 1704229199) ≡ [] }
    ensures at_12_hours { marks_by small 0 (half small 0 (accepting (to_one anna))) (entries.Ticked 1704229200)
        ≡ mark_on_anna dues.Warning 1704229200 ∷ [] }
    ensures before_22_hours { marks_by small 0 (half small 0 (accepting (to_one anna) ++ entries.Ticked 1704229200 ∷ [])) (entries.Ticked 1704265199) ≡ [] }
    ensures at_22_hours { marks_by small 0 (half small 0 (accepting (to_one anna) ++ entries.Ticked 1704229200 ∷ [])) (entries.Ticked 1704265200)
        ≡ mark_on_anna dues.Notice 1704265200 ∷ [] }
    ensures after_the_notice { marks_by small 0
        (half small 0 (accepting (to_one anna) ++ entries.Ticked 1704229200 ∷ entries.Ticked 1704265200 ∷ [])) (entries.Ticked 1704272401) ≡ [] }
    // A first call at 24 hours gives a notice, one a second later a late notice, and neither a warning.
    ensures at_24_hours { marks_by small 0 (half small 0 (accepting (to_one anna))) (entries.Ticked 1704272400)
        ≡ mark_on_anna dues.Notice 1704272400 ∷ [] }
    ensures past_24_hours { marks_by small 0 (half small 0 (accepting (to_one anna))) (entries.Ticked 1704272401)
        ≡ mark_on_anna dues.LateNotice 1704272401 ∷ [] }
{}
