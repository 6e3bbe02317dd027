ghost use Rattle.std.specs.Prelude.{◌≡◌, ℕ, List};
ghost use Rattle.pec_types.specs.Bytes.{Bytes};
ghost use Rattle.pec_plays.specs.Rounds.{delivered_to};
ghost use Rattle.pec_rows.specs.Rows.{IsBehind};

/// Where on each link for a provider stands what was left there and behind it what was put for it, that is what a round
/// delivers to it, whoever put it and in whatever order.
pub fn a_row_is_delivered_link_by_link()
    ensures { (to : ℕ) (outs : List (List (List Bytes))) (left new : List (List Bytes)) → IsBehind to outs left new
        → new ≡ delivered_to to outs left }
{}
