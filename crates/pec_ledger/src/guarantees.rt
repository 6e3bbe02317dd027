ghost use Rattle.pec_ledger.specs.Guarantees.{NoReceiptMissing, NoticeByTheDay, OneDelivery, OneOutcome};
ghost use Rattle.pec_ledger.specs.Ledger.{Fit, Journals};
ghost use Rattle.pec_ledger.specs.Trade.{Trade};

/// What journals that are Fit give the users of certified mail: each pair has at most one final outcome, a delivered
/// message lies in its mailbox once, no acknowledged receipt is missing, and after a clock call past 24 hours no open
/// pair is without its notice.
pub fn the_guarantees()
    ensures one_outcome { (trade : Trade) (journals : Journals) → Fit trade journals → OneOutcome trade journals }
    ensures one_delivery { (trade : Trade) (journals : Journals) → Fit trade journals → OneDelivery trade journals }
    ensures no_receipt_missing { (trade : Trade) (journals : Journals) → Fit trade journals → NoReceiptMissing trade journals }
    ensures notice_by_the_day { (trade : Trade) (journals : Journals) → Fit trade journals → NoticeByTheDay trade journals }
{}
