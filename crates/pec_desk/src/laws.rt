ghost use Rattle.std.specs.Prelude.{◌≡◌, ◌⊎◌, Some, Result};
ghost use Rattle.pec_types.specs.Bytes.{Bytes};
ghost use Rattle.pec_directory.specs.Directory.{providers_of};
ghost use Rattle.pec_http.specs.Asking.{Asks, Question};
ghost use Rattle.pec_http.specs.Replies.{Reply as ReplyShown};
ghost use Rattle.pec_http.specs.Serving.{IsAnswer};
ghost use Rattle.pec_http.specs.declared.stops.Stop.{Stop as StopShown};
ghost use Rattle.pec_desk.specs.Desks.{DeskState, answers_of};
ghost use Rattle.pec_service.specs.Passes.{pass_of};
ghost use Rattle.pec_service.specs.Own.{IsFaultOf, asker, reply_to};
ghost use Rattle.pec_desk.specs.Shares.{ReadsItsOwn, asking_share, share_of};

use pec_http::a_request_asks_one_thing;
use pec_outside::Disk;
use pec_seal::Sealer;

/// The law of accounts: what a request is answered is a function of the request, the moment, the directory, and the
/// share of the account that asks, which is its own book and items, what its provider comes to and what that provider's
/// screens look for; but for want of memory, and, of a submission or a look at an item, for a fault of that provider's
/// disk; and a look at an item may be told that an entry changed. So the desks of two networks of the same providers,
/// in which that account has the same share, answer the same. Of a look at an item it is said where disks tell what
/// they hold, and what is kept stands on them.
pub fn an_account_sees_its_own<D: Disk, S: Sealer>()
    ensures own { (desk after : DeskState D S) (input : Bytes) (reply : ReplyShown)
        → IsAnswer (answers_of D.sight D.faults D.tells S.seals) desk input after reply
        → (asked : Result Question StopShown) → Asks (pass_of desk.network.kept) input asked
        → ReadsItsOwn D.sight D.tells desk asked
        → (reply ≡ reply_to (providers_of desk.network.kept) desk.moment (asking_share S.seals desk asked) asked)
        ⊎ IsFaultOf asked reply }
    ensures apart { (one other after last : DeskState D S) (input : Bytes) (reply again : ReplyShown)
        → providers_of one.network.kept ≡ providers_of other.network.kept → one.moment ≡ other.moment
        → (asked : Result Question StopShown) → Asks (pass_of one.network.kept) input asked
        → ReadsItsOwn D.sight D.tells one asked → ReadsItsOwn D.sight D.tells other asked
        → ((account : Bytes) → asker asked ≡ Some account
        → share_of S.seals one account ≡ share_of S.seals other account)
        → IsAnswer (answers_of D.sight D.faults D.tells S.seals) one input after reply
        → IsAnswer (answers_of D.sight D.faults D.tells S.seals) other input last again
        → (reply ≡ again) ⊎ IsFaultOf asked reply ⊎ IsFaultOf asked again }
{
    a_request_asks_one_thing();
}
