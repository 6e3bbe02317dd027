ghost use Rattle.std.specs.Prelude.{◌≡◌, ℕ, ◌<◌, ◌≤◌, ◌++◌, List, length, false, not, None, Some, IsErrOf, IfErr, IfOk, IfSome, OnOk};
ghost use Rattle.std.specs.Option.{option_to_list};
ghost use Rattle.pec_types.specs.declared.turns.ProviderFault.TheVariants as faults;
ghost use Rattle.pec_outside.specs.Flow.{HasRisen};
ghost use Rattle.pec_records.specs.Entry.{IsWithinLimits};
ghost use Rattle.pec_ledger.specs.Due.{due_letters};
ghost use Rattle.pec_ledger.specs.Ledger.{Fit, Journals};
ghost use Rattle.pec_ledger.specs.Network.{IsGenuine};
ghost use Rattle.pec_ledger.specs.OfDirectory.{IsOf};
ghost use Rattle.pec_ledger.specs.Steps.{half};
ghost use Rattle.pec_ledger.specs.Trade.{Trade};
ghost use Rattle.pec_plays.specs.Decisions.{undecided};
ghost use Rattle.pec_plays.specs.Frames.{due_frames};
ghost use Rattle.pec_plays.specs.Steps.{Step};
ghost use Rattle.pec_reception.specs.OfTrades.{world_at};
ghost use Rattle.pec_chronicle.specs.Carrying.{CarriesOn, NothingMay};
ghost use Rattle.pec_chronicle.specs.Chronicle.{Stands};
ghost use Rattle.pec_stock.specs.Entering.{OnlyMay};
ghost use Rattle.pec_reception.specs.Shows.{IsLimited};
ghost use Rattle.pec_provider.specs.Appending.{MayEnter};
ghost use Rattle.pec_provider.specs.Deciding.{IsReady, IsUnready};
ghost use Rattle.pec_provider.specs.Doing.{AppendsAny, Undertakes};
ghost use Rattle.pec_provider.specs.Following.{MayFollow};
ghost use Rattle.pec_provider.specs.Looking.{LooksNext};
ghost use Rattle.pec_provider.specs.Provider.{RunsIn, desk_of};
ghost use Rattle.pec_provider.specs.Reading.{AreFramed, EnvelopeIsChanged, IsUnread, LetterIsChanged, OnChanged, Reads};
ghost use Rattle.pec_provider.specs.Working.{Arrives, DecidesBy, Does};

use crate::composing::frames_of;
use crate::deciding::next_decision;
use crate::provider::Provider;
use pec_outgoing::{due_letters, due_letters_have_the_due_frames};
use pec_outside::Disk;
use pec_plays::{
    a_turn_puts_what_is_due, what_a_provider_does_is_its_own, what_a_provider_does_may_follow,
};
use pec_reception::{House, Received, a_house_is_a_trade, receive};
use pec_screen::Judge;
use pec_seal::Sealer;
use pec_shelf::Draft;
use pec_stock::stands_still;
use pec_types::{Event, Frame, Letter, Moment, ProviderFault, Steps};
use std::alloc::Global;

impl<D: Disk> Provider<D> {
    /// Receives one frame (RFC 6109, sections 3.1 to 3.3, within this project's profile). The first of these refusals
    /// that applies is answered: `Down`, `ClockBack`, `NoMemory`, `JournalFull`, `DiskFault`.
    pub fn arrive<S: Sealer>(
        &mut self,
        alloc: Global,
        house: &House<'_, S>,
        moment: Moment,
        frame: &[u8],
    ) -> Result<Event, ProviderFault>
        requires runs { RunsIn house.now self.old }
        ensures arrives { Arrives (world_at house.now) house.now.me moment frame.now
            (desk_of self.old) (desk_of self.new) result }
        ensures runs { RunsIn house.now self.new }

        // Where the frame is genuine in some journals, what is appended may follow in their ledger.
        ensures carries { D.tells → (journals : Journals)
            → Fit (world_at house.now) journals
            → IsGenuine (world_at house.now) journals frame.now
            → CarriesOn D.sight (MayFollow (world_at house.now) journals house.now.me)
            self.old.chronicle self.new.chronicle }

        // What stands on its disk stands there again, whatever the frame is.
        ensures stands { D.tells → Stands D.sight self.old.chronicle → Stands D.sight self.new.chronicle }
        ensures disk_fault { IsErrOf result faults.DiskFault → HasRisen (D.faults self.old.chronicle.disk)
            (D.faults self.new.chronicle.disk) }
        ensures later { D.faults self.old.chronicle.disk ≤ D.faults self.new.chronicle.disk }
    {
        a_house_is_a_trade(house);
        what_a_provider_does_is_its_own();
        what_a_provider_does_may_follow();
        stands_still(&self.chronicle);
        self.at_work(moment)?;
        let received = receive(alloc, house, &self.shelf, moment, frame)?;
        let event = self.undertake(alloc, house, received)?;
        Ok(event)
    }

    /// Decides on the first taken pair, in order of taking and of recipients, that isn't decided (RFC 6109, section
    /// 3.3, within this project's profile); `None` says that there is none. Where the recipient is an account, the
    /// envelope is read, and the screens, which are this provider's, look at its original once. The first of these
    /// refusals that applies is answered: `Down`; `ClockBack`; `NoMemory`; `DiskFault` by the read, or `Changed` with
    /// the number of an entry that holds no envelope of the message, and then the provider is down and no screen has
    /// looked; `JournalFull`; `DiskFault` by the append.
    pub fn decide_next<S: Sealer, J: Judge>(
        &mut self,
        alloc: Global,
        house: &House<'_, S>,
        moment: Moment,
        screens: &mut J,
    ) -> Result<Option<Event>, ProviderFault>
        requires runs { RunsIn house.now self.old }

        // They look at the original in an envelope of the message, which was read: over a disk that tells what it holds,
        // and on which what is kept stands, at the original that was taken.
        ensures decides { DecidesBy (world_at house.now) house.now.me moment
            (D.tells × Stands D.sight self.old.chronicle)
            (J.patterns screens.old) (desk_of self.old) (desk_of self.new) result }
        ensures changed { D.tells → Stands D.sight self.old.chronicle → IfErr result (OnChanged (EnvelopeIsChanged
            (world_at house.now) house.now.me self.old.chronicle.entries)) }
        // Each screen has looked once exactly where the pair came to them, also where its entry isn't appended then.
        ensures looked { LooksNext (world_at house.now) house.now.me
            (undecided (world_at house.now) house.now.me self.old.chronicle.entries) self.new.chronicle.interrupted
            (J.seen screens.old) (J.seen screens.new) result }
        ensures patterns { J.patterns screens.new ≡ J.patterns screens.old }
        ensures runs { RunsIn house.now self.new }
        ensures carries { D.tells → (journals : Journals) → CarriesOn D.sight
            (MayFollow (world_at house.now) journals house.now.me) self.old.chronicle self.new.chronicle }
        ensures disk_fault { IsErrOf result faults.DiskFault → HasRisen (D.faults self.old.chronicle.disk)
            (D.faults self.new.chronicle.disk) }
        ensures later { D.faults self.old.chronicle.disk ≤ D.faults self.new.chronicle.disk }
    {
        a_house_is_a_trade(house);
        what_a_provider_does_is_its_own();
        stands_still(&self.chronicle);
        self.at_work(moment)?;
        let Some(received) = self.ready(alloc, house, moment, screens)? else {
            return Ok(None);
        };
        let event = self.undertake(alloc, house, received)?;
        Ok(Some(event))
    }

    /// What is to be done with the next pair, by what screens find in the envelope that is read for it.
    fn ready<S: Sealer, J: Judge>(
        &mut self,
        alloc: Global,
        house: &House<'_, S>,
        moment: Moment,
        screens: &mut J,
    ) -> Result<Option<Received>, ProviderFault>
        requires up { self.old.chronicle.down ≡ false }
        requires runs { RunsIn house.now self.old }
        ensures ready { IfOk result (IsReady (D.tells × Stands D.sight self.old.chronicle) (world_at house.now)
            house.now.me moment (J.patterns screens.old) self.old.chronicle.entries) }
        ensures limits { IfOk result (λ next. IfSome next IsLimited) }
        ensures unready { IfErr result (IsUnready (world_at house.now) house.now.me
            (undecided (world_at house.now) house.now.me self.old.chronicle.entries)) }
        ensures changed { D.tells → Stands D.sight self.old.chronicle → IfErr result (OnChanged (EnvelopeIsChanged
            (world_at house.now) house.now.me self.old.chronicle.entries)) }
        ensures looked { LooksNext (world_at house.now) house.now.me
            (undecided (world_at house.now) house.now.me self.old.chronicle.entries) None
            (J.seen screens.old) (J.seen screens.new) result }
        ensures patterns { J.patterns screens.new ≡ J.patterns screens.old }
        ensures reads { Reads (desk_of self.old) (desk_of self.new) result }
        ensures whole { self.new.chronicle.interrupted ≡ None }
        ensures up { OnOk result (self.new.chronicle.down ≡ false) }
        ensures runs { RunsIn house.now self.new }
        ensures carries { D.tells → CarriesOn D.sight NothingMay self.old.chronicle self.new.chronicle }
        ensures disk_fault { IsErrOf result faults.DiskFault → HasRisen (D.faults self.old.chronicle.disk)
            (D.faults self.new.chronicle.disk) }
        ensures later { D.faults self.old.chronicle.disk ≤ D.faults self.new.chronicle.disk }
    {
        next_decision(
            alloc,
            house,
            &mut self.chronicle,
            &self.shelf,
            moment,
            screens,
        )
    }

    /// Does what is to be done: appends the entry, if there is one, and owes the answer, if there is one.
    fn undertake<S: Sealer>(
        &mut self,
        alloc: Global,
        house: &House<'_, S>,
        received: Received,
    ) -> Result<Event, ProviderFault>
        requires up { self.old.chronicle.down ≡ false }
        requires runs { RunsIn house.now self.old }
        requires limits { IfSome received.entry IsWithinLimits }
        requires step { IfSome received.entry (MayEnter house.now.directory.now house.now.me
            self.old.chronicle.entries) }
        ensures does { (trade : Trade) (step : Step) → IsOf house.now.directory.now trade
            → Undertakes trade house.now.me self.old.chronicle.entries received step
            → Does step (desk_of self.old) (desk_of self.new) result }
        ensures runs { RunsIn house.now self.new }
        ensures carries { D.tells → CarriesOn D.sight (OnlyMay self.old.chronicle.entries received.entry)
            self.old.chronicle self.new.chronicle }
        ensures disk_fault { IsErrOf result faults.DiskFault → HasRisen (D.faults self.old.chronicle.disk)
            (D.faults self.new.chronicle.disk) }
        ensures later { D.faults self.old.chronicle.disk ≤ D.faults self.new.chronicle.disk }
    {
        let Received { entry, event, owed } = received;
        stands_still(&self.chronicle);
        self.owed.reserve(1)?;
        self.append_any(alloc, house, entry)?;
        self.owe(owed);
        Ok(event)
    }

    /// Appends the entry, if there is one.
    fn append_any<S: Sealer>(
        &mut self,
        alloc: Global,
        house: &House<'_, S>,
        entry: Option<Draft>,
    ) -> Result<(), ProviderFault>
        requires up { self.old.chronicle.down ≡ false }
        requires runs { RunsIn house.now self.old }
        requires limits { IfSome entry IsWithinLimits }
        requires step { IfSome entry (MayEnter house.now.directory.now house.now.me self.old.chronicle.entries) }
        ensures appends { (trade : Trade) → IsOf house.now.directory.now trade
            → AppendsAny trade house.now.me entry (desk_of self.old) (desk_of self.new) result }
        ensures owed { (self.new.owed ≡ self.old.owed) × (self.new.places ≡ self.old.places) }
        ensures runs { RunsIn house.now self.new }
        ensures carries { D.tells → CarriesOn D.sight (OnlyMay self.old.chronicle.entries entry) self.old.chronicle
            self.new.chronicle }
        ensures disk_fault { IsErrOf result faults.DiskFault → HasRisen (D.faults self.old.chronicle.disk)
            (D.faults self.new.chronicle.disk) }
        ensures later { D.faults self.old.chronicle.disk ≤ D.faults self.new.chronicle.disk }
    {
        stands_still(&self.chronicle);
        match entry {
            Some(entry) => {
                self.append(alloc, house, entry, &mut Steps::new())?;
                Ok(())
            }
            None => Ok(()),
        }
    }

    /// The frames of the letters that are due to a provider, itself included, no more than its link has room for (RFC
    /// 6109, section 3, within this project's profile): the answers that are owed, in their order, the outcomes that
    /// nobody acknowledged, and the envelopes of messages of which nothing was heard. Each is composed of a durable
    /// entry, which is read for it. The first of these refusals that applies is answered: `Down`; then, at the first
    /// letter that meets one, `NoMemory`, `DiskFault`, or `Changed` with the number of an entry that isn't what the
    /// letter is composed of. After the last two the provider is down, and else it is as it was.
    pub fn put_due<S: Sealer>(
        &mut self,
        alloc: Global,
        house: &House<'_, S>,
        to: u32,
        room: usize,
    ) -> Result<Vec<Frame>, ProviderFault>
        requires runs { RunsIn house.now self.old }

        // Over a disk that tells what it holds, and on which what is kept stands, they are exactly those.
        ensures due { D.tells → Stands D.sight self.old.chronicle → IfOk result (λ frames. frames.items
            ≡ due_frames (world_at house.now) house.now.me self.old.chronicle.entries to room self.old.owed) }
        // Over any disk they are composed of the entries that were read, which are what the due letters are composed of,
        // and none of these is left out for which the provider has what it needs.
        ensures given { IfOk result (λ frames. AreFramed (D.tells × Stands D.sight self.old.chronicle)
            (world_at house.now) house.now.me self.old.chronicle.entries
            (due_letters (world_at house.now) house.now.me
            (half (world_at house.now) house.now.me self.old.chronicle.entries) to room self.old.owed) frames.items) }
        ensures few { IfOk result (λ frames. length frames.items ≤ room) }
        ensures refused { IfErr result (IsUnread (not self.old.chronicle.down)) }
        ensures changed { D.tells → Stands D.sight self.old.chronicle → IfErr result (OnChanged (LetterIsChanged
            (world_at house.now) house.now.me self.old.chronicle.entries to room self.old.owed)) }
        ensures reads { Reads (desk_of self.old) (desk_of self.new) result }
        ensures runs { RunsIn house.now self.new }
        ensures carries { D.tells → CarriesOn D.sight NothingMay self.old.chronicle self.new.chronicle }
        ensures disk_fault { IsErrOf result faults.DiskFault → HasRisen (D.faults self.old.chronicle.disk)
            (D.faults self.new.chronicle.disk) }
        ensures later { D.faults self.old.chronicle.disk ≤ D.faults self.new.chronicle.disk }
    {
        a_house_is_a_trade(house);
        due_letters_have_the_due_frames();
        a_turn_puts_what_is_due();
        stands_still(&self.chronicle);
        if self.is_down() {
            return Err(ProviderFault::Down);
        }
        let letters = due_letters(alloc, house, &self.shelf, to, room, &self.owed)?;
        frames_of(alloc, house, &mut self.chronicle, &self.shelf, &letters)
    }
}

impl<D> Provider<D> {
    /// Owes an answer, if there is one, for which there is memory.
    fn owe(&mut self, letter: Option<Letter>)
        requires { 0 < self.old.places }
        ensures { self.new ≡ record self.old {
          owed = self.old.owed ++ option_to_list letter;
          places = self.new.places;
        } }
    {
        if let Some(letter) = letter {
            self.owed.push_reserved(letter);
        }
    }
}
