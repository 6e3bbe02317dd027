ghost use Rattle.std.specs.Prelude.{◌≡◌, ℕ, ◌+◌, ◌<◌, ◌≤◌, [], ◌∷◌, ◌++◌, length, replicate, slice_get, IsErrOf, None, Some, OnOk, IfOk, OnErr, IfErr};
ghost use Rattle.std.specs.Prelude.{slice_index_or, vec_len, vec_capacity};
ghost use Rattle.std.specs.Option.{option_to_list};
ghost use Rattle.pec_link.specs.declared.faults.LinkFault.TheVariants as faults;
ghost use Rattle.pec_posts.specs.Arrivals.{waiting_from, with_link, without};
ghost use Rattle.pec_posts.specs.Parting.{ArePaired, AreShorter, HasRoom, IsJoined, IsParted};
ghost use Rattle.pec_plays.specs.Commands.{swapped_at};
ghost use Rattle.pec_plays.specs.Rounds.{link_size};

use pec_link::{Link, LinkFault, Putter, Taker};
use pec_rows::{Putters, Takers};
use pec_types::{Frame, NoMemory};
use std::alloc::Global;
use std::marker::Model;

/// The links on which frames wait for one provider, one from each provider, by number. Contracts see the lists of their
/// frames, oldest first.
#[derive(Drop)]
pub struct Arrivals {
    links: Vec<Link>,
}

impl Model for Arrivals {
    ghost use Rattle.pec_posts.specs.Arrivals.{Waiting};

    ghost Value = { Waiting };

    ghost view = { λ arrivals. arrivals.links.items };
}

impl Arrivals {
    /// Links from so many providers, on which no frame waits.
    pub fn new(alloc: Global, senders: u32) -> Result<Arrivals, NoMemory>
        ensures { IfOk result (λ arrivals. arrivals ≡ replicate senders []) }
    {
        let mut links = Vec::new(alloc);
        for _ in 0..senders {
            let link = Link::new(alloc)?;
            links.push(link)?;
        }
        Ok(Arrivals { links })
    }

    /// How many more frames the link from a provider holds. It takes no memory.
    pub fn room(&self, from: u32) -> usize
        requires { from < length self.now }
        ensures { result + length (waiting_from self.now from) ≡ link_size }
    {
        self.links[from as usize].room()
    }

    /// Loses the frame at a place of the link from a provider, counted from 0. `NoFrame` exactly where no frame waits
    /// there. It takes no memory.
    pub fn lose(&mut self, from: u32, place: usize) -> Result<(), LinkFault>
        requires { from < length self.old }
        ensures lost { OnOk result ((place < length (waiting_from self.old from))
            × (self.new ≡ with_link self.old from (without place (waiting_from self.old from)))) }
        ensures no_frame { IfErr result (λ fault. (fault ≡ faults.NoFrame) × (length (waiting_from self.old from) ≤ place)) }
        ensures unchanged { OnErr result (self.new ≡ self.old) }
        ensures links { length self.new ≡ length self.old }
    {
        self.links[from as usize].lose(place)
    }

    /// Exchanges the frame at a place of the link from a provider, counted from 0, with the next one. `NoFrame` exactly
    /// where one of the two doesn't wait. It takes no memory.
    pub fn swap(&mut self, from: u32, place: usize) -> Result<(), LinkFault>
        requires { from < length self.old }
        ensures swapped { OnOk result (swapped_at place (waiting_from self.old from) ≡ Some (waiting_from self.new from)) }
        ensures others { OnOk result (self.new ≡ with_link self.old from (waiting_from self.new from)) }
        ensures no_frame { IfErr result (λ fault. (fault ≡ faults.NoFrame) × (swapped_at place (waiting_from self.old from) ≡ None)) }
        ensures unchanged { OnErr result (self.new ≡ self.old) }
        ensures links { length self.new ≡ length self.old }
    {
        self.links[from as usize].swap(place)
    }

    /// Puts a copy of the frame at a place of the link from a provider, counted from 0, behind those that wait there.
    /// `NoFrame` exactly where no frame waits at the place, and otherwise `Full` exactly where 64 wait.
    pub fn repeat(&mut self, alloc: Global, from: u32, place: usize) -> Result<(), LinkFault>
        requires { from < length self.old }
        ensures repeated { OnOk result ((place < length (waiting_from self.old from))
            × (length (waiting_from self.old from) < link_size)
            × (self.new ≡ with_link self.old from
            (waiting_from self.old from ++ option_to_list (slice_get (waiting_from self.old from) place)))) }
        ensures no_frame { IsErrOf result faults.NoFrame → length (waiting_from self.old from) ≤ place }
        ensures full { IsErrOf result faults.Full → (place < length (waiting_from self.old from))
            × (length (waiting_from self.old from) ≡ link_size) }
        ensures unchanged { OnErr result (self.new ≡ self.old) }
        ensures links { length self.new ≡ length self.old }
    {
        self.links[from as usize].repeat(alloc, place)
    }

    /// Puts a frame from outside behind those that wait on the link from a provider. `Full` exactly where 64 wait. It
    /// takes no memory.
    pub fn inject(&mut self, from: u32, frame: Frame) -> Result<(), LinkFault>
        requires { from < length self.old }
        ensures put { OnOk result ((length (waiting_from self.old from) < link_size)
            × (self.new ≡ with_link self.old from (waiting_from self.old from ++ frame ∷ []))) }
        ensures full { IfErr result (λ fault. (fault ≡ faults.Full) × (length (waiting_from self.old from) ≡ link_size)) }
        ensures unchanged { OnErr result (self.new ≡ self.old) }
        ensures links { length self.new ≡ length self.old }
    {
        match self.links[from as usize].put(frame) {
            Ok(()) => Ok(()),
            Err(_) => Err(LinkFault::Full),
        }
    }

    /// Takes its links apart. The end that puts on each goes behind those of the row of its provider, and the ends that
    /// take go into an empty list. It takes no memory.
    pub(crate) fn part(self, rows: &mut [Vec<Putter>], mut takers: Vec<Taker>) -> Takers
        requires rows { length rows.old ≡ length self }
        requires room { (from : ℕ) (row : _) → from < length rows.old
            → vec_len (slice_index_or rows.old from row) < vec_capacity (slice_index_or rows.old from row) }
        requires takers { HasRoom (length self) takers }
        ensures { IsParted self rows.old rows.new result }
    {
        let Arrivals { links } = self;
        for link in links {
            let (putter, taker) = link.into_ends();
            rows[takers.len()].push_reserved(putter);
            takers.push_reserved(taker);
        }
        Takers::of(takers)
    }

    /// Puts links together, each of the first end of the row of its provider, which then lacks it, and of an end that
    /// takes. They go into an empty list. It takes no memory.
    pub(crate) fn join(rows: &mut [Putters], takers: Takers, mut links: Vec<Link>) -> Arrivals
        requires rows { length takers ≤ length rows.old }
        requires paired { ArePaired rows.old takers }
        requires links { HasRoom (length takers) links }
        ensures links { IsJoined rows.old takers result }
        ensures shorter { AreShorter rows.old (length takers) rows.new }
    {
        for taker in takers.into_ends() {
            let putter = rows[links.len()].take_first();
            links.push_reserved(Link::of(putter, taker));
        }
        Arrivals { links }
    }
}
