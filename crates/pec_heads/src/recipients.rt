ghost use Rattle.std.specs.Prelude.{◌≡◌, [], IfOk, OnOk};
ghost use Rattle.std.specs.List.{list_any};
ghost use Rattle.std.specs.Str.{bytes_eq};
ghost use Rattle.pec_heads.specs.FactsOfHeads.{recipients_of};
ghost use Rattle.pec_heads.specs.FactsReading.{with_recipient, with_recipients};
ghost use Rattle.pec_heads.specs.Views.{AreKnown};

use pec_types::{Address, Class, NoMemory, Recipient};
use std::alloc::Global;
use std::collections::BTreeSet;

/// Up to so many addresses of a list are compared with each other, and more are found in a tree.
const FEW: usize = 8;

/// Those of `To`, and then those of `Cc` that don't stand in `To`, each once.
pub(crate) fn recipients(
    alloc: Global,
    to: Vec<Address>,
    copies: Vec<Address>,
) -> Result<Vec<Recipient>, NoMemory>
    ensures { IfOk result (λ all. all.items ≡ recipients_of to.items copies.items) }
{
    if to.len() <= FEW && copies.len() <= FEW {
        let all = few_recipients(alloc, to, copies)?;
        return Ok(all);
    }
    let mut gathered = Gathered::new(alloc);
    gathered.add_all(alloc, to, Class::Primary)?;
    gathered.add_all(alloc, copies, Class::Copy)?;
    Ok(gathered.all)
}

/// Recipients in their order, and the set of their addresses. In a tree an address is found without going over all of
/// them, whatever addresses a message has.
#[derive(Drop)]
struct Gathered {
    all: Vec<Recipient>,
    known: BTreeSet<Vec<u8>>,
}

impl Gathered {
    fn new(alloc: Global) -> Gathered
        ensures none { result.all.items ≡ [] }
        ensures known { AreKnown result }
    {
        Gathered {
            all: Vec::new(alloc),
            known: BTreeSet::new(alloc),
        }
    }

    fn add_all(
        &mut self,
        alloc: Global,
        addresses: Vec<Address>,
        class: Class,
    ) -> Result<(), NoMemory>
        requires { AreKnown self.old }
        ensures added { OnOk result (self.new.all.items ≡ with_recipients class self.old.all.items addresses.items) }
        ensures known { OnOk result (AreKnown self.new) }
    {
        for address in addresses {
            self.add(alloc, address, class)?;
        }
        Ok(())
    }

    /// Adds a recipient, unless its address is there.
    fn add(&mut self, alloc: Global, address: Address, class: Class) -> Result<(), NoMemory>
        requires { AreKnown self.old }
        ensures added { OnOk result (self.new.all.items ≡ with_recipient class self.old.all.items address) }
        ensures known { OnOk result (AreKnown self.new) }
    {
        let key = Vec::from_slice(alloc, address.bytes())?;
        let is_new = self.known.insert(key)?;
        if !is_new {
            return Ok(());
        }
        self.all.push(Recipient { address, class })?;
        Ok(())
    }
}

/// As `recipients`, where each address is compared with all those before it.
fn few_recipients(
    alloc: Global,
    to: Vec<Address>,
    copies: Vec<Address>,
) -> Result<Vec<Recipient>, NoMemory>
    ensures { IfOk result (λ all. all.items ≡ recipients_of to.items copies.items) }
{
    let mut all = Vec::new(alloc);
    add_few(&mut all, to, Class::Primary)?;
    add_few(&mut all, copies, Class::Copy)?;
    Ok(all)
}

fn add_few(all: &mut Vec<Recipient>, addresses: Vec<Address>, class: Class) -> Result<(), NoMemory>
    ensures { OnOk result (all.new.items ≡ with_recipients class all.old.items addresses.items) }
{
    for address in addresses {
        add_one(all, address, class)?;
    }
    Ok(())
}

/// Adds a recipient, unless its address is there.
fn add_one(all: &mut Vec<Recipient>, address: Address, class: Class) -> Result<(), NoMemory>
    ensures { OnOk result (all.new.items ≡ with_recipient class all.old.items address) }
{
    if has_address(all.as_slice(), address.bytes()) {
        return Ok(());
    }
    all.push(Recipient { address, class })?;
    Ok(())
}

fn has_address(all: &[Recipient], address: &[u8]) -> bool
    ensures { result ≡ list_any (λ r. bytes_eq r.address address.now) all.now }
{
    all.iter().any(|r| r.address.bytes() == address)
}
