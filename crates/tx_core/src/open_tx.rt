//! The open transactions of a session.

ghost use Rattle.std.specs.Prelude.{◌≡◌, ◌++◌, ◌∷◌, [], Some, None, IfOk, IfErr, OnOk, OnErr, MatchOption, ◌≤◌, List, ℕ, IsSome, false, fold};
ghost use Rattle.std.specs.Str.{bytes_eq};
ghost use Rattle.command_core.specs.declared.command.Member.{Member};
ghost use Rattle.tx_core.specs.Places.{HasNone, IsPlace};
ghost use Rattle.tx_core.specs.Transactions.{IsTransaction, bytes_of, added, begun, members_of};
ghost use Rattle.tx_core.specs.Refusals.{refusal_to_join};
ghost use Rattle.tx_core.specs.TxFaults.{fault_of};

use command_core::{Fault, HeaderText, Member, Members, member_size};
use std::alloc::{AllocError, Global};
use std::marker::Model;
use thiserror::Error;

/// The open transactions of a session (STOMP 1.2, "BEGIN"), in the order in which they were begun. There are at most
/// four, of different names, and each has at most 64 members that take at most 262,144 bytes. Contracts see the list of
/// their names and members.
#[derive(Drop)]
pub struct OpenTx {
    all: Vec<Transaction>,
}

impl Model for OpenTx {
    ghost use Rattle.std.specs.Prelude.{List, ℕ};
    ghost use Rattle.command_core.specs.declared.command.Member.{Member};
    ghost use Rattle.tx_core.specs.Transactions.{AreOpen};

    ghost Value = { List (List ℕ × List Member) };

    ghost view = { λ a. a.all.items };

    ghost invariant = { λ a. AreOpen a.all.items };
}

/// Where the transaction of that name stands.
fn place_of(all: &Vec<Transaction>, name: &str) -> Option<usize>
    ensures { MatchOption result (HasNone name.now all.now.items) (λ place. IsPlace name.now all.now.items place) }
{
    all.iter()
        .position(|transaction| transaction.is_named(name))
}

fn put(all: &mut Vec<Transaction>, transaction: Transaction) -> Result<(), AllocError>
    ensures ok { OnOk result (all.new.items ≡ all.old.items ++ transaction ∷ []) }
    ensures same { OnErr result (all.new.items ≡ all.old.items) }
{
    all.push(transaction)?;
    Ok(())
}

impl OpenTx {
    ghost use Rattle.std.specs.Prelude.{◌≡◌, ◌≤◌, [], Some, None, IfOk, IfErr, OnOk, OnErr, length};
    ghost use Rattle.tx_core.specs.Transactions.{AreOpen, IsTransaction, bytes_of_all, members_of, begun, added, without};
    ghost use Rattle.tx_core.specs.Refusals.{refusal_of_begin, refusal_of_add, refusal_of_end};
    ghost use Rattle.tx_core.specs.TxFaults.{fault_of};

    /// No transaction. No memory is taken.
    pub fn new(alloc: Global) -> OpenTx
        ensures { result ≡ [] }
    {
        OpenTx {
            all: Vec::new(alloc),
        }
    }

    /// Begins a transaction of that name, after the others. It is refused if a transaction of that name is open, and
    /// then if four transactions are. If it is refused, or memory is, nothing changes.
    pub fn begin(&mut self, alloc: Global, name: HeaderText) -> Result<(), TxFault>
        ensures ok { OnOk result (self.new ≡ begun name self.old) }
        ensures allowed { OnOk result (refusal_of_begin name self.old ≡ None) }
        ensures refused { IfErr result (λ fault. fault_of fault ≡ refusal_of_begin name self.old) }
        ensures same { OnErr result (self.new ≡ self.old) }
    {
        if let Some(_) = place_of(&self.all, name.as_str()) {
            return Err(TxFault::Begun);
        }
        if self.all.len() >= 4 {
            return Err(TxFault::TooMany);
        }
        put(&mut self.all, Transaction::new(alloc, name)).map_err(TxFault::Memory)?;
        Ok(())
    }

    /// Puts the member at the end of the transaction of that name. It is refused if there is none, or if the
    /// transaction would have a 65th member or more than 262,144 bytes. If it is refused, or memory is, nothing
    /// changes, and the member is dropped.
    pub fn add(&mut self, name: &str, member: Member) -> Result<(), TxFault>
        ensures ok { OnOk result (self.new ≡ added name.now member self.old) }
        ensures allowed { OnOk result (refusal_of_add name.now member self.old ≡ None) }
        ensures refused { IfErr result (λ fault. fault_of fault ≡ refusal_of_add name.now member self.old) }
        ensures same { OnErr result (self.new ≡ self.old) }
    {
        match place_of(&self.all, name) {
            None => Err(TxFault::NotBegun),
            Some(place) => self.all[place].add(member),
        }
    }

    /// Ends the transaction of that name, and answers its members in their order. No memory is taken. The one error is
    /// that there is none of that name, and then nothing changes.
    pub fn commit(&mut self, name: &str) -> Result<Members, TxFault>
        ensures members { IfOk result (λ members. members_of name.now self.old ≡ Some members) }
        ensures form { IfOk result (λ members. IsTransaction members) }
        ensures ok { OnOk result (self.new ≡ without name.now self.old) }
        ensures gone { OnOk result (members_of name.now self.new ≡ None) }
        ensures refused { IfErr result (λ fault. (fault ≡ TxFault.NotBegun) × (members_of name.now self.old ≡ None)) }
        ensures same { OnErr result (self.new ≡ self.old) }
    {
        match place_of(&self.all, name) {
            None => Err(TxFault::NotBegun),
            Some(place) => Ok(self.all.remove(place).into_members()),
        }
    }

    /// Gives up the transaction of that name. No memory is taken. The one error is that there is none of that name, and
    /// then nothing changes.
    pub fn abort(&mut self, name: &str) -> Result<(), TxFault>
        ensures ok { OnOk result (self.new ≡ without name.now self.old) }
        ensures allowed { OnOk result (refusal_of_end name.now self.old ≡ None) }
        ensures gone { OnOk result (members_of name.now self.new ≡ None) }
        ensures refused { IfErr result (λ fault. (fault ≡ TxFault.NotBegun) × (fault_of fault ≡ refusal_of_end name.now self.old)) }
        ensures same { OnErr result (self.new ≡ self.old) }
    {
        match place_of(&self.all, name) {
            None => Err(TxFault::NotBegun),
            Some(place) => {
                self.all.remove(place);
                Ok(())
            }
        }
    }

    /// Gives up all of them.
    pub fn abort_all(&mut self)
        ensures { self.new ≡ [] }
    {
        self.all.clear();
    }

    /// How many bytes the members of all of them take, 1,048,576 at most.
    pub fn bytes(&self) -> u64
        ensures value { result ≡ bytes_of_all self.now }
        ensures most { result ≤ 1048576 }
    {
        let mut sum = 0;
        for transaction in self.all.iter() {
            sum += transaction.bytes();
        }
        sum
    }

    /// How many there are.
    pub fn len(&self) -> usize
        ensures value { result ≡ length self.now }
        ensures form { AreOpen self.now }
    {
        self.all.len()
    }
}

/// A transaction: its name and its members, and how many bytes these take. Contracts see the name and the members.
#[derive(Drop)]
pub struct Transaction {
    name: HeaderText,
    members: Vec<Member>,
    bytes: u64,
}

impl Model for Transaction {
    ghost use Rattle.std.specs.Prelude.{◌≡◌, List, ℕ};
    ghost use Rattle.command_core.specs.declared.command.Member.{Member};
    ghost use Rattle.tx_core.specs.Transactions.{IsTransaction, bytes_of};

    ghost Value = { List ℕ × List Member };

    ghost view = { λ a. (a.name, a.members.items) };

    ghost invariant = { λ a. IsTransaction a.members.items × (a.bytes ≡ bytes_of a.members.items) };
}

impl Transaction {
    /// A transaction without members. No memory is taken.
    pub fn new(alloc: Global, name: HeaderText) -> Transaction
        ensures { result ≡ (name, []) }
    {
        Transaction {
            name,
            members: Vec::new(alloc),
            bytes: 0,
        }
    }

    /// Whether it has that name.
    pub fn is_named(&self, name: &str) -> bool
        ensures { result ≡ bytes_eq name.now self.now.0 }
    {
        name == self.name.as_str()
    }

    /// How many bytes its members take.
    pub fn bytes(&self) -> u64
        ensures value { result ≡ bytes_of self.now.1 }
        ensures most { result ≤ 262144 }
    {
        self.bytes
    }

    /// Puts the member after the others.
    pub fn add(&mut self, member: Member) -> Result<(), TxFault>
        ensures ok { OnOk result (self.new ≡ (self.old.0, self.old.1 ++ member ∷ [])) }
        ensures allowed { OnOk result (refusal_to_join member (Some self.old.1) ≡ None) }
        ensures refused { IfErr result (λ fault. fault_of fault ≡ refusal_to_join member (Some self.old.1)) }
        ensures same { OnErr result (self.new ≡ self.old) }
        ensures name { self.new.0 ≡ self.old.0 }
    {
        let bytes = self.bytes + member_size(&member);
        if self.members.len() >= 64 || bytes > 262_144 {
            return Err(TxFault::TooLarge);
        }
        put_member(&mut self.members, member).map_err(TxFault::Memory)?;
        self.bytes = bytes;
        Ok(())
    }

    /// The members, which move: no memory is taken.
    pub fn into_members(self) -> Members
        ensures value { result ≡ self.1 }
        ensures form { IsTransaction self.1 }
    {
        Members::new(self.members)
    }
}

fn put_member(members: &mut Vec<Member>, member: Member) -> Result<(), AllocError>
    ensures ok { OnOk result (members.new.items ≡ members.old.items ++ member ∷ []) }
    ensures same { OnErr result (members.new.items ≡ members.old.items) }
{
    members.push(member)?;
    Ok(())
}

/// Why a transaction was not begun, changed or ended. It is as it was before.
#[derive(Debug, Drop, Error)]
pub enum TxFault {
    /// A transaction of that name is open.
    #[error("transaction already begun")]
    Begun,
    /// No transaction of that name is open.
    #[error("transaction not begun")]
    NotBegun,
    /// It would have more than 64 members, or more than 262,144 bytes.
    #[error("transaction too large")]
    TooLarge,
    /// Four transactions are open.
    #[error("too many transactions")]
    TooMany,
    /// Memory was refused.
    #[error(transparent)]
    Memory(#[from(alloc)] AllocError),
}

impl TxFault {
    /// The fault that a client is told, unless memory was refused.
    pub fn fault(&self) -> Option<Fault>
        ensures { result ≡ fault_of self.now }
    {
        match self {
            TxFault::Begun => Some(Fault::TransactionBegun),
            TxFault::NotBegun => Some(Fault::TransactionNotBegun),
            TxFault::TooLarge => Some(Fault::TransactionTooLarge),
            TxFault::TooMany => Some(Fault::TooManyEntries),
            TxFault::Memory(_) => None,
        }
    }
}

/// What is put into a transaction after its BEGIN stands there in the same order, and the transactions of other names
/// are as they were.
pub fn members_keep_their_order()
    ensures order { (name : List ℕ) (members : List Member) (transactions : List (List ℕ × List Member))
        → members_of name transactions ≡ None
        → members_of name (fold (λ all member. added name member all) (begun name transactions) members) ≡ Some members }
    ensures others { (name other : List ℕ) (member : Member) (transactions : List (List ℕ × List Member))
        → bytes_eq name other ≡ false → IsSome (members_of name transactions)
        → members_of other (added name member transactions) ≡ members_of other transactions }
{}
