//! Deliveries that wait for their acknowledgement.

ghost use Rattle.std.specs.Prelude.{◌≡◌, ◌==◌, ◌<◌, ◌+◌, ◌++◌, ◌∷◌, [], OnOk, OnErr, IfOk, IfErr, IfSome, Err, ℕ, false, true, drop, is_some, length, take, List};
ghost use Rattle.std.specs.List.{remove, sum_by};
ghost use Rattle.command_core.specs.declared.command.AckMode.{AckMode};
ghost use Rattle.line_core.specs.Flights.{IsOver, IsRising, StandsAt, has_delivery, settled, settles, unsettled, mapped};
ghost use Rattle.line_core.specs.declared.flight.SettleFault.TheVariants.{Unknown};

use command_core::AckMode;
use std::alloc::{AllocError, Global};
use std::marker::Model;
use std::mem;
use thiserror::Error;

/// Why an acknowledgement settles nothing.
#[derive(Debug, Drop, Error)]
pub enum SettleFault {
    /// No delivery of that number waits for its acknowledgement.
    #[error("unknown delivery")]
    Unknown,
    /// Memory was refused.
    #[error("no memory")]
    Memory(AllocError),
}

/// The deliveries that wait for their acknowledgement, by rising number, each with its item: the message, or what else
/// is to be known of it. Contracts see it as the list of the numbers and items.
#[derive(Drop)]
pub struct Flight<T: Drop> {
    deliveries: Vec<(u64, T)>,
}

impl<T: Drop> Model for Flight<T> {
    ghost use Rattle.std.specs.Prelude.{List, ℕ};

    ghost Value = { List (ℕ × T) };

    ghost use Rattle.line_core.specs.Flights.{IsRising};

    ghost view = { λ a. a.deliveries.items };

    ghost invariant = { λ a. IsRising a.deliveries.items };
}

impl<T: Drop> Flight<T> {
    /// No deliveries. No memory is taken.
    pub fn new(alloc: Global) -> Flight<T>
        ensures { result ≡ [] }
    {
        Flight {
            deliveries: Vec::new(alloc),
        }
    }

    /// These deliveries, which stand by rising number and move: no memory is taken.
    pub fn of(deliveries: Vec<(u64, T)>) -> Flight<T>
        requires { IsRising deliveries.items }
        ensures { result ≡ deliveries.items }
    {
        Flight { deliveries }
    }

    /// How many deliveries wait.
    pub fn len(&self) -> usize
        ensures count { result ≡ length self.now }
        ensures rising { IsRising self.now }
    {
        self.deliveries.len()
    }

    /// Whether none waits.
    pub fn is_empty(&self) -> bool
        ensures empty { result ≡ (length self.now == 0) }
        ensures rising { IsRising self.now }
    {
        self.deliveries.is_empty()
    }

    /// The deliveries and their items.
    pub fn as_slice(&self) -> &[(u64, T)]
        ensures value { result.now ≡ self.now }
        ensures rising { IsRising self.now }
    {
        self.deliveries.as_slice()
    }

    /// The vector of the deliveries, which moves: no memory is taken.
    pub fn into_vec(self) -> Vec<(u64, T)>
        ensures value { result.items ≡ self }
        ensures rising { IsRising self }
    {
        let Flight { deliveries } = self;
        deliveries
    }

    /// Adds a delivery after the others, whose numbers are all smaller. If memory is refused, they are as they were, and
    /// the item is dropped.
    pub fn add(&mut self, delivery: u64, item: T) -> Result<(), AllocError>
        requires { IsOver delivery self.old }
        ensures ok { OnOk result (self.new ≡ self.old ++ (delivery, item) ∷ []) }
        ensures same { OnErr result (self.new ≡ self.old) }
    {
        self.deliveries.push((delivery, item))?;
        Ok(())
    }

    /// Whether a delivery of that number waits.
    pub fn contains(&self, delivery: u64) -> bool
        ensures has { result ≡ has_delivery delivery self.now }
        ensures rising { IsRising self.now }
    {
        self.place_of(delivery).is_some()
    }

    /// Settles a delivery: alone, or with all earlier ones if the mode is `client` (STOMP 1.2, "SUBSCRIBE", header `ack`,
    /// and "ACK"). Gives those that are settled, in their order, and the others stay. If it is refused, or memory is,
    /// nothing changes.
    pub fn settle(&mut self, mode: AckMode, delivery: u64) -> Result<Vec<(u64, T)>, SettleFault>
        ensures ok { OnOk result (has_delivery delivery self.old ≡ true) }
        ensures settled { IfOk result (λ out. out.items ≡ settled mode delivery self.old) }
        ensures unsettled { OnOk result (self.new ≡ unsettled mode delivery self.old) }
        ensures unknown { has_delivery delivery self.old ≡ false → result ≡ Err Unknown }
        ensures known { IfErr result (λ fault. fault ≡ Unknown → has_delivery delivery self.old ≡ false) }
        ensures same { OnErr result (self.new ≡ self.old) }
        ensures rising { IsRising self.old }
    {
        let Some(place) = self.place_of(delivery) else {
            return Err(SettleFault::Unknown);
        };
        split(&mut self.deliveries, mode, place).map_err(SettleFault::Memory)
    }

    /// Where the delivery of that number stands.
    fn place_of(&self, delivery: u64) -> Option<usize>
        ensures has { is_some result ≡ has_delivery delivery self.now }
        ensures at { IfSome result (λ place. StandsAt place delivery self.now) }
        ensures rising { IsRising self.now }
    {
        for place in 0..self.deliveries.len() {
            if self.deliveries[place].0 == delivery {
                return Some(place);
            }
        }
        None
    }
}

/// Whether the acknowledgement of a delivery settles the one of that number: with `client` each up to the acknowledged
/// one, else that one alone.
pub fn settles(mode: AckMode, delivery: u64, number: u64) -> bool
    ensures { result ≡ settles mode delivery number }
{
    match mode {
        AckMode::Client => number <= delivery,
        AckMode::ClientIndividual | AckMode::Auto => number == delivery,
    }
}

/// Takes out what the acknowledgement of the delivery at that place settles. If memory is refused, it stays.
fn split<T>(
    deliveries: &mut Vec<(u64, T)>,
    mode: AckMode,
    place: usize,
) -> Result<Vec<(u64, T)>, AllocError>
    requires rising { IsRising deliveries.old.items }
    requires place { place < length deliveries.old.items }
    ensures settled { (delivery : ℕ) → StandsAt place delivery deliveries.old.items
        → IfOk result (λ out. out.items ≡ settled mode delivery deliveries.old.items) }
    ensures unsettled { (delivery : ℕ) → StandsAt place delivery deliveries.old.items
        → OnOk result (deliveries.new.items ≡ unsettled mode delivery deliveries.old.items) }
    ensures same { OnErr result (deliveries.new.items ≡ deliveries.old.items) }
{
    match mode {
        AckMode::Client => take_up_to(deliveries, place),
        AckMode::ClientIndividual | AckMode::Auto => take_one(deliveries, place),
    }
}

/// Takes out the deliveries up to that place. If memory is refused, they stay.
fn take_up_to<T>(deliveries: &mut Vec<(u64, T)>, place: usize) -> Result<Vec<(u64, T)>, AllocError>
    requires { place < length deliveries.old.items }
    ensures taken { IfOk result (λ out. out.items ≡ take (place + 1) deliveries.old.items) }
    ensures rest { OnOk result (deliveries.new.items ≡ drop (place + 1) deliveries.old.items) }
    ensures same { OnErr result (deliveries.new.items ≡ deliveries.old.items) }
{
    let rest = deliveries.split_off(place + 1)?;
    Ok(mem::replace(deliveries, rest))
}

/// Takes out the delivery at that place. If memory is refused, it stays.
fn take_one<T>(deliveries: &mut Vec<(u64, T)>, place: usize) -> Result<Vec<(u64, T)>, AllocError>
    requires { place < length deliveries.old.items }
    ensures taken { IfOk result (λ out. out.items ≡ take 1 (drop place deliveries.old.items)) }
    ensures rest { OnOk result (deliveries.new.items ≡ remove deliveries.old.items place) }
    ensures same { OnErr result (deliveries.new.items ≡ deliveries.old.items) }
{
    let mut taken = Vec::with_capacity(*deliveries.allocator(), 1)?;
    taken.push_reserved(deliveries.remove(place));
    Ok(taken)
}

/// What an acknowledgement settles and what it leaves are together the flight.
pub fn settled_and_unsettled_are_the_flight<T>()
    ensures count { (mode : AckMode) (delivery : ℕ) (flight : List (ℕ × T))
        → length (settled mode delivery flight) + length (unsettled mode delivery flight) ≡ length flight }
    ensures sum { (f : ℕ × T → ℕ) (mode : AckMode) (delivery : ℕ) (flight : List (ℕ × T))
        → sum_by f (settled mode delivery flight) + sum_by f (unsettled mode delivery flight) ≡ sum_by f flight }
{}

/// What an acknowledgement settles, and what it leaves, stand by rising number as before.
pub fn acknowledgements_keep_order<T>()
    ensures settled { (mode : AckMode) (delivery : ℕ) (flight : List (ℕ × T))
        → IsRising flight → IsRising (settled mode delivery flight) }
    ensures unsettled { (mode : AckMode) (delivery : ℕ) (flight : List (ℕ × T))
        → IsRising flight → IsRising (unsettled mode delivery flight) }
{}

/// What is settled goes by the numbers alone: with other items, the same deliveries are settled.
pub fn other_items_settle_alike<T, U>()
    ensures has { (f : T → U) (delivery : ℕ) (flight : List (ℕ × T))
        → has_delivery delivery (mapped f flight) ≡ has_delivery delivery flight }
    ensures settled { (f : T → U) (mode : AckMode) (delivery : ℕ) (flight : List (ℕ × T))
        → settled mode delivery (mapped f flight) ≡ mapped f (settled mode delivery flight) }
    ensures unsettled { (f : T → U) (mode : AckMode) (delivery : ℕ) (flight : List (ℕ × T))
        → unsettled mode delivery (mapped f flight) ≡ mapped f (unsettled mode delivery flight) }
    ensures rising { (f : T → U) (flight : List (ℕ × T))
        → IsRising flight → IsRising (mapped f flight) }
{}
