//! A transaction is tried on what decides whether it is refused.

ghost use Rattle.std.specs.Prelude.{◌≡◌, ◌+◌, ◌*◌, ◌≤◌, ◌^◌, ◌<◌, IfOk, IfSome, List, MatchOption, OnOk, Ok, Err, Some, ℕ, false, if◌then◌else◌, is_some, length, slice_get, true};
ghost use Rattle.std.specs.List.{list_any, sum_by};
ghost use Rattle.command_core.specs.declared.fault.Fault.TheVariants.{NoRoom};
ghost use Rattle.line_core.specs.Flights.{mapped, settled};
ghost use Rattle.broker_core.specs.declared.precheck.PrecheckFlight.{PrecheckFlight};
ghost use Rattle.broker_state.specs.declared.nack_rule.NackRule.TheVariants.{Keeps};
ghost use Rattle.broker_state.specs.declared.subscription.Subscription.{Subscription};
ghost use Rattle.broker_state.specs.Dead.{nacked};
ghost use Rattle.broker_state.specs.Executing.{applied, committed};
ghost use Rattle.broker_state.specs.Lists.{changed, picked, with_first};
ghost use Rattle.broker_state.specs.Names.{Name};
ghost use Rattle.broker_state.specs.Operations.{acknowledged};
ghost use Rattle.broker_state.specs.Parts.{IsFirst, NonePass, find_room, without_state};
ghost use Rattle.broker_state.specs.States.{State};
ghost use Rattle.waiting_order.specs.Waiting.{subs_of};
ghost use Rattle.broker_core.specs.Prechecks.{HoldsFlights, Leads, SettlesFlight, StandsFor, bytes_in, deliveries_in, flight_of, flights_of, has, kept_bytes_in, kept_in, left_by, sized};

use broker_state::{Held, MOST_BYTES, NackRule, Subscription, stand_in_order};
use broker_tables::{Tables, copies_to, find_room, is_dropped, refused_size};
use command_core::{AckMode, Fault, Member};
use line_core::{Flight, Message, SettleFault, size};
use std::alloc::{AllocError, Global};
use waiting_order::{Order, Sought};

/// What decides whether a message that is not acknowledged finds room: its bytes, and those that it has in the queue of
/// refused messages. It has none there if it is dropped once it is refused.
#[derive(Clone, Copy)]
struct PrecheckSize {
    bytes: u64,
    refused: Option<u32>,
}

/// A subscription of the session, with the sizes of its deliveries in place of their messages.
#[derive(Drop)]
struct PrecheckFlight {
    mode: AckMode,
    deliveries: Flight<PrecheckSize>,
}

/// What decides whether members are refused: how much would be held, and the subscriptions of the session.
#[derive(Drop)]
struct Precheck {
    held: Held,
    flights: Vec<PrecheckFlight>,
}

/// The sizes of a message of a subscription. `own` says whether that has a line of its own.
fn sized(own: bool, message: &Message) -> PrecheckSize
    ensures { result ≡ sized own message.now }
{
    let refused = if is_dropped(own, message) {
        None
    } else {
        Some(refused_size(&message.sending) as u32)
    };
    PrecheckSize {
        bytes: size(&message.sending) as u64,
        refused,
    }
}

/// The deliveries with the sizes of their messages alone.
fn sizes_of(
    alloc: Global,
    own: bool,
    flight: &Flight<Message>,
) -> Result<Flight<PrecheckSize>, AllocError>
    ensures { IfOk result (λ sizes. sizes ≡ mapped (sized own) flight.now) }
{
    let mut sizes = Flight::new(alloc);
    for (delivery, message) in flight.as_slice() {
        sizes.add(*delivery, sized(own, message))?;
    }
    Ok(sizes)
}

/// A subscription with the sizes of its deliveries.
fn flight_of(alloc: Global, sub: &Subscription) -> Result<PrecheckFlight, AllocError>
    ensures { IfOk result (λ flight. flight ≡ flight_of sub.now) }
{
    let deliveries = sizes_of(alloc, sub.has_own_line(), &sub.unacknowledged)?;
    Ok(PrecheckFlight {
        mode: sub.mode,
        deliveries,
    })
}

/// The subscriptions of the session, in waiting order.
fn flights_of(alloc: Global, order: &Order, session: u64) -> Result<Vec<PrecheckFlight>, AllocError>
    requires tickets { order.now.next < 2 ^ 64 }
    ensures { IfOk result (λ flights. flights.items ≡ flights_of session (subs_of order.now.all)) }
{
    let mut flights = Vec::new(alloc);
    let mut from = 0;
    while let Some(place) = order.next_of(session, Sought::Any, from) {
        let flight = flight_of(alloc, order.get(place.key))?;
        flights.push(flight)?;
        from = place.ticket + 1;
    }
    Ok(flights)
}

/// Where the flight stands that has the delivery of that number.
fn find_flight(flights: &[PrecheckFlight], delivery: u64) -> Option<usize>
    ensures { MatchOption result (NonePass (has delivery) flights.now) (λ at. IsFirst (has delivery) flights.now at) }
{
    for at in 0..flights.len() {
        if flights[at].deliveries.contains(delivery) {
            return Some(at);
        }
    }
    None
}

/// The bytes of settled deliveries, which are held.
fn sum_of(settled: &[(u64, PrecheckSize)]) -> u64
    requires { sum_by (λ item. item.1.bytes) settled.now ≤ 16777216 }
    ensures { result ≡ sum_by (λ item. item.1.bytes) settled.now }
{
    let mut bytes = 0;
    for (_, size) in settled {
        bytes += size.bytes;
    }
    bytes
}

/// How many of settled deliveries are kept if they are refused.
fn kept_of(settled: &[(u64, PrecheckSize)]) -> u64
    ensures kept { result ≡ kept_in settled.now }
    ensures few { result ≤ length settled.now }
{
    let mut kept = 0;
    for (_, size) in settled {
        if let Some(_there) = size.refused {
            kept += 1;
        }
    }
    kept
}

/// The bytes that those have in the queue of refused messages.
fn kept_bytes_of(settled: &[(u64, PrecheckSize)]) -> u64
    requires few { length settled.now ≤ 4096 }
    ensures bytes { result ≡ kept_bytes_in settled.now }
    ensures small { result < 2 ^ 45 }
{
    let mut bytes = 0;
    for (_, size) in settled {
        if let Some(there) = size.refused {
            bytes += there as u64;
        }
    }
    bytes
}

/// The flight in that place has a delivery acknowledged, which it has. Gives what is settled.
fn settle_at(
    flights: &mut Vec<PrecheckFlight>,
    at: usize,
    delivery: u64,
) -> Result<Vec<(u64, PrecheckSize)>, AllocError>
    requires place { at < length flights.old.items }
    requires known { (flight : PrecheckFlight) → slice_get flights.old.items at ≡ Some flight → has delivery flight ≡ true }
    ensures settled { IfOk result (λ out. (flight : PrecheckFlight) → slice_get flights.old.items at ≡ Some flight
        → out.items ≡ settled flight.mode delivery flight.deliveries) }
    ensures left { OnOk result (flights.new.items ≡ changed at (left_by delivery) flights.old.items) }
{
    let flight = &mut flights[at];
    match flight.deliveries.settle(flight.mode, delivery) {
        Ok(settled) => Ok(settled),
        Err(SettleFault::Memory(refused)) => Err(refused),
        Err(SettleFault::Unknown) => unreachable!(),
    }
}

/// A delivery is settled in a precheck, with the others that its mode settles, and these are given. If no flight has the
/// delivery, nothing is given, and nothing changes.
fn precheck_settle(
    precheck: &mut Precheck,
    delivery: u64,
) -> Result<Option<Vec<(u64, PrecheckSize)>>, AllocError>
    requires held { HoldsFlights precheck.old }
    ensures found { IfOk result (λ found. is_some found ≡ list_any (has delivery) precheck.old.flights.items) }
    ensures settles { IfOk result (λ found. IfSome found (λ out. SettlesFlight delivery precheck.old precheck.new out.items)) }
    ensures flights { OnOk result (precheck.new.flights.items ≡ with_first (has delivery) (left_by delivery) precheck.old.flights.items) }
{
    let Some(at) = find_flight(precheck.flights.as_slice(), delivery) else {
        return Ok(None);
    };
    let settled = settle_at(&mut precheck.flights, at, delivery)?;
    precheck.held.messages -= settled.len() as u64;
    precheck.held.bytes -= sum_of(settled.as_slice());
    Ok(Some(settled))
}

/// A delivery is acknowledged in a precheck. This is refused if no flight has it, and then nothing changes.
fn precheck_acknowledge(
    precheck: &mut Precheck,
    delivery: u64,
) -> Result<Result<(), Fault>, AllocError>
    requires { (session : ℕ) × (durables : List (Name × List ℕ)) × (subs : List Subscription) × (s : State)
        × StandsFor session durables subs precheck.old s }
    ensures { IfOk result (λ r. (session : ℕ) (durables : List (Name × List ℕ)) (subs : List Subscription) (s : State)
        → StandsFor session durables subs precheck.old s
        → Leads session durables subs precheck.new r (acknowledged s session delivery)) }
{
    let Some(_settled) = precheck_settle(precheck, delivery)? else {
        return Ok(Err(Fault::UnknownAcknowledgement));
    };
    Ok(Ok(()))
}

/// A delivery is refused in a precheck, by the rule that keeps. The NACK is refused if no flight has the delivery, or if what
/// is kept finds no room once all that is settled has gone.
fn precheck_refuse(precheck: &mut Precheck, delivery: u64) -> Result<Result<(), Fault>, AllocError>
    requires { (session : ℕ) × (durables : List (Name × List ℕ)) × (subs : List Subscription) × (s : State)
        × StandsFor session durables subs precheck.old s }
    ensures { IfOk result (λ r. (session place : ℕ) (durables : List (Name × List ℕ)) (subs : List Subscription) (s : State)
        → StandsFor session durables subs precheck.old s
        → Leads session durables subs precheck.new r (nacked Keeps s session place delivery)) }
{
    let Some(settled) = precheck_settle(precheck, delivery)? else {
        return Ok(Err(Fault::UnknownAcknowledgement));
    };
    let bytes = kept_bytes_of(settled.as_slice());
    if precheck.held.bytes + bytes > MOST_BYTES {
        return Ok(Err(Fault::NoRoom));
    }
    precheck.held.messages += kept_of(settled.as_slice());
    precheck.held.bytes += bytes;
    Ok(Ok(()))
}

/// A delivery is refused in a precheck, by that rule.
fn precheck_nack(
    precheck: &mut Precheck,
    rule: NackRule,
    delivery: u64,
) -> Result<Result<(), Fault>, AllocError>
    requires { (session : ℕ) × (durables : List (Name × List ℕ)) × (subs : List Subscription) × (s : State)
        × StandsFor session durables subs precheck.old s }
    ensures { IfOk result (λ r. (session place : ℕ) (durables : List (Name × List ℕ)) (subs : List Subscription) (s : State)
        → StandsFor session durables subs precheck.old s
        → Leads session durables subs precheck.new r (nacked rule s session place delivery)) }
{
    match rule {
        NackRule::Drops => precheck_acknowledge(precheck, delivery),
        NackRule::Keeps => precheck_refuse(precheck, delivery),
    }
}

/// So many copies of so many bytes are kept in a precheck. They are refused if they find no room, and then nothing changes.
fn precheck_send(precheck: &mut Precheck, copies: u64, size: u64) -> Result<(), Fault>
    requires size { size < 2 ^ 21 }
    requires few { precheck.old.held.messages ≤ 4096 }
    requires small { precheck.old.held.bytes ≤ 16777216 }
    ensures answer { result ≡ (if find_room precheck.old.held.messages precheck.old.held.bytes copies size then Ok tt else Err NoRoom) }
    ensures messages { OnOk result (precheck.new.held.messages ≡ precheck.old.held.messages + copies) }
    ensures bytes { OnOk result (precheck.new.held.bytes ≡ precheck.old.held.bytes + copies * size) }
    ensures flights { precheck.new.flights.items ≡ precheck.old.flights.items }
{
    if !find_room(&precheck.held, copies, size) {
        return Err(Fault::NoRoom);
    }
    precheck.held.messages += copies;
    precheck.held.bytes += copies * size;
    Ok(())
}

/// Whether a member is refused after those that were tried before.
fn precheck_member(
    precheck: &mut Precheck,
    rule: NackRule,
    tables: &Tables,
    member: &Member,
) -> Result<Result<(), Fault>, AllocError>
    requires { (session : ℕ) × (s : State) × StandsFor session tables.now.state.durables tables.now.state.subscriptions precheck.old s }
    ensures { IfOk result (λ r. (session place : ℕ) (s : State) → StandsFor session tables.now.state.durables tables.now.state.subscriptions precheck.old s
        → Leads session tables.now.state.durables tables.now.state.subscriptions precheck.new r (applied rule s session place member.now)) }
{
    match member {
        Member::Send(sending) => {
            let copies = copies_to(tables, sending.destination());
            Ok(precheck_send(precheck, copies, size(sending) as u64))
        }
        Member::Ack(delivery) => precheck_acknowledge(precheck, *delivery),
        Member::Nack(delivery) => precheck_nack(precheck, rule, *delivery),
    }
}

/// The precheck before the first member.
fn begin(alloc: Global, tables: &Tables, session: u64) -> Result<Precheck, AllocError>
    requires whole { tables.now.broken ≡ false }
    ensures { IfOk result (λ precheck. StandsFor session tables.now.state.durables tables.now.state.subscriptions precheck tables.now.state) }
{
    stand_in_order(tables.shared().names());
    stand_in_order(tables.shared().queues());
    let flights = flights_of(alloc, tables.order(), session)?;
    Ok(Precheck {
        held: tables.held(),
        flights,
    })
}

/// Whether the members of a transaction are refused, and with what. Nothing is carried out.
pub fn precheck_members(
    alloc: Global,
    rule: NackRule,
    tables: &Tables,
    session: u64,
    members: &[Member],
) -> Result<Result<(), Fault>, AllocError>
    requires few { length members.now ≤ 64 }
    requires whole { tables.now.broken ≡ false }
    ensures { IfOk result (λ r. r ≡ without_state (committed rule tables.now.state session 0 members.now)) }
{
    let mut precheck = begin(alloc, tables, session)?;
    for member in members {
        if let Err(fault) = precheck_member(&mut precheck, rule, tables, member)? {
            return Ok(Err(fault));
        }
    }
    Ok(Ok(()))
}
