//! The steps on the ring's words. Each keeps the rule of the ring.

ghost use Rattle.std.specs.Prelude.{◌≡◌, ◌<◌, ◌≤◌, ◌^◌, List, [], ◌∷◌, None, Some, false};
ghost use mathlib.Core.Option.{none};
ghost use Rattle.atomic_table.specs.Table.{step};
ghost use Rattle.claim_core.specs.declared.views.Claimer.{Claimer};
ghost use Rattle.claim_core.specs.declared.views.Owner.{Owner};
ghost use Rattle.claim_core.specs.declared.views.View.TheVariants.{Owns, Claims, Spent};
ghost use Rattle.claim_core.specs.Places.{ready_at, taken_at};
ghost use Rattle.claim_core.specs.Steps.{saw_mark, saw_stop, claimed, readied, took, freed, raised, stopped, ended, dealt, fresh, joined_to, handed_back, came_back, nobody, next_of, MayClaim, MayFill, MayFree, MayRaise, IsAt, IsPlaceOf};

use crate::plays::{
    Claim, Deal, Free, Gather, HandBack, Leave, Raise, Ready, SeeMark, SeeStop, StandIn, Stop, Take,
};
use crate::views::{Board, ForCommand, TableSeat};
use command_core::Entry;
use std::marker::Brand;

// The words: the next ticket, the mark, whether the ring is stopped, and from here on one for each place.
const TAIL: usize = 0;

const MARK: usize = 1;

const STOP: usize = 2;

const FIRST_PLACE: usize = 3;

// A session's seat loads the mark.
pub fn load_mark<B>(board: &Board<B>, seat: &mut TableSeat<B>) -> u64
    requires claimer { (c : Claimer) × (seat.old.me.0 ≡ Claims c) }
    requires fits { IsAt seat.old.table_id board.now.table_id }
    ensures ring { seat.new.table_id ≡ seat.old.table_id }
    ensures told { saw_mark (step 0 0 0 0 none) seat.old.me result seat.new.me }
{
    board.load::<SeeMark>(seat, MARK)
}

// A session's seat loads the stop word.
pub fn load_stop<B>(board: &Board<B>, seat: &mut TableSeat<B>) -> u64
    requires claimer { (c : Claimer) × (seat.old.me.0 ≡ Claims c) }
    requires fits { IsAt seat.old.table_id board.now.table_id }
    ensures ring { seat.new.table_id ≡ seat.old.table_id }
    ensures told { saw_stop (step 0 0 0 0 none) seat.old.me result seat.new.me }
{
    board.load::<SeeStop>(seat, STOP)
}

// The addition carries no value, so the command that the ticket is claimed for comes by a type.
fn claim_as<B, C: ForCommand>(board: &Board<B>, seat: &mut TableSeat<B>, entry: &Entry<B>) -> u64
    requires fits { IsAt seat.old.table_id board.now.table_id }
    requires told { C.command ≡ Some entry.now.command }
    requires may { MayClaim board.now.key.window seat.old.me.0 }
    ensures ring { seat.new.table_id ≡ seat.old.table_id }
    ensures told { claimed entry.now.command (step board.now.table_id.slots 0 1 0 none) seat.old.me result seat.new.me }
{
    board.fetch_add::<Claim<C>>(seat, TAIL, 1)
}

// Claims the next ticket for the entry, and takes its place.
pub fn claim<B>(board: &Board<B>, seat: &mut TableSeat<B>, entry: &Entry<B>) -> u64
    requires fits { IsAt seat.old.table_id board.now.table_id }
    requires may { MayClaim board.now.key.window seat.old.me.0 }
    ensures ring { seat.new.table_id ≡ seat.old.table_id }
    ensures told { claimed entry.now.command (step board.now.table_id.slots 0 1 0 none) seat.old.me result seat.new.me }
{
    claim_as::<B, Brand>(board, seat, entry)
}

// Puts the entry into the place of the pending ticket, and makes it ready.
pub fn ready<B>(
    board: &Board<B>,
    seat: &mut TableSeat<B>,
    ticket: u64,
    place: usize,
    entry: Entry<B>,
)
    requires fits { IsAt seat.old.table_id board.now.table_id }
    requires place { IsPlaceOf ticket place board.now.table_id.slots × (ready_at ticket < 2 ^ 64) }
    requires claimed { MayFill ticket place entry seat.old.me }
    ensures ring { seat.new.table_id ≡ seat.old.table_id }
    ensures told { readied (step 0 0 0 0 none) seat.old.me 0 seat.new.me }
{
    match board.exchange(seat, place, Some(entry)) {
        None => {}
        Some(_) => unreachable!(),
    }
    board.store::<Ready>(seat, FIRST_PLACE + place, 3 * ticket + 1);
}

// The flusher's seat takes the place of the next ticket, if that is ready: then the answer is `ready_at ticket`.
pub fn hold<B>(board: &Board<B>, seat: &mut TableSeat<B>, ticket: u64, place: usize) -> u64
    requires fits { IsAt seat.old.table_id board.now.table_id }
    requires place { IsPlaceOf ticket place board.now.table_id.slots × (taken_at ticket < 2 ^ 64) }
    requires owner { (o : Owner) × (seat.old.me.0 ≡ Owns o) × (o.held ≡ false) × (ticket ≡ next_of o) }
    ensures ring { seat.new.table_id ≡ seat.old.table_id }
    ensures told { took (step board.now.table_id.slots 0 (ready_at ticket) 0 none) seat.old.me result seat.new.me }
{
    board.compare_exchange::<Take>(seat, FIRST_PLACE + place, 3 * ticket + 1, 3 * ticket + 2)
}

// Frees the place of the ticket that was taken last, for the ticket of the next round.
pub fn free<B>(board: &Board<B>, seat: &mut TableSeat<B>, ticket: u64, place: usize, places: u64)
    requires fits { IsAt seat.old.table_id board.now.table_id × (places ≡ board.now.table_id.slots) }
    requires place { IsPlaceOf ticket place board.now.table_id.slots × (ticket < 2 ^ 62) × (places ≤ 4096) }
    requires owner { MayFree ticket place seat.old.me }
    ensures ring { seat.new.table_id ≡ seat.old.table_id }
    ensures told { freed (step 0 0 0 0 none) seat.old.me 0 seat.new.me }
{
    board.store::<Free>(seat, FIRST_PLACE + place, 3 * (ticket + places));
}

pub fn raise<B>(board: &Board<B>, seat: &mut TableSeat<B>, mark: u64)
    requires fits { IsAt seat.old.table_id board.now.table_id }
    requires owner { MayRaise mark seat.old.me.0 }
    ensures ring { seat.new.table_id ≡ seat.old.table_id }
    ensures told { raised (step 0 0 0 0 none) seat.old.me mark seat.new.me }
{
    board.store::<Raise>(seat, MARK, mark);
}

pub fn stop<B>(board: &Board<B>, seat: &mut TableSeat<B>)
    requires fits { IsAt seat.old.table_id board.now.table_id }
    requires owner { (o : Owner) × (seat.old.me.0 ≡ Owns o) × (o.held ≡ false) }
    ensures ring { seat.new.table_id ≡ seat.old.table_id }
    ensures told { stopped (step 0 0 0 0 none) seat.old.me 1 seat.new.me }
{
    board.store::<Stop>(seat, STOP, 1);
}

// The owner deals a session's seat.
pub fn deal<B>(board: &Board<B>, seat: &mut TableSeat<B>) -> TableSeat<B>
    requires fits { IsAt seat.old.table_id board.now.table_id }
    requires owner { (o : Owner) × (seat.old.me.0 ≡ Owns o) × (o.count < board.now.key.seats) }
    ensures ring { seat.new.table_id ≡ seat.old.table_id }
    ensures told { seat.new.me ≡ (dealt seat.old.me.0, seat.old.me.1) }
    ensures new { (result.table_id ≡ seat.old.table_id) × (result.me ≡ (fresh seat.old.me.0, [])) }
{
    board.split_seat::<Deal>(seat)
}

// The owner takes a session's seat back.
pub fn gather<B>(board: &Board<B>, seat: &mut TableSeat<B>, other: TableSeat<B>)
    requires fits { IsAt seat.old.table_id board.now.table_id × (other.table_id ≡ board.now.table_id) }
    requires owner { (o : Owner) × (seat.old.me.0 ≡ Owns o) }
    requires other { (c : Claimer) × (other.me ≡ (Claims c, [])) × (c.pending ≡ None) }
    ensures ring { seat.new.table_id ≡ seat.old.table_id }
    ensures told { (seat.new.me ≡ (joined_to seat.old.me.0 other.me.0, seat.old.me.1)) }
{
    board.join_seat::<Gather>(seat, other);
}

// The owner splits off a seat that knows nothing, to stand in another's place.
pub fn stand_in<B>(board: &Board<B>, seat: &mut TableSeat<B>) -> TableSeat<B>
    requires fits { IsAt seat.old.table_id board.now.table_id }
    requires owner { (o : Owner) × (seat.old.me.0 ≡ Owns o) }
    ensures ring { seat.new.table_id ≡ seat.old.table_id }
    ensures told { seat.new.me ≡ (seat.old.me.0, seat.old.me.1) }
    ensures new { (result.table_id ≡ seat.old.table_id) × (result.me ≡ (nobody seat.old.me.0, [])) }
{
    board.split_seat::<StandIn>(seat)
}

// The owner hands out again, as it came, the first seat that it has taken back.
pub fn hand_back<B>(board: &Board<B>, seat: &mut TableSeat<B>) -> TableSeat<B>
    requires fits { IsAt seat.old.table_id board.now.table_id }
    requires owner { (o : Owner) × (c : Claimer) × (cs : List Claimer) × (seat.old.me.0 ≡ Owns o) × (o.joined ≡ c ∷ cs) }
    ensures ring { seat.new.table_id ≡ seat.old.table_id }
    ensures told { seat.new.me ≡ (handed_back seat.old.me.0, seat.old.me.1) }
    ensures new { (result.table_id ≡ seat.old.table_id) × (result.me ≡ (came_back seat.old.me.0, [])) }
{
    board.split_seat::<HandBack>(seat)
}

// The owner loads the next ticket, and learns what is known of the seats that it has taken back.
pub fn load_tail<B>(board: &Board<B>, seat: &mut TableSeat<B>) -> u64
    requires fits { IsAt seat.old.table_id board.now.table_id }
    requires owner { (o : Owner) × (seat.old.me.0 ≡ Owns o) }
    ensures ring { seat.new.table_id ≡ seat.old.table_id }
    ensures told { ended (step 0 0 0 0 none) seat.old.me result seat.new.me }
{
    board.load::<Leave>(seat, TAIL)
}
