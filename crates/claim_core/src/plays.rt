//! What each step lets the seat that makes it know. These types are for the proofs alone.

ghost use Rattle.claim_core.specs.declared.views.View.TheVariants.{Spent};
ghost use Rattle.claim_core.specs.Steps.{saw_mark, saw_stop, claimed_for, readied, took, freed, raised, stopped, ended, dealt, fresh, joined_to, handed_back, came_back, nobody};

use crate::views::{ForCommand, View};
use atomic_table::{Join, Play, Split};
use command_core::Entry;
use std::marker::PhantomData;

pub struct SeeMark;

impl<B> Play<Option<Entry<B>>, View> for SeeMark {
    ghost then = { saw_mark };
}

pub struct SeeStop;

impl<B> Play<Option<Entry<B>>, View> for SeeStop {
    ghost then = { saw_stop };
}

pub struct Claim<C> {
    marker: PhantomData<C>,
}

impl<B, C: ForCommand> Play<Option<Entry<B>>, View> for Claim<C> {
    ghost then = { claimed_for C.command };
}

pub struct Ready;

impl<B> Play<Option<Entry<B>>, View> for Ready {
    ghost then = { readied };
}

pub struct Take;

impl<B> Play<Option<Entry<B>>, View> for Take {
    ghost then = { took };
}

pub struct Free;

impl<B> Play<Option<Entry<B>>, View> for Free {
    ghost then = { freed };
}

pub struct Raise;

impl<B> Play<Option<Entry<B>>, View> for Raise {
    ghost then = { raised };
}

pub struct Stop;

impl<B> Play<Option<Entry<B>>, View> for Stop {
    ghost then = { stopped };
}

// The owner deals a seat.
pub struct Deal;

impl Split<View> for Deal {
    ghost left = { dealt };

    ghost right = { fresh };
}

// The owner takes a seat back.
pub struct Gather;

impl Join<View> for Gather {
    ghost both = { joined_to };

    ghost spent = { Spent };
}

// The owner splits off a seat that knows nothing.
pub struct StandIn;

impl Split<View> for StandIn {
    ghost left = { λ v. v };

    ghost right = { nobody };
}

// The owner hands out again the first seat that it has taken back.
pub struct HandBack;

impl Split<View> for HandBack {
    ghost left = { handed_back };

    ghost right = { came_back };
}

pub struct Leave;

impl<B> Play<Option<Entry<B>>, View> for Leave {
    ghost then = { ended };
}
