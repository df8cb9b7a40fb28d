//! A MESSAGE that is written already, for all who get it alike.

ghost use Rattle.std.specs.Prelude.{◌≡◌, ◌<◌, ◌^◌, IfOk, SomeIff, true};
ghost use Rattle.std.specs.Str.{IsUtf8};
ghost use Rattle.frame_core.specs.Written.{written};
ghost use Rattle.frame_core.specs.Writable.{Writable};
ghost use Rattle.frame_core.specs.declared.frame.Verb.TheVariants as verbs;
ghost use Rattle.command_core.specs.Outs.{bytes_in};
ghost use Rattle.command_core.specs.Deliveries.{message_of};

use crate::output::{Delivery, Written};
use bytes::Bytes as WireBytes;
use frame_core::Verb;
use std::alloc::{AllocError, Global};
use std::marker::Model;

/// A MESSAGE that is written already, and what it counts for. Contracts see its frame.
#[derive(Drop)]
pub(crate) struct Ready {
    delivery: Delivery,
    wire: WireBytes,
    is_text: bool,
    weight: Option<u64>,
}

impl Model for Ready {
    ghost use Rattle.frame_core.specs.declared.frame.Frame.{Frame};
    ghost use Rattle.command_core.specs.Ready.{IsReady, ready_frame};

    ghost Value = { Frame };

    ghost view = { ready_frame };

    ghost invariant = { IsReady };
}

impl Ready {
    /// Takes memory for the bytes. If that is refused, the delivery is let go.
    pub fn new(alloc: Global, delivery: Delivery) -> Result<Ready, AllocError>
        requires { Writable (message_of delivery) }
        ensures { IfOk result (λ ready. ready ≡ message_of delivery) }
    {
        let weight = delivery.weight();
        let Written { bytes, is_text } = delivery.write(alloc)?;
        Ok(Ready {
            delivery,
            wire: bytes,
            is_text,
            weight,
        })
    }

    /// It is a MESSAGE.
    pub fn verb(&self) -> Verb
        ensures value { result ≡ verbs.Message }
        ensures verb { self.now.verb ≡ verbs.Message }
    {
        let _delivery = &self.delivery;
        Verb::Message
    }

    /// The body.
    pub fn body(&self) -> &[u8]
        ensures { result.now ≡ self.now.body }
    {
        self.delivery.sending.body().as_slice()
    }

    /// The bytes of its body, and of its headers' names and values, or `None` if there are 2^64 or more.
    pub fn weight(&self) -> Option<u64>
        ensures { SomeIff result (bytes_in self.now < 2 ^ 64) (bytes_in self.now) }
    {
        self.weight
    }

    /// The bytes, which are shared.
    pub fn written(&self) -> Result<Written, AllocError>
        ensures bytes { IfOk result (λ it. it.bytes ≡ written self.now) }
        ensures text { IfOk result (λ it. it.is_text ≡ true → IsUtf8 it.bytes) }
    {
        let bytes = self.wire.clone()?;
        Ok(Written {
            bytes,
            is_text: self.is_text,
        })
    }
}
