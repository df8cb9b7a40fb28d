//! What a SEND asks for.

ghost use Rattle.std.specs.Prelude.{◌≡◌, ◌≤◌, IfOk, IsTrue, length};
ghost use Rattle.std.specs.Str.{IsUtf8};
ghost use Rattle.command_core.specs.SendingForms.{KnowsText, of_parts};
ghost use Rattle.std.specs.List.{AllByRecursion};
ghost use Rattle.command_core.specs.Sendings.{IsKept, IsSending, is_kept};

use crate::destination::Dest;
use frame_core::{Bytes, Headers};
use std::alloc::{AllocError, Global};
use std::marker::Model;
use std::sync::Arc;

// The parts of what is sent.
#[derive(Drop)]
pub(crate) struct Parts {
    destination: Dest,
    headers: Headers,
    body: Bytes,
    // Whether the body is known to be UTF-8.
    is_text: bool,
}

// How what is sent is kept: in parts of its own, or in some that several share.
#[derive(Drop)]
pub(crate) enum SendingForm {
    Own(Parts),
    Shared(Arc<Parts>),
}

/// What is sent where: a destination, the headers that go on with the message, and a body (STOMP 1.2, "SEND"). At most
/// 64 headers, each a name that isn't empty and a value, both fit for a header; at most 65,536 bytes of body. A clone
/// copies all that, unless it is shared.
pub struct Sending {
    form: SendingForm,
}

impl Model for Sending {
    ghost use Rattle.command_core.specs.SendingForms.{KnowsText, parts_of, sending_of};
    ghost use Rattle.command_core.specs.Sendings.{SendingValue, IsSending};

    ghost Value = { SendingValue };

    ghost view = { λ a. sending_of a.form };

    ghost invariant = { λ a. IsSending (sending_of a.form) × KnowsText (parts_of a.form) };
}

impl Parts {
    // The same parts, of which it is known whether the body is UTF-8.
    fn looked_at(self) -> Parts
        ensures value { of_parts result ≡ of_parts self }
        ensures text { KnowsText result }
    {
        let is_text = str::from_utf8(self.body.as_slice()).is_ok();
        Parts { is_text, ..self }
    }
}

/// Whether a message keeps the headers of that name. It doesn't keep those that the broker has used up, or writes
/// itself: `destination`, `receipt`, `transaction`, `content-length`, `subscription`, `message-id` and `ack`.
pub fn is_kept_name(name: &str) -> bool
    ensures { result ≡ is_kept name.now }
{
    !matches!(
        name,
        "destination"
            | "receipt"
            | "transaction"
            | "content-length"
            | "subscription"
            | "message-id"
            | "ack"
    )
}

impl Sending {
    /// No memory is taken.
    pub fn new(destination: Dest, headers: Headers, body: Bytes) -> Sending
        requires few { length headers ≤ 64 }
        requires each { AllByRecursion IsKept headers }
        requires short { length body ≤ 65536 }
        ensures { result ≡ record { destination = destination; headers = headers; body = body } }
    {
        let _form = destination.as_str();
        let parts = Parts {
            destination,
            headers,
            body,
            is_text: false,
        };
        Sending {
            form: SendingForm::Own(parts),
        }
    }

    /// Where it is sent.
    pub fn destination(&self) -> &Dest
        ensures value { result.now ≡ self.now.destination }
        ensures form { IsSending self.now }
    {
        match &self.form {
            SendingForm::Own(parts) => &parts.destination,
            SendingForm::Shared(parts) => &parts.destination,
        }
    }

    /// The headers that its MESSAGEs carry, in their order.
    pub fn headers(&self) -> &Headers
        ensures value { result.now ≡ self.now.headers }
        ensures form { IsSending self.now }
    {
        match &self.form {
            SendingForm::Own(parts) => &parts.headers,
            SendingForm::Shared(parts) => &parts.headers,
        }
    }

    /// The body.
    pub fn body(&self) -> &Bytes
        ensures value { result.now ≡ self.now.body }
        ensures form { IsSending self.now }
    {
        match &self.form {
            SendingForm::Own(parts) => &parts.body,
            SendingForm::Shared(parts) => &parts.body,
        }
    }

    /// The same, whose clones share it from now on. Whether its body is UTF-8 is looked at once, here. If memory is refused for
    /// that, it is gone.
    pub fn share(self, alloc: Global) -> Result<Sending, AllocError>
        ensures { IfOk result (λ shared. shared ≡ self) }
    {
        let Sending { form } = self;
        match form {
            SendingForm::Own(parts) => {
                let parts = Arc::new(alloc, parts.looked_at())?;
                Ok(Sending {
                    form: SendingForm::Shared(parts),
                })
            }
            form => Ok(Sending { form }),
        }
    }

    /// The same, as a value whose clones share it and that is known to be shared. If memory is refused for that, it is gone.
    pub fn into_shared(self, alloc: Global) -> Result<SharedSending, AllocError>
        ensures { IfOk result (λ shared. shared ≡ self) }
    {
        let _form = self.destination();
        let Sending { form } = self;
        let parts = match form {
            SendingForm::Own(parts) => Arc::new(alloc, parts.looked_at())?,
            SendingForm::Shared(parts) => parts,
        };
        Ok(SharedSending { parts })
    }

    /// The same, sent to that destination instead. No memory is taken, unless it is shared: then headers and body are
    /// copied. If memory is refused for that, it is gone.
    pub fn redirect(self, destination: Dest) -> Result<Sending, AllocError>
        ensures { IfOk result (λ other. other ≡ record self { destination = destination }) }
    {
        let _form = self.destination();
        let Sending { form } = self;
        match form {
            SendingForm::Own(parts) => Ok(Sending::new(destination, parts.headers, parts.body)),
            SendingForm::Shared(parts) => {
                let (headers, body) = copy_rest(&parts)?;
                Ok(Sending::new(destination, headers, body))
            }
        }
    }
}

/// What is sent, shared by all who have it: one word. Whether its body is UTF-8 was looked at once, as it was shared.
#[derive(Drop)]
pub struct SharedSending {
    parts: Arc<Parts>,
}

impl Model for SharedSending {
    ghost use Rattle.std.specs.Arc.{arc_value};
    ghost use Rattle.command_core.specs.SendingForms.{KnowsText, of_parts};
    ghost use Rattle.command_core.specs.Sendings.{SendingValue, IsSending};

    ghost Value = { SendingValue };

    ghost view = { λ a. of_parts (arc_value a.parts) };

    ghost invariant = { λ a. IsSending (of_parts (arc_value a.parts)) × KnowsText (arc_value a.parts) };
}

impl SharedSending {
    /// Where it is sent.
    pub fn destination(&self) -> &Dest
        ensures value { result.now ≡ self.now.destination }
        ensures form { IsSending self.now }
    {
        &self.parts.destination
    }

    /// The headers that its MESSAGEs carry, in their order.
    pub fn headers(&self) -> &Headers
        ensures value { result.now ≡ self.now.headers }
        ensures form { IsSending self.now }
    {
        &self.parts.headers
    }

    /// The body.
    pub fn body(&self) -> &Bytes
        ensures value { result.now ≡ self.now.body }
        ensures form { IsSending self.now }
    {
        &self.parts.body
    }

    /// Whether the body is known to be UTF-8.
    pub fn is_text(&self) -> bool
        ensures { IsTrue result → IsUtf8 self.now.body }
    {
        self.parts.is_text
    }
}

// Written out, so that dropping it is one step, and not one for each form.
impl Drop for Sending {
    fn drop(self) {
        let Sending { form } = self;
        drop(form);
    }
}

fn copy_rest(parts: &Parts) -> Result<(Headers, Bytes), AllocError>
    ensures headers { IfOk result (λ copy. copy.0 ≡ parts.now.headers) }
    ensures body { IfOk result (λ copy. copy.1 ≡ parts.now.body) }
{
    let headers = parts.headers.clone()?;
    let body = parts.body.clone()?;
    Ok((headers, body))
}

fn copy_parts(parts: &Parts) -> Result<Parts, AllocError>
    ensures { IfOk result (λ copy. copy ≡ parts.now) }
{
    let destination = parts.destination.clone()?;
    let (headers, body) = copy_rest(parts)?;
    Ok(Parts {
        destination,
        headers,
        body,
        is_text: parts.is_text,
    })
}

impl Clone for Sending {
    ghost use Rattle.std.specs.Prelude.{◌≡◌};

    ghost is_clone = { λ old copy. copy ≡ old };

    fn clone(&self) -> Result<Sending, AllocError> {
        let form = match &self.form {
            SendingForm::Own(parts) => SendingForm::Own(copy_parts(parts)?),
            SendingForm::Shared(parts) => SendingForm::Shared(parts.clone()?),
        };
        Ok(Sending { form })
    }
}
