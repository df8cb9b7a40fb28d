//! The frames that a client sends.

ghost use Rattle.std.specs.Prelude.{◌≡◌, ◌++◌, ◌∷◌, [], IfErr, IfOk, OnOk, codes, decimal, length};
ghost use Rattle.frame_core.specs.Written.{written};
ghost use Rattle.client_core.specs.Requests.{ack_frame, asked_frame, connect_frame, forget_frame, line_frame, send_frame, subscribe_frame, texts};
ghost use Rattle.client_core.specs.Talks.{IsOfPeer};

use crate::fault::Cause;
use crate::plan::{Outgoing, Plan};
use frame_core::{Bytes, Frame, Headers, Text, Verb, writable, write_frame};
use std::alloc::Global;

/// CONNECT to a virtual host, perhaps with a `client-id`.
pub fn connect_text(alloc: Global, host: &str, client: Option<&str>) -> Result<Vec<u8>, Cause>
    ensures ok { IfOk result (λ text. text.items ≡ written (connect_frame host.now client.entry)) }
    ensures cause { IfErr result IsOfPeer }
{
    let mut headers = Vec::new(alloc);
    add(alloc, &mut headers, "accept-version", "1.2")?;
    add(alloc, &mut headers, "host", host)?;
    if let Some(client) = client {
        add(alloc, &mut headers, "client-id", client)?;
    }
    spelled(alloc, Verb::Connect, headers, b"")
}

/// SEND of a message, with a receipt.
pub fn send_text(alloc: Global, message: &Outgoing<'_>) -> Result<Vec<u8>, Cause>
    ensures ok { IfOk result (λ text. text.items ≡ written (send_frame message.now)) }
    ensures cause { IfErr result IsOfPeer }
{
    asked_text(alloc, "sent", message)
}

/// SEND of the line of that number, whose receipt is the number.
pub fn line_text(alloc: Global, number: u64, message: &Outgoing<'_>) -> Result<Vec<u8>, Cause>
    ensures ok { IfOk result (λ text. text.items ≡ written (line_frame number message.now)) }
    ensures cause { IfErr result IsOfPeer }
{
    match format!(in alloc; "{number}") {
        Ok(receipt) => {
            let text = asked_text(alloc, receipt.as_str(), message);
            drop(receipt);
            text
        }
        Err(_) => Err(Cause::Memory),
    }
}

// SEND of a message, with that receipt.
fn asked_text(alloc: Global, receipt: &str, message: &Outgoing<'_>) -> Result<Vec<u8>, Cause>
    ensures ok { IfOk result (λ text. text.items ≡ written (asked_frame receipt.now message.now)) }
    ensures cause { IfErr result IsOfPeer }
{
    let mut headers = Vec::new(alloc);
    add(alloc, &mut headers, "destination", message.destination)?;
    add(alloc, &mut headers, "receipt", receipt)?;
    add_length(alloc, &mut headers, message.body)?;
    add_all(alloc, &mut headers, message.headers)?;
    spelled(alloc, Verb::Send, headers, message.body)
}

/// SUBSCRIBE as a plan has it.
pub fn subscribe_text(alloc: Global, plan: &Plan<'_>) -> Result<Vec<u8>, Cause>
    ensures ok { IfOk result (λ text. text.items ≡ written (subscribe_frame plan.now)) }
    ensures cause { IfErr result IsOfPeer }
{
    let mut headers = Vec::new(alloc);
    add(alloc, &mut headers, "id", "heard")?;
    add(alloc, &mut headers, "destination", plan.destination)?;
    add(alloc, &mut headers, "ack", plan.mode())?;
    if let Some(name) = plan.name {
        add(alloc, &mut headers, "activemq.subscriptionName", name)?;
    }
    spelled(alloc, Verb::Subscribe, headers, b"")
}

/// UNSUBSCRIBE that gives up a durable name, with a receipt.
pub fn forget_text(alloc: Global, name: &str) -> Result<Vec<u8>, Cause>
    ensures ok { IfOk result (λ text. text.items ≡ written (forget_frame name.now)) }
    ensures cause { IfErr result IsOfPeer }
{
    let mut headers = Vec::new(alloc);
    add(alloc, &mut headers, "activemq.subscriptionName", name)?;
    add(alloc, &mut headers, "receipt", "sent")?;
    spelled(alloc, Verb::Unsubscribe, headers, b"")
}

/// ACK of the delivery with that number.
pub fn ack_text(alloc: Global, delivery: &str) -> Result<Vec<u8>, Cause>
    ensures ok { IfOk result (λ text. text.items ≡ written (ack_frame delivery.now)) }
    ensures cause { IfErr result IsOfPeer }
{
    let mut headers = Vec::new(alloc);
    add(alloc, &mut headers, "id", delivery)?;
    spelled(alloc, Verb::Ack, headers, b"")
}

/// Adds a header.
pub(crate) fn add(
    alloc: Global,
    headers: &mut Vec<(Text, Text)>,
    name: &str,
    value: &str,
) -> Result<(), Cause>
    ensures ok { OnOk result (headers.new.items ≡ headers.old.items ++ (name.now, value.now) ∷ []) }
    ensures cause { IfErr result IsOfPeer }
{
    let Ok(name) = Text::copy(alloc, name) else {
        return Err(Cause::Memory);
    };
    let Ok(value) = Text::copy(alloc, value) else {
        drop(name);
        return Err(Cause::Memory);
    };
    match headers.push((name, value)) {
        Ok(()) => Ok(()),
        Err(_) => Err(Cause::Memory),
    }
}

/// Adds the length of a body.
pub(crate) fn add_length(
    alloc: Global,
    headers: &mut Vec<(Text, Text)>,
    body: &[u8],
) -> Result<(), Cause>
    ensures ok { OnOk result (headers.new.items ≡ headers.old.items ++ (codes "content-length", decimal (length body.now)) ∷ []) }
    ensures cause { IfErr result IsOfPeer }
{
    match format!(in alloc; "{}", body.len()) {
        Ok(length) => {
            let added = add(alloc, headers, "content-length", length.as_str());
            drop(length);
            added
        }
        Err(_) => Err(Cause::Memory),
    }
}

// Adds headers in their order.
fn add_all(
    alloc: Global,
    headers: &mut Vec<(Text, Text)>,
    given: &[(&str, &str)],
) -> Result<(), Cause>
    ensures ok { OnOk result (headers.new.items ≡ headers.old.items ++ texts given.now) }
    ensures cause { IfErr result IsOfPeer }
{
    for (name, value) in given {
        add(alloc, headers, name, value)?;
    }
    Ok(())
}

/// The bytes of a frame, if it can be written.
pub(crate) fn spelled(
    alloc: Global,
    verb: Verb,
    headers: Vec<(Text, Text)>,
    body: &[u8],
) -> Result<Vec<u8>, Cause>
    ensures ok { IfOk result (λ text. text.items ≡ written (record { verb = verb; headers = headers.items; body = body.now })) }
    ensures cause { IfErr result IsOfPeer }
{
    let Ok(body) = body.to_vec(alloc) else {
        drop(headers);
        return Err(Cause::Memory);
    };
    let frame = Frame {
        verb,
        headers: Headers::new(headers),
        body: Bytes::new(body),
    };
    let text = text_of(alloc, &frame);
    drop(frame);
    text
}

fn text_of(alloc: Global, frame: &Frame) -> Result<Vec<u8>, Cause>
    ensures ok { IfOk result (λ text. text.items ≡ written frame.now) }
    ensures cause { IfErr result IsOfPeer }
{
    if !writable(frame) {
        return Err(Cause::Unwritable);
    }
    match write_frame(alloc, frame) {
        Ok(text) => Ok(text),
        Err(_) => Err(Cause::Memory),
    }
}
