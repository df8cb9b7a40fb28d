//! The record of a command: how it stands in the journal.

ghost use Rattle.std.specs.Prelude.{◌≡◌, ◌<◌, ◌≤◌, ◌^◌, ◌∷◌, ◌++◌, IfOk, OnOk, length, IfSome, ◌*◌, ◌+◌, SomeIff};
ghost use Rattle.std.specs.Int.{w64, to_be_bytes};
ghost use Rattle.std.specs.List.{AllByRecursion, sum_by};
ghost use Rattle.command_core.specs.PartSpellings.{IsSent, sending as spelled_sending, IsText, AreBytes, AreTexts, counted, optional};
ghost use Rattle.command_core.specs.Spellings.{Spells, IsMember, IsOperation, member as record_of_member, operation as record_of_op};
ghost use Rattle.command_core.specs.Spellings as records;
ghost use Rattle.command_core.specs.PartSpellings as parts;
ghost use Rattle.command_core.specs.declared.command.Op.TheVariants.{Subscribe, Unsubscribe};
ghost use Rattle.command_core.specs.Destinations.{IsDestination};
ghost use Rattle.command_core.specs.Sendings.{IsKept};
ghost use Rattle.command_core.specs.Sizes.{op_size as size_of_op, member_size as size_of_member};
ghost use Rattle.command_core.specs.PartSizes.{text_size, option_size, headers_size, sending_size};
ghost use Rattle.command_core.specs.Outs.{header_bytes};

use crate::command::{AckMode, Command, End, Member, Op};
use crate::destination::{Dest, HeaderText};
use crate::sending::Sending;
use frame_core::Text;
use std::alloc::{AllocError, Global};

// A kind and a number of eight bytes.
fn put_numbered(out: &mut Vec<u8>, kind: u8, number: u64) -> Result<(), AllocError>
    ensures put { OnOk result (out.new.items ≡ out.old.items ++ kind ∷ to_be_bytes w64 number) }
    ensures form { number < 2 ^ 64 }
{
    out.push(kind)?;
    out.extend_from_slice(&number.to_be_bytes())
}

fn put_message(out: &mut Vec<u8>, sending: &Sending) -> Result<(), AllocError>
    ensures put { OnOk result (out.new.items ≡ out.old.items ++ 2 ∷ spelled_sending sending.now) }
    ensures form { OnOk result (IsSent sending.now) }
{
    out.push(2)?;
    put_sending(out, sending)
}

fn put_member(out: &mut Vec<u8>, member: &Member) -> Result<(), AllocError>
    ensures put { OnOk result (out.new.items ≡ out.old.items ++ records.member member.now) }
    ensures form { OnOk result (IsMember member.now) }
{
    match member {
        Member::Send(sending) => put_message(out, sending),
        Member::Ack(delivery) => put_numbered(out, 5, *delivery),
        Member::Nack(delivery) => put_numbered(out, 6, *delivery),
    }
}

fn put_members(out: &mut Vec<u8>, members: &[Member]) -> Result<(), AllocError>
    requires { length members.now ≤ 64 }
    ensures put { OnOk result (out.new.items ≡ out.old.items ++ records.members members.now) }
    ensures form { OnOk result (AllByRecursion IsMember members.now) }
{
    out.extend_from_slice(&(members.len() as u16).to_be_bytes())?;
    for member in members {
        put_member(out, member)?;
    }
    Ok(())
}

fn put_end(out: &mut Vec<u8>, end: End) -> Result<(), AllocError>
    ensures { OnOk result (out.new.items ≡ out.old.items ++ records.end end) }
{
    match end {
        End::Bye => Ok(out.push(0)?),
        End::Lost => Ok(out.push(1)?),
        End::Bad(fault) => out.extend_from_slice(&[2, fault.code()]),
    }
}

fn put_subscription(
    out: &mut Vec<u8>,
    id: &HeaderText,
    destination: &Dest,
    mode: AckMode,
    durable: &Option<HeaderText>,
) -> Result<(), AllocError>
    ensures put { OnOk result (out.new.items ≡ out.old.items ++ records.operation (Subscribe id.now destination.now mode durable.now)) }
    ensures form { OnOk result (IsOperation (Subscribe id.now destination.now mode durable.now)) }
{
    out.push(3)?;
    put_text(out, id)?;
    put_destination(out, destination)?;
    out.push(mode_byte(mode))?;
    put_optional(out, durable)
}

fn put_unsubscription(
    out: &mut Vec<u8>,
    id: &Option<HeaderText>,
    durable: &Option<HeaderText>,
) -> Result<(), AllocError>
    ensures put { OnOk result (out.new.items ≡ out.old.items ++ records.operation (Unsubscribe id.now durable.now)) }
    ensures form { OnOk result (IsOperation (Unsubscribe id.now durable.now)) }
{
    out.push(4)?;
    put_optional(out, id)?;
    put_optional(out, durable)
}

fn put_operation(out: &mut Vec<u8>, op: &Op) -> Result<(), AllocError>
    ensures put { OnOk result (out.new.items ≡ out.old.items ++ records.operation op.now) }
    ensures form { OnOk result (IsOperation op.now) }
{
    match op {
        Op::Open { client_id } => {
            out.push(1)?;
            put_optional(out, client_id)
        }
        Op::Send(sending) => put_message(out, sending),
        Op::Subscribe {
            id,
            destination,
            mode,
            durable,
        } => put_subscription(out, id, destination, *mode, durable),
        Op::Unsubscribe { id, durable } => put_unsubscription(out, id, durable),
        Op::Ack(delivery) => put_numbered(out, 5, *delivery),
        Op::Nack(delivery) => put_numbered(out, 6, *delivery),
        Op::Commit(members) => {
            out.push(7)?;
            put_members(out, members.as_slice())
        }
        Op::Note => Ok(out.push(8)?),
        Op::End(end) => {
            out.push(9)?;
            put_end(out, *end)
        }
    }
}

// A command: the session, the receipt that it asks for, the operation.
fn put_command(out: &mut Vec<u8>, command: &Command) -> Result<(), AllocError>
    ensures put { OnOk result (out.new.items ≡ out.old.items ++ records.record_of command.now) }
    ensures form { OnOk result (Spells (records.record_of command.now) command.now) }
{
    let asked = command.receipt();
    out.extend_from_slice(&command.session().to_be_bytes())?;
    put_optional(out, asked)?;
    put_operation(out, command.op())
}

/// The record of a command, which is its one spelling. It fails only if memory for the whole record is refused.
pub fn encode(alloc: Global, command: &Command) -> Result<Vec<u8>, AllocError>
    ensures { IfOk result (λ spelling. Spells spelling.items command.now) }
{
    let size = 8 + option_size(command.receipt()) + op_size(command.op());
    let mut out = Vec::with_capacity(alloc, size as usize)?;
    put_command(&mut out, command)?;
    Ok(out)
}

fn put_counted(out: &mut Vec<u8>, bytes: &[u8]) -> Result<(), AllocError>
    requires { length bytes.now < 2 ^ 32 }
    ensures put { OnOk result (out.new.items ≡ out.old.items ++ counted bytes.now) }
    ensures form { AreBytes bytes.now }
{
    out.extend_from_slice(&(bytes.len() as u32).to_be_bytes())?;
    out.extend_from_slice(bytes)
}

/// A text: how many bytes, in four bytes, and the bytes.
pub fn put_text(out: &mut Vec<u8>, text: &HeaderText) -> Result<(), AllocError>
    ensures put { OnOk result (out.new.items ≡ out.old.items ++ counted text.now) }
    ensures form { IsText text.now }
{
    put_counted(out, text.as_str().as_bytes())
}

/// A text that may be absent: the byte 0, or the byte 1 and the text.
pub fn put_optional(out: &mut Vec<u8>, text: &Option<HeaderText>) -> Result<(), AllocError>
    ensures put { OnOk result (out.new.items ≡ out.old.items ++ optional text.now) }
    ensures form { OnOk result (IfSome text.now IsText) }
{
    match text {
        None => Ok(out.push(0)?),
        Some(text) => {
            out.push(1)?;
            put_text(out, text)
        }
    }
}

/// A destination, as a text.
pub fn put_destination(out: &mut Vec<u8>, destination: &Dest) -> Result<(), AllocError>
    ensures put { OnOk result (out.new.items ≡ out.old.items ++ counted destination.now) }
    ensures form { IsDestination destination.now }
{
    put_counted(out, destination.as_str().as_bytes())
}

fn put_header(out: &mut Vec<u8>, name: &Text, value: &Text) -> Result<(), AllocError>
    requires kept { IsKept (name.now, value.now) }
    ensures put { OnOk result (out.new.items ≡ out.old.items ++ parts.pair (name.now, value.now)) }
    ensures form { IsText name.now × IsText value.now }
{
    let (name, value) = (name.as_str(), value.as_str());
    put_counted(out, name.as_bytes())?;
    put_counted(out, value.as_bytes())
}

fn put_headers(out: &mut Vec<u8>, headers: &[(Text, Text)]) -> Result<(), AllocError>
    requires few { length headers.now ≤ 64 }
    requires each { AllByRecursion IsKept headers.now }
    ensures put { OnOk result (out.new.items ≡ out.old.items ++ parts.headers headers.now) }
    ensures form { OnOk result (AllByRecursion AreTexts headers.now) }
{
    out.extend_from_slice(&(headers.len() as u16).to_be_bytes())?;
    for (name, value) in headers {
        put_header(out, name, value)?;
    }
    Ok(())
}

/// What is sent: destination, headers, body.
pub fn put_sending(out: &mut Vec<u8>, sending: &Sending) -> Result<(), AllocError>
    ensures put { OnOk result (out.new.items ≡ out.old.items ++ parts.sending sending.now) }
    ensures form { OnOk result (IsSent sending.now) }
{
    put_destination(out, sending.destination())?;
    put_headers(out, sending.headers().as_slice())?;
    put_counted(out, sending.body().as_slice())
}

/// The byte for a mode of acknowledgement: 0 for `auto`, 1 for `client`, 2 for `client-individual`.
pub fn mode_byte(mode: AckMode) -> u8
    ensures { result ≡ parts.mode_byte mode }
{
    match mode {
        AckMode::Auto => 0,
        AckMode::Client => 1,
        AckMode::ClientIndividual => 2,
    }
}

/// The bytes that a member of a transaction takes in the journal, with the one that tells its kind. Less than 2 MiB.
pub fn member_size(member: &Member) -> u64
    ensures size { result ≡ size_of_member member.now }
    ensures length { result ≡ length (record_of_member member.now) }
    ensures small { result ≤ 2 ^ 21 }
{
    match member {
        Member::Send(sending) => 1 + sending_size(sending),
        Member::Ack(_) | Member::Nack(_) => 9,
    }
}

fn members_size(members: &[Member]) -> u64
    requires { length members.now ≤ 64 }
    ensures size { result ≡ sum_by size_of_member members.now }
    ensures small { result ≤ 64 * 2 ^ 21 }
{
    let mut size = 0;
    for member in members {
        size += member_size(member);
    }
    size
}

/// The bytes that an operation takes in the journal, with the one that tells its kind. At most 130 MiB.
pub fn op_size(op: &Op) -> u64
    ensures size { result ≡ size_of_op op.now }
    ensures length { result ≡ length (record_of_op op.now) }
    ensures small { result ≤ 65 * 2 ^ 21 }
{
    match op {
        Op::Open { client_id } => 1 + option_size(client_id),
        Op::Send(sending) => 1 + sending_size(sending),
        Op::Subscribe {
            id,
            destination,
            durable,
            ..
        } => 6 + text_size(id) + destination.as_str().len() as u64 + option_size(durable),
        Op::Unsubscribe { id, durable } => 1 + option_size(id) + option_size(durable),
        Op::Ack(_) | Op::Nack(_) => 9,
        Op::Commit(members) => 3 + members_size(members.as_slice()),
        Op::Note => 1,
        Op::End(End::Bye | End::Lost) => 2,
        Op::End(End::Bad(_)) => 3,
    }
}

/// The bytes of a text, with its length.
pub fn text_size(text: &HeaderText) -> u64
    ensures size { result ≡ text_size text.now }
    ensures small { result ≤ 8196 }
{
    4 + text.as_str().len() as u64
}

/// The bytes of a text that may be absent.
pub fn option_size(text: &Option<HeaderText>) -> u64
    ensures size { result ≡ option_size text.now }
    ensures small { result ≤ 8197 }
{
    match text {
        None => 1,
        Some(text) => 1 + text_size(text),
    }
}

fn headers_size(headers: &[(Text, Text)]) -> u64
    requires few { length headers.now ≤ 64 }
    requires each { AllByRecursion IsKept headers.now }
    ensures size { result ≡ headers_size headers.now }
    ensures small { result ≤ 2 + 64 * 16392 }
{
    let mut size = 2;
    for (name, value) in headers {
        size += 8 + name.as_str().len() as u64 + value.as_str().len() as u64;
    }
    size
}

/// The bytes of what is sent. Less than 2 MiB.
pub fn sending_size(sending: &Sending) -> u64
    ensures size { result ≡ sending_size sending.now }
    ensures small { result < 2 ^ 21 }
{
    let destination = 4 + sending.destination().as_str().len() as u64;
    let body = 4 + sending.body().as_slice().len() as u64;
    destination + headers_size(sending.headers().as_slice()) + body
}

/// `bytes` and the bytes of the names and values, or `None` if the sum is 2^64 or more.
pub fn add_headers(bytes: u64, headers: &[(Text, Text)]) -> Option<u64>
    ensures { SomeIff result (bytes + sum_by header_bytes headers.now < 2 ^ 64) (bytes + sum_by header_bytes headers.now) }
{
    let mut sum = bytes;
    for (name, value) in headers {
        sum = sum.checked_add(name.as_str().len() as u64)?;
        sum = sum.checked_add(value.as_str().len() as u64)?;
    }
    Some(sum)
}
