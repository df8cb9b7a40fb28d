//! Commands, read from their records.

ghost use Rattle.std.specs.Prelude.{◌≡◌, ◌≤◌, ◌&&◌, ℕ, IfOk, IfErr, is_some, length, take, ◌<◌, ◌^◌, ◌∷◌, [], Bool, true, List, IfSome, ◌++◌};
ghost use Rattle.std.specs.Int.{w16, w32, w64, to_be_bytes};
ghost use Rattle.command_core.specs.declared.decoding.DecodeFault.{DecodeFault};
ghost use Rattle.command_core.specs.Commands.{CommandValue};
ghost use Rattle.command_core.specs.Destinations.{is_queue, IsDestination};
ghost use Rattle.command_core.specs.PartReading.{Gives, few_at, Reader, Reads, listed_at, many_at, byte_at, number_at, counted_at, text_at, optional_at, name_at, destination_at, mode_at, pair_at, sending_at, is_kept_named as keeps};
ghost use Rattle.command_core.specs.Reading.{fault_at, end_at, subscribe_at, unsubscribe_at, member_at, member_behind, operation_at, command_at, fits as fits_with};
ghost use Rattle.command_core.specs.Spellings.{Spells};
ghost use Rattle.command_core.specs.Texts.{IsGiven, IsHeaderText};
ghost use Rattle.command_core.specs.Formats.{Always, FewEach, Format, HasBytes, IsName, Listed, mode_bytes, spell_few, spell_list};
ghost use Rattle.command_core.specs.PartSpellings.{IsSent, IsText, counted, optional, sending};

use crate::command::{AckMode, Command, End, Member, Members, Op};
use crate::destination::{Dest, DestFault, HeaderText, is_header_text};
use crate::fault::Fault;
use crate::sending::{Sending, is_kept_name};
use frame_core::{Bytes, Headers, Text};
use std::alloc::{AllocError, AllocFailed, Global};
use thiserror::Error;

#[tactic(auto, unfolding(crate::specs::Reading::fault_at))]
fn read_fault(bytes: &[u8]) -> Result<(Fault, &[u8]), DecodeFault>
    ensures { Gives (λ x. (x.0, x.1.now)) result (fault_at bytes.now) }
{
    let (code, rest) = read_byte(bytes)?;
    match Fault::from_code(code) {
        Some(fault) => Ok((fault, rest)),
        None => Err(DecodeFault::NoSpelling),
    }
}

#[tactic(auto, unfolding(crate::specs::Reading::end_at))]
fn read_end(bytes: &[u8]) -> Result<(End, &[u8]), DecodeFault>
    ensures { Gives (λ x. (x.0, x.1.now)) result (end_at bytes.now) }
{
    let (kind, rest) = read_byte(bytes)?;
    match kind {
        0 => Ok((End::Bye, rest)),
        1 => Ok((End::Lost, rest)),
        2 => {
            let (fault, rest) = read_fault(rest)?;
            Ok((End::Bad(fault), rest))
        }
        _ => Err(DecodeFault::NoSpelling),
    }
}

// Whether a durable name comes with a queue, which may have none.
fn is_of_queue(durable: &Option<HeaderText>, destination: &Dest) -> bool
    ensures { result ≡ (is_some durable.now && is_queue destination.now) }
{
    durable.is_some() && destination.is_queue()
}

#[tactic(auto, unfolding(crate::specs::Reading::subscribe_at))]
fn read_subscribe(alloc: Global, bytes: &[u8]) -> Result<(Op, &[u8]), DecodeFault>
    ensures { Gives (λ x. (x.0, x.1.now)) result (subscribe_at bytes.now) }
{
    let (id, rest) = read_text(alloc, bytes)?;
    let (destination, rest) = read_destination(alloc, rest)?;
    let (mode, rest) = read_mode(rest)?;
    let (durable, rest) = read_name(alloc, rest)?;
    if is_of_queue(&durable, &destination) {
        return Err(DecodeFault::NoSpelling);
    }
    let op = Op::Subscribe {
        id,
        destination,
        mode,
        durable,
    };
    Ok((op, rest))
}

#[tactic(auto, unfolding(crate::specs::Reading::unsubscribe_at))]
fn read_unsubscribe(alloc: Global, bytes: &[u8]) -> Result<(Op, &[u8]), DecodeFault>
    ensures { Gives (λ x. (x.0, x.1.now)) result (unsubscribe_at bytes.now) }
{
    let (id, rest) = read_optional(alloc, bytes)?;
    let (durable, rest) = read_name(alloc, rest)?;
    if id.is_none() && durable.is_none() {
        return Err(DecodeFault::NoSpelling);
    }
    Ok((Op::Unsubscribe { id, durable }, rest))
}

// A member, after the byte for its kind.
#[tactic(auto, unfolding(crate::specs::Reading::member_behind))]
fn read_member_behind(alloc: Global, kind: u8, bytes: &[u8]) -> Result<(Member, &[u8]), DecodeFault>
    ensures { Gives (λ x. (x.0, x.1.now)) result (member_behind kind bytes.now) }
{
    match kind {
        2 => {
            let (sending, rest) = read_sending(alloc, bytes)?;
            Ok((Member::Send(sending), rest))
        }
        5 => {
            let (delivery, rest) = read_u64(bytes)?;
            Ok((Member::Ack(delivery), rest))
        }
        6 => {
            let (delivery, rest) = read_u64(bytes)?;
            Ok((Member::Nack(delivery), rest))
        }
        _ => Err(DecodeFault::NoSpelling),
    }
}

#[tactic(auto, unfolding(crate::specs::Reading::member_at))]
fn read_member(alloc: Global, bytes: &[u8]) -> Result<(Member, &[u8]), DecodeFault>
    ensures { Gives (λ x. (x.0, x.1.now)) result (member_at bytes.now) }
{
    let (kind, rest) = read_byte(bytes)?;
    read_member_behind(alloc, kind, rest)
}

fn read_members(alloc: Global, bytes: &[u8]) -> Result<(Members, &[u8]), DecodeFault>
    ensures { Gives (λ x. (x.0, x.1.now)) result (few_at member_at bytes.now) }
{
    let (members, rest) = read_few(alloc, bytes, |rest| read_member(alloc, rest))?;
    Ok((Members::new(members), rest))
}

// An operation. One that may be a member of a transaction is read as that.
#[tactic(auto, unfolding(crate::specs::Reading::operation_at))]
fn read_operation(alloc: Global, bytes: &[u8]) -> Result<(Op, &[u8]), DecodeFault>
    ensures { Gives (λ x. (x.0, x.1.now)) result (operation_at bytes.now) }
{
    let (kind, rest) = read_byte(bytes)?;
    match kind {
        1 => {
            let (client_id, rest) = read_name(alloc, rest)?;
            Ok((Op::Open { client_id }, rest))
        }
        3 => read_subscribe(alloc, rest),
        4 => read_unsubscribe(alloc, rest),
        7 => {
            let (members, rest) = read_members(alloc, rest)?;
            Ok((Op::Commit(members), rest))
        }
        8 => Ok((Op::Note, rest)),
        9 => {
            let (end, rest) = read_end(rest)?;
            Ok((Op::End(end), rest))
        }
        kind => {
            let (member, rest) = read_member_behind(alloc, kind, rest)?;
            Ok((Op::from(member), rest))
        }
    }
}

// Whether session and receipt have the form that the operation asks for.
fn fits(op: &Op, session: u64, receipt: &Option<HeaderText>) -> bool
    ensures { result ≡ fits_with op.now session receipt.now }
{
    match op {
        Op::Open { .. } => session == 0 && receipt.is_none(),
        Op::End(End::Lost) => receipt.is_none(),
        _ => true,
    }
}

#[tactic(auto, unfolding(crate::specs::Reading::command_at))]
fn read_command(alloc: Global, bytes: &[u8]) -> Result<(Command, &[u8]), DecodeFault>
    ensures { Gives (λ x. (x.0, x.1.now)) result (command_at bytes.now) }
{
    let (session, rest) = read_u64(bytes)?;
    let (receipt, rest) = read_optional(alloc, rest)?;
    let (op, rest) = read_operation(alloc, rest)?;
    if !fits(&op, session, &receipt) {
        return Err(DecodeFault::NoSpelling);
    }
    Ok((Command::new(session, op, receipt), rest))
}

/// The command whose record begins the bytes, and how many bytes the record has. Whatever follows it is not read. A
/// text, a list or a body over its limit is refused before memory is taken for it.
pub fn decode(alloc: Global, bytes: &[u8]) -> Result<(Command, usize), DecodeFault>
    // The record is within the bytes.
    ensures length { IfOk result (λ d. d.1 ≤ length bytes.now) }
    // It is the command's.
    ensures spelled { IfOk result (λ d. Spells (take d.1 bytes.now) d.0) }
    // If none is found, no front of the bytes is the record of a command.
    ensures none { IfErr result (λ e.
        e ≡ DecodeFault.NoSpelling → (c : CommandValue) (n : ℕ) → Spells (take n bytes.now) c → ⊥) }
{
    let (command, rest) = read_command(alloc, bytes)?;
    Ok((command, bytes.len() - rest.len()))
}

/// Why nothing was read from bytes.
#[derive(Debug, Drop, Error)]
pub enum DecodeFault {
    /// They do not spell what was to be read.
    #[error("bytes that spell nothing")]
    NoSpelling,
    /// Memory was refused.
    #[error("no memory")]
    Memory(AllocError),
}

impl From<AllocError> for DecodeFault {
    ghost use Rattle.std.specs.Prelude.{◌≡◌};
    ghost use Rattle.command_core.specs.declared.decoding.DecodeFault.TheVariants.{Memory};

    ghost from_gives = { λ refused fault. fault ≡ Memory refused };

    fn from(refused: AllocError) -> DecodeFault {
        DecodeFault::Memory(refused)
    }
}

impl<T: Drop> From<AllocFailed<T>> for DecodeFault {
    ghost use Rattle.std.specs.Prelude.{◌≡◌, alloc_error};
    ghost use Rattle.command_core.specs.declared.decoding.DecodeFault.TheVariants.{Memory};

    ghost from_gives = { λ _ fault. fault ≡ Memory alloc_error };

    fn from(_failed: AllocFailed<T>) -> DecodeFault {
        DecodeFault::Memory(AllocError)
    }
}

// So many items, one after another.
fn read_many<'a, X: Drop, F: Fn(&'a [u8]) -> Result<(X, &'a [u8]), DecodeFault>>(
    alloc: Global,
    count: u32,
    bytes: &'a [u8],
    read: F,
) -> Result<(Vec<X>, &'a [u8]), DecodeFault>
    requires callable { F.IsAlwaysCallable read }
    // The room that the count takes is for no more items than there are bytes left.
    requires bounded { count ≤ length bytes.now }
    ensures read { (one : Reader X) → Reads (F.post read) one
        → Gives (λ x. (x.0.items, x.1.now)) result (many_at one count bytes.now) }
    ensures count { IfOk result (λ x. length x.0.items ≡ count) }
{
    let mut items = Vec::new(alloc);
    let mut rest = bytes;
    for _ in 0..count {
        let (item, after) = read(rest)?;
        items.push(item)?;
        rest = after;
    }
    Ok((items, rest))
}

/// At most 64 items after their count, which has two bytes.
#[tactic(auto, unfolding(crate::specs::PartReading::few_at))]
pub fn read_few<'a, X: Drop, F: Fn(&'a [u8]) -> Result<(X, &'a [u8]), DecodeFault>>(
    alloc: Global,
    bytes: &'a [u8],
    read: F,
) -> Result<(Vec<X>, &'a [u8]), DecodeFault>
    requires { F.IsAlwaysCallable read }
    ensures read { (one : Reader X) → Reads (F.post read) one
        → Gives (λ x. (x.0.items, x.1.now)) result (few_at one bytes.now) }
    ensures few { IfOk result (λ x. length x.0.items ≤ 64) }
{
    let (count, rest) = read_u16(bytes)?;
    if count > 64 {
        return Err(DecodeFault::NoSpelling);
    }
    if usize::from(count) > rest.len() {
        return Err(DecodeFault::NoSpelling);
    }
    read_many(alloc, u32::from(count), rest, read)
}

/// Items after their count, which has four bytes.
#[tactic(auto, unfolding(crate::specs::PartReading::listed_at))]
pub fn read_list<'a, X: Drop, F: Fn(&'a [u8]) -> Result<(X, &'a [u8]), DecodeFault>>(
    alloc: Global,
    bytes: &'a [u8],
    read: F,
) -> Result<(Vec<X>, &'a [u8]), DecodeFault>
    requires { F.IsAlwaysCallable read }
    ensures { (one : Reader X) → Reads (F.post read) one
        → Gives (λ x. (x.0.items, x.1.now)) result (listed_at one bytes.now) }
{
    let (count, rest) = read_u32(bytes)?;
    if count as usize > rest.len() {
        return Err(DecodeFault::NoSpelling);
    }
    read_many(alloc, count, rest, read)
}

/// A byte.
pub fn read_byte(bytes: &[u8]) -> Result<(u8, &[u8]), DecodeFault>
    ensures { Gives (λ x. (x.0, x.1.now)) result (byte_at bytes.now) }
{
    match bytes {
        [] => Err(DecodeFault::NoSpelling),
        [byte, rest @ ..] => Ok((*byte, rest)),
    }
}

// A number of two bytes.
pub(crate) fn read_u16(bytes: &[u8]) -> Result<(u16, &[u8]), DecodeFault>
    ensures { Gives (λ x. (x.0, x.1.now)) result (number_at w16 bytes.now) }
{
    match bytes.split_first_chunk::<2>() {
        None => Err(DecodeFault::NoSpelling),
        Some((front, rest)) => Ok((u16::from_be_bytes(*front), rest)),
    }
}

/// A number of four bytes.
pub fn read_u32(bytes: &[u8]) -> Result<(u32, &[u8]), DecodeFault>
    ensures { Gives (λ x. (x.0, x.1.now)) result (number_at w32 bytes.now) }
{
    match bytes.split_first_chunk::<4>() {
        None => Err(DecodeFault::NoSpelling),
        Some((front, rest)) => Ok((u32::from_be_bytes(*front), rest)),
    }
}

/// A number of eight bytes.
pub fn read_u64(bytes: &[u8]) -> Result<(u64, &[u8]), DecodeFault>
    ensures { Gives (λ x. (x.0, x.1.now)) result (number_at w64 bytes.now) }
{
    match bytes.split_first_chunk::<8>() {
        None => Err(DecodeFault::NoSpelling),
        Some((front, rest)) => Ok((u64::from_be_bytes(*front), rest)),
    }
}

// At most so many bytes, after their count.
#[tactic(auto, unfolding(crate::specs::PartReading::counted_at))]
fn read_counted(bytes: &[u8], limit: usize) -> Result<(&[u8], &[u8]), DecodeFault>
    ensures read { Gives (λ x. (x.0.now, x.1.now)) result (counted_at limit bytes.now) }
    ensures short { IfOk result (λ x. length x.0.now ≤ limit) }
{
    let (count, rest) = read_u32(bytes)?;
    let count = count as usize;
    if count > limit {
        return Err(DecodeFault::NoSpelling);
    }
    if rest.len() < count {
        return Err(DecodeFault::NoSpelling);
    }
    Ok(rest.split_at(count))
}

#[tactic(auto, unfolding(crate::specs::PartReading::text_at))]
fn read_str(bytes: &[u8]) -> Result<(&str, &[u8]), DecodeFault>
    ensures read { Gives (λ x. (x.0.now, x.1.now)) result (text_at bytes.now) }
    ensures form { IfOk result (λ x. IsHeaderText x.0.now) }
{
    let (text, rest) = read_counted(bytes, 8192)?;
    let Ok(text) = str::from_utf8(text) else {
        return Err(DecodeFault::NoSpelling);
    };
    if !is_header_text(text) {
        return Err(DecodeFault::NoSpelling);
    }
    Ok((text, rest))
}

/// A text: how many bytes, in four bytes, at most 8,192, and so many bytes of UTF-8 without NUL.
pub fn read_text(alloc: Global, bytes: &[u8]) -> Result<(HeaderText, &[u8]), DecodeFault>
    ensures { Gives (λ x. (x.0, x.1.now)) result (text_at bytes.now) }
{
    let (text, rest) = read_str(bytes)?;
    let text = Text::copy(alloc, text)?;
    Ok((HeaderText::new(text), rest))
}

/// A text that may be absent: the byte 0, or the byte 1 and the text.
#[tactic(auto, unfolding(crate::specs::PartReading::optional_at))]
pub fn read_optional(
    alloc: Global,
    bytes: &[u8],
) -> Result<(Option<HeaderText>, &[u8]), DecodeFault>
    ensures { Gives (λ x. (x.0, x.1.now)) result (optional_at bytes.now) }
{
    match bytes {
        [] => Err(DecodeFault::NoSpelling),
        [0, rest @ ..] => Ok((None, rest)),
        [1, rest @ ..] => {
            let (text, rest) = read_text(alloc, rest)?;
            Ok((Some(text), rest))
        }
        [_, ..] => Err(DecodeFault::NoSpelling),
    }
}

/// A text that may be absent, and is not empty if it is there: the byte 0, or the byte 1 and the text.
#[tactic(auto, unfolding(crate::specs::PartReading::name_at))]
pub fn read_name(alloc: Global, bytes: &[u8]) -> Result<(Option<HeaderText>, &[u8]), DecodeFault>
    ensures read { Gives (λ x. (x.0, x.1.now)) result (name_at bytes.now) }
    ensures given { IfOk result (λ x. IsGiven x.0) }
{
    let (name, rest) = read_optional(alloc, bytes)?;
    if let Some(name) = &name {
        if name.as_str().is_empty() {
            return Err(DecodeFault::NoSpelling);
        }
    }
    Ok((name, rest))
}

/// A destination, as a text.
#[tactic(auto, unfolding(crate::specs::PartReading::destination_at))]
pub fn read_destination(alloc: Global, bytes: &[u8]) -> Result<(Dest, &[u8]), DecodeFault>
    ensures { Gives (λ x. (x.0, x.1.now)) result (destination_at bytes.now) }
{
    let (text, rest) = read_str(bytes)?;
    match Dest::read(alloc, text) {
        Ok(destination) => Ok((destination, rest)),
        Err(DestFault::Bad) => Err(DecodeFault::NoSpelling),
        Err(DestFault::Memory(refused)) => Err(DecodeFault::Memory(refused)),
    }
}

/// A mode of acknowledgement, as its byte.
#[tactic(auto, unfolding(crate::specs::PartReading::mode_at))]
pub fn read_mode(bytes: &[u8]) -> Result<(AckMode, &[u8]), DecodeFault>
    ensures { Gives (λ x. (x.0, x.1.now)) result (mode_at bytes.now) }
{
    let (mode, rest) = read_byte(bytes)?;
    match mode {
        0 => Ok((AckMode::Auto, rest)),
        1 => Ok((AckMode::Client, rest)),
        2 => Ok((AckMode::ClientIndividual, rest)),
        _ => Err(DecodeFault::NoSpelling),
    }
}

// Whether a message keeps headers of that name. A name is never empty.
fn is_kept_named(name: &str) -> bool
    ensures { result ≡ keeps name.now }
{
    !name.is_empty() && is_kept_name(name)
}

#[tactic(auto, unfolding(crate::specs::PartReading::pair_at))]
fn read_header(alloc: Global, bytes: &[u8]) -> Result<((Text, Text), &[u8]), DecodeFault>
    ensures { Gives (λ x. (x.0, x.1.now)) result (pair_at bytes.now) }
{
    let (name, rest) = read_str(bytes)?;
    let (value, rest) = read_str(rest)?;
    if !is_kept_named(name) {
        return Err(DecodeFault::NoSpelling);
    }
    let name = Text::copy(alloc, name)?;
    let value = Text::copy(alloc, value)?;
    Ok(((name, value), rest))
}

// The headers of a message.
fn read_headers(alloc: Global, bytes: &[u8]) -> Result<(Headers, &[u8]), DecodeFault>
    ensures { Gives (λ x. (x.0, x.1.now)) result (few_at pair_at bytes.now) }
{
    let (headers, rest) = read_few(alloc, bytes, |rest| read_header(alloc, rest))?;
    Ok((Headers::new(headers), rest))
}

// The bytes of a body: at most 65,536, after their count.
fn read_body(bytes: &[u8]) -> Result<(&[u8], &[u8]), DecodeFault>
    ensures read { Gives (λ x. (x.0.now, x.1.now)) result (counted_at 65536 bytes.now) }
    ensures short { IfOk result (λ x. length x.0.now ≤ 65536) }
{
    read_counted(bytes, 65_536)
}

/// What is sent: destination, at most 64 headers such as a message keeps, a body of at most 65,536 bytes.
#[tactic(auto, unfolding(crate::specs::PartReading::sending_at))]
pub fn read_sending(alloc: Global, bytes: &[u8]) -> Result<(Sending, &[u8]), DecodeFault>
    ensures { Gives (λ x. (x.0, x.1.now)) result (sending_at bytes.now) }
{
    let (destination, rest) = read_destination(alloc, bytes)?;
    let (headers, rest) = read_headers(alloc, rest)?;
    let (body, rest) = read_body(rest)?;
    let body = Bytes::new(Vec::from_slice(alloc, body)?);
    Ok((Sending::new(destination, headers, body), rest))
}

/// What is read of a part at the front of bytes is spelled there and has the part's form, and the rest is what stands after
/// it. A value of that form is read from its spelling, whatever follows. So each part has one spelling, and no spelling of
/// it begins another.
pub fn parts_are_read_as_they_are_spelled()
    ensures byte { Format (λ (b : ℕ). b ∷ []) (λ b. b < 256) byte_at }
    ensures numbers { Format (to_be_bytes w32) (λ n. n < 2 ^ 32) (number_at w32) × Format (to_be_bytes w64) (λ n. n < 2 ^ 64) (number_at w64) }
    ensures text { Format counted IsText text_at }
    ensures optional { Format optional (λ text. IfSome text IsText) optional_at }
    ensures name { Format optional IsName name_at }
    ensures destination { Format counted IsDestination destination_at }
    ensures mode { Format mode_bytes Always mode_at }
    ensures sending { Format sending IsSent sending_at }
{}

/// The same of lists, if their items are read as they are spelled, each with a byte or more. A test tells which items have
/// the form.
pub fn lists_are_read_as_they_are_spelled<X>()
    ensures few { (spell : X → List ℕ) (is_formed : X → Bool) (one : Reader X)
        → Format spell (λ x. is_formed x ≡ true) one → HasBytes spell
        → Format (spell_few spell) (FewEach (λ x. is_formed x ≡ true)) (few_at one) }
    ensures list { (spell : X → List ℕ) (is_formed : X → Bool) (one : Reader X)
        → Format spell (λ x. is_formed x ≡ true) one → HasBytes spell
        → Format (spell_list spell) (Listed (λ x. is_formed x ≡ true)) (listed_at one) }
{}

/// No record of a command begins another one, and a record is of one command alone. So what was encoded is decoded
/// again, whatever follows it. It does nothing.
pub fn spellings_begin_no_other()
    ensures { (a b : CommandValue) (p q x y : List ℕ) → Spells p a → Spells q b → p ++ x ≡ q ++ y → (a ≡ b) × (p ≡ q) }
{}
