//! Which conversation with a server the words ask for.

ghost use Rattle.std.specs.Prelude.{◌≡◌, ◌<◌, ◌↔◌, IfErr, IfNone, IfOk, IfSome, IsTrue, map};
ghost use Rattle.std.specs.List.{AllByRecursion};
ghost use Rattle.command_line.specs.Calls.{CanBeDone, CanBeMoved, CanCome, IsFilled, IsNoneOf, IsRefused, Keeps, MayBeGiven, is_call_name, is_own_name, most_of, names_call};
ghost use Rattle.client_core.specs.Requests.{is_unnamed};

use crate::parsing::named;
use crate::usage::matches_of;
use crate::words::{WordKind, address_of, number_of};
use clap::{ArgMatches, Error};
use client_core::{Address, Errand, Plan};
use std::alloc::Global;
use std::convert::AsStr;

// How many messages of a queue are shown to one who settles none (docs/PROTOCOL.md, "Limits").
const MOST_UNSETTLED: u64 = 16;

/// What a client is to do.
#[derive(Drop)]
pub enum Call<'a> {
    /// Sends a message to a destination; if no body is given, what standard input has. On request each line of that is one.
    Send {
        address: Address<'a>,
        destination: &'a str,
        headers: Vec<(&'a str, &'a str)>,
        body: Option<&'a str>,
        by_lines: bool,
    },
    /// Listens to a destination as the plan has it, perhaps with a `client-id`.
    Listen {
        address: Address<'a>,
        client: Option<&'a str>,
        plan: Plan<'a>,
    },
    /// Moves messages to another place, perhaps at another server, perhaps with a `client-id`.
    Move {
        address: Address<'a>,
        client: Option<&'a str>,
        other: Option<Address<'a>>,
        errand: Errand<'a>,
    },
    /// Gives up a durable name of a client.
    Forget {
        address: Address<'a>,
        client: &'a str,
        name: &'a str,
    },
}

/// Why the words ask nothing of a client.
#[derive(Drop)]
pub enum Uncalled<'a> {
    /// A mistake in the words, the help that they ask for, or that memory was refused.
    Words(Error),
    /// A word that is not of its kind.
    Word(WordKind, &'a str),
}

/// Whether the words name what a client does.
pub fn is_call<S: AsStr>(words: &[S]) -> bool
    ensures { result ≡ names_call (map S.text words.now) }
{
    match named(words) {
        Some((name, _)) => is_call_name(name),
        None => false,
    }
}

fn is_call_name(name: &str) -> bool
    ensures { result ≡ is_call_name name.now }
{
    matches!(name, "send" | "listen" | "move" | "forget")
}

/// What the words ask of a client, of which the first is the program's name, and the second names what a client does.
pub fn call_of<'a, S: AsStr>(alloc: Global, words: &'a [S]) -> Result<Call<'a>, Uncalled<'a>>
    ensures ok { IfOk result CanBeDone }
    ensures refused { IfErr result IsRefused }
{
    match matches_of(alloc, words) {
        Ok(matches) => {
            let call = call_in(alloc, &matches);
            drop(matches);
            call
        }
        Err(error) => Err(Uncalled::Words(error)),
    }
}

fn call_in<'a>(alloc: Global, matches: &ArgMatches<'a>) -> Result<Call<'a>, Uncalled<'a>>
    ensures ok { IfOk result CanBeDone }
    ensures refused { IfErr result IsRefused }
{
    match matches.subcommand() {
        Some(("send", given)) => send_in(alloc, given),
        Some(("listen", given)) => listen_in(given),
        Some(("move", given)) => move_in(given),
        Some((_, given)) => forget_in(given),
        None => Err(Uncalled::Word(WordKind::Address, "")),
    }
}

fn send_in<'a>(alloc: Global, given: &ArgMatches<'a>) -> Result<Call<'a>, Uncalled<'a>>
    ensures ok { IfOk result CanBeDone }
    ensures refused { IfErr result IsRefused }
{
    let address = address_in(given)?;
    let body = given.get_str("BODY");
    let by_lines = given.get_flag("lines");
    if let (Some(body), true) = (body, by_lines) {
        return Err(Uncalled::Word(WordKind::BodyOfLines, body));
    }
    let headers = headers_in(alloc, given)?;
    Ok(Call::Send {
        address,
        destination: word_in(given, "DESTINATION"),
        headers,
        body,
        by_lines,
    })
}

fn listen_in<'a>(given: &ArgMatches<'a>) -> Result<Call<'a>, Uncalled<'a>>
    ensures ok { IfOk result CanBeDone }
    ensures refused { IfErr result IsRefused }
{
    let address = address_in(given)?;
    let destination = word_in(given, "DESTINATION");
    let (client, name) = match given.get_strs("durable") {
        Some([client, name]) => (Some(*client), Some(*name)),
        _ => (None, None),
    };
    if !is_filled(client) || !is_filled(name) {
        return Err(Uncalled::Word(WordKind::EmptyName, ""));
    }
    if let (Some(name), true) = (name, destination.starts_with("/queue/")) {
        return Err(Uncalled::Word(WordKind::DurableQueue, name));
    }
    let mut plan = Plan {
        destination,
        name,
        count: u64::MAX,
        settles: given.get_flag("settle"),
        with_headers: given.get_flag("headers"),
        is_once: given.get_flag("once"),
        timeout: timeout_in(given)?,
    };
    plan.count = count_in(given, &plan)?;
    Ok(Call::Listen {
        address,
        client,
        plan,
    })
}

// After how many messages it ends: of what is not its own and not settled it gets 16 at most.
fn count_in<'a>(given: &ArgMatches<'a>, plan: &Plan<'_>) -> Result<u64, Uncalled<'a>>
    ensures ok { IfOk result (CanCome plan.now) }
    ensures refused { IfErr result IsRefused }
{
    let most = most_of(plan);
    let Some(text) = given.get_str("N") else {
        return Ok(most);
    };
    match number_of(text) {
        Some(0) | None => Err(Uncalled::Word(WordKind::Count, text)),
        Some(count) if count > most => Err(Uncalled::Word(WordKind::UnsettledCount, text)),
        Some(count) => Ok(count),
    }
}

/// For how many seconds no message may come.
pub(crate) fn timeout_in<'a>(given: &ArgMatches<'a>) -> Result<Option<u64>, Uncalled<'a>>
    ensures ok { IfOk result (λ timeout. IfSome timeout (λ seconds. 0 < seconds)) }
    ensures refused { IfErr result IsRefused }
{
    let Some(text) = given.get_str("SECONDS") else {
        return Ok(None);
    };
    match number_of(text) {
        Some(0) | None => Err(Uncalled::Word(WordKind::Timeout, text)),
        Some(seconds) => Ok(Some(seconds)),
    }
}

// How many messages it may wait for.
fn most_of(plan: &Plan<'_>) -> u64
    ensures { result ≡ most_of plan.now }
{
    if plan.settles || plan.is_own() {
        return u64::MAX;
    }
    MOST_UNSETTLED
}

fn forget_in<'a>(given: &ArgMatches<'a>) -> Result<Call<'a>, Uncalled<'a>>
    ensures ok { IfOk result CanBeDone }
    ensures refused { IfErr result IsRefused }
{
    let address = address_in(given)?;
    let (client, name) = (word_in(given, "CLIENT"), word_in(given, "NAME"));
    if client.is_empty() || name.is_empty() {
        return Err(Uncalled::Word(WordKind::EmptyName, ""));
    }
    Ok(Call::Forget {
        address,
        client,
        name,
    })
}

/// Whether a word that may be left out is not empty.
pub(crate) fn is_filled(word: Option<&str>) -> bool
    ensures { IsTrue result ↔ IsFilled word.entry }
{
    match word {
        Some(word) => !word.is_empty(),
        None => true,
    }
}

pub(crate) fn address_in<'a>(given: &ArgMatches<'a>) -> Result<Address<'a>, Uncalled<'a>>
    ensures refused { IfErr result IsRefused }
{
    let text = word_in(given, "PORT");
    match address_of(text) {
        Some(address) => Ok(address),
        None => Err(Uncalled::Word(WordKind::Address, text)),
    }
}

/// The word of an argument that `clap` requires.
pub(crate) fn word_in<'a>(given: &ArgMatches<'a>, name: &str) -> &'a str {
    given.get_str(name).unwrap_or("")
}

// The headers that are given, cut at the first colon.
fn headers_in<'a>(
    alloc: Global,
    given: &ArgMatches<'a>,
) -> Result<Vec<(&'a str, &'a str)>, Uncalled<'a>>
    ensures ok { IfOk result (λ headers. AllByRecursion (λ header. MayBeGiven header.0.now) headers.items) }
    ensures refused { IfErr result IsRefused }
{
    let mut headers = Vec::new(alloc);
    let Some(texts) = given.get_strs("header") else {
        return Ok(headers);
    };
    for text in texts {
        let header = match header_of(text) {
            Ok(header) => header,
            Err(kind) => return Err(Uncalled::Word(kind, text)),
        };
        match headers.push(header) {
            Ok(()) => {}
            Err(refused) => return Err(Uncalled::Words(Error::from(refused))),
        }
    }
    Ok(headers)
}

// A header, cut at the first colon. It has to have a name, which is none of those that `send` or the server sets.
fn header_of(text: &str) -> Result<(&str, &str), WordKind>
    ensures ok { IfOk result (λ header. MayBeGiven header.0.now) }
    ensures err { IfErr result (λ kind. IsNoneOf kind text.now) }
{
    match text.split_once(':') {
        Some(("transaction", _)) => Err(WordKind::Transaction),
        Some((name, _)) if is_own_name(name) => Err(WordKind::OwnHeader),
        Some((name, value)) if !name.is_empty() => Ok((name, value)),
        _ => Err(WordKind::Header),
    }
}

// Whether `send` or the server sets a header of this name.
fn is_own_name(name: &str) -> bool
    ensures { result ≡ is_own_name name.now }
{
    matches!(
        name,
        "destination" | "receipt" | "content-length" | "subscription" | "message-id" | "ack"
    )
}

// For how many seconds no message may come, if nothing else is asked for.
const TIMEOUT_SECONDS: u64 = 2;

/// The call that is asked for by `move`.
pub fn move_in<'a>(given: &ArgMatches<'a>) -> Result<Call<'a>, Uncalled<'a>>
    ensures ok { IfOk result CanBeDone }
    ensures refused { IfErr result IsRefused }
{
    let address = address_in(given)?;
    let other = other_in(given)?;
    let (client, errand) = errand_in(given)?;
    if other.is_none() && errand.from == errand.to {
        return Err(Uncalled::Word(WordKind::SamePlace, errand.to));
    }
    Ok(Call::Move {
        address,
        client,
        other,
        errand,
    })
}

// The other server, if there is one.
fn other_in<'a>(given: &ArgMatches<'a>) -> Result<Option<Address<'a>>, Uncalled<'a>>
    ensures refused { IfErr result IsRefused }
{
    let Some(text) = given.get_str("PORT2") else {
        return Ok(None);
    };
    match address_of(text) {
        Some(address) => Ok(Some(address)),
        None => Err(Uncalled::Word(WordKind::Address, text)),
    }
}

// Which messages, and the `client-id` under whose durable name they are kept.
fn errand_in<'a>(given: &ArgMatches<'a>) -> Result<(Option<&'a str>, Errand<'a>), Uncalled<'a>>
    ensures ok { IfOk result (λ it. CanBeMoved it.0 it.1) }
    ensures refused { IfErr result IsRefused }
{
    let from = word_in(given, "FROM");
    let (client, name) = durable_in(given);
    if !is_filled(client) || !is_filled(name) {
        return Err(Uncalled::Word(WordKind::EmptyName, ""));
    }
    if let Some(kind) = unkept(from, name) {
        return Err(Uncalled::Word(kind, from));
    }
    let errand = Errand {
        from,
        name,
        to: word_in(given, "TO"),
        count: whole_count_in(given)?,
        timeout: patience_in(given)?,
    };
    Ok((client, errand))
}

// The `client-id` and the durable name, if they are given.
fn durable_in<'a>(given: &ArgMatches<'a>) -> (Option<&'a str>, Option<&'a str>)
    ensures { is_unnamed result.0 ≡ is_unnamed result.1 }
{
    match given.get_strs("durable") {
        Some([client, name]) => (Some(*client), Some(*name)),
        _ => (None, None),
    }
}

// Why nothing is kept there under that name: a queue has none, and a topic keeps messages for no other.
fn unkept(from: &str, name: Option<&str>) -> Option<WordKind>
    ensures none { IfNone result (Keeps from.now name.entry) }
    ensures some { IfSome result (λ kind. IsNoneOf kind from.now) }
{
    match name {
        Some(_) => {
            if from.starts_with("/queue/") {
                return Some(WordKind::DurableQueue);
            }
            None
        }
        None => {
            if from.starts_with("/topic/") {
                return Some(WordKind::PlainTopic);
            }
            None
        }
    }
}

// For how many seconds no message may come.
fn patience_in<'a>(given: &ArgMatches<'a>) -> Result<u64, Uncalled<'a>>
    ensures ok { IfOk result (λ seconds. 0 < seconds) }
    ensures refused { IfErr result IsRefused }
{
    match timeout_in(given)? {
        Some(seconds) => Ok(seconds),
        None => Ok(TIMEOUT_SECONDS),
    }
}

// How many messages.
fn whole_count_in<'a>(given: &ArgMatches<'a>) -> Result<Option<u64>, Uncalled<'a>>
    ensures ok { IfOk result (λ count. IfSome count (λ count. 0 < count)) }
    ensures refused { IfErr result IsRefused }
{
    let Some(text) = given.get_str("N") else {
        return Ok(None);
    };
    match number_of(text) {
        Some(0) | None => Err(Uncalled::Word(WordKind::Count, text)),
        Some(count) => Ok(Some(count)),
    }
}
