//! Words of a command line: numbers, sizes, addresses and origins, and what is reported of others.

ghost use Rattle.std.specs.Prelude.{◌≡◌, ◌<◌, ◌≤◌, ◌^◌, ◌||◌, IfNone, IfSome, IsNone, ℕ, bytes_eq, codes};
ghost use Rattle.command_line.specs.Words.{kind_text};
ghost use Rattle.command_line.specs.Numbers.{IsNumber};
ghost use Rattle.command_line.specs.Sizes.{IsSize, count_text, is_alike, unit_of, unit_text};
ghost use Rattle.std.specs.List.{list_all};
ghost use Rattle.client_core.specs.declared.peer.Address.{Address};
ghost use Rattle.command_line.specs.Addresses.{IsAddress, after_host, is_path, is_path_byte, is_url, names_place};
ghost use Rattle.command_line.specs.Origins.{after_scheme, is_host_byte, is_lower_or_digit, is_origin, is_scheme_byte, names_host};

use client_core::Address;

/// What a word should have been.
#[derive(Clone, Copy)]
pub enum WordKind {
    /// The size of a file in bytes.
    Bytes,
    /// A port.
    Port,
    /// A port or a URL.
    Address,
    /// A number of threads.
    Threads,
    /// A number of bytes for clients.
    Memory,
    /// An origin that a browser sends.
    Origin,
    /// A header.
    Header,
    /// A header that neither `send` nor the server sets itself.
    OwnHeader,
    /// A header other than `transaction`, since a message is sent in none.
    Transaction,
    /// A number of messages.
    Count,
    /// A number of messages that are not settled.
    UnsettledCount,
    /// No body, since lines of standard input are to be sent.
    BodyOfLines,
    /// No durable name, since a queue has none.
    DurableQueue,
    /// A durable name, or its `client-id`, with at least one character.
    EmptyName,
    /// A queue, or a topic with a durable name, since no other topic keeps messages.
    PlainTopic,
    /// Another place than that where the messages are.
    SamePlace,
    /// A port that stands as an argument.
    PortOption,
    /// A number of seconds.
    Timeout,
}

impl WordKind {
    /// What is reported of a word that is none, after the word.
    pub fn text(self) -> &'static str
        ensures { result.now ≡ kind_text self }
    {
        match self {
            WordKind::Bytes =>
                "a size is a number of bytes under 2^64, or of K, M or G (1,024 of each), as 64M, 64MB or 64MiB",
            WordKind::Port => "PORT is a number from 1 to 65535",
            WordKind::Address =>
                "PORT is a number from 1 to 65535, or ws://HOST:PORT/PATH in small letters; there is no TLS",
            WordKind::Threads => "--threads takes a number from 1 to 64",
            WordKind::Memory =>
                "--memory takes a number of bytes from 16777216 (16M) on, and under 2^64",
            WordKind::Origin =>
                "an origin is what a browser sends: SCHEME://HOST or SCHEME://HOST:PORT in small letters, with nothing after it",
            WordKind::Header => "--header takes NAME:VALUE",
            WordKind::OwnHeader =>
                "send sets destination, receipt and content-length itself, and the server subscription, message-id and ack",
            WordKind::Transaction => "send has no transactions",
            WordKind::Count => "--count takes a number from 1 on",
            WordKind::UnsettledCount =>
                "without --settle at most 16 are shown of what others may get",
            WordKind::BodyOfLines => "with --lines the bodies come from standard input",
            WordKind::DurableQueue => "only a topic has durable names",
            WordKind::EmptyName => "a durable name and its client-id are not empty",
            WordKind::PlainTopic => "a topic keeps messages only for a durable name",
            WordKind::SamePlace => "FROM and TO are the same",
            WordKind::PortOption =>
                "there is no such option: the port stands by itself, as in stompd serve FILE 8080",
            WordKind::Timeout => "--timeout takes a number of seconds from 1 on",
        }
    }
}

// How many threads may serve clients.
const MOST_THREADS: u64 = 64;

// How many bytes clients may hold together at least: a server is of little use if it has to give up all that wait for a large message.
const LEAST_MEMORY: u64 = 16_777_216;

/// The port that a text of decimal digits means: from 1 to 65,535.
pub fn port_of(text: &str) -> Option<u16>
    ensures some { IfSome result (λ port. IsNumber text.now port × (0 < port) × (port < 2 ^ 16)) }
    ensures none { IfNone result ((port : ℕ) → IsNumber text.now port → 0 < port → 2 ^ 16 ≤ port) }
{
    match number_of(text) {
        Some(number) if number > 0 => u16::try_from(number).ok(),
        _ => None,
    }
}

/// The number of threads that a text of decimal digits means: from 1 to 64.
pub(crate) fn thread_number_of(text: &str) -> Option<u16>
    ensures some { IfSome result (λ number. IsNumber text.now number × (0 < number) × (number ≤ 64)) }
    ensures none { IfNone result ((number : ℕ) → IsNumber text.now number → 0 < number → 64 < number) }
{
    match number_of(text) {
        Some(number) if number > 0 && number <= MOST_THREADS => u16::try_from(number).ok(),
        _ => None,
    }
}

/// The number of bytes for clients that a text means: 16,777,216 at least.
#[tactic(auto, using(crate::proofs::Addressing::too_small))]
pub(crate) fn memory_number_of(text: &str) -> Option<u64>
    ensures some { IfSome result (λ number. IsSize text.now number × (16777216 ≤ number) × (number < 2 ^ 64)) }
    ensures none { IfNone result ((number : ℕ) → IsSize text.now number → 16777216 ≤ number → 2 ^ 64 ≤ number) }
{
    let Some(number) = size_of(text) else {
        return None;
    };
    if number < LEAST_MEMORY {
        return None;
    }
    Some(number)
}

/// The number that a text of decimal digits means.
pub fn number_of(text: &str) -> Option<u64>
    ensures some { IfSome result (λ number. IsNumber text.now number × (number < 2 ^ 64)) }
    ensures none { IfNone result ((number : ℕ) → IsNumber text.now number → 2 ^ 64 ≤ number) }
{
    match text.as_bytes() {
        [b'+', ..] => None,
        _ => text.parse::<u64>().ok(),
    }
}

/// The number of bytes that a text means: decimal digits, and perhaps a unit after them.
pub(crate) fn size_of(text: &str) -> Option<u64>
    ensures some { IfSome result (λ n. IsSize text.now n × (n < 2 ^ 64)) }
    ensures none { IfNone result ((n : ℕ) → IsSize text.now n → 2 ^ 64 ≤ n) }
{
    let bytes = text.as_bytes();
    let unit = unit_of(unit_text(bytes))?;
    let digits = str::from_utf8(count_text(bytes)).ok()?;
    let count = number_of(digits)?;
    count.checked_mul(unit)
}

// What follows the digits at the front.
fn unit_text(text: &[u8]) -> &[u8]
    ensures { result.now ≡ unit_text text.now }
{
    let mut rest = text;
    while !rest.is_empty() && rest[0].is_ascii_digit() {
        rest = &rest[1..];
    }
    rest
}

// Those digits.
fn count_text(text: &[u8]) -> &[u8]
    ensures { result.now ≡ count_text text.now }
{
    &text[..text.len().saturating_sub(unit_text(text).len())]
}

// How many bytes a unit has: K, M or G, alone or with B or iB, in capital or small letters.
fn unit_of(text: &[u8]) -> Option<u64>
    ensures { result ≡ unit_of text.now }
{
    if text.is_empty() {
        return Some(1);
    }
    if is_any(text, "K", "KB", "KiB") {
        return Some(1_024);
    }
    if is_any(text, "M", "MB", "MiB") {
        return Some(1_048_576);
    }
    if is_any(text, "G", "GB", "GiB") {
        return Some(1_073_741_824);
    }
    None
}

fn is_any(text: &[u8], letter: &str, bytes: &str, binary: &str) -> bool
    ensures { result ≡ is_alike text.now letter.now || is_alike text.now bytes.now || is_alike text.now binary.now }
{
    is_alike(text, letter) || is_alike(text, bytes) || is_alike(text, binary)
}

fn is_alike(one: &[u8], other: &str) -> bool
    ensures { result ≡ is_alike one.now other.now }
{
    one.eq_ignore_ascii_case(other.as_bytes())
}

/// The address that a text means: a port of this machine, or `ws://HOST`, perhaps with a port and a path.
#[tactic(auto, using(crate::proofs::Addressing::no_place))]
pub fn address_of(text: &str) -> Option<Address<'_>>
    ensures some { IfSome result (IsAddress text.now) }
    ensures none { IsNone result → (address : Address) → IsAddress text.now address → ⊥ }
{
    if let Some(port) = port_of(text) {
        return Some(Address::Port(port));
    }
    if is_url(text.as_bytes()) {
        return Some(Address::Url(text));
    }
    None
}

fn is_url(text: &[u8]) -> bool
    ensures { result ≡ is_url text.now }
{
    text.len() > 5 && text.starts_with(b"ws://") && names_place(&text[5..])
}

// Whether it begins with a host, perhaps with a port, and nothing but a path follows.
fn names_place(text: &[u8]) -> bool
    ensures { result ≡ names_place text.now }
{
    let rest = after_host(text);
    rest.len() < text.len() && is_path(rest)
}

// What follows the bytes of a host at the front.
fn after_host(text: &[u8]) -> &[u8]
    ensures { result.now ≡ after_host text.now }
{
    let mut rest = text;
    while !rest.is_empty() && is_host_byte(rest[0]) {
        rest = &rest[1..];
    }
    rest
}

fn is_path(text: &[u8]) -> bool
    ensures { result ≡ is_path text.now }
{
    text.is_empty() || text.starts_with(b"/") && are_path_bytes(&text[1..])
}

fn are_path_bytes(text: &[u8]) -> bool
    ensures { result ≡ list_all is_path_byte text.now }
{
    text.iter().all(|byte| is_path_byte(*byte))
}

fn is_path_byte(byte: u8) -> bool
    ensures { result ≡ is_path_byte byte }
{
    byte > 32 && byte < 127 && byte != b'#'
}

/// Whether a browser sends this as the origin of a page (RFC 6454, section 6.2).
pub fn is_origin(text: &[u8]) -> bool
    ensures { result ≡ is_origin text.now }
{
    if is_null(text) {
        return true;
    }
    let rest = after_scheme(text);
    rest.len() < text.len() && names_host(rest)
}

fn is_null(text: &[u8]) -> bool
    ensures { result ≡ bytes_eq text.now (codes "null") }
{
    text == b"null".as_slice()
}

// What follows the bytes of a scheme at the front.
fn after_scheme(text: &[u8]) -> &[u8]
    ensures { result.now ≡ after_scheme text.now }
{
    let mut rest = text;
    while !rest.is_empty() && is_scheme_byte(rest[0]) {
        rest = &rest[1..];
    }
    rest
}

// Whether it begins with `://` and a host follows, perhaps with a port, and nothing else.
fn names_host(rest: &[u8]) -> bool
    ensures { result ≡ names_host rest.now }
{
    rest.starts_with(b"://") && rest.len() > 3 && are_host_bytes(&rest[3..])
}

/// Whether these may stand in a host and its port.
pub fn are_host_bytes(text: &[u8]) -> bool
    ensures { result ≡ list_all is_host_byte text.now }
{
    text.iter().all(|byte| is_host_byte(*byte))
}

fn is_lower_or_digit(byte: u8) -> bool
    ensures { result ≡ is_lower_or_digit byte }
{
    byte.is_ascii_lowercase() || byte.is_ascii_digit()
}

fn is_scheme_byte(byte: u8) -> bool
    ensures { result ≡ is_scheme_byte byte }
{
    is_lower_or_digit(byte) || byte == b'+' || byte == b'-' || byte == b'.'
}

pub(crate) fn is_host_byte(byte: u8) -> bool
    ensures { result ≡ is_host_byte byte }
{
    is_lower_or_digit(byte)
        || byte == b'-'
        || byte == b'.'
        || byte == b':'
        || byte == b'['
        || byte == b']'
        || byte == b'_'
}
