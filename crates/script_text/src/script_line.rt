//! What a line of a script says.

ghost use Rattle.std.specs.Prelude.{◌≡◌, ◌≢◌, ◌+◌, ◌<◌, ◌≤◌, ◌↔◌, ℕ, true, IsTrue, MatchOption};
ghost use Rattle.std.specs.Char.{digit_value, is_digit};
ghost use Rattle.std.specs.Fmt.{decimal};
ghost use Rattle.script_text.specs.ScriptLines.{AreHexDigits, IsCount, IsCountAndFill, IsCrash, IsNoCount, IsNoCountAndFill, IsNoCrash, Says, IsOfNoForm, IsLoss, IsNoLoss, IsNumber, IsNoNumber, HasNoDigit, HasDigit, HasNoDigits, HasDigits, IsDigit, AreDigits, AreNoDigits};

use claim_core::SEATS;
use itoa::Buffer;

/// What a line of a script says.
#[derive(Clone, Copy)]
pub enum ScriptLine<'a> {
    /// Nothing: the line is empty.
    Blank,
    /// All waiting commands are made durable and carried out, and their outputs are printed.
    Flush,
    /// The disk is opened.
    Open,
    /// The disk stops after this many more calls, within a flush. Each unsynced byte then holds the fill, or without one what it held
    /// before.
    Crash { calls: u64, fill: Option<u8> },
    /// A connection is gone; its number is less than the number of seats.
    Lose { connection: u8 },
    /// A connection with such a number receives the bytes that the text stands for.
    Receive { connection: u8, text: &'a [u8] },
}

/// Reads a line, which is given without its LF; `None` if it says nothing that a script can say.
pub fn read_line(line: &[u8]) -> Option<ScriptLine<'_>>
    ensures { MatchOption result (IsOfNoForm line.now) (Says line.now) }
{
    if line.is_empty() {
        return Some(ScriptLine::Blank);
    }
    if line == b"flush".as_slice() {
        return Some(ScriptLine::Flush);
    }
    if line == b"open".as_slice() {
        return Some(ScriptLine::Open);
    }
    if let Some((calls, fill)) = crash(line) {
        return Some(ScriptLine::Crash { calls, fill });
    }
    if let Some(connection) = lost(line) {
        return Some(ScriptLine::Lose { connection });
    }
    if let Some(connection) = one_digit(line) {
        return Some(ScriptLine::Receive {
            connection,
            text: &line[2..],
        });
    }
    match two_digits(line) {
        Some(connection) => Some(ScriptLine::Receive {
            connection,
            text: &line[3..],
        }),
        None => None,
    }
}

// how many calls pass before the crash that the line says, and the byte that fills
fn crash(line: &[u8]) -> Option<(u64, Option<u8>)>
    ensures { MatchOption result (IsNoCrash line.now) (λ said. IsCrash line.now said.0 said.1) }
{
    let Some(text) = line.strip_prefix(b"crash ".as_slice()) else {
        return None;
    };
    match count_and_fill(text) {
        Some((calls, fill)) => Some((calls, Some(fill))),
        None => match count(text) {
            Some(calls) => Some((calls, None)),
            None => None,
        },
    }
}

// a number in decimal without leading zeros, a blank, and two hexadecimal digits
fn count_and_fill(text: &[u8]) -> Option<(u64, u8)>
    ensures { MatchOption result (IsNoCountAndFill text.now) (λ said. IsCountAndFill text.now said.0 said.1) }
{
    if text.len() < 3 {
        return None;
    }
    let (front, end) = text.split_at(text.len() - 3);
    if end[0] != b' ' {
        return None;
    }
    let Some(calls) = count(front) else {
        return None;
    };
    match hex_byte(end[1], end[2]) {
        Some(fill) => Some((calls, fill)),
        None => None,
    }
}

// a number in decimal without leading zeros
fn count(text: &[u8]) -> Option<u64>
    ensures { MatchOption result (IsNoCount text.now) (IsCount text.now) }
{
    let Ok(digits) = str::from_utf8(text) else {
        return None;
    };
    match digits.parse() {
        Ok(number) => {
            if is_decimal(digits, number) {
                Some(number)
            } else {
                None
            }
        }
        Err(_) => None,
    }
}

// whether the text is the number in decimal
fn is_decimal(text: &str, number: u64) -> bool
    ensures { IsTrue result ↔ (text.now ≡ decimal number) }
{
    Buffer::new().format(number) == text
}

// the byte of two hexadecimal digits
fn hex_byte(high: u8, low: u8) -> Option<u8>
    ensures { MatchOption result ((b : ℕ) → AreHexDigits high low b → ⊥) (AreHexDigits high low) }
{
    let (Some(high), Some(low)) = (hex_digit(high), hex_digit(low)) else {
        return None;
    };
    Some(16 * high + low)
}

// the value of a hexadecimal digit
fn hex_digit(byte: u8) -> Option<u8>
    ensures { MatchOption result (is_digit byte 16 ≢ true) (λ d. (is_digit byte 16 ≡ true) × (digit_value byte ≡ d) × (d < 16)) }
{
    match (byte as char).to_digit(16) {
        Some(value) => Some(value as u8),
        None => None,
    }
}

// the number of the connection that the line says is gone
fn lost(line: &[u8]) -> Option<u8>
    ensures { MatchOption result (IsNoLoss line.now) (IsLoss line.now) }
{
    match line.strip_prefix(b"lost ".as_slice()) {
        Some(text) => connection_number(text),
        None => None,
    }
}

// the number of a connection, in decimal without leading zeros
fn connection_number(text: &[u8]) -> Option<u8>
    ensures { MatchOption result (IsNoNumber text.now) (IsNumber text.now) }
{
    match text.len() {
        1 => digit(text[0]),
        2 => from_ten(text[0], text[1]),
        _ => None,
    }
}

// the number at the front of a line, if it is one digit followed by a blank
fn one_digit(line: &[u8]) -> Option<u8>
    ensures { MatchOption result (HasNoDigit line.now) (HasDigit line.now) }
{
    if line.len() < 2 || line[1] != b' ' {
        return None;
    }
    digit(line[0])
}

// the number of a connection at the front of a line, if it is two digits followed by a blank
fn two_digits(line: &[u8]) -> Option<u8>
    ensures { MatchOption result (HasNoDigits line.now) (HasDigits line.now) }
{
    if line.len() < 3 || line[2] != b' ' {
        return None;
    }
    from_ten(line[0], line[1])
}

// the number of a connection, of two digits
fn from_ten(tens: u8, units: u8) -> Option<u8>
    ensures { MatchOption result (AreNoDigits tens units) (AreDigits tens units) }
{
    let (Some(tens), Some(units)) = (digit(tens), digit(units)) else {
        return None;
    };
    let number = 10 * tens + units;
    if number < 10 || number as usize >= SEATS {
        return None;
    }
    Some(number)
}

// the value of a decimal digit
fn digit(byte: u8) -> Option<u8>
    ensures { MatchOption result (¬ (IsDigit byte)) (λ d. (byte ≡ 48 + d) × (d < 10)) }
{
    if byte.is_ascii_digit() {
        Some(byte - b'0')
    } else {
        None
    }
}
