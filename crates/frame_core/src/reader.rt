//! A reader of frames that is fed in pieces.

ghost use Rattle.std.specs.Prelude.{◌≡◌, ◌≢◌, ◌++◌, ◌-◌, ◌^◌, [], List, ℕ, true, false, MatchOption, OnOk, OnErr, IfOk, IfErr, flat_map, length, min, ◌<◌, ◌≤◌, ◌⊎◌, ◌∷◌, MatchResult, Some, None, is_some, take, slice_index};
ghost use Rattle.std.specs.List.{AllByRecursion};
ghost use Rattle.std.specs.Str.{IsUtf8};
ghost use Rattle.std.specs.Str.Parse.{IsNumeral};
ghost use Rattle.frame_core.specs.Parts.{IsUnfinished, Plans};
ghost use Rattle.frame_core.specs.Streams.{Frames, Reads, Fails};
ghost use Rattle.frame_core.specs.Stops.{IfFault, IsCommandFault, IsHeaderText, IsHeaderFault, IsPlanFault};
ghost use Rattle.frame_core.specs.Partials.{IsKept, bytes_of};
ghost use Rattle.frame_core.specs.declared.fault.FrameFault.TheVariants.{UndefinedEscape, BadHeaderValue};
ghost use Rattle.frame_core.specs.Verbs.{name_of};
ghost use Rattle.frame_core.specs.Heads.{IsInLine, meaning, meant};
ghost use Rattle.frame_core.specs.Spelling.{IsNumber, Spells};
ghost use Rattle.frame_core.specs.declared.frame.Frame.{Frame};
ghost use Rattle.frame_core.specs.declared.fault.FrameFault.{FrameFault};

use crate::fault::FrameFault;
use crate::frame::{Frame, Headers, Verb, value_of};
use crate::text::{Bytes, Text};
use escape_core::{EscapeFault, is_defined, unescape};
use memchr::{memchr, memchr3};
use std::alloc::{AllocError, AllocFailed, Global};
use std::marker::Model;
use std::mem;
use thiserror::Error;

/// The bytes of a head: its command line, its header lines and its empty line.
const MAX_HEAD: usize = 8192;

/// The headers of a frame.
const MAX_HEADERS: usize = 64;

/// The bytes of a body.
pub(crate) const MAX_BODY: usize = 65_536;

/// The digits that a `content-length` may have.
const MAX_DIGITS: usize = 10;

/// Why a piece was not read.
#[derive(Clone, Copy, Debug, PartialEq, Eq, Error)]
pub enum FeedFault {
    /// A growth was refused. The reader has failed for good.
    #[error("no memory")]
    Memory,
    /// An earlier piece had a fault, or its memory was refused.
    #[error("failed before")]
    Failed,
}

/// What a piece gave: the frames that it ended, and the fault after them, if it has the byte that decides one.
#[derive(Drop)]
pub struct Fed {
    /// The frames that end in the piece, in their order.
    pub frames: Vec<Frame>,
    /// The fault after them, if the piece has the byte that decides one.
    pub fault: Option<FrameFault>,
}

/// Reads frames from pieces of a stream, however it is cut.
#[derive(Drop)]
pub struct FrameReader {
    partial: Partial,
    failed: bool,
}

impl Model for FrameReader {
    ghost use Rattle.std.specs.Prelude.{◌≡◌, false};
    ghost use Rattle.frame_core.specs.Reading.{Reading};

    ghost Value = { Reading };

    ghost use Rattle.frame_core.specs.Partials.{IsKept, bytes_of};

    ghost view = { λ a. record { rest = bytes_of a.partial; failed = a.failed } };

    ghost invariant = { λ a. a.failed ≡ false → IsKept a.partial };
}

impl FrameReader {
    /// A reader at the beginning of a stream. It takes no memory.
    pub fn new(alloc: Global) -> FrameReader
        ensures empty { result.rest ≡ [] }
        ensures open { result.failed ≡ false }
    {
        FrameReader {
            partial: Partial::new(alloc),
            failed: false,
        }
    }

    /// How many bytes it keeps of a frame that is not finished.
    pub fn len(&self) -> usize
        ensures { result ≡ min (length self.now.rest) (2 ^ 64 - 1) }
    {
        self.partial.len()
    }

    /// Reads a piece of the stream, after the bytes that earlier pieces left of an unfinished frame. It gives the
    /// frames that are whole now, each as its bytes spell it, and the fault after them, if the piece has the byte that
    /// decides one. The grammar is that of STOMP 1.2 ("Augmented BNF"), within the limits of 8,192 bytes of head, 64
    /// headers and 65,536 bytes of body. So the frames and the fault of a stream do not depend on how it is cut.
    ///
    /// After a fault, and after memory was refused, every call is `Failed`.
    pub fn feed(&mut self, alloc: Global, piece: &[u8]) -> Result<Fed, FeedFault>
        ensures fed { IfOk result (λ fed. MatchOption fed.fault
            (Reads (self.old.rest ++ piece.now) fed.frames.items self.new.rest × (self.new.failed ≡ false))
            (λ fault. Fails (self.old.rest ++ piece.now) fed.frames.items fault × (self.new.failed ≡ true))) }
        ensures open { OnOk result (self.old.failed ≡ false) }
        ensures err { OnErr result (self.new.failed ≡ true) }
        ensures memory { IfErr result (λ fault. self.old.failed ≡ false → fault ≡ FeedFault.Memory) }
        ensures failed { self.old.failed ≡ true → result ≡ Err FeedFault.Failed }
    {
        if self.failed {
            return Err(FeedFault::Failed);
        }
        self.failed = true;
        let mut frames = Vec::new(alloc);
        match read_piece(alloc, &mut self.partial, &mut frames, piece) {
            Ok(()) => {
                self.failed = false;
                Ok(Fed {
                    frames,
                    fault: None,
                })
            }
            Err(Stop::Fault(fault)) => Ok(Fed {
                frames,
                fault: Some(fault),
            }),
            Err(Stop::Memory) => Err(FeedFault::Memory),
        }
    }
}

/// Reads the piece after the bytes of the unfinished frame.
fn read_piece(
    alloc: Global,
    partial: &mut Partial,
    frames: &mut Vec<Frame>,
    piece: &[u8],
) -> Result<(), Stop>
    requires none_yet { frames.old.items ≡ [] }
    requires kept { IsKept partial.old }
    ensures ok { OnOk result (Frames (bytes_of partial.old ++ piece.now) frames.new.items (bytes_of partial.new) × IsKept partial.new) }
    ensures fault { IfErr result (λ stop. IfFault stop (λ fault. Fails (bytes_of partial.old ++ piece.now) frames.new.items fault)) }
{
    let mut at = 0;
    while at < piece.len() {
        let count = partial.advance(alloc, frames, &piece[at..])?;
        at += count;
    }
    Ok(())
}

/// Reads a stream that comes in pieces, from its beginning to its first fault or its last piece. The answer is that of
/// the pieces joined, so it does not depend on the cut. `Memory` is its one error.
pub fn read_pieces(alloc: Global, pieces: &[Vec<u8>]) -> Result<Fed, FeedFault>
    ensures stream { IfOk result (λ fed. let stream = flat_map (λ piece. piece.items) pieces.now in
        MatchOption fed.fault
        ((rest : List ℕ) × Reads stream fed.frames.items rest)
        (λ fault. Fails stream fed.frames.items fault)) }
    ensures memory { IfErr result (λ fault. fault ≡ FeedFault.Memory) }
{
    let mut reader = FrameReader::new(alloc);
    let mut frames = Vec::new(alloc);
    for piece in pieces {
        let mut fed = reader.feed(alloc, piece.as_slice())?;
        frames
            .append(&mut fed.frames)
            .map_err(|_| FeedFault::Memory)?;
        if let Some(fault) = fed.fault {
            return Ok(Fed {
                frames,
                fault: Some(fault),
            });
        }
    }
    Ok(Fed {
        frames,
        fault: None,
    })
}

/// Why reading stops.
#[derive(Clone, Copy)]
pub(crate) enum Stop {
    Memory,
    Fault(FrameFault),
}

impl From<AllocError> for Stop {
    ghost use Rattle.std.specs.Prelude.{◌≡◌};
    ghost use Rattle.frame_core.specs.declared.reader.Stop.TheVariants.{Memory};

    ghost from_gives = { λ _ stop. stop ≡ Memory };

    fn from(_error: AllocError) -> Stop {
        Stop::Memory
    }
}

impl<T: Drop> From<AllocFailed<T>> for Stop {
    ghost use Rattle.std.specs.Prelude.{◌≡◌};
    ghost use Rattle.frame_core.specs.declared.reader.Stop.TheVariants.{Memory};

    ghost from_gives = { λ _ stop. stop ≡ Memory };

    fn from(_error: AllocFailed<T>) -> Stop {
        Stop::Memory
    }
}

impl From<FrameFault> for Stop {
    ghost use Rattle.std.specs.Prelude.{◌≡◌};
    ghost use Rattle.frame_core.specs.declared.reader.Stop.TheVariants.{Fault};

    ghost from_gives = { λ fault stop. stop ≡ Fault fault };

    fn from(fault: FrameFault) -> Stop {
        Stop::Fault(fault)
    }
}

/// How far an unfinished frame has come.
#[derive(Clone, Copy)]
pub(crate) enum Section {
    /// The command line isn't whole. Between two frames nothing of it is there, or the CR that may begin an EOL.
    Command,
    /// The command line is whole, and header lines or the empty line follow.
    HeaderLines(Verb),
    /// The head is whole, and the body follows: of so many bytes, or up to the first NUL.
    Body(Verb, Option<usize>),
}

/// An unfinished frame. Its bytes are kept as they came, and each line of its head is read once, at its LF.
#[derive(Drop)]
pub(crate) struct Partial {
    pub(crate) section: Section,
    /// The bytes of the head so far.
    pub(crate) head: Vec<u8>,
    /// Where in the head the unfinished line begins.
    pub(crate) line: usize,
    /// Whether the last byte is a CR, which only an LF may follow.
    pub(crate) with_cr: bool,
    pub(crate) headers: Vec<(Text, Text)>,
    /// The bytes after the head.
    pub(crate) body: Vec<u8>,
}

impl Partial {
    ghost use Rattle.std.specs.Prelude.{◌≡◌, ◌≢◌, ◌<◌, ◌≤◌, ◌+◌, ◌-◌, ◌++◌, ◌∷◌, [], ◌^◌, if◌then◌else◌, List, ℕ, Some, None, OnOk, IfOk, IfErr, length, min, take, true, false};
    ghost use Rattle.std.specs.List.{AllByRecursion};
    ghost use Rattle.frame_core.specs.declared.reader.Section.TheVariants.{Command, HeaderLines, Body};
    ghost use Rattle.frame_core.specs.declared.reader.Stop.TheVariants.{Memory};
    ghost use Rattle.frame_core.specs.Streams.{Frames, Fails};
    ghost use Rattle.frame_core.specs.Faults.{Faulty};
    ghost use Rattle.frame_core.specs.Stops.{IfFault};
    ghost use Rattle.frame_core.specs.Partials.{IsKept, IsKeptAt, IsInHead, bytes_of, Advances, AdvancesHead, IsNextLineOf, frame_of};

    /// Nothing yet. It takes no memory.
    pub(crate) fn new(alloc: Global) -> Partial
        ensures kept { IsKept result }
        ensures empty { bytes_of result ≡ [] }
    {
        Partial {
            section: Section::Command,
            head: Vec::new(alloc),
            line: 0,
            with_cr: false,
            headers: Vec::new(alloc),
            body: Vec::new(alloc),
        }
    }

    /// How many bytes it has.
    pub(crate) fn len(&self) -> usize
        ensures { result ≡ min (length (bytes_of self.now)) (2 ^ 64 - 1) }
    {
        self.head.len().saturating_add(self.body.len())
    }

    /// Takes some bytes of the piece, which isn't empty, and says how many.
    pub(crate) fn advance(
        &mut self,
        alloc: Global,
        frames: &mut Vec<Frame>,
        piece: &[u8],
    ) -> Result<usize, Stop>
        requires some_byte { 0 < length piece.now }
        requires kept { IsKept self.old }
        ensures ok { IfOk result (λ count. Advances self.old self.new frames.old.items frames.new.items piece.now count) }
        ensures fault { IfErr result (λ stop. IfFault stop (λ fault.
            (frames.new.items ≡ frames.old.items) × Fails (bytes_of self.old ++ piece.now) [] fault)) }
    {
        match self.section {
            Section::Body(verb, Some(n)) => self.take_counted(alloc, verb, n, frames, piece),
            Section::Body(verb, None) => self.take_to_nul(alloc, verb, frames, piece),
            _ => self.take_head(alloc, piece),
        }
    }

    /// Takes bytes of a line up to its end, or a byte of its end.
    fn take_head(&mut self, alloc: Global, piece: &[u8]) -> Result<usize, Stop>
        requires some_byte { 0 < length piece.now }
        requires in_head { IsInHead self.old.section }
        requires kept { IsKept self.old }
        ensures ok { IfOk result (λ count. AdvancesHead self.old self.new piece.now count) }
        ensures fault { IfErr result (λ stop. IfFault stop (λ fault. Fails (bytes_of self.old ++ piece.now) [] fault)) }
    {
        let count = run_in_line(piece);
        if count == 0 || self.with_cr {
            self.take_byte(alloc, piece[0])?;
            return Ok(1);
        }
        if count > MAX_HEAD - self.head.len() {
            return Err(Stop::Fault(FrameFault::TooLarge));
        }
        self.head.extend_from_slice(&piece[..count])?;
        Ok(count)
    }

    /// Takes one byte of the head.
    fn take_byte(&mut self, alloc: Global, byte: u8) -> Result<(), Stop>
        requires in_head { IsInHead self.old.section }
        requires kept { IsKept self.old }
        ensures ok { OnOk result (Frames (bytes_of self.old ++ byte ∷ []) [] (bytes_of self.new) × IsKept self.new) }
        ensures fault { IfErr result (λ stop. IfFault stop (λ fault. Faulty fault (bytes_of self.old ++ byte ∷ []))) }
    {
        if self.head.len() == MAX_HEAD {
            return Err(Stop::Fault(FrameFault::TooLarge));
        }
        if byte == b'\n' {
            return self.end_line(alloc);
        }
        if byte == 0 || self.with_cr {
            return Err(Stop::Fault(FrameFault::Malformed));
        }
        self.head.push(byte)?;
        self.with_cr = byte == b'\r';
        Ok(())
    }

    /// Takes the LF of a line.
    fn end_line(&mut self, alloc: Global) -> Result<(), Stop>
        requires in_head { IsInHead self.old.section }
        requires kept { IsKept self.old }
        requires room { length self.old.head.items < 8192 }
        ensures ok { OnOk result (Frames (bytes_of self.old ++ 10 ∷ []) [] (bytes_of self.new) × IsKept self.new) }
        ensures fault { IfErr result (λ stop. IfFault stop (λ fault. Faulty fault (bytes_of self.old ++ 10 ∷ []))) }
    {
        match self.section {
            Section::Command => self.end_command_line(),
            Section::HeaderLines(verb) => self.end_header_line(alloc, verb),
            Section::Body(..) => unreachable!(),
        }
    }

    /// Where the text of the unfinished line ends.
    fn text_end(&self) -> usize
        ensures { result ≡ length self.now.head.items - (if self.now.with_cr then 1 else 0) }
    {
        self.head.len().saturating_sub(usize::from(self.with_cr))
    }

    /// Takes the LF of a command line, or of an EOL between two frames.
    fn end_command_line(&mut self) -> Result<(), Stop>
        requires kept { IsKeptAt Command self.old }
        requires section { self.old.section ≡ Command }
        requires room { length self.old.head.items < 8192 }
        ensures ok { OnOk result (Frames (bytes_of self.old ++ 10 ∷ []) [] (bytes_of self.new) × IsKept self.new) }
        ensures fault { IfErr result (λ stop. IfFault stop (λ fault. Faulty fault (bytes_of self.old ++ 10 ∷ []))) }
    {
        let end = self.text_end();
        if end == 0 {
            self.head.clear();
            self.with_cr = false;
            return Ok(());
        }
        let verb = verb_of(&self.head[self.line..end])?;
        self.next_line(Section::HeaderLines(verb))
    }

    /// Takes the LF of a header line or of the empty line.
    fn end_header_line(&mut self, alloc: Global, verb: Verb) -> Result<(), Stop>
        requires kept { IsKeptAt (HeaderLines verb) self.old }
        requires room { length self.old.head.items < 8192 }
        ensures ok { OnOk result (Frames (bytes_of self.old ++ 10 ∷ []) [] (bytes_of self.new) × IsKept self.new) }
        ensures fault { IfErr result (λ stop. IfFault stop (λ fault. Faulty fault (bytes_of self.old ++ 10 ∷ []))) }
        // A header after the 64th is refused before memory is taken for it.
        ensures full { length self.old.headers.items ≡ 64 →
            self.old.line ≢ length self.old.head.items - (if self.old.with_cr then 1 else 0) → IfErr result (λ stop. stop ≢ Memory) }
    {
        let end = self.text_end();
        if end == self.line {
            let plan = body_plan(verb, self.headers.as_slice())?;
            return self.next_line(Section::Body(verb, plan));
        }
        if self.headers.len() == MAX_HEADERS {
            // One header too many is refused in this way, or for what is wrong with it.
            let refusal = refusal_of(verb, &self.head[self.line..end]);
            return Err(Stop::Fault(refusal.unwrap_or(FrameFault::TooLarge)));
        }
        let header = header_of(alloc, verb, &self.head[self.line..end])?;
        self.headers.push(header)?;
        self.next_line(Section::HeaderLines(verb))
    }

    /// Ends the line with its LF, and begins the next.
    fn next_line(&mut self, section: Section) -> Result<(), Stop>
        requires { length self.old.head.items < 8192 }
        ensures ok { OnOk result (IsNextLineOf section self.old self.new) }
        ensures fault { IfErr result (λ stop. stop ≡ Memory) }
    {
        self.line = self.head.len() + 1;
        self.head.push(b'\n')?;
        self.with_cr = false;
        self.section = section;
        Ok(())
    }

    /// Takes bytes of a body of announced length, or the NUL after it.
    fn take_counted(
        &mut self,
        alloc: Global,
        verb: Verb,
        announced: usize,
        frames: &mut Vec<Frame>,
        piece: &[u8],
    ) -> Result<usize, Stop>
        requires some_byte { 0 < length piece.now }
        requires section { self.old.section ≡ Body verb (Some announced) }
        requires kept { IsKeptAt (Body verb (Some announced)) self.old }
        ensures ok { IfOk result (λ count. Advances self.old self.new frames.old.items frames.new.items piece.now count) }
        ensures fault { IfErr result (λ stop. IfFault stop (λ fault.
            (frames.new.items ≡ frames.old.items) × Fails (bytes_of self.old ++ piece.now) [] fault)) }
    {
        let left = announced - self.body.len();
        if left == 0 {
            if piece[0] != 0 {
                return Err(Stop::Fault(FrameFault::Malformed));
            }
            self.finish(alloc, verb, frames)?;
            return Ok(1);
        }
        let count = left.min(piece.len());
        self.body.extend_from_slice(&piece[..count])?;
        Ok(count)
    }

    /// Takes bytes of a body up to its NUL, or the NUL.
    fn take_to_nul(
        &mut self,
        alloc: Global,
        verb: Verb,
        frames: &mut Vec<Frame>,
        piece: &[u8],
    ) -> Result<usize, Stop>
        requires some_byte { 0 < length piece.now }
        requires section { self.old.section ≡ Body verb None }
        requires kept { IsKeptAt (Body verb None) self.old }
        ensures ok { IfOk result (λ count. Advances self.old self.new frames.old.items frames.new.items piece.now count) }
        ensures fault { IfErr result (λ stop. IfFault stop (λ fault.
            (frames.new.items ≡ frames.old.items) × Fails (bytes_of self.old ++ piece.now) [] fault)) }
    {
        let count = run_before_nul(piece);
        if count == 0 {
            self.finish(alloc, verb, frames)?;
            return Ok(1);
        }
        if !verb.has_body() {
            return Err(Stop::Fault(FrameFault::BodyNotAllowed));
        }
        if count > MAX_BODY - self.body.len() {
            return Err(Stop::Fault(FrameFault::TooLarge));
        }
        self.body.extend_from_slice(&piece[..count])?;
        Ok(count)
    }

    /// Ends the frame at its NUL, and begins the next.
    fn finish(&mut self, alloc: Global, verb: Verb, frames: &mut Vec<Frame>) -> Result<(), Stop>
        ensures frames { OnOk result (frames.new.items ≡ frames.old.items ++ frame_of verb self.old ∷ []) }
        ensures kept { OnOk result (IsKept self.new) }
        ensures empty { OnOk result (bytes_of self.new ≡ []) }
        ensures fault { IfErr result (λ stop. stop ≡ Memory) }
    {
        let headers = Headers::new(mem::replace(&mut self.headers, Vec::new(alloc)));
        let body = Bytes::new(mem::replace(&mut self.body, Vec::new(alloc)));
        frames.push(Frame {
            verb,
            headers,
            body,
        })?;
        self.head.clear();
        self.line = 0;
        self.with_cr = false;
        self.section = Section::Command;
        Ok(())
    }
}

/// The command of a command line, which stands there without its EOL.
pub(crate) fn verb_of(line: &[u8]) -> Result<Verb, FrameFault>
    ensures { MatchResult result (λ verb. line.now ≡ name_of verb) (IsCommandFault line.now) }
{
    let Ok(text) = str::from_utf8(line) else {
        return Err(FrameFault::BadHeaderValue);
    };
    match Verb::from_name(text) {
        Some(verb) => Ok(verb),
        None => Err(FrameFault::UnknownCommand),
    }
}

/// The bytes that a name or value means under a command, if it has an escape. `None` says that it means itself.
fn meaning_of(alloc: Global, verb: Verb, bytes: &[u8]) -> Result<Option<Vec<u8>>, Stop>
    ensures ok { IfOk result (λ other. meaning verb bytes.now ≡ Some (meant bytes.now other)) }
    ensures fault { IfErr result (λ stop. IfFault stop (λ fault. (fault ≡ UndefinedEscape) × (meaning verb bytes.now ≡ None))) }
{
    if verb.is_raw() {
        return Ok(None);
    }
    // Most names and values have no escape.
    if !has_byte(b'\\', bytes) {
        return Ok(None);
    }
    match unescape(alloc, bytes) {
        Ok(text) => Ok(Some(text)),
        Err(EscapeFault::Undefined) => Err(Stop::Fault(FrameFault::UndefinedEscape)),
        Err(EscapeFault::Memory) => Err(Stop::Memory),
    }
}

/// The bytes as a text.
fn text_of(bytes: Vec<u8>) -> Result<Text, Stop>
    ensures ok { IfOk result (λ text. (text ≡ bytes.items) × IsUtf8 bytes.items) }
    ensures fault { IfErr result (λ stop. IfFault stop (λ fault. (fault ≡ BadHeaderValue) × (IsUtf8 bytes.items → ⊥))) }
{
    match String::from_utf8(bytes) {
        Ok(text) => Ok(Text::new(text)),
        Err(_) => Err(Stop::Fault(FrameFault::BadHeaderValue)),
    }
}

/// A copy of the bytes as a text.
fn copy_of(alloc: Global, bytes: &[u8]) -> Result<Text, Stop>
    ensures ok { IfOk result (λ text. (text ≡ bytes.now) × IsUtf8 bytes.now) }
    ensures fault { IfErr result (λ stop. IfFault stop (λ fault. (fault ≡ BadHeaderValue) × (IsUtf8 bytes.now → ⊥))) }
{
    match str::from_utf8(bytes) {
        Ok(text) => Ok(Text::copy(alloc, text)?),
        Err(_) => Err(Stop::Fault(FrameFault::BadHeaderValue)),
    }
}

/// What a name or value means, as a text: the other bytes, if it has an escape.
fn meant_text(alloc: Global, bytes: &[u8], other: Option<Vec<u8>>) -> Result<Text, Stop>
    ensures ok { IfOk result (λ text. (text ≡ meant bytes.now other) × IsUtf8 (meant bytes.now other)) }
    ensures fault { IfErr result (λ stop. IfFault stop (λ fault. (fault ≡ BadHeaderValue) × (IsUtf8 (meant bytes.now other) → ⊥))) }
{
    match other {
        None => copy_of(alloc, bytes),
        Some(other) => text_of(other),
    }
}

/// The bytes before the first colon of a header line and those after it, if any stand before it.
fn cut_at_colon(line: &[u8]) -> Option<(&[u8], &[u8])>
    ensures { MatchOption result
        (AllByRecursion (λ b. b ≢ 58) line.now ⊎ ((value : List ℕ) × (line.now ≡ 58 ∷ value)))
        (λ parts. (line.now ≡ parts.0.now ++ (58 ∷ parts.1.now)) × (0 < length parts.0.now)
        × AllByRecursion (λ b. b ≢ 58) parts.0.now) }
{
    match place_of(b':', line) {
        None | Some(0) => None,
        Some(colon) => Some((&line[..colon], &line[colon + 1..])),
    }
}

/// The header of a header line, which stands there without its EOL.
pub(crate) fn header_of(alloc: Global, verb: Verb, line: &[u8]) -> Result<(Text, Text), Stop>
    requires { AllByRecursion IsInLine line.now }
    ensures ok { IfOk result (λ header. IsHeaderText verb line.now header) }
    ensures fault { IfErr result (λ stop. IfFault stop (IsHeaderFault verb line.now)) }
{
    let Some((name, value)) = cut_at_colon(line) else {
        return Err(Stop::Fault(FrameFault::Malformed));
    };
    let other_name = meaning_of(alloc, verb, name)?;
    let other_value = meaning_of(alloc, verb, value)?;
    let name = meant_text(alloc, name, other_name)?;
    let value = meant_text(alloc, value, other_value)?;
    Ok((name, value))
}

/// Whether the bytes of a name or value mean something under a command. No memory is taken.
fn has_meaning(verb: Verb, bytes: &[u8]) -> bool
    ensures { result ≡ is_some (meaning verb bytes.now) }
{
    verb.is_raw() || is_defined(bytes)
}

/// Why a header line, which stands there without its EOL, is refused, if it is. No memory is taken.
pub(crate) fn refusal_of(verb: Verb, line: &[u8]) -> Option<FrameFault>
    requires { AllByRecursion IsInLine line.now }
    ensures { MatchOption result
        ((header : List ℕ × List ℕ) × IsHeaderText verb line.now header)
        (IsHeaderFault verb line.now) }
{
    let Some((name, value)) = cut_at_colon(line) else {
        return Some(FrameFault::Malformed);
    };
    if !has_meaning(verb, name) {
        return Some(FrameFault::UndefinedEscape);
    }
    if !has_meaning(verb, value) {
        return Some(FrameFault::UndefinedEscape);
    }
    // The escapes are ASCII on both sides, so the bytes are looked at as they stand.
    let Ok(_) = str::from_utf8(name) else {
        return Some(FrameFault::BadHeaderValue);
    };
    let Ok(_) = str::from_utf8(value) else {
        return Some(FrameFault::BadHeaderValue);
    };
    None
}

/// The number of one to ten decimal digits.
fn number_of(text: &str) -> Option<u64>
    ensures { MatchOption result
        ((IsNumeral 10 text.now → ⊥) ⊎ (10 < length text.now))
        (λ n. IsNumber text.now n × (length text.now ≤ 10)) }
{
    if text.len() > MAX_DIGITS || text.as_bytes().first().copied() == Some(b'+') {
        return None;
    }
    match text.parse() {
        Ok(number) => Some(number),
        Err(_) => None,
    }
}

/// How the body ends under these headers: after so many bytes if they announce them, or else at its first NUL.
pub(crate) fn body_plan(verb: Verb, headers: &[(Text, Text)]) -> Result<Option<usize>, FrameFault>
    ensures { MatchResult result (Plans verb headers.now) (IsPlanFault verb headers.now) }
{
    let Some(text) = value_of(headers, "content-length") else {
        return Ok(None);
    };
    let Some(length) = number_of(text) else {
        return Err(FrameFault::BadHeaderValue);
    };
    if length > MAX_BODY as u64 {
        return Err(FrameFault::TooLarge);
    }
    if length > 0 && !verb.has_body() {
        return Err(FrameFault::BodyNotAllowed);
    }
    Ok(Some(length as usize))
}

/// The first place of the byte.
pub(crate) fn place_of(byte: u8, bytes: &[u8]) -> Option<usize>
    ensures { MatchOption result
        (AllByRecursion (λ b. b ≢ byte) bytes.now)
        (λ at. (at < length bytes.now) × AllByRecursion (λ b. b ≢ byte) (take at bytes.now) × (slice_index bytes.now at ≡ byte)) }
{
    memchr(byte, bytes)
}

/// How many bytes stand before the first NUL.
pub(crate) fn run_before_nul(bytes: &[u8]) -> usize
    ensures within { result ≤ length bytes.now }
    ensures run { AllByRecursion (λ b. b ≢ 0) (take result bytes.now) }
    ensures nul { result < length bytes.now → slice_index bytes.now result ≡ 0 }
{
    match place_of(0, bytes) {
        Some(at) => at,
        None => bytes.len(),
    }
}

/// How many bytes stand before the first NUL, LF or CR.
pub(crate) fn run_in_line(bytes: &[u8]) -> usize
    ensures within { result ≤ length bytes.now }
    ensures run { AllByRecursion IsInLine (take result bytes.now) }
{
    match memchr3(0, b'\n', b'\r', bytes) {
        Some(at) => at,
        None => bytes.len(),
    }
}

/// Whether the byte stands there.
pub(crate) fn has_byte(byte: u8, bytes: &[u8]) -> bool
    ensures { result ≡ false → AllByRecursion (λ b. b ≢ byte) bytes.now }
{
    match place_of(byte, bytes) {
        Some(_) => true,
        None => false,
    }
}

/// No spelling of a frame begins another, and bytes spell one frame.
pub fn one_spelling()
    ensures { (a b x y : List ℕ) (f g : Frame) → Spells a f → Spells b g → a ++ x ≡ b ++ y
        → (a ≡ b) × (f ≡ g) }
{}

/// Each stream has an answer, frames with a rest or with a fault, and at most one.
pub fn one_answer()
    ensures some { (stream : List ℕ) → ((frames : List Frame) × (rest : List ℕ) × Reads stream frames rest)
        ⊎ ((frames : List Frame) × (fault : FrameFault) × Fails stream frames fault) }
    ensures reads { (stream : List ℕ) (a b : List Frame) (q r : List ℕ) → Reads stream a q → Reads stream b r
        → (a ≡ b) × (q ≡ r) }
    ensures fails { (stream : List ℕ) (a b : List Frame) (f g : FrameFault) → Fails stream a f → Fails stream b g
        → (a ≡ b) × (f ≡ g) }
    ensures apart { (stream : List ℕ) (a b : List Frame) (q : List ℕ) (f : FrameFault) → Reads stream a q
        → Fails stream b f → ⊥ }
{}

/// A longer stream keeps the frames of a shorter one, reads on after them, and keeps its fault.
pub fn answers_stay()
    ensures reads { (stream more : List ℕ) (a b : List Frame) (q r : List ℕ) → Reads stream a q
        → Reads (stream ++ more) b r → (c : List Frame) × (b ≡ a ++ c) × Reads (q ++ more) c r }
    ensures fails { (stream more : List ℕ) (a b : List Frame) (q : List ℕ) (f : FrameFault) → Reads stream a q
        → Fails (stream ++ more) b f → (c : List Frame) × (b ≡ a ++ c) × Fails (q ++ more) c f }
    ensures fault { (stream more : List ℕ) (a : List Frame) (f : FrameFault) → Fails stream a f
        → Fails (stream ++ more) a f }
{}
