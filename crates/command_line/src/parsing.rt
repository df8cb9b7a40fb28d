//! What the words of a command line ask for.

ghost use Rattle.std.specs.Prelude.{◌≡◌, ◌≢◌, ◌<◌, ◌^◌, ◌∷◌, ◌↔◌, [], IfNone, IfOk, IfSome, IsErrOf, IsNone, IsTrue, List, Ok, OnOk, Option, ℕ, bytes_eq, codes, drop, false, length, map, nat_eq, true};
ghost use Rattle.command_line.specs.CommandLines.{AreFileAndNumber, AskFor, AskForAlone, AskForMemory, AskForNew, AskForNothing, AskForThreads, AskNothingWith, AskWith, AsksForScript, HasOtherMemory, HasOtherNew, HasOtherOrigin, HasOtherThreads, HaveOtherMemory, HaveOtherNew, HaveOtherOrigin, HaveOtherThreads, Words, given_by, given_from, is_flag, joined, with_written, words_of};
ghost use Rattle.std.specs.List.{list_all, starts_with};
ghost use Rattle.command_line.specs.Origins.{is_origin};
ghost use Rattle.command_line.specs.declared.parsing.Subcommand.TheVariants.{Help, Script, Version};
ghost use Rattle.command_line.specs.Failures.{IsRefusal};

use crate::program::Failure;
use crate::usage::matches_of;
use crate::words::{
    WordKind, address_of, is_origin, memory_number_of, port_of, size_of, thread_number_of,
};
use clap::Error;
use client_core::Address;
use std::alloc::{AllocError, Global};
use std::convert::AsStr;

/// A subcommand that the program has.
#[derive(Drop)]
pub enum Subcommand<'a> {
    /// Runs a script from standard input.
    Script,
    /// Says which version the program is of.
    Version,
    /// Says how the program is called, or a command of it.
    Help,
    /// Finds out whether the server at an address answers.
    Ping {
        address: Address<'a>,
    },
    /// Makes a file of `bytes` bytes with an empty journal. Its room is taken on the device, unless it is to be sparse.
    Format {
        file: &'a str,
        bytes: u64,
        is_sparse: bool,
    },
    /// Shows what the journal in a file shows of itself, in lines or as a JSON object.
    Show {
        file: &'a str,
        is_json: bool,
    },
    /// Shows which queues and durable names of the journal in a file hold messages, in lines or as a JSON object.
    Held {
        file: &'a str,
        is_json: bool,
    },
    /// Shows which sessions of the journal in a file are open, and what they subscribe to, in lines or as a JSON object.
    Sessions {
        file: &'a str,
        is_json: bool,
    },
    /// Makes a file of `bytes` bytes with a journal that holds what the journal in another file holds. Its room is taken on the device,
    /// unless it is to be sparse.
    Copy {
        file: &'a str,
        copy: &'a str,
        bytes: u64,
        is_sparse: bool,
    },
    /// Serves the broker of the journal in a file at a port, to pages of these origins, or to all if none is named. If a number of
    /// threads is given, 1 to 64, that many serve it. If `memory` is given, its clients may hold that many bytes together, 16,777,216 at
    /// least. If `new` is given and the file is missing, it is made first, with that many bytes. On request it serves until standard input ends,
    /// and its log has JSON objects.
    Serve {
        file: &'a str,
        port: u16,
        origins: Vec<&'a [u8]>,
        threads: Option<u16>,
        memory: Option<u64>,
        new: Option<u64>,
        until_eof: bool,
        is_json: bool,
    },
}

/// Why the words ask for nothing that the program does.
#[derive(Drop)]
pub enum Refused {
    /// A mistake in the words, the help that they ask for, or that memory was refused. It holds the text for the user.
    Words(Error),
    /// A number of bytes of a file, or of a port, that is invalid: it has other than decimal digits, or is too large, or is the port
    /// 0. The words then have no other of the program's forms either.
    Number,
    /// A number of threads that is not one from 1 to 64.
    Threads,
    /// A number of bytes for clients that is not one from 16,777,216 on and under 2^64.
    Memory,
    /// A number of bytes of a new journal that is invalid, as `Number` has it.
    New,
    /// An origin that no browser sends. No page would be served.
    Origin,
}

/// The subcommand that the words ask for, of which the first is the program's name. If `clap` refuses the words, its error is the
/// answer. What `clap` takes has one of the program's forms, or else is refused as an invalid number. Words that are refused for a
/// number or an origin ask for nothing that the program does. If several are wrong, the first is reported: file and port, threads, memory,
/// the size of a new journal, origins.
pub fn subcommand_of<'a, S: AsStr>(alloc: Global, words: &'a [S]) -> Result<Subcommand<'a>, Refused>
    ensures script { AsksForScript (map S.text words.now) → result ≡ Ok Script }
    ensures ok { IfOk result (AskFor (map S.text words.now)) }
    ensures number { IsErrOf result Refused.Number → (asked : Subcommand) → AskFor (map S.text words.now) asked → ⊥ }
    ensures threads { IsErrOf result Refused.Threads → HaveOtherThreads (map S.text words.now) }
    ensures memory { IsErrOf result Refused.Memory → HaveOtherMemory (map S.text words.now) }
    ensures new { IsErrOf result Refused.New → HaveOtherNew (map S.text words.now) }
    ensures origin { IsErrOf result Refused.Origin → HaveOtherOrigin (map S.text words.now) }
{
    // These words have nothing to parse, and take no memory.
    if is_alone(words, "script") {
        return Ok(Subcommand::Script);
    }
    if is_alone(words, "--version") {
        return Ok(Subcommand::Version);
    }
    if is_help(words) {
        return Ok(Subcommand::Help);
    }
    match matches_of(alloc, words) {
        Ok(matches) => {
            drop(matches);
            asked_of(alloc, words)
        }
        Err(error) => Err(Refused::Words(error)),
    }
}

/// Whether the words are the program's name and this one.
fn is_alone<S: AsStr>(words: &[S], wanted: &str) -> bool
    ensures asked { AskForAlone wanted.now (map S.text words.now) → result ≡ true }
    ensures found { result ≡ true → AskForAlone wanted.now (map S.text words.now) }
{
    match words {
        [_, word] => is_word(word.as_str(), wanted),
        _ => false,
    }
}

/// Whether the words ask for help: `help` stands after the program's name.
fn is_help<S: AsStr>(words: &[S]) -> bool
    ensures { result ≡ true → AskFor (map S.text words.now) Help }
{
    match named(words) {
        Some((name, _)) => is_word(name, "help"),
        None => false,
    }
}

fn is_word(word: &str, wanted: &str) -> bool
    ensures { IsTrue result ↔ (word.now ≡ wanted.now) }
{
    word == wanted
}

/// The subcommand that words ask for, if `clap` takes them.
fn asked_of<'a, S: AsStr>(alloc: Global, words: &'a [S]) -> Result<Subcommand<'a>, Refused>
    ensures ok { IfOk result (AskFor (map S.text words.now)) }
    ensures number { IsErrOf result Refused.Number → AskForNothing (map S.text words.now) }
    ensures threads { IsErrOf result Refused.Threads → HaveOtherThreads (map S.text words.now) }
    ensures memory { IsErrOf result Refused.Memory → HaveOtherMemory (map S.text words.now) }
    ensures new { IsErrOf result Refused.New → HaveOtherNew (map S.text words.now) }
    ensures origin { IsErrOf result Refused.Origin → HaveOtherOrigin (map S.text words.now) }
{
    let Some((name, rest)) = named(words) else {
        return Err(Refused::Number);
    };
    match given_by(alloc, rest) {
        Ok(given) => asked_with(name, given),
        Err(refused) => Err(Refused::Words(Error::from(refused))),
    }
}

/// The word after the program's name, and the words after that.
pub(crate) fn named<'a, S: AsStr>(words: &'a [S]) -> Option<(&'a str, &'a [S])>
    ensures some { IfSome result (λ it. (program : List ℕ) × (map S.text words.now ≡ program ∷ it.0.now ∷ map S.text it.1.now)) }
    ensures none { IfNone result (length words.now < 2) }
{
    if words.len() < 2 {
        return None;
    }
    Some((words[1].as_str(), &words[2..]))
}

/// What this word asks for, with what the words after it give.
fn asked_with<'a>(name: &str, given: Given<'a>) -> Result<Subcommand<'a>, Refused>
    ensures ok { IfOk result (AskWith name.now (words_of given.entry)) }
    ensures number { IsErrOf result Refused.Number → AskNothingWith name.now (words_of given.entry) }
    ensures threads { IsErrOf result Refused.Threads → (name.now ≡ codes "serve") × HasOtherThreads (words_of given.entry) }
    ensures memory { IsErrOf result Refused.Memory → (name.now ≡ codes "serve") × HasOtherMemory (words_of given.entry) }
    ensures new { IsErrOf result Refused.New → (name.now ≡ codes "serve") × HasOtherNew (words_of given.entry) }
    ensures origin { IsErrOf result Refused.Origin → (name.now ≡ codes "serve") × HasOtherOrigin (words_of given.entry) }
{
    if name == "serve" {
        return serve_asked(given);
    }
    let asked = other_asked(name, &given);
    drop(given);
    match asked {
        Some(asked) => Ok(asked),
        None => Err(Refused::Number),
    }
}

/// The same of a word that is not `serve`.
fn other_asked<'a>(name: &str, given: &Given<'a>) -> Option<Subcommand<'a>>
    requires { name.now ≢ codes "serve" }
    ensures some { IfSome result (AskWith name.now (words_of given.now)) }
    ensures none { IsNone result → AskNothingWith name.now (words_of given.now) }
{
    match name {
        "script" => asked_alone(given, Subcommand::Script),
        "--version" => asked_alone(given, Subcommand::Version),
        "help" => Some(Subcommand::Help),
        "ping" => ping_asked(given),
        "format" => format_asked(given),
        "show" => show_asked(given),
        "held" => held_asked(given),
        "sessions" => sessions_asked(given),
        "copy" => copy_asked(given),
        _ => None,
    }
}

/// What a word asks for that stands alone: no argument may follow it.
fn asked_alone<'a>(given: &Given<'_>, asked: Subcommand<'a>) -> Option<Subcommand<'a>>
    ensures some { IfSome result (λ it. (it ≡ asked.entry) × ((words_of given.now).arguments ≡ [])) }
    ensures none { IsNone result → (words_of given.now).arguments ≢ [] }
{
    if given.arguments.is_empty() {
        Some(asked)
    } else {
        None
    }
}

fn ping_asked<'a>(given: &Given<'a>) -> Option<Subcommand<'a>>
    ensures some { IfSome result (AskWith (codes "ping") (words_of given.now)) }
    ensures none { IsNone result → AskNothingWith (codes "ping") (words_of given.now) }
{
    let text = one_in(&given.arguments)?;
    let address = address_of(text)?;
    Some(Subcommand::Ping { address })
}

fn format_asked<'a>(given: &Given<'a>) -> Option<Subcommand<'a>>
    ensures some { IfSome result (AskWith (codes "format") (words_of given.now)) }
    ensures none { IsNone result → AskNothingWith (codes "format") (words_of given.now) }
{
    let (file, text) = two_in(&given.arguments)?;
    let bytes = size_of(text)?;
    Some(Subcommand::Format {
        file,
        bytes,
        is_sparse: given.is_sparse,
    })
}

fn show_asked<'a>(given: &Given<'a>) -> Option<Subcommand<'a>>
    ensures some { IfSome result (AskWith (codes "show") (words_of given.now)) }
    ensures none { IsNone result → AskNothingWith (codes "show") (words_of given.now) }
{
    let file = one_in(&given.arguments)?;
    Some(Subcommand::Show {
        file,
        is_json: given.is_json,
    })
}

fn held_asked<'a>(given: &Given<'a>) -> Option<Subcommand<'a>>
    ensures some { IfSome result (AskWith (codes "held") (words_of given.now)) }
    ensures none { IsNone result → AskNothingWith (codes "held") (words_of given.now) }
{
    let file = one_in(&given.arguments)?;
    Some(Subcommand::Held {
        file,
        is_json: given.is_json,
    })
}

fn sessions_asked<'a>(given: &Given<'a>) -> Option<Subcommand<'a>>
    ensures some { IfSome result (AskWith (codes "sessions") (words_of given.now)) }
    ensures none { IsNone result → AskNothingWith (codes "sessions") (words_of given.now) }
{
    let file = one_in(&given.arguments)?;
    Some(Subcommand::Sessions {
        file,
        is_json: given.is_json,
    })
}

fn copy_asked<'a>(given: &Given<'a>) -> Option<Subcommand<'a>>
    ensures some { IfSome result (AskWith (codes "copy") (words_of given.now)) }
    ensures none { IsNone result → AskNothingWith (codes "copy") (words_of given.now) }
{
    let (file, copy, text) = three_in(&given.arguments)?;
    let bytes = size_of(text)?;
    Some(Subcommand::Copy {
        file,
        copy,
        bytes,
        is_sparse: given.is_sparse,
    })
}

fn serve_asked<'a>(given: Given<'a>) -> Result<Subcommand<'a>, Refused>
    ensures ok { IfOk result (AskWith (codes "serve") (words_of given.entry)) }
    ensures number { IsErrOf result Refused.Number → AskNothingWith (codes "serve") (words_of given.entry) }
    ensures threads { IsErrOf result Refused.Threads → HasOtherThreads (words_of given.entry) }
    ensures memory { IsErrOf result Refused.Memory → HasOtherMemory (words_of given.entry) }
    ensures new { IsErrOf result Refused.New → HasOtherNew (words_of given.entry) }
    ensures origin { IsErrOf result Refused.Origin → HasOtherOrigin (words_of given.entry) }
{
    let are_served = are_origins(&given.origins);
    match numbers_in(&given) {
        Ok((file, port, threads, memory, new)) if are_served => {
            let Given {
                arguments,
                origins,
                threads: texts,
                memory: bytes,
                fresh,
                is_sparse: _,
                is_json,
                until_eof,
            } = given;
            drop(arguments);
            drop(texts);
            drop(bytes);
            drop(fresh);
            Ok(Subcommand::Serve {
                file,
                port,
                origins,
                threads,
                memory,
                new,
                until_eof,
                is_json,
            })
        }
        Ok(_) => {
            drop(given);
            Err(Refused::Origin)
        }
        Err(refused) => {
            drop(given);
            Err(refused)
        }
    }
}

fn are_origins(origins: &[&[u8]]) -> bool
    ensures { result ≡ list_all is_origin (map (λ origin. origin.now) origins.now) }
{
    for origin in origins {
        if !is_origin(origin) {
            return false;
        }
    }
    true
}

/// The file of a server, its port, how many threads it is to have, how many bytes its clients may hold, and how many a new journal has.
fn numbers_in<'a>(
    given: &Given<'a>,
) -> Result<(&'a str, u16, Option<u16>, Option<u64>, Option<u64>), Refused>
    ensures file { IfOk result (λ it. AreFileAndNumber (words_of given.now).arguments it.0.now it.1 × (0 < it.1) × (it.1 < 2 ^ 16)) }
    ensures ok { IfOk result (λ it. AskForThreads (words_of given.now).threads it.2 × AskForMemory (words_of given.now).memory it.3 × AskForNew (words_of given.now).fresh it.4) }
    ensures number { IsErrOf result Refused.Number → AskNothingWith (codes "serve") (words_of given.now) }
    ensures threads { IsErrOf result Refused.Threads → HasOtherThreads (words_of given.now) }
    ensures memory { IsErrOf result Refused.Memory → HasOtherMemory (words_of given.now) }
    ensures new { IsErrOf result Refused.New → HasOtherNew (words_of given.now) }
    ensures origin { IsErrOf result Refused.Origin → ⊥ }
{
    let Some((file, port)) = file_and_port(&given.arguments) else {
        return Err(Refused::Number);
    };
    let Some(threads) = threads_in(&given.threads) else {
        return Err(Refused::Threads);
    };
    let Some(memory) = memory_in(&given.memory) else {
        return Err(Refused::Memory);
    };
    let Some(new) = new_in(&given.fresh) else {
        return Err(Refused::New);
    };
    Ok((file, port, threads, memory, new))
}

fn file_and_port<'a>(arguments: &[&'a str]) -> Option<(&'a str, u16)>
    ensures some { IfSome result (λ it. AreFileAndNumber (map (λ word. word.now) arguments.now) it.0.now it.1 × (0 < it.1) × (it.1 < 2 ^ 16)) }
    ensures none { IsNone result → (file : List ℕ) (port : ℕ) → AreFileAndNumber (map (λ word. word.now) arguments.now) file port → 0 < port → port < 2 ^ 16 → ⊥ }
{
    let (file, text) = two_in(arguments)?;
    let port = port_of(text)?;
    Some((file, port))
}

/// How many threads the texts ask for that are given for their number.
fn threads_in(texts: &[&str]) -> Option<Option<u16>>
    ensures some { IfSome result (AskForThreads (map (λ text. text.now) texts.now)) }
    ensures none { IsNone result → (threads : Option ℕ) → AskForThreads (map (λ text. text.now) texts.now) threads → ⊥ }
{
    if texts.is_empty() {
        return Some(None);
    }
    let text = one_in(texts)?;
    let number = thread_number_of(text)?;
    Some(Some(number))
}

/// How many bytes the texts ask for that are given for the memory of clients.
fn memory_in(texts: &[&str]) -> Option<Option<u64>>
    ensures some { IfSome result (AskForMemory (map (λ text. text.now) texts.now)) }
    ensures none { IsNone result → (memory : Option ℕ) → AskForMemory (map (λ text. text.now) texts.now) memory → ⊥ }
{
    if texts.is_empty() {
        return Some(None);
    }
    let only = one_in(texts)?;
    let number = memory_number_of(only)?;
    Some(Some(number))
}

/// How many bytes the texts ask for that are given for a new journal.
fn new_in(texts: &[&str]) -> Option<Option<u64>>
    ensures some { IfSome result (AskForNew (map (λ text. text.now) texts.now)) }
    ensures none { IsNone result → (new : Option ℕ) → AskForNew (map (λ text. text.now) texts.now) new → ⊥ }
{
    if texts.is_empty() {
        return Some(None);
    }
    let size = one_in(texts)?;
    let number = size_of(size)?;
    Some(Some(number))
}

/// The one argument.
fn one_in<'a>(arguments: &[&'a str]) -> Option<&'a str>
    ensures some { IfSome result (λ one. map (λ word. word.now) arguments.now ≡ one.now ∷ []) }
    ensures none { IsNone result → length arguments.now ≢ 1 }
{
    if arguments.len() == 1 {
        Some(arguments[0])
    } else {
        None
    }
}

/// The two arguments.
fn two_in<'a>(arguments: &[&'a str]) -> Option<(&'a str, &'a str)>
    ensures some { IfSome result (λ two. map (λ word. word.now) arguments.now ≡ two.0.now ∷ two.1.now ∷ []) }
    ensures none { IsNone result → length arguments.now ≢ 2 }
{
    if arguments.len() == 2 {
        Some((arguments[0], arguments[1]))
    } else {
        None
    }
}

/// The three arguments.
fn three_in<'a>(arguments: &[&'a str]) -> Option<(&'a str, &'a str, &'a str)>
    ensures some { IfSome result (λ three. map (λ word. word.now) arguments.now ≡ three.0.now ∷ three.1.now ∷ three.2.now ∷ []) }
    ensures none { IsNone result → length arguments.now ≢ 3 }
{
    if arguments.len() == 3 {
        Some((arguments[0], arguments[1], arguments[2]))
    } else {
        None
    }
}

/// What a word is, as the words before it decide.
#[derive(Clone, Copy)]
pub enum Place {
    /// An option, or an argument.
    Free,
    /// The origin that belongs to the option before it.
    Origin,
    /// The number of threads that belongs to the option before it.
    Threads,
    /// The number of bytes that belongs to the option before it.
    Memory,
    /// The size of a new journal that belongs to the option before it.
    Fresh,
    /// An argument, whatever it is: it stands after `--`.
    Behind,
}

/// The arguments; the origins; what is given for the number of threads, the memory of clients and the size of a new journal. Also
/// whether a file is to be sparse, whether an object is to be printed, and whether a server ends with standard input.
#[derive(Drop)]
pub struct Given<'a> {
    pub arguments: Vec<&'a str>,
    pub origins: Vec<&'a [u8]>,
    pub threads: Vec<&'a str>,
    pub memory: Vec<&'a str>,
    pub fresh: Vec<&'a str>,
    pub is_sparse: bool,
    pub is_json: bool,
    pub until_eof: bool,
}

/// What these words give.
pub fn given_by<'a, S: AsStr>(alloc: Global, words: &'a [S]) -> Result<Given<'a>, AllocError>
    ensures { IfOk result (λ given. words_of given ≡ given_by (map S.text words.now)) }
{
    let mut given = Given {
        arguments: Vec::new(alloc),
        origins: Vec::new(alloc),
        threads: Vec::new(alloc),
        memory: Vec::new(alloc),
        fresh: Vec::new(alloc),
        is_sparse: false,
        is_json: false,
        until_eof: false,
    };
    match given.take_all(words) {
        Ok(()) => Ok(given),
        Err(refused) => {
            drop(given);
            Err(refused)
        }
    }
}

impl<'a> Given<'a> {
    fn take_all<S: AsStr>(&mut self, words: &'a [S]) -> Result<(), AllocError>
        ensures { OnOk result (joined (words_of self.old) (given_by (map S.text words.now)) ≡ joined (words_of self.new) (given_by [])) }
    {
        let mut place = Place::Free;
        for word in words {
            place = self.take(place, word.as_str())?;
        }
        Ok(())
    }

    // Takes a word, and answers what the next one is.
    fn take(&mut self, place: Place, word: &'a str) -> Result<Place, AllocError>
        ensures { IfOk result (λ next. (words : List (List ℕ)) → joined (words_of self.new) (given_from next words) ≡ joined (words_of self.old) (given_from place (word.now ∷ words))) }
    {
        match place {
            Place::Behind => {
                self.arguments.push(word)?;
                Ok(Place::Behind)
            }
            Place::Origin => {
                self.origins.push(word.as_bytes())?;
                Ok(Place::Free)
            }
            Place::Threads => {
                self.threads.push(word)?;
                Ok(Place::Free)
            }
            Place::Memory => {
                self.memory.push(word)?;
                Ok(Place::Free)
            }
            Place::Fresh => {
                self.fresh.push(word)?;
                Ok(Place::Free)
            }
            Place::Free => self.take_free(word),
        }
    }

    fn take_free(&mut self, word: &'a str) -> Result<Place, AllocError>
        ensures { IfOk result (λ next. (words : List (List ℕ)) → joined (words_of self.new) (given_from next words) ≡ joined (words_of self.old) (given_from Place.Free (word.now ∷ words))) }
    {
        if self.take_flag(word) {
            return Ok(Place::Free);
        }
        if is_same(word, "--") {
            return Ok(Place::Behind);
        }
        if is_same(word, "--origin") {
            return Ok(Place::Origin);
        }
        if is_same(word, "--threads") {
            return Ok(Place::Threads);
        }
        if is_same(word, "--memory") {
            return Ok(Place::Memory);
        }
        if is_same(word, "--new") {
            return Ok(Place::Fresh);
        }
        self.take_written(word)?;
        Ok(Place::Free)
    }

    // Takes a word that is an option with its value, written with `=`, or else an argument.
    fn take_written(&mut self, word: &'a str) -> Result<(), AllocError>
        ensures { OnOk result ((given : Words) → joined (words_of self.new) given ≡ joined (words_of self.old) (with_written word.now given)) }
    {
        if let Some(origin) = value_in(word, "--origin=") {
            self.origins.push(origin.as_bytes())?;
            return Ok(());
        }
        if let Some(threads) = value_in(word, "--threads=") {
            self.threads.push(threads)?;
            return Ok(());
        }
        if let Some(memory) = value_in(word, "--memory=") {
            self.memory.push(memory)?;
            return Ok(());
        }
        match value_in(word, "--new=") {
            Some(fresh) => self.fresh.push(fresh)?,
            None => self.arguments.push(word)?,
        }
        Ok(())
    }

    // Takes a word that is an option without a value; answers whether it is one.
    fn take_flag(&mut self, word: &str) -> bool
        ensures yes { result ≡ true → (words : List (List ℕ)) → joined (words_of self.new) (given_from Place.Free words) ≡ joined (words_of self.old) (given_from Place.Free (word.now ∷ words)) }
        ensures no { result ≡ false → (self.new ≡ self.old) × (is_flag word.now ≡ false) }
    {
        if is_same(word, "--sparse") {
            self.is_sparse = true;
            return true;
        }
        if is_same(word, "--json") {
            self.is_json = true;
            return true;
        }
        if is_same(word, "--until-eof") {
            self.until_eof = true;
            return true;
        }
        false
    }
}

// What follows this option, written with its `=`, in a word that begins with it.
fn value_in<'a>(word: &'a str, option: &str) -> Option<&'a str>
    ensures some { IfSome result (λ value. (starts_with nat_eq word.now option.now ≡ true) × (value.now ≡ drop (length option.now) word.now)) }
    ensures none { IsNone result → starts_with nat_eq word.now option.now ≡ false }
{
    word.strip_prefix(option)
}

/// Whether these are the same.
pub fn is_same(one: &str, other: &str) -> bool
    ensures { result ≡ bytes_eq one.now other.now }
{
    one == other
}

/// What was not read.
#[derive(Clone, Copy)]
pub enum Misread {
    /// The size of a file, or a port.
    Number,
    /// A number of threads.
    Threads,
    /// A number of bytes for clients.
    Memory,
    /// The size of a new journal.
    New,
    /// An origin.
    Origin,
}

/// The failure that names the word which was not read.
pub fn failure_of<'a, S: AsStr>(alloc: Global, words: &'a [S], what: Misread) -> Failure<'a>
    ensures { IsRefusal result }
{
    if words.len() < 2 {
        return Failure::Word(WordKind::Bytes, "");
    }
    let name = words[1].as_str();
    match given_by(alloc, &words[2..]) {
        Ok(given) => {
            let (kind, word) = word_of(name, &given, what);
            drop(given);
            Failure::Word(kind, word)
        }
        Err(refused) => Failure::CommandLine(Error::from(refused)),
    }
}

fn word_of<'a>(name: &str, given: &Given<'a>, what: Misread) -> (WordKind, &'a str) {
    match what {
        Misread::Threads => (WordKind::Threads, nth(&given.threads, 0)),
        Misread::Memory => (WordKind::Memory, nth(&given.memory, 0)),
        Misread::New => (WordKind::Bytes, nth(&given.fresh, 0)),
        Misread::Origin => (WordKind::Origin, bad_origin(&given.origins)),
        Misread::Number => match name {
            "ping" => (WordKind::Address, nth(&given.arguments, 0)),
            "serve" => (WordKind::Port, nth(&given.arguments, 1)),
            "copy" => (WordKind::Bytes, nth(&given.arguments, 2)),
            _ => (WordKind::Bytes, nth(&given.arguments, 1)),
        },
    }
}

fn nth<'a>(words: &[&'a str], place: usize) -> &'a str {
    match words.get(place) {
        Some(word) => word,
        None => "",
    }
}

// The first that no browser sends.
fn bad_origin<'a>(origins: &[&'a [u8]]) -> &'a str {
    for origin in origins {
        if !is_origin(origin) {
            return str::from_utf8(origin).unwrap_or("");
        }
    }
    ""
}
