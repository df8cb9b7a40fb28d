//! Serving a journal: by one server, and by another after each that found it full.

use crate::input::{Input, read_apart};
use crate::reporting::{add_notice, report_opening, write_apart};
use command_line::{DONE, Failure, end_by, journal_for_server};
use disk_core::OpenError;
use event_log::{Form, Notice, Reopening, is_too_full};
use server_core::{FileAt, Reception, ServeEnd, ServeFault, Server, Unopened};
use std::alloc::{AllocError, Global};
use std::fs::{File, Files};
use std::io::{LineWriter, Lock, Stderr, Stdin, Stdout};
use std::net::{Ipv4Addr, Net, SocketAddr, SocketAddrV4, TcpListener, TcpStream};
use std::sync::atomic::Ordering;
use std::sync::{Arc, Wait};
use std::thread::Threads;
use std::time::{Clock, Duration, Instant};
use std::{io, thread};

/// What is asked of a server.
#[derive(Drop)]
pub struct Asked<'a> {
    /// The file of its journal.
    pub at: FileAt<'a>,
    pub port: u16,
    /// The origins whose pages are served; if there are none, all are.
    pub origins: Vec<&'a [u8]>,
    /// How many threads serve clients; as many as there are processors, if none is given.
    pub threads: Option<u16>,
    /// How many bytes clients may hold together; 1 GiB, if none is given.
    pub memory: Option<u64>,
    /// Whether it ends in good order once its input ends.
    pub until_eof: bool,
    /// How many bytes a journal gets that is made if the file is missing; none is made, if none is given.
    pub new: Option<u64>,
    /// How its log is written.
    pub form: Form,
}

/// The standard streams.
#[derive(Clone, Copy)]
pub struct Streams {
    pub input: Stdin,
    pub output: Stdout,
    pub errors: Stderr,
}

/// Why the program serves no more.
#[derive(Drop)]
enum End<'a> {
    /// A server ended, or was not started.
    Server(ServeEnd),
    /// The missing journal was not made.
    Unmade(Failure<'a>),
}

/// Serves what is asked for until the end, and answers the status.
pub fn serve<R>(rt: &R, alloc: Global, asked: &Asked<'_>, streams: Streams) -> u8
where
    R: Files<File = File> + Net<Listener = TcpListener, Stream = TcpStream>,
    R: Threads + Wait + Clock + Clone + Drop + Send + Sync + 'static,
{
    let serving = Serving {
        rt,
        alloc,
        asked,
        streams,
    };
    serving.serve()
}

/// What serving takes: the runtime, what is asked, and where it is reported.
#[derive(Drop)]
struct Serving<'a, R> {
    rt: &'a R,
    alloc: Global,
    asked: &'a Asked<'a>,
    streams: Streams,
}

impl<'a, R> Serving<'a, R>
where
    R: Files<File = File> + Net<Listener = TcpListener, Stream = TcpStream>,
    R: Threads + Wait + Clock + Clone + Drop + Send + Sync + 'static,
{
    /// Serves until the end, and answers the status. If the journal of a running server is full, that is reported, and after a pause the
    /// journal is opened again, which makes room.
    fn serve(&self) -> u8 {
        let input = match self.watched() {
            Ok(input) => input,
            Err(fault) => return self.end_with(fault),
        };
        let status = self.serve_until_end(&input);
        drop(input);
        status
    }

    /// The same, once standard input is watched.
    fn serve_until_end(&self, input: &Arc<Input>) -> u8 {
        let mut reopening = Reopening::new();
        for _server in self.rt.forever() {
            let (ran, end) = self.serve_once(input);
            let fault = match end {
                End::Server(ServeEnd::Fault(fault)) => fault,
                End::Server(ServeEnd::Asked) => return DONE,
                End::Unmade(failure) => {
                    let status = self.report(&failure);
                    drop(failure);
                    return status;
                }
            };
            match reopening.after(&fault, ran) {
                Some(seconds) => self.rest(fault, seconds, input),
                None => return self.end_with(fault),
            }
            if input.has_ended() {
                return DONE;
            }
        }
        unreachable!()
    }

    /// Standard input, which a thread reads to its end if that is asked for.
    fn watched(&self) -> Result<Arc<Input>, ServeFault> {
        let Ok(input) = Input::new(self.alloc) else {
            return Err(ServeFault::Memory);
        };
        let Ok(input) = Arc::new(self.alloc, input) else {
            return Err(ServeFault::Memory);
        };
        if !self.asked.until_eof {
            return Ok(input);
        }
        match read_apart(self.rt, &input, self.streams.input.lock()) {
            Ok(()) => Ok(input),
            Err(fault) => {
                drop(input);
                Err(fault)
            }
        }
    }

    /// Reports that the journal is full, and when it is opened again; then waits for that, or until the input ends.
    fn rest(&self, fault: ServeFault, seconds: u64, input: &Input) {
        let failure = self.failure_of(fault);
        let (mut text, _) = self.text_of(&failure);
        drop(failure);
        self.add(Notice::Reopening { seconds }, &mut text);
        write_apart(self.rt, self.alloc, text, self.streams.errors);
        input.pause(self.rt, seconds);
    }

    /// Reports the fault by which the program serves no more, and answers the status.
    fn end_with(&self, fault: ServeFault) -> u8 {
        if is_too_full(&fault) {
            self.notify(Notice::TooFull);
        }
        let failure = self.failure_of(fault);
        let status = self.report(&failure);
        drop(failure);
        status
    }

    fn failure_of(&self, fault: ServeFault) -> Failure<'a> {
        let asked = self.asked;
        Failure::Server(asked.at.path, asked.port, fault)
    }

    /// Reports a failure, and answers the status.
    fn report(&self, failure: &Failure<'_>) -> u8 {
        let (text, status) = self.text_of(failure);
        write_apart(self.rt, self.alloc, text, self.streams.errors);
        status
    }

    /// The line of a failure, and the status by which the program ends. What memory refuses of the line is left out.
    fn text_of(&self, failure: &Failure<'_>) -> (Vec<u8>, u8) {
        let mut text = Vec::new(self.alloc);
        let status = end_by(failure, &mut text).status;
        match self.asked.form {
            Form::Text => (text, status),
            Form::Object => {
                let mut line = Vec::new(self.alloc);
                self.add(Notice::Fault(words_of(text.as_slice())), &mut line);
                drop(text);
                (line, status)
            }
        }
    }

    /// Writes a notice to standard error.
    fn notify(&self, notice: Notice<'_>) {
        let mut text = Vec::new(self.alloc);
        self.add(notice, &mut text);
        write_apart(self.rt, self.alloc, text, self.streams.errors);
    }

    /// Adds the line of a notice to a text. What memory refuses of it is left out.
    fn add(&self, notice: Notice<'_>, text: &mut Vec<u8>) {
        drop(add_notice(self.rt, self.alloc, self.asked.form, notice, text));
    }

    /// Serves by one server until it ends. Answers for how many seconds it ran, and why it did not start, or ended.
    fn serve_once(&self, input: &Arc<Input>) -> (u64, End<'a>) {
        let is_open = match report_opening(
            self.rt,
            self.alloc,
            self.asked.form,
            self.streams.errors,
        ) {
            Ok(is_open) => is_open,
            Err(fault) => return (0, End::Server(ServeEnd::Fault(fault))),
        };
        let opened = match self.open() {
            Ok(server) => Ok(server),
            Err(ServeFault::File(error)) if is_missing(&error) => self.open_new(error),
            Err(fault) => Err(End::Server(ServeEnd::Fault(fault))),
        };
        is_open.store(true, Ordering::SeqCst);
        drop(is_open);
        match opened {
            Ok(server) => self.run(server, input),
            Err(end) => (0, end),
        }
    }

    /// Opens the server that is asked for.
    fn open(&self) -> Result<Server<R>, ServeFault> {
        let asked = self.asked;
        let Ok(origins) = owned(self.alloc, asked.origins.as_slice()) else {
            return Err(ServeFault::Memory);
        };
        let mut reception = Reception::new(origins, threads_for(self.rt, asked.threads));
        if let Some(memory) = asked.memory {
            reception.memory = memory;
        }
        Server::open(self.alloc, self.rt, asked.at, asked.port, reception)
    }

    /// Opens the server over a journal that is made for it, if that is asked for. The port was free by then.
    fn open_new(&self, error: OpenError) -> Result<Server<R>, End<'a>> {
        let asked = self.asked;
        if asked.new.is_none() {
            return Err(End::Server(ServeEnd::Fault(ServeFault::File(error))));
        }
        drop(error);
        // It is reported each second that the journal is being opened, and no thread but that one waits for standard error.
        let mut progress = io::sink();
        match journal_for_server(self.alloc, self.rt, asked.at.path, asked.new, &mut progress) {
            Ok(true) => self.notify(Notice::Made(asked.at.path)),
            // Somebody else has made it meanwhile.
            Ok(false) => {}
            Err(failure) => return Err(End::Unmade(failure)),
        }
        match self.open() {
            Ok(server) => Ok(server),
            Err(fault) => Err(End::Server(ServeEnd::Fault(fault))),
        }
    }

    /// Runs a server to its end. Answers for how many seconds it ran, and why it ended.
    fn run(&self, server: Server<R>, input: &Arc<Input>) -> (u64, End<'a>) {
        let mut server = server;
        let began = Instant::now(self.rt).ok();
        let end = match self.start(&mut server, input) {
            Ok(()) => server.run(self.alloc, &mut self.streams.output.lock()),
            Err(fault) => {
                drop(server);
                return (0, End::Server(ServeEnd::Fault(fault)));
            }
        };
        drop(server.close(self.rt));
        if let ServeEnd::Fault(_) = &end {
            free_port(self.rt, self.asked.port);
        }
        (seconds_since(self.rt, began), End::Server(end))
    }

    /// Starts the threads of a server: its workers, the one that writes the log, and the one that accepts clients. The end of the input asks
    /// it to end from now on.
    fn start(&self, server: &mut Server<R>, input: &Arc<Input>) -> Result<(), ServeFault> {
        server.start_workers(self.rt, self.alloc)?;
        // A line is one write, so that no other thread's line comes between.
        let Ok(lines) = LineWriter::new(self.alloc, self.streams.errors) else {
            return Err(ServeFault::Memory);
        };
        server.start_log_thread(self.rt, self.alloc, self.asked.form, lines)?;
        input.attach(self.rt, server.ender()?);
        Ok(())
    }
}

/// The words of a line `stompd: WORDS`; of a line in another form none.
fn words_of(line: &[u8]) -> &str {
    match str::from_utf8(line) {
        Ok(line) => line.trim_ascii_end().strip_prefix("stompd: ").unwrap_or(""),
        Err(_) => "",
    }
}

/// The origins, as the server's threads have them.
fn owned(alloc: Global, origins: &[&[u8]]) -> Result<Vec<Vec<u8>>, AllocError> {
    let mut owned = Vec::new(alloc);
    for origin in origins {
        owned.push(origin.to_vec(alloc)?)?;
    }
    Ok(owned)
}

/// How many threads serve clients: as many as are asked for, or else as there are processors for the program.
fn threads_for(rt: &impl Threads, asked: Option<u16>) -> usize {
    match asked {
        Some(threads) => usize::from(threads),
        None => match thread::available_parallelism(rt) {
            Ok(processors) => processors.get(),
            Err(_) => 1,
        },
    }
}

/// Whether the file of a journal is missing.
fn is_missing(error: &OpenError) -> bool {
    matches!(Unopened::of(error), Unopened::Missing)
}

/// The thread that accepts clients of a server that has ended looks only once another client has come: this is one. Then the port is free.
fn free_port(rt: &impl Net, port: u16) {
    let address = SocketAddr::V4(SocketAddrV4::new(Ipv4Addr::LOCALHOST, port));
    drop(TcpStream::connect_timeout(rt, &address, Duration::from_secs(1)));
}

/// How many seconds have passed since then; none if the clock can't be read.
fn seconds_since(rt: &impl Clock, began: Option<Instant>) -> u64 {
    match began {
        Some(began) => match began.elapsed(rt) {
            Ok(passed) => passed.as_secs(),
            Err(_) => 0,
        },
        None => 0,
    }
}
