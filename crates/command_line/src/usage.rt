//! The program's commands, as `clap` has them, with the help that it prints.

use clap::{Arg, ArgAction, ArgMatches, Command, Error};
use std::alloc::{AllocError, Global};
use std::convert::AsStr;

/// What the words mean to the program's commands.
pub(crate) fn matches_of<'a, S: AsStr>(
    alloc: Global,
    words: &'a [S],
) -> Result<ArgMatches<'a>, Error> {
    let command = program_command(alloc)?;
    command.try_get_matches_from(words)
}

// An argument or an option of a command.
#[derive(Clone, Copy)]
enum Row<'a> {
    // An argument that has to be given: its name, and its help.
    Argument(&'a str, &'a str),
    // An option without a value: its name, and its help.
    Flag(&'a str, &'a str),
    // An option with a value: its name, that of the value, and its help.
    Valued(&'a str, &'a str, &'a str),
    Body,
    Header,
    Durable,
    Origin,
    // It is found before clap looks; here the help names it.
    Version,
    Help,
}

// What several commands have.
const FILE: Row<'static> = Row::Argument("FILE", "The journal's file");

// The server that a client talks to.
const SERVER: Row<'static> = Row::Argument(
    "PORT",
    "From 1 to 65535, for ws://127.0.0.1:PORT; or ws://HOST:PORT/PATH",
);

const DESTINATION: Row<'static> = Row::Argument("DESTINATION", "/queue/NAME or /topic/NAME");

const BYTES: Row<'static> = Row::Argument(
    "BYTES",
    "Its size, 8224 at least, as 512M; each of its two areas has half of it",
);

const SPARSE: Row<'static> = Row::Flag(
    "sparse",
    "Takes no room on the disk yet: the file takes it as it fills",
);

const JSON: Row<'static> = Row::Flag("json", "Prints a JSON object in one line");

// The row, as `clap` has it.
fn arg_of<'a>(alloc: Global, row: Row<'a>) -> Arg<'a> {
    match row {
        Row::Argument(name, help) => Arg::new(alloc, name)
            .required(true)
            .help(help)
            .action(ArgAction::Set),
        Row::Flag(name, help) => Arg::new(alloc, name)
            .long(name)
            .help(help)
            .action(ArgAction::SetTrue),
        Row::Valued(name, value, help) => Arg::new(alloc, value)
            .long(name)
            .help(help)
            .action(ArgAction::Set),
        Row::Body => Arg::new(alloc, "BODY")
            .help("What is sent; standard input if it is not given")
            .action(ArgAction::Set),
        Row::Header => Arg::new(alloc, "header")
            .long("header")
            .value_name("NAME:VALUE")
            .help("A header that the message keeps; may be repeated")
            .action(ArgAction::Append),
        Row::Durable => Arg::new(alloc, "durable")
            .long("durable")
            .num_args(2)
            .value_names(&["CLIENT", "NAME"])
            .help("Under this durable name of this client-id: a topic keeps messages for it")
            .action(ArgAction::Set),
        Row::Origin => Arg::new(alloc, "ORIGIN")
            .long("origin")
            .help(
                "Serves pages of this origin, as http://localhost:8000, and of no other that is not named too",
            )
            .action(ArgAction::Append),
        Row::Version => Arg::new(alloc, "version")
            .short('V')
            .long("version")
            .help("Prints the version")
            .action(ArgAction::SetTrue),
        Row::Help => Arg::new(alloc, "help")
            .short('h')
            .long("help")
            .help(
                "Prints this to standard error, with status 2; stompd help prints it to standard output, with 0",
            )
            .action(ArgAction::Help),
    }
}

// The command with these arguments and options, and its help.
fn with_rows<'a>(
    alloc: Global,
    command: Command<'a>,
    rows: &[Row<'a>],
) -> Result<Command<'a>, AllocError> {
    let mut command = command;
    for row in rows {
        command = command.arg(arg_of(alloc, *row))?;
    }
    command
        .disable_help_flag(true)
        .arg(arg_of(alloc, Row::Help))
}

// Adds a command with this name, help, arguments and options.
fn add<'a>(
    commands: &mut Vec<Command<'a>>,
    alloc: Global,
    name: &'a str,
    about: &'a str,
    rows: &[Row<'a>],
) -> Result<(), AllocError> {
    let command = with_rows(alloc, Command::new(alloc, name).about(about), rows)?;
    commands.push(command)?;
    Ok(())
}

fn program_command<'a>(alloc: Global) -> Result<Command<'a>, AllocError> {
    let mut commands = Vec::new(alloc);
    add_all(alloc, &mut commands)?;
    let command = Command::new(alloc, "stompd")
        .about("A STOMP 1.2 broker over WebSocket, whose receipts say what is on disk")
        .subcommand_required(true);
    with_rows(alloc, command, &[Row::Version])?.subcommands(commands)
}

fn add_all<'a>(alloc: Global, commands: &mut Vec<Command<'a>>) -> Result<(), AllocError> {
    add_files(alloc, commands)?;
    add_clients(alloc, commands)?;
    add_serve(alloc, commands)?;
    add(
        commands,
        alloc,
        "script",
        "Reads what connections say from standard input, prints what they hear",
        &[],
    )
}

// Those that make a journal, or show one.
fn add_files<'a>(alloc: Global, commands: &mut Vec<Command<'a>>) -> Result<(), AllocError> {
    add(
        commands,
        alloc,
        "format",
        "Makes a journal, with all of its room on the disk",
        &[FILE, BYTES, SPARSE],
    )?;
    add(
        commands,
        alloc,
        "show",
        "Shows what a journal is and holds, in five lines",
        &[FILE, JSON],
    )?;
    add(
        commands,
        alloc,
        "held",
        "Shows how much each queue and durable subscription holds, most first",
        &[FILE, JSON],
    )?;
    add(
        commands,
        alloc,
        "sessions",
        "Shows who is connected, and what each subscription has unacknowledged",
        &[FILE, JSON],
    )?;
    add(
        commands,
        alloc,
        "copy",
        "Makes a journal of any size that holds what another one holds, also a running server's",
        &[
            FILE,
            Row::Argument("NEW", "The file that is made"),
            BYTES,
            SPARSE,
        ],
    )
}

// Those that talk to a server.
fn add_clients<'a>(alloc: Global, commands: &mut Vec<Command<'a>>) -> Result<(), AllocError> {
    add(
        commands,
        alloc,
        "ping",
        "Says how long a RECEIPT of the server at PORT takes",
        &[SERVER],
    )?;
    add(
        commands,
        alloc,
        "send",
        "Sends a message, and ends once its RECEIPT has come: it is on disk",
        &[
            SERVER,
            DESTINATION,
            Row::Body,
            Row::Header,
            Row::Flag("lines", "Sends each line of standard input as a message"),
        ],
    )?;
    add_listen(alloc, commands)?;
    add_move(alloc, commands)?;
    add(
        commands,
        alloc,
        "forget",
        "Gives up a durable name, with all messages that wait under it",
        &[
            SERVER,
            Row::Argument("CLIENT", "The client-id that it belongs to"),
            Row::Argument("NAME", "Its activemq.subscriptionName"),
        ],
    )
}

fn add_listen<'a>(alloc: Global, commands: &mut Vec<Command<'a>>) -> Result<(), AllocError> {
    add(
        commands,
        alloc,
        "listen",
        "Prints the bodies of messages, each with an end of line",
        &[
            SERVER,
            DESTINATION,
            Row::Valued("count", "N", "Ends after so many messages"),
            Row::Flag(
                "settle",
                "Takes each message once it is printed; without it a queue or durable name shows 16 at most, and keeps them",
            ),
            Row::Durable,
            Row::Flag(
                "headers",
                "Prints the headers and an empty line before each body",
            ),
            Row::Flag(
                "once",
                "Ends with the connection; without it a server that goes is connected to again once it is back",
            ),
            Row::Valued(
                "timeout",
                "SECONDS",
                "Ends with status 4 if no message comes for so long",
            ),
        ],
    )
}

fn add_move<'a>(alloc: Global, commands: &mut Vec<Command<'a>>) -> Result<(), AllocError> {
    add(
        commands,
        alloc,
        "move",
        "Moves messages with their headers, each in one transaction, and prints how many",
        &[
            SERVER,
            Row::Argument("FROM", "/queue/NAME, or /topic/NAME with --durable"),
            Row::Argument("TO", "/queue/NAME or /topic/NAME"),
            Row::Valued(
                "count",
                "N",
                "Moves so many; all of them, if it is not given",
            ),
            Row::Valued(
                "to",
                "PORT2",
                "Moves them to this other server: each is taken from the first once the other has stored it",
            ),
            Row::Durable,
            Row::Valued(
                "timeout",
                "SECONDS",
                "Ends if no message comes for so long, 2 if it is not given; with --count that has status 4",
            ),
        ],
    )
}

fn add_serve<'a>(alloc: Global, commands: &mut Vec<Command<'a>>) -> Result<(), AllocError> {
    add(
        commands,
        alloc,
        "serve",
        "Serves a journal at ws://127.0.0.1:PORT",
        &[
            FILE,
            Row::Argument("PORT", "From 1 to 65535"),
            Row::Origin,
            Row::Valued(
                "threads",
                "N",
                "Serves clients by so many threads, 1 to 64; as many as there are processors, if it is not given",
            ),
            Row::Valued(
                "memory",
                "BYTES",
                "Lets clients hold so many bytes together, 16M at least, 1G if it is not given; beyond that whoever holds most is given up",
            ),
            Row::Valued(
                "new",
                "SIZE",
                "Makes FILE first if it is missing, with so many bytes, as 512M",
            ),
            Row::Flag(
                "until-eof",
                "Ends in good order once standard input ends: clients hear it, and the status is 0",
            ),
            Row::Flag("json", "Writes each line of the log as a JSON object"),
        ],
    )
}
