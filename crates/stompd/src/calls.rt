//! What a client does.

use client_core::{Address, Outgoing, Plan};
use client_socket::{
    Ear, Haul, InputFault, Moved, Sent, Way, body_of, forget, listen, move_messages, send,
    send_lines,
};
use command_line::{
    BodyFault, Call, DONE, FAILED, Failure, Uncalled, call_of, end_by, end_call, end_move, refusal,
    tell_taken, tell_unsure,
};
use std::io::Lock;

/// Does what the words ask of a client, and answers the status.
pub fn run_call(rt: &HostRuntime, words: &[String]) -> u8 {
    match call_of(rt.alloc(), words) {
        Ok(call) => run(rt, call),
        Err(Uncalled::Words(error)) => tell(rt, &refusal(words, error)),
        Err(Uncalled::Word(kind, word)) => tell(rt, &Failure::Word(kind, word)),
    }
}

fn tell(rt: &HostRuntime, failure: &Failure<'_>) -> u8 {
    let mut errors = rt.stderr().lock();
    end_by(failure, &mut errors).status
}

fn run(rt: &HostRuntime, call: Call<'_>) -> u8 {
    match call {
        Call::Send {
            address,
            destination,
            headers,
            body,
            by_lines,
        } => {
            let status = run_send_by(rt, address, destination, headers.as_slice(), body, by_lines);
            drop(headers);
            status
        }
        Call::Listen {
            address,
            client,
            plan,
        } => run_listen(rt, address, client, &plan),
        Call::Move {
            address,
            client,
            other,
            errand,
        } => run_move(&Haul {
            rt,
            alloc: rt.alloc(),
            address,
            client,
            other,
            errand,
        }),
        Call::Forget {
            address,
            client,
            name,
        } => run_forget(rt, address, client, name),
    }
}

/// Sends a message whose body is there, or what standard input has, as one message or by lines.
fn run_send_by<'a>(
    rt: &HostRuntime,
    address: Address<'_>,
    destination: &'a str,
    headers: &'a [(&'a str, &'a str)],
    body: Option<&'a str>,
    by_lines: bool,
) -> u8 {
    let message = Outgoing {
        destination,
        headers,
        body: body.unwrap_or("").as_bytes(),
    };
    match body {
        Some(_) => run_send(rt, address, &message),
        None if by_lines => run_lines(rt, address, &message),
        None => run_input(rt, address, &message),
    }
}

/// Gives up a durable name.
fn run_forget(rt: &HostRuntime, address: Address<'_>, client: &str, name: &str) -> u8 {
    let forgotten = forget(rt, rt.alloc(), address, client, name);
    let mut errors = rt.stderr().lock();
    end_call(forgotten, &mut errors).status
}

/// Listens to a destination.
fn run_listen(rt: &HostRuntime, address: Address<'_>, client: Option<&str>, plan: &Plan<'_>) -> u8 {
    let mut writer = rt.stdout().lock();
    let mut errors = rt.stderr().lock();
    let ear = Ear {
        rt,
        alloc: rt.alloc(),
        address,
        client,
        plan: *plan,
    };
    let listened = listen(&ear, &mut writer, &mut errors);
    end_call(listened, &mut errors).status
}

/// Moves messages.
fn run_move(haul: &Haul<'_, HostRuntime>) -> u8 {
    let Moved {
        moved,
        doubt,
        ended,
    } = move_messages(haul, &mut haul.rt.stderr());
    let mut writer = haul.rt.stdout().lock();
    let mut errors = haul.rt.stderr().lock();
    end_move(moved, doubt, ended, &mut writer, &mut errors).status
}

/// Sends a message.
fn run_send(rt: &HostRuntime, address: Address<'_>, message: &Outgoing<'_>) -> u8 {
    let sent = send(rt, rt.alloc(), address, message);
    let mut errors = rt.stderr().lock();
    end_call(sent, &mut errors).status
}

/// Sends what standard input has as a message.
fn run_input(rt: &HostRuntime, address: Address<'_>, message: &Outgoing<'_>) -> u8 {
    match body_of(rt.alloc(), rt.stdin().lock()) {
        Ok(body) => {
            let status = run_send(
                rt,
                address,
                &Outgoing {
                    body: body.as_slice(),
                    ..*message
                },
            );
            drop(body);
            status
        }
        Err(fault) => end_input(rt, fault),
    }
}

/// Sends each line of standard input as a message.
fn run_lines(rt: &HostRuntime, address: Address<'_>, message: &Outgoing<'_>) -> u8 {
    let way = Way {
        rt,
        alloc: rt.alloc(),
        address,
        destination: message.destination,
        headers: message.headers,
    };
    let Sent {
        taken,
        unsure,
        ended,
    } = send_lines(&way, rt.stdin().lock());
    match ended {
        Ok(()) => DONE,
        Err(fault) => {
            let status = end_input(rt, fault);
            let mut errors = rt.stderr().lock();
            drop(tell_taken(taken, &mut errors));
            if unsure > 1 {
                drop(tell_unsure(unsure, &mut errors));
            }
            status
        }
    }
}

/// Tells why what standard input has was not sent, and answers the status.
fn end_input(rt: &HostRuntime, fault: InputFault) -> u8 {
    let fault = match fault {
        InputFault::Client(fault) => {
            let mut errors = rt.stderr().lock();
            return end_call(Err(fault), &mut errors).status;
        }
        InputFault::NoBody => BodyFault::NoBody,
        InputFault::TooLong => BodyFault::TooLong,
        InputFault::Input => BodyFault::Input,
        InputFault::Memory => {
            drop(tell(rt, &Failure::Output));
            return FAILED;
        }
    };
    tell(rt, &Failure::Input(fault))
}
