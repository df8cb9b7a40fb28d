//! How the program ends by what a client did.

ghost use Rattle.std.specs.Prelude.{◌≡◌, ◌≢◌, IfErr, IfOk, OnOk, codes};
ghost use Rattle.std.specs.Io.KnownBytes.{Appends};
ghost use Rattle.client_core.specs.Texts.{call_status, client_text, ping_status};
ghost use Rattle.command_line.specs.Calls.{call_text, moved_line, taken_text, unmoved_text, unsure_text};
ghost use Rattle.command_line.specs.Failures.{line_of};
ghost use Rattle.std.specs.Duration.{as_nanos};
ghost use Rattle.command_line.specs.Pings.{ping_line};

use crate::program::{DONE, Ended, FAILED, FULL, Failure, end_by};
use client_core::{ClientFault, Doubt};
use std::io;
use std::io::Write;
use std::time::Duration;

// The status once no message has come for the time that was given.
const QUIET: u8 = 4;

/// Reports what a conversation came to, and how the program ends by it. If it is unknown whether a SEND was taken, that is reported too.
pub fn end_call<E: Write>(called: Result<(), ClientFault>, errors: &mut E) -> Ended
    ensures done { OnOk called ((result.status ≡ 0) × (errors.new ≡ errors.old)) }
    ensures failed { IfErr called (λ fault. (result.status ≡ call_status fault)
        × OnOk result.told (Appends (E.contents errors.old) (E.contents errors.new) (line_of (call_text fault)))) }
{
    match called {
        Ok(()) => Ended {
            status: DONE,
            told: Ok(()),
        },
        Err(fault) => {
            let status = status_of(&fault);
            let told = tell_fault(fault, errors);
            Ended { status, told }
        }
    }
}

/// The status by what went wrong.
pub(crate) fn status_of(fault: &ClientFault) -> u8
    ensures { result ≡ call_status fault.now }
{
    if fault.is_quiet() {
        return QUIET;
    }
    if fault.is_of_full_server() {
        return FULL;
    }
    FAILED
}

fn tell_fault<E: Write>(fault: ClientFault, errors: &mut E) -> io::Result<()>
    ensures { OnOk result (Appends (E.contents errors.old) (E.contents errors.new) (line_of (call_text fault))) }
{
    if fault.is_unknown() {
        let told = writeln!(
            errors,
            "stompd: {fault}; the server may have taken it, or not"
        );
        drop(fault);
        return told;
    }
    end_by(&Failure::Client(fault), errors).told
}

/// Tells how many lines were taken before one that was not.
pub fn tell_taken<E: Write>(taken: u64, errors: &mut E) -> io::Result<()>
    ensures { OnOk result (Appends (E.contents errors.old) (E.contents errors.new) (line_of (taken_text taken))) }
{
    writeln!(errors, "stompd: {taken} lines before it were taken")
}

/// Tells how many lines were sent from one on that has no RECEIPT. The server may have taken each of them.
pub fn tell_unsure<E: Write>(unsure: u64, errors: &mut E) -> io::Result<()>
    ensures { OnOk result (Appends (E.contents errors.old) (E.contents errors.new) (line_of (unsure_text unsure))) }
{
    writeln!(
        errors,
        "stompd: {unsure} lines from it on were sent; the server may have taken each of them, or not"
    )
}

/// Tells how many messages were moved, and how the program ends by that. Why no more were, and what is not known of the next one, is
/// written to `errors`.
pub fn end_move<W: Write, E: Write>(
    moved: u64,
    doubt: Doubt,
    ended: Result<(), ClientFault>,
    writer: &mut W,
    errors: &mut E,
) -> Ended
    // If the line can't be written, that is the fault.
    ensures done { OnOk ended (result.status ≡ 0 → Appends (W.contents writer.old) (W.contents writer.new) (moved_line moved) × (errors.new ≡ errors.old)) }
    ensures unwritten { OnOk ended (result.status ≢ 0 → (result.status ≡ 1)
        × OnOk result.told (Appends (E.contents errors.old) (E.contents errors.new) (line_of (codes "input or output failed")))) }
    ensures failed { IfErr ended (λ fault. (result.status ≡ call_status fault)
        × OnOk result.told (Appends (E.contents errors.old) (E.contents errors.new) (line_of (unmoved_text doubt fault)))) }
{
    let counted = tell_moved(moved, writer);
    match ended {
        Ok(()) => match counted {
            Ok(()) => Ended {
                status: DONE,
                told: Ok(()),
            },
            Err(_) => end_by(&Failure::Output, errors),
        },
        Err(fault) => {
            drop(counted);
            let status = status_of(&fault);
            let told = tell_unmoved(fault, doubt, errors);
            Ended { status, told }
        }
    }
}

// Writes how many messages were moved.
fn tell_moved<W: Write>(moved: u64, writer: &mut W) -> io::Result<()>
    ensures { OnOk result (Appends (W.contents writer.old) (W.contents writer.new) (moved_line moved)) }
{
    writeln!(writer, "moved {moved} messages")
}

// Tells why no more messages were moved, and what is not known of the next one.
fn tell_unmoved<E: Write>(fault: ClientFault, doubt: Doubt, errors: &mut E) -> io::Result<()>
    ensures { OnOk result (Appends (E.contents errors.old) (E.contents errors.new) (line_of (unmoved_text doubt fault))) }
{
    let told = writeln!(errors, "stompd: {fault}{}", doubt.text());
    drop(fault);
    told
}

/// Tells what a ping came to, and how the program ends by it. That it was answered, and how long the RECEIPT took, is written to
/// `writer`; why it was not answered is written to `errors`.
pub fn end_ping<W: Write, E: Write>(
    pinged: Result<Duration, ClientFault>,
    writer: &mut W,
    errors: &mut E,
) -> Ended
    // An answer is reported in one line. If the line can't be written, that is the fault.
    ensures done { IfOk pinged (λ took. result.status ≡ 0 → Appends (W.contents writer.old) (W.contents writer.new) (ping_line (as_nanos took)) × (errors.new ≡ errors.old)) }
    ensures unwritten { IfOk pinged (λ _. result.status ≢ 0 → (result.status ≡ 1)
        × OnOk result.told (Appends (E.contents errors.old) (E.contents errors.new) (line_of (codes "input or output failed")))) }
    // What went wrong is reported in one line. A server that is full has a status of its own.
    ensures failed { IfErr pinged (λ fault. (result.status ≡ ping_status fault) × (writer.new ≡ writer.old)
        × OnOk result.told (Appends (E.contents errors.old) (E.contents errors.new) (line_of (client_text fault)))) }
{
    match pinged {
        Ok(took) => match tell_took(took, writer) {
            Ok(()) => Ended {
                status: DONE,
                told: Ok(()),
            },
            Err(_) => end_by(&Failure::Output, errors),
        },
        Err(fault) => {
            let is_full = fault.is_of_crowded_server();
            let status = if is_full { FULL } else { FAILED };
            let told = end_by(&Failure::Client(fault), errors).told;
            Ended { status, told }
        }
    }
}

// Writes how long the receipt took, in milliseconds with three places.
fn tell_took<W: Write>(took: Duration, writer: &mut W) -> io::Result<()>
    ensures { OnOk result (Appends (W.contents writer.old) (W.contents writer.new) (ping_line (as_nanos took))) }
{
    let micros = took.as_micros();
    let (tenths, hundredths, thousandths) = (micros / 100 % 10, micros / 10 % 10, micros % 10);
    writeln!(
        writer,
        "receipt after {}.{tenths}{hundredths}{thousandths} ms",
        micros / 1000
    )
}
