//! What a script prints for the frames that go to its connections.

ghost use Rattle.std.specs.Prelude.{◌≡◌, ◌++◌, ◌∷◌, [], IfErr, OnOk, string_bytes, true};
ghost use Rattle.std.specs.Fmt.{decimal};
ghost use Rattle.std.specs.List.{flat_map};
ghost use Rattle.frame_core.specs.Writable.{Writable};
ghost use Rattle.script_text.specs.PercentTexts.{encoded};
ghost use Rattle.engine_core.specs.Placed.{IsReadBy};
ghost use Rattle.engine_core.specs.Queues.{line_for, line_of_out, opener_of};
ghost use Rattle.engine_core.specs.StepFaults.{IsPrintTold};

use crate::fault::QueueFault;
use crate::journal::Journal;
use claim_core::Released;
use command_core::Out;
use disk_core::MemDisk;
use frame_core::{Frame, write_frame};
use script_text::encode_text;
use std::alloc::{AllocError, Global};
use std::collections::BTreeMap;

/// Adds a line for a frame to the text: the connection's number, a blank, and the frame's bytes as text.
pub fn print_frame(
    alloc: Global,
    text: &mut String,
    connection: u8,
    frame: &Frame,
) -> Result<(), AllocError>
    requires { Writable frame.now }
    ensures { OnOk result (string_bytes text.new ≡ string_bytes text.old ++ line_for connection frame.now) }
{
    let bytes = write_frame(alloc, frame)?;
    let printed = print_bytes(alloc, text, connection, bytes.as_slice());
    drop(bytes);
    printed
}

// The same for a frame that may leave.
fn print_released(
    alloc: Global,
    text: &mut String,
    connection: u8,
    released: &Released,
) -> Result<(), AllocError>
    ensures { OnOk result (string_bytes text.new ≡ string_bytes text.old ++ line_for connection released.now.frame) }
{
    let written = released.write(alloc)?;
    let printed = print_bytes(alloc, text, connection, written.bytes.as_slice());
    drop(written);
    printed
}

// Adds a line: the connection's number, a blank, and bytes as text.
fn print_bytes(
    alloc: Global,
    text: &mut String,
    connection: u8,
    bytes: &[u8],
) -> Result<(), AllocError>
    ensures { OnOk result (string_bytes text.new ≡ string_bytes text.old ++ (decimal connection ++ 32 ∷ (encoded bytes.now ++ 10 ∷ []))) }
{
    let number = format!(in alloc; "{connection} ")?;
    let begun = text.push_str(number.as_str());
    drop(number);
    begun?;
    encode_text(text, bytes)?;
    text.push('\n')?;
    Ok(())
}

/// Lets outputs leave, and adds a line for each to the text, with the number of the connection that opened its session. If
/// one does not leave, the journal is not durable from then on.
pub fn print_outs(
    alloc: Global,
    journal: &mut Journal<MemDisk>,
    openers: &BTreeMap<u64, u8>,
    outs: Vec<Out>,
    text: &mut String,
) -> Result<(), QueueFault>
    ensures same { (journal.new.state ≡ journal.old.state) × (journal.new.disk ≡ journal.old.disk) }
    ensures durable { OnOk result (journal.new.durable ≡ journal.old.durable) }
    ensures still { journal.new.durable ≡ true → journal.old.durable ≡ true }
    ensures text { OnOk result (string_bytes text.new ≡ string_bytes text.old ++ flat_map (line_of_out openers.now.entries) outs.items) }
    ensures told { IfErr result (IsPrintTold journal.new.durable) }
{
    for out in outs {
        print_out(alloc, journal, openers, out, text)?;
    }
    Ok(())
}

// Lets one output leave, by the seat of the connection that opened its session, and adds its line.
fn print_out(
    alloc: Global,
    journal: &mut Journal<MemDisk>,
    openers: &BTreeMap<u64, u8>,
    out: Out,
    text: &mut String,
) -> Result<(), QueueFault>
    ensures same { (journal.new.state ≡ journal.old.state) × (journal.new.disk ≡ journal.old.disk) }
    ensures durable { OnOk result (journal.new.durable ≡ journal.old.durable) }
    ensures still { journal.new.durable ≡ true → journal.old.durable ≡ true }
    ensures seat { OnOk result (IsReadBy (opener_of openers.now.entries out.session) out.number journal.old.seats journal.new.seats) }
    ensures text { OnOk result (string_bytes text.new ≡ string_bytes text.old ++ line_of_out openers.now.entries out) }
    ensures told { IfErr result (IsPrintTold journal.new.durable) }
{
    let connection = match openers.get(&out.session()) {
        Some(connection) => *connection,
        None => 0,
    };
    match journal.release(connection, out) {
        Ok(released) => {
            let printed = print_released(alloc, text, connection, &released);
            drop(released);
            printed?;
            Ok(())
        }
        Err(fault) => Err(QueueFault::Storing(fault)),
    }
}
