ghost use Rattle.std.specs.Prelude.{◌≡◌, IfOk, ◌≤◌, IfSome};

use command_core::{Out, connected_reply};
use frame_core::{Bytes, Frame, Headers, Verb};
use outbox_core::{Bell, BoxSize, Finished, OutSender, OutTaker, Silent, Taken, outbox};
use std::alloc::{AllocError, Global};
use std::cell::{Cell, RefCell};
use std::mem::size_of;
use std::process::Abort;
use std::test::Fail;
use std::thread::{self, Threads};

/// A box of 512 outputs, whatever they count for.
pub const MANY: BoxSize = BoxSize {
    outputs: 512,
    bytes: u64::MAX,
};

// A box of 1,000 bytes.
const LIGHT: BoxSize = BoxSize {
    outputs: 512,
    bytes: 1_000,
};

// A box of 4,608 outputs of 100 bytes.
const BOTH: BoxSize = BoxSize {
    outputs: 4_608,
    bytes: 460_800,
};

// An output takes two numbers of 64 bits and an address. The places of a server's box take less than 120,000 bytes, with those of the 64
// numbers by which its taker reports what it took.
const _: () = prove!(size_of::<Out>() == 24);

const _: () = prove!(4_608 * size_of::<Out>() + 64 * size_of::<u64>() < 120_000);

// What a taker got, an item by its number.
#[derive(Clone, Copy, Debug, PartialEq, Eq)]
enum Got {
    Item(u64),
    Empty,
    Cut,
}

// A MESSAGE with a body of `bytes` bytes and no headers, which comes from the command of that number. It counts for its body.
fn output(alloc: Global, number: u64, bytes: usize) -> Result<Out, AllocError> {
    let body = Bytes::new(vec![in alloc; b'x'; bytes]?);
    let frame = Frame {
        verb: Verb::Message,
        headers: Headers::new(Vec::new(alloc)),
        body,
    };
    Out::new(alloc, number, 3, frame)
}

// Gives `most` outputs of 100 bytes with the numbers from 0 on, and answers how many the box took.
pub fn fill<B: Bell>(alloc: Global, sender: &mut OutSender<B>, most: u64) -> Result<u64, AllocError>
    ensures { IfOk result (λ count. count ≡ most → sender.new.box ≡ sender.old.box) }
{
    for number in 0..most {
        let out = output(alloc, number, 100)?;
        if sender.give(out).is_err() {
            return Ok(number);
        }
    }
    Ok(most)
}

// Whether the box takes an output of `bytes` bytes; nothing if another one comes back.
fn is_taken<B: Bell>(
    alloc: Global,
    sender: &mut OutSender<B>,
    number: u64,
    bytes: usize,
) -> Result<Option<bool>, AllocError> {
    let out = output(alloc, number, bytes)?;
    match sender.give(out) {
        Ok(()) => Ok(Some(true)),
        Err(out) if out.number() == number => Ok(Some(false)),
        Err(_) => Ok(None),
    }
}

fn look(taker: &mut OutTaker) -> Got {
    match taker.next() {
        Taken::Item(out) => Got::Item(out.number()),
        Taken::Empty => Got::Empty,
        Taken::Cut => Got::Cut,
    }
}

// Whether the next `count` outputs have the numbers from 0 on.
fn takes_all(taker: &mut OutTaker, count: u64) -> bool {
    for number in 0..count {
        if look(taker) != Got::Item(number) {
            return false;
        }
    }
    true
}

// Whether `count` outputs of 100 bytes are each taken before the next is given.
fn takes_each(
    alloc: Global,
    sender: &mut OutSender<Silent>,
    taker: &mut OutTaker,
    count: u64,
) -> Result<bool, AllocError> {
    for number in 0..count {
        if is_taken(alloc, sender, number, 100)? != Some(true) || look(taker) != Got::Item(number) {
            return Ok(false);
        }
    }
    Ok(true)
}

// What is done at a box, and what is to come of it.
#[derive(Clone, Copy)]
enum BoxStep {
    // Outputs of 100 bytes with the numbers from 0 on: so many are given, of which the box takes so many.
    Fill(u64, u64),
    // An output of that number and so many bytes is given, and the box takes it.
    Give(u64, usize),
    // It comes back.
    Back(u64, usize),
    // So many outputs are taken, with the numbers from 0 on.
    TakeAll(u64),
    // So many outputs of 100 bytes are given, each of which is taken before the next.
    TakeEach(u64),
    // The taker gets that.
    Look(Got),
}

fn is_done(
    alloc: Global,
    sender: &mut OutSender<Silent>,
    taker: &mut OutTaker,
    step: BoxStep,
) -> Result<bool, AllocError> {
    match step {
        BoxStep::Fill(most, wanted) => Ok(fill(alloc, sender, most)? == wanted),
        BoxStep::Give(number, bytes) => Ok(is_taken(alloc, sender, number, bytes)? == Some(true)),
        BoxStep::Back(number, bytes) => Ok(is_taken(alloc, sender, number, bytes)? == Some(false)),
        BoxStep::TakeAll(count) => Ok(takes_all(taker, count)),
        BoxStep::TakeEach(count) => takes_each(alloc, sender, taker, count),
        BoxStep::Look(wanted) => Ok(look(taker) == wanted),
    }
}

// The place of the first step of which something else came.
fn first_wrong(
    alloc: Global,
    sender: &mut OutSender<Silent>,
    taker: &mut OutTaker,
    steps: &[BoxStep],
) -> Result<Option<usize>, AllocError> {
    for (place, step) in steps.iter().enumerate() {
        if !is_done(alloc, sender, taker, *step)? {
            return Ok(Some(place));
        }
    }
    Ok(None)
}

// Ends a box, and answers how many outputs wait in it then, unless it was cut.
fn waiting_at_the_end(sender: OutSender<Silent>, taker: &mut OutTaker) -> Option<u64> {
    sender.finish()?;
    for count in 0..5_000u64 {
        if look(taker) == Got::Cut {
            return Some(count);
        }
    }
    Some(5_000)
}

// Makes these steps at a new box. So many outputs wait when it ends, unless it was cut.
fn play(
    rt: &impl Abort,
    alloc: Global,
    size: BoxSize,
    steps: &[BoxStep],
    waiting: Option<u64>,
) -> Result<(), AllocError> {
    let (mut sender, mut taker) = outbox(alloc, Silent, size)?;
    let wrong = first_wrong(alloc, &mut sender, &mut taker, steps);
    let left = waiting_at_the_end(sender, &mut taker);
    drop(taker);
    assert_eq!(rt; wrong?, None);
    assert_eq!(rt; left, waiting);
    Ok(())
}

#[test]
fn the_513th_output_comes_back_and_cuts_the_box(rt: HostRuntime) -> Result<(), Fail> {
    let steps = [
        BoxStep::Fill(512, 512),
        BoxStep::Back(512, 0),
        BoxStep::Back(513, 0),
        BoxStep::TakeAll(512),
        BoxStep::Look(Got::Cut),
        BoxStep::Back(514, 0),
    ];
    play(&rt, rt.alloc(), MANY, &steps, None)?;
    Ok(())
}

#[test]
fn a_server_has_boxes_of_4608_outputs_and_32_mib(rt: HostRuntime) -> Result<(), Fail> {
    assert_eq!(rt; BoxSize::SERVER.bytes, 33_554_432);
    let steps = [
        BoxStep::Fill(4_608, 4_608),
        BoxStep::Back(4_608, 0),
        BoxStep::TakeAll(4_608),
        BoxStep::Look(Got::Cut),
    ];
    play(&rt, rt.alloc(), BoxSize::SERVER, &steps, None)?;
    Ok(())
}

#[test]
fn an_output_that_passes_the_bytes_comes_back(rt: HostRuntime) -> Result<(), Fail> {
    let full = [
        BoxStep::Give(0, 400),
        BoxStep::Give(1, 600),
        BoxStep::Give(2, 0),
        BoxStep::Back(3, 1),
        BoxStep::TakeAll(3),
        BoxStep::Look(Got::Cut),
    ];
    play(&rt, rt.alloc(), LIGHT, &full, None)?;
    let passed = [
        BoxStep::Give(0, 400),
        BoxStep::Back(1, 601),
        BoxStep::Back(2, 0),
        BoxStep::TakeAll(1),
        BoxStep::Look(Got::Cut),
    ];
    play(&rt, rt.alloc(), LIGHT, &passed, None)?;
    Ok(())
}

// Whether a box of `bytes` bytes takes the CONNECTED of session 3.
fn takes_connected(alloc: Global, bytes: u64) -> Result<bool, AllocError> {
    let size = BoxSize { outputs: 1, bytes };
    let (mut sender, _taker) = outbox(alloc, Silent, size)?;
    let frame = connected_reply(alloc, 3)?;
    let out = Out::new(alloc, 3, 3, frame)?;
    Ok(sender.give(out).is_ok())
}

// The CONNECTED has version:1.2, session:3 and heart-beat:0,0: 10, 8 and 13 bytes without the colons.
#[test]
fn headers_count_for_their_names_and_values(rt: HostRuntime) -> Result<(), Fail> {
    assert!(rt; takes_connected(rt.alloc(), 31)?);
    assert!(rt; !takes_connected(rt.alloc(), 30)?);
    Ok(())
}

#[test]
fn a_full_box_has_room_once_an_output_is_taken(rt: HostRuntime) -> Result<(), Fail> {
    let many = [
        BoxStep::Fill(512, 512),
        BoxStep::Look(Got::Item(0)),
        BoxStep::Give(512, 100),
        BoxStep::Look(Got::Item(1)),
    ];
    play(&rt, rt.alloc(), MANY, &many, Some(511))?;
    let light = [
        BoxStep::Fill(10, 10),
        BoxStep::Look(Got::Item(0)),
        BoxStep::Give(10, 100),
        BoxStep::Back(11, 1),
    ];
    play(&rt, rt.alloc(), LIGHT, &light, None)?;
    Ok(())
}

#[test]
fn a_box_that_was_found_empty_has_all_its_room(rt: HostRuntime) -> Result<(), Fail> {
    let steps = [
        BoxStep::Fill(4_608, 4_608),
        BoxStep::TakeAll(4_608),
        BoxStep::Look(Got::Empty),
        BoxStep::Fill(4_608, 4_608),
        BoxStep::TakeAll(4_608),
        BoxStep::Look(Got::Empty),
        BoxStep::Give(0, 460_800),
        BoxStep::Look(Got::Item(0)),
        BoxStep::Fill(4_609, 4_608),
    ];
    play(&rt, rt.alloc(), BOTH, &steps, None)?;
    Ok(())
}

// All is taken, and the box was not found empty: of its 460,800 bytes at least 446,400 are free, which is 31 of 32.
#[test]
fn of_what_was_taken_a_32nd_may_not_be_free_yet(rt: HostRuntime) -> Result<(), Fail> {
    let steps = [
        BoxStep::Fill(4_608, 4_608),
        BoxStep::TakeAll(4_608),
        BoxStep::Fill(4_464, 4_464),
        BoxStep::TakeAll(4_464),
        BoxStep::Fill(4_464, 4_464),
        BoxStep::TakeAll(4_464),
        BoxStep::Fill(4_464, 4_464),
        BoxStep::TakeAll(4_464),
    ];
    play(&rt, rt.alloc(), BOTH, &steps, Some(0))?;
    Ok(())
}

// The body of each is 100 bytes, and the box has 150.
#[test]
fn who_gives_when_the_last_was_taken_is_never_cut(rt: HostRuntime) -> Result<(), Fail> {
    let size = BoxSize {
        outputs: 4,
        bytes: 150,
    };
    let steps = [
        BoxStep::TakeEach(10_000),
        BoxStep::Give(10_000, 100),
        BoxStep::Back(10_001, 100),
    ];
    play(&rt, rt.alloc(), size, &steps, None)?;
    Ok(())
}

#[test]
fn an_open_box_is_empty_and_a_finished_one_is_cut(rt: HostRuntime) -> Result<(), Fail> {
    let steps = [
        BoxStep::Look(Got::Empty),
        BoxStep::Give(0, 0),
        BoxStep::Give(1, 1),
        BoxStep::Look(Got::Item(0)),
    ];
    play(&rt, rt.alloc(), MANY, &steps, Some(1))?;
    Ok(())
}

// Counts how often it rings.
#[derive(Drop)]
struct Counted<'a> {
    rings: &'a Cell<u64>,
}

impl Bell for Counted<'_> {
    fn ring(&self) {
        self.rings.set(self.rings.get().wrapping_add(1));
    }
}

// How often the box has rung once it was given 512 outputs, one that cuts it, and another.
fn rings_of_gives(
    alloc: Global,
    sender: &mut OutSender<Counted<'_>>,
    rings: &Cell<u64>,
) -> Result<[u64; 3], AllocError> {
    fill(alloc, sender, 512)?;
    let filled = rings.get();
    is_taken(alloc, sender, 512, 100)?;
    let cut = rings.get();
    is_taken(alloc, sender, 513, 100)?;
    Ok([filled, cut, rings.get()])
}

// The same, and once the sending end is dropped.
fn rings_of_dropping(alloc: Global, rings: &Cell<u64>) -> Result<([u64; 3], u64), AllocError> {
    let (mut sender, taker) = outbox(alloc, Counted { rings }, MANY)?;
    let given = rings_of_gives(alloc, &mut sender, rings);
    drop(sender);
    drop(taker);
    Ok((given?, rings.get()))
}

// Once an empty box is finished.
fn rings_of_finishing(alloc: Global, rings: &Cell<u64>) -> Result<u64, AllocError> {
    let (sender, taker) = outbox(alloc, Counted { rings }, MANY)?;
    drop(sender.finish());
    drop(taker);
    Ok(rings.get())
}

#[test]
fn a_box_rings_when_it_is_given_something_cut_dropped_or_finished(
    rt: HostRuntime,
) -> Result<(), Fail> {
    let (dropped, finished) = (Cell::new(0), Cell::new(0));
    assert_eq!(rt;
        rings_of_dropping(rt.alloc(), &dropped)?,
        ([512, 513, 513], 514)
    );
    assert_eq!(rt; rings_of_finishing(rt.alloc(), &finished)?, 1);
    Ok(())
}

// What the taker finds after all that waits.
fn look_behind(taker: &mut OutTaker) -> Got {
    for _ in 0..600u32 {
        let got = look(taker);
        if got == Got::Empty || got == Got::Cut {
            return got;
        }
    }
    Got::Item(600)
}

// When it rings, has the taker look, on the thread that gives, and notes what the taker found after all that waited.
#[derive(Drop)]
struct Looking<'a> {
    taker: &'a RefCell<Option<OutTaker>>,
    found: &'a Cell<Option<Got>>,
}

impl Bell for Looking<'_> {
    fn ring(&self) {
        if let Ok(mut taker) = self.taker.try_borrow_mut()
            && let Some(taker) = &mut *taker
        {
            self.found.set(Some(look_behind(taker)));
        }
    }
}

// How the sending end of a box ends.
#[derive(Clone, Copy)]
enum Way {
    Dropped,
    Finished,
    Cut,
}

// What a taker that looks as the bell rings finds, if the sending end of a full box ends in that way.
fn find_at_ring(alloc: Global, way: Way) -> Result<Option<Got>, AllocError> {
    let place = RefCell::new(None);
    let found = Cell::new(None);
    let (mut sender, taker) = outbox(
        alloc,
        Looking {
            taker: &place,
            found: &found,
        },
        MANY,
    )?;
    fill(alloc, &mut sender, 512)?;
    drop(place.try_replace(Some(taker)));
    match way {
        Way::Dropped => drop(sender),
        Way::Finished => drop(sender.finish()),
        Way::Cut => {
            is_taken(alloc, &mut sender, 512, 100)?;
            drop(place.try_replace(None));
            drop(sender);
        }
    }
    Ok(found.get())
}

#[test]
fn a_taker_that_looks_as_the_bell_rings_finds_the_end_gone(rt: HostRuntime) -> Result<(), Fail> {
    for way in [Way::Dropped, Way::Finished, Way::Cut] {
        assert_eq!(rt; find_at_ring(rt.alloc(), way)?, Some(Got::Cut));
    }
    Ok(())
}

// Gives 512 outputs, and ends the box.
fn give_all(alloc: Global, sender: OutSender<Silent>) -> Option<Finished>
    ensures { IfSome result (λ finished. finished.box ≡ sender.box) }
{
    let mut sender = sender;
    match fill(alloc, &mut sender, 512) {
        Ok(512) => sender.finish(),
        _ => None,
    }
}

// Takes up to 100 outputs while they come, and answers how many came.
fn take_some(taker: OutTaker) -> (OutTaker, u64)
    ensures same { result.0.box ≡ taker.box }
    ensures few { result.1 ≤ 100 }
{
    let mut taker = taker;
    for count in 0..100u64 {
        let Taken::Item(_) = taker.next() else {
            return (taker, count);
        };
    }
    (taker, 100)
}

// One thread gives while another takes: what the taker took, and then what waits.
fn give_and_take<R: Threads>(
    rt: &R,
    alloc: Global,
    sender: OutSender<Silent>,
    taker: OutTaker,
) -> Option<u64>
    requires { sender.box ≡ taker.box }
{
    let (finished, (mut taker, count)) = thread::join(
        rt,
        move || -> Option<Finished>
            ensures { IfSome result (λ finished. finished.box ≡ sender.box) }
        { give_all(alloc, sender) },
        move || -> (OutTaker, u64)
            ensures same { result.0.box ≡ taker.box }
            ensures few { result.1 ≤ 100 }
        { take_some(taker) },
    );
    let waits = taker.after(finished?);
    count.checked_add(waits as u64)
}

#[test]
fn box_between_threads(rt: HostRuntime) -> Result<(), Fail> {
    let alloc = rt.alloc();
    let (sender, taker) = outbox(alloc, Silent, MANY)?;
    assert_eq!(rt; give_and_take(&rt, alloc, sender, taker), Some(512));
    Ok(())
}
