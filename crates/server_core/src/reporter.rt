//! How a server does, as its flusher sees it.

ghost use Rattle.std.specs.Prelude.{◌≡◌, ◌↔◌, IsTrue};
ghost use Rattle.server_core.specs.Reports.{LeavesLittle, tenths};

use crate::fittings::Shared;
use crate::serving::ServerFlusher;
use broker_core::Broker;
use broker_state::{Held, MOST_BYTES, MOST_MESSAGES};
use command_core::Dest;
use event_log::{Crowd, Crowding, Event, Figures, tenths_of};
use journal_files::lots_of;
use std::alloc::{AllocError, Global};
use std::sync::Wait;
use std::time::Clock;

/// What the flusher's thread keeps for its reports.
#[derive(Drop)]
pub(crate) struct Reporter {
    // The queue of dead letters, if there was memory for its name.
    dead_queue: Option<Dest>,
    // When it is reported that nearly all is held that may be.
    crowding: Crowding,
}

impl Reporter {
    /// Nothing was reported until now.
    pub(crate) fn new(alloc: Global, now: u64) -> Reporter {
        Reporter {
            dead_queue: Dest::read(alloc, "/queue/dead").ok(),
            crowding: Crowding::new(now),
        }
    }

    /// Logs how the server does once `commands` are taken, if a compaction has left little room, and if nearly all is held that may be: the
    /// last of these once, until it has become clearly less.
    pub(crate) fn report<R: Wait + Clock>(
        &mut self,
        alloc: Global,
        shared: &Shared<R>,
        flusher: &ServerFlusher,
        commands: u64,
    ) {
        let (used, area, tally) = (flusher.used(), flusher.size(), flusher.tally());
        let held = flusher.broker().held();
        let figures = Figures {
            connections: 0,
            memory: shared.memory.total().bytes(),
            commands,
            frames: tally.frames,
            refused: tally.refused,
            messages: held.messages,
            held: held.bytes,
            dead: self.count_dead(flusher.broker()),
            used,
            to_repeat: flusher.to_repeat(),
        };
        let log = shared.wakeups.log();
        log.figures(figures, &tally);
        if leaves_little(shared.wakeups.has_compacted(), used, area) {
            log.note(&shared.rt, Event::NearlyFull { used, area });
        }
        if self.crowding.tells(tenths(&held), shared.moment())
            && let Ok(crowd) = crowd_of(alloc, flusher.broker(), &held)
        {
            log.note(&shared.rt, Event::Crowded(crowd));
        }
    }

    // How many dead letters there are.
    fn count_dead(&self, broker: &Broker) -> u64 {
        let Some(queue) = &self.dead_queue else {
            return 0;
        };
        match broker.shared().queues().get(queue) {
            Some(line) => line.len() as u64,
            None => 0,
        }
    }
}

// Whether a compaction has left little room in an area of `area` bytes, of which it uses `used`.
fn leaves_little(has_compacted: bool, used: u64, area: u64) -> bool
    ensures { IsTrue result ↔ LeavesLittle has_compacted used area }
{
    has_compacted && used / 3 > area / 4
}

// How many tenths are held of what may be: of the messages, or of the bytes.
fn tenths(held: &Held) -> u64
    ensures { result ≡ tenths held.now }
{
    let (messages, bytes) = (
        tenths_of(held.messages, MOST_MESSAGES),
        tenths_of(held.bytes, MOST_BYTES),
    );
    messages.max(bytes)
}

// What is held, and in which place most messages wait.
fn crowd_of(alloc: Global, broker: &Broker, held: &Held) -> Result<Crowd, AllocError> {
    let mut lots = lots_of(alloc, broker)?;
    let (most, place) = if lots.is_empty() {
        (0, String::from_str(alloc, "topics")?)
    } else {
        let first = lots.swap_remove(0);
        (first.messages as u64, first.place)
    };
    drop(lots);
    Ok(Crowd {
        messages: held.messages,
        held: held.bytes,
        most,
        place,
    })
}
