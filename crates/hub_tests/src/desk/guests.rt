//! Clients in memory.

use crate::desk::says::{Say, bytes_of, is_said};
use claim_core::Released;
use session_core::Notice;
use std::alloc::{AllocError, Global};
use std::cell::Cell;
use ws_core::{CloseReason, Link, LinkFault, MemLink, Outgoing, Received};

/// What a client says, for how many flushes its stream takes nothing, and how often it is refused memory for what it sends.
#[derive(Clone, Copy)]
pub struct Guest<'a> {
    pub says: &'a [Say<'a>],
    pub stuck: u64,
    pub short: u64,
}

/// A link in memory whose stream takes nothing for a while: from its first flush on, for so many more. At first it may be refused memory for
/// what it sends. It keeps the code with which it is closed.
#[derive(Drop)]
pub struct Client {
    link: MemLink,
    stuck: u64,
    held_up: bool,
    short: Cell<u64>,
    code: Option<u16>,
}

impl Client {
    /// That guest's.
    pub fn new(alloc: Global, guest: &Guest) -> Option<Client> {
        let mut messages = Vec::new(alloc);
        match put_messages(alloc, &mut messages, guest.says) {
            Ok(()) => Some(Client {
                link: MemLink::new(alloc, messages),
                stuck: guest.stuck,
                held_up: false,
                short: Cell::new(guest.short),
                code: None,
            }),
            Err(_) => None,
        }
    }

    /// Whether it heard these messages, and no other.
    pub fn heard(&self, wanted: &[Say]) -> bool {
        let sent = self.link.sent();
        if sent.len() != wanted.len() {
            return false;
        }
        for (message, say) in sent.iter().zip(wanted) {
            if !is_said(message.as_slice(), *say) {
                return false;
            }
        }
        true
    }

    /// The code with which it was closed.
    pub fn code(&self) -> Option<u16> {
        self.code
    }
}

fn put_messages(
    alloc: Global,
    messages: &mut Vec<Vec<u8>>,
    says: &[Say],
) -> Result<(), AllocError> {
    for say in says {
        messages.reserve(1)?;
        messages.push_reserved(bytes_of(alloc, *say)?);
    }
    Ok(())
}

impl Outgoing for Client {
    ghost is_held_up = { λ a. a.held_up };

    fn send(&mut self, alloc: Global, released: &Released) -> Result<(), LinkFault> {
        let left = self.short.get();
        if left > 0 {
            self.short.set(left - 1);
            return Err(LinkFault::Memory);
        }
        self.link.send(alloc, released)
    }

    fn flush(&mut self) -> Result<bool, LinkFault> {
        if self.stuck == 0 {
            self.held_up = false;
            return Ok(true);
        }
        self.stuck -= 1;
        self.held_up = true;
        Ok(false)
    }

    fn waits(&self) -> bool {
        self.held_up
    }
}

impl Link for Client {
    fn receive(&mut self, alloc: Global) -> Received {
        self.link.receive(alloc)
    }

    fn send_direct(&mut self, alloc: Global, notice: &Notice) -> Result<(), LinkFault> {
        self.link.send_direct(alloc, notice)
    }

    fn ping(&mut self) -> Result<(), LinkFault> {
        self.link.ping()
    }

    fn held(&self) -> u64 {
        0
    }

    fn end(&mut self, reason: CloseReason) -> Result<(), LinkFault> {
        self.code = Some(reason.code());
        self.link.end(reason)
    }
}
