//! What C holds: the pointer of an engine in a box, or null.
ghost use Rattle.std.specs.Prelude.{◌≡◌, Option, Some, None, is_some, is_none, true};
ghost use Rattle.c_engine.specs.declared.outbox_engine.OutboxEngine.{OutboxEngine};
ghost use Rattle.dochirwa.specs.Seats.{seat_owns, seat_coded};

use crate::unboxed::Unboxed;
use c_engine::OutboxEngine;
use std::alloc::Global;
use std::marker::Model;
use std::{mem, ptr};

/// Owns the engine at its pointer, or is closed: null. Where one is dropped, its engine is forgotten, not freed.
#[repr(C)]
#[derive(Drop)]
pub struct Seat {
    at: *mut u8,
    alloc: Global,
    pub ghost engine: { Option OutboxEngine } by { seat_coded },
}

impl Model for Seat {
    ghost also_owns = { λ s. seat_owns s.alloc s.at s.engine };
}

// Its engine may be used and freed by any thread. The proof is in `proofs/seat/Seat/TheSendSync`.
unsafe impl Send for Seat {}

impl Seat {
    ghost use types.Logic.{sem};
    ghost use Rattle.dochirwa.specs.SeatFollows.{seat_follows};

    // A closed seat.
    fn closed(alloc: Global) -> Seat
        ensures { result.engine ≡ None }
    {
        Seat {
            at: ptr::null_mut(),
            alloc,
        }
    }

    fn of_unboxed(engine: Unboxed<OutboxEngine, Global>) -> Seat
        ensures { result.engine ≡ Some engine.value }
    {
        let Unboxed { at, alloc } = engine;
        let at = at as *mut u8;
        Seat { at, alloc }
    }

    fn into_unboxed(self) -> Unboxed<OutboxEngine, Global>
        requires { is_some self.engine ≡ true }
        ensures { self.engine ≡ Some result.value }
    {
        let Seat { at, alloc } = self;
        let at = at as *mut OutboxEngine;
        Unboxed { at, alloc }
    }

    /// Whether there is no engine.
    pub fn is_closed(&mut self) -> bool
        ensures { (result ≡ is_none self.old.engine) × (self.new ≡ self.old) }
    {
        self.at.is_null()
    }

    /// Lends the engine.
    pub fn lend(&mut self) -> &mut OutboxEngine
        requires { is_some self.old.engine ≡ true }
        ensures* writes_back { sem 𝓛 (seat_follows self.entry result) }
        ensures value { self.old.engine ≡ Some result.now }
    {
        unsafe { &mut *(self.at as *mut OutboxEngine) }
    }

    /// Takes an engine in.
    pub fn put(&mut self, engine: Box<OutboxEngine>)
        requires { self.old.engine ≡ None }
        ensures { self.new.engine ≡ Some engine.value }
    {
        *self = Seat::of_unboxed(Unboxed::unbox(engine));
    }

    /// Gives the engine up, and is closed.
    pub fn take(&mut self, alloc: Global) -> Box<OutboxEngine>
        requires { is_some self.old.engine ≡ true }
        ensures value { self.old.engine ≡ Some result.value }
        ensures empty { self.new.engine ≡ None }
    {
        let seat = mem::replace(self, Seat::closed(alloc));
        seat.into_unboxed().rebox()
    }
}
