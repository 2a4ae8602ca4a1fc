//! What a handle holds: it is tested, taken out and put in.
//!
//! Tests take a `&mut`, since a field of a value that owns memory can't be read through a `&`.
ghost use Rattle.std.specs.Prelude.{◌≡◌, ℕ, false, true, IfSome, IfNone};
ghost use Rattle.rdm_handles.specs.Handles.{is_open_as};
ghost use Rattle.rdm_handles.specs.declared.handle.Handle.{Handle};

use crate::discovery::Discovery;
use crate::handle::{CONTROLLER, DISCOVERY, Handle, LOG, SESSION};
use crate::loose::Loose;
use rdm_log::Log;
use rdm_queue::{Controller, Session};
use std::alloc::Global;
use std::mem::replace;
use std::ptr::null_mut;

/// A type that a handle can hold.
pub trait Held: Sized + Drop {
    /// The number of its kind.
    const KIND: u32;

    ghost KIND: { ℕ };

    // What an open handle of this kind holds.
    ghost held: { Handle → Self };

    /// A handle that owns what the pointer owns.
    fn handle_of(pointer: Loose<Self, Global>) -> Handle
        ensures open { is_open_as KIND result ≡ true }
        ensures value { held result ≡ pointer.value };

    /// The pointer of a handle of this kind.
    fn pointer_of(handle: Handle, alloc: Global) -> Loose<Self, Global>
        requires held { is_open_as KIND handle ≡ true }
        ensures { result.value ≡ held handle };
}

impl Handle {
    /// A closed handle.
    pub fn closed() -> Handle
        ensures { result.is_open ≡ false }
    {
        Handle {
            at: null_mut(),
            is_open: false,
            kind: 0,
        }
    }

    /// Whether it is open.
    pub fn is_open(&mut self) -> bool
        ensures { (result ≡ self.old.is_open) × (self.new ≡ self.old) }
    {
        self.is_open
    }

    /// The number of its kind.
    pub fn kind(&mut self) -> u32
        ensures { (result ≡ self.old.kind) × (self.new ≡ self.old) }
    {
        self.kind
    }

    /// Whether it is open, and of this kind.
    pub fn holds(&mut self, kind: u32) -> bool
        ensures { (result ≡ is_open_as kind self.old) × (self.new ≡ self.old) }
    {
        self.is_open() && self.kind() == kind
    }

    /// Takes the value out of a handle of its kind, and closes it. None: it holds none of this kind, and is unchanged.
    pub fn take<T: Held>(&mut self, alloc: Global) -> Option<Box<T>>
        ensures some { IfSome result (λ held. (is_open_as T.KIND self.old ≡ true) × (held.value ≡ T.held self.old)) }
        ensures closed { IfSome result (λ held. self.new.is_open ≡ false) }
        ensures none { IfNone result ((is_open_as T.KIND self.old ≡ false) × (self.new ≡ self.old)) }
    {
        if !self.holds(T::KIND) {
            return None;
        }
        Some(T::pointer_of(replace(self, Handle::closed()), alloc).into_box())
    }

    /// Puts a value into a closed handle. What an open one holds would never be freed.
    pub fn put<T: Held>(&mut self, held: Box<T>)
        requires closed { self.old.is_open ≡ false }
        ensures open { is_open_as T.KIND self.new ≡ true }
        ensures value { T.held self.new ≡ held.value }
    {
        *self = T::handle_of(Loose::of(held));
    }
}

impl Held for Controller {
    const KIND: u32 = CONTROLLER;

    ghost KIND = { 1 };

    ghost held = { λ h. h.controller };

    fn handle_of(pointer: Loose<Controller, Global>) -> Handle
        ensures open { is_open_as 1 result ≡ true }
        ensures value { result.controller ≡ pointer.value }
    {
        let Loose { at, alloc: _ } = pointer;
        Handle {
            at: at as *mut u8,
            is_open: true,
            kind: CONTROLLER,
        }
    }

    fn pointer_of(handle: Handle, alloc: Global) -> Loose<Controller, Global> {
        let Handle { at, .. } = handle;
        Loose {
            at: at as *mut Controller,
            alloc,
        }
    }
}

impl Held for Session {
    const KIND: u32 = SESSION;

    ghost KIND = { 2 };

    ghost held = { λ h. h.session };

    fn handle_of(pointer: Loose<Session, Global>) -> Handle
        ensures open { is_open_as 2 result ≡ true }
        ensures value { result.session ≡ pointer.value }
    {
        let Loose { at, alloc: _ } = pointer;
        Handle {
            at: at as *mut u8,
            is_open: true,
            kind: SESSION,
        }
    }

    fn pointer_of(handle: Handle, alloc: Global) -> Loose<Session, Global> {
        let Handle { at, .. } = handle;
        Loose {
            at: at as *mut Session,
            alloc,
        }
    }
}

impl Held for Log {
    const KIND: u32 = LOG;

    ghost KIND = { 3 };

    ghost held = { λ h. h.log };

    fn handle_of(pointer: Loose<Log, Global>) -> Handle
        ensures open { is_open_as 3 result ≡ true }
        ensures value { result.log ≡ pointer.value }
    {
        let Loose { at, alloc: _ } = pointer;
        Handle {
            at: at as *mut u8,
            is_open: true,
            kind: LOG,
        }
    }

    fn pointer_of(handle: Handle, alloc: Global) -> Loose<Log, Global> {
        let Handle { at, .. } = handle;
        Loose {
            at: at as *mut Log,
            alloc,
        }
    }
}

impl Held for Discovery {
    const KIND: u32 = DISCOVERY;

    ghost KIND = { 4 };

    ghost held = { λ h. h.discovery };

    fn handle_of(pointer: Loose<Discovery, Global>) -> Handle
        ensures open { is_open_as 4 result ≡ true }
        ensures value { result.discovery ≡ pointer.value }
    {
        let Loose { at, alloc: _ } = pointer;
        Handle {
            at: at as *mut u8,
            is_open: true,
            kind: DISCOVERY,
        }
    }

    fn pointer_of(handle: Handle, alloc: Global) -> Loose<Discovery, Global> {
        let Handle { at, .. } = handle;
        Loose {
            at: at as *mut Discovery,
            alloc,
        }
    }
}
