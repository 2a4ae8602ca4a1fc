//! A handle: what C holds of a controller, a session, a log or a discovery run.
ghost use Rattle.rdm_handles.specs.Owned.{handle_owns};
ghost use Rattle.rdm_handles.specs.Rows.{controller_row, session_row, log_row, discovery_row};
ghost use Rattle.rdm_handles.specs.declared.discovery.Discovery.{Discovery};
ghost use Rattle.rdm_log.specs.log.LogState.{LogState};
ghost use Rattle.rdm_queue.specs.body.State.{QueueState};

use std::marker::Model;
use std::mem::size_of;

/// The kind of a handle that holds a controller.
pub const CONTROLLER: u32 = 1;

/// The kind of a handle that holds a session.
pub const SESSION: u32 = 2;

/// The kind of a handle that holds a log.
pub const LOG: u32 = 3;

/// The kind of a handle that holds a discovery run.
pub const DISCOVERY: u32 = 4;

/// What C holds. All bytes 0 is a closed handle.
///
/// It may be dropped only when it is closed. What an open one holds would never be freed.
#[repr(C)]
#[derive(Drop)]
pub struct Handle {
    pub(crate) at: *mut u8,
    /// Whether it holds a value.
    pub is_open: bool,
    /// The kind of that value: `CONTROLLER`, `SESSION`, `LOG` or `DISCOVERY`.
    pub kind: u32,
    /// The controller that an open handle of that kind holds.
    pub ghost controller: { QueueState } by { controller_row.coded },
    /// The session that an open handle of that kind holds.
    pub ghost session: { LogState } by { session_row.coded },
    /// The log that an open handle of that kind holds.
    pub ghost log: { LogState } by { log_row.coded },
    /// The discovery run that an open handle of that kind holds.
    pub ghost discovery: { Discovery } by { discovery_row.coded },
}

// The size that the header states.
const _: () = prove!(size_of::<Handle>() == 16);

impl Model for Handle {
    ghost also_owns = { λ h. handle_owns h.is_open h.kind h.at h.controller h.session h.log h.discovery };
}

unsafe impl Send for Handle {}
