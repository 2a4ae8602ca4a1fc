//! How the worker makes the operator's calls.
ghost use Rattle.std.specs.Prelude.{◌≡◌, false};
ghost use Rattle.rdm_log.specs.log.LogState.{is_full_log};
ghost use Rattle.rdm_lanes.specs.body.Operated.{IsOperatorStep};

use crate::call::OperatorCall;
use rdm_queue::Session;

/// Makes a call of the operator in the session, whose log must not be full. A leave does nothing there.
pub fn operate(session: &mut Session, call: OperatorCall)
    requires free { is_full_log session.old ≡ false }
    ensures { IsOperatorStep call session.old session.new }
{
    match call {
        OperatorCall::Pause => pause(session),
        OperatorCall::Resume => resume(session),
        OperatorCall::Close => close(session),
        OperatorCall::Leave => {}
    }
}

// Pauses the session, whose log must not be full.
fn pause(session: &mut Session)
    requires free { is_full_log session.old ≡ false }
    ensures { IsOperatorStep OperatorCall.Pause session.old session.new }
{
    let _ = session.pause();
}

// Resumes the session, whose log must not be full.
fn resume(session: &mut Session)
    requires free { is_full_log session.old ≡ false }
    ensures { IsOperatorStep OperatorCall.Resume session.old session.new }
{
    let _ = session.resume();
}

// Closes the session.
fn close(session: &mut Session)
    ensures { IsOperatorStep OperatorCall.Close session.old session.new }
{
    session.close();
}
