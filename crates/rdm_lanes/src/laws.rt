//! Laws over threads: which outcomes clients get over a simulated line, whatever their bodies do, and whenever they
//! call.
ghost use Rattle.std.specs.Prelude.{ℕ, List};
ghost use Rattle.rdm_line.specs.Sim.{SimState};
ghost use Rattle.rdm_log.specs.declared.config.Setup.{Setup};
ghost use Rattle.rdm_log.specs.log.LogState.{LogState};
ghost use Rattle.rdm_lanes.specs.declared.client.ends.ClientEnd.{ClientEnd};
ghost use Rattle.rdm_scenes.specs.Scenes.{IsLossyScene, IsStayingScene, IsCalmScene};
ghost use Rattle.rdm_lanes.specs.OverThreads.{IsEndOver, GetsTheDevices, GetsTheChanging};
ghost use Rattle.rdm_lanes.specs.OverThreads.{IsEnough, IsByDefault, GetsNoFault};

use crate::views::history::ViewHistory;

/// Each discovery's outcome without fault that a client got has exactly the simulated line's devices. The conditions
/// are that the line loses no five exchanges in a row, and that its devices stay. A session of
/// [`run_session`](crate::run_session) is such a session.
pub fn clients_get_the_devices<J: ViewHistory, C, A>()
    ensures { (setup : Setup) (room : ℕ) (places : List ℕ) (s t : SimState) (k : LogState)
        (c : ℕ) (e : ClientEnd J C A (record { book = J.book })) → IsEndOver setup room places s t k c e
        → IsStayingScene s → GetsTheDevices s e }
{}

/// If, in addition, no exchange fails and the budget suffices for the search's bound on frames, no discovery's outcome
/// has a fault. The default budget suffices for a steady search of at most 1,024 devices, which is as many as a scene
/// may have.
pub fn clients_get_no_fault<J: ViewHistory, C, A>()
    ensures enough { (setup : Setup) (room : ℕ) (places : List ℕ) (s t : SimState) (k : LogState)
        (c : ℕ) (e : ClientEnd J C A (record { book = J.book })) → IsEndOver setup room places s t k c e
        → IsCalmScene s → IsEnough setup s → GetsNoFault e }
    ensures by_default { (setup : Setup) (room : ℕ) (places : List ℕ) (s t : SimState)
        (k : LogState) (c : ℕ) (e : ClientEnd J C A (record { book = J.book }))
        → IsEndOver setup room places s t k c e → IsCalmScene s → IsByDefault setup → GetsNoFault e }
{}

/// If devices come and leave, each outcome without fault has each device that is always there. No outcome has a device
/// that never is.
pub fn clients_get_no_stranger<J: ViewHistory, C, A>()
    ensures { (setup : Setup) (room : ℕ) (places : List ℕ) (s t : SimState) (k : LogState)
        (c : ℕ) (e : ClientEnd J C A (record { book = J.book })) → IsEndOver setup room places s t k c e
        → IsLossyScene s → GetsTheChanging s e }
{}
