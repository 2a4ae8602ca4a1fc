//! The order in which a session returns its clients' bodies and callbacks.
use crate::tests::*;
use test_stage::serve_bodies;

// Two clients, each of which makes its calls and doesn't leave.
static CALLERS: [Part<'static>; 2] = [
    part! { Submit(10) => Done, Submit(11) => Done, Full(12) => Done },
    part! { Submit(20) => Done, Submit(21) => Refused(Refusal::Full(21)), Full(22) => Done },
];

// The worker makes no turn.
#[test]
fn all_comes_back_in_order(rt: HostRuntime) -> Result<(), Fail> {
    let players = vec![in rt.alloc(); Player::new(CALLERS[0].0), Player::new(CALLERS[1].0)]?;
    let setup = Setup::new(100, 4, &[2, 1]).of_capacity(4);
    let line = silent(rt.alloc(), 0)?;
    let over = serve_bodies(&rt, rt.alloc(), setup, players, 0, line).map_err(Failed::from)?;
    for (at, part) in CALLERS.iter().enumerate() {
        let player = over.players.get(at).ok_or("a player is missing")?;
        player_heard(player, at, part.1)?;
    }
    counts_are(&over.left, &[(3, 0, 3), (2, 0, 2)])?;
    let tags = [[10, 11, 12, 0], [20, 22, 0, 0]];
    for (left, tags) in over.left.iter().zip(&tags) {
        assert_eq!(rt; (left.tags, left.slots), (*tags, (4, 4)));
    }
    assert_eq!(rt; over.players.len(), 2);
    Ok(())
}
