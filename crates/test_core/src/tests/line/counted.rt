//! A line of one's own has its failures counted.
use super::rig::meets;
use crate::tests::*;

// Replies with how many frames it has received, but every third time it fails.
#[derive(Drop)]
struct Numbered {
    received: u8,
}

impl Asks for Numbered {
    fn ask(&mut self, _frame: &Frame) -> Option<LineReply> {
        self.received = self.received.saturating_add(1);
        if self.received % 3 == 0 {
            return None;
        }
        let mut reply = LineReply::new();
        reply.push(self.received);
        Some(reply)
    }
}

#[test]
fn counts_each_failure_once(rt: HostRuntime) {
    let mut line = Counted::new(Numbered { received: 0 });
    for (wanted, failures) in [
        (Some(1), 0),
        (Some(2), 0),
        (None, 1),
        (Some(4), 1),
        (Some(5), 1),
        (None, 2),
    ] {
        let wanted = wanted.map(|byte: u8| [byte]);
        meets(
            &rt,
            &mut line,
            wanted.as_ref().map(|bytes| bytes.as_slice()),
        );
        check(&rt, line.failures() == failures);
    }
    check(&rt, line.into_inner().received == 6);
}
