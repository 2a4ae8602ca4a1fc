//! Replies that are on the line at the same time.
ghost use Rattle.std.specs.Prelude.{◌≡◌, ◌≤◌, length};
ghost use Rattle.rdm_line.specs.Overlays.{laid_over};

use rdm_join::LineReply;
use rdm_wire::LONGEST_BRANCH_REPLY;

/// Adds a reply to others: the OR of both, byte by byte. The shorter one is filled up with zeros.
pub(crate) fn lay_over(all: &mut LineReply, reply: &[u8])
    requires all { length all.old.items ≤ LONGEST_BRANCH_REPLY }
    requires reply { length reply.now ≤ LONGEST_BRANCH_REPLY }
    ensures laid { all.new.items ≡ laid_over all.old.items reply.now }
    ensures few { length all.new.items ≤ LONGEST_BRANCH_REPLY }
{
    'bytes: for i in 0..reply.len() {
        if i < all.len() {
            all[i] |= reply[i];
        } else {
            all.push(reply[i]);
        }
    }
}
