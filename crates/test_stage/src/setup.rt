//! The setup of clients with ring buffers.

/// The setup of lanes.
#[derive(Clone, Copy)]
pub struct Setup<'a> {
    /// How many free entries the log has.
    pub free: usize,
    /// The capacity for all clients together.
    pub greatest: u8,
    /// How many slots each ring has; 0 means one.
    pub ring: u8,
    /// The queue depth of each client.
    pub places: &'a [u8],
}

impl<'a> Setup<'a> {
    /// Clients with these queue depths, rings of this many slots, and a log with this many free entries. The capacity
    /// for all clients is 255.
    pub fn new(free: usize, ring: u8, places: &'a [u8]) -> Setup<'a> {
        Setup {
            free,
            greatest: 255,
            ring,
            places,
        }
    }

    /// The same with this capacity for all clients.
    pub fn of_capacity(self, greatest: u8) -> Setup<'a> {
        Setup { greatest, ..self }
    }
}
