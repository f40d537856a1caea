//! What the datagrams of a probe are there for.

ghost use Rattle.std.specs.Prelude.{◌≡◌};
ghost use Rattle.swim_chart.specs.Roles.{relayed, role_at};

/// What a datagram of a probe is there for (section 3.1 of the SWIM paper). The number says how many relays were asked
/// before the one that has to do with it.
#[derive(Clone, Copy, Debug, PartialEq, Eq)]
pub enum Role {
    /// The initiator pings the target.
    Ping,
    /// The target answers that ping.
    Ack,
    /// The initiator asks a relay to ping the target.
    Request(u32),
    /// The relay pings the target.
    RelayPing(u32),
    /// The target answers that ping.
    RelayAck(u32),
    /// The relay forwards that answer to the initiator.
    Forward(u32),
}

impl Role {
    /// Returns what the datagram at a place is there for, in the order of `swim_trace::ways_of`.
    pub fn at(place: u32) -> Role
        ensures { result ≡ role_at place }
    {
        match place {
            0 => Role::Ping,
            1 => Role::Ack,
            _ => relayed((place - 2) / 4, (place - 2) % 4),
        }
    }
}

/// Returns what a datagram is there for by its place among the four of a relay.
fn relayed(relay: u32, part: u32) -> Role
    ensures { result ≡ relayed relay part }
{
    match part {
        0 => Role::Request(relay),
        1 => Role::RelayPing(relay),
        2 => Role::RelayAck(relay),
        _ => Role::Forward(relay),
    }
}
