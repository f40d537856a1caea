//! A door, and the connections that came in by it.

ghost use Rattle.std.specs.Prelude.{◌≡◌, []};

use crate::doors::Door;
use std::alloc::Global;
use swim_control::Connections;

/// A door, and the connections that came in by it and are served. They go on from life to life.
#[derive(Drop)]
pub struct Hall<D: Door + Drop> {
    /// By which operators come.
    pub door: D,
    /// Those who came, until they are closed.
    pub connections: Connections<D::Reader, D::Writer>,
    /// How many came and were turned away. The count stops at 2^64-1.
    pub turned_away: u64,
}

impl<D: Door + Drop> Hall<D> {
    /// Returns a hall with this door, by which nobody came yet.
    pub fn new(alloc: Global, door: D) -> Hall<D>
        ensures door { result.door ≡ door }
        ensures connections { result.connections ≡ record { talks = []; count = 0; closed = [] } }
        ensures turned_away { result.turned_away ≡ 0 }
    {
        Hall {
            door,
            connections: Connections::new(alloc),
            turned_away: 0,
        }
    }
}
