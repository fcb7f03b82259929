//! Packets that aren't settled.

ghost use Rattle.std.specs.Prelude.{◌≡◌, ◌==◌, ◌++◌, ◌∷◌, [], OnErr, OnOk, find, position};
ghost use Rattle.ibc_run_notes.specs.Flights.{found_flight, is_flight, with_arrived, without_flight};

use std::alloc::{AllocError, Global};

/// A packet: the place of the end that sent it, the chain that is to receive it, its sequence, and its timeouts.
#[derive(Clone, Copy)]
pub struct Flight {
    pub end: usize,
    pub to: u8,
    pub sequence: u64,
    pub timeout_height: u64,
    pub timeout_time: u64,
}

/// The packets that were sent and not received yet, and those that were received and not acknowledged yet, each in the order in
/// which they came.
#[derive(Drop)]
pub struct Flights {
    pub on_the_way: Vec<Flight>,
    pub received: Vec<Flight>,
}

impl Flights {
    /// Nothing was sent yet.
    pub fn new(alloc: Global) -> Flights
        ensures on_the_way { result.on_the_way.items ≡ [] }
        ensures received { result.received.items ≡ [] }
    {
        Flights {
            on_the_way: Vec::new(alloc),
            received: Vec::new(alloc),
        }
    }

    /// Notes a packet that was sent. Error: no memory.
    pub fn depart(&mut self, flight: Flight) -> Result<(), AllocError>
        ensures on_the_way { OnOk result (self.new.on_the_way.items ≡ self.old.on_the_way.items ++ flight ∷ []) }
        ensures err { OnErr result (self.new.on_the_way.items ≡ self.old.on_the_way.items) }
        ensures received { self.new.received ≡ self.old.received }
    {
        self.on_the_way.push(flight)?;
        Ok(())
    }

    /// Notes that the packet of an end and a sequence was received, where it was on the way. Error: no memory.
    pub fn arrive(&mut self, end: usize, sequence: u64) -> Result<(), AllocError>
        ensures on_the_way { self.new.on_the_way.items ≡ without_flight end sequence self.old.on_the_way.items }
        ensures received { OnOk result (self.new.received.items ≡ with_arrived end sequence self.old.on_the_way.items self.old.received.items) }
    {
        match taken_out(&mut self.on_the_way, end, sequence) {
            Some(flight) => {
                self.received.push(flight)?;
                Ok(())
            }
            None => Ok(()),
        }
    }

    /// Notes that the packet of an end and a sequence is settled.
    pub fn settle(&mut self, end: usize, sequence: u64)
        ensures on_the_way { self.new.on_the_way.items ≡ without_flight end sequence self.old.on_the_way.items }
        ensures received { self.new.received.items ≡ without_flight end sequence self.old.received.items }
    {
        let _late = taken_out(&mut self.on_the_way, end, sequence);
        let _acknowledged = taken_out(&mut self.received, end, sequence);
    }
}

// Takes the packet of an end and a sequence out of a list, where it is there.
fn taken_out(flights: &mut Vec<Flight>, end: usize, sequence: u64) -> Option<Flight>
    ensures taken { result ≡ found_flight end sequence flights.old.items }
    ensures rest { flights.new.items ≡ without_flight end sequence flights.old.items }
{
    match place_of(flights.as_slice(), end, sequence) {
        Some(place) => Some(flights.remove(place)),
        None => None,
    }
}

// The place of the first packet of an end and a sequence.
fn place_of(flights: &[Flight], end: usize, sequence: u64) -> Option<usize>
    ensures { result ≡ position (is_flight end sequence) flights.now }
{
    flights
        .iter()
        .position(|flight| is_flight(flight, end, sequence))
}

// Whether a packet is that of an end and a sequence.
fn is_flight(flight: &Flight, end: usize, sequence: u64) -> bool
    ensures { result ≡ is_flight end sequence flight.now }
{
    flight.end == end && flight.sequence == sequence
}

/// The first packet of an end in a list.
pub fn first_of_end(flights: &[Flight], end: usize) -> Option<Flight>
    ensures { result ≡ find (λ flight. flight.end == end) flights.now }
{
    flights.iter().copied().find(|flight| flight.end == end)
}
