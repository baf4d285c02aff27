//! Sinks in memory.

ghost use Rattle.std.specs.Prelude.{◌≡◌, ◌≤◌, [], Some, length};
ghost use Rattle.hops_base.specs.Devices.{Keeps, Records, TakesIn};

use crate::devices::{Given, Sink};
use std::alloc::Global;
use std::marker::Model;

/// A sink that takes at most `piece` bytes a call and fails the calls whose numbers, from 1, are in
/// `fails`.
#[derive(Debug, Drop)]
pub struct MemSink {
    held: Vec<u8>,
    piece: usize,
    fails: Vec<u64>,
    calls: u64,
    faults: u64,
}

impl Model for MemSink {
    ghost use Rattle.std.specs.Prelude.{◌≤◌};
    ghost use Rattle.hops_base.specs.Devices.{Scripted, coded_scripted};

    ghost Value = { Scripted };

    ghost coded = { coded_scripted };

    ghost view = { λ s. record { bytes = s.held.items; piece = s.piece; fails = s.fails.items; calls = s.calls; faults = s.faults } };

    ghost invariant = { λ s. 1 ≤ s.piece };
}

impl MemSink {
    /// An empty sink that was not called yet.
    pub fn new(alloc: Global, piece: usize, fails: Vec<u64>) -> MemSink
        requires { 1 ≤ piece }
        ensures { result ≡ record { bytes = []; piece = piece; fails = fails.items; calls = 0; faults = 0 } }
    {
        MemSink {
            held: Vec::new(alloc),
            piece,
            fails,
            calls: 0,
            faults: 0,
        }
    }

    /// What it holds.
    pub fn written(&self) -> &[u8]
        ensures { result.now ≡ self.now.bytes }
    {
        &self.held
    }
}

impl Sink for MemSink {
    ghost use Rattle.std.specs.Prelude.{Some};

    ghost store = { λ s. record { held = Some s.bytes; faults = s.faults } };

    fn give(&mut self, bytes: &[u8]) -> Given
        requires { 1 ≤ length bytes.now }
        ensures faults { self.old.faults ≤ self.new.faults }
        ensures answer { Keeps bytes.now result (record { held = Some self.old.bytes; faults = self.old.faults }) (record { held = Some self.new.bytes; faults = self.new.faults }) }
        ensures exactly { Records bytes.now result self.old self.new }
    {
        self.calls = self.calls.saturating_add(1);
        if self.fails.contains(&self.calls) {
            self.faults = self.faults.saturating_add(1);
            return Given::Failed;
        }
        take_in(&mut self.held, self.piece, bytes)
    }
}

/// A sink that takes all bytes at once and never fails. It is seen as the list of bytes that it holds.
#[derive(Debug, Drop)]
pub struct SteadySink {
    held: Vec<u8>,
}

impl Model for SteadySink {
    ghost use Rattle.std.specs.Prelude.{List, ℕ};

    ghost Value = { List ℕ };

    ghost view = { λ s. s.held.items };
}

impl SteadySink {
    /// An empty sink.
    pub fn new(alloc: Global) -> SteadySink
        ensures { result ≡ [] }
    {
        SteadySink {
            held: Vec::new(alloc),
        }
    }

    /// What it holds.
    pub fn written(&self) -> &[u8]
        ensures { result.now ≡ self.now }
    {
        &self.held
    }
}

impl Sink for SteadySink {
    ghost use Rattle.std.specs.Prelude.{Some};

    ghost store = { λ s. record { held = Some s; faults = 0 } };

    fn give(&mut self, bytes: &[u8]) -> Given
        requires { 1 ≤ length bytes.now }
        ensures faults { 0 ≤ 0 }
        ensures answer { Keeps bytes.now result (record { held = Some self.old; faults = 0 }) (record { held = Some self.new; faults = 0 }) }
        ensures exactly { TakesIn (length bytes.now) bytes.now result self.old self.new }
    {
        take_in(&mut self.held, bytes.len(), bytes)
    }
}

// Adds at most this many of the bytes, from the first on.
fn take_in(held: &mut Vec<u8>, most: usize, bytes: &[u8]) -> Given
    ensures { TakesIn most bytes.now result held.old.items held.new.items }
{
    let count = bytes.len().min(most);
    match held.extend_from_slice(&bytes[..count]) {
        Ok(()) => Given::Took(count),
        Err(_) => Given::NoMemory,
    }
}
