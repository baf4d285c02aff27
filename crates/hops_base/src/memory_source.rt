//! Sources in memory.

ghost use Rattle.std.specs.Prelude.{◌≡◌, ◌≤◌, Some, length, drop};
ghost use Rattle.hops_base.specs.Devices.{HandsOver, Hands, Plays, IsAppended};

use crate::devices::{Source, Taken};
use std::marker::Model;

/// A source of these bytes, which hands over at most `piece` of them a call and fails the calls whose
/// numbers, from 1, are in `fails`.
#[derive(Debug, Drop)]
pub struct MemSource {
    bytes: Vec<u8>,
    at: usize,
    piece: usize,
    fails: Vec<u64>,
    calls: u64,
    faults: u64,
}

impl Model for MemSource {
    ghost use Rattle.std.specs.Prelude.{◌≤◌, length, drop};
    ghost use Rattle.hops_base.specs.Devices.{Scripted, coded_scripted};

    ghost Value = { Scripted };

    ghost coded = { coded_scripted };

    ghost view = { λ s. record { bytes = drop s.at s.bytes.items; piece = s.piece; fails = s.fails.items; calls = s.calls; faults = s.faults } };

    ghost invariant = { λ s. (s.at ≤ length s.bytes.items) × (1 ≤ s.piece) };
}

impl MemSource {
    /// A source of these bytes that was not called yet.
    pub fn new(bytes: Vec<u8>, piece: usize, fails: Vec<u64>) -> MemSource
        requires { 1 ≤ piece }
        ensures { result ≡ record { bytes = bytes.items; piece = piece; fails = fails.items; calls = 0; faults = 0 } }
    {
        MemSource {
            bytes,
            at: 0,
            piece,
            fails,
            calls: 0,
            faults: 0,
        }
    }
}

impl Source for MemSource {
    ghost use Rattle.std.specs.Prelude.{Some};

    ghost stock = { λ s. record { left = Some s.bytes; faults = s.faults } };

    fn take(&mut self, into: &mut Vec<u8>, max: usize) -> Taken
        requires { 1 ≤ max }
        ensures faults { self.old.faults ≤ self.new.faults }
        ensures answer { Hands max result (record { left = Some self.old.bytes; faults = self.old.faults }) (record { left = Some self.new.bytes; faults = self.new.faults }) into.old.items into.new.items }
        ensures exactly { Plays max result self.old self.new }
    {
        self.calls = self.calls.saturating_add(1);
        if self.fails.contains(&self.calls) {
            self.faults = self.faults.saturating_add(1);
            return Taken::Failed;
        }
        let most = self.piece.min(max);
        hand_over(&self.bytes, &mut self.at, most, into)
    }
}

/// A source of these bytes that hands over all that is wanted and never fails. It is seen as the list of
/// bytes that it has left.
#[derive(Debug, Drop)]
pub struct SteadySource {
    bytes: Vec<u8>,
    at: usize,
}

impl Model for SteadySource {
    ghost use Rattle.std.specs.Prelude.{List, ℕ, ◌≤◌, length, drop};

    ghost Value = { List ℕ };

    ghost view = { λ s. drop s.at s.bytes.items };

    ghost invariant = { λ s. s.at ≤ length s.bytes.items };
}

impl SteadySource {
    /// A source of these bytes.
    pub fn new(bytes: Vec<u8>) -> SteadySource
        ensures { result ≡ bytes.items }
    {
        SteadySource { bytes, at: 0 }
    }
}

impl Source for SteadySource {
    ghost use Rattle.std.specs.Prelude.{Some};

    ghost stock = { λ s. record { left = Some s; faults = 0 } };

    fn take(&mut self, into: &mut Vec<u8>, max: usize) -> Taken
        requires { 1 ≤ max }
        ensures faults { 0 ≤ 0 }
        ensures answer { Hands max result (record { left = Some self.old; faults = 0 }) (record { left = Some self.new; faults = 0 }) into.old.items into.new.items }
        ensures exactly { HandsOver max result self.old self.new }
    {
        hand_over(&self.bytes, &mut self.at, max, into)
    }
}

// Appends at most this many of the bytes from `at` on, and moves `at` past them.
fn hand_over(bytes: &[u8], at: &mut usize, most: usize, into: &mut Vec<u8>) -> Taken
    requires within { at.old ≤ length bytes.now }
    requires wanted { 1 ≤ most }
    ensures within { at.new ≤ length bytes.now }
    ensures answer { HandsOver most result (drop at.old bytes.now) (drop at.new bytes.now) }
    ensures appended { IsAppended result (drop at.old bytes.now) into.old.items into.new.items }
{
    let left = &bytes[*at..];
    let count = left.len().min(most);
    if count == 0 {
        return Taken::End;
    }
    match into.extend_from_slice(&left[..count]) {
        Ok(()) => {
            *at += count;
            Taken::Got(count)
        }
        Err(_) => Taken::NoMemory,
    }
}
