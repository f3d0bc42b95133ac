//! The calls of an object in memory: how much one moves, and which of them fail.

ghost use Rattle.std.specs.Prelude.{◌≡◌};

use std::marker::Model;

/// The most bytes that a call moves, the numbers of the calls that fail, counted from 1, and the calls so far.
#[derive(Drop)]
pub(crate) struct Calls<'a> {
    step: usize,
    fails: &'a [u32],
    made: u64,
    faults: u64,
}

impl<'a> Model for Calls<'a> {
    ghost use Rattle.vp_io.specs.Memory.{MemCalls};

    ghost Value = { MemCalls };

    ghost view = { λ c. record { step = c.step; fails = c.fails.now; made = c.made; faults = c.faults } };
}

impl<'a> Calls<'a> {
    ghost use Rattle.std.specs.Prelude.{◌≡◌, ◌≤◌};
    ghost use Rattle.vp_io.specs.Memory.{no_calls, fails_next, after_call, after_fault};

    pub(crate) fn new(step: usize, fails: &'a [u32]) -> Calls<'a>
        ensures { result ≡ no_calls step fails.now }
    {
        Calls {
            step,
            fails,
            made: 0,
            faults: 0,
        }
    }

    pub(crate) fn step(&self) -> usize
        ensures { result ≡ self.now.step }
    {
        self.step
    }

    /// Whether the next call is listed as one that fails.
    pub(crate) fn fails_next(&self) -> bool
        ensures { result ≡ fails_next self.now }
    {
        let number = self.made.saturating_add(1);
        self.fails.iter().any(|call| u64::from(*call) == number)
    }

    /// Counts a call that does not fail.
    pub(crate) fn pass(&mut self)
        ensures { self.new ≡ after_call self.old }
    {
        self.made = self.made.saturating_add(1);
    }

    /// Counts a call that fails.
    pub(crate) fn fail(&mut self)
        ensures fault { self.new ≡ after_fault self.old }
        ensures later { self.old.faults ≤ self.new.faults }
    {
        self.made = self.made.saturating_add(1);
        self.faults = self.faults.saturating_add(1);
    }
}
