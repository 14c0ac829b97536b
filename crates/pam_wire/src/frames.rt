ghost use Rattle.std.specs.Prelude.{◌≡◌, ◌+◌, ◌<◌, ◌≤◌, ◌++◌, ◌^◌, ℕ, List, [], length, drop, Err, IfOk, OnOk, OnErr};
ghost use Rattle.pam_base.specs.declared.call.Step.{Step as TheStep};
ghost use Rattle.pam_wire.specs.Frame.{AreBytes};
ghost use Rattle.pam_wire.specs.Stream.{Gave, GivesNext, IsStep, Nexts, next_of};

use crate::next::{Next, next_of};
use pam_base::{NoMemory, Refuse, Step};
use std::alloc::Global;
use std::marker::Model;

/// The bytes aren't a frame.
#[derive(Clone, Copy, Debug, PartialEq, Eq)]
pub struct BadFrame {
    /// The position of the first of them among all bytes fed, from 0.
    pub place: u64,
}

/// The steps of a stream of frames, which is fed in pieces.
#[derive(Debug, Drop)]
pub struct Frames {
    // how many bytes the steps returned so far have
    place: u64,
    held: Vec<u8>,
}

impl Model for Frames {
    ghost use Rattle.pam_wire.specs.Stream.{FramesState};

    ghost Value = { FramesState };

    ghost view = { λ f. record { place = f.place; rest = f.held.items } };
}

impl Frames {
    /// A stream of which nothing was fed. It does not allocate before the first piece.
    pub fn new(alloc: Global) -> Self
        ensures empty { result ≡ record { place = 0; rest = [] } }
        ensures gave { Gave [] [] result }
    {
        Frames {
            place: 0,
            held: Vec::new(alloc),
        }
    }

    /// Adds a piece after what was fed before; all together has fewer than 2^63 bytes. If an
    /// allocation fails, nothing changes.
    pub fn feed(&mut self, piece: &[u8]) -> Result<(), NoMemory>
        requires { self.old.place + length self.old.rest + length piece.now < 2 ^ 63 }
        ensures ok { OnOk result (self.new ≡ record {
          place = self.old.place;
          rest = self.old.rest ++ piece.now;
        }) }
        ensures err { OnErr result (self.new ≡ self.old) }
        ensures gave { (fed : List ℕ) (steps : List TheStep) → Gave fed steps self.old →
            OnOk result (Gave (fed ++ piece.now) steps self.new) }
    {
        self.held.extend_from_slice(piece)?;
        Ok(())
    }

    /// Takes the step of the next frame. Returns None if and only if what is left is empty, or the
    /// beginning of a frame whose length is in range; `BadFrame` if and only if the length is out
    /// of range, or the frame is whole and isn't a call, and then every later call returns the
    /// same. Only a step allocates; if that fails, nothing changes.
    pub fn next(&mut self, alloc: Global) -> Result<Option<Step>, Refuse<BadFrame>>
        requires { self.old.place + length self.old.rest < 2 ^ 63 }
        ensures next { Nexts result self.old self.new }
        ensures memory { result ≡ Err Refuse.NoMemory → IsStep (next_of self.old.rest) }
        ensures fed { self.new.place + length self.new.rest
            ≡ self.old.place + length self.old.rest }
        ensures gave { (fed : List ℕ) (steps : List TheStep) → AreBytes fed →
            Gave fed steps self.old → GivesNext result fed steps self.new }
    {
        match next_of(alloc, &self.held)? {
            Next::Open => Ok(None),
            Next::Bad => Err(Refuse::Named(BadFrame { place: self.place })),
            Next::Frame(step, size) => {
                self.skip(size);
                Ok(Some(step))
            }
        }
    }

    /// How many of the bytes fed don't belong to a step that was taken.
    pub fn rest(&self) -> usize
        ensures { result ≡ length self.now.rest }
    {
        self.held.len()
    }

    fn skip(&mut self, size: usize)
        requires within { size ≤ length self.old.rest }
        requires few { self.old.place + length self.old.rest < 2 ^ 63 }
        ensures { self.new ≡ record {
          place = self.old.place + size;
          rest = drop size self.old.rest;
        } }
    {
        let left = self.held.len() - size;
        self.held.rotate_left(size);
        self.held.truncate(left);
        self.place += size as u64;
    }
}
