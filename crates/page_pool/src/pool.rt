// The pool: its frames, and the ids that callers gave back.
ghost use Rattle.std.specs.Prelude.{◌≡◌, ◌↔◌, ◌+◌, IfOk, OnOk, OnErr, IsErr, Some, None, replicate};
ghost use Rattle.std.specs.Borrow.{sem};
ghost use Rattle.page_pool.specs.Pool.{GivesFrame, IsHeld, TakesFrame, frame_at, spare_of};
ghost use Rattle.page_pool.specs.Lending.{LendsFrame};

use crate::Frame;
use crate::frame::empty;
use std::alloc::{AllocError, Global};
use std::marker::Model;

/// There is not enough memory for the frames.
#[derive(Clone, Copy, Debug, PartialEq, Eq)]
pub struct WantOfMemory;

impl From<AllocError> for WantOfMemory {
    ghost from_gives = { λ _ no. no ≡ record {} };

    fn from(_: AllocError) -> WantOfMemory {
        WantOfMemory
    }
}

/// No frame is spare.
#[derive(Clone, Copy, Debug, PartialEq, Eq)]
pub struct NoFrame;

/// The place of a frame that was taken. It cannot be copied. If it is dropped, its frame stays taken.
#[derive(Debug, Drop)]
pub struct FrameId {
    place: u32,
}

impl Model for FrameId {
    ghost use Rattle.std.specs.Prelude.{ℕ, ◌<◌, ◌^◌};

    ghost Value = { ℕ };

    ghost view = { λ id. id.place };

    ghost invariant = { λ id. id.place < 2 ^ 32 };
}

// The frame at a place that was taken at least once, and whether it is taken now.
#[derive(Drop)]
struct PooledFrame {
    held: bool,
    frame: Frame,
}

/// A region of frames.
#[derive(Drop)]
pub struct Pool {
    // The frames at the places that were taken at least once. The memory of the others is not touched yet.
    frames: Vec<PooledFrame>,
    // The ids that callers gave back.
    free: Vec<FrameId>,
    size: u32,
}

impl Model for Pool {
    ghost use Rattle.std.specs.Prelude.{List, Option, vec_capacity};
    ghost use Rattle.page_pool.specs.declared.frame.Frame.{Frame};

    ghost Value = { List (Option Frame) };

    ghost use Rattle.page_pool.specs.PooledFrames.{AreFramesStored, places_of};

    ghost view = { λ p. places_of p.frames.items p.size };

    ghost invariant = { λ p. AreFramesStored p.frames.items p.free.items p.size (vec_capacity p.frames) (vec_capacity p.free) };
}

impl Pool {
    /// Returns a pool of `frames` frames, all spare. No later call on the pool takes memory. Answers [`WantOfMemory`]
    /// if there is not enough memory for the frames.
    pub fn reserve(alloc: Global, frames: u32) -> Result<Pool, WantOfMemory>
        ensures value { IfOk result (λ pool. pool ≡ replicate frames None) }
        ensures spare { IfOk result (λ pool. spare_of pool ≡ frames) }
    {
        let pooled = Vec::with_capacity(alloc, frames as usize)?;
        let free = Vec::with_capacity(alloc, frames as usize)?;
        Ok(Pool {
            frames: pooled,
            free,
            size: frames,
        })
    }

    /// Takes a spare frame and returns its id. The frame is empty.
    pub fn take_frame(&mut self) -> Result<FrameId, NoFrame>
        ensures taken { IfOk result (λ id. TakesFrame self.old id self.new) }
        ensures spare { OnOk result (spare_of self.new + 1 ≡ spare_of self.old) }

        // `NoFrame` comes exactly if no frame is spare; the pool is then unchanged.
        ensures none_spare { IsErr result ↔ (spare_of self.old ≡ 0) }
        ensures unchanged { OnErr result (self.new ≡ self.old) }
    {
        let pooled = PooledFrame {
            held: true,
            frame: empty(),
        };
        if let Some(id) = self.free.pop() {
            self.frames[id.place as usize] = pooled;
            return Ok(id);
        }
        let place = self.frames.len() as u32;
        if place == self.size {
            return Err(NoFrame);
        }
        self.frames.push_reserved(pooled);
        Ok(FrameId { place })
    }

    /// Gives a frame back, which makes it spare.
    pub fn give_frame(&mut self, id: FrameId)
        requires { IsHeld self.old id }
        ensures given { GivesFrame self.old id self.new }
        ensures spare { spare_of self.new ≡ spare_of self.old + 1 }
    {
        self.frames[id.place as usize].held = false;
        self.free.push_reserved(id);
    }

    /// Returns how many frames are spare.
    pub fn spare(&self) -> u32
        ensures { result ≡ spare_of self.now }
    {
        self.size - self.frames.len() as u32 + self.free.len() as u32
    }

    /// Returns the frame of this id.
    pub fn frame(&self, id: &FrameId) -> &Frame
        requires { IsHeld self.now id.now }
        ensures { frame_at self.now id.now ≡ Some result.now }
    {
        &self.frames[id.place as usize].frame
    }

    /// Returns the frame of this id for writing.
    pub fn frame_mut(&mut self, id: &FrameId) -> &mut Frame
        requires { IsHeld self.old id.now }
        ensures* writes_back { sem 𝓛 (LendsFrame self.entry id.now result) }
        ensures value { frame_at self.old id.now ≡ Some result.now }
    {
        &mut self.frames[id.place as usize].frame
    }
}
