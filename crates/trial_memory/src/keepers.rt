use crate::case::{Case, digest};
use action_log::LogKeeper;
use image_files::ImageKeeper;
use shared_capture::{ping_pong_pair, signal_pair, zigzag_pair};
use std::alloc::Global;
use world_actions::Refusal;
use world_ticks::Cells;

/// A case that makes an image keeper.
#[derive(Drop)]
pub struct Images {
    alloc: Global,
}

impl Case for Images {
    fn name() -> &'static str {
        "ImageKeeper::new"
    }

    fn refusal() -> Refusal {
        Refusal::NoMemory
    }

    fn set_up(alloc: Global) -> Result<Self, Refusal> {
        Ok(Images { alloc })
    }

    fn call(&mut self) -> Result<u64, Refusal> {
        let keeper = ImageKeeper::new(self.alloc, 2, None, [false; 2])?;
        Ok(keeper.left())
    }

    fn seen(&mut self) -> u64 {
        0
    }
}

/// A case that makes a log keeper.
#[derive(Drop)]
pub struct Log {
    alloc: Global,
}

impl Case for Log {
    fn name() -> &'static str {
        "LogKeeper::new"
    }

    fn refusal() -> Refusal {
        Refusal::NoMemory
    }

    fn set_up(alloc: Global) -> Result<Self, Refusal> {
        Ok(Log { alloc })
    }

    fn call(&mut self) -> Result<u64, Refusal> {
        let keeper = LogKeeper::new(self.alloc, 0, [false; 2])?;
        Ok(u64::from(keeper.starting()))
    }

    fn seen(&mut self) -> u64 {
        0
    }
}

/// A case that makes two seats of the method Zigzag.
#[derive(Drop)]
pub struct ZigzagPair {
    alloc: Global,
}

impl Case for ZigzagPair {
    fn name() -> &'static str {
        "zigzag_pair"
    }

    fn refusal() -> Refusal {
        Refusal::NoMemory
    }

    fn set_up(alloc: Global) -> Result<Self, Refusal> {
        Ok(ZigzagPair { alloc })
    }

    fn call(&mut self) -> Result<u64, Refusal> {
        let (mut front, _) = zigzag_pair(self.alloc, vec![in self.alloc; 3, 4]?)?;
        if front.len() != 2 {
            return Ok(0);
        }
        Ok(digest(&[front.read(0), front.read(1)]))
    }

    fn seen(&mut self) -> u64 {
        0
    }
}

/// A case that makes two seats of the method Ping-Pong.
#[derive(Drop)]
pub struct PingPongPair {
    alloc: Global,
}

impl Case for PingPongPair {
    fn name() -> &'static str {
        "ping_pong_pair"
    }

    fn refusal() -> Refusal {
        Refusal::NoMemory
    }

    fn set_up(alloc: Global) -> Result<Self, Refusal> {
        Ok(PingPongPair { alloc })
    }

    fn call(&mut self) -> Result<u64, Refusal> {
        let (mut front, _) = ping_pong_pair(self.alloc, vec![in self.alloc; 3, 4]?)?;
        if front.len() != 2 {
            return Ok(0);
        }
        Ok(digest(&[front.read(0), front.read(1)]))
    }

    fn seen(&mut self) -> u64 {
        0
    }
}

/// A case that makes the two ends of a cover.
#[derive(Drop)]
pub struct SignalPair {
    alloc: Global,
}

impl Case for SignalPair {
    fn name() -> &'static str {
        "signal_pair"
    }

    fn refusal() -> Refusal {
        Refusal::NoMemory
    }

    fn set_up(alloc: Global) -> Result<Self, Refusal> {
        Ok(SignalPair { alloc })
    }

    fn call(&mut self) -> Result<u64, Refusal> {
        let (_, mut latest) = signal_pair(self.alloc)?;
        Ok(latest.latest())
    }

    fn seen(&mut self) -> u64 {
        0
    }
}
