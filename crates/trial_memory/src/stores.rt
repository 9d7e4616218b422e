use crate::case::{Case, digest};
use capture_core::{Capture, PlainCopy};
use ping_pong::PingPong;
use shared_capture::{Joined, Pong, Zig};
use std::alloc::Global;
use std::marker::PhantomData;
use world_actions::Refusal;
use zigzag::Zigzag;

/// A store that can be built.
pub trait Named: Capture {
    fn named() -> &'static str;
}

impl Named for PlainCopy {
    fn named() -> &'static str {
        "PlainCopy::build"
    }
}

impl Named for Zigzag {
    fn named() -> &'static str {
        "Zigzag::build"
    }
}

impl Named for PingPong {
    fn named() -> &'static str {
        "PingPong::build"
    }
}

impl Named for Joined<Zig> {
    fn named() -> &'static str {
        "Joined::build by zigzag"
    }
}

impl Named for Joined<Pong> {
    fn named() -> &'static str {
        "Joined::build by pingpong"
    }
}

/// A case that builds a store.
#[derive(Drop)]
pub struct Build<C: Named> {
    alloc: Global,
    store: PhantomData<C>,
}

impl<C: Named> Case for Build<C> {
    fn name() -> &'static str {
        C::named()
    }

    fn refusal() -> Refusal {
        Refusal::NoMemory
    }

    fn set_up(alloc: Global) -> Result<Self, Refusal> {
        Ok(Build {
            alloc,
            store: PhantomData,
        })
    }

    fn call(&mut self) -> Result<u64, Refusal> {
        let mut store = C::build(self.alloc, &[3, 4])?;
        if store.len() != 2 {
            return Ok(0);
        }
        Ok(digest(&[store.read(0), store.read(1)]))
    }

    fn seen(&mut self) -> u64 {
        0
    }
}
