// `zigzag` and `ping_pong`
use super::same::same;
use ping_pong::PingPong;
use std::alloc::Global;
use world_actions::Refusal;
use zigzag::Zigzag;

// The entries of the second cell in both arrays of a new Zigzag.
fn zigzag_entries(alloc: Global) -> Result<(u64, u64), Refusal> {
    let store: Zigzag = Zigzag::new(alloc, &[5, 7])?;
    Ok(store.arrays(1))
}

// The same of a new Ping-Pong.
fn ping_pong_entries(alloc: Global) -> Result<(u64, u64), Refusal> {
    let store: PingPong = PingPong::new(alloc, &[5, 7])?;
    Ok(store.arrays(1))
}

#[test]
fn both_arrays_begin_with_the_words(rt: HostRuntime) {
    same(&rt, zigzag_entries(rt.alloc()), Ok((7, 7)));
    same(&rt, ping_pong_entries(rt.alloc()), Ok((7, 7)));
}
