use capture_core::{Capture, PlainCopy, Taken};
use ping_pong::PingPong;
use shared_capture::{Joined, Pong, Zig};
use std::test::Fail;
use zigzag::Zigzag;

// The words that the takes of a store represent, in five rounds over one list of writes, marks and
// takes. After the words of each round comes 1 if it is still open, else 0.
fn captured<C: Capture>(rt: &HostRuntime, cells: usize) -> Result<Vec<u64>, Fail> {
    let mut image = vec![in rt.alloc(); 0; cells]?;
    let mut store = C::build(rt.alloc(), &image)?;
    let mut captured = Vec::new(rt.alloc());
    for round in 0..5u64 {
        // In every other round some cells are written before the mark as well.
        if round % 2 == 0 {
            play(&mut store, round, cells / 2);
        }
        if !store.open_round() {
            store.mark();
        }
        for (i, word) in image.iter_mut().enumerate() {
            if let Some(Taken::Word(taken)) = store.take() {
                *word = taken;
            }
            play(&mut store, round, i);
        }
        captured.extend_from_slice(&image)?;
        captured.push(u64::from(store.open_round()))?;
    }
    Ok(captured)
}

// Writes a cell, which depends on the turn.
fn play<C: Capture>(store: &mut C, round: u64, turn: usize) {
    let cells = store.len();
    if cells == 0 {
        return;
    }
    let cell = turn.wrapping_mul(5) % cells;
    let word = (turn as u64).wrapping_mul(7).wrapping_add(round) % 1000;
    store.write(cell, word);
}

#[test]
fn stores_capture_the_same_words(rt: HostRuntime) -> Result<(), Fail> {
    for cells in [1, 2, 63, 64, 65, 130, 65536] {
        let plain = captured::<PlainCopy>(&rt, cells)?;
        assert_eq!(rt; plain.len(), (cells + 1) * 5);
        assert!(rt;
            captured::<Zigzag>(&rt, cells)? == plain,
            "Zigzag over {cells} cells"
        );
        assert!(rt;
            captured::<PingPong>(&rt, cells)? == plain,
            "Ping-Pong over {cells} cells"
        );
        assert!(rt;
            captured::<Joined<Zig>>(&rt, cells)? == plain,
            "Zigzag, shared, over {cells} cells"
        );
        assert!(rt;
            captured::<Joined<Pong>>(&rt, cells)? == plain,
            "Ping-Pong, shared, over {cells} cells"
        );
    }
    Ok(())
}
