ghost use Rattle.std.specs.Prelude.{◌≡◌, ◌≤◌, IsTrue, IfOk, All, ⊤};
ghost use Rattle.world_actions.specs.World.{IsWord};
ghost use Rattle.world_ticks.specs.declared.tick.TheConstants.{TICK_MAX};
ghost use Rattle.file_format.specs.Gate.{HasShutGate};
ghost use Rattle.image_files.specs.declared.format.TheConstants.{CELLS_MAX};
ghost use Rattle.image_files.specs.declared.phase.Phase.TheVariants.{Idle};
ghost use Rattle.image_files.specs.Files.{FitsFiles};
ghost use Rattle.image_files.specs.Steps.{IfOpened};

use capture_core::{Capture, PlainCopy, Taken, Taker};
use disk_model::{Disk, Fused, ModelFile};
use image_files::{ImageAnswer, ImageKeeper, ImageState, Slot, read_image};
use std::alloc::Global;
use std::process::Abort;
use std::test::Fail;
use world_actions::{CELLS, LIMIT, Refusal};
use world_ticks::Cells;

// More steps than any round here has.
const MOST_STEPS: u32 = 2_000_000;

// Answers Same for each cell, so that an image gets the newest image's words.
#[derive(Drop)]
struct AllSame;

impl Taker for AllSame {
    ghost use Rattle.std.specs.Prelude.{⊤};

    ghost took = { λ old answer new. ⊤ };

    fn take(&mut self) -> Option<Taken> {
        Some(Taken::Same)
    }
}

// Runs a round. Returns how many of its steps answered Working, and the answer of the last one.
fn run<T: Taker, D: Disk>(
    keeper: &mut ImageKeeper,
    tick: u64,
    from: &mut T,
    image_a: &mut D,
    image_b: &mut D,
) -> (u32, ImageAnswer)
    requires idle { keeper.old.phase ≡ Idle }
    requires most { tick ≤ TICK_MAX }
    requires fits { IsTrue D.honest
        → FitsFiles keeper.old (D.content image_a.old) (D.content image_b.old) }
    ensures fits { IsTrue D.honest
        → FitsFiles keeper.new (D.content image_a.new) (D.content image_b.new) }
    ensures idle { IfOpened result.1 (keeper.new.phase ≡ Idle) ⊤ }
{
    keeper.begin(tick);
    for working in 0..MOST_STEPS {
        match keeper.step(from, image_a, image_b) {
            ImageAnswer::Working => {}
            answer => return (working, answer),
        }
    }
    (MOST_STEPS, ImageAnswer::Working)
}

// Runs a round up to its opened image. Returns how many of its steps answered Working.
fn open_image<T: Taker, D: Disk>(
    rt: &impl Abort,
    keeper: &mut ImageKeeper,
    tick: u64,
    from: &mut T,
    image_a: &mut D,
    image_b: &mut D,
) -> u32
    requires idle { keeper.old.phase ≡ Idle }
    requires most { tick ≤ TICK_MAX }
    requires fits { IsTrue D.honest
        → FitsFiles keeper.old (D.content image_a.old) (D.content image_b.old) }
    ensures fits { IsTrue D.honest
        → FitsFiles keeper.new (D.content image_a.new) (D.content image_b.new) }
    ensures idle { keeper.new.phase ≡ Idle }
{
    let (working, answer) = run(keeper, tick, from, image_a, image_b);
    assert_eq!(rt; answer, ImageAnswer::Opened(tick));
    working
}

// A keeper that has no image, and its two empty files.
fn keep_empty(alloc: Global, cells: u32) -> Result<(ImageKeeper, ModelFile, ModelFile), Refusal>
    requires some_cells { 1 ≤ cells }
    requires most_cells { cells ≤ CELLS_MAX }
    ensures idle { IfOk result (λ made. made.0.phase ≡ Idle) }
    ensures fits { IfOk result (λ made. FitsFiles made.0 made.1.content made.2.content) }
{
    let keeper = ImageKeeper::new(alloc, cells, None, [false, false])?;
    let image_a = ModelFile::new(alloc, Vec::new(alloc))?;
    let image_b = ModelFile::new(alloc, Vec::new(alloc))?;
    Ok((keeper, image_a, image_b))
}

// A file that is shut.
fn shut_file(alloc: Global) -> Result<ModelFile, Refusal>
    ensures { IfOk result (λ file. HasShutGate file.content) }
{
    ModelFile::new(alloc, [0].to_vec(alloc)?)
}

// A keeper for one cell that has no image, and its two files, which are shut.
fn keep_shut(alloc: Global) -> Result<(ImageKeeper, ModelFile, ModelFile), Refusal>
    ensures idle { IfOk result (λ made. made.0.phase ≡ Idle) }
    ensures fits { IfOk result (λ made. FitsFiles made.0 made.1.content made.2.content) }
{
    let keeper = ImageKeeper::new(alloc, 1, None, [true, true])?;
    let image_a = shut_file(alloc)?;
    let image_b = shut_file(alloc)?;
    Ok((keeper, image_a, image_b))
}

// A store of these words at a mark.
fn marked(alloc: Global, words: &[u64]) -> Result<PlainCopy, Refusal>
    requires { All IsWord words.now }
{
    let mut store = PlainCopy::build(alloc, words)?;
    store.mark();
    Ok(store)
}

fn is_newest(keeper: &ImageKeeper, slot: Slot, tick: u64) -> bool {
    keeper.newest() == Some((slot, tick))
}

// True if an image of the words 5 and 7 at this tick is durable.
fn has_image(file: &ModelFile, tick: u8) -> bool {
    let image = [
        1, 2, 0, 0, 0, 0, 0, 0, 0x20, tick, 0, 0, 0, 0, 0, 0, 0, 5, 0, 0, 0, 0, 0, 0, 0, 7, 0, 0,
        0, 0, 0, 0, 0,
    ];
    file.durable() == image.as_slice()
}

// Opens an image of the store in image.a, and one of the same words in image.b.
fn check_in_turn(
    rt: &impl Abort,
    keeper: &mut ImageKeeper,
    store: &mut PlainCopy,
    image_a: &mut ModelFile,
    image_b: &mut ModelFile,
)
    requires idle { keeper.old.phase ≡ Idle }
    requires fits { FitsFiles keeper.old image_a.old.content image_b.old.content }
{
    let first = open_image(rt, keeper, 3, store, image_a, image_b);
    assert_eq!(rt; (first, keeper.left()), (8, 0));
    assert!(rt; is_newest(keeper, Slot::A, 3) && has_image(image_a, 3));
    assert!(rt; !keeper.has_open_round());
    let second = open_image(rt, keeper, 4, &mut AllSame, image_a, image_b);
    assert_eq!(rt; second, 9);
    assert!(rt; has_image(image_b, 4));
}

#[test]
fn opens_images_in_turn(rt: HostRuntime) -> Result<(), Fail> {
    let mut store = marked(rt.alloc(), &[5, 7])?;
    let (mut keeper, mut image_a, mut image_b) = keep_empty(rt.alloc(), 2)?;
    check_in_turn(&rt, &mut keeper, &mut store, &mut image_a, &mut image_b);
    Ok(())
}

#[test]
fn leaves_shut_file_shut(rt: HostRuntime) -> Result<(), Fail> {
    let mut store = marked(rt.alloc(), &[9])?;
    let (mut keeper, mut image_a, mut image_b) = keep_shut(rt.alloc())?;
    let working = open_image(&rt, &mut keeper, 0, &mut store, &mut image_a, &mut image_b);
    assert!(rt; working == 5 && keeper.target() == Slot::B);
    Ok(())
}

// A store of so many cells at a mark. The last word is 5, and the others are the greatest.
fn marked_store(alloc: Global, cells: usize) -> Result<PlainCopy, Refusal> {
    let words = vec![in alloc; LIMIT; cells]?;
    let mut store = PlainCopy::build(alloc, &words)?;
    if cells > 0 && cells == store.len() {
        store.write(cells - 1, 5);
    }
    store.mark();
    Ok(store)
}

// True if the words are those of such a store of the most cells.
fn are_right(words: &[u64]) -> bool {
    for cell in 0..words.len() {
        let want = if cell == 1_048_575 { 5 } else { LIMIT };
        if words[cell] != want {
            return false;
        }
    }
    words.len() == 1_048_576
}

// True if a file has the image of that store at this tick.
fn is_right(alloc: Global, file: &ModelFile, at: u64) -> Result<bool, Refusal> {
    match read_image(alloc, file.durable())? {
        ImageState::Open { tick, words } => {
            Ok(file.durable().len() == 8_388_625 && tick == at && are_right(&words))
        }
        ImageState::Closed => Ok(false),
    }
}

// Runs two rounds of such a store. Returns how many steps each has, and if both images are right.
fn largest_rounds(
    rt: &impl Abort,
    alloc: Global,
    store: &mut PlainCopy,
) -> Result<(u32, u32, bool), Refusal> {
    let (mut keeper, mut image_a, mut image_b) = keep_empty(alloc, CELLS)?;
    let first = open_image(rt, &mut keeper, 3, store, &mut image_a, &mut image_b);
    let second = open_image(rt, &mut keeper, 4, &mut AllSame, &mut image_a, &mut image_b);
    let are_right = is_right(alloc, &image_a, 3)? && is_right(alloc, &image_b, 4)?;
    Ok((first, second, are_right))
}

#[test]
fn opens_largest_images(rt: HostRuntime) -> Result<(), Fail> {
    let mut store = marked_store(rt.alloc(), CELLS as usize)?;
    let rounds = largest_rounds(&rt, rt.alloc(), &mut store)?;
    assert_eq!(rt; rounds, (1_064_965, 1_081_349, true));
    Ok(())
}

// Returns how many moves are left before a round and at its beginning, and if the
// round is then open.
fn moves_of(alloc: Global, cells: u32, is_shut: bool) -> Result<(u64, u64, bool), Refusal>
    requires some_cells { 1 ≤ cells }
    requires most_cells { cells ≤ CELLS_MAX }
{
    let mut keeper = ImageKeeper::new(alloc, cells, None, [is_shut, false])?;
    let before = keeper.left();
    keeper.begin(7);
    Ok((before, keeper.left(), keeper.has_open_round()))
}

#[test]
fn counts_moves_of_round(rt: HostRuntime) -> Result<(), Fail> {
    for (cells, is_shut, left) in [
        (2, false, 10),
        (65, false, 75),
        (65, true, 73),
        (64, true, 70),
    ] {
        assert_eq!(rt; moves_of(rt.alloc(), cells, is_shut)?, (0, left, true));
    }
    Ok(())
}

// True if a keeper is down, and no further step makes a call. A call would fail.
fn stays_down(
    keeper: &mut ImageKeeper,
    store: &mut PlainCopy,
    image_a: &mut Fused<ModelFile>,
    image_b: &mut Fused<ModelFile>,
) -> bool
    requires fits { FitsFiles keeper.old image_a.old.inner.content image_b.old.inner.content }
{
    image_a.arm(1);
    let was_down = keeper.is_down();
    let again = keeper.step(store, image_a, image_b);
    was_down && again == ImageAnswer::Down && image_a.len() == Err(Refusal::Device)
}

// Runs a round in which this call of image.a fails. Returns its steps, its last answer, and if the
// keeper stays down then.
fn round_failing_at(alloc: Global, call: u64) -> Result<(u32, ImageAnswer, bool), Refusal>
    requires { 1 ≤ call }
{
    let mut store = marked(alloc, &[5, 7])?;
    let (mut keeper, image_a, image_b) = keep_empty(alloc, 2)?;
    let (mut image_a, mut image_b) = (Fused::new(image_a), Fused::new(image_b));
    image_a.arm(call);
    let (working, answer) = run(&mut keeper, 3, &mut store, &mut image_a, &mut image_b);
    let is_down = stays_down(&mut keeper, &mut store, &mut image_a, &mut image_b);
    Ok((working, answer, is_down))
}

#[test]
fn goes_down_where_a_call_fails(rt: HostRuntime) -> Result<(), Fail> {
    for call in 1..=8 {
        let (working, answer, is_down) = round_failing_at(rt.alloc(), call)?;
        if call == 8 {
            assert!(rt; working == 8 && answer == ImageAnswer::Opened(3));
        } else {
            assert!(rt; answer == ImageAnswer::Down && is_down, "call {call}");
        }
    }
    Ok(())
}
