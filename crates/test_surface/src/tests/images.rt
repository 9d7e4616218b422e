// `image_files`
ghost use Rattle.std.specs.Prelude.{◌≡◌, ◌≤◌, IsTrue, IfOk};
ghost use Rattle.world_ticks.specs.declared.tick.TheConstants.{TICK_MAX};
ghost use Rattle.image_files.specs.declared.phase.Phase.TheVariants.{Idle};
ghost use Rattle.image_files.specs.Files.{FitsFiles};

use super::same::same;
use capture_core::{Capture, Taker};
use disk_model::{Disk, ModelFile};
use image_files::{ImageAnswer, ImageKeeper, ImageState, Slot, is_shut, read_image};
use std::alloc::Global;
use std::process::Abort;
use world_actions::Refusal;
use zigzag::Zigzag;

// An image of the words 5 and 7 at tick 3, in the first format.
const IMAGE: &[u8] = &[
    1, 2, 0, 0, 0, 0, 0, 0, 0, 3, 0, 0, 0, 0, 0, 0, 0, 5, 0, 0, 0, 0, 0, 0, 0, 7, 0, 0, 0, 0, 0, 0,
    0,
];

// The tick of an image and its first word, or `None` if it is closed.
fn read(alloc: Global, bytes: &[u8]) -> Result<Option<(u64, Option<u64>)>, Refusal> {
    let image: ImageState = read_image(alloc, bytes)?;
    match image {
        ImageState::Closed => Ok(None),
        ImageState::Open { tick, words } => Ok(Some((tick, words.first().copied()))),
    }
}

#[test]
fn images_are_read(rt: HostRuntime) {
    let alloc = rt.alloc();
    same(&rt, read(alloc, IMAGE), Ok(Some((3, Some(5)))));
    same(&rt, read(alloc, &IMAGE[..16]), Ok(None));
    same(&rt, read(alloc, &IMAGE[..32]), Err(Refusal::BadImage));
    let shut: (bool, bool, bool) = (is_shut(&[]), is_shut(&[0]), is_shut(&[1]));
    same(&rt, shut, (false, true, false));
}

// A keeper of a world of two cells that has no image, and its two files.
fn keep(alloc: Global) -> Result<(ImageKeeper, ModelFile, ModelFile), Refusal>
    ensures idle { IfOk result (λ made. made.0.phase ≡ Idle) }
    ensures fits { IfOk result (λ made. FitsFiles made.0 made.1.content made.2.content) }
{
    let newest: Option<(Slot, u64)> = None;
    let keeper: ImageKeeper = ImageKeeper::new(alloc, 2, newest, [false, false])?;
    let image_a = ModelFile::new(alloc, Vec::new(alloc))?;
    let image_b = ModelFile::new(alloc, Vec::new(alloc))?;
    Ok((keeper, image_a, image_b))
}

// Runs a round. Returns how many moves it could need at most, how many of its steps answered
// Working, and the answer of the last one.
fn run<T: Taker, D: Disk>(
    keeper: &mut ImageKeeper,
    tick: u64,
    from: &mut T,
    image_a: &mut D,
    image_b: &mut D,
) -> (u64, u64, ImageAnswer)
    requires idle { keeper.old.phase ≡ Idle }
    requires most { tick ≤ TICK_MAX }
    requires fits { IsTrue D.honest
        → FitsFiles keeper.old (D.content image_a.old) (D.content image_b.old) }
    ensures { IsTrue D.honest
        → FitsFiles keeper.new (D.content image_a.new) (D.content image_b.new) }
{
    keeper.begin(tick);
    let left: u64 = keeper.left();
    for working in 0..left {
        let answer: ImageAnswer = keeper.step(from, image_a, image_b);
        if answer != ImageAnswer::Working {
            return (left, working, answer);
        }
    }
    (left, left, ImageAnswer::Working)
}

fn marked(alloc: Global) -> Result<Zigzag, Refusal> {
    let mut store = Zigzag::build(alloc, &[5, 7])?;
    store.mark();
    Ok(store)
}

// Opens an image of tick 3 in image.a.
fn check_round(
    rt: &impl Abort,
    store: &mut Zigzag,
    keeper: &mut ImageKeeper,
    image_a: &mut ModelFile,
    image_b: &mut ModelFile,
)
    requires idle { keeper.old.phase ≡ Idle }
    requires fits { FitsFiles keeper.old image_a.old.content image_b.old.content }
{
    let target: Slot = keeper.target();
    same(
        rt,
        (target, keeper.newest(), keeper.left()),
        (Slot::A, None, 0),
    );
    let run = run(keeper, 3, store, image_a, image_b);
    same(rt, run, (10, 8, ImageAnswer::Opened(3)));
    let newest: Option<(Slot, u64)> = keeper.newest();
    same(rt, (newest, keeper.target()), (Some((Slot::A, 3)), Slot::B));
    same(rt, keeper.step(store, image_a, image_b), ImageAnswer::Idle);
}

#[test]
fn a_round_opens_an_image(rt: HostRuntime) {
    let mut store = marked(rt.alloc()).expect(&rt, "memory");
    let (mut keeper, mut image_a, mut image_b) = keep(rt.alloc()).expect(&rt, "memory");
    check_round(&rt, &mut store, &mut keeper, &mut image_a, &mut image_b);
    same(
        &rt,
        read(rt.alloc(), image_a.durable()),
        Ok(Some((3, Some(5)))),
    );
}
