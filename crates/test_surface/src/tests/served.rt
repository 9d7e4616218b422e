// `serial_world`
use super::same::same;
use capture_core::Capture;
use disk_model::{Disk, FourFiles, ModelFile};
use ping_pong::PingPong;
use serial_world::{Served, fresh_files};
use sessions::{World, serve_lines};
use std::alloc::Global;
use std::process::Abort;
use world_actions::Refusal;
use zigzag::Zigzag;

fn empty_files(alloc: Global) -> Result<FourFiles<ModelFile>, Refusal> {
    Ok(FourFiles {
        image_a: ModelFile::new(alloc, Vec::new(alloc))?,
        image_b: ModelFile::new(alloc, Vec::new(alloc))?,
        log_a: ModelFile::new(alloc, Vec::new(alloc))?,
        log_b: ModelFile::new(alloc, Vec::new(alloc))?,
    })
}

type Returned<T, D> = Result<T, (FourFiles<D>, Refusal)>;

// The files of a new world of two cells.
fn create<D: Disk>(alloc: Global, files: FourFiles<D>) -> Returned<FourFiles<D>, D> {
    fresh_files(alloc, 2, files)
}

fn open<C: Capture, D: Disk>(alloc: Global, files: FourFiles<D>) -> Returned<Served<C, D>, D> {
    Served::<C, D>::open(alloc, files, 64)
}

// Returns the answer, without the files of a refusal.
fn without_files<T: Drop, D: Disk + Drop>(answer: Returned<T, D>) -> Result<T, Refusal> {
    match answer {
        Ok(value) => Ok(value),
        Err((_, refusal)) => Err(refusal),
    }
}

fn new_world<C: Capture>(alloc: Global) -> Result<Served<C, ModelFile>, Refusal> {
    let files = without_files(create(alloc, empty_files(alloc)?))?;
    without_files(open(alloc, files))
}

const INPUT: &[u8] = b"set 0 5\nget 0\nmove 0 1 9\nfoo\nend\nend\n";

const TEXT: &[u8] = b"tick 1: + =5 -3 -16\ntick 2:\n";

// Serves a session on a world.
fn serve<X: World>(alloc: Global, world: &mut X) -> (Result<(), Refusal>, Vec<u8>) {
    let (mut input, mut text) = (INPUT, Vec::new(alloc));
    let ended = serve_lines(alloc, &mut input, &mut text, world);
    (ended, text)
}

fn check_served<C: Capture>(rt: &impl Abort, alloc: Global) {
    let mut world = new_world::<C>(alloc).expect(rt, "a new world");
    let (ended, text) = serve(alloc, &mut world);
    same(rt, ended, Ok(()));
    same(rt, text.as_slice(), TEXT);
    let recovered: (u64, u64) = world.recovered();
    let acked: u64 = world.acked();
    same(rt, (recovered, acked), ((0, 0), 2));
    drop(world);
}

#[test]
fn a_world_is_served_from_its_files(rt: HostRuntime) {
    check_served::<Zigzag>(&rt, rt.alloc());
    check_served::<PingPong>(&rt, rt.alloc());
}

#[test]
fn files_without_an_image_are_given_back(rt: HostRuntime) {
    let files = empty_files(rt.alloc()).expect(&rt, "memory");
    let opened = without_files(open::<Zigzag, ModelFile>(rt.alloc(), files));
    same(&rt, opened.err(), Some(Refusal::NoImage));
}
