use super::same::same;
use super::worlds::{NONE, Session, long_batch, play, reported};
use super::{BATCH, CUT_OFF, SET_TWICE};
use capture_core::Capture;
use disk_model::FourFiles;
use file_disk::FileDisk;
use ping_pong::PingPong;
use serial_world::SerialWorld;
use std::fs::OpenOptions;
use std::path::PathBuf;
use std::process::Abort;
use std::{env, fs, process};
use world_actions::Refusal;
use world_start::fresh_files;
use zigzag::Zigzag;

// A new folder for a test of this name.
fn new_folder(rt: &HostRuntime, abort: &impl Abort, test: &str) -> PathBuf {
    let name = format!(in rt.alloc(); "served-{test}-{}", process::id(rt.process())).expect(
        abort, "a name",
    );
    let folder = env::temp_dir(rt)
        .expect(abort, "a folder for files that are soon removed")
        .join(rt.alloc(), name.as_str())
        .expect(abort, "a path");
    fs::create_dir(rt, folder.as_path()).expect(abort, "a new folder");
    folder
}

fn open_file(rt: &HostRuntime, abort: &impl Abort, folder: &PathBuf, name: &str) -> FileDisk {
    let path = folder.join(rt.alloc(), name).expect(abort, "a path");
    let mut options = OpenOptions::new();
    options.read(true).write(true).create(true);
    let file = options.open(rt, path.as_path()).expect(abort, "a file");
    FileDisk::open(file).expect(abort, "a disk")
}

fn open_files(rt: &HostRuntime, abort: &impl Abort, folder: &PathBuf) -> FourFiles<FileDisk> {
    FourFiles {
        image_a: open_file(rt, abort, folder, "image.a"),
        image_b: open_file(rt, abort, folder, "image.b"),
        log_a: open_file(rt, abort, folder, "log.a"),
        log_b: open_file(rt, abort, folder, "log.b"),
    }
}

// A session over the files of a folder.
#[derive(Clone, Copy)]
struct Opening<'a> {
    // After how many ticks a checkpoint is made.
    every: u32,
    // The greatest size of the input's pieces.
    most: usize,
    session: Session<'a>,
}

fn try_opening<C: Capture>(
    rt: &HostRuntime,
    abort: &impl Abort,
    folder: &PathBuf,
    opening: &Opening<'_>,
) {
    let files = open_files(rt, abort, folder);
    let opened = SerialWorld::<C, FileDisk>::open(rt.alloc(), files, opening.every);
    let mut served = reported(opened).expect(abort, "a world");
    play(
        abort,
        rt.alloc(),
        &mut served,
        &opening.session,
        opening.most,
    );
    drop(served);
}

// Makes a new world in the files of a folder. Returns the refusal, if there is one.
fn make(rt: &HostRuntime, abort: &impl Abort, folder: &PathBuf) -> Option<Refusal> {
    let files = open_files(rt, abort, folder);
    reported(fresh_files(rt.alloc(), 2, files)).err()
}

static SHORT: [Opening<'static>; 4] = [
    Opening {
        every: 64,
        most: usize::MAX,
        session: Session {
            recovered: (0, 0),
            input: BATCH,
            ends: Ok(()),
            text: b"tick 1: + =5 -3 -16\n",
            acked: 1,
        },
    },
    Opening {
        every: 64,
        most: 1,
        session: Session {
            recovered: (1, 0),
            input: BATCH,
            ends: Ok(()),
            text: b"tick 2: + =5 -3 -16\n",
            acked: 2,
        },
    },
    Opening {
        every: 64,
        most: 7,
        session: Session {
            recovered: (2, 1),
            input: CUT_OFF,
            ends: Ok(()),
            text: NONE,
            acked: 2,
        },
    },
    Opening {
        every: 1,
        most: usize::MAX,
        session: Session {
            recovered: (2, 2),
            input: SET_TWICE,
            ends: Ok(()),
            text: b"tick 3: +\ntick 4: +\n",
            acked: 4,
        },
    },
];

fn try_short<C: Capture>(rt: &HostRuntime, abort: &impl Abort, folder: &PathBuf) {
    for opening in &SHORT {
        try_opening::<C>(rt, abort, folder, opening);
    }
}

fn try_long<C: Capture>(rt: &HostRuntime, abort: &impl Abort, folder: &PathBuf) {
    let long = long_batch(abort, rt.alloc());
    let session = Session {
        recovered: (4, 4),
        input: &long,
        ends: Err(Refusal::BadLine),
        text: b"fault 16\n",
        acked: 4,
    };
    let opening = Opening {
        every: 64,
        most: 512,
        session,
    };
    try_opening::<C>(rt, abort, folder, &opening);
}

fn try_store<C: Capture>(rt: &HostRuntime, abort: &impl Abort, test: &str) {
    let folder = new_folder(rt, abort, test);
    same(abort, "a first making", make(rt, abort, &folder), None);
    let again = make(rt, abort, &folder);
    same(abort, "a second making", again, Some(Refusal::NotEmpty));
    try_short::<C>(rt, abort, &folder);
    try_long::<C>(rt, abort, &folder);
    fs::remove_dir_all(rt, folder.as_path()).expect(abort, "a folder to remove");
}

#[test]
fn serves_real_files(rt: HostRuntime) {
    try_store::<Zigzag>(&rt, &rt, "zigzag");
    try_store::<PingPong>(&rt, &rt, "ping-pong");
}
