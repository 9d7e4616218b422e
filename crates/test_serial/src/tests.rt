use capture_core::{Capture, PlainCopy};
use disk_model::{FourFiles, ModelFile};
use engine::Parts;
use ping_pong::PingPong;
use refused::{
    try_closed_files, try_created_again, try_damaged_files, try_made_files, try_open_files,
};
use same::same;
use std::alloc::Global;
use std::process::Abort;
use streams::{FIRST_ANSWER, INPUT, TEXT, WHOLE, try_broken};
use typed::{try_last, try_lost, try_typed};
use world_actions::Refusal;
use worlds::{
    Case, IMAGE, NONE, Session, created, files_of, fresh, long_batch, open, play, reported, stands,
    try_case, try_new,
};
use zigzag::Zigzag;

mod crashes;
mod disks;
mod real_files;
mod refused;
mod same;
mod streams;
mod typed;
mod worlds;

const BATCH: &[u8] = b"set 0 5\nget 0\nmove 0 1 9\nfoo\nend\n";

// The same batch without its end.
const CUT_OFF: &[u8] = b"set 0 5\nget 0\nmove 0 1 9\nfoo\n";

const SET: &[u8] = b"set 0 5\nend\n";

const SET_TWICE: &[u8] = b"set 0 5\nend\nset 0 6\nend\n";

// An image of one cell, 0, at the last tick, 10^18.
const LAST_IMAGE: &[u8] = &[
    1, 1, 0, 0, 0, 0, 0, 0, 0, 0, 0, 0x64, 0xa7, 0xb3, 0xb6, 0xe0, 0x0d, 0, 0, 0, 0, 0, 0, 0, 0,
];

// A session that ends well on a new world.
fn on_new<'a>(
    every: u32,
    input: &'a [u8],
    text: &'a [u8],
    found: (u64, u64),
    words: &'a [u64],
) -> Case<'a> {
    let session = Session {
        recovered: (0, 0),
        input,
        ends: Ok(()),
        text,
        acked: found.0,
    };
    Case {
        every,
        session,
        found,
        words,
    }
}

// Plays the session on a new world of two cells, in one piece and byte by byte.
fn try_pieces<C: Capture>(rt: &impl Abort, alloc: Global, case: &Case<'_>) {
    for most in [usize::MAX, 1] {
        try_new::<C>(rt, alloc, 2, case, most);
    }
}

fn try_sessions<C: Capture>(rt: &impl Abort, alloc: Global, cases: &[Case<'_>]) {
    for case in cases {
        try_pieces::<C>(rt, alloc, case);
    }
}

// More lines than a batch has.
fn too_long<'a>(long: &'a [u8]) -> Case<'a> {
    let session = Session {
        recovered: (0, 0),
        input: long,
        ends: Err(Refusal::BadLine),
        text: b"fault 16\n",
        acked: 0,
    };
    Case {
        every: 64,
        session,
        found: (0, 0),
        words: &[0, 0],
    }
}

#[test]
fn answers_sessions(rt: HostRuntime) {
    let long = long_batch(&rt, rt.alloc());
    let cases = [
        on_new(64, BATCH, b"tick 1: + =5 -3 -16\n", (1, 0), &[5, 0]),
        on_new(64, CUT_OFF, NONE, (0, 0), &[0, 0]),
        on_new(64, b"end\n", b"tick 1:\n", (1, 0), &[0, 0]),
        too_long(&long),
    ];
    try_sessions::<PlainCopy>(&rt, rt.alloc(), &cases);
    try_sessions::<Zigzag>(&rt, rt.alloc(), &cases);
    try_sessions::<PingPong>(&rt, rt.alloc(), &cases);
}

// Tries checkpoints on new worlds of one cell.
fn try_checkpoints<C: Capture>(rt: &impl Abort, alloc: Global) {
    let text = b"tick 1: +\ntick 2: +\n";
    for (every, from) in [(1, 2), (2, 2), (3, 0), (64, 0)] {
        let case = on_new(every, SET_TWICE, text, (2, from), &[6]);
        try_new::<C>(rt, alloc, 1, &case, usize::MAX);
    }
    let case = on_new(64, SET, b"tick 1: +\n", (1, 0), &[5]);
    try_new::<C>(rt, alloc, 1, &case, usize::MAX);
}

#[test]
fn makes_checkpoints(rt: HostRuntime) {
    try_checkpoints::<PlainCopy>(&rt, rt.alloc());
    try_checkpoints::<Zigzag>(&rt, rt.alloc());
    try_checkpoints::<PingPong>(&rt, rt.alloc());
}

const LAST_TICK: u64 = 1_000_000_000_000_000_000;

static LAST: Case<'static> = Case {
    every: 64,
    session: Session {
        recovered: (LAST_TICK, LAST_TICK),
        input: b"end\nset 0 1\nend\n",
        ends: Ok(()),
        text: b"fault 21\nfault 21\n",
        acked: LAST_TICK,
    },
    found: (LAST_TICK, LAST_TICK),
    words: &[0],
};

#[test]
fn ends_no_tick_after_the_last_one(rt: HostRuntime) {
    let files = files_of(&rt, rt.alloc(), [LAST_IMAGE, NONE, NONE, NONE]);
    let files = try_case::<Zigzag>(&rt, rt.alloc(), files, &LAST, usize::MAX);
    drop(files);
}

// A segment of tick 1, which sets cell 0 to 5, and one of tick 2, which adds 2, in format 1.
const TICK_1: &[u8] = &[
    1, 0, 0, 0, 0, 0, 0, 0, 0, 1, 1, 0, 1, 0, 1, 0, 0, 0, 0, 5, 0, 0, 0, 0, 0, 0, 0, 0,
];

const TICK_2: &[u8] = &[
    1, 1, 0, 0, 0, 0, 0, 0, 0, 1, 1, 0, 1, 0, 2, 0, 0, 0, 0, 2, 0, 0, 0, 0, 0, 0, 0, 0,
];

// The image that the start makes of these segments and of `IMAGE`.
const NEW_IMAGE: &[u8] = &[
    1, 1, 0, 0, 0, 0, 0, 0, 0x20, 2, 0, 0, 0, 0, 0, 0, 0, 7, 0, 0, 0, 0, 0, 0, 0,
];

const NEW_LOG: &[u8] = &[1, 2, 0, 0, 0, 0, 0, 0, 0x20, 0];

// After the start no open file has format 1, except image.a, which stays as it is.
fn are_upgraded(rt: &impl Abort, files: &FourFiles<ModelFile>) {
    same(rt, "image.a", files.image_a.durable(), IMAGE);
    same(rt, "image.b", files.image_b.durable(), NEW_IMAGE);
    let is_begun = files.log_a.durable().starts_with(NEW_LOG);
    let is_shut = files.log_b.durable().starts_with(&[0]);
    same(rt, "log.a and log.b", (is_begun, is_shut), (true, true));
}

// The files of a world that was opened in files of format 1.
fn upgraded<C: Capture>(rt: &impl Abort, alloc: Global) -> FourFiles<ModelFile> {
    let files = files_of(rt, alloc, [IMAGE, NONE, TICK_1, TICK_2]);
    let served = open::<C>(rt, alloc, files, 64);
    same(rt, "what is recovered", served.recovered(), (2, 0));
    served.into_files()
}

static UPGRADED: Case<'static> = Case {
    every: 64,
    session: Session {
        recovered: (2, 2),
        input: b"cap 0 4\nget 0\nend\n",
        ends: Ok(()),
        text: b"tick 3: + =4\n",
        acked: 3,
    },
    found: (3, 2),
    words: &[4],
};

fn try_upgrade<C: Capture>(rt: &impl Abort, alloc: Global) {
    let files = upgraded::<C>(rt, alloc);
    are_upgraded(rt, &files);
    let files = try_case::<C>(rt, alloc, files, &UPGRADED, usize::MAX);
    drop(files);
}

#[test]
fn goes_on_from_the_first_format(rt: HostRuntime) {
    try_upgrade::<PlainCopy>(&rt, rt.alloc());
    try_upgrade::<Zigzag>(&rt, rt.alloc());
    try_upgrade::<PingPong>(&rt, rt.alloc());
}

static OPENED: Case<'static> = Case {
    every: 64,
    session: Session {
        recovered: (0, 0),
        input: SET_TWICE,
        ends: Ok(()),
        text: b"tick 1: +\ntick 2: +\n",
        acked: 2,
    },
    found: (2, 0),
    words: &[6],
};

static OPENED_AGAIN: Case<'static> = Case {
    every: 64,
    session: Session {
        recovered: (2, 0),
        input: b"get 0\nset 0 7\nend\n",
        ends: Ok(()),
        text: b"tick 3: =6 +\n",
        acked: 3,
    },
    found: (3, 2),
    words: &[7],
};

static OPENED_LAST: Case<'static> = Case {
    every: 64,
    session: Session {
        recovered: (3, 2),
        input: b"get 0\nend\n",
        ends: Ok(()),
        text: b"tick 4: =7\n",
        acked: 4,
    },
    found: (4, 3),
    words: &[7],
};

#[test]
fn opens_again(rt: HostRuntime) {
    let files = fresh(&rt, rt.alloc(), 1);
    let files = try_case::<PlainCopy>(&rt, rt.alloc(), files, &OPENED, usize::MAX);
    let files = try_case::<Zigzag>(&rt, rt.alloc(), files, &OPENED_AGAIN, usize::MAX);
    let files = try_case::<PingPong>(&rt, rt.alloc(), files, &OPENED_LAST, usize::MAX);
    drop(files);
}

static CREATED: Session<'static> = Session {
    recovered: (0, 0),
    input: SET_TWICE,
    ends: Ok(()),
    text: b"tick 1: +\ntick 2: +\n",
    acked: 2,
};

fn try_created<C: Capture>(rt: &impl Abort, alloc: Global) {
    let mut served = created::<C>(rt, alloc, 2, 2);
    play(rt, alloc, &mut served, &CREATED, usize::MAX);
    let files = served.into_files();
    stands(rt, alloc, &files, (2, 2), &[6, 0]);
    drop(files);
}

#[test]
fn creates_and_opens(rt: HostRuntime) {
    try_created::<PlainCopy>(&rt, rt.alloc());
    try_created::<Zigzag>(&rt, rt.alloc());
    try_created::<PingPong>(&rt, rt.alloc());
}

#[test]
fn a_reader_that_fails_leaves_whole_batches(rt: HostRuntime) {
    for length in 0..INPUT.len() + 1 {
        let (text, batches) = if length < WHOLE[0] {
            (NONE, 0)
        } else if length < WHOLE[1] {
            (&TEXT[..FIRST_ANSWER], 1)
        } else {
            (TEXT, 2)
        };
        try_broken(&rt, rt.alloc(), &INPUT[..length], usize::MAX, text, batches);
    }
}

#[test]
fn a_writer_that_fails_leaves_whole_batches(rt: HostRuntime) {
    for room in 0..TEXT.len() {
        let batches = if room < FIRST_ANSWER { 1 } else { 2 };
        try_broken(&rt, rt.alloc(), INPUT, room, &TEXT[..room], batches);
    }
}

static LARGEST: Session<'static> = Session {
    recovered: (0, 0),
    input: b"set 1048575 5\nend\nget 1048575\nend\n",
    ends: Ok(()),
    text: b"tick 1: +\ntick 2: =5\n",
    acked: 2,
};

#[test]
fn opens_a_world_of_the_most_cells(rt: HostRuntime) {
    let files = fresh(&rt, rt.alloc(), 1_048_576);
    let mut served = open::<Zigzag>(&rt, rt.alloc(), files, 2);
    play(&rt, rt.alloc(), &mut served, &LARGEST, usize::MAX);
    drop(served);
}

static MARKED: Session<'static> = Session {
    recovered: (0, 0),
    input: b"set 0 5\nend\nset 1 6\nend\nset 0 7\nend\n",
    ends: Ok(()),
    text: b"tick 1: +\ntick 2: +\ntick 3: +\n",
    acked: 3,
};

// The parts of a world of two cells after its third tick. Its store was marked after
// the second one.
fn marked_parts<C: Capture>(rt: &impl Abort, alloc: Global) -> Parts<ModelFile> {
    let mut served = open::<C>(rt, alloc, fresh(rt, alloc, 2), 2);
    play(rt, alloc, &mut served, &MARKED, usize::MAX);
    reported(served.into_parts()).expect(rt, "the parts of a world")
}

fn try_parts<C: Capture>(rt: &impl Abort, alloc: Global) {
    let parts = marked_parts::<C>(rt, alloc);
    same(rt, "the words", parts.words.as_slice(), &[7, 6]);
    same(rt, "the ticks", (parts.ended, parts.since), (3, 1));
    stands(rt, alloc, &parts.files, (3, 2), &[7, 6]);
    drop(parts);
}

#[test]
fn takes_worlds_apart(rt: HostRuntime) {
    try_parts::<PlainCopy>(&rt, rt.alloc());
    try_parts::<Zigzag>(&rt, rt.alloc());
    try_parts::<PingPong>(&rt, rt.alloc());
}

#[test]
fn makes_new_worlds_of_closed_files_alone(rt: HostRuntime) {
    try_made_files(&rt, rt.alloc());
    try_open_files(&rt, rt.alloc());
    try_closed_files(&rt, rt.alloc());
}

#[test]
fn creates_no_world_over_another(rt: HostRuntime) {
    try_created_again(&rt, rt.alloc());
}

#[test]
fn answers_by_values(rt: HostRuntime) {
    try_typed::<PlainCopy>(&rt, rt.alloc());
    try_typed::<Zigzag>(&rt, rt.alloc());
    try_typed::<PingPong>(&rt, rt.alloc());
}

#[test]
fn refused_batches_give_no_answers(rt: HostRuntime) {
    try_last(&rt, rt.alloc(), [LAST_IMAGE, NONE, NONE, NONE]);
    try_lost(&rt, rt.alloc());
}

#[test]
fn opens_no_damaged_worlds(rt: HostRuntime) {
    try_damaged_files(&rt, rt.alloc());
}
