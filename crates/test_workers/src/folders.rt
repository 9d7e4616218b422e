//! The commands on folders in memory: what they print, and what they leave undone.
use crate::same::same;
use crate::{ModelFolder, Note};
use disk_model::FourFiles;
use std::alloc::Global;
use std::process::Abort;
use world_folder::{Checks, Ending, FirstWords, Folder, Guard, Listed, OnLoss, create, stands_in};
use world_reports::{back_up, recover, salvage_world, status};

fn no_bytes(alloc: Global) -> FourFiles<Vec<u8>> {
    FourFiles {
        image_a: Vec::new(alloc),
        image_b: Vec::new(alloc),
        log_a: Vec::new(alloc),
        log_b: Vec::new(alloc),
    }
}

/// The same answer for each file.
pub fn each(there: bool) -> FourFiles<bool> {
    FourFiles {
        image_a: there,
        image_b: there,
        log_a: there,
        log_b: there,
    }
}

/// The bytes of the files of a new world of two cells.
pub fn world_bytes(rt: &impl Abort, alloc: Global) -> FourFiles<Vec<u8>> {
    let listed = Listed::read(alloc, b"5\n7\n", None).expect(rt, "two words");
    let mut folder = ModelFolder::new(alloc, "D", no_bytes(alloc), each(false));
    let (mut files, made) = match create(&mut folder, FirstWords::Listed(listed.words())) {
        Ok(made) => made,
        Err(_) => panic!(rt; "no world"),
    };
    same(rt, "cells", made.cells(), 2);
    is_last(rt, &folder, "created 2");
    files.read_all(alloc).expect(rt, "its bytes")
}

// The line was printed last, on standard output.
fn is_last(rt: &impl Abort, folder: &ModelFolder<'_>, line: &str) {
    match folder.notes().first() {
        Some(Note::Printed(printed)) => same(rt, "the last line", printed.as_str(), line),
        _ => panic!(rt; "no line was printed last"),
    }
}

// The line was printed on standard error, right before the last line.
fn is_warned(rt: &impl Abort, folder: &ModelFolder<'_>, line: &str) {
    match folder.notes().get(1) {
        Some(Note::Warned(warned)) => same(rt, "the note", warned.as_str(), line),
        _ => panic!(rt; "no note"),
    }
}

// How many files were made.
fn count_made(folder: &ModelFolder<'_>) -> usize {
    let mut made = 0usize;
    for note in folder.notes() {
        if let Note::Made(_, _) = note {
            made = made.saturating_add(1);
        }
    }
    made
}

#[test]
fn a_new_world_of_zeros_has_four_files(rt: HostRuntime) {
    let alloc = rt.alloc();
    let mut folder = ModelFolder::new(alloc, "D", no_bytes(alloc), each(false));
    let made = create(&mut folder, FirstWords::Zeros(3));
    assert!(rt; made.is_ok());
    drop(made);
    is_last(&rt, &folder, "created 3");
    same(&rt, "files that were made", count_made(&folder), 4);
}

#[test]
fn no_file_is_made_beside_an_image(rt: HostRuntime) {
    let alloc = rt.alloc();
    let mut there = each(false);
    there.image_a = true;
    let mut folder = ModelFolder::new(alloc, "D", world_bytes(&rt, alloc), there);
    let made = create(&mut folder, FirstWords::Zeros(3));
    assert!(rt; made.is_err());
    drop(made);
    same(&rt, "files that were made", count_made(&folder), 0);
}

// The bytes of files of which log.b begins after a tick that is lost, in a folder where all are.
fn with_a_gap(rt: &impl Abort, alloc: Global) -> ModelFolder<'static> {
    let mut files = world_bytes(rt, alloc);
    let gap = &[1, 3, 0, 0, 0, 0, 0, 0, 32, 0];
    files.log_b = Vec::from_slice(alloc, gap).expect(rt, "a log");
    ModelFolder::new(alloc, "D", files, each(true))
}

#[test]
fn a_world_is_recovered_and_its_status_printed(rt: HostRuntime) {
    let alloc = rt.alloc();
    let mut folder = ModelFolder::new(alloc, "D", world_bytes(&rt, alloc), each(true));
    assert!(rt; recover(&mut folder, OnLoss::Warn).is_ok());
    is_last(&rt, &folder, "recovered 0 from 0");
    assert!(rt; status(&mut folder, OnLoss::Warn, false).is_ok());
    is_last(&rt, &folder, "server: none");
}

#[test]
fn a_loss_is_named_and_refused_if_asked(rt: HostRuntime) {
    let alloc = rt.alloc();
    let mut folder = with_a_gap(&rt, alloc);
    assert!(rt; recover(&mut folder, OnLoss::Warn).is_ok());
    is_last(&rt, &folder, "recovered 0 from 0");
    is_warned(
        &rt,
        &folder,
        "worldd: log.b begins after ticks that were lost",
    );
    let refused = recover(&mut with_a_gap(&rt, alloc), OnLoss::Refuse);
    assert!(rt; refused.is_err());
}

#[test]
fn an_older_world_is_named_and_refused_if_asked(rt: HostRuntime) {
    let alloc = rt.alloc();
    let guard = Guard {
        world: 1,
        starts: 2,
        acked: 5,
        image: 4,
        seconds: 6,
    };
    let mut folder = ModelFolder::new(alloc, "D", world_bytes(&rt, alloc), each(true));
    assert!(rt; folder.put_guard(&guard).is_ok());
    let named = recover(&mut folder, OnLoss::Warn);
    assert!(rt; matches!(named, Ok(Ending::MayBeOlder)));
    is_last(&rt, &folder, "recovered 0 from 0");
    is_warned(
        &rt,
        &folder,
        "worldd: tick 0 was recovered, and the guard has tick 5 at @6: restore newer files, or serve them by --accept-loss",
    );
    let refusing = Checks {
        guard: Some(guard),
        older: OnLoss::Refuse,
        ..Checks::of(OnLoss::Warn)
    };
    assert!(rt; stands_in(alloc, &world_bytes(&rt, alloc), refusing).is_err());
}

#[test]
fn a_world_is_copied_and_salvaged(rt: HostRuntime) {
    let alloc = rt.alloc();
    let mut from = ModelFolder::new(alloc, "D", world_bytes(&rt, alloc), each(true));
    let mut copy = ModelFolder::new(alloc, "E", world_bytes(&rt, alloc), each(false));
    assert!(rt; back_up(&mut from, &mut copy, OnLoss::Warn).is_ok());
    is_last(&rt, &copy, "backed up 0 from 0");
    let mut salvaged = ModelFolder::new(alloc, "F", world_bytes(&rt, alloc), each(false));
    assert!(rt; salvage_world(&mut from, &mut salvaged).is_ok());
    is_last(&rt, &salvaged, "dropped: log.a, log.b");
}
