use crate::opening::open_world;
use crate::player::{Answered, play};
use crate::quiet::start_quiet;
use crate::recorded::{Clock, Recorded};
use disk_model::FourFiles;
use shared_capture::Method;
use std::alloc::Global;
use std::sync::Wait;
use std::thread::{self, JoinHandle, Threads};
use worker_threads::{StoppedWorkers, Workers, meet_stopped, stop};
use workers::{AskChannel, Open};
use world_actions::Refusal;

/// How many players there are, each with its own cell.
pub const PLAYERS: u32 = 4;

/// How many batches each player plays.
pub const BATCHES: u32 = 200;

/// After how many ticks an image is due.
const EVERY: u32 = 8;

type Answers = Result<Vec<Answered>, Refusal>;

/// The results of a run: the workers, and the answers of each player.
#[derive(Drop)]
pub struct Served<M: Method> {
    pub stopped: StoppedWorkers<M, Recorded, Open, Open, Open>,
    pub answers: Vec<Vec<Answered>>,
}

/// Opens the world in these files for workers, and lets the players play it.
pub fn serve<R: Threads + Wait + Copy + Send + 'static, M: Method + Send + 'static>(
    rt: &R,
    alloc: Global,
    files: FourFiles<Recorded>,
    clock: &Clock,
) -> Result<Served<M>, Refusal> {
    match open_world::<M, Recorded>(alloc, files) {
        Ok(opened) => {
            let (workers, asks) = start_quiet(rt, alloc, opened, EVERY)?;
            let_play(rt, alloc, workers, asks, clock)
        }
        Err((_, refusal)) => Err(refusal),
    }
}

// Lets the players play, and waits until all are over.
fn let_play<R: Threads + Wait + Copy + Send + 'static, M: Method>(
    rt: &R,
    alloc: Global,
    workers: Workers<M, Recorded, Open, Open, Open>,
    asks: AskChannel,
    clock: &Clock,
) -> Result<Served<M>, Refusal> {
    let players = start_players(rt, alloc, asks, clock);
    let answers = join_players(rt, alloc, players);
    let mut stopped = stop(rt, workers);
    meet_stopped(&mut stopped);
    Ok(Served {
        stopped,
        answers: answers?,
    })
}

// Starts a thread for each player. Only these threads can send batches.
fn start_players<R: Threads + Wait + Copy + Send + 'static>(
    rt: &R,
    alloc: Global,
    asks: AskChannel,
    clock: &Clock,
) -> Result<Vec<JoinHandle<Answers>>, Refusal> {
    let mut asks = asks;
    let mut players = Vec::new(alloc);
    for cell in 0..PLAYERS {
        let asker = asks.session().ok_or(Refusal::NoMemory)?;
        let clock = clock.clone()?;
        let here = *rt;
        let play_all = move || play(&here, alloc, asker, &clock, cell, BATCHES);
        let player = thread::spawn(rt, play_all).map_err(|_: _| Refusal::NoMemory)?;
        players.push(player)?;
    }
    Ok(players)
}

fn join_players<R: Threads>(
    rt: &R,
    alloc: Global,
    players: Result<Vec<JoinHandle<Answers>>, Refusal>,
) -> Result<Vec<Vec<Answered>>, Refusal> {
    let mut answers = Vec::new(alloc);
    for player in players? {
        answers.push(player.join(rt)?)?;
    }
    Ok(answers)
}
