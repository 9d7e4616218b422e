use crate::image_model::ImageModel;
use crate::log_model::LogModel;
use crate::words::Words;
use crate::wrong::{Rule, Wrong, expect, hold};
use plain_moves::{Asked, PlainAnswer};
use std::alloc::Global;
use world_actions::Refusal;
use world_core::Fate;

mod crashes;
mod plays;

/// A model of a world, only by moves and answers. It has the words after each ended tick. It knows
/// nothing of files, gates, segments, or how a store keeps its words.
#[derive(Drop)]
pub struct PlainModel {
    alloc: Global,
    cells: u32,
    // The words after each ended tick, those of tick 0 first.
    worlds: Vec<Words>,
    live: Words,
    // How many actions the running tick has.
    running: u32,
    // How many ticks ended since the last mark or start.
    since: u32,
    images: ImageModel,
    log: LogModel,
}

impl PlainModel {
    /// A world of zeros at tick 0, before its start.
    pub fn new(alloc: Global, cells: u32) -> Result<Self, Refusal> {
        let mut worlds = Vec::new(alloc);
        worlds.push(Words::zeros(alloc, cells)?)?;
        Ok(PlainModel {
            alloc,
            cells,
            worlds,
            live: Words::zeros(alloc, cells)?,
            running: 0,
            since: 0,
            images: ImageModel::new(cells, None, 0),
            log: LogModel::new(alloc, 0),
        })
    }

    /// Judges the answer to a move, and follows it. `starting` is true if the core says that its
    /// start isn't over then.
    pub fn follow(
        &mut self,
        asked: Asked,
        given: PlainAnswer,
        starting: bool,
    ) -> Result<(), Wrong> {
        match asked {
            Asked::Act(action) => self.follow_act(action, given)?,
            Asked::Get(cell) => self.follow_get(cell, given)?,
            Asked::End => self.follow_end(given)?,
            Asked::Mark => self.follow_mark(given)?,
            Asked::Image(fate) => self.follow_image(fate, given)?,
            Asked::Log(fate) => {
                let waits = self.is_image_ahead();
                self.log.step(fate, waits, given, starting)?;
            },
            Asked::Cover(tick) => self.follow_cover(tick, given)?,
            Asked::Crash => self.follow_crash(given)?,
            Asked::ImpossibleCrash => expect(PlainAnswer::Refused(Refusal::Impossible), given)?,
        }
        hold(starting == self.is_starting(), Rule::StartsAlike)
    }

    // Follows a step of the images. An open image acknowledges its tick.
    fn follow_image(&mut self, fate: Fate, given: PlainAnswer) -> Result<(), Wrong> {
        self.images.step(fate, given)?;
        if let PlainAnswer::ImageOpened(tick) = given {
            self.log.acknowledge(tick);
        }
        Ok(())
    }

    /// The tick of the newest image, 0 before the first.
    pub fn newest(&self) -> u64 {
        self.images.newest().unwrap_or(0)
    }

    /// The tick of the first switch that waits for the log.
    pub fn next_switch(&self) -> Option<u64> {
        self.log.next_switch()
    }

    /// True if the start has not ended.
    pub fn is_starting(&self) -> bool {
        self.log.is_starting()
    }

    /// True if the start's image is not open yet.
    pub fn is_image_ahead(&self) -> bool {
        self.is_starting() && self.images.round().is_some()
    }

    /// True if a keeper is down.
    pub fn is_down(&self) -> bool {
        self.images.is_down() || self.log.is_down()
    }

    // How many ticks have ended.
    fn ended(&self) -> u64 {
        self.worlds.len().saturating_sub(1) as u64
    }
}
