//! The worker that writes the images.
mod publisher;
mod round;

ghost use Rattle.std.specs.Prelude.{◌≡◌, ◌≢◌, ◌⊎◌, ◌↔◌, ◌<◌, ◌≤◌, true, false, [], IsTrue};
ghost use Rattle.std.specs.Prelude.{MatchOption};
ghost use Rattle.world_ticks.specs.declared.tick.TheConstants.{TICK_MAX};
ghost use Rattle.disk_model.specs.Disk.{OneCalledAtMostOnce};
ghost use Rattle.image_files.specs.declared.phase.Phase.TheVariants.{Down, Idle, Taking};
ghost use Rattle.image_files.specs.Progress.{left_of, newest_tick};
ghost use Rattle.workers.specs.declared.gate.Place.{Place as Asked};
ghost use Rattle.workers.specs.declared.gate.Place.TheVariants.{Device};
ghost use Rattle.workers.specs.Gates.{MayGo, MayStick};
ghost use Rattle.workers.specs.Imaging.{place_of, HasRound, FindsNone, FindsRound, GoesOn};
ghost use Rattle.workers.specs.Imaging.{IsAtRest, IsDone, KeepsBack, ReportsFaults, Turned};
ghost use Rattle.workers.specs.Imaging.{WriterFits};
ghost use Rattle.workers.specs.Publishing.{IsNoneDue};

use crate::checkpointer::publisher::Publisher;
use crate::checkpointer::round::step;
use crate::gate::{Gate, Place, passes};
use crossbeam_channel::Receiver;
use disk_model::Disk;
use image_files::{ImageKeeper, images_stay};
pub use round::ImageWriter;
use shared_capture::{Back, Method, SignalOut};
use std::marker::Model;
use std::snapshot::Snapshot;
use std::sync::Wait;
use world_ticks::TICK_MAX;

/// Writes the image of each round that the front opens, while play continues.
#[derive(Drop)]
pub struct Checkpointer<M: Method, D: Disk + Drop, G: Gate + Drop> {
    gate: G,
    pub(crate) back: Back<M>,
    /// Gets the tick of each image that is open.
    pub(crate) covers: Publisher,
    images: ImageWriter<D>,
    opening: Snapshot<ImageWriter<D>>,
    bell: Receiver<()>,
    pub(crate) over: bool,
}

impl<M: Method, D: Disk + Drop, G: Gate + Drop> Model for Checkpointer<M, D, G> {
    ghost use Rattle.workers.specs.Imaging.{Imaging, IsCheckpointer};

    ghost Value = { Imaging D };

    ghost view = { λ c. record {
      back = c.back;
      covers = c.covers;
      images = c.images;
      opening = c.opening.value;
      over = c.over;
    } };

    ghost invariant = { λ c. IsCheckpointer D.Disk
        (record {
          back = c.back;
          covers = c.covers;
          images = c.images;
          opening = c.opening.value;
          over = c.over;
        }) };
}

impl<M: Method, D: Disk + Drop, G: Gate + Drop> Checkpointer<M, D, G> {
    /// Begins after a start, with no round in work. The bell is rung after each mark.
    pub fn new(
        gate: G,
        back: Back<M>,
        covers: SignalOut,
        images: ImageWriter<D>,
        bell: Receiver<()>,
    ) -> Self
        requires cells { images.keeper.cells ≡ back.cells }
        requires rest { IsAtRest images.keeper back }
        requires done { back.done ≡ [] }
        requires none { covers.numbers ≡ [] }
        requires fits { IsTrue D.honest → WriterFits D.Disk images }
        ensures { result ≡ record {
          back = back;
          covers = covers;
          images = images;
          opening = images;
          over = false;
        } }
    {
        let opening = Snapshot::of(&images);
        Checkpointer {
            gate,
            back,
            covers: Publisher::new(covers),
            images,
            opening,
            bell,
            over: false,
        }
    }

    /// True if it does no more. The bell's other end is gone, a call of a device failed, or the
    /// gate holds it for good. Or no image is made of the open round.
    pub fn is_over(&self) -> bool
        ensures { result ≡ self.now.over }
    {
        self.over
    }

    /// True if a call of a device failed, so that no image is written any more.
    pub fn is_down(&self) -> bool
        ensures { IsTrue result ↔ (self.now.images.keeper.phase ≡ Down) }
    {
        self.images.keeper.is_down()
    }

    /// The keeper of the images and their files.
    pub fn images(&self) -> &ImageWriter<D>
        ensures { result.now ≡ self.now.images }
    {
        &self.images
    }

    /// The same, of a checkpointer that doesn't go on.
    pub fn into_images(self) -> ImageWriter<D>
        ensures { result ≡ self.images }
    {
        self.images
    }

    /// Writes the image of the open round, publishes its tick and returns it. If no round is
    /// open it waits for the bell. A round whose image can't be written stays open, so that
    /// no other is begun.
    pub fn turn<R: Wait>(&mut self, rt: &R) -> Option<u64>
        requires goes_on { self.old.over ≡ false }
        requires rest { IsAtRest self.old.images.keeper self.old.back }
        ensures rest { self.new.over ≡ false → IsAtRest self.new.images.keeper self.new.back }
        ensures same { (self.new.back.pair ≡ self.old.back.pair)
            × (self.new.back.cells ≡ self.old.back.cells)
            × (self.new.covers.pair ≡ self.old.covers.pair)
            × (self.new.opening ≡ self.old.opening) }
        ensures turned { Turned ((place : Asked) × MayStick G.answers place) self.old self.new }
        ensures asks { ((self.new.images.image_a ≡ self.old.images.image_a)
            × (self.new.images.image_b ≡ self.old.images.image_b))
            ⊎ MayGo G.answers Device }
        ensures opened { MatchOption result (self.new.back.done ≡ self.old.back.done)
            (λ tick. IsDone self.old.back tick self.new.back) }
        ensures faults { ReportsFaults D.faults self.old.images self.new.images }
    {
        let Some(tick) = self.begin() else {
            self.over = self.bell.recv(rt).is_err();
            return None;
        };
        if self.over {
            return None;
        }
        self.run_round(rt);
        if self.over { None } else { Some(tick) }
    }

    /// Looks for an open round, begins its image, and returns its tick. The checkpointer is over if
    /// no image is made of that tick.
    pub fn begin(&mut self) -> Option<u64>
        requires goes_on { self.old.over ≡ false }
        requires idle { self.old.images.keeper.phase ≡ Idle }
        ensures keeps { KeepsBack self.old self.new }
        ensures found { MatchOption result (FindsNone self.old self.new)
            (λ tick. FindsRound self.old tick self.new) }
    {
        images_stay::<D>();
        let Some(tick) = self.back.look() else {
            return None;
        };
        if is_due(&self.images.keeper, tick) {
            self.images.keeper.begin(tick);
        } else {
            self.over = true;
        }
        Some(tick)
    }

    /// Makes a step of the round in work, if the gate lets it. The checkpointer is over if a call
    /// of a device failed or the gate is stuck.
    pub fn step<R: Wait>(&mut self, rt: &R)
        requires goes_on { self.old.over ≡ false }
        requires left { 0 < left_of self.old.images.keeper }
        ensures keeps { KeepsBack self.old self.new }
        ensures goes { GoesOn (MayGo G.answers (place_of self.old.images.keeper.phase))
            (MayStick G.answers (place_of self.old.images.keeper.phase))
            D.faults self.old self.new }
        ensures calls { OneCalledAtMostOnce D.called self.old.images.image_a self.new.images.image_a
            self.old.images.image_b self.new.images.image_b }
        ensures takes { self.old.images.keeper.phase ≡ Taking
            → (self.new.images.image_a ≡ self.old.images.image_a)
            × (self.new.images.image_b ≡ self.old.images.image_b) }
        ensures less { self.new.over ≡ false
            → left_of self.new.images.keeper < left_of self.old.images.keeper }
    {
        if !passes(rt, &mut self.gate, next_place(&self.images.keeper)) {
            self.over = true;
            return;
        }
        let Some(number) = self.back.look() else {
            self.over = true;
            return;
        };
        step(&mut self.back, &mut self.covers, &mut self.images, number);
        self.over = self.images.keeper.is_down();
    }

    // Steps the round in work to its end, or until the checkpointer is over.
    fn run_round<R: Wait>(&mut self, rt: &R)
        requires goes_on { self.old.over ≡ false }
        requires round { HasRound self.old.images.keeper × (self.old.images.keeper.phase ≢ Down)
            × (self.old.back.working ≡ true) }
        ensures keeps { KeepsBack self.old self.new }
        ensures goes { GoesOn ((place : Asked) × MayGo G.answers place)
            ((place : Asked) × MayStick G.answers place)
            D.faults self.old self.new }
        ensures files { ((self.new.images.image_a ≡ self.old.images.image_a)
            × (self.new.images.image_b ≡ self.old.images.image_b))
            ⊎ MayGo G.answers Device }
        ensures ends { self.new.over ≡ false → self.new.images.keeper.phase ≡ Idle }
    {
        while !self.over && self.images.keeper.left() > 0 {
            self.step(rt);
        }
    }
}

// The place of the next step of a round.
fn next_place(images: &ImageKeeper) -> Place
    ensures { result ≡ place_of images.now.phase }
{
    if images.takes_next() {
        Place::Take
    } else {
        Place::Device
    }
}

// True if an image is to be made of a round of this tick: there is such a tick, and the newest
// image is older. This holds for each round that the front opens, but a load of only the phase
// doesn't show it.
fn is_due(images: &ImageKeeper, tick: u64) -> bool
    ensures due { result ≡ true → (tick ≤ TICK_MAX) × (newest_tick images.now.newest < tick) }
    ensures not_due { result ≡ false → IsNoneDue images.now.newest tick }
{
    tick <= TICK_MAX && tick > newest_tick(images)
}

// The tick of the newest image, or 0 if there is none.
fn newest_tick(images: &ImageKeeper) -> u64
    ensures { result ≡ newest_tick images.now.newest }
{
    match images.newest() {
        Some((_, tick)) => tick,
        None => 0,
    }
}
