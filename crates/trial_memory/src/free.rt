use crate::case::folded;
use crate::cores::{number_of, settle, settle_images};
use crate::files::{IMAGE, file_of};
use action_log::read_log;
use batches::{BatchReader, Fed};
use capture_core::{Capture, PlainCopy, Taken};
use disk_model::{Disk, ModelFile};
use image_files::read_image;
use ping_pong::PingPong;
use shared_capture::{Joined, Pong, Zig};
use std::alloc::Global;
use trial_kit::{end_stretch, refuse_each};
use world_actions::{Action, Refusal, check};
use world_core::{Core, Move};
use world_ticks::{Tick, Words, act, replay};
use zigzag::Zigzag;

/// The words of two cells.
const WORDS: [u64; 2] = [3, 4];

/// How many bytes are reserved for the file.
const FILE_BYTES: u64 = 100;

/// More takes than a round of these stores has.
const TAKES: u32 = 10;

/// How many pieces a line has.
const PIECES: u32 = 1_000;

/// After so many rounds no file of a core grows any more.
const ROUNDS: u32 = 4;

/// The covered tick. It follows the ticks of these rounds and one logged tick.
const COVERED: u64 = 6;

/// Calls that take no memory, with the values that they are made on.
trait Free: Sized + Drop {
    fn set_up(alloc: Global) -> Result<Self, Refusal>;

    /// Makes the calls, and returns a number for their answers, or None if one is wrong.
    fn call(self, alloc: Global) -> Option<u64>;
}

/// Makes the calls that take no memory, first as usual, and then while each allocation is refused.
/// Returns true if they gave the same answers.
pub fn try_free_calls(alloc: Global) -> Result<bool, Refusal> {
    let are_stores_free = try_free::<PlainCopy>(alloc)?
        & try_free::<Zigzag>(alloc)?
        & try_free::<PingPong>(alloc)?
        & try_free::<Joined<Zig>>(alloc)?
        & try_free::<Joined<Pong>>(alloc)?;
    let are_others_free = try_free::<RoomyTick>(alloc)?
        & try_free::<RoomyFile>(alloc)?
        & try_free::<BadFiles>(alloc)?
        & try_free::<EndlessLine>(alloc)?
        & try_free::<SettledCore>(alloc)?;
    Ok(are_stores_free && are_others_free)
}

fn try_free<X: Free>(alloc: Global) -> Result<bool, Refusal> {
    let wanted = X::set_up(alloc)?.call(alloc);
    let ready = X::set_up(alloc)?;
    refuse_each(alloc);
    let given = ready.call(alloc);
    end_stretch(alloc);
    Ok(given.is_some() && given == wanted)
}

// A write, a mark, another write, and all takes.
impl<C: Capture> Free for C {
    fn set_up(alloc: Global) -> Result<Self, Refusal> {
        C::build(alloc, &WORDS)
    }

    fn call(self, _alloc: Global) -> Option<u64> {
        let mut store = self;
        put(&mut store, 8);
        if !store.open_round() {
            store.mark();
        }
        put(&mut store, 9);
        let mut sum = 0;
        for _ in 0..TAKES {
            sum = match store.take() {
                Some(Taken::Word(word)) => folded(sum, word),
                Some(Taken::Same) => folded(sum, 1_000),
                None => break,
            };
        }
        Some(sum)
    }
}

fn put<C: Capture>(store: &mut C, word: u8) {
    if store.len() > 0 {
        store.write(0, u64::from(word));
    }
}

// A check of an action, the action, and its replay.
#[derive(Drop)]
struct RoomyTick {
    words: Words,
    tick: Tick,
}

impl Free for RoomyTick {
    fn set_up(alloc: Global) -> Result<Self, Refusal> {
        let mut tick = Tick::new(alloc);
        tick.reserve(1)?;
        Ok(RoomyTick {
            words: Words::new(Vec::from_slice(alloc, &WORDS)?),
            tick,
        })
    }

    fn call(self, alloc: Global) -> Option<u64> {
        let RoomyTick {
            mut words,
            mut tick,
        } = self;
        let action = Action::Set { cell: 0, value: 5 };
        check(&action, 2, 3, 0).ok()?;
        act(&mut words, &mut tick, action).ok()?;
        replay(&mut words, tick.actions()).ok()?;
        Some(Tick::new(alloc).actions().len() as u64)
    }
}

// A write within the reserved bytes, a sync, and a crash.
#[derive(Drop)]
struct RoomyFile {
    file: ModelFile,
    left: Vec<u8>,
}

impl Free for RoomyFile {
    fn set_up(alloc: Global) -> Result<Self, Refusal> {
        let mut file = file_of(alloc, &IMAGE)?;
        file.reserve(FILE_BYTES)?;
        let mut left = vec![in alloc; 7; FILE_BYTES as usize]?;
        for (byte, first) in left.iter_mut().zip(&IMAGE) {
            *byte = *first;
        }
        Ok(RoomyFile { file, left })
    }

    fn call(self, _alloc: Global) -> Option<u64> {
        let RoomyFile { mut file, left } = self;
        if file.now().len() != IMAGE.len() {
            return None;
        }
        file.write_at(IMAGE.len() as u64, &[7; 75]).ok()?;
        file.sync().ok()?;
        let crashed = file.crash(left).ok()?;
        Some(crashed.now().len() as u64)
    }
}

// Files that are refused before memory is asked for. Two are headers of images with no word
// after: one of 2^30 cells, which are 8 GB, and one of the most cells. The third is a segment
// whose group is cut off.
#[derive(Drop)]
struct BadFiles;

impl Free for BadFiles {
    fn set_up(_alloc: Global) -> Result<Self, Refusal> {
        Ok(BadFiles)
    }

    fn call(self, alloc: Global) -> Option<u64> {
        let huge = [1, 0, 0, 0, 0x40, 0, 0, 0, 0x20, 0, 0, 0, 0, 0, 0, 0, 0];
        let largest = [1, 0, 0, 0x10, 0, 0, 0, 0, 0x20, 0, 0, 0, 0, 0, 0, 0, 0];
        let cut_off = [1, 0, 0, 0, 0, 0, 0, 0, 0, 1, 32, 0];
        let are_bad = read_image(alloc, &huge).err() == Some(Refusal::BadImage)
            && read_image(alloc, &largest).err() == Some(Refusal::BadImage)
            && read_log(alloc, &cut_off).err() == Some(Refusal::BadLog);
        are_bad.then_some(0)
    }
}

// A client's line that doesn't end.
#[derive(Drop)]
struct EndlessLine {
    reader: BatchReader,
}

impl Free for EndlessLine {
    fn set_up(alloc: Global) -> Result<Self, Refusal> {
        Ok(EndlessLine {
            reader: BatchReader::new(alloc)?,
        })
    }

    fn call(self, _alloc: Global) -> Option<u64> {
        let EndlessLine { mut reader } = self;
        for _ in 0..PIECES {
            let (taken, fed) = reader.take(&[b'x'; 512]);
            if taken != 512 || fed != Fed::More {
                return None;
            }
        }
        Some(0)
    }
}

// A tick without an action, a mark, and the moves of both keepers. Then the same again, with a
// cover of the tick once its image is open.
#[derive(Drop)]
struct SettledCore {
    core: Core<Zigzag>,
}

impl Free for SettledCore {
    fn set_up(alloc: Global) -> Result<Self, Refusal> {
        let mut core = Core::fresh(alloc, 2)?;
        settle(&mut core);
        for _ in 0..ROUNDS {
            round(&mut core);
        }
        Ok(SettledCore { core })
    }

    fn call(self, _alloc: Global) -> Option<u64> {
        let SettledCore { mut core } = self;
        let logged = round(&mut core);
        covered_round(&mut core).map(|covered| folded(logged, covered))
    }
}

fn round(core: &mut Core<Zigzag>) -> u64 {
    let ended = number_of(core.step(Move::End));
    let marked = number_of(core.step(Move::Mark));
    folded(folded(ended, marked), settle(core))
}

fn covered_round(core: &mut Core<Zigzag>) -> Option<u64> {
    let ended = number_of(core.step(Move::End));
    let marked = number_of(core.step(Move::Mark));
    let opened = settle_images(core);
    let covered = number_of(core.step(Move::Cover(COVERED)));
    let rest = settle(core);
    let is_acked = covered == folded(6, folded(3, COVERED));
    is_acked.then_some(folded(folded(folded(ended, marked), opened), rest))
}
