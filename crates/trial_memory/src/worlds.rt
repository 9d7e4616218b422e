//! Worlds on files in memory. The files have memory for all that is written, or they grow while an
//! allocation may be refused.
use crate::case::{Case, digest_of_bytes, folded};
use crate::files::{IMAGE, LOG, file_of};
use batches::{Answer, Batch, BatchReader, Fed};
use capture_core::PlainCopy;
use disk_model::{FourFiles, ModelFile};
use serial_world::SerialWorld;
use sessions::World;
use std::alloc::Global;
use std::marker::PhantomData;
use world_actions::Refusal;
use world_start::fresh_files;
use zigzag::Zigzag;

/// How much memory files have at first.
pub trait Room {
    /// True if files grow. A refused growth is a failed call of the device, and files may have
    /// changed before it.
    fn grows() -> bool;
}

/// Files have memory for all that is written.
pub struct Ample;

impl Room for Ample {
    fn grows() -> bool {
        false
    }
}

/// Files have memory for their first bytes only.
pub struct Scarce;

impl Room for Scarce {
    fn grows() -> bool {
        true
    }
}

/// More bytes than a file has here.
const FILE_BYTES: u64 = 2_000;

/// More actions than a log file has memory for once a start has written it.
const ACTIONS: u32 = 40;

/// Files, or the refusal with which they are given back.
type Made = Result<FourFiles<ModelFile>, (FourFiles<ModelFile>, Refusal)>;

fn files_of<R: Room>(
    alloc: Global,
    image_a: &[u8],
    log_a: &[u8],
) -> Result<FourFiles<ModelFile>, Refusal> {
    Ok(FourFiles {
        image_a: file_with::<R>(alloc, image_a)?,
        image_b: file_with::<R>(alloc, &[])?,
        log_a: file_with::<R>(alloc, log_a)?,
        log_b: file_with::<R>(alloc, &[])?,
    })
}

fn file_with<R: Room>(alloc: Global, bytes: &[u8]) -> Result<ModelFile, Refusal> {
    let mut file = file_of(alloc, bytes)?;
    if !R::grows() {
        file.reserve(FILE_BYTES)?;
    }
    Ok(file)
}

// A number for the durable bytes of the files, or 0 if there are no files.
fn number_of(files: &Option<FourFiles<ModelFile>>) -> u64 {
    match files {
        Some(files) => folded(
            folded(
                digest_of_bytes(files.image_a.durable()),
                digest_of_bytes(files.image_b.durable()),
            ),
            folded(
                digest_of_bytes(files.log_a.durable()),
                digest_of_bytes(files.log_b.durable()),
            ),
        ),
        None => 0,
    }
}

// True if making or opening a world may be refused so.
fn is_refused<R: Room>(refusal: Refusal, is_same: bool) -> bool {
    (is_same && refusal == Refusal::NoMemory) || (R::grows() && refusal == Refusal::Device)
}

/// A case that makes the files of a new world. If a failed start left its image, the world
/// is opened instead.
#[derive(Drop)]
pub struct NewWorld<R: Room> {
    alloc: Global,
    files: Option<FourFiles<ModelFile>>,
    room: PhantomData<R>,
}

impl<R: Room> NewWorld<R> {
    fn keep(&mut self, made: Made) -> Result<u64, Refusal> {
        match made {
            Ok(files) => {
                self.files = Some(files);
                Ok(0)
            }
            Err((files, refusal)) => {
                self.files = Some(files);
                Err(refusal)
            }
        }
    }

    fn open(&self, files: FourFiles<ModelFile>) -> Made {
        Ok(SerialWorld::<PlainCopy, ModelFile>::open(self.alloc, files, 1)?.into_files())
    }
}

impl<R: Room> Case for NewWorld<R> {
    fn name() -> &'static str {
        if R::grows() {
            "fresh_files of files that grow"
        } else {
            "fresh_files"
        }
    }

    fn refusal() -> Refusal {
        Refusal::NoMemory
    }

    fn is_refused(refusal: Refusal, is_same: bool) -> bool {
        is_refused::<R>(refusal, is_same)
    }

    fn set_up(alloc: Global) -> Result<Self, Refusal> {
        Ok(NewWorld {
            alloc,
            files: Some(files_of::<R>(alloc, &[], &[])?),
            room: PhantomData,
        })
    }

    fn call(&mut self) -> Result<u64, Refusal> {
        let files = self.files.take().ok_or(Refusal::Device)?;
        let made = match fresh_files(self.alloc, 2, files) {
            Err((files, Refusal::NotEmpty)) => self.open(files),
            made => made,
        };
        self.keep(made)
    }

    fn seen(&mut self) -> u64 {
        number_of(&self.files)
    }
}

/// A case that opens a world.
#[derive(Drop)]
pub struct Open<R: Room> {
    alloc: Global,
    files: Option<FourFiles<ModelFile>>,
    room: PhantomData<R>,
}

impl<R: Room> Case for Open<R> {
    fn name() -> &'static str {
        if R::grows() {
            "SerialWorld::open of files that grow"
        } else {
            "SerialWorld::open"
        }
    }

    fn refusal() -> Refusal {
        Refusal::NoMemory
    }

    fn is_refused(refusal: Refusal, is_same: bool) -> bool {
        is_refused::<R>(refusal, is_same)
    }

    fn set_up(alloc: Global) -> Result<Self, Refusal> {
        Ok(Open {
            alloc,
            files: Some(files_of::<R>(alloc, &IMAGE, &LOG)?),
            room: PhantomData,
        })
    }

    /// If files grow, a start may have failed before, and recovery may find another image. So the
    /// number leaves out its tick then.
    fn call(&mut self) -> Result<u64, Refusal> {
        let files = self.files.take().ok_or(Refusal::Device)?;
        match SerialWorld::<Zigzag, ModelFile>::open(self.alloc, files, 1) {
            Ok(served) => {
                let (tick, from) = served.recovered();
                self.files = Some(served.into_files());
                Ok(if R::grows() { tick } else { folded(tick, from) })
            }
            Err((files, refusal)) => {
                self.files = Some(files);
                Err(refusal)
            }
        }
    }

    fn seen(&mut self) -> u64 {
        number_of(&self.files)
    }
}

// A batch of many actions and a read of their cell.
fn batch_of(alloc: Global) -> Result<Batch, Refusal> {
    let mut reader = BatchReader::new(alloc)?;
    for _ in 0..ACTIONS {
        reader.take(b"add 0 2\n");
    }
    match reader.take(b"get 0\nend\n") {
        (_, Fed::Whole) => reader.batch().try_copy(Batch::empty(alloc)),
        _ => Err(Refusal::BadLine),
    }
}

type Served = SerialWorld<PlainCopy, ModelFile>;

/// A form of the answers to a batch.
pub trait Form {
    /// The names of its case, also on files that grow.
    fn names() -> [&'static str; 2];

    /// Plays a batch, and returns a number for its answers.
    fn play(alloc: Global, served: &mut Served, batch: &Batch) -> Result<u64, Refusal>;
}

/// The answers as a line.
pub struct Line;

impl Form for Line {
    fn names() -> [&'static str; 2] {
        [
            "SerialWorld::batch",
            "SerialWorld::batch of files that grow",
        ]
    }

    fn play(alloc: Global, served: &mut Served, batch: &Batch) -> Result<u64, Refusal> {
        let mut text = Vec::new(alloc);
        served.batch(batch, &mut text)?;
        Ok(digest_of_bytes(&text))
    }
}

/// The answers as values.
pub struct Values;

impl Form for Values {
    fn names() -> [&'static str; 2] {
        ["SerialWorld::play", "SerialWorld::play of files that grow"]
    }

    fn play(alloc: Global, served: &mut Served, batch: &Batch) -> Result<u64, Refusal> {
        let mut answers = Vec::new(alloc);
        let tick = served.play(batch, &mut answers)?;
        let last = match answers.last() {
            Some(Answer::Word(word)) => *word,
            _ => 0,
        };
        Ok(folded(folded(tick, answers.len() as u64), last))
    }
}

/// A case that plays a batch on a served world. If the log went down, the world is opened again.
#[derive(Drop)]
pub struct Serve<R: Room, F: Form> {
    alloc: Global,
    served: Option<Served>,
    batch: Batch,
    room: PhantomData<R>,
    form: PhantomData<F>,
}

impl<R: Room, F: Form> Serve<R, F> {
    fn open(&mut self, files: FourFiles<ModelFile>) -> Result<(), Refusal> {
        match SerialWorld::open(self.alloc, files, 1) {
            Ok(served) => {
                self.served = Some(served);
                Ok(())
            }
            Err((_, refusal)) => Err(refusal),
        }
    }

    fn open_again(&mut self) -> Result<(), Refusal> {
        let served = self.served.take().ok_or(Refusal::Device)?;
        self.open(served.into_files())
    }
}

impl<R: Room, F: Form> Case for Serve<R, F> {
    fn name() -> &'static str {
        let [ample, growing] = F::names();
        if R::grows() { growing } else { ample }
    }

    fn refusal() -> Refusal {
        Refusal::NoMemory
    }

    fn is_refused(refusal: Refusal, is_same: bool) -> bool {
        let may_be = refusal == Refusal::NoMemory || (R::grows() && refusal == Refusal::LogDown);
        is_same && may_be
    }

    fn set_up(alloc: Global) -> Result<Self, Refusal> {
        let mut case = Serve {
            alloc,
            served: None,
            batch: batch_of(alloc)?,
            room: PhantomData,
            form: PhantomData,
        };
        case.open(files_of::<R>(alloc, &IMAGE, &LOG)?)?;
        Ok(case)
    }

    fn call(&mut self) -> Result<u64, Refusal> {
        let served = self.served.as_mut().ok_or(Refusal::Device)?;
        match F::play(self.alloc, served, &self.batch) {
            Err(Refusal::LogDown) => {
                self.open_again()?;
                Err(Refusal::LogDown)
            }
            answer => answer,
        }
    }

    fn seen(&mut self) -> u64 {
        match &self.served {
            Some(served) => served.acked(),
            None => 0,
        }
    }
}
