ghost use Rattle.std.specs.Prelude.{◌≡◌, ◌↔◌, ◌<ℤ◌, pos, false, min, max, [], Ok, Err, IsOk, IfOk};
ghost use Rattle.std.specs.Prelude.{IfErr, IsOkAnd, IsErrAnd, OnOk, OnErr, ⊤};
ghost use Rattle.std.specs.Fd.{file_raw_fd};
ghost use Rattle.std.specs.Fs.{metadata_len};
ghost use Rattle.std.proofs.lemmas.Bool.{false≢true};
ghost use Rattle.disk_model.specs.Disk.{last_count, min-last_count, IsDeviceFault};
ghost use Rattle.file_disk.specs.KnownFile.{after_failure, CallsFile};

use crate::opening::{above_streams, drop_copies, if_writable};
use crate::pace::{Pace, Paced, pause};
use crate::valve::{Valve, passed};
use crate::witness::Witness;
use disk_model::Disk;
use std::fs::{File, Metadata};
use std::io::{self, ErrorKind};
use std::marker::Model;
use std::os::unix::fs::FileExt;
use world_actions::Refusal;

/// A file of the operating system. Contracts see a length that it has at least, and the number
/// of its calls that failed. They see nothing of its content. Each read and each write is one
/// call of the system, except in a paced file.
#[derive(Drop)]
pub struct FileDisk {
    file: File,
    known_length: u64,
    faults: u64,
    failure: Option<io::Error>,
    paced: Option<Paced>,
    valve: Option<Valve>,
}

impl Model for FileDisk {
    ghost use Rattle.file_disk.specs.KnownFile.{KnownFile, known_code};

    ghost Value = { KnownFile };

    ghost coded = { known_code };

    ghost view = { λ disk. record { known_length = disk.known_length; faults = disk.faults } };
}

impl FileDisk {
    /// Takes a regular file that isn't open for appending, to write it. It is synced, and the
    /// system's copies of its bytes are dropped: reads then give the bytes that the device has.
    /// The system's error is the reason of a refusal. A file at the descriptor of a standard
    /// stream is refused.
    pub fn open(file: File) -> io::Result<FileDisk>
        ensures no_faults { IfOk result (λ disk. disk.faults ≡ 0) }
        ensures above { IsOk result → pos 2 <ℤ file_raw_fd file }
    {
        above_streams(&file)?;
        let synced = file.sync_all();
        let dropped = drop_copies(&file);
        let metadata = file.metadata();
        FileDisk::opened(file, synced, dropped, metadata)
    }

    /// Takes a regular file that is only read. It is synced as far as it can be written, and the
    /// copies are dropped too.
    pub fn open_to_read(file: File) -> io::Result<FileDisk>
        ensures no_faults { IfOk result (λ disk. disk.faults ≡ 0) }
        ensures above { IsOk result → pos 2 <ℤ file_raw_fd file }
    {
        above_streams(&file)?;
        let synced = if_writable(file.sync_all());
        let dropped = drop_copies(&file);
        let metadata = file.metadata();
        FileDisk::opened(file, synced, dropped, metadata)
    }

    /// Takes a regular file that is only read, as the system has it now. After a failed sync that
    /// may be other than the device has.
    pub fn open_cached(file: File) -> io::Result<FileDisk>
        ensures no_faults { IfOk result (λ disk. disk.faults ≡ 0) }
        ensures above { IsOk result → pos 2 <ℤ file_raw_fd file }
    {
        above_streams(&file)?;
        let metadata = file.metadata();
        FileDisk::opened(file, Ok(()), Ok(()), metadata)
    }

    // Makes the disk from the system's answers: to the sync, to the advice to drop its copies, and
    // to the query of the file. The first error among them is the refusal's.
    fn opened(
        file: File,
        synced: io::Result<()>,
        dropped: io::Result<()>,
        metadata: io::Result<Metadata>,
    ) -> io::Result<FileDisk>
        ensures opened { IfOk result (λ disk. IsOk synced × IsOk dropped × IsOkAnd metadata
            (λ reported. disk ≡ record { known_length = metadata_len reported; faults = 0 })) }
        ensures succeeds { IsOk synced → IsOk dropped → IsOk metadata → IsOk result }
        ensures unsynced { IfErr synced (λ error. IsErrAnd result (λ why. why ≡ error)) }
        ensures undropped { IsOk synced
            → IfErr dropped (λ error. IsErrAnd result (λ why. why ≡ error)) }
        ensures unknown { IsOk synced → IsOk dropped
            → IfErr metadata (λ error. IsErrAnd result (λ why. why ≡ error)) }
    {
        match (synced, dropped, metadata) {
            (Ok(()), Ok(()), Ok(metadata)) => Ok(FileDisk {
                file,
                known_length: metadata.len(),
                faults: 0,
                failure: None,
                paced: None,
                valve: None,
            }),
            (Err(error), _, _) => Err(error),
            (_, Err(error), _) => Err(error),
            (_, _, Err(error)) => Err(error),
        }
    }

    // Takes an answer of the system. Its error counts as a failure.
    fn answered<T>(&mut self, answer: io::Result<T>) -> Result<T, Refusal>
        ensures ok { IfOk answer (λ value. (result ≡ Ok value) × (self.new ≡ self.old)) }
        ensures err { OnErr answer
            ((result ≡ Err Refusal.Device) × (self.new ≡ after_failure self.old)) }
    {
        match answer {
            Ok(value) => Ok(value),
            Err(error) => self.failed(error),
        }
    }

    // Takes the system's answer to a call that was to move `asked` bytes. If it moved fewer, that
    // is a failure of the kind `short`.
    fn moved(
        &mut self,
        answer: io::Result<usize>,
        asked: usize,
        short: ErrorKind,
    ) -> Result<(), Refusal>
        ensures whole { IsOk result ↔ (answer ≡ Ok asked) }
        ensures ok { OnOk result (self.new ≡ self.old) }
        ensures err { OnErr result (self.new ≡ after_failure self.old) }
        ensures device { IsDeviceFault result }
    {
        if self.answered(answer)? != asked {
            return self.failed(io::Error::from(short));
        }
        Ok(())
    }

    // Takes the system's answers to a write of `asked` bytes up to the place `end`, and to the sync
    // that followed it.
    fn wrote(
        &mut self,
        answer: io::Result<usize>,
        synced: io::Result<()>,
        asked: usize,
        end: u64,
    ) -> Result<(), Refusal>
        ensures whole { IsOk result ↔ ((answer ≡ Ok asked) × IsOk synced) }
        ensures ok { OnOk result (self.new
            ≡ record self.old { known_length = max self.old.known_length end }) }
        ensures err { OnErr result (self.new ≡ after_failure self.old) }
        ensures device { IsDeviceFault result }
    {
        self.moved(answer, asked, ErrorKind::WriteZero)?;
        self.answered(synced)?;
        self.known_length = self.known_length.max(end);
        Ok(())
    }

    /// Paces the writes from now on. While play goes on, each 16 KiB are synced, and the thread
    /// then pauses for half a millisecond. So an image never keeps the device busy for long. Once
    /// 8,192 ticks have ended since the last call of `sync`, the file isn't paced until the next.
    pub fn pace(&mut self, pace: Pace)
        ensures { self.new ≡ self.old }
    {
        self.paced = Some(Paced::by(pace));
    }

    /// Puts the file behind this valve: once it is shut each sync fails.
    pub fn stop_by(&mut self, valve: Valve)
        ensures { self.new ≡ self.old }
    {
        self.valve = Some(valve);
    }

    // Counts the bytes of a write. If they end a piece of a paced file, it is synced, with a pause.
    // Returns the system's answer to that sync.
    fn keep_pace(&mut self, written: usize) -> io::Result<()>
        ensures { self.new ≡ self.old }
    {
        let Some(paced) = &mut self.paced else {
            return Ok(());
        };
        if !paced.ends_piece(written) {
            return Ok(());
        }
        let synced = self.file.sync_data();
        pause();
        synced
    }

    // Counts a failure, and keeps the reason of the last one.
    fn failed<T>(&mut self, error: io::Error) -> Result<T, Refusal>
        ensures counts { self.new ≡ after_failure self.old }
        ensures err { result ≡ Err Refusal.Device }
    {
        self.faults = self.faults.saturating_add(1);
        self.failure = Some(error);
        Err(Refusal::Device)
    }

    /// Takes the reason of the last failed call, for callers that report it.
    pub fn take_failure(&mut self) -> Option<io::Error>
        ensures { self.new ≡ self.old }
    {
        self.failure.take()
    }

    /// A witness of the file, for another thread.
    pub fn witness(&self) -> io::Result<Witness> {
        Witness::of(&self.file)
    }

    /// Returns the same reason, and keeps it.
    pub fn failure(&self) -> Option<&io::Error> {
        self.failure.as_ref()
    }
}

impl Disk for FileDisk {
    ghost content = { λ disk. [] };

    ghost may_leave = { λ disk left. ⊤ };

    ghost honest = { false };

    ghost faults = { λ disk. min disk.faults last_count };

    ghost called = { CallsFile };

    ghost stays = { λ disk is_honest. absurd (false≢true is_honest) };

    ghost are_bytes = { λ disk left is_honest outcome. absurd (false≢true is_honest) };

    ghost keeps_byte = { λ old new call succeeded is_honest. absurd (false≢true is_honest) };

    ghost few_faults = { λ disk. min-last_count disk.faults };

    fn len(&mut self) -> Result<u64, Refusal> {
        let answer = self.file.metadata();
        Ok(self.answered(answer)?.len())
    }

    /// A read that ends past the end of the file fails.
    fn read_at(&mut self, at: u64, into: &mut [u8]) -> Result<(), Refusal> {
        let answer = self.file.read_at(into, at);
        self.moved(answer, into.len(), ErrorKind::UnexpectedEof)
    }

    /// A write that begins past the known length fails, and isn't made. A failed write may have
    /// made the file longer, by an unknown length.
    fn write_at(&mut self, at: u64, bytes: &[u8]) -> Result<(), Refusal> {
        match at.checked_add(bytes.len() as u64) {
            Some(end) if at <= self.known_length => {
                let answer = self.file.write_at(bytes, at);
                let synced = self.keep_pace(bytes.len());
                self.wrote(answer, synced, bytes.len(), end)
            }
            _ => self.failed(io::Error::from(ErrorKind::InvalidInput)),
        }
    }

    fn sync(&mut self) -> Result<(), Refusal> {
        let answer = passed(&self.valve, self.file.sync_data());
        if let Some(paced) = &mut self.paced {
            paced.synced();
        }
        self.answered(answer)
    }
}
