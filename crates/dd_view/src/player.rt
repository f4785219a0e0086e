//! A player of records, which is fed a record's bytes in pieces.

ghost use Rattle.std.specs.Prelude.{◌≡◌, ◌+◌, ◌≤◌, ◌^◌, length, false, Ok, IfOk, IfSome, OnOk, option_map};
ghost use Rattle.dd_record.specs.Fitting.{Fits};
ghost use Rattle.dd_record.specs.Grammar.{chunk_of};
ghost use Rattle.dd_record.specs.Writing.{magic};
ghost use Rattle.dd_view.specs.Player.{agree, stage_behind};
ghost use Rattle.dd_view.specs.Ppm.{HasSizeOf};

use crate::pending::Pending;
use crate::played::Played;
use crate::stage::Stage;
use dd_grid::Surface;
use dd_modes::Mode;
use dd_record::{Chunk, Parsed, RecordFault, parse_chunk_from};
use std::alloc::{AllocError, Global};
use std::marker::Model;
use std::mem::replace;

/// `DDR1`, with which a record begins.
const MAGIC: [u8; 4] = [0x44, 0x44, 0x52, 0x31];

/// A player of one record. It keeps only the bytes behind the last whole chunk, and shows the picture
/// after one frame.
#[derive(Debug, Drop)]
pub struct Player {
    alloc: Global,
    asked: u32,
    stage: Stage,
    at: u64,
    pending: Pending,
    /// So many of the pending bytes were found good, as far as they go.
    tested: u64,
    played: Played,
}

impl Model for Player {
    ghost use Rattle.dd_view.specs.Player.{Reader};

    ghost Value = { Reader };

    ghost use Rattle.dd_view.specs.Readers.{reader, IsReader};

    ghost view = { reader };

    ghost invariant = { IsReader };
}

/// Whether two lists of bytes are the same as far as both go.
fn agree(bytes: &[u8], others: &[u8]) -> bool
    ensures { result ≡ agree bytes.now others.now }
{
    for i in 0..bytes.len().min(others.len()) {
        if bytes[i] != others[i] {
            return false;
        }
    }
    true
}

/// Whether bytes are the magic, as far as they have come.
#[tactic(auto, unfolding(dd_record::specs::Writing::magic))]
fn is_magic(bytes: &[u8]) -> bool
    ensures { result ≡ agree bytes.now magic }
{
    agree(bytes, &MAGIC)
}

/// The stage behind a chunk.
fn stage_behind(chunk: &Chunk) -> Stage
    ensures { result ≡ stage_behind chunk.now }
{
    match chunk {
        Chunk::End => Stage::Ended,
        Chunk::Opening { .. } | Chunk::Frame(_) => Stage::Going,
    }
}

impl Player {
    ghost use Rattle.dd_view.specs.Player.{Reader, new_reader, stopped, begun_next, behind_chunk, chunk_next, open_mode, ended_next, next, steps, read_on, fed, bytes_come, feed_answer, finish_answer, Feeds};

    /// A player of no bytes so far, which is asked for the picture after frame number `frame`, from 1.
    #[tactic(auto, using(dd_record::proofs::Before::nothing_yet))]
    pub fn new(alloc: Global, frame: u32) -> Result<Player, AllocError>
        requires { 1 ≤ frame }
        ensures { IfOk result (λ p. p ≡ new_reader frame) }
    {
        Ok(Player {
            alloc,
            asked: frame,
            stage: Stage::Begun,
            at: 0,
            pending: Pending::new(alloc),
            tested: 0,
            played: Played::nothing(),
        })
    }

    /// Keeps a fault, and forgets the bytes from there on.
    #[tactic(auto, using(dd_record::proofs::Before::nothing_yet))]
    fn stop(&mut self, fault: RecordFault)
        ensures value { self.new ≡ stopped fault self.old }
        ensures few { bytes_come self.new ≤ bytes_come self.old }
    {
        self.tested = 0;
        self.pending.clear();
        self.stage = Stage::Failed(fault);
    }

    /// Takes the magic, once it has come whole; says whether anything changed.
    #[tactic(auto, unfolding(crate::specs::Player::begun_next, dd_record::specs::Writing::magic))]
    fn begin(&mut self) -> bool
        ensures next { self.new ≡ begun_next self.old }
        ensures stands { result ≡ false → self.new ≡ self.old }
        ensures few { bytes_come self.new ≤ bytes_come self.old }
    {
        if !is_magic(self.pending.as_slice()) {
            self.stop(RecordFault::BadMagic);
            return true;
        }
        if self.pending.len() < MAGIC.len() {
            return false;
        }
        self.tested = 0;
        self.pending.skip(MAGIC.len());
        self.at += MAGIC.len() as u64;
        self.stage = Stage::Going;
        true
    }

    /// Plays a chunk at the front of the bytes that came.
    #[tactic(auto, using(dd_record::proofs::Before::nothing_yet))]
    fn take(&mut self, parsed: Parsed) -> Result<(), AllocError>
        requires { Fits (open_mode self.old.played) (length self.old.rest) parsed }
        ensures ok { OnOk result (self.new ≡ behind_chunk self.old parsed) }
        ensures few { bytes_come self.new ≤ bytes_come self.old }
    {
        let Parsed { chunk, used } = parsed;
        let stage = stage_behind(&chunk);
        self.tested = 0;
        let played = replace(&mut self.played, Played::nothing());
        self.played = played.after(self.alloc, self.asked, chunk)?;
        self.pending.skip(used as usize);
        self.at += used;
        self.stage = stage;
        Ok(())
    }

    /// Takes a chunk, once it has come whole; says whether anything changed.
    #[tactic(auto, using(dd_record::proofs::Before::none_is_good))]
    fn read_chunk(&mut self) -> Result<bool, AllocError>
        ensures next { OnOk result
            (self.new ≡ chunk_next self.old (chunk_of (open_mode self.old.played) self.old.rest)) }
        ensures stands { result ≡ Ok false → self.new ≡ self.old }
        ensures few { bytes_come self.new ≤ bytes_come self.old }
    {
        let mode = self.played.mode();
        let bytes = self.pending.as_slice();
        match parse_chunk_from(self.alloc, bytes, self.at, mode, self.tested) {
            Ok(None) => {
                self.tested = self.pending.len() as u64;
                Ok(false)
            }
            Ok(Some(parsed)) => {
                self.take(parsed)?;
                Ok(true)
            }
            Err(RecordFault::OutOfMemory) => Err(AllocError),
            Err(fault) => {
                self.stop(fault);
                Ok(true)
            }
        }
    }

    /// Finds a byte behind the End chunk; says whether anything changed.
    fn check_end(&mut self) -> bool
        ensures next { self.new ≡ ended_next self.old self.old.rest }
        ensures stands { result ≡ false → self.new ≡ self.old }
        ensures few { bytes_come self.new ≤ bytes_come self.old }
    {
        if self.pending.len() == 0 {
            return false;
        }
        let at = self.at;
        self.stop(RecordFault::BadField { at });
        true
    }

    /// Takes one whole part more, or finds the fault; says whether anything changed.
    fn step(&mut self) -> Result<bool, AllocError>
        ensures next { OnOk result (self.new ≡ next self.old) }
        ensures stands { result ≡ Ok false → self.new ≡ self.old }
        ensures few { bytes_come self.new ≤ bytes_come self.old }
    {
        match self.stage {
            Stage::Begun => Ok(self.begin()),
            Stage::Going => self.read_chunk(),
            Stage::Ended => Ok(self.check_end()),
            Stage::Failed(fault) => {
                self.stop(fault);
                Ok(true)
            }
        }
    }

    /// Takes so many parts, or as many as have come whole.
    fn read_parts(&mut self, count: usize) -> Result<(), AllocError>
        ensures ok { OnOk result (self.new ≡ steps count self.old) }
        ensures few { bytes_come self.new ≤ bytes_come self.old }
    {
        for _i in 0..count {
            if !self.step()? {
                return Ok(());
            }
        }
        Ok(())
    }

    /// Takes all parts that have come whole: each has one byte at least.
    #[tactic(auto, unfolding(crate::specs::Player::read_on))]
    fn read(&mut self) -> Result<(), AllocError>
        ensures ok { OnOk result (self.new ≡ read_on self.old) }
        ensures few { bytes_come self.new ≤ bytes_come self.old }
    {
        let most = self.pending.len();
        self.read_parts(most)
    }

    /// Takes a piece, and all parts that have come whole then.
    fn take_in(&mut self, piece: &[u8]) -> Result<(), AllocError>
        requires { bytes_come self.old + length piece.now ≤ 2 ^ 36 }
        ensures ok { OnOk result (self.new ≡ fed self.old piece.now) }
        ensures few { bytes_come self.new ≤ bytes_come self.old + length piece.now }
    {
        self.pending.append(piece)?;
        self.read()
    }

    /// The number of whole frames so far, or the fault.
    fn count(&self) -> Result<u32, RecordFault>
        ensures { result ≡ feed_answer self.now }
    {
        match self.stage {
            Stage::Failed(fault) => Err(fault),
            Stage::Begun | Stage::Going | Stage::Ended => Ok(self.played.frames()),
        }
    }

    /// Reads the next bytes of the record, and gives the number of whole frames so far. How the bytes
    /// are cut into pieces makes no difference.
    ///
    /// `BadMagic` where the first four bytes, as far as they have come, aren't `DDR1`. `BadField` where
    /// some field has come whole and breaks its rule, or a byte follows the End chunk; it tells the
    /// place of the first such field. It never answers `Truncated`. After a fault, want of memory too,
    /// every call answers the same fault. A record has at most 2^36 bytes.
    pub fn feed(&mut self, piece: &[u8]) -> Result<u32, RecordFault>
        requires { bytes_come self.old + length piece.now ≤ 2 ^ 36 }
        ensures fed { Feeds result self.old self.new piece.now }
        ensures few { bytes_come self.new ≤ bytes_come self.old + length piece.now }
    {
        if let Stage::Failed(fault) = self.stage {
            self.stop(fault);
            return Err(fault);
        }
        match self.take_in(piece) {
            Ok(()) => self.count(),
            Err(_) => {
                self.stop(RecordFault::OutOfMemory);
                Err(RecordFault::OutOfMemory)
            }
        }
    }

    /// Whether the bytes that came are a record: the fault that was found, or `Truncated`, with the
    /// number of bytes that came, where the End chunk isn't there. `Truncated` isn't kept: bytes may
    /// come still. It takes no memory.
    pub fn finish(&mut self) -> Result<(), RecordFault>
        ensures answer { result ≡ finish_answer self.old }
        ensures stays { self.new ≡ self.old }
    {
        match self.stage {
            Stage::Ended => Ok(()),
            Stage::Failed(fault) => Err(fault),
            Stage::Begun | Stage::Going => Err(RecordFault::Truncated {
                at: self.at + self.pending.len() as u64,
            }),
        }
    }

    /// The surface after the frame that is asked for, with the pointer; none where fewer frames came. It
    /// has the size of that frame's mode.
    pub fn shown(&self) -> Option<&Surface>
        ensures value { option_map (λ s. s.now) result
            ≡ option_map (λ s. s.surface) self.now.played.shown }
        ensures size { IfSome self.now.played.shown (λ s. HasSizeOf s.mode s.surface) }
    {
        match self.played.shown() {
            None => None,
            Some(shown) => Some(shown.surface()),
        }
    }

    /// The mode of that frame; none where fewer frames came.
    pub fn mode(&self) -> Option<Mode>
        ensures { result ≡ option_map (λ s. s.mode) self.now.played.shown }
    {
        match self.played.shown() {
            None => None,
            Some(shown) => Some(shown.mode()),
        }
    }

    /// How many bytes are kept: those behind the last whole chunk, or behind the magic.
    pub fn held(&self) -> u64
        ensures { result ≡ length self.now.rest }
    {
        self.pending.len() as u64
    }
}
