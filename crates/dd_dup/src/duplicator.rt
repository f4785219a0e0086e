//! A duplicator: its value, and what it holds.

ghost use Rattle.std.specs.Prelude.{◌≡◌, ◌≤◌, IfOk, IsTrue, length, false, option_map};
ghost use Rattle.dd_acc.specs.declared.interval.TheConstants.{MAX_MOVES};
ghost use Rattle.dd_coal.specs.declared.coalescing.TheConstants.{MAX_RECTS};

mod acquiring;
mod asking;

use crate::frame::{Frame, Hidden};
use dd_bits::Area;
use dd_calls::{DupRefusal, FrameInfo};
use dd_geom::{Move, Rect};
use dd_grid::Surface;
use dd_log::Log;
use dd_modes::Mode;
use dd_pointer::Shape;
use std::alloc::{AllocError, Global};
use std::marker::Model;

/// One duplicator. It holds the surface of its mark and the set of the points that are hidden there,
/// and brings both forward by the entries that are new.
#[derive(Debug, Drop)]
pub struct Dup {
    alloc: Global,
    opened: u64,
    mark: u64,
    pointer_mark: u64,
    mode: Mode,
    surface: Surface,
    hidden: Hidden,
    held: Option<Frame>,
    lost: bool,
    folded: u64,
}

impl Model for Dup {
    ghost use Rattle.dd_dup.specs.Duplicator.{Duplicator};

    ghost Value = { Duplicator };

    ghost use Rattle.dd_dup.specs.Dup.{value};

    ghost view = { value };
}

impl Dup {
    ghost use Rattle.dd_calls.specs.declared.answers.DupRefusal.TheVariants.{AccessLost};
    ghost use Rattle.dd_log.specs.History.{desk, any_begins};
    ghost use Rattle.dd_dup.specs.News.{news, held_info, held_moves, held_dirt, held_shape};
    ghost use Rattle.dd_dup.specs.Reply.{fresh_memory, is_lost};
    ghost use Rattle.dd_dup.specs.Duplicator.{lent, IsRefusedBy};
    ghost use Rattle.dd_dup.specs.Stands.{Stands, StandsOnceOpened};
    ghost use Rattle.dd_dup.specs.Veil.{LendsVeil};

    /// A duplicator that is opened at place `at`, the list's length. It stands on each list that
    /// begins with this one and has its opening there.
    pub fn start(alloc: Global, log: &Log, at: u64) -> Result<Dup, AllocError>
        requires at { at ≡ length log.now.entries }
        requires going { (desk log.now).ended ≡ false }
        ensures memory { IfOk result (λ d. d.memory ≡ fresh_memory log.now at) }
        ensures folded { IfOk result (λ d. d.folded ≡ 0) }
        ensures stands { IfOk result (λ d. StandsOnceOpened d log.now) }
    {
        let mode = log.mode();
        let surface = Surface::new(alloc, mode.width, mode.height)?;
        let hidden = Hidden::empty(alloc, mode.width, mode.height)?;
        Ok(Dup {
            alloc,
            opened: at,
            mark: log.picture_start(),
            pointer_mark: 0,
            mode,
            surface,
            hidden,
            held: None,
            lost: false,
            folded: 0,
        })
    }

    /// Whether the duplicator is lost: it was told so, or the mode changed, the desktop was switched or
    /// the session was disconnected after its opening.
    fn is_lost(&self, log: &Log) -> bool
        requires { Stands self.now log.now }
        ensures value { result ≡ is_lost self.now.memory log.now }
        ensures begins { result ≡ false → any_begins (news log.now self.now.memory.mark) ≡ false }
    {
        self.lost || log.cut_off_since(self.opened)
    }

    /// Tells the duplicator of a refusal: it is lost for good, and its frame is gone, where that is the
    /// cause.
    pub(crate) fn refuse(&mut self, log: &Log, cause: DupRefusal)
        requires stands { Stands self.old log.now }
        requires lost { cause ≡ AccessLost → IsTrue (is_lost self.old.memory log.now) }
        ensures refused { IsRefusedBy cause self.old self.new }
        ensures stands_still { Stands self.new log.now }
    {
        let _ = log;
        if matches!(cause, DupRefusal::AccessLost) {
            self.held = None;
            self.lost = true;
        }
    }

    /// How many entries were handed to the surface since the opening, each of them once: those from
    /// where the desk's picture began up to the mark. Those that are drawn over as a whole are counted too.
    pub fn folded(&self) -> u64
        ensures { result ≡ self.now.folded }
    {
        self.folded
    }

    /// The mode at the opening.
    pub fn desc(&self) -> Mode
        ensures { result ≡ self.now.mode }
    {
        self.mode
    }

    /// The surface, where a frame is held.
    fn lent_surface(&self) -> Option<&Surface>
        ensures { option_map (λ s. s.now) result ≡ lent self.now }
    {
        match &self.held {
            None => None,
            Some(_) => Some(&self.surface),
        }
    }

    /// The acquired surface; none where no frame is held. Nothing of what covers hide is in it.
    pub fn surface(&self) -> Option<&Surface>
        ensures value { option_map (λ s. s.now) result ≡ lent self.now }
        ensures veiled { LendsVeil (option_map (λ s. s.now) result) self.now }
    {
        self.lent_surface()
    }

    /// What is told of the held frame.
    pub fn info(&self) -> Option<FrameInfo>
        ensures { result ≡ held_info self.now.memory.held }
    {
        match &self.held {
            None => None,
            Some(frame) => Some(frame.info),
        }
    }

    /// The moves of the held frame; none where no frame is held.
    pub fn move_list(&self) -> &[Move]
        ensures value { result.now ≡ held_moves self.now.memory.held }
        ensures few { length result.now ≤ MAX_MOVES }
    {
        match &self.held {
            None => &[],
            Some(frame) => frame.moves.as_slice(),
        }
    }

    /// The dirty rectangles of the held frame; none where no frame is held.
    pub fn dirt_list(&self) -> &[Rect]
        ensures value { result.now ≡ held_dirt self.now.memory.held }
        ensures few { length result.now ≤ MAX_RECTS }
    {
        match &self.held {
            None => &[],
            Some(frame) => frame.dirt.as_slice(),
        }
    }

    /// The new shape of the held frame; none where it has none, or no frame is held.
    pub fn new_shape(&self) -> Option<&Shape>
        ensures { option_map (λ shape. shape.now) result ≡ held_shape self.now.memory.held }
    {
        match &self.held {
            None => None,
            Some(frame) => frame.shape.as_ref(),
        }
    }
}
