//! What the chunks of a record have played.

ghost use Rattle.std.specs.Prelude.{◌≡◌, ◌+◌, ◌<◌, ◌^◌, IfOk, IfSome, OnSome, option_map};
ghost use Rattle.dd_geom.specs.Rect.{IsSize};
ghost use Rattle.dd_record.specs.Fitting.{FitsAfter, FitsSurface};
ghost use Rattle.dd_view.specs.Player.{open_mode};

use crate::screen::{Screen, Shown};
use dd_modes::Mode;
use dd_record::{Chunk, FrameChunk};
use std::alloc::{AllocError, Global};
use std::marker::Model;

/// The screen, where one was opened; how many frames there were; and what was shown after the frame
/// that is asked for.
#[derive(Debug, Drop)]
pub(crate) struct Played {
    screen: Option<Screen>,
    frames: u32,
    shown: Option<Shown>,
}

impl Model for Played {
    ghost use Rattle.dd_view.specs.Playing.{Played};

    ghost Value = { Played };

    ghost view = { λ p. record { screen = p.screen; frames = p.frames; shown = p.shown } };
}

impl Played {
    ghost use Rattle.dd_view.specs.Playing.{nothing_played, frame_played, frame_if, chunk_played};

    pub fn nothing() -> Played
        ensures { result ≡ nothing_played }
    {
        Played {
            screen: None,
            frames: 0,
            shown: None,
        }
    }

    /// The mode of the last opening chunk.
    pub fn mode(&self) -> Option<Mode>
        ensures value { result ≡ open_mode self.now }
        ensures size { IfSome result (λ m. IsSize m.width m.height) }
    {
        match &self.screen {
            None => None,
            Some(screen) => Some(screen.mode()),
        }
    }

    pub fn frames(&self) -> u32
        ensures { result ≡ self.now.frames }
    {
        self.frames
    }

    /// What was shown after the frame that is asked for.
    pub fn shown(&self) -> Option<&Shown>
        ensures { option_map (λ s. s.now) result ≡ self.now.shown }
    {
        self.shown.as_ref()
    }

    /// After a frame on a screen. Memory is taken for the frame that is asked for alone.
    fn frame(
        self,
        alloc: Global,
        asked: u32,
        frame: FrameChunk,
        screen: Screen,
    ) -> Result<Played, AllocError>
        requires few { self.frames + 1 < 2 ^ 32 }
        requires fits { FitsSurface screen.mode frame }
        ensures { IfOk result (λ p. p ≡ frame_played asked self frame screen) }
    {
        let screen = screen.framed(frame);
        let frames = self.frames + 1;
        if frames == asked {
            let shown = Some(screen.shown(alloc)?);
            let screen = Some(screen);
            return Ok(Played {
                screen,
                frames,
                shown,
            });
        }
        Ok(Played {
            screen: Some(screen),
            frames,
            shown: self.shown,
        })
    }

    /// After a frame, which is played where a screen was opened.
    fn after_frame(
        mut self,
        alloc: Global,
        asked: u32,
        frame: FrameChunk,
    ) -> Result<Played, AllocError>
        requires few { self.frames + 1 < 2 ^ 32 }
        requires fits { IfSome self.screen (λ s. FitsSurface s.mode frame) }
        ensures { IfOk result (λ p. p ≡ frame_if asked self frame self.screen) }
    {
        match self.screen.take() {
            None => Ok(self),
            Some(screen) => self.frame(alloc, asked, frame, screen),
        }
    }

    /// After one chunk more, which fits the screen.
    pub fn after(self, alloc: Global, asked: u32, chunk: Chunk) -> Result<Played, AllocError>
        requires few { self.frames + 1 < 2 ^ 32 }
        requires fits { FitsAfter (open_mode self) chunk }
        ensures { IfOk result (λ p. p ≡ chunk_played asked self chunk) }
    {
        match chunk {
            Chunk::Opening { mode } => {
                let screen = Some(Screen::open(alloc, mode)?);
                Ok(Played { screen, ..self })
            }
            Chunk::Frame(frame) => self.after_frame(alloc, asked, frame),
            Chunk::End => Ok(self),
        }
    }
}
