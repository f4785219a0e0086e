//! An acquire: whether anything is new, what it is, and the frame of it.

ghost use Rattle.std.specs.Prelude.{◌≡◌, ◌≤◌, Ok, IsTrue, IfOk, OnOk, false};
ghost use Rattle.dd_meta.specs.declared.buffer.TheConstants.{MAX_METADATA};

use super::Dup;
use crate::forward::draw_entries;
use crate::frame::{News, PictureNews, frame_of};
use crate::news::{point, tell};
use dd_calls::{DupRefusal, FrameInfo};
use dd_log::Log;
use std::alloc::AllocError;

impl Dup {
    ghost use Rattle.dd_log.specs.History.{legal, any_begins};
    ghost use Rattle.dd_dup.specs.News.{news, news_since, frame, picture_since};
    ghost use Rattle.dd_dup.specs.Reply.{granted, is_new, Answers};
    ghost use Rattle.dd_dup.specs.Duplicator.{holding, IsRefused};
    ghost use Rattle.dd_dup.specs.Acquiring.{Acquires};
    ghost use Rattle.dd_dup.specs.Stands.{Stands};

    /// What is new of the picture.
    fn news_of_picture(&self, log: &Log) -> Result<PictureNews, AllocError>
        requires stands { Stands self.now log.now }
        requires begins { any_begins (news log.now self.now.memory.mark) ≡ false }
        ensures { IfOk result (λ n. n ≡ picture_since log.now self.now.memory.mark) }
    {
        let entries = log.after(self.mark);
        let last_present = log.last_present(self.mark);
        tell(self.alloc, log.mode(), &self.hidden, last_present, entries)
    }

    /// Whether there is a present since the mark, or the pointer or its shape was set since the
    /// pointer mark.
    pub fn has_news(&self, log: &Log) -> bool
        ensures { result ≡ is_new self.now.memory log.now }
    {
        log.presented_since(self.mark) | log.pointed_since(self.pointer_mark)
    }

    /// Why an acquire is refused, where it is. It takes no memory.
    pub(crate) fn check_new(&self, log: &Log) -> Result<(), DupRefusal>
        requires { Stands self.now log.now }
        ensures answer { result ≡ granted self.now.memory log.now tt }
        ensures begins { OnOk result (any_begins (news log.now self.now.memory.mark) ≡ false) }
    {
        if self.is_lost(log) {
            return Err(DupRefusal::AccessLost);
        }
        if self.held.is_some() {
            return Err(DupRefusal::InvalidCall);
        }
        if !self.has_news(log) {
            return Err(DupRefusal::WaitTimeout);
        }
        Ok(())
    }

    /// What is new. It takes all memory that an acquire takes.
    pub(crate) fn gather(&self, log: &Log) -> Result<News, AllocError>
        requires stands { Stands self.now log.now }
        requires begins { any_begins (news log.now self.now.memory.mark) ≡ false }
        ensures { IfOk result (λ n. n ≡ news_since log.now self.now.memory.mark self.now.memory.pointer_mark) }
    {
        let picture = self.news_of_picture(log)?;
        let pointer = point(log, self.pointer_mark)?;
        Ok(News { picture, pointer })
    }

    /// Takes the frame of what is new.
    fn take(&mut self, log: &Log, next: News) -> FrameInfo
        requires stands { Stands self.old log.now }
        requires begins { any_begins (news log.now self.old.memory.mark) ≡ false }
        requires next { next ≡ news_since log.now self.old.memory.mark self.old.memory.pointer_mark }
        ensures info { result ≡ (frame log.now self.old.memory.mark self.old.memory.pointer_mark).info }
        ensures short { result.meta_size ≤ MAX_METADATA }
        ensures held { self.new ≡ holding self.old log.now }
        ensures legal { IsTrue (legal log.now) }
    {
        let entries = log.after(self.mark);
        draw_entries(&mut self.surface, entries);
        let (frame, hidden) = frame_of(next);
        let info = frame.info;
        self.folded += entries.len() as u64;
        self.hidden = hidden;
        self.mark = log.len();
        self.pointer_mark = self.mark;
        self.held = Some(frame);
        info
    }

    /// Holds the frame of what `gather` gave, with the surface brought forward, and says what the
    /// frame tells. It takes no memory.
    pub(crate) fn hold(&mut self, log: &Log, next: News) -> FrameInfo
        requires stands { Stands self.old log.now }
        requires next { granted self.old.memory log.now
            (news_since log.now self.old.memory.mark self.old.memory.pointer_mark) ≡ Ok next }
        ensures info { result ≡ (frame log.now self.old.memory.mark self.old.memory.pointer_mark).info }
        ensures short { result.meta_size ≤ MAX_METADATA }
        ensures held { self.new ≡ holding self.old log.now }
        ensures stands_still { Stands self.new log.now }
        ensures acquired { Acquires self.old self.new log.now }
    {
        self.take(log, next)
    }

    /// Acquires a frame where nothing refuses it.
    ///
    /// A call of its own, since what is new has its room on the stack: a refused acquire doesn't clear it.
    #[inline(never)]
    fn acquire_new(&mut self, log: &Log) -> Result<FrameInfo, DupRefusal>
        requires stands { Stands self.old log.now }
        requires begins { any_begins (news log.now self.old.memory.mark) ≡ false }
        requires granted { granted self.old.memory log.now (tt {0}) ≡ Ok tt }
        ensures answer { Answers result self.old.memory self.new.memory log.now }
        ensures refused { IsRefused result self.old self.new }
        ensures stands { Stands self.new log.now }
        ensures short { IfOk result (λ info. info.meta_size ≤ MAX_METADATA) }
        ensures acquired { OnOk result (Acquires self.old self.new log.now) }
    {
        let next = self.gather(log)?;
        Ok(self.hold(log, next))
    }

    /// Acquires a frame of what is new (AcquireNextFrame).
    ///
    /// A duplicator that is lost is AccessLost, and from then on holds no frame; a frame that is held is
    /// InvalidCall; no present since the mark, and no pointer or shape since the pointer mark, is
    /// WaitTimeout. No other refusal changes anything, nor does want of memory. A frame's metadata has
    /// at most 1,408 bytes.
    pub fn acquire(&mut self, log: &Log) -> Result<FrameInfo, DupRefusal>
        requires { Stands self.old log.now }
        ensures answer { Answers result self.old.memory self.new.memory log.now }
        ensures refused { IsRefused result self.old self.new }
        ensures stands { Stands self.new log.now }
        ensures short { IfOk result (λ info. info.meta_size ≤ MAX_METADATA) }
        // The surface is what is seen of the desk, and the frame rebuilds it from the one before. Its
        // dirt, where it wasn't rounded, is where something was drawn or scrolled to, and exactly what
        // all effects since the mark together draw afresh. Nothing of what covers hide is in them.
        ensures acquired { OnOk result (Acquires self.old self.new log.now) }
    {
        match self.check_new(log) {
            Ok(()) => self.acquire_new(log),
            Err(cause) => {
                self.refuse(log, cause);
                Err(cause)
            }
        }
    }
}
