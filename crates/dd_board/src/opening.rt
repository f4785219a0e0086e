//! Openings and closings on the locked list.

ghost use Rattle.std.specs.Prelude.{◌≡◌, ◌↔◌, Some, IsTrue, IsOk, MatchOption};
ghost use Rattle.dd_log.specs.declared.events.Event.TheVariants.{Closed};
ghost use Rattle.dd_log.specs.Desk.{finds_slot};
ghost use Rattle.dd_log.specs.History.{desk};
ghost use Rattle.dd_table.specs.Opening.{opening, closing};
ghost use Rattle.dd_board.specs.Lists.{listed};
ghost use Rattle.dd_board.specs.Opening.{IsOpening, IsClosing};
ghost use Rattle.dd_board.specs.Wanting.{Fits, HasSlot, MayGrant, OnUnfit, OnWant};

use crate::actor::Actor;
use crate::holding::Holding;
use crate::named::Named;
use crate::painter::{Attempt, Painter, attempt_of};
use dd_calls::{CloseRefusal, OpenRefusal};
use dd_dup::Dup;
use dd_log::{Entry, Event};
use dd_table::{may_close, may_open};
use std::alloc::Global;
use std::sync::Wait;

impl<L: Named> Painter<L> {
    /// Opens a duplicator for a client's application.
    pub(crate) fn open<R: Wait>(
        self,
        rt: &R,
        alloc: Global,
        actor: &mut Actor<L>,
        app: u32,
        step: u32,
    ) -> (Painter<L>, Attempt<Result<Holding, OpenRefusal>>)
        ensures opening { IsOpening result.1 L.spec actor.old actor.new app step }
        ensures unfit { OnUnfit result.1 (Fits self actor.old step → ⊥) }
        ensures wants { OnWant result.1 (MayGrant L.spec L.parts actor.old step
            (λ h. IsOk (opening h app))) }
    {
        if !self.fits(actor, step) {
            return (self, Attempt::Unfit);
        }
        let place = self.told().front();
        let slot = match may_open(self.log(), app) {
            Ok(slot) => slot,
            Err(cause) => return self.refused(actor, place, Err(cause)),
        };
        let Ok(dup) = Dup::start(alloc, self.log(), place) else {
            return (self, Attempt::NoMemory);
        };
        let entry = Entry {
            actor: actor.number(),
            step,
            event: Event::Opened { slot, app },
        };
        let (painter, entering) = self.enter(rt, actor, &entry);
        (
            painter,
            attempt_of(entering, place, Ok(Holding { dup, slot })),
        )
    }

    /// Whether a slot, where there is one, is open for an application.
    fn has_slot(&self, app: u32, slot: Option<u32>) -> bool
        ensures value { IsTrue result ↔ HasSlot (listed L.spec self.now) slot app }
        ensures found { IsTrue result → MatchOption slot (Unit {0})
            (λ s. IsTrue (finds_slot (desk (listed L.spec self.now)).slots (Closed s))) }
    {
        match slot {
            None => true,
            Some(slot) => self.log().app_of(slot) == Some(app),
        }
    }

    /// Closes the duplicator of a client's application, where it has one.
    pub(crate) fn close<R: Wait>(
        self,
        rt: &R,
        actor: &mut Actor<L>,
        app: u32,
        slot: Option<u32>,
        step: u32,
    ) -> (Painter<L>, Attempt<Result<u32, CloseRefusal>>)
        ensures closing { IsClosing result.1 L.spec actor.old actor.new slot step }
        ensures unfit { OnUnfit result.1 (Fits self actor.old step × HasSlot (listed L.spec self) slot app → ⊥) }
        ensures wants { OnWant result.1 (MayGrant L.spec L.parts actor.old step
            (λ h. IsOk (closing h slot))) }
    {
        if !self.fits(actor, step) || !self.has_slot(app, slot) {
            return (self, Attempt::Unfit);
        }
        let place = self.told().front();
        let slot = match may_close(self.log(), slot) {
            Ok(slot) => slot,
            Err(cause) => return self.refused(actor, place, Err(cause)),
        };
        let entry = Entry {
            actor: actor.number(),
            step,
            event: Event::Closed { slot },
        };
        let (painter, entering) = self.enter(rt, actor, &entry);
        (painter, attempt_of(entering, place, Ok(slot)))
    }
}
