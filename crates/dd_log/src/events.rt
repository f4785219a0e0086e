//! The events of an output's list.

ghost use Rattle.std.specs.Prelude.{◌≡◌, IfOk, option_map};
ghost use Rattle.dd_log.specs.Events.{operations_of, present_of, pointer_given, pointer_in, shape_given, shape_in, is_pointing, draws_anew, begins_picture, loses, cuts_off, is_end};

use crate::lists::Apps;
use crate::pointer::Pointer;
use dd_geom::Point;
use dd_modes::Modes;
use dd_ops::Ops;
use dd_pointer::Shape;
use std::alloc::AllocError;

/// One past the greatest number of an actor.
pub const MAX_ACTORS: u32 = 64;

/// The most entries of a list.
pub const MAX_CAPACITY: u32 = 1_048_576;

/// The most applications that may duplicate a secure desktop.
pub const MAX_PRIVILEGED: usize = 16;

/// What an output is begun with.
#[derive(Debug, Drop)]
pub struct Spec {
    /// Its modes; it begins with the first.
    pub modes: Modes,
    /// How many entries the list may have in all, the one kept for its end included:
    /// 1 to 1,048,576.
    pub capacity: u32,
    /// The applications that may duplicate a secure desktop.
    pub privileged: Apps,
}

impl Spec {
    /// An equal one, on memory of its own.
    pub fn copy(&self) -> Result<Spec, AllocError>
        ensures { IfOk result (λ spec. spec ≡ self.now) }
    {
        Ok(Spec {
            modes: self.modes.copy()?,
            capacity: self.capacity,
            privileged: self.privileged.copy()?,
        })
    }
}

/// What drawing actors do.
#[derive(Debug, Drop)]
pub enum Draw {
    /// Draws 0 to 64 operations, in their order.
    Present(Ops),
    /// Moves the pointer, and shows or hides it.
    Pointer { position: Point, visible: bool },
    /// Gives the pointer this shape.
    Shape(Shape),
    /// Sets the mode, one of those of the spec, from 0, and begins a black picture.
    Mode { index: u32 },
    /// Goes to the secure desktop, or back from it, and begins a black picture.
    Switch { secure: bool },
    /// Disconnects the session.
    Disconnect,
    /// Connects the session again.
    Reconnect,
}

impl Draw {
    /// An equal drawing, on memory of its own.
    pub fn copy(&self) -> Result<Draw, AllocError>
        ensures { IfOk result (λ draw. draw ≡ self.now) }
    {
        match self {
            Draw::Present(ops) => Ok(Draw::Present(ops.copy()?)),
            Draw::Pointer { position, visible } => Ok(Draw::Pointer {
                position: *position,
                visible: *visible,
            }),
            Draw::Shape(shape) => Ok(Draw::Shape(shape.copy()?)),
            Draw::Mode { index } => Ok(Draw::Mode { index: *index }),
            Draw::Switch { secure } => Ok(Draw::Switch { secure: *secure }),
            Draw::Disconnect => Ok(Draw::Disconnect),
            Draw::Reconnect => Ok(Draw::Reconnect),
        }
    }

    /// The operations of a present; none for any other drawing.
    fn operations(&self) -> Option<&Ops>
        ensures { option_map (λ ops. ops.now) result ≡ operations_of self.now }
    {
        match self {
            Draw::Present(ops) => Some(ops),
            Draw::Pointer { .. }
            | Draw::Shape(_)
            | Draw::Mode { .. }
            | Draw::Switch { .. }
            | Draw::Disconnect
            | Draw::Reconnect => None,
        }
    }

    /// The pointer that it sets; none for any other drawing.
    fn pointer(&self) -> Option<Pointer>
        ensures { result ≡ pointer_given self.now }
    {
        match self {
            Draw::Pointer { position, visible } => Some(Pointer {
                position: *position,
                visible: *visible,
            }),
            Draw::Present(_)
            | Draw::Shape(_)
            | Draw::Mode { .. }
            | Draw::Switch { .. }
            | Draw::Disconnect
            | Draw::Reconnect => None,
        }
    }

    /// The shape that it gives the pointer; none for any other drawing.
    fn shape(&self) -> Option<&Shape>
        ensures { option_map (λ shape. shape.now) result ≡ shape_given self.now }
    {
        match self {
            Draw::Shape(shape) => Some(shape),
            Draw::Present(_)
            | Draw::Pointer { .. }
            | Draw::Mode { .. }
            | Draw::Switch { .. }
            | Draw::Disconnect
            | Draw::Reconnect => None,
        }
    }

    /// Whether it begins a black picture.
    fn draws_anew(&self) -> bool
        ensures { result ≡ draws_anew self.now }
    {
        match self {
            Draw::Mode { .. } | Draw::Switch { .. } => true,
            Draw::Present(_)
            | Draw::Pointer { .. }
            | Draw::Shape(_)
            | Draw::Disconnect
            | Draw::Reconnect => false,
        }
    }

    /// Whether duplicators that were opened before it are lost.
    fn loses(&self) -> bool
        ensures { result ≡ loses self.now }
    {
        match self {
            Draw::Mode { .. } | Draw::Switch { .. } | Draw::Disconnect => true,
            Draw::Present(_) | Draw::Pointer { .. } | Draw::Shape(_) | Draw::Reconnect => false,
        }
    }
}

/// One event of the list.
#[derive(Debug, Drop)]
pub enum Event {
    Draw(Draw),
    /// A duplicator was opened in a slot, 0 to 3, for an application.
    Opened { slot: u32, app: u32 },
    /// The duplicator in a slot, 0 to 3, was closed.
    Closed { slot: u32 },
    /// The list has ended.
    End,
}

impl Event {
    /// An equal event, on memory of its own.
    pub fn copy(&self) -> Result<Event, AllocError>
        ensures { IfOk result (λ event. event ≡ self.now) }
    {
        match self {
            Event::Draw(draw) => Ok(Event::Draw(draw.copy()?)),
            Event::Opened { slot, app } => Ok(Event::Opened {
                slot: *slot,
                app: *app,
            }),
            Event::Closed { slot } => Ok(Event::Closed { slot: *slot }),
            Event::End => Ok(Event::End),
        }
    }

    /// The operations of a present; none for any other event.
    pub fn present(&self) -> Option<&Ops>
        ensures { option_map (λ ops. ops.now) result ≡ present_of self.now }
    {
        match self {
            Event::Draw(draw) => draw.operations(),
            Event::Opened { .. } | Event::Closed { .. } | Event::End => None,
        }
    }

    /// The pointer that it sets; none for any other event.
    pub fn pointer(&self) -> Option<Pointer>
        ensures { result ≡ pointer_in self.now }
    {
        match self {
            Event::Draw(draw) => draw.pointer(),
            Event::Opened { .. } | Event::Closed { .. } | Event::End => None,
        }
    }

    /// The shape that it gives the pointer; none for any other event.
    pub fn shape(&self) -> Option<&Shape>
        ensures { option_map (λ shape. shape.now) result ≡ shape_in self.now }
    {
        match self {
            Event::Draw(draw) => draw.shape(),
            Event::Opened { .. } | Event::Closed { .. } | Event::End => None,
        }
    }

    /// Whether it sets the pointer or its shape.
    pub fn is_pointing(&self) -> bool
        ensures { result ≡ is_pointing self.now }
    {
        self.pointer().is_some() | self.shape().is_some()
    }

    /// Whether the desk has a black picture after it, in the mode that stands then.
    pub fn begins_picture(&self) -> bool
        ensures { result ≡ begins_picture self.now }
    {
        match self {
            Event::Draw(draw) => draw.draws_anew(),
            Event::Opened { .. } | Event::Closed { .. } | Event::End => false,
        }
    }

    /// Whether duplicators that were opened before it are lost.
    pub fn cuts_off(&self) -> bool
        ensures { result ≡ cuts_off self.now }
    {
        match self {
            Event::Draw(draw) => draw.loses(),
            Event::Opened { .. } | Event::Closed { .. } | Event::End => false,
        }
    }

    /// Whether the list has ended with it.
    pub fn is_end(&self) -> bool
        ensures { result ≡ is_end self.now }
    {
        match self {
            Event::End => true,
            Event::Draw(_) | Event::Opened { .. } | Event::Closed { .. } => false,
        }
    }
}

/// One entry of the list: whose step it is, and what happened.
#[derive(Debug, Drop)]
pub struct Entry {
    /// Below 64.
    pub actor: u32,
    /// Greater than each earlier step of the same actor, from 1.
    pub step: u32,
    pub event: Event,
}

impl Entry {
    /// An equal entry, on memory of its own.
    pub fn copy(&self) -> Result<Entry, AllocError>
        ensures { IfOk result (λ entry. entry ≡ self.now) }
    {
        Ok(Entry {
            actor: self.actor,
            step: self.step,
            event: self.event.copy()?,
        })
    }
}
