//! The end of the list.

ghost use Rattle.std.specs.Prelude.{◌≡◌};
ghost use Rattle.dd_log.specs.History.{before_end as ends_after};
ghost use Rattle.dd_board.specs.Press.{IsEnding};

use crate::named::Named;
use crate::painter::{Painter, PainterOf};
use crate::press::Printed;
use dd_log::{Entry, Event, Log};
use std::sync::Wait;

/// How many entries stand before the end.
fn before_end(log: &Log) -> u64
    ensures { result ≡ ends_after log.now.entries }
{
    let len = log.len();
    if log.ended() { len - 1 } else { len }
}

impl<L: Named> Painter<L> {
    /// The list with its end; none where fewer entries stand before it than are asked.
    pub(crate) fn end<R: Wait>(
        self,
        rt: &R,
        seats: u32,
        at_least: u64,
    ) -> (Painter<L>, Option<Printed<L>>)
        requires { seats ≡ L.parts }
        ensures { IsEnding result.1 L.parts at_least self }
    {
        let _front = self.told().front();
        if before_end(self.log()) < at_least {
            return (self, None);
        }
        if self.log().ended() {
            let told = self.told().again();
            return (self, Some(Printed::Made(told)));
        }
        let entry = Entry {
            actor: seats,
            step: 1,
            event: Event::End,
        };
        let PainterOf { press, book } = self;
        let (press, printed) = press.print(rt, &entry);
        (PainterOf { press, book }, Some(printed))
    }
}
