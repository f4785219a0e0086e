//! What holds of whole lists of steps: laws, with nothing to run.

ghost use Rattle.dd_trace.specs.Entered.{ListIsTold};
ghost use Rattle.dd_trace.specs.Headline.{HeadlineHolds};
ghost use Rattle.dd_trace.specs.Independence.{ClientsAreIndependent};
ghost use Rattle.dd_trace.specs.Trace.{TraceIsTheRun};
ghost use Rattle.dd_trace.specs.Veil.{HiddenContent};

/// Clients are independent: without any of the steps of others that enter nothing, each answer to a
/// client is the same, and so is the list, but for the numbers of steps.
pub fn clients_are_independent()
    ensures { ClientsAreIndependent }
{}

/// Nothing of what covers hide reaches an answer: where they hide colours, a script is answered as the
/// one in which they hide black.
pub fn hidden_content()
    ensures { HiddenContent }
{}

/// Of each step of each script: its list has what the answers before it told, and is a beginning of the
/// one list; it is refused exactly where a written cause stands, and by the first in order, and else is
/// given what it asks for; a frame counts the presents since its duplicator's frame before, and rebuilds
/// what is seen of the list then from what was seen before; what it enters is the list's next entry.
pub fn headline()
    ensures { HeadlineHolds }
{}

/// The answers in the trace of a script are those of its run.
pub fn trace_is_the_run()
    ensures { TraceIsTheRun }
{}

/// The one list of a script has the entries that its answers told, in their order, and no other.
pub fn list_is_told()
    ensures { ListIsTold }
{}
