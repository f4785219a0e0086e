//! The words of the program.

ghost use Rattle.std.specs.Prelude.{◌≡◌, ◌<◌, ◌≤◌, IfSome};

use crate::setting::MAX_DRAWINGS;
use dd_board::MAX_SEATS;
use std::fmt;

/// What is measured.
#[derive(Clone, Copy, Debug, PartialEq, Eq)]
pub enum Kind {
    /// Looks by clients of a board.
    Look,
    /// The same looks at a list under a lock.
    Lock,
    /// Drawings on a board.
    Draw,
}

/// What is measured, and how often it is done.
#[derive(Clone, Copy, Debug, PartialEq, Eq)]
pub struct Task {
    pub kind: Kind,
    /// How many clients there are, beside one drawer.
    pub clients: u32,
    /// How many looks each client makes, or how many drawings the drawer.
    pub calls: u32,
}

impl fmt::Display for Task {
    fn fmt<W: fmt::Write>(&self, f: &mut fmt::Formatter<W>) -> fmt::Result {
        let kind = match self.kind {
            Kind::Look => "look",
            Kind::Lock => "lock",
            Kind::Draw => "draw",
        };
        write!(f, "{kind} {} {}", self.clients, self.calls)
    }
}

/// The kind of a word.
fn kind_of(word: &str) -> Option<Kind> {
    match word {
        "look" => Some(Kind::Look),
        "lock" => Some(Kind::Lock),
        "draw" => Some(Kind::Draw),
        _ => None,
    }
}

/// How many clients there are, at most 31, and how many calls.
fn numbers_of(clients: &str, calls: &str, most: u32) -> Option<(u32, u32)>
    ensures clients { IfSome result (λ pair. pair.0 < MAX_SEATS) }
    ensures calls { IfSome result (λ pair. pair.1 ≤ most) }
{
    let clients: u32 = clients.parse().ok()?;
    let calls: u32 = calls.parse().ok()?;
    if clients as usize >= MAX_SEATS || calls > most {
        return None;
    }
    Some((clients, calls))
}

/// The task of the words after the program's name: a kind, how many clients there are, at most 31,
/// and how many calls, of drawings at most 1,000,000.
pub fn task_of(words: &[String]) -> Option<Task>
    ensures clients { IfSome result (λ task. task.clients < MAX_SEATS) }
    ensures drawings { IfSome result (λ task. task.kind ≡ Kind.Draw → task.calls ≤ MAX_DRAWINGS) }
{
    let [_name, kind, clients, calls] = words else {
        return None;
    };
    let kind = kind_of(kind.as_str())?;
    let most = match kind {
        Kind::Look | Kind::Lock => u32::MAX,
        Kind::Draw => MAX_DRAWINGS,
    };
    let (clients, calls) = numbers_of(clients.as_str(), calls.as_str(), most)?;
    Some(Task {
        kind,
        clients,
        calls,
    })
}

/// How many clients and calls a check has, whose words are `check` and these two numbers.
pub fn check_of(words: &[String]) -> Option<(u32, u32)>
    ensures clients { IfSome result (λ pair. pair.0 < MAX_SEATS) }
    ensures calls { IfSome result (λ pair. pair.1 ≤ MAX_DRAWINGS) }
{
    let [_name, kind, clients, calls] = words else {
        return None;
    };
    if kind.as_str() != "check" {
        return None;
    }
    numbers_of(clients.as_str(), calls.as_str(), MAX_DRAWINGS)
}
