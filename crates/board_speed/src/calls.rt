//! The calls of a board, one after another, so that each refusal comes once and no call waits.

ghost use Rattle.std.specs.Prelude.{◌≡◌, length};

use crate::setting::{fill, roles, spec_of, too_wide};
use anyhow::{Context, bail};
use dd_board::{Board, Call, LookAnswer, Named, Screen, Seat, Unnamed};
use dd_calls::Answer;
use dd_log::{Draw, LogRefusal};
use std::alloc::{AllocError, Global};
use std::fmt;
use std::marker::Brand;
use std::sync::Wait;
use std::sync::ledger::Blank;

/// How many clients there are. Client N has the seat and the application of number N.
const CLIENTS: u32 = 5;

/// How many entries the list may have, the one kept for its end included.
const CAPACITY: u32 = 10;

/// The application that may duplicate a secure desktop.
const PRIVILEGED: u32 = 5;

/// What is drawn.
#[derive(Clone, Copy)]
enum Picture {
    Fill,
    /// Its operation 1 leaves the screen.
    TooWide,
    /// A mode that the output hasn't.
    NoMode,
    /// The secure desktop.
    Secure,
}

/// A call, of the client of this number where it is a client's.
#[derive(Clone, Copy)]
enum Deed {
    Draw(Picture),
    Duplicate(usize),
    Close(usize),
    Look(usize, Call),
    Tell(u64),
    End(u64),
}

/// A call's name in the output, its step, where its actor has one, and the call.
struct Row(&'static str, u32, Deed);

/// The calls. A step is more than that of the actor's entry before, by however much.
const ROWS: [Row; 33] = [
    Row("a list of at least 0 entries", 0, Deed::Tell(0)),
    Row(
        "a look without a duplicator",
        0,
        Deed::Look(1, Call::Acquire),
    ),
    Row("a close without a duplicator", 4, Deed::Close(1)),
    Row("a mode that isn't there", 5, Deed::Draw(Picture::NoMode)),
    Row("a fill too wide", 5, Deed::Draw(Picture::TooWide)),
    Row("a fill", 5, Deed::Draw(Picture::Fill)),
    Row("client 1 duplicates", 1, Deed::Duplicate(1)),
    Row("client 2 duplicates", 7, Deed::Duplicate(2)),
    Row("client 3 duplicates", 1000, Deed::Duplicate(3)),
    Row("client 4 duplicates", u32::MAX, Deed::Duplicate(4)),
    Row("client 5 duplicates", 1, Deed::Duplicate(5)),
    Row("client 1 duplicates again", 9, Deed::Duplicate(1)),
    Row(
        "a release before an acquire",
        0,
        Deed::Look(1, Call::Release),
    ),
    Row("an acquire", 0, Deed::Look(1, Call::Acquire)),
    Row(
        "an acquire of a second frame",
        0,
        Deed::Look(1, Call::Acquire),
    ),
    Row("the rectangles without room", 0, Deed::Look(1, Call::Dirty)),
    Row("the moves", 0, Deed::Look(1, Call::Moves)),
    Row("a release", 0, Deed::Look(1, Call::Release)),
    Row("an acquire of nothing new", 0, Deed::Look(1, Call::Acquire)),
    Row("the secure desktop", 900, Deed::Draw(Picture::Secure)),
    Row(
        "an acquire on the secure desktop",
        0,
        Deed::Look(1, Call::Acquire),
    ),
    Row(
        "client 1 duplicates the secure desktop",
        9,
        Deed::Duplicate(1),
    ),
    Row("client 2 closes", 8, Deed::Close(2)),
    Row(
        "client 5 duplicates the secure desktop",
        2,
        Deed::Duplicate(5),
    ),
    Row("client 5 closes", 6, Deed::Close(5)),
    Row("client 5 duplicates on a full list", 7, Deed::Duplicate(5)),
    Row("client 1 closes on a full list", 30, Deed::Close(1)),
    Row("a fill on a full list", 901, Deed::Draw(Picture::Fill)),
    Row("the end", 0, Deed::End(9)),
    Row("the end again", 0, Deed::End(0)),
    Row("a fill behind the end", 5000, Deed::Draw(Picture::Fill)),
    Row("client 5 duplicates behind the end", 7, Deed::Duplicate(5)),
    Row("client 1 closes behind the end", 30, Deed::Close(1)),
];

/// What a call is answered, and how many entries stood before it, where it tells that.
#[derive(Drop)]
enum Outcome {
    Drawn(u64, Result<(), LogRefusal>),
    Tried(u64, Answer),
    Looked(u64, LookAnswer),
    /// The told list has so many entries.
    Told(u64),
}

/// A client's answer to an opening or a closing.
fn write_tried<W: fmt::Write>(answer: &Answer, f: &mut fmt::Formatter<W>) -> fmt::Result {
    match answer {
        Answer::Opened { entry, slot } => write!(f, "entry {entry}, slot {slot}"),
        Answer::NotOpened(cause) => write!(f, "{cause}"),
        Answer::Closed { entry } => write!(f, "entry {entry}"),
        Answer::NotClosed(cause) => write!(f, "{cause}"),
        _ => write!(f, "another answer"),
    }
}

/// The answer to a look.
fn write_looked<W: fmt::Write>(answer: LookAnswer, f: &mut fmt::Formatter<W>) -> fmt::Result {
    match answer {
        LookAnswer::Frame(info) => write!(f, "a frame, presents: {}", info.accumulated),
        LookAnswer::Released => write!(f, "released"),
        LookAnswer::Size(size) => write!(f, "{size} bytes"),
        LookAnswer::Refused(cause) => write!(f, "{cause}"),
        LookAnswer::NoDuplicator => write!(f, "no duplicator"),
        LookAnswer::NotEntered => write!(f, "not let in"),
    }
}

impl fmt::Display for Outcome {
    fn fmt<W: fmt::Write>(&self, f: &mut fmt::Formatter<W>) -> fmt::Result {
        match self {
            Outcome::Drawn(place, Ok(())) => write!(f, "behind {place}, drawn"),
            Outcome::Drawn(place, Err(cause)) => write!(f, "behind {place}, {cause}"),
            Outcome::Tried(place, answer) => {
                write!(f, "behind {place}, ")?;
                write_tried(answer, f)
            }
            Outcome::Looked(place, answer) => {
                write!(f, "behind {place}, ")?;
                write_looked(*answer, f)
            }
            Outcome::Told(front) => write!(f, "{front} entries"),
        }
    }
}

/// A drawing.
fn drawing(alloc: Global, picture: Picture) -> Result<Draw, AllocError> {
    match picture {
        Picture::Fill => fill(alloc),
        Picture::TooWide => too_wide(alloc),
        Picture::NoMode => Ok(Draw::Mode { index: 1 }),
        Picture::Secure => Ok(Draw::Switch { secure: true }),
    }
}

/// Makes a call on a board whose first seat draws and whose others are the clients.
fn outcome_of<L: Named, R: Wait>(
    rt: &R,
    alloc: Global,
    screen: &Screen<L>,
    seats: &mut [Seat<L>],
    step: u32,
    deed: Deed,
) -> anyhow::Result<Outcome> {
    let number = match deed {
        Deed::Duplicate(client) | Deed::Close(client) | Deed::Look(client, _) => client,
        Deed::Draw(_) | Deed::Tell(_) | Deed::End(_) => 0,
    };
    let seat = seats.get_mut(number).context("there is no such seat")?;
    match (deed, seat) {
        (Deed::Draw(picture), Seat::Drawer(actor)) => {
            let drawn = screen.draw(rt, actor, step, drawing(alloc, picture)?)?;
            Ok(Outcome::Drawn(drawn.place, drawn.answer))
        }
        (Deed::Duplicate(_), Seat::Client(client)) => {
            let tried = client.duplicate(rt, alloc, screen, step)?;
            Ok(Outcome::Tried(tried.place, tried.answer))
        }
        (Deed::Close(_), Seat::Client(client)) => {
            let tried = client.close(rt, screen, step)?;
            Ok(Outcome::Tried(tried.place, tried.answer))
        }
        (Deed::Look(_, call), Seat::Client(client)) => {
            client.learn(rt, screen.tell(rt, 0));
            let looked = client.look(call, &mut []);
            Ok(Outcome::Looked(looked.place, looked.answer))
        }
        (Deed::Tell(at_least), _) => Ok(Outcome::Told(screen.tell(rt, at_least).front())),
        (Deed::End(at_least), _) => Ok(Outcome::Told(screen.end(rt, at_least)?.front())),
        _ => bail!("the seat has another role"),
    }
}

/// A line for each call.
fn rows_of<L: Named, R: Wait>(
    rt: &R,
    alloc: Global,
    screen: &Screen<L>,
    seats: &mut [Seat<L>],
) -> anyhow::Result<Vec<String>> {
    let mut lines = Vec::new(alloc);
    for Row(name, step, deed) in ROWS.iter() {
        let outcome = outcome_of(rt, alloc, screen, seats, *step, *deed)?;
        lines.push(format!(in alloc; "{name}: {outcome}")?)?;
    }
    Ok(lines)
}

/// Names a board, makes the calls on it, and ends its screen.
fn calls_of<L: Named, R: Wait>(
    rt: &R,
    alloc: Global,
    unnamed: Unnamed,
) -> anyhow::Result<Vec<String>>
    requires ledger { unnamed.ledger ≡ L.name }
    requires parts { unnamed.parts ≡ L.parts }
    requires book { unnamed.book ≡ L.book }
    requires spec { unnamed.spec ≡ L.spec }
{
    let Board { screen, mut seats } = unnamed.named::<R, L>(rt)?;
    let lines = rows_of(rt, alloc, &screen, seats.as_mut_slice());
    screen.finish(rt);
    lines
}

/// How long the list of a fresh board is, which hasn't ended.
fn length_of<L: Named, R: Wait>(rt: &R, unnamed: Unnamed) -> anyhow::Result<u64>
    requires ledger { unnamed.ledger ≡ L.name }
    requires parts { unnamed.parts ≡ L.parts }
    requires book { unnamed.book ≡ L.book }
    requires spec { unnamed.spec ≡ L.spec }
{
    let Board { screen, seats } = unnamed.named::<R, L>(rt)?;
    let listed = screen.list(rt, seats);
    screen.finish(rt);
    Ok(listed?.log.len())
}

/// The parts of a board.
fn start<R: Wait>(rt: &R, alloc: Global) -> anyhow::Result<Unnamed> {
    let roles = roles(alloc, 1, CLIENTS)?;
    let blank = Blank::new(roles.len() as u64);
    let spec = spec_of(alloc, CAPACITY, &[PRIVILEGED])?;
    Ok(Board::<Brand>::start(rt, alloc, blank, spec, roles.as_slice())?)
}

/// A line for each call on a board, and one of a list without an end.
pub fn run<R: Wait>(rt: &R, alloc: Global) -> anyhow::Result<Vec<String>> {
    let mut lines = calls_of::<Brand, R>(rt, alloc, start(rt, alloc)?)?;
    let length = length_of::<Brand, R>(rt, start(rt, alloc)?)?;
    lines.push(format!(in alloc; "the list of a fresh board: {length} entries")?)?;
    Ok(lines)
}
