//! A client: it acquires a frame of what is new, and brings a picture of its own forward by it.

use crate::drawer::MODE;
use crate::picture::Picture;
use anyhow::{Context, bail};
use crossbeam_channel::{Receiver, Sender};
use dd_board::{Call, Client, LookAnswer, Named, Screen, Told};
use dd_calls::Answer;
use std::alloc::Global;
use std::fmt;
use std::sync::Wait;

/// What a client saw, and how many points it copied from surfaces.
#[derive(Clone, Copy, Debug, PartialEq, Eq)]
pub struct Seen {
    frames: usize,
    moves: usize,
    rects: usize,
    copied: usize,
}

impl fmt::Display for Seen {
    fn fmt<W: fmt::Write>(&self, f: &mut fmt::Formatter<W>) -> fmt::Result {
        let a_frame = MODE.width as usize * MODE.height as usize;
        let saved = self
            .frames
            .saturating_mul(a_frame)
            .saturating_sub(self.copied);
        write!(f, "{} frames, {} moves, ", self.frames, self.moves)?;
        write!(
            f,
            "{} rectangles; {} points copied, {saved} saved",
            self.rects, self.copied
        )
    }
}

/// Acquires a frame, brings the picture forward by it, and releases it.
fn look<L: Named>(
    client: &mut Client<L>,
    picture: &mut Picture,
    seen: Seen,
) -> anyhow::Result<Seen> {
    let LookAnswer::Frame(_info) = client.look(Call::Acquire, &mut []).answer else {
        bail!("there is no frame");
    };
    let dup = client.dup().context("there is no duplicator")?;
    let copied = picture.follow(dup)?;
    if !picture.is_like(dup.surface().context("no surface is lent")?) {
        bail!("the picture isn't the surface");
    }
    let seen = Seen {
        frames: seen.frames.saturating_add(1),
        moves: seen.moves.saturating_add(dup.move_list().len()),
        rects: seen.rects.saturating_add(dup.dirt_list().len()),
        copied: seen.copied.saturating_add(copied),
    };
    client.look(Call::Release, &mut []);
    Ok(seen)
}

/// Opens a duplicator, looks each time that the drawer tells of a step, and closes it.
pub fn view<L: Named, R: Wait>(
    rt: &R,
    alloc: Global,
    screen: &Screen<L>,
    client: Client<L>,
    told: Receiver<Told<L>>,
    looked: Sender<()>,
) -> anyhow::Result<Seen> {
    let mut client = client;
    let tried = client.duplicate(rt, alloc, screen, 1)?;
    let Answer::Opened { .. } = tried.answer else {
        bail!("no duplicator was opened");
    };
    let mut picture = Picture::new(alloc)?;
    let mut seen = Seen {
        frames: 0,
        moves: 0,
        rects: 0,
        copied: 0,
    };
    let _ = looked.send(rt, ());
    for told in told.iter(rt) {
        client.learn(rt, told); // the next look's list begins with what was told
        seen = look(&mut client, &mut picture, seen)?;
        let _ = looked.send(rt, ());
    }
    client.close(rt, screen, 2)?;
    Ok(seen)
}
