//! Commands that change a set of points, and the list of the set that they make.

ghost use Rattle.std.specs.Prelude.{◌≡◌, IsTrue, IfOk, OnOk};
ghost use Rattle.dd_geom.specs.Grid.{SameSize};
ghost use Rattle.dd_geom.specs.Rect.{IsSize};
ghost use Rattle.dd_bits.specs.CanonicalList.{canonical_list};
ghost use Rattle.dd_bits.specs.Commands.{obeyed, made_by, command_fits, commands_fit};

use crate::area::Area;
use dd_geom::{Move, Rect, Rects, move_inside, rect_inside};
use std::alloc::{AllocError, Global};
use std::marker::Model;

/// One change of a set of points.
#[derive(Clone, Copy, Debug)]
pub enum AreaCommand {
    /// Adds each point of the rectangle.
    Add(Rect),
    /// Takes out each point of the rectangle.
    Remove(Rect),
    /// Carries the set over by the move.
    MoveOver(Move),
    /// Rounds the set to tiles of this side.
    Tiles(u32),
}

/// Whether the rectangle or the move lies inside a surface of `w` by `h` points, and a tile has a
/// side of at least one point.
fn fits(command: AreaCommand, w: u32, h: u32) -> bool
    ensures { result ≡ command_fits w h command }
{
    match command {
        AreaCommand::Add(r) => rect_inside(r, w, h),
        AreaCommand::Remove(r) => rect_inside(r, w, h),
        AreaCommand::MoveOver(m) => move_inside(m, w, h),
        AreaCommand::Tiles(t) => 1 <= t,
    }
}

/// A list of commands.
#[derive(Debug, Drop)]
pub struct AreaCommands {
    items: Vec<AreaCommand>,
}

impl Model for AreaCommands {
    ghost use Rattle.std.specs.Prelude.{List};
    ghost use Rattle.dd_bits.specs.declared.commands.AreaCommand.{AreaCommand};

    ghost Value = { List AreaCommand };

    ghost view = { λ c. c.items.items };
}

impl AreaCommands {
    /// The commands of a vector, in its order and on its memory.
    pub fn from_vec(items: Vec<AreaCommand>) -> AreaCommands
        ensures { result ≡ items.items }
    {
        AreaCommands { items }
    }

    pub fn as_slice(&self) -> &[AreaCommand]
        ensures { result.now ≡ self.now }
    {
        self.items.as_slice()
    }

    /// Whether each may be given to a set of a surface of `w` by `h` points: its rectangle or move
    /// lies inside, and a tile has a side of at least one point.
    pub fn fit(&self, w: u32, h: u32) -> bool
        ensures { result ≡ commands_fit w h self.now }
    {
        self.as_slice().iter().all(|command| fits(*command, w, h))
    }
}

/// Changes a set by one command.
fn obey<A: Area>(area: &mut A, command: AreaCommand) -> Result<(), AllocError>
    requires { IsTrue (command_fits (A.points area.old).width (A.points area.old).height command) }
    ensures points { OnOk result (A.points area.new ≡ obeyed (A.points area.old) command) }
    ensures size { SameSize (A.points area.old) (A.points area.new) }
{
    match command {
        AreaCommand::Add(r) => area.add(r),
        AreaCommand::Remove(r) => area.remove(r),
        AreaCommand::MoveOver(m) => area.move_over(m),
        AreaCommand::Tiles(t) => area.tiles(t),
    }
}

/// The set that commands make from the empty one.
pub(crate) fn area_of<A: Area>(
    alloc: Global,
    w: u32,
    h: u32,
    commands: &[AreaCommand],
) -> Result<A, AllocError>
    requires size { IsSize w h }
    requires fit { IsTrue (commands_fit w h commands.now) }
    ensures { IfOk result (λ a. A.points a ≡ made_by w h commands.now) }
{
    let mut area = A::empty(alloc, w, h)?;
    for command in commands {
        obey(&mut area, *command)?;
    }
    Ok(area)
}

/// The canonical list of the set that commands make from the empty one of a surface of `w` by `h`
/// points. Each has to fit that surface.
pub fn area_run<A: Area>(
    alloc: Global,
    w: u32,
    h: u32,
    commands: &AreaCommands,
) -> Result<Rects, AllocError>
    requires size { IsSize w h }
    requires fit { IsTrue (commands_fit w h commands.now) }
    ensures { IfOk result (λ l. l ≡ canonical_list (made_by w h commands.now)) }
{
    let area: A = area_of(alloc, w, h, commands.as_slice())?;
    area.list()
}
