//! Sets of points that commands make: each kind of area leaves the same list, drawn by hand.

use dd_bits::{AreaCommand, AreaCommands, Plane, area_run};
use dd_geom::{Move, Point, Rect};
use dd_region::Bands;
use std::test::Fail;

macro_rules! rect {
    ($left:expr, $top:expr, $right:expr, $bottom:expr) => {
        Rect {
            left: $left,
            top: $top,
            right: $right,
            bottom: $bottom,
        }
    };
}

macro_rules! add {
    ($left:expr, $top:expr, $right:expr, $bottom:expr) => {
        AreaCommand::Add(rect!($left, $top, $right, $bottom))
    };
}

macro_rules! carry {
    ($x:expr, $y:expr, $dest:expr) => {
        AreaCommand::MoveOver(Move {
            source: Point { x: $x, y: $y },
            dest: $dest,
        })
    };
}

/// The commands on 6 by 4 points, and the list that they leave.
struct Case {
    name: &'static str,
    commands: &'static [AreaCommand],
    list: &'static [Rect],
}

static CASES: [Case; 6] = [
    Case {
        name: "nothing",
        commands: &[],
        list: &[],
    },
    Case {
        name: "three columns, the last one longer",
        commands: &[add!(4, 0, 5, 3), add!(0, 0, 1, 2), add!(2, 0, 3, 2)],
        list: &[
            rect!(0, 0, 1, 2),
            rect!(2, 0, 3, 2),
            rect!(4, 0, 5, 2),
            rect!(4, 2, 5, 3),
        ],
    },
    Case {
        name: "a hole",
        commands: &[add!(0, 0, 6, 4), AreaCommand::Remove(rect!(1, 1, 5, 3))],
        list: &[
            rect!(0, 0, 6, 1),
            rect!(0, 1, 1, 3),
            rect!(5, 1, 6, 3),
            rect!(0, 3, 6, 4),
        ],
    },
    Case {
        name: "carried one row down, over itself",
        commands: &[
            add!(0, 0, 1, 1),
            add!(2, 1, 3, 2),
            carry!(0, 0, rect!(0, 1, 3, 4)),
        ],
        list: &[rect!(0, 0, 1, 2), rect!(2, 2, 3, 3)],
    },
    Case {
        name: "tiles that both sides cut",
        commands: &[add!(5, 3, 6, 4), AreaCommand::Tiles(5)],
        list: &[rect!(5, 0, 6, 4)],
    },
    Case {
        name: "tiles greater than the surface",
        commands: &[add!(3, 2, 4, 3), AreaCommand::Tiles(u32::MAX)],
        list: &[rect!(0, 0, 6, 4)],
    },
];

#[test]
fn commands_leave_their_lists(rt: HostRuntime) -> Result<(), Fail> {
    for case in &CASES {
        let commands = AreaCommands::from_vec(case.commands.to_vec(rt.alloc())?);
        assert!(rt; commands.fit(6, 4), "{}", case.name);
        let plane = area_run::<Plane>(rt.alloc(), 6, 4, &commands)?;
        assert_eq!(rt; plane.as_slice(), case.list, "{}, a plane", case.name);
        let bands = area_run::<Bands>(rt.alloc(), 6, 4, &commands)?;
        assert_eq!(rt; bands.as_slice(), case.list, "{}, bands", case.name);
    }
    Ok(())
}
