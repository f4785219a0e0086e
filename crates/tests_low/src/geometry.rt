//! Rectangles and moves, and the bytes that the API gives them, with answers from outside.

use dd_geom::{
    Move, Moves, Point, Rect, Rects, contains, intersect, move_bytes, move_of, rect_bytes, rect_of,
    shift,
};
use std::test::Fail;

macro_rules! rect {
    ($left:expr, $top:expr, $right:expr, $bottom:expr) => {
        Rect {
            left: $left,
            top: $top,
            right: $right,
            bottom: $bottom,
        }
    };
}

macro_rules! step {
    ($x:expr, $y:expr, $dest:expr) => {
        Move {
            source: Point { x: $x, y: $y },
            dest: $dest,
        }
    };
}

const FAR: Rect = rect!(i32::MIN, i32::MIN, i32::MAX, i32::MAX);

#[test]
fn rectangles_meet_and_shift(rt: HostRuntime) {
    let square = rect!(0, 0, 4, 4);
    assert_eq!(rt;
        intersect(square, rect!(2, 1, 6, 3)),
        Some(rect!(2, 1, 4, 3))
    );
    assert_eq!(rt; intersect(square, rect!(4, 0, 8, 4)), None);
    assert_eq!(rt; intersect(FAR, square), Some(square));
    assert_eq!(rt; shift(square, 10, -20), Some(rect!(10, -20, 14, -16)));
    assert_eq!(rt; shift(FAR, 0, 1), None);
    assert!(rt; contains(square, Point { x: 0, y: 3 }));
    assert!(rt; !contains(square, Point { x: 0, y: 4 }));
}

static RECTS: [(Rect, [u8; 16]); 2] = [
    (
        rect!(i32::MIN, -1, i32::MAX, 0x0102_0304),
        [
            0, 0, 0, 128, 255, 255, 255, 255, 255, 255, 255, 127, 4, 3, 2, 1,
        ],
    ),
    (
        rect!(-2, 256, 65536, -65536),
        [254, 255, 255, 255, 0, 1, 0, 0, 0, 0, 1, 0, 0, 0, 255, 255],
    ),
];

static MOVES: [(Move, [u8; 24]); 2] = [
    (
        step!(1, 1, rect!(0, 0, 2, 1)),
        [
            1, 0, 0, 0, 1, 0, 0, 0, 0, 0, 0, 0, 0, 0, 0, 0, 2, 0, 0, 0, 1, 0, 0, 0,
        ],
    ),
    (
        step!(i32::MIN, i32::MAX, rect!(1, -2, 3, 4)),
        [
            0, 0, 0, 128, 255, 255, 255, 127, 1, 0, 0, 0, 254, 255, 255, 255, 3, 0, 0, 0, 4, 0, 0,
            0,
        ],
    ),
];

#[test]
fn bytes_are_those_of_the_api(rt: HostRuntime) {
    for (r, bytes) in &RECTS {
        assert_eq!(rt; rect_bytes(*r), *bytes);
        assert_eq!(rt; rect_of(bytes), *r);
    }
    for (m, bytes) in &MOVES {
        assert_eq!(rt; move_bytes(*m), *bytes);
        assert_eq!(rt; move_of(bytes), *m);
    }
}

#[test]
fn lists_give_their_vectors_back(rt: HostRuntime) -> Result<(), Fail> {
    let rects = Rects::from_vec([FAR].to_vec(rt.alloc())?);
    assert_eq!(rt; rects.into_vec().as_slice(), [FAR].as_slice());
    let moves = Moves::from_vec([step!(2, 0, FAR)].to_vec(rt.alloc())?);
    assert_eq!(rt; moves.into_vec().as_slice(), [step!(2, 0, FAR)].as_slice());
    Ok(())
}
