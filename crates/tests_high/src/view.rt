//! A record whose bytes come one after another: what is kept of them, and the first fault.

ghost use Rattle.std.specs.Prelude.{◌≤◌, ◌^◌, length};

use dd_record::RecordFault;
use dd_record::RecordFault::{BadField, BadMagic, Truncated};
use dd_view::Player;
use std::alloc::Global;
use std::test::Fail;

/// A whole record: of a surface of two points the left one is filled with red.
static RECORD: [u8; 80] = [
    0x44, 0x44, 0x52, 0x31, //
    1, 2, 0, 0, 0, 1, 0, 0, 0, 1, 0, 0, 0, // 4: the opening chunk
    2, 2, 0, 0, 0, 0, 0, 0, 0, 0, 0, 0, 0, 0, 0, 0, 0, 1, 0, 0, 0, 0, 0, // 17: the frame chunk
    0, 0, 0, 0, 0, 0, 0, 0, 0, 16, 0, 0, 0, 0, 0, 0, 0, 0, 1, //
    0, 0, 0, 0, 0, 0, 0, 0, 1, 0, 0, 0, 1, 0, 0, 0, //
    0, 0, 255, 255, // 75: its pixel
    0, // 79: the End chunk
];

/// How many bytes of the record are kept once so many of them came, and how many frames there are.
static KEPT: [(usize, u64, u32); 9] = [
    (3, 3, 0),
    (4, 0, 0),
    (16, 12, 0),
    (17, 0, 0),
    (18, 1, 0),
    (75, 58, 0),
    (78, 61, 0),
    (79, 0, 1),
    (80, 0, 1),
];

/// A player of some bytes, which is asked for the first frame.
fn player_of(alloc: Global, bytes: &[u8]) -> Result<Player, RecordFault>
    requires { length bytes.now ≤ 2 ^ 30 }
{
    let mut player = Player::new(alloc, 1).map_err(|_| RecordFault::OutOfMemory)?;
    player.feed(bytes)?;
    Ok(player)
}

#[test]
fn bytes_that_are_kept(rt: HostRuntime) -> Result<(), Fail> {
    for (came, kept, frames) in &KEPT {
        let piece = RECORD.get(..*came).ok_or("past the record")?;
        let mut player = Player::new(rt.alloc(), 1)?;
        assert_eq!(rt; player.feed(piece), Ok(*frames));
        assert_eq!(rt; player.held(), *kept);
    }
    Ok(())
}

/// What is answered of bytes that come at once and end then: the fault, if there is one.
fn fault_of(alloc: Global, bytes: &[u8]) -> Option<RecordFault>
    requires { length bytes.now ≤ 2 ^ 30 }
{
    match player_of(alloc, bytes) {
        Ok(mut player) => player.finish().err(),
        Err(fault) => Some(fault),
    }
}

/// A byte of the record that is changed, and the fault then.
static FAULTS: [(usize, u8, RecordFault); 5] = [
    (0, 0x45, BadMagic),
    (3, 0x32, BadMagic),
    (4, 2, BadField { at: 4 }),
    (78, 254, BadField { at: 75 }),
    (79, 3, BadField { at: 79 }),
];

#[test]
fn one_byte_is_changed(rt: HostRuntime) -> Result<(), Fail> {
    assert_eq!(rt; fault_of(rt.alloc(), &RECORD), None);
    for (place, byte, fault) in &FAULTS {
        let mut bytes = RECORD;
        *bytes.get_mut(*place).ok_or("past the record")? = *byte;
        assert_eq!(rt; fault_of(rt.alloc(), &bytes), Some(*fault));
    }
    Ok(())
}

#[test]
fn the_first_fault_stays(rt: HostRuntime) -> Result<(), Fail> {
    let mut player = Player::new(rt.alloc(), 1)?;
    assert_eq!(rt; player.finish(), Err(Truncated { at: 0 }));
    assert_eq!(rt; player.feed(&RECORD), Ok(1));
    let behind = Err(BadField { at: 80 });
    assert_eq!(rt; player.feed(&[7]), behind);
    assert_eq!(rt; player.feed(&[7]), behind);
    Ok(())
}
