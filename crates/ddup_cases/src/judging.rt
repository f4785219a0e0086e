//! Whether a case went as it should.

ghost use Rattle.std.specs.Prelude.{◌≡◌, ◌↔◌};
ghost use Rattle.md5.specs.Md5.{md5};
ghost use Rattle.dd_prog.specs.Status.{line_of};

use dd_prog::Status;
use md5::{Digest, Md5};
use std::fmt;

/// How a case went.
#[derive(Clone, Copy, Debug, PartialEq, Eq)]
pub enum Verdict {
    /// The status is the one wanted, and so is each byte of the output, or the digest of all.
    AsWanted,
    /// The status is another.
    Ended(Status),
    /// The first byte of the output that is another stands at this place, from 0.
    Wrote(usize),
    /// The output has another digest.
    Digested,
}

impl fmt::Display for Verdict {
    fn fmt<W: fmt::Write>(&self, f: &mut fmt::Formatter<W>) -> fmt::Result {
        match self {
            Verdict::AsWanted => write!(f, "as wanted"),
            Verdict::Ended(status) => write!(f, "ended with {status:?}"),
            Verdict::Wrote(place) => write!(f, "other output from byte {place} on"),
            Verdict::Digested => write!(f, "output of another digest"),
        }
    }
}

/// The place of the first byte at which two outputs differ; the length of the shorter one where it
/// is a front of the other.
fn first_difference(got: &[u8], wanted: &[u8]) -> usize {
    let alike = got.iter().zip(wanted).take_while(|(x, y)| x == y);
    alike.count()
}

/// Compares how a run ended, told by the line of its status, and what it wrote with what was wanted.
pub fn judge(status: Status, wanted_line: &str, got: &[u8], wanted: &[u8]) -> Verdict
    ensures { (result ≡ Verdict.AsWanted)
        ↔ ((line_of status ≡ wanted_line.now) × (got.now ≡ wanted.now)) }
{
    if status.line() != wanted_line {
        Verdict::Ended(status)
    } else if got == wanted {
        Verdict::AsWanted
    } else {
        Verdict::Wrote(first_difference(got, wanted))
    }
}

/// Compares as `judge`, where the output is told by its digest, the bytes of its MD5.
pub fn judge_digest(status: Status, wanted_line: &str, got: &[u8], digest: &[u8]) -> Verdict
    ensures { (result ≡ Verdict.AsWanted)
        ↔ ((line_of status ≡ wanted_line.now) × (md5 got.now ≡ digest.now)) }
{
    if status.line() != wanted_line {
        return Verdict::Ended(status);
    }
    let made = Md5::digest(got);
    if made.as_slice() == digest {
        Verdict::AsWanted
    } else {
        Verdict::Digested
    }
}
