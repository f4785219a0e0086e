//! What holds of the script of every seed where it is read and run.

ghost use Rattle.dd_playback.specs.MadeScripts.{MadeScriptsAreReadable, MadeScriptsAreRunnable, MadeScriptsAreRead, MadeScriptsAreGranted};

/// The script of every seed is among those whose own text is read as the script, and it can be run;
/// what `gen` writes is read by `replay` and `record` as that very script.
#[tactic(auto, using(crate::proofs::MadeReadable::made_readable, crate::proofs::MadeReadable::made_runnable, crate::proofs::MadeReadable::made_read))]
pub fn made_scripts_are_readable()
    ensures readable { MadeScriptsAreReadable }
    ensures runnable { MadeScriptsAreRunnable }
    ensures read { MadeScriptsAreRead }
{}

/// No step of the script of a seed is refused, and its list has 406 entries in the end: three
/// openings, 300 presents, 100 pointers and three closings.
pub fn made_scripts_are_granted()
    ensures { MadeScriptsAreGranted }
{}
