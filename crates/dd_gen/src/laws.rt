//! What holds of the script of every seed: a law, with nothing to run.

ghost use Rattle.dd_gen.specs.EverySeed.{ScriptsAreMade};

/// The script of every seed has modes that an output may have, a list of at most 4,096 entries,
/// three clients and 1,180 steps: fills and scrolls that fit the screen, pointers on it, and calls
/// of its clients, none of which waits.
pub fn scripts_are_made()
    ensures { ScriptsAreMade }
{}
