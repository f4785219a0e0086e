//! What is written of a script is read as that script: its tree, and its text.

ghost use Rattle.std.specs.Prelude.{◌≡◌, IsTrue, Some};
ghost use Rattle.serde_json.specs.Data.{Data};
ghost use Rattle.dd_calls.specs.declared.steps.Script as scripts;
ghost use Rattle.dd_script_read.specs.Script.{script_of};
ghost use Rattle.dd_script_read.specs.Readable.{is_readable};
ghost use Rattle.dd_script_laws.specs.ReadBack.{IsReadBack, ScriptsReadBack, ScriptsReadBackUnended};

/// A script's own tree is read as that script, for each script that some tree is; and these are
/// the readable ones.
#[tactic(auto, using(crate::proofs::InRange::is_read, crate::proofs::ReadBack::script_back, crate::proofs::ReadBack::read_back))]
pub fn reading_undoes_spelling()
    ensures undone { (d : Data) (s : scripts.Script) → script_of d ≡ Some s → IsReadBack s }
    ensures readable { (d : Data) (s : scripts.Script) → script_of d ≡ Some s → IsTrue (is_readable s) }
    ensures own_tree { (s : scripts.Script) → IsTrue (is_readable s) → IsReadBack s }
{}

/// Writing and reading are inverse: the line of each script that some text is, with its line feed
/// and without it, is the text of that very script.
#[tactic(auto, using(crate::proofs::LineBack::scripts_read_back, crate::proofs::LineBack::unended_scripts_read_back))]
pub fn scripts_read_back()
    ensures line { ScriptsReadBack }
    ensures unended { ScriptsReadBackUnended }
{}
