//! What the bodies of a spelled script keep. Nothing runs here: a function has no body, and a call of it
//! hands its laws to the caller's proof.

ghost use Rattle.std.specs.Prelude.{◌≡◌, ℕ, List};
ghost use Rattle.script_lang.specs.Words.{ScriptValue, spells};
ghost use Rattle.script_lang.specs.Types.{Line};
ghost use Rattle.spec_requests.specs.Sound.{IsSound};
ghost use Rattle.spec_requests.specs.Steps.{steps_of_body};
ghost use Rattle.spec_requests.specs.Trees.{Tree, IsTreeOf, HasTree, IsClosed, steps_of_tree};

/// The steps of a body are those of the tree of its items with its loops copied, and every body whose blocks are closed
/// has such a tree. Each body of a script that a text spells is one: `sound_scripts` says so.
pub fn trees()
    ensures copies { (body : List Line) (tree : Tree) → IsTreeOf body tree → steps_of_body body ≡ steps_of_tree tree }
    ensures exist { (body : List Line) → IsClosed body → HasTree body }
{}

/// Whatever the bodies and the schedule of a spelled script name is declared, its counts are in range, every block of a
/// body is closed in it, and a body makes doors of procedures of its own process alone.
pub fn sound_scripts()
    ensures { (text : List ℕ) (script : ScriptValue) → spells text script → IsSound script }
{}
