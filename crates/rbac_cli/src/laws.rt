//! Laws of answers and of runs: what follows from the definitions alone. The functions do little or
//! nothing; their contracts are the laws.

ghost use Rattle.std.specs.Prelude.{◌≡◌, ◌↔◌, ◌++◌, ◌∷◌, [], Contains, List, ℕ};
ghost use Rattle.std.specs.Prelude.{None, Option, Result, Some, Vec, vec_items};
ghost use Rattle.std.specs.Global.{Global};
ghost use Rattle.rbac_terms.specs.Principals.{Who};
ghost use Rattle.rbac_model.specs.Policies.{PolicyView};
ghost use Rattle.rbac_groups.specs.Memberships.{with_memberships};
ghost use Rattle.rbac_manifest.specs.Load.{IsLoaded, LoadedView};
ghost use Rattle.rbac_document.specs.Document.{AreReadable};
ghost use Rattle.rbac_streams.specs.Streams.{SinkView};
ghost use Rattle.rbac_streams.specs.Taken.{Took};
ghost use Rattle.rbac_question.specs.declared.command.Action.{Action};
ghost use Rattle.rbac_steps.specs.declared.steps.Step.{Step};
ghost use Rattle.rbac_question.specs.declared.command.Action.TheVariants.{CanI, Diff, Paths};
ghost use Rattle.rbac_question.specs.declared.command.Action.TheVariants.{Powers, Universe, WaysTo};
ghost use Rattle.rbac_question.specs.declared.command.Action.TheVariants.{Rules as ListsRules};
ghost use Rattle.rbac_question.specs.declared.command.Change.{Change};
ghost use Rattle.rbac_question.specs.declared.command.Question.{Question};
ghost use Rattle.rbac_question.specs.declared.command.VerdictOptions.{VerdictOptions};
ghost use Rattle.rbac_terms.specs.declared.scope.Scope.{Scope};
ghost use Rattle.rbac_question.specs.declared.path_end.PathEnd.{PathEnd};
ghost use Rattle.rbac_diff.specs.Requests.{AllowsNoMore, RequestView};
ghost use Rattle.rbac_cli.specs.Agreement.{HasNoPowerLine, LinesAgree, PathAgrees};
ghost use Rattle.rbac_cli.specs.Exports.{AreLoaded};
ghost use Rattle.rbac_cli.specs.Groups.{named_alone, without_memberships};
ghost use Rattle.rbac_cli.specs.Out.{Answers};
ghost use Rattle.rbac_cli.specs.PlusLines.{HasPlusLine};
ghost use Rattle.rbac_cli.specs.TakenBack.{HaveOneMatrix};
ghost use Rattle.rbac_cli.specs.declared.exports.Exports.TheVariants.{Pair, Single};
ghost use Rattle.rbac_question.specs.declared.command.Command.{Command};
ghost use Rattle.rbac_cli.specs.Ends.{Ends, HaveSameRequests, IsUnstopped};
ghost use Rattle.rbac_cli.specs.declared.exports.Exports.{Exports};
ghost use Rattle.rbac_cli.specs.declared.outcome.Status.{Status};
ghost use Rattle.rbac_cli.specs.declared.outcome.RunFault.{RunFault};

use rbac_diff::changes_tell_all;
use rbac_document::{documents_are_taken_back, once_each_is_the_same_universe};
use rbac_manifest::{
    load_faults_are_one, loaded_inputs_are_one, loaded_inputs_have_no_fault,
    resolved_policies_are_one, resolved_policies_have_no_fault,
};
use rbac_paths::{
    one_path_is_one, paths_are_one, paths_begin_with_powers, powers_are_one, ways_agree_with_paths,
    ways_are_one,
};
use rbac_universe::universes_have_no_fault;
use rbac_use::{least_is_one, unused_lines_are_one};
use std::io::Write;

/// Over what was loaded, an action means at most one text and one status: whoever runs a command
/// over the same inputs reads the same answer (own).
pub fn answers_are_one()
    ensures { (e : Exports) (action : Action) (text other : List ℕ) (status ending : Status)
        → Answers e action text status
        → Answers e action other ending → (text ≡ other) × (status ≡ ending) }
{
    powers_are_one();
    paths_are_one();
    one_path_is_one();
    ways_are_one();
    unused_lines_are_one();
    least_is_one();
}

/// Two runs of one command over the same inputs, and over logs with the same requests, end alike,
/// and their writers take the same text, if neither runs out of memory or fails to write: both give
/// the same answer with the same status, or the same refusal and no text. So an answer and a refusal
/// exclude each other (own).
pub fn runs_are_one<V: Write, W: Write>()
    ensures { (start end : SinkView V) (old new : SinkView W) (command : Command)
        (inputs : List (List ℕ)) (log logged : List RequestView)
        (ended other : Result Status RunFault) → HaveSameRequests log logged
        → IsUnstopped ended → IsUnstopped other
        → Ends (Took V.contents start end) command inputs log ended
        → Ends (Took W.contents old new) command inputs logged other
        → (ended ≡ other)
        × ((text : List ℕ) × Took V.contents start end text × Took W.contents old new text) }
{
    loaded_inputs_are_one();
    loaded_inputs_have_no_fault();
    load_faults_are_one();
    resolved_policies_are_one();
    resolved_policies_have_no_fault();
    universes_have_no_fault();
    powers_are_one();
    paths_are_one();
    one_path_is_one();
    ways_are_one();
    unused_lines_are_one();
    least_is_one();
}

/// No line of a `diff` begins with `+` exactly if the side before allows every request that the
/// side after allows: of every user, in every namespace, with every verb, on every proper target
/// (own).
pub fn plus_lines_tell_all()
    ensures { (n : ℕ) (change : Change) (inputs : List (List ℕ)) (log : List RequestView)
        (before after : PolicyView) (text : List ℕ) (status : Status)
        → AreLoaded (Diff n change) inputs log (Pair before after)
        → Answers (Pair before after) (Diff n change) text status
        → (¬ HasPlusLine text) ↔ AllowsNoMore before after }
{
    changes_tell_all();
}

/// The document that `universe` prints for inputs is accepted behind these inputs, and a matrix
/// over all of them lists the same as a matrix over the inputs alone (own). JSON has to be able to
/// carry the words of the lists: they are UTF-8, and no principal's name is empty.
pub fn universes_are_taken_back()
    ensures { (inputs : List (List ℕ)) (l : LoadedView) (text : List ℕ) (status : Status)
        → IsLoaded inputs l → AreReadable l.lists → Answers (Single l) Universe text status
        → (again : LoadedView) × IsLoaded (inputs ++ text ∷ []) again × HaveOneMatrix l again }
{
    documents_are_taken_back();
    once_each_is_the_same_universe();
}

/// Of the principals that a binding, a ServiceAccount object or a Group document names, `who-can
/// --indirect` lists one exactly if it is allowed what is asked, or if `paths` for it, by the same
/// steps and without groups given on the line, lists a node that is allowed it. Its line has the
/// least number of steps to such a node, or 0 if the principal itself is allowed it (own).
pub fn indirect_answers_agree_with_paths()
    ensures { (inputs : List (List ℕ)) (l : LoadedView) (who : Who) (steps others : Vec Step Global)
        (q : Question) (text other : List ℕ) (status ending : Status) → IsLoaded inputs l
        → Contains (named_alone l) who → vec_items steps ≡ vec_items others
        → Answers (Single l) (Paths who steps None) text status
        → Answers (Single l) (WaysTo others q) other ending
        → LinesAgree l (vec_items steps) (with_memberships l.memberships who) q text other }
{
    ways_agree_with_paths();
}

/// `paths --to TO` lists lines of `paths` by the same steps. Its status is 1 exactly if `paths` has
/// no line for TO, and then it lists nothing (own).
pub fn one_path_agrees_with_paths()
    ensures { (l : LoadedView) (who : Who) (steps others : Vec Step Global) (to : PathEnd)
        (text other : List ℕ) (status ending : Status) → vec_items steps ≡ vec_items others
        → Answers (Single l) (Paths who steps None) text status
        → Answers (Single l) (Paths who others (Some to)) other ending
        → PathAgrees to text other ending }
{
    paths_are_one();
}

/// If no line of `powers` has the key of a principal or of one of its groups, with those that
/// documents give it, `paths` for this principal has no line, whichever steps count (own).
pub fn no_paths_without_powers()
    ensures { (inputs : List (List ℕ)) (l : LoadedView) (who : Who) (steps : Vec Step Global)
        (text other : List ℕ) (status ending : Status) → IsLoaded inputs l
        → Answers (Single l) Powers text status
        → HasNoPowerLine text (with_memberships l.memberships who)
        → Answers (Single l) (Paths who steps None) other ending → other ≡ [] }
{
    paths_begin_with_powers();
}

/// The groups that documents give a user are as if they were given to it by `--group`: over an
/// export, `can-i`, `rules` and `paths` answer of whoever they are about what they answer of the one
/// with these groups over the same export without Group documents. For `paths`, the users whom the
/// documents listed are still named there, and each has the groups that documents gave it (own).
pub fn memberships_are_groups_given()
    ensures verdicts { (l : LoadedView) (who : Who) (options : VerdictOptions) (q : Question)
        (text : List ℕ) (status : Status) → Answers (Single l) (CanI who options q) text status
        ↔ Answers (Single (without_memberships l))
        (CanI (with_memberships l.memberships who) options q) text status }
    ensures rules { (l : LoadedView) (who : Who) (scope : Scope) (text : List ℕ) (status : Status)
        → Answers (Single l) (ListsRules who scope) text status
        ↔ Answers (Single (without_memberships l))
        (ListsRules (with_memberships l.memberships who) scope) text status }
    ensures paths { (l : LoadedView) (who : Who) (steps : Vec Step Global) (to : Option PathEnd)
        (text : List ℕ) (status : Status) → Answers (Single l) (Paths who steps to) text status
        ↔ Answers (Single (without_memberships l))
        (Paths (with_memberships l.memberships who) steps to) text status }
{}
