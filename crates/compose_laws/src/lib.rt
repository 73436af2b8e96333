//! The promises as laws of the program: what it means for people that a run of a command ends with
//! this exit status.
//!
//! This crate has no program. Each law is about all runs of `run_question` of `compose_program`:
//! whatever the folder has, and whatever the environment and the options are. So what it concludes
//! is about the tables that the bytes of the folder define (`specs/Runs.antt`), and not about
//! anything that a run holds in between (`specs/Promised.antt`).
//!
//! ```text
//! law_check();    // status 0 of `check`: the new table changes nobody's typing
//! ```
#![tactic(auto)]

ghost use Rattle.std.specs.Prelude.{◌≡◌, ℕ, ◌≤◌, Bool, List, [], Option, Some, None, Ok, string_bytes, codes};
ghost use Rattle.std.proofs.Common.{Bor};
ghost use Rattle.std.specs.declared.alloc.Global.{Global};
ghost use Rattle.std.specs.declared.vec.Vec.{Vec};
ghost use Rattle.compose_answer.specs.Ends.{status_of};
ghost use Rattle.compose_arguments.specs.declared.diff_arguments.DiffArguments.{DiffArguments};
ghost use Rattle.compose_arguments.specs.declared.given_tables.BothTables.{BothTables};
ghost use Rattle.compose_arguments.specs.declared.given_tables.TypeTable.{TypeTable};
ghost use Rattle.compose_arguments.specs.declared.question.Question.{Question};
ghost use Rattle.compose_arguments.specs.declared.question.Question.TheVariants.{Check, Diff, Explain, Make};
ghost use Rattle.compose_check.specs.Input.{Input};
ghost use Rattle.compose_diff_rows.specs.Answers.{Asked};
ghost use Rattle.compose_folder.specs.Content.{File, IsHeld};
ghost use Rattle.compose_migration.specs.Migration.{GivenMigration};
ghost use Rattle.compose_program.specs.Questions.{words};
ghost use Rattle.compose_report.specs.declared.outcome.Outcome.{Outcome};
ghost use Rattle.compose_runs.specs.declared.checking.CheckTexts.{CheckTexts};
ghost use Rattle.compose_laws.specs.Runs.{Run, Ends, EndsWith, DefinesTables, DefinesBoth, DefinesCheck, DefinesDiff};
ghost use Rattle.compose_laws.specs.Promised.{IsPromised, IsPromisedBut, IsCertified, HasNone, KeepsFrom, LosesNothing, LosesOnlyIntended, IsSilent};

/// If `check` ends with status 0, the new table changes nobody's typing, but for the fresh keysyms
/// that the certificate lists, and all else that the certificate promises holds too. With `--fresh`
/// the new table changes nobody's typing but for the keys that are given there. What is printed is
/// `yes` and a newline. If it ends with status 1, the certificate is not one of that.
pub fn law_check()
    ensures promised { (run : Run) (tables : BothTables) (texts : CheckTexts) (outcome : Outcome)
        → EndsWith 0 run (Check tables None texts.repertoire texts.certificate) outcome
        → (input : Input) × DefinesCheck run tables texts input × IsPromised input }
    ensures rejected { (run : Run) (tables : BothTables) (texts : CheckTexts) (outcome : Outcome)
        → EndsWith 1 run (Check tables None texts.repertoire texts.certificate) outcome
        → (input : Input) × DefinesCheck run tables texts input × (IsPromised input → ⊥) }
    ensures fresh { (run : Run) (tables : BothTables) (fresh : Vec (Bor (List ℕ)) Global)
        (texts : CheckTexts) (outcome : Outcome)
        → EndsWith 0 run (Check tables (Some fresh) texts.repertoire texts.certificate) outcome
        → (input : Input) × DefinesCheck run tables texts input
        × IsPromisedBut (words fresh.items) input }
    ensures rejected_fresh { (run : Run) (tables : BothTables) (fresh : Vec (Bor (List ℕ)) Global)
        (texts : CheckTexts) (outcome : Outcome)
        → EndsWith 1 run (Check tables (Some fresh) texts.repertoire texts.certificate) outcome
        → (input : Input) × DefinesCheck run tables texts input
        × (IsPromisedBut (words fresh.items) input → ⊥) }
    ensures prints { (run : Run) (tables : BothTables)
        (fresh : Option (Vec (Bor (List ℕ)) Global)) (texts : CheckTexts) (outcome : Outcome)
        → EndsWith 0 run (Check tables fresh texts.repertoire texts.certificate) outcome
        → string_bytes outcome.output ≡ codes "yes\n" }
{}

/// If `diff` ends with status 0 and no list of intended changes is given, the new table changes
/// nobody's typing but for the keys in `--fresh`, and each sequence of the old table is typed as
/// before. If a list is given, each sequence of the old table that no line of the list names is
/// typed as before, and no sequence of the new table begins with a key that began none before,
/// unless a line names it. If it ends with status 1, that isn't so.
pub fn law_diff()
    ensures nothing { (run : Run) (arguments : DiffArguments) (fresh : Vec (Bor (List ℕ)) Global)
        (outcome : Outcome) → arguments.accept ≡ None
        → EndsWith 0 run (Diff arguments fresh) outcome
        → (asked : Asked) × DefinesDiff run arguments (words fresh.items) asked
        × LosesNothing asked }
    ensures something { (run : Run) (arguments : DiffArguments) (fresh : Vec (Bor (List ℕ)) Global)
        (outcome : Outcome) → arguments.accept ≡ None
        → EndsWith 1 run (Diff arguments fresh) outcome
        → (asked : Asked) × DefinesDiff run arguments (words fresh.items) asked
        × (LosesNothing asked → ⊥) }
    ensures intended { (run : Run) (arguments : DiffArguments) (fresh : Vec (Bor (List ℕ)) Global)
        (outcome : Outcome) → EndsWith 0 run (Diff arguments fresh) outcome
        → (asked : Asked) × DefinesDiff run arguments (words fresh.items) asked
        × LosesOnlyIntended asked }
    ensures unintended { (run : Run) (arguments : DiffArguments) (fresh : Vec (Bor (List ℕ)) Global)
        (outcome : Outcome) → EndsWith 1 run (Diff arguments fresh) outcome
        → (asked : Asked) × DefinesDiff run arguments (words fresh.items) asked
        × (LosesOnlyIntended asked → ⊥) }
{}

/// If `explain` ends with status 0, with `--all` or without, the new table changes nobody's typing
/// but for the keys in `--fresh`. If it ends with status 1, it changes the typing of some keys.
pub fn law_explain()
    ensures keeps { (run : Run) (old new : TypeTable) (fresh : Vec (Bor (List ℕ)) Global)
        (all : Bool) (outcome : Outcome) → EndsWith 0 run (Explain old new fresh all) outcome
        → (given : GivenMigration) × DefinesBoth run old new (words fresh.items) given
        × KeepsFrom given }
    ensures differs { (run : Run) (old new : TypeTable) (fresh : Vec (Bor (List ℕ)) Global)
        (all : Bool) (outcome : Outcome) → EndsWith 1 run (Explain old new fresh all) outcome
        → (given : GivenMigration) × DefinesBoth run old new (words fresh.items) given
        × (KeepsFrom given → ⊥) }
{}

/// If `make` ends with status 0, what it prints is a certificate for the tables, names and
/// repertoire that it read: the verdict of `check` on it is yes, with the same keys in `--fresh` and
/// without `--fresh`, and what it promises holds. If it ends with status 1, there is no certificate
/// with just these keys.
pub fn law_make()
    ensures certified { (run : Run) (tables : BothTables) (fresh : Vec (Bor (List ℕ)) Global)
        (all : Bool) (repertoire : Bor (List ℕ)) (output : Option (Bor (List ℕ)))
        (outcome : Outcome) → EndsWith 0 run (Make tables fresh all repertoire output) outcome
        → (given : GivenMigration) × DefinesTables run tables [] given
        × (bytes : List ℕ) × IsHeld run.folder repertoire.now (File bytes)
        × IsCertified (words fresh.items) given bytes (string_bytes outcome.output) }
    ensures none { (run : Run) (tables : BothTables) (fresh : Vec (Bor (List ℕ)) Global)
        (all : Bool) (repertoire : Bor (List ℕ)) (output : Option (Bor (List ℕ)))
        (outcome : Outcome) → EndsWith 1 run (Make tables fresh all repertoire output) outcome
        → (given : GivenMigration) × DefinesTables run tables [] given
        × (bytes : List ℕ) × IsHeld run.folder repertoire.now (File bytes)
        × HasNone (words fresh.items) given bytes }
{}

/// If a run ends with status 2 or 3, it prints nothing on standard output and writes no file: there
/// is no answer, and no part of one.
pub fn law_refused()
    ensures { (run : Run) (question : Question) (outcome : Outcome) → Ends run question outcome
        → 2 ≤ status_of outcome.ended → IsSilent outcome }
{}
