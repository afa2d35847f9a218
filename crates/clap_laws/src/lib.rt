//! Laws of the words that a simple command of `clap` accepts. Each function has an empty body, and its clause is
//! the law.
#![tactic(auto)]

mod examples;

ghost use Rattle.std.specs.Prelude.{[], ◌≡◌, false, List, true};
ghost use Rattle.clap.specs.{Faults.{fault_of, level_fault}, Simple.{App, built, Shape}};
ghost use Rattle.clap.specs.Walk.{nothing_held, rows_after, Text};
ghost use Rattle.clap_laws.specs.{Enters, IsPlainLevel, IsTaken};

/// The words that a program with a required subcommand accepts name one other than `help`, which accepts the words
/// after it.
#[tactic(auto, using(crate::proofs::enters))]
pub fn words_enter()
    ensures { (a : App) (words : List Text) → (built a).top.subcommand_required ≡ true → fault_of a words ≡ []
        → Enters a words }
{}

/// If a command without subcommands accepts words, each value obeys its argument's rules, and each required argument
/// was given.
#[tactic(auto, using(crate::proofs::level_taken))]
pub fn levels_pass()
    ensures { (s : Shape) (words : List Text) → IsPlainLevel s.rules → s.subcommand_negates_reqs ≡ false
        → level_fault s [] nothing_held words false [] ≡ [] → IsTaken s.rules (rows_after s.rules [] words) }
{}
