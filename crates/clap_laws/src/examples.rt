//! Examples of commands and of their words, worked out by computation. They show what the definitions mean.

ghost use Rattle.std.specs.Prelude.{◌≡◌, true, false, [], ◌∷◌, codes};
ghost use Rattle.clap.specs.Words.{new_app, new_rule};
ghost use Rattle.clap.specs.Simple.{app_of};
ghost use Rattle.clap.specs.declared.builder.command.Command.{Command, TheViews.out-Command};
ghost use Rattle.clap_laws.specs.Commands.{IsCommand};
ghost use Rattle.clap_laws.specs.Entering.{Enters, IsPlainLevel};
ghost use Rattle.clap_laws.specs.Passes.{IsTaken};
ghost use Rattle.clap_laws.specs.Inner.Examples.{flag, helpful, named, needy, program, word};

// A command is determined by its views.
#[tactic(none)]
fn examples_of_commands()
    ensures command { (c : Command) → app_of c ≡ new_app (codes "x") → (out-Command c).has_globals ≡ false
        → IsCommand c (new_app (codes "x")) }
    ensures other { (c : Command) → app_of c ≡ new_app (codes "x") → IsCommand c (new_app (codes "y")) → ⊥ }
    ensures global { (c : Command) → (out-Command c).has_globals ≡ true → IsCommand c (app_of c) → ⊥ }

    // Words that name the tool enter it; others do not.
    ensures enters { Enters program (codes "program" ∷ codes "tool" ∷ []) }
    ensures no_tool { Enters program (codes "program" ∷ codes "other" ∷ []) → ⊥ }
    ensures no_word { Enters program (codes "program" ∷ []) → ⊥ }

    // A tool that requires a word is not entered without it, and a tool named `help` never is.
    ensures enters_by_word { Enters needy (codes "program" ∷ codes "tool" ∷ codes "1" ∷ []) }
    ensures lacks_its_word { Enters needy (codes "program" ∷ codes "tool" ∷ []) → ⊥ }
    ensures named_as_help { Enters helpful (codes "program" ∷ codes "help" ∷ []) → ⊥ }
{}

// Rules of a tool, and entries that pass them.
#[tactic(none)]
fn examples_of_levels()
    ensures plain { IsPlainLevel (word ∷ new_rule (codes "other") ∷ []) }
    ensures twice { IsPlainLevel (word ∷ word ∷ []) → ⊥ }
    ensures counted { IsPlainLevel (flag ∷ []) → ⊥ }
    ensures given { IsTaken (word ∷ []) (named (codes "word") (codes "1" ∷ []) ∷ []) }
    ensures missing { IsTaken (word ∷ []) [] → ⊥ }
    ensures unknown { IsTaken [] (named (codes "word") (codes "1" ∷ []) ∷ []) → ⊥ }
    ensures empty { IsTaken (word ∷ []) (named (codes "word") [] ∷ []) → ⊥ }
{}
