//! What follows of the words of the command line, as functions with nothing to run.
ghost use Rattle.std.specs.Prelude.{◌≡◌, ◌↔◌, ℕ, List};
ghost use Rattle.tool_command.specs.Command.{Command, Asks, IsFaultless, IsUsage};
ghost use Rattle.tool_command.specs.Forms.{IsForm};

/// Words that are in one of the forms, with numbers in their ranges and an image whose name is not
/// empty and does not begin with a hyphen, ask for the command of that form: `usage` is no answer
/// to them.
pub fn words_in_a_form_ask_for_its_command()
    ensures asks { (words : List (List ℕ)) (command : Command) → IsForm words command
        → Asks words command }
    ensures no_usage { (words : List (List ℕ)) (command : Command) → IsForm words command
        → ¬ (IsUsage words) }
{}

/// Words that name a command and in which clap finds no fault ask for a command, and no others do:
/// `usage` is the answer where no command is named or clap finds a fault, and nowhere else.
pub fn words_without_a_fault_ask_for_a_command()
    ensures asks { (words : List (List ℕ)) → IsFaultless words
        → (command : Command) × Asks words command }
    ensures no_others { (words : List (List ℕ)) (command : Command) → Asks words command
        → IsFaultless words }
    ensures usage { (words : List (List ℕ)) → IsUsage words ↔ ¬ (IsFaultless words) }
{}

/// Words ask for one command at most.
pub fn words_ask_for_one_command()
    ensures { (words : List (List ℕ)) (command other : Command) → Asks words command
        → Asks words other → command ≡ other }
{}
