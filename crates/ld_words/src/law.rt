// A law of words.
ghost use Rattle.std.specs.Prelude.{◌≡◌, List};
ghost use Rattle.clap.specs.Walk.{Text};
ghost use Rattle.ld_words.specs.declared.command.Command.{Command as Choice};
ghost use Rattle.ld_words.specs.Meaning.{Asks};

/// Words ask for at most one command.
pub fn words_ask_for_one_command()
    ensures { (words : List Text) (one other : Choice) → Asks words one → Asks words other → one ≡ other }
{}
