// A law of schedules.
ghost use Rattle.std.specs.Prelude.{◌≡◌, ◌++◌, List, ℕ};
ghost use Rattle.ld_schedule.specs.declared.event.Event.{Event};
ghost use Rattle.ld_config.specs.declared.config.Config.{Config};
ghost use Rattle.ld_cli.specs.Schedule.{Configures, AreSpelt, schedule_text};
ghost use Rattle.ld_cli.specs.OneReading.{Ends};

/// An input is a schedule, and a rest with a syntax error, in one way: so the first line with a syntax error is one line.
pub fn has_one_reading()
    ensures { (line first : List ℕ) (config other : Config) (es fs : List Event) (rest more : List ℕ)
        → Configures line config → Configures first other → AreSpelt es → AreSpelt fs → Ends rest → Ends more
        → schedule_text line es ++ rest ≡ schedule_text first fs ++ more
        → (line ≡ first) × (config ≡ other) × (es ≡ fs) × (rest ≡ more) }
{}
