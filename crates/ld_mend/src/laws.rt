// What follows from what is told.
ghost use Rattle.ld_mend.specs.Laws.{MendedIsNotLost};

/// A node of which a log is told to be mended isn't lost for it, where the register has a summary of each closed epoch.
pub fn mended_is_not_lost()
    ensures { MendedIsNotLost }
{}
