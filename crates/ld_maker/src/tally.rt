// Counts of lines.
ghost use Rattle.std.specs.Prelude.{◌≡◌, ◌∷◌, [], length};
ghost use Rattle.ld_maker.specs.Tally.{HasRoom, no_lines, more_lines};

use ld_transcript::{GapKind, Line};

/// How many lines of some words there were: appended, acked and record, and the gap lines by the word behind the reader.
#[derive(Clone, Copy)]
pub struct Tally {
    pub appended: u128,
    pub acked: u128,
    pub records: u128,
    pub trims: u128,
    pub holes: u128,
    pub bridges: u128,
    pub data_losses: u128,
}

impl Tally {
    /// No lines so far.
    pub fn new() -> Tally
        ensures { result ≡ no_lines }
    {
        Tally {
            appended: 0,
            acked: 0,
            records: 0,
            trims: 0,
            holes: 0,
            bridges: 0,
            data_losses: 0,
        }
    }

    /// Counts these lines too.
    pub fn add(&mut self, lines: &[Line])
        requires { HasRoom self.old (length lines.now) }
        ensures { self.new ≡ more_lines self.old lines.now }
    {
        for line in lines {
            self.add_line(line);
        }
    }

    /// Counts this line too.
    fn add_line(&mut self, line: &Line)
        requires { HasRoom self.old 1 }
        ensures { self.new ≡ more_lines self.old (line.now ∷ []) }
    {
        match line {
            Line::Appended { .. } => self.appended += 1,
            Line::Acked { .. } => self.acked += 1,
            Line::Record { .. } => self.records += 1,
            Line::Gap { kind, .. } => match kind {
                GapKind::Trim => self.trims += 1,
                GapKind::Hole => self.holes += 1,
                GapKind::Bridge => self.bridges += 1,
                GapKind::DataLoss => self.data_losses += 1,
            },
            _ => {}
        }
    }
}
