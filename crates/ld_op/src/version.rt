// Versions of journals.
ghost use Rattle.std.specs.Prelude.{◌≡◌, Some, None, if◌then◌else◌};
ghost use Rattle.ld_op.specs.Records.{is_format, is_clean, is_blank, is_first, opened_by, first_after, second_after, version_after};

use crate::{Op, Record};

/// The version of a journal, by the records that stand in it.
#[derive(Clone, Copy, Debug)]
pub enum Version {
    /// None stands in it.
    Blank,
    /// The format is one of the first version, and no mark stands behind it.
    First,
    /// The format says the second version, or a mark does.
    Second,
}

impl Version {
    /// Whether no record stands in the journal.
    pub fn is_blank(self) -> bool
        ensures { result ≡ is_blank self }
    {
        matches!(self, Version::Blank)
    }

    /// Whether the journal is of the first version.
    pub fn is_first(self) -> bool
        ensures { result ≡ is_first self }
    {
        matches!(self, Version::First)
    }

    /// The version with a record more, or none where the record may not follow: the first is a format and no other
    /// is; of the ops that the versions write in two ways, each stands in its own version; and a mark follows the
    /// first version only.
    pub fn after(self, next: &Record) -> Option<Version>
        ensures { result ≡ version_after self next.now }
    {
        match self {
            Version::Blank => opened_by(next),
            Version::First => first_after(next),
            Version::Second => second_after(next),
        }
    }
}

fn opened_by(next: &Record) -> Option<Version>
    ensures { result ≡ opened_by next.now }
{
    match next {
        Record::Now(op) => version_if(op.is_format(), Version::Second),
        Record::Before(op) => version_if(op.is_format(), Version::First),
        Record::Mark => None,
    }
}

fn first_after(next: &Record) -> Option<Version>
    ensures { result ≡ first_after next.now }
{
    match next {
        Record::Now(op) => version_if(!(op.is_format() || op.is_clean()), Version::First),
        Record::Before(op) => version_if(op.is_clean(), Version::First),
        Record::Mark => Some(Version::Second),
    }
}

fn second_after(next: &Record) -> Option<Version>
    ensures { result ≡ second_after next.now }
{
    match next {
        Record::Now(op) => version_if(!op.is_format(), Version::Second),
        Record::Before(_) => None,
        Record::Mark => None,
    }
}

fn version_if(may: bool, version: Version) -> Option<Version>
    ensures { result ≡ (if may then Some version else None) }
{
    if may { Some(version) } else { None }
}

impl Op {
    /// Whether it is a format.
    pub fn is_format(&self) -> bool
        ensures { result ≡ is_format self.now }
    {
        matches!(self, Op::Format { .. })
    }

    /// Whether it is a close.
    fn is_clean(&self) -> bool
        ensures { result ≡ is_clean self.now }
    {
        matches!(self, Op::Clean { .. })
    }
}
