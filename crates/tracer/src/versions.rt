//! The versions of the trace text. No call takes memory or waits.

ghost use Rattle.std.specs.Prelude.{◌≡◌};
ghost use Rattle.tracer.specs.{Gather.entries_in, TraceText.version_word};
ghost use Rattle.tracer.specs.Versions.{covers, both, version_of_kind, version_of_count, version_of_entry, version_of};

use event_log::{Entry, Kind};

/// A version of the trace text.
#[derive(Clone, Copy)]
pub enum Version {
    /// It has sends and receives.
    One,
    /// It has closes too, and calls that found their buffer closed.
    Two,
    /// It has messages of several words too.
    Three,
}

impl Version {
    /// Whether a text of this version can hold all that one of `other` can.
    pub fn covers(self, other: Version) -> bool
        ensures { result ≡ covers self other }
    {
        match (self, other) {
            (Version::One, Version::Two | Version::Three) | (Version::Two, Version::Three) => false,
            (Version::One, Version::One)
            | (Version::Two, Version::One | Version::Two)
            | (Version::Three, _) => true,
        }
    }

    /// The lowest version that covers this one and `other`.
    pub fn both(self, other: Version) -> Version
        ensures { result ≡ both self other }
    {
        match (self, other) {
            (Version::One, _) => other,
            (Version::Two, Version::One | Version::Two) => Version::Two,
            (Version::Two, Version::Three) | (Version::Three, _) => Version::Three,
        }
    }

    /// The first version that has a word for this kind.
    pub fn of_kind(kind: Kind) -> Version
        ensures { result ≡ version_of_kind kind }
    {
        match kind {
            Kind::Send | Kind::Recv => Version::One,
            Kind::Close | Kind::SendClosed | Kind::RecvClosed => Version::Two,
        }
    }

    /// The first version that can spell so many words as one message.
    pub fn of_count(count: usize) -> Version
        ensures { result ≡ version_of_count count }
    {
        if count > 1 {
            Version::Three
        } else {
            Version::One
        }
    }

    /// The first version that can spell this entry.
    pub fn of_entry(entry: &Entry) -> Version
        ensures { result ≡ version_of_entry entry.now }
    {
        Version::of_kind(entry.kind).both(Version::of_count(entry.value.len()))
    }

    /// How the head of a text names it.
    pub fn word(self) -> &'static [u8]
        ensures { result.now ≡ version_word self }
    {
        match self {
            Version::One => b"1",
            Version::Two => b"2",
            Version::Three => b"3",
        }
    }
}

/// The lowest version that can spell these entries.
pub fn version_of(entries: &[&Entry]) -> Version
    ensures { result ≡ version_of (entries_in entries.now) }
{
    let mut version = Version::One;
    for entry in entries {
        version = version.both(Version::of_entry(*entry));
    }
    version
}
