ghost use Rattle.std.specs.Prelude.{◌≡◌, ◌≤◌, IsTrue};
ghost use Rattle.std.specs.Option.{SomeIff};
ghost use Rattle.dt_words.specs.Limits.{are_limits, limits_unless_given};

use std::marker::Model;

/// The greatest number of readers that may be out.
pub const READERS: u16 = 256;

/// The number of readers where the command line gives none.
pub const READERS_UNLESS_GIVEN: u16 = 8;

/// The least number of pages, the empty page counted.
pub const LEAST_PAGES: u32 = 16;

/// The greatest number of pages, the empty page counted.
pub const PAGES: u32 = 65_536;

/// The number of pages where the command line gives none.
pub const PAGES_UNLESS_GIVEN: u32 = 16_384;

/// The greatest entry limit: 2^31.
pub const ENTRIES: u32 = 2_147_483_648;

/// The entry limit where the command line gives none: 2^31.
pub const ENTRIES_UNLESS_GIVEN: u32 = 2_147_483_648;

/// The greatest version limit, which a run has: 2^48.
pub const VERSIONS: u64 = 281_474_976_710_656;

/// What a run is limited by: readers, pages, entries of a version, and versions.
#[derive(Debug, PartialEq, Eq, Drop)]
pub struct Limits {
    readers: u16,
    pages: u32,
    entries: u32,
    versions: u64,
}

impl Model for Limits {
    ghost use Rattle.std.specs.Prelude.{IsTrue};
    ghost use Rattle.dt_words.specs.Limits.{LimitNumbers, are_limits};

    ghost Value = { LimitNumbers };

    ghost view = { λ l. record { reader_count = l.readers; page_count = l.pages; entry_limit = l.entries; version_limit = l.versions } };

    ghost invariant = { λ l. IsTrue (are_limits (record { reader_count = l.readers; page_count = l.pages; entry_limit = l.entries; version_limit = l.versions })) };

    ghost inverse = { λ v. record { readers = v.reader_count; pages = v.page_count; entries = v.entry_limit; versions = v.version_limit } };
}

impl Default for Limits {
    // The limits of a command line that gives none.
    fn default() -> Limits
        ensures { result ≡ limits_unless_given }
    {
        Limits {
            readers: READERS_UNLESS_GIVEN,
            pages: PAGES_UNLESS_GIVEN,
            entries: ENTRIES_UNLESS_GIVEN,
            versions: VERSIONS,
        }
    }
}

impl Limits {
    /// The limits of these numbers; `None` exactly where one is out of its range: readers from 1 to [`READERS`], pages
    /// from [`LEAST_PAGES`] to [`PAGES`], entries from 1 to [`ENTRIES`], versions from 1 to [`VERSIONS`].
    pub fn new(readers: u16, pages: u32, entries: u32, versions: u64) -> Option<Limits>
        ensures { SomeIff result
            (IsTrue (are_limits (record { reader_count = readers; page_count = pages; entry_limit = entries; version_limit = versions })))
            (record { reader_count = readers; page_count = pages; entry_limit = entries; version_limit = versions }) }
    {
        if readers < 1 || READERS < readers {
            return None;
        }
        if pages < LEAST_PAGES || PAGES < pages {
            return None;
        }
        if entries < 1 || ENTRIES < entries {
            return None;
        }
        if versions < 1 || VERSIONS < versions {
            return None;
        }
        Some(Limits::in_range(readers, pages, entries, versions))
    }

    // The limits of numbers that are known to be in range.
    pub(crate) fn in_range(readers: u16, pages: u32, entries: u32, versions: u64) -> Limits
        requires { IsTrue (are_limits (record { reader_count = readers; page_count = pages; entry_limit = entries; version_limit = versions })) }
        ensures { result ≡ record { reader_count = readers; page_count = pages; entry_limit = entries; version_limit = versions } }
    {
        Limits {
            readers,
            pages,
            entries,
            versions,
        }
    }

    /// The number of readers that may be out, from 1 to [`READERS`].
    pub fn readers(&self) -> u16
        ensures value { result ≡ self.now.reader_count }
        ensures least { 1 ≤ result }
        ensures most { result ≤ READERS }
    {
        self.readers
    }

    /// The number of pages, the empty page counted, from [`LEAST_PAGES`] to [`PAGES`].
    pub fn pages(&self) -> u32
        ensures value { result ≡ self.now.page_count }
        ensures least { LEAST_PAGES ≤ result }
        ensures most { result ≤ PAGES }
    {
        self.pages
    }

    /// How many entries a version takes before its readers are told that it is worn, from 1 to [`ENTRIES`].
    pub fn entries(&self) -> u32
        ensures value { result ≡ self.now.entry_limit }
        ensures least { 1 ≤ result }
        ensures most { result ≤ ENTRIES }
    {
        self.entries
    }

    /// The number of versions after the first, from 1 to [`VERSIONS`].
    pub fn versions(&self) -> u64
        ensures value { result ≡ self.now.version_limit }
        ensures least { 1 ≤ result }
        ensures most { result ≤ VERSIONS }
    {
        self.versions
    }
}
