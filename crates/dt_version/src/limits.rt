ghost use Rattle.std.specs.Prelude.{◌≡◌, IfSome, IfNone};
ghost use Rattle.dt_version.specs.Ranges.{AreLimits};

/// The numbers that a store is made with, each in its range.
#[derive(Clone, Copy, Debug, PartialEq, Eq)]
pub struct Limits {
    /// How many readers may be out, 1 to 256.
    pub readers: u16,
    /// How many pages there are, page 0 counted, 16 to 65,536.
    pub pages: u32,
    /// From how many entries on a look is worn, 1 to 2^31.
    pub entries: u32,
    /// How many versions may be published, 1 to 2^48.
    pub versions: u64,
    pub ghost in_range: { AreLimits readers pages entries versions },
}

impl Limits {
    /// The limits of these numbers; `None` exactly where one of them is outside its range.
    pub fn new(readers: u16, pages: u32, entries: u32, versions: u64) -> Option<Limits>
        ensures some { IfSome result (λ limits. (limits.readers ≡ readers) × (limits.pages ≡ pages) × (limits.entries ≡ entries) × (limits.versions ≡ versions)) }
        ensures none { IfNone result (¬ AreLimits readers pages entries versions) }
    {
        if readers < 1 || readers > 256 {
            return None;
        }
        if pages < 16 || pages > 65_536 {
            return None;
        }
        if entries < 1 || entries > 1 << 31 {
            return None;
        }
        if versions < 1 || versions > 1 << 48 {
            return None;
        }
        Some(Limits {
            readers,
            pages,
            entries,
            versions,
        })
    }
}
