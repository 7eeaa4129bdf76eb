ghost use Rattle.std.specs.Prelude.{◌≡◌, ◌==◌, ◌≤◌, ℕ, true, false, if◌then◌else◌, Some, None, MatchOption};
ghost use Rattle.std.specs.Option.{ForSome};
ghost use Rattle.dt_script.specs.CallerSet.{has_caller};
ghost use Rattle.dt_script.specs.declared.limits.TheConstants.{CALLERS};

use crate::caller_set::CallerSet;

/// The callers of the lines so far.
#[derive(Drop)]
pub struct Callers {
    /// The caller whose lines follow.
    pub current: Option<u16>,
    /// The callers of this phase so far.
    pub stood: CallerSet,
    // The callers that have a pin.
    pinned: CallerSet,
    ghost known: { ForSome current (λ caller. caller ≤ CALLERS) },
}

impl Callers {
    /// No caller yet.
    pub fn new() -> Callers
        ensures current { result.current ≡ None }
        ensures stood { (other : ℕ) → has_caller result.stood other ≡ false }
        ensures pinned { (other : ℕ) → has_caller result.pinned other ≡ false }
    {
        Callers {
            current: None,
            stood: CallerSet::new(),
            pinned: CallerSet::new(),
        }
    }

    /// Whether the caller whose lines follow has a pin; `None` where there is no such caller.
    pub fn has_pin(&self) -> Option<bool>
        ensures { MatchOption self.now.current (result ≡ None) (λ caller. result ≡ Some (has_caller self.now.pinned caller)) }
    {
        Some(self.pinned.contains(self.current?))
    }

    /// The next phase begins.
    pub fn next_phase(&mut self)
        ensures current { self.new.current ≡ None }
        ensures stood { (other : ℕ) → has_caller self.new.stood other ≡ false }
        ensures pinned { self.new.pinned ≡ self.old.pinned }
    {
        self.current = None;
        self.stood = CallerSet::new();
    }

    /// The lines of this caller follow.
    pub fn begin(&mut self, caller: u16)
        requires { caller ≤ CALLERS }
        ensures current { self.new.current ≡ Some caller }
        ensures stood { (other : ℕ) → has_caller self.new.stood other
            ≡ (if caller == other then true else has_caller self.old.stood other) }
        ensures pinned { self.new.pinned ≡ self.old.pinned }
    {
        self.current = Some(caller);
        self.stood.insert(caller);
    }

    /// The caller whose lines follow has a pin.
    pub fn pin(&mut self)
        ensures current { self.new.current ≡ self.old.current }
        ensures stood { self.new.stood ≡ self.old.stood }
        ensures pinned { MatchOption self.old.current (self.new.pinned ≡ self.old.pinned) (λ caller. (other : ℕ)
            → has_caller self.new.pinned other ≡ (if caller == other then true else has_caller self.old.pinned other)) }
    {
        if let Some(caller) = self.current {
            self.pinned.insert(caller);
        }
    }

    /// The caller whose lines follow has no pin.
    pub fn unpin(&mut self)
        ensures current { self.new.current ≡ self.old.current }
        ensures stood { self.new.stood ≡ self.old.stood }
        ensures pinned { MatchOption self.old.current (self.new.pinned ≡ self.old.pinned) (λ caller. (other : ℕ)
            → has_caller self.new.pinned other ≡ (if caller == other then false else has_caller self.old.pinned other)) }
    {
        if let Some(caller) = self.current {
            self.pinned.remove(caller);
        }
    }
}
