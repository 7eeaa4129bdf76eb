use std::alloc::AllocError;
use thiserror::Error;

/// Why a command line gives no command.
#[derive(Clone, Copy, Debug, PartialEq, Eq, Error)]
pub enum WordsFault {
    /// The words write no command.
    #[error("the words are no command")]
    Usage,
    /// Memory was wanted, and none was found.
    #[error("no memory")]
    NoMemory,
}

impl From<AllocError> for WordsFault {
    ghost use Rattle.std.specs.Prelude.{◌≡◌};
    ghost use Rattle.dt_words.specs.declared.words_fault.WordsFault.TheVariants.{NoMemory};

    ghost from_gives = { λ _ fault. fault ≡ NoMemory };

    fn from(_error: AllocError) -> WordsFault {
        WordsFault::NoMemory
    }
}
