ghost use Rattle.std.specs.Prelude.{◌≡◌, ◌<◌};
ghost use Rattle.dt_cells.specs.Regions.{selector_at, place_of};

// The selector words begin here.
const SELECTOR_WORDS: u32 = 4096;

// The place words begin here.
const PLACE_WORDS: u32 = 8192;

/// The address of a selector's word.
pub fn selector_address(selector: u16) -> u32
    ensures { result ≡ selector_at selector }
{
    SELECTOR_WORDS + u32::from(selector)
}

/// The address of a selector's place word.
pub fn place_address(selector: u16) -> u32
    ensures { result ≡ place_of selector }
{
    PLACE_WORDS + u32::from(selector)
}
