ghost use Rattle.dt_script.specs.GeneratedSize.{IsSize};

/// How many classes and selectors a generated script has.
#[derive(Clone, Copy, Debug)]
pub struct GeneratedSize {
    /// The classes, from 2 to 2,048.
    pub classes: u16,
    /// The selectors, from 1 to 4,096.
    pub selectors: u16,
    /// The numbers are in their ranges.
    pub ghost in_range: { IsSize classes selectors },
}
