ghost use Rattle.std.specs.Prelude.{◌<◌, ◌≤◌};
ghost use Rattle.dt_script.specs.GeneratedSize.{IsSize};

use dt_graph::CLASSES;
use dt_selectors::SELECTORS;

/// How many classes and selectors a generated program has.
#[derive(Clone, Copy)]
pub struct Size {
    /// The classes, from 2 to 2,048.
    pub classes: u16,
    /// The selectors, from 1 to 4,096.
    pub selectors: u16,
    /// The numbers are in their ranges.
    pub ghost in_range: { IsSize classes selectors },
}

impl Size {
    /// This size; `None` exactly where a number isn't in range.
    pub fn new(classes: u16, selectors: u16) -> Option<Size> {
        if !(2..=CLASSES).contains(&classes) || !(1..=SELECTORS).contains(&selectors) {
            return None;
        }
        Some(Size { classes, selectors })
    }

    /// How many definitions a generated program has, some of which replace earlier ones.
    pub fn definitions(self) -> u16
        ensures { 0 < result }
    {
        3 * self.selectors
    }
}
