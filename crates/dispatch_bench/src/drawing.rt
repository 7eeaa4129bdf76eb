ghost use Rattle.std.specs.Prelude.{◌<◌};

use dt_graph::ClassNo;
use dt_trials::Chance;

/// Draws a class below the bound.
pub fn draw_class(chance: &mut Chance, bound: u16) -> ClassNo
    requires { 0 < bound }
{
    ClassNo::new(chance.below(bound)).unwrap_or_default()
}
