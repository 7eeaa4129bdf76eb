ghost use Rattle.std.specs.Prelude.{◌≡◌, replicate, IfOk};

use dt_graph::NoMemory;
use std::alloc::Global;

// So many words that are 0.
pub(crate) fn zeros(alloc: Global, count: usize) -> Result<Vec<u64>, NoMemory>
    ensures { IfOk result (λ words. words.items ≡ replicate count 0) }
{
    Ok(vec![in alloc; 0u64; count]?)
}
