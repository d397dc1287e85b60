ghost use Rattle.std.specs.Prelude.{◌≡◌, replicate, vec_len, IfOk};

use bounded_list::NoMemory;
use std::alloc::Global;

/// As many zeros as are wanted.
pub fn zeros(alloc: Global, count: usize) -> Result<Vec<u32>, NoMemory>
    ensures { IfOk result (λ numbers. numbers.items ≡ replicate count 0) }
{
    vec![in alloc; 0; count].map_err(|_| NoMemory)
}

pub fn set_to_zero(numbers: &mut Vec<u32>)
    ensures { numbers.new.items ≡ replicate (vec_len numbers.old) 0 }
{
    numbers.fill(0);
}
