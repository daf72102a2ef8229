// The order of elimination where the permutation is known to be good: two passes move the late blocks behind the others, with no
// sorting; the new number of each old one; the dimension of each new block.
ghost use Rattle.std.specs.Prelude.{◌≡◌, ℕ, ◌+◌, ◌<◌, ◌≤◌, Bool, true, false, T, length, slice_index};
ghost use Rattle.std.proofs.lemmas.List.Edits.{sets};
ghost use Rattle.graph.specs.Sets.{elem};
ghost use Rattle.graph.specs.Order.{Permutes, moved};
ghost use Rattle.order.specs.Order.{group, Inverse, sizes_of};

// The blocks of one group, the flagged or the others, in the order of perm, from place `at` on. Returns the place behind the last.
fn keep(perm: &[u32], late: &[u32], flagged: bool, order: &mut [u32], at: usize) -> usize
    requires by_index { (block : ℕ) → T (elem block perm.now) → block < length late.now }
    requires perm_in_bounds { at + length (group flagged late.now perm.now) ≤ length order.old }
    ensures value { result ≡ at + length (group flagged late.now perm.now) }
    ensures order_after { order.new ≡ sets order.old at (group flagged late.now perm.now) }
{
    // Kept: `place` goes on where a block is of the group, which no range counts, and a filtered list has no place in a list that is lent.
    let mut place = at;
    for &block in perm {
        let is_late = late[block as usize] != 0;
        if is_late == flagged {
            order[place] = block;
            place += 1;
        }
    }
    place
}

// The permutation with the flagged blocks moved behind the others, each group in the order of perm.
pub fn move_late(perm: &[u32], late: &[u32], order: &mut [u32])
    requires { Permutes (length order.old) perm.now × (length late.now ≡ length order.old) }
    ensures { order.new ≡ moved perm.now late.now }
{
    let at = keep(perm, late, false, order, 0);
    keep(perm, late, true, order, at);
}

// The new number of each old one.
pub fn invert(order: &[u32], inverse: &mut [u32])
    requires { Permutes (length inverse.old) order.now × (length inverse.old ≤ 4096) }
    ensures { Inverse (length inverse.old) order.now inverse.new }
{
    for (k, &old) in order.iter().enumerate() {
        inverse[old as usize] = k as u32;
    }
}

// In place, each old number becomes the dimension of its block.
pub fn sizes(dims: &[u32], order: &mut [u32])
    requires { (k : ℕ) → k < length order.old → slice_index order.old k < length dims.now }
    ensures { order.new ≡ sizes_of dims.now order.old }
{
    for old in order.iter_mut() {
        *old = dims[*old as usize];
    }
}
