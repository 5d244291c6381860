// The bits behind every depth, in a table.
ghost use Rattle.std.specs.Prelude.{◌≤◌};
ghost use Rattle.leaf_check.specs.DepthTable.{DepthMasks, AllOnes};

// The bits behind each depth up to w; a depth above w keeps all ones.
pub fn set_masks(w: u64, masks: &mut [u64])
    requires { (w ≤ 64) × AllOnes masks.old }
    ensures { DepthMasks w masks.new }
{
    let last = w as usize;
    let mut below = crate::passes::bits_behind(w, 0);
    for d in 0..=last {
        masks[d] = below;
        below /= 2;
    }
}
