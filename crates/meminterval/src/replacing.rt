//! A value that takes the place of another.
ghost use Rattle.std.specs.Prelude.{◌≡◌};
ghost use Rattle.std.specs.List.{slice_get};
ghost use Rattle.std.specs.Option.{option_map};
ghost use Rattle.meminterval.specs.Place.{put_value};
ghost use Rattle.meminterval.specs.Subtree.{tree_of, IsRecorded};
ghost use Rattle.meminterval.specs.Tree.{visited};

use crate::node::Subtree;
use std::mem;

/// Puts `value` in place of the one at a place, and answers that one. All else of the nodes stays.
/// None if there is no such place: then `value` is dropped.
pub(crate) fn replace_below<T: Ord, V: Drop>(
    tree: &mut Subtree<T, V>,
    place: usize,
    value: V,
) -> Option<V>
    requires { IsRecorded T.cmp tree.old }
    ensures nodes { tree.new ≡ put_value value tree.old place }
    ensures value { result ≡ option_map (λ e. e.1) (slice_get (visited (tree_of tree.old)) place) }
{
    let Subtree::Fork(node) = tree else {
        return None;
    };
    if place == 0 {
        return Some(mem::replace(&mut node.value, value));
    }
    let right_size = node.right.size();
    if place <= right_size {
        replace_below(&mut node.right, place - 1, value)
    } else {
        replace_below(&mut node.left, place - 1 - right_size, value)
    }
}
