//! Lists that may be absent: making one needs an allocator.
ghost use Rattle.std.specs.Prelude.{◌≡◌, ◌<◌, ◌++◌, ◌∷◌, [], length, Some, None, IfOk, OnOk, OnErr, slice_get};
ghost use Rattle.std.specs.Borrow.{sem};
ghost use Rattle.fm_registry_rules.specs.Answer.{refusal_of, IsReturned};
ghost use Rattle.fm_registry_rules.specs.Lists.{items_of};
ghost use Rattle.fm_registry_rules.specs.inside.LendsElement.{lends_element};

use crate::RegistryError;
use std::alloc::Allocator;

/// A mutable reference to the element at an index.
pub fn element_mut<T, A: Allocator>(list: &mut Option<Vec<T, A>>, index: usize) -> &mut T
    requires { index < length (items_of list.old) }
    ensures* writes_back { sem 𝓛 (lends_element T.row A.row A.Allocator list.entry index result) }
    ensures value { slice_get (items_of list.old) index ≡ Some result.now }
{
    match list {
        Some(items) => &mut items[index],
        None => unreachable!(),
    }
}

/// Adds an item at the end and returns its index. Fails with `Memory` if memory runs out, and then the list stays as it was.
pub fn push_to<T: Drop>(list: &mut Vec<T>, item: T) -> Result<usize, RegistryError>
    ensures answer { IsReturned (refusal_of result) None }
    ensures index { IfOk result (λ index. index ≡ length list.old.items) }
    ensures ok { OnOk result (list.new.items ≡ list.old.items ++ item ∷ []) }
    ensures err { OnErr result (list.new.items ≡ list.old.items) }
{
    let index = list.len();
    match list.push(item) {
        Ok(()) => Ok(index),
        Err(_) => Err(RegistryError::Memory),
    }
}
