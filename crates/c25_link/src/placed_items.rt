//! What the instructions of all modules give, by addresses.

ghost use Rattle.std.specs.Prelude.{◌≡◌, ◌++◌, ℕ, List, IfOk, OnOk};
ghost use Rattle.std.specs.List.Sorted.{IsPermutation, IsNonDecreasingBy};
ghost use Rattle.c25_meaning_linking.specs.Place.{Place, by_modules};
ghost use Rattle.c25_meaning_objects.specs.Module.{Contents};
ghost use Rattle.c25_module.specs.View.{contents};
ghost use Rattle.c25_link.specs.Layout.{IsLaidOut, IsOwner, places_in};

use crate::layout::Layout;
use c25_module::Parts;
use std::alloc::{AllocError, Global};

/// What an instruction of a module may give once its section is placed.
pub(crate) trait PlacedItem: Copy {
    /// The items of one module, in the order of its instructions.
    ghost of_module: { List Contents → List Place → ℕ → Contents → List Self };

    /// The address that puts an item into its order.
    ghost address_of: { Self → ℕ };

    /// Appends the items of the module of a number.
    fn push_all(
        layout: &Layout<'_, '_>,
        number: usize,
        owner: &Parts,
        items: &mut Vec<Self>,
    ) -> Result<(), AllocError>
        requires laid { IsLaidOut layout.now }
        requires owner { IsOwner layout.now number (contents owner.now) }
        ensures { OnOk result (items.new.items ≡ items.old.items ++ of_module layout.now.modules.now (places_in layout.now) number (contents owner.now)) };

    /// The address that puts an item into its order.
    fn address(&self) -> u16
        ensures { result ≡ address_of self.now };
}

/// The items of all modules, by modules and instructions.
fn all_items<T: PlacedItem>(alloc: Global, layout: &Layout<'_, '_>) -> Result<Vec<T>, AllocError>
    requires { IsLaidOut layout.now }
    ensures { IfOk result (λ v. v.items ≡ by_modules (T.of_module layout.now.modules.now (places_in layout.now)) 0 layout.now.modules.now) }
{
    let mut items = Vec::new(alloc);
    for (number, module) in layout.modules.iter().enumerate() {
        T::push_all(layout, number, module.parts(), &mut items)?;
    }
    Ok(items)
}

/// Brings items into the order of their addresses.
fn sort_by_address<T: PlacedItem>(items: &mut [T])
    ensures permutation { IsPermutation items.old items.new }
    ensures sorted { IsNonDecreasingBy T.address_of items.new }
{
    items.sort_unstable_by_key(|item| item.address());
}

/// The items of all modules, by their addresses.
pub(crate) fn items_by_address<T: PlacedItem>(
    alloc: Global,
    layout: &Layout<'_, '_>,
) -> Result<Vec<T>, AllocError>
    requires { IsLaidOut layout.now }
    ensures permutation { IfOk result (λ v. IsPermutation (by_modules (T.of_module layout.now.modules.now (places_in layout.now)) 0 layout.now.modules.now) v.items) }
    ensures sorted { IfOk result (λ v. IsNonDecreasingBy T.address_of v.items) }
{
    let mut items = all_items(alloc, layout)?;
    sort_by_address(&mut items);
    Ok(items)
}
