//! Lists that grow where there is memory.

ghost use Rattle.std.specs.Prelude.{◌≡◌, ◌<◌, ◌++◌, ◌∷◌, [], length, slice_get, slice_set, Err, OnErr, OnOk, Some};
ghost use Rattle.edi_walk.specs.declared.stop.Stop.TheVariants as stop;

use crate::stop::Stop;
use std::mem;

/// Puts an item at the end.
pub fn add<T: Drop>(items: &mut Vec<T>, item: T) -> Result<(), Stop>
    ensures exact { OnOk result (items.new.items ≡ items.old.items ++ item ∷ []) }
    ensures err { OnErr result (result ≡ Err stop.NoMemory) }
{
    match items.push(item) {
        Ok(()) => Ok(()),
        Err(_) => Err(Stop::NoMemory),
    }
}

/// Puts an item in the place of another, which is the answer.
pub fn exchange<T: Drop>(items: &mut Vec<T>, index: usize, item: T) -> T
    requires inside { index < length items.old.items }
    ensures before { slice_get items.old.items index ≡ Some result }
    ensures exact { items.new.items ≡ slice_set items.old.items index item }
{
    mem::replace(&mut items[index], item)
}
