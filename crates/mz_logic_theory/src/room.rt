ghost use Rattle.std.specs.Prelude.{◌≡◌, ◌∷◌, [], ◌++◌, IfErr, OnOk, OnErr};

use std::alloc::AllocFailed;

/// Appends to a list that mostly stays short. A full one doubles its room, from that of one item.
///
/// # Errors
///
/// Where there is no memory. The items are unchanged then, and the new one is given back.
pub fn push_tightly<T>(items: &mut Vec<T>, item: T) -> Result<(), AllocFailed<T>>
    ensures ok { OnOk result (items.new.items ≡ items.old.items ++ item ∷ []) }
    ensures err { IfErr result (λ e. e.value ≡ item) }
    ensures same { OnErr result (items.new.items ≡ items.old.items) }
{
    let len = items.len();
    if len == items.capacity() && items.reserve_exact(len.max(1)).is_err() {
        return Err(AllocFailed { value: item });
    }
    items.push(item)
}
