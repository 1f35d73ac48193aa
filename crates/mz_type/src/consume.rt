//! Lists that are used up.
ghost use Rattle.std.specs.Prelude.{◌≡◌, ◌∷◌, [], ◌++◌, MatchOption};

/// Takes the last item, if there is one.
///
/// The room of those that were taken before is given back, an eighth of the rest at a time, so that
/// what is made of them may use it.
pub fn take_last<T>(items: &mut Vec<T>) -> Option<T>
    ensures { MatchOption result (items.old.items ≡ []) (λ x. items.old.items ≡ items.new.items ++ x ∷ []) }
{
    if items.len() <= items.capacity() / 8 * 7 {
        items.shrink_to_fit();
    }
    items.pop()
}
