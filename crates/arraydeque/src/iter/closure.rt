//! A closure called on all items of an iterator.
ghost use Rattle.std.specs.Prelude.{List};
ghost use Rattle.std.specs.Fn.{Called};
ghost use Rattle.std.specs.List.{FoldsTo};
ghost use Rattle.std.specs.Iterator.{IsFinite, CallableInForEach, Drains};

/// Calls `f` on each item in turn, and hands `f` back.
#[inline]
pub(super) fn call_on_each<I: Iterator, F: FnMut(I::Item)>(mut items: I, mut f: F) -> F
    requires may { I.can_next items }
    requires ends { IsFinite (I.remaining items) }
    requires callable { CallableInForEach I.next_gives F.FnMut items f }

    // `f` was called on each of the items `xs` that came, in turn, and is what the last call left.
    ensures { (xs : List I.Item) × Drains I.next_gives items xs
        × FoldsTo (λ p x q. Called F.FnMut p (x, tt) tt q) f xs result }
{
    while let Some(item) = items.next() {
        f(item);
    }
    f
}
