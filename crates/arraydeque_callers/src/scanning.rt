//! What a caller knows of what a scanner has left, also where it gave no item.
ghost use Rattle.std.specs.Prelude.{◌≡◌, ◌⊎◌, ◌∷◌, []};
ghost use Rattle.std.specs.Iterator.{IsFinite, UpTo, size};
ghost use Rattle.arraydeque.specs.Lookahead.{HasRest, TakesOff};

use arraydeque::lookahead::Scanner;

/// Takes the next item, or returns another where none is left.
pub fn next_or<I: Iterator<Item: Drop>, const AHEAD: usize>(
    scanner: &mut Scanner<I, AHEAD>,
    other: I::Item,
) -> I::Item
    requires ends { IsFinite scanner.old.left }
    ensures answer { TakesOff I.next_gives scanner.old (result ∷ []) scanner.new
        ⊎ (HasRest I.next_gives scanner.old [] × (result ≡ other)) }
    ensures ends { UpTo scanner.new.left (size scanner.old.left) }
{
    match scanner.next() {
        Some(item) => item,
        None => other,
    }
}
