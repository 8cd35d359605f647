//! Replies and lists as lines of text.
ghost use Rattle.std.specs.Prelude.{◌≡◌, [], ◌∷◌, ◌++◌, OnOk, codes, string_bytes, if◌then◌else◌};
ghost use Rattle.std.specs.Fmt.{signed_decimal};
ghost use Rattle.std.specs.Option.{option_map_or};
ghost use Rattle.arraydeque.specs.Machine.{answer_of};
ghost use Rattle.adq.specs.Text.{text_of, list_text};

use arraydeque::behavior::Behavior;
use arraydeque::run::Reply;
use arraydeque::{ArrayDeque, Drain};
use std::alloc::AllocError;
use std::fmt::Write;

/// Appends one reply as a line.
pub fn print_reply<const CAP: usize, B: Behavior>(
    text: &mut String,
    reply: Reply<i64, CAP, B>,
) -> Result<(), AllocError>
    ensures { OnOk result (string_bytes text.new
        ≡ string_bytes text.old ++ text_of (answer_of reply) ++ 10 ∷ []) }
{
    match reply {
        Reply::Done => writeln!(text, "ok"),
        Reply::Item(item) | Reply::Displaced(item) => print_item(text, item),
        Reply::Number(number) => writeln!(text, "{number}"),
        Reply::Truth(truth) => writeln!(text, "{truth}"),
        Reply::Drained(items) => print_drained(text, items),
        Reply::Split(deque) => print_deque(text, &deque),
        Reply::Full(refusal) => {
            let element = refusal.element;
            writeln!(text, "full {element}")
        }
        Reply::OutOfRange(_) => writeln!(text, "range"),
        Reply::NoMemory => writeln!(text, "memory"),
        Reply::NotOffered(_) => writeln!(text, "unoffered"),
    }
}

/// Appends an item as a line, or `none`.
fn print_item(text: &mut String, item: Option<i64>) -> Result<(), AllocError>
    ensures { OnOk result (string_bytes text.new
        ≡ string_bytes text.old ++ option_map_or signed_decimal item (codes "none") ++ 10 ∷ []) }
{
    match item {
        Some(item) => writeln!(text, "{item}"),
        None => writeln!(text, "none"),
    }
}

/// Appends the items of a deque as a line, like `[1, 2, 3]`.
pub fn print_deque<const CAP: usize, B: Behavior>(
    text: &mut String,
    deque: &ArrayDeque<i64, CAP, B>,
) -> Result<(), AllocError>
    ensures { OnOk result (string_bytes text.new
        ≡ string_bytes text.old ++ list_text deque.now.items ++ 10 ∷ []) }
{
    write!(text, "[")?;
    let mut is_first = true;
    for item in deque.iter() {
        print_next(text, is_first, *item)?;
        is_first = false;
    }
    writeln!(text, "]")
}

/// Appends the items that a drain removed, likewise.
fn print_drained(text: &mut String, items: Drain<i64>) -> Result<(), AllocError>
    ensures { OnOk result (string_bytes text.new
        ≡ string_bytes text.old ++ list_text items ++ 10 ∷ []) }
{
    write!(text, "[")?;
    let mut is_first = true;
    for item in items {
        print_next(text, is_first, item)?;
        is_first = false;
    }
    writeln!(text, "]")
}

/// Appends an item of a list, after a comma unless it is the first.
fn print_next(text: &mut String, is_first: bool, item: i64) -> Result<(), AllocError>
    ensures { OnOk result (string_bytes text.new ≡ string_bytes text.old
        ++ ((if is_first then [] else codes ", ") ++ signed_decimal item)) }
{
    if is_first {
        write!(text, "{item}")
    } else {
        write!(text, ", {item}")
    }
}
