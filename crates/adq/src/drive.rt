//! The whole program, over any streams.
ghost use Rattle.std.specs.Option.{option_zip};
ghost use Rattle.std.specs.Prelude.{◌≡◌, ◌≤◌, ◌∷◌, [], ◌++◌, Result, IfOk, IfErr, Some, None, ⊤, codes, flat_map, map, string_bytes};
ghost use Rattle.arraydeque.specs.Machine.{answer_of};
ghost use Rattle.adq.specs.Run.{policy_of, settings_of, Drives, Reports};
ghost use Rattle.adq.specs.Text.{text_of, list_text};
ghost use Rattle.adq.specs.declared.fault.Fault.{Fault};
ghost use Rattle.adq.specs.declared.fault.Fault.TheVariants.{Memory};

use crate::fault::Fault;
use crate::line::calls;
use crate::print::{print_deque, print_reply};
use crate::streams::{read, write};
use arraydeque::behavior::Behavior;
use arraydeque::run::{Reply, RunPolicy};
use arraydeque::{ArrayDeque, Saturating, Wrapping};
use std::alloc::Global;
use std::io::{Read, Write};

#[cfg(test)]
mod tests;

/// Runs the program on the words after its name, and returns its status.
///
/// With bad arguments nothing is read, and with a bad line no call is made.
pub fn drive<R: Read, W: Write, F: Write>(
    alloc: Global,
    args: &[String],
    input: &mut R,
    output: &mut W,
    faults: &mut F,
) -> u8
    // The run ends in some `end`: `Drives` says what it wrote, `Reports` what it told of that end.
    ensures run { (end : Result ⊤ Fault)
        × Drives (settings_of (map (λ word. string_bytes word) args.now)) (R.remaining input.old)
        (W.contents output.old) (W.contents output.new) end
        × Reports end result (F.contents faults.old) (F.contents faults.new) }
    ensures bound { result ≤ 3 }
    ensures arguments { settings_of (map (λ word. string_bytes word) args.now) ≡ None
        → result ≡ 2 }
    ensures unread { settings_of (map (λ word. string_bytes word) args.now) ≡ None
        → input.new ≡ input.old }
{
    match run_with(alloc, args, input, output) {
        Ok(()) => 0,
        Err(fault) => fault.report(faults),
    }
}

/// Reads all input, and writes what it prints, at the capacity and under the policy that two words
/// name.
fn run_with<R: Read, W: Write>(
    alloc: Global,
    args: &[String],
    input: &mut R,
    output: &mut W,
) -> Result<(), Fault>
    ensures run { Drives (settings_of (map (λ word. string_bytes word) args.now))
        (R.remaining input.old) (W.contents output.old) (W.contents output.new) result }
    ensures unread { settings_of (map (λ word. string_bytes word) args.now) ≡ None
        → input.new ≡ input.old }
{
    let [policy, capacity] = args else {
        return Err(Fault::Arguments);
    };
    let policy = policy.as_str();
    match capacity.as_str() {
        "0" => run_at::<R, W, 0>(alloc, policy, input, output),
        "1" => run_at::<R, W, 1>(alloc, policy, input, output),
        "2" => run_at::<R, W, 2>(alloc, policy, input, output),
        "3" => run_at::<R, W, 3>(alloc, policy, input, output),
        "5" => run_at::<R, W, 5>(alloc, policy, input, output),
        "7" => run_at::<R, W, 7>(alloc, policy, input, output),
        "8" => run_at::<R, W, 8>(alloc, policy, input, output),
        _ => Err(Fault::Arguments),
    }
}

/// The same at one capacity.
fn run_at<R: Read, W: Write, const CAP: usize>(
    alloc: Global,
    policy: &str,
    input: &mut R,
    output: &mut W,
) -> Result<(), Fault>
    ensures run { Drives (option_zip (Some CAP) (policy_of policy.now))
        (R.remaining input.old) (W.contents output.old) (W.contents output.new) result }
    ensures unread { option_zip (Some CAP) (policy_of policy.now) ≡ None
        → input.new ≡ input.old }
{
    match policy {
        "sat" => run_on::<R, W, CAP, Saturating>(alloc, input, output),
        "wrap" => run_on::<R, W, CAP, Wrapping>(alloc, input, output),
        _ => Err(Fault::Arguments),
    }
}

/// The same under one policy. The deque is made first, then all input is read, and then every line
/// of it.
fn run_on<R: Read, W: Write, const CAP: usize, B: RunPolicy<i64, CAP>>(
    alloc: Global,
    input: &mut R,
    output: &mut W,
) -> Result<(), Fault>
    ensures { Drives (Some (CAP, B.policy)) (R.remaining input.old)
        (W.contents output.old) (W.contents output.new) result }
{
    let mut deque = ArrayDeque::<i64, CAP, B>::new(alloc)?;
    let mut text = Vec::new(alloc);
    read(input, &mut text)?;
    let calls = calls(alloc, text.as_slice())?;
    let replies = deque.run(calls)?;
    let printed = print(alloc, replies, &deque)?;
    write(output, printed.as_bytes())
}

/// The text of the replies, and then of the list.
fn print<const CAP: usize, B: Behavior>(
    alloc: Global,
    replies: Vec<Reply<i64, CAP, B>>,
    deque: &ArrayDeque<i64, CAP, B>,
) -> Result<String, Fault>
    ensures ok { IfOk result (λ text. string_bytes text
        ≡ flat_map (λ reply. text_of (answer_of reply) ++ 10 ∷ []) replies.items
        ++ codes "list: " ++ list_text deque.now.items ++ 10 ∷ []) }
    ensures refused { IfErr result (λ fault. fault ≡ Memory) }
{
    let mut text = String::new(alloc);
    for reply in replies {
        print_reply(&mut text, reply)?;
    }
    text.push_str("list: ")?;
    print_deque(&mut text, deque)?;
    Ok(text)
}
