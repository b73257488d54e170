//! The loop of the machine, and the text that it prints.
//!
//! A run takes no memory: the text is kept back in a buffer whose room was reserved, and goes to the
//! sink where the next line might not fit, and at the end. So the sink has a front of the text at any
//! moment, and all of it at the end.

ghost use Rattle.std.specs.Prelude.{◌≡◌, ◌+◌, ◌-◌, ◌<◌, ◌≤◌, ◌^◌, [], ◌++◌, length, take, reverse, slice_get, Some, Option, vec_capacity, map};
ghost use Rattle.object_format.specs.Image.{LinkedFn};
ghost use Rattle.stack_vm.specs.Heights.{greatest_of};
ghost use Rattle.stack_vm.specs.Sound.{AllSound};
ghost use Rattle.stack_vm.specs.Standing.{RunsOn};
ghost use Rattle.stack_vm.specs.Acts.{line_of, runs, runs_from, Ran};
ghost use Rattle.stack_vm.specs.Running.{acts, Counted, Keeps, WorkLeaves, RunLeaves};
ghost use Rattle.sinks.specs.SinkState.{SinkState};

use crate::copies::clear;
use crate::end::{End, Kind};
use crate::machine::{Frame, MOST_WORDS, Next, State, TEXT_ROOM, call, greatest_at, leave, step};
use itoa::Buffer;
use object_format::ImageFn;
use sinks::{Putting, Sink, put_all};
use std::alloc::Global;

/// The most bytes of a line: a sign, nineteen digits and the line's end.
const LINE_ROOM: usize = 21;

/// Keeps a number's line.
fn keep(text: &mut Vec<u8>, value: i64)
    requires { length text.old.items + 21 ≤ vec_capacity text.old }
    ensures text { text.new.items ≡ text.old.items ++ line_of value }
    ensures capacity { vec_capacity text.old ≤ vec_capacity text.new }
{
    let mut buffer = Buffer::new();
    let digits = buffer.format(value);
    text.extend_from_slice(digits.as_bytes()).unwrap();
    text.push(b'\n').unwrap();
}

/// Puts the kept text where a line might not fit behind it.
fn make_room<S: Sink>(alloc: Global, sink: &mut S, text: &mut Vec<u8>) -> Putting
    requires { 65_536 ≤ vec_capacity text.old }
    ensures keeps { Keeps (S.told sink.old) (S.told sink.new) text.old.items text.new.items [] result }
    ensures room { result ≡ Putting.Done → length text.new.items + 21 ≤ 65_536 }
    ensures capacity { vec_capacity text.old ≤ vec_capacity text.new }
{
    if text.len() + LINE_ROOM <= TEXT_ROOM {
        return Putting::Done;
    }
    let put = put_all(alloc, sink, text.as_slice());
    if put == Putting::Done {
        text.clear();
    }
    put
}

/// Keeps a number's line, behind what is kept or behind nothing.
fn print<S: Sink>(alloc: Global, sink: &mut S, text: &mut Vec<u8>, value: i64) -> Putting
    requires { 65_536 ≤ vec_capacity text.old }
    ensures keeps { Keeps (S.told sink.old) (S.told sink.new) text.old.items text.new.items (line_of value) result }
    ensures capacity { vec_capacity text.old ≤ vec_capacity text.new }
{
    let put = make_room(alloc, sink, text);
    if put == Putting::Done {
        keep(text, value);
    }
    put
}

/// The end by a trap of the instruction at which a state stands.
fn trapped(kind: Kind, state: State) -> End
    requires { state.place < 2 ^ 32 }
    ensures { result ≡ End.Trapped kind state.number state.place }
{
    End::Trapped {
        kind,
        function: state.number,
        offset: state.place as u32,
    }
}

/// Goes on from a state for at most so many steps. What is printed is put or kept.
#[inline(never)]
fn work<S: Sink>(
    alloc: Global,
    functions: &[ImageFn],
    greatest: &[u32],
    start: State,
    words: &mut [i64],
    frames: &mut Vec<Frame>,
    text: &mut Vec<u8>,
    steps: u64,
    sink: &mut S,
) -> End
    requires greatest { greatest.now ≡ map (greatest_of functions.now) functions.now }
    requires sound { AllSound functions.now }
    requires runs { RunsOn functions.now start (length words.old) frames.old.items (vec_capacity frames.old) }
    requires counted { Counted functions.now (reverse frames.old.items) (take start.base (take start.top words.old)) start.below }
    requires room { 65_536 ≤ vec_capacity text.old }
    requires nothing { text.old.items ≡ [] }
    ensures leaves { (f : LinkedFn) → slice_get functions.now start.number ≡ Some f
        → WorkLeaves (runs functions.now steps (acts functions.now f start frames.old.items (take start.top words.old))) (S.told sink.old) (S.told sink.new) text.new.items result }
    ensures frames { vec_capacity frames.old ≤ vec_capacity frames.new }
    ensures text { vec_capacity text.old ≤ vec_capacity text.new }
{
    let mut state = start;
    let mut function = &functions[state.number as usize];
    let mut code = function.code();
    for _ in 0..steps {
        match step(functions, function, code, words, state) {
            Next::Went(next) => state = next,
            Next::Call(callee) => {
                let Some(next) = call(functions, greatest, function, callee, words, frames, state)
                else {
                    return trapped(Kind::Depth, state);
                };
                state = next;
                function = &functions[state.number as usize];
                code = function.code();
            }
            Next::Return => {
                let Some(next) = leave(functions, function, words, frames, state) else {
                    return End::Ended;
                };
                state = next;
                function = &functions[state.number as usize];
                code = function.code();
            }
            Next::Print(next, value) => match print(alloc, sink, text, value) {
                Putting::Done => state = next,
                Putting::Failed => return End::WriteFault,
                Putting::Memory => return End::Memory,
            },
            Next::Trapped(kind) => return trapped(kind, state),
        }
    }
    End::OutOfSteps
}

/// Puts what is kept, unless the run ended by a put. The answer is how the whole run ends.
fn finish<S: Sink>(alloc: Global, sink: &mut S, text: &[u8], end: End) -> End
    ensures { (wanted : Option Ran) (ran : Ran) (old : SinkState) → wanted ≡ Some ran → WorkLeaves wanted old (S.told sink.old) text.now end → RunLeaves wanted old (S.told sink.new) result }
{
    match end {
        End::WriteFault => End::WriteFault,
        End::Memory => End::Memory,
        _ => match put_all(alloc, sink, text) {
            Putting::Done => end,
            Putting::Failed => End::WriteFault,
            Putting::Memory => End::Memory,
        },
    }
}

/// Runs from the entry for at most so many steps.
pub fn run_from<S: Sink>(
    alloc: Global,
    functions: &[ImageFn],
    greatest: &[u32],
    entry: u32,
    words: &mut [i64],
    frames: &mut Vec<Frame>,
    text: &mut Vec<u8>,
    steps: u64,
    sink: &mut S,
) -> End
    requires greatest { greatest.now ≡ map (greatest_of functions.now) functions.now }
    requires sound { AllSound functions.now }
    requires there { entry < length functions.now }
    requires long { length words.old ≡ 3_598_576 }
    requires frames { 10_000 ≤ vec_capacity frames.old }
    requires text { 65_536 ≤ vec_capacity text.old }
    ensures leaves { RunLeaves (runs_from functions.now steps entry (slice_get functions.now entry)) (S.told sink.old) (S.told sink.new) result }
    ensures frames { vec_capacity frames.old ≤ vec_capacity frames.new }
    ensures text { vec_capacity text.old ≤ vec_capacity text.new }
{
    frames.clear();
    text.clear();
    let function = &functions[entry as usize];
    if greatest_at(functions, greatest, function, entry) > MOST_WORDS {
        return End::Trapped {
            kind: Kind::Depth,
            function: entry,
            offset: 0,
        };
    }
    let top = function.slots() as usize;
    clear(words, 0, top);
    let start = State {
        number: entry,
        place: 0,
        base: 0,
        top,
        below: 0,
    };
    let end = work(
        alloc, functions, greatest, start, words, frames, text, steps, sink,
    );
    finish(alloc, sink, text.as_slice(), end)
}
