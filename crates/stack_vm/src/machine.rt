//! One step of the machine.
//!
//! All words lie in one list. A frame is its slots and, above them, its operand words, and the words
//! that a caller pushed for its callee become the callee's first slots where they lie. A frame that
//! waits keeps where it goes on, and `below`, the operand words of all frames under it, so that the
//! test of depth is one sum. What the state and the frames promise is `Stands` and `Runs`: each
//! instruction that is read there finds its words, its slot and the instruction to go on with, which
//! is why none of that is tested here.

ghost use Rattle.std.specs.Prelude.{◌≡◌, ◌+◌, ◌-◌, ◌<◌, ◌≤◌, length, slice_get, Some, IfSome, ◌^◌, vec_capacity, map};
ghost use Rattle.object_format.specs.Image.{LinkedFn};
ghost use Rattle.stack_vm.specs.Operation.{operation_at};
ghost use Rattle.stack_vm.specs.Heights.{greatest_of};
ghost use Rattle.stack_vm.specs.Sound.{Leaves, IsSound, AllSound};
ghost use Rattle.stack_vm.specs.Standing.{height, CallGives, LeaveGives, Runs, RunsOn, CanCall, Stands, StandsNext, IsNext};
ghost use Rattle.stack_vm.specs.Effect.{DidAt, height_after};
ghost use Rattle.stack_vm.specs.Effect as spec;
ghost use Rattle.std.specs.Prelude.{take, [], ◌∷◌, ◌++◌, slice_set, pos, if◌then◌else◌};
ghost use Rattle.std.specs.Ordering.{int_eq};

use crate::arithmetic::{computed, is_equal, negated, word};
use crate::copies::{clear, move_down};
use crate::end::Kind;
use crate::operation::{Operation, read};
use object_format::ImageFn;

/// The most frames.
pub const MOST_FRAMES: usize = 10_000;

/// The most operand words of all frames.
pub const MOST_WORDS: usize = 1_048_576;

/// The operand words and the slots of all frames.
pub const ROOM: usize = 3_598_576;

/// How many bytes of text are kept back at most.
pub const TEXT_ROOM: usize = 65_536;

/// Where the machine is in the function at hand.
#[derive(Clone, Copy, Debug)]
pub struct State {
    pub number: u32,
    pub place: usize,
    pub base: usize,
    pub top: usize,
    pub below: usize,
}

/// A function that waits for the one above it.
#[derive(Clone, Copy, Debug)]
pub struct Frame {
    pub number: u32,
    pub place: u32,
    pub base: u32,
    pub below: u32,
}

/// What a step leads to.
#[derive(Clone, Copy, Debug)]
pub enum Next {
    Went(State),
    Call(u32),
    Return,
    Print(State, i64),
    Trapped(Kind),
}

#[inline(always)]
fn fetch(
    functions: &[ImageFn],
    function: &ImageFn,
    code: &[u8],
    words: &[i64],
    state: State,
) -> Operation
    requires code { code.now ≡ function.now.code }
    requires stands { Stands functions.now function.now state (length words.now) }
    ensures next { IsNext functions.now function.now state (length words.now) result }
    ensures is { operation_at function.now.code state.place ≡ Some result }
{
    read(code, state.place)
}

/// The k-th word from the top.
#[inline(always)]
fn under(words: &[i64], top: usize, k: usize) -> i64
    requires { (k < top) × (top ≤ length words.now) }
    ensures { result ≡ spec.under (take top words.now) k }
{
    words[top - 1 - k]
}

/// Puts a word in the place of those that are taken.
#[inline(always)]
fn put(words: &mut [i64], state: State, taken: usize, value: i64, size: usize) -> State
    requires taken { taken ≤ state.top }
    requires room { (state.top - taken) + 1 ≤ length words.old }
    requires fits { (length words.old < 2 ^ 32) × (state.place < 2 ^ 32) × (size < 16) × (state.top ≤ length words.old) }
    ensures words { take result.top words.new ≡ take (state.top - taken) (take state.top words.old) ++ value ∷ [] }
    ensures state { result ≡ record { number = state.number; place = state.place + size; base = state.base; top = (state.top - taken) + 1; below = state.below } }
{
    let at = state.top - taken;
    words[at] = value;
    State {
        number: state.number,
        place: state.place + size,
        base: state.base,
        top: at + 1,
        below: state.below,
    }
}

/// Goes on at a place with fewer words.
#[inline(always)]
fn go(state: State, taken: usize, place: usize) -> State
    requires { taken ≤ state.top }
    ensures { result ≡ record { number = state.number; place = place; base = state.base; top = state.top - taken; below = state.below } }
{
    State {
        number: state.number,
        place,
        base: state.base,
        top: state.top - taken,
        below: state.below,
    }
}

/// Puts the word on top into a slot.
#[inline(always)]
fn store(words: &mut [i64], state: State, slot: u8)
    requires { (state.base + slot < state.top - 1) × (state.top ≤ length words.old) × (0 < state.top) }
    ensures words { take (state.top - 1) words.new ≡ slice_set (take (state.top - 1) words.old) (state.base + slot) (spec.under (take state.top words.old) 0) }
{
    words[state.base + slot as usize] = under(words, state.top, 0);
}

/// Goes to a place where the word on top is 0.
#[inline(always)]
fn branch(words: &[i64], state: State, to: u32) -> State
    requires { (0 < state.top) × (state.top ≤ length words.now) × (state.place < 2 ^ 32) }
    ensures place { result.place ≡ (if int_eq (spec.under (take state.top words.now) 0) (pos 0) then to else (state.place + 5)) }
    ensures number { result.number ≡ state.number }
    ensures base { result.base ≡ state.base }
    ensures below { result.below ≡ state.below }
    ensures top { result.top ≡ state.top - 1 }
{
    let place = if is_equal(under(words, state.top, 0), 0) {
        to as usize
    } else {
        state.place + 5
    };
    go(state, 1, place)
}

#[inline(always)]
pub fn step(
    functions: &[ImageFn],
    function: &ImageFn,
    code: &[u8],
    words: &mut [i64],
    state: State,
) -> Next
    requires code { code.now ≡ function.now.code }
    requires stands { Stands functions.now function.now state (length words.old) }
    ensures safe { StandsNext functions.now function.now state (length words.new) result }
    ensures did { DidAt (take state.top words.old) state (operation_at function.now.code state.place) result (take (height_after state result) words.new) }
{
    match fetch(functions, function, code, words, state) {
        Operation::Push8(value) => Next::Went(put(words, state, 0, i64::from(value), 2)),
        Operation::Push64(value) => Next::Went(put(words, state, 0, value, 9)),
        Operation::Load(slot) => {
            let value = words[state.base + slot as usize];
            Next::Went(put(words, state, 0, value, 2))
        }
        Operation::Store(slot) => {
            store(words, state, slot);
            Next::Went(go(state, 1, state.place + 2))
        }
        Operation::Pop => Next::Went(go(state, 1, state.place + 1)),
        Operation::Dup => {
            let a = under(words, state.top, 0);
            Next::Went(put(words, state, 0, a, 1))
        }
        Operation::Nop => Next::Went(go(state, 0, state.place + 1)),
        Operation::Compute(operator) => {
            let b = under(words, state.top, 0);
            let a = under(words, state.top, 1);
            match computed(operator, a, b) {
                Ok(value) => Next::Went(put(words, state, 2, value, 1)),
                Err(kind) => Next::Trapped(kind),
            }
        }
        Operation::Neg => {
            let a = under(words, state.top, 0);
            Next::Went(put(words, state, 1, negated(a), 1))
        }
        Operation::Not => {
            let a = under(words, state.top, 0);
            Next::Went(put(words, state, 1, word(is_equal(a, 0)), 1))
        }
        Operation::Jump(to) => Next::Went(go(state, 0, to as usize)),
        Operation::JumpZero(to) => Next::Went(branch(words, state, to)),
        Operation::Call(callee) => Next::Call(callee),
        Operation::Return => Next::Return,
        Operation::Print => Next::Print(go(state, 1, state.place + 1), under(words, state.top, 0)),
        Operation::Trap => Next::Trapped(Kind::Trap),
    }
}

/// The function that is called.
#[inline(always)]
fn callee<'a>(
    functions: &'a [ImageFn],
    function: &ImageFn,
    number: u32,
    state: State,
) -> &'a ImageFn
    requires leaves { CanCall functions.now function.now state number }
    requires sound { AllSound functions.now }
    ensures is { slice_get functions.now number ≡ Some result.now }
    ensures leaves { Leaves functions.now function.now (state.place + 5) (height function.now state) result.now.params result.now.«result» }
    ensures sound { IsSound functions.now result.now }
{
    &functions[number as usize]
}

/// Makes the frame of a callee, whose arguments are the words on top.
pub fn call(
    functions: &[ImageFn],
    greatest: &[u32],
    function: &ImageFn,
    number: u32,
    words: &mut [i64],
    frames: &mut Vec<Frame>,
    state: State,
) -> Option<State>
    requires greatest { greatest.now ≡ map (greatest_of functions.now) functions.now }
    requires runs { Runs functions.now function.now state (length words.old) frames.old.items (vec_capacity frames.old) }
    requires leaves { CanCall functions.now function.now state number }
    requires sound { AllSound functions.now }
    ensures runs { IfSome result (λ next. RunsOn functions.now next (length words.new) frames.new.items (vec_capacity frames.new)) }
    ensures capacity { vec_capacity frames.old ≤ vec_capacity frames.new }
    ensures did { (g : LinkedFn) → slice_get functions.now number ≡ Some g → CallGives functions.now g function.now number state (take state.top words.old) words.new frames.old.items frames.new.items result }
{
    let callee = callee(functions, function, number, state);
    let most = greatest_at(functions, greatest, callee, number);
    let base = state.top - callee.params() as usize;
    let below = state.below + (base - (state.base + function.slots() as usize));
    if frames.len() + 1 >= MOST_FRAMES || below + most > MOST_WORDS {
        return None;
    }
    let top = base + callee.slots() as usize;
    clear(words, state.top, top);
    let frame = Frame {
        number: state.number,
        place: (state.place + 5) as u32,
        base: state.base as u32,
        below: state.below as u32,
    };
    frames.push(frame).unwrap();
    Some(State {
        number,
        place: 0,
        base,
        top,
        below,
    })
}

/// The greatest height of a function, by its number.
#[inline(always)]
pub fn greatest_at(
    functions: &[ImageFn],
    greatest: &[u32],
    function: &ImageFn,
    number: u32,
) -> usize
    requires greatest { greatest.now ≡ map (greatest_of functions.now) functions.now }
    requires is { slice_get functions.now number ≡ Some function.now }
    ensures most { result ≡ greatest_of functions.now function.now }
    ensures small { result < 2 ^ 32 }
{
    greatest[number as usize] as usize
}

/// Leaves the result's words to the caller.
pub fn leave(
    functions: &[ImageFn],
    function: &ImageFn,
    words: &mut [i64],
    frames: &mut Vec<Frame>,
    state: State,
) -> Option<State>
    requires runs { Runs functions.now function.now state (length words.old) frames.old.items (vec_capacity frames.old) }
    requires height { height function.now state ≡ function.now.«result» }
    ensures runs { IfSome result (λ next. RunsOn functions.now next (length words.new) frames.new.items (vec_capacity frames.new)) }
    ensures capacity { vec_capacity frames.old ≤ vec_capacity frames.new }
    ensures did { LeaveGives function.now state (take state.top words.old) words.new frames.old.items frames.new.items result }
{
    let frame = frames.pop()?;
    let count = function.result() as usize;
    let from = state.top - count;
    move_down(words, from, state.base, count);
    Some(State {
        number: frame.number,
        place: frame.place as usize,
        base: frame.base as usize,
        top: state.base + count,
        below: frame.below as usize,
    })
}
