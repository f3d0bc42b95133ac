//! The whole program over the arguments that the system hands over.

ghost use Rattle.std.specs.Prelude.{◌≡◌, ◌≤◌, drop, false, length, map, string_bytes, take};
ghost use Rattle.std.specs.Vec.Iter.{into_iter_items};
ghost use Rattle.vp_answer.specs.Closing.{TookNothing};
ghost use Rattle.vp_run.specs.Answer.{needs_input};
ghost use Rattle.vp_run.specs.Arguments.{Ended, words_of};

use crate::vpoker_in_blocks;
use arrayvec::ArrayVec;
use std::alloc::Global;
use std::env::Args;
use vp_io::{Sink, Source};

/// Runs the program on its arguments, of which the first is its own name, over a sink that has taken nothing. The text
/// is put in blocks. Gives the code that the program ends with, and the sink back.
pub fn run<S: Source, K: Sink>(alloc: Global, arguments: Args, source: &mut S, sink: K) -> (u8, K)
    requires fresh { TookNothing (K.told sink).bytes }
    // Words that need no input: the source is not read.
    ensures unread { needs_input (words_of arguments) ≡ false → source.new ≡ source.old }
    // The code is that of the status with which the words end.
    ensures ended { Ended (words_of arguments)
        (S.told source.old)
        (S.told source.new)
        (K.told sink)
        (K.told result.1) result.0 }
{
    let texts = texts_of(alloc, arguments);
    let words = slices_of(&texts);
    let (status, sink) = vpoker_in_blocks(alloc, &words, source, sink);
    (status.code(), sink)
}

/// The arguments without the program's name, and without those that make them no command anyway.
fn texts_of(alloc: Global, arguments: Args) -> ArrayVec<String, 6, Global>
    ensures texts { result.items ≡ take 6 (drop 1 (into_iter_items arguments)) }
    ensures few { length result.items ≤ 6 }
{
    let mut texts = ArrayVec::new_in(alloc);
    for text in arguments.skip(1).take(6) {
        texts.push(text);
    }
    texts
}

/// The texts as slices.
fn slices_of<'a>(texts: &'a [String]) -> ArrayVec<&'a str, 6>
    requires { length texts.now ≤ 6 }
    ensures { map (λ w. w.now) result.items ≡ map string_bytes texts.now }
{
    let mut words = ArrayVec::new();
    for text in texts {
        words.push(text.as_str());
    }
    words
}
