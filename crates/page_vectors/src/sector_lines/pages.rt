// Calls about a whole page: each reads one buffer and may write another.
use crate::answers;
use replies::Refusal;
use streams::System;

// A write, a look or a take, with the buffer that is written as long as it is in the line. Its answer is printed.
pub fn page<R: System + Input + Print, F: FnOnce(&[u8], &mut [u8]) -> Result<(), Refusal>>(
    rt: &R,
    words: &[u8],
    call: F,
) -> Option<()>
    requires { F.IsAlwaysCallable call }
{
    let mut read = text::buffer::<65536>();
    let n = vector_words::buffer(words, 8, &mut read)?;
    let mut written = text::buffer::<65536>();
    let m = vector_words::buffer(words, 9, &mut written)?;
    let written = text::front_mut(&mut written, m as usize);
    let answer = call(text::front(&read, n as usize), written);
    answers::show_buffers(rt, answer, &[written]);
    Some(())
}
