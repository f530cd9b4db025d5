// The repair bench: reads a file of words from standard input, and prints what it holds and how fast its graph clocks.
#![tactic(auto)]

mod finding;
mod input;

use finding::inspect;
use input::read_input;
use word_bytes::read_words;

fn main(rt: HostRuntime) -> anyhow::Result<()> {
    let input = read_input(rt)?;
    let bytes = input.bytes;
    let count = bytes / 4;
    println!(rt; "read {bytes} bytes, {count} words")?;
    let words = read_words(rt.alloc(), input.kept.as_slice())?;
    match inspect(words.as_slice(), bytes % 4 != 0) {
        Ok(found) => println!(rt; "{found}")?,
        Err(refusal) => println!(rt; "{refusal}")?,
    }
    Ok(())
}
