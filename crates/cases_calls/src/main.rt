// Plays the histories of standard input; crates/history_play says how they are written. The buffers have room for a text of 131,072
// bytes, 257 inputs, 3,000 records and 50,000 clause words.
#![tactic(auto)]

use std::io;

fn main(rt: HostRuntime) -> io::Result<()> {
    history_play::play_input(&rt)
}
