// `rightsum` (RULES, section 13): reads standard input to its end, or to the first byte past the most that is taken, and writes how many rights its images give. What
// the text is, `text::rights_text` says and proves.
#![tactic(auto)]

use input::read_full;
use std::io;

fn main(rt: HostRuntime) -> io::Result<()> {
    // Buffers of fixed size with a length beside them, since there is no heap: one byte more than is taken of an input, and room for every text.
    let mut input = [0u8; 32769];
    let mut text = [0u8; 512];
    let got = read_full(&mut rt.stdin(), &mut input)?;
    let size = text::rights_text(&input[..got], &mut text);
    rt.write_all(&text[..size])
}
