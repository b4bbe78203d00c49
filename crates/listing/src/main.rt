// The listing program: document 01's lines for the yard sheet on standard input. tests/tests/listing.rs runs it.
#![tactic(auto)]

use lister::{MOST_INPUT, MOST_TEXT, list_into};

// The descriptors of the standard streams. The kit's stdin and stdout belong to a runtime with an allocator, and here is no heap.
const STDIN: i32 = 0;

const STDOUT: i32 = 1;

const STDERR: i32 = 2;

// One byte more than is allowed is read, so that input that is too long is seen to be. That the lines could not be written is told on
// standard error alone, as it always was: the program's exit status is part of what it does, and stays.
fn main() {
    let mut sheet = [0u8; MOST_INPUT + 1];
    let n = io::read_full(STDIN, &mut sheet);
    let mut out = [0u8; MOST_TEXT];
    let size = list_into(&sheet[..n], &mut out);
    if !io::write_all(STDOUT, &out[..size]) {
        io::write_all(STDERR, b"listing: the lines could not be written\n");
    }
}
