ghost use Rattle.std.specs.Prelude.{◌≡◌, sum};
ghost use Rattle.im_io.specs.Whole.{Sends};
ghost use Rattle.im_cmd_lines.specs.Generations.{generation_line};

use im_io::{Failed, Sink, send_pieces};
use itoa::Buffer;

// What bytes add up to.
fn sum_of(bytes: &[u8]) -> u128
    ensures { result ≡ sum bytes.now }
{
    bytes.iter().map(|byte| u128::from(*byte)).sum()
}

/// Sends the line of a run of the made source of so many functions: the bytes of its output, what
/// they add up to, and the status.
pub fn send_generation_line<S: Sink>(
    sink: &mut S,
    count: u32,
    output: &[u8],
    status: i32,
) -> Result<(), Failed>
    ensures { Sends (generation_line count output.now status) result (S.state sink.old)
        (S.state sink.new) }
{
    let mut count_text = Buffer::new();
    let mut length_text = Buffer::new();
    let mut sum_text = Buffer::new();
    let mut status_text = Buffer::new();
    send_pieces(
        sink,
        &[
            b"gen ",
            count_text.format(count).as_bytes(),
            b": output ",
            length_text.format(output.len()).as_bytes(),
            b" sum ",
            sum_text.format(sum_of(output)).as_bytes(),
            b" status ",
            status_text.format(status).as_bytes(),
            b"\n",
        ],
    )
}
