ghost use Rattle.im_replay_witness.specs.Writer.{WriterByteLaw, WriterLaw, WriterOutputLaw};
ghost use Rattle.im_replay_witness.specs.Writer.{WriterShowsLaw};

/// A program that writes one byte of output has what the compiler owes.
pub fn writer_law()
    ensures { WriterLaw }
{}

/// It stores the selector of the output's length as the law of output asks.
pub fn writer_shows_law()
    ensures { WriterShowsLaw }
{}

/// So its output never shrinks, under every list of periods.
pub fn writer_output_law()
    ensures { WriterOutputLaw }
{}

/// And it does write: behind the store of the selector the output is one byte.
pub fn writer_byte_law()
    ensures { WriterByteLaw }
{}
