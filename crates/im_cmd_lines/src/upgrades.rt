ghost use Rattle.im_io.specs.Whole.{Sends};
ghost use Rattle.im_cmd_lines.specs.Upgrades.{upgrade_line};

use im_image::Version;
use im_io::{Failed, Sink, send_pieces};
use itoa::Buffer;

/// Sends the line of an upgrade: the version that the image's text had, and that it has now.
pub fn send_upgrade_line<S: Sink>(sink: &mut S, version: Version) -> Result<(), Failed>
    ensures { Sends (upgrade_line version) result (S.state sink.old) (S.state sink.new) }
{
    let mut text = Buffer::new();
    send_pieces(
        sink,
        &[
            b"version ",
            text.format(version.number()).as_bytes(),
            b" to 2\n",
        ],
    )
}
